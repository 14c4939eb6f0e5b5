//! Links over TCP, with limits of time.

use crate::paced::Paced;
use std::alloc::Global;
use std::io;
use std::net::{Net, SocketAddr, TcpListener, TcpStream};
use std::time::{Clock, Duration};
use td_answers::{LinkError, Links};

// For how many seconds the other site may be silent while it is called, in one read, or in one write.
const MOST_SECONDS: u64 = 30;

// The limit of time of a call, a read and a write.
fn most_silence() -> Duration {
    Duration::from_secs(MOST_SECONDS)
}

// A stream each read and write of which has a limit.
fn with_time_limits(stream: TcpStream) -> io::Result<TcpStream> {
    stream.set_read_timeout(Some(most_silence()))?;
    stream.set_write_timeout(Some(most_silence()))?;
    Ok(stream)
}

// The link of a stream that was opened, with its limits of time; a fault of the net where it was not.
fn link<C: Clock + Drop>(opened: io::Result<TcpStream>, clock: C) -> Result<Paced<C>, LinkError> {
    match opened.and_then(with_time_limits) {
        Ok(stream) => Ok(Paced::new(stream, clock)),
        Err(_) => Err(LinkError::NetFault),
    }
}

/// Waits for a connection at the listener, with no limit, and takes one. A read or a write of it that waits for more
/// than 30 seconds fails, and so do those of one that is slower than the floor of `Paced`.
pub fn accept_on<C: Clock + Drop>(listener: &TcpListener, clock: C) -> Result<Paced<C>, LinkError> {
    link(listener.accept().map(|(stream, _)| stream), clock)
}

/// Opens links over TCP.
#[derive(Drop)]
pub struct TcpLinks<N> {
    net: N,
}

impl<N> TcpLinks<N> {
    /// Links over this network.
    pub fn new(net: N) -> Self {
        TcpLinks { net }
    }
}

impl<N: Net<Listener = TcpListener, Stream = TcpStream> + Clock + Copy + Drop> Links
    for TcpLinks<N> {
    type Link = Paced<N>;

    ghost use Rattle.std.specs.Prelude.{◌≡◌};

    ghost serves = { λ s _ t. t ≡ s };

    ghost calls = { λ s _ t. t ≡ s };

    /// Binds the address, and goes on as `accept_on`.
    fn serve(&mut self, _alloc: Global, address: SocketAddr) -> Result<Paced<N>, LinkError> {
        match TcpListener::bind(&self.net, address) {
            Ok(listener) => accept_on(&listener, self.net),
            Err(_) => Err(LinkError::NetFault),
        }
    }

    /// Connects to the address, within 30 seconds.
    fn call(&mut self, _alloc: Global, address: SocketAddr) -> Result<Paced<N>, LinkError> {
        let opened = TcpStream::connect_timeout(&self.net, &address, most_silence());
        link(opened, self.net)
    }
}
