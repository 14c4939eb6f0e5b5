//! Links to sites of other programs.

ghost use Rattle.std.specs.Prelude.{◌≡◌};
ghost use Rattle.std.specs.declared.net.socket_addr.SocketAddr.{SocketAddr as Address};

use std::alloc::Global;
use std::net::{SocketAddr, TcpStream};
use td_io::Link;
use thiserror::Error;

/// Why no link is opened.
#[derive(Clone, Copy, Debug, Drop, PartialEq, Eq, Error)]
pub enum LinkError {
    #[error("the address cannot be bound, or nothing connects")]
    NetFault,
    #[error("out of memory")]
    OutOfMemory,
}

/// Opens links to other sites.
pub trait Links {
    type Link: Link + Drop;

    /// They were asked once to serve at the address. Only `serve` tells this of any links, so what a caller tells by it
    /// says when the network is asked, and for what.
    ghost serves: { Self → Address → Self → Type 0 };

    /// They were asked once to call the address, which only `call` tells.
    ghost calls: { Self → Address → Self → Type 0 };

    /// Waits at the address, and takes one connection.
    fn serve(&mut self, alloc: Global, address: SocketAddr) -> Result<Self::Link, LinkError>
        ensures asked { serves self.old address self.new };

    /// Connects to the address.
    fn call(&mut self, alloc: Global, address: SocketAddr) -> Result<Self::Link, LinkError>
        ensures asked { calls self.old address self.new };
}

/// Opens no link.
#[derive(Clone, Copy, Drop, PartialEq, Eq)]
pub struct NoLinks;

impl Links for NoLinks {
    type Link = TcpStream;

    ghost serves = { λ s _ t. t ≡ s };

    ghost calls = { λ s _ t. t ≡ s };

    fn serve(&mut self, _alloc: Global, _address: SocketAddr) -> Result<TcpStream, LinkError> {
        Err(LinkError::NetFault)
    }

    fn call(&mut self, _alloc: Global, _address: SocketAddr) -> Result<TcpStream, LinkError> {
        Err(LinkError::NetFault)
    }
}
