//! The console of a server, beside the sockets.

ghost use Rattle.td_event_loop.specs.Chains.{Chain};

use crate::server::Server;
use crate::transfer::{Progress, Readiness};
use mio::unix::SourceFd;
use mio::{Interest, Registry, Token};
use std::io;
use std::os::fd::RawFd;

/// A descriptor that the server reads itself, by one read each time that it can be read. It may block, so an event
/// comes before each read.
#[derive(Drop)]
pub(crate) struct Console {
    descriptor: RawFd,
    is_readable: bool,
}

impl Console {
    /// Has an event come when the descriptor can be read. A file is refused with `PermissionDenied`.
    pub(crate) fn watch(
        registry: &Registry,
        descriptor: RawFd,
        token: Token,
    ) -> io::Result<Console> {
        registry.register(&mut SourceFd(&descriptor), token, Interest::READABLE)?;
        Ok(Console {
            descriptor,
            is_readable: false,
        })
    }

    /// Notes that the console can be read, where an event says so.
    pub(crate) fn add_readiness(&mut self, readiness: Readiness) {
        self.is_readable = self.is_readable || readiness.is_readable;
    }

    // An event comes at a change alone. Asked for again, it also comes where bytes are left.
    fn watch_on(&self, registry: &Registry, token: Token) -> Progress {
        let mut source = SourceFd(&self.descriptor);
        match registry.reregister(&mut source, token, Interest::READABLE) {
            Ok(()) => Progress::Waiting,
            Err(_) => Progress::Ended,
        }
    }

    /// Has the server read once, if something can be read.
    pub(crate) fn take_turn<S: Server>(
        &mut self,
        registry: &Registry,
        token: Token,
        server: &mut S,
    ) -> Progress
        ensures { Chain S.keeps server.old server.new }
    {
        if !self.is_readable {
            return Progress::Waiting;
        }
        self.is_readable = false;
        if server.read_console() {
            return self.watch_on(registry, token);
        }
        let _ = registry.deregister(&mut SourceFd(&self.descriptor));
        Progress::Ended
    }
}
