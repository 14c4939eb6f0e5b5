//! Reads and writes that never block.

use std::io;
use std::io::ErrorKind;

/// What a connection is about, once it had its turn.
#[derive(Clone, Copy, PartialEq, Eq)]
pub(crate) enum Progress {
    /// It can go on at once.
    Busy,
    /// It waits for its other end.
    Waiting,
    /// It is over.
    Ended,
}

/// What a read or a write came to.
#[derive(Clone, Copy)]
pub(crate) enum Transfer {
    Bytes(usize),
    Blocked,
    Failed,
}

/// What a read or a write came to; one that would block or is interrupted counts as blocked.
pub(crate) fn transfer_of(count: io::Result<usize>) -> Transfer {
    match count {
        Ok(count) => Transfer::Bytes(count),
        Err(error) => match error.kind() {
            ErrorKind::WouldBlock | ErrorKind::Interrupted => Transfer::Blocked,
            _ => Transfer::Failed,
        },
    }
}

/// What a connection may be asked for: an event says so, and a call that would block takes it back.
#[derive(Clone, Copy)]
pub(crate) struct Readiness {
    pub(crate) is_readable: bool,
    pub(crate) is_writable: bool,
}

impl Readiness {
    /// Adds what an event says.
    pub(crate) fn add(&mut self, other: Readiness) {
        self.is_readable = self.is_readable || other.is_readable;
        self.is_writable = self.is_writable || other.is_writable;
    }
}
