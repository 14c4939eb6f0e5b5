//! A writer that counts its flushes.

use std::alloc::Global;
use std::io;
use std::io::{ErrorKind, Write};

/// Takes a byte a write, as long as it has room, and counts its flushes, of which so many are let through.
#[derive(Drop)]
pub struct Flushed {
    pub taken: Vec<u8>,
    pub room: usize,
    pub flushes: usize,
    pub most_flushes: usize,
}

impl Flushed {
    /// A writer with room for so many bytes, which lets each flush through.
    pub fn new(alloc: Global, room: usize) -> Flushed {
        Flushed {
            taken: Vec::new(alloc),
            room,
            flushes: 0,
            most_flushes: usize::MAX,
        }
    }

    /// Whether it took these bytes, and so many flushes.
    pub fn has(&self, bytes: &[u8], flushes: usize) -> bool {
        self.taken.as_slice() == bytes && self.flushes == flushes
    }
}

impl Write for Flushed {
    fn write(&mut self, bytes: &[u8]) -> io::Result<usize> {
        if self.taken.len() >= self.room {
            return Err(io::Error::from(ErrorKind::BrokenPipe));
        }
        let len = bytes.len().min(1);
        self.taken.write(&bytes[..len])
    }

    fn flush(&mut self) -> io::Result<()> {
        if self.flushes >= self.most_flushes {
            return Err(io::Error::from(ErrorKind::BrokenPipe));
        }
        self.flushes += 1;
        Ok(())
    }
}
