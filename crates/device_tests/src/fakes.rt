//! Readers and writers that behave as they are told.

use std::alloc::Global;
use std::io;
use std::io::{ErrorKind, Read, Write};

/// What a fake does once it is no longer interrupted.
#[derive(Clone, Copy)]
pub enum Then {
    /// Gives an `x`, or takes a byte.
    Works,
    /// Has nothing to give, and takes nothing.
    Idles,
    /// Would block once, and works from then on.
    Blocks,
    Fails,
}

/// Is interrupted so often at first.
#[derive(Drop)]
pub struct Unsteady {
    pub interruptions: u32,
    pub then: Then,
}

impl Unsteady {
    // What a read or a write of a buffer that has room, or bytes, answers.
    fn moved(&mut self) -> io::Result<usize> {
        if self.interruptions > 0 {
            self.interruptions -= 1;
            return Err(io::Error::from(ErrorKind::Interrupted));
        }
        match self.then {
            Then::Works => Ok(1),
            Then::Idles => Ok(0),
            Then::Blocks => {
                self.then = Then::Works;
                Err(io::Error::from(ErrorKind::WouldBlock))
            }
            Then::Fails => Err(io::Error::from(ErrorKind::ConnectionReset)),
        }
    }
}

impl Read for Unsteady {
    fn read(&mut self, buf: &mut [u8]) -> io::Result<usize> {
        let count = self.moved()?.min(buf.len());
        buf[..count].fill(b'x');
        Ok(count)
    }
}

impl Write for Unsteady {
    fn write(&mut self, bytes: &[u8]) -> io::Result<usize> {
        Ok(self.moved()?.min(bytes.len()))
    }

    fn flush(&mut self) -> io::Result<()> {
        self.moved()?;
        Ok(())
    }
}

/// Takes one byte a write, as long as it has room, and counts its flushes.
#[derive(Drop)]
pub struct Narrow {
    pub taken: Vec<u8>,
    pub room: usize,
    pub flushes: u32,
    pub flush_fails: bool,
}

impl Narrow {
    pub fn new(alloc: Global, room: usize, flush_fails: bool) -> Self {
        Narrow {
            taken: Vec::new(alloc),
            room,
            flushes: 0,
            flush_fails,
        }
    }
}

impl Write for Narrow {
    fn write(&mut self, bytes: &[u8]) -> io::Result<usize> {
        if self.taken.len() >= self.room {
            return Err(io::Error::from(ErrorKind::BrokenPipe));
        }
        match bytes.first() {
            Some(&byte) if self.taken.push(byte).is_ok() => Ok(1),
            _ => Ok(0),
        }
    }

    fn flush(&mut self) -> io::Result<()> {
        self.flushes = self.flushes.saturating_add(1);
        if self.flush_fails {
            return Err(io::Error::from(ErrorKind::BrokenPipe));
        }
        Ok(())
    }
}
