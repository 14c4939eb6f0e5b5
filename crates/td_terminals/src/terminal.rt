//! Writers to a terminal.

use crate::push_lines;
use std::alloc::Global;
use std::io::{self, ErrorKind, Write};
use std::str;

/// Hands on what is written to it, and to a terminal each character that this would obey by its code point. It takes
/// memory for each text.
#[derive(Drop)]
pub struct Shown<W> {
    alloc: Global,
    inner: W,
    is_terminal: bool,
}

impl<W> Shown<W> {
    pub fn new(alloc: Global, inner: W, is_terminal: bool) -> Shown<W> {
        Shown {
            alloc,
            inner,
            is_terminal,
        }
    }
}

impl<W: Write> Write for Shown<W> {
    fn write(&mut self, bytes: &[u8]) -> io::Result<usize> {
        if !self.is_terminal {
            return self.inner.write(bytes);
        }
        let Ok(text) = str::from_utf8(bytes) else {
            return Err(io::Error::from(ErrorKind::InvalidData));
        };
        let mut shown = String::new(self.alloc);
        let Ok(()) = push_lines(&mut shown, text) else {
            return Err(io::Error::from(ErrorKind::OutOfMemory));
        };
        self.inner.write_all(shown.as_bytes())?;
        Ok(bytes.len())
    }

    fn flush(&mut self) -> io::Result<()> {
        self.inner.flush()
    }
}
