//! Values that both read and write.

ghost use Rattle.std.specs.Prelude.{◌≡◌};
ghost use Rattle.std.specs.Io.{ReadsAtMost, WritesAtMost};
ghost use Rattle.std.specs.Io.KnownBytes.{Keeps, ReadConsumes, WriteAppends};

use std::io;
use std::io::{Read, Write};
use std::net::TcpStream;

/// A value that reads and writes, neither of which touches what the other side has.
pub trait Link: Read + Write {
    /// Reads, as `read` does, and leaves what was written.
    fn read_side(&mut self, buf: &mut [u8]) -> io::Result<usize>
        ensures bound { ReadsAtMost result buf.new }
        ensures bytes { ReadConsumes (Self.remaining self.old) (Self.remaining self.new) result buf.new }
        ensures contents { Keeps (Self.contents self.old) (Self.contents self.new) };

    /// Writes, as `write` does, and leaves what is to be read.
    fn write_side(&mut self, bytes: &[u8]) -> io::Result<usize>
        ensures bound { WritesAtMost result bytes.now }
        ensures bytes { WriteAppends (Self.contents self.old) (Self.contents self.new) result bytes.now }
        ensures remaining { Keeps (Self.remaining self.old) (Self.remaining self.new) };

    /// Flushes, as `flush` does, and leaves what is to be read.
    fn flush_side(&mut self) -> io::Result<()>
        ensures contents { Keeps (Self.contents self.old) (Self.contents self.new) }
        ensures remaining { Keeps (Self.remaining self.old) (Self.remaining self.new) };
}

impl Link for TcpStream {
    fn read_side(&mut self, buf: &mut [u8]) -> io::Result<usize> {
        self.read(buf)
    }

    fn write_side(&mut self, bytes: &[u8]) -> io::Result<usize> {
        self.write(bytes)
    }

    fn flush_side(&mut self) -> io::Result<()> {
        self.flush()
    }
}

/// A reader and a writer as one value.
#[derive(Drop)]
pub struct Pair<R, W> {
    pub reader: R,
    pub writer: W,
}

impl<R: Read, W: Write> Read for Pair<R, W> {
    ghost remaining = { λ p. R.remaining p.reader };

    fn read(&mut self, buf: &mut [u8]) -> io::Result<usize> {
        self.read_side(buf)
    }
}

impl<R: Read, W: Write> Write for Pair<R, W> {
    ghost contents = { λ p. W.contents p.writer };

    fn write(&mut self, bytes: &[u8]) -> io::Result<usize> {
        self.write_side(bytes)
    }

    fn flush(&mut self) -> io::Result<()> {
        self.flush_side()
    }
}

impl<R: Read, W: Write> Link for Pair<R, W> {
    fn read_side(&mut self, buf: &mut [u8]) -> io::Result<usize> {
        self.reader.read(buf)
    }

    fn write_side(&mut self, bytes: &[u8]) -> io::Result<usize> {
        self.writer.write(bytes)
    }

    fn flush_side(&mut self) -> io::Result<()> {
        self.writer.flush()
    }
}
