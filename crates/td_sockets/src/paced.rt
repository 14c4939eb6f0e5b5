//! Connections whose other end may not be slower than a floor.

use std::io;
use std::io::{Error, ErrorKind, Read, Write};
use std::net::TcpStream;
use std::time::{Clock, Duration, Instant};
use td_io::Link;

/// How long this end waits in all for what the other end sends and takes, beside a second for each KiB.
const LEAST_SECONDS: u64 = 30;

const BYTES_A_SECOND: u64 = 1_024;

/// A connection of which reads and writes fail once this end has waited longer for the other one, in all of them, than
/// 30 seconds and one more for each KiB that was moved. What either end does between them takes no time here.
#[derive(Drop)]
pub struct Paced<C> {
    stream: TcpStream,
    clock: C,
    waited: Duration,
    moved: u64,
}

impl<C: Clock> Paced<C> {
    pub(crate) fn new(stream: TcpStream, clock: C) -> Paced<C> {
        Paced {
            stream,
            clock,
            waited: Duration::ZERO,
            moved: 0,
        }
    }

    // Whether the other end was slower than the floor.
    fn is_slow(&self) -> bool {
        let seconds = LEAST_SECONDS.saturating_add(self.moved / BYTES_A_SECOND);
        self.waited > Duration::from_secs(seconds)
    }

    // Counts what was moved since a time, and fails where that took too long in all.
    fn pace(&mut self, begun: Instant, count: usize) -> io::Result<()> {
        let took = begun.elapsed(&self.clock)?;
        self.waited = self.waited.saturating_add(took);
        self.moved = self.moved.saturating_add(count as u64);
        if self.is_slow() {
            return Err(Error::from(ErrorKind::TimedOut));
        }
        Ok(())
    }
}

impl<C: Clock> Read for Paced<C> {
    fn read(&mut self, buf: &mut [u8]) -> io::Result<usize> {
        let begun = Instant::now(&self.clock)?;
        let count = self.stream.read(buf)?;
        self.pace(begun, count)?;
        Ok(count)
    }
}

impl<C: Clock> Write for Paced<C> {
    fn write(&mut self, bytes: &[u8]) -> io::Result<usize> {
        let begun = Instant::now(&self.clock)?;
        let count = self.stream.write(bytes)?;
        self.pace(begun, count)?;
        Ok(count)
    }

    fn flush(&mut self) -> io::Result<()> {
        self.stream.flush()
    }
}

impl<C: Clock> Link for Paced<C> {
    fn read_side(&mut self, buf: &mut [u8]) -> io::Result<usize> {
        self.read(buf)
    }

    fn write_side(&mut self, bytes: &[u8]) -> io::Result<usize> {
        self.write(bytes)
    }

    fn flush_side(&mut self) -> io::Result<()> {
        self.flush()
    }
}
