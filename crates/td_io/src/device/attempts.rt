//! Reading, writing and flushing that goes on after an interruption.

ghost use Rattle.std.specs.Prelude.{◌≡◌, ◌≢◌, ◌<◌, ◌≤◌, ◌-◌, All, length, take, IfOk, OnErr};
ghost use Rattle.std.specs.Io.{ReadsAtMost, StopsAt, WritesAtMost};
ghost use Rattle.std.specs.Io.KnownBytes.{Consumes, Keeps, ReadConsumes, WriteAppends};
ghost use Rattle.std.specs.Io.Buffered.{reader_remaining};

use crate::link::Link;
use crate::streams::Failed;
use std::io;
use std::io::{BufRead, BufReader, ErrorKind, Read, Write};

/// Interruptions in a row that are a failure.
const MOST_INTERRUPTIONS: u32 = 1_000;

// Whether a call was interrupted, and is to be made again.
fn is_interruption(e: &io::Error) -> bool {
    e.kind() == ErrorKind::Interrupted
}

// A write of a buffer that has bytes takes one at least, or has failed.
fn require_progress(n: usize, bytes: &[u8]) -> Result<usize, Failed>
    ensures some { IfOk result (λ m. 0 < length bytes.now → 0 < m) }
    ensures same { IfOk result (λ m. m ≡ n) }
    ensures none { OnErr result (n ≡ 0) }
{
    if n == 0 && !bytes.is_empty() {
        return Err(Failed);
    }
    Ok(n)
}

// Makes a call again as long as it is interrupted, and tells what it gave.
macro_rules! persist {
    ($call:expr, $given:ident => $told:expr) => {{
        for _ in 0..MOST_INTERRUPTIONS {
            match $call {
                Ok($given) => return $told,
                Err(e) => {
                    if !is_interruption(&e) {
                        return Err(Failed);
                    }
                }
            }
        }
        Err(Failed)
    }};
}

/// Reads some bytes; it goes on after interruptions.
pub(super) fn read_on<R: Read>(inner: &mut R, buf: &mut [u8]) -> Result<usize, Failed>
    ensures bound { ReadsAtMost result buf.new }
    ensures bytes { ReadConsumes (R.remaining inner.old) (R.remaining inner.new) result buf.new }
{
    persist!(inner.read(buf), n => Ok(n))
}

// How many bytes there are up to the first LF and with it, of so many at the front.
fn length_of_line(bytes: &[u8], most: usize) -> usize
    ensures bound { result ≤ length bytes.now }
    ensures most { result ≤ most }
    ensures some { 0 < length bytes.now → 0 < most → 0 < result }
    ensures before { All (λ b. b ≢ 10) (take (result - 1) bytes.now) }
{
    let most = most.min(bytes.len());
    for at in 0..most {
        if bytes[at] == b'\n' {
            return at + 1;
        }
    }
    most
}

// Takes what the reader's buffer has of the line, as far as there is room.
fn take_of_line<R: Read>(inner: &mut BufReader<R>, buf: &mut [u8]) -> usize
    ensures bound { result ≤ length buf.new }
    ensures bytes { Consumes (reader_remaining R.remaining inner.old) (reader_remaining R.remaining inner.new) (take result buf.new) }
    ensures before { All (λ b. b ≢ 10) (take (result - 1) buf.new) }
{
    let shown = inner.buffer();
    let length = length_of_line(shown, buf.len());
    buf[..length].copy_from_slice(&shown[..length]);
    inner.consume(length);
    length
}

// Reads one byte where there is room.
fn read_one<R: Read>(inner: &mut R, buf: &mut [u8]) -> io::Result<usize>
    ensures bound { ReadsAtMost result buf.new }
    ensures one { IfOk result (λ n. n ≤ 1) }
    ensures bytes { ReadConsumes (R.remaining inner.old) (R.remaining inner.new) result buf.new }
{
    let many = buf.len().min(1);
    inner.read(&mut buf[..many])
}

// Reads one byte, which may wait for more of the input, and with it what is there then of its line.
fn read_of_line<R: Read>(inner: &mut BufReader<R>, buf: &mut [u8]) -> io::Result<usize>
    ensures bound { ReadsAtMost result buf.new }
    ensures bytes { ReadConsumes (reader_remaining R.remaining inner.old) (reader_remaining R.remaining inner.new) result buf.new }
    ensures line { IfOk result (λ n. StopsAt (take n buf.new) 10) }
{
    let read = read_one(inner, buf)?;
    if read == 0 || buf[0] == b'\n' {
        return Ok(read);
    }
    Ok(1 + take_of_line(inner, &mut buf[1..]))
}

/// Reads some bytes of a line, none behind its end; it goes on after interruptions.
pub(super) fn read_of_line_on<R: Read>(
    inner: &mut BufReader<R>,
    buf: &mut [u8],
) -> Result<usize, Failed>
    ensures bound { ReadsAtMost result buf.new }
    ensures bytes { ReadConsumes (reader_remaining R.remaining inner.old) (reader_remaining R.remaining inner.new) result buf.new }
    ensures line { IfOk result (λ n. StopsAt (take n buf.new) 10) }
{
    persist!(read_of_line(inner, buf), n => Ok(n))
}

/// Writes some of the bytes, one at least where there are any; it goes on after interruptions.
pub(super) fn write_on<W: Write>(inner: &mut W, bytes: &[u8]) -> Result<usize, Failed>
    ensures bound { WritesAtMost result bytes.now }
    ensures some { IfOk result (λ n. 0 < length bytes.now → 0 < n) }
    ensures bytes { WriteAppends (W.contents inner.old) (W.contents inner.new) result bytes.now }
{
    persist!(inner.write(bytes), n => require_progress(n, bytes))
}

/// Flushes a writer; it goes on after interruptions.
pub(super) fn flush_on<W: Write>(inner: &mut W) -> Result<(), Failed>
    ensures { Keeps (W.contents inner.old) (W.contents inner.new) }
{
    persist!(inner.flush(), done => Ok(done))
}

/// Reads some bytes from a link; it goes on after interruptions.
pub(super) fn read_side_on<L: Link>(inner: &mut L, buf: &mut [u8]) -> Result<usize, Failed>
    ensures bound { ReadsAtMost result buf.new }
    ensures bytes { ReadConsumes (L.remaining inner.old) (L.remaining inner.new) result buf.new }
    ensures contents { Keeps (L.contents inner.old) (L.contents inner.new) }
{
    persist!(inner.read_side(buf), n => Ok(n))
}

/// Writes some of the bytes to a link, one at least where there are any; it goes on after interruptions.
pub(super) fn write_side_on<L: Link>(inner: &mut L, bytes: &[u8]) -> Result<usize, Failed>
    ensures bound { WritesAtMost result bytes.now }
    ensures some { IfOk result (λ n. 0 < length bytes.now → 0 < n) }
    ensures bytes { WriteAppends (L.contents inner.old) (L.contents inner.new) result bytes.now }
    ensures remaining { Keeps (L.remaining inner.old) (L.remaining inner.new) }
{
    persist!(inner.write_side(bytes), n => require_progress(n, bytes))
}

/// Flushes what was written to a link; it goes on after interruptions.
pub(super) fn flush_side_on<L: Link>(inner: &mut L) -> Result<(), Failed>
    ensures contents { Keeps (L.contents inner.old) (L.contents inner.new) }
    ensures remaining { Keeps (L.remaining inner.old) (L.remaining inner.new) }
{
    persist!(inner.flush_side(), done => Ok(done))
}
