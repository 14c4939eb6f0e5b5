//! Whole pieces read and written: a buffer, a byte, a text.

ghost use Rattle.std.specs.Prelude.{◌≡◌, ◌<◌, ℕ, true, List, length, OnOk, IfErr};
ghost use Rattle.std.specs.Io.KnownBytes.{Keeps, Consumes};
ghost use Rattle.td_io.specs.Counted.{Counts};
ghost use Rattle.td_io.specs.Streams.{ByteRead, FellShort, Writes};

use crate::streams::{Failed, Sink, Source};
use thiserror::Error;

/// Why a buffer was not filled.
#[derive(Clone, Copy, Debug, PartialEq, Eq, Drop, Error)]
pub enum Short {
    #[error("the input ended too soon")]
    End,
    #[error("the reader failed")]
    Fault,
}

/// Fills the buffer. At `Err` the bytes read before are gone, and are fewer than the buffer's.
pub fn fill<S: Source>(source: &mut S, buf: &mut [u8]) -> Result<(), Short>
    ensures ok { OnOk result (Consumes (S.left source.old) (S.left source.new) buf.new) }
    ensures err { IfErr result (λ _. (bytes : List ℕ) × (length bytes < length buf.old) × Consumes (S.left source.old) (S.left source.new) bytes) }
    ensures ended { IfErr result (FellShort (S.left source.new) (S.failures source.old) (S.failures source.new)) }
    ensures count { OnOk result (S.failures source.new ≡ S.failures source.old) }
    ensures beside { Keeps (S.beside source.old) (S.beside source.new) }
{
    let mut at = 0;
    while at < buf.len() {
        match source.read_some(&mut buf[at..]) {
            Ok(0) => return Err(Short::End),
            Ok(n) => at += n,
            Err(_) => return Err(Short::Fault),
        }
    }
    Ok(())
}

/// Reads a byte; `None` is the end of the input.
pub fn read_byte<S: Source>(source: &mut S) -> Result<Option<u8>, Failed>
    ensures byte { ByteRead (S.left source.old) (S.left source.new) result }
    ensures beside { Keeps (S.beside source.old) (S.beside source.new) }
    ensures count { Counts (S.failures source.old) (S.failures source.new) result }
{
    let mut byte = [0u8; 1];
    match source.read_some(&mut byte) {
        Ok(0) => Ok(None),
        Ok(_) => Ok(Some(byte[0])),
        Err(e) => Err(e),
    }
}

/// Writes all of the bytes. At `Err` a front of them was written.
pub fn write_all<K: Sink>(sink: &mut K, bytes: &[u8]) -> Result<(), Failed>
    ensures bytes { Writes (K.held sink.old) (K.held sink.new) result bytes.now }
    ensures aside { Keeps (K.aside sink.old) (K.aside sink.new) }
    ensures count { Counts (K.faults sink.old) (K.faults sink.new) result }
{
    let mut rest = bytes;
    while !rest.is_empty() {
        let n = sink.write_some(rest)?;
        rest = &rest[n..];
    }
    Ok(())
}

/// Writes all of the bytes, and then flushes. At `Err` a front of them was written; where the flush failed, all of
/// them.
pub fn put<K: Sink>(sink: &mut K, bytes: &[u8]) -> Result<(), Failed>
    ensures bytes { Writes (K.held sink.old) (K.held sink.new) result bytes.now }
    ensures flushed { OnOk result (K.is_flushed sink.new ≡ true) }
    ensures aside { Keeps (K.aside sink.old) (K.aside sink.new) }
    ensures count { Counts (K.faults sink.old) (K.faults sink.new) result }
{
    write_all(sink, bytes)?;
    sink.flush()
}
