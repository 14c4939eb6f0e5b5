//! What a peer is sent.

ghost use Rattle.std.specs.Prelude.{◌≡◌, ◌+◌, ◌≤◌, ◌↔◌, IfOk, IsTrue, OnErr, drop, take, vec_len};
ghost use Rattle.std.specs.Io.KnownBytes.{Appends, Keeps};

use crate::limits::MOST_BYTES;
use std::alloc::Global;
use std::io;
use std::io::{ErrorKind, Write};

/// The bytes that the steps of a meeting have written for a peer, `MOST_BYTES` at most. A write that finds no room
/// fails with `StorageFull`.
#[derive(Drop)]
pub struct Outbox {
    bytes: Vec<u8>,
    sent: usize,
    ghost within: { vec_len bytes ≤ 1572864 },
    ghost ordered: { sent ≤ vec_len bytes },
}

impl Outbox {
    pub fn new(alloc: Global) -> Outbox {
        Outbox {
            bytes: Vec::new(alloc),
            sent: 0,
        }
    }

    /// Whether no write finds room.
    pub fn is_full(&self) -> bool
        ensures { IsTrue result ↔ (MOST_BYTES ≤ vec_len self.now.bytes) }
    {
        self.bytes.len() >= MOST_BYTES
    }

    /// Whether all of it is sent.
    pub(crate) fn is_sent(&self) -> bool
        ensures { IsTrue result ↔ (vec_len self.now.bytes ≤ self.now.sent) }
    {
        self.sent >= self.bytes.len()
    }

    /// Whether some of it is sent.
    pub(crate) fn has_sent(&self) -> bool {
        self.sent > 0
    }

    /// Drops what is sent, if all of it is, and makes room for more.
    pub(crate) fn clear_sent(&mut self) {
        if self.is_sent() {
            self.sent = 0;
            self.bytes.clear();
        }
    }

    /// Sends some of the bytes that are not sent yet, by one write.
    pub(crate) fn send_to<W: Write>(&mut self, writer: &mut W) -> io::Result<usize>
        ensures ok { IfOk result (λ n. (self.new.sent ≡ self.old.sent + n)
            × Appends (W.contents writer.old) (W.contents writer.new)
            (take n (drop self.old.sent self.old.bytes.items))) }
        ensures err { OnErr result ((self.new.sent ≡ self.old.sent)
            × Keeps (W.contents writer.old) (W.contents writer.new)) }
        ensures bytes { self.new.bytes ≡ self.old.bytes }
    {
        let count = writer.write(&self.bytes[self.sent..])?;
        self.sent += count;
        Ok(count)
    }
}

impl Write for Outbox {
    fn write(&mut self, buf: &[u8]) -> io::Result<usize> {
        let count = (MOST_BYTES - self.bytes.len()).min(buf.len());
        if count == 0 && !buf.is_empty() {
            return Err(ErrorKind::StorageFull.into());
        }
        self.bytes.extend_from_slice(&buf[..count])?;
        Ok(count)
    }

    fn flush(&mut self) -> io::Result<()> {
        Ok(())
    }
}
