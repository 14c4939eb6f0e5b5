//! What a peer has sent.

ghost use Rattle.std.specs.Prelude.{◌≡◌, ◌≤◌, ◌↔◌, ◌++◌, ℕ, List, [], IfOk, IsTrue, OnErr, drop, length, vec_len};
ghost use Rattle.std.specs.Io.KnownBytes.{Consumes};

use crate::limits::MOST_BYTES;
use std::alloc::Global;
use std::io;
use std::io::Read;

/// The bytes of a peer, `MOST_BYTES` at most.
#[derive(Drop)]
pub(crate) struct Inbox {
    bytes: Vec<u8>,
    has_ended: bool,
    ghost within: { vec_len bytes ≤ 1572864 },
}

impl Inbox {
    pub(crate) fn new(alloc: Global) -> Inbox
        ensures { result.bytes.items ≡ [] }
    {
        Inbox {
            bytes: Vec::new(alloc),
            has_ended: false,
        }
    }

    /// All that has come so far.
    pub(crate) fn bytes(&self) -> &[u8]
        ensures value { result.now ≡ self.now.bytes.items }
        ensures within { length result.now ≤ MOST_BYTES }
    {
        &self.bytes
    }

    /// Whether no more is read: as much came as is kept, or the peer sends nothing more.
    pub(crate) fn is_closed(&self) -> bool {
        self.has_ended || self.is_full()
    }

    /// Whether as much came as is kept.
    pub(crate) fn is_full(&self) -> bool
        ensures { IsTrue result ↔ (MOST_BYTES ≤ vec_len self.now.bytes) }
    {
        self.bytes.len() >= MOST_BYTES
    }

    /// Reads no more: the connection failed.
    pub(crate) fn close(&mut self)
        ensures { self.new.bytes ≡ self.old.bytes }
    {
        self.has_ended = true;
    }

    /// Drops bytes that were read, from the first one on, and makes room for more.
    pub(crate) fn drop_front(&mut self, count: usize)
        ensures { self.new.bytes.items ≡ drop count self.old.bytes.items }
    {
        let length = self.bytes.len();
        let count = count.min(length);
        self.bytes.rotate_left(count);
        self.bytes.truncate(length - count);
    }

    /// Reads once, through the buffer. A read of no byte is the end.
    pub(crate) fn read_from<R: Read>(
        &mut self,
        reader: &mut R,
        buffer: &mut [u8],
    ) -> io::Result<usize>
        ensures ok { IfOk result (λ n. (more : List ℕ) × (length more ≡ n)
            × Consumes (R.remaining reader.old) (R.remaining reader.new) more
            × (self.new.bytes.items ≡ self.old.bytes.items ++ more)) }
        ensures err { OnErr result (self.new.bytes.items ≡ self.old.bytes.items) }
    {
        let room = (MOST_BYTES - self.bytes.len()).min(buffer.len());
        let part = &mut buffer[..room];
        let count = reader.read(part)?;
        self.bytes.extend_from_slice(&part[..count])?;
        if count == 0 {
            self.has_ended = true;
        }
        Ok(count)
    }
}
