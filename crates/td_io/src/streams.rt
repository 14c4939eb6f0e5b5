//! What can be read and what can be written, with a count of failures.

ghost use Rattle.std.specs.Prelude.{◌≡◌, ◌<◌, ℕ, Bool, true, List, Option, length, take, IfOk, OnOk};
ghost use Rattle.std.specs.Io.{ReadsAtMost, StopsAt, WritesAtMost};
ghost use Rattle.std.specs.Io.KnownBytes.{Keeps, ReadConsumes, WriteAppends};
ghost use Rattle.td_io.specs.Counted.{Counts};

use thiserror::Error;

/// A device failed, and has counted it.
#[derive(Clone, Copy, Debug, PartialEq, Eq, Drop, Error)]
#[error("a device failed")]
pub struct Failed;

/// What can be read, with a count of failures.
pub trait Source {
    /// The bytes that reads will give from here on, where they are known.
    ghost left: { Self → Option (List ℕ) };

    /// What the other side holds, where it is known: reading leaves it.
    ghost beside: { Self → Option (List ℕ) };

    /// How many failures were counted.
    ghost failures: { Self → ℕ };

    /// The bytes that stand in a buffer: they are read without asking for more of the input.
    ghost buffered: { Self → List ℕ };

    /// Reads some bytes into the front of the buffer, at least one where it has room and the input has not ended.
    fn read_some(&mut self, buf: &mut [u8]) -> Result<usize, Failed>
        ensures bound { ReadsAtMost result buf.new }
        ensures bytes { ReadConsumes (left self.old) (left self.new) result buf.new }
        ensures beside { Keeps (beside self.old) (beside self.new) }
        ensures count { Counts (failures self.old) (failures self.new) result };

    /// Reads bytes of one line: as `read_some`, but none behind the first LF. Where the source does not show the bytes
    /// that come next, it is one byte.
    fn read_of_line(&mut self, buf: &mut [u8]) -> Result<usize, Failed>
        ensures bound { ReadsAtMost result buf.new }
        ensures bytes { ReadConsumes (left self.old) (left self.new) result buf.new }
        ensures line { IfOk result (λ n. StopsAt (take n buf.new) 10) }
        ensures beside { Keeps (beside self.old) (beside self.new) }
        ensures count { Counts (failures self.old) (failures self.new) result }
    {
        let many = buf.len().min(1);
        self.read_some(&mut buf[..many])
    }

    /// The bytes that stand in a buffer. There are none where the source has no buffer.
    fn buffer(&self) -> &[u8]
        ensures { result.now ≡ buffered self.now };
}

/// What can be written, with a count of failures.
pub trait Sink {
    /// The bytes that were written, where they are known.
    ghost held: { Self → Option (List ℕ) };

    /// What the other side will give, where it is known: writing leaves it.
    ghost aside: { Self → Option (List ℕ) };

    /// How many failures were counted.
    ghost faults: { Self → ℕ };

    /// Whether all that was written has been handed on: a flush that ends well makes it so.
    ghost is_flushed: { Self → Bool };

    /// Writes a front of the bytes, at least one where there is one.
    fn write_some(&mut self, bytes: &[u8]) -> Result<usize, Failed>
        ensures bound { WritesAtMost result bytes.now }
        ensures some { IfOk result (λ n. 0 < length bytes.now → 0 < n) }
        ensures bytes { WriteAppends (held self.old) (held self.new) result bytes.now }
        ensures aside { Keeps (aside self.old) (aside self.new) }
        ensures count { Counts (faults self.old) (faults self.new) result };

    /// Hands on what was written and is still kept back.
    fn flush(&mut self) -> Result<(), Failed>
        ensures held { Keeps (held self.old) (held self.new) }
        ensures flushed { OnOk result (is_flushed self.new ≡ true) }
        ensures aside { Keeps (aside self.old) (aside self.new) }
        ensures count { Counts (faults self.old) (faults self.new) result };
}

/// What is read and written in turn: what one side leaves is what the other side has, and both have one count.
pub trait Channel: Source + Sink {
    ghost same_held: { (x : Self) → Self.beside x ≡ Self.held x };

    ghost same_left: { (x : Self) → Self.aside x ≡ Self.left x };

    ghost same_count: { (x : Self) → Self.faults x ≡ Self.failures x };
}
