//! Readers and writers that count their failures, and lines read from them.
//!
//! Begin with `Device`, which wraps a reader or a writer; `read_line` reads a line, and `put` writes a text and
//! flushes.
//!
//! ```
//! let mut source = Device::buffered(reader);
//! let line = read_line(alloc, &mut source, &mut reads, 16_384)?;
//! let mut sink = Device::new(writer);
//! put(&mut sink, b"ready\n")?;
//! ```
//!
//! Costs: `read_line` reads at most 256 bytes at once by a buffer, and one byte at once without one; it is linear in
//! the line, and holds at most two bytes more than `most`. `put` is linear, and flushes each time.
//!
//! Definitions to trust, in `specs/`: Counted, Lines, Streams, Views.
//!
//! td_io knows bytes and lines, and not what they say. A device has a count of failures beside what it wraps;
//! whoever reads or writes is generic over `Source`, `Sink` or, for both, `Channel`, and its contract ends with what
//! the count did.
#![tactic(auto)]

mod device;
pub mod laws;
mod lines;
mod link;
mod pieces;
mod streams;

pub use device::{Both, Buffered, Device, Single};
pub use lines::{LineError, RawLine, content, has_line, read_line};
pub use link::{Link, Pair};
pub use pieces::{Short, fill, put, read_byte, write_all};
pub use streams::{Channel, Failed, Sink, Source};
