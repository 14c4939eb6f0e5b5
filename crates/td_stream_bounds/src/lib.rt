//! Where the bytes of a peer end: how far a greeting, or a stream of entries, reaches in the bytes that have come so
//! far.
//!
//! Begin with `greeting_extent`, and with `StreamScanner`, whose `advance` goes on where the last call stopped.
//!
//! ```
//! if let Extent::Whole(end) = greeting_extent(bytes) {
//!     let mut scanner = StreamScanner::new(end);
//!     let extent = scanner.advance(bytes);
//! }
//! ```
//!
//! Costs: `greeting_extent` takes constant time. All calls of `advance` together take time by the number of frames and
//! of calls, whatever the length of the texts; neither takes memory.
//!
//! `specs/Extents.antt` defines how far each reaches, and laws tie these definitions to the frames of td_frames.
//!
//! td_stream_bounds knows the lengths in frames and no sites: it reads no text, no number and no version vector, so a
//! greeting or a stream that it finds whole may still be refused by its reader.
#![tactic(auto)]

mod extent;
mod frame;
mod greeting;
pub mod laws;
mod stream;

pub use extent::Extent;
pub use greeting::greeting_extent;
pub use stream::StreamScanner;
