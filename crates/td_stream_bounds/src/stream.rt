//! Streams of entries.

ghost use Rattle.std.specs.Prelude.{◌≡◌, ℕ, ◌≤◌, ◌+◌, List, ◌++◌, length, drop};
ghost use Rattle.td_stream_bounds.specs.Extents.{IsWithin, LeavesLessThanAFrame, last_extent, scan_extent, stream_extent};

use crate::extent::Extent;
use crate::frame::{Frame, frame_extent};
use td_frames::MOST_ENTRIES;

/// How far a stream of entries was scanned. It holds no bytes: the caller passes all that have come so far to each
/// call of `advance`.
#[derive(Clone, Copy, Debug, PartialEq, Eq)]
pub struct StreamScanner {
    offset: usize,
    entries: u32,
}

// The bytes from this offset on; none where they end before it.
fn bytes_from(bytes: &[u8], offset: usize) -> &[u8]
    ensures { result.now ≡ drop offset bytes.now }
{
    if offset < bytes.len() {
        &bytes[offset..]
    } else {
        &[]
    }
}

// How far a stream reaches that may have no entry more.
#[tactic(auto, unfolding(crate::specs::Extents::last_extent))]
fn last_extent(bytes: &[u8], offset: usize) -> Extent
    ensures value { result ≡ last_extent offset (drop offset bytes.now) }
    ensures within { IsWithin result (length bytes.now) }
    ensures leaves { LeavesLessThanAFrame result offset (length bytes.now) }
{
    match bytes_from(bytes, offset) {
        [] => Extent::Open,
        [b'Z', ..] => Extent::Whole(offset + 1),
        _ => Extent::Never,
    }
}

impl StreamScanner {
    /// Nothing is scanned of a stream that begins at this offset.
    pub fn new(offset: usize) -> StreamScanner
        ensures { (bytes : List ℕ)
            → scan_extent result bytes ≡ stream_extent MOST_ENTRIES offset (drop offset bytes) }
    {
        StreamScanner { offset, entries: 0 }
    }

    /// Returns how far the stream reaches in these bytes, whose front is what earlier calls were given. It reads the
    /// letter and the length of each frame behind those that earlier calls found whole, and no text, so all calls
    /// together take time by the number of frames and of calls.
    pub fn advance(&mut self, bytes: &[u8]) -> Extent
        ensures extent { result ≡ scan_extent self.old bytes.now }
        ensures resumes { (more : List ℕ)
            → scan_extent self.new (bytes.now ++ more) ≡ scan_extent self.old (bytes.now ++ more) }
        ensures within { IsWithin result (length bytes.now) }
        ensures leaves { LeavesLessThanAFrame result self.new.offset (length bytes.now) }
    {
        while self.entries < MOST_ENTRIES {
            match frame_extent(bytes_from(bytes, self.offset)) {
                Frame::Partial => return Extent::Open,
                Frame::Entry(length) => {
                    self.offset += length;
                    self.entries += 1;
                }
                Frame::End => return Extent::Whole(self.offset + 1),
                Frame::Invalid => return Extent::Never,
            }
        }
        last_extent(bytes, self.offset)
    }
}
