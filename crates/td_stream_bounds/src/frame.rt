//! One frame of a stream.

ghost use Rattle.std.specs.Prelude.{◌≡◌, ◌+◌, ◌≤◌, length};
ghost use Rattle.td_stream_bounds.specs.Extents.{FitsIn, entry_extent, frame_extent, text_length};

/// The bytes of an entry's frame before its text: letter, site, sequence number, clock, dialect, length of the text.
const HEAD: usize = 18;

/// The most bytes of an entry's text.
const MOST_TEXT: u16 = 8_192;

/// What is at the front of some bytes of a stream.
#[derive(Clone, Copy, Debug, PartialEq, Eq)]
pub enum Frame {
    /// A front of a frame.
    Partial,
    /// The frame of an entry, of so many bytes.
    Entry(usize),
    /// The end of the stream, of one byte.
    End,
    /// Bytes with which no frame begins.
    Invalid,
}

// The length of an entry's text, as its frame tells it.
#[tactic(auto, unfolding(crate::specs::Extents::text_length))]
fn text_length(bytes: &[u8]) -> u16
    requires { 18 ≤ length bytes.now }
    ensures { result ≡ text_length bytes.now }
{
    u16::from_be_bytes([bytes[16], bytes[17]])
}

#[tactic(auto, unfolding(crate::specs::Extents::entry_extent))]
fn entry_extent(bytes: &[u8]) -> Frame
    requires { 1 ≤ length bytes.now }
    ensures value { result ≡ entry_extent bytes.now }
    ensures within { FitsIn result (length bytes.now) }
{
    if bytes.len() < HEAD {
        return Frame::Partial;
    }
    let text = text_length(bytes);
    if text > MOST_TEXT {
        return Frame::Invalid;
    }
    let end = HEAD + text as usize;
    if bytes.len() < end {
        return Frame::Partial;
    }
    Frame::Entry(end)
}

/// What is at the front of these bytes. It reads a letter and the length of a text.
#[tactic(auto, unfolding(crate::specs::Extents::frame_extent))]
pub(crate) fn frame_extent(bytes: &[u8]) -> Frame
    ensures value { result ≡ frame_extent bytes.now }
    ensures within { FitsIn result (length bytes.now) }
{
    if bytes.is_empty() {
        return Frame::Partial;
    }
    match bytes[0] {
        b'Z' => Frame::End,
        b'E' => entry_extent(bytes),
        _ => Frame::Invalid,
    }
}
