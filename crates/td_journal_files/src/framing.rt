//! Headers and frames in the bytes of a journal.
//!
//! Nothing here takes memory.

use std::str;
use td_frames::Version;

/// The bytes of a header in front of the script.
const HEADER_HEAD: usize = 11;

/// The most bytes of a script.
const SCRIPT_BYTES: usize = 65_536;

/// The bytes of a frame in front of its text, in the version that is written.
const HEAD_BYTES: usize = 18;

/// The most bytes of a text.
const TEXT_BYTES: usize = 8_192;

/// The greatest number of a statement.
const MOST_SEQ: u32 = 1_000_000_000;

/// The greatest clock of a statement.
const MOST_CLOCK: u64 = 1_000_000_000_000_000_000;

/// The greatest number of a dialect.
const MOST_DIALECT: u8 = 2;

/// A statement by its stamp.
#[derive(Clone, Copy, Debug, PartialEq, Eq)]
pub struct StatementAt {
    pub clock: u64,
    pub site: u16,
}

/// A complete frame: whose it is, and how many bytes it has.
#[derive(Clone, Copy)]
pub(crate) struct Frame {
    pub statement: StatementAt,
    pub length: usize,
}

/// The bytes of the header with which these begin, of which there may be fewer; none where they begin with none.
pub(crate) fn header_length(bytes: &[u8]) -> Option<usize> {
    match bytes {
        [b'J', b'T', b'D', b'B', _, _, _, a, b, c, d, ..] => {
            let script = u32::from_be_bytes([*a, *b, *c, *d]) as usize;
            if script <= SCRIPT_BYTES {
                Some(HEADER_HEAD.saturating_add(script))
            } else {
                None
            }
        }
        _ => None,
    }
}

/// The header with which these bytes begin: its length, and the version of what follows; none where it is not complete.
pub(crate) fn header_of(bytes: &[u8]) -> Option<(usize, Version)> {
    let length = header_length(bytes)?;
    match bytes.get(4) {
        Some(1) if length <= bytes.len() => Some((length, Version::First)),
        Some(2) if length <= bytes.len() => Some((length, Version::Second)),
        _ => None,
    }
}

/// The number of the site whose journal begins with these bytes.
pub(crate) fn site_of(bytes: &[u8]) -> Option<u16> {
    match bytes {
        [b'J', b'T', b'D', b'B', _, high, low, ..] => Some(u16::from_be_bytes([*high, *low])),
        _ => None,
    }
}

// The head of a frame: its site, number, clock, dialect and the length of its text, and how many bytes the head has.
fn head_of(bytes: &[u8], version: Version) -> Option<(u16, u32, u64, u8, usize, usize)> {
    match bytes {
        [b'E', s, t, n, o, p, q, a, b, c, d, e, f, g, h, x, y, z, ..]
            if version == Version::Second => {
            let seq = u32::from_be_bytes([*n, *o, *p, *q]);
            let clock = u64::from_be_bytes([*a, *b, *c, *d, *e, *f, *g, *h]);
            let text = u16::from_be_bytes([*y, *z]) as usize;
            Some((
                u16::from_be_bytes([*s, *t]),
                seq,
                clock,
                *x,
                text,
                HEAD_BYTES,
            ))
        }
        [b'E', s, t, n, o, p, q, a, b, c, d, e, f, g, h, y, z, ..] if version == Version::First => {
            let seq = u32::from_be_bytes([*n, *o, *p, *q]);
            let clock = u64::from_be_bytes([*a, *b, *c, *d, *e, *f, *g, *h]);
            let text = u16::from_be_bytes([*y, *z]) as usize;
            Some((
                u16::from_be_bytes([*s, *t]),
                seq,
                clock,
                1,
                text,
                HEAD_BYTES - 1,
            ))
        }
        _ => None,
    }
}

/// The frame of a statement with which these bytes begin, if it is complete and has what a site issues.
pub(crate) fn frame_of(bytes: &[u8], version: Version) -> Option<Frame> {
    let (site, seq, clock, dialect, text, head) = head_of(bytes, version)?;
    let length = head.saturating_add(text);
    let text_bytes = bytes.get(head..length)?;
    let is_in_range = 1 <= site
        && 1 <= seq
        && seq <= MOST_SEQ
        && 1 <= clock
        && clock <= MOST_CLOCK
        && 1 <= dialect
        && dialect <= MOST_DIALECT
        && text <= TEXT_BYTES;
    if is_in_range && str::from_utf8(text_bytes).is_ok() {
        Some(Frame {
            statement: StatementAt { clock, site },
            length,
        })
    } else {
        None
    }
}

/// The byte behind the complete frames that stand from a byte on.
pub(crate) fn frames_end(bytes: &[u8], begin: usize, version: Version) -> usize {
    let mut end = begin;
    for _ in 0..bytes.len() {
        match frame_of(bytes.get(end..).unwrap_or(b"".as_slice()), version) {
            Some(frame) => end = end.saturating_add(frame.length),
            None => break,
        }
    }
    end
}

// Whether the bytes begin with a complete frame, and end there or go on with another one.
fn begin_with_frame(bytes: &[u8]) -> bool {
    match frame_of(bytes, Version::Second) {
        Some(frame) => matches!(bytes.get(frame.length..), Some([] | [b'E', ..])),
        None => false,
    }
}

/// Whether a complete frame stands behind the first byte.
pub(crate) fn have_frame_behind(bytes: &[u8]) -> bool {
    for begin in 1..bytes.len() {
        if begin_with_frame(bytes.get(begin..).unwrap_or(b"".as_slice())) {
            return true;
        }
    }
    false
}

/// Whether these bytes are the frame of one statement, issued by this site.
pub(crate) fn is_one_of(bytes: &[u8], site: u16) -> bool {
    match frame_of(bytes, Version::Second) {
        Some(frame) => frame.statement.site == site && frame.length == bytes.len(),
        None => false,
    }
}

/// Whether these bytes are the front of a header and then zeros alone: what a power failure leaves of a new journal.
pub(crate) fn is_blank(bytes: &[u8]) -> bool {
    let front = match bytes.iter().rposition(|byte| *byte != 0) {
        Some(last) => last.saturating_add(1),
        None => 0,
    };
    let magic = bytes.get(..front.min(4)).unwrap_or(b"".as_slice());
    let header = header_length(bytes).unwrap_or(HEADER_HEAD);
    let is_known = matches!(bytes.get(4), None | Some(0..=2));
    b"JTDB".starts_with(magic) && is_known && front < header
}
