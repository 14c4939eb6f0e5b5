//! Lines from a source.

ghost use Rattle.std.specs.Prelude.{◌≡◌, ◌-◌, ◌<◌, ◌≤◌, not, OnOk, IfOk, option_map, option_and_then};
ghost use Rattle.std.specs.Io.KnownBytes.{Keeps};
ghost use Rattle.td_io.specs.ForProofs.Held.{kept, with_bytes};
ghost use Rattle.td_io.specs.Lines.{HasCause, LineRead, content, is_one_line};

use crate::streams::Source;
use std::alloc::{AllocError, Global};
use thiserror::Error;

/// So many bytes of a line are read at once.
const PART: usize = 256;

/// Why no line was read.
#[derive(Clone, Copy, Debug, PartialEq, Eq, Drop, Error)]
pub enum LineError {
    #[error("out of memory")]
    OutOfMemory,
    #[error("the reader failed")]
    ReadFault,
    #[error("no reads are left")]
    NoReadsLeft,
}

/// A line that was read.
#[derive(Drop)]
pub struct RawLine {
    /// Its bytes with its line end, or `None` where it is too long.
    pub bytes: Option<Vec<u8>>,
    /// Whether the input ended behind it. Then it has no line end, and may be empty.
    pub is_last: bool,
}

// What is kept of a line with these bytes more: nothing of one that is too long with any line end.
fn extend_line(
    line: Option<Vec<u8>>,
    more: &[u8],
    most: usize,
) -> Result<Option<Vec<u8>>, AllocError>
    ensures { IfOk result (λ l. option_map (λ v. v.items) l ≡ option_and_then (with_bytes most more.now) (option_map (λ v. v.items) line)) }
{
    let Some(mut bytes) = line else {
        return Ok(None);
    };
    if bytes.len().saturating_add(more.len()).saturating_sub(most) > 2 {
        return Ok(None);
    }
    bytes.extend_from_slice(more)?;
    Ok(Some(bytes))
}

// The line, unless it is too long.
fn unless_too_long(line: Option<Vec<u8>>, most: usize) -> Option<Vec<u8>>
    ensures { option_map (λ v. v.items) result ≡ option_and_then (kept most) (option_map (λ v. v.items) line) }
{
    let Some(bytes) = line else {
        return None;
    };
    if content(&bytes).len() > most {
        return None;
    }
    Some(bytes)
}

/// Reads a line, by at most `reads` reads, from which those made are taken off: each byte counts as one. A line that
/// has more than `most` bytes without its line end is read to its end and not kept: at most `most + 2` bytes are held.
pub fn read_line<S: Source>(
    alloc: Global,
    source: &mut S,
    reads: &mut u64,
    most: usize,
) -> Result<RawLine, LineError>
    ensures line { LineRead most (S.left source.old) (S.left source.new) (reads.old - reads.new) result }
    ensures cause { HasCause reads.new (S.failures source.old) (S.failures source.new) result }
    ensures beside { Keeps (S.beside source.old) (S.beside source.new) }

    ensures fewer { OnOk result (reads.new < reads.old) }
    ensures no_more { reads.new ≤ reads.old }
{
    let mut line = Some(Vec::new(alloc));
    let mut part = [0u8; PART];
    while *reads > 0 {
        let room = (*reads).min(PART as u64) as usize;
        let length = match source.read_of_line(&mut part[..room]) {
            Ok(0) => {
                *reads -= 1;
                return Ok(RawLine {
                    bytes: unless_too_long(line, most),
                    is_last: true,
                });
            }
            Ok(length) => length,
            Err(_) => {
                *reads -= 1;
                return Err(LineError::ReadFault);
            }
        };
        *reads -= length as u64;
        match extend_line(line, &part[..length], most) {
            Ok(more) => line = more,
            Err(_) => return Err(LineError::OutOfMemory),
        }
        if part[length - 1] == b'\n' {
            return Ok(RawLine {
                bytes: unless_too_long(line, most),
                is_last: false,
            });
        }
    }
    Err(LineError::NoReadsLeft)
}

/// Whether a whole line is among the bytes.
pub fn has_line(bytes: &[u8]) -> bool
    ensures { result ≡ not (is_one_line bytes.now) }
{
    bytes.contains(&b'\n')
}

/// The line without its line end: an LF, and a CR before it.
pub fn content(line: &[u8]) -> &[u8]
    ensures { result.now ≡ content line.now }
{
    match line.strip_suffix(b"\n") {
        Some(front) => front.strip_suffix(b"\r").unwrap_or(front),
        None => line,
    }
}
