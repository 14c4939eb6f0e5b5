//! One frame, read.

ghost use Rattle.std.specs.Prelude.{◌≡◌, ◌∷◌, ℕ, List, IfErr, IfOk, string_bytes};
ghost use Rattle.std.specs.Io.KnownBytes.{Keeps, Consumes};
ghost use Rattle.td_frames.specs.Reading.{Told, entry_at, frame_at, text_at};

use crate::error::FrameError;
use crate::fields::{Head, MOST_HEAD, fields_of, read_bytes, read_field};
use crate::version::Version;
use std::alloc::{AllocError, Global};
use td_io::Source;
use td_stamps::Entry;
use td_values::Text;

/// The most bytes of an entry's text.
const MOST_TEXT: u16 = 8_192;

// The entry of these fields and this text.
fn entry_of(alloc: Global, head: Head, text: String) -> Result<Entry, AllocError>
    ensures { IfOk result (λ e. e ≡ record { site = head.site; seq = head.seq; clock = head.clock; dialect = head.dialect; text = string_bytes text }) }
{
    Ok(Entry {
        site: head.site,
        seq: head.seq,
        clock: head.clock,
        dialect: head.dialect,
        text: Text::new(alloc, text)?,
    })
}

// Reads the text behind a head, as an entry; a text that is too long or no UTF-8 is a bad frame.
fn read_text<S: Source>(alloc: Global, source: &mut S, head: Head) -> Result<Entry, FrameError>
    ensures told { (bytes : List ℕ) × Consumes (S.left source.old) (S.left source.new) bytes
        × Told result (text_at head bytes) (S.left source.new) (S.failures source.old) (S.failures source.new) }
    ensures beside { Keeps (S.beside source.old) (S.beside source.new) }
{
    if head.length > MOST_TEXT {
        return Err(FrameError::BadFrame);
    }
    let bytes = match read_bytes(alloc, source, head.length as usize) {
        Ok(bytes) => bytes,
        Err(e) => return Err(e),
    };
    let Ok(text) = String::from_utf8(bytes) else {
        return Err(FrameError::BadFrame);
    };
    match entry_of(alloc, head, text) {
        Ok(entry) => Ok(entry),
        Err(_) => Err(FrameError::OutOfMemory),
    }
}

// Reads the rest of an entry's frame, behind its letter: the head of this version, and the text.
fn read_entry<S: Source>(
    alloc: Global,
    source: &mut S,
    version: Version,
) -> Result<Entry, FrameError>
    ensures told { (bytes : List ℕ) × Consumes (S.left source.old) (S.left source.new) bytes
        × Told result (entry_at version bytes) (S.left source.new) (S.failures source.old) (S.failures source.new) }
    ensures beside { Keeps (S.beside source.old) (S.beside source.new) }
{
    let mut room = [0u8; MOST_HEAD];
    let (head, _) = room.split_at_mut(version.head_size());
    match read_field(source, head) {
        Err(e) => Err(e),
        Ok(()) => read_text(alloc, source, fields_of(version, head)),
    }
}

// Reads what is behind a frame's letter: None where it ends the stream, and a bad frame where the letter is no other.
fn read_after_letter<S: Source>(
    alloc: Global,
    source: &mut S,
    version: Version,
    letter: u8,
) -> Result<Option<Entry>, FrameError>
    ensures told { (bytes : List ℕ) × Consumes (S.left source.old) (S.left source.new) bytes
        × Told result (frame_at version (letter ∷ bytes)) (S.left source.new) (S.failures source.old) (S.failures source.new) }
    ensures beside { Keeps (S.beside source.old) (S.beside source.new) }
{
    if letter == b'Z' {
        return Ok(None);
    }
    if letter != b'E' {
        return Err(FrameError::BadFrame);
    }
    match read_entry(alloc, source, version) {
        Err(e) => Err(e),
        Ok(entry) => Ok(Some(entry)),
    }
}

/// Reads the frame of an entry in this version, or of the end. It takes room for the text alone.
pub fn read_frame<S: Source>(
    alloc: Global,
    source: &mut S,
    version: Version,
) -> Result<Option<Entry>, FrameError>
    ensures told { (bytes : List ℕ) × Consumes (S.left source.old) (S.left source.new) bytes
        × Told result (frame_at version bytes) (S.left source.new) (S.failures source.old) (S.failures source.new) }
    ensures beside { Keeps (S.beside source.old) (S.beside source.new) }
{
    let mut letter = [0u8; 1];
    match read_field(source, &mut letter) {
        Err(e) => Err(e),
        Ok(()) => read_after_letter(alloc, source, version, letter[0]),
    }
}
