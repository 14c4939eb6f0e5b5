//! The header and the frames of a journal, read.

ghost use Rattle.std.specs.Prelude.{◌≡◌, ◌≤◌, ◌&&◌, ◌==◌, ℕ, List, Err, MatchResult, Ok, cond, length, true};
ghost use Rattle.std.specs.Io.KnownBytes.{Keeps, Consumes};
ghost use Rattle.std.specs.List.{list_all};
ghost use Rattle.td_stamps.specs.Entries.{in_range};
ghost use Rattle.td_frames.specs.Spelling.{entry_frame};
ghost use Rattle.td_journal.specs.ForProofs.{FieldRead, FramesRead, HeaderRead, told_by, version_of};
ghost use Rattle.td_journal.specs.Reading.{frames_at, header_at, header_version_at, known_field_at, known_fields_at, owned_at, owner_fields};
ghost use Rattle.td_journal.specs.Spelling.{journal};
ghost use Rattle.td_journal.specs.declared.reading.Unread.TheVariants.{Refused};

use crate::error::JournalError;
use std::alloc::Global;
use td_frames::{FrameError, MOST_ENTRIES, Version, read_entries};
use td_io::{Source, read_byte};
use td_stamps::Entry;

/// Why a journal is not read.
#[derive(Clone, Copy, Drop)]
pub(crate) enum Unread {
    ReadFault,
    OutOfMemory,
    Refused(JournalError),
}

// Whether a field still has the bytes that it is to have, after one byte more.
fn is_still_same(same: bool, read: u8, byte: u8) -> bool
    ensures { result ≡ (same && (read == byte)) }
{
    same && read == byte
}

// Whether a field is whole; the error where its bytes are not those that it is to have.
fn judge_field(same: bool, is_whole: bool, error: JournalError) -> Result<bool, Unread>
    ensures { result ≡ cond same (Ok is_whole) (Err (Refused error)) }
{
    if same {
        Ok(is_whole)
    } else {
        Err(Unread::Refused(error))
    }
}

// Reads a field to its end or to the end of the input, and then judges it: whether it is whole, or why it is refused.
fn read_field<S: Source>(source: &mut S, field: &[u8], error: JournalError) -> Result<bool, Unread>
    ensures told { (bytes : List ℕ) × Consumes (S.left source.old) (S.left source.new) bytes
        × FieldRead (known_field_at field.now error) bytes result
        (S.left source.new) (S.failures source.old) (S.failures source.new) }
    ensures beside { Keeps (S.beside source.old) (S.beside source.new) }
{
    let mut same = true;
    for byte in field {
        match read_byte(source) {
            Ok(Some(read)) => same = is_still_same(same, read, *byte),
            Ok(None) => return judge_field(same, false, error),
            Err(_) => return Err(Unread::ReadFault),
        }
    }
    judge_field(same, true, error)
}

// The version of the formats that a byte tells; any byte but 1 and 2 is refused.
fn version_of(byte: u8) -> Result<Option<Version>, Unread>
    ensures { result ≡ version_of byte }
{
    match byte {
        1 => Ok(Some(Version::First)),
        2 => Ok(Some(Version::Second)),
        _ => Err(Unread::Refused(JournalError::Version)),
    }
}

// Reads the version; `None` is the end of the input.
fn read_version<S: Source>(source: &mut S) -> Result<Option<Version>, Unread>
    ensures told { (bytes : List ℕ) × Consumes (S.left source.old) (S.left source.new) bytes
        × HeaderRead header_version_at bytes result
        (S.left source.new) (S.failures source.old) (S.failures source.new) }
    ensures beside { Keeps (S.beside source.old) (S.beside source.new) }
{
    match read_byte(source) {
        Ok(Some(byte)) => version_of(byte),
        Ok(None) => Ok(None),
        Err(_) => Err(Unread::ReadFault),
    }
}

// Reads whose journal it is, which is known beforehand: whether that is whole, or the input ends inside it.
fn read_owner<S: Source>(source: &mut S, site: u16, script: &str) -> Result<bool, Unread>
    requires { length script.now ≤ 65536 }
    ensures told { (bytes : List ℕ) × Consumes (S.left source.old) (S.left source.new) bytes
        × FieldRead (known_fields_at (owner_fields site script.now)) bytes result
        (S.left source.new) (S.failures source.old) (S.failures source.new) }
    ensures beside { Keeps (S.beside source.old) (S.beside source.new) }
{
    match read_field(
        source,
        site.to_be_bytes().as_slice(),
        JournalError::OtherSite,
    ) {
        Ok(true) => {}
        Ok(false) => return Ok(false),
        Err(error) => return Err(error),
    }
    let length = script.len() as u32;
    match read_field(
        source,
        length.to_be_bytes().as_slice(),
        JournalError::OtherScript,
    ) {
        Ok(true) => {}
        Ok(false) => return Ok(false),
        Err(error) => return Err(error),
    }
    read_field(source, script.as_bytes(), JournalError::OtherScript)
}

// The version, where what is behind it was read so.
fn told_by(version: Version, owner: Result<bool, Unread>) -> Result<Option<Version>, Unread>
    ensures { result ≡ told_by version owner }
{
    match owner {
        Ok(true) => Ok(Some(version)),
        Ok(false) => Ok(None),
        Err(error) => Err(error),
    }
}

// Reads the version of a journal, and that it is this site's and of this script; None where the input ends before that.
fn read_owned<S: Source>(source: &mut S, site: u16, script: &str) -> Result<Option<Version>, Unread>
    requires { length script.now ≤ 65536 }
    ensures told { (bytes : List ℕ) × Consumes (S.left source.old) (S.left source.new) bytes
        × HeaderRead (owned_at site script.now) bytes result
        (S.left source.new) (S.failures source.old) (S.failures source.new) }
    ensures beside { Keeps (S.beside source.old) (S.beside source.new) }
{
    match read_version(source) {
        Ok(Some(version)) => told_by(version, read_owner(source, site, script)),
        Ok(None) => Ok(None),
        Err(error) => Err(error),
    }
}

/// Reads a header, of which all but the version is known beforehand: its version where it is whole, or `None` where the
/// input ends inside it.
pub(crate) fn read_header<S: Source>(
    source: &mut S,
    site: u16,
    script: &str,
) -> Result<Option<Version>, Unread>
    requires { length script.now ≤ 65536 }
    ensures told { (bytes : List ℕ) × Consumes (S.left source.old) (S.left source.new) bytes
        × HeaderRead (header_at site script.now) bytes result
        (S.left source.new) (S.failures source.old) (S.failures source.new) }
    ensures beside { Keeps (S.beside source.old) (S.beside source.new) }
{
    match read_field(source, b"JTDB".as_slice(), JournalError::Magic) {
        Ok(true) => read_owned(source, site, script),
        Ok(false) => Ok(None),
        Err(error) => Err(error),
    }
}

/// Reads the frames behind a header of this version, to the end of the input. It takes room for the entries.
pub(crate) fn read_frames<S: Source>(
    alloc: Global,
    source: &mut S,
    version: Version,
) -> Result<Vec<Entry>, Unread>
    ensures told { (bytes : List ℕ) × Consumes (S.left source.old) (S.left source.new) bytes
        × MatchResult result (λ v. FramesRead (frames_at version bytes) (Ok v.items) (S.left source.new) (S.failures source.old) (S.failures source.new))
        (λ e. FramesRead (frames_at version bytes) (Err e) (S.left source.new) (S.failures source.old) (S.failures source.new)) }
    ensures beside { Keeps (S.beside source.old) (S.beside source.new) }
{
    let (entries, ending) = read_entries(alloc, source, version, MOST_ENTRIES);
    match ending {
        Err(FrameError::Cut) => Ok(entries),
        Err(FrameError::ReadFault) => Err(Unread::ReadFault),
        Err(FrameError::OutOfMemory) => Err(Unread::OutOfMemory),
        Err(_) => Err(Unread::Refused(JournalError::BadFrame)),
        Ok(()) => Err(Unread::Refused(JournalError::BadFrame)),
    }
}

// How many bytes the frame of an entry has.
fn frame_bytes(version: Version, entry: &Entry) -> u64
    requires { length entry.now.text ≤ 8192 }
    ensures size { result ≡ length (entry_frame version entry.now) }
    ensures few { result ≤ 8210 }
{
    let head = match version {
        Version::First => 17,
        Version::Second => 18,
    };
    head + entry.text.as_str().len() as u64
}

/// How many bytes the journal of these entries has in this version, whatever the site.
pub(crate) fn bytes_of(version: Version, script: &str, entries: &[Entry]) -> u64
    requires script { length script.now ≤ 65536 }
    requires few { length entries.now ≤ 100000 }
    requires ranges { list_all in_range entries.now ≡ true }
    ensures { (site : ℕ) → result ≡ length (journal version site script.now entries.now) }
{
    let mut bytes = 11 + script.len() as u64;
    for entry in entries {
        bytes += frame_bytes(version, entry);
    }
    bytes
}
