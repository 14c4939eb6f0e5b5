//! Streams of entries, read and written.

ghost use Rattle.std.specs.Prelude.{◌≡◌, ◌∷◌, ◌++◌, ◌≤◌, ℕ, List, length};
ghost use Rattle.std.specs.Int.{w16, w32, w64, to_be_bytes};
ghost use Rattle.std.specs.Io.KnownBytes.{Keeps, Consumes};
ghost use Rattle.td_io.specs.Counted.{Counts};
ghost use Rattle.td_io.specs.Streams.{Writes};
ghost use Rattle.td_frames.specs.Reading.{Told, ToldEntries, end_at, entries_at};
ghost use Rattle.td_frames.specs.Spelling.{HasFrame, end_frame, entry_frame};
ghost use Rattle.td_frames.specs.declared.version.Version.TheVariants.{Second};

use crate::entry::read_frame;
use crate::error::FrameError;
use crate::fields::read_field;
use crate::version::Version;
use std::alloc::Global;
use td_io::{Failed, Sink, Source, write_all};
use td_stamps::Entry;

/// The most entries that a site reads of a stream or of a journal.
pub const MOST_ENTRIES: u32 = 100_000;

// Reads the end, where no entry may follow: one byte.
fn read_end<S: Source>(source: &mut S) -> Result<(), FrameError>
    ensures told { (bytes : List ℕ) × Consumes (S.left source.old) (S.left source.new) bytes
        × Told result (end_at bytes) (S.left source.new) (S.failures source.old) (S.failures source.new) }
    ensures beside { Keeps (S.beside source.old) (S.beside source.new) }
{
    let mut letter = [0u8; 1];
    match read_field(source, &mut letter) {
        Ok(()) => {}
        Err(e) => return Err(e),
    }
    if letter.as_slice() != [b'Z'].as_slice() {
        return Err(FrameError::BadFrame);
    }
    Ok(())
}

/// Reads the frames of at most so many entries in this version, and the end. A frame of one entry more is refused at
/// its letter. What was read whole before an error is there too.
pub fn read_entries<S: Source>(
    alloc: Global,
    source: &mut S,
    version: Version,
    most: u32,
) -> (Vec<Entry>, Result<(), FrameError>)
    ensures told { (bytes : List ℕ) × Consumes (S.left source.old) (S.left source.new) bytes
        × ToldEntries result.1 result.0.items (entries_at version most bytes) (S.left source.new) (S.failures source.old) (S.failures source.new) }
    ensures beside { Keeps (S.beside source.old) (S.beside source.new) }
{
    let mut entries = Vec::new(alloc);
    for _ in 0..most {
        match read_frame(alloc, source, version) {
            Err(e) => return (entries, Err(e)),
            Ok(None) => return (entries, Ok(())),
            Ok(Some(entry)) => match entries.push(entry) {
                Ok(()) => {}
                Err(_) => return (entries, Err(FrameError::OutOfMemory)),
            },
        }
    }
    match read_end(source) {
        Err(e) => (entries, Err(e)),
        Ok(()) => (entries, Ok(())),
    }
}

// The head of an entry's frame in the second version: its letter, its numbers and the length of its text.
fn head_bytes(site: u16, seq: u32, clock: u64, dialect: u8, length: u16) -> [u8; 18]
    ensures { result ≡ 69 ∷ (to_be_bytes w16 site ++ to_be_bytes w32 seq ++ to_be_bytes w64 clock ++ dialect ∷ to_be_bytes w16 length) }
{
    let s = site.to_be_bytes();
    let q = seq.to_be_bytes();
    let c = clock.to_be_bytes();
    let n = length.to_be_bytes();
    [
        b'E', s[0], s[1], q[0], q[1], q[2], q[3], c[0], c[1], c[2], c[3], c[4], c[5], c[6], c[7],
        dialect, n[0], n[1],
    ]
}

/// Writes the frame of an entry, in the second version. It takes no memory, and flushes nothing.
pub fn put_entry<K: Sink>(sink: &mut K, entry: &Entry) -> Result<(), Failed>
    requires { length entry.now.text ≤ 8192 }
    ensures bytes { Writes (K.held sink.old) (K.held sink.new) result (entry_frame Second entry.now) }
    ensures has { HasFrame Second entry.now }
    ensures count { Counts (K.faults sink.old) (K.faults sink.new) result }
    ensures aside { Keeps (K.aside sink.old) (K.aside sink.new) }
{
    let text = entry.text.as_str().as_bytes();
    let head = head_bytes(
        entry.site,
        entry.seq,
        entry.clock,
        entry.dialect,
        text.len() as u16,
    );
    write_all(sink, &head)?;
    write_all(sink, text)
}

/// Writes the frame that ends a stream. It takes no memory, and flushes nothing.
pub fn put_end<K: Sink>(sink: &mut K) -> Result<(), Failed>
    ensures bytes { Writes (K.held sink.old) (K.held sink.new) result end_frame }
    ensures count { Counts (K.faults sink.old) (K.faults sink.new) result }
    ensures aside { Keeps (K.aside sink.old) (K.aside sink.new) }
{
    write_all(sink, b"Z")
}
