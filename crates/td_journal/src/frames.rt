//! The header of a journal and the frames of entries, written, in the second version of the formats.

ghost use Rattle.std.specs.Prelude.{◌≡◌, ◌≤◌, ◌∷◌, ◌++◌, true, IsTrue, codes, length, OnOk};
ghost use Rattle.std.specs.Int.{w16, w32, to_be_bytes};
ghost use Rattle.std.specs.Io.KnownBytes.{Keeps};
ghost use Rattle.std.specs.List.{AllByRecursion, list_all};
ghost use Rattle.td_io.specs.Counted.{Counts};
ghost use Rattle.td_io.specs.Streams.{Writes};
ghost use Rattle.td_stamps.specs.Entries.{in_range};
ghost use Rattle.td_frames.specs.Spelling.{HasFrame, entry_frames};
ghost use Rattle.td_frames.specs.declared.version.Version.TheVariants.{Second};
ghost use Rattle.td_journal.specs.Spelling.{header, journal};

use td_frames::put_entry;
use td_io::{Failed, Sink, write_all};
use td_stamps::Entry;

// The header of a journal up to its script: its letters, the version, the site and the script's length.
fn head_bytes(site: u16, length: u32) -> [u8; 11]
    ensures { result ≡ codes "JTDB" ++ 2 ∷ (to_be_bytes w16 site ++ to_be_bytes w32 length) }
{
    let s = site.to_be_bytes();
    let n = length.to_be_bytes();
    [
        b'J', b'T', b'D', b'B', 2, s[0], s[1], n[0], n[1], n[2], n[3],
    ]
}

// Whether its parts are in their ranges: then it has a frame.
fn is_framed(entry: &Entry) -> bool
    ensures range { result ≡ in_range entry.now }
    ensures framed { IsTrue result → HasFrame Second entry.now }
{
    // Only of parts that are read it is known that their types' bits suffice.
    let _site = entry.site;
    let _seq = entry.seq;
    let _clock = entry.clock;
    let _dialect = entry.dialect;
    let _bytes = entry.text.as_str().len();
    entry.is_in_range()
}

/// Whether the parts of each are in their ranges: then each has a frame.
pub(crate) fn all_framed(entries: &[Entry]) -> bool
    ensures ranges { result ≡ list_all in_range entries.now }
    ensures framed { IsTrue result → AllByRecursion (HasFrame Second) entries.now }
{
    for entry in entries {
        if !is_framed(entry) {
            return false;
        }
    }
    true
}

/// Writes the header of a journal.
pub(crate) fn put_header<K: Sink>(sink: &mut K, site: u16, script: &str) -> Result<(), Failed>
    requires { length script.now ≤ 65536 }
    ensures bytes { Writes (K.held sink.old) (K.held sink.new) result (header Second site script.now) }
    ensures count { Counts (K.faults sink.old) (K.faults sink.new) result }
    ensures aside { Keeps (K.aside sink.old) (K.aside sink.new) }
{
    write_all(sink, &head_bytes(site, script.len() as u32))?;
    write_all(sink, script.as_bytes())
}

// Writes the frames of the entries, in their order.
fn put_entries<K: Sink>(sink: &mut K, entries: &[Entry]) -> Result<(), Failed>
    requires { list_all in_range entries.now ≡ true }
    ensures bytes { Writes (K.held sink.old) (K.held sink.new) result (entry_frames Second entries.now) }
    ensures has { OnOk result (AllByRecursion (HasFrame Second) entries.now) }
    ensures count { Counts (K.faults sink.old) (K.faults sink.new) result }
    ensures aside { Keeps (K.aside sink.old) (K.aside sink.new) }
{
    for entry in entries {
        put_entry(sink, entry)?;
    }
    Ok(())
}

/// Writes the frames of entries, and hands them on.
pub(crate) fn send_entries<K: Sink>(sink: &mut K, entries: &[Entry]) -> Result<(), Failed>
    requires { list_all in_range entries.now ≡ true }
    ensures bytes { Writes (K.held sink.old) (K.held sink.new) result (entry_frames Second entries.now) }
    ensures has { OnOk result (AllByRecursion (HasFrame Second) entries.now) }
    ensures flushed { OnOk result (K.is_flushed sink.new ≡ true) }
    ensures count { Counts (K.faults sink.old) (K.faults sink.new) result }
    ensures aside { Keeps (K.aside sink.old) (K.aside sink.new) }
{
    put_entries(sink, entries)?;
    sink.flush()
}

/// Writes the whole journal of these entries, and hands it on.
pub(crate) fn send_journal<K: Sink>(
    sink: &mut K,
    site: u16,
    script: &str,
    entries: &[Entry],
) -> Result<(), Failed>
    requires script { length script.now ≤ 65536 }
    requires ranges { list_all in_range entries.now ≡ true }
    ensures bytes { Writes (K.held sink.old) (K.held sink.new) result (journal Second site script.now entries.now) }
    ensures has { OnOk result (AllByRecursion (HasFrame Second) entries.now) }
    ensures flushed { OnOk result (K.is_flushed sink.new ≡ true) }
    ensures count { Counts (K.faults sink.old) (K.faults sink.new) result }
    ensures aside { Keeps (K.aside sink.old) (K.aside sink.new) }
{
    put_header(sink, site, script)?;
    send_entries(sink, entries)
}
