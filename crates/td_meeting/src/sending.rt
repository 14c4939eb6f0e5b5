//! What a site writes: its greeting, and what it holds after the other site's version vector.

ghost use Rattle.std.specs.Prelude.{◌≡◌, ◌≤◌, ℕ, List, [], ◌∷◌, ◌++◌, true, length, IfOk, OnOk};
ghost use Rattle.std.specs.List.{AllByRecursion, list_all};
ghost use Rattle.td_stamps.specs.Entries.{in_range};
ghost use Rattle.std.specs.Io.KnownBytes.{Keeps};
ghost use Rattle.td_io.specs.Counted.{Counts};
ghost use Rattle.td_io.specs.Streams.{Writes};
ghost use Rattle.td_stamps.specs.Vectors.{after_vector};
ghost use Rattle.td_frames.specs.Spelling.{HasFrame, entry_frames, stream};
ghost use Rattle.td_frames.specs.declared.version.Version.TheVariants.{Second};
ghost use Rattle.td_meeting.specs.ForProofs.Parts.{ArePlaces, Replied};
ghost use Rattle.td_meeting.specs.Steps.{AreSent};
ghost use Rattle.td_meeting.specs.Writing.{Greets, sends};

use crate::error::MeetingError;
use std::alloc::{AllocError, Global};
use td_frames::{put_end, put_entry, put_greeting};
use td_io::{Failed, Sink};
use td_replica::Replica;
use td_stamps::{Entry, Held, Vector};

/// The sites of the version vector of what is held, each with its number.
pub(crate) fn places_of(alloc: Global, held: &Held) -> Result<Vec<(u16, u32)>, AllocError>
    ensures { IfOk result (λ v. ArePlaces held.now.entries v.items) }
{
    let vector = held.vector(alloc)?;
    vector.entries(alloc)
}

/// Writes the site's greeting, whose version vector has these sites and numbers. It takes no memory.
pub(crate) fn put_own<R: Replica, K: Sink>(
    site: &R,
    places: &[(u16, u32)],
    sink: &mut K,
) -> Result<(), Failed>
    requires { ArePlaces (R.seen site.now).entries places.now }
    ensures bytes { (bytes : List ℕ) × Greets (R.seen site.now) bytes × Writes (K.held sink.old) (K.held sink.new) result bytes }
    ensures count { Counts (K.faults sink.old) (K.faults sink.new) result }
    ensures aside { Keeps (K.aside sink.old) (K.aside sink.new) }
{
    put_greeting(sink, site.site(), site.script(), places)
}

// Writes an entry where the vector does not count it as held.
fn put_lacking<K: Sink>(sink: &mut K, vector: &Vector, entry: &Entry) -> Result<(), Failed>
    requires { length entry.now.text ≤ 8192 }
    ensures bytes { Writes (K.held sink.old) (K.held sink.new) result (entry_frames Second (after_vector vector.now (entry.now ∷ []))) }
    ensures has { OnOk result (AllByRecursion (HasFrame Second) (after_vector vector.now (entry.now ∷ []))) }
    ensures count { Counts (K.faults sink.old) (K.faults sink.new) result }
    ensures aside { Keeps (K.aside sink.old) (K.aside sink.new) }
{
    if vector.number(entry.site) < entry.seq {
        put_entry(sink, entry)
    } else {
        Ok(())
    }
}

// Writes the frames of the entries after a version vector.
fn put_entries<K: Sink>(sink: &mut K, entries: &[Entry], vector: &Vector) -> Result<(), Failed>
    requires { list_all in_range entries.now ≡ true }
    ensures bytes { Writes (K.held sink.old) (K.held sink.new) result (entry_frames Second (after_vector vector.now entries.now)) }
    ensures has { OnOk result (AllByRecursion (HasFrame Second) (after_vector vector.now entries.now)) }
    ensures count { Counts (K.faults sink.old) (K.faults sink.new) result }
    ensures aside { Keeps (K.aside sink.old) (K.aside sink.new) }
{
    for entry in entries {
        put_lacking(sink, vector, entry)?;
    }
    Ok(())
}

// Writes the stream of what is held after a version vector.
fn put_stream<K: Sink>(sink: &mut K, held: &Held, vector: &Vector) -> Result<(), Failed>
    ensures bytes { Writes (K.held sink.old) (K.held sink.new) result (stream Second (after_vector vector.now held.now.entries)) }
    ensures has { OnOk result (AllByRecursion (HasFrame Second) (after_vector vector.now held.now.entries)) }
    ensures count { Counts (K.faults sink.old) (K.faults sink.new) result }
    ensures aside { Keeps (K.aside sink.old) (K.aside sink.new) }
{
    put_entries(sink, held.entries(), vector)?;
    put_end(sink)
}

/// Writes what an open site holds after a version vector, and hands it on. It takes no memory.
pub(crate) fn send<R: Replica, K: Sink>(
    site: &R,
    vector: &Vector,
    sink: &mut K,
) -> Result<(), Failed>
    requires { (R.seen site.now).live ≡ true }
    ensures bytes { Writes (K.held sink.old) (K.held sink.new) result (sends (R.seen site.now) vector.now) }
    ensures has { OnOk result (AreSent (R.seen site.now) vector.now) }
    ensures count { Counts (K.faults sink.old) (K.faults sink.new) result }
    ensures flushed { OnOk result (K.is_flushed sink.new ≡ true) }
    ensures aside { Keeps (K.aside sink.old) (K.aside sink.new) }
{
    let Ok(held) = site.held() else {
        unreachable!();
    };
    put_stream(sink, held, vector)?;
    sink.flush()
}

/// Writes the site's greeting, and hands it on.
pub(crate) fn send_greeting<R: Replica, K: Sink>(
    site: &R,
    places: &[(u16, u32)],
    sink: &mut K,
) -> Result<(), Failed>
    requires { ArePlaces (R.seen site.now).entries places.now }
    ensures bytes { (bytes : List ℕ) × Greets (R.seen site.now) bytes × Writes (K.held sink.old) (K.held sink.new) result bytes }
    ensures count { Counts (K.faults sink.old) (K.faults sink.new) result }
    ensures flushed { OnOk result (K.is_flushed sink.new ≡ true) }
    ensures aside { Keeps (K.aside sink.old) (K.aside sink.new) }
{
    put_own(site, places, sink)?;
    sink.flush()
}

// Writes the site's greeting and what it holds after a version vector, and hands both on.
fn send_reply<R: Replica, K: Sink>(
    site: &R,
    places: &[(u16, u32)],
    vector: &Vector,
    sink: &mut K,
) -> Result<(), Failed>
    requires live { (R.seen site.now).live ≡ true }
    requires places { ArePlaces (R.seen site.now).entries places.now }
    ensures bytes { (own : List ℕ) × Greets (R.seen site.now) own × Writes (K.held sink.old) (K.held sink.new) result (own ++ sends (R.seen site.now) vector.now) }
    ensures has { OnOk result (AreSent (R.seen site.now) vector.now) }
    ensures count { Counts (K.faults sink.old) (K.faults sink.new) result }
    ensures flushed { OnOk result (K.is_flushed sink.new ≡ true) }
    ensures aside { Keeps (K.aside sink.old) (K.aside sink.new) }
{
    put_own(site, places, sink)?;
    send(site, vector, sink)
}

/// Writes the greeting of an open site and what it holds after a version vector. It takes room for the version vector
/// before it writes.
pub(crate) fn reply<R: Replica, K: Sink>(
    alloc: Global,
    site: &R,
    vector: &Vector,
    sink: &mut K,
) -> Result<(), MeetingError>
    requires { (R.seen site.now).live ≡ true }
    ensures told { Replied (R.seen site.now) vector.now (K.held sink.old) (K.held sink.new) (K.faults sink.old) (K.faults sink.new) result }
    ensures flushed { OnOk result (K.is_flushed sink.new ≡ true) }
    ensures aside { Keeps (K.aside sink.old) (K.aside sink.new) }
{
    let Ok(held) = site.held() else {
        unreachable!();
    };
    let Ok(places) = places_of(alloc, held) else {
        return Err(MeetingError::OutOfMemory);
    };
    match send_reply(site, places.as_slice(), vector, sink) {
        Ok(()) => Ok(()),
        Err(Failed) => Err(MeetingError::WriteFault { taken: 0 }),
    }
}
