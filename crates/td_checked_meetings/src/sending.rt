//! What a site writes in a meeting.

ghost use Rattle.std.specs.Prelude.{◌≡◌, ◌≤◌, ◌∷◌, [], true, length, OnOk};
ghost use Rattle.std.specs.FinMap as by_site;
ghost use Rattle.std.specs.List.{AllByRecursion, list_all};
ghost use Rattle.std.specs.Io.KnownBytes.{Keeps};
ghost use Rattle.td_io.specs.Counted.{Counts};
ghost use Rattle.td_io.specs.Streams.{Writes};
ghost use Rattle.td_stamps.specs.Entries.{in_range};
ghost use Rattle.td_frames.specs.Spelling.{HasFrame, entry_frames, greeting_frame, stream};
ghost use Rattle.td_frames.specs.declared.version.Version.TheVariants.{Second};
ghost use Rattle.td_checked_meetings.specs.Scopes.{sent};
ghost use Rattle.td_checked_meetings.specs.ForProofs.{OwnGreeting};

use crate::scope::MeetingScope;
use std::alloc::Global;
use td_frames::{put_end, put_entry, put_greeting};
use td_io::{Failed, Sink};
use td_meeting::MeetingError;
use td_replica::Replica;
use td_stamps::{Entry, Held, Vector};

// Writes an entry if it is in the scope and after the other site's vector.
fn put_kept<K: Sink>(
    sink: &mut K,
    scope: &MeetingScope,
    vector: &Vector,
    entry: &Entry,
) -> Result<(), Failed>
    requires { length entry.now.text ≤ 8192 }
    ensures bytes { Writes (K.held sink.old) (K.held sink.new) result (entry_frames Second (sent scope.now.left_out.items scope.now.vector vector.now (entry.now ∷ []))) }
    ensures has { OnOk result (AllByRecursion (HasFrame Second) (sent scope.now.left_out.items scope.now.vector vector.now (entry.now ∷ []))) }
    ensures count { Counts (K.faults sink.old) (K.faults sink.new) result }
    ensures aside { Keeps (K.aside sink.old) (K.aside sink.new) }
{
    if vector.number(entry.site) < entry.seq && scope.keeps(entry) {
        put_entry(sink, entry)
    } else {
        Ok(())
    }
}

// Writes the frames of the entries in the scope that are after the other site's vector.
fn put_entries<K: Sink>(
    sink: &mut K,
    scope: &MeetingScope,
    vector: &Vector,
    entries: &[Entry],
) -> Result<(), Failed>
    requires { list_all in_range entries.now ≡ true }
    ensures bytes { Writes (K.held sink.old) (K.held sink.new) result (entry_frames Second (sent scope.now.left_out.items scope.now.vector vector.now entries.now)) }
    ensures has { OnOk result (AllByRecursion (HasFrame Second) (sent scope.now.left_out.items scope.now.vector vector.now entries.now)) }
    ensures count { Counts (K.faults sink.old) (K.faults sink.new) result }
    ensures aside { Keeps (K.aside sink.old) (K.aside sink.new) }
{
    for entry in entries {
        put_kept(sink, scope, vector, entry)?;
    }
    Ok(())
}

// Writes the stream of the entries in the scope that are after the other site's vector.
fn put_stream<K: Sink>(
    sink: &mut K,
    scope: &MeetingScope,
    vector: &Vector,
    held: &Held,
) -> Result<(), Failed>
    ensures bytes { Writes (K.held sink.old) (K.held sink.new) result (stream Second (sent scope.now.left_out.items scope.now.vector vector.now held.now.entries)) }
    ensures has { OnOk result (AllByRecursion (HasFrame Second) (sent scope.now.left_out.items scope.now.vector vector.now held.now.entries)) }
    ensures count { Counts (K.faults sink.old) (K.faults sink.new) result }
    ensures aside { Keeps (K.aside sink.old) (K.aside sink.new) }
{
    put_entries(sink, scope, vector, held.entries())?;
    put_end(sink)
}

/// Writes the stream of the entries in the scope that are after the other site's vector, and hands it on. It takes no
/// memory.
pub(crate) fn send<R: Replica, K: Sink>(
    site: &R,
    scope: &MeetingScope,
    vector: &Vector,
    sink: &mut K,
) -> Result<(), Failed>
    requires { (R.seen site.now).live ≡ true }
    ensures bytes { Writes (K.held sink.old) (K.held sink.new) result (stream Second (sent scope.now.left_out.items scope.now.vector vector.now (R.seen site.now).entries)) }
    ensures has { OnOk result (AllByRecursion (HasFrame Second) (sent scope.now.left_out.items scope.now.vector vector.now (R.seen site.now).entries)) }
    ensures count { Counts (K.faults sink.old) (K.faults sink.new) result }
    ensures flushed { OnOk result (K.is_flushed sink.new ≡ true) }
    ensures aside { Keeps (K.aside sink.old) (K.aside sink.new) }
{
    let Ok(held) = site.held() else {
        unreachable!();
    };
    put_stream(sink, scope, vector, held)?;
    sink.flush()
}

/// Writes the site's greeting with the version vector of the scope. It takes room for that.
pub(crate) fn put_own<R: Replica, K: Sink>(
    alloc: Global,
    site: &R,
    scope: &MeetingScope,
    sink: &mut K,
) -> Result<(), MeetingError>
    ensures written { OwnGreeting (R.seen site.now) scope.now (K.held sink.old) (K.held sink.new) result }
    ensures aside { Keeps (K.aside sink.old) (K.aside sink.new) }
{
    let Ok(places) = scope.vector.entries(alloc) else {
        return Err(MeetingError::OutOfMemory);
    };
    match put_greeting(sink, site.site(), site.script(), &places) {
        Ok(()) => Ok(()),
        Err(Failed) => Err(MeetingError::WriteFault { taken: 0 }),
    }
}
