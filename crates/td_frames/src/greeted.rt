//! Greetings, written.

ghost use Rattle.std.specs.Prelude.{◌≡◌, ◌<◌, ◌≤◌, ◌^◌, IsUtf8, length};
ghost use Rattle.std.specs.List.{flat_map};
ghost use Rattle.std.specs.Io.KnownBytes.{Keeps};
ghost use Rattle.td_io.specs.Counted.{Counts};
ghost use Rattle.td_io.specs.Streams.{Writes};
ghost use Rattle.td_frames.specs.Spelling as spelled;

use td_io::{Failed, Sink, write_all};

// The begin of a greeting: its letters, the version of the formats, and the site.
fn head_bytes(site: u16) -> [u8; 7]
    ensures { result ≡ spelled.head_frame site }
{
    let s = site.to_be_bytes();
    [b'H', b'T', b'D', b'B', 2, s[0], s[1]]
}

// One place of a version vector: a site and the sequence number up to which it is held.
fn place_bytes(place: &(u16, u32)) -> [u8; 6]
    ensures { result ≡ spelled.place place.now }
{
    let s = place.0.to_be_bytes();
    let n = place.1.to_be_bytes();
    [s[0], s[1], n[0], n[1], n[2], n[3]]
}

// Writes the places of a version vector, in their order.
fn put_places<K: Sink>(sink: &mut K, places: &[(u16, u32)]) -> Result<(), Failed>
    ensures bytes { Writes (K.held sink.old) (K.held sink.new) result (flat_map spelled.place places.now) }
    ensures count { Counts (K.faults sink.old) (K.faults sink.new) result }
    ensures aside { Keeps (K.aside sink.old) (K.aside sink.new) }
{
    for place in places {
        write_all(sink, &place_bytes(place))?;
    }
    Ok(())
}

// Writes a version vector: the count of its places, then each of them.
fn put_vector<K: Sink>(sink: &mut K, places: &[(u16, u32)]) -> Result<(), Failed>
    requires { length places.now < 65536 }
    ensures bytes { Writes (K.held sink.old) (K.held sink.new) result (spelled.vector_frame places.now) }
    ensures count { Counts (K.faults sink.old) (K.faults sink.new) result }
    ensures aside { Keeps (K.aside sink.old) (K.aside sink.new) }
{
    let count = places.len() as u16;
    write_all(sink, &count.to_be_bytes())?;
    put_places(sink, places)
}

// Writes a script behind its length.
fn put_script<K: Sink>(sink: &mut K, script: &str) -> Result<(), Failed>
    requires { length script.now ≤ 65536 }
    ensures bytes { Writes (K.held sink.old) (K.held sink.new) result (spelled.script_frame script.now) }
    ensures count { Counts (K.faults sink.old) (K.faults sink.new) result }
    ensures aside { Keeps (K.aside sink.old) (K.aside sink.new) }
{
    let length = script.len() as u32;
    write_all(sink, &length.to_be_bytes())?;
    write_all(sink, script.as_bytes())
}

/// Writes the greeting of a site: its number, its script, and the sites of its version vector, ascending, each with its
/// number. It takes no memory, and flushes nothing.
pub fn put_greeting<K: Sink>(
    sink: &mut K,
    site: u16,
    script: &str,
    places: &[(u16, u32)],
) -> Result<(), Failed>
    requires script { length script.now ≤ 65536 }
    requires places { length places.now < 65536 }
    ensures bytes { Writes (K.held sink.old) (K.held sink.new) result (spelled.greeting_frame site script.now places.now) }
    ensures site { site < 2 ^ 16 }
    ensures text { IsUtf8 script.now }
    ensures count { Counts (K.faults sink.old) (K.faults sink.new) result }
    ensures aside { Keeps (K.aside sink.old) (K.aside sink.new) }
{
    write_all(sink, &head_bytes(site))?;
    put_script(sink, script)?;
    put_vector(sink, places)
}
