//! The four steps of a meeting.

ghost use Rattle.std.specs.Prelude.{◌≡◌, Err};
ghost use Rattle.std.specs.Io.KnownBytes.{Keeps};
ghost use Rattle.td_replica.specs.declared.refusal.TakeError.TheVariants as take_error;
ghost use Rattle.td_meeting.specs.declared.error.MeetingError.TheVariants as meeting_error;
ghost use Rattle.td_meeting.specs.Steps.{Answered, Finished, Greeted, Settled, link_of, side_of};

use crate::error::MeetingError;
use crate::hearing::hear;
use crate::sending::{places_of, reply, send, send_greeting};
use crate::taking::receive;
use std::alloc::Global;
use td_io::{Channel, Failed, Sink, Source};
use td_replica::{Replica, Taken};
use td_semantics::Meter;

/// The first step, of the first site: it writes its greeting, and hands it on. It costs a walk along what the site
/// holds.
pub fn greet<R: Replica, K: Sink>(alloc: Global, site: &R, sink: &mut K) -> Result<(), MeetingError>
    ensures greeted { Greeted (R.seen site.now) (side_of K.Sink sink.old) result (side_of K.Sink sink.new) }
    ensures aside { Keeps (K.aside sink.old) (K.aside sink.new) }
{
    let Ok(held) = site.held() else {
        return Err(MeetingError::Broken);
    };
    let Ok(places) = places_of(alloc, held) else {
        return Err(MeetingError::OutOfMemory);
    };
    match send_greeting(site, places.as_slice(), sink) {
        Ok(()) => Ok(()),
        Err(Failed) => Err(MeetingError::WriteFault { taken: 0 }),
    }
}

/// The second step, of the second site: it reads the first one's greeting, writes its own and what it holds after the
/// version vector that it read, and hands both on. It takes room for what it reads and for its own version vector,
/// before it writes.
pub fn answer<R: Replica, C: Channel>(
    alloc: Global,
    site: &R,
    link: &mut C,
) -> Result<(), MeetingError>
    ensures { Answered (R.seen site.now) (link_of C.Source C.Sink link.old) result (link_of C.Source C.Sink link.new) }
{
    if !site.is_open() {
        return Err(MeetingError::Broken);
    }
    let greeting = match hear(alloc, site, link) {
        Ok(greeting) => greeting,
        Err(error) => return Err(error),
    };
    reply(alloc, site, &greeting.vector, link)
}

/// The third step, of the first site: it reads the second one's greeting and entries, takes these as one batch, writes
/// what it then holds after the version vector that it read, and hands it on. All room is taken before the batch is.
pub fn settle<R: Replica, C: Channel>(
    alloc: Global,
    site: &mut R,
    link: &mut C,
    meter: &mut Meter,
) -> Result<Taken, MeetingError>
    ensures settled { Settled (R.seen site.old) (link_of C.Source C.Sink link.old) result (link_of C.Source C.Sink link.new) (R.seen site.new) }
    ensures journal { result ≡ Err (meeting_error.Take take_error.JournalWrite) → R.failed site.old site.new }
    ensures journaled { R.journaled site.old → R.journaled site.new }
{
    if !site.is_open() {
        return Err(MeetingError::Broken);
    }
    let greeting = match hear(alloc, site, link) {
        Ok(greeting) => greeting,
        Err(error) => return Err(error),
    };
    let taken = match receive(alloc, site, link, meter) {
        Ok(taken) => taken,
        Err(error) => return Err(error),
    };
    match send(site, &greeting.vector, link) {
        Ok(()) => Ok(taken),
        Err(Failed) => Err(MeetingError::WriteFault { taken: taken.fresh }),
    }
}

/// The fourth step, of the second site: it reads the first one's entries, and takes them as one batch.
pub fn finish<R: Replica, S: Source>(
    alloc: Global,
    site: &mut R,
    source: &mut S,
    meter: &mut Meter,
) -> Result<Taken, MeetingError>
    ensures finished { Finished (R.seen site.old) (S.left source.old) (S.left source.new) (S.failures source.old) (S.failures source.new) result (R.seen site.new) }
    ensures beside { Keeps (S.beside source.old) (S.beside source.new) }
    ensures journal { result ≡ Err (meeting_error.Take take_error.JournalWrite) → R.failed site.old site.new }
    ensures journaled { R.journaled site.old → R.journaled site.new }
{
    if !site.is_open() {
        return Err(MeetingError::Broken);
    }
    receive(alloc, site, source, meter)
}
