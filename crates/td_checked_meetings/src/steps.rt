//! The four steps of a meeting in the scope that a comparison found.

ghost use Rattle.std.specs.Prelude.{◌≡◌, Err, MatchResult, Ok};
ghost use Rattle.td_replica.specs.declared.refusal.TakeError.TheVariants as take_error;
ghost use Rattle.td_meeting.specs.declared.error.MeetingError.TheVariants as meeting_error;
ghost use Rattle.td_checked_meetings.specs.Steps.{AnsweredInScope, FinishedInScope, GreetedInScope, SettledInScope};

use crate::scope::MeetingScope;
use crate::sending::{put_own, send};
use crate::taking::{Received, receive};
use std::alloc::Global;
use td_io::{Failed, Sink, Source};
use td_meeting::{MeetingError, hear};
use td_replica::Replica;
use td_semantics::Meter;
use td_stamps::Vector;

/// The first step, of the first site: it writes its greeting, with the version vector of the scope. It flushes nothing.
pub fn greet<R: Replica, K: Sink>(
    alloc: Global,
    site: &R,
    scope: &MeetingScope,
    sink: &mut K,
) -> Result<(), MeetingError>
    ensures { GreetedInScope (R.seen site.now) scope.now (K.held sink.old) result (K.held sink.new) }
{
    if !site.is_open() {
        return Err(MeetingError::Broken);
    }
    put_own(alloc, site, scope, sink)
}

/// The second step, of the second site: it reads the first one's greeting, writes its own and the entries of its scope
/// that the first one lacks, and hands both on. Returns the first one's version vector.
pub fn answer<R: Replica, S: Source, K: Sink>(
    alloc: Global,
    site: &R,
    scope: &MeetingScope,
    source: &mut S,
    sink: &mut K,
) -> Result<Vector, MeetingError>
    ensures { AnsweredInScope (R.seen site.now) scope.now (S.left source.old) (S.left source.new) (K.held sink.old) result (K.held sink.new) }
{
    if !site.is_open() {
        return Err(MeetingError::Broken);
    }
    let greeting = match hear(alloc, site, source) {
        Ok(greeting) => greeting,
        Err(error) => return Err(error),
    };
    match put_own(alloc, site, scope, sink) {
        Ok(()) => {}
        Err(error) => return Err(error),
    }
    match send(site, scope, &greeting.vector, sink) {
        Ok(()) => Ok(greeting.vector),
        Err(Failed) => Err(MeetingError::WriteFault { taken: 0 }),
    }
}

/// The third step, of the first site: it reads the second one's greeting and entries, takes what it may of these as one
/// batch, writes the entries of its scope that the second one lacks, and hands them on.
pub fn settle<R: Replica, S: Source, K: Sink>(
    alloc: Global,
    site: &mut R,
    scope: &MeetingScope,
    source: &mut S,
    sink: &mut K,
    meter: &mut Meter,
) -> Result<Received, MeetingError>
    ensures settled { SettledInScope (R.seen site.old) scope.now (S.left source.old) (S.left source.new) (K.held sink.old) result (K.held sink.new) (R.seen site.new) }
    ensures journal { result ≡ Err (meeting_error.Take take_error.JournalWrite) → R.failed site.old site.new }
    ensures journaled { R.journaled site.old → R.journaled site.new }
{
    if !site.is_open() {
        return Err(MeetingError::Broken);
    }
    let greeting = match hear(alloc, site, source) {
        Ok(greeting) => greeting,
        Err(error) => return Err(error),
    };
    let received = match receive(alloc, site, scope, source, meter) {
        Ok(received) => received,
        Err(error) => return Err(error),
    };
    match send(site, scope, &greeting.vector, sink) {
        Ok(()) => Ok(received),
        Err(Failed) => Err(MeetingError::WriteFault {
            taken: received.taken.fresh,
        }),
    }
}

/// The fourth step, of the second site: it reads the first one's entries, and takes what it may of them as one batch.
pub fn finish<R: Replica, S: Source>(
    alloc: Global,
    site: &mut R,
    scope: &MeetingScope,
    source: &mut S,
    meter: &mut Meter,
) -> Result<Received, MeetingError>
    ensures finished { FinishedInScope (R.seen site.old) scope.now (S.left source.old) (S.left source.new) result (R.seen site.new) }
    ensures journal { result ≡ Err (meeting_error.Take take_error.JournalWrite) → R.failed site.old site.new }
    ensures journaled { R.journaled site.old → R.journaled site.new }
{
    if !site.is_open() {
        return Err(MeetingError::Broken);
    }
    receive(alloc, site, scope, source, meter)
}
