//! The steps of a meeting over bytes in memory.

ghost use Rattle.std.specs.Prelude.{◌≡◌};
ghost use Rattle.td_site_desk.specs.Meetings.{FinishesBytes, SettlesBytes};

use crate::scopes::PeerGreeting;
use std::alloc::Global;
use td_checked_meetings::{
    MeetingScope, Received, answer, answer_question, ask, compare, finish, greet, settle,
};
use td_digested_sites::Digested;
use td_event_loop::Outbox;
use td_frames::read_greeting;
use td_io::Device;
use td_meeting::MeetingError;
use td_replica::Replica;
use td_semantics::Meter;
use td_stamps::Vector;

/// Appends the digests of what the site holds to what is to be sent. Returns the version vector of that.
pub(crate) fn ask_into<R: Digested>(
    alloc: Global,
    site: &mut R,
    out: &mut Outbox,
) -> Result<Vector, MeetingError>
    ensures { R.seen site.new ≡ R.seen site.old }
{
    ask(alloc, site, &mut Device::new(out))
}

/// Reads a question, and appends the answer. Returns the scope of the meeting, as far as it is known here.
pub(crate) fn answer_question_into<R: Digested>(
    alloc: Global,
    site: &mut R,
    question: &[u8],
    out: &mut Outbox,
) -> Result<MeetingScope, MeetingError>
    ensures { R.seen site.new ≡ R.seen site.old }
{
    answer_question(alloc, site, question, &mut Device::new(out))
}

/// Reads an answer, and appends which sites differ and the greeting of the site. Returns the scope of the meeting.
pub(crate) fn compare_into<R: Digested>(
    alloc: Global,
    site: &mut R,
    vector: Vector,
    answer: &[u8],
    out: &mut Outbox,
) -> Result<MeetingScope, MeetingError>
    ensures { R.seen site.new ≡ R.seen site.old }
{
    let mut sink = Device::new(out);
    let scope = match compare(alloc, site, vector, answer, &mut sink) {
        Ok(scope) => scope,
        Err(error) => return Err(error),
    };
    match greet(alloc, site, &scope, &mut sink) {
        Ok(()) => Ok(scope),
        Err(error) => Err(error),
    }
}

/// Appends the greeting of the site, with the version vector of the scope.
pub(crate) fn greet_into<R: Replica>(
    alloc: Global,
    site: &R,
    scope: &MeetingScope,
    out: &mut Outbox,
) -> Result<(), MeetingError> {
    greet(alloc, site, scope, &mut Device::new(out))
}

/// Reads a greeting, and appends the site's own with the entries of the scope that the peer lacks.
pub(crate) fn answer_bytes<R: Replica>(
    alloc: Global,
    site: &R,
    scope: &MeetingScope,
    greeting: &[u8],
    out: &mut Outbox,
) -> Result<(), MeetingError> {
    match answer(
        alloc,
        site,
        scope,
        &mut Device::new(greeting),
        &mut Device::new(out),
    ) {
        Ok(_) => Ok(()),
        Err(error) => Err(error),
    }
}

/// What a site says of itself in a greeting; none if it is not complete, or if memory runs out.
pub(crate) fn greeting_of(alloc: Global, greeting: &[u8]) -> Option<PeerGreeting> {
    match read_greeting(alloc, &mut Device::new(greeting)) {
        Ok(greeting) => Some(PeerGreeting {
            site: greeting.site,
            vector: greeting.vector,
        }),
        Err(_) => None,
    }
}

/// Takes the entries of a reply as one batch, and appends those of the scope that the peer lacks.
pub(crate) fn settle_bytes<R: Replica>(
    alloc: Global,
    site: &mut R,
    scope: &MeetingScope,
    reply: &[u8],
    out: &mut Outbox,
    meter: &mut Meter,
) -> Result<Received, MeetingError>
    ensures { SettlesBytes (R.seen site.old) scope.now reply.now result (R.seen site.new) }
{
    let mut source = Device::new(reply);
    let mut sink = Device::new(out);
    settle(alloc, site, scope, &mut source, &mut sink, meter)
}

/// Takes the entries of the peer as one batch.
pub(crate) fn finish_bytes<R: Replica>(
    alloc: Global,
    site: &mut R,
    scope: &MeetingScope,
    entries: &[u8],
    meter: &mut Meter,
) -> Result<Received, MeetingError>
    ensures { FinishesBytes (R.seen site.old) scope.now entries.now result (R.seen site.new) }
{
    let mut source = Device::new(entries);
    finish(alloc, site, scope, &mut source, meter)
}
