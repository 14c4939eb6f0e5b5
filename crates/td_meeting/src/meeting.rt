//! A meeting of two sites in memory.

ghost use Rattle.std.specs.Prelude.{◌≡◌, ◌⊎◌, true, Ok, Err, MatchResult, OnOk};
ghost use Rattle.td_replica.specs.Seen.{IsSound};
ghost use Rattle.td_meeting.specs.ForProofs.Carried.{AnswersIn, HearsIn, IsAnswer, ReceivesIn, SettlesIn};
ghost use Rattle.td_meeting.specs.Meetings.{AreOpen, AreTwo, Judges, Meets};
ghost use Rattle.td_meeting.specs.Writing.{Greets};
ghost use Rattle.td_meeting.specs.declared.error.MeetingError.TheVariants as meeting_error;
ghost use Rattle.td_meeting.specs.declared.meeting.MeetingRefusal.{MeetingRefusal};
ghost use Rattle.td_replica.specs.declared.refusal.TakeError.TheVariants as take_error;

use crate::error::MeetingError;
use crate::hearing::hear;
use crate::memory::{Incoming, Outgoing};
use crate::sending::{reply, send};
use crate::steps::greet;
use crate::taking::receive;
use std::alloc::Global;
use td_frames::Greeting;
use td_io::Failed;
use td_replica::{Replica, Taken};
use td_semantics::Meter;
use thiserror::Error;

/// How many entries were fresh to the first site of a meeting, and to the second.
#[derive(Clone, Copy, PartialEq, Eq)]
pub struct Met {
    pub fresh_a: usize,
    pub fresh_b: usize,
}

/// Why a meeting in memory stops, and how many fresh entries the first site took before.
#[derive(Clone, Copy, Debug, Drop, PartialEq, Eq, Error)]
#[error("{error}; fresh entries that the first site took: {first_took}")]
pub struct MeetingRefusal {
    pub error: MeetingError,
    pub first_took: usize,
}

// The refusal of a meeting before the first site took anything.
fn refusal(error: MeetingError) -> MeetingRefusal
    ensures { result ≡ record { error = error; first_took = 0 } }
{
    MeetingRefusal {
        error,
        first_took: 0,
    }
}

/// Whether two sites may meet: both are open, they started from one script, and have two numbers. It takes no memory.
pub fn judge<A: Replica, B: Replica>(first: &A, second: &B) -> Result<(), MeetingError>
    ensures { Judges (A.seen first.now) (B.seen second.now) result }
{
    if !first.is_open() || !second.is_open() {
        return Err(MeetingError::Broken);
    }
    if first.script() != second.script() {
        return Err(MeetingError::OtherScript);
    }
    if first.site() == second.site() {
        return Err(MeetingError::SameSite);
    }
    Ok(())
}

// The greeting of a site, as bytes in memory.
fn greeting_of<R: Replica>(alloc: Global, site: &R) -> Result<Vec<u8>, MeetingError>
    requires { (R.seen site.now).live ≡ true }
    ensures { MatchResult result (λ v. Greets (R.seen site.now) v.items) (λ e. e ≡ meeting_error.OutOfMemory) }
{
    let mut written = Outgoing::new(alloc);
    match greet(alloc, site, &mut written) {
        Ok(()) => Ok(written.bytes),
        Err(_) => Err(MeetingError::OutOfMemory),
    }
}

// Hears a greeting that is there whole.
fn hear_in<R: Replica>(
    alloc: Global,
    site: &R,
    bytes: &mut Incoming,
) -> Result<Greeting, MeetingError>
    ensures heard { HearsIn (R.seen site.now) bytes.old.rest.now result bytes.new.rest.now }
    ensures untaken { result ≡ Err (meeting_error.Take take_error.JournalWrite) → ⊥ }
{
    hear(alloc, site, bytes)
}

// Takes a stream that is there whole.
fn receive_in<R: Replica>(
    alloc: Global,
    site: &mut R,
    bytes: &mut Incoming,
    meter: &mut Meter,
) -> Result<Taken, MeetingError>
    requires { (R.seen site.old).live ≡ true }
    ensures received { ReceivesIn (R.seen site.old) bytes.old.rest.now result (R.seen site.new) }
    ensures live { OnOk result ((R.seen site.new).live ≡ true) }
    ensures journal { result ≡ Err (meeting_error.Take take_error.JournalWrite) → R.failed site.old site.new }
    ensures journaled { R.journaled site.old → R.journaled site.new }
{
    receive(alloc, site, bytes, meter)
}

// Answers a greeting that is there whole.
fn answer_in<R: Replica>(alloc: Global, site: &R, bytes: &[u8]) -> Result<Vec<u8>, MeetingError>
    requires { (R.seen site.now).live ≡ true }
    ensures answered { MatchResult result (λ v. AnswersIn (R.seen site.now) bytes.now (Ok v.items)) (λ e. AnswersIn (R.seen site.now) bytes.now (Err e)) }
    ensures untaken { result ≡ Err (meeting_error.Take take_error.JournalWrite) → ⊥ }
{
    let greeting = match hear_in(alloc, site, &mut Incoming::new(bytes)) {
        Ok(greeting) => greeting,
        Err(error) => return Err(error),
    };
    let mut written = Outgoing::new(alloc);
    match reply(alloc, site, &greeting.vector, &mut written) {
        Ok(()) => Ok(written.bytes),
        Err(_) => Err(MeetingError::OutOfMemory),
    }
}

// Takes an answer that is there whole, and writes what the other site lacks.
fn settle_in<R: Replica>(
    alloc: Global,
    site: &mut R,
    bytes: &[u8],
    meter: &mut Meter,
) -> Result<(Taken, Vec<u8>), MeetingRefusal>
    requires { (R.seen site.old).live ≡ true }
    ensures settled { MatchResult result (λ x. SettlesIn (R.seen site.old) bytes.now (Ok (x.0, x.1.items)) (R.seen site.new))
        (λ e. SettlesIn (R.seen site.old) bytes.now (Err e) (R.seen site.new)) }
    ensures journal { (r : MeetingRefusal) → result ≡ Err r → r.error ≡ meeting_error.Take take_error.JournalWrite → R.failed site.old site.new }
    ensures journaled { R.journaled site.old → R.journaled site.new }
{
    let mut incoming = Incoming::new(bytes);
    let greeting = match hear_in(alloc, site, &mut incoming) {
        Ok(greeting) => greeting,
        Err(error) => return Err(refusal(error)),
    };
    let taken = match receive_in(alloc, site, &mut incoming, meter) {
        Ok(taken) => taken,
        Err(error) => return Err(refusal(error)),
    };
    let mut written = Outgoing::new(alloc);
    match send(site, &greeting.vector, &mut written) {
        Ok(()) => Ok((taken, written.bytes)),
        Err(Failed) => Err(MeetingRefusal {
            error: MeetingError::OutOfMemory,
            first_took: taken.fresh,
        }),
    }
}

// The last two steps: the first site takes what the second answered, and the second what the first then sends it.
fn exchange<A: Replica, B: Replica>(
    alloc: Global,
    first: &mut A,
    second: &mut B,
    answer: &[u8],
    meter: &mut Meter,
) -> Result<Met, MeetingRefusal>
    requires live { AreOpen (A.seen first.old) (B.seen second.old) }
    requires two { AreTwo (A.seen first.old) (B.seen second.old) }
    requires sound { IsSound (A.seen first.old) × IsSound (B.seen second.old) }
    requires answer { IsAnswer (A.seen first.old) (B.seen second.old) answer.now }
    ensures meets { Meets (A.seen first.old) (B.seen second.old) result (A.seen first.new) (B.seen second.new) }
    ensures journal { (r : MeetingRefusal) → result ≡ Err r → r.error ≡ meeting_error.Take take_error.JournalWrite
        → A.failed first.old first.new ⊎ B.failed second.old second.new }
    ensures first { A.journaled first.old → A.journaled first.new }
    ensures second { B.journaled second.old → B.journaled second.new }
{
    let (gains, entries) = match settle_in(alloc, first, answer, meter) {
        Ok(settled) => settled,
        Err(refusal) => return Err(refusal),
    };
    match receive_in(alloc, second, &mut Incoming::new(&entries), meter) {
        Ok(gives) => Ok(Met {
            fresh_a: gains.fresh,
            fresh_b: gives.fresh,
        }),
        Err(error) => Err(MeetingRefusal {
            error,
            first_took: gains.fresh,
        }),
    }
}

/// A meeting of two sites in memory, by the four steps. It takes room for the bytes of each; between two sites of one
/// script with two numbers no frame is refused.
pub fn meet<A: Replica, B: Replica>(
    alloc: Global,
    first: &mut A,
    second: &mut B,
    meter: &mut Meter,
) -> Result<Met, MeetingRefusal>
    ensures meets { Meets (A.seen first.old) (B.seen second.old) result (A.seen first.new) (B.seen second.new) }
    ensures journal { (r : MeetingRefusal) → result ≡ Err r → r.error ≡ meeting_error.Take take_error.JournalWrite
        → A.failed first.old first.new ⊎ B.failed second.old second.new }
    ensures first { A.journaled first.old → A.journaled first.new }
    ensures second { B.journaled second.old → B.journaled second.new }
{
    match judge(first, second) {
        Ok(()) => {}
        Err(error) => return Err(refusal(error)),
    }
    let greeting = match greeting_of(alloc, first) {
        Ok(greeting) => greeting,
        Err(error) => return Err(refusal(error)),
    };
    let answer = match answer_in(alloc, second, &greeting) {
        Ok(answer) => answer,
        Err(error) => return Err(refusal(error)),
    };
    exchange(alloc, first, second, &answer, meter)
}
