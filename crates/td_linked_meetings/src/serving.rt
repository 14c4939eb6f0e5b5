//! The site that was called.

use crate::inbox::{Awaited, Inbox};
use crate::outcome::{MeetFault, MeetingResult};
use std::alloc::Global;
use td_checked_meetings::{
    MeetingScope, add_differences, answer, answer_question, finish, greet, whole_scope,
};
use td_comparison::is_other_version;
use td_digested_sites::Digested;
use td_frames::FrameError;
use td_io::{Channel, Device, put};
use td_meeting::MeetingError;
use td_replica::Replica;
use td_semantics::Meter;

// Answers a question of another version by the letters and the version that are known here.
fn refuse_version<C: Channel>(link: &mut C) -> MeetingError {
    let _told = put(link, b"JTDC\x01");
    MeetingError::Frame {
        error: FrameError::Version,
        taken: 0,
    }
}

// Reads which sites differ by the site that asked.
fn read_differences<C: Channel>(
    alloc: Global,
    link: &mut C,
    inbox: &mut Inbox,
    scope: &mut MeetingScope,
) -> Result<(), MeetFault> {
    let end = match inbox.read_message(link, Awaited::Differences) {
        Ok(0) if !inbox.has_failed() => return Err(MeetFault::OnlyCompared),
        Ok(end) => end,
        Err(error) => return Err(MeetFault::Failed(error)),
    };
    match add_differences(alloc, scope, inbox.front(end)) {
        Ok(()) => {
            inbox.drop_front(end);
            Ok(())
        }
        Err(error) => Err(MeetFault::Failed(inbox.cause(error))),
    }
}

// Answers the question that came, and reads which sites differ.
fn answer_over<R: Digested, C: Channel>(
    alloc: Global,
    site: &mut R,
    link: &mut C,
    inbox: &mut Inbox,
    end: usize,
) -> Result<MeetingScope, MeetFault> {
    if is_other_version(inbox.bytes()) {
        return Err(MeetFault::Failed(refuse_version(link)));
    }
    let mut scope = match answer_question(alloc, site, inbox.front(end), link) {
        Ok(scope) => scope,
        Err(error) => return Err(MeetFault::Failed(inbox.cause(error))),
    };
    inbox.drop_front(end);
    match read_differences(alloc, link, inbox, &mut scope) {
        Ok(()) => Ok(scope),
        Err(error) => Err(error),
    }
}

// Finds what is exchanged.
fn scope_over<R: Digested, C: Channel>(
    alloc: Global,
    site: &mut R,
    link: &mut C,
    inbox: &mut Inbox,
) -> Result<MeetingScope, MeetFault> {
    let end = match inbox.read_message(link, Awaited::Opening) {
        Ok(end) => end,
        Err(error) => return Err(MeetFault::Failed(error)),
    };
    if inbox.bytes().first() == Some(&b'J') {
        return answer_over(alloc, site, link, inbox, end);
    }
    match whole_scope(alloc, site) {
        Ok(scope) => Ok(scope),
        Err(error) => Err(MeetFault::Failed(error)),
    }
}

// Reads a greeting, and answers it. A site that is refused is greeted all the same, by which it sees why. Returns up to
// which number it has all statements of this one.
fn answer_greeting<R: Replica, C: Channel>(
    alloc: Global,
    site: &R,
    scope: &MeetingScope,
    link: &mut C,
    greeting: &[u8],
) -> Result<u32, MeetingError> {
    match answer(alloc, site, scope, &mut Device::new(greeting), link) {
        Ok(vector) => Ok(vector.number(site.site())),
        Err(error @ (MeetingError::OtherScript | MeetingError::SameSite)) => {
            let _greeted = greet(alloc, site, scope, link);
            let _flushed = link.flush();
            Err(error)
        }
        Err(error) => Err(error),
    }
}

// Exchanges greetings, and reads the entries of the other site. Returns up to which number that has all statements of
// this one.
fn exchange_greetings<R: Replica, C: Channel>(
    alloc: Global,
    site: &R,
    scope: &MeetingScope,
    link: &mut C,
    inbox: &mut Inbox,
) -> Result<u32, MeetingError> {
    let end = match inbox.read_message(link, Awaited::Greeting) {
        Ok(end) => end,
        Err(error) => return Err(error),
    };
    let own_there = match answer_greeting(alloc, site, scope, link, inbox.front(end)) {
        Ok(number) => number,
        Err(error) => return Err(inbox.cause(error)),
    };
    inbox.drop_front(end);
    match inbox.read_entries(link, 0) {
        Ok(()) => Ok(own_there),
        Err(error) => Err(error),
    }
}

/// Meets the site that opened this link, which compares digests first or does not.
pub fn serve<R: Digested, C: Channel>(
    alloc: Global,
    site: &mut R,
    link: &mut C,
    meter: &mut Meter,
) -> Result<MeetingResult, MeetFault> {
    let mut inbox = match Inbox::new(alloc) {
        Ok(inbox) => inbox,
        Err(error) => return Err(MeetFault::Failed(error)),
    };
    let scope = scope_over(alloc, site, link, &mut inbox)?;
    let own_there = match exchange_greetings(alloc, site, &scope, link, &mut inbox) {
        Ok(number) => number,
        Err(error) => return Err(MeetFault::Failed(error)),
    };
    let mut entries = Device::new(inbox.bytes());
    let received = match finish(alloc, site, &scope, &mut entries, meter) {
        Ok(received) => Ok(received),
        Err(error) => Err(inbox.cause(error)),
    };
    Ok(MeetingResult {
        received,
        scope,
        own_there,
    })
}
