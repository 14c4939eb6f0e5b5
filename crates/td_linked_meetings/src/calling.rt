//! The site that opened the link.

use crate::inbox::{Awaited, Inbox};
use crate::outcome::{MeetFault, MeetingResult};
use std::alloc::Global;
use td_checked_meetings::{MeetingScope, ask, compare, greet, settle, whole_scope};
use td_comparison::{FirstMessage, is_other_version};
use td_digested_sites::Digested;
use td_frames::{FrameError, read_greeting};
use td_io::{Channel, Device, Failed};
use td_meeting::MeetingError;
use td_replica::Replica;
use td_semantics::Meter;

// Reads the other site's answer.
fn read_answer<C: Channel>(inbox: &mut Inbox, link: &mut C) -> Result<usize, MeetFault> {
    match inbox.read_message(link, Awaited::Comparison) {
        Ok(0) => Err(MeetFault::NotCompared),
        Ok(_) if is_other_version(inbox.bytes()) => Err(MeetFault::Failed(MeetingError::Frame {
            error: FrameError::Version,
            taken: 0,
        })),
        Ok(end) => Ok(end),
        Err(error) => Err(MeetFault::Failed(error)),
    }
}

// Asks the other site, and writes which sites differ.
fn compare_over<R: Digested, C: Channel>(
    alloc: Global,
    site: &mut R,
    link: &mut C,
    inbox: &mut Inbox,
) -> Result<MeetingScope, MeetFault> {
    let vector = match ask(alloc, site, link) {
        Ok(vector) => vector,
        Err(MeetingError::WriteFault { .. }) => return Err(MeetFault::NotCompared),
        Err(error) => return Err(MeetFault::Failed(error)),
    };
    let end = read_answer(inbox, link)?;
    match compare(alloc, site, vector, inbox.front(end), link) {
        Ok(scope) => {
            inbox.drop_front(end);
            Ok(scope)
        }
        Err(error) => Err(MeetFault::Failed(inbox.cause(error))),
    }
}

// Finds what is exchanged.
fn scope_over<R: Digested, C: Channel>(
    alloc: Global,
    site: &mut R,
    link: &mut C,
    inbox: &mut Inbox,
    first: FirstMessage,
) -> Result<MeetingScope, MeetFault> {
    match first {
        FirstMessage::Question => compare_over(alloc, site, link, inbox),
        FirstMessage::Greeting => match whole_scope(alloc, site) {
            Ok(scope) => Ok(scope),
            Err(error) => Err(MeetFault::Failed(error)),
        },
    }
}

// Up to which number a greeting says that all statements of a site are there: none if it is no greeting.
fn number_in(alloc: Global, greeting: &[u8], site: u16) -> u32 {
    match read_greeting(alloc, &mut Device::new(greeting)) {
        Ok(greeting) => greeting.vector.number(site),
        Err(_) => 0,
    }
}

// Greets the other site, and reads its greeting and entries. Returns up to which number it has all statements of this
// one.
fn exchange_greetings<R: Replica, C: Channel>(
    alloc: Global,
    site: &R,
    scope: &MeetingScope,
    link: &mut C,
    inbox: &mut Inbox,
) -> Result<u32, MeetingError> {
    match greet(alloc, site, scope, link) {
        Ok(()) => {}
        Err(error) => return Err(error),
    }
    match link.flush() {
        Ok(()) => {}
        Err(Failed) => return Err(MeetingError::WriteFault { taken: 0 }),
    }
    let end = match inbox.read_message(link, Awaited::Greeting) {
        Ok(end) => end,
        Err(error) => return Err(error),
    };
    let own_there = number_in(alloc, inbox.front(end), site.site());
    match inbox.read_entries(link, end) {
        Ok(()) => Ok(own_there),
        Err(error) => Err(error),
    }
}

/// Meets the site at the other end of a link that this site opened.
pub fn call<R: Digested, C: Channel>(
    alloc: Global,
    site: &mut R,
    link: &mut C,
    first: FirstMessage,
    meter: &mut Meter,
) -> Result<MeetingResult, MeetFault> {
    let mut inbox = match Inbox::new(alloc) {
        Ok(inbox) => inbox,
        Err(error) => return Err(MeetFault::Failed(error)),
    };
    let scope = scope_over(alloc, site, link, &mut inbox, first)?;
    let own_there = match exchange_greetings(alloc, site, &scope, link, &mut inbox) {
        Ok(number) => number,
        Err(error) => return Err(MeetFault::Failed(error)),
    };
    let mut reply = Device::new(inbox.bytes());
    let received = match settle(alloc, site, &scope, &mut reply, link, meter) {
        Ok(received) => Ok(received),
        Err(error) => Err(inbox.cause(error)),
    };
    Ok(MeetingResult {
        received,
        scope,
        own_there,
    })
}
