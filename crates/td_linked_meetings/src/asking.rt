//! A question for one site, which no meeting follows.

ghost use Rattle.std.specs.Prelude.{◌≤◌, ◌<◌, length, IfOk};

use crate::inbox::{Awaited, Inbox};
use crate::outcome::{MeetFault, SiteAnswer};
use std::alloc::{AllocError, Global};
use td_comparison::{
    Comparison, SiteDigest, digests_of, is_other_version, put_comparison, read_comparison,
    script_digest,
};
use td_frames::FrameError;
use td_io::{Channel, Failed};
use td_meeting::MeetingError;
use td_replica::Replica;
use td_stamps::Held;

// That the other end sent what no site sends.
const BAD_FRAME: MeetFault = MeetFault::Failed(MeetingError::Frame {
    error: FrameError::BadFrame,
    taken: 0,
});

// That the other end is of another version.
const OTHER_VERSION: MeetFault = MeetFault::Failed(MeetingError::Frame {
    error: FrameError::Version,
    taken: 0,
});

// That memory ran out.
const OUT_OF_MEMORY: MeetFault = MeetFault::Failed(MeetingError::OutOfMemory);

// The digest of what is held of a site up to a number.
fn own_digest(
    alloc: Global,
    held: &Held,
    of: u16,
    number: u32,
) -> Result<Vec<SiteDigest>, AllocError>
    requires { 0 < of }
    ensures { IfOk result (λ v. length v.items ≤ 1) }
{
    digests_of(alloc, held, &[(of, number)])
}

// Writes the question, and flushes it.
fn put_question<R: Replica, C: Channel>(
    site: &R,
    digests: &[SiteDigest],
    link: &mut C,
) -> Result<(), Failed>
    requires { length digests.now ≤ 1 }
{
    put_comparison(link, site.site(), &script_digest(site.script()), digests)?;
    link.flush()
}

// Reads the other site's answer.
fn read_answer<C: Channel>(alloc: Global, link: &mut C) -> Result<Comparison, MeetFault> {
    let mut inbox = match Inbox::new(alloc) {
        Ok(inbox) => inbox,
        Err(error) => return Err(MeetFault::Failed(error)),
    };
    let end = match inbox.read_message(link, Awaited::Comparison) {
        Ok(0) => return Err(MeetFault::NotCompared),
        Ok(end) => end,
        Err(error) => return Err(MeetFault::Failed(error)),
    };
    if is_other_version(inbox.bytes()) {
        return Err(OTHER_VERSION);
    }
    match read_comparison(alloc, inbox.front(end)) {
        Ok(answer) => Ok(answer),
        Err(_) => Err(BAD_FRAME),
    }
}

// The digest of an answer to a question for this site, from another site of the same script.
fn digest_in<R: Replica>(site: &R, of: u16, answer: &Comparison) -> Result<SiteDigest, MeetFault> {
    if answer.site == site.site() {
        return Err(MeetFault::Failed(MeetingError::SameSite));
    }
    if answer.script != script_digest(site.script()) {
        return Err(MeetFault::Failed(MeetingError::OtherScript));
    }
    match answer.digests.first() {
        Some(digest) if digest.site == of => Ok(*digest),
        _ => Err(BAD_FRAME),
    }
}

// Whether what is held of a site up to the lesser of both numbers has the digest that the other site sent.
fn judge(
    alloc: Global,
    held: &Held,
    of: u16,
    number: u32,
    there: &SiteDigest,
) -> Result<SiteAnswer, AllocError>
    requires { 0 < of }
{
    let own = own_digest(alloc, held, of, number.min(there.number))?;
    let is_equal = match own.first() {
        Some(own) => own.digest == there.digest,
        None => false,
    };
    Ok(SiteAnswer {
        number: there.number,
        is_equal,
    })
}

// Asks for a site up to a number.
fn ask_held<R: Replica, C: Channel>(
    alloc: Global,
    site: &R,
    held: &Held,
    link: &mut C,
    of: u16,
    number: u32,
) -> Result<SiteAnswer, MeetFault>
    requires { 0 < of }
{
    let Ok(digests) = own_digest(alloc, held, of, number) else {
        return Err(OUT_OF_MEMORY);
    };
    if put_question(site, &digests, link).is_err() {
        return Err(MeetFault::NotCompared);
    }
    let answer = read_answer(alloc, link)?;
    let there = digest_in(site, of, &answer)?;
    match judge(alloc, held, of, number, &there) {
        Ok(answer) => Ok(answer),
        Err(_) => Err(OUT_OF_MEMORY),
    }
}

/// Asks the site at the other end of a link that this site opened whether it has the same statements of one site up to a
/// number. It changes neither site. The site's number is not 0.
pub fn ask_site<R: Replica, C: Channel>(
    alloc: Global,
    site: &R,
    link: &mut C,
    of: u16,
    number: u32,
) -> Result<SiteAnswer, MeetFault>
    requires { 0 < of }
{
    match site.held() {
        Ok(held) => ask_held(alloc, site, held, link, of, number),
        Err(_) => Err(MeetFault::Failed(MeetingError::Broken)),
    }
}
