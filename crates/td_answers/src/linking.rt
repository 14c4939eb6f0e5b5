//! Meetings with sites of other programs.

ghost use Rattle.std.specs.Prelude.{◌≡◌, ◌≤◌, Err, MatchResult, codes, length};
ghost use Rattle.td_answers.specs.Faults as spec;
ghost use Rattle.td_answers.specs.Linked.{CallsOver, ServesOver, linked_answer};
ghost use Rattle.td_answers.specs.ForProofs.Opened.{IsAddress, IsOverNew, IsUnready, TellsAndAsks};
ghost use Rattle.td_answers.specs.ForProofs.Said.{IsBlank, Says};
ghost use Rattle.td_meeting.specs.Steps.{link_of};
ghost use Rattle.td_meeting.specs.declared.error.MeetingError.TheVariants as meeting_error;
ghost use Rattle.td_replica.specs.declared.refusal.TakeError.TheVariants as take_error;

use crate::links::{LinkError, Links};
use crate::meeting::meeting_fault;
use crate::reply::Reply;
use crate::writing::{blank_line, linked_line};
use std::alloc::Global;
use std::net::SocketAddr;
use td_io::{Channel, Device, Link};
use td_meeting::{MeetingError, answer, finish, greet, settle};
use td_replica::{Replica, Taken};
use td_semantics::Meter;

// The line that tells why no link was opened.
fn link_fault(error: LinkError) -> &'static str
    ensures { result.now ≡ spec.link_fault error }
{
    match error {
        LinkError::NetFault => "fault net\n",
        LinkError::OutOfMemory => "fault memory\n",
    }
}

// The address and room for the line, or the fault that keeps the network from being asked.
fn prepare_link(alloc: Global, address: &str) -> Result<(SocketAddr, String), &'static str>
    ensures { MatchResult result (λ r. IsAddress address.now r.0 × IsBlank r.1) (λ fault. IsUnready address.now fault.now) }
{
    let Ok(address) = address.parse::<SocketAddr>() else {
        return Err("fault address\n");
    };
    match blank_line(alloc) {
        Some(line) => Ok((address, line)),
        None => Err("fault memory\n"),
    }
}

// The second and the fourth step of a meeting.
fn serve_over<R: Replica, C: Channel>(
    alloc: Global,
    site: &mut R,
    link: &mut C,
    meter: &mut Meter,
) -> Result<Taken, MeetingError>
    ensures served { ServesOver (R.seen site.old) (link_of C.Source C.Sink link.old) result (link_of C.Source C.Sink link.new) (R.seen site.new) }
    ensures journal { result ≡ Err (meeting_error.Take take_error.JournalWrite) → R.failed site.old site.new }
    ensures journaled { R.journaled site.old → R.journaled site.new }
{
    match answer(alloc, site, link) {
        Ok(()) => finish(alloc, site, link, meter),
        Err(error) => Err(error),
    }
}

// The first and the third step.
fn call_over<R: Replica, C: Channel>(
    alloc: Global,
    site: &mut R,
    link: &mut C,
    meter: &mut Meter,
) -> Result<Taken, MeetingError>
    ensures called { CallsOver (R.seen site.old) (link_of C.Source C.Sink link.old) result (link_of C.Source C.Sink link.new) (R.seen site.new) }
    ensures journal { result ≡ Err (meeting_error.Take take_error.JournalWrite) → R.failed site.old site.new }
    ensures journaled { R.journaled site.old → R.journaled site.new }
{
    match greet(alloc, site, link) {
        Ok(()) => settle(alloc, site, link, meter),
        Err(error) => Err(error),
    }
}

// Serves over a link that was just opened, which is closed behind it.
fn serve_link<R: Replica, L: Link + Drop>(
    alloc: Global,
    site: &mut R,
    link: L,
    meter: &mut Meter,
) -> Result<Taken, MeetingError>
    ensures served { IsOverNew ServesOver (R.seen site.old) result (R.seen site.new) }
    ensures journal { result ≡ Err (meeting_error.Take take_error.JournalWrite) → R.failed site.old site.new }
    ensures journaled { R.journaled site.old → R.journaled site.new }
{
    let mut link = Device::link(link);
    serve_over(alloc, site, &mut link, meter)
}

// Calls over a link that was just opened, which is closed behind it.
fn call_link<R: Replica, L: Link + Drop>(
    alloc: Global,
    site: &mut R,
    link: L,
    meter: &mut Meter,
) -> Result<Taken, MeetingError>
    ensures called { IsOverNew CallsOver (R.seen site.old) result (R.seen site.new) }
    ensures journal { result ≡ Err (meeting_error.Take take_error.JournalWrite) → R.failed site.old site.new }
    ensures journaled { R.journaled site.old → R.journaled site.new }
{
    let mut link = Device::link(link);
    call_over(alloc, site, &mut link, meter)
}

// What two steps ended in. The room for its line was taken before the first.
fn reply_of_meeting(
    line: String,
    done: &str,
    number: u32,
    met: Result<Taken, MeetingError>,
) -> Reply
    requires blank { IsBlank line }
    requires short { length done.now ≤ 6 }
    ensures { Says (λ words. words ≡ linked_answer done.now number met) result }
{
    match met {
        Ok(taken) => Reply::Text(linked_line(line, done, number, taken.fresh)),
        Err(error) => meeting_fault(line, error),
    }
}

/// Takes one connection at the address, and meets the site that calls there.
pub(crate) fn serve<R: Replica, L: Links>(
    alloc: Global,
    site: &mut R,
    links: &mut L,
    number: u32,
    address: &str,
    meter: &mut Meter,
) -> Reply
    ensures answered { Says (λ words. TellsAndAsks ServesOver L.serves (codes "served") number address.now (R.seen site.old) words (R.seen site.new) links.old links.new) result }
    ensures journal { Says (λ text. text ≡ codes "fault journal\n" → R.failed site.old site.new) result }
    ensures journaled { R.journaled site.old → R.journaled site.new }
{
    let (address, line) = match prepare_link(alloc, address) {
        Ok(ready) => ready,
        Err(fault) => return Reply::Fixed(fault),
    };
    match links.serve(alloc, address) {
        Ok(link) => reply_of_meeting(line, "served", number, serve_link(alloc, site, link, meter)),
        Err(error) => Reply::Fixed(link_fault(error)),
    }
}

/// Meets the site that serves at the address.
pub(crate) fn call<R: Replica, L: Links>(
    alloc: Global,
    site: &mut R,
    links: &mut L,
    number: u32,
    address: &str,
    meter: &mut Meter,
) -> Reply
    ensures answered { Says (λ words. TellsAndAsks CallsOver L.calls (codes "called") number address.now (R.seen site.old) words (R.seen site.new) links.old links.new) result }
    ensures journal { Says (λ text. text ≡ codes "fault journal\n" → R.failed site.old site.new) result }
    ensures journaled { R.journaled site.old → R.journaled site.new }
{
    let (address, line) = match prepare_link(alloc, address) {
        Ok(ready) => ready,
        Err(fault) => return Reply::Fixed(fault),
    };
    match links.call(alloc, address) {
        Ok(link) => reply_of_meeting(line, "called", number, call_link(alloc, site, link, meter)),
        Err(error) => Reply::Fixed(link_fault(error)),
    }
}
