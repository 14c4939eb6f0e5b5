//! Meetings with sites of other programs.

use crate::answer::Answer;
use crate::fault::{Fault, PlainFault};
use crate::host::{Platform, Run};
use crate::session::Session;
use std::alloc::{AllocError, Global};
use std::net::{IpAddr, SocketAddr};
use std::rt::Files;
use td_alarms::Alarms;
use td_answers::{LinkError, Links};
use td_changes::Changes;
use td_checked_meetings::Received;
use td_comparison::FirstMessage;
use td_digested_sites::Digested;
use td_io::{Device, Sink, put};
use td_journal_files::Notes;
use td_linked_meetings::{MeetFault, MeetingResult, call, serve};
use td_meeting::MeetingError;
use td_replica::{Catalogued, Replica};
use td_semantics::Meter;
use td_site_messages::{
    MeetingChanges, SiteFault, Snapshot, push_differing, push_met, push_not_taken, push_room,
};

/// What follows the number of other sites' statements that have another outcome: the command that lists them.
const HINT: &str = " (.refused)";

/// What is said where alarms are raised and not kept.
const UNKEPT_ALARMS: &str =
    "WARNING: the file of alarms cannot be written, so this is forgotten when the program ends; make room, or mend the rights of its folder\n";

/// What is said where the other site only asked.
const ONLY_COMPARED: &str =
    "the other site compared digests, and ended the connection without a meeting\n";

/// How a site comes to meet another one.
#[derive(Clone, Copy, PartialEq, Eq)]
pub(crate) enum Way {
    /// It waits for one.
    Serve,
    /// It calls one that waits, and begins so.
    Call(FirstMessage),
}

/// Why a meeting did not begin.
#[derive(Clone, Copy)]
enum Unmet {
    NotLinked(LinkError),
    /// The sites did not greet one another, and nothing was taken.
    NotBegun(MeetFault),
}

// Reports on the output of faults that a site waits. Nothing depends on whether that is seen.
fn report_waiting<F: Sink>(alloc: Global, address: &str, faults: &mut F) -> Result<(), AllocError> {
    let line = format!(in alloc; "waiting at {address} for another site\n")?;
    let _written = put(faults, line.as_bytes());
    Ok(())
}

// Opens a link at the address, as the way is, and meets the site at its other end.
fn meet_over<R: Digested, L: Links>(
    alloc: Global,
    site: &mut R,
    links: &mut L,
    way: Way,
    address: SocketAddr,
    meter: &mut Meter,
) -> Result<MeetingResult, Unmet> {
    let linked = match way {
        Way::Serve => links.serve(alloc, address),
        Way::Call(_) => links.call(alloc, address),
    };
    let mut link = match linked {
        Ok(link) => Device::link(link),
        Err(error) => return Err(Unmet::NotLinked(error)),
    };
    let met = match way {
        Way::Serve => serve(alloc, site, &mut link, meter),
        Way::Call(opening) => call(alloc, site, &mut link, opening, meter),
    };
    match met {
        Ok(outcome) => Ok(outcome),
        Err(error) => Err(Unmet::NotBegun(error)),
    }
}

// Says how many statements a meeting brought, or why it broke off, with what the site says otherwise since.
fn say_changes<R: Catalogued>(
    answer: &mut Answer,
    site: &R,
    received: Result<Received, MeetingError>,
    changes: &MeetingChanges,
    notes: &Notes,
) -> Result<(), AllocError> {
    let changed = changes.line_end.as_str();
    match received {
        Ok(received) => {
            push_met(&mut answer.text, received.taken.fresh)?;
            answer.text.push_str(changed)?;
            answer.text.push_str("\n")?;
        }
        Err(error) => {
            let fault = Fault::BrokenOff {
                error,
                changes: changed,
            };
            answer.push_fault(site.catalogue(), notes, fault)?;
        }
    }
    answer.text.push_str(changes.lines.as_str())
}

// Says what a meeting did not exchange. Sites that differ are a fault.
fn say_left_out(answer: &mut Answer, outcome: &MeetingResult) -> Result<(), AllocError> {
    push_differing(&mut answer.text, &outcome.scope)?;
    answer.is_fault = answer.is_fault || !outcome.scope.left_out.is_empty();
    match &outcome.received {
        Ok(received) => push_not_taken(&mut answer.text, received),
        Err(_) => Ok(()),
    }
}

// Says what came of a meeting that began; changes are left out if there is no memory for them.
fn say_met<R: Changes + Catalogued>(
    answer: &mut Answer,
    site: &R,
    before: &Snapshot,
    outcome: &MeetingResult,
    notes: &Notes,
) -> Result<(), AllocError> {
    let alloc = *answer.text.allocator();
    let changes = match before.compare(alloc, site, HINT) {
        Ok(changes) => changes,
        Err(_) => MeetingChanges::none(alloc),
    };
    say_changes(answer, site, outcome.received, &changes, notes)?;
    say_left_out(answer, outcome)?;
    push_room(&mut answer.text, site)
}

// Says what came of a meeting.
fn say_meeting<R: Changes + Catalogued>(
    answer: &mut Answer,
    site: &R,
    before: &Snapshot,
    met: Result<MeetingResult, Unmet>,
    notes: &Notes,
) -> Result<(), Fault<'static>> {
    match met {
        Ok(outcome) => Ok(say_met(answer, site, before, &outcome, notes)?),
        Err(Unmet::NotLinked(error)) => Err(Fault::from(error)),
        Err(Unmet::NotBegun(MeetFault::OnlyCompared)) => Ok(answer.text.push_str(ONLY_COMPARED)?),
        Err(Unmet::NotBegun(MeetFault::NotCompared)) => Err(Fault::Plain(PlainFault::NotCompared)),
        Err(Unmet::NotBegun(MeetFault::Failed(error))) => Err(Fault::Site(SiteFault::NotMet(
            error,
        ))),
    }
}

// Whether the site has all statements of its own number up to this one.
fn has_own<R: Replica>(alloc: Global, site: &R, number: u32) -> bool {
    let Ok(held) = site.held() else {
        return false;
    };
    match held.vector(alloc) {
        Ok(vector) => vector.number(site.site()) >= number,
        Err(_) => false,
    }
}

// Whether a meeting came to its end, and brought what the journal of the site lacked of its own statements.
fn is_complete<R: Replica>(alloc: Global, site: &R, met: &Result<MeetingResult, Unmet>) -> bool {
    match met {
        Ok(outcome) => {
            outcome.received.is_ok()
                && !outcome.scope.leaves_out(site.site())
                && has_own(alloc, site, outcome.own_there)
        }
        Err(_) => false,
    }
}

// Raises an alarm for each site that a meeting left out. Returns whether all are kept.
fn keep_alarms<H: Files>(
    host: &H,
    alarms: &mut Alarms,
    met: &Result<MeetingResult, Unmet>,
    address: IpAddr,
) -> bool {
    let Ok(outcome) = met else {
        return true;
    };
    if outcome.scope.left_out.is_empty() {
        return true;
    }
    match alarms.raise(&outcome.scope.left_out, address) {
        Ok(_) => matches!(alarms.save(host), Ok(true)),
        Err(_) => false,
    }
}

// Meets another site, and says what came of that. A meeting may have brought what the journal lacked.
fn meet_at<R: Changes + Catalogued + Drop, P: Platform>(
    run: &mut Run<'_, P>,
    session: &mut Session<R>,
    answer: &mut Answer,
    before: &Snapshot,
    way: Way,
    address: SocketAddr,
) -> Result<(), Fault<'static>> {
    let met = meet_over(
        run.alloc,
        &mut session.site,
        run.network,
        way,
        address,
        run.meter,
    );
    let is_complete = is_complete(run.alloc, &session.site, &met);
    session.note_meeting(is_complete);
    if is_complete {
        run.notes.let_go();
        session.companions.end_rebuild(run.host);
    }
    let is_kept = keep_alarms(run.host, &mut session.companions.alarms, &met, address.ip());
    say_meeting(answer, &session.site, before, met, run.notes)?;
    if !is_kept {
        answer.text.push_str(UNKEPT_ALARMS)?;
    }
    Ok(())
}

/// Meets the site that serves at the address, or waits there for one, which is reported on the output of faults.
pub(crate) fn meet<R: Changes + Catalogued + Drop, P: Platform>(
    run: &mut Run<'_, P>,
    session: &mut Session<R>,
    answer: &mut Answer,
    way: Way,
    word: &str,
) -> Result<(), Fault<'static>> {
    session.check_meets()?;
    let Ok(address) = word.parse::<SocketAddr>() else {
        return Err(Fault::Plain(PlainFault::NoAddress));
    };
    let before = match Snapshot::of(run.alloc, &session.site) {
        Ok(before) => before,
        Err(error) => return Err(Fault::from(error)),
    };
    if way == Way::Serve {
        report_waiting(run.alloc, word, run.faults)?;
    }
    meet_at(run, session, answer, &before, way, address)
}
