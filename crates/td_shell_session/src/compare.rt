//! The first statement of a site that differs at another site.

use crate::answer::Answer;
use crate::fault::{Fault, PlainFault};
use crate::host::{Platform, Run};
use crate::session::Session;
use std::alloc::{AllocError, Global};
use std::net::SocketAddr;
use td_answers::Links;
use td_io::Device;
use td_linked_meetings::{MeetFault, SiteAnswer, ask_site};
use td_listings::show_stamp;
use td_replica::Replica;
use td_site_messages::SiteFault;
use td_stamps::{Entry, Held};
use td_terminals::push_statement;

/// More questions than halve the greatest number to 1.
const MOST_QUESTIONS: usize = 40;

/// Where the first statement is that differs: beyond one number, and not beyond the other.
#[derive(Clone, Copy)]
struct Span {
    equal: u32,
    differing: u32,
}

impl Span {
    // Whether it is known which statement it is.
    fn is_narrow(self) -> bool {
        self.differing.saturating_sub(self.equal) <= 1
    }

    // The number in the middle.
    fn middle(self) -> u32 {
        let half = self.differing.saturating_sub(self.equal) / 2;
        self.equal.saturating_add(half)
    }

    // What is known once the statements up to a number are known to be equal or not.
    fn halved(self, number: u32, is_equal: bool) -> Span {
        if is_equal {
            Span {
                equal: number,
                ..self
            }
        } else {
            Span {
                differing: number,
                ..self
            }
        }
    }
}

// Asks the site at the address for one site up to a number, over a link of its own.
fn ask<R: Replica, L: Links>(
    alloc: Global,
    site: &R,
    links: &mut L,
    address: SocketAddr,
    of: u16,
    number: u32,
) -> Result<SiteAnswer, Fault<'static>> {
    if of == 0 {
        return Err(Fault::Plain(PlainFault::NoSite));
    }
    let mut link = match links.call(alloc, address) {
        Ok(link) => Device::link(link),
        Err(error) => return Err(Fault::from(error)),
    };
    match ask_site(alloc, site, &mut link, of, number) {
        Ok(answer) => Ok(answer),
        Err(MeetFault::NotCompared | MeetFault::OnlyCompared) => {
            Err(Fault::Plain(PlainFault::NotCompared))
        }
        Err(MeetFault::Failed(error)) => Err(Fault::Site(SiteFault::NotMet(error))),
    }
}

// Halves a span until it is known which statement differs, or the other site does not answer.
fn narrow<R: Replica, L: Links>(
    alloc: Global,
    site: &R,
    links: &mut L,
    address: SocketAddr,
    of: u16,
    span: Span,
) -> Span {
    let mut span = span;
    for _ in 0..MOST_QUESTIONS {
        if span.is_narrow() {
            break;
        }
        let number = span.middle();
        match ask(alloc, site, links, address, of, number) {
            Ok(answer) => span = span.halved(number, answer.is_equal),
            Err(_) => break,
        }
    }
    span
}

// The number up to which all statements of a site are held.
fn number_of(alloc: Global, held: &Held, of: u16) -> Result<u32, AllocError> {
    Ok(held.vector(alloc)?.number(of))
}

// Says what the statement of a number is here.
fn say_statement(
    out: &mut String,
    entries: &[Entry],
    of: u16,
    number: u32,
) -> Result<(), AllocError> {
    for entry in entries {
        if entry.site == of && entry.seq == number {
            out.push_str("here it is ")?;
            show_stamp(out, &entry.stamp())?;
            out.push_str(": ")?;
            push_statement(out, entry.text.as_str())?;
            out.push_str("\n")?;
        }
    }
    Ok(())
}

// Says which statement is the first that differs, or between which numbers it is.
fn say_span(answer: &mut Answer, held: &Held, of: u16, span: Span) -> Result<(), AllocError> {
    let Span { equal, differing } = span;
    if span.is_narrow() {
        writeln!(
            answer.text,
            "statement {differing} of site {of} is the first that differs"
        )?;
        return say_statement(&mut answer.text, held.entries(), of, differing);
    }
    answer.is_fault = true;
    let first = equal.saturating_add(1);
    writeln!(
        answer.text,
        "one of the statements {first} to {differing} of site {of} is the first that differs; the other site answered no more questions (.serve answers one, td_server all)"
    )
}

// Says that the statements of a site that both have are equal.
fn say_equal(
    out: &mut String,
    of: u16,
    number: u32,
    here: u32,
    there: u32,
) -> Result<(), AllocError> {
    writeln!(
        out,
        "the first {number} statements of site {of} are equal; {here} are here, {there} there"
    )
}

// Asks once, and then finds the first statement that differs, if one does.
fn compare_held<R: Replica, L: Links>(
    answer: &mut Answer,
    site: &R,
    held: &Held,
    links: &mut L,
    address: SocketAddr,
    of: u16,
) -> Result<(), Fault<'static>> {
    let alloc = *answer.text.allocator();
    let here = number_of(alloc, held, of)?;
    let first = ask(alloc, site, links, address, of, here)?;
    let differing = here.min(first.number);
    if first.is_equal {
        return Ok(say_equal(&mut answer.text, of, differing, here, first.number)?);
    }
    let span = Span {
        equal: 0,
        differing,
    };
    let span = narrow(alloc, site, links, address, of, span);
    Ok(say_span(answer, held, of, span)?)
}

/// Says which statement of a site is the first that differs here and at the site that serves at the address. It changes
/// neither.
pub(crate) fn compare<R: Replica + Drop, P: Platform>(
    run: &mut Run<'_, P>,
    session: &Session<R>,
    answer: &mut Answer,
    word: &str,
    of: u16,
) -> Result<(), Fault<'static>> {
    let Ok(address) = word.parse::<SocketAddr>() else {
        return Err(Fault::Plain(PlainFault::NoAddress));
    };
    match session.site.held() {
        Ok(held) => compare_held(answer, &session.site, held, run.network, address, of),
        Err(_) => Err(Fault::Site(SiteFault::Broken)),
    }
}
