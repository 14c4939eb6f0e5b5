//! Statements of a site that are beyond a gap in its own numbers.

use std::alloc::{AllocError, Global};
use td_replica::Replica;
use td_stamps::{Entry, Held};
use td_terminals::push_statement;

/// The most statements that are named.
const MOST_NAMED: usize = 10;

/// Where the numbers of a site's own statements have a gap.
#[derive(Clone, Copy)]
struct Gap {
    /// The first number that is missing.
    first: u32,
    /// The least number beyond it that is there.
    beyond: u32,
}

// Whether an entry is one of the site's own beyond a number.
fn is_beyond(entry: &Entry, site: u16, number: u32) -> bool {
    entry.site == site && entry.seq > number
}

// The least number of the site's entries that is beyond this one, if there is one.
fn least_beyond(entries: &[Entry], site: u16, number: u32) -> Option<u32> {
    let mut least: Option<u32> = None;
    for entry in entries {
        if is_beyond(entry, site, number) {
            least = match least {
                Some(seq) => Some(seq.min(entry.seq)),
                None => Some(entry.seq),
            };
        }
    }
    least
}

// The gap in the numbers of the site's entries, if there is one.
fn gap_in(alloc: Global, held: &Held, site: u16) -> Result<Option<Gap>, AllocError> {
    let number = held.vector(alloc)?.number(site);
    match least_beyond(held.entries(), site, number) {
        Some(beyond) => Ok(Some(Gap {
            first: number.saturating_add(1),
            beyond,
        })),
        None => Ok(None),
    }
}

// Appends which numbers are missing, and what to do.
fn push_missing(out: &mut String, site: u16, gap: Gap) -> Result<(), AllocError> {
    let Gap { first, beyond } = gap;
    let last = beyond.saturating_sub(1);
    if first == last {
        write!(
            out,
            "WARNING: statement {first} of this site is missing, and {beyond} is here"
        )?;
    } else {
        write!(
            out,
            "WARNING: statements {first} to {last} of this site are missing, and {beyond} is here"
        )?;
    }
    writeln!(
        out,
        ". No other site takes what is beyond a gap, nor what site {site} issues from now on. Start with a number that no site has (--site) and a new journal, meet the others, and enter there what is beyond the gap:"
    )
}

// Appends a line for each of the first entries beyond the gap. Returns how many there are.
fn push_entries(
    out: &mut String,
    entries: &[Entry],
    site: u16,
    gap: Gap,
) -> Result<usize, AllocError> {
    let mut count: usize = 0;
    for entry in entries {
        if is_beyond(entry, site, gap.first) {
            if count < MOST_NAMED {
                let number = entry.seq;
                write!(out, "  {number}: ")?;
                push_statement(out, entry.text.as_str())?;
                out.push_str("\n")?;
            }
            count = count.saturating_add(1);
        }
    }
    Ok(count)
}

// Appends the gap of what a site holds, if there is one.
fn push_gap(out: &mut String, held: &Held, site: u16) -> Result<(), AllocError> {
    let Some(gap) = gap_in(*out.allocator(), held, site)? else {
        return Ok(());
    };
    push_missing(out, site, gap)?;
    let count = push_entries(out, held.entries(), site, gap)?;
    let more = count.saturating_sub(MOST_NAMED);
    if more > 0 {
        writeln!(out, "  and {more} more")?;
    }
    Ok(())
}

/// Appends a warning where numbers of the site's own statements are missing, with the first of its statements beyond
/// them; nothing where none is.
pub fn push_own_gap<R: Replica>(out: &mut String, site: &R) -> Result<(), AllocError> {
    match site.held() {
        Ok(held) => push_gap(out, held, site.site()),
        Err(_) => Ok(()),
    }
}
