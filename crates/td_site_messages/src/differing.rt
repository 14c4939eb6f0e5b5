//! What a meeting did not exchange.

use std::alloc::{AllocError, Global};
use std::collections::BTreeSet;
use td_checked_meetings::{Beyond, MeetingScope, Received};

/// The most sites that are named.
const MOST_NAMED: usize = 10;

// The sites that are left out, each once.
fn left_out(alloc: Global, scope: &MeetingScope) -> Result<BTreeSet<u16>, AllocError> {
    let mut sites = BTreeSet::new(alloc);
    for site in &scope.left_out {
        sites.insert(*site)?;
    }
    Ok(sites)
}

// Appends the first of these sites, with commas between, and how many more there are.
fn push_sites(out: &mut String, sites: &BTreeSet<u16>) -> Result<(), AllocError> {
    out.push_str(if sites.len() == 1 { "site " } else { "sites " })?;
    for (at, site) in sites.iter().take(MOST_NAMED).enumerate() {
        let comma = if at == 0 { "" } else { ", " };
        write!(out, "{comma}{site}")?;
    }
    let more = sites.len().saturating_sub(MOST_NAMED);
    if more > 0 {
        write!(out, " and {more} more")?;
    }
    Ok(())
}

// Appends that a statement came beyond a gap.
fn push_beyond(out: &mut String, beyond: Beyond) -> Result<(), AllocError> {
    let Beyond { site, number } = beyond;
    writeln!(
        out,
        "WARNING: statement {number} of site {site} came, and one before it did not: it is not taken"
    )
}

/// Appends a line for the sites of which statements differ, and none if no site is left out.
pub fn push_differing(out: &mut String, scope: &MeetingScope) -> Result<(), AllocError> {
    let sites = left_out(*out.allocator(), scope)?;
    if sites.is_empty() {
        return Ok(());
    }
    out.push_str("WARNING: statements of ")?;
    push_sites(out, &sites)?;
    let one = if sites.len() == 1 {
        "it"
    } else {
        "one of them"
    };
    writeln!(
        out,
        " differ here and at the other site, so neither sends them: two programs have written as {one}, or a journal is damaged; docs/TUTORIAL.md says what to do"
    )
}

/// Appends lines for entries that came and were not taken, if there were any.
pub fn push_not_taken(out: &mut String, received: &Received) -> Result<(), AllocError> {
    if received.dropped > 0 {
        let count = received.dropped;
        writeln!(
            out,
            "WARNING: the other site sent {count} statements of sites that differ: they are not taken"
        )?;
    }
    match received.beyond {
        Some(beyond) => push_beyond(out, beyond),
        None => Ok(()),
    }
}
