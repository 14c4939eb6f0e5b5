//! Statements that are issued.

use crate::fault::Fault;
use std::alloc::AllocError;
use td_changes::Changes;
use td_listings::show_stamp;
use td_replica::Issued;
use td_semantics::{Meter, Outcome};
use td_site_messages::{SiteFault, push_change_count, push_outcome};

/// The most bytes that the answer to a statement has.
const ANSWER_BYTES: usize = 256;

/// Appends the stamp of a statement and what became of it.
pub(crate) fn push_issued(out: &mut String, issued: &Issued) -> Result<(), AllocError> {
    show_stamp(out, &issued.stamp)?;
    out.push_str(" ")?;
    push_outcome(out, &issued.outcome)
}

// Says what became of a statement, and how many tuples it changed.
fn say_issued<R: Changes>(out: &mut String, site: &R, issued: &Issued) -> Result<(), AllocError> {
    push_issued(out, issued)?;
    if matches!(&issued.outcome, Outcome::Done)
        && let Ok(changes) = site.changed_by(issued.stamp)
    {
        push_change_count(out, changes)?;
    }
    out.push_str("\n")
}

/// Issues a statement, and says what became of it and how many tuples it changed.
pub(crate) fn issue<'t, R: Changes>(
    out: &mut String,
    site: &mut R,
    text: &'t str,
    meter: &mut Meter,
) -> Result<(), Fault<'t>> {
    // After the call nothing may fail for lack of room: the site has taken the statement then.
    out.reserve(ANSWER_BYTES)?;
    match site.issue(*out.allocator(), text, meter) {
        Ok(issued) => Ok(say_issued(out, site, &issued)?),
        Err(error) => Err(Fault::Site(SiteFault::NotIssued { text, error })),
    }
}
