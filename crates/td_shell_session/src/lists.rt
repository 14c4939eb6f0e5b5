//! What a site holds.

use crate::fault::Fault;
use std::alloc::{AllocError, Global};
use td_listings::vector_text;
use td_replica::Replica;
use td_semantics::Outcome;
use td_site_messages::{SiteFault, push_digest, push_log, push_refused};
use td_stamps::{Entry, Held, Stamp};

/// What the site holds, with what became of each statement.
pub(crate) fn statements_with_outcomes<R: Replica>(
    alloc: Global,
    site: &R,
) -> Result<(&[Entry], Vec<(Stamp, Outcome)>), SiteFault<'static>> {
    let Ok(held) = site.held() else {
        return Err(SiteFault::Broken);
    };
    match site.outcomes(alloc) {
        Ok(outcomes) => Ok((held.entries(), outcomes)),
        Err(error) => Err(SiteFault::from(error)),
    }
}

/// Says each statement that the site holds, with what became of it.
pub(crate) fn log<R: Replica>(out: &mut String, site: &R) -> Result<(), Fault<'static>> {
    match statements_with_outcomes(*out.allocator(), site) {
        Ok((entries, outcomes)) => Ok(push_log(out, entries, &outcomes)?),
        Err(fault) => Err(Fault::Site(fault)),
    }
}

/// Says each statement that has no effect, of the site alone if so asked.
pub(crate) fn refused_statements<R: Replica>(
    out: &mut String,
    site: &R,
    is_own: bool,
) -> Result<(), Fault<'static>> {
    let number = is_own.then_some(site.site());
    match statements_with_outcomes(*out.allocator(), site) {
        Ok((entries, outcomes)) => Ok(push_refused(out, entries, &outcomes, number)?),
        Err(fault) => Err(Fault::Site(fault)),
    }
}

// Says up to which number all statements of each site are held.
fn say_vector(out: &mut String, held: &Held) -> Result<(), AllocError> {
    let alloc = *out.allocator();
    *out = vector_text(alloc, &held.vector(alloc)?)?;
    Ok(())
}

/// Says up to which number the site has all statements of each site.
pub(crate) fn vector<R: Replica>(out: &mut String, site: &R) -> Result<(), Fault<'static>> {
    match site.held() {
        Ok(held) => Ok(say_vector(out, held)?),
        Err(_) => Err(Fault::Site(SiteFault::Broken)),
    }
}

/// Says what the site holds of each site, of one alone up to a number if so asked, in a few digits.
pub(crate) fn digest<R: Replica>(
    out: &mut String,
    site: &R,
    of: Option<(u16, u32)>,
) -> Result<(), Fault<'static>> {
    match site.held() {
        Ok(held) => Ok(push_digest(out, held, of)?),
        Err(_) => Err(Fault::Site(SiteFault::Broken)),
    }
}
