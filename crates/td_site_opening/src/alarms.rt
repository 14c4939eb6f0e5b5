//! The alarms of a site, which are kept beside its journal.

use std::alloc::{AllocError, Global};
use std::rt::Files;
use td_alarms::Alarms;
use td_paths::Unreadable;

/// What the name of the file ends in that has the alarms.
const ENDING: &str = ".differing";

// The name of the file that has the alarms of a site with this journal, if it has one.
fn alarms_name(alloc: Global, journal: Option<&str>) -> Result<Option<String>, AllocError> {
    match journal {
        Some(journal) => Ok(Some(format!(in alloc; "{journal}{ENDING}")?)),
        None => Ok(None),
    }
}

/// The alarms of a site with this journal, or with none.
pub fn open_alarms<H: Files + AllocGlobal>(
    alloc: Global,
    host: &H,
    journal: Option<&str>,
) -> Result<Alarms, Unreadable> {
    match alarms_name(alloc, journal) {
        Ok(name) => Alarms::open(alloc, host, name),
        Err(_) => Err(Unreadable::OutOfMemory),
    }
}

/// Appends why the alarms of a site with this journal are not read, and what is to be done.
pub(crate) fn push_no_alarms(
    out: &mut String,
    journal: &str,
    error: Unreadable,
) -> Result<(), AllocError> {
    write!(out, "its alarms, in {journal}{ENDING}, are not read: ")?;
    match error {
        Unreadable::Failed => out.push_str(
            "a line of it has no site, blank and address, or the system does not read it; move it away, and the next meetings raise again what differs",
        ),
        error => out.push_str(error.words()),
    }
}
