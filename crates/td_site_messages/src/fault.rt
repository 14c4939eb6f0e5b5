//! Why a site does not do what it is asked.

use crate::queries::{push_not_asked, push_not_asked_at};
use crate::statements::push_not_issued;
use crate::unmet::push_not_met;
use crate::wording::{BROKEN, NO_MEMORY, UNCHANGED};
use std::alloc::AllocError;
use td_headings::Catalogue;
use td_journal_files::Notes;
use td_meeting::MeetingError;
use td_replica::{AskError, IssueError, PastError, TellError};

/// Why a site does not do what it is asked.
#[derive(Clone, Copy)]
pub enum SiteFault<'a> {
    /// The journal of the site failed.
    Broken,
    /// Memory ran out, and nothing has changed.
    Unchanged,
    /// Memory ran out for an answer.
    NoMemory,
    /// The text is not issued as a statement.
    NotIssued { text: &'a str, error: IssueError },
    /// The text is not answered as a query.
    NotAsked { text: &'a str, error: AskError },
    /// The text is not answered as a query at a past place.
    NotAskedAt { text: &'a str, error: PastError },
    /// A meeting did not come to its end.
    NotMet(MeetingError),
}

impl From<AllocError> for SiteFault<'_> {
    fn from(_e: AllocError) -> Self {
        SiteFault::NoMemory
    }
}

impl From<TellError> for SiteFault<'_> {
    fn from(error: TellError) -> Self {
        match error {
            TellError::Broken => SiteFault::Broken,
            TellError::OutOfMemory => SiteFault::Unchanged,
        }
    }
}

/// Appends why a site does not do what it is asked. Names come from the catalogue of its script; what became of its
/// journal is in the notes.
pub fn push_site_fault(
    out: &mut String,
    catalogue: &Catalogue,
    notes: &Notes,
    fault: SiteFault<'_>,
) -> Result<(), AllocError> {
    match fault {
        SiteFault::Broken => out.push_str(BROKEN),
        SiteFault::Unchanged => out.push_str(UNCHANGED),
        SiteFault::NoMemory => out.push_str(NO_MEMORY),
        SiteFault::NotIssued { text, error } => push_not_issued(out, catalogue, notes, text, error),
        SiteFault::NotAsked { text, error } => push_not_asked(out, catalogue, text, error),
        SiteFault::NotAskedAt { text, error } => push_not_asked_at(out, catalogue, text, error),
        SiteFault::NotMet(error) => push_not_met(out, notes, error),
    }
}
