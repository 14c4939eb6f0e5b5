//! What came of meetings.

use crate::journal::push_unwritten;
use crate::wording::{BROKEN, NO_MEMORY, UNCHANGED, push_count};
use std::alloc::AllocError;
use td_frames::FrameError;
use td_journal_files::Notes;
use td_meeting::MeetingError;
use td_replica::TakeError;

/// Why the other site may end a meeting before anything new came. It sends no reason.
const SILENT_REASONS: &str =
    "it may be full, of another script, of this site's number, or may not let this address in: look at its screen";

/// Appends how many of the statements that a meeting brought were new here.
pub fn push_met(out: &mut String, fresh: usize) -> Result<(), AllocError> {
    if fresh == 1 {
        return out.push_str("met: 1 statement was new here");
    }
    write!(out, "met: {fresh} statements were new here")
}

// Appends the word of a fault and how the link failed in a meeting, with how many new statements came before; if none
// did, with why that may be.
fn push_broken_off(
    out: &mut String,
    word: &str,
    how: &str,
    taken: usize,
) -> Result<(), AllocError> {
    if taken == 0 {
        return write!(out, "{word}: 0 came: {how}; {SILENT_REASONS}");
    }
    write!(out, "{word}: {how}; ")?;
    push_count(out, taken, "new statement")?;
    out.push_str(" came before, and the next meeting brings the rest")
}

// Appends why nothing more is read of what the other end sends; where the link fails, also how many statements came.
fn push_unread(out: &mut String, error: FrameError, taken: usize) -> Result<(), AllocError> {
    match error {
        FrameError::OutOfMemory => out.push_str(NO_MEMORY),
        FrameError::ReadFault => {
            push_broken_off(
                out,
                "read",
                "the other site fell silent, or the connection failed",
                taken,
            )
        }
        FrameError::Cut => push_broken_off(out, "cut", "the other site broke off", taken),
        FrameError::Magic => out.push_str("magic: the other end is no site"),
        FrameError::Version => out.push_str("version: the other site is of another version"),
        FrameError::BadFrame => {
            out.push_str("frame: the other end sent what no site sends; nothing of it is kept")
        }
    }
}

// Appends why the site does not take what the other one sent.
fn push_not_taken(out: &mut String, notes: &Notes, error: TakeError) -> Result<(), AllocError> {
    match error {
        TakeError::Broken => out.push_str(BROKEN),
        TakeError::BadEntry => {
            out.push_str("entry: the other site sent what no site sends; nothing of it is kept")
        }
        TakeError::Clash { site, seq } => write!(
            out,
            "clash: statement {seq} of site {site} is another one here than there: a journal was copied, forgotten or brought back; compare .digest. Nothing of it is kept"
        ),
        TakeError::Full => {
            out.push_str("full: this site would hold more statements than its limit says")
        }
        TakeError::OutOfMemory => out.push_str(UNCHANGED),
        TakeError::JournalWrite => push_unwritten(out, notes.failure()),
    }
}

/// Appends why a meeting did not come to its end.
pub(crate) fn push_not_met(
    out: &mut String,
    notes: &Notes,
    error: MeetingError,
) -> Result<(), AllocError> {
    match error {
        MeetingError::Broken => out.push_str(BROKEN),
        MeetingError::OutOfMemory => out.push_str(NO_MEMORY),
        MeetingError::Frame { error, taken } => push_unread(out, error, taken),
        MeetingError::OtherScript => out.push_str(
            "script: the other site started from another script; start both with the same file, byte for byte",
        ),
        MeetingError::SameSite => out.push_str(
            "same site: the other site has the same number; start one of them with a number that no site has (--site) and a new journal",
        ),
        MeetingError::WriteFault { taken } => {
            push_broken_off(
                out,
                "write",
                "the other site took nothing, or the connection failed",
                taken,
            )
        }
        MeetingError::Take(error) => push_not_taken(out, notes, error),
    }
}
