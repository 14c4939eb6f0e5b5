//! Why a program has no site.

use crate::alarms::push_no_alarms;
use crate::journals::push_missing;
use crate::rebuild::push_unmarked;
use crate::refusal::{push_not_reopened, push_refusal};
use crate::script::NoScript;
use crate::status::ExitStatus;
use crate::unopened::{SCRIPT_MEMORY, push_unopened};
use std::alloc::AllocError;
use std::rt::Files;
use td_journal::ReopenError;
use td_journal_files::{Contents, Refusal, SyncFailure};
use td_paths::Unreadable;
use td_replica::OpenError;
use td_site_messages::failure_words;

/// What is said where there is not enough memory to go on.
pub const OUT_OF_MEMORY: &str = "fault memory: there is not enough memory to go on\n";

/// Why the journal of a site cannot be used.
#[derive(Clone, Copy)]
pub enum JournalFault<'a> {
    /// It is there, and was to be begun.
    IsThere,
    /// It is there, and the site was to be rebuilt.
    IsInTheWay,
    /// It is not there, and was not to be begun.
    IsMissing {
        /// Whether it could be begun, as one could not that is only read.
        can_begin: bool,
    },
    /// Its file is not opened.
    Refused(Refusal),
    /// It is not written.
    Unwritten(SyncFailure),
    /// Its file is not read.
    Unreadable(Unreadable),
    /// The file is not made that is beside it until its site has met another one.
    Unmarked,
    /// The file beside it that has its alarms is not read.
    Alarms(Unreadable),
    /// A new site of this number, limit and script does not come back from what it has.
    NotReopened {
        contents: &'a Contents,
        error: &'a ReopenError,
        script: &'a str,
        site: u16,
        limit: usize,
    },
}

/// Why a program has no site.
#[derive(Clone, Copy)]
pub enum StartFault<'a> {
    /// There is not enough memory to go on.
    OutOfMemory,
    /// This file has no script.
    NoScript {
        file: &'a str,
        error: NoScript,
    },
    /// The script of this file opens no site.
    Unopened {
        file: &'a str,
        script: &'a str,
        error: &'a OpenError,
    },
    /// The journal of this name cannot be used.
    Journal {
        name: &'a str,
        error: JournalFault<'a>,
    },
}

impl StartFault<'_> {
    /// The exit status of a program that has no site for this reason.
    pub fn status(self) -> ExitStatus {
        match self {
            StartFault::OutOfMemory => ExitStatus::Fault,
            StartFault::NoScript { file: _, error } => match error {
                NoScript::Unreadable(_) => ExitStatus::BadWords,
                _ => ExitStatus::Fault,
            },
            StartFault::Unopened { .. } => ExitStatus::Fault,
            StartFault::Journal { .. } => ExitStatus::BadJournal,
        }
    }
}

// Appends why a file has no script.
fn push_no_script(out: &mut String, file: &str, error: NoScript) -> Result<(), AllocError> {
    match error {
        NoScript::Unreadable(error) => {
            let why = error.words();
            writeln!(out, "error: the script cannot be read: {file}: {why}")
        }
        NoScript::OutOfMemory => out.push_str(SCRIPT_MEMORY),
        NoScript::NoUtf8 => out.push_str("fault script syntax: the script is no UTF-8\n"),
        NoScript::TooLong => {
            out.push_str("fault script syntax: a script has at most 65536 bytes\n")
        }
    }
}

// Appends why the journal of this name cannot be used, without its name.
fn push_reason<H: Files + AllocGlobal + Clone + Drop>(
    out: &mut String,
    host: &H,
    name: &str,
    error: JournalFault<'_>,
) -> Result<(), AllocError> {
    match error {
        JournalFault::IsThere => {
            out.push_str("it is there already; without --new the site goes on with it")
        }
        JournalFault::IsInTheWay => {
            out.push_str(
                "it is there already; move it away first, or go on with it without --rebuild",
            )
        }
        JournalFault::IsMissing { can_begin } => push_missing(out, host, name, can_begin),
        JournalFault::Refused(refusal) => push_refusal(out, refusal),
        JournalFault::Unwritten(failure) => out.push_str(failure_words(Some(failure))),
        JournalFault::Unreadable(error) => out.push_str(error.words()),
        JournalFault::Unmarked => push_unmarked(out, name),
        JournalFault::Alarms(error) => push_no_alarms(out, name, error),
        JournalFault::NotReopened {
            contents,
            error,
            script,
            site,
            limit,
        } => push_not_reopened(out, contents, error, script, site, limit),
    }
}

// Appends why the journal of this name cannot be used.
fn push_journal_fault<H: Files + AllocGlobal + Clone + Drop>(
    out: &mut String,
    host: &H,
    name: &str,
    error: JournalFault<'_>,
) -> Result<(), AllocError> {
    write!(out, "fault journal {name}: ")?;
    push_reason(out, host, name, error)?;
    out.push_str("\n")
}

/// Appends why a program has no site, in lines.
pub(crate) fn push_start_fault<H: Files + AllocGlobal + Clone + Drop>(
    out: &mut String,
    host: &H,
    fault: StartFault<'_>,
) -> Result<(), AllocError> {
    match fault {
        StartFault::OutOfMemory => out.push_str(OUT_OF_MEMORY),
        StartFault::NoScript { file, error } => push_no_script(out, file, error),
        StartFault::Unopened {
            file,
            script,
            error,
        } => push_unopened(out, file, script, error),
        StartFault::Journal { name, error } => push_journal_fault(out, host, name, error),
    }
}
