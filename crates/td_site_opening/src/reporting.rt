//! What is written to the output of faults when a site is opened.

ghost use Rattle.td_journal.specs.Reopening.{IsNew};

use crate::fault::{JournalFault, OUT_OF_MEMORY, StartFault, push_start_fault};
use crate::options::{SiteJournal, SiteOptions};
use crate::rebuild::end_rebuild;
use crate::site::{open_new, take_contents};
use crate::status::ExitStatus;
use std::alloc::Global;
use std::rt::Files;
use td_io::{Sink, put};
use td_journal_files::{Notes, Refusal, read_contents};
use td_replica::Opens;
use td_semantics::Meter;
use td_site_messages::LACKING;

/// What is said of a site that is rebuilt, and that has met no other one since.
const REBUILT: &str =
    "the journal was begun by --rebuild, and no meeting has come to its end since\n";

/// Writes a text to the output of faults. Nothing depends on whether that is seen.
pub fn complain<F: Sink>(faults: &mut F, text: &str) {
    let _written = put(faults, text.as_bytes());
}

/// Writes to the output of faults why a program has no site, and returns its exit status.
pub fn report<H: Files + AllocGlobal + Clone + Drop, F: Sink>(
    alloc: Global,
    host: &H,
    fault: StartFault<'_>,
    faults: &mut F,
) -> ExitStatus {
    let mut words = String::new(alloc);
    match push_start_fault(&mut words, host, fault) {
        Ok(()) => complain(faults, words.as_str()),
        Err(_) => complain(faults, OUT_OF_MEMORY),
    }
    fault.status()
}

// Reports why a new site does not come back from what its journal has, by another try.
fn report_contents<R: Opens + Drop, H: Files + AllocGlobal + Clone + Drop, F: Sink>(
    alloc: Global,
    host: &H,
    journal: &SiteJournal<'_>,
    site: R,
    meter: &mut Meter,
    faults: &mut F,
) -> ExitStatus
    requires { IsNew (R.seen site) }
{
    let SiteJournal {
        options,
        script,
        name,
    } = *journal;
    let contents = match read_contents(host, name) {
        Ok(contents) => contents,
        Err(error) => {
            let error = JournalFault::Unreadable(error);
            return report(alloc, host, StartFault::Journal { name, error }, faults);
        }
    };
    match take_contents(alloc, &contents, site, meter) {
        Ok(_) => {
            let error = JournalFault::Refused(Refusal::Other);
            report(alloc, host, StartFault::Journal { name, error }, faults)
        }
        Err(error) => {
            let error = JournalFault::NotReopened {
                contents: &contents,
                error: &error,
                script,
                site: options.site,
                limit: options.limit,
            };
            report(alloc, host, StartFault::Journal { name, error }, faults)
        }
    }
}

/// Reports why a site does not go on with its journal: what its file says of that, or else what it has. Returns the
/// exit status.
pub fn report_unkept<R: Opens + Drop, H: Files + AllocGlobal + Clone + Drop, F: Sink>(
    alloc: Global,
    host: &H,
    journal: &SiteJournal<'_>,
    notes: &Notes,
    meter: &mut Meter,
    faults: &mut F,
) -> ExitStatus {
    let SiteJournal {
        options,
        script,
        name,
    } = *journal;
    if let Some(refusal) = notes.refusal() {
        let error = JournalFault::Refused(refusal);
        return report(alloc, host, StartFault::Journal { name, error }, faults);
    }
    if let Some(failure) = notes.failure() {
        let error = JournalFault::Unwritten(failure);
        return report(alloc, host, StartFault::Journal { name, error }, faults);
    }
    match open_new::<R>(alloc, &options, script) {
        Ok(site) => report_contents(alloc, host, journal, site, meter, faults),
        Err(error) => {
            let fault = StartFault::Unopened {
                file: options.script,
                script,
                error: &error,
            };
            report(alloc, host, fault, faults)
        }
    }
}

// Removes the file of this name, if there is one.
fn forget_rebuild<H: Files>(host: &H, mark: Option<&str>) {
    if let Some(mark) = mark {
        end_rebuild(host, mark);
    }
}

/// Whether the site issues nothing until it has met another one: its journal has less than it had once, or a file of the
/// name `mark` is beside it, since the site is rebuilt. That is reported. If the words say that it goes on all the same,
/// it issues statements at once.
pub fn is_lacking<H: Files, F: Sink>(
    host: &H,
    options: &SiteOptions<'_>,
    notes: &Notes,
    mark: Option<&str>,
    faults: &mut F,
) -> bool {
    let is_short = match notes.found() {
        Some(found) => found.is_short(),
        None => false,
    };
    if !is_short && mark.is_none() {
        return false;
    }
    if options.forgets {
        notes.let_go();
        forget_rebuild(host, mark);
        return false;
    }
    if mark.is_some() {
        complain(faults, REBUILT);
    }
    complain(faults, LACKING);
    complain(faults, "\n");
    true
}
