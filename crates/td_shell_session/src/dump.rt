//! A site as a script that makes it again.

use crate::answer::Answer;
use crate::fault::{Fault, FileFault, PlainFault};
use crate::issue::issue;
use crate::lists::statements_with_outcomes;
use crate::new_file::write_new;
use std::alloc::{AllocError, Global};
use std::fs::File;
use std::rt::Files;
use td_changes::Changes;
use td_grammar::{ReadError, read_statement_in};
use td_journal_files::Notes;
use td_replica::{Catalogued, Replica};
use td_semantics::{Meter, Outcome};
use td_shell_input::{DumpedEntry, entry_in, push_entry};
use td_stamps::{Entry, Stamp};

/// What the names of journals and of the files beside them have in them, and no dump's.
const OF_JOURNALS: &str = ".tdj";

/// The most bytes of a line of a dump: a text of which each character is written by two.
pub(crate) const ENTRY_BYTES: usize = 32_768;

/// How many of a site's statements a dump has and lacks.
#[derive(Clone, Copy)]
struct Count {
    kept: usize,
    left_out: usize,
}

/// Whether a name is one of a journal, or of a file beside one.
pub(crate) fn is_of_journals(file: &str) -> bool {
    file.contains(OF_JOURNALS)
}

/// Appends the script, as it comes before the statements of a dump.
pub(crate) fn push_script(dump: &mut String, script: &str) -> Result<(), AllocError> {
    dump.push_str(script)?;
    dump.push_str(".begin\n")
}

// Appends a line for each statement. One that has no reading in its dialect is left out: it had no effect, and in
// another dialect it might have one.
fn push_entries(
    dump: &mut String,
    entries: &[Entry],
    outcomes: &[(Stamp, Outcome)],
) -> Result<Count, AllocError> {
    let mut count = Count {
        kept: 0,
        left_out: 0,
    };
    for (entry, (_, outcome)) in entries.iter().zip(outcomes) {
        if matches!(outcome, Outcome::Unread) {
            count.left_out = count.left_out.saturating_add(1);
        } else {
            push_entry(dump, entry.dialect, entry.text.as_str())?;
            count.kept = count.kept.saturating_add(1);
        }
    }
    Ok(count)
}

// Appends the script, and after it a line for each statement.
fn push_dump(
    dump: &mut String,
    script: &str,
    entries: &[Entry],
    outcomes: &[(Stamp, Outcome)],
) -> Result<Count, AllocError> {
    push_script(dump, script)?;
    push_entries(dump, entries, outcomes)
}

// Says how many statements a dump has that is written, and how many it leaves out, if any.
fn say_dumped(out: &mut String, file: &str, count: Count) -> Result<(), AllocError> {
    let Count { kept, left_out } = count;
    if left_out == 0 {
        return writeln!(out, "dumped the script and {kept} statements to {file}");
    }
    writeln!(
        out,
        "dumped the script and {kept} statements to {file}; {left_out} that are no statements of the script are left out"
    )
}

// Writes a dump to a file that is not there yet.
fn write_dump<'t, H: Files<File = File>>(
    out: &mut String,
    host: &H,
    dump: &str,
    count: Count,
    file: &'t str,
) -> Result<(), Fault<'t>> {
    match write_new(*out.allocator(), host, file, dump.as_bytes()) {
        Ok(()) => Ok(say_dumped(out, file, count)?),
        Err(error) => Err(Fault::unwritten(file, error)),
    }
}

// Makes a dump and writes it to a file that is not there yet.
fn dump_entries<'t, H: Files<File = File>>(
    out: &mut String,
    host: &H,
    script: &str,
    entries: &[Entry],
    outcomes: &[(Stamp, Outcome)],
    file: &'t str,
) -> Result<(), Fault<'t>> {
    let mut dump = String::new(*out.allocator());
    match push_dump(&mut dump, script, entries, outcomes) {
        Ok(count) => write_dump(out, host, dump.as_str(), count, file),
        Err(error) => Err(Fault::from(error)),
    }
}

/// Writes the script, and after it each statement that the site holds, in the order of stamps, to a file that is not
/// there yet. A statement that was refused is among them: it is a part of what the site lists.
pub(crate) fn dump<'t, R: Replica, H: Files<File = File>>(
    out: &mut String,
    host: &H,
    site: &R,
    file: &'t str,
) -> Result<(), Fault<'t>> {
    if is_of_journals(file) {
        return Err(Fault::file(file, FileFault::JournalName));
    }
    match statements_with_outcomes(*out.allocator(), site) {
        Ok((entries, outcomes)) => {
            dump_entries(out, host, site.script(), entries, &outcomes, file)
        }
        Err(fault) => Err(Fault::Site(fault)),
    }
}

// Whether the text is a statement of the dialect that it is said to be of.
fn is_of_dialect(alloc: Global, entry: &DumpedEntry) -> Result<bool, AllocError> {
    match read_statement_in(alloc, entry.text.as_str(), entry.dialect) {
        Ok(_) => Ok(true),
        Err(ReadError::Syntax) => Ok(false),
        Err(ReadError::OutOfMemory) => Err(AllocError),
    }
}

// Issues the statement of an entry, if its text is a statement of the dialect that the entry names.
fn issue_dumped<'e, R: Changes>(
    out: &mut String,
    site: &mut R,
    entry: &'e DumpedEntry,
    meter: &mut Meter,
) -> Result<(), Fault<'e>> {
    if !is_of_dialect(*out.allocator(), entry)? {
        return Err(Fault::Dialect(entry.dialect));
    }
    issue(out, site, entry.text.as_str(), meter)
}

// Issues the statement of an entry, or says why not.
fn answer_entry<R: Changes + Catalogued>(
    answer: &mut Answer,
    site: &mut R,
    entry: &DumpedEntry,
    meter: &mut Meter,
    notes: &Notes,
) -> Result<(), AllocError> {
    match issue_dumped(&mut answer.text, site, entry, meter) {
        Ok(()) => Ok(()),
        Err(fault) => {
            answer.text.clear();
            answer.push_fault(site.catalogue(), notes, fault)
        }
    }
}

/// Issues the statement of a line of a dump.
pub(crate) fn issue_entry<R: Changes + Catalogued>(
    answer: &mut Answer,
    site: &mut R,
    words: &str,
    meter: &mut Meter,
    notes: &Notes,
) -> Result<(), Fault<'static>> {
    match entry_in(*answer.text.allocator(), words)? {
        Some(entry) => Ok(answer_entry(answer, site, &entry, meter, notes)?),
        None => Err(Fault::Plain(PlainFault::NoEntry)),
    }
}
