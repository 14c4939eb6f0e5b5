//! Why a journal is not one from which a site comes back.

use std::alloc::AllocError;
use td_journal::{JournalError, ReopenError};
use td_journal_files::{Contents, Damage, Refusal};
use td_replica::TakeError;
use td_site_messages::push_readable;

/// The byte of a journal that has its version.
const VERSION_AT: usize = 4;

/// From where on to where a journal has the number of its site.
const SITE_AT: usize = 5;

const SITE_END: usize = 7;

/// From which byte on a journal has its script.
const SCRIPT_AT: usize = 11;

/// What is to be done with a journal that has bytes which no program wrote there.
const SALVAGE: &str =
    "start it once with --salvage, which keeps a copy of it and makes it anew of all other statements";

/// What is to be done with a journal that has statements which no program wrote there.
const GOOD_COPY: &str = "take the last good copy of it";

// The number of the site whose journal the bytes are.
fn site_of(bytes: &[u8]) -> u16 {
    match bytes.get(SITE_AT..SITE_END) {
        Some([high, low]) => u16::from_be_bytes([*high, *low]),
        _ => 0,
    }
}

// The first line of the script that is not as in the journal.
fn line_of_difference(bytes: &[u8], script: &str) -> usize {
    let written = bytes.get(SCRIPT_AT..).unwrap_or(b"".as_slice());
    let mut line: usize = 1;
    for (one, other) in script.as_bytes().iter().zip(written) {
        if one != other {
            break;
        }
        if *one == b'\n' {
            line = line.saturating_add(1);
        }
    }
    line
}

// Appends from which byte on a journal of this script is damaged.
fn push_damage(out: &mut String, contents: &Contents, script: &str) -> Result<(), AllocError> {
    let begin = SCRIPT_AT.saturating_add(script.len());
    let at = contents.damaged_at(begin);
    write!(
        out,
        "it is damaged at byte {at}, where no statement stands as it was written; {SALVAGE}"
    )
}

// Appends why the file is not read as a journal of this site and script, and what is to be done if anything can be.
fn push_not_read(
    out: &mut String,
    contents: &Contents,
    error: JournalError,
    script: &str,
    site: u16,
) -> Result<(), AllocError> {
    let bytes = contents.bytes.as_slice();
    match error {
        JournalError::Magic => {
            out.push_str("it does not begin as a journal does; another file has its name")
        }
        JournalError::Version => {
            let version = bytes.get(VERSION_AT).copied().unwrap_or(0);
            write!(
                out,
                "it is of version {version}, and this program reads versions 1 and 2; use the program that wrote it"
            )
        }
        JournalError::OtherSite => {
            let other = site_of(bytes);
            write!(
                out,
                "it is the journal of site {other}, and this is site {site}; start with --site {other}, and with that number in its name"
            )
        }
        JournalError::OtherScript => {
            let line = line_of_difference(bytes, script);
            write!(
                out,
                "it was begun with another script, whose line {line} is not as here, if only by a blank; start with that one, which stands in it from byte {SCRIPT_AT} on"
            )
        }
        JournalError::BadFrame => push_damage(out, contents, script),
    }
}

// Appends why the site does not take what its journal has, and what is to be done.
fn push_not_taken(out: &mut String, error: TakeError, limit: usize) -> Result<(), AllocError> {
    match error {
        TakeError::Full => write!(
            out,
            "it has more than the {limit} statements that this site may hold; start with a greater --limit"
        ),
        TakeError::Clash { site, seq } => write!(
            out,
            "it is damaged, since it has two statements {seq} of site {site}; {GOOD_COPY}"
        ),
        _ => write!(
            out,
            "it is damaged, since it has a statement that no site issues; {GOOD_COPY}"
        ),
    }
}

// Appends where a journal was changed, and what is to be done.
fn push_changed(out: &mut String, damage: &Damage) -> Result<(), AllocError> {
    let from = damage.from;
    let end = damage.end;
    write!(out, "it is damaged between byte {from} and byte {end}, ")?;
    push_readable(out, damage)?;
    write!(out, "; {SALVAGE}")
}

/// Appends why the file of a journal is not opened, and what is to be done.
pub(crate) fn push_refusal(out: &mut String, refusal: Refusal) -> Result<(), AllocError> {
    match refusal {
        Refusal::Damaged(damage) => push_changed(out, &damage),
        refusal => out.push_str(file_words(refusal)),
    }
}

// Why the file of a journal is not opened.
fn file_words(refusal: Refusal) -> &'static str {
    match refusal {
        Refusal::NoFile(error) => error.words(),
        Refusal::NoFolder => "its folder is not there; make that, or give another prefix",
        Refusal::Denied =>
            "this user may not write it, or not its folder; mend their rights, or read it with --read-only",
        Refusal::Full => "there is no room for it; make room on the disk",
        Refusal::Locked =>
            "another program has it open; end that one, or read the journal with --read-only",
        Refusal::Replaced => "another file took its place just now; start again",
        Refusal::Beside =>
            "what has its name followed by .seen is no file that this user may read and write; move that away",
        Refusal::Unkept =>
            "what is behind its whole statements cannot be kept beside it; make room, or mend the rights of its folder",
        Refusal::Unmade =>
            "it is to be made anew, which cannot be done beside itself; make room, mend the rights of its folder, or give the name of the file in place of that of a link",
        Refusal::Damaged(_) => "it is damaged",
        Refusal::Other => "the system refuses to open it, to lock it or to hand it to the disk",
    }
}

/// Appends why a new site of this script, number and limit does not come back from what its journal has.
pub(crate) fn push_not_reopened(
    out: &mut String,
    contents: &Contents,
    error: &ReopenError,
    script: &str,
    site: u16,
    limit: usize,
) -> Result<(), AllocError> {
    match error {
        ReopenError::Refused(error) => push_not_read(out, contents, *error, script, site),
        ReopenError::Take(error) => push_not_taken(out, *error, limit),
        ReopenError::OutOfMemory => out.push_str("there is not enough memory for it"),
        ReopenError::ReadFault | ReopenError::Open(_) => out.push_str(
            "the system does not read it",
        ),
    }
}
