//! A journal that is begun for a site that had another one.

use crate::fault::JournalFault;
use crate::options::SiteOptions;
use std::alloc::{AllocError, Global};
use std::fs;
use std::rt::Files;
use td_paths::{Unreadable, remove_file, replace_file};

/// What the name of the file ends in that is beside a journal until its site has met another one.
const ENDING: &str = ".rebuild";

/// What that file has.
const TEXT: &str =
    "this site issues nothing until a meeting has brought what its old journal had\n";

// The name of the file beside a journal.
fn mark_of(alloc: Global, journal: &str) -> Result<String, AllocError> {
    format!(in alloc; "{journal}{ENDING}")
}

/// The name of the file beside the journal that is there until its site has met another one; none where it is not.
pub fn find_mark<H: Files>(
    alloc: Global,
    host: &H,
    journal: Option<&str>,
) -> Result<Option<String>, AllocError> {
    let Some(journal) = journal else {
        return Ok(None);
    };
    let mark = mark_of(alloc, journal)?;
    if fs::symlink_metadata(host, mark.as_str()).is_ok() {
        Ok(Some(mark))
    } else {
        Ok(None)
    }
}

// Makes the file beside a journal.
fn make_mark<H: Files>(alloc: Global, host: &H, journal: &str) -> Result<bool, AllocError> {
    let mark = mark_of(alloc, journal)?;
    let beside = format!(in alloc; "{mark}.new")?;
    Ok(replace_file(host, mark.as_str(), beside.as_str(), TEXT).is_ok())
}

/// Notes beside a journal that is to be begun that its site issues nothing until it has met another one, if the words
/// say that it is rebuilt.
pub(crate) fn begin_rebuild<H: Files>(
    alloc: Global,
    host: &H,
    options: &SiteOptions<'_>,
    journal: &str,
) -> Result<(), JournalFault<'static>> {
    if !options.is_rebuilt {
        return Ok(());
    }
    match make_mark(alloc, host, journal) {
        Ok(true) => Ok(()),
        Ok(false) => Err(JournalFault::Unmarked),
        Err(_) => Err(JournalFault::Unreadable(Unreadable::OutOfMemory)),
    }
}

/// Removes the file of this name beside a journal, whose site has met another one. Where that fails the site issues
/// nothing at its next start either, until it has met one again.
pub fn end_rebuild<H: Files>(host: &H, mark: &str) {
    let _removed = remove_file(host, mark);
}

/// Appends that the file beside a journal is not made.
pub(crate) fn push_unmarked(out: &mut String, journal: &str) -> Result<(), AllocError> {
    write!(
        out,
        "{journal}{ENDING} cannot be written, which is there until the site has met another one; make room, or mend the rights of its folder"
    )
}
