//! Whether there is a journal as the words of a command line say.

use crate::fault::JournalFault;
use crate::options::SiteOptions;
use crate::rebuild::begin_rebuild;
use std::alloc::{AllocError, Global};
use std::fs;
use std::path::Path;
use std::rt::Files;

/// What the names of journals end in.
const ENDING: &str = ".tdj";

/// The name of the site's journal, if it keeps one.
pub fn journal_name(
    alloc: Global,
    options: &SiteOptions<'_>,
) -> Result<Option<String>, AllocError> {
    let Some(prefix) = options.journal else {
        return Ok(None);
    };
    let site = options.site;
    Ok(Some(format!(in alloc; "{prefix}{site}{ENDING}")?))
}

// Whether the journal of this name is there if the site goes on with it, and not there if it is begun.
fn check_journal<H: Files>(
    host: &H,
    options: &SiteOptions<'_>,
    name: &str,
) -> Result<(), JournalFault<'static>> {
    let is_there = fs::symlink_metadata(host, name).is_ok();
    if is_there == !options.is_new {
        return Ok(());
    }
    if is_there && options.is_rebuilt {
        Err(JournalFault::IsInTheWay)
    } else if is_there {
        Err(JournalFault::IsThere)
    } else {
        let can_begin = !options.is_read_only;
        Err(JournalFault::IsMissing { can_begin })
    }
}

/// Checks that the journal of this name is there if the site goes on with it, and not there if it is begun. Beside one
/// that is begun for a site that is rebuilt a file is made, which is there until the site has met another one.
pub fn prepare_journal<H: Files>(
    alloc: Global,
    host: &H,
    options: &SiteOptions<'_>,
    name: &str,
) -> Result<(), JournalFault<'static>> {
    match check_journal(host, options, name) {
        Ok(()) => begin_rebuild(alloc, host, options, name),
        Err(error) => Err(error),
    }
}

// The folder of a name, and what comes before the names in it.
fn folder_of(name: &str) -> (&str, &str) {
    match Path::new(name).parent() {
        Some(folder) if !folder.as_str().is_empty() => {
            let end = folder.as_str().len().saturating_add(1);
            (folder.as_str(), name.get(..end).unwrap_or(""))
        }
        _ => (".", ""),
    }
}

// Adds the name of a file, if it is one of a journal.
fn add_journal(names: &mut Vec<String>, alloc: Global, name: &str) -> Result<(), AllocError> {
    if name.ends_with(ENDING) {
        names.push(String::from_str(alloc, name)?)?;
    }
    Ok(())
}

// Adds the names of the journals in a folder; none of one that cannot be read.
fn add_journals<H: Files + AllocGlobal + Clone + Drop>(
    names: &mut Vec<String>,
    alloc: Global,
    host: &H,
    folder: &str,
) -> Result<(), AllocError> {
    let Ok(entries) = fs::read_dir(host, folder) else {
        return Ok(());
    };
    for entry in entries {
        if let Ok(entry) = entry {
            add_journal(names, alloc, entry.file_name())?;
        }
    }
    Ok(())
}

// The names of the journals in a folder, in order.
fn journals_in<H: Files + AllocGlobal + Clone + Drop>(
    alloc: Global,
    host: &H,
    folder: &str,
) -> Result<Vec<String>, AllocError> {
    let mut names = Vec::new(alloc);
    add_journals(&mut names, alloc, host, folder)?;
    names.sort_unstable();
    Ok(names)
}

// Appends a blank and the name of each of these journals, after what comes before it for its folder.
fn push_names(out: &mut String, prefix: &str, names: &[String]) -> Result<(), AllocError> {
    for name in names {
        out.push_str(" ")?;
        out.push_str(prefix)?;
        out.push_str(name.as_str())?;
    }
    Ok(())
}

// Appends that a journal is not there, and which others are.
fn push_others(
    out: &mut String,
    prefix: &str,
    names: &[String],
    hint: &str,
) -> Result<(), AllocError> {
    if names.is_empty() {
        return write!(out, "it is not there, and no other journal is{hint}");
    }
    write!(out, "it is not there{hint}. There are:")?;
    push_names(out, prefix, names)
}

/// Appends that the journal of this name is not there, which others are in its folder, and how one is begun.
pub(crate) fn push_missing<H: Files + AllocGlobal + Clone + Drop>(
    out: &mut String,
    host: &H,
    name: &str,
    can_begin: bool,
) -> Result<(), AllocError> {
    let hint = if can_begin { "; --new begins it" } else { "" };
    let (folder, prefix) = folder_of(name);
    let names = journals_in(*out.allocator(), host, folder)?;
    push_others(out, prefix, &names, hint)
}
