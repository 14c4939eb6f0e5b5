//! Statements that were done, and do something else after a meeting: a conditional one by its other list, or one whose
//! values come from what another statement changes now.

use crate::changes::{Change, are_same, copies_of, push_copies};
use crate::meeting::{MOST_NAMED, MeetingChanges};
use crate::outcomes::is_refused;
use std::alloc::{AllocError, Global};
use td_changes::Changes;
use td_headings::Catalogue;
use td_listings::show_stamp;
use td_semantics::Outcome;
use td_stamps::Stamp;

/// A statement that was issued at the site and is done, and what it changed.
#[derive(Drop)]
pub(crate) struct DoneHere {
    stamp: Stamp,
    changes: Vec<Change>,
}

/// A statement that changes something else now, by its places among those that were done before and that are done now.
#[derive(Clone, Copy)]
pub(crate) struct Redone {
    before: usize,
    now: usize,
}

/// A statement that was issued at the site and is done, and changes something else now.
#[derive(Drop)]
pub struct RedoneStatement {
    pub stamp: Stamp,
    /// What it changed before, in one line.
    pub was: String,
}

/// The statements that were issued at the site and are done, in the order of stamps.
pub(crate) fn done_here<R: Changes>(
    alloc: Global,
    site: &R,
    outcomes: &[(Stamp, Outcome)],
) -> Result<Vec<DoneHere>, AllocError> {
    let number = site.site();
    let mut done = Vec::new(alloc);
    for (stamp, outcome) in outcomes {
        if stamp.site == number
            && !is_refused(outcome)
            && let Ok(changes) = site.changed_by(*stamp)
        {
            done.push(DoneHere {
                stamp: *stamp,
                changes: copies_of(alloc, changes)?,
            })?;
        }
    }
    Ok(done)
}

/// Those that were done before and are done now, and change something else.
pub(crate) fn redone_since(
    alloc: Global,
    before: &[DoneHere],
    now: &[DoneHere],
) -> Result<Vec<Redone>, AllocError> {
    let mut found = Vec::new(alloc);
    for (place, it) in now.iter().enumerate() {
        if let Ok(was) = before.binary_search_by(|old| old.stamp.cmp(&it.stamp))
            && let Some(old) = before.get(was)
            && !are_same(&old.changes, &it.changes)
        {
            found.push(Redone {
                before: was,
                now: place,
            })?;
        }
    }
    Ok(found)
}

// What a statement changed, in one line.
fn words_of(
    alloc: Global,
    catalogue: &Catalogue,
    changes: &[Change],
) -> Result<String, AllocError> {
    let mut words = String::new(alloc);
    push_copies(&mut words, catalogue, changes)?;
    Ok(words)
}

/// Each of them, with what it changed before.
pub(crate) fn redone_statements(
    alloc: Global,
    catalogue: &Catalogue,
    before: &[DoneHere],
    all: &[Redone],
) -> Result<Vec<RedoneStatement>, AllocError> {
    let mut statements = Vec::new(alloc);
    for it in all {
        if let Some(done) = before.get(it.before) {
            let was = words_of(alloc, catalogue, &done.changes)?;
            statements.push(RedoneStatement {
                stamp: done.stamp,
                was,
            })?;
        }
    }
    Ok(statements)
}

// Appends the line that says what the statement changed, at this time.
fn push_line(
    out: &mut String,
    catalogue: &Catalogue,
    done: Option<&DoneHere>,
    time: &str,
) -> Result<(), AllocError> {
    if let Some(it) = done {
        show_stamp(out, &it.stamp)?;
        out.push_str(time)?;
        push_copies(out, catalogue, &it.changes)?;
        out.push_str("\n")?;
    }
    Ok(())
}

// Appends the stamps of the first of them, with commas between, and what these changed before and change now.
fn push_first(
    out: &mut MeetingChanges,
    catalogue: &Catalogue,
    before: &[DoneHere],
    now: &[DoneHere],
    all: &[Redone],
) -> Result<(), AllocError> {
    for (place, it) in all.iter().take(MOST_NAMED).enumerate() {
        out.line_end.push_str(if place > 0 { ", " } else { " " })?;
        if let Some(done) = now.get(it.now) {
            show_stamp(&mut out.line_end, &done.stamp)?;
        }
        push_line(
            &mut out.lines,
            catalogue,
            before.get(it.before),
            " before: ",
        )?;
        push_line(&mut out.lines, catalogue, now.get(it.now), " now: ")?;
    }
    Ok(())
}

/// Appends which of them there are, if there are any.
pub(crate) fn push_redone(
    out: &mut MeetingChanges,
    catalogue: &Catalogue,
    before: &[DoneHere],
    now: &[DoneHere],
    all: &[Redone],
) -> Result<(), AllocError> {
    let count = all.len();
    if count == 0 {
        return Ok(());
    }
    let change = if count == 1 { "changes" } else { "change" };
    write!(
        out.line_end,
        "; of those issued here {count} {change} something else now:"
    )?;
    push_first(out, catalogue, before, now, all)?;
    if count > MOST_NAMED {
        let more = count.saturating_sub(MOST_NAMED);
        write!(out.line_end, " and {more} more")?;
    }
    Ok(())
}
