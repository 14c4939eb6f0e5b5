//! What a meeting changed of what a site said before.

use crate::outcomes::{are_same, is_refused, push_stamped};
use crate::redone::{
    DoneHere, RedoneStatement, done_here, push_redone, redone_since, redone_statements,
};
use std::alloc::{AllocError, Global};
use td_changes::Changes;
use td_headings::Catalogue;
use td_replica::{Catalogued, TellError};
use td_semantics::Outcome;
use td_stamps::Stamp;

/// The most statements that are named.
pub(crate) const MOST_NAMED: usize = 10;

/// What a site says of its statements before a meeting.
#[derive(Drop)]
pub struct Snapshot {
    site: u16,
    outcomes: Vec<(Stamp, Outcome)>,
    done: Vec<DoneHere>,
}

/// What a site says otherwise after a meeting.
#[derive(Drop)]
pub struct MeetingChanges {
    /// For the end of the meeting's line.
    pub line_end: String,
    /// Lines after it.
    pub lines: String,
    /// The statements that were issued at the site and are done, and change something else now.
    pub redone: Vec<RedoneStatement>,
}

// What becomes of a statement with another outcome now.
#[derive(Clone, Copy, PartialEq, Eq)]
enum OutcomeChange {
    Refused,
    Done,
    OtherReason,
}

const OUTCOME_CHANGES: [OutcomeChange; 3] = [
    OutcomeChange::Refused,
    OutcomeChange::Done,
    OutcomeChange::OtherReason,
];

// A statement with another outcome now.
#[derive(Clone, Copy, Drop)]
struct ChangedOutcome<'a> {
    stamp: Stamp,
    change: OutcomeChange,
    outcome: &'a Outcome,
}

// What becomes of a statement whose outcomes before and after are known to differ.
fn change_of(before: &Outcome, after: &Outcome) -> OutcomeChange {
    match (is_refused(before), is_refused(after)) {
        (false, _) => OutcomeChange::Refused,
        (true, false) => OutcomeChange::Done,
        (true, true) => OutcomeChange::OtherReason,
    }
}

// What is said of statements with this change, after `is` or `are`.
fn words_of(change: OutcomeChange) -> &'static str {
    match change {
        OutcomeChange::Refused => "refused now",
        OutcomeChange::Done => "done now",
        OutcomeChange::OtherReason => "refused for another reason now",
    }
}

// The statements with another outcome now. Both lists are in the order of stamps.
fn changed_between<'a>(
    alloc: Global,
    before: &[(Stamp, Outcome)],
    after: &'a [(Stamp, Outcome)],
) -> Result<Vec<ChangedOutcome<'a>>, AllocError> {
    let mut found = Vec::new(alloc);
    let mut old = before.iter();
    let mut next = old.next();
    for (stamp, outcome) in after {
        if let Some((known, was)) = next
            && known == stamp
        {
            if !are_same(was, outcome) {
                found.push(ChangedOutcome {
                    stamp: *stamp,
                    change: change_of(was, outcome),
                    outcome,
                })?;
            }
            next = old.next();
        }
    }
    Ok(found)
}

// How many of the statements the site issued.
fn count_of(outcomes: &[(Stamp, Outcome)], site: u16) -> usize {
    outcomes
        .iter()
        .filter(|(stamp, _)| stamp.site == site)
        .count()
}

fn is_or_are(count: usize) -> &'static str {
    if count == 1 { "is" } else { "are" }
}

// How many of the statements that were issued at the site changed so.
fn count_of_change(all: &[ChangedOutcome<'_>], site: u16, change: OutcomeChange) -> usize {
    let mut count: usize = 0;
    for it in all {
        if it.stamp.site == site && it.change == change {
            count = count.saturating_add(1);
        }
    }
    count
}

// Appends the statements that were issued at the site and changed so, if there are any.
fn push_changed(
    out: &mut String,
    all: &[ChangedOutcome<'_>],
    site: u16,
    change: OutcomeChange,
) -> Result<(), AllocError> {
    let count = count_of_change(all, site, change);
    if count == 0 {
        return Ok(());
    }
    let are = is_or_are(count);
    let words = words_of(change);
    write!(out, "; of those issued here {count} {are} {words}: ")?;
    push_named(out, all, site, change)?;
    if count > MOST_NAMED {
        let more = count.saturating_sub(MOST_NAMED);
        write!(out, " and {more} more")?;
    }
    Ok(())
}

// Appends the first of them, with commas between.
fn push_named(
    out: &mut String,
    all: &[ChangedOutcome<'_>],
    site: u16,
    change: OutcomeChange,
) -> Result<(), AllocError> {
    let mut named: usize = 0;
    for it in all {
        if it.stamp.site == site && it.change == change && named < MOST_NAMED {
            if named > 0 {
                out.push_str(", ")?;
            }
            push_stamped(out, &it.stamp, it.outcome)?;
            named = named.saturating_add(1);
        }
    }
    Ok(())
}

// Appends how many statements of other sites have another outcome now, and the hint where they are listed; nothing if
// none has.
fn push_others(
    out: &mut String,
    all: &[ChangedOutcome<'_>],
    site: u16,
    hint: &str,
) -> Result<(), AllocError> {
    let count = all.iter().filter(|it| it.stamp.site != site).count();
    if count == 0 {
        return Ok(());
    }
    let are = is_or_are(count);
    write!(
        out,
        "; of those from elsewhere {count} {are} told otherwise now{hint}"
    )
}

// Appends the site's own statements with another outcome now, and how many others have one.
fn push_changed_outcomes(
    out: &mut String,
    all: &[ChangedOutcome<'_>],
    site: u16,
    hint: &str,
) -> Result<(), AllocError> {
    for change in OUTCOME_CHANGES {
        push_changed(out, all, site, change)?;
    }
    push_others(out, all, site, hint)
}

// Appends a warning that this number of the site's own statements came in, unless it is 0.
fn push_own(out: &mut String, count: usize) -> Result<(), AllocError> {
    if count == 0 {
        return Ok(());
    }
    let statements = if count == 1 {
        "statement"
    } else {
        "statements"
    };
    writeln!(
        out,
        "WARNING: {count} {statements} of this site came from the other one: its journal had lost them. What it issued since it was started may stand under their numbers, and differ from what other sites have: compare .digest with them"
    )
}

impl MeetingChanges {
    /// Nothing that a site says otherwise.
    pub fn none(alloc: Global) -> MeetingChanges {
        MeetingChanges {
            line_end: String::new(alloc),
            lines: String::new(alloc),
            redone: Vec::new(alloc),
        }
    }

    // Appends the outcomes that changed.
    fn push_outcomes(
        &mut self,
        before: &Snapshot,
        now: &Snapshot,
        hint: &str,
    ) -> Result<(), AllocError> {
        let alloc = *self.line_end.allocator();
        let all = changed_between(alloc, &before.outcomes, &now.outcomes)?;
        push_changed_outcomes(&mut self.line_end, &all, before.site, hint)
    }

    // Appends the statements that change something else now.
    fn push_redone(
        &mut self,
        catalogue: &Catalogue,
        before: &Snapshot,
        now: &Snapshot,
    ) -> Result<(), AllocError> {
        let alloc = *self.lines.allocator();
        let all = redone_since(alloc, &before.done, &now.done)?;
        self.redone = redone_statements(alloc, catalogue, &before.done, &all)?;
        push_redone(self, catalogue, &before.done, &now.done, &all)
    }

    // Appends the difference between two snapshots.
    fn push(
        &mut self,
        catalogue: &Catalogue,
        before: &Snapshot,
        now: &Snapshot,
        hint: &str,
    ) -> Result<(), AllocError> {
        self.push_outcomes(before, now, hint)?;
        self.push_redone(catalogue, before, now)?;
        let own = count_of(&now.outcomes, before.site);
        let came = own.saturating_sub(count_of(&before.outcomes, before.site));
        push_own(&mut self.lines, came)
    }
}

impl Snapshot {
    /// What the site says now. It holds a copy of what each statement that was issued there changed.
    pub fn of<R: Changes>(alloc: Global, site: &R) -> Result<Snapshot, TellError> {
        let outcomes = match site.outcomes(alloc) {
            Ok(outcomes) => outcomes,
            Err(error) => return Err(error),
        };
        match done_here(alloc, site, &outcomes) {
            Ok(done) => Ok(Snapshot {
                site: site.site(),
                outcomes,
                done,
            }),
            Err(_) => Err(TellError::OutOfMemory),
        }
    }

    // What is otherwise in another snapshot.
    fn changes_to(
        &self,
        alloc: Global,
        catalogue: &Catalogue,
        now: &Snapshot,
        hint: &str,
    ) -> Result<MeetingChanges, TellError> {
        let mut changes = MeetingChanges::none(alloc);
        match changes.push(catalogue, self, now, hint) {
            Ok(()) => Ok(changes),
            Err(_) => Err(TellError::OutOfMemory),
        }
    }

    /// What the site says otherwise now. The hint follows the count of other sites' statements with another outcome,
    /// where a program lists them. It costs two walks along what is held, and along what the statements that were
    /// issued there changed.
    pub fn compare<R: Changes + Catalogued>(
        &self,
        alloc: Global,
        site: &R,
        hint: &str,
    ) -> Result<MeetingChanges, TellError> {
        match Snapshot::of(alloc, site) {
            Ok(now) => self.changes_to(alloc, site.catalogue(), &now, hint),
            Err(error) => Err(error),
        }
    }
}
