//! What became of statements and queries, in plain words.

use std::alloc::AllocError;
use td_listings::{show_number, show_outcome, show_stamp};
use td_semantics::Outcome;
use td_stamps::{Entry, Stamp};
use td_terminals::push_statement;
use td_values::{Name, Raise};

/// What an error of evaluation means.
pub fn raise_meaning(raise: Raise) -> &'static str {
    match raise {
        Raise::Overflow => "overflow: a number is outside 64 bits",
        Raise::Divide => "divide: a division by zero",
        Raise::Empty => "empty: MAX or MIN of nothing",
        Raise::Selector => "selector: a value that the CONSTRAINT of its type refuses",
        Raise::Cardinality => "cardinality: TUPLE FROM of not exactly one tuple",
    }
}

/// Appends that an evaluation raised an error, and what that means.
pub fn push_raise(out: &mut String, raise: Raise) -> Result<(), AllocError> {
    out.push_str("raised ")?;
    out.push_str(raise_meaning(raise))
}

// Appends the words and the name of what a statement breaks.
fn push_named(out: &mut String, words: &str, name: &Name) -> Result<(), AllocError> {
    out.push_str(words)?;
    out.push_str(name.as_str())
}

/// Appends why a statement has no effect; nothing for one that has one.
pub fn push_reason(out: &mut String, outcome: &Outcome) -> Result<(), AllocError> {
    match outcome {
        Outcome::Done => Ok(()),
        Outcome::Unread => out.push_str("no statement of this script"),
        Outcome::Raised(raise) => push_raise(out, *raise),
        Outcome::BreaksKey(relvar) => push_named(out, "breaks key ", relvar),
        Outcome::BreaksConstraint(name) => push_named(out, "breaks constraint ", name),
    }
}

/// Whether a statement has no effect.
pub(crate) fn is_refused(outcome: &Outcome) -> bool {
    !matches!(outcome, Outcome::Done)
}

/// Whether two outcomes are equal.
pub(crate) fn are_same(one: &Outcome, other: &Outcome) -> bool {
    match (one, other) {
        (Outcome::Done, Outcome::Done) | (Outcome::Unread, Outcome::Unread) => true,
        (Outcome::Raised(one), Outcome::Raised(other)) => one == other,
        (Outcome::BreaksKey(one), Outcome::BreaksKey(other)) => one == other,
        (Outcome::BreaksConstraint(one), Outcome::BreaksConstraint(other)) => one == other,
        _ => false,
    }
}

/// Appends what became of a statement: that it is done, or that it is refused and why.
pub fn push_outcome(out: &mut String, outcome: &Outcome) -> Result<(), AllocError> {
    if !is_refused(outcome) {
        return out.push_str("done");
    }
    out.push_str("refused: ")?;
    push_reason(out, outcome)
}

/// Appends a statement's stamp, and why it has no effect.
pub(crate) fn push_stamped(
    out: &mut String,
    stamp: &Stamp,
    outcome: &Outcome,
) -> Result<(), AllocError> {
    show_stamp(out, stamp)?;
    if is_refused(outcome) {
        out.push_str(" ")?;
        push_reason(out, outcome)?;
    }
    Ok(())
}

// Appends a statement after a colon, in one line.
fn push_text(out: &mut String, text: &str) -> Result<(), AllocError> {
    out.push_str(": ")?;
    push_statement(out, text)?;
    out.push_str("\n")
}

/// Appends each of these statements that has no effect, with the reason and its text; if `of` names a site, those of
/// that site alone. The outcomes are those of the entries, in their order.
pub fn push_refused(
    out: &mut String,
    entries: &[Entry],
    outcomes: &[(Stamp, Outcome)],
    of: Option<u16>,
) -> Result<(), AllocError> {
    for (entry, (stamp, outcome)) in entries.iter().zip(outcomes) {
        let is_asked = match of {
            Some(site) => entry.site == site,
            None => true,
        };
        if is_asked && is_refused(outcome) {
            push_stamped(out, stamp, outcome)?;
            push_text(out, entry.text.as_str())?;
        }
    }
    Ok(())
}

/// Appends each of these statements with its stamp, its number at its site, what became of it, and its text. The
/// outcomes are those of the entries, in their order.
pub fn push_log(
    out: &mut String,
    entries: &[Entry],
    outcomes: &[(Stamp, Outcome)],
) -> Result<(), AllocError> {
    for (entry, (stamp, outcome)) in entries.iter().zip(outcomes) {
        show_stamp(out, stamp)?;
        out.push_str(" ")?;
        show_number(out, u64::from(entry.seq))?;
        out.push_str(" ")?;
        show_outcome(out, outcome)?;
        push_text(out, entry.text.as_str())?;
    }
    Ok(())
}
