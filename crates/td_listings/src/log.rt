//! The log of a site.

ghost use Rattle.std.specs.Prelude.{◌≡◌, ◌++◌, map, Ok, Err, OnOk, IfOk, MatchResult, string_bytes};
ghost use Rattle.td_listings.specs.Calls.{Logs};
ghost use Rattle.td_listings.specs.Texts as spec;

use crate::error::ListError;
use crate::words::{show_number, show_outcome, show_stamp};
use std::alloc::{AllocError, Global};
use td_replica::{Replica, TellError};
use td_semantics::Outcome;
use td_stamps::{Entry, Stamp};

// The character as a line shows it: a space for a control character of ASCII.
fn showing(c: char) -> char
    ensures { result ≡ spec.showing c }
{
    if c < ' ' || c == '\u{7f}' { ' ' } else { c }
}

// Appends the text so that it stays on one line, a space for each control character of ASCII.
fn show_on_one_line(out: &mut String, text: &str) -> Result<(), AllocError>
    ensures { OnOk result (string_bytes out.new ≡ string_bytes out.old ++ map spec.showing text.now) }
{
    for c in text.chars() {
        out.push(showing(c))?;
    }
    Ok(())
}

// Appends the stamp of the entry, and its number among those of its site.
fn show_entry(out: &mut String, entry: &Entry) -> Result<(), AllocError>
    ensures { OnOk result (string_bytes out.new ≡ string_bytes out.old ++ spec.entry_words entry.now) }
{
    show_stamp(out, &entry.stamp())?;
    out.push_str(" ")?;
    show_number(out, u64::from(entry.seq))
}

// Appends the line of an entry: its stamp and number, what became of it, and its text.
fn show_line(out: &mut String, entry: &Entry, outcome: &Outcome) -> Result<(), AllocError>
    ensures { OnOk result (string_bytes out.new ≡ string_bytes out.old ++ spec.log_line entry.now outcome.now) }
{
    show_entry(out, entry)?;
    out.push_str(" ")?;
    show_outcome(out, outcome)?;
    out.push_str(": ")?;
    show_on_one_line(out, entry.text.as_str())?;
    out.push_str("\n")
}

// Appends a line for each entry with the outcome at the same place, up to the end of the shorter list.
fn show_lines(
    out: &mut String,
    entries: &[Entry],
    outcomes: &[(Stamp, Outcome)],
) -> Result<(), AllocError>
    ensures { OnOk result (string_bytes out.new ≡ string_bytes out.old ++ spec.log_of entries.now outcomes.now) }
{
    let mut at = 0;
    while at < entries.len() && at < outcomes.len() {
        let (_, outcome) = &outcomes[at];
        show_line(out, &entries[at], outcome)?;
        at += 1;
    }
    Ok(())
}

// The log of these entries and their outcomes, which stand at the same places.
fn log_lines(
    alloc: Global,
    entries: &[Entry],
    outcomes: &[(Stamp, Outcome)],
) -> Result<String, AllocError>
    ensures { IfOk result (λ text. string_bytes text ≡ spec.log_of entries.now outcomes.now) }
{
    let mut out = String::new(alloc);
    show_lines(&mut out, entries, outcomes)?;
    Ok(out)
}

/// The log of a site: a line for each entry that it holds, in stamp order. It costs what `outcomes` does, and is linear
/// in what it tells.
pub fn log_text<R: Replica>(alloc: Global, replica: &R) -> Result<String, ListError>
    ensures { MatchResult result (λ text. Logs (R.seen replica.now) (Ok (string_bytes text))) (λ e. Logs (R.seen replica.now) (Err e)) }
{
    let held = match replica.held() {
        Ok(held) => held,
        Err(_) => return Err(ListError::Broken),
    };
    let outcomes = match replica.outcomes(alloc) {
        Ok(outcomes) => outcomes,
        Err(TellError::Broken) => return Err(ListError::Broken),
        Err(TellError::OutOfMemory) => return Err(ListError::OutOfMemory),
    };
    match log_lines(alloc, held.entries(), outcomes.as_slice()) {
        Ok(text) => Ok(text),
        Err(_) => Err(ListError::OutOfMemory),
    }
}
