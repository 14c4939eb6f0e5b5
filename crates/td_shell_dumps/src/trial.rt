//! Statements that are tried at a site that is made for it.

use crate::tables::DumpStatement;
use std::alloc::{AllocError, Global};
use td_replica::{IssueError, Opens};
use td_semantics::{Meter, Outcome};
use td_site_messages::push_outcome;

/// The most statements that are named.
const MOST_NAMED: usize = 10;

/// What a site of the script makes of statements, one after the other.
#[derive(Drop)]
pub struct Trial {
    /// How many have no effect.
    pub refused: usize,
    /// A line for each of the first ten of them: the statement, its relvar, and why.
    pub lines: String,
}

// Appends a line about a statement without effect: its number from 1 on, its relvar, and why.
fn push_refused(
    out: &mut String,
    number: usize,
    insertion: &DumpStatement,
    outcome: Option<&Outcome>,
) -> Result<(), AllocError> {
    let relvar = match &insertion.relvar {
        Some(name) => name.as_str(),
        None => "all relvars",
    };
    write!(out, "statement {number}, of {relvar}, ")?;
    match outcome {
        Some(outcome) => push_outcome(out, outcome)?,
        None => out.push_str("is none that a site takes")?,
    }
    out.push_str("\n")
}

impl Trial {
    // Counts a statement of this number if it has no effect, and writes a line for each of the first ten.
    fn note(
        &mut self,
        number: usize,
        insertion: &DumpStatement,
        outcome: Option<&Outcome>,
    ) -> Result<(), AllocError> {
        if matches!(outcome, Some(Outcome::Done)) {
            return Ok(());
        }
        if self.refused < MOST_NAMED {
            push_refused(&mut self.lines, number, insertion, outcome)?;
        }
        self.refused = self.refused.saturating_add(1);
        Ok(())
    }
}

// Issues a statement of this number at the site, and notes what became of it.
fn try_one<O: Opens>(
    alloc: Global,
    site: &mut O,
    number: usize,
    insertion: &DumpStatement,
    trial: &mut Trial,
    meter: &mut Meter,
) -> Result<(), AllocError> {
    match site.issue(alloc, insertion.text.as_str(), meter) {
        Ok(issued) => trial.note(number, insertion, Some(&issued.outcome)),
        Err(IssueError::OutOfMemory) => Err(AllocError),
        Err(_) => trial.note(number, insertion, None),
    }
}

// Issues each statement at the site, and notes what became of it.
fn try_all<O: Opens>(
    alloc: Global,
    site: &mut O,
    insertions: &[DumpStatement],
    trial: &mut Trial,
    meter: &mut Meter,
) -> Result<(), AllocError> {
    for (at, insertion) in insertions.iter().enumerate() {
        let number = at.saturating_add(1);
        try_one(alloc, site, number, insertion, trial, meter)?;
    }
    Ok(())
}

/// Which of these statements a new site of the script refuses, if they are issued one after the other. It opens a site,
/// which costs what opening the script costs, and each of them.
pub fn refused_insertions<O: Opens + Drop>(
    alloc: Global,
    script: &str,
    limit: usize,
    insertions: &[DumpStatement],
    meter: &mut Meter,
) -> Result<Trial, AllocError> {
    let mut trial = Trial {
        refused: 0,
        lines: String::new(alloc),
    };
    let tried = match O::open_script(alloc, script, 1, limit) {
        Ok(mut site) => try_all(alloc, &mut site, insertions, &mut trial, meter),
        Err(_) => Err(AllocError),
    };
    match tried {
        Ok(()) => Ok(trial),
        Err(error) => Err(error),
    }
}
