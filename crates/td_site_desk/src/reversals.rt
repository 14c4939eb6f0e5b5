//! Statements of this site that came to something else later: they were done here and are refused now, or change
//! something else.

use crate::words::{is_same, read_stamp};
use std::alloc::{AllocError, Global};
use std::rt::Files;
use td_listings::show_stamp;
use td_paths::{Unreadable, read_plain, replace_file};
use td_replica::Replica;
use td_semantics::Outcome;
use td_site_messages::RedoneStatement;
use td_stamps::Stamp;

/// The statements of this site that were done and are refused now, and those that change something else now, until a
/// person has seen that; and those that are done. The first two are kept in a file beside the journal, a line for each:
/// its stamp, and after ` was ` what it changed before where it changes something else.
#[derive(Drop)]
pub struct Reversals {
    alloc: Global,
    name: Option<String>,
    done: Vec<Stamp>,
    marks: Marks,
}

/// The statements that a person has not seen yet, each list in the order of stamps.
#[derive(Drop)]
struct Marks {
    reversed: Vec<Stamp>,
    redone: Vec<RedoneStatement>,
}

// The statements of the site that are done, and those that were done and are refused now.
#[derive(Drop)]
struct Reviewed {
    done: Vec<Stamp>,
    reversed: Vec<Stamp>,
}

// Whether a statement of the site is among these of the site, which are in order.
fn has(stamps: &[Stamp], stamp: &Stamp) -> bool {
    stamps
        .binary_search_by(|it| it.clock.cmp(&stamp.clock))
        .is_ok()
}

impl Marks {
    fn new(alloc: Global) -> Marks {
        Marks {
            reversed: Vec::new(alloc),
            redone: Vec::new(alloc),
        }
    }

    // Adds a statement that was done and is refused now.
    fn add_reversed(&mut self, text: &str) -> Result<(), Unreadable> {
        let Some(stamp) = read_stamp(text) else {
            return Err(Unreadable::Failed);
        };
        match self.reversed.push(stamp) {
            Ok(()) => Ok(()),
            Err(_) => Err(Unreadable::OutOfMemory),
        }
    }

    // Adds a statement that changed this before.
    fn add_redone(&mut self, text: &str, was: &str) -> Result<(), Unreadable> {
        let Some(stamp) = read_stamp(text) else {
            return Err(Unreadable::Failed);
        };
        let Ok(was) = String::from_str(*self.redone.allocator(), was) else {
            return Err(Unreadable::OutOfMemory);
        };
        match self.redone.push(RedoneStatement { stamp, was }) {
            Ok(()) => Ok(()),
            Err(_) => Err(Unreadable::OutOfMemory),
        }
    }

    // Adds the statement of a line.
    fn add_line(&mut self, line: &str) -> Result<(), Unreadable> {
        match line.split_once(" was ") {
            Some((stamp, was)) => self.add_redone(stamp, was),
            None => self.add_reversed(line),
        }
    }
}

// The statements of a text, one on each line, or why they are none.
fn marks_of(alloc: Global, text: &str) -> Result<Marks, Unreadable> {
    let mut marks = Marks::new(alloc);
    for line in text.lines() {
        marks.add_line(line)?;
    }
    marks.reversed.sort_unstable_by_key(|stamp| stamp.clock);
    marks.redone.sort_unstable_by_key(|it| it.stamp.clock);
    Ok(marks)
}

// The statements of a file: none if there is no file.
fn marks_in<H: Files + AllocGlobal>(
    alloc: Global,
    host: &H,
    name: &str,
) -> Result<Marks, Unreadable> {
    let bytes = match read_plain(host, name) {
        Ok(bytes) => bytes,
        Err(Unreadable::Missing) => return Ok(Marks::new(alloc)),
        Err(error) => return Err(error),
    };
    match String::from_utf8(bytes) {
        Ok(text) => marks_of(alloc, text.as_str()),
        Err(_) => Err(Unreadable::Failed),
    }
}

impl Reversals {
    /// Those that the file of this name has, if there is one. A file that is there and cannot be read is an error, since
    /// it would be written over.
    pub fn open<H: Files + AllocGlobal>(
        alloc: Global,
        host: &H,
        name: Option<String>,
    ) -> Result<Reversals, Unreadable> {
        let marks = match &name {
            Some(name) => marks_in(alloc, host, name.as_str())?,
            None => Marks::new(alloc),
        };
        Ok(Reversals {
            alloc,
            name,
            done: Vec::new(alloc),
            marks,
        })
    }

    /// Those that were done and are refused now, in the order of stamps.
    pub(crate) fn reversed(&self) -> &[Stamp] {
        &self.marks.reversed
    }

    /// Those that change something else now, in the order of stamps.
    pub(crate) fn redone(&self) -> &[RedoneStatement] {
        &self.marks.redone
    }

    /// Whether a statement of the site was done and is refused now.
    pub(crate) fn contains(&self, stamp: &Stamp) -> bool {
        has(&self.marks.reversed, stamp)
    }

    /// Notes a statement that is done: the last one of the site.
    pub(crate) fn add_done(&mut self, stamp: Stamp) -> Result<(), AllocError> {
        self.done.push(stamp)?;
        Ok(())
    }

    // What is done now, and what was done and is refused now.
    fn review(
        &self,
        own: u16,
        outcomes: &[(Stamp, Outcome)],
        reviewed: &mut Reviewed,
    ) -> Result<(), AllocError> {
        for (stamp, outcome) in outcomes {
            if stamp.site != own {
                continue;
            }
            if matches!(outcome, Outcome::Done) {
                reviewed.done.push(*stamp)?;
            } else if has(&self.done, stamp) || has(&self.marks.reversed, stamp) {
                reviewed.reversed.push(*stamp)?;
            }
        }
        Ok(())
    }

    // Replaces what was known of the statements; returns how many were done before and are refused now.
    fn renew(&mut self, reviewed: Reviewed) -> usize {
        let Reviewed { done, reversed } = reviewed;
        let more = reversed
            .iter()
            .filter(|stamp| !has(&self.marks.reversed, stamp))
            .count();
        self.marks.redone.retain(|it| !has(&reversed, &it.stamp));
        self.done = done;
        self.marks.reversed = reversed;
        more
    }

    // Whether a statement is among those that change something else now.
    fn is_redone(&self, stamp: &Stamp) -> bool {
        self.marks.redone.iter().any(|it| is_same(&it.stamp, stamp))
    }

    /// Notes statements that change something else now; returns how many were not known. Of one that is known what it
    /// changed first is kept, since a person has not seen what it changed since.
    pub(crate) fn add_redone(
        &mut self,
        statements: Vec<RedoneStatement>,
    ) -> Result<usize, AllocError> {
        let mut more: usize = 0;
        for statement in statements {
            if !self.is_redone(&statement.stamp) {
                self.marks.redone.push(statement)?;
                more = more.saturating_add(1);
            }
        }
        self.marks.redone.sort_unstable_by_key(|it| it.stamp.clock);
        Ok(more)
    }

    /// Looks at all statements of the site anew; returns how many were done before and are refused now.
    pub(crate) fn update<R: Replica>(&mut self, site: &R) -> Result<usize, AllocError> {
        let Ok(outcomes) = site.outcomes(self.alloc) else {
            return Ok(0);
        };
        let mut reviewed = Reviewed {
            done: Vec::new(self.alloc),
            reversed: Vec::new(self.alloc),
        };
        match self.review(site.site(), &outcomes, &mut reviewed) {
            Ok(()) => Ok(self.renew(reviewed)),
            Err(error) => Err(error),
        }
    }

    /// Lets go of a statement that a person has seen; returns whether it was there.
    pub(crate) fn remove(&mut self, stamp: &Stamp) -> bool {
        let before = self
            .marks
            .reversed
            .len()
            .saturating_add(self.marks.redone.len());
        self.marks.reversed.retain(|it| !is_same(it, stamp));
        self.marks.redone.retain(|it| !is_same(&it.stamp, stamp));
        let now = self
            .marks
            .reversed
            .len()
            .saturating_add(self.marks.redone.len());
        now < before
    }

    // Appends a line for each statement that a person has not seen.
    fn push_text(&self, text: &mut String) -> Result<(), AllocError> {
        for stamp in &self.marks.reversed {
            show_stamp(text, stamp)?;
            text.push_str("\n")?;
        }
        for it in &self.marks.redone {
            show_stamp(text, &it.stamp)?;
            writeln!(text, " was {}", it.was.as_str())?;
        }
        Ok(())
    }

    // The text of the file.
    fn text(&self) -> Result<String, AllocError> {
        let mut text = String::new(self.alloc);
        match self.push_text(&mut text) {
            Ok(()) => Ok(text),
            Err(error) => Err(error),
        }
    }

    /// Replaces the file; returns whether that was done. Without a file there is nothing to do.
    pub(crate) fn save<H: Files>(&self, host: &H) -> Result<bool, AllocError> {
        let Some(name) = &self.name else {
            return Ok(true);
        };
        let name = name.as_str();
        let beside = format!(in self.alloc; "{name}.new")?;
        let text = self.text()?;
        Ok(replace_file(host, name, beside.as_str(), text.as_str()).is_ok())
    }
}
