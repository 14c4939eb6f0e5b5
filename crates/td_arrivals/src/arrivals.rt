//! When the entries of a site came.

use crate::lines::{Arrival, append_lines, arrivals_in, push_line};
use std::alloc::{AllocError, Global};
use std::rt::Files;
use std::time::{Clock, SystemTime};
use td_paths::Unreadable;
use td_stamps::{Entry, Stamp};
use thiserror::Error;

/// Why arrivals are not noted. After `Unwritten` they are noted in memory.
#[derive(Clone, Copy, Debug, Drop, PartialEq, Eq, Error)]
pub enum NoteError {
    #[error("out of memory")]
    OutOfMemory,
    #[error("the file of arrivals cannot be written")]
    Unwritten,
}

impl From<AllocError> for NoteError {
    fn from(_: AllocError) -> NoteError {
        NoteError::OutOfMemory
    }
}

/// When the entries of a site came, as far as that is known.
#[derive(Drop)]
pub struct Arrivals {
    alloc: Global,
    name: Option<String>,
    /// In the order of stamps.
    known: Vec<Arrival>,
    /// The last write failed, which was returned.
    is_failing: bool,
}

/// The time in seconds since 1970; none if the clock does not say it.
pub fn seconds_now<H: Clock>(host: &H) -> Option<u64> {
    let Ok(now) = SystemTime::now(host) else {
        return None;
    };
    match now.duration_since(SystemTime::UNIX_EPOCH) {
        Ok(duration) => Some(duration.as_secs()),
        Err(_) => None,
    }
}

// The arrival of a stamp among these, which are in the order of stamps.
fn find<'a>(known: &'a [Arrival], stamp: &Stamp) -> Option<&'a Arrival> {
    match known.binary_search_by(|arrival| arrival.stamp.cmp(stamp)) {
        Ok(index) => known.get(index),
        Err(_) => None,
    }
}

impl Arrivals {
    /// Those that the file of this name has, if there is one. A file that is there and cannot be read is an error.
    pub fn open<H: Files + AllocGlobal>(
        alloc: Global,
        host: &H,
        name: Option<String>,
    ) -> Result<Arrivals, Unreadable> {
        let known = match &name {
            Some(name) => arrivals_in(alloc, host, name.as_str())?,
            None => Vec::new(alloc),
        };
        Ok(Arrivals {
            alloc,
            name,
            known,
            is_failing: false,
        })
    }

    /// When the entry of this stamp came, in seconds since 1970; none if that is not known.
    pub fn came(&self, stamp: &Stamp) -> Option<u64> {
        find(&self.known, stamp)?.came
    }

    // Whether these entries are the known ones.
    fn is_all(&self, entries: &[Entry]) -> bool {
        match (entries.last(), self.known.last()) {
            (Some(entry), Some(arrival)) => {
                entries.len() == self.known.len() && entry.stamp() == arrival.stamp
            }
            (None, None) => true,
            _ => false,
        }
    }

    // The arrivals of these entries: that of an entry which is not known is at this time.
    fn arrivals_of(&self, entries: &[Entry], now: Option<u64>) -> Result<Vec<Arrival>, AllocError> {
        let mut arrivals = Vec::with_capacity(self.alloc, entries.len())?;
        for entry in entries {
            let stamp = entry.stamp();
            let came = match find(&self.known, &stamp) {
                Some(arrival) => arrival.came,
                None => now,
            };
            arrivals.push(Arrival { stamp, came })?;
        }
        Ok(arrivals)
    }

    /// Takes note of what a site holds when it starts: of an entry that the file does not have no time is known.
    pub fn begin(&mut self, entries: &[Entry]) -> Result<(), AllocError> {
        self.known = self.arrivals_of(entries, None)?;
        Ok(())
    }

    // The lines of those of these entries that are not known.
    fn lines_of(&self, entries: &[Entry], came: u64) -> Result<String, AllocError> {
        let mut lines = String::new(self.alloc);
        for entry in entries {
            let stamp = entry.stamp();
            if find(&self.known, &stamp).is_none() {
                push_line(&mut lines, &stamp, came)?;
            }
        }
        Ok(lines)
    }

    // Appends the lines to the file, if there is one. Of failures in a row the first one is returned.
    fn write<H: Files>(&mut self, host: &H, lines: &str) -> Result<(), NoteError> {
        let Some(name) = &self.name else {
            return Ok(());
        };
        let was_failing = self.is_failing;
        self.is_failing = append_lines(host, name.as_str(), lines).is_err();
        if self.is_failing && !was_failing {
            return Err(NoteError::Unwritten);
        }
        Ok(())
    }

    // Takes note of an entry after all known ones.
    fn add_last<H: Files>(
        &mut self,
        host: &H,
        stamp: Stamp,
        now: Option<u64>,
    ) -> Result<(), NoteError> {
        if self.known.push(Arrival { stamp, came: now }).is_err() {
            return Err(NoteError::OutOfMemory);
        }
        let Some(came) = now else {
            return Ok(());
        };
        let mut line = String::new(self.alloc);
        push_line(&mut line, &stamp, came)?;
        self.write(host, line.as_str())
    }

    // Takes note of entries of which any may be new.
    fn add_all<H: Files>(
        &mut self,
        host: &H,
        entries: &[Entry],
        now: Option<u64>,
    ) -> Result<(), NoteError> {
        let arrivals = self.arrivals_of(entries, now)?;
        let Some(came) = now else {
            self.known = arrivals;
            return Ok(());
        };
        let lines = self.lines_of(entries, came)?;
        self.known = arrivals;
        self.write(host, lines.as_str())
    }

    /// Takes note of what a site holds now: each entry that is not known came at this time.
    pub fn note<H: Files + Clock>(&mut self, host: &H, entries: &[Entry]) -> Result<(), NoteError> {
        if self.is_all(entries) {
            return Ok(());
        }
        let now = seconds_now(host);
        if let Some((last, before)) = entries.split_last()
            && self.is_all(before)
        {
            return self.add_last(host, last.stamp(), now);
        }
        self.add_all(host, entries, now)
    }
}
