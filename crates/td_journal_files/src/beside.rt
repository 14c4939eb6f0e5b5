//! What is known of a journal beside it: the length that was handed to the disk, and sums.

use crate::notes::SyncFailure;
use crate::seen::Seen;
use crate::sums::Sums;
use std::fs::File;
use std::io;

/// The files beside a journal.
#[derive(Drop)]
pub(crate) struct Beside {
    pub seen: Seen,
    pub sums: Option<Sums>,
}

impl Beside {
    /// Whether a journal of this length has less than was noted.
    pub(crate) fn is_behind(&self, length: u64) -> bool {
        self.seen.is_behind(length)
    }

    /// Goes on with a journal of this length, whose header has so many bytes, and of which another length was noted.
    pub(crate) fn go_on(
        &mut self,
        journal: &File,
        header: u64,
        length: u64,
        noted: Option<u64>,
        room: &mut [u8],
    ) -> io::Result<()> {
        if let Some(sums) = &mut self.sums {
            sums.go_on(journal, header, length, room)?;
        }
        self.seen.go_on(noted);
        self.note(length, false);
        if self.is_behind(length) {
            // (else what is written next could not be told from what is gone)
            self.seen.sync()?;
        }
        Ok(())
    }

    /// Has the sum of bytes on the disk that are to be written from this byte on.
    pub(crate) fn announce(&self, from: u64, bytes: &[u8]) -> Result<(), SyncFailure> {
        let Some(sums) = &self.sums else {
            return Ok(());
        };
        match sums.announce(from, bytes) {
            Ok(()) => Ok(()),
            Err(error) => Err(SyncFailure::of(error.kind())),
        }
    }

    /// Notes bytes that were written, with which the journal has this length: those of its header end a part.
    pub(crate) fn add(&mut self, bytes: &[u8], length: u64, is_let_go: bool) {
        if let Some(sums) = &mut self.sums {
            sums.add(bytes);
            if length == bytes.len() as u64 {
                sums.end_part();
            }
        }
        self.note(length, is_let_go);
    }

    // Notes a length, and the sum of what is behind the last part that has a line.
    fn note(&self, length: u64, is_let_go: bool) {
        let rest = match &self.sums {
            Some(sums) => sums.rest(),
            None => None,
        };
        self.seen.note(length, rest, is_let_go);
    }
}
