//! What is sound of a journal that was damaged.

use crate::found::Damage;
use crate::framing::{Frame, StatementAt, frame_of, header_of};
use std::alloc::{AllocError, Global};
use td_frames::Version;

/// What is kept and what is left out of a damaged journal.
#[derive(Drop)]
pub(crate) struct Salvage {
    /// The journal's bytes without those that are left out.
    pub bytes: Vec<u8>,
    /// How many statements that has.
    pub kept: u64,
    pub damage: Damage,
}

/// A journal's bytes and what is known of them.
#[derive(Clone, Copy)]
struct Damaged<'a> {
    bytes: &'a [u8],
    version: Version,
    /// From where to where bytes have another sum than they had.
    unsound: &'a [(u64, u64)],
}

impl Damaged<'_> {
    fn frame(&self, at: usize) -> Option<Frame> {
        frame_of(self.bytes.get(at..)?, self.version)
    }

    // Whether bytes have another sum than they had.
    fn is_unsound(&self, at: usize, end: usize) -> bool {
        for (from, to) in self.unsound {
            if (at as u64) < *to && *from < end as u64 {
                return true;
            }
        }
        false
    }

    // Whether complete frames stand from a byte on, up to the end or to bytes that have another sum than they had.
    fn is_run(&self, begin: usize) -> bool {
        let mut at = begin;
        for _ in 0..self.bytes.len() {
            if at >= self.bytes.len() || (at > begin && self.is_unsound(begin, at)) {
                break;
            }
            match self.frame(at) {
                Some(frame) => at = at.saturating_add(frame.length),
                None => return false,
            }
        }
        at > begin
    }

    // The first byte behind this one from which complete frames stand, or the end.
    fn next_run(&self, at: usize) -> usize {
        for begin in at.saturating_add(1)..self.bytes.len() {
            if self.bytes.get(begin) == Some(&b'E') && self.is_run(begin) {
                return begin;
            }
        }
        self.bytes.len()
    }
}

impl Salvage {
    // Leaves out a statement that can be read.
    fn leave_out(&mut self, statement: StatementAt) {
        self.damage.statements = self.damage.statements.saturating_add(1);
        if self.damage.first.is_none() {
            self.damage.first = Some(statement);
        }
        self.damage.last = Some(statement);
    }

    // Keeps the frame at a byte, or leaves it out. Returns where the next one is looked for.
    fn add(&mut self, journal: &Damaged<'_>, at: usize) -> Result<usize, AllocError> {
        let Some(frame) = journal.frame(at) else {
            return Ok(journal.next_run(at));
        };
        let end = at.saturating_add(frame.length);
        if journal.is_unsound(at, end) {
            self.leave_out(frame.statement);
        } else {
            self.kept = self.kept.saturating_add(1);
            let bytes = journal.bytes.get(at..end).unwrap_or(b"".as_slice());
            self.bytes.extend_from_slice(bytes)?;
        }
        Ok(end)
    }
}

/// What is kept of a journal that was changed from a byte to another one, and in which these bytes have another sum than
/// they had; none where its header is not complete.
pub(crate) fn sound_part(
    alloc: Global,
    bytes: &[u8],
    (from, end): (u64, u64),
    unsound: &[(u64, u64)],
) -> Result<Option<Salvage>, AllocError> {
    let Some((header, version)) = header_of(bytes) else {
        return Ok(None);
    };
    let journal = Damaged {
        bytes,
        version,
        unsound,
    };
    let mut salvage = Salvage {
        bytes: Vec::with_capacity(alloc, bytes.len())?,
        kept: 0,
        damage: Damage {
            from,
            end,
            statements: 0,
            first: None,
            last: None,
        },
    };
    salvage
        .bytes
        .extend_from_slice(bytes.get(..header).unwrap_or(bytes))?;
    let mut at = header;
    for _ in 0..bytes.len() {
        if at >= bytes.len() {
            break;
        }
        at = salvage.add(&journal, at)?;
    }
    Ok(Some(salvage))
}
