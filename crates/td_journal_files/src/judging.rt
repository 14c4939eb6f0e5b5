//! Whether a journal is as it was written, judged before it is read.
//!
//! What was synced is there after a power failure. Of what was not, the file may have any of its bytes, zeros in their
//! place, or bytes that it had there before.

use crate::framing::{frames_end, have_frame_behind, header_of, is_blank};
use crate::parts::{Part, fits};
use crate::sums::{Lines, fitting};
use std::alloc::{AllocError, Global};
use std::fs::File;
use std::os::unix::fs::FileExt;
use td_frames::Version;

/// In so many bytes a complete frame is looked for behind one that is not.
const SEARCHED: u64 = 1_048_576;

/// What a journal is.
#[derive(Clone, Copy, Debug, PartialEq, Eq)]
pub(crate) enum Verdict {
    /// It is as it was written, as far as is known.
    Sound,
    /// What begins at this byte was never answered.
    Unanswered(u64),
    /// What begins at this byte may have been answered.
    Lost(u64),
    /// From a byte to another one it was changed.
    Damaged { from: u64, end: u64 },
    /// It is not read.
    Unreadable,
}

/// How much of a journal was compared with its sums.
#[derive(Clone, Copy, Debug, PartialEq, Eq)]
pub enum Checked {
    /// No sums are kept.
    NotKept,
    /// The file of the sums cannot be used.
    Unusable,
    /// The bytes up to this one; the others had no sums.
    UpTo(u64),
    /// All of it, up to what a program wrote last.
    Everything,
}

/// A journal that is judged.
#[derive(Clone, Copy)]
pub(crate) struct Judge<'a> {
    pub alloc: Global,
    pub file: &'a File,
    /// How many bytes it has.
    pub length: u64,
    /// The length that was noted beside it, and the last part that was on the disk then.
    pub seen: Option<u64>,
    pub rest: Option<Part>,
}

/// What is known of a journal that is judged.
#[derive(Clone, Copy)]
pub(crate) struct Judged {
    pub verdict: Verdict,
    pub checked: Checked,
    /// How many lines have sums of what is there, and the byte at which these parts end.
    pub lines: u64,
    pub end: u64,
}

impl Judge<'_> {
    // The bytes from a byte to another one, if they are read.
    fn bytes(&self, from: u64, end: u64) -> Result<Option<Vec<u8>>, AllocError> {
        let count = end.saturating_sub(from) as usize;
        let mut bytes = Vec::from_elem(self.alloc, 0u8, count)?;
        match self.file.read_exact_at(bytes.as_mut_slice(), from) {
            Ok(()) => Ok(Some(bytes)),
            Err(_) => Ok(None),
        }
    }

    // Whether a complete frame stands from a byte on.
    fn has_frame(&self, from: u64) -> Result<bool, AllocError> {
        let end = self.length.min(from.saturating_add(SEARCHED));
        // (one is looked for behind the first byte)
        match self.bytes(from.saturating_sub(1), end)? {
            Some(bytes) => Ok(have_frame_behind(bytes.as_slice())),
            None => Ok(false),
        }
    }

    // The last part that was on the disk, if the journal has as much.
    fn rest_there(&self) -> Option<Part> {
        let part = self.rest?;
        if part.end() <= self.length {
            Some(part)
        } else {
            None
        }
    }

    // Up to which byte it was on the disk, if that is known. It was noted to have more where bytes of it are gone.
    fn synced(&self) -> Option<u64> {
        match self.rest_there() {
            Some(part) => Some(part.end()),
            None => self.seen,
        }
    }

    // What a journal is whose frames are complete up to this byte, where no complete one stands.
    fn judge_tail(&self, complete: u64) -> Result<Verdict, AllocError> {
        match self.synced() {
            Some(synced) if complete < synced => Ok(Verdict::Damaged {
                from: complete,
                end: self.length,
            }),
            Some(_) if !self.has_frame(complete.saturating_add(1))? => {
                Ok(Verdict::Unanswered(complete))
            }
            _ => Ok(Verdict::Lost(complete)),
        }
    }

    // What a journal is by its frames, from a byte on where one begins.
    fn judge_frames(&self, from: u64) -> Result<Verdict, AllocError> {
        let Some(bytes) = self.bytes(from, self.length)? else {
            return Ok(Verdict::Unreadable);
        };
        let complete = frames_end(bytes.as_slice(), 0, Version::Second);
        if complete >= bytes.len() {
            return Ok(Verdict::Sound);
        }
        self.judge_tail(from.saturating_add(complete as u64))
    }

    // What a journal is by its header and its frames. Of one with another header than journals have its reader says so.
    fn judge_all(&self) -> Result<Verdict, AllocError> {
        let Some(bytes) = self.bytes(0, self.length)? else {
            return Ok(Verdict::Unreadable);
        };
        let bytes = bytes.as_slice();
        if !bytes.is_empty() && is_blank(bytes) && self.synced().unwrap_or(0) == 0 {
            return Ok(Verdict::Unanswered(0));
        }
        let Some((begin, version)) = header_of(bytes) else {
            return Ok(Verdict::Sound);
        };
        let complete = frames_end(bytes, begin, version);
        if complete >= bytes.len() {
            return Ok(Verdict::Sound);
        }
        self.judge_tail(complete as u64)
    }

    // What a journal is where the bytes of its last line have another sum: they are those of a meeting, which were
    // never answered, or they were changed.
    fn judge_last(&self, part: &Part) -> Result<Verdict, AllocError> {
        if self.synced().unwrap_or(0) <= part.from && !self.has_frame(part.end())? {
            return Ok(Verdict::Unanswered(part.from));
        }
        Ok(Verdict::Damaged {
            from: part.from,
            end: part.end().min(self.length),
        })
    }

    // How much of a journal was compared whose parts up to a byte have their sums, and nothing else.
    fn checked_up_to(&self, end: u64) -> Checked {
        let covered = self.synced().unwrap_or(self.length).min(self.length);
        if end < covered {
            Checked::UpTo(end)
        } else {
            Checked::Everything
        }
    }

    // What a journal is whose parts up to a byte have their sums.
    fn judge_rest(&self, end: u64, room: &mut [u8]) -> Result<(Verdict, Checked), AllocError> {
        let part = match self.rest_there() {
            Some(part) if end > 0 && part.end() > 0 => part,
            _ => return Ok((self.judge_all()?, self.checked_up_to(end))),
        };
        if !fits(self.file, &part, room) {
            let damaged = Verdict::Damaged {
                from: part.from,
                end: part.end(),
            };
            return Ok((damaged, Checked::Everything));
        }
        let checked = if part.from <= end {
            Checked::Everything
        } else {
            Checked::UpTo(end)
        };
        Ok((self.judge_frames(part.end())?, checked))
    }

    // What a journal is where a part has another sum than its line, as the last part with a line or before others; none
    // where that says nothing of it, since the lines are those of another journal or it is shorter than they say.
    fn judge_part(&self, part: &Part, is_last: bool) -> Result<Option<Verdict>, AllocError> {
        let is_short = part.end() > self.length && self.synced().unwrap_or(0) > part.from;
        if is_short {
            return Ok(None);
        }
        if is_last {
            let verdict = self.judge_last(part)?;
            return Ok(match verdict {
                Verdict::Damaged { .. } if part.from == 0 => None,
                _ => Some(verdict),
            });
        }
        if part.from == 0 {
            return Ok(None);
        }
        Ok(Some(Verdict::Damaged {
            from: part.from,
            end: part.end().min(self.length),
        }))
    }

    /// What the journal is, by the lines beside it and its frames.
    pub(crate) fn judge(&self, lines: &Lines, room: &mut [u8]) -> Result<Judged, AllocError> {
        let (count, end) = fitting(self.file, lines.parts.as_slice(), room);
        let is_last = count.saturating_add(1) == lines.parts.len();
        let verdict = match lines.parts.get(count) {
            Some(part) if !fits(self.file, part, room) => self.judge_part(part, is_last)?,
            _ => None,
        };
        let (verdict, checked) = match verdict {
            Some(verdict) => (verdict, Checked::Everything),
            None => self.judge_rest(end, room)?,
        };
        Ok(Judged {
            verdict,
            checked,
            lines: count as u64,
            end,
        })
    }

    // Adds from where to where a part stands, if it has another sum than it had.
    fn add_unsound(
        &self,
        unsound: &mut Vec<(u64, u64)>,
        part: &Part,
        room: &mut [u8],
    ) -> Result<(), AllocError> {
        if part.from > 0 && part.from < self.length && !fits(self.file, part, room) {
            unsound.push((part.from, part.end().min(self.length)))?;
        }
        Ok(())
    }

    /// From where to where bytes have another sum than they had.
    pub(crate) fn unsound(
        &self,
        lines: &Lines,
        room: &mut [u8],
    ) -> Result<Vec<(u64, u64)>, AllocError> {
        let mut unsound = Vec::new(self.alloc);
        for part in lines.parts.iter() {
            self.add_unsound(&mut unsound, part, room)?;
        }
        if let Some(part) = self.rest_there() {
            self.add_unsound(&mut unsound, &part, room)?;
        }
        Ok(unsound)
    }
}
