//! A journal that is judged by its sums before it is read: cut, salvaged or refused.

use crate::companions::settle_folder;
use crate::file::{CUT, DAMAGED, FileJournal};
use crate::found::{Cut, Damage, Salvaged};
use crate::judging::{Checked, Judge, Verdict};
use crate::notes::Refusal;
use crate::salvage::{Salvage, sound_part};
use std::alloc::AllocError;
use std::fs;
use std::fs::File;
use std::io::{Seek, SeekFrom, Write};
use std::os::unix::fs::FileExt;
use std::rt::Files;
use td_io::Failed;

/// What is to be done with a journal that was judged.
#[derive(Drop)]
pub(crate) enum Step {
    /// It is read.
    Read,
    /// It is refused for this.
    Refuse(Refusal),
    /// It is made anew of what is sound.
    Salvage(Salvage),
}

impl<R: Files<File = File>> FileJournal<'_, R> {
    // How many bytes the file has.
    fn length(&self) -> Result<u64, Failed> {
        match self.file.metadata() {
            Ok(metadata) => Ok(metadata.len()),
            Err(_) => Err(Failed),
        }
    }

    // Judges the file by its sums.
    fn judge(&mut self, length: u64) -> Result<Verdict, AllocError> {
        let seen = self.beside.seen.length();
        let rest = self.beside.seen.rest();
        let Some(sums) = &mut self.beside.sums else {
            self.checked = Checked::Unusable;
            return Ok(Verdict::Sound);
        };
        let lines = sums.lines(self.alloc)?;
        let judge = Judge {
            alloc: self.alloc,
            file: &self.file,
            length,
            seen,
            rest,
        };
        let judged = judge.judge(&lines, self.window.as_mut_slice())?;
        sums.keep_lines(judged.lines, judged.end);
        self.checked = judged.checked;
        Ok(judged.verdict)
    }

    // What is sound of a file that was changed from a byte to another one.
    fn sound_of(
        &mut self,
        length: u64,
        changed: (u64, u64),
    ) -> Result<Option<Salvage>, AllocError> {
        let seen = self.beside.seen.length();
        let rest = self.beside.seen.rest();
        let Some(sums) = &self.beside.sums else {
            return Ok(None);
        };
        let lines = sums.lines(self.alloc)?;
        let mut bytes = Vec::from_elem(self.alloc, 0u8, length as usize)?;
        if self.file.read_exact_at(bytes.as_mut_slice(), 0).is_err() {
            return Ok(None);
        }
        let judge = Judge {
            alloc: self.alloc,
            file: &self.file,
            length,
            seen,
            rest,
        };
        let unsound = judge.unsound(&lines, self.window.as_mut_slice())?;
        sound_part(self.alloc, bytes.as_slice(), changed, unsound.as_slice())
    }

    // Keeps what stands from a byte on in a file of its own, and leaves what stands before it.
    fn cut_off(&mut self, from: u64, length: u64, is_damage: bool) -> Result<Step, Failed> {
        if from >= length {
            return Ok(Step::Read);
        }
        let Ok((bytes, number)) = self.keep_copy(CUT, from) else {
            return Ok(Step::Refuse(Refusal::Unkept));
        };
        if is_damage && self.beside.seen.settle(length).is_err() {
            return Err(Failed);
        }
        if self.leave(from).is_err() {
            return Err(Failed);
        }
        self.cut = Some(Cut {
            bytes,
            number,
            is_damage,
        });
        Ok(Step::Read)
    }

    // What is to be done with a file that was changed from a byte to another one.
    fn step_at_damage(&mut self, length: u64, changed: (u64, u64)) -> Result<Step, AllocError> {
        match self.sound_of(length, changed)? {
            Some(sound) if self.notes.is_salvaging() => Ok(Step::Salvage(sound)),
            Some(sound) => Ok(Step::Refuse(Refusal::Damaged(sound.damage))),
            None => Ok(Step::Refuse(Refusal::Damaged(Damage {
                from: changed.0,
                end: changed.1,
                statements: 0,
                first: None,
                last: None,
            }))),
        }
    }

    // Does with the file what it was judged to need; the reader then begins at its first byte.
    fn act(&mut self, length: u64, verdict: Verdict) -> Result<Step, AllocError> {
        let step = match verdict {
            Verdict::Sound => Ok(Step::Read),
            Verdict::Unanswered(from) => self.cut_off(from, length, false),
            Verdict::Lost(from) => self.cut_off(from, length, true),
            Verdict::Unreadable => Err(Failed),
            Verdict::Damaged { from, end } => return self.step_at_damage(length, (from, end)),
        };
        Ok(match step {
            Ok(step) if self.file.seek(SeekFrom::Start(0)).is_ok() => step,
            _ => Step::Refuse(Refusal::Other),
        })
    }

    /// Judges the file by its sums, and cuts off what was never answered, or cannot be read and may have been: then the
    /// site lacks statements.
    pub(crate) fn check(&mut self) -> Result<Step, AllocError> {
        let Ok(length) = self.length() else {
            return Ok(Step::Refuse(Refusal::Other));
        };
        let verdict = self.judge(length)?;
        self.act(length, verdict)
    }

    // Writes a journal that is made anew, and hands it to the disk.
    fn write_anew(&self, mut file: File, bytes: &[u8]) -> Result<File, Failed> {
        let is_written = file.write_all(bytes).is_ok()
            && file.sync_all().is_ok()
            && file.seek(SeekFrom::Start(0)).is_ok();
        if is_written { Ok(file) } else { Err(Failed) }
    }

    /// Puts a journal of what is sound in the place of the damaged one, of which a copy is kept. It was made under the
    /// name beside it. The length of the damaged one stays noted, so that its site lacks statements.
    pub(crate) fn replace_by(
        mut self,
        beside: &str,
        file: File,
        sound: &Salvage,
    ) -> Result<Self, Refusal> {
        let Ok(file) = self.write_anew(file, sound.bytes.as_slice()) else {
            let _removed = fs::remove_file(self.files, beside);
            return Err(Refusal::Unmade);
        };
        let Ok((length, number)) = self.keep_copy(DAMAGED, 0) else {
            let _removed = fs::remove_file(self.files, beside);
            return Err(Refusal::Unkept);
        };
        let noted = self.beside.seen.length().unwrap_or(0).max(length);
        if self.beside.seen.settle(noted).is_err()
            || fs::rename(self.files, beside, self.name.as_str()).is_err()
            || settle_folder(self.files, self.name.as_str()).is_err()
        {
            return Err(Refusal::Other);
        }
        if let Some(sums) = &mut self.beside.sums {
            sums.keep_lines(0, 0);
            if sums.drop_rest().is_err() {
                return Err(Refusal::Other);
            }
        }
        self.salvaged = Some(Salvaged {
            damage: sound.damage,
            kept: sound.kept,
            number,
        });
        self.with_file(file)
    }
}
