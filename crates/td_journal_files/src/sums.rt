//! The file beside a journal that has the sums of its parts.

use crate::companions::{make_new, open_there};
use crate::parts::{LINE, Part, fits, line_behind, part_behind};
use sha2::{Digest, Sha256};
use std::alloc::{AllocError, Global};
use std::fs::File;
use std::io::{Error, ErrorKind};
use std::os::unix::fs::FileExt;
use std::rt::Files;
use std::{fs, io};

/// What the name of the file ends in.
pub(crate) const ENDING: &str = ".sums";

/// A part with so many bytes gets a line. As much is left out where one byte of it was changed.
const PART_BYTES: u64 = 4_096;

/// The file beside a journal that has a line for each of its parts, one after the other, and maybe one for the
/// statements that a meeting brought last. The sum of what is behind the last part is made as it is written.
#[derive(Drop)]
pub(crate) struct Sums {
    file: File,
    /// How many parts have a line.
    lines: u64,
    /// The byte at which the last of them ends.
    end: u64,
    /// The sum of what is behind that.
    hasher: Sha256,
    /// How many bytes that is.
    open: u64,
}

/// The lines of the file.
#[derive(Drop)]
pub(crate) struct Lines {
    /// Each begins where the one before it ends; only the last one may begin behind that.
    pub parts: Vec<Part>,
}

impl Lines {
    // Adds the part of a line, if it may stand there. Returns whether others may follow it.
    fn add(&mut self, part: Part) -> Result<bool, AllocError> {
        let end = match self.parts.last() {
            Some(last) => last.end(),
            None => 0,
        };
        if part.from < end {
            return Ok(false);
        }
        self.parts.push(part)?;
        Ok(part.from == end)
    }
}

impl Sums {
    /// Opens the file of this name, and makes it where none is there. A link is not followed.
    pub(crate) fn open<R: Files<File = File>>(files: &R, name: &str) -> io::Result<Sums> {
        let file = match fs::symlink_metadata(files, name) {
            Ok(it) if it.is_file() => open_there(files, name)?,
            Ok(_) => return Err(Error::from(ErrorKind::AlreadyExists)),
            Err(error) if error.kind() == ErrorKind::NotFound => make_new(files, name)?,
            Err(error) => return Err(error),
        };
        Ok(Sums {
            file,
            lines: 0,
            end: 0,
            hasher: Sha256::new(),
            open: 0,
        })
    }

    // What the file has; nothing of one that is not read.
    fn bytes(&self, alloc: Global) -> Result<Vec<u8>, AllocError> {
        let length = match self.file.metadata() {
            Ok(metadata) => metadata.len(),
            Err(_) => 0,
        };
        let mut bytes = Vec::from_elem(alloc, 0u8, length as usize)?;
        if self.file.read_exact_at(bytes.as_mut_slice(), 0).is_err() {
            bytes.clear();
        }
        Ok(bytes)
    }

    /// The lines that it has, up to the first that is none.
    pub(crate) fn lines(&self, alloc: Global) -> Result<Lines, AllocError> {
        let bytes = self.bytes(alloc)?;
        let mut lines = Lines {
            parts: Vec::new(alloc),
        };
        for line in bytes.chunks_exact(LINE) {
            let Some(part) = part_behind(b"".as_slice(), line) else {
                break;
            };
            if !lines.add(part)? {
                break;
            }
        }
        Ok(lines)
    }

    /// Notes that so many of the first lines are those of parts of the journal, which end at this byte.
    pub(crate) fn keep_lines(&mut self, lines: u64, end: u64) {
        self.lines = lines;
        self.end = end;
    }

    // The byte at which the next line begins.
    fn place(&self) -> u64 {
        self.lines.saturating_mul(LINE as u64)
    }

    /// What is behind the last part that has a line.
    pub(crate) fn rest(&self) -> Option<Part> {
        let hasher = self.hasher.clone().ok()?;
        Some(Part {
            from: self.end,
            length: self.open,
            sum: hasher.finalize(),
        })
    }

    /// Ends a part, which gets a line. Where that cannot be written the part goes on.
    pub(crate) fn end_part(&mut self) {
        let Some(part) = self.rest() else {
            return;
        };
        let is_ended = part.length > 0
            && self
                .file
                .write_all_at(&line_behind(b"".as_slice(), &part), self.place())
                .is_ok();
        if is_ended {
            self.lines = self.lines.saturating_add(1);
            self.end = part.end();
            self.open = 0;
            self.hasher = Sha256::new();
        }
    }

    /// Adds bytes that were written behind those before.
    pub(crate) fn add(&mut self, bytes: &[u8]) {
        for some in bytes.chunks(PART_BYTES as usize) {
            self.hasher.update(some);
            self.open = self.open.saturating_add(some.len() as u64);
            if self.open >= PART_BYTES {
                self.end_part();
            }
        }
    }

    /// Has a line for bytes on the disk that are to be written to the journal from this byte on.
    pub(crate) fn announce(&self, from: u64, bytes: &[u8]) -> io::Result<()> {
        let part = Part {
            from,
            length: bytes.len() as u64,
            sum: Sha256::digest(bytes),
        };
        self.file
            .write_all_at(&line_behind(b"".as_slice(), &part), self.place())?;
        self.file.sync_data()
    }

    /// Drops the lines that it has behind those that are kept.
    pub(crate) fn drop_rest(&self) -> io::Result<()> {
        let place = self.place();
        if self.file.metadata()?.len() > place {
            self.file.set_len(place)?;
            self.file.sync_data()?;
        }
        Ok(())
    }

    // Adds so many bytes of the journal, which are read by room for some of them.
    fn add_from(&mut self, journal: &File, length: u64, room: &mut [u8]) -> io::Result<()> {
        let step = (room.len() as u64).min(PART_BYTES).max(1);
        let mut at = self.end.saturating_add(self.open);
        let end = at.saturating_add(length);
        for _ in 0..length.div_ceil(step) {
            let count = end.saturating_sub(at).min(step) as usize;
            let Some(some) = room.get_mut(..count) else {
                return Err(Error::from(ErrorKind::Other));
            };
            journal.read_exact_at(some, at)?;
            self.add(some);
            at = at.saturating_add(count as u64);
        }
        Ok(())
    }

    /// Goes on with a journal of this length, whose header has so many bytes: parts that have no line yet get one.
    pub(crate) fn go_on(
        &mut self,
        journal: &File,
        header: u64,
        length: u64,
        room: &mut [u8],
    ) -> io::Result<()> {
        if length < self.end {
            self.keep_lines(0, 0);
        }
        self.drop_rest()?;
        self.hasher = Sha256::new();
        self.open = 0;
        if self.end == 0 && header > 0 && header <= length {
            self.add_from(journal, header, room)?;
            self.end_part();
        }
        let length = length.saturating_sub(self.end.saturating_add(self.open));
        self.add_from(journal, length, room)
    }
}

/// How many of the first parts have their sums, and the byte at which these end.
pub(crate) fn fitting(journal: &File, parts: &[Part], room: &mut [u8]) -> (usize, u64) {
    let mut count: usize = 0;
    let mut end: u64 = 0;
    for part in parts {
        if part.from != end || !fits(journal, part, room) {
            break;
        }
        count = count.saturating_add(1);
        end = part.end();
    }
    (count, end)
}
