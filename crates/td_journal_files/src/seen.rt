//! Up to which length a journal was handed to the disk.

use crate::companions::{make_new, open_there};
use crate::parts::{DIGITS, LINE, Part, digits_of, line_behind, number_in, part_behind};
use std::fs::File;
use std::io::{Error, ErrorKind};
use std::os::unix::fs::FileExt;
use std::rt::Files;
use std::{fs, io};

/// What the name of the file ends in.
pub(crate) const ENDING: &str = ".seen";

/// The bytes of the first line, which has a length.
const FIRST_LINE: usize = DIGITS + 1;

/// The bytes of both lines.
const BOTH_LINES: usize = FIRST_LINE + LINE;

// The line of a length, with as many digits as any length has.
fn first_line(length: u64) -> [u8; FIRST_LINE] {
    let mut line = [b'\n'; FIRST_LINE];
    line[..DIGITS].copy_from_slice(&digits_of(length));
    line
}

// The lines of a length and of the last part.
fn both_lines(length: u64, part: &Part) -> [u8; BOTH_LINES] {
    let first = first_line(length);
    let mut lines = [b'\n'; BOTH_LINES];
    lines[..FIRST_LINE].copy_from_slice(&first);
    lines[FIRST_LINE..].copy_from_slice(&line_behind(first.as_slice(), part));
    lines
}

/// The length that the bytes of such a file begin with, if they do.
pub(crate) fn length_in(bytes: &[u8]) -> Option<u64> {
    match bytes.get(DIGITS) {
        Some(b'\n') => number_in(bytes.get(..DIGITS)?),
        _ => None,
    }
}

/// The file beside a journal that has a length up to which the journal was handed to the disk: it may have more than
/// that, and if it has less, then bytes are gone. A second line, which counts only with the first one that it was written
/// with, has the sum of the last part that is on the disk.
#[derive(Drop)]
pub(crate) struct Seen {
    file: File,
    /// A shorter length is not noted.
    least: u64,
}

impl Seen {
    /// Opens the file of this name, and makes it where none is there. A link is not followed.
    pub(crate) fn open<R: Files<File = File>>(files: &R, name: &str) -> io::Result<Seen> {
        match fs::symlink_metadata(files, name) {
            Ok(it) if it.is_file() => Ok(Seen {
                file: open_there(files, name)?,
                least: 0,
            }),
            Ok(_) => Err(Error::from(ErrorKind::AlreadyExists)),
            Err(error) if error.kind() == ErrorKind::NotFound => Ok(Seen {
                file: make_new(files, name)?,
                least: 0,
            }),
            Err(error) => Err(error),
        }
    }

    /// The length that it has, if it has one.
    pub(crate) fn length(&self) -> Option<u64> {
        let mut line = [0; FIRST_LINE];
        self.file.read_exact_at(&mut line, 0).ok()?;
        length_in(&line)
    }

    /// Has what was noted on the disk.
    pub(crate) fn sync(&self) -> io::Result<()> {
        self.file.sync_data()
    }

    /// The part that is noted behind those that have lines of their own, if one is: at its end the journal ended.
    pub(crate) fn rest(&self) -> Option<Part> {
        let mut lines = [0; BOTH_LINES];
        self.file.read_exact_at(&mut lines, 0).ok()?;
        let (first, line) = lines.as_slice().split_at(FIRST_LINE);
        part_behind(first, line)
    }

    /// Has this length on the disk, as that up to which a journal was.
    pub(crate) fn settle(&self, length: u64) -> io::Result<()> {
        self.write(length)?;
        self.file.sync_all()
    }

    /// Goes on with a journal of which a length was noted before. Where it had more then, that is what stays noted until
    /// it has as much again: so it is found again at the next start that bytes are gone.
    pub(crate) fn go_on(&mut self, noted: Option<u64>) {
        self.least = noted.unwrap_or(0);
    }

    /// Whether a journal of this length has less than was noted.
    pub(crate) fn is_behind(&self, length: u64) -> bool {
        length < self.least
    }

    /// Notes a length, also one that is less than what was noted where that is let go, and the part that ends there. It
    /// takes no memory, is not handed to the disk, and a failure is passed over: a length that is less than the
    /// journal's serves too.
    pub(crate) fn note(&self, length: u64, rest: Option<Part>, is_let_go: bool) {
        let noted = if is_let_go {
            length
        } else {
            length.max(self.least)
        };
        let _written = match rest {
            Some(part) => self.write_both(noted, &part),
            None if noted == length => self.write(length),
            None => Ok(()),
        };
    }

    // Writes a length over the one that stands there.
    fn write(&self, length: u64) -> io::Result<()> {
        self.file.write_all_at(&first_line(length), 0)
    }

    // Writes a length and a part over those that stand there.
    fn write_both(&self, length: u64, part: &Part) -> io::Result<()> {
        self.file.write_all_at(&both_lines(length, part), 0)
    }
}
