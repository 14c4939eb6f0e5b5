//! A journal's file, to be read from its beginning.

ghost use Rattle.std.specs.Prelude.{[], None};

use crate::beside::Beside;
use crate::companions::{make_new, settle_folder};
use crate::found::{Cut, Found, Salvaged};
use crate::framing::{have_frame_behind, header_length, site_of};
use crate::judging::Checked;
use crate::notes::{Notes, Refusal};
use crate::synced::{Synced, WAITING_BYTES};
use std::alloc::{AllocError, Global};
use std::fs::File;
use std::io::{BufReader, ErrorKind, Seek, SeekFrom};
use std::os::unix::fs::FileExt;
use std::rt::Files;
use std::{fs, io};
use td_io::{Device, Failed, Sink, Source};
use td_journal::StoreError;

/// What the names of files end in that have what was cut off a journal.
pub(crate) const CUT: &str = ".cut";

/// What the names of files end in that have a journal as it was before it was salvaged.
pub(crate) const DAMAGED: &str = ".damaged";

/// The most of the files of one ending.
const MOST_COPIES: u32 = 9_999;

/// Room for so many bytes of a journal; as many have a damaged frame and a complete one behind it.
const WINDOW: usize = 16_420;

/// The bytes of a header in front of its script.
const HEADER_HEAD: usize = 11;

/// A journal's file that is open and locked. What it has is known to no contract.
#[derive(Drop)]
pub struct FileJournal<'a, R> {
    pub(crate) alloc: Global,
    pub(crate) files: &'a R,
    pub(crate) notes: &'a Notes,
    pub(crate) name: String,
    pub(crate) is_new: bool,
    pub(crate) file: File,
    reader: Device<BufReader<File>>,
    pub(crate) beside: Beside,
    pub(crate) checked: Checked,
    /// What was cut off before it is read.
    pub(crate) cut: Option<Cut>,
    pub(crate) salvaged: Option<Salvaged>,
    /// Room for the name of a file that has a copy, and for some of that.
    name_of_copy: String,
    pub(crate) window: Vec<u8>,
    /// Room for what is to be written, where sums are kept.
    waiting: Vec<u8>,
}

// Room for the longest name of a file that has a copy of a journal, or of what was cut off it.
fn room_for_name(alloc: Global, name: &str) -> Result<String, AllocError> {
    let length = name.len().saturating_add(DAMAGED.len()).saturating_add(5);
    String::with_capacity(alloc, length)
}

// Room for what is to be written: none where no sums are kept.
fn room_for_waiting(alloc: Global, beside: &Beside) -> Result<Vec<u8>, AllocError> {
    match beside.sums {
        Some(_) => Vec::with_capacity(alloc, WAITING_BYTES),
        None => Ok(Vec::new(alloc)),
    }
}

impl<'a, R: Files<File = File>> FileJournal<'a, R> {
    /// A file that is locked. It takes a buffer to read by, and all that cutting it takes.
    pub(crate) fn new(
        alloc: Global,
        files: &'a R,
        notes: &'a Notes,
        name: &str,
        file: File,
        is_new: bool,
        beside: Beside,
    ) -> Result<FileJournal<'a, R>, StoreError> {
        let Ok(read) = file.try_clone() else {
            return Err(StoreError::JournalFile);
        };
        let (Ok(reader), Ok(name_of_copy), Ok(name), Ok(window), Ok(waiting)) = (
            BufReader::new(alloc, read),
            room_for_name(alloc, name),
            String::from_str(alloc, name),
            vec![in alloc; 0; WINDOW],
            room_for_waiting(alloc, &beside),
        ) else {
            return Err(StoreError::OutOfMemory);
        };
        Ok(FileJournal {
            alloc,
            files,
            notes,
            name,
            is_new,
            file,
            reader: Device::new(reader),
            beside,
            checked: Checked::NotKept,
            cut: None,
            salvaged: None,
            name_of_copy,
            window,
            waiting,
        })
    }

    /// The same journal in a file that took its place.
    pub(crate) fn with_file(self, file: File) -> Result<Self, Refusal> {
        let Ok(read) = file.try_clone() else {
            return Err(Refusal::Other);
        };
        let Ok(reader) = BufReader::new(self.alloc, read) else {
            return Err(Refusal::Other);
        };
        Ok(FileJournal {
            file,
            reader: Device::new(reader),
            ..self
        })
    }

    // Has the name of the n-th file that has a copy of this ending.
    fn name_copy(&mut self, ending: &str, number: u32) -> Result<(), AllocError> {
        self.name_of_copy.clear();
        self.name_of_copy.push_str(&self.name)?;
        self.name_of_copy.push_str(ending)?;
        if number > 1 {
            write!(self.name_of_copy, ".{number}")?;
        }
        Ok(())
    }

    // Makes the first of these files that is not there.
    fn make_copy(&mut self, ending: &str) -> io::Result<(File, u32)> {
        for number in 1..MOST_COPIES {
            self.name_copy(ending, number)?;
            match make_new(self.files, self.name_of_copy.as_str()) {
                Ok(file) => return Ok((file, number)),
                Err(error) if error.kind() == ErrorKind::AlreadyExists => {}
                Err(error) => return Err(error),
            }
        }
        Err(io::Error::from(ErrorKind::AlreadyExists))
    }

    // Copies what the file has from a byte on, and hands the copy to the disk.
    fn copy_rest(&mut self, from: u64, copy: &mut File) -> io::Result<u64> {
        self.file.seek(SeekFrom::Start(from))?;
        let bytes = io::copy(&mut self.file, copy)?;
        copy.sync_all()?;
        Ok(bytes)
    }

    /// Keeps what stands from a byte on in a file of its own, of this ending. Returns how many bytes that are, and the
    /// file's number.
    pub(crate) fn keep_copy(&mut self, ending: &str, from: u64) -> Result<(u64, u32), Failed> {
        let Ok((mut copy, number)) = self.make_copy(ending) else {
            return Err(Failed);
        };
        let copied = self.copy_rest(from, &mut copy);
        let is_settled = settle_folder(self.files, self.name.as_str()).is_ok();
        match copied {
            Ok(bytes) if is_settled => Ok((bytes, number)),
            _ => {
                let _removed = fs::remove_file(self.files, self.name_of_copy.as_str());
                Err(Failed)
            }
        }
    }

    // Whether a whole frame stands behind the first byte of what is cut off.
    fn is_damaged(&mut self, whole: u64) -> bool {
        let Ok(count) = self.file.read_at(&mut self.window, whole) else {
            return false;
        };
        let bytes = self.window.get(..count).unwrap_or(b"".as_slice());
        have_frame_behind(bytes)
    }

    // Keeps what stands from a byte on in a file of its own.
    fn copy_cut(&mut self, whole: u64) -> Result<Cut, Failed> {
        let is_damage = self.is_damaged(whole);
        let (bytes, number) = self.keep_copy(CUT, whole)?;
        Ok(Cut {
            bytes,
            number,
            is_damage,
        })
    }

    /// Keeps what stands from a byte on in a file of its own, where there is anything, and tells what was found.
    pub(crate) fn keep_rest(&mut self, whole: u64) -> Result<Found, Failed> {
        let Ok(metadata) = self.file.metadata() else {
            return Err(Failed);
        };
        let cut = if metadata.len() > whole {
            Some(self.copy_cut(whole)?)
        } else {
            self.cut
        };
        Ok(Found {
            is_new: self.is_new,
            whole,
            seen: self.beside.seen.length(),
            cut,
            checked: self.checked,
            is_salvaging: self.notes.is_salvaging(),
            salvaged: self.salvaged,
        })
    }

    // Writes zeros over what stands from a byte on, and hands them to the disk: nothing of it comes back in the middle
    // of what is written there later, if the power fails.
    fn blank(&mut self, from: u64, length: u64) -> io::Result<()> {
        self.window.fill(0);
        let step = (self.window.len() as u64).max(1);
        let mut at = from;
        for _ in 0..length.saturating_sub(from).div_ceil(step) {
            let count = length.saturating_sub(at).min(step) as usize;
            let zeros = self.window.get(..count).unwrap_or(b"".as_slice());
            self.file.write_all_at(zeros, at)?;
            at = at.saturating_add(count as u64);
        }
        self.file.sync_data()
    }

    /// Leaves the file's front, handed to the disk, and writes go on behind it.
    pub(crate) fn leave(&mut self, whole: u64) -> io::Result<()> {
        let length = self.file.metadata()?.len();
        if length > whole {
            self.blank(whole, length)?;
            self.file.set_len(whole)?;
        }
        self.file.seek(SeekFrom::Start(whole))?;
        self.file.sync_data()
    }

    // Goes on beside the file with so many of its bytes, of which another length was noted. Returns the number of the
    // journal's site, if it has one.
    fn go_on_beside(&mut self, whole: u64, noted: Option<u64>) -> io::Result<Option<u16>> {
        let mut head = [0; HEADER_HEAD];
        let is_begun = self.file.read_exact_at(&mut head, 0).is_ok();
        let header = if is_begun { header_length(&head) } else { None };
        let header = header.unwrap_or(0) as u64;
        self.beside
            .go_on(&self.file, header, whole, noted, &mut self.window)?;
        Ok(if is_begun { site_of(&head) } else { None })
    }

    // The file as a writer, which goes on behind so many bytes.
    fn into_writer(self, whole: u64, site: Option<u16>) -> Synced<'a, R> {
        let FileJournal {
            alloc: _,
            files,
            notes,
            name,
            is_new: _,
            file,
            reader: _,
            beside,
            checked: _,
            cut: _,
            salvaged: _,
            name_of_copy: _,
            window: _,
            waiting,
        } = self;
        let keeps_sums = beside.sums.is_some();
        let writer = Synced::new(files, notes, name, file, Some(beside), whole);
        if keeps_sums {
            writer.with_sums(site, waiting)
        } else {
            writer
        }
    }

    /// The file with so many of its bytes, which are on the disk, written behind these.
    pub(crate) fn cut(mut self, whole: u64) -> Result<Device<Synced<'a, R>>, Failed> {
        let notes = self.notes;
        let found = match self.keep_rest(whole) {
            Ok(found) => found,
            Err(Failed) => {
                notes.refuse(Refusal::Unkept);
                return Err(Failed);
            }
        };
        if self.leave(whole).is_err() {
            notes.refuse(Refusal::Other);
            return Err(Failed);
        }
        let Ok(site) = self.go_on_beside(whole, found.seen) else {
            notes.refuse(Refusal::Other);
            return Err(Failed);
        };
        notes.find(found);
        Ok(Device::new(self.into_writer(whole, site)))
    }

    /// What is beside the file, and room for what is to be written where sums are kept.
    pub(crate) fn into_beside(self) -> (Beside, Vec<u8>, Vec<u8>) {
        let FileJournal {
            alloc: _,
            files: _,
            notes: _,
            name: _,
            is_new: _,
            file: _,
            reader: _,
            beside,
            checked: _,
            cut: _,
            salvaged: _,
            name_of_copy: _,
            window,
            waiting,
        } = self;
        (beside, window, waiting)
    }
}

impl<R: Files<File = File>> Source for FileJournal<'_, R> {
    ghost left = { λ _. None };

    ghost beside = { λ _. None };

    ghost failures = { λ j. j.reader.failures };

    ghost buffered = { λ _. [] };

    fn read_some(&mut self, buf: &mut [u8]) -> Result<usize, Failed> {
        self.reader.read_some(buf)
    }

    fn buffer(&self) -> &[u8] {
        &[]
    }
}
