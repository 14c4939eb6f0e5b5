//! A journal's file that is to take the place of another one.

ghost use Rattle.std.specs.Prelude.{None};

use crate::companions::settle_folder;
use crate::file::FileJournal;
use crate::framing::{header_length, site_of};
use crate::notes::Notes;
use crate::synced::Synced;
use std::fs;
use std::fs::File;
use std::os::unix::fs::FileExt;
use std::rt::Files;
use td_io::{Device, Failed, Sink};

/// The bytes of a header in front of its script.
const HEADER_HEAD: usize = 11;

/// A file beside a journal's, open and locked, with nothing in it at first. What is written to it is known to no
/// contract.
#[derive(Drop)]
pub struct FileRenewal<'a, R> {
    files: &'a R,
    notes: &'a Notes,
    beside: String,
    name: String,
    file: File,
    writer: Device<Synced<'a, R>>,
}

impl<'a, R: Files<File = File>> FileRenewal<'a, R> {
    /// A file that is empty and locked, which was made under the name beside that of a journal.
    pub(crate) fn new(
        files: &'a R,
        notes: &'a Notes,
        beside: String,
        name: String,
        file: File,
        writer: Device<Synced<'a, R>>,
    ) -> FileRenewal<'a, R> {
        FileRenewal {
            files,
            notes,
            beside,
            name,
            file,
            writer,
        }
    }

    // Puts the file in the journal's place, handed to the disk, and gives its length.
    fn rename(&self) -> Result<u64, Failed> {
        let Ok(metadata) = self.file.metadata() else {
            return Err(Failed);
        };
        if fs::rename(self.files, self.beside.as_str(), self.name.as_str()).is_err() {
            return Err(Failed);
        }
        settle_folder(self.files, self.name.as_str())?;
        Ok(metadata.len())
    }

    /// The file in the journal's place, whose lock goes only now that the new file, which is locked, stands there: what
    /// is written goes on behind what was written.
    pub(crate) fn replace(
        self,
        journal: FileJournal<'a, R>,
    ) -> Result<Device<Synced<'a, R>>, Failed> {
        let length = self.rename()?;
        // (it has all that the other one had)
        let noted = match self.notes.found() {
            Some(found) if found.is_short() => found.seen,
            _ => None,
        };
        let (mut beside, mut window, waiting) = journal.into_beside();
        let FileRenewal {
            files,
            notes,
            beside: _,
            name,
            file,
            writer: _,
        } = self;
        let mut head = [0; HEADER_HEAD];
        if file.read_exact_at(&mut head, 0).is_err() {
            return Err(Failed);
        }
        if let Some(sums) = &mut beside.sums {
            sums.keep_lines(0, 0);
        }
        let header = header_length(&head).unwrap_or(0) as u64;
        if beside
            .go_on(&file, header, length, noted, &mut window)
            .is_err()
        {
            return Err(Failed);
        }
        let keeps_sums = beside.sums.is_some();
        let writer = Synced::new(files, notes, name, file, Some(beside), length);
        if keeps_sums {
            Ok(Device::new(writer.with_sums(site_of(&head), waiting)))
        } else {
            Ok(Device::new(writer))
        }
    }
}

impl<R: Files> Sink for FileRenewal<'_, R> {
    ghost held = { λ _. None };

    ghost aside = { λ _. None };

    ghost faults = { λ r. r.writer.failures };

    ghost is_flushed = { λ r. r.writer.is_flushed };

    fn write_some(&mut self, bytes: &[u8]) -> Result<usize, Failed> {
        self.writer.write_some(bytes)
    }

    fn flush(&mut self) -> Result<(), Failed> {
        self.writer.flush()
    }
}
