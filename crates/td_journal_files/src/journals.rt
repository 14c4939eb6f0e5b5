//! Where journals stand in files.

ghost use Rattle.std.specs.Prelude.{None};

use crate::beside::Beside;
use crate::checking::Step;
use crate::companions::{make_new, name_beside, open_there, settle_folder, stands_under};
use crate::file::FileJournal;
use crate::notes::{Notes, Refusal};
use crate::renewal::FileRenewal;
use crate::salvage::Salvage;
use crate::seen::Seen;
use crate::sums::Sums;
use crate::synced::Synced;
use crate::{seen, sums};
use std::alloc::Global;
use std::fs;
use std::fs::{File, TryLockError};
use std::io::ErrorKind;
use std::rt::Files;
use td_io::{Device, Failed};
use td_journal::{Journals, StoreError};
use td_paths::plain_file;

/// Journals in files of the names that they stand under. A file that is not there is made, for its owner alone. It is
/// opened without being cut, and locked: another program that opens it is refused for as long as this one has it open.
/// What is cut off it is kept in a file of this name followed by `.cut`, and up to which length it is on the disk
/// stands in that followed by `.seen`. One that is made anew is written to the file of this name followed by `.new`,
/// which then takes the other one's place. With sums, those of its parts stand in the file of this name followed by
/// `.sums`: the journal is compared with them when it is opened, and what a power failure left of statements that were
/// never answered is cut off.
#[derive(Drop)]
pub struct FileJournals<'a, R> {
    files: &'a R,
    notes: &'a Notes,
    keeps_sums: bool,
}

impl<'a, R: Files<File = File>> FileJournals<'a, R> {
    /// The files of this system, which tell in the notes what they find.
    pub fn new(files: &'a R, notes: &'a Notes) -> Self {
        FileJournals {
            files,
            notes,
            keeps_sums: false,
        }
    }

    /// The same, which keep sums of what they write.
    pub fn with_sums(self) -> Self {
        FileJournals {
            keeps_sums: true,
            ..self
        }
    }

    // Opens a file that is there, or makes it, and tells whether it did. What is no file is not opened.
    fn open_or_make(&self, name: &str) -> Result<(File, bool), Refusal> {
        match make_new(self.files, name) {
            Ok(file) => return Ok((file, true)),
            Err(error) if error.kind() == ErrorKind::AlreadyExists => {}
            Err(error) => return Err(Refusal::of(error.kind())),
        }
        if let Err(error) = plain_file(self.files, name) {
            return Err(Refusal::NoFile(error));
        }
        match open_there(self.files, name) {
            Ok(file) => Ok((file, false)),
            Err(error) => Err(Refusal::of(error.kind())),
        }
    }

    // Opens a journal's file, takes its lock, which lasts for as long as it is open, and has its folder on the disk.
    fn open_locked(&self, name: &str) -> Result<(File, bool), Refusal> {
        let (file, is_new) = self.open_or_make(name)?;
        match file.try_lock() {
            Ok(()) => {}
            Err(TryLockError::WouldBlock) => return Err(Refusal::Locked),
            Err(TryLockError::Error(_)) => return Err(Refusal::Other),
        }
        if !stands_under(self.files, name, &file) {
            return Err(Refusal::Replaced);
        }
        match settle_folder(self.files, name) {
            Ok(()) => Ok((file, is_new)),
            Err(Failed) => Err(Refusal::Other),
        }
    }

    // Opens what is beside a journal; of a new one it is on the disk before the journal is written.
    fn open_beside(&self, alloc: Global, name: &str, is_new: bool) -> Result<Beside, StoreError> {
        let (Ok(of_seen), Ok(of_sums)) = (
            name_beside(alloc, name, seen::ENDING),
            name_beside(alloc, name, sums::ENDING),
        ) else {
            return Err(StoreError::OutOfMemory);
        };
        let Ok(seen) = Seen::open(self.files, of_seen.as_str()) else {
            return self.refuse(Refusal::Beside);
        };
        if !self.keeps_sums {
            return Ok(Beside { seen, sums: None });
        }
        let sums = Sums::open(self.files, of_sums.as_str()).ok();
        let is_begun = !is_new || seen.length().is_some() || seen.settle(0).is_ok();
        if is_begun && settle_folder(self.files, name).is_ok() {
            Ok(Beside { seen, sums })
        } else {
            self.refuse(Refusal::Beside)
        }
    }

    // Puts a journal of what is sound in the place of a damaged one.
    fn put_sound(
        &self,
        alloc: Global,
        name: &str,
        journal: FileJournal<'a, R>,
        sound: &Salvage,
    ) -> Result<FileJournal<'a, R>, StoreError> {
        let Ok(beside) = name_beside(alloc, name, ".new") else {
            return Err(StoreError::OutOfMemory);
        };
        let Ok(file) = self.make_beside(name, beside.as_str()) else {
            return self.refuse(Refusal::Unmade);
        };
        match journal.replace_by(beside.as_str(), file, sound) {
            Ok(journal) => Ok(journal),
            Err(refusal) => self.refuse(refusal),
        }
    }

    // Judges a journal by its sums before it is read.
    fn check(
        &self,
        alloc: Global,
        name: &str,
        mut journal: FileJournal<'a, R>,
    ) -> Result<FileJournal<'a, R>, StoreError> {
        match journal.check() {
            Ok(Step::Read) => Ok(journal),
            Ok(Step::Refuse(refusal)) => self.refuse(refusal),
            Ok(Step::Salvage(sound)) => self.put_sound(alloc, name, journal, &sound),
            Err(_) => Err(StoreError::OutOfMemory),
        }
    }

    // A journal that is refused for this.
    fn refuse<T>(&self, refusal: Refusal) -> Result<T, StoreError> {
        self.notes.refuse(refusal);
        Err(StoreError::JournalFile)
    }

    // Makes the file in which a journal is made anew, in place of one that an earlier program may have left. (Whoever
    // makes one has the journal's lock.) Nobody can do more with it than with the journal, which stands under no link.
    fn make_beside(&self, name: &str, beside: &str) -> Result<File, Failed> {
        let Ok(old) = fs::symlink_metadata(self.files, name) else {
            return Err(Failed);
        };
        if !old.is_file() {
            return Err(Failed);
        }
        match fs::remove_file(self.files, beside) {
            Ok(()) => {}
            Err(error) if error.kind() == ErrorKind::NotFound => {}
            Err(_) => return Err(Failed),
        }
        let Ok(file) = make_new(self.files, beside) else {
            return Err(Failed);
        };
        if file.try_lock().is_err() || file.set_permissions(old.permissions()).is_err() {
            return Err(Failed);
        }
        Ok(file)
    }
}

impl<'a, R: Files<File = File> + Drop> Journals for FileJournals<'a, R> {
    type Journal = FileJournal<'a, R>;

    type Writer = Device<Synced<'a, R>>;

    type Renewal = FileRenewal<'a, R>;

    ghost kept = { λ _ _. None };

    ghost fails = { λ _ _. Unit {0} };

    fn open(&self, alloc: Global, name: &str) -> Result<FileJournal<'a, R>, StoreError> {
        let (file, is_new) = match self.open_locked(name) {
            Ok(opened) => opened,
            Err(refusal) => return self.refuse(refusal),
        };
        let beside = self.open_beside(alloc, name, is_new)?;
        let journal = FileJournal::new(alloc, self.files, self.notes, name, file, is_new, beside)?;
        if self.keeps_sums {
            self.check(alloc, name, journal)
        } else {
            Ok(journal)
        }
    }

    fn cut(
        &self,
        journal: FileJournal<'a, R>,
        whole: u64,
    ) -> Result<Device<Synced<'a, R>>, Failed> {
        journal.cut(whole)
    }

    fn renew(
        &self,
        alloc: Global,
        name: &str,
        journal: &mut FileJournal<'a, R>,
        whole: u64,
    ) -> Result<FileRenewal<'a, R>, StoreError> {
        let (Ok(beside), Ok(own), Ok(under)) = (
            name_beside(alloc, name, ".new"),
            String::from_str(alloc, name),
            name_beside(alloc, name, ".new"),
        ) else {
            return Err(StoreError::OutOfMemory);
        };
        let Ok(file) = self.make_beside(name, beside.as_str()) else {
            return self.refuse(Refusal::Unmade);
        };
        let Ok(found) = journal.keep_rest(whole) else {
            return self.refuse(Refusal::Unkept);
        };
        let Ok(written) = file.try_clone() else {
            return Err(StoreError::JournalFile);
        };
        self.notes.find(found);
        let writer = Synced::new(self.files, self.notes, under, written, None, 0);
        let writer = Device::new(writer);
        Ok(FileRenewal::new(self.files, self.notes, beside, own, file, writer))
    }

    fn replace(
        &self,
        journal: FileJournal<'a, R>,
        renewal: FileRenewal<'a, R>,
    ) -> Result<Device<Synced<'a, R>>, Failed> {
        renewal.replace(journal)
    }
}
