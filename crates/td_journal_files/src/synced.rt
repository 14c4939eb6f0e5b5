//! A file whose flushes reach the disk.

use crate::beside::Beside;
use crate::companions::stands_under;
use crate::framing::{frames_end, header_length, is_one_of, site_of};
use crate::notes::{Notes, SyncFailure};
use std::fs::File;
use std::io;
use std::io::{Error, ErrorKind, Write};
use std::rt::Files;
use td_frames::Version;

/// The most bytes that wait for a flush, so that their sum is on the disk before they are.
pub(crate) const WAITING_BYTES: usize = 1_048_576;

/// A journal's file with what is beside it, and the disk below.
#[derive(Drop)]
struct Disk<'a, R> {
    files: &'a R,
    notes: &'a Notes,
    name: String,
    file: File,
    beside: Option<Beside>,
    length: u64,
    /// The number of the journal's site, once its header is written.
    site: Option<u16>,
}

impl<R: Files> Disk<'_, R> {
    // Hands what is written to the disk; fails also where another file stands under the journal's name by then.
    fn sync(&self) -> Result<(), SyncFailure> {
        if let Err(error) = self.file.sync_data() {
            return Err(SyncFailure::of(error.kind()));
        }
        if !stands_under(self.files, self.name.as_str(), &self.file) {
            return Err(SyncFailure::Moved);
        }
        Ok(())
    }

    // Notes the length that is on the disk, where there is a file for that.
    fn note(&mut self, bytes: &[u8]) {
        let is_let_go = self.notes.is_let_go();
        if let Some(beside) = &mut self.beside {
            beside.add(bytes, self.length, is_let_go);
        }
    }

    // Whether the sum of these bytes is to be on the disk before they are: they are not one statement of the site, or
    // one that it had.
    fn are_announced(&self, bytes: &[u8]) -> bool {
        let is_behind = match &self.beside {
            Some(beside) => beside.is_behind(self.length),
            None => false,
        };
        match self.site {
            Some(site) => is_behind || !is_one_of(bytes, site),
            None => true,
        }
    }

    // Announces bytes where that is to be.
    fn announce(&self, bytes: &[u8]) -> Result<(), SyncFailure> {
        match &self.beside {
            Some(beside) if self.are_announced(bytes) => beside.announce(self.length, bytes),
            _ => Ok(()),
        }
    }

    // Writes bytes behind those before, and hands them to the disk.
    fn put(&mut self, bytes: &[u8]) -> Result<(), SyncFailure> {
        if bytes.is_empty() {
            return self.sync();
        }
        self.announce(bytes)?;
        if let Err(error) = self.file.write_all(bytes) {
            return Err(SyncFailure::of(error.kind()));
        }
        self.sync()?;
        if self.length == 0 {
            self.site = site_of(bytes);
        }
        self.length = self.length.saturating_add(bytes.len() as u64);
        self.note(bytes);
        Ok(())
    }
}

/// A journal's file that is written. A flush ends well once the system says that what was written is on the disk, so
/// that it outlives the machine's stop as well as the program's, and while the file still stands under its name. With
/// sums, bytes wait for a flush, or for a mebibyte of them: the sum of what is not one statement of the site itself is
/// on the disk first.
#[derive(Drop)]
pub struct Synced<'a, R> {
    disk: Disk<'a, R>,
    /// What waits, where sums are kept.
    waiting: Option<Vec<u8>>,
}

impl<'a, R> Synced<'a, R> {
    /// The file of this name is written from where it stands, behind so many bytes. The length that it has is noted at
    /// each flush, where there is a file for that.
    pub(crate) fn new(
        files: &'a R,
        notes: &'a Notes,
        name: String,
        file: File,
        beside: Option<Beside>,
        length: u64,
    ) -> Synced<'a, R> {
        let disk = Disk {
            files,
            notes,
            name,
            file,
            beside,
            length,
            site: None,
        };
        Synced {
            disk,
            waiting: None,
        }
    }

    /// The same for the journal of this site, if it has one yet, which keeps sums: bytes wait in this room.
    pub(crate) fn with_sums(self, site: Option<u16>, room: Vec<u8>) -> Synced<'a, R> {
        let Synced {
            mut disk,
            waiting: _,
        } = self;
        disk.site = site;
        Synced {
            disk,
            waiting: Some(room),
        }
    }
}

// How many of the bytes that wait are complete, as a header or as frames.
fn complete_front(waiting: &[u8], is_begin: bool) -> usize {
    if is_begin {
        let header = header_length(waiting).unwrap_or(waiting.len());
        return header.min(waiting.len());
    }
    frames_end(waiting, 0, Version::Second)
}

// Puts so many of the first bytes behind the others.
fn put_last(bytes: &mut [u8], count: usize) {
    if count <= bytes.len() {
        bytes.rotate_left(count);
    }
}

// So many of the first bytes.
fn first_of(bytes: &[u8], count: usize) -> &[u8] {
    bytes.get(..count).unwrap_or(bytes)
}

impl<R: Files> Synced<'_, R> {
    // Puts the front of what waits, up to the end of a header or of a frame.
    fn put_front(&mut self) -> Result<(), SyncFailure> {
        let Some(waiting) = &mut self.waiting else {
            return Ok(());
        };
        let count = complete_front(waiting.as_slice(), self.disk.length == 0);
        self.disk.put(first_of(waiting.as_slice(), count))?;
        let rest = waiting.len().saturating_sub(count);
        put_last(waiting.as_mut_slice(), count);
        waiting.truncate(rest);
        Ok(())
    }

    // Adds bytes to those that wait. Returns whether it did; it does not where no sums are kept.
    fn wait(&mut self, bytes: &[u8]) -> Result<bool, SyncFailure> {
        let waits = match &self.waiting {
            Some(waiting) => waiting.len(),
            None => return Ok(false),
        };
        if waits.saturating_add(bytes.len()) > WAITING_BYTES {
            self.put_front()?;
        }
        let Some(waiting) = &mut self.waiting else {
            return Ok(false);
        };
        match waiting.extend_from_slice(bytes) {
            Ok(()) => Ok(true),
            Err(_) => Err(SyncFailure::Other),
        }
    }

    // Puts all that waits; the header of a new journal alone at first.
    fn put_all(&mut self) -> Result<(), SyncFailure> {
        if self.disk.length == 0 {
            self.put_front()?;
        }
        let Some(waiting) = &mut self.waiting else {
            return self.disk.sync();
        };
        self.disk.put(waiting.as_slice())?;
        waiting.clear();
        Ok(())
    }

    // Notes a failure, and returns it as an error.
    fn fail(&self, failure: SyncFailure) -> Error {
        self.disk.notes.fail(failure);
        Error::from(ErrorKind::Other)
    }
}

impl<R: Files> Write for Synced<'_, R> {
    fn write(&mut self, bytes: &[u8]) -> io::Result<usize> {
        match self.wait(bytes) {
            Ok(true) => return Ok(bytes.len()),
            Ok(false) => {}
            Err(failure) => return Err(self.fail(failure)),
        }
        match self.disk.file.write(bytes) {
            Ok(count) => {
                self.disk.length = self.disk.length.saturating_add(count as u64);
                Ok(count)
            }
            Err(error) => {
                self.disk.notes.fail(SyncFailure::of(error.kind()));
                Err(error)
            }
        }
    }

    fn flush(&mut self) -> io::Result<()> {
        if let Err(failure) = self.put_all() {
            return Err(self.fail(failure));
        }
        if self.waiting.is_none() {
            self.disk.note(b"".as_slice());
        }
        Ok(())
    }
}
