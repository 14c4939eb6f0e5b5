//! Files that stand beside a journal's, and how files are made, known again and handed to the disk.

use std::alloc::{AllocError, Global};
use std::fs::{File, OpenOptions};
use std::io::ErrorKind;
use std::os::unix::fs::{MetadataExt, OpenOptionsExt};
use std::path::Path;
use std::rt::Files;
use std::{fs, io};
use td_io::Failed;

/// The rights of a file that is made: its owner alone reads and writes it.
const OWN: u32 = 0o600;

/// The name of a journal with an ending behind it.
pub(crate) fn name_beside(alloc: Global, name: &str, ending: &str) -> Result<String, AllocError> {
    let mut beside = String::with_capacity(alloc, name.len().saturating_add(ending.len()))?;
    beside.push_str(name)?;
    beside.push_str(ending)?;
    Ok(beside)
}

/// Makes a file where none stands under this name, not even a link.
pub(crate) fn make_new<R: Files<File = File>>(files: &R, name: &str) -> io::Result<File> {
    OpenOptions::new()
        .read(true)
        .write(true)
        .create_new(true)
        .mode(OWN)
        .open(files, name)
}

/// Opens a file that is there.
pub(crate) fn open_there<R: Files<File = File>>(files: &R, name: &str) -> io::Result<File> {
    OpenOptions::new().read(true).write(true).open(files, name)
}

/// Whether the file still stands under this name, to which a link may lead: another program may have put another one in
/// its place.
pub(crate) fn stands_under<R: Files>(files: &R, name: &str, file: &File) -> bool {
    match (file.metadata(), fs::metadata(files, name)) {
        (Ok(it), Ok(there)) => it.ino() == there.ino() && it.dev() == there.dev(),
        _ => false,
    }
}

/// Hands the folder of a file that was made, renamed or removed to the disk, on file systems that can.
pub(crate) fn settle_folder<R: Files<File = File>>(files: &R, name: &str) -> Result<(), Failed> {
    let folder = match Path::new(name).parent() {
        Some(folder) if !folder.as_str().is_empty() => folder,
        _ => Path::new("."),
    };
    let Ok(folder) = File::open(files, folder) else {
        return Err(Failed);
    };
    match folder.sync_all() {
        Ok(()) => Ok(()),
        Err(error)
            if matches!(
                error.kind(),
                ErrorKind::Unsupported | ErrorKind::InvalidInput
            ) => { Ok(()) }
        Err(_) => Err(Failed),
    }
}
