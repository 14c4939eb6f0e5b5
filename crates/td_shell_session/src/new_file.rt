//! Files that are written whole, and never over others.

use std::alloc::{AllocError, Global};
use std::fs::{File, OpenOptions};
use std::io::{ErrorKind, Write};
use std::os::unix::fs::OpenOptionsExt;
use std::rt::Files;
use std::{fs, io};
use td_paths::sync_folder;

/// The rights of a file that is made: its owner alone reads and writes it.
const OWN: u32 = 0o600;

/// Why a file is not written.
#[derive(Clone, Copy)]
pub(crate) enum NotWritten {
    /// There is one of this name already.
    IsThere,
    /// There is one with `.part` after the name already, as a stop may leave it.
    PartIsThere,
    Failed,
    OutOfMemory,
}

impl From<AllocError> for NotWritten {
    fn from(_e: AllocError) -> NotWritten {
        NotWritten::OutOfMemory
    }
}

// Writes a file that is not there yet, and hands it to the disk.
fn write_part<H: Files<File = File>>(host: &H, part: &str, bytes: &[u8]) -> io::Result<()> {
    let mut file = OpenOptions::new()
        .write(true)
        .create_new(true)
        .mode(OWN)
        .open(host, part)?;
    file.write_all(bytes)?;
    file.sync_all()
}

// Gives the file its name, unless another one has that.
fn give_name<H: Files<File = File>>(host: &H, part: &str, name: &str) -> Result<(), NotWritten> {
    match fs::hard_link(host, part, name) {
        Ok(()) => {
            let _removed = fs::remove_file(host, part);
            return Ok(());
        }
        Err(error) if error.kind() == ErrorKind::AlreadyExists => return Err(NotWritten::IsThere),
        Err(_) => {}
    }
    // (a file system that has no second names for a file)
    if fs::symlink_metadata(host, name).is_ok() {
        return Err(NotWritten::IsThere);
    }
    match fs::rename(host, part, name) {
        Ok(()) => Ok(()),
        Err(_) => Err(NotWritten::Failed),
    }
}

// Writes the bytes to the file `part`, and gives that this name.
fn write_by<H: Files<File = File>>(
    host: &H,
    part: &str,
    name: &str,
    bytes: &[u8],
) -> Result<(), NotWritten> {
    if fs::symlink_metadata(host, part).is_ok() {
        return Err(NotWritten::PartIsThere);
    }
    let written = match write_part(host, part, bytes) {
        Ok(()) => give_name(host, part, name),
        Err(_) => Err(NotWritten::Failed),
    };
    if written.is_err() {
        let _removed = fs::remove_file(host, part);
        return written;
    }
    // (else the file may be under no name if the power fails)
    match sync_folder(host, name) {
        Ok(()) => Ok(()),
        Err(_) => Err(NotWritten::Failed),
    }
}

/// Writes the bytes to a file that is not there yet, not even as a link: first beside it, and then under its name.
pub(crate) fn write_new<H: Files<File = File>>(
    alloc: Global,
    host: &H,
    name: &str,
    bytes: &[u8],
) -> Result<(), NotWritten> {
    if fs::symlink_metadata(host, name).is_ok() {
        return Err(NotWritten::IsThere);
    }
    let part = format!(in alloc; "{name}.part")?;
    write_by(host, part.as_str(), name, bytes)
}
