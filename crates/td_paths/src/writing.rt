//! Files that are replaced and removed.

use std::fs::{OpenFile, OpenOptions};
use std::io::{ErrorKind, Write};
use std::os::unix::fs::OpenOptionsExt;
use std::path::Path;
use std::rt::Files;
use std::{fs, io};

/// The rights of a file that its owner alone may read and write.
const OWN: u32 = 0o600;

/// Syncs the folder of a file, so that its name is on the disk, on file systems that can.
pub fn sync_folder<H: Files>(host: &H, name: &str) -> io::Result<()> {
    let folder = match Path::new(name).parent() {
        Some(folder) if !folder.as_str().is_empty() => folder,
        _ => Path::new("."),
    };
    match OpenOptions::new().read(true).open(host, folder)?.sync_all() {
        Err(error)
            if matches!(
                error.kind(),
                ErrorKind::Unsupported | ErrorKind::InvalidInput
            ) => { Ok(()) }
        synced => synced,
    }
}

// Writes a file anew, for its owner alone, and syncs it.
fn write_synced<H: Files>(host: &H, name: &str, text: &str) -> io::Result<()> {
    let mut file = OpenOptions::new()
        .write(true)
        .create(true)
        .truncate(true)
        .mode(OWN)
        .open(host, name)?;
    file.write_all(text.as_bytes())?;
    file.sync_all()
}

/// Removes a file, and syncs its folder.
pub fn remove_file<H: Files>(host: &H, name: &str) -> io::Result<()> {
    fs::remove_file(host, name)?;
    sync_folder(host, name)
}

/// Replaces a file: the text is written to the file `beside` and synced, which then takes the name, and the folder of
/// both is synced. A power failure leaves the old file or the new one, complete.
pub fn replace_file<H: Files>(host: &H, name: &str, beside: &str, text: &str) -> io::Result<()> {
    write_synced(host, beside, text)?;
    fs::rename(host, beside, name)?;
    sync_folder(host, name)
}
