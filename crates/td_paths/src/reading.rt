//! Plain files, and what they have.

use crate::unreadable::Unreadable;
use std::alloc::Global;
use std::fs;
use std::rt::Files;

/// Whether the name is that of a plain file, or of a link that leads to one. Nothing is opened.
pub fn plain_file<H: Files>(host: &H, name: &str) -> Result<(), Unreadable> {
    match fs::metadata(host, name) {
        Ok(it) if it.is_file() => Ok(()),
        Ok(it) => Err(Unreadable::other(it.file_type())),
        Err(error) => Err(Unreadable::by(error.kind())),
    }
}

/// What a plain file has. Anything else is told, and not opened.
pub fn read_plain<H: Files + AllocGlobal>(host: &H, name: &str) -> Result<Vec<u8>, Unreadable> {
    plain_file(host, name)?;
    match fs::read(host, name) {
        Ok(bytes) => Ok(bytes),
        Err(error) => Err(Unreadable::by(error.kind())),
    }
}
