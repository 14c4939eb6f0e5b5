//! Journals that are read and left as they are: nothing is locked, made or written.

use crate::companions::name_beside;
use crate::framing::{frames_end, have_frame_behind};
use crate::seen;
use std::rt::Files;
use td_frames::Version;
use td_paths::{Unreadable, read_plain};

/// The byte of a journal that has its version.
const VERSION_AT: usize = 4;

/// In so many bytes a complete frame is looked for.
const SEARCHED: usize = 1_048_576;

/// What a journal has, whoever has it open.
#[derive(Drop)]
pub struct Contents {
    pub bytes: Vec<u8>,
    /// Up to which length it was handed to the disk, where a file beside it says so.
    pub seen: Option<u64>,
}

/// The end of a journal that is no whole statement, and is passed over.
#[derive(Clone, Copy, Debug, PartialEq, Eq)]
pub struct PassedOver {
    /// How many bytes.
    pub bytes: u64,
    /// Whether they are more than an entry that is being written, or was when a program stopped.
    pub is_damage: bool,
}

impl Contents {
    /// What stands behind so many bytes, if anything does.
    pub fn behind(&self, whole: u64) -> Option<PassedOver> {
        let rest = self.bytes.get(usize::try_from(whole).ok()?..)?;
        if rest.is_empty() {
            return None;
        }
        Some(PassedOver {
            bytes: rest.len() as u64,
            is_damage: have_frame_behind(rest.get(..SEARCHED).unwrap_or(rest)),
        })
    }

    /// The byte from which on no whole frame stands, where the first one is to stand at this byte.
    pub fn damaged_at(&self, begin: usize) -> usize {
        let version = match self.bytes.get(VERSION_AT) {
            Some(1) => Version::First,
            _ => Version::Second,
        };
        frames_end(&self.bytes, begin, version)
    }
}

/// What the journal of this name has. The length beside it is read first, so that it is no greater where another
/// program writes the journal meanwhile.
pub fn read_contents<R: Files + AllocGlobal>(
    files: &R,
    name: &str,
) -> Result<Contents, Unreadable> {
    let Ok(beside) = name_beside(files.alloc(), name, seen::ENDING) else {
        return Err(Unreadable::OutOfMemory);
    };
    let seen = match read_plain(files, beside.as_str()) {
        Ok(text) => seen::length_in(&text),
        Err(_) => None,
    };
    let bytes = read_plain(files, name)?;
    Ok(Contents { bytes, seen })
}
