//! Why a file is not read.

use std::fs::FileType;
use std::io::ErrorKind;
use std::os::unix::fs::FileTypeExt;
use thiserror::Error;

/// Why a file is not read.
#[derive(Clone, Copy, Debug, Drop, PartialEq, Eq, Error)]
pub enum Unreadable {
    #[error("out of memory")]
    OutOfMemory,
    #[error("it is not there")]
    Missing,
    #[error("it is a folder")]
    Folder,
    #[error("it is a pipe")]
    Pipe,
    #[error("it is a device")]
    Device,
    #[error("it is a socket")]
    Socket,
    #[error("this user may not read it")]
    Denied,
    #[error("the system does not read it")]
    Failed,
}

impl Unreadable {
    /// Why the system does not do what it was asked for.
    pub(crate) fn by(kind: ErrorKind) -> Unreadable {
        match kind {
            ErrorKind::OutOfMemory => Unreadable::OutOfMemory,
            ErrorKind::NotFound | ErrorKind::NotADirectory => Unreadable::Missing,
            ErrorKind::PermissionDenied => Unreadable::Denied,
            _ => Unreadable::Failed,
        }
    }

    /// What stands there in place of a plain file.
    pub(crate) fn other(kind: FileType) -> Unreadable {
        if kind.is_dir() {
            Unreadable::Folder
        } else if kind.is_fifo() {
            Unreadable::Pipe
        } else if kind.is_socket() {
            Unreadable::Socket
        } else if kind.is_block_device() || kind.is_char_device() {
            Unreadable::Device
        } else {
            Unreadable::Failed
        }
    }

    /// It in words, behind the name of the file.
    pub fn words(self) -> &'static str {
        match self {
            Unreadable::OutOfMemory => "there is not enough memory for it",
            Unreadable::Missing => "it is not there",
            Unreadable::Folder => "it is a folder; name a file",
            Unreadable::Pipe => "it is a pipe; write what it has to a file, and name that",
            Unreadable::Device => "it is a device; name a file",
            Unreadable::Socket => "it is a socket; name a file",
            Unreadable::Denied => "this user may not read it; mend its rights",
            Unreadable::Failed => "the system does not read it",
        }
    }
}
