//! Why a conversation ends before its input does.

use std::alloc::AllocError;
use td_io::{Failed, LineError};

/// Why a conversation ends before its input does.
#[derive(Clone, Copy)]
pub(crate) enum SessionEnd {
    OutOfMemory,
    /// The input cannot be read.
    ReadFault,
    /// The output cannot be written.
    WriteFault,
}

impl From<AllocError> for SessionEnd {
    fn from(_e: AllocError) -> SessionEnd {
        SessionEnd::OutOfMemory
    }
}

impl From<Failed> for SessionEnd {
    fn from(_e: Failed) -> SessionEnd {
        SessionEnd::WriteFault
    }
}

impl From<LineError> for SessionEnd {
    fn from(error: LineError) -> SessionEnd {
        match error {
            LineError::OutOfMemory => SessionEnd::OutOfMemory,
            LineError::ReadFault | LineError::NoReadsLeft => SessionEnd::ReadFault,
        }
    }
}
