//! Why frames are not read.

use thiserror::Error;

/// Why a frame, or a stream of them, is not read.
#[derive(Clone, Copy, Debug, PartialEq, Eq, Drop, Error)]
pub enum FrameError {
    #[error("out of memory")]
    OutOfMemory,
    #[error("the reader failed")]
    ReadFault,
    #[error("the stream ends inside a frame")]
    Cut,
    #[error("the stream begins with no greeting")]
    Magic,
    #[error("the greeting is of another version")]
    Version,
    #[error("a field has a value that no frame has")]
    BadFrame,
}
