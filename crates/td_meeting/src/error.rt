//! Why a step of a meeting stops.

use td_frames::FrameError;
use td_replica::TakeError;
use thiserror::Error;

/// Why a step of a meeting stops.
#[derive(Clone, Copy, Debug, Drop, PartialEq, Eq, Error)]
pub enum MeetingError {
    #[error("the site's journal failed")]
    Broken,
    #[error("out of memory")]
    OutOfMemory,
    /// What the other site sent cannot be read. Where it is cut or the reader failed, the whole entries before are
    /// taken, and this many of them were fresh.
    #[error("{error}; fresh entries taken before: {taken}")]
    Frame { error: FrameError, taken: usize },
    #[error("the other site started from another script")]
    OtherScript,
    #[error("the other site has the same number")]
    SameSite,
    /// This many fresh entries were taken before.
    #[error("the writer failed; fresh entries taken before: {taken}")]
    WriteFault { taken: usize },
    /// The entries that the other site sent are not taken.
    #[error("{0}")]
    Take(TakeError),
}
