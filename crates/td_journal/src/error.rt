//! Why a journal is not written, or not read.

use thiserror::Error;

/// The journal's writer failed, and has counted it.
#[derive(Clone, Copy, Debug, PartialEq, Eq, Drop, Error)]
#[error("the journal cannot be written")]
pub struct WriteFault;

/// Why bytes are not the journal of a site, in the order in which it is judged.
#[derive(Clone, Copy, Debug, PartialEq, Eq, Drop, Error)]
pub enum JournalError {
    #[error("the bytes begin no journal")]
    Magic,
    #[error("the journal is of another version")]
    Version,
    #[error("the journal is another site's")]
    OtherSite,
    #[error("the journal is of another script")]
    OtherScript,
    #[error("a frame of the journal is no entry's")]
    BadFrame,
}
