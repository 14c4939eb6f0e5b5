//! Why a text is not made: each error's variants stand in the order in which their causes are judged.

use td_values::Raise;
use thiserror::Error;

/// Why there is no listing and no log.
#[derive(Clone, Copy, Debug, Drop, PartialEq, Eq, Error)]
pub enum ListError {
    #[error("the site's journal failed")]
    Broken,
    #[error("out of memory")]
    OutOfMemory,
}

/// Why there is no table.
#[derive(Clone, Copy, Debug, Drop, PartialEq, Eq, Error)]
pub enum TableError {
    #[error("no relvar has this name")]
    Unknown,
    #[error("the relvar has no attributes")]
    NoAttributes,
    #[error("the site's journal failed")]
    Broken,
    /// Evaluating the relvar raises this error.
    #[error("evaluating the relvar raises {0}")]
    Raised(Raise),
    #[error("out of memory")]
    OutOfMemory,
}

/// Why a listing is not written.
#[derive(Clone, Copy, Debug, Drop, PartialEq, Eq, Error)]
pub enum ListingError {
    #[error("the site's journal failed")]
    Broken,
    #[error("out of memory")]
    OutOfMemory,
    #[error("the writer failed")]
    WriteFault,
}

/// Why a table is not written.
#[derive(Clone, Copy, Debug, Drop, PartialEq, Eq, Error)]
pub enum ExportError {
    #[error("no relvar has this name")]
    Unknown,
    #[error("the relvar has no attributes")]
    NoAttributes,
    #[error("the site's journal failed")]
    Broken,
    /// Evaluating the relvar raises this error.
    #[error("evaluating the relvar raises {0}")]
    Raised(Raise),
    #[error("out of memory")]
    OutOfMemory,
    #[error("the writer failed")]
    WriteFault,
}
