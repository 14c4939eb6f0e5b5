//! Why a script has no catalogue or opens no database, and why a relvar is not told.

ghost use Rattle.std.specs.Prelude.{◌≡◌};
ghost use Rattle.td_semantics.specs.declared.error.RelvarError.TheVariants as relvar_error;

use crate::broken::BrokenTest;
use std::alloc::AllocError;
use td_values::Raise;
use thiserror::Error;

/// Why a text has no catalogue.
#[derive(Clone, Copy, Debug, Drop, PartialEq, Eq, Error)]
pub enum CatalogueError {
    #[error("the text is no script")]
    Syntax,
    #[error("a definition is ill typed")]
    IllTyped,
    #[error("out of memory")]
    OutOfMemory,
}

/// Why a script opens no database.
#[derive(Debug, Drop, Error)]
pub enum ScriptError {
    #[error("the text is no script")]
    Syntax,
    #[error("a definition is ill typed")]
    IllTyped,
    /// What a relvar is to hold at first raises this error.
    #[error("what a relvar is to hold at first raises: {0}")]
    OpeningRaised(Raise),
    /// This test is the first that is false of the opening relvars, or raises.
    #[error("{0} is not true of the opening relvars")]
    OpeningBroken(BrokenTest),
    #[error("out of memory")]
    OutOfMemory,
}

/// Why a relvar is not told.
#[derive(Clone, Copy, Debug, Drop, PartialEq, Eq, Error)]
pub enum RelvarError {
    #[error("no relvar has this name")]
    Unknown,
    #[error("out of memory")]
    OutOfMemory,
}

impl From<AllocError> for RelvarError {
    ghost from_gives = { λ _ e. e ≡ relvar_error.OutOfMemory };

    fn from(_e: AllocError) -> RelvarError {
        RelvarError::OutOfMemory
    }
}
