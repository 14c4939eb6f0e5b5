//! Why calls are refused: each error's variants stand in the order in which their causes are judged.

ghost use Rattle.std.specs.Prelude.{ℕ, List, Err};
ghost use Rattle.td_replica.specs.NewSites.{Fit, OpensSite};
ghost use Rattle.td_semantics.specs.Scripts.{Opens};

use td_semantics::{BrokenTest, ScriptError};
use td_values::Raise;
use thiserror::Error;

/// Why a site is not opened.
#[derive(Debug, Drop, Error)]
pub enum OpenError {
    #[error("0 is no site")]
    BadSite,
    #[error("a limit is 1 to 100,000")]
    BadLimit,
    #[error("the text is no script")]
    Syntax,
    #[error("a definition is ill typed")]
    IllTyped,
    /// What a relvar is to hold at first raises this error.
    #[error("what a relvar is to hold at first raises: {0}")]
    OpeningRaised(Raise),
    /// This test is the first that is false of the opening relvars, or raises.
    #[error("{0} is not true of the opening relvars")]
    OpeningBroken(BrokenTest),
    #[error("out of memory")]
    OutOfMemory,
}

/// A site is refused as its script is.
impl From<ScriptError> for OpenError {
    ghost from_gives = { λ e refused. (script : List ℕ) (site limit : ℕ) → Fit site limit → Opens script (Err e) → OpensSite script site limit (Err refused) };

    fn from(error: ScriptError) -> OpenError {
        match error {
            ScriptError::Syntax => OpenError::Syntax,
            ScriptError::IllTyped => OpenError::IllTyped,
            ScriptError::OpeningRaised(raise) => OpenError::OpeningRaised(raise),
            ScriptError::OpeningBroken(broken) => OpenError::OpeningBroken(broken),
            ScriptError::OutOfMemory => OpenError::OutOfMemory,
        }
    }
}

/// Why a statement is not issued.
#[derive(Clone, Copy, Debug, Drop, PartialEq, Eq, Error)]
pub enum IssueError {
    #[error("the site's journal failed")]
    Broken,
    #[error("the text is no statement")]
    Syntax,
    #[error("the statement is ill typed")]
    IllTyped,
    #[error("the site has no number or clock left")]
    ClockEnd,
    #[error("the site is full")]
    Full,
    #[error("out of memory")]
    OutOfMemory,
    #[error("the journal cannot be written")]
    JournalWrite,
}

/// Why a batch is not taken.
#[derive(Clone, Copy, Debug, Drop, PartialEq, Eq, Error)]
pub enum TakeError {
    #[error("the site's journal failed")]
    Broken,
    #[error("an entry is out of its ranges")]
    BadEntry,
    #[error("an entry claims the place of another one: site {site}, sequence number {seq}")]
    Clash { site: u16, seq: u32 },
    #[error("the site has no room for the batch")]
    Full,
    #[error("out of memory")]
    OutOfMemory,
    #[error("the journal cannot be written")]
    JournalWrite,
}

/// Why a query is not answered.
#[derive(Clone, Copy, Debug, Drop, PartialEq, Eq, Error)]
pub enum AskError {
    #[error("the site's journal failed")]
    Broken,
    #[error("the text is no query")]
    Syntax,
    #[error("the query is ill typed")]
    IllTyped,
    #[error("out of memory")]
    OutOfMemory,
}

/// Why a query is not answered at a past place.
#[derive(Clone, Copy, Debug, Drop, PartialEq, Eq, Error)]
pub enum PastError {
    #[error("the site's journal failed")]
    Broken,
    #[error("the text is no query")]
    Syntax,
    #[error("the query is ill typed")]
    IllTyped,
    #[error("no entry has this stamp")]
    NoPlace,
    #[error("out of memory")]
    OutOfMemory,
}

/// Why a relvar is not told.
#[derive(Clone, Copy, Debug, Drop, PartialEq, Eq, Error)]
pub enum ValueError {
    #[error("the site's journal failed")]
    Broken,
    #[error("no relvar has this name")]
    Unknown,
    #[error("out of memory")]
    OutOfMemory,
}

/// Why outcomes are not told.
#[derive(Clone, Copy, Debug, Drop, PartialEq, Eq, Error)]
pub enum TellError {
    #[error("the site's journal failed")]
    Broken,
    #[error("out of memory")]
    OutOfMemory,
}

/// The site is not open: its journal failed.
#[derive(Clone, Copy, Debug, Drop, PartialEq, Eq, Error)]
#[error("the site's journal failed")]
pub struct NotOpen;
