//! Why a call on held entries refuses.
ghost use Rattle.std.specs.Prelude.{◌≡◌};

use std::alloc::AllocError;
use thiserror::Error;

/// Why a batch can't be added. Where several reasons hold, the first of this order is given.
#[derive(Clone, Copy, Debug, PartialEq, Eq, Drop, Error)]
pub enum CheckError {
    #[error("an entry of the batch is out of range")]
    BadEntry,
    /// The first entry of the batch that clashes with a held one or with an earlier one.
    #[error("entry {seq} of site {site} clashes with another")]
    Clash { site: u16, seq: u32 },
    #[error("there is no room for the fresh entries")]
    Full,
}

/// Why a batch can't be prepared: as `CheckError`, or memory ran out.
#[derive(Clone, Copy, Debug, PartialEq, Eq, Drop, Error)]
pub enum PrepareError {
    #[error("an entry of the batch is out of range")]
    BadEntry,
    /// The first entry of the batch that clashes with a held one or with an earlier one.
    #[error("entry {seq} of site {site} clashes with another")]
    Clash { site: u16, seq: u32 },
    #[error("there is no room for the fresh entries")]
    Full,
    #[error("out of memory")]
    OutOfMemory,
}

/// Why a site has no next entry.
#[derive(Clone, Copy, Debug, PartialEq, Eq, Drop, Error)]
pub enum NextError {
    #[error("the next sequence number or clock would pass its range")]
    ClockEnd,
}

impl From<AllocError> for PrepareError {
    ghost use Rattle.td_stamps.specs.declared.errors.PrepareError.TheVariants.{OutOfMemory};

    ghost from_gives = { λ _ e. e ≡ OutOfMemory };

    fn from(_e: AllocError) -> PrepareError {
        PrepareError::OutOfMemory
    }
}
