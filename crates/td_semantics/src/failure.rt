//! Why there is no value.

ghost use Rattle.std.specs.Prelude.{◌≡◌};

use std::alloc::AllocError;
use td_values::Raise;
use thiserror::Error;

/// Why there is no value.
#[derive(Clone, Copy, Debug, Drop, Error, PartialEq, Eq)]
pub enum Failure {
    #[error("{0}")]
    Raised(Raise),
    #[error("out of memory")]
    OutOfMemory,
}

impl From<AllocError> for Failure {
    ghost use Rattle.td_semantics.specs.declared.failure.Failure.TheVariants.{OutOfMemory};

    ghost from_gives = { λ _ f. f ≡ OutOfMemory };

    fn from(_error: AllocError) -> Failure {
        Failure::OutOfMemory
    }
}
