//! Why there is no type.

ghost use Rattle.std.specs.Prelude.{◌≡◌};
ghost use Rattle.td_schema.specs.declared.error.TypeError.TheVariants as type_error;

use std::alloc::AllocError;
use thiserror::Error;

/// Why a text has no type.
#[derive(Clone, Copy, Debug, Drop, PartialEq, Eq, Error)]
pub enum TypeError {
    #[error("ill typed")]
    IllTyped,
    #[error("out of memory")]
    OutOfMemory,
}

impl From<AllocError> for TypeError {
    ghost from_gives = { λ _ e. e ≡ type_error.OutOfMemory };

    fn from(_e: AllocError) -> TypeError {
        TypeError::OutOfMemory
    }
}
