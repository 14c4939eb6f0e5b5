//! What stops an operator over a function on tuples.
ghost use Rattle.std.specs.Prelude.{◌≡◌};
ghost use Rattle.td_algebra.specs.Stops as spec;

use std::alloc::AllocError;
use std::convert::Infallible;
use td_values::Raise;
use thiserror::Error;

/// Why a function of tuples has no value: it has no meaning there, as where a value is of a wrong type, or it raises
/// one of the language's errors.
#[derive(Clone, Copy, Debug, Drop, Error, PartialEq, Eq)]
pub enum Stop {
    #[error("untyped")]
    Untyped,
    #[error("{0}")]
    Error(Raise),
}

impl Stop {
    /// Its number: 0 for no meaning, and 1 to 5. Where several stand for tuples and items, the least number does.
    pub fn number(self) -> u8
        ensures { result ≡ spec.stop_number self }
    {
        match self {
            Stop::Untyped => 0,
            Stop::Error(raise) => raise.number(),
        }
    }

    /// The one of the lesser number.
    pub fn lesser(self, other: Stop) -> Stop
        ensures { result ≡ spec.lesser self other }
    {
        if self.number() <= other.number() {
            self
        } else {
            other
        }
    }
}

/// Why there is no answer: an error, or want of memory. A function that is handed in may give a third cause, that what
/// it came to is not known yet. Whoever handed it in knows that by this `W`, and may ask again. No operator makes a
/// `W`: it passes on what the function gave.
#[derive(Clone, Copy, Debug, Drop, Error, PartialEq, Eq)]
pub enum Fault<W = Infallible> {
    #[error("{0}")]
    Raised(Stop),
    #[error("out of memory")]
    OutOfMemory,
    #[error("not known yet")]
    Wanting(W),
}

impl<W> From<AllocError> for Fault<W> {
    ghost use Rattle.td_algebra.specs.declared.errors.Fault.TheVariants.{OutOfMemory};

    ghost from_gives = { λ _ f. f ≡ OutOfMemory };

    fn from(_error: AllocError) -> Fault<W> {
        Fault::OutOfMemory
    }
}
