//! Errors that expressions raise.
ghost use Rattle.std.specs.Prelude.{◌≡◌};
ghost use Rattle.td_values.specs.Raises as spec;

use thiserror::Error;

/// An error that an expression raises.
#[derive(Clone, Copy, Debug, Drop, Error, PartialEq, Eq)]
pub enum Raise {
    #[error("overflow")]
    Overflow,
    #[error("divide")]
    Divide,
    #[error("empty")]
    Empty,
    #[error("selector")]
    Selector,
    #[error("cardinality")]
    Cardinality,
}

impl Raise {
    /// Its number, 1 to 5. Where several errors stand for tuples and items, the least number does.
    pub fn number(self) -> u8
        ensures { result ≡ spec.raise_number self }
    {
        match self {
            Raise::Overflow => 1,
            Raise::Divide => 2,
            Raise::Empty => 3,
            Raise::Selector => 4,
            Raise::Cardinality => 5,
        }
    }

    /// The error of the lesser number, of the two.
    pub fn lesser(self, other: Raise) -> Raise
        ensures { result ≡ spec.lesser_raise self other }
    {
        if self.number() <= other.number() {
            self
        } else {
            other
        }
    }
}
