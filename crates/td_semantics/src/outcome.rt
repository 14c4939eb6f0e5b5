//! What became of a statement.

ghost use Rattle.std.specs.Prelude.{◌≡◌, IfOk};

use std::alloc::AllocError;
use td_values::{Name, Raise};

/// What became of a statement at its place in the order.
#[derive(Drop)]
pub enum Outcome {
    Done,
    /// The text has no reading or no typing.
    Unread,
    /// A source raised, or a test.
    Raised(Raise),
    /// A key of this relvar would not be true.
    BreaksKey(Name),
    /// This constraint would not be true.
    BreaksConstraint(Name),
}

impl Outcome {
    pub fn copy(&self) -> Result<Outcome, AllocError>
        ensures { IfOk result (λ copy. copy ≡ self.now) }
    {
        match self {
            Outcome::Done => Ok(Outcome::Done),
            Outcome::Unread => Ok(Outcome::Unread),
            Outcome::Raised(raise) => Ok(Outcome::Raised(*raise)),
            Outcome::BreaksKey(relvar) => Ok(Outcome::BreaksKey(relvar.copy()?)),
            Outcome::BreaksConstraint(name) => Ok(Outcome::BreaksConstraint(name.copy()?)),
        }
    }
}
