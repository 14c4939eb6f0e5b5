//! What statements changed: a trait of sites beside `Replica`.
//!
//! Begin with `Changes::changed_by`: what the entry of a stamp changed.
//!
//! ```
//! let issued = site.issue(alloc, "DELETE S;", &mut meter)?;
//! let changes = site.changed_by(issued.stamp)?;
//! ```
//!
//! Costs: in a site of td_replay a search for the stamp; the changes are lent as they are kept, and nothing is run or
//! copied.
//!
//! Definitions to trust, in `specs/`: Changes, Laws.
#![tactic(auto)]

ghost use Rattle.std.specs.Prelude.{Err, MatchResult, Ok};
ghost use Rattle.td_changes.specs.Changes.{TellsChanges};

pub mod laws;

use td_relations::Delta;
use td_replica::Replica;
use td_stamps::Stamp;
use thiserror::Error;

/// Why the changes of a statement are not told.
#[derive(Clone, Copy, Debug, Drop, PartialEq, Eq, Error)]
pub enum ChangedError {
    #[error("the site's journal failed")]
    Broken,
    #[error("no entry has this stamp")]
    NoPlace,
}

/// A site that tells what its statements changed.
pub trait Changes: Replica {
    /// What the statement of this stamp changed at its place, by what is held now: the change of each base relvar that
    /// differs, by its place in the script's order of definition, and of no other. An entry that comes later and stands
    /// before it may change that, at each site alike.
    fn changed_by(&self, at: Stamp) -> Result<&[(usize, Delta)], ChangedError>
        ensures { MatchResult result
            (λ changes. TellsChanges (Self.seen self.now) at (Ok changes.now))
            (λ error. TellsChanges (Self.seen self.now) at (Err error)) };
}
