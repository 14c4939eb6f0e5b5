//! What a statement would do: a trait of sites beside `Replica`.
//!
//! Begin with `Trials::try_issue`: what `issue` of a text would return.
//!
//! ```
//! match site.try_issue(alloc, "DELETE S;")? {
//!     Outcome::Done => site.issue(alloc, "DELETE S;", &mut meter)?,
//!     refused => return Ok(refused),
//! }
//! ```
//!
//! Costs: in a site of td_replay the sources of the statement are evaluated whole, and the tests are made over them. No
//! meter counts it, since no statement runs.
//!
//! Its definitions are in `specs/`: in Trials what a trial returns, in Laws that issuing then does so.
#![tactic(auto)]

ghost use Rattle.td_trials.specs.Trials.{Tries};

pub mod laws;

use std::alloc::Global;
use td_replica::{IssueError, Replica};
use td_semantics::Outcome;

/// A site that says what a statement would do.
pub trait Trials: Replica {
    /// The outcome that `issue` of this text would have now, or why it would be refused. The site stays as it is.
    fn try_issue(&self, alloc: Global, text: &str) -> Result<Outcome, IssueError>
        ensures { Tries (Self.seen self.now) text.now result };
}
