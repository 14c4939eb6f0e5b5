//! The laws of sites: those of histories, and of what a replay runs.

ghost use Rattle.td_replay.specs.Counted.{RunsInAreOne, RunsInAreThere};

pub use td_replica::laws::{history_is_unique, sites_agree, story_is_legal};
pub use td_semantics::laws::{script_opens_one, step_is_legal, step_is_unique};

/// There is one number of entries that a site runs where it takes a batch, and it cannot be that there is none.
pub fn runs_are_one()
    ensures one { RunsInAreOne }
    ensures there { RunsInAreThere }
{}
