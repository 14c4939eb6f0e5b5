//! The law of trials.
ghost use Rattle.td_trials.specs.Laws.{IssueDoesAsTried};

/// A statement that is issued has the outcome of its trial, where nothing came to the site between the two.
pub fn issue_does_as_tried()
    ensures { IssueDoesAsTried }
{}
