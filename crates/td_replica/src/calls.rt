//! What calls on a site answer.

use td_semantics::Outcome;
use td_stamps::Stamp;

/// A statement that was issued: its stamp, and what became of it. The outcome is tentative: an entry that comes later
/// and stands before it may change it, at each site alike.
#[derive(Drop)]
pub struct Issued {
    pub stamp: Stamp,
    pub outcome: Outcome,
}

/// How many entries of a batch were new, each counted once, and how many others it had.
#[derive(Clone, Copy, PartialEq, Eq)]
pub struct Taken {
    pub fresh: usize,
    pub known: usize,
}
