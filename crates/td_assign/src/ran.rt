//! What running a statement gives.

use crate::names::NamedRelvars;
use td_relations::Delta;
use td_semantics::Outcome;
use td_tuples::Shared;

/// What running a statement gives.
#[derive(Drop)]
pub struct Ran {
    pub outcome: Outcome,
    /// The exact change of each relvar that changed, by its place, and of no other.
    pub delta: Vec<(usize, Delta)>,
    /// The relvars of the statement.
    pub names: Shared<NamedRelvars>,
    /// Whether it is an INSERT of tuples that are written out, and `delta` puts in each of these.
    pub puts_in_all: bool,
}
