//! What a statement gives to its targets.

ghost use Rattle.std.specs.Prelude.{◌≡◌, MatchOption, None, OnOk, Some, position};
ghost use Rattle.td_assign.specs.ForProofs.Lists as spec;
ghost use Rattle.td_assign.specs.ForProofs.Given.{is_target};

use std::alloc::AllocError;
use td_relations::Relation;

/// A target, by its place in order of definition, and the relation that it is given.
#[derive(Drop)]
pub struct Change {
    pub target: usize,
    pub relation: Relation,
}

/// What the target is given, if anything.
pub(crate) fn given_relation(changes: &[Change], target: usize) -> Option<&Relation>
    ensures { MatchOption result (spec.given_to changes.now target ≡ None) (λ r. spec.given_to changes.now target ≡ Some r.now) }
{
    for change in changes {
        if change.target == target {
            return Some(&change.relation);
        }
    }
    None
}

// The place of the first change of a target; None where nothing is given to it.
fn place_of(changes: &[Change], target: usize) -> Option<usize>
    ensures { result ≡ position (is_target target) changes.now }
{
    changes.iter().position(|change| change.target == target)
}

/// Gives the relation to the target, in place of what it was given before.
pub(crate) fn give(
    changes: &mut Vec<Change>,
    target: usize,
    relation: Relation,
) -> Result<(), AllocError>
    ensures { OnOk result (changes.new.items ≡ spec.given target relation changes.old.items) }
{
    let change = Change { target, relation };
    match place_of(changes, target) {
        Some(at) => changes[at] = change,
        None => changes.push(change)?,
    }
    Ok(())
}
