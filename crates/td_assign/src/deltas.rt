//! The exact difference that a statement makes.

ghost use Rattle.std.specs.Prelude.{◌≡◌, IfOk, MatchOption, Ok};
ghost use Rattle.td_semantics.specs.Databases.{IsDatabase, stored_relvars};
ghost use Rattle.td_semantics.specs.Given as spec;
ghost use Rattle.td_assign.specs.ForProofs.Lists.{given_to};
ghost use Rattle.td_semantics.specs.Differences.{AreDifferences};
ghost use Rattle.td_assign.specs.ForProofs.Given.{AreChanges, DiffersBy, IsChange, Turns};

use crate::changes::Change;
use std::alloc::{AllocError, Global};
use td_relations::{Delta, Relation};
use td_relvars::Database;

// What turns the old relation into the new one, if they differ.
fn turning_delta(alloc: Global, old: &Relation, new: &Relation) -> Result<Option<Delta>, AllocError>
    requires { old.now.heading ≡ new.now.heading }
    ensures { IfOk result (λ o. MatchOption o (old.now ≡ new.now) (Turns old.now new.now)) }
{
    old.rows_fit();
    new.rows_fit();
    let delta = td_relations::difference(alloc, old, new)?;
    if delta.is_empty() {
        Ok(None)
    } else {
        Ok(Some(delta))
    }
}

// The change from what the target has, if that is another relation.
fn difference(
    alloc: Global,
    database: &Database,
    change: &Change,
) -> Result<Option<Delta>, AllocError>
    requires database { IsDatabase database.now }
    requires change { IsChange database.now.catalogue change.now }
    ensures { IfOk result (λ o. MatchOption o (stored_relvars database.now.stored change.now.target ≡ Ok change.now.relation) (DiffersBy (stored_relvars database.now.stored) change.now)) }
{
    match database.base_at(change.target) {
        Some(base) => turning_delta(alloc, base.relation(), &change.relation),
        None => unreachable!(),
    }
}

/// The change of each relvar that the changes make different, by its place. It costs a walk along each target's old and
/// new tuples.
pub(crate) fn differences(
    alloc: Global,
    database: &Database,
    changes: &[Change],
) -> Result<Vec<(usize, Delta)>, AllocError>
    requires database { IsDatabase database.now }
    requires changes { AreChanges database.now.catalogue changes.now }
    ensures { IfOk result (λ v. AreDifferences (stored_relvars database.now.stored) (stored_relvars (spec.with_given (given_to changes.now) database.now.stored)) v.items) }
{
    let mut found = Vec::new(alloc);
    for change in changes {
        match difference(alloc, database, change)? {
            Some(delta) => found.push((change.target, delta))?,
            None => {}
        }
    }
    Ok(found)
}
