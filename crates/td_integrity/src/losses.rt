//! References judged over what was lost.

ghost use Rattle.std.specs.Prelude.{◌≡◌, IfOk, Ok};
ghost use Rattle.td_algebra.specs.Functions.{matching_of, not_matching_of, project_of};
ghost use Rattle.td_integrity.specs.ForProofs.Losing.{AreReferring, IsToldOf};
ghost use Rattle.td_integrity.specs.ForProofs.Tested.{HasRelation};

use std::alloc::{AllocError, Global};
use td_algebra::{matching, matching_by, not_matching, not_matching_by};
use td_eval::Lookup;
use td_operators::project_of;
use td_relations::{Delta, Relation};
use td_values::Name;

/// What tuples that a relvar lost had at the names by which another one refers to it.
#[derive(Drop)]
pub(crate) struct Losses {
    /// The place of the relvar that lost tuples.
    pub referred: usize,
    /// The place of the one that refers to it.
    pub referring: usize,
    pub parts: Relation,
}

/// What the deleted tuples have at these names.
pub(crate) fn parts_of(alloc: Global, names: &[Name], delta: &Delta) -> Result<Relation, AllocError>
    ensures { IfOk result (λ r. r ≡ project_of names.now delta.now.deleted) }
{
    project_of(alloc, delta.deleted(), names)
}

/// What a relvar has, of which it is known to be a relation.
pub(crate) fn stored_relation<L: Lookup>(lookup: &L, relvar: usize) -> &Relation
    requires { HasRelation (L.relvars lookup.now relvar) }
    ensures { L.relvars lookup.now relvar ≡ Ok result.now }
{
    match lookup.lent(relvar) {
        Ok(relation) => relation,
        Err(_) => unreachable!(),
    }
}

// Those that match no tuple of the relation.
fn left_by(alloc: Global, tuples: &Relation, relation: &Relation) -> Result<Relation, AllocError>
    ensures { IfOk result (λ r. r ≡ not_matching_of tuples.now relation.now) }
{
    tuples.rows_fit();
    relation.rows_fit();
    let rest = not_matching(alloc, tuples, relation)?;
    Ok(rest)
}

// Those that match one of the relation.
fn found_by(alloc: Global, tuples: &Relation, relation: &Relation) -> Result<Relation, AllocError>
    ensures { IfOk result (λ r. r ≡ matching_of tuples.now relation.now) }
{
    tuples.rows_fit();
    relation.rows_fit();
    let found = matching(alloc, tuples, relation)?;
    Ok(found)
}

// Those that match no tuple of the relvar: by searches where its tuples are kept by the names that both have.
fn without_match<L: Lookup>(
    alloc: Global,
    lookup: &L,
    relvar: usize,
    relation: &Relation,
    tuples: &Relation,
) -> Result<Relation, AllocError>
    requires { L.relvars lookup.now relvar ≡ Ok relation.now }
    ensures { IfOk result (λ r. r ≡ not_matching_of tuples.now relation.now) }
{
    tuples.rows_fit();
    relation.rows_fit();
    for index in lookup.indexes(relvar) {
        if let Some(rest) = not_matching_by(alloc, tuples, index)? {
            return Ok(rest);
        }
    }
    left_by(alloc, tuples, relation)
}

// Those that match a tuple of the relvar, in the same way.
fn with_match<L: Lookup>(
    alloc: Global,
    lookup: &L,
    relvar: usize,
    relation: &Relation,
    tuples: &Relation,
) -> Result<Relation, AllocError>
    requires { L.relvars lookup.now relvar ≡ Ok relation.now }
    ensures { IfOk result (λ r. r ≡ matching_of tuples.now relation.now) }
{
    tuples.rows_fit();
    relation.rows_fit();
    for index in lookup.indexes(relvar) {
        if let Some(found) = matching_by(alloc, tuples, index)? {
            return Ok(found);
        }
    }
    found_by(alloc, tuples, relation)
}

/// Whether no tuple of the relvar that refers has one of the parts, but for those that a tuple of the other one has
/// still. For k parts it costs two searches for each where the look-up lends the relvars' tuples by the names, and else
/// what `matching` of td_algebra does.
pub(crate) fn none_is_missed<L: Lookup>(
    alloc: Global,
    lookup: &L,
    losses: &Losses,
) -> Result<bool, AllocError>
    requires { AreReferring losses.now (L.relvars lookup.now) }
    ensures { IfOk result (IsToldOf losses.now (L.relvars lookup.now)) }
{
    let there = stored_relation(lookup, losses.referred);
    let gone = without_match(alloc, lookup, losses.referred, there, &losses.parts)?;
    if gone.is_empty() {
        return Ok(true);
    }
    let referring = stored_relation(lookup, losses.referring);
    let missed = with_match(alloc, lookup, losses.referring, referring, &gone)?;
    Ok(missed.is_empty())
}
