//! MINUS by an index of the second relation.
ghost use Rattle.std.specs.FinSet as set;
ghost use Rattle.std.specs.List.{filter};
ghost use Rattle.std.specs.Prelude.{◌≡◌, not, IfOk};
ghost use Rattle.td_algebra.specs.KeyIndexes.{IsKeyIndex};
ghost use Rattle.td_relations.specs.Sets.{IsRelation, body};

use crate::key_index::KeyIndex;
use std::alloc::{AllocError, Global};
use td_relations::{Relation, minus};
use td_values::{Rows, Tuple};

/// A search for each tuple of a list costs less than a walk along both where it has at most this part of the other.
const FEW: usize = 16;

// Whether the relation that the index is of has the tuple.
fn has(index: &KeyIndex, relation: &Relation, tuple: &Tuple) -> bool
    requires { IsKeyIndex index.now.key relation.now index.now }
    ensures { result ≡ set.contains (body relation.now) tuple.now }
{
    relation.rows_fit();
    index.contains(tuple)
}

// The tuples of the first relation that the second lacks, by a search of the index for each.
fn lacking_tuples(
    alloc: Global,
    a: &Relation,
    b: &Relation,
    index: &KeyIndex,
) -> Result<Vec<Tuple>, AllocError>
    requires { IsKeyIndex index.now.key b.now index.now }
    ensures { IfOk result (λ v. v.items ≡ filter (λ t. not (set.contains (body b.now) t)) a.now.tuples) }
{
    let mut lacking = Vec::new(alloc);
    for tuple in a.tuples() {
        if !has(index, b, tuple) {
            lacking.push(tuple.copy()?)?;
        }
    }
    Ok(lacking)
}

/// The tuples of the first relation that the second lacks, shared, by an index of the second. It costs a search for each
/// tuple of the first, or, where the first list is not short beside the second, as `minus` of td_relations.
pub fn minus_by(
    alloc: Global,
    a: &Relation,
    b: &Relation,
    index: &KeyIndex,
) -> Result<Relation, AllocError>
    requires heading { a.now.heading ≡ b.now.heading }
    requires index { IsKeyIndex index.now.key b.now index.now }
    ensures { IfOk result (IsRelation a.now.heading (set.difference (body a.now) (body b.now))) }
{
    if a.len() > b.len() / FEW {
        return minus(alloc, a, b);
    }
    a.rows_fit();
    b.rows_fit();
    let tuples = lacking_tuples(alloc, a, b, index)?;
    let heading = a.heading().copy()?;
    Ok(Relation::of(Rows::new(heading, tuples)))
}
