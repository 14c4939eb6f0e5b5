//! Tuples that agree at some names, put together as one relation.
ghost use Rattle.std.specs.Prelude.{◌≡◌, map, IfOk};
ghost use Rattle.std.specs.List.{All};
ghost use Rattle.td_algebra.specs.ForProofs.Index.{AreGroups, HoldsTuples, IsByParts};
ghost use Rattle.td_tuples.specs.Nestings.{grouped_columns};
ghost use Rattle.td_algebra.specs.Nested.{Grouped};
ghost use Rattle.td_relations.specs.Sets.{IsRelationOf};
ghost use Rattle.td_tuples.specs.Parts.{Fits, cut, names_of};

use crate::index::TupleIndex;
use crate::parts::cut_all;
use std::alloc::{AllocError, Global};
use td_relations::Relation;
use td_tuples::{columns_in, columns_out, cut, with_attribute, with_column};
use td_values::{Heading, Kind, Name, TdType, Tuple, TypeKind, Value};

// The tuple's part at the outer names, with the relation of the tuples' parts at the inner ones at the name.
fn group_of_run(
    alloc: Global,
    inner: &Heading,
    outer: &Heading,
    name: &Name,
    tuple: &Tuple,
    tuples: &[Tuple],
) -> Result<Tuple, AllocError>
    requires { All (λ t. Fits inner.now (cut (names_of inner.now) t)) tuples.now }
    ensures { IfOk result (HoldsTuples inner.now name.now (cut (names_of outer.now) tuple.now) (map (cut (names_of inner.now)) tuples.now)) }
{
    let parts = cut_all(alloc, inner, tuples)?;
    let group = Relation::from_tuples(inner.copy()?, parts);
    let value = Value {
        kind: Kind::Relation(group.into_rows()),
    };
    let rest = cut(alloc, outer, tuple)?;
    let more = with_attribute(alloc, &rest, name.copy()?, value)?;
    Ok(more)
}

// Each value of the other attributes with its group: that of the first tuple of each run of the index.
fn groups_of_runs(
    alloc: Global,
    inner: &Heading,
    outer: &Heading,
    name: &Name,
    index: &TupleIndex,
) -> Result<Vec<Tuple>, AllocError>
    requires fit { All (λ t. Fits inner.now (cut (names_of inner.now) t)) index.now.tuples.items }
    requires by_parts { IsByParts (names_of outer.now) index.now }
    ensures { IfOk result (λ v. AreGroups inner.now outer.now name.now index.now.tuples.items index.now.tuples.items v.items) }
{
    let mut out = Vec::new(alloc);
    for at in 0..index.tuples.len() {
        if !index.repeats(at) {
            let tuple = &index.tuples[at];
            let (run, _) = index.run_near(tuple, at);
            out.push(group_of_run(alloc, inner, outer, name, tuple, run)?)?;
        }
    }
    Ok(out)
}

/// One tuple for each value of the other attributes, with the relation of the parts at these names as the new
/// attribute. For n tuples it costs of the order of n log n comparisons.
pub fn group(
    alloc: Global,
    r: &Relation,
    names: &[Name],
    name: &Name,
) -> Result<Relation, AllocError>
    ensures { IfOk result (IsRelationOf (grouped_columns names.now name.now r.now.heading) (Grouped names.now name.now r.now)) }
{
    let inner = columns_in(alloc, names, r.heading())?;
    let outer = columns_out(alloc, names, r.heading())?;
    let index = TupleIndex::new(alloc, r, &outer, r, &outer, 0)?;
    let tuples = groups_of_runs(alloc, &inner, &outer, name, &index)?;
    let ty = TdType {
        kind: TypeKind::Relation(inner),
    };
    let heading = with_column(alloc, &outer, name.copy()?, ty)?;
    Ok(Relation::from_tuples(heading, tuples))
}
