//! Projection and renaming.
ghost use Rattle.std.specs.Prelude.{◌≡◌, map, IfOk};
ghost use Rattle.td_algebra.specs.Operators.{Projected, Renamed};
ghost use Rattle.td_relations.specs.Sets.{IsRelationOf};
ghost use Rattle.td_tuples.specs.Parts.{columns_in, cut, names_of};
ghost use Rattle.td_tuples.specs.Renamings.{renamed, renamed_columns};

use std::alloc::{AllocError, Global};
use td_relations::Relation;
use td_tuples::{columns_in, cut, renamed, renamed_columns};
use td_values::{Heading, Name, Tuple};

// The tuples' attributes at the names of the heading.
pub(crate) fn cut_all(
    alloc: Global,
    heading: &Heading,
    tuples: &[Tuple],
) -> Result<Vec<Tuple>, AllocError>
    ensures { IfOk result (λ v. v.items ≡ map (cut (names_of heading.now)) tuples.now) }
{
    let mut parts = Vec::with_capacity(alloc, tuples.len())?;
    for t in tuples {
        parts.push(cut(alloc, heading, t)?)?;
    }
    Ok(parts)
}

/// The tuples cut down to these names. For n tuples it costs of the order of n log n comparisons.
pub fn project(alloc: Global, r: &Relation, names: &[Name]) -> Result<Relation, AllocError>
    ensures { IfOk result (IsRelationOf (columns_in names.now r.now.heading) (Projected names.now r.now)) }
{
    let heading = columns_in(alloc, names, r.heading())?;
    let tuples = cut_all(alloc, &heading, r.tuples())?;
    Ok(Relation::from_tuples(heading, tuples))
}

// The tuples with their names replaced.
fn rename_all(
    alloc: Global,
    items: &[(Name, Name)],
    tuples: &[Tuple],
) -> Result<Vec<Tuple>, AllocError>
    ensures { IfOk result (λ v. v.items ≡ map (renamed items.now) tuples.now) }
{
    let mut named = Vec::with_capacity(alloc, tuples.len())?;
    for t in tuples {
        named.push(renamed(alloc, items, t)?)?;
    }
    Ok(named)
}

/// The tuples with their names replaced, all at once: each item is an old name with its new one.
pub fn rename(alloc: Global, r: &Relation, items: &[(Name, Name)]) -> Result<Relation, AllocError>
    ensures { IfOk result (IsRelationOf (renamed_columns items.now r.now.heading) (Renamed items.now r.now)) }
{
    let tuples = rename_all(alloc, items, r.tuples())?;
    let heading = renamed_columns(alloc, items, r.heading())?;
    Ok(Relation::from_tuples(heading, tuples))
}
