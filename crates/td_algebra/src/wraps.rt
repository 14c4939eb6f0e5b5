//! Tuples and relations put into attributes.
ghost use Rattle.std.specs.Prelude.{◌≡◌, map, IfOk};
ghost use Rattle.td_tuples.specs.Nestings.{wrapped_columns};
ghost use Rattle.td_algebra.specs.Nested.{Wrapped};
ghost use Rattle.td_algebra.specs.ForProofs.Index.{wrapped};
ghost use Rattle.td_relations.specs.Sets.{IsRelationOf};
ghost use Rattle.td_tuples.specs.Parts.{names_of};

use std::alloc::{AllocError, Global};
use td_relations::Relation;
use td_tuples::{columns_in, columns_out, cut, with_attribute, with_column};
use td_values::{Heading, Kind, Name, TdType, Tuple, TypeKind, Value};

// The tuple's part at the outer names, with its part at the inner ones as a value at the name.
fn wrap_tuple(
    alloc: Global,
    inner: &Heading,
    outer: &Heading,
    name: &Name,
    t: &Tuple,
) -> Result<Tuple, AllocError>
    ensures { IfOk result (λ u. u ≡ wrapped (names_of inner.now) (names_of outer.now) name.now t.now) }
{
    let value = Value {
        kind: Kind::Tuple(cut(alloc, inner, t)?),
    };
    let rest = cut(alloc, outer, t)?;
    with_attribute(alloc, &rest, name.copy()?, value)
}

// This of each tuple.
fn wrap_tuples(
    alloc: Global,
    inner: &Heading,
    outer: &Heading,
    name: &Name,
    tuples: &[Tuple],
) -> Result<Vec<Tuple>, AllocError>
    ensures { IfOk result (λ v. v.items ≡ map (wrapped (names_of inner.now) (names_of outer.now) name.now) tuples.now) }
{
    let mut out = Vec::with_capacity(alloc, tuples.len())?;
    for t in tuples {
        out.push(wrap_tuple(alloc, inner, outer, name, t)?)?;
    }
    Ok(out)
}

/// The tuples with their attributes at these names put into one tuple at the new name.
pub fn wrap(
    alloc: Global,
    r: &Relation,
    names: &[Name],
    name: &Name,
) -> Result<Relation, AllocError>
    ensures { IfOk result (IsRelationOf (wrapped_columns names.now name.now r.now.heading) (Wrapped names.now name.now r.now)) }
{
    let inner = columns_in(alloc, names, r.heading())?;
    let outer = columns_out(alloc, names, r.heading())?;
    let tuples = wrap_tuples(alloc, &inner, &outer, name, r.tuples())?;
    let ty = TdType {
        kind: TypeKind::Tuple(inner),
    };
    let heading = with_column(alloc, &outer, name.copy()?, ty)?;
    Ok(Relation::from_tuples(heading, tuples))
}
