//! Tuples and relations taken out of attributes.
ghost use Rattle.std.specs.Prelude.{◌≡◌, ◌↔◌, ◌++◌, map, IsTrue, IfOk, OnOk};
ghost use Rattle.std.specs.List.{All, flat_map};
ghost use Rattle.td_tuples.specs.Nestings.{IsRelationValued, IsTupleValued, columns_of_type, inner_columns, opened_columns};
ghost use Rattle.td_algebra.specs.Nested.{Ungrouped, Unwrapped};
ghost use Rattle.td_algebra.specs.ForProofs.Opened.{Opened, opened, tuples_at, tuples_in};
ghost use Rattle.td_relations.specs.Sets.{IsRelationOf};
ghost use Rattle.td_tuples.specs.Parts.{Fits, names_of};
ghost use Rattle.td_tuples.specs.Unions.{beside};
ghost use Rattle.td_values.specs.Headings.{Header};
ghost use Rattle.td_values.specs.Rows.{AreRows};
ghost use Rattle.td_values.specs.Whole.{type_of};

use std::alloc::{AllocError, Global};
use std::slice;
use td_relations::Relation;
use td_tuples::{beside, columns_out, cut, inner_columns, joined};
use td_values::{Heading, Kind, Name, Tuple, Value, whole_tuple};

// The tuples of a relation, and a tuple itself.
fn tuples_in(value: &Value) -> &[Tuple]
    ensures all { result.now ≡ tuples_in value.now }
    ensures fit { All (Fits (columns_of_type (type_of value.now))) result.now }
{
    match &value.kind {
        Kind::Tuple(t) => {
            whole_tuple(t);
            slice::from_ref(t)
        }
        Kind::Relation(rows) => rows.tuples(),
        _ => &[],
    }
}

// Those of the tuple's value at the name.
fn tuples_at<'a>(tuple: &'a Tuple, name: &Name) -> &'a [Tuple]
    ensures all { result.now ≡ tuples_at name.now tuple.now }
    ensures fit { (h : Header) → Fits h tuple.now → All (Fits (inner_columns name.now h)) result.now }
{
    match tuple.get(name) {
        Some(value) => tuples_in(value),
        None => &[],
    }
}

// Adds the tuple beside each of these.
fn add_each(
    alloc: Global,
    out: &mut Vec<Tuple>,
    tuple: &Tuple,
    others: &[Tuple],
) -> Result<(), AllocError>
    ensures { OnOk result (out.new.items ≡ out.old.items ++ map (beside tuple.now) others.now) }
{
    for other in others {
        out.push(beside(alloc, tuple, other)?)?;
    }
    Ok(())
}

// Adds the tuple's part at the names of the heading, beside each tuple of the value at the name.
fn add_opened(
    alloc: Global,
    out: &mut Vec<Tuple>,
    outer: &Heading,
    tuple: &Tuple,
    name: &Name,
) -> Result<(), AllocError>
    ensures opened { OnOk result (out.new.items ≡ out.old.items ++ opened (names_of outer.now) name.now tuple.now) }
    ensures fit { OnOk result ((h : Header) → Fits h tuple.now → All (Fits (inner_columns name.now h)) (tuples_at name.now tuple.now)) }
{
    let rest = cut(alloc, outer, tuple)?;
    add_each(alloc, out, &rest, tuples_at(tuple, name))?;
    Ok(())
}

// This of each tuple.
fn open_tuples(
    alloc: Global,
    r: &Relation,
    outer: &Heading,
    name: &Name,
) -> Result<Vec<Tuple>, AllocError>
    ensures opened { IfOk result (λ v. v.items ≡ flat_map (opened (names_of outer.now) name.now) r.now.tuples) }
    ensures fit { OnOk result (All (λ t. All (Fits (inner_columns name.now r.now.heading)) (tuples_at name.now t)) r.now.tuples) }
    ensures rows { OnOk result (AreRows r.now.heading r.now.tuples) }
{
    let mut out = Vec::new(alloc);
    for t in r.tuples() {
        add_opened(alloc, &mut out, outer, t, name)?;
    }
    Ok(out)
}

// The tuples made of the other attributes and a tuple of the value at the name.
fn open_relation(alloc: Global, r: &Relation, name: &Name) -> Result<Relation, AllocError>
    ensures opened { IfOk result (IsRelationOf (opened_columns name.now r.now.heading) (Opened name.now r.now)) }
    ensures rows { OnOk result (AreRows r.now.heading r.now.tuples) }
{
    let outer = columns_out(alloc, slice::from_ref(name), r.heading())?;
    let inner = inner_columns(alloc, r.heading(), name)?;
    let tuples = open_tuples(alloc, r, &outer, name)?;
    let heading = joined(alloc, &outer, &inner)?;
    Ok(Relation::from_tuples(heading, tuples))
}

/// The tuples made of the other attributes and a tuple of the relation at the name. A tuple whose relation is empty
/// vanishes.
pub fn ungroup(alloc: Global, r: &Relation, name: &Name) -> Result<Relation, AllocError>
    requires { IsRelationValued name.now r.now.heading }
    ensures { IfOk result (IsRelationOf (opened_columns name.now r.now.heading) (Ungrouped name.now r.now)) }
{
    let opened = open_relation(alloc, r, name)?;
    Ok(opened)
}

/// The tuples made of the other attributes and those of the tuple at the name.
pub fn unwrap(alloc: Global, r: &Relation, name: &Name) -> Result<Relation, AllocError>
    requires { IsTupleValued name.now r.now.heading }
    ensures { IfOk result (IsRelationOf (opened_columns name.now r.now.heading) (Unwrapped name.now r.now)) }
{
    let opened = open_relation(alloc, r, name)?;
    Ok(opened)
}
