//! What operators make of the values of their operands.

ghost use Rattle.std.specs.Prelude.{◌≡◌, ◌↔◌, ◌==◌, neg_ℤ, pos, length, IfOk, IsTrue};
ghost use Rattle.std.specs.FinMap as by_name;
ghost use Rattle.td_algebra.specs.Closures.{IsBinary};
ghost use Rattle.td_algebra.specs.Raising.{Answers};
ghost use Rattle.td_operators.specs.ForProofs.Lent.{operand_value};
ghost use Rattle.td_syntax.specs.declared.tree.Nesting.TheVariants as nesting;
ghost use Rattle.td_operators.specs.Operators as spec;
ghost use Rattle.td_tuples.specs.Nestings.{IsRelationValued, IsTupleValued};
ghost use Rattle.td_tuples.specs.Parts.{cut};
ghost use Rattle.td_values.specs.Data.{integer};

use crate::operand::{
    Operand, Shape, components_of, integer_of, rows_of, shape_of, truth_of, tuple_of,
};
use crate::parts::{integer_value, relation_value, truth_value, tuple_value};
use crate::relations::{
    grouping_of, project_of, rename_of, tclose_of, ungroup_of, unwrap_of, wrap_of,
};
use std::alloc::{AllocError, Global};
use td_algebra::{Fault, Stop, is_binary, is_relation_valued, is_tuple_valued};
use td_relations::Relation;
use td_syntax::tree::{Nesting, UnaryOperator};
use td_tuples::is_in;
use td_values::{Heading, Name, Raise, Tuple, Value, copy};

// The integer with the other sign. That of the least integer raises an overflow.
fn negation<W>(n: i64) -> Result<Value, Fault<W>>
    ensures { Answers result (spec.within_64_bits (neg_ℤ n)) }
{
    match n.checked_neg() {
        Some(m) => Ok(integer_value(m)),
        None => Err(Fault::Raised(Stop::Error(Raise::Overflow))),
    }
}

// Whether the heading has two columns of one type.
fn has_pairs(heading: &Heading) -> bool
    ensures test { result ≡ spec.is_pair (by_name.entries heading.now) }
    ensures binary { IsTrue result ↔ IsBinary heading.now }
{
    is_binary(heading)
}

// The transitive closure of the relation, as a value; it is untyped unless the relation has two attributes of one type.
fn transitive_closure<W>(alloc: Global, r: &Relation) -> Result<Value, Fault<W>>
    ensures { Answers result (spec.closed r.now) }
{
    if !has_pairs(r.heading()) {
        return Err(Fault::Raised(Stop::Untyped));
    }
    Ok(relation_value(tclose_of(alloc, r)?))
}

// A copy of the one tuple of the list; a list of none or of several raises the error of cardinality.
fn only_tuple<W>(tuples: &[Tuple]) -> Result<Value, Fault<W>>
    ensures { Answers result (spec.only_tuple tuples.now) }
{
    match tuples {
        [tuple] => Ok(tuple_value(tuple.copy()?)),
        _ => Err(Fault::Raised(Stop::Error(Raise::Cardinality))),
    }
}

// The number of tuples as a value. It takes no memory.
fn count(tuples: &[Tuple]) -> Value
    ensures { result ≡ integer (pos (length tuples.now)) }
{
    integer_value(tuples.len() as i64)
}

pub(crate) fn is_empty(tuples: &[Tuple]) -> bool
    ensures { result ≡ (length tuples.now == 0) }
{
    tuples.is_empty()
}

/// What an operator makes of one value.
pub fn operate_on<W>(
    alloc: Global,
    operator: UnaryOperator,
    operand: Operand<'_>,
) -> Result<Value, Fault<W>>
    ensures { Answers result (spec.operate_on operator (operand_value operand.entry)) }
{
    match operator {
        UnaryOperator::Not => Ok(truth_value(!truth_of(&operand)?)),
        UnaryOperator::Negate => negation(integer_of(&operand)?),
        UnaryOperator::Closure => {
            let rows = rows_of(operand)?;
            transitive_closure(alloc, rows.get())
        }
        UnaryOperator::TupleFrom => {
            let rows = rows_of(operand)?;
            only_tuple(rows.get().tuples())
        }
        UnaryOperator::IsEmpty => {
            let rows = rows_of(operand)?;
            Ok(truth_value(is_empty(rows.get().tuples())))
        }
        UnaryOperator::Count => {
            let rows = rows_of(operand)?;
            Ok(count(rows.get().tuples()))
        }
    }
}

/// The component at the place, from 0.
pub fn component_at<W>(alloc: Global, at: usize, operand: &Operand<'_>) -> Result<Value, Fault<W>>
    ensures { Answers result (spec.component_at at (operand_value operand.now)) }
{
    let values = components_of(operand)?;
    match values.get(at) {
        Some(value) => Ok(copy(alloc, value)?),
        None => Err(Fault::Raised(Stop::Untyped)),
    }
}

/// The attribute of a tuple.
pub fn attribute_at<W>(alloc: Global, name: &Name, operand: &Operand<'_>) -> Result<Value, Fault<W>>
    ensures { Answers result (spec.attribute_at name.now (operand_value operand.now)) }
{
    let tuple = tuple_of(operand)?;
    match tuple.get(name) {
        Some(value) => Ok(copy(alloc, value)?),
        None => Err(Fault::Raised(Stop::Untyped)),
    }
}

// The tuple's attributes at these names.
fn cut_to(alloc: Global, names: &[Name], tuple: &Tuple) -> Result<Tuple, AllocError>
    ensures { IfOk result (λ t. t ≡ cut names.now tuple.now) }
{
    let mut attributes = Vec::new(alloc);
    for (name, value) in tuple.attributes() {
        if is_in(names, name) {
            attributes.push((name.copy()?, copy(alloc, value)?))?;
        }
    }
    Tuple::of(alloc, attributes)
}

/// The part of a tuple or of a relation at these names.
pub fn part_at<W>(alloc: Global, names: &[Name], operand: Operand<'_>) -> Result<Value, Fault<W>>
    ensures { Answers result (spec.part_at names.now (operand_value operand.entry)) }
{
    if let Shape::Tuple(tuple) = shape_of(&operand) {
        return Ok(tuple_value(cut_to(alloc, names, tuple)?));
    }
    let rows = rows_of(operand)?;
    Ok(relation_value(project_of(alloc, rows.get(), names)?))
}

/// The relation with new names: each item is an old one with its new one.
pub fn with_new_names<W>(
    alloc: Global,
    items: &[(Name, Name)],
    operand: Operand<'_>,
) -> Result<Value, Fault<W>>
    ensures { Answers result (spec.with_new_names items.now (operand_value operand.entry)) }
{
    let rows = rows_of(operand)?;
    Ok(relation_value(rename_of(alloc, rows.get(), items)?))
}

// GROUP or WRAP of the relation: its attributes at these names become one attribute of the new name.
fn nest_relation(
    alloc: Global,
    nesting: Nesting,
    names: &[Name],
    name: &Name,
    r: &Relation,
) -> Result<Relation, AllocError>
    ensures { IfOk result (λ n. n ≡ spec.nested_of nesting names.now name.now r.now) }
{
    match nesting {
        Nesting::Group => grouping_of(alloc, r, names, name),
        Nesting::Wrap => wrap_of(alloc, r, names, name),
    }
}

/// GROUP and WRAP of the attributes at these names.
pub fn nest<W>(
    alloc: Global,
    nesting: Nesting,
    names: &[Name],
    name: &Name,
    operand: Operand<'_>,
) -> Result<Value, Fault<W>>
    ensures { Answers result (spec.nested nesting names.now name.now (operand_value operand.entry)) }
{
    let rows = rows_of(operand)?;
    Ok(relation_value(nest_relation(alloc, nesting, names, name, rows.get())?))
}

// Whether the heading has the name with relations as its values.
fn has_relations(heading: &Heading, name: &Name) -> bool
    ensures test { result ≡ spec.is_relation_type (by_name.get heading.now name.now) }
    ensures valued { IsTrue result ↔ IsRelationValued name.now heading.now }
{
    is_relation_valued(heading, name)
}

// Whether the heading has the name with tuples as its values.
fn has_tuples(heading: &Heading, name: &Name) -> bool
    ensures test { result ≡ spec.is_tuple_type (by_name.get heading.now name.now) }
    ensures valued { IsTrue result ↔ IsTupleValued name.now heading.now }
{
    is_tuple_valued(heading, name)
}

// UNGROUP of the attribute of this name; it is untyped where that is missing or not relation-valued.
fn ungroup_relation<W>(alloc: Global, name: &Name, r: &Relation) -> Result<Relation, Fault<W>>
    ensures { Answers result (spec.unnested_of nesting.Group name.now r.now) }
{
    if !has_relations(r.heading(), name) {
        return Err(Fault::Raised(Stop::Untyped));
    }
    Ok(ungroup_of(alloc, r, name)?)
}

// UNWRAP of the attribute of this name; it is untyped where that is missing or not tuple-valued.
fn unwrap_relation<W>(alloc: Global, name: &Name, r: &Relation) -> Result<Relation, Fault<W>>
    ensures { Answers result (spec.unnested_of nesting.Wrap name.now r.now) }
{
    if !has_tuples(r.heading(), name) {
        return Err(Fault::Raised(Stop::Untyped));
    }
    Ok(unwrap_of(alloc, r, name)?)
}

// UNGROUP or UNWRAP of the attribute of this name; it is untyped where the attribute is missing or not of the kind that
// the operator opens.
fn unnest_relation<W>(
    alloc: Global,
    nesting: Nesting,
    name: &Name,
    r: &Relation,
) -> Result<Relation, Fault<W>>
    ensures { Answers result (spec.unnested_of nesting name.now r.now) }
{
    match nesting {
        Nesting::Group => ungroup_relation(alloc, name, r),
        Nesting::Wrap => unwrap_relation(alloc, name, r),
    }
}

/// UNGROUP and UNWRAP of the attribute of this name.
pub fn unnest<W>(
    alloc: Global,
    nesting: Nesting,
    name: &Name,
    operand: Operand<'_>,
) -> Result<Value, Fault<W>>
    ensures { Answers result (spec.unnested nesting name.now (operand_value operand.entry)) }
{
    let rows = rows_of(operand)?;
    let opened = unnest_relation(alloc, nesting, name, rows.get())?;
    Ok(relation_value(opened))
}
