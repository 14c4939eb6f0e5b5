//! Conditions that begin with the values of a key.

ghost use Rattle.std.specs.Prelude.{◌≡◌, ◌<◌, IfOk, IfSome, IsTrue};
ghost use Rattle.td_algebra.specs.KeyIndexes.{IsKeyIndex};
ghost use Rattle.td_meaning.specs.declared.conditions.Side.TheVariants as sides;
ghost use Rattle.td_meaning.specs.ForProofs.Pinned.{ArePinned, Equals, Narrows, PinsAt};
ghost use Rattle.td_syntax.specs.declared.tree.BinaryOperator.TheVariants as binary;

use crate::conditions::{Check, Side};
use std::alloc::{AllocError, Global};
use td_algebra::{KeyIndex, place_in};
use td_operators::Lease;
use td_relations::Relation;
use td_syntax::tree::BinaryOperator;
use td_tuples::tuple_of;
use td_values::{Heading, Name, Value, copy};

fn is_equals(operator: BinaryOperator) -> bool
    ensures { IsTrue result → operator ≡ binary.Equals }
{
    match operator {
        BinaryOperator::Equals => true,
        _ => false,
    }
}

// The place of the attribute that the side is; None where it is a value.
fn attribute(side: &Side) -> Option<usize>
    ensures { IfSome result (λ p. side.now ≡ sides.Attribute p) }
{
    match side {
        Side::Attribute(at) => Some(*at),
        Side::Value(_) => None,
    }
}

// The value that the side has at every tuple; None where it is an attribute.
fn value(side: &Side) -> Option<&Value>
    ensures { IfSome result (λ d. side.now ≡ sides.Value d.now) }
{
    match side {
        Side::Attribute(_) => None,
        Side::Value(value) => Some(value.get()),
    }
}

// The place of an attribute and the value to which it must be equal, where that is what is compared.
fn equal_sides<'c>(
    operator: BinaryOperator,
    a: &'c Side,
    b: &'c Side,
    width: usize,
) -> Option<(usize, &'c Value)>
    ensures { IfSome result (λ e. (operator ≡ binary.Equals) × (a.now ≡ sides.Attribute e.0) × (b.now ≡ sides.Value e.1.now) × (e.0 < width)) }
{
    if !is_equals(operator) {
        return None;
    }
    let Some(at) = attribute(a) else {
        return None;
    };
    let Some(value) = value(b) else {
        return None;
    };
    if at < width { Some((at, value)) } else { None }
}

// The place of an attribute and the value to which it must be equal, where a check over tuples of so many attributes
// compares these.
fn equality<'c>(check: &'c Check<'_>, width: usize) -> Option<(usize, &'c Value)>
    ensures { IfSome result (λ e. Equals check.now width e.0 e.1.now) }
{
    match check {
        Check::Comparison(operator, a, b) => equal_sides(*operator, a, b, width),
        Check::Other(_) => None,
    }
}

// The value that the attribute at the place must have by one of the equalities that the condition begins with, which
// raise nothing.
#[cycle(pins)]
fn pinned_value<'c>(checks: &'c [Check<'_>], width: usize, place: usize) -> Option<&'c Value>
    ensures { IfSome result (λ d. PinsAt checks.now width place d.now) }
{
    let Some((first, rest)) = checks.split_first() else {
        return None;
    };
    let Some((at, value)) = equality(first, width) else {
        return None;
    };
    if at == place {
        Some(value)
    } else {
        pinned_value(rest, width, place)
    }
}

// The names of the key, each with the value that the checks pin it to; None where they pin one of the names to nothing.
fn key_values(
    alloc: Global,
    heading: &Heading,
    key: &[Name],
    checks: &[Check<'_>],
) -> Result<Option<Vec<(Name, Value)>>, AllocError>
    ensures { IfOk result (λ o. IfSome o (λ v. ArePinned heading.now checks.now key.now v.items)) }
{
    let width = heading.fields().len();
    let mut values = Vec::with_capacity(alloc, key.len())?;
    for name in key {
        let Some(value) = pinned_value(checks, width, place_in(heading, name)) else {
            return Ok(None);
        };
        values.push((name.copy()?, copy(alloc, value)?))?;
    }
    Ok(Some(values))
}

// The tuples of the relation that have the values to which the checks pin the key of its index; None where they do not
// pin all names of the key.
fn found(
    alloc: Global,
    relation: &Relation,
    index: &KeyIndex,
    checks: &[Check<'_>],
) -> Result<Option<Relation>, AllocError>
    requires { IsKeyIndex index.now.key relation.now index.now }
    ensures { IfOk result (λ o. IfSome o (Narrows relation.now checks.now)) }
{
    relation.rows_fit();
    match key_values(alloc, relation.heading(), index.key(), checks)? {
        Some(values) => {
            let sought = tuple_of(alloc, values)?;
            Ok(Some(index.found(alloc, &sought)?))
        }
        None => Ok(None),
    }
}

/// Tuples of the relation outside of which the condition is false, where it begins with the values of a key by which
/// they are kept. It costs a search.
pub(crate) fn found_by_key(
    alloc: Global,
    tuples: &Lease<'_>,
    checks: &[Check<'_>],
) -> Result<Option<Relation>, AllocError>
    ensures { IfOk result (λ o. IfSome o (Narrows tuples.now checks.now)) }
{
    for index in tuples.indexes() {
        if let Some(part) = found(alloc, tuples.get(), index, checks)? {
            return Ok(Some(part));
        }
    }
    Ok(None)
}
