//! The types that operators take and give.

ghost use Rattle.std.specs.Prelude.{◌≡◌};
ghost use Rattle.td_schema.specs.Operators as spec;
ghost use Rattle.td_schema.specs.Results.{Gives, where_true};

use crate::error::TypeError;
use crate::kinds::{
    agree_on_types, is_boolean, is_char, is_integer, relation_heading, same_heading, same_kind,
    same_type, tuple_heading,
};
use std::alloc::Global;
use td_syntax::tree::{Aggregate, BinaryOperator, UnaryOperator};
use td_tuples::{composed_columns, joined};
use td_values::{Name, TdType, TypeKind};

// The kind, where the test is true.
fn where_true(test: bool, kind: TypeKind) -> Result<TypeKind, TypeError>
    ensures { Gives (where_true test kind) result }
{
    if test {
        Ok(kind)
    } else {
        Err(TypeError::IllTyped)
    }
}

// Whether there are exactly two attributes, and both have one type, as TCLOSE wants.
fn are_of_one_type(fields: &[(Name, TdType)]) -> bool
    ensures { result ≡ spec.are_of_one_type fields.now }
{
    match fields {
        [first, second] => same_type(&first.1, &second.1),
        _ => false,
    }
}

// What TCLOSE gives: the operand's own kind, where it is a relation of two attributes of one type.
#[tactic(auto, unfolding(crate::specs::Operators::closed_kind))]
fn closed_kind(kind: &TypeKind) -> Result<TypeKind, TypeError>
    ensures { Gives (spec.closed_kind kind.now) result }
{
    let Some(heading) = relation_heading(kind) else {
        return Err(TypeError::IllTyped)
    };
    if !are_of_one_type(heading.fields()) {
        return Err(TypeError::IllTyped);
    }
    Ok(TypeKind::Relation(heading.copy()?))
}

/// What a unary operator gives of an operand of this kind.
pub fn unary_kind(operator: UnaryOperator, kind: &TypeKind) -> Result<TypeKind, TypeError>
    ensures { Gives (spec.unary_kind operator kind.now) result }
{
    match operator {
        UnaryOperator::Not => where_true(is_boolean(kind), TypeKind::Boolean),
        UnaryOperator::Negate => where_true(is_integer(kind), TypeKind::Integer),
        UnaryOperator::Closure => closed_kind(kind),
        UnaryOperator::TupleFrom => match relation_heading(kind) {
            Some(heading) => Ok(TypeKind::Tuple(heading.copy()?)),
            None => Err(TypeError::IllTyped),
        },
        UnaryOperator::IsEmpty => match relation_heading(kind) {
            Some(_) => Ok(TypeKind::Boolean),
            None => Err(TypeError::IllTyped),
        },
        UnaryOperator::Count => match relation_heading(kind) {
            Some(_) => Ok(TypeKind::Integer),
            None => Err(TypeError::IllTyped),
        },
    }
}

// What JOIN gives: a relation with the attributes of both operands. They are relations whose common attributes have one
// type.
#[tactic(auto, unfolding(crate::specs::Operators::joined_kind))]
fn joined_kind(alloc: Global, a: &TypeKind, b: &TypeKind) -> Result<TypeKind, TypeError>
    ensures { Gives (spec.joined_kind a.now b.now) result }
{
    let (Some(g), Some(h)) = (relation_heading(a), relation_heading(b)) else {
        return Err(TypeError::IllTyped);
    };
    if !agree_on_types(g, h) {
        return Err(TypeError::IllTyped);
    }
    Ok(TypeKind::Relation(joined(alloc, g, h)?))
}

// What COMPOSE gives: a relation with the attributes that only one operand has. They are relations whose common
// attributes have one type.
#[tactic(auto, unfolding(crate::specs::Operators::composed_kind))]
fn composed_kind(alloc: Global, a: &TypeKind, b: &TypeKind) -> Result<TypeKind, TypeError>
    ensures { Gives (spec.composed_kind a.now b.now) result }
{
    let (Some(g), Some(h)) = (relation_heading(a), relation_heading(b)) else {
        return Err(TypeError::IllTyped);
    };
    if !agree_on_types(g, h) {
        return Err(TypeError::IllTyped);
    }
    Ok(TypeKind::Relation(composed_columns(alloc, g, h)?))
}

// What MATCHING and NOT MATCHING give: the kind of the first operand. Both are relations whose common attributes have
// one type.
#[tactic(auto, unfolding(crate::specs::Operators::matched_kind))]
fn matched_kind(a: &TypeKind, b: &TypeKind) -> Result<TypeKind, TypeError>
    ensures { Gives (spec.matched_kind a.now b.now) result }
{
    let (Some(g), Some(h)) = (relation_heading(a), relation_heading(b)) else {
        return Err(TypeError::IllTyped);
    };
    if !agree_on_types(g, h) {
        return Err(TypeError::IllTyped);
    }
    Ok(TypeKind::Relation(g.copy()?))
}

// What UNION, INTERSECT and MINUS give: the kind of both operands, which are relations of one heading.
#[tactic(auto, unfolding(crate::specs::Operators::united_kind))]
fn united_kind(a: &TypeKind, b: &TypeKind) -> Result<TypeKind, TypeError>
    ensures { Gives (spec.united_kind a.now b.now) result }
{
    let (Some(g), Some(h)) = (relation_heading(a), relation_heading(b)) else {
        return Err(TypeError::IllTyped);
    };
    if !same_heading(g, h) {
        return Err(TypeError::IllTyped);
    }
    Ok(TypeKind::Relation(g.copy()?))
}

// What a comparison of two relations gives: a truth value, where they have one heading.
#[tactic(auto, unfolding(crate::specs::Operators::compared_kind))]
fn compared_kind(a: &TypeKind, b: &TypeKind) -> Result<TypeKind, TypeError>
    ensures { Gives (spec.compared_kind a.now b.now) result }
{
    let (Some(g), Some(h)) = (relation_heading(a), relation_heading(b)) else {
        return Err(TypeError::IllTyped);
    };
    where_true(same_heading(g, h), TypeKind::Boolean)
}

// What `<`, `>`, `<=` and `>=` give: a truth value, of two integers, two texts, or two relations of one heading.
#[tactic(auto, unfolding(crate::specs::Operators::ordered_kind))]
fn ordered_kind(a: &TypeKind, b: &TypeKind) -> Result<TypeKind, TypeError>
    ensures { Gives (spec.ordered_kind a.now b.now) result }
{
    if is_integer(a) && is_integer(b) || is_char(a) && is_char(b) {
        return Ok(TypeKind::Boolean);
    }
    compared_kind(a, b)
}

// What IN gives: a truth value, of a tuple and a relation of one heading.
#[tactic(auto, unfolding(crate::specs::Operators::member_kind))]
fn member_kind(a: &TypeKind, b: &TypeKind) -> Result<TypeKind, TypeError>
    ensures { Gives (spec.member_kind a.now b.now) result }
{
    let (Some(g), Some(h)) = (tuple_heading(a), relation_heading(b)) else {
        return Err(TypeError::IllTyped);
    };
    where_true(same_heading(g, h), TypeKind::Boolean)
}

// What AND, OR and XOR give: a truth value, of two truth values.
#[tactic(auto, unfolding(crate::specs::Operators::truth_kind))]
fn truth_kind(a: &TypeKind, b: &TypeKind) -> Result<TypeKind, TypeError>
    ensures { Gives (spec.truth_kind a.now b.now) result }
{
    where_true(is_boolean(a) && is_boolean(b), TypeKind::Boolean)
}

// What `+`, `-`, `*` and `/` give: an integer, of two integers.
#[tactic(auto, unfolding(crate::specs::Operators::number_kind))]
fn number_kind(a: &TypeKind, b: &TypeKind) -> Result<TypeKind, TypeError>
    ensures { Gives (spec.number_kind a.now b.now) result }
{
    where_true(is_integer(a) && is_integer(b), TypeKind::Integer)
}

// What `||` gives: a text, of two texts.
#[tactic(auto, unfolding(crate::specs::Operators::text_kind))]
fn text_kind(a: &TypeKind, b: &TypeKind) -> Result<TypeKind, TypeError>
    ensures { Gives (spec.text_kind a.now b.now) result }
{
    where_true(is_char(a) && is_char(b), TypeKind::Char)
}

// What `=` and `<>` give: a truth value, of two operands of one kind, whichever it is.
#[tactic(auto, unfolding(crate::specs::Operators::equal_kind))]
fn equal_kind(a: &TypeKind, b: &TypeKind) -> Result<TypeKind, TypeError>
    ensures { Gives (spec.equal_kind a.now b.now) result }
{
    where_true(same_kind(a, b), TypeKind::Boolean)
}

/// What a binary operator gives of operands of these kinds.
pub fn binary_kind(
    alloc: Global,
    operator: BinaryOperator,
    a: &TypeKind,
    b: &TypeKind,
) -> Result<TypeKind, TypeError>
    ensures { Gives (spec.binary_kind operator a.now b.now) result }
{
    match operator {
        BinaryOperator::Or => truth_kind(a, b),
        BinaryOperator::Xor => truth_kind(a, b),
        BinaryOperator::And => truth_kind(a, b),
        BinaryOperator::Equals => equal_kind(a, b),
        BinaryOperator::Differs => equal_kind(a, b),
        BinaryOperator::Less => ordered_kind(a, b),
        BinaryOperator::Greater => ordered_kind(a, b),
        BinaryOperator::AtMost => ordered_kind(a, b),
        BinaryOperator::AtLeast => ordered_kind(a, b),
        BinaryOperator::In => member_kind(a, b),
        BinaryOperator::Join => joined_kind(alloc, a, b),
        BinaryOperator::Union => united_kind(a, b),
        BinaryOperator::Intersect => united_kind(a, b),
        BinaryOperator::Minus => united_kind(a, b),
        BinaryOperator::Compose => composed_kind(alloc, a, b),
        BinaryOperator::Matching => matched_kind(a, b),
        BinaryOperator::NotMatching => matched_kind(a, b),
        BinaryOperator::Add => number_kind(a, b),
        BinaryOperator::Subtract => number_kind(a, b),
        BinaryOperator::Concatenate => text_kind(a, b),
        BinaryOperator::Multiply => number_kind(a, b),
        BinaryOperator::Divide => number_kind(a, b),
    }
}

/// Whether an aggregate may be made of terms of this kind, which is then its own.
pub fn suits(aggregate: Aggregate, kind: &TypeKind) -> bool
    ensures { result ≡ spec.suits aggregate kind.now }
{
    match aggregate {
        Aggregate::Sum => is_integer(kind),
        Aggregate::Max => is_integer(kind) || is_char(kind),
        Aggregate::Min => is_integer(kind) || is_char(kind),
        Aggregate::And => is_boolean(kind),
        Aggregate::Or => is_boolean(kind),
    }
}
