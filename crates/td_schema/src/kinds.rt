//! Kinds of types and headings: what they are, and which are the same.

ghost use Rattle.std.specs.Prelude.{◌≡◌};
ghost use Rattle.std.specs.Option.{option_copied};
ghost use Rattle.td_schema.specs.Kinds as spec;

use td_values::{Heading, Name, TdType, TypeKind, compare_headings, compare_types};

/// Whether the types are one. It takes no memory.
pub(crate) fn same_type(a: &TdType, b: &TdType) -> bool
    ensures { result ≡ spec.same_type a.now b.now }
{
    compare_types(a, b).is_eq()
}

/// Whether the headings are one. It takes no memory.
pub fn same_heading(a: &Heading, b: &Heading) -> bool
    ensures { result ≡ spec.same_heading a.now b.now }
{
    compare_headings(a, b).is_eq()
}

/// Whether the kinds of types are one. It takes no memory.
pub fn same_kind(a: &TypeKind, b: &TypeKind) -> bool
    ensures { result ≡ spec.same_kind a.now b.now }
{
    match (a, b) {
        (TypeKind::Boolean, TypeKind::Boolean) => true,
        (TypeKind::Integer, TypeKind::Integer) => true,
        (TypeKind::Char, TypeKind::Char) => true,
        (TypeKind::User(m), TypeKind::User(n)) => m == n,
        (TypeKind::Tuple(g), TypeKind::Tuple(h)) => same_heading(g, h),
        (TypeKind::Relation(g), TypeKind::Relation(h)) => same_heading(g, h),
        _ => false,
    }
}

pub fn is_boolean(kind: &TypeKind) -> bool
    ensures { result ≡ spec.is_boolean kind.now }
{
    match kind {
        TypeKind::Boolean => true,
        _ => false,
    }
}

pub(crate) fn is_integer(kind: &TypeKind) -> bool
    ensures { result ≡ spec.is_integer kind.now }
{
    match kind {
        TypeKind::Integer => true,
        _ => false,
    }
}

pub(crate) fn is_char(kind: &TypeKind) -> bool
    ensures { result ≡ spec.is_char kind.now }
{
    match kind {
        TypeKind::Char => true,
        _ => false,
    }
}

/// The heading of a relation.
pub fn relation_heading(kind: &TypeKind) -> Option<&Heading>
    ensures { option_copied result ≡ spec.relation_heading kind.now }
{
    match kind {
        TypeKind::Relation(heading) => Some(heading),
        _ => None,
    }
}

/// The heading of a tuple.
pub fn tuple_heading(kind: &TypeKind) -> Option<&Heading>
    ensures { option_copied result ≡ spec.tuple_heading kind.now }
{
    match kind {
        TypeKind::Tuple(heading) => Some(heading),
        _ => None,
    }
}

/// The name of a user-defined type.
pub fn user_name(kind: &TypeKind) -> Option<&Name>
    ensures { option_copied result ≡ spec.user_name kind.now }
{
    match kind {
        TypeKind::User(name) => Some(name),
        _ => None,
    }
}

/// Whether no attribute has the name.
pub(crate) fn is_new(heading: &Heading, name: &Name) -> bool
    ensures { result ≡ spec.is_new heading.now name.now }
{
    heading.type_of(name).is_none()
}

/// Whether each name is an attribute's.
pub(crate) fn are_there(names: &[Name], heading: &Heading) -> bool
    ensures { result ≡ spec.are_there names.now heading.now }
{
    names.iter().all(|name| !is_new(heading, name))
}

/// Whether no name is an attribute's.
pub(crate) fn are_new(names: &[Name], heading: &Heading) -> bool
    ensures { result ≡ spec.are_new names.now heading.now }
{
    names.iter().all(|name| is_new(heading, name))
}

// Whether the heading lets the field stand beside its attributes: none has the field's name, or the one that has it has
// the field's type too.
fn may_stand_beside(heading: &Heading, field: &(Name, TdType)) -> bool
    ensures { result ≡ spec.may_stand_beside heading.now field.now }
{
    match heading.type_of(&field.0) {
        None => true,
        Some(ty) => same_type(ty, &field.1),
    }
}

/// Whether common attributes have one type.
pub(crate) fn agree_on_types(first: &Heading, second: &Heading) -> bool
    ensures { result ≡ spec.agree_on_types first.now second.now }
{
    second
        .fields()
        .iter()
        .all(|field| may_stand_beside(first, field))
}

// Whether the heading has an attribute with the field's name and type.
fn has_attribute(heading: &Heading, field: &(Name, TdType)) -> bool
    ensures { result ≡ spec.has_attribute heading.now field.now }
{
    match heading.type_of(&field.0) {
        None => false,
        Some(ty) => same_type(ty, &field.1),
    }
}

/// Whether the first heading is a subset of the second.
pub fn is_part(first: &Heading, second: &Heading) -> bool
    ensures { result ≡ spec.is_part first.now second.now }
{
    first
        .fields()
        .iter()
        .all(|field| has_attribute(second, field))
}
