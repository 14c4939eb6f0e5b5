//! The order of types and of values.
ghost use Rattle.std.specs.Prelude.{◌≡◌, ◌↔◌, IsTrue, refl};
ghost use Rattle.std.specs.Ordering.{eq_by_cmp, as_partial_cmp};
ghost use Rattle.td_values.specs.Proving.Total.{attrs_order_total, attrs_equivalence, attrs_partial_order, attrs_partial_equivalence};
ghost use Rattle.td_values.specs.Order.{order, rank, ty_rank, ty_order, attrs_order, fields_order, items_order, tuples_order};
ghost use Rattle.td_values.specs.Data.{fields_of, items_of, attrs_of, tuples_of};
ghost use Rattle.td_values.specs.Headings.{header_fields};

use crate::names::Name;
use crate::{Heading, Kind, TdType, Tuple, TypeKind, Value};
use std::cmp::Ordering;

/// The order of types: by kind, then by name or by heading.
#[cycle(compare_types)]
pub fn compare_types(a: &TdType, b: &TdType) -> Ordering
    ensures { result ≡ ty_order a.now b.now }
{
    match (&a.kind, &b.kind) {
        (TypeKind::User(m), TypeKind::User(n)) => m.compare(n),
        (TypeKind::Tuple(g), TypeKind::Tuple(h)) => compare_headings(g, h),
        (TypeKind::Relation(g), TypeKind::Relation(h)) => compare_headings(g, h),
        _ => type_rank(a).cmp(&type_rank(b)),
    }
}

// The number of the type's kind, by which types of two kinds are ordered.
fn type_rank(a: &TdType) -> u8
    ensures { result ≡ ty_rank a.now }
{
    match &a.kind {
        TypeKind::Boolean => 0,
        TypeKind::Integer => 1,
        TypeKind::Char => 2,
        TypeKind::User(_) => 3,
        TypeKind::Tuple(_) => 4,
        TypeKind::Relation(_) => 5,
    }
}

/// Whether the types are the same. It takes no memory.
pub fn equal_types(a: &TdType, b: &TdType) -> bool
    ensures { IsTrue result ↔ (a.now ≡ b.now) }
{
    compare_types(a, b).is_eq()
}

/// Whether the kinds of types are the same. It takes no memory.
pub fn equal_kinds(a: &TypeKind, b: &TypeKind) -> bool
    ensures { IsTrue result ↔ (a.now ≡ b.now) }
{
    match (a, b) {
        (TypeKind::Boolean, TypeKind::Boolean) => true,
        (TypeKind::Integer, TypeKind::Integer) => true,
        (TypeKind::Char, TypeKind::Char) => true,
        (TypeKind::User(m), TypeKind::User(n)) => m == n,
        (TypeKind::Tuple(g), TypeKind::Tuple(h)) => equal_headings(g, h),
        (TypeKind::Relation(g), TypeKind::Relation(h)) => equal_headings(g, h),
        _ => false,
    }
}

/// Whether the headings are the same. It takes no memory.
pub fn equal_headings(a: &Heading, b: &Heading) -> bool
    ensures { IsTrue result ↔ (a.now ≡ b.now) }
{
    compare_headings(a, b).is_eq()
}

/// The order of headings: by their names and types in name order, a proper prefix first.
#[cycle(compare_types)]
pub fn compare_headings(a: &Heading, b: &Heading) -> Ordering
    ensures { result ≡ fields_order (header_fields a.now) (header_fields b.now) }
{
    compare_fields(&a.fields, &b.fields)
}

// The order of lists of fields: field by field, by its name and its type, a proper prefix first.
#[cycle(compare_types)]
#[tactic(auto, using(crate::proofs::Walks::fields_ended))]
fn compare_fields(a: &[(Name, TdType)], b: &[(Name, TdType)]) -> Ordering
    ensures { result ≡ fields_order (fields_of a.now) (fields_of b.now) }
{
    let mut i = 0;
    while i < a.len() && i < b.len() {
        let (m, s) = &a[i];
        let (n, t) = &b[i];
        let ordering = m.compare(n).then(compare_types(s, t));
        if ordering != Ordering::Equal {
            return ordering;
        }
        i += 1;
    }
    a.len().cmp(&b.len())
}

/// The number of the value's kind, by which values of two kinds are ordered.
pub(crate) fn kind_rank(a: &Value) -> u8
    ensures { result ≡ rank a.now }
{
    match &a.kind {
        Kind::Boolean(_) => 0,
        Kind::Integer(_) => 1,
        Kind::Char(_) => 2,
        Kind::User(_, _) => 3,
        Kind::Tuple(_) => 4,
        Kind::Relation(_) => 5,
    }
}

/// The order of values, which on values of one type is that of the language. Values of two kinds have the order
/// of their kinds. It takes no memory.
#[cycle(compare)]
pub fn compare(a: &Value, b: &Value) -> Ordering
    ensures { result ≡ order a.now b.now }
{
    match (&a.kind, &b.kind) {
        (Kind::Boolean(x), Kind::Boolean(y)) => x.cmp(y),
        (Kind::Integer(x), Kind::Integer(y)) => x.cmp(y),
        (Kind::Char(x), Kind::Char(y)) => x.compare(y),
        (Kind::User(p, xs), Kind::User(q, ys)) => {
            p.compare(q).then(compare_items(&xs.values, &ys.values))
        }
        (Kind::Tuple(s), Kind::Tuple(t)) => compare_tuples(s, t),
        (Kind::Relation(r), Kind::Relation(s)) => {
            let headings = compare_headings(&r.heading, &s.heading);
            headings.then(compare_rows(&r.tuples, &s.tuples))
        }
        _ => kind_rank(a).cmp(&kind_rank(b)),
    }
}

/// Whether the values are the same. It takes no memory.
pub fn equal(a: &Value, b: &Value) -> bool
    ensures { IsTrue result ↔ (a.now ≡ b.now) }
{
    compare(a, b).is_eq()
}

/// The order of the components of user values: one by one, a proper prefix first. It takes no memory.
#[cycle(compare)]
#[tactic(auto, using(crate::proofs::Walks::items_ended))]
pub(crate) fn compare_items(a: &[Value], b: &[Value]) -> Ordering
    ensures { result ≡ items_order (items_of a.now) (items_of b.now) }
{
    let mut i = 0;
    while i < a.len() && i < b.len() {
        let ordering = compare(&a[i], &b[i]);
        if ordering != Ordering::Equal {
            return ordering;
        }
        i += 1;
    }
    a.len().cmp(&b.len())
}

/// The order of tuples: by their names and values in name order, a proper prefix first.
#[cycle(compare)]
pub fn compare_tuples(a: &Tuple, b: &Tuple) -> Ordering
    ensures { result ≡ attrs_order a.now b.now }
{
    compare_attributes(&a.attributes, &b.attributes)
}

// The order of lists of attributes: one by one, by its name and its value, a proper prefix first.
#[cycle(compare)]
#[tactic(auto, using(crate::proofs::Walks::attrs_ended))]
fn compare_attributes(a: &[(Name, Value)], b: &[(Name, Value)]) -> Ordering
    ensures { result ≡ attrs_order (attrs_of a.now) (attrs_of b.now) }
{
    let mut i = 0;
    while i < a.len() && i < b.len() {
        let (m, x) = &a[i];
        let (n, y) = &b[i];
        let ordering = m.compare(n).then(compare(x, y));
        if ordering != Ordering::Equal {
            return ordering;
        }
        i += 1;
    }
    a.len().cmp(&b.len())
}

// The order of lists of tuples: tuple by tuple, a proper prefix first.
#[cycle(compare)]
#[tactic(auto, using(crate::proofs::Walks::tuples_ended))]
fn compare_rows(a: &[Tuple], b: &[Tuple]) -> Ordering
    ensures { result ≡ tuples_order (tuples_of a.now) (tuples_of b.now) }
{
    let mut i = 0;
    while i < a.len() && i < b.len() {
        let ordering = compare_tuples(&a[i], &b[i]);
        if ordering != Ordering::Equal {
            return ordering;
        }
        i += 1;
    }
    a.len().cmp(&b.len())
}

impl PartialEq for Tuple {
    ghost eq = { eq_by_cmp attrs_order };

    ghost laws = { attrs_partial_equivalence };

    fn eq(&self, other: &Tuple) -> bool {
        compare_tuples(self, other).is_eq()
    }
}

impl Eq for Tuple {
    ghost laws = { attrs_equivalence };
}

impl PartialOrd for Tuple {
    ghost partial_cmp = { as_partial_cmp attrs_order };

    ghost laws = { attrs_partial_order };

    fn partial_cmp(&self, other: &Tuple) -> Option<Ordering> {
        Some(compare_tuples(self, other))
    }
}

impl Ord for Tuple {
    ghost cmp = { attrs_order };

    ghost total = { attrs_order_total };

    ghost matches_partial_cmp = { λ x y. refl };

    ghost matches_eq = { λ x y. refl };

    fn cmp(&self, other: &Tuple) -> Ordering {
        compare_tuples(self, other)
    }
}
