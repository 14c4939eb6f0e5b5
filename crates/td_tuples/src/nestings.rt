//! Headings with tuple- and relation-valued columns.
ghost use Rattle.std.specs.Prelude.{◌≡◌, ◌↔◌, IsTrue, IfOk};
ghost use Rattle.td_tuples.specs.Nestings.{IsRelationValued, IsTupleValued, columns_of_type, grouped_columns, inner_columns, opened_columns, wrapped_columns};

use crate::headings::{columns_in, columns_out, joined, with_column};
use std::alloc::{AllocError, Global};
use std::slice;
use td_values::{Heading, Name, TdType, TypeKind};

/// The columns at the other names, and the name with relations over the columns at these.
pub fn grouped_columns(
    alloc: Global,
    names: &[Name],
    name: &Name,
    heading: &Heading,
) -> Result<Heading, AllocError>
    ensures { IfOk result (λ h. h ≡ grouped_columns names.now name.now heading.now) }
{
    let outer = columns_out(alloc, names, heading)?;
    let ty = TdType {
        kind: TypeKind::Relation(columns_in(alloc, names, heading)?),
    };
    with_column(alloc, &outer, name.copy()?, ty)
}

/// The columns at the other names, and the name with tuples over the columns at these.
pub fn wrapped_columns(
    alloc: Global,
    names: &[Name],
    name: &Name,
    heading: &Heading,
) -> Result<Heading, AllocError>
    ensures { IfOk result (λ h. h ≡ wrapped_columns names.now name.now heading.now) }
{
    let outer = columns_out(alloc, names, heading)?;
    let ty = TdType {
        kind: TypeKind::Tuple(columns_in(alloc, names, heading)?),
    };
    with_column(alloc, &outer, name.copy()?, ty)
}

// The columns that a tuple or relation type is made from.
fn columns_of_type(alloc: Global, ty: &TdType) -> Result<Heading, AllocError>
    ensures { IfOk result (λ h. h ≡ columns_of_type ty.now) }
{
    match &ty.kind {
        TypeKind::Tuple(h) => h.copy(),
        TypeKind::Relation(h) => h.copy(),
        _ => Heading::new(alloc),
    }
}

/// The columns inside the tuple or relation type at the name; none where there is no such type.
pub fn inner_columns(alloc: Global, heading: &Heading, name: &Name) -> Result<Heading, AllocError>
    ensures { IfOk result (λ h. h ≡ inner_columns name.now heading.now) }
{
    match heading.type_of(name) {
        Some(ty) => columns_of_type(alloc, ty),
        None => Heading::new(alloc),
    }
}

/// The columns at the other names, and those inside the tuple or relation type at this one.
pub fn opened_columns(alloc: Global, heading: &Heading, name: &Name) -> Result<Heading, AllocError>
    ensures { IfOk result (λ h. h ≡ opened_columns name.now heading.now) }
{
    let outer = columns_out(alloc, slice::from_ref(name), heading)?;
    let inner = inner_columns(alloc, heading, name)?;
    joined(alloc, &outer, &inner)
}

/// Whether the heading has a relation type at the name. It takes no memory.
pub fn is_relation_valued(heading: &Heading, name: &Name) -> bool
    ensures { IsTrue result ↔ IsRelationValued name.now heading.now }
{
    match heading.type_of(name) {
        Some(ty) => matches!(&ty.kind, TypeKind::Relation(_)),
        None => false,
    }
}

/// Whether the heading has a tuple type at the name. It takes no memory.
pub fn is_tuple_valued(heading: &Heading, name: &Name) -> bool
    ensures { IsTrue result ↔ IsTupleValued name.now heading.now }
{
    match heading.type_of(name) {
        Some(ty) => matches!(&ty.kind, TypeKind::Tuple(_)),
        None => false,
    }
}
