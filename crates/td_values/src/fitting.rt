//! Whether a tuple has a heading.
ghost use Rattle.std.specs.Prelude.{◌≡◌, ◌↔◌, IsTrue};
ghost use Rattle.td_values.specs.Data.{attrs_of, fields_of};
ghost use Rattle.td_values.specs.Headings.{header_fields};
ghost use Rattle.td_values.specs.Whole.{type_of, heading_of};

use crate::names::Name;
use crate::order::compare_headings;
use crate::{Heading, Kind, TdType, Tuple, TypeKind, Value};

/// Whether the tuple's names and the types of its values are those of the heading. It takes no memory.
#[cycle(fits)]
pub fn fits(tuple: &Tuple, heading: &Heading) -> bool
    ensures { IsTrue result ↔ (heading_of tuple.now ≡ header_fields heading.now) }
{
    fit_fields(&tuple.attributes, &heading.fields)
}

// Whether the attributes have the names and the types of the fields, one by one, and are as many.
#[cycle(fits)]
fn fit_fields(attributes: &[(Name, Value)], fields: &[(Name, TdType)]) -> bool
    ensures { IsTrue result ↔ (heading_of (attrs_of attributes.now) ≡ fields_of fields.now) }
{
    let mut i = 0;
    while i < attributes.len() && i < fields.len() {
        let attribute = &attributes[i];
        let field = &fields[i];
        if attribute.0 != field.0 {
            return false;
        }
        if !has_type(&attribute.1, &field.1) {
            return false;
        }
        i += 1;
    }
    attributes.len() == fields.len()
}

/// Whether the value is of the type. It takes no memory.
#[cycle(fits)]
pub fn has_type(value: &Value, ty: &TdType) -> bool
    ensures { IsTrue result ↔ (type_of value.now ≡ ty.now) }
{
    match (&value.kind, &ty.kind) {
        (Kind::Boolean(_), TypeKind::Boolean) => true,
        (Kind::Integer(_), TypeKind::Integer) => true,
        (Kind::Char(_), TypeKind::Char) => true,
        (Kind::User(p, _), TypeKind::User(n)) => p.ty() == n,
        (Kind::Tuple(t), TypeKind::Tuple(h)) => fits(t, h),
        (Kind::Relation(r), TypeKind::Relation(h)) => compare_headings(&r.heading, h).is_eq(),
        _ => false,
    }
}
