//! The types of a script.

use crate::members::write_text;
use json::Writer;
use std::alloc::AllocError;
use td_schema::schema::Representation;
use td_syntax::tree::Named;
use td_values::TypeKind;

// The name of a component's type.
fn type_name(kind: &TypeKind) -> &str {
    match kind {
        TypeKind::Boolean => "BOOLEAN",
        TypeKind::Integer => "INTEGER",
        TypeKind::Char => "CHAR",
        TypeKind::User(name) => name.as_str(),
        TypeKind::Tuple(_) => "TUPLE",
        TypeKind::Relation(_) => "RELATION",
    }
}

// Appends the components of a type, each with its name and its type.
fn write_components(out: &mut Writer, components: &[Named<TypeKind>]) -> Result<(), AllocError> {
    out.key("components")?;
    out.begin_array()?;
    for component in components {
        out.begin_object()?;
        write_text(out, "name", component.name.as_str())?;
        write_text(out, "type", type_name(&component.value))?;
        out.end_object()?;
    }
    out.end_array()
}

/// Appends a type with its selector, its components and its constraint, which is empty if it has none.
pub(crate) fn write_type(
    out: &mut Writer,
    representation: &Representation,
    constraint: &str,
) -> Result<(), AllocError> {
    out.begin_object()?;
    write_text(out, "name", representation.possrep.ty().as_str())?;
    write_text(out, "possrep", representation.possrep.name().as_str())?;
    write_components(out, representation.components.as_slice())?;
    write_text(out, "constraint", constraint)?;
    out.end_object()
}
