//! The constraints of a script.

use crate::members::{write_text, write_texts};
use json::Writer;
use std::alloc::{AllocError, Global};
use td_definition_texts::DefinitionText;
use td_schema::schema::Schema;
use td_values::{Heading, Name};

/// That one relvar refers to another one, by the attributes that both have.
#[derive(Clone, Copy)]
struct Reference<'a> {
    from: (&'a Name, &'a Heading),
    to: (&'a Name, &'a Heading),
}

// The relvar of this name.
fn relvar_named<'a>(schema: &'a Schema, name: &str) -> Option<(&'a Name, &'a Heading)> {
    for index in 0..schema.relvar_count() {
        if let Some((relvar, heading)) = schema.relvar_at(index)
            && relvar.as_str() == name
        {
            return Some((relvar, heading));
        }
    }
    None
}

// The names of both relvars in `IS_EMPTY ( R NOT MATCHING S )`.
fn referring_names(text: &str) -> Option<(&str, &str)> {
    let inner = text
        .strip_prefix("IS_EMPTY")?
        .trim_ascii()
        .strip_prefix("(")?
        .strip_suffix(")")?;
    let (from, rest) = inner.split_once("NOT")?;
    let to = rest.trim_ascii().strip_prefix("MATCHING")?;
    Some((from.trim_ascii(), to.trim_ascii()))
}

// The reference that a constraint says.
fn reference_in<'a>(schema: &'a Schema, text: &str) -> Option<Reference<'a>> {
    let (from, to) = referring_names(text)?;
    Some(Reference {
        from: relvar_named(schema, from)?,
        to: relvar_named(schema, to)?,
    })
}

// Appends a reference as the member `reference`.
fn write_reference(
    alloc: Global,
    out: &mut Writer,
    reference: Reference<'_>,
) -> Result<(), AllocError> {
    let mut attributes = Vec::new(alloc);
    for (name, _) in reference.from.1.fields() {
        if reference.to.1.type_of(name).is_some() {
            attributes.push(name.as_str())?;
        }
    }
    out.key("reference")?;
    out.begin_object()?;
    write_text(out, "from", reference.from.0.as_str())?;
    write_text(out, "to", reference.to.0.as_str())?;
    write_texts(out, "attributes", &attributes)?;
    out.end_object()
}

// Appends the relvars that a definition names, each once.
fn write_relvars(
    alloc: Global,
    out: &mut Writer,
    schema: &Schema,
    definition: &DefinitionText<'_>,
) -> Result<(), AllocError> {
    let mut relvars = Vec::new(alloc);
    for index in 0..schema.relvar_count() {
        if let Some((relvar, _)) = schema.relvar_at(index)
            && definition.names.iter().any(|name| *name == relvar.as_str())
        {
            relvars.push(relvar.as_str())?;
        }
    }
    write_texts(out, "relvars", &relvars)
}

/// Appends a constraint, with the reference that it is, or null.
pub(crate) fn write_constraint(
    alloc: Global,
    out: &mut Writer,
    schema: &Schema,
    definition: &DefinitionText<'_>,
) -> Result<(), AllocError> {
    out.begin_object()?;
    write_text(out, "name", definition.name)?;
    write_text(out, "text", definition.text)?;
    write_relvars(alloc, out, schema, definition)?;
    match reference_in(schema, definition.text) {
        Some(reference) => write_reference(alloc, out, reference)?,
        None => {
            out.key("reference")?;
            out.null()?;
        }
    }
    out.end_object()
}
