//! The relvars of a script.

use crate::members::{write_text, write_texts};
use json::Writer;
use sqlite_items::Items;
use std::alloc::{AllocError, Global};
use td_definition_texts::DefinitionText;
use td_headings::Origin;
use td_values::{Heading, Name, show_type};

// Appends the attributes of a heading, each with its type.
fn write_heading(alloc: Global, out: &mut Writer, heading: &Heading) -> Result<(), AllocError> {
    out.key("heading")?;
    out.begin_array()?;
    for (name, ty) in heading.fields() {
        let ty = show_type(alloc, ty)?;
        out.begin_object()?;
        write_text(out, "name", name.as_str())?;
        write_text(out, "type", ty.as_str())?;
        out.end_object()?;
    }
    out.end_array()
}

// Appends the attributes in the order in which the script has them; those of a virtual relvar in the order of names.
fn write_order(
    alloc: Global,
    out: &mut Writer,
    heading: &Heading,
    definition: &DefinitionText<'_>,
) -> Result<(), AllocError> {
    if definition.attributes.len() == heading.len() {
        return write_texts(out, "order", &definition.attributes);
    }
    let mut names = Vec::with_capacity(alloc, heading.len())?;
    for (name, _) in heading.fields() {
        names.push(name.as_str())?;
    }
    write_texts(out, "order", &names)
}

// Appends the attributes of a key.
fn write_key(out: &mut Writer, key: &[Name]) -> Result<(), AllocError> {
    out.begin_array()?;
    for name in key {
        out.string(name.as_str())?;
    }
    out.end_array()
}

// Appends the keys of a relvar.
fn write_keys(out: &mut Writer, keys: &[Items<Name>]) -> Result<(), AllocError> {
    out.key("keys")?;
    out.begin_array()?;
    for key in keys {
        write_key(out, key.as_slice())?;
    }
    out.end_array()
}

// Appends the kind of a relvar, its keys, and the expression of a virtual one, which is null for a base relvar.
fn write_origin(out: &mut Writer, origin: Option<&Origin>, text: &str) -> Result<(), AllocError> {
    match origin {
        Some(Origin::Base(keys, _)) => {
            write_text(out, "kind", "base")?;
            write_keys(out, keys.as_slice())?;
            out.key("text")?;
            out.null()
        }
        _ => {
            write_text(out, "kind", "virtual")?;
            write_keys(out, &[])?;
            write_text(out, "text", text)
        }
    }
}

/// Appends a relvar.
pub(crate) fn write_relvar(
    alloc: Global,
    out: &mut Writer,
    heading: &Heading,
    origin: Option<&Origin>,
    definition: &DefinitionText<'_>,
) -> Result<(), AllocError> {
    out.begin_object()?;
    write_text(out, "name", definition.name)?;
    write_heading(alloc, out, heading)?;
    write_order(alloc, out, heading, definition)?;
    write_origin(out, origin, definition.text)?;
    out.end_object()
}
