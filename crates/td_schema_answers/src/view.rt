//! All that a script defines.

use crate::constraints::write_constraint;
use crate::members::write_text;
use crate::relvars::write_relvar;
use crate::types::write_type;
use json::Writer;
use std::alloc::{AllocError, Global};
use td_definition_texts::{
    DefinitionKind, DefinitionText, Label, ScriptTokens, definition_texts, labels,
};
use td_headings::Catalogue;
use td_values::Name;

// Appends the types, in the order of the script.
fn write_types(
    out: &mut Writer,
    catalogue: &Catalogue,
    definitions: &[DefinitionText<'_>],
) -> Result<(), AllocError> {
    out.key("types")?;
    out.begin_array()?;
    let mut index: usize = 0;
    for definition in definitions {
        if definition.kind != DefinitionKind::Type {
            continue;
        }
        if let Some(representation) = catalogue.representation_at(index) {
            write_type(out, representation, definition.text)?;
        }
        index = index.saturating_add(1);
    }
    out.end_array()
}

// Whether a definition is that of the relvar of this name.
fn is_of_relvar(definition: &DefinitionText<'_>, name: &Name) -> bool {
    matches!(
        definition.kind,
        DefinitionKind::BaseRelvar | DefinitionKind::VirtualRelvar
    ) && definition.name == name.as_str()
}

// The definition of the relvar of this name.
fn definition_of<'a, 'b>(
    definitions: &'a [DefinitionText<'b>],
    name: &Name,
) -> Option<&'a DefinitionText<'b>> {
    for definition in definitions {
        if is_of_relvar(definition, name) {
            return Some(definition);
        }
    }
    None
}

// Appends the relvars, in the order of the script.
fn write_relvars(
    alloc: Global,
    out: &mut Writer,
    catalogue: &Catalogue,
    definitions: &[DefinitionText<'_>],
) -> Result<(), AllocError> {
    out.key("relvars")?;
    out.begin_array()?;
    for index in 0..catalogue.schema().relvar_count() {
        if let Some((name, heading)) = catalogue.relvar_at(index)
            && let Some(definition) = definition_of(definitions, name)
        {
            write_relvar(alloc, out, heading, catalogue.origin(index), definition)?;
        }
    }
    out.end_array()
}

// Appends the constraints, in the order of the script.
fn write_constraints(
    alloc: Global,
    out: &mut Writer,
    catalogue: &Catalogue,
    definitions: &[DefinitionText<'_>],
) -> Result<(), AllocError> {
    out.key("constraints")?;
    out.begin_array()?;
    for definition in definitions {
        if definition.kind == DefinitionKind::Constraint {
            write_constraint(alloc, out, catalogue.schema(), definition)?;
        }
    }
    out.end_array()
}

// Whether a label is the first one of its name.
fn is_first(labels: &[Label<'_>], index: usize, name: &str) -> bool {
    labels
        .iter()
        .position(|label| label.name == name)
        .is_some_and(|first| first == index)
}

// Appends what comments say of names: of each name the first one.
fn write_labels(out: &mut Writer, labels: &[Label<'_>]) -> Result<(), AllocError> {
    out.key("labels")?;
    out.begin_object()?;
    for (index, label) in labels.iter().enumerate() {
        if is_first(labels, index, label.name) {
            write_text(out, label.name, label.words)?;
        }
    }
    out.end_object()
}

/// Appends what a script defines, as the members `types`, `relvars`, `constraints` and `labels`.
pub fn write_schema(
    alloc: Global,
    catalogue: &Catalogue,
    script: &str,
    out: &mut Writer,
) -> Result<(), AllocError> {
    let source = ScriptTokens::read(alloc, script)?;
    let definitions = definition_texts(alloc, &source)?;
    write_types(out, catalogue, &definitions)?;
    write_relvars(alloc, out, catalogue, &definitions)?;
    write_constraints(alloc, out, catalogue, &definitions)?;
    write_labels(out, &labels(alloc, &source)?)
}
