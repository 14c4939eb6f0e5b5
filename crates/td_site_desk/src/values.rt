//! Values as JSON.

use crate::words::{write_count, write_text};
use std::alloc::{AllocError, Global};
use td_http_api::{OrderBy, Selection, Writer, write_integer};
use td_selections::{SortError, SortKey, selected_tuples, sort_key};
use td_values::{Heading, Kind, Rows, Tuple, Value, show, show_type};

// Texts, numbers and truth values as they are, and all others as the language writes them.
fn write_cell(alloc: Global, out: &mut Writer, value: &Value) -> Result<(), AllocError> {
    match &value.kind {
        Kind::Integer(n) => write_integer(out, *n),
        Kind::Boolean(truth) => out.boolean(*truth),
        Kind::Char(text) => out.string(text.as_str()),
        _ => {
            let text = show(alloc, value)?;
            out.string(text.as_str())
        }
    }
}

/// Appends the attributes of a heading, each with its type.
pub(crate) fn write_heading(
    alloc: Global,
    out: &mut Writer,
    heading: &Heading,
) -> Result<(), AllocError> {
    out.key("heading")?;
    out.begin_array()?;
    for (name, ty) in heading.fields() {
        out.begin_object()?;
        write_text(out, "name", name.as_str())?;
        let text = show_type(alloc, ty)?;
        write_text(out, "type", text.as_str())?;
        out.end_object()?;
    }
    out.end_array()
}

/// Appends a tuple as an array of its values, in the order of its attributes.
pub(crate) fn write_tuple(
    alloc: Global,
    out: &mut Writer,
    tuple: &Tuple,
) -> Result<(), AllocError> {
    out.begin_array()?;
    for (_, value) in tuple.attributes() {
        write_cell(alloc, out, value)?;
    }
    out.end_array()
}

/// Why a value is not shown.
#[derive(Clone, Copy)]
pub(crate) enum Unshown {
    /// Its tuples are not ordered by the attribute of this index of the order.
    Order { index: usize, error: SortError },
    Memory,
}

impl From<AllocError> for Unshown {
    fn from(_: AllocError) -> Unshown {
        Unshown::Memory
    }
}

// The attributes of a heading by which tuples are ordered.
fn keys_of(alloc: Global, heading: &Heading, order: &[OrderBy]) -> Result<Vec<SortKey>, Unshown> {
    let mut keys = Vec::new(alloc);
    for (index, by) in order.iter().enumerate() {
        match sort_key(heading, by.attribute.as_str(), by.is_descending) {
            Ok(key) => {
                if keys.push(key).is_err() {
                    return Err(Unshown::Memory);
                }
            }
            Err(error) => return Err(Unshown::Order { index, error }),
        }
    }
    Ok(keys)
}

// Appends these tuples, `count` of them from `first` on.
fn write_tuples(
    alloc: Global,
    out: &mut Writer,
    tuples: &[&Tuple],
    selection: &Selection<'_>,
) -> Result<(), AllocError> {
    write_count(out, "total", tuples.len() as u64)?;
    out.key("rows")?;
    out.begin_array()?;
    let first = usize::try_from(selection.first).unwrap_or(usize::MAX);
    let count = match selection.count {
        Some(count) => usize::try_from(count).unwrap_or(usize::MAX),
        None => usize::MAX,
    };
    for tuple in tuples.iter().skip(first).take(count) {
        write_tuple(alloc, out, *tuple)?;
    }
    out.end_array()
}

// Appends the heading, how many tuples are selected, and those that are asked for.
fn write_rows(
    alloc: Global,
    out: &mut Writer,
    rows: &Rows,
    selection: &Selection<'_>,
) -> Result<(), Unshown> {
    let keys = keys_of(alloc, rows.heading(), &selection.order)?;
    let tuples = selected_tuples(alloc, rows.tuples(), selection.contains, &keys)?;
    write_heading(alloc, out, rows.heading())?;
    write_tuples(alloc, out, &tuples, selection)?;
    Ok(())
}

/// Appends the members of a value; of a relation the tuples that are selected.
pub(crate) fn write_value(
    alloc: Global,
    out: &mut Writer,
    value: &Value,
    selection: &Selection<'_>,
) -> Result<(), Unshown> {
    match &value.kind {
        Kind::Relation(rows) => write_rows(alloc, out, rows, selection),
        _ => {
            out.key("value")?;
            write_cell(alloc, out, value)?;
            Ok(())
        }
    }
}

/// The text of a value: a text as it is, and any other value as the language writes it.
pub(crate) fn cell_text(alloc: Global, value: &Value) -> Result<String, AllocError> {
    match &value.kind {
        Kind::Char(text) => String::from_str(alloc, text.as_str()),
        Kind::Boolean(truth) => String::from_str(alloc, if *truth { "true" } else { "false" }),
        _ => show(alloc, value),
    }
}
