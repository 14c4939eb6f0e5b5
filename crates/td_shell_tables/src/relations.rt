//! Relations as tables.

use crate::layout::{Column, Side, lay_out};
use std::alloc::{AllocError, Global};
use td_terminals::push_in_line;
use td_values::{Heading, Kind, Name, TdType, Tuple, TypeKind, Value, show};

// At which side values of this type stand: integers at the right, and all others at the left.
fn side_of(kind: &TypeKind) -> Side {
    match kind {
        TypeKind::Integer => Side::Right,
        _ => Side::Left,
    }
}

// A column for each attribute, with its name for the title, in their order.
fn columns_of<'a>(
    alloc: Global,
    fields: &'a [(Name, TdType)],
) -> Result<Vec<Column<'a>>, AllocError> {
    let mut columns = Vec::with_capacity(alloc, fields.len())?;
    for (name, ty) in fields {
        columns.push(Column {
            title: name.as_str(),
            side: side_of(&ty.kind),
        })?;
    }
    Ok(columns)
}

// A text that stays in its line.
fn in_line(alloc: Global, text: &str) -> Result<String, AllocError> {
    let mut line = String::with_capacity(alloc, text.len())?;
    push_in_line(&mut line, text)?;
    Ok(line)
}

// The value in one line: a text as it stands, and any other value as the language writes it.
fn cell(alloc: Global, value: &Value) -> Result<String, AllocError> {
    match &value.kind {
        Kind::Char(text) => in_line(alloc, text.as_str()),
        _ => in_line(alloc, show(alloc, value)?.as_str()),
    }
}

// The tuple's values as cells, in the order of its attributes.
fn cells(alloc: Global, tuple: &Tuple) -> Result<Vec<String>, AllocError> {
    let mut cells = Vec::with_capacity(alloc, tuple.attributes().len())?;
    for (_name, value) in tuple.attributes() {
        cells.push(cell(alloc, value)?)?;
    }
    Ok(cells)
}

// The cells of each tuple, in the order of the tuples.
fn rows_of(alloc: Global, tuples: &[Tuple]) -> Result<Vec<Vec<String>>, AllocError> {
    let mut rows = Vec::with_capacity(alloc, tuples.len())?;
    for tuple in tuples {
        rows.push(cells(alloc, tuple)?)?;
    }
    Ok(rows)
}

/// `1 tuple`, or how many there are.
pub fn counted_tuples(alloc: Global, count: usize) -> Result<String, AllocError> {
    if count == 1 {
        return String::from_str(alloc, "1 tuple");
    }
    format!(in alloc; "{count} tuples")
}

// The lines of a table but for the last one.
fn lines_of(alloc: Global, heading: &Heading, tuples: &[Tuple]) -> Result<String, AllocError> {
    if heading.is_empty() {
        return String::from_str(alloc, "(no attributes)\n");
    }
    let columns = columns_of(alloc, heading.fields())?;
    let rows = rows_of(alloc, tuples)?;
    lay_out(alloc, &columns, &rows)
}

/// A relation's table: its attributes in the order of their names, its tuples in their order, and how many there are.
/// Integers stand at the right. Texts stand as they are, and other values as the language writes them. A relation
/// without attributes has no columns. It costs the length of what it gives.
pub fn relation_table(
    alloc: Global,
    heading: &Heading,
    tuples: &[Tuple],
) -> Result<String, AllocError> {
    let mut out = lines_of(alloc, heading, tuples)?;
    let count = counted_tuples(alloc, tuples.len())?;
    out.push_str(count.as_str())?;
    out.push_str("\n")?;
    Ok(out)
}
