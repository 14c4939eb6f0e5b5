//! Rows as statements.

use crate::rows::Row;
use std::alloc::{AllocError, Global};
use td_values::{Heading, Name};

/// The most tuples of one statement. A statement is refused as a whole, so one that is refused tells of few rows, and a
/// site that takes many rows does not hold many statements.
pub const MOST_TUPLES: usize = 200;

/// A statement that inserts rows, and how many.
#[derive(Drop)]
pub struct ImportStatement {
    pub text: String,
    pub count: usize,
}

const FRONT: &str = "INSERT ";

const OPENING: &str = " RELATION { ";

const CLOSING: &str = " };";

// How many bytes a row's tuple takes, with what stands between two.
fn tuple_bytes(heading: &Heading, row: &Row) -> usize {
    let mut bytes: usize = 12;
    for (field, literal) in heading.fields().iter().zip(&row.literals) {
        let more = field.0.as_str().len().saturating_add(literal.len());
        bytes = bytes.saturating_add(more).saturating_add(3);
    }
    bytes
}

// How many bytes an INSERT into the relvar has without its tuples.
fn frame_bytes(relvar: &Name) -> usize {
    relvar
        .as_str()
        .len()
        .saturating_add(FRONT.len() + OPENING.len() + CLOSING.len())
}

/// Whether a statement of so many bytes has room for the row.
pub(crate) fn is_short(relvar: &Name, heading: &Heading, row: &Row, most_bytes: usize) -> bool {
    frame_bytes(relvar).saturating_add(tuple_bytes(heading, row)) <= most_bytes
}

// Appends the attribute at this place of a tuple: its name with its literal in the row.
fn push_attribute(text: &mut String, at: usize, name: &Name, row: &Row) -> Result<(), AllocError> {
    let Some(literal) = row.literals.get(at) else {
        return Ok(());
    };
    text.push_str(if at == 0 { " " } else { ", " })?;
    text.push_str(name.as_str())?;
    text.push_str(" ")?;
    text.push_str(literal.as_str())
}

// Appends the row as a tuple of the language: each attribute's name with its literal.
fn push_tuple(text: &mut String, heading: &Heading, row: &Row) -> Result<(), AllocError> {
    text.push_str("TUPLE {")?;
    for (at, (name, _type)) in heading.fields().iter().enumerate() {
        push_attribute(text, at, name, row)?;
    }
    text.push_str(" }")
}

// Appends the row behind so many others.
fn push_further_tuple(
    text: &mut String,
    count: usize,
    heading: &Heading,
    row: &Row,
) -> Result<(), AllocError> {
    if count > 0 {
        text.push_str(", ")?;
    }
    push_tuple(text, heading, row)
}

// Appends as many of the rows as have room in so many bytes, with what closes them.
fn push_rows(
    text: &mut String,
    heading: &Heading,
    rows: &[Row],
    most_bytes: usize,
) -> Result<usize, AllocError> {
    for (count, row) in rows.iter().enumerate() {
        let more = tuple_bytes(heading, row).saturating_add(CLOSING.len());
        if text.len().saturating_add(more) > most_bytes {
            return Ok(count);
        }
        push_further_tuple(text, count, heading, row)?;
    }
    Ok(rows.len())
}

/// The statement that inserts the first of these rows: as many as have room in so many bytes, and 200 at most.
pub fn insertion_of(
    alloc: Global,
    relvar: &Name,
    heading: &Heading,
    rows: &[Row],
    most_bytes: usize,
) -> Result<ImportStatement, AllocError> {
    let mut text = String::from_str(alloc, FRONT)?;
    text.push_str(relvar.as_str())?;
    text.push_str(OPENING)?;
    let most = rows.len().min(MOST_TUPLES);
    let count = push_rows(&mut text, heading, &rows[..most], most_bytes)?;
    text.push_str(CLOSING)?;
    Ok(ImportStatement { text, count })
}
