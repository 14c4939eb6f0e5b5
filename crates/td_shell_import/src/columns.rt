//! Which column has the cells of which attribute.

use crate::error::ImportFault;
use csv::ByteRecord;
use std::alloc::{AllocError, Global};
use td_terminals::push_in_line;
use td_values::{Heading, Name, TdType};

/// The bytes as a text to be told in one line.
pub(crate) fn printable_text(alloc: Global, bytes: &[u8]) -> Result<String, AllocError> {
    let text = String::from_utf8_lossy(alloc, bytes)?;
    let mut told = String::with_capacity(alloc, text.len())?;
    push_in_line(&mut told, text.as_str())?;
    Ok(told)
}

// Whether the cell, without blanks around it, is the attribute's name.
fn is_title(cell: &[u8], name: &Name) -> bool {
    cell.trim_ascii() == name.as_str().as_bytes()
}

// Whether the title of this column names the attribute; no title stands behind the last column.
fn has_title(titles: &ByteRecord, at: usize, name: &Name) -> bool {
    match titles.get(at) {
        Some(cell) => is_title(cell, name),
        None => false,
    }
}

// The column of an attribute, which one title names.
fn column_of(alloc: Global, titles: &ByteRecord, name: &Name) -> Result<usize, ImportFault> {
    let mut found = None;
    for at in 0..titles.len() {
        if has_title(titles, at, name) {
            if found.is_some() {
                let name = String::from_str(alloc, name.as_str())?;
                return Err(ImportFault::RepeatedColumn { name });
            }
            found = Some(at);
        }
    }
    match found {
        Some(at) => Ok(at),
        None => {
            let name = String::from_str(alloc, name.as_str())?;
            Err(ImportFault::MissingColumn { name })
        }
    }
}

// Refuses a title that names no attribute.
fn check_title(alloc: Global, fields: &[(Name, TdType)], title: &[u8]) -> Result<(), ImportFault> {
    for (field, _type) in fields {
        if is_title(title, field) {
            return Ok(());
        }
    }
    let name = printable_text(alloc, title)?;
    Err(ImportFault::UnknownColumn { name })
}

// Refuses the titles where one names no attribute of the heading, and tells the first such.
fn check_titles(alloc: Global, heading: &Heading, titles: &ByteRecord) -> Result<(), ImportFault> {
    for at in 0..titles.len() {
        if let Some(title) = titles.get(at) {
            check_title(alloc, heading.fields(), title)?;
        }
    }
    Ok(())
}

// Adds the column of an attribute.
fn add_column(
    alloc: Global,
    titles: &ByteRecord,
    name: &Name,
    columns: &mut Vec<usize>,
) -> Result<(), ImportFault> {
    Ok(columns.push(column_of(alloc, titles, name)?)?)
}

/// The column of each attribute, in the order of the heading: each is named once, and no other column is.
pub fn columns_of(
    alloc: Global,
    heading: &Heading,
    titles: &ByteRecord,
) -> Result<Vec<usize>, ImportFault> {
    check_titles(alloc, heading, titles)?;
    let mut columns = Vec::with_capacity(alloc, heading.len())?;
    for (name, _type) in heading.fields() {
        add_column(alloc, titles, name, &mut columns)?;
    }
    Ok(columns)
}
