//! Keys that two rows of a file have.

use crate::error::ImportFault;
use crate::rows::Row;
use std::alloc::{AllocError, Global};
use std::collections::BTreeMap;
use td_values::{Heading, Name};

// The places of the key's attributes in the heading.
fn places_of(alloc: Global, heading: &Heading, key: &[Name]) -> Result<Vec<usize>, AllocError> {
    let mut places = Vec::with_capacity(alloc, key.len())?;
    for (at, field) in heading.fields().iter().enumerate() {
        if key.contains(&field.0) {
            places.push(at)?;
        }
    }
    Ok(places)
}

// The row's values at these places, as a text: two rows have one text where they have the same values.
fn values_at(alloc: Global, row: &Row, places: &[usize]) -> Result<String, AllocError> {
    let mut text = String::new(alloc);
    for (at, place) in places.iter().enumerate() {
        if at > 0 {
            text.push_str(", ")?;
        }
        if let Some(literal) = row.literals.get(*place) {
            text.push_str(literal.as_str())?;
        }
    }
    Ok(text)
}

// Whether all values of the two rows are written alike.
fn is_same_tuple(first: &Row, second: &Row) -> bool {
    first.literals.as_slice() == second.literals.as_slice()
}

// The row at a place, if there is a place.
fn first_row<'r>(rows: &'r [Row], place: Option<&usize>) -> Option<&'r Row> {
    match place {
        Some(place) => rows.get(*place),
        None => None,
    }
}

/// Refuses rows of which two have one key and are not the same tuple. It costs a search among the rows before, for each
/// row.
pub fn check_keys(
    alloc: Global,
    heading: &Heading,
    key: &[Name],
    rows: &[Row],
) -> Result<(), ImportFault> {
    let places = places_of(alloc, heading, key)?;
    let mut firsts: BTreeMap<String, usize> = BTreeMap::new(alloc);
    for (at, row) in rows.iter().enumerate() {
        let values = values_at(alloc, row, &places)?;
        match first_row(rows, firsts.get(&values)) {
            None => {
                firsts.insert(values, at)?;
            }
            Some(first) if is_same_tuple(first, row) => {}
            Some(first) => {
                return Err(ImportFault::RepeatedKey {
                    line: row.line,
                    first: first.line,
                    key: values,
                });
            }
        }
    }
    Ok(())
}
