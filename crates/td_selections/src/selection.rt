//! The tuples that are shown.

use crate::keys::{SortKey, compare_by};
use crate::search::is_in_tuple;
use caseless::default_case_fold_str;
use std::alloc::{AllocError, Global};
use td_values::Tuple;

// All of these tuples.
fn all_of<'a>(alloc: Global, tuples: &'a [Tuple]) -> Result<Vec<&'a Tuple>, AllocError> {
    let mut all = Vec::with_capacity(alloc, tuples.len())?;
    for tuple in tuples {
        all.push(tuple)?;
    }
    Ok(all)
}

// Those of these tuples that contain a text.
fn found_in<'a>(
    alloc: Global,
    tuples: &'a [Tuple],
    text: &str,
) -> Result<Vec<&'a Tuple>, AllocError> {
    let folded = default_case_fold_str(alloc, text)?;
    let mut found = Vec::new(alloc);
    for tuple in tuples {
        if is_in_tuple(alloc, tuple, folded.as_str())? {
            found.push(tuple)?;
        }
    }
    Ok(found)
}

/// Those of these tuples that contain a text, if one is given, by these keys. A tuple contains a text if a value of it
/// of type CHAR does, or a component of that type, whatever the case of the letters (Unicode, full case folding).
/// Tuples that do not differ at the keys keep their order.
pub fn selected_tuples<'a>(
    alloc: Global,
    tuples: &'a [Tuple],
    contains: Option<&str>,
    keys: &[SortKey],
) -> Result<Vec<&'a Tuple>, AllocError> {
    let mut shown = match contains {
        None => all_of(alloc, tuples)?,
        Some(text) => found_in(alloc, tuples, text)?,
    };
    if !keys.is_empty() {
        shown.sort_by(|a, b| compare_by(keys, a, b))?;
    }
    Ok(shown)
}
