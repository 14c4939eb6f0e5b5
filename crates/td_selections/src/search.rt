//! Tuples that contain a text.

use caseless::default_case_fold_str;
use std::alloc::{AllocError, Global};
use td_values::{Kind, Tuple, Value};

// Whether a text contains a text whose case is folded, whatever the case of its letters.
fn contains(alloc: Global, text: &str, folded: &str) -> Result<bool, AllocError> {
    Ok(
        default_case_fold_str(alloc, text)?
            .as_str()
            .contains(folded),
    )
}

// Whether a value is a text that contains this one.
fn is_found(alloc: Global, value: &Value, folded: &str) -> Result<bool, AllocError> {
    match &value.kind {
        Kind::Char(text) => contains(alloc, text.as_str(), folded),
        _ => Ok(false),
    }
}

// Whether one of these values is a text that contains this one.
fn is_found_among(alloc: Global, values: &[Value], folded: &str) -> Result<bool, AllocError> {
    for value in values {
        if is_found(alloc, value, folded)? {
            return Ok(true);
        }
    }
    Ok(false)
}

// Whether a value, or a component of it, is a text that contains this one.
fn is_found_in(alloc: Global, value: &Value, folded: &str) -> Result<bool, AllocError> {
    match &value.kind {
        Kind::User(_, components) => is_found_among(alloc, components.values(), folded),
        _ => is_found(alloc, value, folded),
    }
}

/// Whether a text among a tuple's values, or among their components, contains this one, whose case is folded.
pub(crate) fn is_in_tuple(alloc: Global, tuple: &Tuple, folded: &str) -> Result<bool, AllocError> {
    for (_, value) in tuple.attributes() {
        if is_found_in(alloc, value, folded)? {
            return Ok(true);
        }
    }
    Ok(false)
}
