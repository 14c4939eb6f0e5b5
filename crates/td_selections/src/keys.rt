//! Attributes by which tuples are ordered.

use std::cmp::Ordering;
use td_values::{Heading, Name, TdType, Tuple, TypeKind, compare};
use thiserror::Error;

/// An attribute by which tuples are ordered, and the direction.
#[derive(Clone, Copy)]
pub struct SortKey {
    /// The index of the attribute in the heading.
    index: usize,
    is_descending: bool,
}

/// Why tuples are not ordered by an attribute.
#[derive(Clone, Copy, Debug, Error)]
pub enum SortError {
    #[error("there is no such attribute")]
    NoAttribute,
    #[error("values of its type have no order")]
    NoOrder,
}

// Whether values of a type have an order that a person knows.
fn is_ordered(ty: &TdType) -> bool {
    !matches!(ty.kind, TypeKind::Tuple(_) | TypeKind::Relation(_))
}

// The index of an attribute.
fn index_of(fields: &[(Name, TdType)], attribute: &str) -> Option<usize> {
    for (index, (name, _)) in fields.iter().enumerate() {
        if name.as_str() == attribute {
            return Some(index);
        }
    }
    None
}

/// The attribute of this name, by which tuples of the heading are ordered.
pub fn sort_key(
    heading: &Heading,
    attribute: &str,
    is_descending: bool,
) -> Result<SortKey, SortError> {
    let Some(index) = index_of(heading.fields(), attribute) else {
        return Err(SortError::NoAttribute);
    };
    match heading.at(index) {
        Some((_, ty)) if is_ordered(ty) => Ok(SortKey {
            index,
            is_descending,
        }),
        _ => Err(SortError::NoOrder),
    }
}

// The order of two tuples by the value of an attribute.
fn compare_at(key: SortKey, a: &Tuple, b: &Tuple) -> Ordering {
    let (Some((_, x)), Some((_, y))) = (
        a.attributes().get(key.index),
        b.attributes().get(key.index),
    ) else {
        return Ordering::Equal;
    };
    let order = compare(x, y);
    if key.is_descending {
        order.reverse()
    } else {
        order
    }
}

/// The order of two tuples by the first of these keys at which they differ.
pub(crate) fn compare_by(keys: &[SortKey], a: &Tuple, b: &Tuple) -> Ordering {
    for key in keys {
        let order = compare_at(*key, a, b);
        if order != Ordering::Equal {
            return order;
        }
    }
    Ordering::Equal
}
