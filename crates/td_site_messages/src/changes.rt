//! What statements changed, in words.

use std::alloc::{AllocError, Global};
use td_headings::Catalogue;
use td_relations::{Delta, Relation};
use td_values::{Tuple, show_tuple_into};

/// The most tuples of a relvar that are shown of those that were inserted, and of those that were deleted.
const MOST_SHOWN: usize = 3;

/// What a statement inserted into a base relvar, and what it deleted.
#[derive(Drop)]
pub(crate) struct Change {
    relvar: usize,
    inserted: Relation,
    deleted: Relation,
}

/// Copies of what a statement changed, whose tuples are shared.
pub(crate) fn copies_of(
    alloc: Global,
    changes: &[(usize, Delta)],
) -> Result<Vec<Change>, AllocError> {
    let mut copies = Vec::with_capacity(alloc, changes.len())?;
    for (relvar, delta) in changes {
        copies.push(Change {
            relvar: *relvar,
            inserted: delta.inserted().copy(alloc)?,
            deleted: delta.deleted().copy(alloc)?,
        })?;
    }
    Ok(copies)
}

// Whether both insert the same tuples into the same relvar, and delete the same ones from it.
fn is_same(change: &Change, other: &Change) -> bool {
    change.relvar == other.relvar
        && change.inserted.tuples() == other.inserted.tuples()
        && change.deleted.tuples() == other.deleted.tuples()
}

/// Whether the same tuples of the same relvars were changed.
pub(crate) fn are_same(changes: &[Change], others: &[Change]) -> bool {
    changes.len() == others.len()
        && changes
            .iter()
            .zip(others)
            .all(|(change, other)| is_same(change, other))
}

// A tuple that is replaced is inserted and deleted, and counts once.
fn count_of(delta: &Delta) -> usize {
    delta.inserted().len().max(delta.deleted().len())
}

/// Appends how many tuples a statement changed, for the end of a line.
pub fn push_change_count(out: &mut String, changes: &[(usize, Delta)]) -> Result<(), AllocError> {
    let mut count: usize = 0;
    for (_, delta) in changes {
        count = count.saturating_add(count_of(delta));
    }
    match count {
        0 => out.push_str(", nothing changed"),
        1 => out.push_str(", 1 tuple changed"),
        _ => write!(out, ", {count} tuples changed"),
    }
}

// Appends the first of these tuples, each after the sign.
fn push_tuples(out: &mut String, sign: &str, tuples: &[Tuple]) -> Result<(), AllocError> {
    for tuple in tuples.iter().take(MOST_SHOWN) {
        out.push_str(sign)?;
        show_tuple_into(out, tuple)?;
    }
    if tuples.len() > MOST_SHOWN {
        let more = tuples.len().saturating_sub(MOST_SHOWN);
        write!(out, "{sign}{more} more")?;
    }
    Ok(())
}

// Appends the relvar's name, and the first tuples that were deleted from it and inserted, each after its sign.
fn push_change(
    out: &mut String,
    catalogue: &Catalogue,
    relvar: usize,
    deleted: &Relation,
    inserted: &Relation,
) -> Result<(), AllocError> {
    if let Some((name, _)) = catalogue.schema().relvar_at(relvar) {
        out.push_str(name.as_str())?;
    }
    push_tuples(out, " - ", deleted.tuples())?;
    push_tuples(out, " + ", inserted.tuples())
}

/// Appends copies of what a statement changed, as `push_changes` does.
pub(crate) fn push_copies(
    out: &mut String,
    catalogue: &Catalogue,
    changes: &[Change],
) -> Result<(), AllocError> {
    if changes.is_empty() {
        return out.push_str("nothing");
    }
    for (place, change) in changes.iter().enumerate() {
        if place > 0 {
            out.push_str("; ")?;
        }
        push_change(
            out,
            catalogue,
            change.relvar,
            &change.deleted,
            &change.inserted,
        )?;
    }
    Ok(())
}

/// Appends what a statement changed, in one line: of each relvar the first tuples that it deleted and inserted.
pub fn push_changes(
    out: &mut String,
    catalogue: &Catalogue,
    changes: &[(usize, Delta)],
) -> Result<(), AllocError> {
    if changes.is_empty() {
        return out.push_str("nothing");
    }
    for (place, (relvar, delta)) in changes.iter().enumerate() {
        if place > 0 {
            out.push_str("; ")?;
        }
        push_change(out, catalogue, *relvar, delta.deleted(), delta.inserted())?;
    }
    Ok(())
}
