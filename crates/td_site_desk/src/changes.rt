//! What statements changed, as JSON.

use crate::values::write_tuple;
use crate::words::{write_count, write_text};
use std::alloc::{AllocError, Global};
use td_headings::Catalogue;
use td_http_api::Writer;
use td_relations::Delta;
use td_values::Tuple;

/// The most tuples of a relvar that are shown of those that were inserted, and of those that were deleted.
const MOST_SHOWN: usize = 10;

// Appends the first of these tuples as the member of this name; returns how many are left out.
fn write_tuples(
    alloc: Global,
    out: &mut Writer,
    name: &str,
    tuples: &[Tuple],
) -> Result<usize, AllocError> {
    out.key(name)?;
    out.begin_array()?;
    for tuple in tuples.iter().take(MOST_SHOWN) {
        write_tuple(alloc, out, tuple)?;
    }
    out.end_array()?;
    Ok(tuples.len().saturating_sub(MOST_SHOWN))
}

// Appends the tuples that left a relvar and that came into it, and how many more of them there are.
fn write_delta(alloc: Global, out: &mut Writer, delta: &Delta) -> Result<(), AllocError> {
    let deleted = write_tuples(alloc, out, "out", delta.deleted().tuples())?;
    let inserted = write_tuples(alloc, out, "in", delta.inserted().tuples())?;
    write_count(out, "more", deleted.saturating_add(inserted) as u64)
}

/// Appends what a statement changed as the member `changed`.
pub(crate) fn write_changes(
    alloc: Global,
    catalogue: &Catalogue,
    changes: &[(usize, Delta)],
    out: &mut Writer,
) -> Result<(), AllocError> {
    out.key("changed")?;
    out.begin_array()?;
    for (relvar, delta) in changes {
        out.begin_object()?;
        if let Some((name, _)) = catalogue.schema().relvar_at(*relvar) {
            write_text(out, "relvar", name.as_str())?;
        }
        write_delta(alloc, out, delta)?;
        out.end_object()?;
    }
    out.end_array()
}
