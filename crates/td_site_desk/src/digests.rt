//! What a site holds in a few digits.

use crate::words::{write_count, write_text};
use std::alloc::{AllocError, Global};
use td_http_api::Writer;
use td_site_messages::{HeldDigest, held_digests, push_sum};
use td_stamps::Held;

// Appends a digest as an element of the list.
fn write_digest(alloc: Global, out: &mut Writer, digest: &HeldDigest) -> Result<(), AllocError> {
    let mut sum = String::new(alloc);
    push_sum(&mut sum, &digest.sum)?;
    out.begin_object()?;
    write_count(out, "site", u64::from(digest.site))?;
    write_count(out, "number", u64::from(digest.number))?;
    write_text(out, "sum", sum.as_str())?;
    out.end_object()
}

/// Appends what `.digest` of the shell shows, as the member `digest`.
pub(crate) fn write_digests(
    alloc: Global,
    held: &Held,
    out: &mut Writer,
) -> Result<(), AllocError> {
    let digests = held_digests(alloc, held, None)?;
    out.key("digest")?;
    out.begin_array()?;
    for digest in &digests {
        write_digest(alloc, out, digest)?;
    }
    out.end_array()
}
