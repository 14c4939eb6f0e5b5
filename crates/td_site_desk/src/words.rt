//! Words of stamps and outcomes.

ghost use Rattle.std.specs.Prelude.{◌≡◌, IfOk};

use std::alloc::{AllocError, Global};
use td_headings::Catalogue;
use td_http_api::{StatusCode, Writer};
use td_journal_files::Notes;
use td_listings::show_stamp;
use td_semantics::Outcome;
use td_site_messages::{SiteFault, push_raise, push_reason, push_site_fault};
use td_stamps::Stamp;
use td_values::Raise;

/// The stamp that a text says, as `CLOCK.SITE`.
pub(crate) fn read_stamp(text: &str) -> Option<Stamp> {
    let (clock, site) = text.split_once('.')?;
    match (clock.parse::<u64>(), site.parse::<u16>()) {
        (Ok(clock), Ok(site)) => Some(Stamp { clock, site }),
        _ => None,
    }
}

/// Whether two stamps are equal.
pub(crate) fn is_same(one: &Stamp, other: &Stamp) -> bool {
    one.clock == other.clock && one.site == other.site
}

/// The text of a stamp, as `CLOCK.SITE`.
pub(crate) fn stamp_text(alloc: Global, stamp: &Stamp) -> Result<String, AllocError> {
    let mut text = String::new(alloc);
    show_stamp(&mut text, stamp)?;
    Ok(text)
}

/// Why a statement is refused; none for one that is done.
pub(crate) fn reason_of(alloc: Global, outcome: &Outcome) -> Result<Option<String>, AllocError> {
    if matches!(outcome, Outcome::Done) {
        return Ok(None);
    }
    let mut reason = String::new(alloc);
    push_reason(&mut reason, outcome)?;
    Ok(Some(reason))
}

/// Appends a member whose value is a text.
pub(crate) fn write_text(out: &mut Writer, name: &str, text: &str) -> Result<(), AllocError> {
    out.key(name)?;
    out.string(text)
}

/// Appends a member whose value is a number.
pub(crate) fn write_count(out: &mut Writer, name: &str, count: u64) -> Result<(), AllocError> {
    out.key(name)?;
    out.u64(count)
}

/// Appends a member whose value is a truth value.
pub(crate) fn write_truth(out: &mut Writer, name: &str, truth: bool) -> Result<(), AllocError> {
    out.key(name)?;
    out.boolean(truth)
}

// Appends which test a statement breaks, by its kind and name.
fn write_broken(out: &mut Writer, kind: &str, name: &str) -> Result<(), AllocError> {
    out.key("breaks")?;
    out.begin_object()?;
    write_text(out, "kind", kind)?;
    write_text(out, "name", name)?;
    out.end_object()
}

/// Appends the key, by the name of its relvar, or the constraint that a statement breaks, if it breaks one.
pub(crate) fn write_breaks(out: &mut Writer, outcome: &Outcome) -> Result<(), AllocError> {
    match outcome {
        Outcome::BreaksKey(relvar) => write_broken(out, "key", relvar.as_str()),
        Outcome::BreaksConstraint(name) => write_broken(out, "constraint", name.as_str()),
        _ => Ok(()),
    }
}

/// Appends a member that is null.
pub(crate) fn write_null(out: &mut Writer, name: &str) -> Result<(), AllocError> {
    out.key(name)?;
    out.null()
}

/// Appends a stamp as the member `stamp`.
pub(crate) fn write_stamp(
    alloc: Global,
    out: &mut Writer,
    stamp: &Stamp,
) -> Result<(), AllocError> {
    let text = stamp_text(alloc, stamp)?;
    write_text(out, "stamp", text.as_str())
}

/// Appends the words of a fault.
pub(crate) fn write_fault(out: &mut Writer, words: &str) -> Result<(), AllocError> {
    write_text(out, "fault", words)
}

/// Appends that an evaluation raised an error, as the words of a fault.
pub(crate) fn write_raised(
    alloc: Global,
    out: &mut Writer,
    raise: Raise,
) -> Result<(), AllocError> {
    let mut words = String::new(alloc);
    push_raise(&mut words, raise)?;
    write_fault(out, words.as_str())
}

/// The words of a fault of the site.
pub(crate) fn fault_words(
    alloc: Global,
    catalogue: &Catalogue,
    notes: &Notes,
    fault: SiteFault<'_>,
) -> Result<String, AllocError> {
    let mut words = String::new(alloc);
    push_site_fault(&mut words, catalogue, notes, fault)?;
    Ok(words)
}

/// Appends the words of a fault, and returns its status.
pub(crate) fn fault(
    out: &mut Writer,
    status: StatusCode,
    words: &str,
) -> Result<StatusCode, AllocError>
    ensures { IfOk result (λ told. told ≡ status) }
{
    write_fault(out, words)?;
    Ok(status)
}
