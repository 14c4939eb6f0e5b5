//! Why queries are not answered.

use crate::places::push_unread;
use crate::type_errors::push_type_fault;
use crate::wording::{BROKEN, UNCHANGED};
use std::alloc::{AllocError, Global};
use td_headings::Catalogue;
use td_parse_errors::Reading;
use td_replica::{AskError, MOST_BYTES, PastError};
use td_shell_input::{DotCommand, command_of};
use td_type_errors::diagnose_query;

// Whether the text is a command of the shell but for its dot.
fn is_command(alloc: Global, text: &str) -> Result<bool, AllocError> {
    let dotted = format!(in alloc; ".{text}")?;
    Ok(!matches!(command_of(dotted.as_str()), DotCommand::Unknown(_)))
}

// Appends a line that a command begins with a dot, if the text is one but for that.
fn push_hint(out: &mut String, text: &str) -> Result<(), AllocError> {
    let text = text.trim_ascii();
    if !is_command(*out.allocator(), text)? {
        return Ok(());
    }
    let word = match text.split_once(' ') {
        Some((word, _)) => word,
        None => text,
    };
    write!(out, "\na command begins with a dot: .{word}")
}

// Appends why a text is no query: it is too long, or it goes wrong at a place that is shown.
fn push_no_query(out: &mut String, text: &str) -> Result<(), AllocError> {
    if text.len() > MOST_BYTES {
        let bytes = text.len();
        return write!(
            out,
            "syntax: a query has at most {MOST_BYTES} bytes, and this one has {bytes}"
        );
    }
    push_unread(out, "this is no query", Reading::Query, text)?;
    push_hint(out, text)
}

// Appends what in a query has no type, with its place.
fn push_untyped(out: &mut String, catalogue: &Catalogue, text: &str) -> Result<(), AllocError> {
    let found = diagnose_query(*out.allocator(), catalogue, text)?;
    push_type_fault(out, found.as_ref(), text)
}

// Appends why a query is ill typed.
fn push_ill_typed(out: &mut String, catalogue: &Catalogue, text: &str) -> Result<(), AllocError> {
    push_untyped(out, catalogue, text)?;
    push_hint(out, text)
}

/// Appends why a query is not answered.
pub(crate) fn push_not_asked(
    out: &mut String,
    catalogue: &Catalogue,
    text: &str,
    error: AskError,
) -> Result<(), AllocError> {
    match error {
        AskError::Syntax => push_no_query(out, text),
        AskError::Broken => out.push_str(BROKEN),
        AskError::IllTyped => push_ill_typed(out, catalogue, text),
        AskError::OutOfMemory => out.push_str(UNCHANGED),
    }
}

/// Appends why a query about a past place is not answered.
pub(crate) fn push_not_asked_at(
    out: &mut String,
    catalogue: &Catalogue,
    text: &str,
    error: PastError,
) -> Result<(), AllocError> {
    match error {
        PastError::Syntax => push_no_query(out, text),
        PastError::Broken => out.push_str(BROKEN),
        PastError::IllTyped => push_ill_typed(out, catalogue, text),
        PastError::NoPlace => out.push_str("place: this site holds no statement of that stamp"),
        PastError::OutOfMemory => out.push_str(UNCHANGED),
    }
}
