//! Why statements are not issued.

use crate::journal::push_unwritten;
use crate::places::push_unread;
use crate::type_errors::push_type_fault;
use crate::wording::{BROKEN, UNCHANGED};
use std::alloc::AllocError;
use td_headings::Catalogue;
use td_journal_files::Notes;
use td_parse_errors::Reading;
use td_replica::{IssueError, MOST_BYTES};
use td_type_errors::diagnose_statement;

// The words that begin a definition.
const DEFINITIONS: [&[u8]; 3] = [b"VAR", b"TYPE", b"CONSTRAINT"];

// The first word of a text.
fn first_word(text: &str) -> &str {
    let text = text.trim_ascii_start();
    match text.split_once(' ') {
        Some((word, _)) => word,
        None => text,
    }
}

// Whether the text begins with a word that begins a definition, whatever the case of its letters.
fn is_definition(text: &str) -> bool {
    let word = first_word(text).as_bytes();
    DEFINITIONS
        .iter()
        .any(|definition| word.eq_ignore_ascii_case(definition))
}

// Appends why a text is no statement: it is too long, it is a definition, or it goes wrong at a place that is shown.
fn push_no_statement(out: &mut String, text: &str) -> Result<(), AllocError> {
    if text.len() > MOST_BYTES {
        let bytes = text.len();
        return write!(
            out,
            "syntax: a statement has at most {MOST_BYTES} bytes, and this one has {bytes}"
        );
    }
    if is_definition(text) {
        return out.push_str("syntax: definitions stand in the script and cannot be changed later");
    }
    push_unread(out, "this is no statement", Reading::Statement, text)
}

// Appends why a statement is ill typed, with its place.
fn push_ill_typed(out: &mut String, catalogue: &Catalogue, text: &str) -> Result<(), AllocError> {
    let found = diagnose_statement(*out.allocator(), catalogue, text)?;
    push_type_fault(out, found.as_ref(), text)
}

/// Appends why a statement is not issued.
pub(crate) fn push_not_issued(
    out: &mut String,
    catalogue: &Catalogue,
    notes: &Notes,
    text: &str,
    error: IssueError,
) -> Result<(), AllocError> {
    match error {
        IssueError::Syntax => push_no_statement(out, text),
        IssueError::Broken => out.push_str(BROKEN),
        IssueError::IllTyped => push_ill_typed(out, catalogue, text),
        IssueError::ClockEnd => out.push_str("clock: this site has no numbers left"),
        IssueError::Full => {
            out.push_str("full: this site holds as many statements as its limit says")
        }
        IssueError::OutOfMemory => out.push_str(UNCHANGED),
        IssueError::JournalWrite => push_unwritten(out, notes.failure()),
    }
}
