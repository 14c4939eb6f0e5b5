//! Where a text stops being one of the language.

use std::alloc::AllocError;
use td_parse_errors::{Reading, is_too_deep, place_of_fault};
use td_terminals::push_statement;
use unicode_width::UnicodeWidthStr;

// What is said of an expression of more levels than are read.
const TOO_DEEP: &str = "an expression nests deeper than 256 levels";

// The text after the last line end.
fn last_line(text: &str) -> &str {
    match text.rsplit_once('\n') {
        Some((_, line)) => line,
        None => text,
    }
}

// The text before the first line end.
fn first_line(text: &str) -> &str {
    match text.split_once('\n') {
        Some((line, _)) => line,
        None => text,
    }
}

// Appends a line with a caret after this many blanks.
fn push_caret(out: &mut String, column: usize) -> Result<(), AllocError> {
    out.push_str("\n")?;
    for _ in 0..column {
        out.push_str(" ")?;
    }
    out.push_str("^")
}

/// Appends the line of this byte, and a line with a caret under it.
pub(crate) fn push_place(out: &mut String, text: &str, at: usize) -> Result<(), AllocError> {
    let Some((before, after)) = text.split_at_checked(at) else {
        return Ok(());
    };
    out.push_str("\n")?;
    let begin = out.len();
    push_statement(out, last_line(before))?;
    let column = out.as_str().get(begin..).unwrap_or("").width();
    push_statement(out, first_line(after))?;
    push_caret(out, column)
}

/// Appends that a text has no such reading, with the place where that is seen. Where only its depth is wrong, that is
/// said in place of these words.
pub(crate) fn push_unread(
    out: &mut String,
    words: &str,
    reading: Reading,
    text: &str,
) -> Result<(), AllocError> {
    let alloc = *out.allocator();
    let words = if is_too_deep(alloc, reading, text)? {
        TOO_DEEP
    } else {
        words
    };
    out.push_str("syntax: ")?;
    out.push_str(words)?;
    match place_of_fault(alloc, reading, text)? {
        // (a text that ends too early goes wrong after its last word, and not after the line's end)
        Some(at) => push_place(out, text, at.min(text.trim_end().len())),
        None => Ok(()),
    }
}
