//! Statements in the lines of a dump: `.entry DIALECT 'TEXT'`, where each quote of the text is doubled, and a line end,
//! a backslash and a byte 0 are written as `\n`, `\r`, `\\` and `\0`, so that no text ends its line or its quotes.

use std::alloc::{AllocError, Global};

/// The word that such a line begins with.
pub const ENTRY: &str = ".entry";

/// A statement of a dump, with the number of the dialect that it is written in.
#[derive(Drop)]
pub struct DumpedEntry {
    pub dialect: u8,
    pub text: String,
}

// Appends a character as it is written between the quotes of an entry's text.
fn push_escaped(out: &mut String, c: char) -> Result<(), AllocError> {
    match c {
        '\'' => out.push_str("''"),
        '\\' => out.push_str("\\\\"),
        '\n' => out.push_str("\\n"),
        '\r' => out.push_str("\\r"),
        '\0' => out.push_str("\\0"),
        _ => out.push(c),
    }
}

/// Appends the line of a statement.
pub fn push_entry(out: &mut String, dialect: u8, text: &str) -> Result<(), AllocError> {
    write!(out, "{ENTRY} {dialect} '")?;
    for c in text.chars() {
        push_escaped(out, c)?;
    }
    out.push_str("'\n")
}

// What a backslash and this character stand for.
fn unescape(c: char) -> Option<char> {
    match c {
        '\\' => Some('\\'),
        'n' => Some('\n'),
        'r' => Some('\r'),
        '0' => Some('\0'),
        _ => None,
    }
}

// The text between the quotes, unless it is not written as `push_entry` writes it.
fn text_in(alloc: Global, quoted: &str) -> Result<Option<String>, AllocError> {
    let mut out = String::with_capacity(alloc, quoted.len())?;
    let mut rest = quoted.chars();
    for _ in 0..quoted.len() {
        let Some(c) = rest.next() else {
            break;
        };
        let plain = match c {
            '\'' => match rest.next() {
                Some('\'') => Some('\''),
                _ => None,
            },
            '\\' => match rest.next() {
                Some(c) => unescape(c),
                None => None,
            },
            c => Some(c),
        };
        match plain {
            Some(c) => out.push(c)?,
            None => return Ok(None),
        }
    }
    Ok(Some(out))
}

/// The statement of a line whose word `.entry` these are behind, unless they are not written as `push_entry` writes
/// them.
pub fn entry_in(alloc: Global, words: &str) -> Result<Option<DumpedEntry>, AllocError> {
    let Some((dialect, quoted)) = words.split_once(' ') else {
        return Ok(None);
    };
    let (Ok(dialect), Some(quoted)) = (dialect.parse::<u8>(), quoted.strip_prefix('\'')) else {
        return Ok(None);
    };
    let Some(quoted) = quoted.strip_suffix('\'') else {
        return Ok(None);
    };
    let text = text_in(alloc, quoted)?;
    Ok(text.map(|text| DumpedEntry { dialect, text }))
}
