//! The definitions of a script, as they are written.

use crate::scan::Scan;

/// A definition, with the blanks and comments in front of it, and what is behind it.
#[derive(Clone, Copy)]
pub struct Defined<'a> {
    pub text: &'a [u8],
    pub rest: &'a [u8],
}

// Parts a script at a place; all of it is the definition where the place is beyond its end.
fn part_definition(bytes: &[u8], end: usize) -> Defined<'_> {
    match bytes.split_at_checked(end) {
        Some((text, rest)) => Defined { text, rest },
        None => Defined {
            text: bytes,
            rest: b"".as_slice(),
        },
    }
}

/// The first definition of a script, which its `;` ends. What has none is a part without rest.
pub fn definition_at(script: &[u8]) -> Defined<'_> {
    let mut scan = Scan::new();
    for (at, byte) in script.iter().enumerate() {
        scan.step(*byte, script.get(at.saturating_add(1)).copied());
        if scan.is_behind_end() {
            return part_definition(script, at.saturating_add(1));
        }
    }
    part_definition(script, script.len())
}

// What is behind a comment that stands in front.
fn behind_comment(text: &[u8]) -> Option<&[u8]> {
    let inside = text.strip_prefix(b"/*".as_slice())?;
    let end = inside.windows(2).position(|mark| mark == b"*/".as_slice())?;
    inside.get(end.saturating_add(2)..)
}

// The text without the blanks and comments in front.
fn without_blanks(text: &[u8]) -> &[u8] {
    let mut rest = text.trim_ascii_start();
    for _ in 0..text.len() {
        match behind_comment(rest) {
            Some(behind) => rest = behind.trim_ascii_start(),
            None => return rest,
        }
    }
    rest
}

// Whether a byte is one of a word.
fn is_in_word(byte: &u8) -> bool {
    byte.is_ascii_alphanumeric() || *byte == b'_' || *byte == b'#'
}

// The first word of a text and what is behind it.
fn word(text: &[u8]) -> (&[u8], &[u8]) {
    let text = without_blanks(text);
    let end = text
        .iter()
        .position(|byte| !is_in_word(byte))
        .unwrap_or(text.len());
    text.split_at_checked(end).unwrap_or((text, b"".as_slice()))
}

/// The name that a definition defines: its second word.
pub fn defined_name(definition: &[u8]) -> &[u8] {
    let (_kind, behind) = word(definition);
    let (name, _behind) = word(behind);
    name
}

/// The definitions in front of a line `.begin`, and what is behind that line, or else all, and no line behind.
pub fn script_front(bytes: &[u8]) -> (&[u8], &[u8]) {
    let mut rest = bytes;
    let mut before: usize = 0;
    for _ in 0..bytes.len() {
        let end = rest
            .iter()
            .position(|byte| *byte == b'\n')
            .unwrap_or(rest.len());
        let (line, behind) = rest.split_at_checked(end).unwrap_or((rest, b"".as_slice()));
        let behind = behind.strip_prefix(b"\n".as_slice()).unwrap_or(behind);
        if line.strip_suffix(b"\r".as_slice()).unwrap_or(line) == b".begin".as_slice() {
            return (bytes.get(..before).unwrap_or(bytes), behind);
        }
        before = before.saturating_add(end).saturating_add(1);
        rest = behind;
    }
    (bytes, b"".as_slice())
}
