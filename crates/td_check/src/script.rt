//! The script that a file has.

use crate::report::Report;
use std::alloc::AllocError;
use std::str;
use td_grammar::reader::SCRIPT_BYTES;

/// The line that ends a script.
const BEGIN: &str = ".begin";

const MARK: char = '\u{feff}';

// The front of the bytes that is text.
fn text_of(bytes: &[u8]) -> &str {
    match str::from_utf8(bytes) {
        Ok(text) => text,
        Err(e) => match bytes.get(..e.valid_up_to()) {
            Some(front) => str::from_utf8(front).unwrap_or(""),
            None => "",
        },
    }
}

// Where the line stands that is to end the script, and whether it does.
fn begin_of(text: &str) -> Option<(usize, bool)> {
    let mut at: usize = 0;
    for line in text.split_inclusive('\n') {
        if line.trim() == BEGIN {
            let content = line.strip_suffix('\n').unwrap_or(line);
            return Some((at, content.strip_suffix('\r').unwrap_or(content) == BEGIN));
        }
        at = at.saturating_add(line.len());
    }
    None
}

// Tells what else than definitions is wrong with a script, and gives where its definitions begin.
fn definitions_from(report: &mut Report<'_>, script: &str) -> Result<Option<usize>, AllocError> {
    if script.len() > SCRIPT_BYTES {
        report.count_refused();
        report.tell(script, SCRIPT_BYTES, "a script has at most 65536 bytes")?;
        return Ok(None);
    }
    if let Some(place) = script.find("\r\n") {
        report.tell(
            script,
            place,
            "note: lines end with CR LF here, and sites whose script has LF alone do not meet these",
        )?;
    }
    if !script.starts_with(MARK) {
        return Ok(Some(0));
    }
    report.count_refused();
    report.tell(script, 0, "a byte order mark, with which no script begins")?;
    Ok(Some(MARK.len_utf8()))
}

/// The script of a file, up to the line `.begin` or the file's end, and the byte from which on it has definitions.
/// Tells what is wrong with it as a whole; none where its definitions cannot be judged for that.
pub fn script_in<'a>(
    report: &mut Report<'_>,
    bytes: &'a [u8],
) -> Result<Option<(&'a str, usize)>, AllocError> {
    let text = text_of(bytes);
    let script = match begin_of(text) {
        Some((at, is_begin)) => {
            if !is_begin {
                report.count_refused();
                report.tell(
                    text,
                    at,
                    "a blank beside .begin, so that this line is no end of the script",
                )?;
            }
            text.split_at(text.floor_char_boundary(at)).0
        }
        None if text.len() < bytes.len() => {
            report.count_refused();
            report.tell(text, text.len(), "a byte that is no UTF-8")?;
            return Ok(None);
        }
        None => text,
    };
    Ok(definitions_from(report, script)?.map(|from| (script, from)))
}
