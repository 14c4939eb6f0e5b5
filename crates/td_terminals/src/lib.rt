//! What a terminal is sent: text that it shows, and nothing that it obeys.
//!
//! A character that a terminal would obey is written by its code point, as `\u{1b}`: so a text that another site stored
//! cannot clear the screen, stand for an answer of the program, or turn the direction of what follows.
//!
//! Begin with `Shown`, a writer to a terminal.
//!
//! ```
//! let is_seen = rt.stdout().is_terminal();
//! let mut sink = Device::new(Shown::new(alloc, writer, is_seen));
//! put(&mut sink, text.as_bytes())?;
//! ```
//!
//! Costs: linear in the text. To a terminal each write takes memory for the text that is shown; to anything else it is
//! handed on as it is.
//!
//! td_terminals knows no site. No contract says what it prints: it is proved to return and to be safe.
#![tactic(auto)]

mod terminal;

use std::alloc::AllocError;
pub use terminal::Shown;

/// Whether a terminal obeys the character: a control character, a separator of lines, or a mark that turns the
/// direction of text.
pub fn is_obeyed(c: char) -> bool {
    match c {
        '\u{61c}' | '\u{200e}' | '\u{200f}' => true,
        '\u{2028}'..='\u{202e}' | '\u{2066}'..='\u{2069}' => true,
        _ => c.is_control(),
    }
}

fn push_code_point(out: &mut String, c: char) -> Result<(), AllocError> {
    for written in c.escape_unicode() {
        out.push(written)?;
    }
    Ok(())
}

/// Appends the text in lines as it has them.
pub fn push_lines(out: &mut String, text: &str) -> Result<(), AllocError> {
    for c in text.chars() {
        if c != '\n' && is_obeyed(c) {
            push_code_point(out, c)?;
        } else {
            out.push(c)?;
        }
    }
    Ok(())
}

/// Appends the text in one line: the ends of its lines are written by their code points too.
pub fn push_in_line(out: &mut String, text: &str) -> Result<(), AllocError> {
    for c in text.chars() {
        if is_obeyed(c) {
            push_code_point(out, c)?;
        } else {
            out.push(c)?;
        }
    }
    Ok(())
}

/// Appends a text of the language in one line: a blank stands for the end of a line and for a tab.
pub fn push_statement(out: &mut String, text: &str) -> Result<(), AllocError> {
    for c in text.chars() {
        if c == '\n' || c == '\r' || c == '\t' {
            out.push(' ')?;
        } else if is_obeyed(c) {
            push_code_point(out, c)?;
        } else {
            out.push(c)?;
        }
    }
    Ok(())
}
