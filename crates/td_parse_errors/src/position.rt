//! How a place in a text is told to people.

ghost use Rattle.std.specs.Prelude.{◌≡◌, ◌-◌, ◌<◌, IfOk, [], get_or, take, string_bytes};
ghost use Rattle.std.specs.Str.Lines.{lines};
ghost use Rattle.td_parse_errors.specs.Positions as spec;

use std::alloc::{AllocError, Global};

/// A line of a text, and a character of that line, both counted from 1.
#[derive(Clone, Copy, Debug, PartialEq, Eq)]
pub struct Position {
    pub line: usize,
    pub column: usize,
}

// Bytes that go on with a character, as UTF-8 has them.
fn goes_on(b: u8) -> bool
    ensures { result ≡ spec.goes_on b }
{
    b & 0b1100_0000 == 0b1000_0000
}

// The position behind a byte, of one that stands at the position.
fn behind(position: Position, b: u8) -> Position
    requires line { position.line < 18446744073709551615 }
    requires column { position.column < 18446744073709551615 }
    ensures { result ≡ spec.behind position b }
{
    let Position { line, column } = position;
    if b == b'\n' {
        Position {
            line: line + 1,
            column: 1,
        }
    } else if goes_on(b) {
        position
    } else {
        Position {
            line,
            column: column + 1,
        }
    }
}

/// The position of the byte at a place, or of the end where the text is shorter. Of the bytes of one character the
/// first alone stands at it. A line ends with LF, and with CR LF.
///
/// It takes time linear in the place.
pub fn position_of(text: &str, place: usize) -> Position
    ensures { result ≡ spec.position (take place text.now) }
{
    let bytes = text.as_bytes();
    let mut position = Position { line: 1, column: 1 };
    for b in &bytes[..place.min(bytes.len())] {
        position = behind(position, *b);
    }
    position
}

/// The line of this number, from 1, without the LF or CR LF that ends it; nothing where the text has fewer lines.
pub fn line_of(text: &str, number: usize) -> &str
    ensures { result.now ≡ get_or (lines text.now) (number - 1) [] }
{
    text.lines().nth(number.saturating_sub(1)).unwrap_or("")
}

// What stands under a character that is before the place: a tab keeps its width.
fn under(c: char) -> char
    ensures { result ≡ spec.under c }
{
    if c == '\t' { '\t' } else { ' ' }
}

/// The line under a line of a text, with a caret under the character at this column, counted from 1. A tab stands under
/// a tab; characters that are wider than others put it out.
pub fn caret(alloc: Global, line: &str, column: usize) -> Result<String, AllocError>
    ensures { IfOk result (λ s. string_bytes s ≡ spec.caret line.now column) }
{
    let mut out = String::new(alloc);
    for c in line.chars().take(column.saturating_sub(1)) {
        out.push(under(c))?;
    }
    out.push('^')?;
    Ok(out)
}
