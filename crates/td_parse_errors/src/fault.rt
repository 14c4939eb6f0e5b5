//! The byte at which a text goes wrong.

ghost use Rattle.std.specs.Prelude.{◌≡◌, IfOk, Ok, Err, is_ok, true, false};
ghost use Rattle.std.specs.Str.{IsCharBoundary};
ghost use Rattle.td_parse_errors.specs.Places.{Decides, TellsPlace};

use std::alloc::{AllocError, Global};
use td_grammar::reader::{QUERY_BYTES, SCRIPT_BYTES, STATEMENT_BYTES};
use td_grammar::{
    ReadError, Reading, nests_too_deep, read_expr, read_script, read_statement, stop,
};
use td_tokens::tokens_end;

// Whether a tree was read.
fn is_there<T: Drop>(read: Result<T, ReadError>) -> Result<bool, AllocError>
    ensures yes { result ≡ Ok true → is_ok read ≡ true }
    ensures no { result ≡ Ok false → read ≡ Err ReadError.Syntax }
{
    match read {
        Ok(_) => Ok(true),
        Err(ReadError::Syntax) => Ok(false),
        Err(ReadError::OutOfMemory) => Err(AllocError),
    }
}

// Whether the text is read as a script. The only error is that memory runs out.
fn is_script(alloc: Global, text: &str) -> Result<bool, AllocError>
    ensures { IfOk result (Decides Reading.Script text.now) }
{
    is_there(read_script(alloc, text))
}

// Whether the text is read as a statement. The only error is that memory runs out.
fn is_statement(alloc: Global, text: &str) -> Result<bool, AllocError>
    ensures { IfOk result (Decides Reading.Statement text.now) }
{
    is_there(read_statement(alloc, text))
}

// Whether the text is read as a query. The only error is that memory runs out.
fn is_query(alloc: Global, text: &str) -> Result<bool, AllocError>
    ensures { IfOk result (Decides Reading.Query text.now) }
{
    is_there(read_expr(alloc, text))
}

// Whether the text has a tree in this reading. The only error is that memory runs out.
fn is_read(alloc: Global, reading: Reading, text: &str) -> Result<bool, AllocError>
    ensures { IfOk result (Decides reading text.now) }
{
    match reading {
        Reading::Script => is_script(alloc, text),
        Reading::Statement => is_statement(alloc, text),
        Reading::Query => is_query(alloc, text),
    }
}

// The most bytes of a text that is read so.
fn longest(reading: Reading) -> usize {
    match reading {
        Reading::Script => SCRIPT_BYTES,
        Reading::Statement => STATEMENT_BYTES,
        Reading::Query => QUERY_BYTES,
    }
}

// Where the reading of a text stops, however long it is.
fn stop_of(alloc: Global, reading: Reading, text: &str) -> Result<usize, AllocError>
    ensures { IfOk result (IsCharBoundary text.now) }
{
    let end = tokens_end(text);
    let (front, _) = text.split_at(end);
    match stop(alloc, reading, front) {
        Ok(place) => Ok(place),
        Err(ReadError::Syntax) => Ok(end),
        Err(ReadError::OutOfMemory) => Err(AllocError),
    }
}

/// Where a text goes wrong, of which so much was to be read: none exactly where it is read, and else the byte at which
/// the reading stops, on a character boundary.
///
/// That is the begin of the first token with which the reading does not go on, or of what is no token: of a stray
/// character, a name of more than 64 bytes, an integer that is too large or has a letter behind it, a text or comment
/// without its end, the 65th open bracket. It is the text's length where the text ends too early, and never lies behind
/// the last byte that the text may have. An expression that nests too deep may be told at its end (`is_too_deep`).
///
/// It takes the time of reading the text twice.
pub fn place_of_fault(
    alloc: Global,
    reading: Reading,
    text: &str,
) -> Result<Option<usize>, AllocError>
    ensures { IfOk result (TellsPlace reading text.now) }
{
    if is_read(alloc, reading, text)? {
        return Ok(None);
    }
    let place = stop_of(alloc, reading, text)?;
    let last = text.floor_char_boundary(longest(reading));
    if place <= last {
        Ok(Some(place))
    } else {
        Ok(Some(last))
    }
}

/// Whether the reading of a text stops since an expression nests deeper than 256 levels. It takes the time of reading
/// the text twice.
pub fn is_too_deep(alloc: Global, reading: Reading, text: &str) -> Result<bool, AllocError> {
    let (front, _) = text.split_at(tokens_end(text));
    match nests_too_deep(alloc, reading, front) {
        Ok(is_too_deep) => Ok(is_too_deep),
        Err(ReadError::Syntax) => Ok(false),
        Err(ReadError::OutOfMemory) => Err(AllocError),
    }
}
