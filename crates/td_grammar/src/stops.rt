//! Where the reading of a text stops.

ghost use Rattle.std.specs.Prelude.{◌<◌, IfOk};
ghost use Rattle.std.specs.Str.{IsCharBoundary};

use crate::cursor::Cursor;
use crate::error::ReadError;
use crate::forms::Form;
use crate::grammar::{Grammar, expr};
use crate::reader::LEVELS;
use std::alloc::Global;
use td_tokens::lexer::tokens;

/// What a text is read as.
#[derive(Clone, Copy, PartialEq, Eq)]
pub enum Reading {
    /// The definitions of a script.
    Script,
    /// A statement.
    Statement,
    /// An expression that is no part of another one.
    Query,
}

// Reads as far as it can, where an expression has at most so many levels.
fn read_on(
    alloc: Global,
    reading: Reading,
    levels: usize,
    tokens: &mut Cursor<'_>,
) -> Result<(), ReadError>
    requires { levels < 18446744073709551615 }
{
    let grammar = Grammar {
        alloc,
        depth: tokens.len(),
        levels,
        nested: expr,
    };
    match reading {
        Reading::Script => {
            grammar.definitions(tokens)?;
        }
        Reading::Statement => {
            grammar.statement(tokens)?;
        }
        Reading::Query => {
            grammar.nested(tokens, levels, Form::Expr)?;
        }
    }
    Ok(())
}

/// The byte at which the reading of a text stops: the begin of the first token with which it does not go on, or the
/// text's length where it is read whole or ends too early. An expression of more than 256 levels may stop at its end.
///
/// It is `Syntax` of a text that has no tokens (`td_tokens::tokens_end` tells up to where it has). How long the text
/// is plays no part. Time and depth are as for a query.
pub fn stop(alloc: Global, reading: Reading, text: &str) -> Result<usize, ReadError>
    ensures { IfOk result (IsCharBoundary text.now) }
{
    let all = tokens(alloc, text)?;
    let mut rest = Cursor::new(&all);
    if let Err(ReadError::OutOfMemory) = read_on(alloc, reading, LEVELS, &mut rest) {
        return Err(ReadError::OutOfMemory);
    }
    match all.get(all.len().saturating_sub(rest.len())) {
        Some(token) => Ok(token.start),
        None => Ok(text.len()),
    }
}

// How many tokens are left where the reading stops, and one more where it fails there.
fn left_over(
    alloc: Global,
    reading: Reading,
    levels: usize,
    mut tokens: Cursor<'_>,
) -> Result<usize, ReadError>
    requires { levels < 18446744073709551615 }
{
    match read_on(alloc, reading, levels, &mut tokens) {
        Ok(()) => Ok(tokens.len()),
        Err(ReadError::Syntax) => Ok(tokens.len().saturating_add(1)),
        Err(ReadError::OutOfMemory) => Err(ReadError::OutOfMemory),
    }
}

/// Whether the reading of a text stops for the levels of an expression: with twice as many it would go on.
///
/// It is `Syntax` of a text that has no tokens. Time and depth are those of a query, and those twice.
pub fn nests_too_deep(alloc: Global, reading: Reading, text: &str) -> Result<bool, ReadError> {
    let all = tokens(alloc, text)?;
    let left = left_over(alloc, reading, LEVELS, Cursor::new(&all))?;
    let left_of_more = left_over(alloc, reading, 2 * LEVELS, Cursor::new(&all))?;
    Ok(left_of_more < left)
}
