//! What is read of a statement's text before it is run.

ghost use Rattle.std.specs.Prelude.{IfOk, MatchOption};
ghost use Rattle.td_semantics.specs.Steps.{IsRead, IsUnreadText};
ghost use Rattle.td_assign.specs.Readings.{IsReadText};

use crate::names::{NamedRelvars, names_of, no_names};
use std::alloc::{AllocError, Global};
use td_grammar::{ReadError, read_statement_in};
use td_headings::{Catalogue, TypedStatement, type_statement};
use td_schema::error::TypeError;
use td_tuples::Shared;

/// What is read of a statement's text, in its dialect.
#[derive(Drop)]
pub struct ReadText {
    /// The statement that it is, typed, if it is one.
    pub statement: Option<TypedStatement>,
    /// The relvars of the statement.
    pub names: Shared<NamedRelvars>,
}

// The statement that the text is, typed, if it is one.
fn statement_of(
    alloc: Global,
    catalogue: &Catalogue,
    text: &str,
    dialect: u8,
) -> Result<Option<TypedStatement>, AllocError>
    ensures { IfOk result (λ o. MatchOption o (IsUnreadText catalogue.now dialect text.now) (IsRead catalogue.now dialect text.now)) }
{
    let statement = match read_statement_in(alloc, text, dialect) {
        Ok(statement) => statement,
        Err(ReadError::Syntax) => return Ok(None),
        Err(ReadError::OutOfMemory) => return Err(AllocError),
    };
    match type_statement(alloc, catalogue, &statement) {
        Ok(typed) => Ok(Some(typed)),
        Err(TypeError::IllTyped) => Ok(None),
        Err(TypeError::OutOfMemory) => Err(AllocError),
    }
}

/// Reads a statement's text in its dialect, and types it. It evaluates nothing.
pub fn read(
    alloc: Global,
    catalogue: &Catalogue,
    text: &str,
    dialect: u8,
) -> Result<ReadText, AllocError>
    ensures { IfOk result (IsReadText catalogue.now dialect text.now) }
{
    match statement_of(alloc, catalogue, text, dialect)? {
        Some(statement) => {
            let names = names_of(alloc, catalogue, &statement)?;
            let names = Shared::new(alloc, names)?;
            Ok(ReadText {
                statement: Some(statement),
                names,
            })
        }
        None => {
            let names = Shared::new(alloc, no_names(alloc))?;
            Ok(ReadText {
                statement: None,
                names,
            })
        }
    }
}
