//! Whether a text that is issued is a statement, well typed.

ghost use Rattle.std.specs.Prelude.{◌≤◌, length};
ghost use Rattle.td_replica.specs.Calls.{latest_dialect};
ghost use Rattle.td_semantics.specs.Steps.{IsUnreadText};
ghost use Rattle.td_replay.specs.ForProofs.Judged.{IsRefusal, Judges};

use std::alloc::Global;
use td_grammar::{LATEST, ReadError, read_statement_in};
use td_headings::{Catalogue, type_statement};
use td_replica::IssueError;
use td_schema::error::TypeError;

/// Why the text is no statement of the catalogue, if it is none.
pub(crate) fn judge(alloc: Global, catalogue: &Catalogue, text: &str) -> Result<(), IssueError>
    requires { length text.now ≤ 8192 }
    ensures { Judges catalogue.now text.now result }
{
    let statement = match read_statement_in(alloc, text, LATEST) {
        Ok(statement) => statement,
        Err(ReadError::Syntax) => return Err(IssueError::Syntax),
        Err(ReadError::OutOfMemory) => return Err(IssueError::OutOfMemory),
    };
    match type_statement(alloc, catalogue, &statement) {
        Ok(_) => Ok(()),
        Err(TypeError::IllTyped) => Err(IssueError::IllTyped),
        Err(TypeError::OutOfMemory) => Err(IssueError::OutOfMemory),
    }
}

/// Why a text that is none is no statement of the catalogue.
pub(crate) fn refusal(alloc: Global, catalogue: &Catalogue, text: &str) -> IssueError
    requires unread { IsUnreadText catalogue.now latest_dialect text.now }
    requires short { length text.now ≤ 8192 }
    ensures { IsRefusal catalogue.now text.now result }
{
    match judge(alloc, catalogue, text) {
        Ok(()) => unreachable!(),
        Err(error) => error,
    }
}
