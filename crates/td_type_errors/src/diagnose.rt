//! Whether a text that is read has no type, and where it goes wrong.

ghost use Rattle.std.specs.Prelude.{◌≡◌, IfOk, OnErr};
ghost use Rattle.std.specs.Str.{IsCharBoundary};
ghost use Rattle.td_type_errors.specs.Diagnoses.{Diagnoses, FindsDefinition, IsCatalogueAfter, IsDefinition, FindsWhere, IsDefinitionWithoutType, IsQueryWithoutType, IsStatementWithoutType};

use crate::definition::explain_definition;
use crate::diagnostic::Diagnostic;
use crate::statement::{explain_query, explain_statement};
use sqlite_items::{Boxed, Items};
use std::alloc::{AllocError, Global};
use td_grammar::{ReadError, read_expr, read_script, read_statement};
use td_headings::{Catalogue, type_statement};
use td_schema::{Scope, TypeError};
use td_syntax::script::{Definition, Statement};
use td_syntax::tree::Expr;
use td_typing::type_in;

// The diagnostic at a place that lies in the text, between two characters.
fn place_in_text(text: &str, found: Diagnostic) -> Diagnostic
    ensures { IsCharBoundary text.now result.place }
{
    let Diagnostic { place, message } = found;
    Diagnostic {
        place: text.floor_char_boundary(place),
        message,
    }
}

// The query that the text is, where it has no type.
fn ill_typed_query(
    alloc: Global,
    catalogue: &Catalogue,
    text: &str,
) -> Result<Option<Boxed<Expr>>, AllocError>
    ensures { IfOk result (FindsWhere (IsQueryWithoutType catalogue.now text.now)) }
{
    let tree = match read_expr(alloc, text) {
        Ok(tree) => tree,
        Err(ReadError::Syntax) => return Ok(None),
        Err(ReadError::OutOfMemory) => return Err(AllocError),
    };
    let schema = catalogue.schema();
    match type_in(alloc, schema, &Scope::Relvars(schema), tree.get()) {
        Ok(_) => Ok(None),
        Err(TypeError::IllTyped) => Ok(Some(tree)),
        Err(TypeError::OutOfMemory) => Err(AllocError),
    }
}

// The statement that the text is, where no rule types it.
fn ill_typed_statement(
    alloc: Global,
    catalogue: &Catalogue,
    text: &str,
) -> Result<Option<Statement>, AllocError>
    ensures { IfOk result (FindsWhere (IsStatementWithoutType catalogue.now text.now)) }
{
    let statement = match read_statement(alloc, text) {
        Ok(statement) => statement,
        Err(ReadError::Syntax) => return Ok(None),
        Err(ReadError::OutOfMemory) => return Err(AllocError),
    };
    match type_statement(alloc, catalogue, &statement) {
        Ok(_) => Ok(None),
        Err(TypeError::IllTyped) => Ok(Some(statement)),
        Err(TypeError::OutOfMemory) => Err(AllocError),
    }
}

/// What is wrong with a query that is read and has no type: nothing exactly where it is not read or has a type.
///
/// The place is that of the innermost part without a type, or in it. It takes the time of typing the query, at most as
/// many times as it has levels.
pub fn diagnose_query(
    alloc: Global,
    catalogue: &Catalogue,
    text: &str,
) -> Result<Option<Diagnostic>, AllocError>
    ensures { IfOk result (Diagnoses (IsQueryWithoutType catalogue.now text.now) text.now) }
{
    let Some(tree) = ill_typed_query(alloc, catalogue, text)? else {
        return Ok(None);
    };
    let found = explain_query(alloc, catalogue, text, tree.get())?;
    Ok(Some(place_in_text(text, found)))
}

/// What is wrong with a statement that is read and not well typed. It takes the time that a query takes, for each of
/// its sources and conditions.
pub fn diagnose_statement(
    alloc: Global,
    catalogue: &Catalogue,
    text: &str,
) -> Result<Option<Diagnostic>, AllocError>
    ensures { IfOk result (Diagnoses (IsStatementWithoutType catalogue.now text.now) text.now) }
{
    let Some(statement) = ill_typed_statement(alloc, catalogue, text)? else {
        return Ok(None);
    };
    let found = explain_statement(alloc, catalogue, text, &statement)?;
    Ok(Some(place_in_text(text, found)))
}

// The definition that the text is, if it is one alone.
fn definition(alloc: Global, text: &str) -> Result<Option<Items<Definition>>, AllocError>
    ensures { IfOk result (FindsDefinition text.now) }
{
    let trees = match read_script(alloc, text) {
        Ok(trees) => trees,
        Err(ReadError::Syntax) => return Ok(None),
        Err(ReadError::OutOfMemory) => return Err(AllocError),
    };
    if trees.as_slice().len() == 1 {
        Ok(Some(trees))
    } else {
        Ok(None)
    }
}

// Adds the definition that the text is behind the others, or tells what is wrong with it.
fn define_read(
    alloc: Global,
    catalogue: &mut Catalogue,
    text: &str,
    tree: &Definition,
) -> Result<Option<Diagnostic>, AllocError>
    requires { IsDefinition text.now tree.now }
    ensures told { IfOk result (Diagnoses (IsDefinitionWithoutType catalogue.old text.now) text.now) }
    ensures grows { IfOk result (λ told. IsCatalogueAfter catalogue.old text.now told catalogue.new) }
    ensures kept { OnErr result (catalogue.new ≡ catalogue.old) }
{
    match catalogue.define(alloc, tree) {
        Ok(()) => Ok(None),
        Err(TypeError::IllTyped) => {
            let found = explain_definition(alloc, &*catalogue, text, tree)?;
            Ok(Some(place_in_text(text, found)))
        }
        Err(TypeError::OutOfMemory) => Err(AllocError),
    }
}

/// Adds the definition that a text is behind the others, where it is well typed after them, and else tells what is
/// wrong with it. A text that is not read, or is not one definition, adds nothing, and nothing is told.
pub fn define_or_diagnose(
    alloc: Global,
    catalogue: &mut Catalogue,
    text: &str,
) -> Result<Option<Diagnostic>, AllocError>
    ensures told { IfOk result (Diagnoses (IsDefinitionWithoutType catalogue.old text.now) text.now) }
    ensures grows { IfOk result (λ told. IsCatalogueAfter catalogue.old text.now told catalogue.new) }
    ensures kept { OnErr result (catalogue.new ≡ catalogue.old) }
{
    match definition(alloc, text)? {
        Some(trees) => define_read(alloc, catalogue, text, &trees.as_slice()[0]),
        None => Ok(None),
    }
}
