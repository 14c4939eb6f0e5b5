//! What a script opens.

ghost use Rattle.std.specs.Prelude.{◌≡◌, IfOk};
ghost use Rattle.td_headings.specs.Expressions as expressions;
ghost use Rattle.td_semantics.specs.Databases.{Belongs, IsLegal};
ghost use Rattle.td_relvars.specs.ForProofs.Opened.{Fills, Judges, Leaves, TellsInit};
ghost use Rattle.td_semantics.specs.Openings as spec;
ghost use Rattle.td_semantics.specs.Scripts.{Opens};

use crate::database::Database;
use std::alloc::Global;
use td_eval::relation;
use td_headings::{Catalogue, TypedExpr, init_expr};
use td_integrity::first_failure;
use td_relations::Relation;
use td_semantics::{CatalogueError, Failure, ScriptError, TestFailure, catalogue_of};

// What the INIT of the relvar at the place gives it.
fn init_value(
    alloc: Global,
    database: &Database,
    place: usize,
    init: &TypedExpr,
) -> Result<Relation, Failure>
    requires { expressions.IsInit database.now.catalogue (expressions.init_at database.now.catalogue place) init.now }
    ensures told { TellsInit database.now.catalogue database.now.stored (expressions.init_at database.now.catalogue place) result }
    ensures belongs { IfOk result (Belongs database.now.catalogue place) }
{
    let catalogue = database.catalogue();
    let Some((_, heading)) = catalogue.schema().relvar_at(place) else {
        unreachable!()
    };
    relation(alloc, catalogue, heading, init, database)
}

// Evaluates the INIT of the relvar at the place, if it has one.
fn put_init(alloc: Global, database: &mut Database, place: usize) -> Result<(), Failure>
    ensures catalogue { database.new.catalogue ≡ database.old.catalogue }
    ensures stored { Leaves result database.new.stored (spec.with_init database.old.catalogue database.old.stored place (expressions.init_at database.old.catalogue place)) }
{
    let init = match init_expr(alloc, database.catalogue(), place) {
        Ok(Some(init)) => init,
        Ok(None) => return Ok(()),
        Err(_) => return Err(Failure::OutOfMemory),
    };
    let relation = match init_value(alloc, database, place, &init) {
        Ok(relation) => relation,
        Err(failure) => return Err(failure),
    };
    let base = database.make_base(alloc, place, relation)?;
    database.set(place, base);
    Ok(())
}

// Each relvar sees those before it.
fn open_in_order(alloc: Global, catalogue: Catalogue) -> Result<Database, Failure>
    ensures { Fills catalogue result }
{
    let mut database = match Database::empty(alloc, catalogue) {
        Ok(database) => database,
        Err(_) => return Err(Failure::OutOfMemory),
    };
    for place in 0..database.catalogue().schema().relvar_count() {
        match put_init(alloc, &mut database, place) {
            Ok(()) => {}
            Err(failure) => return Err(failure),
        }
    }
    Ok(database)
}

// The database, where every test is true.
fn judge_tests(alloc: Global, database: Database) -> Result<Database, ScriptError>
    ensures { Judges database result }
{
    match first_failure(alloc, database.catalogue(), &database) {
        Ok(None) => Ok(database),
        Ok(Some(failure)) => {
            let TestFailure { test, raised: _ } = failure;
            Err(ScriptError::OpeningBroken(test))
        }
        Err(_) => Err(ScriptError::OutOfMemory),
    }
}

impl Database {
    /// The database that the script opens: its types and relvars, each with what it holds at first, where every test is
    /// true. It costs the reading and typing of the text, the evaluation of each INIT, and the tests.
    pub fn open_script(alloc: Global, text: &str) -> Result<Database, ScriptError>
        ensures opens { Opens text.now result }
        ensures legal { IfOk result IsLegal }
    {
        let catalogue = match catalogue_of(alloc, text) {
            Ok(catalogue) => catalogue,
            Err(CatalogueError::Syntax) => return Err(ScriptError::Syntax),
            Err(CatalogueError::IllTyped) => return Err(ScriptError::IllTyped),
            Err(CatalogueError::OutOfMemory) => return Err(ScriptError::OutOfMemory),
        };
        let database = match open_in_order(alloc, catalogue) {
            Ok(database) => database,
            Err(Failure::Raised(error)) => return Err(ScriptError::OpeningRaised(error)),
            Err(Failure::OutOfMemory) => return Err(ScriptError::OutOfMemory),
        };
        judge_tests(alloc, database)
    }
}
