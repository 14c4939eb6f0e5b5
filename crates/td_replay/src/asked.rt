//! What a database is asked.

ghost use Rattle.std.specs.Prelude.{◌≡◌, ◌≤◌, ◌+◌, ℕ, List, IfOk, length};
ghost use Rattle.td_stamps.specs.declared.entry.Entry as entry;
ghost use Rattle.td_semantics.specs.Databases.{DatabaseData};
ghost use Rattle.td_replay.specs.ForProofs.Asked.{Answers, TellsNamed};
ghost use Rattle.td_replay.specs.ForProofs.Past.{SaysAfter, TellsQuery, Types};
ghost use Rattle.td_replay.specs.ForProofs.Told.{IsLogged, Log};

use crate::past::{changed_relvars, undo_behind};
use crate::told::{Told, tell_all};
use std::alloc::{AllocError, Global};
use td_grammar::{ReadError, read_expr};
use td_headings::{Catalogue, TypedExpr, reads, type_expr};
use td_relations::Relation;
use td_relvars::{Database, value_over};
use td_replica::{AskError, MOST_BYTES, ValueError};
use td_schema::error::TypeError;
use td_semantics::{Answer, Meter};
use td_stamps::Entry;
use td_values::Name;

/// The query that the text is, typed.
pub(crate) fn query_of(
    alloc: Global,
    catalogue: &Catalogue,
    text: &str,
) -> Result<TypedExpr, AskError>
    ensures { TellsQuery catalogue.now text.now result }
{
    if text.len() > MOST_BYTES {
        return Err(AskError::Syntax);
    }
    let query = match read_expr(alloc, text) {
        Ok(query) => query,
        Err(ReadError::Syntax) => return Err(AskError::Syntax),
        Err(ReadError::OutOfMemory) => return Err(AskError::OutOfMemory),
    };
    match type_expr(alloc, catalogue, query.get()) {
        Ok(typed) => Ok(typed),
        Err(TypeError::IllTyped) => Err(AskError::IllTyped),
        Err(TypeError::OutOfMemory) => Err(AskError::OutOfMemory),
    }
}

/// What the query means over the relvars.
pub(crate) fn ask(alloc: Global, database: &Database, text: &str) -> Result<Answer, AskError>
    ensures { Answers database.now text.now result }
{
    let catalogue = database.catalogue();
    let query = match query_of(alloc, catalogue, text) {
        Ok(query) => query,
        Err(error) => return Err(error),
    };
    match database.evaluate(alloc, &query) {
        Ok(asked) => Ok(asked),
        Err(_) => Err(AskError::OutOfMemory),
    }
}

/// What the query means over the relvars that the first entries leave: what they have, with what came later taken back
/// in copies of those that the query reads and that changed since. It runs nothing.
pub(crate) fn ask_back(
    alloc: Global,
    told: &Told,
    query: &TypedExpr,
    kept: usize,
) -> Result<Answer, AllocError>
    requires typed { (text : List ℕ) × Types told.now.engine.catalogue text query.now }
    requires logged { (script : List ℕ) × (es : List entry.Entry) × IsLogged script es told.now.log.items told.now.engine × (kept ≤ length es) }
    ensures { (script : List ℕ) (es : List entry.Entry) → IsLogged script es told.now.log.items told.now.engine → kept ≤ length es → IfOk result (SaysAfter script es kept query.now) }
{
    let database = told.engine.database();
    let relvars = reads(alloc, query)?;
    let (_, behind) = told.log.split_at(kept);
    let places = changed_relvars(alloc, behind, &relvars)?;
    let mut part = database.copy_with_keys_at(alloc, &places)?;
    undo_behind(alloc, &mut part, &told.log, kept)?;
    value_over(alloc, database, &part, query)
}

/// What the query means over the relvars that the first entries leave, by running these anew.
pub(crate) fn ask_anew(
    alloc: Global,
    script: &str,
    entries: &[Entry],
    query: &TypedExpr,
    kept: usize,
    meter: &mut Meter,
) -> Result<Answer, AllocError>
    requires kept { kept ≤ length entries.now }
    requires typed { (log : Log) × (d : DatabaseData) × IsLogged script.now entries.now log d × (text : List ℕ) × Types d.catalogue text query.now }
    ensures says { IfOk result (SaysAfter script.now entries.now kept query.now) }
    ensures counted { meter.new.count ≤ meter.old.count + length entries.now }
{
    let (front, _) = entries.split_at(kept);
    let told = tell_all(alloc, script, front, meter)?;
    told.engine.database().evaluate(alloc, query)
}

/// What the relvar of this name has.
pub(crate) fn value_of(
    alloc: Global,
    database: &Database,
    name: &Name,
) -> Result<Answer<Relation>, ValueError>
    ensures { TellsNamed database.now name.now result }
{
    match database.value_of(alloc, name) {
        Ok(answer) => Ok(answer),
        Err(td_semantics::RelvarError::Unknown) => Err(ValueError::Unknown),
        Err(td_semantics::RelvarError::OutOfMemory) => Err(ValueError::OutOfMemory),
    }
}
