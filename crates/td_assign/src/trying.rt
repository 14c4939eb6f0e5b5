//! What a statement would do.

ghost use Rattle.std.specs.Prelude.{ℕ, List, IfOk};
ghost use Rattle.td_headings.specs.Statements.{TypesStatement};
ghost use Rattle.td_semantics.specs.Databases.{IsLegal};
ghost use Rattle.td_syntax.specs.declared.script.Statement.{Statement};
ghost use Rattle.td_assign.specs.Readings.{IsReadText};
ghost use Rattle.td_assign.specs.Trying.{WouldRun};
ghost use Rattle.td_assign.specs.ForProofs.Given.{AreAssigned};
ghost use Rattle.td_assign.specs.ForProofs.Prepared.{AreAssignedWhole, IsMadeWhole, IsPreparedWhole};

use crate::choices::choose_assignments;
use crate::ran::Ran;
use crate::reading::ReadText;
use crate::running::{Prepared, judge_changes, ran};
use crate::sources::changes;
use std::alloc::{AllocError, Global};
use td_headings::{TypedAssignment, TypedStatement};
use td_relvars::Database;
use td_semantics::{Failure, Outcome};

// What the assignments make of the database, each source evaluated whole, so that nothing has to be changed.
fn try_assignments(
    alloc: Global,
    database: &Database,
    assignments: &[TypedAssignment],
) -> Result<Prepared, AllocError>
    requires assigned { AreAssigned database.now.catalogue assignments.now }
    requires legal { IsLegal database.now }
    ensures { IfOk result (AreAssignedWhole database.now assignments.now) }
{
    match changes(alloc, database, assignments) {
        Ok(changes) => judge_changes(alloc, database, changes),
        Err(Failure::Raised(raise)) => Ok(Prepared::Refused(Outcome::Raised(raise))),
        Err(Failure::OutOfMemory) => Err(AllocError),
    }
}

// What the statement makes of the database.
fn try_statement(
    alloc: Global,
    database: &Database,
    statement: &TypedStatement,
) -> Result<Prepared, AllocError>
    requires typed { (s : Statement) × TypesStatement database.now.catalogue s statement.now }
    requires legal { IsLegal database.now }
    ensures { IfOk result (IsMadeWhole database.now statement.now) }
{
    match choose_assignments(alloc, database, statement) {
        Ok(assignments) => try_assignments(alloc, database, assignments),
        Err(Failure::Raised(raise)) => Ok(Prepared::Refused(Outcome::Raised(raise))),
        Err(Failure::OutOfMemory) => Err(AllocError),
    }
}

// What a text of which this was read makes of the database.
fn try_text(alloc: Global, database: &Database, reading: &ReadText) -> Result<Prepared, AllocError>
    requires legal { IsLegal database.now }
    requires read { (dialect : ℕ) × (text : List ℕ) × IsReadText database.now.catalogue dialect text reading.now }
    ensures { (dialect : ℕ) (text : List ℕ) → IsReadText database.now.catalogue dialect text reading.now → IfOk result (IsPreparedWhole database.now dialect text) }
{
    match &reading.statement {
        Some(statement) => try_statement(alloc, database, statement),
        None => Ok(Prepared::Refused(Outcome::Unread)),
    }
}

/// What `run_read` would return, over a database that stays as it is. Each source is evaluated whole and the tests are
/// made over it, so it costs walks along the targets also where `run_read` changes a target in place.
pub fn try_read(alloc: Global, database: &Database, reading: &ReadText) -> Result<Ran, AllocError>
    requires legal { IsLegal database.now }
    requires read { (dialect : ℕ) × (text : List ℕ) × IsReadText database.now.catalogue dialect text reading.now }
    ensures { (dialect : ℕ) (text : List ℕ) → IsReadText database.now.catalogue dialect text reading.now → IfOk result (WouldRun database.now dialect text) }
{
    let names = reading.names.copy()?;
    match try_text(alloc, database, reading)? {
        Prepared::Changes(_, delta) => Ok(ran(Outcome::Done, delta, names, false)),
        Prepared::InPlace(_, _) => unreachable!(),
        Prepared::Refused(outcome) => Ok(ran(outcome, Vec::new(alloc), names, false)),
    }
}
