//! What must be true of a database after each statement: its keys and constraints, in the order of the script.
//!
//! td_integrity judges the same over any look-up, so that statements are judged before they change a database.
//!
//! Begin with `first_failure`, over a database as it stands, and `first_failure_after`, behind changes.
//!
//! ```
//! let failure = first_failure(alloc, &database)?;
//! let ran = run(alloc, &mut database, "DELETE S WHERE STATUS < 20;", LATEST, &mut meter)?;
//! let failure = first_failure_after(alloc, &database, &ran.delta)?;
//! ```
//!
//! Costs: `first_failure` makes every test: a key of n tuples takes n log n comparisons, a constraint its evaluation.
//! `first_failure_after` makes only the tests that read a changed relvar, each over as little as td_integrity needs.
#![tactic(auto)]

ghost use Rattle.std.specs.Prelude.{IfOk};
ghost use Rattle.td_semantics.specs.Databases.{stored_relvars};
ghost use Rattle.td_semantics.specs.Reports.{IsReport};
ghost use Rattle.td_semantics.specs.Tests.{failing};
ghost use Rattle.td_integrity.specs.Changes.{PassedBefore};

use std::alloc::{AllocError, Global};
use td_relations::Delta;
use td_relvars::Database;
pub use td_semantics::TestFailure as Failure;

/// The first test that is false or raises. It costs what `td_integrity::first_failure` does.
pub fn first_failure(alloc: Global, database: &Database) -> Result<Option<Failure>, AllocError>
    ensures { IfOk result (IsReport database.now.catalogue (failing database.now.catalogue (stored_relvars database.now.stored) database.now.catalogue.tests)) }
{
    td_integrity::first_failure(alloc, database.catalogue(), database)
}

/// The first test that is false or raises after these changes of relvars, before which every test was true. It costs
/// what `td_integrity::first_failure_after` does: it makes only the tests that read a relvar which was changed.
pub fn first_failure_after(
    alloc: Global,
    database: &Database,
    changes: &[(usize, Delta)],
) -> Result<Option<Failure>, AllocError>
    requires { PassedBefore database.now.catalogue (stored_relvars database.now.stored) changes.now }
    ensures { IfOk result (IsReport database.now.catalogue (failing database.now.catalogue (stored_relvars database.now.stored) database.now.catalogue.tests)) }
{
    td_integrity::first_failure_after(alloc, database.catalogue(), database, changes)
}
