//! What the statements of a site access.

ghost use Rattle.std.specs.Prelude.{◌≡◌, false, ℕ, List, IfOk, IfSome, OnOk};
ghost use Rattle.td_accesses.specs.Commuting.{Commute};
ghost use Rattle.td_accesses.specs.Covering.{Covers};
ghost use Rattle.td_accesses.specs.Dependencies.{AreDependencies};
ghost use Rattle.td_assign.specs.Readings.{IsReadText};
ghost use Rattle.td_headings.specs.Catalogues.{CatalogueData};
ghost use Rattle.td_headings.specs.Reached.{AreThose};
ghost use Rattle.td_replay.specs.ForProofs.Accessing.{IsInsertionIn, IsRecordOf};
ghost use Rattle.td_semantics.specs.Footprints.{IsInFootprint};
ghost use Rattle.td_semantics.specs.Steps.{IsRead};

use std::alloc::{AllocError, Global};
use td_accesses::{Accesses, Dependencies};
use td_assign::{Ran, ReadText};
use td_headings::{TypedStatement, targets};
use td_insertions::inserted_tuples;
use td_relations::Relation;
use td_relvars::Database;

// The relvar and the tuples of an insertion that put in each of them.
fn insertion_in(ran: &Ran) -> Option<(usize, &Relation)>
    ensures { IfSome result (λ p. IsInsertionIn ran.now p.0 p.1.now) }
{
    if !ran.puts_in_all {
        return None;
    }
    match ran.delta.as_slice() {
        [change] => Some((change.0, change.1.inserted())),
        _ => None,
    }
}

/// Whether a statement, of which this is kept, may not be exchanged with one whose accesses these are.
pub(crate) fn conflicts(
    alloc: Global,
    dependencies: &Dependencies,
    accesses: &Accesses,
    ran: &Ran,
) -> Result<bool, AllocError>
    ensures { IfOk result (λ r. r ≡ false → (c : CatalogueData) → AreDependencies c dependencies.now.relvars.items → (k l : ℕ) (a b : List ℕ) → Covers c accesses.now k a → IsRecordOf c l b ran.now → Commute c k a l b) }
{
    let names = ran.names.get();
    let (reads, writes) = (&names.footprint, &names.targets);
    match insertion_in(ran) {
        Some((relvar, tuples)) => {
            accesses.conflict(alloc, dependencies, reads, writes, relvar, Some(tuples))
        }
        None => accesses.conflict(alloc, dependencies, reads, writes, 0, None),
    }
}

/// Adds what the statement accesses of which this is kept.
pub(crate) fn add_record(
    alloc: Global,
    database: &Database,
    dependencies: &Dependencies,
    accesses: &mut Accesses,
    ran: &Ran,
) -> Result<(), AllocError>
    requires { AreDependencies database.now.catalogue dependencies.now.relvars.items }
    ensures covered { (k : ℕ) (a : List ℕ) → IsRecordOf database.now.catalogue k a ran.now → OnOk result (Covers database.now.catalogue accesses.new k a) }
    ensures kept { OnOk result ((k : ℕ) (a : List ℕ) → Covers database.now.catalogue accesses.old k a → Covers database.now.catalogue accesses.new k a) }
{
    let catalogue = database.catalogue();
    let names = ran.names.get();
    let (reads, writes) = (&names.footprint, &names.targets);
    match insertion_in(ran) {
        Some((relvar, tuples)) => accesses.add(
            alloc,
            catalogue,
            dependencies,
            reads,
            writes,
            relvar,
            Some(tuples),
        ),
        None => accesses.add(alloc, catalogue, dependencies, reads, writes, 0, None),
    }
}

// Adds what the statement accesses that hangs on these relvars.
fn add_statement(
    alloc: Global,
    database: &Database,
    dependencies: &Dependencies,
    accesses: &mut Accesses,
    statement: &TypedStatement,
    footprint: &[usize],
) -> Result<(), AllocError>
    requires read { (k : ℕ) × (a : List ℕ) × IsRead database.now.catalogue k a statement.now }
    requires dependencies { AreDependencies database.now.catalogue dependencies.now.relvars.items }
    ensures covered { (k : ℕ) (a : List ℕ) → IsRead database.now.catalogue k a statement.now → AreThose (IsInFootprint database.now.catalogue k a) footprint.now → OnOk result (Covers database.now.catalogue accesses.new k a) }
    ensures kept { OnOk result ((k : ℕ) (a : List ℕ) → Covers database.now.catalogue accesses.old k a → Covers database.now.catalogue accesses.new k a) }
{
    database.relvars_fit();
    let catalogue = database.catalogue();
    let writes = targets(alloc, statement)?;
    match inserted_tuples(alloc, catalogue, statement, database)? {
        Some((relvar, tuples)) => accesses.add(
            alloc,
            catalogue,
            dependencies,
            footprint,
            &writes,
            relvar,
            Some(&tuples),
        ),
        None => accesses.add(alloc, catalogue, dependencies, footprint, &writes, 0, None),
    }
}

/// Adds what the statement accesses of whose text this was read.
pub(crate) fn add_reading(
    alloc: Global,
    database: &Database,
    dependencies: &Dependencies,
    accesses: &mut Accesses,
    reading: &ReadText,
) -> Result<(), AllocError>
    requires read { (k : ℕ) × (a : List ℕ) × IsReadText database.now.catalogue k a reading.now }
    requires dependencies { AreDependencies database.now.catalogue dependencies.now.relvars.items }
    ensures covered { (k : ℕ) (a : List ℕ) → IsReadText database.now.catalogue k a reading.now → OnOk result (Covers database.now.catalogue accesses.new k a) }
    ensures kept { OnOk result ((k : ℕ) (a : List ℕ) → Covers database.now.catalogue accesses.old k a → Covers database.now.catalogue accesses.new k a) }
{
    let names = reading.names.get();
    match &reading.statement {
        Some(statement) => {
            add_statement(
                alloc,
                database,
                dependencies,
                accesses,
                statement,
                &names.footprint,
            )
        }
        None => accesses.add(
            alloc,
            database.catalogue(),
            dependencies,
            &names.footprint,
            &[],
            0,
            None,
        ),
    }
}

// Whether the statement, which hangs on these relvars, may not be exchanged with one whose accesses these are, by the
// tuples that it inserts.
fn statement_conflicts(
    alloc: Global,
    database: &Database,
    dependencies: &Dependencies,
    accesses: &Accesses,
    statement: &TypedStatement,
    footprint: &[usize],
) -> Result<bool, AllocError>
    requires read { (l : ℕ) × (b : List ℕ) × IsRead database.now.catalogue l b statement.now }
    requires dependencies { AreDependencies database.now.catalogue dependencies.now.relvars.items }
    ensures { IfOk result (λ r. r ≡ false → (k l : ℕ) (a b : List ℕ) → Covers database.now.catalogue accesses.now k a → IsRead database.now.catalogue l b statement.now → AreThose (IsInFootprint database.now.catalogue l b) footprint.now → Commute database.now.catalogue k a l b) }
{
    database.relvars_fit();
    let catalogue = database.catalogue();
    let assigned = targets(alloc, statement)?;
    match inserted_tuples(alloc, catalogue, statement, database)? {
        Some((relvar, tuples)) => accesses.conflict(
            alloc,
            dependencies,
            footprint,
            &assigned,
            relvar,
            Some(&tuples),
        ),
        None => Ok(true),
    }
}

/// Whether a statement, of whose text this was read, may not be exchanged with one whose accesses these are, by the
/// tuples that it inserts: one that inserts none is told to conflict.
pub(crate) fn reading_conflicts(
    alloc: Global,
    database: &Database,
    dependencies: &Dependencies,
    accesses: &Accesses,
    reading: &ReadText,
) -> Result<bool, AllocError>
    requires read { (l : ℕ) × (b : List ℕ) × IsReadText database.now.catalogue l b reading.now }
    requires dependencies { AreDependencies database.now.catalogue dependencies.now.relvars.items }
    ensures { IfOk result (λ r. r ≡ false → (k l : ℕ) (a b : List ℕ) → Covers database.now.catalogue accesses.now k a → IsReadText database.now.catalogue l b reading.now → Commute database.now.catalogue k a l b) }
{
    let names = reading.names.get();
    match &reading.statement {
        Some(statement) => {
            statement_conflicts(
                alloc,
                database,
                dependencies,
                accesses,
                statement,
                &names.footprint,
            )
        }
        None => Ok(true),
    }
}
