//! The sources of a multiple assignment.

ghost use Rattle.std.specs.Prelude.{◌≡◌, IfOk, Ok, OnOk};
ghost use Rattle.td_values.specs.Rows.{AreRows, RowsData};
ghost use Rattle.td_semantics.specs.Raises.{Tells};
ghost use Rattle.td_semantics.specs.Databases.{Belongs, stored_relvars};
ghost use Rattle.td_assign.specs.ForProofs.Given.{AreAssigned, AreChanges, GivesMore, IsAssigned, TellsChanges};
ghost use Rattle.td_assign.specs.ForProofs.Turning.{Adds, IsGrowth, TellsAddition, TellsAlone, TellsTurn};
ghost use Rattle.td_assign.specs.ForProofs.Lists.{given_to};
ghost use Rattle.td_semantics.specs.Given.{nothing_given};
ghost use Rattle.td_semantics.specs.Sources.{source_means, sources};

use crate::changes::{Change, give};
use crate::seen::Seen;
use std::alloc::{AllocError, Global};
use td_eval::lacking_tuples;
use td_headings::TypedAssignment;
use td_relations::{Delta, Relation};
use td_relvars::Database;
use td_semantics::Failure;

// The relation that the source has.
fn source(
    alloc: Global,
    database: &Database,
    changes: &[Change],
    assignment: &TypedAssignment,
) -> Result<Relation, Failure>
    requires assigned { IsAssigned database.now.catalogue assignment.now }
    requires given { AreChanges database.now.catalogue changes.now }
    ensures told { Tells result (source_means database.now.catalogue (stored_relvars database.now.stored) (given_to changes.now) assignment.now) }
    ensures typed { IfOk result (Belongs database.now.catalogue assignment.now.target) }
{
    let catalogue = database.catalogue();
    let seen = Seen {
        database,
        changes,
        target: assignment.target,
    };
    match catalogue.schema().relvar_at(assignment.target) {
        Some((_, heading)) => {
            td_eval::relation(alloc, catalogue, heading, &assignment.source, &seen)
        }
        None => unreachable!(),
    }
}

// Evaluates the source of an assignment, with what the assignments before it give, and gives it to the target.
fn add_source(
    alloc: Global,
    database: &Database,
    changes: &mut Vec<Change>,
    assignment: &TypedAssignment,
) -> Result<(), Failure>
    requires assigned { IsAssigned database.now.catalogue assignment.now }
    requires given { AreChanges database.now.catalogue changes.old.items }
    ensures told { GivesMore (source_means database.now.catalogue (stored_relvars database.now.stored) (given_to changes.old.items) assignment.now) assignment.now.target changes.old.items result changes.new.items }
    ensures given { OnOk result (AreChanges database.now.catalogue changes.new.items) }
{
    match source(alloc, database, changes, assignment) {
        Ok(relation) => Ok(give(changes, assignment.target, relation)?),
        Err(failure) => Err(failure),
    }
}

/// What the assignments give to their targets, each source evaluated once, in written order.
pub(crate) fn changes(
    alloc: Global,
    database: &Database,
    assignments: &[TypedAssignment],
) -> Result<Vec<Change>, Failure>
    requires { AreAssigned database.now.catalogue assignments.now }
    ensures told { TellsChanges result (sources database.now.catalogue (stored_relvars database.now.stored) nothing_given assignments.now) }
    ensures given { IfOk result (λ v. AreChanges database.now.catalogue v.items) }
{
    let mut changes = Vec::new(alloc);
    for assignment in assignments {
        match add_source(alloc, database, &mut changes, assignment) {
            Ok(()) => {}
            Err(failure) => return Err(failure),
        }
    }
    Ok(changes)
}

// What the source adds to its target, if it is the target united with more.
fn addition(
    alloc: Global,
    database: &Database,
    assignment: &TypedAssignment,
) -> Result<Option<Relation>, Failure>
    requires { IsAssigned database.now.catalogue assignment.now }
    ensures { TellsAddition database.now assignment.now result }
{
    let catalogue = database.catalogue();
    td_eval::added_tuples(
        alloc,
        catalogue,
        &assignment.source,
        database,
        assignment.target,
    )
}

// The change that puts in what the target lacks of these tuples.
fn growth_by(
    alloc: Global,
    database: &Database,
    target: usize,
    more: &Relation,
) -> Result<Delta, AllocError>
    requires { Adds database.now target more.now }
    ensures { IfOk result (IsGrowth database.now target more.now) }
{
    match database.base_at(target) {
        Some(base) => {
            let before = base.relation();
            let inserted = lacking_tuples(alloc, more, before, base.indexes())?;
            before.rows_fit();
            inserted.rows_fit();
            let deleted = Relation::empty(alloc, inserted.heading().copy()?);
            Ok(Delta::of(inserted, deleted))
        }
        None => unreachable!(),
    }
}

// The change that puts in what the source adds to its target, if it is the target united with more.
fn insertion_delta(
    alloc: Global,
    database: &Database,
    assignment: &TypedAssignment,
) -> Result<Option<Delta>, Failure>
    requires { IsAssigned database.now.catalogue assignment.now }
    ensures { TellsAlone database.now assignment.now result }
{
    database.relvars_fit();
    match addition(alloc, database, assignment) {
        Ok(Some(more)) => Ok(Some(growth_by(alloc, database, assignment.target, &more)?)),
        Ok(None) => Ok(None),
        Err(failure) => Err(failure),
    }
}

// The tuples that the relvar at the place has fit its heading, and those of the change theirs.
fn rows_fit(database: &Database, relvar: usize, delta: &Delta)
    ensures there { (r : RowsData) → stored_relvars database.now.stored relvar ≡ Ok r → AreRows r.heading r.tuples }
    ensures new { AreRows delta.now.inserted.heading delta.now.inserted.tuples }
{
    delta.inserted().rows_fit();
    match database.base_at(relvar) {
        Some(base) => base.relation().rows_fit(),
        None => {}
    }
}

// The change that the source makes of its target, if it takes tuples out of it, or puts changed ones in their place.
fn change_delta(
    alloc: Global,
    database: &Database,
    assignment: &TypedAssignment,
) -> Result<Option<Delta>, Failure>
    requires { IsAssigned database.now.catalogue assignment.now }
    ensures { TellsAlone database.now assignment.now result }
{
    let catalogue = database.catalogue();
    let target = assignment.target;
    match td_eval::changed(alloc, catalogue, &assignment.source, database, target) {
        Ok(Some(delta)) => {
            rows_fit(database, target, &delta);
            Ok(Some(delta))
        }
        Ok(None) => Ok(None),
        Err(failure) => Err(failure),
    }
}

// The change that a single assignment makes of its target; None where its source has no form of which that is told.
fn single_delta(
    alloc: Global,
    database: &Database,
    assignment: &TypedAssignment,
) -> Result<Option<Delta>, Failure>
    requires { IsAssigned database.now.catalogue assignment.now }
    ensures { TellsAlone database.now assignment.now result }
{
    match insertion_delta(alloc, database, assignment) {
        Ok(None) => change_delta(alloc, database, assignment),
        told => told,
    }
}

/// The target of an assignment that stands alone, and the change that it makes of that: where its source is the target
/// united with more, or the target without the tuples that a condition selects, or that with these tuples changed. It
/// costs the evaluation of what is united with the target, or a walk along it, and a search for each changed tuple.
pub(crate) fn turn(
    alloc: Global,
    database: &Database,
    assignments: &[TypedAssignment],
) -> Result<Option<(usize, Delta)>, Failure>
    requires { AreAssigned database.now.catalogue assignments.now }
    ensures { TellsTurn database.now assignments.now result }
{
    let [assignment] = assignments else {
        return Ok(None);
    };
    match single_delta(alloc, database, assignment) {
        Ok(Some(delta)) => Ok(Some((assignment.target, delta))),
        Ok(None) => Ok(None),
        Err(failure) => Err(failure),
    }
}
