//! Running a statement.

ghost use Rattle.std.specs.Prelude.{◌≡◌, [], ℕ, List, IfOk, IsTrue, OnErr, OnOk, Option, Some};
ghost use Rattle.std.specs.List.{All};
ghost use Rattle.td_semantics.specs.Reports.{IsReport};
ghost use Rattle.td_headings.specs.Catalogues.{CatalogueData};
ghost use Rattle.td_headings.specs.Reached.{AreThose};
ghost use Rattle.td_headings.specs.Statements.{TypesStatement};
ghost use Rattle.td_syntax.specs.declared.script.Statement.{Statement};
ghost use Rattle.td_headings.specs.declared.defined.Test.{Test};
ghost use Rattle.td_algebra.specs.declared.errors.Stop.{Stop};
ghost use Rattle.td_semantics.specs.Databases.{DatabaseData, IsLegal, stored_relvars};
ghost use Rattle.td_semantics.specs.Counts.{one_more};
ghost use Rattle.td_semantics.specs.Differences.{AreDifferences};
ghost use Rattle.td_semantics.specs.Footprints.{IsInFootprint, IsTargetOfText};
ghost use Rattle.td_assign.specs.ForProofs.Given.{AreAssigned, AreChanges};
ghost use Rattle.td_assign.specs.ForProofs.Turning.{CameFrom, IsTurned, IsOneTurn, IsTried, MayTurn, TakesNothing};
ghost use Rattle.td_assign.specs.ForProofs.Prepared.{AreAssignedTo, IsJudged, IsMade, IsPrepared};
ghost use Rattle.td_assign.specs.ForProofs.Lists.{IsKeyed, changes_of, given_to};
ghost use Rattle.td_semantics.specs.Steps as spec;
ghost use Rattle.td_semantics.specs.Steps.{Steps};
ghost use Rattle.td_assign.specs.Inserting.{PutsIn};
ghost use Rattle.td_assign.specs.Readings.{IsReadText};

use crate::changes::Change;
use crate::choices::choose_assignments;
use crate::deltas::differences;
use crate::insertions::puts_in_all;
use crate::names::NamedRelvars;
use crate::ran::Ran;
use crate::reading::{ReadText, read};
use crate::seen::Replaced;
use crate::sources;
use crate::sources::changes;
use std::alloc::{AllocError, Global};
use td_headings::{TypedAssignment, TypedStatement};
use td_integrity::first_failure_after;
use td_relations::Delta;
use td_relvars::{Base, Database, WayBack};
use td_semantics::{BrokenTest, Failure, Meter, Outcome, TestFailure};
use td_tuples::Shared;

// A test that raises gives its error, one that is false what it is of.
fn refusal(failure: TestFailure) -> Outcome
    ensures { (c : CatalogueData) (t : Test) (o : Option Stop) → IsReport c (Some (t, o)) (Some failure) → spec.TellsTest c t o result }
{
    match (failure.raised, failure.test) {
        (Some(raise), _) => Outcome::Raised(raise),
        (None, BrokenTest::Key(relvar)) => Outcome::BreaksKey(relvar),
        (None, BrokenTest::Constraint(name)) => Outcome::BreaksConstraint(name),
    }
}

/// What a statement makes of a database that it has not changed yet: changes with the differences that they make, the
/// change of one relvar, which no test has judged yet, or the outcome that it has without effect.
#[derive(Drop)]
pub(crate) enum Prepared {
    Changes(Vec<Change>, Vec<(usize, Delta)>),
    InPlace(usize, Delta),
    Refused(Outcome),
}

// With these changes made, the tests decide.
pub(crate) fn judge_changes(
    alloc: Global,
    database: &Database,
    changes: Vec<Change>,
) -> Result<Prepared, AllocError>
    requires changes { AreChanges database.now.catalogue changes.items }
    requires legal { IsLegal database.now }
    ensures { IfOk result (IsJudged database.now changes.items) }
{
    let catalogue = database.catalogue();
    let delta = differences(alloc, database, &changes)?;
    let replaced = Replaced {
        database,
        changes: &changes,
    };
    match first_failure_after(alloc, catalogue, &replaced, &delta)? {
        Some(failure) => Ok(Prepared::Refused(refusal(failure))),
        None => Ok(Prepared::Changes(changes, delta)),
    }
}

// What the assignments make of the database, each source evaluated whole.
fn evaluate_sources(
    alloc: Global,
    database: &Database,
    assignments: &[TypedAssignment],
) -> Result<Prepared, AllocError>
    requires assigned { AreAssigned database.now.catalogue assignments.now }
    requires legal { IsLegal database.now }
    ensures { IfOk result (AreAssignedTo database.now assignments.now) }
{
    match changes(alloc, database, assignments) {
        Ok(changes) => judge_changes(alloc, database, changes),
        Err(Failure::Raised(raise)) => Ok(Prepared::Refused(Outcome::Raised(raise))),
        Err(Failure::OutOfMemory) => Err(AllocError),
    }
}

// What the assignments make of the database.
fn prepare_assignments(
    alloc: Global,
    database: &Database,
    assignments: &[TypedAssignment],
) -> Result<Prepared, AllocError>
    requires assigned { AreAssigned database.now.catalogue assignments.now }
    requires legal { IsLegal database.now }
    ensures { IfOk result (AreAssignedTo database.now assignments.now) }
{
    match sources::turn(alloc, database, assignments) {
        Ok(Some((target, delta))) => Ok(Prepared::InPlace(target, delta)),
        Ok(None) => evaluate_sources(alloc, database, assignments),
        Err(Failure::Raised(raise)) => Ok(Prepared::Refused(Outcome::Raised(raise))),
        Err(Failure::OutOfMemory) => Err(AllocError),
    }
}

// What the statement makes of the database.
fn prepare_statement(
    alloc: Global,
    database: &Database,
    statement: &TypedStatement,
) -> Result<Prepared, AllocError>
    requires typed { (s : Statement) × TypesStatement database.now.catalogue s statement.now }
    requires legal { IsLegal database.now }
    ensures { IfOk result (IsMade database.now statement.now) }
{
    match choose_assignments(alloc, database, statement) {
        Ok(assignments) => prepare_assignments(alloc, database, assignments),
        Err(Failure::Raised(raise)) => Ok(Prepared::Refused(Outcome::Raised(raise))),
        Err(Failure::OutOfMemory) => Err(AllocError),
    }
}

// What a text of which this was read makes of the database.
fn prepare(alloc: Global, database: &Database, reading: &ReadText) -> Result<Prepared, AllocError>
    requires legal { IsLegal database.now }
    requires read { (dialect : ℕ) × (text : List ℕ) × IsReadText database.now.catalogue dialect text reading.now }
    ensures { (dialect : ℕ) (text : List ℕ) → IsReadText database.now.catalogue dialect text reading.now → IfOk result (IsPrepared database.now dialect text) }
{
    match &reading.statement {
        Some(statement) => prepare_statement(alloc, database, statement),
        None => Ok(Prepared::Refused(Outcome::Unread)),
    }
}

// What the targets are to have, each with its tuples by its first key.
fn bases_of(
    alloc: Global,
    database: &Database,
    changes: Vec<Change>,
) -> Result<Vec<(usize, Base)>, AllocError>
    requires { AreChanges database.now.catalogue changes.items }
    ensures changes { IfOk result (λ v. changes_of v.items ≡ changes.items) }
    ensures keyed { IfOk result (λ v. All (IsKeyed database.now.catalogue) v.items) }
{
    let mut bases = Vec::with_capacity(alloc, changes.len())?;
    for change in changes {
        let Change { target, relation } = change;
        bases.push((target, database.make_base(alloc, target, relation)?))?;
    }
    Ok(bases)
}

// Puts them in place of what the targets have. It takes no memory.
fn put_bases(database: &mut Database, bases: Vec<(usize, Base)>)
    requires changes { AreChanges database.old.catalogue (changes_of bases.items) }
    requires keyed { All (IsKeyed database.old.catalogue) bases.items }
    ensures { database.new ≡ spec.with_all database.old (given_to (changes_of bases.items)) }
{
    for (target, base) in bases {
        database.set(target, base);
    }
}

// Puts what the targets were given in place of what they have.
fn put_all(alloc: Global, database: &mut Database, changes: Vec<Change>) -> Result<(), AllocError>
    requires { AreChanges database.old.catalogue changes.items }
    ensures ok { OnOk result (database.new ≡ spec.with_all database.old (given_to changes.items)) }
    ensures err { OnErr result (database.new ≡ database.old) }
{
    let bases = bases_of(alloc, database, changes)?;
    put_bases(database, bases);
    Ok(())
}

// Makes the one change, which takes nothing out, and takes it back where a test fails or memory is wanting for them.
fn try_change(
    alloc: Global,
    database: &mut Database,
    changes: &[(usize, Delta)],
) -> Result<Option<TestFailure>, AllocError>
    requires legal { IsLegal database.old }
    requires one { IsOneTurn database.old changes.now }
    requires growth { TakesNothing changes.now }
    ensures { IsTried database.old changes.now result database.new }
{
    database.relvars_fit();
    let change = &changes[0];
    database.change(alloc, change.0, &change.1)?;
    match first_failure_after(alloc, database.catalogue(), &*database, changes) {
        Ok(None) => Ok(None),
        Ok(Some(failure)) => {
            database.take_back(change.0, &change.1);
            Ok(Some(failure))
        }
        Err(error) => {
            database.take_back(change.0, &change.1);
            Err(error)
        }
    }
}

// The relvar has again what it had before the change: by its inverse, which costs the change alone, or, where memory is
// wanting for that, by the way that takes none.
fn restore(alloc: Global, database: &mut Database, change: &(usize, Delta), way: WayBack)
    requires { (d : DatabaseData) × CameFrom d change.now way database.old }
    ensures { (d : DatabaseData) → CameFrom d change.now way database.old → database.new ≡ d }
{
    match database.change_back(alloc, change.0, &change.1) {
        Ok(()) => database.keep_room(change.0, way),
        Err(_) => database.go_back(change.0, &change.1, way),
    }
}

// Makes the one change, and the relvar has again what it had where a test fails or memory is wanting for them. There is
// a way back that takes no memory: it is made before.
fn tried_with_way(
    alloc: Global,
    database: &mut Database,
    changes: &[(usize, Delta)],
) -> Result<Option<TestFailure>, AllocError>
    requires legal { IsLegal database.old }
    requires one { IsOneTurn database.old changes.now }
    ensures { IsTried database.old changes.now result database.new }
{
    database.relvars_fit();
    let made = &changes[0];
    let way = database.way_back(alloc, made.0, &made.1)?;
    database.change(alloc, made.0, &made.1)?;
    match first_failure_after(alloc, database.catalogue(), &*database, changes) {
        Ok(None) => {
            database.keep_room(made.0, way);
            Ok(None)
        }
        Ok(Some(failure)) => {
            restore(alloc, database, made, way);
            Ok(Some(failure))
        }
        Err(error) => {
            restore(alloc, database, made, way);
            Err(error)
        }
    }
}

// Makes the one change and tests it: with a way back where it takes something out.
fn make_change(
    alloc: Global,
    database: &mut Database,
    changes: &[(usize, Delta)],
    grows: bool,
) -> Result<Option<TestFailure>, AllocError>
    requires legal { IsLegal database.old }
    requires one { IsOneTurn database.old changes.now }
    requires growth { IsTrue grows → TakesNothing changes.now }
    ensures { IsTried database.old changes.now result database.new }
{
    if grows {
        try_change(alloc, database, changes)
    } else {
        tried_with_way(alloc, database, changes)
    }
}

// Makes the change, and the tests decide whether it stays.
fn turn(
    alloc: Global,
    database: &mut Database,
    relvar: usize,
    delta: Delta,
) -> Result<(Outcome, Vec<(usize, Delta)>), AllocError>
    requires legal { IsLegal database.old }
    requires turns { MayTurn database.old relvar delta }
    ensures turned { IfOk result (λ r. IsTurned database.old relvar delta r.0 r.1.items database.new) }
    ensures kept { OnErr result (database.new ≡ database.old) }
{
    database.relvars_fit();
    if delta.is_empty() {
        return Ok((Outcome::Done, Vec::new(alloc)));
    }
    let grows = delta.deleted().is_empty();
    // (what is kept of each statement for ever: with no room for more)
    let mut changes = Vec::with_capacity(alloc, 1)?;
    changes.push((relvar, delta))?;
    match make_change(alloc, database, &changes, grows)? {
        Some(failure) => Ok((refusal(failure), Vec::new(alloc))),
        None => Ok((Outcome::Done, changes)),
    }
}

// What a run of a statement is told as: its outcome, its changes and its relvars, and whether it is an insertion of which
// the changes put in each tuple.
pub(crate) fn ran(
    outcome: Outcome,
    delta: Vec<(usize, Delta)>,
    names: Shared<NamedRelvars>,
    puts_in_all: bool,
) -> Ran
    ensures outcome { result.outcome ≡ outcome }
    ensures delta { result.delta ≡ delta }
    ensures names { result.names ≡ names }
    ensures puts { result.puts_in_all ≡ puts_in_all }
{
    Ran {
        outcome,
        delta,
        names,
        puts_in_all,
    }
}

/// Runs a statement of whose text this was read, as `run` runs the text.
#[tactic(auto, using(crate::proofs::Preparing::no_differences))]
pub fn run_read(
    alloc: Global,
    database: &mut Database,
    reading: &ReadText,
    meter: &mut Meter,
) -> Result<Ran, AllocError>
    requires legal { IsLegal database.old }
    requires read { (dialect : ℕ) × (text : List ℕ) × IsReadText database.old.catalogue dialect text reading.now }
    ensures step { (dialect : ℕ) (text : List ℕ) → IsReadText database.old.catalogue dialect text reading.now → IfOk result (λ r. Steps database.old dialect text r.outcome database.new) }
    ensures delta { IfOk result (λ r. AreDifferences (stored_relvars database.old.stored) (stored_relvars database.new.stored) r.delta.items) }
    ensures kept { OnErr result (database.new ≡ database.old) }
    ensures legal { IsLegal database.new }
    ensures targets { (dialect : ℕ) (text : List ℕ) → IsReadText database.old.catalogue dialect text reading.now → IfOk result (λ r. AreThose (IsTargetOfText database.old.catalogue dialect text) r.names.targets.items) }
    ensures footprint { (dialect : ℕ) (text : List ℕ) → IsReadText database.old.catalogue dialect text reading.now → IfOk result (λ r. AreThose (IsInFootprint database.old.catalogue dialect text) r.names.footprint.items) }
    ensures puts { (dialect : ℕ) (text : List ℕ) → IsReadText database.old.catalogue dialect text reading.now → IfOk result (λ r. IsTrue r.puts_in_all → PutsIn database.old.catalogue dialect text r.delta.items) }
    ensures counted { meter.new.count ≡ one_more meter.old.count }
{
    meter.tick();
    database.relvars_fit();
    let prepared = prepare(alloc, database, reading)?;
    let names = reading.names.copy()?;
    database.count_reads(alloc, &names.get().footprint);
    match prepared {
        Prepared::Changes(changes, delta) => {
            put_all(alloc, database, changes)?;
            Ok(ran(Outcome::Done, delta, names, false))
        }
        Prepared::InPlace(relvar, delta) => {
            let (outcome, delta) = turn(alloc, database, relvar, delta)?;
            let all = puts_in_all(alloc, reading, &outcome, &delta);
            Ok(ran(outcome, delta, names, all))
        }
        Prepared::Refused(outcome) => Ok(ran(outcome, Vec::new(alloc), names, false)),
    }
}

/// Runs the statement over relvars of which every test is true: its text is read in its dialect and typed once, its
/// condition, if it has one, is evaluated and decides which assignments are made, each source of these is evaluated
/// once, the differences are made and then the tests that read a relvar which differs, and the relvars change where all
/// are true. Where one assignment alone adds tuples to its target, takes tuples out of it by a condition, or changes
/// such tuples, the target is changed where it stands, and changed back where a test fails: what is added costs its
/// tuples, a search for each, and the tests, and a condition one walk. Which relvars it names is found out before, by
/// the typed statement. A refusal for want of memory leaves the database; the meter has counted then.
pub fn run(
    alloc: Global,
    database: &mut Database,
    text: &str,
    dialect: u8,
    meter: &mut Meter,
) -> Result<Ran, AllocError>
    requires { IsLegal database.old }
    ensures step { IfOk result (λ r. Steps database.old dialect text.now r.outcome database.new) }
    ensures delta { IfOk result (λ r. AreDifferences (stored_relvars database.old.stored) (stored_relvars database.new.stored) r.delta.items) }
    ensures kept { OnErr result (database.new ≡ database.old) }
    ensures legal { IsLegal database.new }
    ensures targets { IfOk result (λ r. AreThose (IsTargetOfText database.old.catalogue dialect text.now) r.names.targets.items) }
    ensures footprint { IfOk result (λ r. AreThose (IsInFootprint database.old.catalogue dialect text.now) r.names.footprint.items) }
    ensures puts { IfOk result (λ r. IsTrue r.puts_in_all → PutsIn database.old.catalogue dialect text.now r.delta.items) }
    ensures counted { meter.new.count ≡ one_more meter.old.count }
{
    match read(alloc, database.catalogue(), text, dialect) {
        Ok(reading) => run_read(alloc, database, &reading, meter),
        Err(error) => {
            database.relvars_fit();
            meter.tick();
            Err(error)
        }
    }
}
