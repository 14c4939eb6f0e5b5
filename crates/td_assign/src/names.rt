//! The relvars of a statement: those that it assigns, and those on which it hangs.

ghost use Rattle.std.specs.Prelude.{◌≡◌, ◌↔◌, ◌++◌, ℕ, [], false, IfOk, IsTrue, OnOk, Some, slice_get};
ghost use Rattle.std.specs.List.{Contains, flat_map};
ghost use Rattle.td_syntax.specs.declared.script.Statement.{Statement};
ghost use Rattle.td_headings.specs.Definitions.{Defined};
ghost use Rattle.td_headings.specs.Expressions as expressions;
ghost use Rattle.td_headings.specs.Reached.{AreThose};
ghost use Rattle.td_headings.specs.Statements as typed;
ghost use Rattle.td_headings.specs.Statements.{IsTarget, TypesStatement};
ghost use Rattle.td_headings.specs.declared.statement.TypedAssignment as declared;
ghost use Rattle.td_semantics.specs.Footprints.{InFootprint, TestReads};
ghost use Rattle.td_typed_trees.specs.declared.expression.BaseUnder as declared_base;
ghost use Rattle.td_assign.specs.ForProofs.Names.{Gathers, HasMore, ReadsNoTarget, ReadsWith, condition_reads};

use std::alloc::{AllocError, Global};
use td_headings::{
    Catalogue, Test, TypedAssignment, TypedStatement, constraint_expr, lists_of, reads, targets,
};
use td_typed_trees::expression::BaseUnder;

/// The base relvars of a statement, by their places, ascending, each once; of an unread text none.
#[derive(Drop)]
pub struct NamedRelvars {
    /// Those that it assigns.
    pub targets: Vec<usize>,
    /// Those on which its outcome and its changes hang: its targets, what its sources read, and what each test reads
    /// that reads a target.
    pub footprint: Vec<usize>,
}

// These places, ascending, each once.
fn in_order(places: Vec<usize>) -> Vec<usize>
    ensures { AreThose (Contains places.items) result.items }
{
    let mut places = places;
    places.sort_unstable();
    places.dedup();
    places
}

// Whether the relvar at the place is a target.
fn is_target(targets: &[usize], place: usize) -> bool
    ensures { IsTrue result ↔ Contains targets.now place }
{
    targets.contains(&place)
}

// Whether one of the base relvars is a target.
fn meets(targets: &[usize], bases: &[BaseUnder]) -> bool
    ensures { IsTrue result ↔ ((b : declared_base.BaseUnder) × Contains bases.now b × Contains targets.now b.place) }
{
    for base in bases {
        if is_target(targets, base.place) {
            return true;
        }
    }
    false
}

// Puts the places of these base relvars behind the others.
fn add_places(places: &mut Vec<usize>, bases: &[BaseUnder]) -> Result<(), AllocError>
    ensures { OnOk result (places.new.items ≡ places.old.items ++ expressions.places_of bases.now) }
{
    for base in bases {
        places.push(base.place)?;
    }
    Ok(())
}

// Puts what the sources read behind the places.
fn add_reads(places: &mut Vec<usize>, assignments: &[TypedAssignment]) -> Result<(), AllocError>
    ensures { OnOk result (places.new.items ≡ places.old.items ++ flat_map (λ (x : declared.TypedAssignment). expressions.reads x.source) assignments.now) }
{
    for assignment in assignments {
        add_places(places, assignment.source.get().bases.as_slice())?;
    }
    Ok(())
}

// What the sources of a statement read, whichever are evaluated.
fn sources_read(alloc: Global, statement: &TypedStatement) -> Result<Vec<usize>, AllocError>
    ensures { IfOk result (λ v. v.items ≡ flat_map (λ (x : declared.TypedAssignment). expressions.reads x.source) (typed.assignments_of statement.now)) }
{
    let (made, otherwise) = lists_of(statement);
    let mut places = Vec::new(alloc);
    add_reads(&mut places, made)?;
    add_reads(&mut places, otherwise)?;
    Ok(places)
}

// What its condition reads, if it has one.
fn condition_read(alloc: Global, statement: &TypedStatement) -> Result<Vec<usize>, AllocError>
    ensures { IfOk result (λ v. v.items ≡ condition_reads (typed.condition_of statement.now)) }
{
    match statement {
        TypedStatement::Assignment(_) => Ok(Vec::new(alloc)),
        TypedStatement::Conditional(condition, _, _) => reads(alloc, condition),
    }
}

// Whether the constraint at the place may read a target, as far as the catalogue tells it.
fn may_read_any(catalogue: &Catalogue, targets: &[usize], place: usize) -> bool
    ensures { result ≡ false → ReadsNoTarget catalogue.now targets.now place }
{
    for target in targets {
        if catalogue.may_read(place, *target) {
            return true;
        }
    }
    false
}

// Whether the test, which stands at this place, reads a target. It takes no memory where the catalogue keeps the
// constraint.
fn reads_target(
    alloc: Global,
    catalogue: &Catalogue,
    targets: &[usize],
    place: usize,
    test: &Test,
) -> Result<bool, AllocError>
    requires defined { Defined catalogue.now }
    requires test { slice_get catalogue.now.tests place ≡ Some test.now }
    ensures { IfOk result (λ b. IsTrue b ↔ ((n : ℕ) × TestReads catalogue.now test.now n × Contains targets.now n)) }
{
    match test {
        Test::Key(relvar, _) => Ok(is_target(targets, *relvar)),
        Test::Constraint(_, _) => {
            if !may_read_any(catalogue, targets, place) {
                return Ok(false);
            }
            match constraint_expr(alloc, catalogue, place)? {
                Some(expr) => Ok(meets(targets, expr.get().bases.as_slice())),
                None => unreachable!(),
            }
        }
    }
}

// Puts what the test reads, which stands at this place, behind the others.
fn add_test_reads(
    alloc: Global,
    catalogue: &Catalogue,
    place: usize,
    test: &Test,
    places: &mut Vec<usize>,
) -> Result<(), AllocError>
    requires defined { Defined catalogue.now }
    requires test { slice_get catalogue.now.tests place ≡ Some test.now }
    ensures { OnOk result (HasMore (TestReads catalogue.now test.now) places.old.items places.new.items) }
{
    match test {
        Test::Key(relvar, _) => Ok(places.push(*relvar)?),
        Test::Constraint(_, _) => match constraint_expr(alloc, catalogue, place)? {
            Some(expr) => add_places(places, expr.get().bases.as_slice()),
            None => unreachable!(),
        },
    }
}

// The same, where the test reads a target, and else nothing.
fn add_test_needs(
    alloc: Global,
    catalogue: &Catalogue,
    targets: &[usize],
    place: usize,
    test: &Test,
    places: &mut Vec<usize>,
) -> Result<(), AllocError>
    requires defined { Defined catalogue.now }
    requires test { slice_get catalogue.now.tests place ≡ Some test.now }
    ensures { OnOk result (HasMore (ReadsWith catalogue.now targets.now test.now) places.old.items places.new.items) }
{
    if reads_target(alloc, catalogue, targets, place, test)? {
        add_test_reads(alloc, catalogue, place, test, places)
    } else {
        Ok(())
    }
}

// What each test reads that reads a target.
fn tests_need(
    alloc: Global,
    catalogue: &Catalogue,
    targets: &[usize],
) -> Result<Vec<usize>, AllocError>
    ensures defined { Defined catalogue.now }
    ensures places { IfOk result (λ v. Gathers (ReadsWith catalogue.now targets.now) catalogue.now.tests v.items) }
{
    let tests = catalogue.tests();
    let mut places = Vec::new(alloc);
    for place in 0..tests.len() {
        add_test_needs(alloc, catalogue, targets, place, &tests[place], &mut places)?;
    }
    Ok(places)
}

/// The relvars of a typed statement. They cost what the statement reads, and for each test a look at the base relvars
/// that this reads, where the catalogue keeps its constraints.
pub fn names_of(
    alloc: Global,
    catalogue: &Catalogue,
    statement: &TypedStatement,
) -> Result<NamedRelvars, AllocError>
    requires { (s : Statement) × TypesStatement catalogue.now s statement.now }
    ensures targets { IfOk result (λ x. AreThose (IsTarget statement.now) x.targets.items) }
    ensures footprint { IfOk result (λ x. AreThose (InFootprint catalogue.now statement.now) x.footprint.items) }
{
    let targets = targets(alloc, statement)?;
    let mut places = Vec::from_slice(alloc, &targets)?;
    let mut needed = tests_need(alloc, catalogue, &targets)?;
    let mut decides = condition_read(alloc, statement)?;
    let mut read = sources_read(alloc, statement)?;
    places.append(&mut needed)?;
    places.append(&mut decides)?;
    places.append(&mut read)?;
    let footprint = in_order(places);
    Ok(NamedRelvars { targets, footprint })
}

/// The relvars of a text that is no statement.
pub(crate) fn no_names(alloc: Global) -> NamedRelvars
    ensures targets { result.targets.items ≡ [] }
    ensures footprint { result.footprint.items ≡ [] }
{
    NamedRelvars {
        targets: Vec::new(alloc),
        footprint: Vec::new(alloc),
    }
}
