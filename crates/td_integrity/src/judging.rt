//! The tests of a script, judged over relvars that are looked up.

ghost use Rattle.std.specs.Prelude.{◌≡◌, ◌↔◌, IfOk, IfSome, IsTrue, MatchOption, None, Ok, Some, option_map};
ghost use Rattle.td_values.specs.Data.{no_attrs};
ghost use Rattle.td_values.specs.declared.TypeKind.TheVariants as type_kind;
ghost use Rattle.td_algebra.specs.Keys.{TellApartFrom};
ghost use Rattle.td_algebra.specs.Raising.{and_then};
ghost use Rattle.td_operators.specs.Values.{truth_of};
ghost use Rattle.td_eval.specs.Keyed.{IsByKey};
ghost use Rattle.td_headings.specs.Definitions.{Defined};
ghost use Rattle.td_semantics.specs.Raises.{Tells, stop_of};
ghost use Rattle.td_semantics.specs.Trees.{IsIn, tree_means};
ghost use Rattle.td_integrity.specs.Changes.{PassedBefore};
ghost use Rattle.td_integrity.specs.ForProofs.Changed.{ConstraintBefore, KeyBefore, KeyOf, ReadsNone, change_to};
ghost use Rattle.td_integrity.specs.ForProofs.Tested.{HasRelation, HasRelvar, StandsAt};
ghost use Rattle.td_semantics.specs.Reports.{IsReport, title};
ghost use Rattle.td_semantics.specs.Stored.{AreStored};
ghost use Rattle.td_semantics.specs.Tests as spec;
ghost use Rattle.td_semantics.specs.Tests.{failing, judgement, or_behind};

use crate::keyed::tell_apart_by;
use crate::losses::{none_is_missed, stored_relation};
use crate::ways::{Narrowed, Way, way_of};
use std::alloc::{AllocError, Global};
use td_algebra::{KeyIndex, tell_apart, tell_apart_from};
use td_eval::{Lookup, truth};
use td_headings::{Catalogue, Test, TypedExpr, constraint_expr};
use td_relations::{Delta, Relation};
use td_semantics::{BrokenTest, Failure, TestFailure};
use td_values::{Name, Raise};

// Whether no two tuples agree on the key's attributes.
fn is_key(alloc: Global, relation: &Relation, key: &[Name]) -> Result<bool, AllocError>
    ensures { IfOk result (λ b. b ≡ spec.is_key key.now relation.now.tuples) }
{
    relation.rows_fit();
    tell_apart(alloc, relation, key)
}

// How the relvar was changed, if it was.
fn change_of(changes: &[(usize, Delta)], relvar: usize) -> Option<&Delta>
    ensures { MatchOption result (change_to changes.now relvar ≡ None) (λ d. change_to changes.now relvar ≡ Some d.now) }
{
    for change in changes {
        if change.0 == relvar {
            return Some(&change.1);
        }
    }
    None
}

// The index of the relvar's tuples by this key, if they are kept so.
fn index_by<'a, L: Lookup>(lookup: &'a L, relvar: usize, key: &[Name]) -> Option<&'a KeyIndex>
    ensures { IfSome result (λ x. IsByKey (L.relvars lookup.now relvar) key.now x.now) }
{
    for index in lookup.indexes(relvar) {
        if index.is_of(key) {
            return Some(index);
        }
    }
    None
}

// Whether the tuples that were put into a relvar are told from all others of the relation that it has now by their
// parts at the key: by searches where its tuples are kept by this key, and else by a walk along it.
fn tells_apart<L: Lookup>(
    alloc: Global,
    lookup: &L,
    relvar: usize,
    inserted: &Relation,
    relation: &Relation,
    key: &[Name],
) -> Result<bool, AllocError>
    requires is { L.relvars lookup.now relvar ≡ Ok relation.now }
    requires heading { inserted.now.heading ≡ relation.now.heading }
    ensures { IfOk result (λ b. IsTrue b ↔ TellApartFrom key.now inserted.now relation.now) }
{
    if inserted.is_empty() {
        return Ok(true);
    }
    match index_by(lookup, relvar, key) {
        Some(index) => Ok(tell_apart_by(index, inserted)),
        None => tell_apart_from(alloc, inserted, relation, key),
    }
}

// Whether no two tuples agree on the key's attributes, where none did before the changes: so the tuples that were put
// in are held against all, and the others against none.
fn is_key_after<L: Lookup>(
    alloc: Global,
    lookup: &L,
    changes: &[(usize, Delta)],
    relvar: usize,
    relation: &Relation,
    key: &[Name],
) -> Result<bool, AllocError>
    requires is { L.relvars lookup.now relvar ≡ Ok relation.now }
    requires before { KeyOf changes.now relvar key.now relation.now }
    ensures { IfOk result (λ b. b ≡ spec.is_key key.now relation.now.tuples) }
{
    match change_of(changes, relvar) {
        Some(delta) => tells_apart(alloc, lookup, relvar, delta.inserted(), relation, key),
        None => Ok(true),
    }
}

// Whether no two tuples of the relvar agree on the key's attributes.
fn judge_key<L: Lookup>(
    alloc: Global,
    lookup: &L,
    changes: Option<&[(usize, Delta)]>,
    relvar: usize,
    key: &[Name],
) -> Result<bool, AllocError>
    requires relation { HasRelation (L.relvars lookup.now relvar) }
    requires before { MatchOption changes (Unit {0}) (λ cs. KeyBefore (L.relvars lookup.now) cs.now relvar key.now) }
    ensures { IfOk result (λ b. and_then (L.relvars lookup.now relvar) (λ r. Ok (spec.is_key key.now r.tuples)) ≡ Ok b) }
{
    let relation = stored_relation(lookup, relvar);
    match changes {
        Some(changes) => is_key_after(alloc, lookup, changes, relvar, relation, key),
        None => is_key(alloc, relation, key),
    }
}

// Whether the constraint is true, or the error that it raises. Where it was true before changes, as little is evaluated
// as these allow.
fn judge_constraint<L: Lookup>(
    alloc: Global,
    catalogue: &Catalogue,
    lookup: &L,
    changes: Option<&[(usize, Delta)]>,
    expr: &TypedExpr,
) -> Result<bool, Failure>
    requires expr { IsIn catalogue.now expr.now }
    requires kind { expr.now.kind ≡ type_kind.Boolean }
    requires stored { AreStored catalogue.now (L.relvars lookup.now) }
    requires before { MatchOption changes (Unit {0}) (λ cs. ConstraintBefore catalogue.now (L.relvars lookup.now) cs.now expr.now) }
    ensures { Tells result (and_then (tree_means catalogue.now (L.relvars lookup.now) expr.now.tree no_attrs) truth_of) }
{
    match way_of(alloc, catalogue, changes, expr)? {
        Way::Stays => Ok(true),
        Way::Over(relvar, gained) => {
            let narrowed = Narrowed {
                lookup,
                relvar,
                gained,
            };
            truth(alloc, catalogue, expr, &narrowed)
        }
        Way::Lost(losses) => match none_is_missed(alloc, lookup, &losses) {
            Ok(is_true) => Ok(is_true),
            Err(_) => Err(Failure::OutOfMemory),
        },
        Way::Whole => truth(alloc, catalogue, expr, lookup),
    }
}

// Whether the constraint at the place reads none of the relvars that were changed, as far as the catalogue tells it.
fn reads_none_of(catalogue: &Catalogue, changes: &[(usize, Delta)], place: usize) -> bool
    ensures { IsTrue result → ReadsNone catalogue.now changes.now place }
{
    for change in changes {
        if catalogue.may_read(place, change.0) {
            return false;
        }
    }
    true
}

// The same, where changes are known.
fn is_apart(catalogue: &Catalogue, changes: Option<&[(usize, Delta)]>, place: usize) -> bool
    ensures { IsTrue result → MatchOption changes.entry ⊥ (λ cs. ReadsNone catalogue.now cs.now place) }
{
    match changes {
        Some(changes) => reads_none_of(catalogue, changes, place),
        None => false,
    }
}

// Whether the test at this place is true, or the error that it raises.
fn judge<L: Lookup>(
    alloc: Global,
    catalogue: &Catalogue,
    lookup: &L,
    changes: Option<&[(usize, Delta)]>,
    place: usize,
    test: &Test,
) -> Result<bool, Failure>
    requires defined { Defined catalogue.now }
    requires stored { AreStored catalogue.now (L.relvars lookup.now) }
    requires before { MatchOption changes (Unit {0}) (λ cs. PassedBefore catalogue.now (L.relvars lookup.now) cs.now) }
    requires test { StandsAt catalogue.now place test.now }
    ensures { Tells result (judgement catalogue.now (L.relvars lookup.now) test.now) }
{
    match test {
        Test::Key(relvar, key) => {
            match judge_key(alloc, lookup, changes, *relvar, key.as_slice()) {
                Ok(holds) => Ok(holds),
                Err(_) => Err(Failure::OutOfMemory),
            }
        }
        Test::Constraint(_, _) => {
            if is_apart(catalogue, changes, place) {
                return Ok(true);
            }
            match constraint_expr(alloc, catalogue, place) {
                Ok(Some(expr)) => judge_constraint(alloc, catalogue, lookup, changes, &expr),
                Ok(None) => unreachable!(),
                Err(_) => Err(Failure::OutOfMemory),
            }
        }
    }
}

// The test, as it is told.
fn broken_test(catalogue: &Catalogue, test: &Test) -> Result<BrokenTest, AllocError>
    requires { HasRelvar catalogue.now test.now }
    ensures { IfOk result (λ b. b ≡ title catalogue.now test.now) }
{
    match test {
        Test::Key(relvar, _) => match catalogue.schema().relvar_at(*relvar) {
            Some((name, _)) => Ok(BrokenTest::Key(name.copy()?)),
            None => unreachable!(),
        },
        Test::Constraint(name, _) => Ok(BrokenTest::Constraint(name.copy()?)),
    }
}

// The failure of a test, with the error that its condition raised, if it did.
fn report(
    catalogue: &Catalogue,
    test: &Test,
    raised: Option<Raise>,
) -> Result<Option<TestFailure>, AllocError>
    requires { HasRelvar catalogue.now test.now }
    ensures { IfOk result (IsReport catalogue.now (Some (test.now, option_map stop_of raised))) }
{
    let test = broken_test(catalogue, test)?;
    Ok(Some(TestFailure { test, raised }))
}

// The report of the test at this place, where it is false or raises.
fn failure_at<L: Lookup>(
    alloc: Global,
    catalogue: &Catalogue,
    lookup: &L,
    changes: Option<&[(usize, Delta)]>,
    place: usize,
    test: &Test,
) -> Result<Option<TestFailure>, AllocError>
    requires defined { Defined catalogue.now }
    requires stored { AreStored catalogue.now (L.relvars lookup.now) }
    requires before { MatchOption changes (Unit {0}) (λ cs. PassedBefore catalogue.now (L.relvars lookup.now) cs.now) }
    requires test { StandsAt catalogue.now place test.now }
    ensures { IfOk result (IsReport catalogue.now (or_behind test.now (judgement catalogue.now (L.relvars lookup.now) test.now) None)) }
{
    match judge(alloc, catalogue, lookup, changes, place, test) {
        Ok(true) => Ok(None),
        Ok(false) => report(catalogue, test, None),
        Err(Failure::Raised(error)) => report(catalogue, test, Some(error)),
        Err(Failure::OutOfMemory) => Err(AllocError),
    }
}

// The first test, in the order of the script, that is false or raises.
fn first_of_all<L: Lookup>(
    alloc: Global,
    catalogue: &Catalogue,
    lookup: &L,
    changes: Option<&[(usize, Delta)]>,
) -> Result<Option<TestFailure>, AllocError>
    requires stored { AreStored catalogue.now (L.relvars lookup.now) }
    requires before { MatchOption changes (Unit {0}) (λ cs. PassedBefore catalogue.now (L.relvars lookup.now) cs.now) }
    ensures { IfOk result (IsReport catalogue.now (failing catalogue.now (L.relvars lookup.now) catalogue.now.tests)) }
{
    let tests = catalogue.tests();
    for place in 0..tests.len() {
        if let Some(failure) = failure_at(
            alloc,
            catalogue,
            lookup,
            changes,
            place,
            &tests[place],
        )? {
            return Ok(Some(failure));
        }
    }
    Ok(None)
}

/// The first test, in the order of the script, that is false or raises. A key of n tuples costs what `tell_apart` of
/// td_algebra does; a constraint costs its evaluation.
pub fn first_failure<L: Lookup>(
    alloc: Global,
    catalogue: &Catalogue,
    lookup: &L,
) -> Result<Option<TestFailure>, AllocError>
    requires { AreStored catalogue.now (L.relvars lookup.now) }
    ensures { IfOk result (IsReport catalogue.now (failing catalogue.now (L.relvars lookup.now) catalogue.now.tests)) }
{
    first_of_all(alloc, catalogue, lookup, None)
}

/// The first test, in the order of the script, that is false or raises after these changes of relvars, before which
/// every test was true: it makes only the tests that read a relvar which was changed. A key costs a search for each
/// tuple that was put in where the look-up lends the relvar's tuples by it, and else what `tell_apart_from` of
/// td_algebra does. A constraint costs its evaluation: over the tuples that were put in alone, where one relvar was
/// changed and `is_watched` of td_incremental says so; over the values that were deleted alone, where `sole_reference`
/// says that one base relvar refers to another by them; and nothing where these, `is_safe` or `referring` say that none
/// of it is left to judge.
pub fn first_failure_after<L: Lookup>(
    alloc: Global,
    catalogue: &Catalogue,
    lookup: &L,
    changes: &[(usize, Delta)],
) -> Result<Option<TestFailure>, AllocError>
    requires stored { AreStored catalogue.now (L.relvars lookup.now) }
    requires before { PassedBefore catalogue.now (L.relvars lookup.now) changes.now }
    ensures { IfOk result (IsReport catalogue.now (failing catalogue.now (L.relvars lookup.now) catalogue.now.tests)) }
{
    first_of_all(alloc, catalogue, lookup, Some(changes))
}
