//! Dependencies: by which other relvars the constraints of a catalogue judge what is inserted into a relvar.

ghost use Rattle.std.specs.Prelude.{◌≡◌, ℕ, List, IfOk, IfSome, OnOk, Some, false, slice_get};
ghost use Rattle.std.specs.List.{All, Contains};
ghost use Rattle.td_headings.specs.Catalogues.{CatalogueData};
ghost use Rattle.td_headings.specs.Reached.{ReadsRelvar};
ghost use Rattle.td_accesses.specs.Dependencies.{AreDependencies, DependsOn, TellsDependencies};
ghost use Rattle.td_accesses.specs.ForProofs.Depending.{AreAllGrown, DependsOnOther, IsGrown, TellsAll, TellsTest};

use std::alloc::{AllocError, Global};
use td_headings::{Catalogue, Test, TypedExpr, constraint_expr, reads};
use td_incremental::{Reference, is_safe, is_watched, sole_reference};

/// What the constraints say of insertions into a relvar: whether they judge each by what is inserted alone, or are not
/// broken by any; to which relvars they say that it refers, and by the values of which attributes; and which relvars
/// they read in another way, so that insertions there and here are bound to their order.
#[derive(Drop)]
pub struct RelvarDependencies {
    pub is_suited: bool,
    pub references: Vec<Reference>,
    pub bound: Vec<usize>,
}

/// The dependencies of all relvars of a catalogue, by their places.
#[derive(Drop)]
pub struct Dependencies {
    pub relvars: Vec<RelvarDependencies>,
}

// Adds the dependency of the relvar on another one by this constraint, which judges what is inserted by that alone.
fn add_dependency(
    alloc: Global,
    catalogue: &Catalogue,
    expr: &TypedExpr,
    relvar: usize,
    other: usize,
    dependencies: &mut RelvarDependencies,
) -> Result<(), AllocError>
    ensures kept { OnOk result (IsGrown dependencies.old dependencies.new) }
    ensures depends { OnOk result (DependsOn catalogue.now relvar other expr.now.tree dependencies.new) }
{
    match sole_reference(alloc, catalogue, expr, other)? {
        Some(reference) => {
            if reference.relvar != relvar {
                dependencies.bound.push(other)?;
                return Ok(());
            }
            let Reference { relvar: _, names } = reference;
            dependencies.references.push(Reference {
                relvar: other,
                names,
            })?;
        }
        None => dependencies.bound.push(other)?,
    }
    Ok(())
}

// Adds that on the other relvar, if it is another one.
fn add_if_other(
    alloc: Global,
    catalogue: &Catalogue,
    expr: &TypedExpr,
    relvar: usize,
    other: usize,
    dependencies: &mut RelvarDependencies,
) -> Result<(), AllocError>
    ensures kept { OnOk result (IsGrown dependencies.old dependencies.new) }
    ensures depends { OnOk result (DependsOnOther catalogue.now relvar expr.now.tree dependencies.new other) }
{
    if other == relvar {
        return Ok(());
    }
    add_dependency(alloc, catalogue, expr, relvar, other, dependencies)
}

// Adds those on each of the other relvars.
fn add_dependencies(
    alloc: Global,
    catalogue: &Catalogue,
    expr: &TypedExpr,
    relvar: usize,
    others: &[usize],
    dependencies: &mut RelvarDependencies,
) -> Result<(), AllocError>
    ensures kept { OnOk result (IsGrown dependencies.old dependencies.new) }
    ensures depends { OnOk result (All (DependsOnOther catalogue.now relvar expr.now.tree dependencies.new) others.now) }
{
    for other in others {
        add_if_other(alloc, catalogue, expr, relvar, *other, dependencies)?;
    }
    Ok(())
}

// Adds the dependencies of one relvar on the others by a constraint that reads these relvars and no others.
fn add_constraint_of(
    alloc: Global,
    catalogue: &Catalogue,
    expr: &TypedExpr,
    relvar: usize,
    relvars: &[usize],
    dependencies: &mut RelvarDependencies,
) -> Result<(), AllocError>
    requires { (n : ℕ) → ReadsRelvar catalogue.now.origins expr.now.tree n → Contains relvars.now n }
    ensures kept { OnOk result (IsGrown dependencies.old dependencies.new) }
    ensures told { OnOk result (TellsDependencies catalogue.now relvar expr.now.tree dependencies.new) }
{
    if is_safe(alloc, catalogue, expr, relvar)? {
        return Ok(());
    }
    if is_watched(alloc, catalogue, expr, relvar)? {
        return add_dependencies(alloc, catalogue, expr, relvar, relvars, dependencies);
    }
    dependencies.is_suited = false;
    Ok(())
}

// Adds them to those of the relvar at this place, if there are any of it.
fn add_constraint_at(
    alloc: Global,
    catalogue: &Catalogue,
    expr: &TypedExpr,
    relvar: usize,
    relvars: &[usize],
    all: &mut Vec<RelvarDependencies>,
) -> Result<(), AllocError>
    requires { (n : ℕ) → ReadsRelvar catalogue.now.origins expr.now.tree n → Contains relvars.now n }
    ensures kept { OnOk result (AreAllGrown all.old.items all.new.items) }
    ensures told { OnOk result (TellsAll catalogue.now expr.now.tree all.new.items relvar) }
{
    if relvar < all.as_slice().len() {
        add_constraint_of(alloc, catalogue, expr, relvar, relvars, &mut all[relvar])?;
    }
    Ok(())
}

// Adds those of each of these relvars by a constraint that reads them and no others.
fn add_constraint(
    alloc: Global,
    catalogue: &Catalogue,
    expr: &TypedExpr,
    relvars: &[usize],
    all: &mut Vec<RelvarDependencies>,
) -> Result<(), AllocError>
    requires { (n : ℕ) → ReadsRelvar catalogue.now.origins expr.now.tree n → Contains relvars.now n }
    ensures kept { OnOk result (AreAllGrown all.old.items all.new.items) }
    ensures told { OnOk result (All (TellsAll catalogue.now expr.now.tree all.new.items) relvars.now) }
{
    for relvar in relvars {
        add_constraint_at(alloc, catalogue, expr, *relvar, relvars, all)?;
    }
    Ok(())
}

// Adds those of all relvars by the test, if it is a constraint.
fn add_test(
    alloc: Global,
    catalogue: &Catalogue,
    place: usize,
    test: &Test,
    all: &mut Vec<RelvarDependencies>,
) -> Result<(), AllocError>
    requires { slice_get catalogue.now.tests place ≡ Some test.now }
    ensures kept { OnOk result (AreAllGrown all.old.items all.new.items) }
    ensures told { OnOk result (TellsTest catalogue.now all.new.items test.now) }
{
    catalogue.was_defined();
    match test {
        Test::Key(_, _) => Ok(()),
        Test::Constraint(_, _) => match constraint_expr(alloc, catalogue, place)? {
            Some(expr) => {
                let relvars = reads(alloc, &expr)?;
                add_constraint(alloc, catalogue, &expr, &relvars, all)
            }
            None => unreachable!(),
        },
    }
}

// Those of so many relvars, of which no constraint says anything.
fn no_dependencies(alloc: Global, many: usize) -> Result<Vec<RelvarDependencies>, AllocError> {
    let mut all = Vec::with_capacity(alloc, many)?;
    for _ in 0..many {
        all.push(RelvarDependencies {
            is_suited: true,
            references: Vec::new(alloc),
            bound: Vec::new(alloc),
        })?;
    }
    Ok(all)
}

impl RelvarDependencies {
    /// Whether insertions into the relvar are bound to their order among those into this one.
    pub(crate) fn binds(&self, relvar: usize) -> bool
        ensures { result ≡ false → Contains self.now.bound.items relvar → ⊥ }
    {
        self.bound.contains(&relvar)
    }
}

impl Dependencies {
    /// The dependencies of the relvar at this place, if one is there.
    pub(crate) fn at(&self, relvar: usize) -> Option<&RelvarDependencies>
        ensures { IfSome result (λ x. slice_get self.now.relvars.items relvar ≡ Some x.now) }
    {
        if relvar < self.relvars.as_slice().len() {
            Some(&self.relvars[relvar])
        } else {
            None
        }
    }

    /// Those of the catalogue's relvars. For each constraint, and each two relvars that it reads, it costs the size of
    /// the constraint, with those of the expressions of virtual relvars under it, and the number of relvars.
    pub fn of(alloc: Global, catalogue: &Catalogue) -> Result<Dependencies, AllocError>
        ensures { IfOk result (λ t. AreDependencies catalogue.now t.relvars.items) }
    {
        let mut relvars = no_dependencies(alloc, catalogue.schema().relvar_count())?;
        let tests = catalogue.tests();
        for place in 0..tests.len() {
            add_test(alloc, catalogue, place, &tests[place], &mut relvars)?;
        }
        Ok(Dependencies { relvars })
    }
}
