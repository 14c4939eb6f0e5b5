//! How a constraint that was true before changes is judged after them.

ghost use Rattle.std.specs.Prelude.{◌≡◌, ◌∷◌, [], true, IfOk, slice_get};
ghost use Rattle.std.specs.List.{All, list_any};
ghost use Rattle.td_headings.specs.Expressions.{reads};
ghost use Rattle.td_headings.specs.Reached.{is_base};
ghost use Rattle.td_incremental.specs.Growth.{narrowed};
ghost use Rattle.td_semantics.specs.Trees.{IsIn};
ghost use Rattle.td_integrity.specs.ForProofs.Changed as spec;
ghost use Rattle.td_integrity.specs.ForProofs.Gaining.{AreWays, IsWay};
ghost use Rattle.td_integrity.specs.ForProofs.Leaving.{HasPartIn, KeepsReferences, LeavesParts};
ghost use Rattle.td_tuples.specs.Parts.{Fits};
ghost use Rattle.td_values.specs.Attributes.{attribute_of};
ghost use Rattle.td_typed_trees.specs.declared.expression.BaseUnder as declared_base;

use crate::losses::{Losses, parts_of};
use std::alloc::{AllocError, Global};
use td_algebra::{KeyIndex, Stop};
use td_eval::Lookup;
use td_headings::{Catalogue, TypedExpr};
use td_incremental::{is_base_relvar, is_safe, is_watched, referring, sole_reference};
use td_relations::{Delta, Relation};
use td_typed_trees::expression::BaseUnder;
use td_values::{Name, Tuple, compare};

/// The relvars after changes, but of one what it gained.
#[derive(Drop)]
pub(crate) struct Narrowed<'a, L> {
    pub lookup: &'a L,
    pub relvar: usize,
    pub gained: &'a Relation,
}

impl<L: Lookup> Lookup for Narrowed<'_, L> {
    ghost relvars = { λ s. narrowed s.relvar s.gained.now (L.relvars s.lookup.now) };

    ghost first_keys = { λ s. L.first_keys s.lookup.now };

    fn lent(&self, relvar: usize) -> Result<&Relation, Stop> {
        if relvar == self.relvar {
            Ok(self.gained)
        } else {
            self.lookup.lent(relvar)
        }
    }

    fn first_key(&self, relvar: usize) -> Option<&[Name]> {
        self.lookup.first_key(relvar)
    }

    fn indexes(&self, relvar: usize) -> &[KeyIndex] {
        if relvar == self.relvar {
            &[]
        } else {
            self.lookup.indexes(relvar)
        }
    }
}

/// How a constraint is judged that was true before changes.
#[derive(Drop)]
pub(crate) enum Way<'a> {
    /// It is true.
    Stays,
    /// Over what the relvar at the place gained.
    Over(usize, &'a Relation),
    /// Over the tuples of the relvar that refers with a part that was lost.
    Lost(Losses),
    /// Over all that the relvars have.
    Whole,
}

// Whether the changes have one of the relvar.
fn is_changed(changes: &[(usize, Delta)], relvar: usize) -> bool
    ensures { result ≡ spec.is_changed changes.now relvar }
{
    changes.iter().any(|change| change.0 == relvar)
}

// Whether the changes have one of any of the base relvars.
fn is_any_changed(changes: &[(usize, Delta)], bases: &[BaseUnder]) -> bool
    ensures { result ≡ list_any (λ (b : declared_base.BaseUnder). spec.is_changed changes.now b.place) bases.now }
{
    bases.iter().any(|base| is_changed(changes, base.place))
}

// Whether the changes have one of a base relvar that the expression reads. It takes no memory.
fn is_touched(changes: &[(usize, Delta)], expr: &TypedExpr) -> bool
    ensures { result ≡ list_any (spec.is_changed changes.now) (reads expr.now) }
{
    is_any_changed(changes, expr.get().bases.as_slice())
}

// Whether each of the tuples has its part at the key in the index.
fn have_parts(index: &KeyIndex, tuples: &[Tuple]) -> bool
    requires { All (Fits index.now.heading) tuples.now }
    ensures { result ≡ true → All (HasPartIn index.now) tuples.now }
{
    for tuple in tuples {
        if index.with_key_of(tuple).is_empty() {
            return false;
        }
    }
    true
}

// Whether both tuples have one value at the name, or none.
fn agree_at(a: &Tuple, b: &Tuple, name: &Name) -> bool
    ensures { result ≡ true → attribute_of name.now a.now ≡ attribute_of name.now b.now }
{
    match (a.get(name), b.get(name)) {
        (Some(x), Some(y)) => compare(x, y).is_eq(),
        (None, None) => true,
        _ => false,
    }
}

// Whether both tuples agree at each of the names.
fn agree(a: &Tuple, b: &Tuple, names: &[Name]) -> bool
    ensures { result ≡ true → All (λ n. attribute_of n a.now ≡ attribute_of n b.now) names.now }
{
    for name in names {
        if !agree_at(a, b, name) {
            return false;
        }
    }
    true
}

// Whether the change takes one tuple out, and puts one in that agrees with it at the names.
fn leaves_one_part(names: &[Name], delta: &Delta) -> bool
    ensures { result ≡ true → LeavesParts names.now delta.now }
{
    delta.headings_agree();
    delta.deleted().rows_fit();
    delta.inserted().rows_fit();
    if delta.deleted().tuples().len() == 1 && delta.inserted().tuples().len() == 1 {
        agree(
            &delta.inserted().tuples()[0],
            &delta.deleted().tuples()[0],
            names,
        )
    } else {
        false
    }
}

// Whether each tuple that the change takes out leaves its part at the names to one that it puts in. For n and m tuples
// it costs a sort of m and n searches.
fn leave_parts(alloc: Global, names: &[Name], delta: &Delta) -> Result<bool, AllocError>
    ensures { IfOk result (λ b. b ≡ true → LeavesParts names.now delta.now) }
{
    delta.headings_agree();
    delta.deleted().rows_fit();
    let index = KeyIndex::new(alloc, delta.inserted(), names)?;
    Ok(have_parts(&index, delta.deleted().tuples()))
}

// The same. Where it puts none in, or one in place of one, it takes no memory.
fn leaves_parts(alloc: Global, names: &[Name], delta: &Delta) -> Result<bool, AllocError>
    ensures { IfOk result (λ b. b ≡ true → LeavesParts names.now delta.now) }
{
    if delta.inserted().is_empty() {
        return Ok(false);
    }
    if leaves_one_part(names, delta) {
        return Ok(true);
    }
    leave_parts(alloc, names, delta)
}

// Whether it refers to the relvar by names at which each tuple that the change takes out leaves its part to another.
fn keeps_references(
    alloc: Global,
    catalogue: &Catalogue,
    change: &(usize, Delta),
    expr: &TypedExpr,
) -> Result<bool, AllocError>
    ensures { IfOk result (λ b. b ≡ true → KeepsReferences catalogue.now change.now expr.now) }
{
    let Some(names) = referring(alloc, catalogue, expr, change.0)? else {
        return Ok(false);
    };
    let keeps = leaves_parts(alloc, &names, &change.1)?;
    Ok(keeps)
}

// How a reference of one base relvar to the one that changed is judged.
fn way_of_losses<'a>(
    alloc: Global,
    catalogue: &Catalogue,
    change: &'a (usize, Delta),
    expr: &TypedExpr,
) -> Result<Way<'a>, AllocError>
    requires { is_base (slice_get catalogue.now.origins change.now.0) ≡ true }
    ensures { IfOk result (IsWay catalogue.now expr.now (change.now ∷ [])) }
{
    let Some(reference) = sole_reference(alloc, catalogue, expr, change.0)? else {
        return Ok(Way::Whole);
    };
    let parts = parts_of(alloc, &reference.names, &change.1)?;
    Ok(Way::Lost(Losses {
        referred: change.0,
        referring: reference.relvar,
        parts,
    }))
}

// How a constraint that may refer to the relvar is judged after one change.
fn way_of_reference<'a>(
    alloc: Global,
    catalogue: &Catalogue,
    change: &'a (usize, Delta),
    expr: &TypedExpr,
) -> Result<Way<'a>, AllocError>
    requires { is_base (slice_get catalogue.now.origins change.now.0) ≡ true }
    ensures { IfOk result (IsWay catalogue.now expr.now (change.now ∷ [])) }
{
    catalogue.was_defined();
    if keeps_references(alloc, catalogue, change, expr)? {
        return Ok(Way::Stays);
    }
    way_of_losses(alloc, catalogue, change, expr)
}

// How it is judged after one change.
fn way_after<'a>(
    alloc: Global,
    catalogue: &Catalogue,
    change: &'a (usize, Delta),
    expr: &TypedExpr,
) -> Result<Way<'a>, AllocError>
    ensures { IfOk result (IsWay catalogue.now expr.now (change.now ∷ [])) }
{
    let relvar = change.0;
    if !is_base_relvar(catalogue, relvar) {
        return Ok(Way::Whole);
    }
    if change.1.deleted().is_empty() && is_safe(alloc, catalogue, expr, relvar)? {
        return Ok(Way::Stays);
    }
    if !is_watched(alloc, catalogue, expr, relvar)? {
        return way_of_reference(alloc, catalogue, change, expr);
    }
    if change.1.inserted().is_empty() {
        return Ok(Way::Stays);
    }
    Ok(Way::Over(relvar, change.1.inserted()))
}

/// How it is judged after these changes, as far as changes are known. It costs the trees under the expression.
pub(crate) fn way_of<'a>(
    alloc: Global,
    catalogue: &Catalogue,
    changes: Option<&'a [(usize, Delta)]>,
    expr: &TypedExpr,
) -> Result<Way<'a>, AllocError>
    requires { IsIn catalogue.now expr.now }
    ensures { IfOk result (AreWays catalogue.now expr.now changes.entry) }
{
    let Some(changes) = changes else {
        return Ok(Way::Whole);
    };
    catalogue.was_defined();
    if !is_touched(changes, expr) {
        return Ok(Way::Stays);
    }
    match changes {
        [change] => way_after(alloc, catalogue, change, expr),
        _ => Ok(Way::Whole),
    }
}
