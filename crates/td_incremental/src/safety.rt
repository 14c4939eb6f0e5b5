//! Which constraints stay true where a relvar grows.

ghost use Rattle.std.specs.Prelude.{◌≡◌, IfOk, true, false, replicate, slice_index_or, slice_set};
ghost use Rattle.td_typed_trees.specs.declared.tree.Typed.TheVariants as tree;
ghost use Rattle.td_syntax.specs.declared.tree.UnaryOperator.TheVariants as unary;
ghost use Rattle.td_incremental.specs.ForProofs.Deciding as spec;
ghost use Rattle.td_incremental.specs.ForProofs.Deciding.{AreGrowths, AreWide};
ghost use Rattle.td_incremental.specs.Safety.{IsSafe, Widens};

use crate::watching::{
    Growth, is_and, is_at_least, is_at_most, is_unread, places_noted, virtual_growths,
};
use std::alloc::{AllocError, Global};
use td_headings::{Catalogue, Origin, TypedExpr};
use td_syntax::tree::{BinaryOperator, UnaryOperator};
use td_typed_trees::expression::VirtualUnder;
use td_typed_trees::tree::Typed;

pub(crate) fn is_emptiness(operator: UnaryOperator) -> bool
    ensures { result ≡ spec.is_emptiness operator }
{
    match operator {
        UnaryOperator::IsEmpty => true,
        _ => false,
    }
}

pub(crate) fn is_not_matching(operator: BinaryOperator) -> bool
    ensures { result ≡ spec.is_not_matching operator }
{
    match operator {
        BinaryOperator::NotMatching => true,
        _ => false,
    }
}

// ---- what has all that it had

// Whether the relvar at the place is noted as one that widens; one beyond the list is not.
fn is_known(wide: &[bool], place: usize) -> bool
    ensures { result ≡ slice_index_or wide.now place false }
{
    match wide.get(place) {
        Some(is_wide) => *is_wide,
        None => false,
    }
}

// Whether the relvar at the place is the one that grows, or is noted as one that widens.
fn relvar_widens(catalogue: &Catalogue, wide: &[bool], relvar: usize, place: usize) -> bool
    requires { AreWide catalogue.now relvar wide.now }
    ensures { result ≡ true → Widens catalogue.now relvar (tree.Relvar place) }
{
    if place == relvar {
        return true;
    }
    is_known(wide, place)
}

// Whether the form tells that the expression has all that it had where the relvar grows; it costs the form's depth.
fn widens(catalogue: &Catalogue, wide: &[bool], relvar: usize, tree: &Typed) -> bool
    requires { AreWide catalogue.now relvar wide.now }
    ensures { result ≡ true → Widens catalogue.now relvar tree.now }
{
    match tree {
        Typed::Relvar(place) => relvar_widens(catalogue, wide, relvar, *place),
        Typed::Project(a, _) => widens(catalogue, wide, relvar, a.get()),
        Typed::Rename(a, _) => widens(catalogue, wide, relvar, a.get()),
        _ => false,
    }
}

// Whether the expression that defines the virtual relvar at the place widens; false where none is there.
fn virtual_widens(catalogue: &Catalogue, wide: &[bool], relvar: usize, place: usize) -> bool
    requires { AreWide catalogue.now relvar wide.now }
    ensures { result ≡ true → Widens catalogue.now relvar (tree.Relvar place) }
{
    match catalogue.origin(place) {
        Some(Origin::Virtual(tree)) => widens(catalogue, wide, relvar, tree.get()),
        _ => false,
    }
}

// A list of so many relvars, by place, of which none is noted as one that widens.
fn none_wide(alloc: Global, relvars: usize) -> Result<Vec<bool>, AllocError>
    ensures { IfOk result (λ v. v.items ≡ replicate relvars false) }
{
    vec![in alloc; false; relvars]
}

// Notes whether the relvar at the place widens; nothing of a place beyond the list.
fn put_at(wide: &mut Vec<bool>, place: usize, made: bool)
    ensures { wide.new.items ≡ slice_set wide.old.items place made }
{
    if place < wide.len() {
        wide[place] = made;
    }
}

// Which relvars widen, by place: only these virtual ones, which come in order of definition, are looked at.
fn wide_virtuals(
    alloc: Global,
    catalogue: &Catalogue,
    virtuals: &[VirtualUnder],
    relvar: usize,
) -> Result<Vec<bool>, AllocError>
    ensures { IfOk result (λ v. AreWide catalogue.now relvar v.items) }
{
    let mut wide = none_wide(alloc, places_noted(catalogue, virtuals))?;
    for under in virtuals {
        let made = virtual_widens(catalogue, &wide, relvar, under.place);
        put_at(&mut wide, under.place, made);
    }
    Ok(wide)
}

// ---- constraints

// Whether it is safe that the expression is empty: it is what stays, without what a relation that widens matches.
fn is_match_safe(
    alloc: Global,
    catalogue: &Catalogue,
    known: &[Growth],
    wide: &[bool],
    relvar: usize,
    operand: &Typed,
) -> Result<bool, AllocError>
    requires known { AreGrowths catalogue.now relvar known.now }
    requires wide { AreWide catalogue.now relvar wide.now }
    ensures { IfOk result (λ b. b ≡ true → IsSafe catalogue.now relvar (tree.Unary unary.IsEmpty operand.now)) }
{
    match operand {
        Typed::Binary(operator, a, b) => {
            if !is_not_matching(*operator) {
                return Ok(false);
            }
            let unread = is_unread(alloc, catalogue, known, relvar, a.get())?;
            let all_there = widens(catalogue, wide, relvar, b.get());
            Ok(unread && all_there)
        }
        _ => Ok(false),
    }
}

// Whether the comparison tells that a relation that stays is within one that widens.
fn within(
    alloc: Global,
    catalogue: &Catalogue,
    known: &[Growth],
    wide: &[bool],
    relvar: usize,
    operator: BinaryOperator,
    a: &Typed,
    b: &Typed,
) -> Result<bool, AllocError>
    requires known { AreGrowths catalogue.now relvar known.now }
    requires wide { AreWide catalogue.now relvar wide.now }
    ensures { IfOk result (λ r. r ≡ true → IsSafe catalogue.now relvar (tree.Binary operator a.now b.now)) }
{
    if is_at_most(operator) {
        let unread = is_unread(alloc, catalogue, known, relvar, a)?;
        let all_there = widens(catalogue, wide, relvar, b);
        Ok(unread && all_there)
    } else if is_at_least(operator) {
        let unread = is_unread(alloc, catalogue, known, relvar, b)?;
        let all_there = widens(catalogue, wide, relvar, a);
        Ok(unread && all_there)
    } else {
        Ok(false)
    }
}

// Whether the constraint is safe. It costs its size.
fn safe(
    alloc: Global,
    catalogue: &Catalogue,
    known: &[Growth],
    wide: &[bool],
    relvar: usize,
    tree: &Typed,
) -> Result<bool, AllocError>
    requires known { AreGrowths catalogue.now relvar known.now }
    requires wide { AreWide catalogue.now relvar wide.now }
    ensures { IfOk result (λ b. b ≡ true → IsSafe catalogue.now relvar tree.now) }
{
    match tree {
        Typed::Unary(operator, a) => {
            let matches = is_match_safe(alloc, catalogue, known, wide, relvar, a.get())?;
            if matches && is_emptiness(*operator) {
                return Ok(true);
            }
            unread_is_safe(alloc, catalogue, known, relvar, tree)
        }
        Typed::Binary(operator, a, b) => {
            if is_and(*operator) {
                let left = safe(alloc, catalogue, known, wide, relvar, a.get())?;
                let right = safe(alloc, catalogue, known, wide, relvar, b.get())?;
                return Ok(left && right);
            }
            if within(
                alloc,
                catalogue,
                known,
                wide,
                relvar,
                *operator,
                a.get(),
                b.get(),
            )? {
                return Ok(true);
            }
            unread_is_safe(alloc, catalogue, known, relvar, tree)
        }
        _ => unread_is_safe(alloc, catalogue, known, relvar, tree),
    }
}

// Whether nothing in the constraint reads the relvar, by which it is safe.
fn unread_is_safe(
    alloc: Global,
    catalogue: &Catalogue,
    known: &[Growth],
    relvar: usize,
    tree: &Typed,
) -> Result<bool, AllocError>
    requires { AreGrowths catalogue.now relvar known.now }
    ensures { IfOk result (λ b. b ≡ true → IsSafe catalogue.now relvar tree.now) }
{
    is_unread(alloc, catalogue, known, relvar, tree)
}

/// Whether the constraint is safe: where it was true before the relvar grew, it is true. It costs the sizes of the
/// expression and of those of the virtual relvars under it, and the number of relvars.
pub fn is_safe(
    alloc: Global,
    catalogue: &Catalogue,
    expr: &TypedExpr,
    relvar: usize,
) -> Result<bool, AllocError>
    ensures { IfOk result (λ b. b ≡ true → IsSafe catalogue.now relvar expr.now.tree) }
{
    let expression = expr.get();
    let virtuals = expression.virtuals.as_slice();
    let known = virtual_growths(alloc, catalogue, virtuals, relvar)?;
    let wide = wide_virtuals(alloc, catalogue, virtuals, relvar)?;
    safe(
        alloc,
        catalogue,
        &known,
        &wide,
        relvar,
        expression.tree.get(),
    )
}
