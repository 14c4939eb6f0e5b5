//! Which constraints are watched.

ghost use Rattle.std.specs.Prelude.{◌≡◌, IfOk, true, replicate, slice_set};
ghost use Rattle.std.specs.List.{All};
ghost use Rattle.td_typed_trees.specs.declared.tree.Typed.TheVariants as tree;
ghost use Rattle.td_incremental.specs.ForProofs.Deciding as spec;
ghost use Rattle.td_incremental.specs.ForProofs.Deciding.{AreGrowths, IsGrowth};
ghost use Rattle.td_incremental.specs.Growth as words;
ghost use Rattle.td_incremental.specs.Growth.{IsUnread, IsWatched};
ghost use Rattle.td_incremental.specs.declared.watching.Growth.TheVariants as growth;

use sqlite_items::Boxed;
use std::alloc::{AllocError, Global};
use td_headings::{Catalogue, Origin, TypedExpr};
use td_syntax::tree::{BinaryOperator, Nesting, UnaryOperator};
use td_tuples::Item;
use td_typed_trees::expression::VirtualUnder;
use td_typed_trees::tree::Typed;
use td_typed_trees::{add_mentions, relvars_in};

/// What an expression gains where a relvar gains tuples: nothing, what it makes of these, or anything.
#[derive(Clone, Copy, Drop)]
pub(crate) enum Growth {
    Unread,
    Spreads,
    Other,
}

// ---- of forms by those of their parts

// This growth, if the rest of the form does not read the relvar, and else anything.
fn if_unread(unread: bool, growth: Growth) -> Growth
    ensures { result ≡ spec.if_unread unread growth }
{
    if unread { growth } else { Growth::Other }
}

// What it makes of the gained tuples, if the test holds, and else anything.
fn spreads_if(test: bool) -> Growth
    ensures { result ≡ spec.spreads_if test }
{
    if test { Growth::Spreads } else { Growth::Other }
}

// Whether each tuple of the result comes of one of the first operand, whatever else that has.
fn goes_by_left(operator: BinaryOperator) -> bool
    ensures { result ≡ words.goes_by_left operator }
{
    match operator {
        BinaryOperator::Join
        | BinaryOperator::Compose
        | BinaryOperator::Intersect
        | BinaryOperator::Matching
        | BinaryOperator::NotMatching
        | BinaryOperator::Minus => true,
        _ => false,
    }
}

// Whether each tuple of the result comes of one of the second operand, whatever else that has.
fn goes_by_right(operator: BinaryOperator) -> bool
    ensures { result ≡ words.goes_by_right operator }
{
    match operator {
        BinaryOperator::Join
        | BinaryOperator::Compose
        | BinaryOperator::Intersect
        | BinaryOperator::Matching => true,
        _ => false,
    }
}

fn is_union(operator: BinaryOperator) -> bool
    ensures { result ≡ spec.is_union operator }
{
    match operator {
        BinaryOperator::Union => true,
        _ => false,
    }
}

// The growth of an operator's result, by those of its two operands.
fn of_both(operator: BinaryOperator, left: Growth, right: Growth) -> Growth
    ensures { result ≡ spec.of_both operator left right }
{
    match left {
        Growth::Unread => match right {
            Growth::Unread => Growth::Unread,
            Growth::Spreads => spreads_if(goes_by_right(operator)),
            Growth::Other => Growth::Other,
        },
        Growth::Spreads => match right {
            Growth::Unread => spreads_if(goes_by_left(operator)),
            Growth::Spreads => spreads_if(is_union(operator)),
            Growth::Other => Growth::Other,
        },
        Growth::Other => Growth::Other,
    }
}

// The growth of WRAP or GROUP, by that of its operand: what GROUP makes of one that gains may be anything.
fn of_nest(nesting: Nesting, growth: Growth) -> Growth
    ensures { result ≡ spec.of_nest nesting growth }
{
    match nesting {
        Nesting::Wrap => growth,
        Nesting::Group => match growth {
            Growth::Unread => Growth::Unread,
            Growth::Spreads | Growth::Other => Growth::Other,
        },
    }
}

// ---- of relvars

// The relvar that grows spreads, another base relvar is unread, and a virtual one grows as is noted.
fn relvar_growth(catalogue: &Catalogue, known: &[Growth], relvar: usize, place: usize) -> Growth
    requires { AreGrowths catalogue.now relvar known.now }
    ensures { IsGrowth catalogue.now relvar (tree.Relvar place) result }
{
    if place == relvar {
        return Growth::Spreads;
    }
    match catalogue.origin(place) {
        Some(Origin::Base(_, _)) => Growth::Unread,
        Some(Origin::Virtual(_)) => match known.get(place) {
            Some(growth) => *growth,
            None => Growth::Other,
        },
        None => Growth::Other,
    }
}

// Whether it is known that the relvar at the place neither is the one that grows nor reads it.
fn is_unread_relvar(catalogue: &Catalogue, known: &[Growth], relvar: usize, place: usize) -> bool
    requires { AreGrowths catalogue.now relvar known.now }
    ensures { result ≡ true → IsUnread catalogue.now relvar (tree.Relvar place) }
{
    match relvar_growth(catalogue, known, relvar, place) {
        Growth::Unread => true,
        Growth::Spreads | Growth::Other => false,
    }
}

// Whether it is known of the relvars at all these places that they neither are the one that grows nor read it.
fn all_unread(catalogue: &Catalogue, known: &[Growth], relvar: usize, places: &[usize]) -> bool
    requires { AreGrowths catalogue.now relvar known.now }
    ensures { result ≡ true → All (λ m. IsUnread catalogue.now relvar (tree.Relvar m)) places.now }
{
    for place in places {
        if !is_unread_relvar(catalogue, known, relvar, *place) {
            return false;
        }
    }
    true
}

// ---- of expressions

// Whether no relvar that the expression mentions reads the relvar. It costs its size, and memory for what it mentions.
fn mentions_unread(
    alloc: Global,
    catalogue: &Catalogue,
    known: &[Growth],
    relvar: usize,
    tree: &Typed,
) -> Result<bool, AllocError>
    requires { AreGrowths catalogue.now relvar known.now }
    ensures { IfOk result (λ b. b ≡ true → IsUnread catalogue.now relvar tree.now) }
{
    let mut mentions = Vec::new(alloc);
    add_mentions(&mut mentions, tree)?;
    let places = relvars_in(alloc, &mentions)?;
    Ok(all_unread(catalogue, known, relvar, &places))
}

// Whether nothing in the expression reads the relvar. It costs its size.
pub(crate) fn is_unread(
    alloc: Global,
    catalogue: &Catalogue,
    known: &[Growth],
    relvar: usize,
    tree: &Typed,
) -> Result<bool, AllocError>
    requires { AreGrowths catalogue.now relvar known.now }
    ensures { IfOk result (λ b. b ≡ true → IsUnread catalogue.now relvar tree.now) }
{
    match tree {
        Typed::Relvar(place) => Ok(is_unread_relvar(catalogue, known, relvar, *place)),
        _ => mentions_unread(alloc, catalogue, known, relvar, tree),
    }
}

// Whether nothing in the terms of these items reads the relvar.
fn terms_unread(
    alloc: Global,
    catalogue: &Catalogue,
    known: &[Growth],
    relvar: usize,
    items: &[Item<Boxed<Typed>>],
) -> Result<bool, AllocError>
    requires { AreGrowths catalogue.now relvar known.now }
    ensures { IfOk result (λ b. b ≡ true → All (λ x. IsUnread catalogue.now relvar x.term) items.now) }
{
    for item in items {
        if !is_unread(alloc, catalogue, known, relvar, item.term.get())? {
            return Ok(false);
        }
    }
    Ok(true)
}

// It costs the expression's size.
fn tree_growth(
    alloc: Global,
    catalogue: &Catalogue,
    known: &[Growth],
    relvar: usize,
    tree: &Typed,
) -> Result<Growth, AllocError>
    requires { AreGrowths catalogue.now relvar known.now }
    ensures { IfOk result (IsGrowth catalogue.now relvar tree.now) }
{
    match tree {
        Typed::Relvar(place) => Ok(relvar_growth(catalogue, known, relvar, *place)),
        Typed::Project(a, _) => tree_growth(alloc, catalogue, known, relvar, a.get()),
        Typed::Rename(a, _) => tree_growth(alloc, catalogue, known, relvar, a.get()),
        Typed::Unnest(_, a, _) => tree_growth(alloc, catalogue, known, relvar, a.get()),
        Typed::Nest(nesting, a, _, _) => {
            let made = tree_growth(alloc, catalogue, known, relvar, a.get())?;
            Ok(of_nest(*nesting, made))
        }
        Typed::Where(a, condition) => {
            let made = tree_growth(alloc, catalogue, known, relvar, a.get())?;
            let unread = is_unread(alloc, catalogue, known, relvar, condition.get())?;
            Ok(if_unread(unread, made))
        }
        Typed::Extend(a, items) => {
            let made = tree_growth(alloc, catalogue, known, relvar, a.get())?;
            let unread = terms_unread(alloc, catalogue, known, relvar, items.as_slice())?;
            Ok(if_unread(unread, made))
        }
        Typed::Binary(operator, a, b) => {
            let left = tree_growth(alloc, catalogue, known, relvar, a.get())?;
            let right = tree_growth(alloc, catalogue, known, relvar, b.get())?;
            Ok(of_both(*operator, left, right))
        }
        _ => {
            let unread = is_unread(alloc, catalogue, known, relvar, tree)?;
            Ok(if_unread(unread, Growth::Unread))
        }
    }
}

// Of an operator of one operand: it is watched where nothing reads the relvar, and IS_EMPTY where the operand spreads.
fn of_unary(operator: UnaryOperator, growth: Growth) -> bool
    ensures { result ≡ spec.of_unary operator growth }
{
    match growth {
        Growth::Unread => true,
        Growth::Spreads => match operator {
            UnaryOperator::IsEmpty => true,
            _ => false,
        },
        Growth::Other => false,
    }
}

pub(crate) fn is_and(operator: BinaryOperator) -> bool
    ensures { result ≡ spec.is_and operator }
{
    match operator {
        BinaryOperator::And => true,
        _ => false,
    }
}

// Whether the operator tells, of two relations, whether the first is within the second.
pub(crate) fn is_at_most(operator: BinaryOperator) -> bool
    ensures { result ≡ spec.is_at_most operator }
{
    match operator {
        BinaryOperator::AtMost => true,
        _ => false,
    }
}

// Whether the operator tells, of two relations, whether the second is within the first.
pub(crate) fn is_at_least(operator: BinaryOperator) -> bool
    ensures { result ≡ spec.is_at_least operator }
{
    match operator {
        BinaryOperator::AtLeast => true,
        _ => false,
    }
}

// Of an operator of two operands that is no AND: it is watched where nothing reads the relvar, and where it tells
// whether a relation that spreads is within one that stays.
fn of_comparison(operator: BinaryOperator, left: Growth, right: Growth) -> bool
    ensures { result ≡ spec.of_comparison operator left right }
{
    match left {
        Growth::Unread => match right {
            Growth::Unread => true,
            Growth::Spreads => is_at_least(operator),
            Growth::Other => false,
        },
        Growth::Spreads => match right {
            Growth::Unread => is_at_most(operator),
            Growth::Spreads | Growth::Other => false,
        },
        Growth::Other => false,
    }
}

// Whether the constraint is watched. It costs its size.
fn is_tree_watched(
    alloc: Global,
    catalogue: &Catalogue,
    known: &[Growth],
    relvar: usize,
    tree: &Typed,
) -> Result<bool, AllocError>
    requires { AreGrowths catalogue.now relvar known.now }
    ensures { IfOk result (λ b. b ≡ true → IsWatched catalogue.now relvar tree.now) }
{
    match tree {
        Typed::Unary(operator, a) => {
            let made = tree_growth(alloc, catalogue, known, relvar, a.get())?;
            Ok(of_unary(*operator, made))
        }
        Typed::Binary(operator, a, b) => {
            if is_and(*operator) {
                let left = is_tree_watched(alloc, catalogue, known, relvar, a.get())?;
                let right = is_tree_watched(alloc, catalogue, known, relvar, b.get())?;
                Ok(left && right)
            } else {
                let left = tree_growth(alloc, catalogue, known, relvar, a.get())?;
                let right = tree_growth(alloc, catalogue, known, relvar, b.get())?;
                Ok(of_comparison(*operator, left, right))
            }
        }
        _ => is_unread(alloc, catalogue, known, relvar, tree),
    }
}

// ---- of virtual relvars, in order of definition

// A list of so many relvars, by place, each of which may gain anything.
fn nothing_known(alloc: Global, relvars: usize) -> Result<Vec<Growth>, AllocError>
    ensures { IfOk result (λ v. v.items ≡ replicate relvars growth.Other) }
{
    vec![in alloc; Growth::Other; relvars]
}

// Notes the growth of the relvar at the place; nothing of a place beyond the list.
fn put_at(known: &mut Vec<Growth>, place: usize, growth: Growth)
    ensures { known.new.items ≡ slice_set known.old.items place growth }
{
    if place < known.len() {
        known[place] = growth;
    }
}

// The growth of the expression that defines the virtual relvar at the place; anything where none is there.
fn virtual_growth(
    alloc: Global,
    catalogue: &Catalogue,
    known: &[Growth],
    relvar: usize,
    place: usize,
) -> Result<Growth, AllocError>
    requires { AreGrowths catalogue.now relvar known.now }
    ensures { IfOk result (IsGrowth catalogue.now relvar (tree.Relvar place)) }
{
    match catalogue.origin(place) {
        Some(Origin::Virtual(tree)) => tree_growth(alloc, catalogue, known, relvar, tree.get()),
        _ => Ok(Growth::Other),
    }
}

/// So many places a list by relvars needs: none where there is no virtual relvar to be noted.
pub(crate) fn places_noted(catalogue: &Catalogue, virtuals: &[VirtualUnder]) -> usize {
    if virtuals.is_empty() {
        0
    } else {
        catalogue.schema().relvar_count()
    }
}

// The growths of these virtual relvars, which come in order of definition, by place; all others may gain anything.
pub(crate) fn virtual_growths(
    alloc: Global,
    catalogue: &Catalogue,
    virtuals: &[VirtualUnder],
    relvar: usize,
) -> Result<Vec<Growth>, AllocError>
    ensures { IfOk result (λ v. AreGrowths catalogue.now relvar v.items) }
{
    let mut known = nothing_known(alloc, places_noted(catalogue, virtuals))?;
    for under in virtuals {
        let made = virtual_growth(alloc, catalogue, &known, relvar, under.place)?;
        put_at(&mut known, under.place, made);
    }
    Ok(known)
}

/// Whether the constraint is watched: where it was true before the relvar gained tuples, it is now what it is over
/// these alone. It costs the sizes of the expression and of those of the virtual relvars under it, and the number of
/// relvars.
pub fn is_watched(
    alloc: Global,
    catalogue: &Catalogue,
    expr: &TypedExpr,
    relvar: usize,
) -> Result<bool, AllocError>
    ensures { IfOk result (λ b. b ≡ true → IsWatched catalogue.now relvar expr.now.tree) }
{
    let expression = expr.get();
    let known = virtual_growths(alloc, catalogue, expression.virtuals.as_slice(), relvar)?;
    is_tree_watched(alloc, catalogue, &known, relvar, expression.tree.get())
}
