//! Terms made ready for a walk over tuples.

ghost use Rattle.std.specs.Prelude.{◌≡◌, ◌≤◌, ◌++◌, ◌∷◌, [], IfOk, IsTrue, OnOk};
ghost use Rattle.td_meaning.specs.ForProofs.Levels.{item_levels, levels, summaries_levels, summary_levels};
ghost use Rattle.td_meaning.specs.ForProofs.ReadyTerms.{AreReady, IsReady, IsReadySummary, deepest_item, deepest_summary, ready_levels, summary_depth};
ghost use Rattle.td_meaning.specs.Mean.{Meaning, mean_binary, mean_both};
ghost use Rattle.td_meaning.specs.Seen.{mean_in, names_bound};

use crate::conditions::{Side, is_comparison, side_of, sides_of};
use crate::evaluator::Evaluator;
use crate::scope::Bindings;
use crate::wanting::Wanted;
use sqlite_items::Boxed;
use std::alloc::AllocError;
use td_syntax::tree::BinaryOperator;
use td_tuples::{Item, Summary};
use td_typed_trees::tree::Typed;
use td_values::Heading;

/// A term at the tuples of a heading: an attribute, by its place, or a value that is one at all tuples; what an operator
/// makes of two of these; or the term as it is.
#[derive(Drop)]
pub(crate) enum ReadyTerm<'a> {
    Side(Side),
    Operation(BinaryOperator, Side, Side),
    Other(&'a Typed),
}

// Whether the operator takes the values of both operands, whatever the first one is.
fn takes_both(operator: BinaryOperator) -> bool
    ensures { IsTrue result → (a b : Meaning) → mean_binary operator a b ≡ mean_both operator a b }
{
    match operator {
        BinaryOperator::Add => true,
        BinaryOperator::Subtract => true,
        BinaryOperator::Multiply => true,
        BinaryOperator::Divide => true,
        BinaryOperator::Concatenate => true,
        _ => is_comparison(operator),
    }
}

// The expression as an operation on two sides, where it is one, or as it is.
fn operation_of<'a, W: Wanted>(
    evaluator: &Evaluator<'_, W>,
    scope: &Bindings,
    heading: &Heading,
    tree: &'a Typed,
) -> Result<ReadyTerm<'a>, AllocError>
    ensures means { IfOk result (IsReady (mean_in evaluator.now.env.now) (names_bound scope.now) heading.now tree.now) }
    ensures levels { IfOk result (λ r. ready_levels r ≤ levels tree.now) }
{
    match tree {
        Typed::Binary(operator, a, b) if takes_both(*operator) => {
            match sides_of(evaluator, scope, heading, a.get(), b.get())? {
                Some((first, second)) => Ok(ReadyTerm::Operation(*operator, first, second)),
                None => Ok(ReadyTerm::Other(tree)),
            }
        }
        _ => Ok(ReadyTerm::Other(tree)),
    }
}

// The expression, ready for the tuples of a heading.
fn ready_term<'a, W: Wanted>(
    evaluator: &Evaluator<'_, W>,
    scope: &Bindings,
    heading: &Heading,
    tree: &'a Typed,
) -> Result<ReadyTerm<'a>, AllocError>
    ensures means { IfOk result (IsReady (mean_in evaluator.now.env.now) (names_bound scope.now) heading.now tree.now) }
    ensures levels { IfOk result (λ r. ready_levels r ≤ levels tree.now) }
{
    match side_of(evaluator, scope, heading, &*tree)? {
        Some(side) => Ok(ReadyTerm::Side(side)),
        None => operation_of(evaluator, scope, heading, tree),
    }
}

/// The summary, whose term is ready for the tuples of a heading.
pub(crate) fn ready_summary<'a, W: Wanted>(
    evaluator: &Evaluator<'_, W>,
    scope: &Bindings,
    heading: &Heading,
    summary: &'a Summary<Boxed<Typed>>,
) -> Result<Summary<ReadyTerm<'a>>, AllocError>
    ensures means { IfOk result (IsReadySummary (mean_in evaluator.now.env.now) (names_bound scope.now) heading.now summary.now) }
    ensures levels { IfOk result (λ s. summary_depth s ≤ summary_levels summary.now) }
{
    match summary {
        Summary::Count => Ok(Summary::Count),
        Summary::Sum(term) => Ok(Summary::Sum(ready_term(evaluator, scope, heading, term.get())?)),
        Summary::Max(term) => Ok(Summary::Max(ready_term(evaluator, scope, heading, term.get())?)),
        Summary::Min(term) => Ok(Summary::Min(ready_term(evaluator, scope, heading, term.get())?)),
        Summary::And(term) => Ok(Summary::And(ready_term(evaluator, scope, heading, term.get())?)),
        Summary::Or(term) => Ok(Summary::Or(ready_term(evaluator, scope, heading, term.get())?)),
    }
}

// Adds an item of this name and type with another term.
fn add_item<E, F: Drop>(items: &mut Vec<Item<F>>, item: &Item<E>, term: F) -> Result<(), AllocError>
    ensures { OnOk result ((j : _) × (j.name ≡ item.now.name) × (j.ty ≡ item.now.ty) × (j.term ≡ term) × (items.new.items ≡ items.old.items ++ j ∷ [])) }
{
    let name = item.name.copy()?;
    let ty = item.ty.copy()?;
    items.push(Item { name, ty, term })?;
    Ok(())
}

/// The items, whose terms are ready for the tuples of a heading.
pub(crate) fn ready_items<'a, W: Wanted>(
    evaluator: &Evaluator<'_, W>,
    scope: &Bindings,
    heading: &Heading,
    items: &'a [Item<Boxed<Typed>>],
) -> Result<Vec<Item<ReadyTerm<'a>>>, AllocError>
    ensures means { IfOk result (λ v. AreReady (IsReady (mean_in evaluator.now.env.now) (names_bound scope.now) heading.now) items.now v.items) }
    ensures levels { IfOk result (λ v. deepest_item v.items ≤ item_levels items.now) }
{
    let mut ready = Vec::with_capacity(evaluator.alloc, items.len())?;
    for item in items {
        let term = ready_term(evaluator, scope, heading, item.term.get())?;
        add_item(&mut ready, item, term)?;
    }
    Ok(ready)
}

/// The summaries, whose terms are ready for the tuples of a heading.
pub(crate) fn ready_summaries<'a, W: Wanted>(
    evaluator: &Evaluator<'_, W>,
    scope: &Bindings,
    heading: &Heading,
    items: &'a [Item<Summary<Boxed<Typed>>>],
) -> Result<Vec<Item<Summary<ReadyTerm<'a>>>>, AllocError>
    ensures means { IfOk result (λ v. AreReady (IsReadySummary (mean_in evaluator.now.env.now) (names_bound scope.now) heading.now) items.now v.items) }
    ensures levels { IfOk result (λ v. deepest_summary v.items ≤ summaries_levels items.now) }
{
    let mut ready = Vec::with_capacity(evaluator.alloc, items.len())?;
    for item in items {
        let summary = ready_summary(evaluator, scope, heading, &item.term)?;
        add_item(&mut ready, item, summary)?;
    }
    Ok(ready)
}
