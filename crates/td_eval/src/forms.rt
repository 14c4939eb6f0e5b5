//! Expressions that take tuples out of a relvar, or put changed ones in their place.

ghost use Rattle.std.specs.Prelude.{◌≡◌, IsTrue, MatchOption};
ghost use Rattle.td_eval.specs.ForProofs.Forms.{form_tree};
ghost use Rattle.td_syntax.specs.declared.tree.BinaryOperator.TheVariants as binary;
ghost use Rattle.td_syntax.specs.declared.tree.UnaryOperator.TheVariants as unary;
ghost use Rattle.td_typed_trees.specs.declared.tree.Typed.TheVariants as typed;

use sqlite_items::Boxed;
use td_syntax::tree::{BinaryOperator, UnaryOperator};
use td_tuples::Item;
use td_typed_trees::compare;
use td_typed_trees::tree::Typed;

/// Tuples of a relvar, changed.
#[derive(Drop)]
pub(crate) struct Change<'t> {
    pub condition: &'t Typed,
    pub items: &'t [Item<Boxed<Typed>>],
}

/// An expression over a relvar.
#[derive(Drop)]
pub(crate) enum Form<'t> {
    /// The relvar without the tuples of which the condition is true.
    Less(&'t Typed),
    /// That, united with these tuples, changed.
    Changed(Change<'t>),
}

/// Whether the expression is nothing but the relvar at this place.
pub(crate) fn is_relvar(tree: &Typed, relvar: usize) -> bool
    ensures { IsTrue result → tree.now ≡ typed.Relvar relvar }
{
    match tree {
        Typed::Relvar(place) => *place == relvar,
        _ => false,
    }
}

// The operand of NOT, if the expression is one.
fn negation_operand(tree: &Typed) -> Option<&Typed>
    ensures { MatchOption result (Unit {0}) (λ c. tree.now ≡ typed.Unary unary.Not c.now) }
{
    match tree {
        Typed::Unary(UnaryOperator::Not, condition) => Some(condition.get()),
        _ => None,
    }
}

// The condition by which the tree selects tuples of the relvar, if it does no more.
fn selection_condition(tree: &Typed, relvar: usize) -> Option<&Typed>
    ensures { MatchOption result (Unit {0}) (λ c. tree.now ≡ typed.Where (typed.Relvar relvar) c.now) }
{
    match tree {
        Typed::Where(tuples, condition) => {
            if is_relvar(tuples.get(), relvar) {
                Some(condition.get())
            } else {
                None
            }
        }
        _ => None,
    }
}

// The condition by which the tree takes tuples out of the relvar, if it does no more.
fn rest(tree: &Typed, relvar: usize) -> Option<&Typed>
    ensures { MatchOption result (Unit {0}) (λ c. tree.now ≡ typed.Where (typed.Relvar relvar) (typed.Unary unary.Not c.now)) }
{
    match selection_condition(tree, relvar) {
        Some(condition) => negation_operand(condition),
        None => None,
    }
}

// The change, if the tree selects tuples of the relvar by a condition and extends them, and does no more.
fn changed(tree: &Typed, relvar: usize) -> Option<Change<'_>>
    ensures { MatchOption result (Unit {0}) (λ x. tree.now ≡ typed.Extend (typed.Where (typed.Relvar relvar) x.condition.now) x.items.now) }
{
    match tree {
        Typed::Extend(tuples, items) => match selection_condition(tuples.get(), relvar) {
            Some(condition) => Some(Change {
                condition,
                items: items.as_slice(),
            }),
            None => None,
        },
        _ => None,
    }
}

// Whether the two expressions are one and the same, compared part by part.
fn are_same(a: &Typed, b: &Typed) -> bool
    ensures { IsTrue result → a.now ≡ b.now }
{
    compare(a, b).is_eq()
}

// Both halves of an UPDATE, if they are of one condition.
fn update_of_halves<'t>(others: &Typed, tuples: &'t Typed, relvar: usize) -> Option<Change<'t>>
    ensures { MatchOption result (Unit {0}) (λ x. (others.now ≡ typed.Where (typed.Relvar relvar) (typed.Unary unary.Not x.condition.now)) × (tuples.now ≡ typed.Extend (typed.Where (typed.Relvar relvar) x.condition.now) x.items.now)) }
{
    let Some(condition) = rest(others, relvar) else {
        return None;
    };
    let Some(change) = changed(tuples, relvar) else {
        return None;
    };
    if are_same(condition, change.condition) {
        Some(change)
    } else {
        None
    }
}

// The change, if the tree is an UPDATE: the tuples that stay, united with those that are changed.
fn update_in(tree: &Typed, relvar: usize) -> Option<Change<'_>>
    ensures { MatchOption result (Unit {0}) (λ x. tree.now ≡ typed.Binary binary.Union (typed.Where (typed.Relvar relvar) (typed.Unary unary.Not x.condition.now)) (typed.Extend (typed.Where (typed.Relvar relvar) x.condition.now) x.items.now)) }
{
    match tree {
        Typed::Binary(BinaryOperator::Union, others, tuples) => {
            update_of_halves(others.get(), tuples.get(), relvar)
        }
        _ => None,
    }
}

/// The form of the tree over the relvar at the place, if it has one of these.
pub(crate) fn form_of(tree: &Typed, relvar: usize) -> Option<Form<'_>>
    ensures { MatchOption result (Unit {0}) (λ f. tree.now ≡ form_tree relvar f) }
{
    match rest(tree, relvar) {
        Some(condition) => Some(Form::Less(condition)),
        None => match update_in(tree, relvar) {
            Some(change) => Some(Form::Changed(change)),
            None => None,
        },
    }
}
