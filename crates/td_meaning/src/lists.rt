//! Relations and tuples of which each operand is written.

ghost use Rattle.std.specs.Prelude.{◌≡◌, ◌++◌, ◌∷◌, [], OnOk};
ghost use Rattle.td_algebra.specs.Raising.{Answers, AnswersBy};
ghost use Rattle.td_meaning.specs.ForProofs.Over.{list_meant, items_meant};
ghost use Rattle.td_meaning.specs.Mean as spec;
ghost use Rattle.td_operators.specs.Operators as operators;
ghost use Rattle.td_meaning.specs.Seen.{mean_in, names_bound};

use crate::evaluator::Evaluator;
use crate::scope::Bindings;
use crate::wanting::Wanted;
use sqlite_items::Boxed;
use std::alloc::AllocError;
use td_algebra::Fault;
use td_operators::{relation_over, tuple_value};
use td_tuples::{Item, tuple_of};
use td_typed_trees::tree::Typed;
use td_values::{Heading, Name, Value};

fn add_value(found: &mut Vec<Value>, value: Value) -> Result<(), AllocError>
    ensures { OnOk result (found.new.items ≡ found.old.items ++ value ∷ []) }
{
    found.push(value)?;
    Ok(())
}

// Appends the value with a copy of the name.
fn add_field(found: &mut Vec<(Name, Value)>, name: &Name, value: Value) -> Result<(), AllocError>
    ensures { OnOk result (found.new.items ≡ found.old.items ++ (name.now, value) ∷ []) }
{
    let name = name.copy()?;
    found.push((name, value))?;
    Ok(())
}

impl<W: Wanted> Evaluator<'_, W> {
    /// The values of the expressions, evaluated in written order: the first error stands.
    #[cycle(evaluation)]
    #[tactic(auto, unfolding(crate::specs::Mean::at))]
    pub(crate) fn values(
        &self,
        trees: &[Boxed<Typed>],
        scope: &Bindings,
    ) -> Result<Vec<Value>, Fault<W>>
        ensures { AnswersBy (λ v. v.items) result (operators.in_turn (spec.at (names_bound scope.now)) (list_meant (mean_in self.now.env.now) trees.now)) }
    {
        let mut found = Vec::new(self.alloc);
        for tree in trees {
            let value = self.evaluate(tree.get(), scope)?;
            add_value(&mut found, value)?;
        }
        Ok(found)
    }

    /// The value of RELATION: the relation of the expressions' values, evaluated in written order. It is untyped where
    /// one of them is no tuple of the heading.
    #[cycle(evaluation)]
    #[tactic(auto, unfolding(crate::specs::Mean::mean_relation))]
    pub(crate) fn relation(
        &self,
        heading: &Heading,
        trees: &[Boxed<Typed>],
        scope: &Bindings,
    ) -> Result<Value, Fault<W>>
        ensures { Answers result (spec.mean_relation heading.now (list_meant (mean_in self.now.env.now) trees.now) (names_bound scope.now)) }
    {
        let found = self.values(trees, scope)?;
        relation_over(self.alloc, heading, &found)
    }

    // The names of the items with the values of their terms, evaluated in written order: the first error stands.
    #[cycle(evaluation)]
    #[tactic(auto, unfolding(crate::specs::Mean::named_at))]
    fn fields(
        &self,
        items: &[Item<Boxed<Typed>>],
        scope: &Bindings,
    ) -> Result<Vec<(Name, Value)>, Fault<W>>
        ensures { AnswersBy (λ v. v.items) result (operators.in_turn (spec.named_at (names_bound scope.now)) (items_meant (mean_in self.now.env.now) items.now)) }
    {
        let mut found = Vec::new(self.alloc);
        for item in items {
            let value = self.evaluate(item.term.get(), scope)?;
            add_field(&mut found, &item.name, value)?;
        }
        Ok(found)
    }

    /// The value of TUPLE: evaluates the items' terms in written order, and the first error stands.
    #[cycle(evaluation)]
    #[tactic(auto, unfolding(crate::specs::Mean::mean_tuple))]
    pub(crate) fn tuple(
        &self,
        items: &[Item<Boxed<Typed>>],
        scope: &Bindings,
    ) -> Result<Value, Fault<W>>
        ensures { Answers result (spec.mean_tuple (items_meant (mean_in self.now.env.now) items.now) (names_bound scope.now)) }
    {
        let found = self.fields(items, scope)?;
        Ok(tuple_value(tuple_of(self.alloc, found)?))
    }
}
