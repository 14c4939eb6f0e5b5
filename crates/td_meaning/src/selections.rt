//! The selectors of possreps.

ghost use Rattle.std.specs.Prelude.{◌≡◌, IfOk, MatchOption};
ghost use Rattle.td_algebra.specs.Raising.{Answers};
ghost use Rattle.td_meaning.specs.ForProofs.Found.{IsFound, IsNowhere};
ghost use Rattle.td_meaning.specs.ForProofs.Over.{list_meant};
ghost use Rattle.td_meaning.specs.Mean as spec;
ghost use Rattle.td_meaning.specs.Seen.{mean_in, names_bound};
ghost use Rattle.td_meaning.specs.Selections as selections;
ghost use Rattle.td_values.specs.Data.{items_of, user};

use crate::environment::Environment;
use crate::evaluator::Evaluator;
use crate::scope::Bindings;
use crate::wanting::Wanted;
use sqlite_items::Boxed;
use std::alloc::{AllocError, Global};
use td_algebra::{Fault, Stop};
use td_tuples::Shared;
use td_typed_trees::expression::Selector;
use td_typed_trees::tree::Typed;
use td_values::{Items, Kind, Raise, Value};

// The last selector at the place, and those before it. It looks at them one by one, from the end.
fn selector_at(selectors: &[Selector], place: usize) -> Option<(&[Selector], &Selector)>
    ensures { MatchOption result (IsNowhere selectors.now place) (λ f. IsFound selectors.now place f.0.now f.1.now) }
{
    let mut rest = selectors;
    while let Some((last, earlier)) = rest.split_last() {
        if last.place == place {
            return Some((earlier, last));
        }
        rest = earlier;
    }
    None
}

// The value of the possrep with these components.
fn user_value(alloc: Global, selector: &Selector, values: Vec<Value>) -> Result<Value, AllocError>
    ensures { IfOk result (λ v. v ≡ user selector.now.possrep (items_of values.items)) }
{
    let possrep = selector.possrep.copy()?;
    let items = Items::new(alloc, values)?;
    Ok(Value {
        kind: Kind::User(possrep, items),
    })
}

impl<W: Wanted> Evaluator<'_, W> {
    // Whether the CONSTRAINT of a possrep is true of the components in scope: it sees no relvar and only the earlier
    // selectors. A possrep without one admits all.
    #[cycle(evaluation)]
    #[tactic(auto, unfolding(crate::specs::Selections::admits))]
    fn admits(
        &self,
        earlier: &[Selector],
        limit: &Option<Shared<Typed>>,
        scope: &Bindings,
    ) -> Result<bool, Fault<W>>
        ensures { Answers result (selections.admits (selections.selection earlier.now) limit.now (names_bound scope.now)) }
    {
        match limit {
            None => Ok(true),
            Some(tree) => {
                let env = Environment {
                    relvars: &[],
                    virtuals: &[],
                    selectors: earlier,
                };
                Evaluator::of(self.alloc, &env).truth(tree.get(), scope)
            }
        }
    }

    // What the selector makes of the values of its components: a value of its possrep, or the error of selectors where
    // its CONSTRAINT is false of them.
    #[cycle(evaluation)]
    #[tactic(auto, unfolding(crate::specs::Selections::selected))]
    fn select(
        &self,
        earlier: &[Selector],
        selector: &Selector,
        values: Vec<Value>,
    ) -> Result<Value, Fault<W>>
        ensures { Answers result (selections.selected (selections.selection earlier.now) selector.now values.items) }
    {
        let scope = Bindings::Components(selector.components.as_slice(), values.as_slice());
        if self.admits(earlier, &selector.limit, &scope)? {
            Ok(user_value(self.alloc, selector, values)?)
        } else {
            Err(Fault::Raised(Stop::Error(Raise::Selector)))
        }
    }

    /// The value of the selector at the place: evaluates the expressions of its components in written order, then its
    /// CONSTRAINT. It is untyped where no selector is at the place.
    #[cycle(evaluation)]
    #[tactic(auto, unfolding(crate::specs::Mean::mean_select))]
    pub(crate) fn selection(
        &self,
        place: usize,
        trees: &[Boxed<Typed>],
        scope: &Bindings,
    ) -> Result<Value, Fault<W>>
        ensures { Answers result (spec.mean_select (selections.selection self.now.env.now.selectors.now) place (list_meant (mean_in self.now.env.now) trees.now) (names_bound scope.now)) }
    {
        let found = self.values(trees, scope)?;
        match selector_at(self.env.selectors, place) {
            Some((earlier, selector)) => self.select(earlier, selector, found),
            None => Err(Fault::Raised(Stop::Untyped)),
        }
    }
}
