//! Names of WITH.

ghost use Rattle.std.specs.Prelude.{◌≡◌, ◌++◌, ◌∷◌, [], OnOk};
ghost use Rattle.td_algebra.specs.Raising.{Answers, AnswersBy};
ghost use Rattle.td_meaning.specs.ForProofs.Over.{all_meant};
ghost use Rattle.td_meaning.specs.Mean as spec;
ghost use Rattle.td_meaning.specs.Seen.{all_given, held_value, mean_in, names_bound};

use crate::evaluator::Evaluator;
use crate::scope::{Bindings, KnownValue, hold};
use crate::wanting::Wanted;
use sqlite_items::{Boxed, Items};
use std::alloc::AllocError;
use td_algebra::Fault;
use td_syntax::tree::Named;
use td_typed_trees::tree::Typed;
use td_values::{Name, Value};

// Appends the value with a copy of the name, held so that a relation can be lent.
fn add_held(
    found: &mut Items<Named<KnownValue>>,
    name: &Name,
    value: Value,
) -> Result<(), AllocError>
    ensures { OnOk result ((h : _) × (held_value h ≡ value) × (found.new ≡ found.old ++ record { name = name.now; value = h } ∷ [])) }
{
    let name = name.copy()?;
    let value = hold(value);
    found.push(Named { name, value })?;
    Ok(())
}

impl<W: Wanted> Evaluator<'_, W> {
    // The names of WITH with their values. Each expression is evaluated once, in written order, and sees the names
    // before it; the first error stands.
    #[cycle(evaluation)]
    #[tactic(auto, unfolding(crate::specs::Mean::introduced))]
    fn introduce(
        &self,
        xs: &[Named<Boxed<Typed>>],
        scope: &Bindings,
    ) -> Result<Items<Named<KnownValue>>, Fault<W>>
        ensures { AnswersBy (λ v. all_given v (names_bound scope.now)) result (spec.introduced (all_meant (mean_in self.now.env.now) xs.now) (names_bound scope.now)) }
    {
        let mut found = Items::new(self.alloc);
        for x in xs {
            let within = Bindings::Given(found.as_slice(), &*scope);
            let value = self.evaluate(x.value.get(), &within)?;
            add_held(&mut found, &x.name, value)?;
        }
        Ok(found)
    }

    /// The value of WITH: evaluates the expressions of its names, then the body, which sees them all.
    #[cycle(evaluation)]
    #[tactic(auto, unfolding(crate::specs::Mean::mean_with))]
    pub(crate) fn with(
        &self,
        xs: &[Named<Boxed<Typed>>],
        body: &Typed,
        scope: &Bindings,
    ) -> Result<Value, Fault<W>>
        ensures { Answers result (spec.mean_with (all_meant (mean_in self.now.env.now) xs.now) (mean_in self.now.env.now body.now) (names_bound scope.now)) }
    {
        let found = self.introduce(xs, scope)?;
        self.evaluate(body, &Bindings::Given(found.as_slice(), &*scope))
    }
}
