//! The tuples of which a condition is true.

ghost use Rattle.td_algebra.specs.Functions as functions;
ghost use Rattle.td_algebra.specs.Raising.{Answers};
ghost use Rattle.td_meaning.specs.ForProofs.Checks.{AreChecks, all_hold, check_holds};
ghost use Rattle.td_meaning.specs.Mean as spec;
ghost use Rattle.td_meaning.specs.Mean.{truth_at};
ghost use Rattle.td_typed_trees.specs.declared.tree.Typed.{Typed};
ghost use Rattle.td_meaning.specs.Seen.{mean_in, names_bound};

use crate::closed::Terms;
use crate::conditions::{Check, checks_of, compare_at_tuple};
use crate::evaluator::Evaluator;
use crate::keyed::found_by_key;
use crate::scope::Bindings;
use crate::wanting::Wanted;
use std::marker::PhantomData;
use td_algebra::{Fault, restrict};
use td_operators::{Lease, relation_value};
use td_relations::Relation;
use td_typed_trees::tree::Typed;
use td_values::{Tuple, Value};

impl<W: Wanted> Evaluator<'_, W> {
    // Whether the check is true at the tuple. A comparison takes the values of its sides there; any other expression is
    // evaluated with the tuple's attributes in scope.
    #[cycle(evaluation)]
    #[tactic(auto, unfolding(crate::specs::ForProofs::Checks::check_holds))]
    fn holds_at(&self, check: &Check<'_>, t: &Tuple, scope: &Bindings) -> Result<bool, Fault<W>>
        ensures { Answers result (check_holds (mean_in self.now.env.now) (names_bound scope.now) t.now check.now) }
    {
        match check {
            Check::Comparison(operator, a, b) => compare_at_tuple(self.alloc, *operator, a, b, t),
            Check::Other(tree) => self.truth(*tree, &Bindings::Within(t, &*scope)),
        }
    }

    // Whether all the checks are true at the tuple. They are asked in order, up to the first that is false or raises an
    // error.
    #[cycle(evaluation)]
    fn all_hold(&self, checks: &[Check<'_>], t: &Tuple, scope: &Bindings) -> Result<bool, Fault<W>>
        ensures { Answers result (all_hold (mean_in self.now.env.now) (names_bound scope.now) t.now checks.now) }
    {
        for check in checks {
            if !self.holds_at(check, t, scope)? {
                return Ok(false);
            }
        }
        Ok(true)
    }

    // The tuples at which all the checks are true, or the least error that these raise at one.
    #[cycle(evaluation)]
    fn restrict_by_checks(
        &self,
        ts: &Relation,
        checks: &[Check<'_>],
        scope: &Bindings,
    ) -> Result<Relation, Fault<W>>
        ensures { (c : Typed) → AreChecks (mean_in self.now.env.now) (names_bound scope.now) ts.now.heading c checks.now → Answers result (functions.restricted (truth_at (mean_in self.now.env.now c) (names_bound scope.now)) ts.now) }
    {
        ts.rows_fit();
        restrict(
            self.alloc,
            ts,
            |t: &Tuple| -> Result<bool, Fault<W>>
                ensures { Answers result (all_hold (mean_in self.entry.now.env.now) (names_bound scope.entry.now) t.now checks.entry.now) }
            { self.all_hold(checks, t, scope) },
        )
    }

    // The tuples of which the condition is true. It makes checks of the condition, and asks them of all tuples, or of
    // those alone that an index finds where the checks begin with the values of its key.
    #[cycle(evaluation)]
    fn restrict_prepared(
        &self,
        ts: &Lease<'_>,
        c: &Typed,
        scope: &Bindings,
    ) -> Result<Relation, Fault<W>>
        ensures { Answers result (functions.restricted (truth_at (mean_in self.now.env.now c.now) (names_bound scope.now)) ts.now) }
    {
        let checks = checks_of(&*self, &*scope, ts.get().heading(), &*c)?;
        match found_by_key(self.alloc, &*ts, checks.as_slice())? {
            Some(part) => self.restrict_by_checks(&part, checks.as_slice(), scope),
            None => self.restrict_by_checks(ts.get(), checks.as_slice(), scope),
        }
    }

    /// The tuples of which the condition is true, or the least error that it raises at one. Where there are two tuples
    /// or more, it first evaluates the parts of the condition that name nothing around them.
    #[cycle(evaluation)]
    pub(crate) fn restrict_by_condition(
        &self,
        ts: &Lease<'_>,
        c: &Typed,
        scope: &Bindings,
    ) -> Result<Relation, Fault<W>>
        ensures { Answers result (functions.restricted (truth_at (mean_in self.now.env.now c.now) (names_bound scope.now)) ts.now) }
    {
        match self.prepare(Terms::Condition(c), ts.get().len())? {
            Some(parts) => {
                let around: Evaluator<'_, W> = Evaluator {
                    alloc: self.alloc,
                    env: &*self.env,
                    parts: parts.as_slice(),
                    wanted: PhantomData,
                };
                around.restrict_prepared(ts, c, scope)
            }
            None => self.restrict_prepared(ts, c, scope),
        }
    }

    /// The value of WHERE: evaluates the relation, then the condition at its tuples. It is untyped where the operand is
    /// no relation.
    #[cycle(evaluation)]
    #[tactic(auto, unfolding(crate::specs::Mean::mean_where))]
    pub(crate) fn restriction(
        &self,
        r: &Typed,
        c: &Typed,
        scope: &Bindings,
    ) -> Result<Value, Fault<W>>
        ensures { Answers result (spec.mean_where (mean_in self.now.env.now r.now) (mean_in self.now.env.now c.now) (names_bound scope.now)) }
    {
        let ts = self.rows(r, &*scope)?;
        Ok(relation_value(self.restrict_by_condition(&ts, c, scope)?))
    }
}
