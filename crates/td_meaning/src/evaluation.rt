//! Evaluation.

ghost use Rattle.std.specs.Prelude.{◌≡◌, true};
ghost use Rattle.td_algebra.specs.Functions as functions;
ghost use Rattle.td_algebra.specs.Raising.{Answers};
ghost use Rattle.td_meaning.specs.ForProofs.Over.{terms};
ghost use Rattle.td_meaning.specs.Mean.{truth_at};
ghost use Rattle.td_meaning.specs.Parts.{AreRight};
ghost use Rattle.td_meaning.specs.Seen.{mean_in, names_bound};

use crate::environment::Environment;
use crate::evaluator::Evaluator;
use crate::parts::{HoistedTerm, put_if, value_known};
use crate::scope::Bindings;
use crate::wanting::Wanted;
use sqlite_items::Boxed;
use std::alloc::Global;
use td_algebra::Fault;
use td_operators::{Lease, integer_value, text_value, truth_value};
use td_relations::Relation;
use td_tuples::Item;
use td_typed_trees::tree::Typed;
use td_values::Value;

impl<W: Wanted> Evaluator<'_, W> {
    /// The value of an expression, by its form.
    #[cycle(evaluation)]
    pub(crate) fn by_form(&self, tree: &Typed, scope: &Bindings) -> Result<Value, Fault<W>>
        ensures { Answers result (mean_in self.now.env.now tree.now (names_bound scope.now)) }
    {
        match tree {
            Typed::Integer(n) => Ok(integer_value(*n)),
            Typed::Text(text) => Ok(text_value(text.copy()?)),
            Typed::Truth(b) => Ok(truth_value(*b)),
            Typed::Local(name) => self.local_value(name, scope),
            Typed::Relvar(place) => self.relvar(*place),
            Typed::Select(place, trees) => self.selection(*place, trees.as_slice(), scope),
            Typed::Component(at, a) => self.component(*at, a.get(), scope),
            Typed::Tuple(items) => self.tuple(items.as_slice(), scope),
            Typed::Relation(heading, trees) => { self.relation(heading, trees.as_slice(), scope) }
            Typed::Unary(operator, a) => self.unary(*operator, a.get(), scope),
            Typed::Binary(operator, a, b) => self.binary(*operator, a.get(), b.get(), scope),
            Typed::From(name, a) => self.attribute(name, a.get(), scope),
            Typed::Project(a, names) => self.projection(a.get(), names.as_slice(), scope),
            Typed::Where(r, c) => self.restriction(r.get(), c.get(), scope),
            Typed::Rename(a, items) => self.renaming(a.get(), items.as_slice(), scope),
            Typed::Nest(operator, a, names, name) => {
                self.nesting(*operator, a.get(), names.as_slice(), name, scope)
            }
            Typed::Unnest(operator, a, name) => { self.unnesting(*operator, a.get(), name, scope) }
            Typed::Aggregate(r, summary) => self.aggregation(r.get(), summary, scope),
            Typed::If(c, a, b) => self.choice(c.get(), a.get(), b.get(), scope),
            Typed::Extend(r, items) => self.extension(r.get(), items.as_slice(), scope),
            Typed::Summarize(r, by, items) => {
                self.summarization(r.get(), by, items.as_slice(), scope)
            }
            Typed::With(xs, body) => self.with(xs.as_slice(), body.get(), scope),
        }
    }

    /// The value of an expression, found or made.
    #[cycle(evaluation)]
    pub(crate) fn evaluate(&self, tree: &Typed, scope: &Bindings) -> Result<Value, Fault<W>>
        ensures { Answers result (mean_in self.now.env.now tree.now (names_bound scope.now)) }
    {
        match self.known(tree) {
            Some(value) => value_known(self.alloc, value),
            None => self.by_form(tree, scope),
        }
    }
}

/// Puts the value of the expression, or the error that it raises, among the parts, where it names nothing around it.
pub fn keep<'a, W: Wanted>(
    alloc: Global,
    env: &Environment,
    parts: &mut Vec<HoistedTerm<'a>>,
    tree: &'a Typed,
) -> Result<(), Fault<W>>
    requires right { AreRight env.now parts.old.items }
    requires allowed { W.allows env.now.virtuals.now ≡ true }
    ensures { AreRight env.now parts.new.items }
{
    let evaluator: Evaluator<'_, W> = Evaluator::with_parts(alloc, env, parts.as_slice());
    let value = evaluator.closed_value(tree)?;
    Ok(put_if(alloc, parts, tree, value)?)
}

/// The value of an expression, or the least error that its rules let stand. What typing rules out is answered by
/// `Untyped`, and `Wanting` with its place where the expression comes to a virtual relvar that is not among the parts.
/// The recursion nests as deep as the expression has levels, and those of the CONSTRAINTs of selectors under it.
pub fn eval<W: Wanted>(
    alloc: Global,
    env: &Environment,
    parts: &[HoistedTerm],
    tree: &Typed,
    scope: &Bindings,
) -> Result<Value, Fault<W>>
    requires right { AreRight env.now parts.now }
    requires allowed { W.allows env.now.virtuals.now ≡ true }
    ensures { Answers result (mean_in env.now tree.now (names_bound scope.now)) }
{
    Evaluator::with_parts(alloc, env, parts).evaluate(tree, scope)
}

/// The tuples of which the condition is true, or the least error that it raises at one. Its parts that name nothing
/// around it are evaluated once. Where it begins with `A = e` for each name of a key by which the tuples are kept,
/// joined by AND and each e such a part, a literal or a name around it, it is asked of those alone that have these
/// values: it is false of all others, and raises nothing there.
pub fn select<W: Wanted>(
    alloc: Global,
    env: &Environment,
    parts: &[HoistedTerm],
    ts: &Lease<'_>,
    condition: &Typed,
    scope: &Bindings,
) -> Result<Relation, Fault<W>>
    requires right { AreRight env.now parts.now }
    requires allowed { W.allows env.now.virtuals.now ≡ true }
    ensures { Answers result (functions.restricted (truth_at (mean_in env.now condition.now) (names_bound scope.now)) ts.now) }
{
    Evaluator::with_parts(alloc, env, parts).restrict_by_condition(ts, condition, scope)
}

/// The tuples with the items' values, as EXTEND gives them: the values that have names of attributes in place of these.
pub fn extend_all<W: Wanted>(
    alloc: Global,
    env: &Environment,
    parts: &[HoistedTerm],
    ts: &Relation,
    items: &[Item<Boxed<Typed>>],
    scope: &Bindings,
) -> Result<Relation, Fault<W>>
    requires right { AreRight env.now parts.now }
    requires allowed { W.allows env.now.virtuals.now ≡ true }
    ensures { Answers result (functions.extended (terms (mean_in env.now) (names_bound scope.now)) items.now ts.now) }
{
    Evaluator::with_parts(alloc, env, parts).extend_by_items(ts, items, scope)
}
