//! Aggregates and summaries of tuples.

ghost use Rattle.td_algebra.specs.Functions as functions;
ghost use Rattle.td_algebra.specs.Raising.{Answers, and_then};
ghost use Rattle.td_algebra.specs.Summaries.{summary_over};
ghost use Rattle.td_meaning.specs.ForProofs.Over as over;
ghost use Rattle.td_meaning.specs.ForProofs.Over.{terms};
ghost use Rattle.td_meaning.specs.ForProofs.ReadyTerms.{ready_value};
ghost use Rattle.td_meaning.specs.Mean.{groups_at};
ghost use Rattle.td_meaning.specs.Seen.{mean_in, names_bound};

use crate::closed::Terms;
use crate::evaluator::Evaluator;
use crate::ready::{ReadyTerm, ready_summaries, ready_summary};
use crate::scope::Bindings;
use crate::wanting::Wanted;
use sqlite_items::Boxed;
use std::marker::PhantomData;
use td_algebra::{Fault, aggregate, summarize, summarize_by};
use td_operators::{relation_value, table_dee};
use td_relations::Relation;
use td_tuples::{Item, Summary};
use td_typed_trees::tree::{Typed, TypedGroups};
use td_values::{Name, Tuple, Value};

impl<W: Wanted> Evaluator<'_, W> {
    // The summary over all tuples of the relation, whose term is ready.
    #[cycle(evaluation)]
    fn aggregate_ready(
        &self,
        ts: &Relation,
        summary: &Summary<ReadyTerm<'_>>,
        scope: &Bindings,
    ) -> Result<Value, Fault<W>>
        ensures { Answers result (summary_over (ready_value (mean_in self.now.env.now) (names_bound scope.now)) ts.now.tuples summary.now) }
    {
        aggregate(
            self.alloc,
            ts,
            summary,
            &|term: &ReadyTerm<'_>, t: &Tuple| -> Result<Value, Fault<W>>
                ensures { Answers result (ready_value (mean_in self.entry.now.env.now) (names_bound scope.entry.now) term.now t.now) }
            { self.value_at(term, t, scope) },
        )
    }

    // The summary over all tuples of the relation. It makes the term ready once, so that attributes are found by their
    // places at each tuple.
    #[cycle(evaluation)]
    fn aggregate_prepared(
        &self,
        ts: &Relation,
        summary: &Summary<Boxed<Typed>>,
        scope: &Bindings,
    ) -> Result<Value, Fault<W>>
        ensures { Answers result (summary_over (terms (mean_in self.now.env.now) (names_bound scope.now)) ts.now.tuples summary.now) }
    {
        let ready = ready_summary(&*self, &*scope, ts.heading(), &*summary)?;
        ts.rows_fit();
        self.aggregate_ready(ts, &ready, scope)
    }

    // The summary over all tuples of the relation. Where there are two or more, it first evaluates the parts of the
    // term that name nothing around them.
    #[cycle(evaluation)]
    fn aggregate_by_summary(
        &self,
        ts: &Relation,
        summary: &Summary<Boxed<Typed>>,
        scope: &Bindings,
    ) -> Result<Value, Fault<W>>
        ensures { Answers result (summary_over (terms (mean_in self.now.env.now) (names_bound scope.now)) ts.now.tuples summary.now) }
    {
        match self.prepare(Terms::Summary(summary), ts.len())? {
            Some(parts) => {
                let around: Evaluator<'_, W> = Evaluator {
                    alloc: self.alloc,
                    env: &*self.env,
                    parts: parts.as_slice(),
                    wanted: PhantomData,
                };
                around.aggregate_prepared(ts, summary, scope)
            }
            None => self.aggregate_prepared(ts, summary, scope),
        }
    }

    /// The value of an aggregate: evaluates the relation, then the term at its tuples. It is untyped where the operand
    /// is no relation.
    #[cycle(evaluation)]
    #[tactic(auto, unfolding(crate::specs::ForProofs::Over::over_aggregate))]
    pub(crate) fn aggregation(
        &self,
        r: &Typed,
        summary: &Summary<Boxed<Typed>>,
        scope: &Bindings,
    ) -> Result<Value, Fault<W>>
        ensures { Answers result (over.over_aggregate (mean_in self.now.env.now) r.now summary.now (names_bound scope.now)) }
    {
        let ts = self.rows(r, &*scope)?;
        self.aggregate_by_summary(ts.get(), summary, scope)
    }

    // The tuples of the second relation, each with the summaries over the tuples of the first that agree with it on the
    // second one's names. The summaries' terms are ready.
    #[cycle(evaluation)]
    fn summarize_per(
        &self,
        ts: &Relation,
        us: &Relation,
        items: &[Item<Summary<ReadyTerm<'_>>>],
        scope: &Bindings,
    ) -> Result<Relation, Fault<W>>
        ensures { Answers result (functions.summarized (ready_value (mean_in self.now.env.now) (names_bound scope.now)) items.now ts.now us.now) }
    {
        summarize(
            self.alloc,
            ts,
            us,
            items,
            &|term: &ReadyTerm<'_>, t: &Tuple| -> Result<Value, Fault<W>>
                ensures { Answers result (ready_value (mean_in self.entry.now.env.now) (names_bound scope.entry.now) term.now t.now) }
            { self.value_at(term, t, scope) },
        )
    }

    // The relation's own parts at these names, each with the summaries over the tuples that have it. One sort of the
    // tuples puts those of a group side by side.
    #[cycle(evaluation)]
    fn summarize_in_runs(
        &self,
        ts: &Relation,
        names: &[Name],
        items: &[Item<Summary<ReadyTerm<'_>>>],
        scope: &Bindings,
    ) -> Result<Relation, Fault<W>>
        ensures { Answers result (functions.summarized (ready_value (mean_in self.now.env.now) (names_bound scope.now)) items.now ts.now (functions.project_of names.now ts.now)) }
    {
        summarize_by(
            self.alloc,
            ts,
            names,
            items,
            &|term: &ReadyTerm<'_>, t: &Tuple| -> Result<Value, Fault<W>>
                ensures { Answers result (ready_value (mean_in self.entry.now.env.now) (names_bound scope.entry.now) term.now t.now) }
            { self.value_at(term, t, scope) },
        )
    }

    // SUMMARIZE of the relation by its groups: all tuples as one group, PER another relation, which it evaluates, or BY
    // names of its own. The summaries' terms are ready.
    #[cycle(evaluation)]
    #[tactic(auto, unfolding(crate::specs::Mean::groups_at))]
    fn summarize_ready(
        &self,
        ts: &Relation,
        groups: &TypedGroups<Boxed<Typed>>,
        items: &[Item<Summary<ReadyTerm<'_>>>],
        scope: &Bindings,
    ) -> Result<Relation, Fault<W>>
        ensures { Answers result (and_then (groups_at (over.groups_meant (mean_in self.now.env.now) groups.now) (names_bound scope.now) ts.now) (functions.summarized (ready_value (mean_in self.now.env.now) (names_bound scope.now)) items.now ts.now)) }
    {
        match groups {
            TypedGroups::Whole => {
                let us = table_dee(self.alloc)?;
                self.summarize_per(ts, &us, items, scope)
            }
            TypedGroups::Per(a) => {
                let us = self.rows(a.get(), &*scope)?;
                self.summarize_per(ts, us.get(), items, scope)
            }
            TypedGroups::By(names) => { self.summarize_in_runs(ts, names.as_slice(), items, scope) }
        }
    }

    // SUMMARIZE of the relation by its groups. It makes the summaries' terms ready once.
    #[cycle(evaluation)]
    fn summarize_prepared(
        &self,
        ts: &Relation,
        groups: &TypedGroups<Boxed<Typed>>,
        items: &[Item<Summary<Boxed<Typed>>>],
        scope: &Bindings,
    ) -> Result<Relation, Fault<W>>
        ensures { Answers result (over.summarized_over (mean_in self.now.env.now) groups.now items.now (names_bound scope.now) ts.now) }
    {
        let ready = ready_summaries(&*self, &*scope, ts.heading(), &*items)?;
        ts.rows_fit();
        self.summarize_ready(ts, groups, ready.as_slice(), scope)
    }

    // SUMMARIZE of the relation by its groups. Where there are two tuples or more, it first evaluates the parts of the
    // summaries' terms that name nothing around them.
    #[cycle(evaluation)]
    fn summarize_by_groups(
        &self,
        ts: &Relation,
        groups: &TypedGroups<Boxed<Typed>>,
        items: &[Item<Summary<Boxed<Typed>>>],
        scope: &Bindings,
    ) -> Result<Relation, Fault<W>>
        ensures { Answers result (over.summarized_over (mean_in self.now.env.now) groups.now items.now (names_bound scope.now) ts.now) }
    {
        match self.prepare(Terms::Summaries(items), ts.len())? {
            Some(parts) => {
                let around: Evaluator<'_, W> = Evaluator {
                    alloc: self.alloc,
                    env: &*self.env,
                    parts: parts.as_slice(),
                    wanted: PhantomData,
                };
                around.summarize_prepared(ts, groups, items, scope)
            }
            None => self.summarize_prepared(ts, groups, items, scope),
        }
    }

    /// The value of SUMMARIZE: evaluates the relation, then the one of PER if there is one, and the terms at the tuples
    /// of the groups. It is untyped where an operand is no relation.
    #[cycle(evaluation)]
    #[tactic(auto, unfolding(crate::specs::ForProofs::Over::over_summarize))]
    pub(crate) fn summarization(
        &self,
        r: &Typed,
        by: &TypedGroups<Boxed<Typed>>,
        items: &[Item<Summary<Boxed<Typed>>>],
        scope: &Bindings,
    ) -> Result<Value, Fault<W>>
        ensures { Answers result (over.over_summarize (mean_in self.now.env.now) r.now by.now items.now (names_bound scope.now)) }
    {
        let ts = self.rows(r, &*scope)?;
        Ok(relation_value(self.summarize_by_groups(ts.get(), by, items, scope)?))
    }
}
