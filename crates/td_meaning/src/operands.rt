//! Names, relvars and operands.

ghost use Rattle.std.specs.Prelude.{◌≡◌, false, Result};
ghost use Rattle.td_values.specs.Data.{Datum};
ghost use Rattle.td_values.specs.Rows.{RowsData};
ghost use Rattle.td_algebra.specs.Raising.{Answers, AnswersBy, and_then};
ghost use Rattle.td_algebra.specs.declared.errors.Stop.{Stop};
ghost use Rattle.td_operators.specs.ForProofs.Lent.{operand_value};
ghost use Rattle.td_operators.specs.Operators.{as_value};
ghost use Rattle.td_typed_trees.specs.declared.tree.Typed.TheVariants as t;
ghost use Rattle.td_meaning.specs.ForProofs.Places.{is_known};
ghost use Rattle.td_meaning.specs.Mean as spec;
ghost use Rattle.td_meaning.specs.Mean.{Names};
ghost use Rattle.td_meaning.specs.Seen.{mean_in, relvars_there, names_bound};

use crate::environment::relvar_known;
use crate::evaluator::Evaluator;
use crate::parts::operand_known;
use crate::scope::{Bindings, operand_meant, value_meant};
use crate::wanting::Wanted;
use std::alloc::Global;
use td_algebra::{Fault, Stop};
use td_operators::{Lease, Operand, relation_value, rows_of, truth_of};
use td_typed_trees::tree::Typed;
use td_values::{Name, Value};

// The relation of a known relvar as a value: a copy, which shares its tuples. A fault is passed on.
fn copied<W>(alloc: Global, known: Result<&Lease<'_>, Fault<W>>) -> Result<Value, Fault<W>>
    ensures { (m : Result RowsData Stop) → AnswersBy (λ r. r.now) known.entry m → Answers result (and_then m as_value) }
{
    match known {
        Ok(lease) => Ok(relation_value(lease.get().copy(alloc)?)),
        Err(fault) => Err(fault),
    }
}

// The relation of a known relvar as an operand, lent. A fault is passed on.
fn lent<'a, W>(known: Result<&'a Lease<'a>, Fault<W>>) -> Result<Operand<'a>, Fault<W>>
    ensures { (m : Result RowsData Stop) → AnswersBy (λ r. r.now) known.entry m → AnswersBy operand_value result (and_then m as_value) }
{
    match known {
        Ok(lease) => Ok(Operand::Lent(lease.share())),
        Err(fault) => Err(fault),
    }
}

// The value as an operand that is owned. A fault is passed on.
fn made_operand<'a, W>(answer: Result<Value, Fault<W>>) -> Result<Operand<'a>, Fault<W>>
    ensures { (m : Result Datum Stop) → Answers answer m → AnswersBy operand_value result m }
{
    match answer {
        Ok(value) => Ok(Operand::Made(value)),
        Err(fault) => Err(fault),
    }
}

impl<W: Wanted> Evaluator<'_, W> {
    /// The value of a name, copied; it is untyped where the name is not in scope.
    #[tactic(auto, unfolding(crate::specs::Mean::mean_local))]
    pub(crate) fn local_value(&self, name: &Name, scope: &Bindings) -> Result<Value, Fault<W>>
        ensures { Answers result (spec.mean_local name.now (names_bound scope.now)) }
    {
        match scope.find(name) {
            Some(meant) => Ok(value_meant(self.alloc, meant)?),
            None => Err(Fault::Raised(Stop::Untyped)),
        }
    }

    /// The value of the relvar at the place, copied. Where none is known there, it is wanting if it is virtual and `W`
    /// can say so, and otherwise untyped.
    #[tactic(auto, unfolding(crate::specs::Mean::mean_relvar))]
    pub(crate) fn relvar(&self, place: usize) -> Result<Value, Fault<W>>
        ensures { (names : Names) → Answers result (spec.mean_relvar (relvars_there self.now.env.now) place names) }
    {
        match relvar_known(self.env, place) {
            Some(known) => copied(self.alloc, known),
            None => W::unknown(self.env, place),
        }
    }

    // The value of a name as an operand: a relation of WITH is lent and any other value copied. It is untyped where the
    // name is not in scope.
    #[tactic(auto, unfolding(crate::specs::Mean::mean_local))]
    fn local_operand<'a>(
        &self,
        name: &Name,
        scope: &'a Bindings<'_>,
    ) -> Result<Operand<'a>, Fault<W>>
        ensures { AnswersBy operand_value result (spec.mean_local name.now (names_bound scope.now)) }
    {
        match scope.find(name) {
            Some(meant) => Ok(operand_meant(self.alloc, meant)?),
            None => Err(Fault::Raised(Stop::Untyped)),
        }
    }

    // The value of the relvar that the expression names, where the environment does not have it: a virtual relvar may
    // be known as a part, and otherwise it is wanting or untyped, as `W` says.
    fn virtual_operand<'a>(&'a self, tree: &Typed, place: usize) -> Result<Operand<'a>, Fault<W>>
        requires tree { tree.now ≡ t.Relvar place }
        requires unknown { is_known place self.now.env.now.relvars.now ≡ false }
        ensures { (names : Names) → AnswersBy operand_value result (mean_in self.now.env.now tree.now names) }
    {
        match self.known(tree) {
            Some(value) => operand_known(self.alloc, value),
            None => made_operand(W::unknown(self.env, place)),
        }
    }

    // The relvar at the place, which the expression names, lent.
    fn relvar_operand<'a>(&'a self, tree: &Typed, place: usize) -> Result<Operand<'a>, Fault<W>>
        requires { tree.now ≡ t.Relvar place }
        ensures { (names : Names) → AnswersBy operand_value result (mean_in self.now.env.now tree.now names) }
    {
        match relvar_known(self.env, place) {
            Some(known) => lent(known),
            None => self.virtual_operand(tree, place),
        }
    }

    /// The value of an operand. A relvar and a relation that a name of WITH stands for are lent.
    #[cycle(evaluation)]
    pub(crate) fn operand<'a, 'e: 'a>(
        &'e self,
        tree: &Typed,
        scope: &'a Bindings<'_>,
    ) -> Result<Operand<'a>, Fault<W>>
        ensures { AnswersBy operand_value result (mean_in self.now.env.now tree.now (names_bound scope.now)) }
    {
        match tree {
            Typed::Relvar(place) => self.relvar_operand(tree, *place),
            Typed::Local(name) => self.local_operand(name, scope),
            _ => match self.known(tree) {
                Some(value) => operand_known(self.alloc, value),
                None => Ok(Operand::Made(self.by_form(tree, &*scope)?)),
            },
        }
    }

    /// The relation that the expression means, owned or lent; a value of another kind is untyped.
    #[cycle(evaluation)]
    #[tactic(auto, unfolding(crate::specs::Mean::rows_in))]
    pub(crate) fn rows<'a, 'e: 'a>(
        &'e self,
        a: &Typed,
        scope: &'a Bindings<'_>,
    ) -> Result<Lease<'a>, Fault<W>>
        ensures { Answers result (spec.rows_in (mean_in self.now.env.now a.now) (names_bound scope.now)) }
    {
        rows_of(self.operand(a, &*scope)?)
    }

    /// The truth value of the expression; a value of another kind is untyped.
    #[cycle(evaluation)]
    #[tactic(auto, unfolding(crate::specs::Mean::truth_in))]
    pub(crate) fn truth(&self, a: &Typed, scope: &Bindings) -> Result<bool, Fault<W>>
        ensures { Answers result (spec.truth_in (mean_in self.now.env.now a.now) (names_bound scope.now)) }
    {
        truth_of(self.evaluate(a, scope)?)
    }
}
