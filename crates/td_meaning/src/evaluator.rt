//! The evaluator.

ghost use Rattle.std.specs.Prelude.{◌≡◌, true, IfSome};
ghost use Rattle.td_meaning.specs.ForProofs.Right.{AreRight-prop};
ghost use Rattle.td_meaning.specs.Mean.{Names};
ghost use Rattle.td_meaning.specs.Parts.{AreRight, known_value};
ghost use Rattle.td_meaning.specs.Seen.{mean_in};

use crate::environment::Environment;
use crate::parts::{HoistedTerm, part_known};
use crate::scope::KnownValue;
use crate::wanting::Wanted;
use std::alloc::Global;
use std::marker::PhantomData;
use td_algebra::Stop;
use td_typed_trees::tree::Typed;

/// Evaluates expressions over relvars and selectors, beside parts of expressions whose values over them are known, in
/// the order of these. What it may say to be wanting is a `W`.
#[derive(Drop)]
pub(crate) struct Evaluator<'a, W: Wanted> {
    pub alloc: Global,
    pub env: &'a Environment<'a>,
    pub parts: &'a [HoistedTerm<'a>],
    pub wanted: PhantomData<W>,
    ghost right: { AreRight env.now parts.now } by { AreRight-prop env.now parts.now },
    ghost allowed: { W.allows env.now.virtuals.now ≡ true },
}

impl<'a, W: Wanted> Evaluator<'a, W> {
    /// An evaluator over the environment that knows no parts.
    pub(crate) fn of(alloc: Global, env: &'a Environment<'a>) -> Evaluator<'a, W>
        requires { W.allows env.now.virtuals.now ≡ true }
        ensures { result.env.now ≡ env.now }
    {
        Evaluator {
            alloc,
            env,
            parts: &[],
            wanted: PhantomData,
        }
    }

    /// An evaluator over the environment that knows the values of these parts.
    pub(crate) fn with_parts(
        alloc: Global,
        env: &'a Environment<'a>,
        parts: &'a [HoistedTerm<'a>],
    ) -> Evaluator<'a, W>
        requires right { AreRight env.now parts.now }
        requires allowed { W.allows env.now.virtuals.now ≡ true }
        ensures { result.env.now ≡ env.now }
    {
        Evaluator {
            alloc,
            env,
            parts,
            wanted: PhantomData,
        }
    }

    /// What is known of the expression.
    pub(crate) fn known(&self, tree: &Typed) -> Option<&'a Result<KnownValue, Stop>>
        ensures { IfSome result (λ v. (names : Names) → mean_in self.now.env.now tree.now names ≡ known_value v.now) }
    {
        part_known(self.env, self.parts, tree)
    }
}
