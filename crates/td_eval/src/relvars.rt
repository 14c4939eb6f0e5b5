//! What all relvars under an expression have: each virtual one is evaluated, in order of definition.

ghost use Rattle.std.specs.Prelude.{◌≡◌, [], true, IfOk, OnOk};
ghost use Rattle.td_algebra.specs.Raising.{Answers};
ghost use Rattle.td_eval.specs.ForProofs.Environments.{Keeps};
ghost use Rattle.td_meaning.specs.Mean.{rows_in};
ghost use Rattle.td_meaning.specs.Seen.{mean_in, none_virtual, virtual_known, virtuals_known};
ghost use Rattle.td_meaning.specs.Selections.{selection};
ghost use Rattle.td_semantics.specs.Meanings.{no_names};

use crate::evaluation::relation_of;
use std::alloc::{AllocError, Global};
use td_algebra::{Fault, Stop};
use td_meaning::{Bindings, Environment, Known};
use td_operators::Lease;
use td_relations::Relation;
use td_typed_trees::expression::{Selector, VirtualUnder};
use td_typed_trees::tree::Typed;

// The answer, with the error that it may be.
fn kept_relation<'a>(answer: Result<Relation, Fault>) -> Result<Result<Lease<'a>, Stop>, AllocError>
    ensures { Keeps answer result }
{
    match answer {
        Ok(relation) => Ok(Ok(Lease::own(relation))),
        Err(Fault::Raised(stop)) => Ok(Err(stop)),
        Err(Fault::OutOfMemory) => Err(AllocError),
    }
}

// The relation that the expression has in an environment without virtual relvars.
#[tactic(auto, unfolding(td_meaning::specs::Mean::rows_in))]
fn rows(alloc: Global, env: &Environment, tree: &Typed) -> Result<Relation, Fault>
    requires { none_virtual env.now.virtuals.now ≡ true }
    ensures { Answers result (rows_in (mean_in env.now tree.now) no_names) }
{
    relation_of(td_meaning::eval(alloc, env, &[], tree, &Bindings::Nothing)?)
}

// What the virtual relvar has over these relvars, or the error that it raises, beside its place.
#[tactic(auto, unfolding(td_meaning::specs::Seen::relvars_there))]
fn known_virtual<'a>(
    alloc: Global,
    relvars: &[Known<'_>],
    selectors: &[Selector],
    under: &VirtualUnder,
) -> Result<Known<'a>, AllocError>
    ensures { IfOk result (λ k. k ≡ virtual_known (selection selectors.now) relvars.now under.now) }
{
    let env = Environment {
        relvars,
        virtuals: &[],
        selectors,
    };
    let value = kept_relation(rows(alloc, &env, under.tree.get()))?;
    Ok(Known {
        place: under.place,
        value,
    })
}

// What the virtual relvars have, each over those before it and what is known, behind that. What one raises is kept: it
// may not be needed.
fn add_virtuals<'a>(
    alloc: Global,
    known: &mut Vec<Known<'a>>,
    selectors: &[Selector],
    virtuals: &[VirtualUnder],
) -> Result<(), AllocError>
    ensures { OnOk result (known.new.items ≡ virtuals_known (selection selectors.now) virtuals.now known.old.items) }
{
    for under in virtuals {
        let next = known_virtual(alloc, known, selectors, under)?;
        known.push(next)?;
    }
    Ok(())
}

// What the relvar has, lent once more, or its error.
fn share<'a>(known: &'a Known<'_>) -> Known<'a>
    ensures { result ≡ known.now }
{
    let value = match &known.value {
        Ok(lease) => Ok(lease.share()),
        Err(stop) => Err(*stop),
    };
    Known {
        place: known.place,
        value,
    }
}

// What the relvars have, in the same order, each lent once more.
fn share_all<'a>(alloc: Global, relvars: &'a [Known<'_>]) -> Result<Vec<Known<'a>>, AllocError>
    ensures { IfOk result (λ v. v.items ≡ relvars.now) }
{
    let mut shared = Vec::with_capacity(alloc, relvars.len())?;
    for known in relvars {
        shared.push(share(known))?;
    }
    Ok(shared)
}

/// What all relvars have there, the virtual ones behind the others.
pub(crate) fn all_relvars<'a>(
    alloc: Global,
    env: &'a Environment<'_>,
) -> Result<Vec<Known<'a>>, AllocError>
    ensures { IfOk result (λ v. v.items ≡ virtuals_known (selection env.now.selectors.now) env.now.virtuals.now env.now.relvars.now) }
{
    let mut relvars = share_all(alloc, env.relvars)?;
    add_virtuals(alloc, &mut relvars, env.selectors, env.virtuals)?;
    Ok(relvars)
}

/// These relvars and no virtual ones, with the selectors that are there.
pub(crate) fn those<'a>(relvars: &'a [Known<'_>], env: &'a Environment<'_>) -> Environment<'a>
    ensures { (result.relvars.now ≡ relvars.now) × (result.virtuals.now ≡ []) × (result.selectors.now ≡ env.now.selectors.now) }
{
    Environment {
        relvars,
        virtuals: &[],
        selectors: env.selectors,
    }
}
