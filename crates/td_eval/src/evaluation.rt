//! Evaluation.

ghost use Rattle.std.specs.Prelude.{◌≡◌, IfOk, MatchResult};
ghost use Rattle.td_algebra.specs.Raising.{Answers};
ghost use Rattle.td_meaning.specs.Mean.{mean};
ghost use Rattle.td_meaning.specs.Parts.{AreRight};
ghost use Rattle.td_meaning.specs.Seen.{mean_in, relvars_at, names_bound};
ghost use Rattle.td_meaning.specs.Selections.{selection};
ghost use Rattle.td_operators.specs.Values as spec;
ghost use Rattle.td_eval.specs.ForProofs.Environments.{MeanTheirs, all_known, base_known, bases_known};
ghost use Rattle.td_semantics.specs.Meanings.{means};

use crate::by_key::value_by_key;
use crate::lookup::Lookup;
use crate::relvars::{all_relvars, those};
use crate::settling::{Findings, Virtuals, names_of, settle, settle_first};
use std::alloc::{AllocError, Global};
use td_algebra::{Fault, Stop};
use td_headings::TypedExpr;
use td_meaning::{Bindings, Environment, HoistedTerm, Known};
use td_operators::Lease;
use td_relations::Relation;
use td_typed_trees::expression::{BaseUnder, Expression};
use td_typed_trees::tree::Typed;
use td_values::{Kind, Tuple, Value};

// What the base relvar at the place has, with what the look-up keeps beside it.
pub(crate) fn lease_of<L: Lookup>(lookup: &L, relvar: usize) -> Result<Lease<'_>, Stop>
    ensures { MatchResult result (λ r. L.relvars lookup.now relvar ≡ Ok r) (λ e. L.relvars lookup.now relvar ≡ Err e) }
{
    match lookup.lent(relvar) {
        Ok(relation) => Ok(Lease::kept(relation, lookup.indexes(relvar))),
        Err(stop) => Err(stop),
    }
}

// What the base relvar has, lent by the look-up, beside its place.
fn known_base<'a, L: Lookup>(lookup: &'a L, base: &BaseUnder) -> Known<'a>
    ensures { result ≡ base_known (L.relvars lookup.now) base.now }
{
    Known {
        place: base.place,
        value: lease_of(lookup, base.place),
    }
}

/// What these base relvars have. Each is looked up once, and lent.
pub(crate) fn known_bases<'a, L: Lookup>(
    alloc: Global,
    lookup: &'a L,
    bases: &[BaseUnder],
) -> Result<Vec<Known<'a>>, AllocError>
    ensures { IfOk result (λ v. v.items ≡ bases_known (L.relvars lookup.now) bases.now) }
{
    let mut known = Vec::with_capacity(alloc, bases.len())?;
    for base in bases {
        known.push(known_base(lookup, base))?;
    }
    Ok(known)
}

/// The relation, where it is one.
pub(crate) fn relation_of(value: Value) -> Result<Relation, Fault>
    ensures { Answers result (spec.rows_of value) }
{
    match value.kind {
        Kind::Relation(rows) => Ok(Relation::of(rows)),
        _ => Err(Fault::Raised(Stop::Untyped)),
    }
}

/// What base relvars have, and the virtual ones under the expression.
pub(crate) fn environment<'a>(known: &'a [Known<'a>], expression: &'a Expression) -> Environment<'a>
    ensures { (result.relvars.now ≡ known.now) × (result.virtuals.now ≡ expression.now.virtuals) × (result.selectors.now ≡ expression.now.selectors) }
{
    Environment {
        relvars: known,
        virtuals: expression.virtuals.as_slice(),
        selectors: expression.selectors.as_slice(),
    }
}

// The value of a part of the expression over these, with these names in scope, where what all relvars have is found
// first: nothing is wanting then.
fn value_over_all(
    alloc: Global,
    env: &Environment,
    part: &Typed,
    scope: &Bindings,
) -> Result<Value, Fault>
    ensures { Answers result (mean_in env.now part.now (names_bound scope.now)) }
{
    let relvars = all_relvars(alloc, env)?;
    td_meaning::eval(alloc, &those(&relvars, env), &[], part, scope)
}

// The value of a part of the expression where these parts of it are known, if nothing else is wanting.
fn last_value(
    alloc: Global,
    env: &Environment,
    parts: &[HoistedTerm],
    part: &Typed,
    scope: &Bindings,
) -> Result<Value, Fault>
    requires { AreRight env.now parts.now }
    ensures { Answers result (mean_in env.now part.now (names_bound scope.now)) }
{
    match td_meaning::eval::<usize>(alloc, env, parts, part, scope) {
        Ok(value) => Ok(value),
        Err(Fault::Raised(stop)) => Err(Fault::Raised(stop)),
        Err(Fault::OutOfMemory) => Err(Fault::OutOfMemory),
        Err(Fault::Wanting(_)) => value_over_all(alloc, env, part, scope),
    }
}

// The value of a part of the expression, where what it comes to is made known, a virtual relvar a round. Rounds that
// make none known are followed by the evaluation of all.
fn value_over<'a>(
    alloc: Global,
    env: &Environment,
    virtuals: Virtuals<'a>,
    part: &'a Typed,
    scope: &Bindings,
) -> Result<Value, Fault>
    requires { MeanTheirs env.now }
    ensures { Answers result (mean_in env.now part.now (names_bound scope.now)) }
{
    let mut findings = Findings::new(alloc, virtuals.names.len())?;
    settle_first(alloc, env, &mut findings, virtuals, part)?;
    for _ in 0..virtuals.names.len() {
        match td_meaning::eval(alloc, env, &findings.parts, part, scope) {
            Ok(value) => return Ok(value),
            Err(Fault::Raised(stop)) => return Err(Fault::Raised(stop)),
            Err(Fault::OutOfMemory) => return Err(Fault::OutOfMemory),
            Err(Fault::Wanting(place)) => settle(alloc, env, &mut findings, virtuals, place)?,
        }
    }
    last_value(alloc, env, &findings.parts, part, scope)
}

/// The value of a part of the expression over what relvars have, with these names in scope.
pub(crate) fn value_of_part<L: Lookup>(
    alloc: Global,
    expr: &TypedExpr,
    lookup: &L,
    part: &Typed,
    scope: &Bindings,
) -> Result<Value, Fault>
    ensures { Answers result (mean (relvars_at (all_known expr.now (L.relvars lookup.now))) (selection expr.now.selectors) part.now (names_bound scope.now)) }
{
    let expression = expr.get();
    let known = known_bases(alloc, lookup, expression.bases.as_slice())?;
    let names = names_of(alloc, expression.virtuals.as_slice())?;
    let env = environment(&known, expression);
    let virtuals = Virtuals {
        under: expression.virtuals.as_slice(),
        names: &names,
    };
    value_over(alloc, &env, virtuals, part, scope)
}

/// The value of the expression within the tuple, or the error that it raises. Each base relvar that it reads is looked
/// up once and lent, which takes no memory for its tuples. A virtual relvar under it is evaluated once, and only where
/// the expression comes to it; what stands before it in an operand or a branch may be evaluated anew behind it. WHERE
/// of a base relvar by literals for all names of its first key asks the look-up for these tuples alone.
pub fn eval<L: Lookup>(
    alloc: Global,
    expr: &TypedExpr,
    lookup: &L,
    tuple: &Tuple,
) -> Result<Value, Fault>
    ensures { Answers result (means expr.now (L.relvars lookup.now) tuple.now) }
{
    if let Some(value) = value_by_key(alloc, expr.get(), lookup)? {
        return Ok(value);
    }
    let scope = Bindings::Within(tuple, &Bindings::Nothing);
    value_of_part(alloc, expr, lookup, expr.get().tree.get(), &scope)
}
