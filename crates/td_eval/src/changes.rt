//! What an expression changes of a relvar.

ghost use Rattle.std.specs.Prelude.{◌≡◌, Bool, true, IfOk, Ok, Result, slice_get};
ghost use Rattle.td_values.specs.Data.{Attrs, no_attrs};
ghost use Rattle.td_values.specs.Rows.{RowsData};
ghost use Rattle.td_algebra.specs.Functions.{minus_of, restricted, union_of};
ghost use Rattle.td_algebra.specs.Raising.{and_then};
ghost use Rattle.td_algebra.specs.declared.errors.Stop.{Stop};
ghost use Rattle.td_headings.specs.Reached.{is_base};
ghost use Rattle.td_meaning.specs.Mean.{mean};
ghost use Rattle.td_meaning.specs.Parts.{AreRight};
ghost use Rattle.td_meaning.specs.Seen.{mean_in, relvars_at};
ghost use Rattle.td_meaning.specs.Selections.{selection};
ghost use Rattle.td_operators.specs.Values as spec;
ghost use Rattle.td_semantics.specs.Trees.{AreBases, IsIn, tree_means};
ghost use Rattle.td_relations.specs.Deltas.{IsDifference};
ghost use Rattle.td_eval.specs.Changed.{TellsChanged};
ghost use Rattle.td_eval.specs.ForProofs.Environments.{MeanTheirs, all_known};
ghost use Rattle.td_eval.specs.declared.forms.Form.TheVariants.{Changed};
ghost use Rattle.td_eval.specs.ForProofs.Forms.{TellsForm, form_means};

use crate::evaluation::{environment, known_bases, lease_of};
use crate::forms::{Change, Form, form_of};
use crate::lookup::Lookup;
use crate::naming::lacking_tuples;
use crate::relvars::{all_relvars, those};
use crate::settling::{Findings, Virtuals, names_of, settle};
use crate::valued::raise_of;
use std::alloc::{AllocError, Global};
use td_algebra::{Fault, Stop};
use td_headings::{Catalogue, TypedExpr};
use td_meaning::{Bindings, Environment, HoistedTerm, Wanted, extend_all, select};
use td_operators::Lease;
use td_relations::{Delta, Relation, minus};
use td_semantics::Failure;

// The change that takes these tuples of the relation out.
fn deletion_of(alloc: Global, relation: &Relation, gone: Relation) -> Result<Delta, AllocError>
    requires { (m : Attrs → Result Bool Stop) × (restricted m relation.now ≡ Ok gone) }
    ensures { IfOk result (IsDifference relation.now (minus_of relation.now gone)) }
{
    let nothing = Relation::empty(alloc, relation.heading().copy()?);
    Ok(Delta::of(nothing, gone))
}

// The change of the relation that puts the second ones in place of the first.
fn replacement_of(
    alloc: Global,
    tuples: &Lease<'_>,
    gone: &Relation,
    more: &Relation,
) -> Result<Delta, AllocError>
    requires gone { (m : Attrs → Result Bool Stop) × (restricted m tuples.now ≡ Ok gone.now) }
    requires heading { more.now.heading ≡ tuples.now.heading }
    ensures { IfOk result (IsDifference tuples.now (union_of (minus_of tuples.now gone.now) more.now)) }
{
    let inserted = lacking_tuples(alloc, more, tuples.get(), tuples.indexes())?;
    let deleted = minus(alloc, gone, more)?;
    Ok(Delta::of(inserted, deleted))
}

// The change that puts these tuples, as the UPDATE changes them, in their place.
fn update<W: Wanted>(
    alloc: Global,
    env: &Environment,
    parts: &[HoistedTerm],
    tuples: &Lease<'_>,
    change: &Change,
) -> Result<Delta, Fault<W>>
    requires right { AreRight env.now parts.now }
    requires allowed { W.allows env.now.virtuals.now ≡ true }
    ensures { TellsForm tuples.now (form_means (mean_in env.now) tuples.now (Changed change.now)) result }
{
    let gone = select(
        alloc,
        env,
        parts,
        tuples,
        change.condition,
        &Bindings::Nothing,
    )?;
    let more = extend_all(alloc, env, parts, &gone, change.items, &Bindings::Nothing)?;
    if !more.same_heading(tuples.get()) {
        return Err(Fault::Raised(Stop::Untyped));
    }
    Ok(replacement_of(alloc, tuples, &gone, &more)?)
}

// The change that makes what an expression of this form means of the relation.
fn exchange<W: Wanted>(
    alloc: Global,
    env: &Environment,
    parts: &[HoistedTerm],
    tuples: &Lease<'_>,
    form: &Form,
) -> Result<Delta, Fault<W>>
    requires right { AreRight env.now parts.now }
    requires allowed { W.allows env.now.virtuals.now ≡ true }
    ensures { TellsForm tuples.now (form_means (mean_in env.now) tuples.now form.now) result }
{
    match form {
        Form::Less(condition) => {
            let gone = select(alloc, env, parts, tuples, condition, &Bindings::Nothing)?;
            Ok(deletion_of(alloc, tuples.get(), gone)?)
        }
        Form::Changed(change) => update(alloc, env, parts, tuples, change),
    }
}

// The change that makes what an expression of this form means of the relation, where what all relvars have is found
// first: nothing is wanting then.
fn exchange_over_all(
    alloc: Global,
    env: &Environment,
    tuples: &Lease<'_>,
    form: &Form,
) -> Result<Delta, Fault>
    ensures { TellsForm tuples.now (form_means (mean_in env.now) tuples.now form.now) result }
{
    let relvars = all_relvars(alloc, env)?;
    exchange(alloc, &those(&relvars, env), &[], tuples, form)
}

// The change that makes what an expression of this form means of the relation, where these parts are known, if nothing
// else is wanting.
fn last_exchange(
    alloc: Global,
    env: &Environment,
    parts: &[HoistedTerm],
    tuples: &Lease<'_>,
    form: &Form,
) -> Result<Delta, Fault>
    requires { AreRight env.now parts.now }
    ensures { TellsForm tuples.now (form_means (mean_in env.now) tuples.now form.now) result }
{
    match exchange::<usize>(alloc, env, parts, tuples, form) {
        Ok(delta) => Ok(delta),
        Err(Fault::Raised(stop)) => Err(Fault::Raised(stop)),
        Err(Fault::OutOfMemory) => Err(Fault::OutOfMemory),
        Err(Fault::Wanting(_)) => exchange_over_all(alloc, env, tuples, form),
    }
}

// The change that makes what an expression of this form means of the relation over what relvars have, of which the
// virtual ones are found where the condition or an item comes to them.
fn exchange_over(
    alloc: Global,
    env: &Environment,
    virtuals: Virtuals<'_>,
    tuples: &Lease<'_>,
    form: &Form,
) -> Result<Delta, Fault>
    requires { MeanTheirs env.now }
    ensures { TellsForm tuples.now (form_means (mean_in env.now) tuples.now form.now) result }
{
    let mut findings = Findings::new(alloc, virtuals.names.len())?;
    for _ in 0..virtuals.names.len() {
        match exchange(alloc, env, &findings.parts, tuples, form) {
            Ok(delta) => return Ok(delta),
            Err(Fault::Raised(stop)) => return Err(Fault::Raised(stop)),
            Err(Fault::OutOfMemory) => return Err(Fault::OutOfMemory),
            Err(Fault::Wanting(place)) => settle(alloc, env, &mut findings, virtuals, place)?,
        }
    }
    last_exchange(alloc, env, &findings.parts, tuples, form)
}

// The change that makes what an expression of this form, a part of this one, means of the relation.
fn change_by_part<L: Lookup>(
    alloc: Global,
    expr: &TypedExpr,
    lookup: &L,
    tuples: &Lease<'_>,
    form: &Form,
) -> Result<Delta, Fault>
    ensures { TellsForm tuples.now (form_means (mean (relvars_at (all_known expr.now (L.relvars lookup.now))) (selection expr.now.selectors)) tuples.now form.now) result }
{
    let expression = expr.get();
    let known = known_bases(alloc, lookup, expression.bases.as_slice())?;
    let names = names_of(alloc, expression.virtuals.as_slice())?;
    let env = environment(&known, expression);
    let virtuals = Virtuals {
        under: expression.virtuals.as_slice(),
        names: &names,
    };
    exchange_over(alloc, &env, virtuals, tuples, form)
}

/// What an expression of the catalogue changes of the base relvar at the place, where it is that relvar without the
/// tuples of which a condition is true, or that united with these tuples changed: the exact change. The condition is
/// asked of each tuple once, or of those alone that it finds by a key, and the items are evaluated at those that it
/// selects. None where the expression has another form.
pub fn changed<L: Lookup>(
    alloc: Global,
    catalogue: &Catalogue,
    expr: &TypedExpr,
    lookup: &L,
    relvar: usize,
) -> Result<Option<Delta>, Failure>
    requires expr { IsIn catalogue.now expr.now }
    requires bases { AreBases catalogue.now (L.relvars lookup.now) }
    requires base { is_base (slice_get catalogue.now.origins relvar) ≡ true }
    requires relation { (r : RowsData) × (L.relvars lookup.now relvar ≡ Ok r) }
    ensures { TellsChanged (L.relvars lookup.now relvar) (and_then (tree_means catalogue.now (L.relvars lookup.now) expr.now.tree no_attrs) spec.rows_of) result }
{
    catalogue.was_defined();
    let Some(form) = form_of(expr.get().tree.get(), relvar) else {
        return Ok(None);
    };
    let Ok(tuples) = lease_of(lookup, relvar) else {
        return Ok(None);
    };
    match change_by_part(alloc, expr, lookup, &tuples, &form) {
        Ok(delta) => Ok(Some(delta)),
        Err(Fault::Raised(stop)) => Err(Failure::Raised(raise_of(stop))),
        Err(Fault::OutOfMemory) => Err(Failure::OutOfMemory),
    }
}
