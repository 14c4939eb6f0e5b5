//! Restriction by a condition.
ghost use Rattle.std.specs.Prelude.{◌≡◌, ◌++◌, ◌∷◌, [], Bool, Result, IfOk, OnOk, cond};
ghost use Rattle.std.specs.Fn.{FnReturnsAt, FnOnceTakesAt};
ghost use Rattle.std.specs.List.{All};
ghost use Rattle.td_values.specs.Data.{Attrs};
ghost use Rattle.td_algebra.specs.declared.errors.Stop.{Stop};
ghost use Rattle.td_relations.specs.Sets.{IsRelationOf};
ghost use Rattle.td_algebra.specs.Raising.{Answers, Unless};
ghost use Rattle.td_algebra.specs.Restricting.{Restricted, RaisedIn, select};

use crate::errors::Fault;
use crate::gathered::gather;
use std::alloc::{AllocError, Global};
use td_relations::Relation;
use td_values::{Rows, Tuple};

// Appends a copy of the tuple where it is to be kept.
fn put(kept: &mut Vec<Tuple>, keep: bool, tuple: &Tuple) -> Result<(), AllocError>
    ensures { OnOk result (kept.new.items ≡ kept.old.items ++ cond keep (tuple.now ∷ []) []) }
{
    if keep {
        kept.push(tuple.copy()?)?;
    }
    Ok(())
}

// The tuples at whose places it says so.
pub(crate) fn select_kept(
    alloc: Global,
    tuples: &[Tuple],
    keep: &[bool],
) -> Result<Vec<Tuple>, AllocError>
    ensures { IfOk result (λ v. v.items ≡ select tuples.now keep.now) }
{
    let mut kept = Vec::new(alloc);
    for i in 0..tuples.len().min(keep.len()) {
        put(&mut kept, keep[i], &tuples[i])?;
    }
    Ok(kept)
}

/// The tuples of which the condition is true. It is asked of every tuple once, in ascending order, also after one
/// that raises.
pub fn restrict<W, F: Fn(&Tuple) -> Result<bool, Fault<W>>>(
    alloc: Global,
    relation: &Relation,
    condition: F,
) -> Result<Relation, Fault<W>>
    requires { All (λ t. FnOnceTakesAt F.FnOnce condition t) relation.now.tuples }
    ensures { (m : Attrs → Result Bool Stop) → All (λ t. (a : _) → FnReturnsAt F.Fn condition t a → Answers a (m t)) relation.now.tuples →
        Unless (RaisedIn m relation.now) (IsRelationOf relation.now.heading (Restricted m relation.now)) result }
{
    let keep = match gather(alloc, relation.tuples(), condition) {
        Ok(keep) => keep,
        Err(fault) => return Err(fault),
    };
    let kept = select_kept(alloc, relation.tuples(), &keep)?;
    let heading = relation.heading().copy()?;
    Ok(Relation::of(Rows::new(heading, kept)))
}
