//! Union, intersection and difference of relations, each by one walk along both lists of tuples, or by a search for
//! each tuple of a list that is short beside the other.
ghost use Rattle.std.specs.Prelude.{◌≡◌, ◌↔◌, true, not, ◌++◌, ◌∷◌, [], IsTrue, IfOk, OnOk, if◌then◌else◌};
ghost use Rattle.std.specs.FinSet as set;
ghost use Rattle.std.specs.List.{All, filter, list_all};
ghost use Rattle.std.specs.List.Sorted.{IsStrictlySortedBy};
ghost use Rattle.td_values.specs.Order.{attrs_order};
ghost use Rattle.td_values.specs.Whole.{heading_of};
ghost use Rattle.td_relations.specs.Sets.{body, IsRelation, IsRelationOf};
ghost use Rattle.td_values.specs.Rows.{AreRows};
ghost use Rattle.td_relations.specs.Merges.{first_alone, is_kept, IsMerge, second_alone};

use crate::Relation;
use std::alloc::{AllocError, Global};
use std::cmp::Ordering;
use td_values::{Tuple, compare_alike};

/// A search for each tuple of a list costs less than a walk along both where it has at most this part of the other.
const FEW: usize = 16;

// Which tuples a walk along two lists keeps: those of the first alone, of both, of the second alone.
#[derive(Clone, Copy)]
struct Kept {
    first: bool,
    both: bool,
    second: bool,
}

// Puts the tuple at the end where it is kept. The tuple is shared.
fn put(out: &mut Vec<Tuple>, kept: bool, tuple: &Tuple) -> Result<(), AllocError>
    ensures { OnOk result (out.new.items ≡ (if kept then out.old.items ++ tuple.now ∷ [] else out.old.items)) }
{
    if kept {
        out.push(tuple.copy()?)?;
    }
    Ok(())
}

// Puts the tuples at the end where they are kept.
fn put_all(out: &mut Vec<Tuple>, kept: bool, tuples: &[Tuple]) -> Result<(), AllocError>
    ensures { OnOk result (out.new.items ≡ out.old.items ++ (if kept then tuples.now else [])) }
{
    if kept {
        append(out, tuples)?;
    }
    Ok(())
}

// Appends copies of the tuples, in their order.
fn append(out: &mut Vec<Tuple>, tuples: &[Tuple]) -> Result<(), AllocError>
    ensures { OnOk result (out.new.items ≡ out.old.items ++ tuples.now) }
{
    for tuple in tuples {
        out.push(tuple.copy()?)?;
    }
    Ok(())
}

// How many tuples may be kept of the lists.
fn room_for_merge(xs: &[Tuple], ys: &[Tuple], kept: Kept) -> usize {
    match (kept.first, kept.second) {
        (true, true) => xs.len() + ys.len(),
        (true, false) => xs.len(),
        (false, true) => ys.len(),
        (false, false) => xs.len().min(ys.len()),
    }
}

// The tuples that are kept of two ascending lists of one heading, ascending.
fn merge(alloc: Global, xs: &[Tuple], ys: &[Tuple], kept: Kept) -> Result<Vec<Tuple>, AllocError>
    requires alike { All (λ t. All (λ u. heading_of t ≡ heading_of u) ys.now) xs.now }
    requires xs_ascend { IsStrictlySortedBy attrs_order xs.now }
    requires ys_ascend { IsStrictlySortedBy attrs_order ys.now }
    ensures { IfOk result (λ v. IsMerge kept xs.now ys.now v.items) }
{
    let mut out = Vec::with_capacity(alloc, room_for_merge(xs, ys, kept))?;
    let mut i = 0;
    let mut j = 0;
    while i < xs.len() && j < ys.len() {
        match compare_alike(&xs[i], &ys[j]) {
            Ordering::Less => {
                put(&mut out, kept.first, &xs[i])?;
                i += 1;
            }
            Ordering::Equal => {
                put(&mut out, kept.both, &xs[i])?;
                i += 1;
                j += 1;
            }
            Ordering::Greater => {
                put(&mut out, kept.second, &ys[j])?;
                j += 1;
            }
        }
    }
    put_all(&mut out, kept.first, &xs[i..])?;
    put_all(&mut out, kept.second, &ys[j..])?;
    Ok(out)
}

// The tuples that the first of two ascending lists of one heading has alone, ascending, and those that the second has
// alone.
fn split_differences(
    alloc: Global,
    xs: &[Tuple],
    ys: &[Tuple],
) -> Result<(Vec<Tuple>, Vec<Tuple>), AllocError>
    requires alike { All (λ t. All (λ u. heading_of t ≡ heading_of u) ys.now) xs.now }
    requires xs_ascend { IsStrictlySortedBy attrs_order xs.now }
    requires ys_ascend { IsStrictlySortedBy attrs_order ys.now }
    ensures { IfOk result (λ v. IsMerge first_alone xs.now ys.now v.0.items × IsMerge second_alone xs.now ys.now v.1.items) }
{
    // They mostly differ in few tuples, so no room is taken ahead.
    let mut firsts = Vec::new(alloc);
    let mut seconds = Vec::new(alloc);
    let mut i = 0;
    let mut j = 0;
    while i < xs.len() && j < ys.len() {
        match compare_alike(&xs[i], &ys[j]) {
            Ordering::Less => {
                firsts.push(xs[i].copy()?)?;
                i += 1;
            }
            Ordering::Equal => {
                i += 1;
                j += 1;
            }
            Ordering::Greater => {
                seconds.push(ys[j].copy()?)?;
                j += 1;
            }
        }
    }
    append(&mut firsts, &xs[i..])?;
    append(&mut seconds, &ys[j..])?;
    Ok((firsts, seconds))
}

// These tuples under the heading of the relation.
fn with_tuples(relation: &Relation, tuples: Vec<Tuple>) -> Result<Relation, AllocError>
    requires { AreRows relation.now.heading tuples.items }
    ensures { IfOk result (λ r. r ≡ record { heading = relation.now.heading; tuples = tuples.items }) }
{
    Ok(Relation {
        heading: relation.heading().copy()?,
        tuples,
    })
}

// The tuples that the first relation has alone, and those that the second has alone, shared. It costs as `union`, and
// takes memory for what it answers.
pub(crate) fn differences(
    alloc: Global,
    a: &Relation,
    b: &Relation,
) -> Result<(Relation, Relation), AllocError>
    requires { a.now.heading ≡ b.now.heading }
    ensures { IfOk result (λ v. IsRelation a.now.heading (set.difference (body a.now) (body b.now)) v.0 × IsRelation a.now.heading (set.difference (body b.now) (body a.now)) v.1) }
{
    let (firsts, seconds) = split_differences(alloc, a.tuples(), b.tuples())?;
    Ok((with_tuples(a, firsts)?, with_tuples(a, seconds)?))
}

// The relation of the tuples that are kept.
fn combine(alloc: Global, a: &Relation, b: &Relation, kept: Kept) -> Result<Relation, AllocError>
    requires { a.now.heading ≡ b.now.heading }
    ensures { IfOk result (IsRelationOf a.now.heading (λ t. is_kept kept (set.contains (body a.now) t) (set.contains (body b.now) t) ≡ true)) }
{
    let tuples = merge(alloc, a.tuples(), b.tuples(), kept)?;
    with_tuples(a, tuples)
}

// The tuples of the first relation that the second lacks, by a search for each.
fn lacking_tuples(alloc: Global, a: &Relation, b: &Relation) -> Result<Vec<Tuple>, AllocError>
    ensures { IfOk result (λ v. v.items ≡ filter (λ t. not (set.contains (body b.now) t)) a.now.tuples) }
{
    let mut kept = Vec::new(alloc);
    for tuple in a.tuples() {
        if !b.contains(tuple) {
            kept.push(tuple.copy()?)?;
        }
    }
    Ok(kept)
}

// The relation of these tuples.
fn minus_by_searches(alloc: Global, a: &Relation, b: &Relation) -> Result<Relation, AllocError>
    requires { a.now.heading ≡ b.now.heading }
    ensures { IfOk result (IsRelationOf a.now.heading (λ t. is_kept first_alone (set.contains (body a.now) t) (set.contains (body b.now) t) ≡ true)) }
{
    a.rows_fit();
    b.rows_fit();
    let tuples = lacking_tuples(alloc, a, b)?;
    with_tuples(a, tuples)
}

/// The tuples of either relation, shared. For lists of n and m tuples it costs n + m.
pub fn union(alloc: Global, a: &Relation, b: &Relation) -> Result<Relation, AllocError>
    requires { a.now.heading ≡ b.now.heading }
    ensures { IfOk result (IsRelation a.now.heading (set.union (body a.now) (body b.now))) }
{
    let kept = Kept {
        first: true,
        both: true,
        second: true,
    };
    combine(alloc, a, b, kept)
}

/// The tuples of both relations, shared. It costs as `union`.
pub fn intersect(alloc: Global, a: &Relation, b: &Relation) -> Result<Relation, AllocError>
    requires { a.now.heading ≡ b.now.heading }
    ensures { IfOk result (IsRelation a.now.heading (set.intersection (body a.now) (body b.now))) }
{
    let kept = Kept {
        first: false,
        both: true,
        second: false,
    };
    combine(alloc, a, b, kept)
}

/// The tuples of the first relation that the second lacks, shared. It costs as `union`, or, where the first list is
/// short beside the second, a search for each of its tuples.
pub fn minus(alloc: Global, a: &Relation, b: &Relation) -> Result<Relation, AllocError>
    requires { a.now.heading ≡ b.now.heading }
    ensures { IfOk result (IsRelation a.now.heading (set.difference (body a.now) (body b.now))) }
{
    if a.len() <= b.len() / FEW {
        return minus_by_searches(alloc, a, b);
    }
    let kept = Kept {
        first: true,
        both: false,
        second: false,
    };
    combine(alloc, a, b, kept)
}

// Whether the relation has each of the tuples.
fn has_all(relation: &Relation, tuples: &[Tuple]) -> bool
    ensures { result ≡ list_all (set.contains (body relation.now)) tuples.now }
{
    tuples.iter().all(|tuple| relation.contains(tuple))
}

/// Whether each tuple of the first relation is in the second. It takes no memory. For lists of n and m tuples it costs
/// of the order of n log m comparisons.
pub fn is_subset(a: &Relation, b: &Relation) -> bool
    ensures { IsTrue result ↔ (set.is_subset (body a.now) (body b.now) ≡ true) }
{
    has_all(b, a.tuples())
}
