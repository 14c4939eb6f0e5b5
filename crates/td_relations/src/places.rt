//! Ascending lists of tuples: where a tuple stands, and edits there.
ghost use Rattle.std.specs.Prelude.{◌≡◌, ◌+◌, ◌<◌, ◌≤◌, IfOk, IfErr, IfSome, IsOk, IsTrue, OnErr, OnOk, vec_len, vec_capacity, length};
ghost use Rattle.std.specs.FinSet as set;
ghost use Rattle.std.specs.List.{dedup, insert};
ghost use Rattle.std.specs.Ordering.{eq_by_cmp};
ghost use Rattle.std.specs.List.Sorted.{IsStrictlySortedBy};
ghost use Rattle.td_values.specs.Alike.{AreAlike};
ghost use Rattle.td_values.specs.Order.{attrs_order};
ghost use Rattle.td_relations.specs.ForProofs.Places.{AreAbove, AreAboveFrom, AreBelow};
ghost use Rattle.td_relations.specs.Sets.{tuple_set, IsAt, IsGapFor};

use std::alloc::AllocError;
use td_values::{Tuple, compare_values, whole_tuples};

/// These tuples, which have one heading, without those that are equal to the one before. By their values alone.
pub fn without_repeats(tuples: Vec<Tuple>) -> Vec<Tuple>
    requires { AreAlike tuples.items }
    ensures { result.items ≡ dedup (eq_by_cmp attrs_order) tuples.items }
{
    let mut tuples = tuples;
    whole_tuples(&tuples);
    tuples.dedup_by(|s, t| compare_values(s, t).is_eq());
    tuples
}

/// Whether each of these tuples, which have one heading, is below the next, by their values alone.
pub fn are_ascending(tuples: &[Tuple]) -> bool
    requires { AreAlike tuples.now }
    ensures { IsTrue result → IsStrictlySortedBy attrs_order tuples.now }
{
    whole_tuples(tuples);
    tuples.is_sorted_by(|s, t| compare_values(s, t).is_lt())
}

// Whether the tuple is above those before the place.
fn is_above(tuples: &[Tuple], at: usize, tuple: &Tuple) -> bool
    requires at { at ≤ length tuples.now }
    requires ascend { IsStrictlySortedBy attrs_order tuples.now }
    ensures { IsTrue result → AreBelow tuples.now at tuple.now }
{
    if at == 0 {
        return true;
    }
    tuples[at - 1].cmp(tuple).is_lt()
}

// Whether it is below the one at the place, if there is one.
fn is_below_first(tuples: &[Tuple], at: usize, tuple: &Tuple) -> bool
    requires at { at ≤ length tuples.now }
    requires ascend { IsStrictlySortedBy attrs_order tuples.now }
    ensures { IsTrue result → AreAboveFrom tuples.now at tuple.now }
{
    if at == tuples.len() {
        return true;
    }
    tuples[at].cmp(tuple).is_gt()
}

// Whether the tuple is at the place.
fn is_at(tuples: &[Tuple], at: usize, tuple: &Tuple) -> bool
    ensures { IsTrue result → IsAt tuples.now tuple.now at }
{
    if at < tuples.len() {
        tuples[at] == *tuple
    } else {
        false
    }
}

// Whether the tuple would go to the place.
fn is_gap(tuples: &[Tuple], at: usize, tuple: &Tuple) -> bool
    requires { IsStrictlySortedBy attrs_order tuples.now }
    ensures { IsTrue result → IsGapFor tuples.now tuple.now at }
{
    if at <= tuples.len() {
        is_above(tuples, at, tuple) && is_below_first(tuples, at, tuple)
    } else {
        false
    }
}

// Whether the tuple is there, or would go there.
fn is_place(tuples: &[Tuple], tuple: &Tuple, place: Result<usize, usize>) -> bool
    requires { IsStrictlySortedBy attrs_order tuples.now }
    ensures found { IsTrue result → IfOk place (IsAt tuples.now tuple.now) }
    ensures absent { IsTrue result → IfErr place (IsGapFor tuples.now tuple.now) }
{
    match place {
        Ok(at) => is_at(tuples, at, tuple),
        Err(at) => is_gap(tuples, at, tuple),
    }
}

/// Where the tuple is, or where it would go. Its names are compared at the end alone: tuples of one heading are in the
/// order of their values.
pub fn place(tuples: &[Tuple], tuple: &Tuple) -> Result<usize, usize>
    requires { IsStrictlySortedBy attrs_order tuples.now }
    ensures found { IfOk result (IsAt tuples.now tuple.now) }
    ensures absent { IfErr result (IsGapFor tuples.now tuple.now) }
{
    let by_values = tuples.binary_search_by(|t| compare_values(t, tuple));
    if is_place(tuples, tuple, by_values) {
        return by_values;
    }
    tuples.binary_search(tuple)
}

/// Puts the tuple in at a place. `Vec::insert` does the same by a loop, where a rotation moves memory at once.
pub fn insert_at(tuples: &mut Vec<Tuple>, at: usize, tuple: Tuple) -> Result<(), AllocError>
    requires { at ≤ length tuples.old.items }
    ensures items { OnOk result (tuples.new.items ≡ insert tuples.old.items at tuple) }
    ensures err { OnErr result (tuples.new.items ≡ tuples.old.items) }
    ensures succeeds { vec_len tuples.old < vec_capacity tuples.old → IsOk result }
    ensures capacity { vec_capacity tuples.old ≤ vec_capacity tuples.new }
{
    tuples.push(tuple)?;
    tuples[at..].rotate_right(1);
    Ok(())
}

/// Takes the tuple out, if it is there.
pub fn take_out(tuples: &mut Vec<Tuple>, tuple: &Tuple)
    requires { IsStrictlySortedBy attrs_order tuples.old.items }
    ensures ascending { IsStrictlySortedBy attrs_order tuples.new.items }
    ensures members { tuple_set tuples.new.items ≡ set.remove (tuple_set tuples.old.items) tuple.now }
    ensures len { vec_len tuples.new ≤ vec_len tuples.old }
    ensures capacity { vec_capacity tuples.new ≡ vec_capacity tuples.old }
{
    match place(tuples, tuple) {
        Ok(at) => drop(tuples.remove(at)),
        Err(_) => {}
    }
}

/// Takes these tuples out.
pub fn take_out_all(tuples: &mut Vec<Tuple>, deleted: &[Tuple])
    requires { IsStrictlySortedBy attrs_order tuples.old.items }
    ensures ascending { IsStrictlySortedBy attrs_order tuples.new.items }
    ensures members { tuple_set tuples.new.items ≡ set.difference (tuple_set tuples.old.items) (tuple_set deleted.now) }
    ensures len { vec_len tuples.new ≤ vec_len tuples.old }
    ensures capacity { vec_capacity tuples.new ≡ vec_capacity tuples.old }
{
    for tuple in deleted {
        take_out(tuples, tuple);
    }
}

/// Puts the tuple in at its place, for which there is room. It takes no memory.
pub fn put_in(tuples: &mut Vec<Tuple>, tuple: Tuple)
    requires room { vec_len tuples.old < vec_capacity tuples.old }
    requires ascends { IsStrictlySortedBy attrs_order tuples.old.items }
    ensures ascending { IsStrictlySortedBy attrs_order tuples.new.items }
    ensures members { tuple_set tuples.new.items ≡ set.insert (tuple_set tuples.old.items) tuple }
    ensures len { vec_len tuples.new ≤ vec_len tuples.old + 1 }
    ensures capacity { vec_capacity tuples.old ≤ vec_capacity tuples.new }
{
    match place(tuples, &tuple) {
        Ok(_) => drop(tuple),
        Err(at) => {
            let Ok(()) = insert_at(tuples, at, tuple) else {
                unreachable!()
            };
        }
    }
}

/// Puts these tuples in, for which there is room. It takes no memory.
pub fn put_in_all(tuples: &mut Vec<Tuple>, inserted: Vec<Tuple>)
    requires room { vec_len tuples.old + vec_len inserted ≤ vec_capacity tuples.old }
    requires ascends { IsStrictlySortedBy attrs_order tuples.old.items }
    ensures ascending { IsStrictlySortedBy attrs_order tuples.new.items }
    ensures members { tuple_set tuples.new.items ≡ set.union (tuple_set tuples.old.items) (tuple_set inserted.items) }
{
    for tuple in inserted {
        put_in(tuples, tuple);
    }
}

// Whether it is below those behind it.
fn is_below(tuples: &[Tuple], at: usize, tuple: &Tuple) -> bool
    requires at { at < length tuples.now }
    requires ascend { IsStrictlySortedBy attrs_order tuples.now }
    ensures { IsTrue result → AreAbove tuples.now at tuple.now }
{
    if at + 1 == tuples.len() {
        return true;
    }
    tuples[at + 1].cmp(tuple).is_gt()
}

// Where the first tuple is, if the tuples still ascend with the second one there.
fn replaceable_place(tuples: &[Tuple], gone: &Tuple, more: &Tuple) -> Option<usize>
    requires { IsStrictlySortedBy attrs_order tuples.now }
    ensures is { IfSome result (IsAt tuples.now gone.now) }
    ensures below { IfSome result (λ at. AreBelow tuples.now at more.now) }
    ensures above { IfSome result (λ at. AreAbove tuples.now at more.now) }
{
    let at = place(tuples, gone).ok()?;
    if is_above(tuples, at, more) && is_below(tuples, at, more) {
        Some(at)
    } else {
        None
    }
}

/// Takes the first tuple out, if it is there, and puts the second one in, for which there is room. It takes no memory,
/// and shifts nothing where the second one goes where the first one stood.
pub fn exchange_one(tuples: &mut Vec<Tuple>, gone: &Tuple, more: Tuple)
    requires room { vec_len tuples.old < vec_capacity tuples.old }
    requires ascends { IsStrictlySortedBy attrs_order tuples.old.items }
    ensures ascending { IsStrictlySortedBy attrs_order tuples.new.items }
    ensures members { tuple_set tuples.new.items ≡ set.insert (set.remove (tuple_set tuples.old.items) gone.now) more }
{
    match replaceable_place(tuples, gone, &more) {
        Some(at) => tuples[at] = more,
        None => {
            take_out(tuples, gone);
            put_in(tuples, more);
        }
    }
}

/// Takes the first tuples out and puts the second ones in, for which there is room. It takes no memory.
pub fn exchange_few(tuples: &mut Vec<Tuple>, deleted: &[Tuple], inserted: Vec<Tuple>)
    requires room { vec_len tuples.old + vec_len inserted ≤ vec_capacity tuples.old }
    requires ascends { IsStrictlySortedBy attrs_order tuples.old.items }
    ensures ascending { IsStrictlySortedBy attrs_order tuples.new.items }
    ensures members { tuple_set tuples.new.items ≡ set.union (set.difference (tuple_set tuples.old.items) (tuple_set deleted.now)) (tuple_set inserted.items) }
{
    let mut inserted = inserted;
    if deleted.len() == 1 && inserted.len() == 1 {
        if let Some(more) = inserted.pop() {
            exchange_one(tuples, &deleted[0], more);
        }
    } else {
        take_out_all(tuples, deleted);
        put_in_all(tuples, inserted);
    }
}
