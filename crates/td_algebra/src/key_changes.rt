//! Changes of lists of tuples that stand in the order of their values at some places.
ghost use Rattle.std.specs.Prelude.{◌≡◌, ◌≤◌, ◌+◌, ◌++◌, length, vec_capacity, OnErr, OnOk};
ghost use Rattle.std.specs.FinSet as set;
ghost use Rattle.std.specs.List.{filter};
ghost use Rattle.std.specs.List.Sorted.{IsPermutation, IsSortedByKey};
ghost use Rattle.td_algebra.specs.ForProofs.Places.{values_at};
ghost use Rattle.td_relations.specs.Sets.{body};
ghost use Rattle.td_values.specs.Order.{attrs_order};

use crate::guides::Guide;
use crate::key_index::put_in;
use crate::keys::compare_places;
use std::alloc::AllocError;
use td_relations::Relation;
use td_values::Tuple;

/// Of so many tuples each is put in by itself: the shifts cost less than a sort.
const FEW: usize = 1024;

// Puts each of the tuples in, in the room that there is.
fn put_each_in(entries: &mut Vec<Tuple>, guide: &mut Guide, places: &[usize], tuples: Vec<Tuple>)
    requires sorted { IsSortedByKey (values_at places.now) attrs_order entries.old.items }
    requires room { length entries.old.items + length tuples.items ≤ vec_capacity entries.old }
    ensures more { IsPermutation (tuples.items ++ entries.old.items) entries.new.items }
    ensures sorted { IsSortedByKey (values_at places.now) attrs_order entries.new.items }
{
    for tuple in tuples {
        let Ok(()) = put_in(entries, guide, places, tuple) else {
            unreachable!()
        };
    }
}

/// Puts the tuples in, in the room that there is. It costs a sort of all.
pub(crate) fn merge_in(entries: &mut Vec<Tuple>, places: &[usize], tuples: Vec<Tuple>)
    requires { length entries.old.items + length tuples.items ≤ vec_capacity entries.old }
    ensures more { IsPermutation (tuples.items ++ entries.old.items) entries.new.items }
    ensures sorted { IsSortedByKey (values_at places.now) attrs_order entries.new.items }
{
    let mut tuples = tuples;
    let Ok(()) = entries.append(&mut tuples) else {
        unreachable!()
    };
    entries.sort_unstable_by(|s, t| compare_places(s, places, t, places));
}

/// Puts the tuples in, all of them or, where memory is wanting, none.
pub(crate) fn put_all_in(
    entries: &mut Vec<Tuple>,
    guide: &mut Guide,
    places: &[usize],
    tuples: Vec<Tuple>,
) -> Result<(), AllocError>
    requires { IsSortedByKey (values_at places.now) attrs_order entries.old.items }
    ensures more { OnOk result (IsPermutation (tuples.items ++ entries.old.items) entries.new.items) }
    ensures sorted { IsSortedByKey (values_at places.now) attrs_order entries.new.items }
    ensures err { OnErr result (entries.new.items ≡ entries.old.items) }
{
    entries.reserve(tuples.len())?;
    if tuples.len() <= FEW {
        put_each_in(entries, guide, places, tuples);
    } else {
        merge_in(entries, places, tuples);
        guide.renew(entries, places);
    }
    Ok(())
}

/// Keeps the tuples that the relation has.
pub(crate) fn retain(entries: &mut Vec<Tuple>, relation: &Relation)
    ensures { entries.new.items ≡ filter (set.contains (body relation.now)) entries.old.items }
{
    entries.retain(|tuple| relation.contains(tuple));
}
