//! A relation's tuples by its keys: by the first one always, and by the others where that pays.

ghost use Rattle.std.specs.Prelude.{◌≡◌, false, ◌<◌, length, IfOk, IfSome, OnErr, OnOk};
ghost use Rattle.std.specs.List.{All};
ghost use Rattle.std.specs.FinSet as set;
ghost use Rattle.td_algebra.specs.KeyIndexes.{IsReplaceable};
ghost use Rattle.td_relations.specs.Sets.{Has, body};
ghost use Rattle.td_tuples.specs.Parts.{Fits};
ghost use Rattle.td_bases.specs.ForProofs.Keyed.{AreFresh, IsBeyond, IsIndexOf, IsReplaced, Tells, first_key, keys_of, with_more};

use sqlite_items::Items;
use std::alloc::{AllocError, Global};
use td_algebra::KeyIndex;
use td_relations::{Relation, minus};
use td_values::{Name, Tuple};

/// After so many changes of which none was large, an index by each other key is worth a sort.
const AWAITED: usize = 15;

/// So many changed tuples are many, however large the relation is.
const MANY: usize = 512;

/// A change of more than this part of the relation is large.
const SHARE: usize = 16;

// The tuples that the relation lacks.
fn fresh_tuples(
    alloc: Global,
    inserted: &Relation,
    relation: &Relation,
) -> Result<Vec<Tuple>, AllocError>
    requires { inserted.now.heading ≡ relation.now.heading }
    ensures { IfOk result (λ v. AreFresh relation.now inserted.now v.items) }
{
    let (_, tuples) = minus(alloc, inserted, relation)?.into_rows().into_parts();
    Ok(tuples)
}

// Where the index has the first tuple, if the relation lacks the second one and that has its part at the key.
fn place_for(index: &KeyIndex, relation: &Relation, gone: &Tuple, more: &Tuple) -> Option<usize>
    requires of { IsIndexOf relation.now index.now }
    requires fits { Fits index.now.heading more.now }
    ensures place { IfSome result (IsReplaceable gone.now more.now index.now) }
    ensures fresh { IfSome result (λ _. set.contains (body relation.now) more.now ≡ false) }
{
    relation.rows_fit();
    index.replaceable_place(gone, more)
}

/// Where the one index has the one tuple that is taken out, if the one that is put in is new and may stand there.
pub(crate) fn replaced_place(
    indexes: &[KeyIndex],
    relation: &Relation,
    deleted: &Relation,
    inserted: &Relation,
) -> Option<usize>
    requires heading { inserted.now.heading ≡ relation.now.heading }
    requires of { All (IsIndexOf relation.now) indexes.now }
    ensures { IfSome result (IsReplaced relation.now indexes.now deleted.now inserted.now) }
{
    inserted.rows_fit();
    if indexes.len() == 1 && deleted.tuples().len() == 1 && inserted.tuples().len() == 1 {
        place_for(
            &indexes[0],
            relation,
            &deleted.tuples()[0],
            &inserted.tuples()[0],
        )
    } else {
        None
    }
}

// Puts the one tuple in that there is, where the relation lacks it.
fn gain_one(
    index: &mut KeyIndex,
    relation: &Relation,
    inserted: &Relation,
) -> Result<(), AllocError>
    requires heading { inserted.now.heading ≡ relation.now.heading }
    requires one { length inserted.now.tuples ≡ 1 }
    requires of { IsIndexOf relation.now index.old }
    ensures ok { OnOk result (IsIndexOf (with_more relation.now inserted.now) index.new) }
    ensures err { OnErr result (index.new ≡ index.old) }
    ensures key { index.new.key ≡ index.old.key }
{
    relation.rows_fit();
    inserted.rows_fit();
    index.insert_absent(&inserted.tuples()[0])
}

// Puts in what the relation lacks of these tuples.
fn gain(
    alloc: Global,
    index: &mut KeyIndex,
    relation: &Relation,
    inserted: &Relation,
) -> Result<(), AllocError>
    requires heading { inserted.now.heading ≡ relation.now.heading }
    requires of { IsIndexOf relation.now index.old }
    ensures ok { OnOk result (IsIndexOf (with_more relation.now inserted.now) index.new) }
    ensures err { OnErr result (index.new ≡ index.old) }
    ensures key { index.new.key ≡ index.old.key }
{
    relation.rows_fit();
    match inserted.tuples().len() {
        0 => Ok(()),
        1 => gain_one(index, relation, inserted),
        _ => index.insert_all(fresh_tuples(alloc, inserted, relation)?),
    }
}

/// Puts into each index what the relation lacks of these tuples, before they are put into the relation. Where memory is
/// wanting, `settle_each` takes out what was put in.
pub(crate) fn gain_each(
    alloc: Global,
    indexes: &mut Vec<KeyIndex>,
    relation: &Relation,
    inserted: &Relation,
) -> Result<(), AllocError>
    requires heading { inserted.now.heading ≡ relation.now.heading }
    requires of { All (IsIndexOf relation.now) indexes.old.items }
    ensures ok { OnOk result (All (IsIndexOf (with_more relation.now inserted.now)) indexes.new.items) }
    ensures err { OnErr result (All (IsBeyond relation.now (Has inserted.now)) indexes.new.items) }
    ensures keys { keys_of indexes.new.items ≡ keys_of indexes.old.items }
{
    relation.rows_fit();
    for at in 0..indexes.len() {
        gain(alloc, &mut indexes[at], relation, inserted)?;
    }
    Ok(())
}

// Takes each of these tuples out that the relation lacks, as a smaller one that stays tells.
fn lose(index: &mut KeyIndex, relation: &Relation, gone: &Relation, stays: &Relation)
    requires beyond { IsBeyond relation.now (Has gone.now) index.old }
    requires stays { Tells stays.now relation.now gone.now }
    ensures of { IsIndexOf relation.now index.new }
    ensures key { index.new.key ≡ index.old.key }
{
    relation.rows_fit();
    for tuple in gone.tuples() {
        if !stays.contains(tuple) {
            index.remove(tuple);
        }
    }
}

// Takes out what the relation lacks, some of these tuples. It takes no memory. Few cost a search and a shift each, many
// a search of the relation for each tuple of the index.
fn settle(index: &mut KeyIndex, relation: &Relation, gone: &Relation, stays: &Relation)
    requires beyond { IsBeyond relation.now (Has gone.now) index.old }
    requires stays { Tells stays.now relation.now gone.now }
    ensures of { IsIndexOf relation.now index.new }
    ensures key { index.new.key ≡ index.old.key }
{
    relation.rows_fit();
    if gone.len() <= MANY {
        lose(index, relation, gone, stays);
    } else {
        index.retain_those_of(relation);
    }
}

/// Takes out of each index what the relation lacks, some of these tuples; which of them stay a relation tells that is
/// cheap to search. It takes no memory.
pub(crate) fn settle_each(
    indexes: &mut Vec<KeyIndex>,
    relation: &Relation,
    gone: &Relation,
    stays: &Relation,
)
    requires beyond { All (IsBeyond relation.now (Has gone.now)) indexes.old.items }
    requires stays { Tells stays.now relation.now gone.now }
    ensures of { All (IsIndexOf relation.now) indexes.new.items }
    ensures keys { keys_of indexes.new.items ≡ keys_of indexes.old.items }
{
    for at in 0..indexes.len() {
        settle(&mut indexes[at], relation, gone, stays);
    }
}

// Whether a change of so many tuples leaves a relation of this size of which little is as it was.
fn is_large(changed: usize, size: usize) -> bool {
    changed > MANY || changed > size / SHARE
}

/// Before a large change, the first index alone is kept: the others would cost a sort each.
pub(crate) fn keep_first(
    indexes: &mut Vec<KeyIndex>,
    awaited: &mut usize,
    changed: usize,
    relation: &Relation,
)
    requires some { 0 < length indexes.old.items }
    requires of { All (IsIndexOf relation.now) indexes.old.items }
    ensures some { 0 < length indexes.new.items }
    ensures of { All (IsIndexOf relation.now) indexes.new.items }
    ensures first { first_key indexes.new.items ≡ first_key indexes.old.items }
{
    if is_large(changed, relation.len()) {
        indexes.truncate(1);
        *awaited = 0;
    }
}

// Keeps the relation's tuples by each of these keys too.
fn add_each(
    alloc: Global,
    indexes: &mut Vec<KeyIndex>,
    relation: &Relation,
    keys: &[Items<Name>],
) -> Result<(), AllocError>
    requires some { 0 < length indexes.old.items }
    requires of { All (IsIndexOf relation.now) indexes.old.items }
    ensures some { 0 < length indexes.new.items }
    ensures of { All (IsIndexOf relation.now) indexes.new.items }
    ensures first { first_key indexes.new.items ≡ first_key indexes.old.items }
{
    for key in keys {
        indexes.push(KeyIndex::new(alloc, relation, key.as_slice())?)?;
    }
    Ok(())
}

/// Counts a change or a read, and at the last one that is awaited makes an index by each of these other keys. Where
/// memory is wanting, none is kept and the count begins anew.
pub(crate) fn count(
    alloc: Global,
    indexes: &mut Vec<KeyIndex>,
    awaited: &mut usize,
    relation: &Relation,
    others: &[Items<Name>],
)
    requires some { 0 < length indexes.old.items }
    requires of { All (IsIndexOf relation.now) indexes.old.items }
    ensures some { 0 < length indexes.new.items }
    ensures of { All (IsIndexOf relation.now) indexes.new.items }
    ensures first { first_key indexes.new.items ≡ first_key indexes.old.items }
{
    if others.is_empty() || indexes.len() > 1 {
        return;
    }
    if *awaited < AWAITED {
        *awaited += 1;
        return;
    }
    *awaited = 0;
    if add_each(alloc, indexes, relation, others).is_err() {
        indexes.truncate(1);
    }
}

/// An index by the key alone.
pub(crate) fn by_first(
    alloc: Global,
    relation: &Relation,
    key: &[Name],
) -> Result<Vec<KeyIndex>, AllocError>
    ensures some { IfOk result (λ v. 0 < length v.items) }
    ensures of { IfOk result (λ v. All (IsIndexOf relation.now) v.items) }
    ensures first { IfOk result (λ v. first_key v.items ≡ key.now) }
{
    let mut indexes = Vec::with_capacity(alloc, 1)?;
    indexes.push(KeyIndex::new(alloc, relation, key)?)?;
    Ok(indexes)
}

/// The indexes, whose tuples are shared. A copy of n tuples by a key takes two lists of n and n counts.
pub(crate) fn copy_each(alloc: Global, indexes: &[KeyIndex]) -> Result<Vec<KeyIndex>, AllocError>
    ensures { IfOk result (λ v. v.items ≡ indexes.now) }
{
    let mut copies = Vec::with_capacity(alloc, indexes.len())?;
    for index in indexes {
        copies.push(index.copy(alloc)?)?;
    }
    Ok(copies)
}
