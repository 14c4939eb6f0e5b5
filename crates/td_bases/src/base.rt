//! What base relvars have.

ghost use Rattle.std.specs.Prelude.{◌≡◌, ◌↔◌, ◌<◌, length, IfOk, IsTrue, OnErr, OnOk};
ghost use Rattle.std.specs.FinSet as set;
ghost use Rattle.std.specs.List.{All, filter};
ghost use Rattle.std.specs.List.Sorted.{IsPermutation};
ghost use Rattle.td_algebra.specs.KeyIndexes.{AreKeyIndexes, has_named, key_names, tuple_names};
ghost use Rattle.td_bases.specs.Bases.{changed, changed_base};
ghost use Rattle.td_bases.specs.ForProofs.Keyed.{IsIndexOf, IsReplaced, first_key, keys_of};
ghost use Rattle.td_bases.specs.Ways.{LeadsBack};
ghost use Rattle.td_relations.specs.Deltas.{IsApplied, inverse_of};
ghost use Rattle.td_relations.specs.Sets.{IsRelation, body, tuple_set};
ghost use Rattle.td_values.specs.Rows.{RowsData};

use crate::by_keys::{
    by_first, copy_each, count, gain_each, keep_first, replaced_place, settle_each,
};
use crate::ways::{Rooms, WayBack};
use sqlite_items::Items;
use std::alloc::{AllocError, Global};
use std::marker::Model;
use td_algebra::KeyIndex;
use td_relations::{Delta, Relation, apply, apply_inverse};
use td_values::{Name, Tuple};

// Takes these tuples out.
fn take_out(relation: &mut Relation, tuples: &[Tuple])
    ensures { IsRelation relation.old.heading (set.difference (body relation.old) (tuple_set tuples.now)) relation.new }
{
    relation.rows_fit();
    for tuple in tuples {
        relation.remove(tuple);
    }
}

// Takes out what a change put in.
fn take_inserted(relation: &mut Relation, delta: &Delta)
    ensures { IsRelation relation.old.heading (set.difference (body relation.old) (body delta.now.inserted)) relation.new }
{
    take_out(relation, delta.inserted().tuples());
}

// Makes the change in a relation, and each index goes along by searches and shifts.
fn change_by_indexes(
    alloc: Global,
    relation: &mut Relation,
    indexes: &mut Vec<KeyIndex>,
    delta: &Delta,
) -> Result<(), AllocError>
    requires heading { delta.now.inserted.heading ≡ relation.old.heading }
    requires of { All (IsIndexOf relation.old) indexes.old.items }
    ensures ok { OnOk result (IsApplied relation.old delta.now relation.new) }
    ensures err { OnErr result (relation.new ≡ relation.old) }
    ensures of { All (IsIndexOf relation.new) indexes.new.items }
    ensures keys { keys_of indexes.new.items ≡ keys_of indexes.old.items }
{
    relation.rows_fit();
    if let Err(error) = gain_each(alloc, indexes, relation, delta.inserted()) {
        settle_each(indexes, relation, delta.inserted(), relation);
        return Err(error);
    }
    match apply(alloc, relation, delta) {
        Ok(()) => {
            settle_each(indexes, relation, delta.deleted(), delta.inserted());
            Ok(())
        }
        Err(error) => {
            settle_each(indexes, relation, delta.inserted(), relation);
            Err(error)
        }
    }
}

// Makes its inverse.
fn undo(
    alloc: Global,
    relation: &mut Relation,
    indexes: &mut Vec<KeyIndex>,
    delta: &Delta,
) -> Result<(), AllocError>
    requires heading { delta.now.deleted.heading ≡ relation.old.heading }
    requires of { All (IsIndexOf relation.old) indexes.old.items }
    ensures ok { OnOk result (IsApplied relation.old (inverse_of delta.now) relation.new) }
    ensures err { OnErr result (relation.new ≡ relation.old) }
    ensures of { All (IsIndexOf relation.new) indexes.new.items }
    ensures keys { keys_of indexes.new.items ≡ keys_of indexes.old.items }
{
    relation.rows_fit();
    delta.headings_agree();
    if let Err(error) = gain_each(alloc, indexes, relation, delta.deleted()) {
        settle_each(indexes, relation, delta.deleted(), relation);
        return Err(error);
    }
    match apply_inverse(alloc, relation, delta) {
        Ok(()) => {
            settle_each(indexes, relation, delta.inserted(), delta.deleted());
            Ok(())
        }
        Err(error) => {
            settle_each(indexes, relation, delta.deleted(), relation);
            Err(error)
        }
    }
}

// Makes a change of one tuple for another one that stands where the first one stood in the one index.
fn change_at(
    alloc: Global,
    relation: &mut Relation,
    indexes: &mut Vec<KeyIndex>,
    delta: &Delta,
    at: usize,
) -> Result<(), AllocError>
    requires heading { delta.now.inserted.heading ≡ relation.old.heading }
    requires of { All (IsIndexOf relation.old) indexes.old.items }
    requires at { IsReplaced relation.old indexes.old.items delta.now.deleted delta.now.inserted at }
    ensures ok { OnOk result (IsApplied relation.old delta.now relation.new) }
    ensures err { OnErr result (relation.new ≡ relation.old) }
    ensures of { All (IsIndexOf relation.new) indexes.new.items }
    ensures keys { keys_of indexes.new.items ≡ keys_of indexes.old.items }
{
    relation.rows_fit();
    delta.inserted().rows_fit();
    let more = delta.inserted().tuples()[0].copy()?;
    apply(alloc, relation, delta)?;
    indexes[0].replace_at(at, more);
    Ok(())
}

// Makes the change in a relation, and its indexes go along.
fn change(
    alloc: Global,
    relation: &mut Relation,
    indexes: &mut Vec<KeyIndex>,
    delta: &Delta,
) -> Result<(), AllocError>
    requires heading { delta.now.inserted.heading ≡ relation.old.heading }
    requires of { All (IsIndexOf relation.old) indexes.old.items }
    ensures ok { OnOk result (IsApplied relation.old delta.now relation.new) }
    ensures err { OnErr result (relation.new ≡ relation.old) }
    ensures of { All (IsIndexOf relation.new) indexes.new.items }
    ensures keys { keys_of indexes.new.items ≡ keys_of indexes.old.items }
{
    match replaced_place(indexes, relation, delta.deleted(), delta.inserted()) {
        Some(at) => change_at(alloc, relation, indexes, delta, at),
        None => change_by_indexes(alloc, relation, indexes, delta),
    }
}

// Takes back a change that took nothing out. It takes no memory.
fn take_back(relation: &mut Relation, indexes: &mut Vec<KeyIndex>, delta: &Delta)
    requires heading { delta.now.deleted.heading ≡ relation.old.heading }
    requires growth { body delta.now.deleted ≡ set.empty }
    requires of { All (IsIndexOf relation.old) indexes.old.items }
    ensures back { IsApplied relation.old (inverse_of delta.now) relation.new }
    ensures of { All (IsIndexOf relation.new) indexes.new.items }
    ensures keys { keys_of indexes.new.items ≡ keys_of indexes.old.items }
{
    relation.rows_fit();
    take_inserted(relation, delta);
    settle_each(indexes, relation, delta.inserted(), relation);
}

// Takes back any change, by a way that was made before it. It takes no memory. The tuples are kept by the first key
// alone then.
fn go_back(relation: &mut Relation, indexes: &mut Vec<KeyIndex>, delta: &Delta, way: WayBack)
    requires heading { delta.now.deleted.heading ≡ relation.old.heading }
    requires way { (r : RowsData) × LeadsBack r delta.now way × IsApplied r delta.now relation.old }
    requires some { 0 < length indexes.old.items }
    requires of { All (IsIndexOf relation.old) indexes.old.items }
    ensures back { IsApplied relation.old (inverse_of delta.now) relation.new }
    ensures some { 0 < length indexes.new.items }
    ensures of { All (IsIndexOf relation.new) indexes.new.items }
    ensures first { first_key indexes.new.items ≡ first_key indexes.old.items }
{
    relation.rows_fit();
    delta.deleted().rows_fit();
    take_inserted(relation, delta);
    indexes.truncate(1);
    settle_each(indexes, relation, delta.inserted(), relation);
    way.refill(relation, &mut indexes[0]);
}

// The keys behind the first one.
fn other_keys(keys: &[Items<Name>]) -> &[Items<Name>] {
    match keys.split_first() {
        Some((_, others)) => others,
        None => &[],
    }
}

/// What a base relvar has: a relation, whose tuples it keeps by a key at all times, and by others where enough small
/// changes were made where it stands.
#[derive(Drop)]
pub struct Base {
    relation: Relation,
    indexes: Vec<KeyIndex>,
    // (how many changes came since the first index alone is kept)
    awaited: usize,
    rooms: Rooms,
}

impl Model for Base {
    ghost use Rattle.std.specs.Prelude.{◌<◌, length};
    ghost use Rattle.std.specs.List.{All};
    ghost use Rattle.td_bases.specs.Bases.{BaseData, base_code};
    ghost use Rattle.td_bases.specs.ForProofs.Keyed.{AreOf, first_key};

    ghost Value = { BaseData };

    ghost coded = { base_code };

    ghost view = { λ b. record { rows = b.relation; key = first_key b.indexes.items } };

    ghost invariant = { λ b. AreOf b.relation b.indexes.items };
}

impl Base {
    /// The relation, its tuples kept by this key. It costs a sort of them.
    pub fn by_key(alloc: Global, relation: Relation, key: &[Name]) -> Result<Base, AllocError>
        ensures { IfOk result (λ b. b ≡ record { rows = relation; key = key.now }) }
    {
        let indexes = by_first(alloc, &relation, key)?;
        Ok(Base {
            relation,
            indexes,
            awaited: 0,
            rooms: Rooms::none(alloc),
        })
    }

    /// How many tuples there are.
    pub fn len(&self) -> usize
        ensures { result ≡ set.len (body self.now.rows) }
    {
        self.relation.len()
    }

    /// Whether the tuple is there. It takes no memory.
    pub fn contains(&self, tuple: &Tuple) -> bool
        ensures { result ≡ set.contains (body self.now.rows) tuple.now }
    {
        self.relation.contains(tuple)
    }

    /// The relation that it has, to be read.
    pub fn relation(&self) -> &Relation
        ensures { result.now ≡ self.now.rows }
    {
        &self.relation
    }

    /// The relation that it has, whose tuples are shared.
    pub fn copy_relation(&self, alloc: Global) -> Result<Relation, AllocError>
        ensures { IfOk result (λ r. r ≡ self.now.rows) }
    {
        self.relation.copy(alloc)
    }

    /// The names of the key by which its tuples are always kept, as they are written. It takes no memory.
    pub fn key(&self) -> &[Name]
        ensures { result.now ≡ self.now.key }
    {
        self.indexes[0].key()
    }

    /// Whether the tuple's names are those of the key. It takes no memory.
    pub fn has_names_of(&self, tuple: &Tuple) -> bool
        ensures { IsTrue result ↔ (tuple_names tuple.now ≡ key_names self.now.rows.heading self.now.key) }
    {
        self.indexes[0].has_names_of(tuple)
    }

    /// The tuples with these values of the key: one at most where the key tells the tuples apart. It takes no memory,
    /// and costs a search.
    pub fn with_key(&self, values: &Tuple) -> &[Tuple]
        requires { tuple_names values.now ≡ key_names self.now.rows.heading self.now.key }
        ensures { IsPermutation (filter (has_named self.now.key values.now) self.now.rows.tuples) result.now }
    {
        self.indexes[0].with_key(values)
    }

    /// A copy, which shares the tuples and keeps them by its key alone: it takes two lists of them.
    pub fn copy(&self, alloc: Global) -> Result<Base, AllocError>
        ensures { IfOk result (λ b. b ≡ self.now) }
    {
        let relation = self.relation.copy(alloc)?;
        let mut indexes = Vec::with_capacity(alloc, 1)?;
        indexes.push(self.indexes[0].copy(alloc)?)?;
        Ok(Base {
            relation,
            indexes,
            awaited: 0,
            rooms: Rooms::none(alloc),
        })
    }

    /// A copy, which shares the tuples and keeps them by all keys by which they are kept: for each it takes two
    /// lists more.
    pub fn copy_with_keys(&self, alloc: Global) -> Result<Base, AllocError>
        ensures { IfOk result (λ b. b ≡ self.now) }
    {
        Ok(Base {
            relation: self.relation.copy(alloc)?,
            indexes: copy_each(alloc, &self.indexes)?,
            awaited: 0,
            rooms: Rooms::none(alloc),
        })
    }

    /// Its tuples by the keys by which they are kept, the first one before the others. It takes no memory.
    pub fn indexes(&self) -> &[KeyIndex]
        ensures { AreKeyIndexes self.now.rows result.now }
    {
        &self.indexes
    }

    /// Counts a read as a change is counted: these are the relvar's keys, by all of which its tuples are kept where
    /// that pays.
    pub fn count_read(&mut self, alloc: Global, keys: &[Items<Name>])
        ensures { self.new ≡ self.old }
    {
        count(
            alloc,
            &mut self.indexes,
            &mut self.awaited,
            &self.relation,
            other_keys(keys),
        );
    }

    /// Makes the change. These are the keys by which its tuples are kept where that pays.
    pub fn change(
        &mut self,
        alloc: Global,
        keys: &[Items<Name>],
        delta: &Delta,
    ) -> Result<(), AllocError>
        requires { delta.now.inserted.heading ≡ self.old.rows.heading }
        ensures ok { OnOk result (self.new ≡ changed_base self.old delta.now) }
        ensures err { OnErr result (self.new ≡ self.old) }
    {
        let many = delta.deleted().len().max(delta.inserted().len());
        keep_first(&mut self.indexes, &mut self.awaited, many, &self.relation);
        change(alloc, &mut self.relation, &mut self.indexes, delta)?;
        count(
            alloc,
            &mut self.indexes,
            &mut self.awaited,
            &self.relation,
            other_keys(keys),
        );
        Ok(())
    }

    /// Makes the inverse.
    pub fn change_back(
        &mut self,
        alloc: Global,
        keys: &[Items<Name>],
        delta: &Delta,
    ) -> Result<(), AllocError>
        requires { delta.now.deleted.heading ≡ self.old.rows.heading }
        ensures ok { OnOk result (self.new ≡ changed_base self.old (inverse_of delta.now)) }
        ensures err { OnErr result (self.new ≡ self.old) }
    {
        let many = delta.deleted().len().max(delta.inserted().len());
        keep_first(&mut self.indexes, &mut self.awaited, many, &self.relation);
        undo(alloc, &mut self.relation, &mut self.indexes, delta)?;
        count(
            alloc,
            &mut self.indexes,
            &mut self.awaited,
            &self.relation,
            other_keys(keys),
        );
        Ok(())
    }

    /// Makes the inverse, in a copy that is only read: no read or change of it is counted.
    pub fn change_back_copy(&mut self, alloc: Global, delta: &Delta) -> Result<(), AllocError>
        requires { delta.now.inserted.heading ≡ self.old.rows.heading }
        ensures ok { OnOk result (self.new ≡ changed_base self.old (inverse_of delta.now)) }
        ensures err { OnErr result (self.new ≡ self.old) }
    {
        delta.headings_agree();
        undo(alloc, &mut self.relation, &mut self.indexes, delta)
    }

    /// Makes the inverse of a change that took nothing out. It takes no memory.
    pub fn take_back(&mut self, delta: &Delta)
        requires heading { delta.now.deleted.heading ≡ self.old.rows.heading }
        requires growth { body delta.now.deleted ≡ set.empty }
        ensures { self.new ≡ changed_base self.old (inverse_of delta.now) }
    {
        take_back(&mut self.relation, &mut self.indexes, delta);
    }

    /// What it takes to take the change back without memory. It costs two counts for each tuple that the change takes
    /// out, and room for two lists of all tuples, where no way back has left that.
    pub fn way_back(&mut self, alloc: Global, delta: &Delta) -> Result<WayBack, AllocError>
        ensures way { IfOk result (LeadsBack self.old.rows delta.now) }
        ensures same { self.new ≡ self.old }
    {
        let rooms = std::mem::replace(&mut self.rooms, Rooms::none(alloc));
        WayBack::from(alloc, &self.relation, delta, rooms)
    }

    /// Keeps the room of a way back that is not gone, for the next one. It takes no memory.
    pub fn keep_room(&mut self, way: WayBack)
        ensures { self.new ≡ self.old }
    {
        self.rooms = way.into_rooms();
    }

    /// Makes the inverse of a change by such a way. It takes no memory.
    pub fn go_back(&mut self, delta: &Delta, way: WayBack)
        requires heading { delta.now.deleted.heading ≡ self.old.rows.heading }
        requires way { (r : RowsData) × LeadsBack r delta.now way × (self.old.rows ≡ changed r delta.now) }
        ensures { self.new ≡ changed_base self.old (inverse_of delta.now) }
    {
        go_back(&mut self.relation, &mut self.indexes, delta, way);
    }
}
