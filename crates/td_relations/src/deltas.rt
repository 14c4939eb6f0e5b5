//! Changes of a relation, which are applied and undone.
ghost use Rattle.std.specs.Prelude.{◌≡◌, ◌↔◌, IsTrue, IfOk, OnOk, OnErr};
ghost use Rattle.std.specs.FinSet as set;
ghost use Rattle.td_relations.specs.Sets.{body, IsRelation};
ghost use Rattle.td_relations.specs.Deltas.{IsApplied, IsDelta, IsDifference, IsExchanged, inverse_of};

use crate::Relation;
use crate::merges::{differences, minus, union};
use crate::places::exchange_few;
use std::alloc::{AllocError, Global};
use std::marker::Model;
use td_values::{Heading, copy_tuples};

/// So many changed tuples are many, however large the relation is: the shifts would cost more than a walk.
const MANY: usize = 512;

/// A change of more than this part of the relation is large.
const SHARE: usize = 16;

/// Which tuples are put into a relation, and which are taken out of it, none of them both; all have its heading.
#[derive(Drop)]
pub struct Delta {
    pub inserted: Relation,
    pub deleted: Relation,
}

impl Model for Delta {
    ghost use Rattle.td_relations.specs.Deltas.{DeltaData, IsDelta, delta_code};

    ghost Value = { DeltaData };

    ghost coded = { delta_code };

    ghost view = { λ a. record { inserted = a.inserted; deleted = a.deleted } };

    ghost invariant = { λ a. IsDelta (record { inserted = a.inserted; deleted = a.deleted }) };
}

impl Delta {
    /// The change that puts the first tuples in and takes the second ones out. It takes no memory.
    pub fn of(inserted: Relation, deleted: Relation) -> Delta
        requires { IsDelta (record { inserted = inserted; deleted = deleted }) }
        ensures { result ≡ record { inserted = inserted; deleted = deleted } }
    {
        Delta { inserted, deleted }
    }

    /// The heading of the relations that it changes.
    pub fn heading(&self) -> &Heading
        ensures inserted { result.now ≡ self.now.inserted.heading }
        ensures deleted { result.now ≡ self.now.deleted.heading }
    {
        let _deleted = &self.deleted;
        self.inserted.heading()
    }

    /// Both sets have one heading, as those of every change: a call tells the prover so, and costs nothing.
    pub fn headings_agree(&self)
        ensures { self.now.inserted.heading ≡ self.now.deleted.heading }
    {
        let _deleted = &self.deleted;
    }

    /// The tuples that are put in.
    pub fn inserted(&self) -> &Relation
        ensures { result.now ≡ self.now.inserted }
    {
        &self.inserted
    }

    /// The tuples that are taken out.
    pub fn deleted(&self) -> &Relation
        ensures { result.now ≡ self.now.deleted }
    {
        &self.deleted
    }

    /// Whether nothing is put in and nothing is taken out.
    pub fn is_empty(&self) -> bool
        ensures { IsTrue result ↔ ((body self.now.inserted ≡ set.empty) × (body self.now.deleted ≡ set.empty)) }
    {
        self.inserted.is_empty() && self.deleted.is_empty()
    }
}

/// What turns the old relation into the new one, its tuples shared. For lists of n and m tuples it costs n + m, and
/// memory for what differs.
pub fn difference(alloc: Global, old: &Relation, new: &Relation) -> Result<Delta, AllocError>
    requires { old.now.heading ≡ new.now.heading }
    ensures { IfOk result (IsDifference old.now new.now) }
{
    let (deleted, inserted) = differences(alloc, old, new)?;
    Ok(Delta { inserted, deleted })
}

/// The change that puts in what this one takes out, and the other way round. It takes no memory.
pub fn inverse(delta: Delta) -> Delta
    ensures { result ≡ inverse_of delta }
{
    Delta {
        inserted: delta.deleted,
        deleted: delta.inserted,
    }
}

/// Takes the deleted tuples out and puts the inserted ones in. It costs a search and a shift for each tuple of
/// the change, and memory for those put in; where these are many, a walk along the relation and a new list of it.
pub fn apply(alloc: Global, relation: &mut Relation, delta: &Delta) -> Result<(), AllocError>
    requires { delta.now.inserted.heading ≡ relation.old.heading }
    ensures ok { OnOk result (IsApplied relation.old delta.now relation.new) }
    ensures err { OnErr result (relation.new ≡ relation.old) }
{
    exchange(alloc, relation, &delta.deleted, &delta.inserted)
}

/// Applies the inverse. It costs as `apply`.
pub fn apply_inverse(
    alloc: Global,
    relation: &mut Relation,
    delta: &Delta,
) -> Result<(), AllocError>
    requires { delta.now.inserted.heading ≡ relation.old.heading }
    ensures ok { OnOk result (IsApplied relation.old (inverse_of delta.now) relation.new) }
    ensures err { OnErr result (relation.new ≡ relation.old) }
{
    exchange(alloc, relation, &delta.inserted, &delta.deleted)
}

// Whether a change of so many tuples is better made by a walk along a relation of this size than one by one.
fn is_large(changed: usize, size: usize) -> bool {
    changed > MANY || changed > size / SHARE
}

// Takes the first ones out of the relation and puts the second ones in.
fn exchange(
    alloc: Global,
    relation: &mut Relation,
    deleted: &Relation,
    inserted: &Relation,
) -> Result<(), AllocError>
    requires deleted { deleted.now.heading ≡ relation.old.heading }
    requires inserted { inserted.now.heading ≡ relation.old.heading }
    ensures ok { OnOk result (IsExchanged relation.old deleted.now inserted.now relation.new) }
    ensures err { OnErr result (relation.new ≡ relation.old) }
{
    if is_large(deleted.len().max(inserted.len()), relation.len()) {
        exchange_all(alloc, relation, deleted, inserted)
    } else {
        exchange_each(alloc, relation, deleted, inserted)
    }
}

// Takes the first ones out of the relation and puts the second ones in, by two walks along it.
fn exchange_all(
    alloc: Global,
    relation: &mut Relation,
    deleted: &Relation,
    inserted: &Relation,
) -> Result<(), AllocError>
    requires deleted { deleted.now.heading ≡ relation.old.heading }
    requires inserted { inserted.now.heading ≡ relation.old.heading }
    ensures ok { OnOk result (IsExchanged relation.old deleted.now inserted.now relation.new) }
    ensures err { OnErr result (relation.new ≡ relation.old) }
{
    let kept = minus(alloc, relation, deleted)?;
    let changed = union(alloc, &kept, inserted)?;
    *relation = changed;
    Ok(())
}

// Takes the first ones out of the relation and puts the second ones in, tuple by tuple. What may want memory comes
// first.
fn exchange_each(
    alloc: Global,
    relation: &mut Relation,
    deleted: &Relation,
    inserted: &Relation,
) -> Result<(), AllocError>
    requires { inserted.now.heading ≡ relation.old.heading }
    ensures ok { OnOk result (IsExchanged relation.old deleted.now inserted.now relation.new) }
    ensures err { OnErr result (relation.new ≡ relation.old) }
{
    let fresh = copy_tuples(alloc, inserted.tuples())?;
    relation.tuples.reserve(fresh.len())?;
    exchange_few(&mut relation.tuples, deleted.tuples(), fresh);
    Ok(())
}
