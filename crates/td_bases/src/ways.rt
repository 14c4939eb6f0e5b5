//! Ways back from changes that take no memory.

ghost use Rattle.std.specs.Prelude.{◌≡◌, ◌≤◌, ◌+◌, ◌++◌, [], IfOk, length, vec_capacity};
ghost use Rattle.std.specs.FinSet as set;
ghost use Rattle.std.specs.List.{All};
ghost use Rattle.td_values.specs.Headings.{header_fields};
ghost use Rattle.td_values.specs.Whole.{heading_of};
ghost use Rattle.td_relations.specs.Sets.{IsRelation, body, tuple_set};
ghost use Rattle.td_algebra.specs.KeyIndexes.{HasMore};
ghost use Rattle.td_bases.specs.ForProofs.Keyed.{IsIndexOf};
ghost use Rattle.td_bases.specs.Ways.{LeadsBack};

use std::alloc::{AllocError, Global};
use std::marker::Model;
use td_algebra::KeyIndex;
use td_relations::{Delta, Relation};
use td_values::{Tuple, copy_tuples};

/// A list without tuples, for its room.
#[derive(Drop)]
struct Room {
    pub list: Vec<Tuple>,
    ghost empty: { list.items ≡ [] },
}

impl Room {
    // No room yet.
    fn none(alloc: Global) -> Room {
        Room {
            list: Vec::new(alloc),
        }
    }

    // The room, for so many tuples: where it is less it grows as a list does that is pushed to, so that a relvar which
    // grows seldom asks for more.
    fn for_many(self, many: usize) -> Result<Room, AllocError>
        ensures { IfOk result (λ r. many ≤ vec_capacity r.list) }
    {
        let Room { list } = self;
        let mut list = list;
        list.reserve(many)?;
        Ok(Room { list })
    }
}

/// What a way back leaves for the next one: room for the relation, and for the index by its first key.
#[derive(Drop)]
pub(crate) struct Rooms {
    relation: Room,
    by_key: Room,
}

impl Rooms {
    /// No room yet, neither for the relation nor for the index.
    pub(crate) fn none(alloc: Global) -> Rooms {
        Rooms {
            relation: Room::none(alloc),
            by_key: Room::none(alloc),
        }
    }
}

/// Tuples that are to come back, shared, and room for a list of all.
#[derive(Drop)]
struct Return {
    deleted: Vec<Tuple>,
    room: Room,
}

impl Return {
    // Of these tuples, among so many.
    fn of(alloc: Global, deleted: &[Tuple], room: Room, many: usize) -> Result<Return, AllocError>
        ensures deleted { IfOk result (λ w. w.deleted.items ≡ deleted.now) }
        ensures room { IfOk result (λ w. many ≤ vec_capacity w.room.list) }
    {
        Ok(Return {
            deleted: copy_tuples(alloc, deleted)?,
            room: room.for_many(many)?,
        })
    }
}

/// What it takes to take a change of a relvar back where memory is wanting: the tuples that it takes out, and room for
/// all that the relvar had, once for the relation and once for the index by its first key.
#[derive(Drop)]
pub struct WayBack {
    relation: Return,
    by_key: Return,
    nothing: Relation,
    // (for so many tuples there is room, twice)
    many: usize,
}

impl Model for WayBack {
    ghost use Rattle.std.specs.Prelude.{◌≡◌, ◌≤◌, vec_capacity};
    ghost use Rattle.td_bases.specs.Ways.{WayBackData, way_back_code};

    ghost Value = { WayBackData };

    ghost coded = { way_back_code };

    ghost view = { λ w. record { deleted = w.relation.deleted.items; room = w.many } };

    ghost invariant = { λ w. (w.by_key.deleted.items ≡ w.relation.deleted.items) × (w.many ≤ vec_capacity w.relation.room.list) × (w.many ≤ vec_capacity w.by_key.room.list) };
}

// The relation with these tuples too, in the room that there is. It takes no memory, and costs a sort.
fn refill_relation(left: Relation, back: Return) -> Relation
    requires room { length left.tuples + length back.deleted.items ≤ vec_capacity back.room.list }
    requires fit { All (λ t. heading_of t ≡ header_fields left.heading) back.deleted.items }
    ensures { IsRelation left.heading (set.union (body left) (tuple_set back.deleted.items)) result }
{
    let (heading, tuples) = left.into_rows().into_parts();
    let Return { deleted, room } = back;
    let mut tuples = tuples;
    let mut deleted = deleted;
    let mut all = room.list;
    let Ok(()) = all.append(&mut tuples) else {
        unreachable!()
    };
    let Ok(()) = all.append(&mut deleted) else {
        unreachable!()
    };
    Relation::from_tuples(heading, all)
}

impl WayBack {
    /// The way back from a change of the relation, made before the change: it keeps what that deletes, and reserves the
    /// room to put it back.
    pub(crate) fn from(
        alloc: Global,
        relation: &Relation,
        delta: &Delta,
        rooms: Rooms,
    ) -> Result<WayBack, AllocError>
        ensures { IfOk result (LeadsBack relation.now delta.now) }
    {
        let deleted = delta.deleted().tuples();
        let many = relation.tuples().len() + deleted.len();
        Ok(WayBack {
            relation: Return::of(alloc, deleted, rooms.relation, many)?,
            by_key: Return::of(alloc, deleted, rooms.by_key, many)?,
            nothing: Relation::empty(alloc, relation.heading().copy()?),
            many,
        })
    }

    // The room of a way that is not gone.
    pub(crate) fn into_rooms(self) -> Rooms {
        let WayBack {
            relation,
            by_key,
            nothing: _,
            many: _,
        } = self;
        Rooms {
            relation: relation.room,
            by_key: by_key.room,
        }
    }

    // Puts the tuples into what is left of the relation, and into its index. It takes no memory.
    pub(crate) fn refill(self, relation: &mut Relation, index: &mut KeyIndex)
        requires room { length relation.old.tuples + length self.deleted ≤ self.room }
        requires fit { All (λ t. heading_of t ≡ header_fields relation.old.heading) self.deleted }
        requires of { IsIndexOf relation.old index.old }
        ensures relation { IsRelation relation.old.heading (set.union (body relation.old) (tuple_set self.deleted)) relation.new }
        ensures index { HasMore self.deleted index.old index.new }
    {
        let WayBack {
            relation: back,
            by_key,
            nothing,
            many: _,
        } = self;
        let left = std::mem::replace(relation, nothing);
        *relation = refill_relation(left, back);
        index.refill(by_key.deleted, by_key.room.list);
    }
}
