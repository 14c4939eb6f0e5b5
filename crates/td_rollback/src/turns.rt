//! What becomes of entries in a replay.

ghost use Rattle.std.specs.Prelude.{◌≡◌, ◌≤◌, ◌+◌, ◌++◌, length, vec_capacity};
ghost use Rattle.std.specs.Vec.Iter.{into_iter_items};
ghost use Rattle.td_rollback.specs.Turns.{replayed_log, settled};

use std::vec::IntoIter;
use td_stamps::Stamp;

/// What becomes of an entry: the record that it had is kept, or it ran again and has this one, or it is fresh.
#[derive(Drop)]
pub(crate) enum ReplayedRecord<R> {
    Kept,
    Again((Stamp, R)),
    Fresh((Stamp, R)),
}

// The records after the turns, behind those that are there, for which there is room.
fn settle_end<R: Drop>(
    old: IntoIter<(Stamp, R)>,
    turns: Vec<ReplayedRecord<R>>,
    room: Vec<(Stamp, R)>,
) -> Vec<(Stamp, R)>
    requires { length room.items + length turns.items ≤ vec_capacity room }
    ensures { result.items ≡ room.items ++ settled (into_iter_items old) turns.items }
{
    let mut all = room;
    let mut rest = old;
    for turn in turns {
        match turn {
            ReplayedRecord::Kept => {
                if let Some(stays) = rest.next() {
                    all.push(stays).unwrap();
                }
            }
            ReplayedRecord::Again(ran) => {
                drop(rest.next());
                all.push(ran).unwrap();
            }
            ReplayedRecord::Fresh(ran) => all.push(ran).unwrap(),
        }
    }
    all
}

/// The records after a replay, behind those in the list that is handed in, which has room for them. Each record is
/// moved; it takes no memory and cannot fail.
pub(crate) fn settle<R: Drop>(
    old: Vec<(Stamp, R)>,
    kept: usize,
    turns: Vec<ReplayedRecord<R>>,
    room: Vec<(Stamp, R)>,
) -> Vec<(Stamp, R)>
    requires front { kept ≤ length old.items }
    requires room { length room.items + kept + length turns.items ≤ vec_capacity room }
    ensures { result.items ≡ room.items ++ replayed_log old.items kept turns.items }
{
    let mut all = room;
    let mut rest = old.into_iter();
    for _ in 0..kept {
        let Some(first) = rest.next() else {
            unreachable!()
        };
        all.push(first).unwrap();
    }
    settle_end(rest, turns, all)
}
