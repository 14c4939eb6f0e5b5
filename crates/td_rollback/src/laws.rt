//! The laws of replay.

ghost use Rattle.td_rollback.specs.Laws.{RecordsName, ReplayIsHistory, RunsAreCounted, RunsAreFew, RunsAreOne, RunsAreThere, UnionIsMore};
ghost use Rattle.td_rollback.specs.Going.{SoundFrom};
ghost use Rattle.td_rollback.specs.Parts.{InterleavedIsHistory, MarkedComeLast};

use crate::machine::Machine;

/// There is one number of entries that are run for new entries, at most that of all, and it cannot be that there is
/// none. Where lists name the places it is counted by a walk along them.
pub fn runs_are_one<M: Machine>()
    ensures one { (o : M) → RunsAreOne (M.footprint o) (M.targets o) }
    ensures few { (o : M) → RunsAreFew (M.footprint o) (M.targets o) }
    ensures there { (o : M) → RunsAreThere (M.footprint o) (M.targets o) }
    ensures counted { (o : M) → RunsAreCounted (M.footprint o) (M.targets o) }
{}

/// The records of a history name the footprint and the targets of each of its entries.
pub fn records_name<M: Machine>()
    ensures footprint { (o : M) → RecordsName (SoundFrom M.sound M.origin o) M.steps (M.footprint o) M.footprint_in }
    ensures targets { (o : M) → RecordsName (SoundFrom M.sound M.origin o) M.steps (M.targets o) M.targets_in }
{}

/// A replay that runs only what new entries touch is the history of all entries.
pub fn replay_is_history<M: Machine>()
    ensures { (o : M) → ReplayIsHistory (SoundFrom M.sound M.origin o) M.steps M.alike (M.footprint o) (M.targets o) }
{}

/// What is held, and that with a batch which is not refused, are old and new entries.
pub fn union_is_more()
    ensures { UnionIsMore }
{}

/// A history in which each marked entry commutes with the unmarked ones behind it is the history of the unmarked ones
/// and then that of the marked ones; and these two histories are that of all.
pub fn commuting_entries_part<M: Machine>()
    ensures last { (o : M) → MarkedComeLast (SoundFrom M.sound M.origin o) M.steps (M.commute o) }
    ensures interleaved { (o : M) → InterleavedIsHistory (SoundFrom M.sound M.origin o) M.steps (M.commute o) }
{}
