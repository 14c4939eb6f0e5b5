//! Marks on entries: which of them a replay is about.

ghost use Rattle.std.specs.Prelude.{◌≡◌, ◌≤◌, ◌+◌, ◌++◌, false, IfOk, IsTrue, drop, length, take, vec_capacity};
ghost use Rattle.std.specs.List.{list_any};
ghost use Rattle.td_rollback.specs.Going.{Begins};
ghost use Rattle.td_rollback.specs.Parts.{marked, unmarked, interleaved};
ghost use Rattle.td_rollback.specs.ForProofs.Marked as spec;
ghost use Rattle.td_rollback.specs.ForProofs.Marked.{AreFlagged, MarkConflicts};
ghost use Rattle.td_rollback.specs.Touched.{AreMore};

use crate::machine::Machine;
use crate::stamps::is_old;
use std::alloc::{AllocError, Global};
use td_stamps::{Entry, Stamp};

/// A mark for each old entry: whether it conflicts with one of those whose accesses these are, or with a marked one
/// before it. The accesses of what is marked are added.
pub(crate) fn mark_conflicting<M: Machine>(
    alloc: Global,
    machine: &M,
    old: &[Entry],
    log: &[(Stamp, M::Record)],
    accesses: &mut M::Accesses,
) -> Result<Vec<bool>, AllocError>
    requires history { (o : M) × Begins M.sound M.origin M.steps o old.now log.now machine.now }
    requires each { length log.now ≡ length old.now }
    ensures { IfOk result (λ v. MarkConflicts (M.commute (M.origin machine.now)) (M.covers (M.origin machine.now) accesses.old) v.items old.now) }
{
    let mut marks = Vec::with_capacity(alloc, old.len())?;
    for at in 0..old.len() {
        let is_marked = machine.conflicts(alloc, accesses, &old[at], &log[at].1)?;
        marks.push(is_marked)?;
    }
    Ok(marks)
}

/// Entries of which some are marked: a mark for each, and copies of those that are marked, which share the texts.
#[derive(Drop)]
pub(crate) struct Marked {
    pub marks: Vec<bool>,
    pub entries: Vec<Entry>,
}

/// Marks the new entries that are not old. Once as many are left of the old ones as of the new ones, these are the
/// same, and none of them is looked at.
pub(crate) fn mark_fresh(alloc: Global, old: &[Entry], new: &[Entry]) -> Result<Marked, AllocError>
    requires { AreMore old.now new.now }
    ensures flags { IfOk result (λ m. AreFlagged old.now m.marks.items new.now) }
    ensures entries { IfOk result (λ m. m.entries.items ≡ marked m.marks.items new.now) }
{
    let mut flags = Vec::with_capacity(alloc, new.len())?;
    let mut fresh = Vec::new(alloc);
    let mut at = 0;
    let mut passed = 0;
    while old.len() - at < new.len() - passed {
        let entry = &new[passed];
        if at < old.len() && is_old(entry, &old[at]) {
            flags.push(false)?;
            at += 1;
        } else {
            fresh.push(entry.copy()?)?;
            flags.push(true)?;
        }
        passed += 1;
    }
    flags.resize(new.len(), false)?;
    Ok(Marked {
        marks: flags,
        entries: fresh,
    })
}

/// Whether none is marked.
pub(crate) fn are_unmarked(marks: &[bool]) -> bool
    ensures { IsTrue result → list_any (λ b. b) marks.now ≡ false }
{
    !marks.contains(&true)
}

/// A mark for each of the new entries: that which an old one has, and one for each that is flagged.
pub(crate) fn with_flagged(
    alloc: Global,
    flags: &[bool],
    marks: &[bool],
) -> Result<Vec<bool>, AllocError>
    ensures { IfOk result (λ v. v.items ≡ spec.with_flagged flags.now marks.now) }
{
    let mut all = Vec::with_capacity(alloc, flags.len())?;
    let mut olds = marks.iter();
    let mut rest = flags.iter();
    while let Some(flag) = rest.next() {
        if *flag {
            all.push(true)?;
        } else {
            all.push(olds.next().copied().unwrap_or(false))?;
        }
    }
    Ok(all)
}

/// Copies of the marked entries; they share the texts.
#[tactic(auto, using(crate::proofs::Parting::none_marked))]
pub(crate) fn marked_entries(
    alloc: Global,
    entries: &[Entry],
    marks: &[bool],
) -> Result<Vec<Entry>, AllocError>
    ensures { IfOk result (λ v. v.items ≡ marked marks.now entries.now) }
{
    let mut chosen = Vec::new(alloc);
    let mut entries = entries.iter();
    let mut rest = marks.iter();
    while let Some(mark) = rest.next() {
        if let Some(entry) = entries.next() {
            if *mark {
                chosen.push(entry.copy()?)?;
            }
        }
    }
    Ok(chosen)
}

/// Moves the marked items behind the first ones, and the others behind the second ones.
#[tactic(auto, using(crate::proofs::Parting::none_marked, crate::proofs::Parting::none_unmarked))]
pub(crate) fn split<X: Drop>(
    items: Vec<X>,
    marks: &[bool],
    first: Vec<X>,
    second: Vec<X>,
) -> (Vec<X>, Vec<X>)
    requires first { length first.items + length items.items ≤ vec_capacity first }
    requires second { length second.items + length items.items ≤ vec_capacity second }
    ensures marked { result.0.items ≡ first.items ++ marked marks.now items.items }
    ensures unmarked { result.1.items ≡ second.items ++ unmarked marks.now items.items }
{
    let mut within = first;
    let mut without = second;
    let mut items = items.into_iter();
    let mut rest = marks.iter();
    while let Some(mark) = rest.next() {
        if let Some(item) = items.next() {
            if *mark {
                within.push(item).unwrap();
            } else {
                without.push(item).unwrap();
            }
        }
    }
    (within, without)
}

/// Moves both together again, behind what is there.
pub(crate) fn interleave<X: Drop>(
    marks: &[bool],
    within: Vec<X>,
    without: Vec<X>,
    room: Vec<X>,
) -> Vec<X>
    requires { length room.items + length marks.now ≤ vec_capacity room }
    ensures { result.items ≡ room.items ++ interleaved marks.now within.items without.items }
{
    let mut all = room;
    let mut firsts = within.into_iter();
    let mut seconds = without.into_iter();
    let mut rest = marks.iter();
    while let Some(mark) = rest.next() {
        if *mark {
            if let Some(item) = firsts.next() {
                all.push(item).unwrap();
            }
        } else if let Some(item) = seconds.next() {
            all.push(item).unwrap();
        }
    }
    all
}

/// Puts the items in at the places of their marks, of which the first is that behind the first so many, while items are
/// left. Each moves all that is behind it.
pub(crate) fn insert_marked<X: Drop>(all: &mut Vec<X>, kept: usize, marks: &[bool], items: Vec<X>)
    requires front { kept ≤ length all.old.items }
    requires room { length all.old.items + length items.items ≤ vec_capacity all.old }
    requires others { length (drop kept all.old.items) ≡ length (unmarked marks.now marks.now) }
    ensures { all.new.items ≡ take kept all.old.items ++ interleaved marks.now items.items (drop kept all.old.items) }
{
    let mut items = items.into_iter();
    for place in 0..marks.len() {
        if items.len() == 0 {
            return;
        }
        if marks[place] {
            all.insert(kept + place, items.next().unwrap()).unwrap();
        }
    }
}
