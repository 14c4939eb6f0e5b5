//! Entries replayed from a state.

ghost use Rattle.std.specs.Prelude.{◌≡◌, ◌≤◌, ◌+◌, ◌++◌, ◌∷◌, ◌↔◌, ◌⊎◌, [], ℕ, IfOk, IfSome, OnOk, length};
ghost use Rattle.std.specs.List.{Contains};
ghost use Rattle.td_stamps.specs.Entries.{stamp_of};
ghost use Rattle.td_stamps.specs.History.{History};
ghost use Rattle.td_stamps.specs.declared.entry.Entry.{Entry as EntryData};
ghost use Rattle.td_stamps.specs.declared.entry.Stamp.{Stamp as StampData};
ghost use Rattle.td_rollback.specs.Going.{AreAlikeBut};
ghost use Rattle.td_rollback.specs.Touched.{AreMore, Runs};
ghost use Rattle.td_rollback.specs.Turns.{settled};
ghost use Rattle.td_rollback.specs.ForProofs.Standing.{AreRead, Ran};

use crate::machine::Machine;
use crate::names::{add, names_any};
use crate::stamps::is_old;
use crate::turns::ReplayedRecord;
use std::alloc::{AllocError, Global};
use td_stamps::{Entry, Stamp};

// What was read of the entry, where that stands at the place.
fn reading_at<'r, M: Machine>(
    readings: &'r [(Entry, M::Reading)],
    at: usize,
    entry: &Entry,
) -> Option<&'r M::Reading>
    ensures { (o : M) → AreRead (M.is_read o) readings.now → IfSome result (λ r. M.is_read o entry.now r.now) }
{
    match readings.get(at) {
        Some(read) if read.0.is_same(entry) => Some(&read.1),
        _ => None,
    }
}

// Runs the entry, and names its targets.
fn run_anew<M: Machine>(
    alloc: Global,
    machine: &mut M,
    names: &mut Vec<usize>,
    entry: &Entry,
    meter: &mut M::Meter,
) -> Result<(Stamp, M::Record), AllocError>
    requires { M.sound machine.old }
    ensures stamp { IfOk result (λ p. p.0 ≡ stamp_of entry.now) }
    ensures step { IfOk result (λ p. M.steps machine.old entry.now p.1 machine.new) }
    ensures names { OnOk result ((n : ℕ) → Contains names.new.items n ↔ (M.targets (M.origin machine.old) entry.now n ⊎ Contains names.old.items n)) }
    ensures elsewhere { (n : ℕ) → (M.targets (M.origin machine.old) entry.now n → ⊥) → M.alike machine.old machine.new n }
    ensures origin { M.origin machine.new ≡ M.origin machine.old }
    ensures counted { M.count meter.new ≤ M.count meter.old + 1 }
{
    let ran = machine.run(alloc, entry, meter)?;
    add(names, M::targets_of(&ran))?;
    Ok((entry.stamp(), ran))
}

// Runs the entry by what was read of it, and names its targets.
fn run_read<M: Machine>(
    alloc: Global,
    machine: &mut M,
    names: &mut Vec<usize>,
    entry: &Entry,
    reading: &M::Reading,
    meter: &mut M::Meter,
) -> Result<(Stamp, M::Record), AllocError>
    requires sound { M.sound machine.old }
    requires read { M.is_read (M.origin machine.old) entry.now reading.now }
    ensures stamp { IfOk result (λ p. p.0 ≡ stamp_of entry.now) }
    ensures step { IfOk result (λ p. M.steps machine.old entry.now p.1 machine.new) }
    ensures names { OnOk result ((n : ℕ) → Contains names.new.items n ↔ (M.targets (M.origin machine.old) entry.now n ⊎ Contains names.old.items n)) }
    ensures elsewhere { (n : ℕ) → (M.targets (M.origin machine.old) entry.now n → ⊥) → M.alike machine.old machine.new n }
    ensures origin { M.origin machine.new ≡ M.origin machine.old }
    ensures counted { M.count meter.new ≤ M.count meter.old + 1 }
{
    let ran = machine.run_read(alloc, reading, meter)?;
    add(names, M::targets_of(&ran))?;
    Ok((entry.stamp(), ran))
}

// Runs the entry, by what was read of it if something was, and names its targets.
fn run_as_read<M: Machine>(
    alloc: Global,
    machine: &mut M,
    names: &mut Vec<usize>,
    entry: &Entry,
    reading: Option<&M::Reading>,
    meter: &mut M::Meter,
) -> Result<(Stamp, M::Record), AllocError>
    requires sound { M.sound machine.old }
    requires read { IfSome reading (λ r. M.is_read (M.origin machine.old) entry.now r.now) }
    ensures stamp { IfOk result (λ p. p.0 ≡ stamp_of entry.now) }
    ensures step { IfOk result (λ p. M.steps machine.old entry.now p.1 machine.new) }
    ensures names { OnOk result ((n : ℕ) → Contains names.new.items n ↔ (M.targets (M.origin machine.old) entry.now n ⊎ Contains names.old.items n)) }
    ensures elsewhere { (n : ℕ) → (M.targets (M.origin machine.old) entry.now n → ⊥) → M.alike machine.old machine.new n }
    ensures origin { M.origin machine.new ≡ M.origin machine.old }
    ensures counted { M.count meter.new ≤ M.count meter.old + 1 }
{
    match reading {
        Some(reading) => run_read(alloc, machine, names, entry, reading, meter),
        None => run_anew(alloc, machine, names, entry, meter),
    }
}

// Runs an old entry again.
fn run_again<M: Machine>(
    alloc: Global,
    machine: &mut M,
    names: &mut Vec<usize>,
    turns: &mut Vec<ReplayedRecord<M::Record>>,
    entry: &Entry,
    meter: &mut M::Meter,
) -> Result<(), AllocError>
    requires { M.sound machine.old }
    ensures turn { OnOk result ((p : StampData × M.Record) × Ran M.steps machine.old entry.now p machine.new × (turns.new.items ≡ turns.old.items ++ ReplayedRecord.Again p ∷ [])) }
    ensures names { OnOk result ((n : ℕ) → Contains names.new.items n ↔ (M.targets (M.origin machine.old) entry.now n ⊎ Contains names.old.items n)) }
    ensures elsewhere { (n : ℕ) → (M.targets (M.origin machine.old) entry.now n → ⊥) → M.alike machine.old machine.new n }
    ensures origin { M.origin machine.new ≡ M.origin machine.old }
    ensures counted { M.count meter.new ≤ M.count meter.old + 1 }
{
    let again = run_anew(alloc, machine, names, entry, meter)?;
    turns.push(ReplayedRecord::Again(again))?;
    Ok(())
}

// Runs an entry that is not old.
fn run_fresh<M: Machine>(
    alloc: Global,
    machine: &mut M,
    names: &mut Vec<usize>,
    turns: &mut Vec<ReplayedRecord<M::Record>>,
    entry: &Entry,
    reading: Option<&M::Reading>,
    meter: &mut M::Meter,
) -> Result<(), AllocError>
    requires sound { M.sound machine.old }
    requires read { IfSome reading (λ r. M.is_read (M.origin machine.old) entry.now r.now) }
    ensures turn { OnOk result ((p : StampData × M.Record) × Ran M.steps machine.old entry.now p machine.new × (turns.new.items ≡ turns.old.items ++ ReplayedRecord.Fresh p ∷ [])) }
    ensures names { OnOk result ((n : ℕ) → Contains names.new.items n ↔ (M.targets (M.origin machine.old) entry.now n ⊎ Contains names.old.items n)) }
    ensures elsewhere { (n : ℕ) → (M.targets (M.origin machine.old) entry.now n → ⊥) → M.alike machine.old machine.new n }
    ensures origin { M.origin machine.new ≡ M.origin machine.old }
    ensures counted { M.count meter.new ≤ M.count meter.old + 1 }
{
    let first = run_as_read(alloc, machine, names, entry, reading, meter)?;
    turns.push(ReplayedRecord::Fresh(first))?;
    Ok(())
}

// Makes the change of an old entry again.
fn keep_record<M: Machine>(
    alloc: Global,
    machine: &mut M,
    turns: &mut Vec<ReplayedRecord<M::Record>>,
    ran: &M::Record,
) -> Result<(), AllocError>
    requires { M.sound machine.old × ((t : M) × (e : EntryData) × M.steps machine.old e ran.now t) }
    ensures turn { OnOk result (turns.new.items ≡ turns.old.items ++ ReplayedRecord.Kept ∷ []) }
    ensures after { (t : M) → (e : EntryData) → M.steps machine.old e ran.now t → OnOk result (machine.new ≡ t) }
    ensures elsewhere { (n : ℕ) → (Contains (M.targets_in ran.now) n → ⊥) → M.alike machine.old machine.new n }
    ensures origin { M.origin machine.new ≡ M.origin machine.old }
{
    machine.redo(alloc, ran)?;
    turns.push(ReplayedRecord::Kept)?;
    Ok(())
}

// Replays from the state before the old entries, which have these records, until all entries ran. An old entry that
// none of those that ran touches is not run: its change is made again. A fresh entry is run by what was read of it,
// where that stands at its place among the fresh ones; else it is read anew, and so is an old entry that runs again.
pub(crate) fn replay_end<M: Machine>(
    alloc: Global,
    machine: &mut M,
    old: &[Entry],
    log: &[(Stamp, M::Record)],
    new: &[Entry],
    readings: &[(Entry, M::Reading)],
    meter: &mut M::Meter,
) -> Result<Vec<ReplayedRecord<M::Record>>, AllocError>
    requires sound { M.sound machine.old }
    requires read { AreRead (M.is_read (M.origin machine.old)) readings.now }
    requires history { (last : M) × History M.steps machine.old old.now log.now last }
    requires each { length log.now ≡ length old.now }
    requires more { AreMore old.now new.now }
    ensures history { IfOk result (λ turns. History M.steps machine.old new.now (settled log.now turns.items) machine.new) }
    ensures many { IfOk result (λ turns. length turns.items ≡ length new.now) }
    ensures counted { (n : ℕ) → Runs (M.footprint (M.origin machine.old)) (M.targets (M.origin machine.old)) [] old.now new.now n → M.count meter.new ≤ M.count meter.old + n }
    ensures elsewhere { AreAlikeBut M.alike (M.targets (M.origin machine.old)) new.now machine.old machine.new }
    ensures origin { M.origin machine.new ≡ M.origin machine.old }
{
    let mut turns = Vec::new(alloc);
    let mut names = Vec::new(alloc);
    let mut at = 0;
    for entry in new {
        if at < old.len() && is_old(entry, &old[at]) {
            let ran = &log[at].1;
            at += 1;
            if names_any(&names, M::footprint_of(ran)) {
                run_again(alloc, machine, &mut names, &mut turns, entry, meter)?;
            } else {
                keep_record(alloc, machine, &mut turns, ran)?;
            }
        } else {
            let reading = reading_at::<M>(readings, turns.len().saturating_sub(at), entry);
            run_fresh(
                alloc, machine, &mut names, &mut turns, entry, reading, meter,
            )?;
        }
    }
    Ok(turns)
}
