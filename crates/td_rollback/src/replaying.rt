//! A history replayed with more entries.

ghost use Rattle.std.specs.Prelude.{◌≡◌, ◌⊎◌, ◌≤◌, ◌+◌, ◌++◌, ◌∷◌, [], ℕ, List, true, IfOk, OnErr, OnOk, length, drop, take};
ghost use Rattle.std.specs.List.{Contains};
ghost use Rattle.td_stamps.specs.declared.entry.Entry.{Entry as EntryData};
ghost use Rattle.td_stamps.specs.declared.entry.Stamp.{Stamp as StampData};
ghost use Rattle.td_stamps.specs.Sets.{has};
ghost use Rattle.td_rollback.specs.Going.{AreAlikeBut, Begins};
ghost use Rattle.td_rollback.specs.Parts.{marked, unmarked, interleaved};
ghost use Rattle.td_rollback.specs.Touched.{AreMore, IsTargetOf, Runs};
ghost use Rattle.td_rollback.specs.Turns.{replayed_log, settled};
ghost use Rattle.td_rollback.specs.ForProofs.Marked.{AreAmong, AreParted, with_flagged};
ghost use Rattle.td_rollback.specs.ForProofs.Standing.{AreRead};

use crate::machine::Machine;
use crate::marks::{
    Marked, are_unmarked, insert_marked, interleave, mark_conflicting, mark_fresh, marked_entries,
    split, with_flagged,
};
use crate::names::add;
use crate::replay::replay_end;
use crate::turns::{ReplayedRecord, settle};
use crate::undoing::{common_of, undo_end};
use std::alloc::{AllocError, Global};
use std::mem::replace;
use td_stamps::{Entry, Stamp};

// Places among which are all that the old entries may change, by their records, and these places.
fn places_beside<M: Machine>(
    alloc: Global,
    machine: &M,
    old: &[Entry],
    log: &[(Stamp, M::Record)],
    fresh: &[usize],
) -> Result<Vec<usize>, AllocError>
    requires history { (o : M) × Begins M.sound M.origin M.steps o old.now log.now machine.now }
    requires each { length log.now ≡ length old.now }
    ensures old { IfOk result (λ v. (n : ℕ) → IsTargetOf (M.targets (M.origin machine.now)) old.now n → Contains v.items n) }
    ensures fresh { IfOk result (λ v. (n : ℕ) → Contains fresh.now n → Contains v.items n) }
{
    let mut places = Vec::from_slice(alloc, fresh)?;
    for record in log {
        add(&mut places, M::targets_of(&record.1))?;
    }
    Ok(places)
}

// A copy of all that the new entries behind the first ones may change: those that are not old change these places
// alone.
fn save_end<M: Machine>(
    alloc: Global,
    machine: &M,
    old: &[Entry],
    log: &[(Stamp, M::Record)],
    new: &[Entry],
    kept: usize,
    fresh: &[usize],
) -> Result<M::Part, AllocError>
    requires history { (o : M) × Begins M.sound M.origin M.steps o old.now log.now machine.now }
    requires each { length log.now ≡ length old.now }
    requires kept { kept ≤ length new.now }
    requires fresh { AreAmong (M.targets (M.origin machine.now)) old.now new.now fresh.now }
    ensures { IfOk result (λ p. (ns : List ℕ) × M.saved p ns machine.now × ((n : ℕ) → IsTargetOf (M.targets (M.origin machine.now)) (drop kept new.now) n → Contains ns n)) }
{
    let places = places_beside(alloc, machine, old, log, fresh)?;
    machine.save(alloc, &places)
}

// Takes all back but what both begin with, and replays the rest.
fn replay_from<M: Machine>(
    alloc: Global,
    machine: &mut M,
    old: &[Entry],
    log: &[(Stamp, M::Record)],
    new: &[Entry],
    kept: usize,
    readings: &[(Entry, M::Reading)],
    meter: &mut M::Meter,
) -> Result<Vec<ReplayedRecord<M::Record>>, AllocError>
    requires history { (o : M) × Begins M.sound M.origin M.steps o old.now log.now machine.old }
    requires each { length log.now ≡ length old.now }
    requires more { AreMore old.now new.now }
    requires alike { take kept old.now ≡ take kept new.now }
    requires in_old { kept ≤ length old.now }
    requires in_new { kept ≤ length new.now }
    requires read { AreRead (M.is_read (M.origin machine.old)) readings.now }
    ensures history { (o : M) → Begins M.sound M.origin M.steps o old.now log.now machine.old → IfOk result (λ turns. Begins M.sound M.origin M.steps o new.now (take kept log.now ++ settled (drop kept log.now) turns.items) machine.new) }
    ensures many { IfOk result (λ turns. kept + length turns.items ≡ length new.now) }
    ensures counted { (n : ℕ) → Runs (M.footprint (M.origin machine.old)) (M.targets (M.origin machine.old)) [] old.now new.now n → M.count meter.new ≤ M.count meter.old + n }
    ensures elsewhere { AreAlikeBut M.alike (M.targets (M.origin machine.old)) (drop kept new.now) machine.old machine.new }
    ensures origin { M.origin machine.new ≡ M.origin machine.old }
{
    undo_end(alloc, machine, old, log, kept)?;
    let (_, old_end) = old.split_at(kept);
    let (_, log_end) = log.split_at(kept);
    let (_, new_end) = new.split_at(kept);
    replay_end(alloc, machine, old_end, log_end, new_end, readings, meter)
}

// What becomes of the records of a history that is replayed: so many of the first stay, and the others follow.
#[derive(Drop)]
struct ReplayedPart<R> {
    kept: usize,
    turns: Vec<ReplayedRecord<R>>,
}

// Leads the machine to the end of the history of the new entries, from the end of that of the old ones. It takes back
// all old entries from the end to the first one that a new one stands before, makes the change of each again that is
// not touched, and runs all others. Where memory is wanting the machine is as it was.
fn replay_part<M: Machine>(
    alloc: Global,
    machine: &mut M,
    old: &[Entry],
    log: &[(Stamp, M::Record)],
    new: &[Entry],
    fresh: &[usize],
    readings: &[(Entry, M::Reading)],
    meter: &mut M::Meter,
) -> Result<ReplayedPart<M::Record>, AllocError>
    requires history { (o : M) × Begins M.sound M.origin M.steps o old.now log.now machine.old }
    requires more { AreMore old.now new.now }
    requires fresh { AreAmong (M.targets (M.origin machine.old)) old.now new.now fresh.now }
    requires read { AreRead (M.is_read (M.origin machine.old)) readings.now }
    ensures history { (o : M) → Begins M.sound M.origin M.steps o old.now log.now machine.old → IfOk result (λ r. Begins M.sound M.origin M.steps o new.now (replayed_log log.now r.kept r.turns.items) machine.new) }
    ensures front { IfOk result (λ r. r.kept ≤ length log.now) }
    ensures many { IfOk result (λ r. r.kept + length r.turns.items ≡ length new.now) }
    ensures kept { OnErr result (machine.new ≡ machine.old) }
    ensures counted { (n : ℕ) → Runs (M.footprint (M.origin machine.old)) (M.targets (M.origin machine.old)) [] old.now new.now n → M.count meter.new ≤ M.count meter.old + n }
    ensures few { M.count meter.new ≤ M.count meter.old + length new.now }
    ensures origin { M.origin machine.new ≡ M.origin machine.old }
{
    let kept = common_of(old, new);
    let part = save_end(alloc, machine, old, log, new, kept, fresh)?;
    match replay_from(alloc, machine, old, log, new, kept, readings, meter) {
        Ok(turns) => Ok(ReplayedPart { kept, turns }),
        Err(error) => {
            machine.put_back(part);
            Err(error)
        }
    }
}

/// Entries that are read are kept as they were read, until they run, while their texts have no more bytes than these
/// together. The others are read again.
const MOST_BYTES_READ: usize = 1_048_576;

/// What is fresh: what was read of the first entries, the places that all depend on, and what all access.
#[derive(Drop)]
struct Fresh<R, A> {
    readings: Vec<(Entry, R)>,
    places: Vec<usize>,
    accesses: A,
}

// Keeps what was read of an entry, where its text has at most as many bytes as are left.
fn keep_reading<R: Drop>(
    readings: &mut Vec<(Entry, R)>,
    left: &mut usize,
    entry: &Entry,
    reading: R,
) -> Result<(), AllocError>
    ensures { OnOk result ((readings.new.items ≡ readings.old.items ++ (entry.now, reading) ∷ []) ⊎ (readings.new.items ≡ readings.old.items)) }
{
    if let Some(rest) = left.checked_sub(entry.text.as_str().len()) {
        readings.push((entry.copy()?, reading))?;
        *left = rest;
    }
    Ok(())
}

// Reads the entries, of which each tells the places that it depends on, and what it accesses.
fn read_all<M: Machine>(
    alloc: Global,
    machine: &M,
    entries: &[Entry],
) -> Result<Fresh<M::Reading, M::Accesses>, AllocError>
    ensures places { IfOk result (λ f. (n : ℕ) → IsTargetOf (M.footprint (M.origin machine.now)) entries.now n → Contains f.places.items n) }
    ensures covered { IfOk result (λ f. (e : EntryData) → has entries.now e ≡ true → M.covers (M.origin machine.now) f.accesses e) }
    ensures read { IfOk result (λ f. AreRead (M.is_read (M.origin machine.now)) f.readings.items) }
{
    let mut readings = Vec::new(alloc);
    let mut left = MOST_BYTES_READ;
    let mut places = Vec::new(alloc);
    let mut accesses = machine.no_accesses(alloc)?;
    for entry in entries {
        let reading = machine.read(alloc, entry)?;
        add(&mut places, M::places_of(&reading))?;
        machine.add_accesses(alloc, &mut accesses, &reading)?;
        keep_reading(&mut readings, &mut left, entry, reading)?;
    }
    Ok(Fresh {
        readings,
        places,
        accesses,
    })
}

// The marked old entries, and all that is marked with what is fresh. Where no old one is marked that is what is fresh.
fn mark_both(
    alloc: Global,
    old: &[Entry],
    new: &[Entry],
    marks: Vec<bool>,
    fresh: Marked,
) -> Result<(Marked, Marked), AllocError>
    requires { fresh.entries.items ≡ marked fresh.marks.items new.now }
    ensures old_marks { IfOk result (λ p. p.0.marks.items ≡ marks.items) }
    ensures old { IfOk result (λ p. p.0.entries.items ≡ marked marks.items old.now) }
    ensures new_marks { IfOk result (λ p. p.1.marks.items ≡ with_flagged fresh.marks.items marks.items) }
    ensures new { IfOk result (λ p. p.1.entries.items ≡ marked p.1.marks.items new.now) }
{
    if are_unmarked(&marks) {
        let entries = Vec::new(alloc);
        return Ok((Marked { marks, entries }, fresh));
    }
    let all = with_flagged(alloc, &fresh.marks, &marks)?;
    let entries = marked_entries(alloc, old, &marks)?;
    let all_entries = marked_entries(alloc, new, &all)?;
    let told = Marked { marks, entries };
    let all = Marked {
        marks: all,
        entries: all_entries,
    };
    Ok((told, all))
}

// Marks the old entries and all that is to be told: what is fresh, and each old entry that conflicts with it or with a
// marked one before. Answers copies of those that are marked, and what is fresh.
fn mark_all<M: Machine>(
    alloc: Global,
    machine: &M,
    old: &[Entry],
    log: &[(Stamp, M::Record)],
    new: &[Entry],
) -> Result<(Marked, Marked, Fresh<M::Reading, M::Accesses>), AllocError>
    requires history { (o : M) × Begins M.sound M.origin M.steps o old.now log.now machine.now }
    requires more { AreMore old.now new.now }
    ensures parted { IfOk result (λ p. AreParted (M.commute (M.origin machine.now)) old.now new.now p.0.marks.items p.1.marks.items) }
    ensures old { IfOk result (λ p. p.0.entries.items ≡ marked p.0.marks.items old.now) }
    ensures new { IfOk result (λ p. p.1.entries.items ≡ marked p.1.marks.items new.now) }
    ensures fresh { IfOk result (λ p. AreAmong (M.targets (M.origin machine.now)) p.0.entries.items p.1.entries.items p.2.places.items) }
    ensures read { IfOk result (λ p. AreRead (M.is_read (M.origin machine.now)) p.2.readings.items) }
{
    let fresh = mark_fresh(alloc, old, new)?;
    let mut read = read_all(alloc, machine, &fresh.entries)?;
    let marks = mark_conflicting(alloc, machine, old, log, &mut read.accesses)?;
    let (told, all) = mark_both(alloc, old, new, marks, fresh)?;
    Ok((told, all, read))
}

/// So many records at most are put into a log in place, of which each moves all that is behind it.
const MOST_INSERTED: usize = 8;

// Runs what is marked where no old entry is. No record is taken out of the log: those of the fresh entries come between
// those behind the first so many.
fn replay_beside<M: Machine>(
    alloc: Global,
    machine: &mut M,
    log: &mut Vec<(Stamp, M::Record)>,
    kept: usize,
    all: Marked,
    fresh: &[usize],
    readings: &[(Entry, M::Reading)],
    meter: &mut M::Meter,
) -> Result<(), AllocError>
    requires history { (o : M) × Begins M.sound M.origin M.steps o [] [] machine.old }
    requires more { AreMore [] all.entries.items }
    requires front { kept ≤ length log.old.items }
    requires others { length (drop kept log.old.items) ≡ length (unmarked all.marks.items all.marks.items) }
    requires fresh { AreAmong (M.targets (M.origin machine.old)) [] all.entries.items fresh.now }
    requires read { AreRead (M.is_read (M.origin machine.old)) readings.now }
    ensures history { OnOk result ((records : List (StampData × M.Record)) × (log.new.items ≡ take kept log.old.items ++ interleaved all.marks.items records (drop kept log.old.items)) × ((o : M) → Begins M.sound M.origin M.steps o [] [] machine.old → Begins M.sound M.origin M.steps o all.entries.items records machine.new)) }
    ensures kept { OnErr result ((machine.new ≡ machine.old) × (log.new.items ≡ log.old.items)) }
    ensures counted { (n : ℕ) → Runs (M.footprint (M.origin machine.old)) (M.targets (M.origin machine.old)) [] [] all.entries.items n → M.count meter.new ≤ M.count meter.old + n }
    ensures few { M.count meter.new ≤ M.count meter.old + length all.entries.items }
    ensures origin { M.origin machine.new ≡ M.origin machine.old }
{
    let none = Vec::new(alloc);
    let old = Vec::new(alloc);
    let room = Vec::with_capacity(alloc, all.entries.len())?;
    log.reserve(all.entries.len())?;
    match replay_part(
        alloc,
        machine,
        &none,
        &old,
        &all.entries,
        fresh,
        readings,
        meter,
    ) {
        Ok(ReplayedPart { kept: front, turns }) => {
            let records = settle(old, front, turns, room);
            insert_marked(log, kept, &all.marks, records);
            Ok(())
        }
        Err(error) => Err(error),
    }
}

// Replays what is marked, and puts the records together anew: whatever may fail comes before the log changes.
fn replay_parted<M: Machine>(
    alloc: Global,
    machine: &mut M,
    log: &mut Vec<(Stamp, M::Record)>,
    told: Marked,
    all: Marked,
    fresh: &[usize],
    readings: &[(Entry, M::Reading)],
    meter: &mut M::Meter,
) -> Result<(), AllocError>
    requires history { (o : M) × Begins M.sound M.origin M.steps o told.entries.items (marked told.marks.items log.old.items) machine.old }
    requires more { AreMore told.entries.items all.entries.items }
    requires each { length told.marks.items ≡ length log.old.items }
    requires fresh { AreAmong (M.targets (M.origin machine.old)) told.entries.items all.entries.items fresh.now }
    requires read { AreRead (M.is_read (M.origin machine.old)) readings.now }
    ensures history { OnOk result ((records : List (StampData × M.Record)) × (log.new.items ≡ interleaved all.marks.items records (unmarked told.marks.items log.old.items)) × ((o : M) → Begins M.sound M.origin M.steps o told.entries.items (marked told.marks.items log.old.items) machine.old → Begins M.sound M.origin M.steps o all.entries.items records machine.new)) }
    ensures kept { OnErr result ((machine.new ≡ machine.old) × (log.new.items ≡ log.old.items)) }
    ensures counted { (n : ℕ) → Runs (M.footprint (M.origin machine.old)) (M.targets (M.origin machine.old)) [] told.entries.items all.entries.items n → M.count meter.new ≤ M.count meter.old + n }
    ensures few { M.count meter.new ≤ M.count meter.old + length all.entries.items }
    ensures origin { M.origin machine.new ≡ M.origin machine.old }
{
    let within = Vec::with_capacity(alloc, log.len())?;
    let without = Vec::with_capacity(alloc, log.len())?;
    let room = Vec::with_capacity(alloc, all.entries.len())?;
    let log_room = Vec::with_capacity(alloc, told.marks.len().max(all.marks.len()))?;
    let records = replace(log, Vec::new(alloc));
    let (within, without) = split(records, &told.marks, within, without);
    match replay_part(
        alloc,
        machine,
        &told.entries,
        &within,
        &all.entries,
        fresh,
        readings,
        meter,
    ) {
        Ok(ReplayedPart { kept, turns }) => {
            let within = settle(within, kept, turns, room);
            *log = interleave(&all.marks, within, without, log_room);
            Ok(())
        }
        Err(error) => {
            *log = interleave(&told.marks, within, without, log_room);
            Err(error)
        }
    }
}

// Replays what is marked of the entries behind the first so many, whose records are taken out of the log and put back.
fn replay_behind<M: Machine>(
    alloc: Global,
    machine: &mut M,
    log: &mut Vec<(Stamp, M::Record)>,
    kept: usize,
    told: Marked,
    all: Marked,
    fresh: &[usize],
    readings: &[(Entry, M::Reading)],
    meter: &mut M::Meter,
) -> Result<(), AllocError>
    requires history { (o : M) × Begins M.sound M.origin M.steps o told.entries.items (marked told.marks.items (drop kept log.old.items)) machine.old }
    requires more { AreMore told.entries.items all.entries.items }
    requires front { kept ≤ length log.old.items }
    requires each { length told.marks.items ≡ length (drop kept log.old.items) }
    requires fresh { AreAmong (M.targets (M.origin machine.old)) told.entries.items all.entries.items fresh.now }
    requires read { AreRead (M.is_read (M.origin machine.old)) readings.now }
    ensures history { OnOk result ((records : List (StampData × M.Record)) × (log.new.items ≡ take kept log.old.items ++ interleaved all.marks.items records (unmarked told.marks.items (drop kept log.old.items))) × ((o : M) → Begins M.sound M.origin M.steps o told.entries.items (marked told.marks.items (drop kept log.old.items)) machine.old → Begins M.sound M.origin M.steps o all.entries.items records machine.new)) }
    ensures kept { OnErr result ((machine.new ≡ machine.old) × (log.new.items ≡ log.old.items)) }
    ensures counted { (n : ℕ) → Runs (M.footprint (M.origin machine.old)) (M.targets (M.origin machine.old)) [] told.entries.items all.entries.items n → M.count meter.new ≤ M.count meter.old + n }
    ensures few { M.count meter.new ≤ M.count meter.old + length all.entries.items }
    ensures origin { M.origin machine.new ≡ M.origin machine.old }
{
    log.reserve(all.marks.len().saturating_sub(told.marks.len()))?;
    let mut end = log.split_off(kept)?;
    let ran = replay_parted(alloc, machine, &mut end, told, all, fresh, readings, meter);
    log.append(&mut end).unwrap();
    ran
}

// Replays what is marked of the entries behind the first so many, and leaves all else as it is.
fn replay_marked<M: Machine>(
    alloc: Global,
    machine: &mut M,
    log: &mut Vec<(Stamp, M::Record)>,
    kept: usize,
    told: Marked,
    all: Marked,
    fresh: &[usize],
    readings: &[(Entry, M::Reading)],
    meter: &mut M::Meter,
) -> Result<(), AllocError>
    requires history { (o : M) × Begins M.sound M.origin M.steps o told.entries.items (marked told.marks.items (drop kept log.old.items)) machine.old }
    requires more { AreMore told.entries.items all.entries.items }
    requires front { kept ≤ length log.old.items }
    requires each { length told.marks.items ≡ length (drop kept log.old.items) }
    requires told { (es : List EntryData) × (told.entries.items ≡ marked told.marks.items es) × (length es ≡ length told.marks.items) }
    requires others { length (unmarked told.marks.items (drop kept log.old.items)) ≡ length (unmarked all.marks.items all.marks.items) }
    requires fresh { AreAmong (M.targets (M.origin machine.old)) told.entries.items all.entries.items fresh.now }
    requires read { AreRead (M.is_read (M.origin machine.old)) readings.now }
    ensures history { OnOk result ((records : List (StampData × M.Record)) × (log.new.items ≡ take kept log.old.items ++ interleaved all.marks.items records (unmarked told.marks.items (drop kept log.old.items))) × ((o : M) → Begins M.sound M.origin M.steps o told.entries.items (marked told.marks.items (drop kept log.old.items)) machine.old → Begins M.sound M.origin M.steps o all.entries.items records machine.new)) }
    ensures kept { OnErr result ((machine.new ≡ machine.old) × (log.new.items ≡ log.old.items)) }
    ensures counted { (n : ℕ) → Runs (M.footprint (M.origin machine.old)) (M.targets (M.origin machine.old)) [] told.entries.items all.entries.items n → M.count meter.new ≤ M.count meter.old + n }
    ensures few { M.count meter.new ≤ M.count meter.old + length all.entries.items }
    ensures origin { M.origin machine.new ≡ M.origin machine.old }
{
    if told.entries.is_empty() && all.entries.len() <= MOST_INSERTED {
        return replay_beside(alloc, machine, log, kept, all, fresh, readings, meter);
    }
    replay_behind(alloc, machine, log, kept, told, all, fresh, readings, meter)
}

// Replays a history, as `replay_with` does, of entries that do not begin alike: those behind the first so many.
fn replay_differing_end<M: Machine>(
    alloc: Global,
    machine: &mut M,
    old: &[Entry],
    log: &mut Vec<(Stamp, M::Record)>,
    kept: usize,
    new: &[Entry],
    meter: &mut M::Meter,
) -> Result<(), AllocError>
    requires history { (o : M) × Begins M.sound M.origin M.steps o old.now (drop kept log.old.items) machine.old }
    requires front { kept ≤ length log.old.items }
    requires more { AreMore old.now new.now }
    ensures history { OnOk result ((records : List (StampData × M.Record)) × (log.new.items ≡ take kept log.old.items ++ records) × ((o : M) → Begins M.sound M.origin M.steps o old.now (drop kept log.old.items) machine.old → Begins M.sound M.origin M.steps o new.now records machine.new)) }
    ensures kept { OnErr result ((machine.new ≡ machine.old) × (log.new.items ≡ log.old.items)) }
    ensures counted { (n : ℕ) → Runs (M.footprint (M.origin machine.old)) (M.targets (M.origin machine.old)) [] old.now new.now n → M.count meter.new ≤ M.count meter.old + n }
    ensures few { M.count meter.new ≤ M.count meter.old + length new.now }
    ensures origin { M.origin machine.new ≡ M.origin machine.old }
{
    let (_, records) = log.split_at(kept);
    let (told, all, fresh) = mark_all(alloc, &*machine, old, records, new)?;
    let Fresh {
        readings,
        places,
        accesses,
    } = fresh;
    drop(accesses);
    replay_marked(
        alloc, machine, log, kept, told, all, &places, &readings, meter,
    )
}

/// Leads the machine to the end of the history of the new entries, from the end of that of the old ones, with a record
/// of each in the log, whatever sound state of the machine's origin they began from.
///
/// Of the old entries behind the first fresh one it takes back, from the end, those that conflict with a fresh entry,
/// or with one before them that it takes back. It makes the change of each of these again that is not touched, and runs
/// the others and the fresh ones. An old entry that it leaves commutes with the fresh ones, and with each before it
/// that is taken back: it is not made again either, and its record stays.
///
/// Where memory is wanting all is as it was, and each run that was made is counted.
///
/// Each old entry behind the first fresh one is asked once whether it conflicts. Besides what the machine's calls cost
/// it walks a few times along these entries, by their stamps and not by their texts, and moves their records; an entry
/// that is taken back costs a look at each of its places among the places named, of which each is kept once.
pub fn replay_with<M: Machine>(
    alloc: Global,
    machine: &mut M,
    old: &[Entry],
    log: &mut Vec<(Stamp, M::Record)>,
    new: &[Entry],
    meter: &mut M::Meter,
) -> Result<(), AllocError>
    requires history { (o : M) × Begins M.sound M.origin M.steps o old.now log.old.items machine.old }
    requires more { AreMore old.now new.now }
    ensures history { (o : M) → Begins M.sound M.origin M.steps o old.now log.old.items machine.old → OnOk result (Begins M.sound M.origin M.steps o new.now log.new.items machine.new) }
    ensures kept { OnErr result ((machine.new ≡ machine.old) × (log.new.items ≡ log.old.items)) }
    ensures counted { (n : ℕ) → Runs (M.footprint (M.origin machine.old)) (M.targets (M.origin machine.old)) [] old.now new.now n → M.count meter.new ≤ M.count meter.old + n }
    ensures few { M.count meter.new ≤ M.count meter.old + length new.now }
    ensures origin { M.origin machine.new ≡ M.origin machine.old }
{
    let kept = common_of(old, new);
    let (_, old_end) = old.split_at(kept);
    let (_, new_end) = new.split_at(kept);
    replay_differing_end(alloc, machine, old_end, log, kept, new_end, meter)
}
