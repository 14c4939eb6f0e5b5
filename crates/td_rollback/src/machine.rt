//! Machines that run entries, take them back, and make their changes again.

ghost use Rattle.std.specs.Prelude.{◌≡◌, ◌≤◌, ◌+◌, ℕ, false, true, List, IfOk, OnOk, OnErr};
ghost use Rattle.std.specs.List.{Contains};
ghost use Rattle.td_stamps.specs.declared.entry.Entry.{Entry as EntryData};
ghost use Rattle.td_rollback.specs.Going.{GoByRecords, SoundFrom};
ghost use Rattle.td_rollback.specs.Commuting.{Commutes};

use std::alloc::{AllocError, Global};
use td_stamps::Entry;

/// What runs entries. A run leaves a record, by which it can be taken back, and by which its change can be made again
/// without a run. Places are numbers: what an entry depends on is its footprint, and what it may change are its
/// targets.
pub trait Machine {
    /// What is kept of a run.
    type Record: Drop;

    /// A copy of what some places have.
    type Part: Drop;

    /// What is read of an entry before it is run.
    type Reading: Drop;

    /// What some entries access, so that an entry which conflicts with one of them is found.
    type Accesses: Drop;

    /// What counts runs.
    type Meter;

    /// States that entries may be run from.
    ghost sound: { Self → Type 0 };

    /// The step that an entry makes from a state to a state, with its record.
    ghost steps: { Self → EntryData → Self.Record → Self → Type 0 };

    /// The two states have the same at the place.
    ghost alike: { Self → Self → ℕ → Type 0 };

    /// What histories of one kind began with: no step changes it.
    ghost origin: { Self → Self };

    /// The places that the entry depends on, in a history of that origin.
    ghost footprint: { Self → EntryData → ℕ → Type 0 };

    /// The places that it may change.
    ghost targets: { Self → EntryData → ℕ → Type 0 };

    /// This was read of the entry, in a history of that origin.
    ghost is_read: { Self → EntryData → Self.Reading → Type 0 };

    /// These places as the record of a run names them.
    ghost footprint_in: { Self.Record → List ℕ };

    ghost targets_in: { Self.Record → List ℕ };

    /// The part is a copy of what the state has at these places.
    ghost saved: { Self.Part → List ℕ → Self → Type 0 };

    /// How many runs the meter has counted.
    ghost count: { Self.Meter → ℕ };

    /// The steps of the two entries commute, in a history of that origin.
    ghost commute: { Self → EntryData → EntryData → Type 0 };

    /// What the entry accesses is among these, in a history of that origin.
    ghost covers: { Self → Self.Accesses → EntryData → Type 0 };

    /// Runs the entry. Where memory is wanting nothing has changed, but the run may have been counted.
    fn run(
        &mut self,
        alloc: Global,
        entry: &Entry,
        meter: &mut Self::Meter,
    ) -> Result<Self::Record, AllocError>
        requires { sound self.old }
        ensures step { IfOk result (λ r. steps self.old entry.now r self.new) }
        ensures kept { OnErr result (self.new ≡ self.old) }
        ensures origin { origin self.new ≡ origin self.old }
        ensures counted { count meter.new ≤ count meter.old + 1 };

    /// Reads the entry.
    fn read(&self, alloc: Global, entry: &Entry) -> Result<Self::Reading, AllocError>
        ensures { IfOk result (λ r. is_read (origin self.now) entry.now r) };

    /// Runs an entry of which this was read, as `run` does.
    fn run_read(
        &mut self,
        alloc: Global,
        reading: &Self::Reading,
        meter: &mut Self::Meter,
    ) -> Result<Self::Record, AllocError>
        requires sound { sound self.old }
        requires read { (e : EntryData) × is_read (origin self.old) e reading.now }
        ensures step { (e : EntryData) → is_read (origin self.old) e reading.now → IfOk result (λ r. steps self.old e r self.new) }
        ensures kept { OnErr result (self.new ≡ self.old) }
        ensures origin { origin self.new ≡ origin self.old }
        ensures counted { count meter.new ≤ count meter.old + 1 };

    /// Takes back the run that led here. Where memory is wanting each of its targets may have changed, and nothing
    /// else.
    fn undo(&mut self, alloc: Global, ran: &Self::Record) -> Result<(), AllocError>
        requires { (s : Self) × (e : EntryData) × sound s × steps s e ran.now self.old }
        ensures before { (s : Self) → (e : EntryData) → sound s → steps s e ran.now self.old → OnOk result (self.new ≡ s) }
        ensures elsewhere { (n : ℕ) → (Contains (targets_in ran.now) n → ⊥) → alike self.old self.new n }
        ensures origin { origin self.new ≡ origin self.old };

    /// Makes the change of a run that would have this record here. Where memory is wanting each of its targets may have
    /// changed, and nothing else.
    fn redo(&mut self, alloc: Global, ran: &Self::Record) -> Result<(), AllocError>
        requires { sound self.old × ((t : Self) × (e : EntryData) × steps self.old e ran.now t) }
        ensures after { (t : Self) → (e : EntryData) → steps self.old e ran.now t → OnOk result (self.new ≡ t) }
        ensures elsewhere { (n : ℕ) → (Contains (targets_in ran.now) n → ⊥) → alike self.old self.new n }
        ensures origin { origin self.new ≡ origin self.old };

    /// Places among which are all that an entry depends on of which this was read, and so all that it may change.
    fn places_of(reading: &Self::Reading) -> &[usize]
        ensures { (o : Self) (e : EntryData) → is_read o e reading.now → (n : ℕ) → footprint o e n → Contains result.now n };

    /// The accesses of no entry.
    fn no_accesses(&self, alloc: Global) -> Result<Self::Accesses, AllocError>;

    /// Adds what an entry accesses of which this was read.
    fn add_accesses(
        &self,
        alloc: Global,
        accesses: &mut Self::Accesses,
        reading: &Self::Reading,
    ) -> Result<(), AllocError>
        requires { (e : EntryData) × is_read (origin self.now) e reading.now }
        ensures covered { (e : EntryData) → is_read (origin self.now) e reading.now → OnOk result (covers (origin self.now) accesses.new e) }
        ensures kept { OnOk result ((e : EntryData) → covers (origin self.now) accesses.old e → covers (origin self.now) accesses.new e) };

    /// Whether an entry, whose run left this record, conflicts with one of those whose accesses these are: then its own
    /// are added. An entry that does not conflict commutes with each of them. It may be told to conflict where it
    /// commutes with all.
    fn conflicts(
        &self,
        alloc: Global,
        accesses: &mut Self::Accesses,
        entry: &Entry,
        ran: &Self::Record,
    ) -> Result<bool, AllocError>
        requires { (s : Self) × (t : Self) × sound s × (origin s ≡ origin self.now) × steps s entry.now ran.now t }
        ensures commutes { IfOk result (λ b. b ≡ false → (e : EntryData) → covers (origin self.now) accesses.old e → commute (origin self.now) e entry.now) }
        ensures covered { IfOk result (λ b. b ≡ true → covers (origin self.now) accesses.new entry.now) }
        ensures kept { OnOk result ((e : EntryData) → covers (origin self.now) accesses.old e → covers (origin self.now) accesses.new e) };

    /// A copy of what these places have, and maybe of more.
    fn save(&self, alloc: Global, places: &[usize]) -> Result<Self::Part, AllocError>
        ensures { IfOk result (λ p. saved p places.now self.now) };

    /// Makes the state that a copy is of, where the two are alike at all places that were not copied. It takes no
    /// memory.
    fn put_back(&mut self, part: Self::Part)
        requires { (s : Self) × (ns : List ℕ) × sound s × saved part ns s × (origin s ≡ origin self.old) }
        ensures { (s : Self) → (ns : List ℕ) → sound s → saved part ns s → origin s ≡ origin self.old → ((n : ℕ) → (Contains ns n → ⊥) → alike s self.old n) → self.new ≡ s };

    /// The places on which a run hangs, by its record.
    fn footprint_of(ran: &Self::Record) -> &[usize]
        ensures { result.now ≡ footprint_in ran.now };

    /// The places that a run may change, by its record.
    fn targets_of(ran: &Self::Record) -> &[usize]
        ensures { result.now ≡ targets_in ran.now };

    /// Steps that commute may be exchanged, in each history.
    ghost commutes: { (o : Self) → Commutes (SoundFrom sound origin o) steps (commute o) };

    /// Steps go by their records, in each history.
    ghost goes: { (o : Self) → GoByRecords (SoundFrom sound origin o) steps alike (footprint o) (targets o) footprint_in targets_in };
}
