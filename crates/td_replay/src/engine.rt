//! The database of one script, as a machine that runs entries, takes them back and makes their changes again.

ghost use Rattle.std.specs.Prelude.{◌≡◌, false, true, ℕ, List, IfOk, OnOk};
ghost use Rattle.td_accesses.specs.Commuting.{Commute};
ghost use Rattle.td_accesses.specs.Covering.{Covers};
ghost use Rattle.td_assign.specs.Readings.{IsReadText};
ghost use Rattle.td_replay.specs.Noted.{AgreeAt, AreTargetsOf, IsFootprintOf, IsLegalDatabase, Notes, opened_by};
ghost use Rattle.td_relvars.specs.Parts.{AreTheirs, part_of};
ghost use Rattle.td_semantics.specs.Databases.{IsDatabase};
ghost use Rattle.td_replay.specs.ForProofs.Going.{go};
ghost use Rattle.td_replay.specs.ForProofs.Trying.{WouldNote};
ghost use Rattle.td_replay.specs.ForProofs.Exchanging.{exchanges};

use crate::accessing::{add_reading, add_record, conflicts, reading_conflicts};
use std::alloc::{AllocError, Global};
use std::marker::Model;
use td_accesses::{Accesses, Dependencies};
use td_assign::{KnownNames, Ran, ReadText, read, redo, run, run_read, try_read, undo};
use td_relvars::{Database, Part};
use td_rollback::Machine;
use td_semantics::Meter;
use td_stamps::Entry;

/// The database of one script, with the dependencies of its catalogue, and the lists of relvars that records share.
pub(crate) struct Engine {
    database: Database,
    dependencies: Dependencies,
    known: KnownNames,
}

// By hand, since a derived one is proved anew at each place where an engine is dropped: this one is a call there.
impl Drop for Engine {
    fn drop(self) {
        let Engine {
            database: _,
            dependencies: _,
            known: _,
        } = self;
    }
}

impl Model for Engine {
    ghost use Rattle.td_accesses.specs.Dependencies.{AreDependencies};
    ghost use Rattle.td_semantics.specs.Databases.{DatabaseData, database_code};

    ghost Value = { DatabaseData };

    ghost coded = { database_code };

    ghost view = { λ e. e.database };

    ghost invariant = { λ e. AreDependencies e.database.catalogue e.dependencies.relvars.items };
}

impl Engine {
    /// One that begins with this database.
    pub fn of(alloc: Global, database: Database) -> Result<Engine, AllocError>
        ensures same { IfOk result (λ e. e ≡ database) }
        ensures database { IfOk result IsDatabase }
    {
        database.relvars_fit();
        let dependencies = Dependencies::of(alloc, database.catalogue())?;
        let known = KnownNames::none(alloc, database.catalogue().schema().relvar_count())?;
        Ok(Engine {
            database,
            dependencies,
            known,
        })
    }

    /// The database.
    pub fn database(&self) -> &Database
        ensures same { result.now ≡ self.now }
    {
        &self.database
    }

    /// What running the entry would give.
    pub fn try_run(&self, alloc: Global, entry: &Entry) -> Result<Ran, AllocError>
        requires { IsLegalDatabase self.now }
        ensures { IfOk result (WouldNote self.now entry.now) }
    {
        let text = entry.text.as_str();
        let reading = read(alloc, self.database.catalogue(), text, entry.dialect)?;
        try_read(alloc, &self.database, &reading)
    }

    // Whether the entry conflicts with one of those whose accesses these are, by what its text inserts: then its own
    // are added.
    fn conflicts_by_text(
        &self,
        alloc: Global,
        accesses: &mut Accesses,
        entry: &Entry,
    ) -> Result<bool, AllocError>
        ensures commutes { IfOk result (λ r. r ≡ false → (k : ℕ) (a : List ℕ) → Covers self.now.catalogue accesses.old k a → Commute self.now.catalogue k a entry.now.dialect entry.now.text) }
        ensures covered { IfOk result (λ r. r ≡ true → Covers self.now.catalogue accesses.new entry.now.dialect entry.now.text) }
        ensures kept { OnOk result ((k : ℕ) (a : List ℕ) → Covers self.now.catalogue accesses.old k a → Covers self.now.catalogue accesses.new k a) }
    {
        let text = entry.text.as_str();
        let reading = read(alloc, self.database.catalogue(), text, entry.dialect)?;
        if !reading_conflicts(
            alloc,
            &self.database,
            &self.dependencies,
            &*accesses,
            &reading,
        )? {
            return Ok(false);
        }
        add_reading(
            alloc,
            &self.database,
            &self.dependencies,
            accesses,
            &reading,
        )?;
        Ok(true)
    }
}

impl Machine for Engine {
    type Record = Ran;

    type Part = Part;

    type Reading = ReadText;

    type Accesses = Accesses;

    type Meter = Meter;

    ghost sound = { IsLegalDatabase };

    ghost steps = { Notes };

    ghost alike = { AgreeAt };

    ghost origin = { λ d. opened_by d.catalogue };

    ghost footprint = { IsFootprintOf };

    ghost targets = { AreTargetsOf };

    ghost is_read = { λ o e r. IsReadText o.catalogue e.dialect e.text r };

    ghost footprint_in = { λ r. r.names.footprint.items };

    ghost targets_in = { λ r. r.names.targets.items };

    ghost saved = { λ p ns d. (p.copies ≡ part_of d.stored ns) × AreTheirs d.catalogue p };

    ghost count = { λ m. m.count };

    ghost commute = { λ o e f. Commute o.catalogue e.dialect e.text f.dialect f.text };

    ghost covers = { λ o x e. Covers o.catalogue x e.dialect e.text };

    fn run(&mut self, alloc: Global, entry: &Entry, meter: &mut Meter) -> Result<Ran, AllocError> {
        let text = entry.text.as_str();
        let ran = run(alloc, &mut self.database, text, entry.dialect, meter)?;
        Ok(self.known.share(ran))
    }

    fn read(&self, alloc: Global, entry: &Entry) -> Result<ReadText, AllocError> {
        let text = entry.text.as_str();
        read(alloc, self.database.catalogue(), text, entry.dialect)
    }

    fn run_read(
        &mut self,
        alloc: Global,
        reading: &ReadText,
        meter: &mut Meter,
    ) -> Result<Ran, AllocError> {
        let ran = run_read(alloc, &mut self.database, reading, meter)?;
        Ok(self.known.share(ran))
    }

    fn undo(&mut self, alloc: Global, ran: &Ran) -> Result<(), AllocError> {
        undo(alloc, &mut self.database, &ran.delta)
    }

    fn redo(&mut self, alloc: Global, ran: &Ran) -> Result<(), AllocError> {
        redo(alloc, &mut self.database, &ran.delta)
    }

    fn places_of(reading: &ReadText) -> &[usize] {
        reading.names.get().footprint.as_slice()
    }

    fn no_accesses(&self, alloc: Global) -> Result<Accesses, AllocError> {
        Ok(Accesses::none(alloc))
    }

    fn add_accesses(
        &self,
        alloc: Global,
        accesses: &mut Accesses,
        reading: &ReadText,
    ) -> Result<(), AllocError> {
        add_reading(alloc, &self.database, &self.dependencies, accesses, reading)
    }

    fn conflicts(
        &self,
        alloc: Global,
        accesses: &mut Accesses,
        entry: &Entry,
        ran: &Ran,
    ) -> Result<bool, AllocError> {
        if !conflicts(alloc, &self.dependencies, &*accesses, ran)? {
            return Ok(false);
        }
        // The record of what changed nothing, as of an INSERT that was refused, has no tuples.
        if ran.delta.is_empty() {
            return self.conflicts_by_text(alloc, accesses, entry);
        }
        add_record(alloc, &self.database, &self.dependencies, accesses, ran)?;
        Ok(true)
    }

    fn save(&self, alloc: Global, places: &[usize]) -> Result<Part, AllocError> {
        self.database.copy_at(alloc, places)
    }

    fn put_back(&mut self, part: Part) {
        self.database.relvars_fit();
        self.database.put_back(part);
    }

    fn footprint_of(ran: &Ran) -> &[usize] {
        ran.names.get().footprint.as_slice()
    }

    fn targets_of(ran: &Ran) -> &[usize] {
        ran.names.get().targets.as_slice()
    }

    ghost commutes = { exchanges };

    ghost goes = { go };
}
