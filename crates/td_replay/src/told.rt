//! What running entries in turn gives.

ghost use Rattle.std.specs.Prelude.{◌≡◌, ◌≤◌, ◌+◌, ◌↔◌, ◌++◌, ◌∷◌, [], ℕ, List, IfOk, IsOk, IsTrue, None, OnErr, OnOk, length};
ghost use Rattle.td_semantics.specs.Databases.{IsLegal};
ghost use Rattle.td_semantics.specs.Scripts.{OpensOn};
ghost use Rattle.td_stamps.specs.Checks.{check_of};
ghost use Rattle.td_stamps.specs.Sets.{union};
ghost use Rattle.td_semantics.specs.declared.outcome.Outcome.TheVariants as became;
ghost use Rattle.td_rollback.specs.Touched.{AreMore};
ghost use Rattle.td_replay.specs.Counted.{RunsOver};
ghost use Rattle.td_replay.specs.Noted.{IsLegalDatabase, opened_by};
ghost use Rattle.td_replay.specs.declared.told.Way.TheVariants as by;
ghost use Rattle.td_replay.specs.ForProofs.Told.{HoldsNext, IsAccepted, IsLogged, RunsSome, TellsNext, outcomes_of};
ghost use Rattle.td_replay.specs.ForProofs.Trying.{WouldTell};

use crate::engine::Engine;
use std::alloc::{AllocError, Global};
use td_assign::Ran;
use td_relvars::Database;
use td_rollback::{Machine, replay_with};
use td_semantics::{Meter, Outcome, ScriptError};
use td_stamps::{Entry, Held, Stamp};

/// How more entries are told: all of them anew, or by rollback and replay.
#[derive(Clone, Copy)]
pub(crate) enum Way {
    Anew,
    Replay,
}

/// The database after some entries, and what is kept of the run of each, with its stamp.
pub(crate) struct Told {
    pub engine: Engine,
    pub log: Vec<(Stamp, Ran)>,
}

// By hand, since a derived one is proved anew at each place where one is dropped: this one is a call there.
impl Drop for Told {
    fn drop(self) {
        let Told { engine: _, log: _ } = self;
    }
}

// Whether the text of the statement has no reading or no typing.
fn is_unread(outcome: &Outcome) -> bool
    ensures { IsTrue result ↔ (outcome.now ≡ became.Unread) }
{
    matches!(outcome, Outcome::Unread)
}

// A copy of an outcome; that nothing hindered the statement takes no memory to be copied.
fn copy_of(outcome: &Outcome) -> Result<Outcome, AllocError>
    ensures copy { IfOk result (λ o. o ≡ outcome.now) }
    ensures undone { OnErr result (outcome.now ≡ became.Done → ⊥) }
{
    match outcome {
        Outcome::Done => Ok(Outcome::Done),
        _ => outcome.copy(),
    }
}

impl Told {
    /// That of no entries, over what a script opens.
    pub fn begun(alloc: Global, database: Database) -> Result<Told, AllocError>
        requires { IsLegal database }
        ensures { (script : List ℕ) → OpensOn script None database → IfOk result (λ t. IsLogged script [] t.log.items t.engine) }
    {
        Ok(Told {
            engine: Engine::of(alloc, database)?,
            log: Vec::new(alloc),
        })
    }

    // Runs one entry more.
    fn run_next(
        &mut self,
        alloc: Global,
        entry: &Entry,
        meter: &mut Meter,
    ) -> Result<(), AllocError>
        requires { IsLegalDatabase self.old.engine }
        ensures counted { meter.new.count ≤ meter.old.count + 1 }
        ensures ran { OnOk result (RunsSome self.old.engine self.old.log.items entry.now self.new.engine self.new.log.items) }
    {
        let ran = self.engine.run(alloc, entry, meter)?;
        self.log.push((entry.stamp(), ran))?;
        Ok(())
    }

    // Runs one entry more and answers its outcome. One that is unread is not kept; it and want of memory leave all as
    // it was.
    fn tell_next(
        &mut self,
        alloc: Global,
        entry: &Entry,
        meter: &mut Meter,
    ) -> Result<Option<Outcome>, AllocError>
        requires { IsLegalDatabase self.old.engine }
        ensures counted { meter.new.count ≤ meter.old.count + 1 }
        ensures told { TellsNext self.old.engine self.old.log.items entry.now result self.new.engine self.new.log.items }
    {
        self.log.reserve(1)?;
        let ran = self.engine.run(alloc, entry, meter)?;
        if is_unread(&ran.outcome) {
            return Ok(None);
        }
        let told = copy_of(&ran.outcome)?;
        self.log.push((entry.stamp(), ran)).unwrap();
        Ok(Some(told))
    }

    /// The outcome that one entry more would have; none if it is unread.
    pub fn try_next(&self, alloc: Global, entry: &Entry) -> Result<Option<Outcome>, AllocError>
        requires { IsLegalDatabase self.now.engine }
        ensures { WouldTell self.now.engine self.now.log.items entry.now result }
    {
        let tried = self.engine.try_run(alloc, entry)?;
        if !is_unread(&tried.outcome) {
            return Ok(Some(tried.outcome));
        }
        Ok(None)
    }

    // Tells more entries than were told, of which it runs those that are fresh or touched. Want of memory leaves all as
    // it was.
    fn replay(
        &mut self,
        alloc: Global,
        old: &[Entry],
        new: &[Entry],
        meter: &mut Meter,
    ) -> Result<(), AllocError>
        requires logged { (script : List ℕ) × IsLogged script old.now self.old.log.items self.old.engine }
        requires more { AreMore old.now new.now }
        ensures logged { (script : List ℕ) → IsLogged script old.now self.old.log.items self.old.engine → OnOk result (IsLogged script new.now self.new.log.items self.new.engine) }
        ensures kept { OnErr result ((self.new.engine ≡ self.old.engine) × (self.new.log.items ≡ self.old.log.items)) }
        ensures few { meter.new.count ≤ meter.old.count + length new.now }
        ensures counted { (n : ℕ) → RunsOver (opened_by self.old.engine.catalogue) old.now new.now n → meter.new.count ≤ meter.old.count + n }
    {
        replay_with(alloc, &mut self.engine, old, &mut self.log, new, meter)
    }

    /// Tells more entries than were told, in this way. Want of memory leaves all as it was.
    pub fn tell_more(
        &mut self,
        alloc: Global,
        way: Way,
        script: &str,
        old: &[Entry],
        new: &[Entry],
        meter: &mut Meter,
    ) -> Result<(), AllocError>
        requires logged { IsLogged script.now old.now self.old.log.items self.old.engine }
        requires more { AreMore old.now new.now }
        ensures logged { OnOk result (IsLogged script.now new.now self.new.log.items self.new.engine) }
        ensures kept { OnErr result ((self.new.engine ≡ self.old.engine) × (self.new.log.items ≡ self.old.log.items)) }
        ensures few { meter.new.count ≤ meter.old.count + length new.now }
        ensures counted { way ≡ by.Replay → (n : ℕ) → RunsOver (opened_by self.old.engine.catalogue) old.now new.now n → meter.new.count ≤ meter.old.count + n }
    {
        // Where nothing was told nothing is touched, so no entry need be asked what it hangs on.
        match way {
            Way::Anew => *self = tell_all(alloc, script, new, meter)?,
            Way::Replay if old.is_empty() => *self = tell_all(alloc, script, new, meter)?,
            Way::Replay => self.replay(alloc, old, new, meter)?,
        }
        Ok(())
    }
}

// What the script opens. It opened before, so no refusal but want of memory comes.
fn open_database(alloc: Global, script: &str) -> Result<Database, AllocError>
    requires { IsAccepted script.now }
    ensures opens { IfOk result (OpensOn script.now None) }
    ensures legal { IfOk result IsLegal }
{
    match Database::open_script(alloc, script) {
        Ok(database) => Ok(database),
        Err(error) => match error {
            ScriptError::OutOfMemory => Err(AllocError),
            _ => unreachable!(),
        },
    }
}

/// What running the entries once, in turn, from what the script opens gives.
pub(crate) fn tell_all(
    alloc: Global,
    script: &str,
    entries: &[Entry],
    meter: &mut Meter,
) -> Result<Told, AllocError>
    requires { IsAccepted script.now }
    ensures counted { meter.new.count ≤ meter.old.count + length entries.now }
    ensures told { IfOk result (λ t. IsLogged script.now entries.now t.log.items t.engine) }
{
    let mut told = Told::begun(alloc, open_database(alloc, script)?)?;
    for entry in entries {
        told.run_next(alloc, entry, meter)?;
    }
    Ok(told)
}

/// Adds an entry that comes after all that is held, runs it, and answers its outcome. One that is unread is not kept;
/// it and want of memory leave all as it was.
pub(crate) fn add_last(
    alloc: Global,
    held: &mut Held,
    told: &mut Told,
    entry: Entry,
    meter: &mut Meter,
) -> Result<Option<Outcome>, AllocError>
    requires fits { IsOk (check_of held.old.entries held.old.limit (entry ∷ [])) }
    requires last { union held.old.entries (entry ∷ []) ≡ held.old.entries ++ entry ∷ [] }
    requires sound { IsLegalDatabase told.old.engine }
    ensures counted { meter.new.count ≤ meter.old.count + 1 }
    ensures ran { TellsNext told.old.engine told.old.log.items entry result told.new.engine told.new.log.items }
    ensures holds { HoldsNext held.old entry result held.new }
{
    let batch = [entry];
    held.add(alloc, &batch)?;
    let [entry] = &batch;
    match told.tell_next(alloc, entry, meter) {
        Ok(Some(outcome)) => Ok(Some(outcome)),
        Ok(None) => {
            held.pop_last();
            Ok(None)
        }
        Err(error) => {
            held.pop_last();
            Err(error)
        }
    }
}

/// Copies of the outcomes, with their stamps.
pub(crate) fn outcomes(
    alloc: Global,
    log: &[(Stamp, Ran)],
) -> Result<Vec<(Stamp, Outcome)>, AllocError>
    ensures { IfOk result (λ outcomes. outcomes.items ≡ outcomes_of log.now) }
{
    let mut outcomes = Vec::with_capacity(alloc, log.len())?;
    for (stamp, ran) in log {
        outcomes.push((*stamp, ran.outcome.copy()?))?;
    }
    Ok(outcomes)
}
