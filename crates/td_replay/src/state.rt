//! What a site keeps, and what both kinds of sites do.

ghost use Rattle.std.specs.Prelude.{◌≡◌, ◌≤◌, ◌+◌, ℕ, Err, IfOk, IsOk, MatchOption, MatchResult, Ok, OnErr, OnOk, false, length, true};
ghost use Rattle.std.specs.List.Sorted.{IsPartitionPoint};
ghost use Rattle.td_changes.specs.Changes.{TellsChanges};
ghost use Rattle.td_stamps.specs.Entries.{before};
ghost use Rattle.td_stamps.specs.Sets.{is_set, union};
ghost use Rattle.td_replica.specs.Calls.{Asks, Issues, Takes, TellsOutcomes, TellsValue, entry_of};
ghost use Rattle.td_replica.specs.NewSites.{OpensSite};
ghost use Rattle.td_replica.specs.Past.{AsksAt, HasNoPlace};
ghost use Rattle.td_replica.specs.Seen.{IsSound, always_open, holding};
ghost use Rattle.td_replica.specs.declared.refusal.IssueError.TheVariants as issue_error;
ghost use Rattle.td_replica.specs.declared.refusal.TakeError.{TakeError};
ghost use Rattle.td_replica.specs.declared.refusal.TakeError.TheVariants as take_error;
ghost use Rattle.td_semantics.specs.Scripts.{IsScriptOf};
ghost use Rattle.td_replay.specs.Counted.{RunsIn};
ghost use Rattle.td_replay.specs.declared.told.Way.TheVariants as by;
ghost use Rattle.td_replay.specs.ForProofs.Past.{EndsWith, as_past, entry_at};
ghost use Rattle.td_replay.specs.ForProofs.Told.{Numbers};
ghost use Rattle.td_trials.specs.Trials.{Tries};

use crate::asked;
use crate::asked::{ask_anew, ask_back, query_of};
use crate::judged::{judge, refusal};
use crate::told::{Told, Way, add_last, outcomes};
use std::alloc::Global;
use std::marker::Model;
use td_changes::ChangedError;
use td_grammar::LATEST;
use td_headings::Catalogue;
use td_relations::{Delta, Relation};
use td_relvars::Database;
use td_replica::{
    AskError, IssueError, Issued, MOST_BYTES, MOST_ENTRIES, OpenError, PastError, TakeError, Taken,
    TellError, ValueError,
};
use td_semantics::{Answer, Meter, Outcome};
use td_stamps::{Entry, Held, NextError, PrepareError, Stamp};
use td_values::{Name, Text};

// Whether the entry's clock, or its site where the clocks are equal, comes before that of the stamp.
fn is_before(entry: &Entry, at: Stamp) -> bool
    ensures { result ≡ before entry.now (entry_at at) }
{
    entry.clock < at.clock || entry.clock == at.clock && entry.site < at.site
}

// How many entries come before this stamp, by a binary search.
fn count_before(entries: &[Entry], at: Stamp) -> usize
    requires { is_set entries.now ≡ true }
    ensures bound { result ≤ length entries.now }
    ensures place { IsPartitionPoint (λ e. before e (entry_at at) ≡ true) (λ e. before e (entry_at at) ≡ false) entries.now result }
{
    entries.partition_point(|entry| is_before(entry, at))
}

// How many entries there are up to that of this stamp.
fn length_up_to(entries: &[Entry], at: Stamp) -> Option<usize>
    requires { is_set entries.now ≡ true }
    ensures { MatchOption result (HasNoPlace at entries.now) (EndsWith at entries.now) }
{
    let place = count_before(entries, at);
    if place >= entries.len() {
        return None;
    }
    if entries[place].stamp() == at {
        return Some(place + 1);
    }
    None
}

// The same refusal, of a query just after an entry.
fn past_error(error: AskError) -> PastError
    ensures { result ≡ as_past error }
{
    match error {
        AskError::Broken => PastError::Broken,
        AskError::Syntax => PastError::Syntax,
        AskError::IllTyped => PastError::IllTyped,
        AskError::OutOfMemory => PastError::OutOfMemory,
    }
}

/// What a site keeps: what it started from, the entries that it holds, and what came of each.
pub(crate) struct State {
    script: Text,
    site: u16,
    held: Held,
    told: Told,
}

// By hand, since a derived one is proved anew at each place where one is dropped: this one is a call there.
impl Drop for State {
    fn drop(self) {
        let State {
            script: _,
            site: _,
            held: _,
            told: _,
        } = self;
    }
}

impl Model for State {
    ghost use Rattle.std.specs.Prelude.{◌≡◌, ◌≤◌, true};
    ghost use Rattle.td_replica.specs.Seen.{Contents, is_limit};
    ghost use Rattle.td_replay.specs.ForProofs.Told.{IsLogged};

    ghost Value = { Contents };

    ghost view = { λ s. record { script = s.script; site = s.site; limit = s.held.limit; entries = s.held.entries } };

    ghost invariant = { λ s. (1 ≤ s.site) × (is_limit s.held.limit ≡ true) × IsLogged s.script s.held.entries s.told.log.items s.told.engine };
}

impl State {
    /// One that holds nothing.
    pub fn open_script(
        alloc: Global,
        script: &str,
        site: u16,
        limit: usize,
    ) -> Result<State, OpenError>
        ensures { MatchResult result (λ s. OpensSite script.now site limit (Ok (always_open s))) (λ e. OpensSite script.now site limit (Err e)) }
    {
        if site == 0 {
            return Err(OpenError::BadSite);
        }
        if limit == 0 || limit > MOST_ENTRIES {
            return Err(OpenError::BadLimit);
        }
        let database = match Database::open_script(alloc, script) {
            Ok(database) => database,
            Err(error) => return Err(OpenError::from(error)),
        };
        let script = match Text::from_str(alloc, script) {
            Ok(script) => script,
            Err(_) => return Err(OpenError::OutOfMemory),
        };
        let told = match Told::begun(alloc, database) {
            Ok(told) => told,
            Err(_) => return Err(OpenError::OutOfMemory),
        };
        Ok(State {
            script,
            site,
            held: Held::new(alloc, limit),
            told,
        })
    }

    // The next entry, with this text.
    fn next_entry(&self, alloc: Global, text: &str) -> Result<Entry, IssueError>
        ensures { Numbers (always_open self.now) text.now result }
    {
        let (seq, clock) = match self.held.next(self.site) {
            Ok(numbers) => numbers,
            Err(NextError::ClockEnd) => return Err(IssueError::ClockEnd),
        };
        if self.held.len() >= self.held.limit() {
            return Err(IssueError::Full);
        }
        match Text::from_str(alloc, text) {
            Ok(text) => Ok(Entry {
                site: self.site,
                seq,
                clock,
                dialect: LATEST,
                text,
            }),
            Err(_) => Err(IssueError::OutOfMemory),
        }
    }

    // Adds the next entry, with this text, where it is read.
    fn issue_entry(
        &mut self,
        alloc: Global,
        entry: Entry,
        text: &str,
        meter: &mut Meter,
    ) -> Result<Issued, IssueError>
        requires next { entry_of (always_open self.old) text.now ≡ Ok entry }
        requires short { length text.now ≤ 8192 }
        ensures issues { Issues (always_open self.old) text.now result (always_open self.new) }
        ensures journal { result ≡ Err issue_error.JournalWrite → ⊥ }
        ensures meter { meter.new.count ≤ meter.old.count + 1 }
    {
        let stamp = entry.stamp();
        let outcome = match add_last(alloc, &mut self.held, &mut self.told, entry, meter) {
            Ok(Some(outcome)) => outcome,
            Ok(None) => return Err(refusal(alloc, self.told.engine.database().catalogue(), text)),
            Err(_) => return Err(IssueError::OutOfMemory),
        };
        Ok(Issued { stamp, outcome })
    }

    // Why a text is refused that has no next entry: what is wrong with it stands before that.
    fn first_refusal(&self, alloc: Global, text: &str, error: IssueError) -> IssueError
        requires numbers { Numbers (always_open self.now) text.now (Err error) }
        requires short { length text.now ≤ 8192 }
        ensures issues { Issues (always_open self.now) text.now (Err result) (always_open self.now) }
        ensures journal { result ≡ issue_error.JournalWrite → ⊥ }
    {
        match judge(alloc, self.told.engine.database().catalogue(), text) {
            Ok(()) => error,
            Err(refusal) => refusal,
        }
    }

    // The next entry, with this text, or the first cause for which there is none.
    fn checked_entry(&self, alloc: Global, text: &str) -> Result<Entry, IssueError>
        ensures next { IfOk result (λ e. entry_of (always_open self.now) text.now ≡ Ok e) }
        ensures short { IsOk result → length text.now ≤ 8192 }
        ensures refused { MatchResult result (λ e. Unit {0}) (λ error. Issues (always_open self.now) text.now (Err error) (always_open self.now)) }
        ensures journal { result ≡ Err issue_error.JournalWrite → ⊥ }
    {
        // It shows that the site is open, and does nothing when it runs.
        let _site = &self.site;
        if text.len() > MOST_BYTES {
            return Err(IssueError::Syntax);
        }
        match self.next_entry(alloc, text) {
            Ok(entry) => Ok(entry),
            Err(error) => Err(self.first_refusal(alloc, text, error)),
        }
    }

    /// Issues a statement: adds the site's next entry with this text, and runs it.
    pub fn issue(
        &mut self,
        alloc: Global,
        text: &str,
        meter: &mut Meter,
    ) -> Result<Issued, IssueError>
        ensures issues { Issues (always_open self.old) text.now result (always_open self.new) }
        ensures journal { result ≡ Err issue_error.JournalWrite → ⊥ }
        ensures meter { meter.new.count ≤ meter.old.count + 1 }
    {
        let entry = match self.checked_entry(alloc, text) {
            Ok(entry) => entry,
            Err(error) => return Err(error),
        };
        self.issue_entry(alloc, entry, text, meter)
    }

    // What the next entry, with this text, would come to.
    fn try_entry(&self, alloc: Global, entry: &Entry, text: &str) -> Result<Outcome, IssueError>
        requires next { entry_of (always_open self.now) text.now ≡ Ok entry.now }
        requires short { length text.now ≤ 8192 }
        ensures { Tries (always_open self.now) text.now result }
    {
        match self.told.try_next(alloc, entry) {
            Ok(Some(outcome)) => Ok(outcome),
            Ok(None) => Err(refusal(alloc, self.told.engine.database().catalogue(), text)),
            Err(_) => Err(IssueError::OutOfMemory),
        }
    }

    /// The outcome that issuing a text would have, or why it would be refused. Nothing changes.
    pub fn try_issue(&self, alloc: Global, text: &str) -> Result<Outcome, IssueError>
        ensures { Tries (always_open self.now) text.now result }
    {
        match self.checked_entry(alloc, text) {
            Ok(entry) => self.try_entry(alloc, &entry, text),
            Err(error) => Err(error),
        }
    }

    /// All that may fail comes before what is held changes.
    pub fn take(
        &mut self,
        alloc: Global,
        batch: &[Entry],
        way: Way,
        meter: &mut Meter,
    ) -> Result<Taken, TakeError>
        ensures takes { Takes (always_open self.old) batch.now result (always_open self.new) }
        ensures journal { result ≡ Err take_error.JournalWrite → ⊥ }
        ensures few { meter.new.count ≤ meter.old.count + length (union self.old.entries batch.now) }
        ensures counted { way ≡ by.Replay → (n : ℕ) → RunsIn (always_open self.old) batch.now n → meter.new.count ≤ meter.old.count + n }
        ensures unrun { (e : TakeError) → result ≡ Err e → (e ≡ take_error.OutOfMemory → ⊥) → meter.new.count ≡ meter.old.count }
    {
        let prepared = match self.held.prepare(alloc, batch) {
            Ok(prepared) => prepared,
            Err(PrepareError::BadEntry) => return Err(TakeError::BadEntry),
            Err(PrepareError::Clash { site, seq }) => return Err(TakeError::Clash { site, seq }),
            Err(PrepareError::Full) => return Err(TakeError::Full),
            Err(PrepareError::OutOfMemory) => return Err(TakeError::OutOfMemory),
        };
        let entries = self.held.entries();
        let fresh = prepared.fresh();
        if fresh == 0 {
            return Ok(Taken {
                fresh: 0,
                known: batch.len(),
            });
        }
        let script = self.script.as_str();
        let more = prepared.entries();
        if let Err(_) = self
            .told
            .tell_more(alloc, way, script, entries, more, meter)
        {
            return Err(TakeError::OutOfMemory);
        }
        self.held.commit(prepared);
        Ok(Taken {
            fresh,
            known: batch.len() - fresh,
        })
    }

    /// What a query means over the database after all entries that are held.
    pub fn ask(&self, alloc: Global, text: &str) -> Result<Answer, AskError>
        ensures { Asks (always_open self.now) text.now result }
    {
        asked::ask(alloc, self.told.engine.database(), text)
    }

    /// Just after the entry of this stamp: by what came later taken back, or by running what came before anew.
    pub fn ask_at(
        &self,
        alloc: Global,
        text: &str,
        at: Stamp,
        way: Way,
        meter: &mut Meter,
    ) -> Result<Answer, PastError>
        ensures asks { AsksAt (always_open self.now) text.now at result }
        ensures few { meter.new.count ≤ meter.old.count + length self.now.entries }
        ensures nothing { way ≡ by.Replay → meter.new.count ≡ meter.old.count }
    {
        let told = &self.told;
        let query = match query_of(alloc, told.engine.database().catalogue(), text) {
            Ok(query) => query,
            Err(error) => return Err(past_error(error)),
        };
        let entries = self.held.entries();
        let Some(kept) = length_up_to(entries, at) else {
            return Err(PastError::NoPlace);
        };
        let asked = match way {
            Way::Anew => {
                let script = self.script.as_str();
                ask_anew(alloc, script, entries, &query, kept, meter)
            }
            Way::Replay => ask_back(alloc, told, &query, kept),
        };
        match asked {
            Ok(asked) => Ok(asked),
            Err(_) => Err(PastError::OutOfMemory),
        }
    }

    /// What the entry of this stamp changed, as its run is kept.
    pub fn changed_by(&self, at: Stamp) -> Result<&[(usize, Delta)], ChangedError>
        ensures { MatchResult result
            (λ changes. TellsChanges (always_open self.now) at (Ok changes.now))
            (λ error. TellsChanges (always_open self.now) at (Err error)) }
    {
        let Some(kept) = length_up_to(self.held.entries(), at) else {
            return Err(ChangedError::NoPlace);
        };
        Ok(self.told.log[kept - 1].1.delta.as_slice())
    }

    /// What the relvar of this name has after all entries that are held, or the error that it raises.
    pub fn value_of(&self, alloc: Global, name: &Name) -> Result<Answer<Relation>, ValueError>
        ensures { TellsValue (always_open self.now) name.now result }
    {
        asked::value_of(alloc, self.told.engine.database(), name)
    }

    /// What became of each entry that is held, with its stamp, in stamp order.
    pub fn outcomes(&self, alloc: Global) -> Result<Vec<(Stamp, Outcome)>, TellError>
        ensures { MatchResult result (λ v. TellsOutcomes (always_open self.now) (Ok v.items)) (λ e. TellsOutcomes (always_open self.now) (Err e)) }
    {
        match outcomes(alloc, &self.told.log) {
            Ok(outcomes) => Ok(outcomes),
            Err(_) => Err(TellError::OutOfMemory),
        }
    }

    /// The catalogue of the script.
    pub fn catalogue(&self) -> &Catalogue
        ensures { IsScriptOf self.now.script result.now }
    {
        self.told.engine.database().catalogue()
    }

    pub fn held(&self) -> &Held
        ensures { result.now ≡ holding (always_open self.now) }
    {
        &self.held
    }

    /// The number of the site, from 1 on.
    pub fn site(&self) -> u16
        ensures number { result ≡ self.now.site }
        ensures sound { IsSound (always_open self.now) }
    {
        // They show that a set within its limit is held, and do nothing when they run.
        let _entries = self.held.entries();
        self.site
    }

    pub fn script(&self) -> &str
        ensures { result.now ≡ self.now.script }
    {
        self.script.as_str()
    }
}
