//! A site that rolls back and replays where it takes statements: of those that it holds it runs anew only what others
//! can touch.

ghost use Rattle.std.specs.Prelude.{◌≡◌, ◌≤◌, ◌+◌, ℕ, Err, length, refl};
ghost use Rattle.td_stamps.specs.Sets.{union};
ghost use Rattle.td_replica.specs.Calls.{Issues, Takes};
ghost use Rattle.td_replica.specs.Past.{AsksAt};
ghost use Rattle.td_replica.specs.Seen.{always_open};
ghost use Rattle.td_replica.specs.declared.refusal.IssueError.TheVariants as issue_error;
ghost use Rattle.td_replica.specs.declared.refusal.TakeError.{TakeError};
ghost use Rattle.td_replica.specs.declared.refusal.TakeError.TheVariants as take_error;
ghost use Rattle.td_replay.specs.Counted.{RunsIn};

use crate::state::State;
use crate::told::Way;
use std::alloc::Global;
use std::marker::Model;
use td_changes::{ChangedError, Changes};
use td_headings::Catalogue;
use td_relations::{Delta, Relation};
use td_replica::{
    AskError, Catalogued, IssueError, Issued, NotOpen, OpenError, Opens, PastError, Replica,
    TakeError, Taken, TellError, ValueError,
};
use td_semantics::{Answer, Meter, Outcome};
use td_stamps::{Entry, Held, Stamp};
use td_trials::Trials;
use td_values::Name;

/// A site in memory. It keeps the database, and of the run of each entry its outcome, its changes and what it hangs on.
///
/// To issue a statement runs that one alone. To take entries takes back those held behind the first fresh one that hang
/// together with a fresh one, by the relvars on which they hang and by tests over these; runs the fresh ones, and of
/// the others those whose footprint meets the targets of one that ran; and makes the changes of the rest again. Entries
/// that hang together with no fresh one are left as they are. Beside these runs it costs walks over all entries that it
/// then holds, and the changes of those that are taken back. A refused call leaves all as it was.
#[derive(Drop)]
pub struct Site {
    state: State,
}

impl Model for Site {
    ghost use Rattle.td_replica.specs.Seen.{Contents};

    ghost Value = { Contents };

    ghost view = { λ s. s.state };
}

impl Replica for Site {
    ghost seen = { λ s. always_open s };

    ghost failed = { λ _ _. ⊥ };

    ghost journaled = { λ _. Unit {0} };

    fn issue(&mut self, alloc: Global, text: &str, meter: &mut Meter) -> Result<Issued, IssueError>
        ensures issues { Issues (always_open self.old) text.now result (always_open self.new) }
        ensures journal { result ≡ Err issue_error.JournalWrite → ⊥ }
        ensures meter { meter.new.count ≤ meter.old.count + 1 }
    {
        self.state.issue(alloc, text, meter)
    }

    fn take(
        &mut self,
        alloc: Global,
        batch: &[Entry],
        meter: &mut Meter,
    ) -> Result<Taken, TakeError>
        ensures takes { Takes (always_open self.old) batch.now result (always_open self.new) }
        ensures journal { result ≡ Err take_error.JournalWrite → ⊥ }
        ensures meter { meter.new.count ≤ meter.old.count + length (union self.old.entries batch.now) }
        ensures counted { (n : ℕ) → RunsIn (always_open self.old) batch.now n → meter.new.count ≤ meter.old.count + n }
        ensures unrun { (e : TakeError) → result ≡ Err e → (e ≡ take_error.OutOfMemory → ⊥) → meter.new.count ≡ meter.old.count }
    {
        self.state.take(alloc, batch, Way::Replay, meter)
    }

    fn ask(&self, alloc: Global, text: &str) -> Result<Answer, AskError> {
        self.state.ask(alloc, text)
    }

    fn ask_at(
        &self,
        alloc: Global,
        text: &str,
        at: Stamp,
        meter: &mut Meter,
    ) -> Result<Answer, PastError>
        ensures asks { AsksAt (always_open self.now) text.now at result }
        ensures meter { meter.new.count ≡ meter.old.count }
    {
        self.state.ask_at(alloc, text, at, Way::Replay, meter)
    }

    fn value_of(&self, alloc: Global, name: &Name) -> Result<Answer<Relation>, ValueError> {
        self.state.value_of(alloc, name)
    }

    fn outcomes(&self, alloc: Global) -> Result<Vec<(Stamp, Outcome)>, TellError> {
        self.state.outcomes(alloc)
    }

    fn held(&self) -> Result<&Held, NotOpen> {
        Ok(self.state.held())
    }

    fn is_open(&self) -> bool {
        let _state = &self.state;
        true
    }

    fn site(&self) -> u16 {
        self.state.site()
    }

    fn script(&self) -> &str {
        self.state.script()
    }
}

impl Catalogued for Site {
    fn catalogue(&self) -> &Catalogue {
        self.state.catalogue()
    }
}

impl Changes for Site {
    fn changed_by(&self, at: Stamp) -> Result<&[(usize, Delta)], ChangedError> {
        self.state.changed_by(at)
    }
}

impl Trials for Site {
    fn try_issue(&self, alloc: Global, text: &str) -> Result<Outcome, IssueError> {
        self.state.try_issue(alloc, text)
    }
}

impl Opens for Site {
    ghost stays_open = { λ _. refl };

    fn open_script(
        alloc: Global,
        script: &str,
        site: u16,
        limit: usize,
    ) -> Result<Site, OpenError> {
        match State::open_script(alloc, script, site, limit) {
            Ok(state) => Ok(Site { state }),
            Err(error) => Err(error),
        }
    }
}
