//! A site that writes what it accepts to a journal.

ghost use Rattle.std.specs.Prelude.{◌≡◌, ◌<◌, ◌^◌, ◌∷◌, ◌++◌, [], ℕ, List, Err, MatchResult, Some, true};
ghost use Rattle.std.specs.List.{list_all};
ghost use Rattle.td_io.specs.Views.{output_of};
ghost use Rattle.td_stamps.specs.Entries.{in_range};
ghost use Rattle.td_stamps.specs.declared.entry.Entry.{Entry};
ghost use Rattle.td_journal.specs.Keepers.{IsJournal, KeepsJournal};
ghost use Rattle.td_journal.specs.Keeping.{JournalsBatch, JournalsIssue, Starts, StartsNot};
ghost use Rattle.td_journal.specs.Views.{JournalFails, seen_of};
ghost use Rattle.td_replica.specs.Calls.{Issues, Takes};
ghost use Rattle.td_replica.specs.declared.refusal.IssueError.TheVariants as issue_error;
ghost use Rattle.td_replica.specs.declared.refusal.TakeError.TheVariants as take_error;

use crate::frames::{all_framed, send_journal};
use crate::journal::Journal;
use std::alloc::Global;
use std::marker::Model;
use td_changes::{ChangedError, Changes};
use td_headings::Catalogue;
use td_io::{Failed, Sink};
use td_relations::{Delta, Relation};
use td_replica::{
    AskError, Catalogued, IssueError, Issued, NotOpen, PastError, Replica, TakeError, Taken,
    TellError, ValueError,
};
use td_semantics::{Answer, Meter, Outcome};
use td_stamps::{Entry, Held, Stamp};
use td_trials::Trials;
use td_values::Name;
use thiserror::Error;

/// Why a site's journal is not begun.
#[derive(Clone, Copy, Debug, Drop, PartialEq, Eq, Error)]
pub enum StartError {
    #[error("the site's journal failed")]
    Broken,
    #[error("the journal cannot be written")]
    WriteFault,
}

/// A site whose journal is not begun: it comes back, and the writer with what was written of it.
#[derive(Drop)]
pub struct NotStarted<R, W> {
    pub error: StartError,
    pub replica: R,
    pub writer: W,
}

/// A site that writes each entry to its journal before it answers. Where that fails it is not open from then on, and
/// holds in memory what its journal may lack: what counts is the journal, from which it is reopened.
#[derive(Drop)]
pub struct Keeper<R, W> {
    replica: R,
    journal: Journal<W>,
    is_open: bool,
}

impl<R, W> Model for Keeper<R, W> {
    ghost use Rattle.td_journal.specs.Views.{KeeperData};

    ghost Value = { KeeperData R W };

    ghost view = { λ k. record { replica = k.replica; writer = k.journal; is_open = k.is_open } };
}

/// Writes the journal of what a site holds, and hands it on. It takes no memory.
pub(crate) fn put_journal<R: Replica, W: Sink>(
    replica: &R,
    writer: &mut W,
) -> Result<(), StartError>
    ensures { MatchResult result
        (λ _. Starts (R.seen replica.now) (output_of W.Sink writer.old) (output_of W.Sink writer.new))
        (λ e. StartsNot (R.seen replica.now) e (output_of W.Sink writer.old) (output_of W.Sink writer.new)) }
{
    let Ok(held) = replica.held() else {
        return Err(StartError::Broken);
    };
    match send_journal(writer, replica.site(), replica.script(), held.entries()) {
        Ok(()) => Ok(()),
        Err(Failed) => Err(StartError::WriteFault),
    }
}

impl<R: Replica, W: Sink> Keeper<R, W> {
    /// Begins the journal of a site: writes its header and what the site holds, and hands it on. It takes no memory.
    pub fn start(replica: R, mut writer: W) -> Result<Keeper<R, W>, NotStarted<R, W>>
        ensures written { MatchResult result
            (λ k. Starts (R.seen replica) (output_of W.Sink writer) (output_of W.Sink k.writer))
            (λ e. StartsNot (R.seen replica) e.error (output_of W.Sink writer) (output_of W.Sink e.writer)) }
        ensures same { MatchResult result (λ k. (k.replica ≡ replica) × (k.is_open ≡ true)) (λ e. e.replica ≡ replica) }
    {
        match put_journal(&replica, &mut writer) {
            Ok(()) => Ok(Keeper::over(replica, writer)),
            Err(error) => Err(NotStarted {
                error,
                replica,
                writer,
            }),
        }
    }

    /// Goes on with a journal: the writer holds that of this site, whole and of the second version, and writes behind
    /// it. This itself writes nothing.
    pub fn resume(replica: R, writer: W) -> Keeper<R, W>
        requires { (bytes : List ℕ) → W.held writer ≡ Some bytes → IsJournal (R.seen replica) bytes }
        ensures { result ≡ record { replica = replica; writer = writer; is_open = true } }
    {
        Keeper::over(replica, writer)
    }

    // A keeper that writes behind what the writer holds.
    pub(crate) fn over(replica: R, writer: W) -> Keeper<R, W>
        ensures { result ≡ record { replica = replica; writer = writer; is_open = true } }
    {
        Keeper {
            replica,
            journal: Journal { writer },
            is_open: true,
        }
    }

    // Issues a statement within, and writes its frame.
    fn issue_and_write(
        &mut self,
        alloc: Global,
        text: &str,
        meter: &mut Meter,
    ) -> Result<Issued, IssueError>
        ensures issues { Issues (seen_of R.Replica self.old) text.now result (seen_of R.Replica self.new) }
        ensures journal { result ≡ Err issue_error.JournalWrite → JournalFails R.Replica W.Sink self.old self.new }
        ensures written { JournalsIssue (seen_of R.Replica self.old) result (seen_of R.Replica self.new)
            (output_of W.Sink self.old.writer) (output_of W.Sink self.new.writer) }
    {
        if !self.is_open {
            return Err(IssueError::Broken);
        }
        // By its number, the entry that it issues has a frame.
        let _site = number_of(&self.replica);
        let issued = match self.replica.issue(alloc, text, meter) {
            Ok(issued) => issued,
            Err(error) => return Err(error),
        };
        let Ok(held) = self.replica.held() else {
            unreachable!();
        };
        match self.journal.accept(last_of(held.entries())) {
            Ok(()) => Ok(issued),
            Err(_) => {
                self.is_open = false;
                Err(IssueError::JournalWrite)
            }
        }
    }

    // Takes a batch within, and writes the frames of what is fresh of it.
    fn take_and_write(
        &mut self,
        alloc: Global,
        batch: &[Entry],
        meter: &mut Meter,
    ) -> Result<Taken, TakeError>
        ensures takes { Takes (seen_of R.Replica self.old) batch.now result (seen_of R.Replica self.new) }
        ensures journal { result ≡ Err take_error.JournalWrite → JournalFails R.Replica W.Sink self.old self.new }
        ensures written { JournalsBatch (seen_of R.Replica self.old) batch.now result
            (output_of W.Sink self.old.writer) (output_of W.Sink self.new.writer) }
    {
        if !self.is_open {
            return Err(TakeError::Broken);
        }
        let Ok(held) = self.replica.held() else {
            return Err(TakeError::Broken);
        };
        if !all_framed(batch) {
            return Err(TakeError::BadEntry);
        }
        let Ok(fresh) = held.fresh(alloc, batch) else {
            return Err(TakeError::OutOfMemory);
        };
        let taken = match self.replica.take(alloc, batch, meter) {
            Ok(taken) => taken,
            Err(error) => return Err(error),
        };
        if fresh.is_empty() {
            return Ok(taken);
        }
        match self.journal.accept(fresh.as_slice()) {
            Ok(()) => Ok(taken),
            Err(_) => {
                self.is_open = false;
                Err(TakeError::JournalWrite)
            }
        }
    }
}

// The site's number, for which 16 bits suffice.
fn number_of<R: Replica>(replica: &R) -> u16
    ensures number { result ≡ (R.seen replica.now).site }
    ensures fits { (R.seen replica.now).site < 2 ^ 16 }
{
    replica.site()
}

// The last one alone.
fn last_of(entries: &[Entry]) -> &[Entry]
    requires { list_all in_range entries.now ≡ true }
    ensures ranges { list_all in_range result.now ≡ true }
    ensures last { (xs : List Entry) (e : Entry) → entries.now ≡ xs ++ e ∷ [] → result.now ≡ e ∷ [] }
{
    if entries.is_empty() {
        return entries;
    }
    let (_, last) = entries.split_at(entries.len() - 1);
    last
}

impl<R: Replica, W: Sink> Replica for Keeper<R, W> {
    ghost seen = { λ k. seen_of R.Replica k };

    ghost failed = { λ old new. JournalFails R.Replica W.Sink old new };

    ghost journaled = { λ k. KeepsJournal R.Replica W.Sink k };

    fn issue(&mut self, alloc: Global, text: &str, meter: &mut Meter) -> Result<Issued, IssueError>
        ensures issues { Issues (seen_of R.Replica self.old) text.now result (seen_of R.Replica self.new) }
        ensures journal { result ≡ Err issue_error.JournalWrite → JournalFails R.Replica W.Sink self.old self.new }
        ensures journaled { KeepsJournal R.Replica W.Sink self.old → KeepsJournal R.Replica W.Sink self.new }
        ensures written { JournalsIssue (seen_of R.Replica self.old) result (seen_of R.Replica self.new)
            (output_of W.Sink self.old.writer) (output_of W.Sink self.new.writer) }
    {
        self.issue_and_write(alloc, text, meter)
    }

    fn take(
        &mut self,
        alloc: Global,
        batch: &[Entry],
        meter: &mut Meter,
    ) -> Result<Taken, TakeError>
        ensures takes { Takes (seen_of R.Replica self.old) batch.now result (seen_of R.Replica self.new) }
        ensures journal { result ≡ Err take_error.JournalWrite → JournalFails R.Replica W.Sink self.old self.new }
        ensures journaled { KeepsJournal R.Replica W.Sink self.old → KeepsJournal R.Replica W.Sink self.new }
        ensures written { JournalsBatch (seen_of R.Replica self.old) batch.now result
            (output_of W.Sink self.old.writer) (output_of W.Sink self.new.writer) }
    {
        // By its number, the site is sound.
        let _site = self.site();
        self.take_and_write(alloc, batch, meter)
    }

    fn ask(&self, alloc: Global, text: &str) -> Result<Answer, AskError> {
        if !self.is_open {
            return Err(AskError::Broken);
        }
        self.replica.ask(alloc, text)
    }

    fn ask_at(
        &self,
        alloc: Global,
        text: &str,
        at: Stamp,
        meter: &mut Meter,
    ) -> Result<Answer, PastError> {
        if !self.is_open {
            return Err(PastError::Broken);
        }
        self.replica.ask_at(alloc, text, at, meter)
    }

    fn value_of(&self, alloc: Global, name: &Name) -> Result<Answer<Relation>, ValueError> {
        if !self.is_open {
            return Err(ValueError::Broken);
        }
        self.replica.value_of(alloc, name)
    }

    fn outcomes(&self, alloc: Global) -> Result<Vec<(Stamp, Outcome)>, TellError> {
        if !self.is_open {
            return Err(TellError::Broken);
        }
        self.replica.outcomes(alloc)
    }

    fn held(&self) -> Result<&Held, NotOpen> {
        if !self.is_open {
            return Err(NotOpen);
        }
        self.replica.held()
    }

    fn is_open(&self) -> bool {
        self.is_open && self.replica.is_open()
    }

    fn site(&self) -> u16 {
        self.replica.site()
    }

    fn script(&self) -> &str {
        self.replica.script()
    }
}

impl<R: Catalogued, W: Sink> Catalogued for Keeper<R, W> {
    fn catalogue(&self) -> &Catalogue {
        self.replica.catalogue()
    }
}

impl<R: Changes, W: Sink> Changes for Keeper<R, W> {
    fn changed_by(&self, at: Stamp) -> Result<&[(usize, Delta)], ChangedError> {
        if !self.is_open {
            return Err(ChangedError::Broken);
        }
        self.replica.changed_by(at)
    }
}

impl<R: Trials, W: Sink> Trials for Keeper<R, W> {
    fn try_issue(&self, alloc: Global, text: &str) -> Result<Outcome, IssueError> {
        if self.is_open {
            self.replica.try_issue(alloc, text)
        } else {
            Err(IssueError::Broken)
        }
    }
}
