//! Where the journals of sites stand, and sites that come back from there.

ghost use Rattle.std.specs.Prelude.{◌≡◌, ◌≢◌, ℕ, List, Option, MatchResult, true};
ghost use Rattle.std.specs.Io.KnownBytes.{Keeps};
ghost use Rattle.td_io.specs.Counted.{counted};
ghost use Rattle.td_io.specs.Views.{output_of};
ghost use Rattle.td_journal.specs.Reopening.{IsNew};
ghost use Rattle.td_journal.specs.ForProofs.Behind.{BeginsNone, IsBehind};
ghost use Rattle.td_journal.specs.Stores.{GoesOn, IsCutTo, IsGoneOnWith, IsMadeAnew, KeepsNot};
ghost use Rattle.td_frames.specs.declared.version.Version.TheVariants.{Second};
ghost use Rattle.td_journal.specs.declared.reopening.ReopenError.TheVariants as reopen_error;
ghost use Rattle.td_journal.specs.declared.stores.StoreError.TheVariants as store_error;

use crate::keeper::{Keeper, put_journal};
use crate::reopening::{ReopenError, Reopened, take_journal};
use std::alloc::Global;
use td_frames::Version;
use td_io::{Failed, Sink, Source};
use td_replica::Opens;
use td_semantics::Meter;
use thiserror::Error;

/// Why a site does not go on with its journal.
#[derive(Clone, Copy, Debug, Drop, PartialEq, Eq, Error)]
pub enum StoreError {
    #[error("out of memory")]
    OutOfMemory,
    #[error("the journal cannot be opened, read, cut, replaced or begun")]
    JournalFile,
}

/// Where journals stand, each under a name.
pub trait Journals {
    ghost use Rattle.td_journal.specs.declared.stores.StoreError.{StoreError};

    /// A journal that was opened, to be read from its beginning.
    type Journal: Source + Drop;

    /// What goes on with a journal. Where a flush ends well, what was written outlives the program.
    type Writer: Sink + Drop;

    /// A journal that is written beside another one, whose place it is to take.
    type Renewal: Sink + Drop;

    /// What the journal of a name has, where that is known.
    ghost kept: { Self → List ℕ → Option (List ℕ) };

    /// A journal could not be opened, read, cut, replaced or begun, for this cause. Only these calls and a failure that
    /// was counted tell this of any journals, so what a caller tells by it says that one of them did.
    ghost fails: { Self → StoreError → Type 0 };

    /// Opens the journal of this name, which has nothing where it is new. Nobody else opens it until it is let go.
    fn open(&self, alloc: Global, name: &str) -> Result<Self::Journal, StoreError>
        ensures kept { MatchResult result (λ j. Self.Journal.left j ≡ kept self.now name.now) (λ e. fails self.now e) }
        ensures all { MatchResult result (λ j. Self.Journal.beside j ≡ kept self.now name.now) (λ _. Unit {0}) }
        ensures reads { MatchResult result
            (λ j. (read : Self.Journal) → Self.Journal.failures read ≡ counted (Self.Journal.failures j) → fails self.now store_error.JournalFile)
            (λ _. Unit {0}) };

    /// Keeps so many bytes of the journal and drops those behind them: what is written then stands behind these.
    fn cut(&self, journal: Self::Journal, whole: u64) -> Result<Self::Writer, Failed>
        ensures held { MatchResult result (λ w. IsCutTo whole (Self.Journal.beside journal) (Self.Writer.held w)) (λ _. fails self.now store_error.JournalFile) }
        ensures writes { MatchResult result
            (λ w. (after : Self.Writer) → Self.Writer.faults after ≡ counted (Self.Writer.faults w) → fails self.now store_error.JournalFile)
            (λ _. Unit {0}) };

    /// Begins a journal beside that of this name, with nothing in it, of which so many bytes are to go over into it.
    /// Nobody else opens it until it is let go.
    fn renew(
        &self,
        alloc: Global,
        name: &str,
        journal: &mut Self::Journal,
        whole: u64,
    ) -> Result<Self::Renewal, StoreError>
        ensures held { MatchResult result (λ n. IsCutTo 0 (kept self.now name.now) (Self.Renewal.held n)) (λ e. fails self.now e) }
        ensures writes { MatchResult result
            (λ n. (after : Self.Renewal) → Self.Renewal.faults after ≡ counted (Self.Renewal.faults n) → fails self.now store_error.JournalFile)
            (λ _. Unit {0}) };

    /// Puts a journal that was written beside another one, and handed on, in that one's place, which is let go behind
    /// that: what is written then stands behind the new one. At an error the old one stands as it did.
    fn replace(
        &self,
        journal: Self::Journal,
        renewal: Self::Renewal,
    ) -> Result<Self::Writer, Failed>
        requires { Self.Renewal.is_flushed renewal ≡ true }
        ensures { MatchResult result (λ w. Self.Writer.held w ≡ Self.Renewal.held renewal) (λ _. fails self.now store_error.JournalFile) };
}

// Why the site does not go on, where it did not come back.
fn not_reopened(error: &ReopenError) -> StoreError
    ensures wanting { result ≡ store_error.OutOfMemory → error.now ≡ reopen_error.OutOfMemory }
    ensures refused { result ≡ store_error.JournalFile → error.now ≢ reopen_error.OutOfMemory }
{
    match error {
        ReopenError::OutOfMemory => StoreError::OutOfMemory,
        _ => StoreError::JournalFile,
    }
}

// A keeper that goes on behind so many bytes, or begins where there are none.
fn keeper_behind<R: Opens + Drop, W: Sink + Drop>(
    whole: u64,
    replica: R,
    writer: W,
) -> Result<Keeper<R, W>, StoreError>
    ensures { MatchResult result
        (λ k. IsBehind whole (R.seen replica) (output_of W.Sink writer) (output_of W.Sink k.writer)
        × ((k.replica ≡ replica) × (k.is_open ≡ true)))
        (λ e. BeginsNone W.Sink whole (R.seen replica) writer × (e ≡ store_error.JournalFile)) }
{
    if whole > 0 {
        return Ok(Keeper::over(replica, writer));
    }
    match Keeper::start(replica, writer) {
        Ok(keeper) => Ok(keeper),
        Err(_) => Err(StoreError::JournalFile),
    }
}

// Goes on behind what stands whole of the journal from which the site came back.
fn go_on<R: Opens + Drop, J: Journals>(
    journals: &J,
    journal: J::Journal,
    whole: u64,
    replica: R,
) -> Result<Keeper<R, J::Writer>, StoreError>
    ensures { MatchResult result
        (λ k. IsGoneOnWith Second whole (J.Journal.beside journal) (R.seen k.replica) (output_of J.Writer.Sink k.writer)
        × ((k.replica ≡ replica) × (k.is_open ≡ true)))
        (λ e. J.fails journals.now e) }
{
    match journals.cut(journal, whole) {
        Ok(writer) => keeper_behind(whole, replica, writer),
        Err(Failed) => Err(StoreError::JournalFile),
    }
}

// Makes the journal anew from which the site came back, and goes on with that.
fn make_anew<R: Opens + Drop, J: Journals>(
    alloc: Global,
    journals: &J,
    name: &str,
    mut journal: J::Journal,
    whole: u64,
    replica: R,
) -> Result<Keeper<R, J::Writer>, StoreError>
    ensures { MatchResult result
        (λ k. IsMadeAnew (J.kept journals.now name.now) (R.seen k.replica) (output_of J.Writer.Sink k.writer)
        × ((k.replica ≡ replica) × (k.is_open ≡ true)))
        (λ e. J.fails journals.now e) }
{
    let mut renewal = match journals.renew(alloc, name, &mut journal, whole) {
        Ok(renewal) => renewal,
        Err(error) => return Err(error),
    };
    match put_journal(&replica, &mut renewal) {
        Ok(()) => {}
        Err(_) => return Err(StoreError::JournalFile),
    }
    match journals.replace(journal, renewal) {
        Ok(writer) => Ok(Keeper::over(replica, writer)),
        Err(Failed) => Err(StoreError::JournalFile),
    }
}

// Goes on with the journal from which the site came back: as it stands, where it is of the version that is written.
fn keep_reopened<R: Opens + Drop, J: Journals>(
    alloc: Global,
    journals: &J,
    name: &str,
    journal: J::Journal,
    reopened: Reopened<R>,
) -> Result<Keeper<R, J::Writer>, StoreError>
    requires { Keeps (J.kept journals.now name.now) (J.Journal.beside journal) }
    ensures { MatchResult result
        (λ k. IsGoneOnWith reopened.version reopened.whole (J.kept journals.now name.now) (R.seen k.replica) (output_of J.Writer.Sink k.writer)
        × ((k.replica ≡ reopened.replica) × (k.is_open ≡ true)))
        (λ e. J.fails journals.now e) }
{
    let Reopened {
        replica,
        whole,
        version,
    } = reopened;
    match version {
        Version::First => make_anew(alloc, journals, name, journal, whole, replica),
        Version::Second => go_on(journals, journal, whole, replica),
    }
}

/// Opens the journal of a new site, has the site take what it says, and goes on with it: with what stands whole of it,
/// or by beginning it where nothing does; one of the first version is made anew. It takes room for the entries, and
/// runs each once.
pub fn keep_journal<R: Opens + Drop, J: Journals>(
    alloc: Global,
    journals: &J,
    name: &str,
    replica: R,
    meter: &mut Meter,
) -> Result<Keeper<R, J::Writer>, StoreError>
    requires new { IsNew (R.seen replica) }
    ensures kept { MatchResult result
        (λ k. GoesOn (J.kept journals.now name.now) (R.seen replica) (R.seen k.replica) (output_of J.Writer.Sink k.writer))
        (λ e. KeepsNot (J.fails journals.now) (J.kept journals.now name.now) (R.seen replica) e) }
    ensures open { MatchResult result (λ k. k.is_open ≡ true) (λ _. Unit {0}) }
{
    let mut journal = match journals.open(alloc, name) {
        Ok(journal) => journal,
        Err(error) => return Err(error),
    };
    match take_journal(alloc, replica, &mut journal, meter) {
        Ok(reopened) => keep_reopened(alloc, journals, name, journal, reopened),
        Err(error) => Err(not_reopened(&error)),
    }
}
