//! What every kind of site is.

ghost use Rattle.std.specs.Prelude.{◌≡◌, Err, MatchResult, Ok, false, true};
ghost use Rattle.td_replica.specs.Calls.{Asks, Issues, Takes, TellsOutcomes, TellsValue};
ghost use Rattle.td_replica.specs.NewSites.{OpensSite};
ghost use Rattle.td_replica.specs.Past.{AsksAt};
ghost use Rattle.td_replica.specs.Seen.{IsSound, Seen, holding};
ghost use Rattle.td_semantics.specs.Scripts.{IsScriptOf};
ghost use Rattle.td_replica.specs.declared.refusal.IssueError.TheVariants as issue_error;
ghost use Rattle.td_replica.specs.declared.refusal.TakeError.TheVariants as take_error;

use crate::calls::{Issued, Taken};
use crate::refusal::{
    AskError, IssueError, NotOpen, OpenError, PastError, TakeError, TellError, ValueError,
};
use std::alloc::Global;
use td_headings::Catalogue;
use td_relations::Relation;
use td_semantics::{Answer, Meter, Outcome};
use td_stamps::{Entry, Held, Stamp};
use td_values::Name;

/// The most bytes that the text of a statement or a query has. A longer one is refused before anything takes memory.
pub const MOST_BYTES: usize = td_grammar::reader::STATEMENT_BYTES;

/// The most bytes that a script has.
pub const SCRIPT_BYTES: usize = td_grammar::reader::SCRIPT_BYTES;

/// The most entries that a site can be asked to hold.
pub const MOST_ENTRIES: usize = 100_000;

/// A site that holds a set of entries and tells what running it once, in stamp order, from what its script opens gives.
pub trait Replica {
    ghost seen: { Self → Seen };

    /// Whether a journal of the site has counted a failure between these two states: never, where it has no journal.
    ghost failed: { Self → Self → Type 0 };

    /// What the site holds is known to stand in its journal, as long as it is open: it is so, where it has none.
    ghost journaled: { Self → Type 0 };

    /// Adds the site's next entry, with this text, and tells what became of it.
    fn issue(&mut self, alloc: Global, text: &str, meter: &mut Meter) -> Result<Issued, IssueError>
        ensures issues { Issues (seen self.old) text.now result (seen self.new) }
        ensures journal { result ≡ Err issue_error.JournalWrite → failed self.old self.new }
        ensures journaled { journaled self.old → journaled self.new };

    /// Adds the entries that are not held yet.
    fn take(
        &mut self,
        alloc: Global,
        batch: &[Entry],
        meter: &mut Meter,
    ) -> Result<Taken, TakeError>
        ensures takes { Takes (seen self.old) batch.now result (seen self.new) }
        ensures journal { result ≡ Err take_error.JournalWrite → failed self.old self.new }
        ensures journaled { journaled self.old → journaled self.new };

    /// What a query means over the relvars.
    fn ask(&self, alloc: Global, text: &str) -> Result<Answer, AskError>
        ensures { Asks (seen self.now) text.now result };

    /// What a query means over the relvars as they were just after the entry of this stamp, by what is held now:
    /// entries that come later may change it.
    fn ask_at(
        &self,
        alloc: Global,
        text: &str,
        at: Stamp,
        meter: &mut Meter,
    ) -> Result<Answer, PastError>
        ensures asks { AsksAt (seen self.now) text.now at result };

    /// What the relvar of this name has, or the error that evaluating it raises.
    fn value_of(&self, alloc: Global, name: &Name) -> Result<Answer<Relation>, ValueError>
        ensures { TellsValue (seen self.now) name.now result };

    /// Each outcome with its stamp, in stamp order.
    fn outcomes(&self, alloc: Global) -> Result<Vec<(Stamp, Outcome)>, TellError>
        ensures { MatchResult result (λ v. TellsOutcomes (seen self.now) (Ok v.items)) (λ e. TellsOutcomes (seen self.now) (Err e)) };

    /// The entries that are held.
    fn held(&self) -> Result<&Held, NotOpen>
        ensures { MatchResult result (λ h. ((seen self.now).live ≡ true) × (h.now ≡ holding (seen self.now))) (λ _. (seen self.now).live ≡ false) };

    /// Whether it answers calls: one whose journal failed does not.
    fn is_open(&self) -> bool
        ensures { result ≡ (seen self.now).live };

    /// Its number.
    fn site(&self) -> u16
        ensures number { result ≡ (seen self.now).site }
        ensures sound { IsSound (seen self.now) };

    /// The script that it started from.
    fn script(&self) -> &str
        ensures { result.now ≡ (seen self.now).script };
}

/// A site that lends the catalogue of its script.
pub trait Catalogued: Replica {
    /// The catalogue of the script, which the site made when it was opened. A site whose journal failed lends it too.
    fn catalogue(&self) -> &Catalogue
        ensures { IsScriptOf (Self.seen self.now).script result.now };
}

/// A kind of site that a script opens, and that is always open.
pub trait Opens: Replica {
    /// A site of this number that holds nothing and may hold so many entries. It costs what opening the script costs.
    fn open_script(alloc: Global, script: &str, site: u16, limit: usize) -> Result<Self, OpenError>
        ensures { MatchResult result (λ s. OpensSite script.now site limit (Ok (Self.seen s))) (λ e. OpensSite script.now site limit (Err e)) };

    /// No call closes it.
    ghost stays_open: { (s : Self) → (Self.seen s).live ≡ true };
}
