//! A site of any kind that keeps what was hashed of it.

ghost use Rattle.std.specs.Prelude.{◌≡◌};

use crate::digested::Digested;
use crate::within::{issue_within, take_within};
use std::alloc::Global;
use std::marker::Model;
use td_changes::{ChangedError, Changes};
use td_comparison::{SiteFeed, SitePrefixes};
use td_headings::Catalogue;
use td_relations::{Delta, Relation};
use td_replica::{
    AskError, Catalogued, IssueError, Issued, NotOpen, PastError, Replica, TakeError, Taken,
    TellError, ValueError,
};
use td_semantics::{Answer, Meter, Outcome};
use td_stamps::{Entry, Held, Stamp};
use td_trials::Trials;
use td_values::Name;

/// A site that keeps what was hashed of the entries that it holds. It is seen as the site within.
#[derive(Drop)]
pub struct DigestedSite<R: Replica> {
    site: R,
    prefixes: SitePrefixes,
}

impl<R: Replica> Model for DigestedSite<R> {
    ghost use Rattle.td_comparison.specs.Hashed.{ArePrefixesOf};

    ghost Value = { R };

    ghost view = { λ s. s.site };

    ghost invariant = { λ s. ArePrefixesOf (R.seen s.site).entries s.prefixes };
}

impl<R: Replica> DigestedSite<R> {
    /// A site of which nothing is hashed yet. It takes no memory.
    pub fn new(alloc: Global, site: R) -> DigestedSite<R>
        ensures { result ≡ site }
    {
        DigestedSite {
            site,
            prefixes: SitePrefixes::new(alloc),
        }
    }
}

impl<R: Replica> Replica for DigestedSite<R> {
    ghost seen = { λ s. R.seen s };

    ghost failed = { λ old new. R.failed old new };

    ghost journaled = { λ s. R.journaled s };

    fn issue(
        &mut self,
        alloc: Global,
        text: &str,
        meter: &mut Meter,
    ) -> Result<Issued, IssueError> {
        issue_within(&mut self.site, alloc, text, meter)
    }

    fn take(
        &mut self,
        alloc: Global,
        batch: &[Entry],
        meter: &mut Meter,
    ) -> Result<Taken, TakeError> {
        take_within(&mut self.site, alloc, batch, meter)
    }

    fn ask(&self, alloc: Global, text: &str) -> Result<Answer, AskError> {
        self.site.ask(alloc, text)
    }

    fn ask_at(
        &self,
        alloc: Global,
        text: &str,
        at: Stamp,
        meter: &mut Meter,
    ) -> Result<Answer, PastError> {
        self.site.ask_at(alloc, text, at, meter)
    }

    fn value_of(&self, alloc: Global, name: &Name) -> Result<Answer<Relation>, ValueError> {
        self.site.value_of(alloc, name)
    }

    fn outcomes(&self, alloc: Global) -> Result<Vec<(Stamp, Outcome)>, TellError> {
        self.site.outcomes(alloc)
    }

    fn held(&self) -> Result<&Held, NotOpen> {
        self.site.held()
    }

    fn is_open(&self) -> bool {
        self.site.is_open()
    }

    fn site(&self) -> u16 {
        self.site.site()
    }

    fn script(&self) -> &str {
        self.site.script()
    }
}

impl<R: Catalogued> Catalogued for DigestedSite<R> {
    fn catalogue(&self) -> &Catalogue {
        self.site.catalogue()
    }
}

impl<R: Changes> Changes for DigestedSite<R> {
    fn changed_by(&self, at: Stamp) -> Result<&[(usize, Delta)], ChangedError> {
        self.site.changed_by(at)
    }
}

impl<R: Trials> Trials for DigestedSite<R> {
    fn try_issue(&self, alloc: Global, text: &str) -> Result<Outcome, IssueError> {
        self.site.try_issue(alloc, text)
    }
}

impl<R: Replica> Digested for DigestedSite<R> {
    fn prefixes(&self) -> &SitePrefixes {
        &self.prefixes
    }

    fn keep(&mut self, feeds: Vec<SiteFeed>) {
        // By its number, the site is sound.
        let _site = self.site.site();
        self.prefixes.keep(feeds);
    }
}
