//! What a site is asked that stays as it was.

ghost use Rattle.std.specs.Prelude.{◌≤◌};

use crate::changes::write_changes;
use crate::digests::write_digests;
use crate::reversals::Reversals;
use crate::values::{Unshown, write_heading, write_value};
use crate::words::{
    fault, fault_words, read_stamp, reason_of, write_breaks, write_count, write_null, write_stamp,
    write_text, write_truth,
};
use std::alloc::{AllocError, Global};
use td_arrivals::Arrivals;
use td_changes::Changes;
use td_headings::{Catalogue, Origin};
use td_http_api::{Selection, StatusCode, Writer};
use td_journal_files::Notes;
use td_replica::{AskError, Catalogued, PastError, TellError};
use td_semantics::{Answer, Meter, Outcome};
use td_site_messages::{BROKEN, SiteFault, raise_meaning};
use td_stamps::{Entry, Held, Stamp};
use td_statement_keys::{author_of, is_signed};
use td_values::{Name, Value};

/// A site, with what the answers about it need.
#[derive(Drop)]
pub(crate) struct SiteView<'a, R> {
    pub(crate) alloc: Global,
    pub(crate) site: &'a R,
    pub(crate) notes: &'a Notes,
    pub(crate) reversals: &'a Reversals,
    pub(crate) arrivals: &'a Arrivals,
}

// The status of the answer if a query is not answered.
fn status_of(error: AskError) -> StatusCode {
    match error {
        AskError::Syntax | AskError::IllTyped => StatusCode::UNPROCESSABLE_ENTITY,
        AskError::Broken => StatusCode::INTERNAL_SERVER_ERROR,
        AskError::OutOfMemory => StatusCode::SERVICE_UNAVAILABLE,
    }
}

// The status of the answer if a query about a past place is not answered.
fn status_of_past(error: PastError) -> StatusCode {
    match error {
        PastError::Syntax | PastError::IllTyped | PastError::NoPlace => {
            StatusCode::UNPROCESSABLE_ENTITY
        }
        PastError::Broken => StatusCode::INTERNAL_SERVER_ERROR,
        PastError::OutOfMemory => StatusCode::SERVICE_UNAVAILABLE,
    }
}

/// The status of the answer if outcomes are not known.
pub(crate) fn status_of_tell(error: TellError) -> StatusCode
    ensures { 400 ≤ result }
{
    match error {
        TellError::Broken => StatusCode::INTERNAL_SERVER_ERROR,
        TellError::OutOfMemory => StatusCode::SERVICE_UNAVAILABLE,
    }
}

// Appends the version vector of the entries that a site holds, a member for each site.
fn write_vector(alloc: Global, held: &Held, out: &mut Writer) -> Result<(), AllocError> {
    let entries = held.vector(alloc)?.entries(alloc)?;
    for (site, number) in &entries {
        write_site(alloc, *site, *number, out)?;
    }
    Ok(())
}

// Appends up to which number the statements of a site are held.
fn write_site(alloc: Global, site: u16, number: u32, out: &mut Writer) -> Result<(), AllocError> {
    let name = format!(in alloc; "{site}")?;
    write_count(out, name.as_str(), u64::from(number))
}

// Whether a relvar is virtual or base.
fn kind_words(origin: Option<&Origin>) -> &'static str {
    match origin {
        Some(Origin::Virtual(_)) => "virtual",
        _ => "base",
    }
}

impl<R: Changes + Catalogued> SiteView<'_, R> {
    /// Appends what the site is and what it holds.
    pub(crate) fn tell_site(&self, out: &mut Writer) -> Result<(), AllocError> {
        write_count(out, "site", u64::from(self.site.site()))?;
        let (held, limit) = match self.site.held() {
            Ok(held) => (held.len(), held.limit()),
            Err(_) => (0, 0),
        };
        write_count(out, "held", held as u64)?;
        write_count(out, "limit", limit as u64)?;
        self.tell_vector(out)
    }

    // Appends the version vector of what the site holds, without members if the site is not open.
    fn tell_vector(&self, out: &mut Writer) -> Result<(), AllocError> {
        out.key("vector")?;
        out.begin_object()?;
        if let Ok(held) = self.site.held() {
            write_vector(self.alloc, held, out)?;
        }
        out.end_object()
    }

    /// Appends what the site holds in a few digits.
    pub(crate) fn tell_digest(&self, out: &mut Writer) -> Result<StatusCode, AllocError> {
        let Ok(held) = self.site.held() else {
            return fault(out, StatusCode::INTERNAL_SERVER_ERROR, BROKEN);
        };
        write_digests(self.alloc, held, out)?;
        Ok(StatusCode::OK)
    }

    // Appends how many tuples a relvar has, null if it has no value.
    fn tell_count(&self, name: &Name, out: &mut Writer) -> Result<(), AllocError> {
        match self.site.value_of(self.alloc, name) {
            Ok(Answer::Value(relation)) => {
                write_count(out, "tuples", relation.tuples().len() as u64)
            }
            _ => write_null(out, "tuples"),
        }
    }

    // Appends a relvar with its kind and heading, and if asked its number of tuples.
    fn tell_relvar(
        &self,
        index: usize,
        has_counts: bool,
        out: &mut Writer,
    ) -> Result<(), AllocError> {
        let catalogue = self.site.catalogue();
        let Some((name, heading)) = catalogue.relvar_at(index) else {
            return Ok(());
        };
        out.begin_object()?;
        write_text(out, "name", name.as_str())?;
        write_text(out, "kind", kind_words(catalogue.origin(index)))?;
        write_heading(self.alloc, out, heading)?;
        if has_counts {
            self.tell_count(name, out)?;
        }
        out.end_object()
    }

    /// Appends each relvar with its heading.
    pub(crate) fn tell_relvars(
        &self,
        has_counts: bool,
        out: &mut Writer,
    ) -> Result<(), AllocError> {
        out.key("relvars")?;
        out.begin_array()?;
        for index in 0..self.site.catalogue().schema().relvar_count() {
            self.tell_relvar(index, has_counts, out)?;
        }
        out.end_array()
    }

    /// Appends that a statement is done, and what it changed.
    pub(crate) fn tell_changes(&self, stamp: &Stamp, out: &mut Writer) -> Result<(), AllocError> {
        write_truth(out, "done", true)?;
        match self.site.changed_by(*stamp) {
            Ok(changes) => write_changes(self.alloc, self.site.catalogue(), changes, out),
            Err(_) => Ok(()),
        }
    }

    // Appends why a statement is refused, which test it breaks, and whether it was done here before.
    fn tell_reason(
        &self,
        stamp: &Stamp,
        reason: &str,
        outcome: &Outcome,
        out: &mut Writer,
    ) -> Result<(), AllocError> {
        let is_own = stamp.site == self.site.site();
        write_text(out, "reason", reason)?;
        write_breaks(out, outcome)?;
        write_truth(out, "reversed", is_own && self.reversals.contains(stamp))
    }

    // Appends what a statement changed, or why it is refused.
    fn tell_outcome(
        &self,
        stamp: &Stamp,
        outcome: &Outcome,
        out: &mut Writer,
    ) -> Result<(), AllocError> {
        match reason_of(self.alloc, outcome)? {
            Some(reason) => self.tell_reason(stamp, reason.as_str(), outcome, out),
            None => self.tell_changes(stamp, out),
        }
    }

    // Appends the author of a statement, null if its text names none, and whether this site issued it for a token of
    // that name.
    fn write_author(&self, entry: &Entry, out: &mut Writer) -> Result<(), AllocError> {
        let text = entry.text.as_str();
        match author_of(text) {
            Some(author) => write_text(out, "author", author)?,
            None => write_null(out, "author")?,
        }
        let is_own = entry.site == self.site.site();
        write_truth(out, "confirmed", is_own && is_signed(text.as_bytes()))
    }

    // Appends when a statement came here, null where that is not known.
    fn write_came(&self, stamp: &Stamp, out: &mut Writer) -> Result<(), AllocError> {
        match self.arrivals.came(stamp) {
            Some(seconds) => write_count(out, "came", seconds),
            None => write_null(out, "came"),
        }
    }

    /// Appends the members of a statement: its stamp, and what it changed or why it is refused.
    pub(crate) fn write_entry(
        &self,
        entry: &Entry,
        outcome: &Outcome,
        out: &mut Writer,
    ) -> Result<(), AllocError> {
        let stamp = entry.stamp();
        write_stamp(self.alloc, out, &stamp)?;
        write_count(out, "number", u64::from(entry.seq))?;
        self.write_author(entry, out)?;
        self.write_came(&stamp, out)?;
        self.tell_outcome(&stamp, outcome, out)?;
        write_text(out, "text", entry.text.as_str())
    }

    /// Appends a statement with its stamp, and with what it changed or why it is refused.
    pub(crate) fn tell_entry(
        &self,
        entry: &Entry,
        outcome: &Outcome,
        out: &mut Writer,
    ) -> Result<(), AllocError> {
        out.begin_object()?;
        self.write_entry(entry, outcome, out)?;
        out.end_object()
    }

    /// Appends why the site does not do what it is asked, and returns the status.
    pub(crate) fn refuse(
        &self,
        status: StatusCode,
        error: SiteFault<'_>,
        out: &mut Writer,
    ) -> Result<StatusCode, AllocError> {
        let words = fault_words(self.alloc, self.site.catalogue(), self.notes, error)?;
        fault(out, status, words.as_str())
    }

    /// What the site holds, with what became of each statement.
    pub(crate) fn entries(&self) -> Result<(&[Entry], Vec<(Stamp, Outcome)>), TellError> {
        let Ok(held) = self.site.held() else {
            return Err(TellError::Broken);
        };
        match self.site.outcomes(self.alloc) {
            Ok(outcomes) => Ok((held.entries(), outcomes)),
            Err(error) => Err(error),
        }
    }

    // Appends those of these statements that are refused.
    fn tell_refused_of(
        &self,
        entries: &[Entry],
        outcomes: &[(Stamp, Outcome)],
        out: &mut Writer,
    ) -> Result<StatusCode, AllocError> {
        out.key("refused")?;
        out.begin_array()?;
        for (entry, (_, outcome)) in entries.iter().zip(outcomes) {
            if !matches!(outcome, Outcome::Done) {
                self.tell_entry(entry, outcome, out)?;
            }
        }
        out.end_array()?;
        Ok(StatusCode::OK)
    }

    /// Appends the statements that are refused.
    pub(crate) fn tell_refused(&self, out: &mut Writer) -> Result<StatusCode, AllocError> {
        match self.entries() {
            Ok((entries, outcomes)) => self.tell_refused_of(entries, &outcomes, out),
            Err(error) => self.refuse(status_of_tell(error), SiteFault::from(error), out),
        }
    }

    // Appends a value, or why it is not shown in this order.
    fn tell_value(
        &self,
        value: &Value,
        selection: &Selection<'_>,
        out: &mut Writer,
    ) -> Result<StatusCode, AllocError> {
        match write_value(self.alloc, out, value, selection) {
            Ok(()) => Ok(StatusCode::OK),
            Err(Unshown::Memory) => Err(AllocError),
            Err(Unshown::Order { index, error }) => {
                let attribute = match selection.order.get(index) {
                    Some(by) => by.attribute.as_str(),
                    None => "",
                };
                let words = format!(in self.alloc; "order: {attribute}: {error}")?;
                fault(out, StatusCode::UNPROCESSABLE_ENTITY, words.as_str())
            }
        }
    }

    // Appends the value, or the error that the evaluation raised; the status is 200 for both.
    fn tell_answer(
        &self,
        answer: &Answer,
        selection: &Selection<'_>,
        out: &mut Writer,
    ) -> Result<StatusCode, AllocError> {
        match answer {
            Answer::Value(value) => self.tell_value(value, selection, out),
            Answer::Raised(raise) => {
                write_text(out, "raised", raise_meaning(*raise))?;
                Ok(StatusCode::OK)
            }
        }
    }

    /// Appends the value of a query.
    pub(crate) fn ask(
        &self,
        text: &str,
        selection: &Selection<'_>,
        out: &mut Writer,
    ) -> Result<StatusCode, AllocError> {
        match self.site.ask(self.alloc, text) {
            Ok(answer) => self.tell_answer(&answer, selection, out),
            Err(error) => {
                self.refuse(status_of(error), SiteFault::NotAsked { text, error }, out)
            }
        }
    }

    /// Appends the value of a query as it was just after the statement of a stamp.
    pub(crate) fn ask_at(
        &self,
        text: &str,
        at: &str,
        selection: &Selection<'_>,
        meter: &mut Meter,
        out: &mut Writer,
    ) -> Result<StatusCode, AllocError> {
        let Some(stamp) = read_stamp(at) else {
            return fault(out, StatusCode::BAD_REQUEST, STAMP_WORDS);
        };
        match self.site.ask_at(self.alloc, text, stamp, meter) {
            Ok(answer) => self.tell_answer(&answer, selection, out),
            Err(error) => self.refuse(
                status_of_past(error),
                SiteFault::NotAskedAt { text, error },
                out,
            ),
        }
    }
}

/// What is said of a text that is no stamp.
pub(crate) const STAMP_WORDS: &str = "a stamp is written CLOCK.SITE, as 12.1";
