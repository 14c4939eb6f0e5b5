//! What a person is to look at.

use crate::desk::SiteDesk;
use crate::inquiries::{SiteView, status_of_tell};
use crate::words::{write_text, write_truth};
use std::alloc::AllocError;
use std::rt::Runtime;
use td_changes::Changes;
use td_http_api::{StatusCode, Writer};
use td_replica::Catalogued;
use td_semantics::Outcome;
use td_site_messages::SiteFault;
use td_stamps::{Entry, Stamp};

impl<R: Changes + Catalogued> SiteView<'_, R> {
    // Appends the statement of this stamp, with how it came to something else, and what it changed before where it
    // changes something else now. Entries and outcomes are those that are held, in the order of stamps.
    fn write_mark(
        &self,
        entries: &[Entry],
        outcomes: &[(Stamp, Outcome)],
        stamp: &Stamp,
        was: Option<&str>,
        out: &mut Writer,
    ) -> Result<(), AllocError> {
        let Ok(index) = outcomes.binary_search_by(|it| it.0.cmp(stamp)) else {
            return Ok(());
        };
        let (Some(entry), Some((_, outcome))) = (entries.get(index), outcomes.get(index)) else {
            return Ok(());
        };
        out.begin_object()?;
        match was {
            Some(was) => {
                write_text(out, "kind", "other")?;
                write_text(out, "was", was)?;
            }
            None => write_text(out, "kind", "refused")?,
        }
        self.write_entry(entry, outcome, out)?;
        out.end_object()
    }

    // Appends the statements of this site that came to something else, which nobody has seen yet.
    fn write_marks(
        &self,
        entries: &[Entry],
        outcomes: &[(Stamp, Outcome)],
        out: &mut Writer,
    ) -> Result<StatusCode, AllocError> {
        out.key("attention")?;
        out.begin_array()?;
        for stamp in self.reversals.reversed() {
            self.write_mark(entries, outcomes, stamp, None, out)?;
        }
        for it in self.reversals.redone() {
            self.write_mark(entries, outcomes, &it.stamp, Some(it.was.as_str()), out)?;
        }
        out.end_array()?;
        Ok(StatusCode::OK)
    }

    // Appends the statements of this site that came to something else, or why they are not known.
    fn tell_marks(&self, out: &mut Writer) -> Result<StatusCode, AllocError> {
        match self.entries() {
            Ok((entries, outcomes)) => self.write_marks(entries, &outcomes, out),
            Err(error) => self.refuse(status_of_tell(error), SiteFault::from(error), out),
        }
    }

    // Whether nine tenths of the statements are held that the site may hold.
    fn is_nearly_full(&self) -> bool {
        match self.site.held() {
            Ok(held) => held.len() >= held.limit().saturating_sub(held.limit() / 10),
            Err(_) => false,
        }
    }
}

impl<R: Changes + Catalogued + Drop, H: Runtime + AllocGlobal> SiteDesk<'_, R, H> {
    /// Appends what a person is to look at: statements of this site that came to something else, alarms, whether the
    /// site lacks statements, and whether it is nearly full.
    pub(crate) fn tell_attention(&self, out: &mut Writer) -> Result<StatusCode, AllocError> {
        let view = self.view();
        let status = view.tell_marks(out)?;
        self.write_alarms(out)?;
        write_truth(out, "lacking", self.is_lacking)?;
        write_truth(out, "full", view.is_nearly_full())?;
        Ok(status)
    }
}
