//! Statements that clients try.

use crate::desk::SiteDesk;
use crate::words::{fault, reason_of, write_breaks, write_text, write_truth};
use std::alloc::AllocError;
use std::rt::Runtime;
use td_changes::Changes;
use td_http_api::{StatusCode, Writer};
use td_replica::Catalogued;
use td_semantics::Outcome;
use td_trials::Trials;

impl<R: Changes + Catalogued + Trials + Drop, H: Runtime + AllocGlobal> SiteDesk<'_, R, H> {
    // Answers that a statement would be done, or why it would be refused and which test it would break.
    fn tell_trial(&self, outcome: &Outcome, out: &mut Writer) -> Result<StatusCode, AllocError> {
        match reason_of(self.alloc, outcome)? {
            Some(reason) => {
                write_text(out, "refused", reason.as_str())?;
                write_breaks(out, outcome)?;
            }
            None => write_truth(out, "done", true)?,
        }
        Ok(StatusCode::OK)
    }

    /// Answers what a statement would come to: where the site takes none, by the reason of that.
    pub(crate) fn answer_trial(
        &self,
        text: &str,
        out: &mut Writer,
    ) -> Result<StatusCode, AllocError> {
        if let Some(why) = self.failing_words() {
            return fault(out, StatusCode::SERVICE_UNAVAILABLE, why);
        }
        match self.site.try_issue(self.alloc, text) {
            Ok(outcome) => self.tell_trial(&outcome, out),
            Err(error) => self.tell_not_issued(text, error, out),
        }
    }
}
