//! Statements that clients issue.

ghost use Rattle.std.specs.Prelude.{◌≡◌, ◌⊎◌, ◌≤◌, IfOk, Some, option_copied, option_map, string_bytes};
ghost use Rattle.std.specs.Result.{result_ok};
ghost use Rattle.td_site_desk.specs.ForProofs.{IsToldBy};
ghost use Rattle.td_site_desk.specs.Sites.{AnswersStatement, AnswersUnlessFailing, AnswersUnsigned, IsIssued, IsStatusBy, failing_of, known_entry};
ghost use Rattle.td_statement_keys.specs.Authors as authors;
ghost use Rattle.td_statement_keys.specs.Authors.{signed_text};
ghost use Rattle.td_statement_keys.specs.Keys.{entry_with, issued_text};

use crate::desk::SiteDesk;
use crate::inquiries::{STAMP_WORDS, status_of_tell};
use crate::words::{
    fault, fault_words, is_same, read_stamp, reason_of, write_breaks, write_stamp, write_text,
    write_truth,
};
use std::alloc::{AllocError, Global};
use std::rt::Runtime;
use td_changes::Changes;
use td_http_api::{StatusCode, Writer};
use td_journal_files::SyncFailure;
use td_replica::{Catalogued, IssueError, Issued, MOST_BYTES, TellError};
use td_semantics::Outcome;
use td_site_messages::{BROKEN, LACKING, SiteFault, failure_words};
use td_stamps::{Entry, Stamp};
use td_statement_keys::{find_keyed, is_signed, key_comment, keyed_text, name_comment};

/// The most bytes of a key.
const MOST_KEY_BYTES: usize = 128;

// The status of the answer to a statement that is not issued.
fn status_of(error: IssueError) -> StatusCode
    ensures { 400 ≤ result }
{
    match error {
        IssueError::Syntax | IssueError::IllTyped => StatusCode::UNPROCESSABLE_ENTITY,
        IssueError::ClockEnd | IssueError::Full => StatusCode::INSUFFICIENT_STORAGE,
        IssueError::Broken | IssueError::JournalWrite | IssueError::OutOfMemory => {
            StatusCode::SERVICE_UNAVAILABLE
        }
    }
}

// What is said of a statement that the journal does not have.
fn unwritten_words(alloc: Global, failure: Option<SyncFailure>) -> Result<String, AllocError> {
    let why = failure_words(failure);
    format!(in alloc;
        "journal: the journal cannot be written: {why}. This is not kept, and all before it is. Mend that: it is tried again"
    )
}

// What is said of a text that is too long to be issued with its comments, which is that text after them.
fn long_words(alloc: Global, issued: &str, text: &str) -> Result<String, AllocError> {
    let bytes = text.len();
    let most = MOST_BYTES.saturating_sub(issued.len().saturating_sub(bytes));
    format!(in alloc;
        "syntax: a statement with a key or by a named token has at most {most} bytes, and this one has {bytes}"
    )
}

// The outcome of this stamp, if there is one.
fn outcome_at<'a>(outcomes: &'a [(Stamp, Outcome)], stamp: &Stamp) -> Option<&'a Outcome> {
    for (it, outcome) in outcomes {
        if is_same(it, stamp) {
            return Some(outcome);
        }
    }
    None
}

impl<R: Changes + Catalogued + Drop, H: Runtime + AllocGlobal> SiteDesk<'_, R, H> {
    // Appends that a statement is done and what it changed, or why it is refused and which test it breaks.
    fn write_became(
        &self,
        stamp: &Stamp,
        outcome: &Outcome,
        out: &mut Writer,
    ) -> Result<(), AllocError> {
        match reason_of(self.alloc, outcome)? {
            Some(reason) => {
                write_text(out, "refused", reason.as_str())?;
                write_breaks(out, outcome)
            }
            None => self.view().tell_changes(stamp, out),
        }
    }

    // Answers what became of a statement, as the site has it now, with a warning if there is one.
    fn tell_outcome(
        &self,
        stamp: &Stamp,
        outcome: &Outcome,
        out: &mut Writer,
    ) -> Result<StatusCode, AllocError>
        ensures { IfOk result (λ status. status ≡ 200) }
    {
        write_stamp(self.alloc, out, stamp)?;
        self.write_became(stamp, outcome, out)?;
        if let Some(warning) = self.warning() {
            write_text(out, "warning", warning)?;
        }
        Ok(StatusCode::OK)
    }

    // Answers what became of a statement that was issued. A statement that is done is noted as such: no answer reports
    // that memory runs out there, since the site has taken the statement.
    fn tell_issued(&mut self, issued: &Issued, out: &mut Writer) -> Result<StatusCode, AllocError>
        ensures kept { R.seen self.new.site ≡ R.seen self.old.site }
        ensures status { IfOk result (λ status. status ≡ 200) }
    {
        if matches!(issued.outcome, Outcome::Done) {
            let _ = self.reversals.add_done(issued.stamp);
        }
        self.note_arrivals();
        self.tell_outcome(&issued.stamp, &issued.outcome, out)
    }

    // Why a statement is not issued.
    fn unissued_words(&self, text: &str, error: IssueError) -> Result<String, AllocError> {
        if error == IssueError::JournalWrite {
            return unwritten_words(self.alloc, self.notes.failure());
        }
        let issue = SiteFault::NotIssued { text, error };
        fault_words(self.alloc, self.site.catalogue(), self.notes, issue)
    }

    /// Answers why a statement is not issued.
    pub(crate) fn tell_not_issued(
        &self,
        text: &str,
        error: IssueError,
        out: &mut Writer,
    ) -> Result<StatusCode, AllocError>
        ensures { IfOk result (λ status. 400 ≤ status) }
    {
        let words = self.unissued_words(text, error)?;
        fault(out, status_of(error), words.as_str())
    }

    // Answers why a statement is not issued, and prints that too if the journal was not written.
    fn tell_failed(
        &mut self,
        text: &str,
        error: IssueError,
        out: &mut Writer,
    ) -> Result<StatusCode, AllocError>
        ensures kept { R.seen self.new.site ≡ R.seen self.old.site }
        ensures status { IfOk result (λ status. 400 ≤ status) }
    {
        if error == IssueError::JournalWrite {
            let words = unwritten_words(self.alloc, self.notes.failure())?;
            let line = format!(in self.alloc; "fault {}", words.as_str())?;
            self.report_fault(line.as_str());
        }
        self.tell_not_issued(text, error, out)
    }

    // Issues a text, and answers what became of it. Faults show the client's own text, which has no comment of a key.
    fn issue_new(
        &mut self,
        issued: &str,
        text: &str,
        out: &mut Writer,
    ) -> Result<StatusCode, AllocError>
        ensures { IsIssued (R.seen self.old.site) issued.now (result_ok result)
            (R.seen self.new.site) }
    {
        match self.site.issue(self.alloc, issued, &mut self.meter) {
            Ok(issued) => self.tell_issued(&issued, out),
            Err(error) => self.tell_failed(text, error, out),
        }
    }

    // Answers that outcomes are not known.
    fn tell_no_outcome(&self, error: TellError, out: &mut Writer) -> Result<StatusCode, AllocError>
        ensures { IfOk result (λ status. 400 ≤ status) }
    {
        let error_words = SiteFault::from(error);
        let words = fault_words(self.alloc, self.site.catalogue(), self.notes, error_words)?;
        fault(out, status_of_tell(error), words.as_str())
    }

    // Answers what became of a statement that was issued earlier: its outcome is among those of all that is held.
    fn tell_again(&self, stamp: &Stamp, out: &mut Writer) -> Result<StatusCode, AllocError>
        ensures { IfOk result (λ status. (status ≡ 200) ⊎ (400 ≤ status)) }
    {
        let outcomes = match self.site.outcomes(self.alloc) {
            Ok(outcomes) => outcomes,
            Err(error) => return self.tell_no_outcome(error, out),
        };
        match outcome_at(&outcomes, stamp) {
            Some(outcome) => self.tell_outcome(stamp, outcome, out),
            None => fault(out, StatusCode::INTERNAL_SERVER_ERROR, BROKEN),
        }
    }

    // Answers that an entry was issued under the key of this text: what became of it, if it has the text.
    fn tell_known(
        &self,
        entry: &Entry,
        issued: &str,
        out: &mut Writer,
    ) -> Result<StatusCode, AllocError>
        ensures { IfOk result (IsStatusBy entry.now issued.now) }
    {
        if entry.text.as_str() != issued {
            let words = "another statement was issued under this key: nothing was issued now";
            return fault(out, StatusCode::CONFLICT, words);
        }
        self.tell_again(&entry.stamp(), out)
    }

    // Answers that the text is not to be issued, if that is so: its key was seen, or the site is not open.
    fn tell_seen(
        &self,
        comment: &str,
        issued: &str,
        out: &mut Writer,
    ) -> Result<Option<StatusCode>, AllocError>
        ensures { IfOk result (IsToldBy (entry_with (R.seen self.entry.now.site).site comment.now
            (R.seen self.entry.now.site).entries) issued.now) }
    {
        let Ok(held) = self.site.held() else {
            return Ok(Some(fault(out, StatusCode::SERVICE_UNAVAILABLE, BROKEN)?));
        };
        match find_keyed(held.entries(), self.site.site(), comment) {
            Some(entry) => Ok(Some(self.tell_known(entry, issued, out)?)),
            None => Ok(None),
        }
    }

    // Answers that a statement is too long with its comments.
    fn tell_long(
        &self,
        issued: &str,
        text: &str,
        out: &mut Writer,
    ) -> Result<StatusCode, AllocError>
        ensures { IfOk result (λ status. 400 ≤ status) }
    {
        let words = long_words(self.alloc, issued, text)?;
        fault(out, StatusCode::UNPROCESSABLE_ENTITY, words.as_str())
    }

    // Issues a text under a key, or answers what became of the one that was issued under it. A client sent the last
    // part of it.
    fn issue_under(
        &mut self,
        key: &str,
        signed: &str,
        text: &str,
        out: &mut Writer,
    ) -> Result<StatusCode, AllocError>
        ensures { AnswersStatement (known_entry (R.seen self.old.site) (Some key.now))
            (R.seen self.old.site) (issued_text (Some key.now) signed.now) (result_ok result)
            (R.seen self.new.site) }
    {
        if key.len() > MOST_KEY_BYTES {
            return fault(out, StatusCode::BAD_REQUEST, "a key has at most 128 bytes");
        }
        let comment = key_comment(self.alloc, key)?;
        let issued = keyed_text(self.alloc, comment.as_str(), signed)?;
        if issued.len() > MOST_BYTES {
            return self.tell_long(issued.as_str(), text, out);
        }
        match self.tell_seen(comment.as_str(), issued.as_str(), out)? {
            Some(status) => Ok(status),
            None => self.issue_new(issued.as_str(), text, out),
        }
    }

    // Issues a text, or answers what became of the one that was issued under its key, or why it is not issued. A client
    // sent the last part of it.
    fn issue_once(
        &mut self,
        signed: &str,
        text: &str,
        key: Option<&str>,
        out: &mut Writer,
    ) -> Result<StatusCode, AllocError>
        ensures { AnswersStatement (known_entry (R.seen self.old.site) (option_copied key.entry))
            (R.seen self.old.site) (issued_text (option_copied key.entry) signed.now)
            (result_ok result) (R.seen self.new.site) }
    {
        match key {
            None => self.issue_new(signed, text, out),
            Some(key) => self.issue_under(key, signed, text, out),
        }
    }

    // Issues a statement by a token with this name, if it has one, as `issue_once` does.
    fn issue_signed(
        &mut self,
        text: &str,
        key: Option<&str>,
        author: Option<&str>,
        out: &mut Writer,
    ) -> Result<StatusCode, AllocError>
        ensures { AnswersStatement (known_entry (R.seen self.old.site) (option_copied key.entry))
            (R.seen self.old.site)
            (issued_text (option_copied key.entry) (signed_text (option_copied author.entry) text.now))
            (result_ok result) (R.seen self.new.site) }
    {
        let Some(author) = author else {
            return self.issue_once(text, text, key, out);
        };
        let comment = name_comment(self.alloc, author)?;
        let signed = keyed_text(self.alloc, comment.as_str(), text)?;
        if signed.len() > MOST_BYTES {
            return self.tell_long(signed.as_str(), text, out);
        }
        self.issue_once(signed.as_str(), text, key, out)
    }

    // Issues a statement that has no comment of a name, or answers why not.
    fn issue_unsigned(
        &mut self,
        text: &str,
        key: Option<&str>,
        author: Option<&str>,
        out: &mut Writer,
    ) -> Result<StatusCode, AllocError>
        ensures { AnswersUnsigned (authors.is_signed text.now) (option_copied key.entry)
            (option_copied author.entry) (R.seen self.old.site) text.now (result_ok result)
            (R.seen self.new.site) }
    {
        if is_signed(text.as_bytes()) {
            let words =
                "a statement that is sent begins with no /* by: the name is that of the token";
            return fault(out, StatusCode::UNPROCESSABLE_ENTITY, words);
        }
        self.issue_signed(text, key, author, out)
    }

    /// Answers a statement of a token with this name, if it has one: where the site takes none, by the reason of that.
    pub(crate) fn answer_statement(
        &mut self,
        text: &str,
        key: Option<&str>,
        author: Option<&str>,
        out: &mut Writer,
    ) -> Result<StatusCode, AllocError>
        ensures { AnswersUnlessFailing (failing_of (option_map (λ it. string_bytes it.why) self.old.suspension)
            (R.seen self.old.site).live self.old.is_lacking) (option_copied key.entry)
            (option_copied author.entry) (R.seen self.old.site) text.now (result_ok result)
            (R.seen self.new.site) }
    {
        match self.failing_words() {
            Some(why) => fault(out, StatusCode::SERVICE_UNAVAILABLE, why),
            None => self.issue_unsigned(text, key, author, out),
        }
    }

    // Lets go of a reversed statement, if it is one of this site; returns whether it was there.
    fn remove_reversal(&mut self, stamp: &Stamp) -> bool
        ensures { R.seen self.new.site ≡ R.seen self.old.site }
    {
        stamp.site == self.site.site() && self.reversals.remove(stamp)
    }

    /// Takes a statement off the list of reversed ones, since a person has seen it, and writes the list anew.
    pub(crate) fn acknowledge_stamp(
        &mut self,
        text: &str,
        out: &mut Writer,
    ) -> Result<StatusCode, AllocError>
        ensures { R.seen self.new.site ≡ R.seen self.old.site }
    {
        let Some(stamp) = read_stamp(text) else {
            return fault(out, StatusCode::BAD_REQUEST, STAMP_WORDS);
        };
        if !self.remove_reversal(&stamp) {
            let words = "no statement of this stamp was done here and is refused";
            return fault(out, StatusCode::NOT_FOUND, words);
        }
        self.save_reversals();
        self.mark_change();
        write_truth(out, "acknowledged", true)?;
        Ok(StatusCode::OK)
    }
}
