//! Meetings of the site.

ghost use Rattle.std.specs.Prelude.{◌≡◌};
ghost use Rattle.td_site_desk.specs.Meetings.{Finishes, Settles, step_after, step_after_error};

use crate::desk::SiteDesk;
use crate::received::TakingStep;
use crate::scopes::{GreetedPeer, MeetingState, lacked_by};
use crate::steps::{
    answer_bytes, answer_question_into, ask_into, compare_into, finish_bytes, greet_into,
    greeting_of, settle_bytes,
};
use std::alloc::AllocError;
use std::io::Write;
use std::net::SocketAddr;
use std::rt::Runtime;
use td_changes::Changes;
use td_checked_meetings::{MeetingScope, Received, add_differences, whole_scope};
use td_comparison::{FirstMessage, is_other_version};
use td_digested_sites::Digested;
use td_event_loop::{MeetingOutcome, MeetingReport, Outbox, PeerRefusal, StepResult};
use td_meeting::MeetingError;
use td_replica::Catalogued;
use td_stamps::Vector;
use td_stream_bounds::{Extent, greeting_extent};

// The stream of entries after the greeting of a reply; nothing if the greeting is not whole.
fn entries_of(reply: &[u8]) -> &[u8] {
    match greeting_extent(reply) {
        Extent::Whole(end) => reply.get(end..).unwrap_or(&[]),
        Extent::Open | Extent::Never => &[],
    }
}

// Whether a greeting is refused: of another script, or of this site's number.
fn is_refused(error: MeetingError) -> bool {
    matches!(error, MeetingError::OtherScript | MeetingError::SameSite)
}

// What follows a step that failed: what was written is sent where there was no room for more.
fn step_after_error(error: MeetingError) -> StepResult
    ensures { result ≡ step_after_error error }
{
    match error {
        MeetingError::WriteFault { .. } => StepResult::Part,
        _ => StepResult::Stop,
    }
}

// What follows a step that took entries, or failed.
fn step_after(received: Result<Received, MeetingError>) -> StepResult
    ensures { result ≡ step_after received }
{
    match received {
        Ok(_) => StepResult::Part,
        Err(error) => step_after_error(error),
    }
}

impl<R: Changes + Catalogued + Drop, H: Runtime + AllocGlobal> SiteDesk<'_, R, H> {
    /// Writes the list of reversed statements to its file, and tells whoever watches if that fails.
    pub(crate) fn save_reversals(&mut self)
        ensures { R.seen self.new.site ≡ R.seen self.old.site }
    {
        if !matches!(self.reversals.save(self.host), Ok(true)) {
            self.report_fault("fault file: the list of reversed statements cannot be written");
        }
    }
}

impl<R: Changes + Catalogued + Digested + Drop, H: Runtime + AllocGlobal> SiteDesk<'_, R, H> {
    // Notes why a step failed, and returns what follows.
    fn fail(&mut self, meeting: usize, error: MeetingError) -> StepResult
        ensures { R.seen self.new.site ≡ R.seen self.old.site }
    {
        self.note_error(meeting, error);
        step_after_error(error)
    }

    // Writes the greeting of the site for a peer that does not compare.
    fn greet(&self, out: &mut Outbox) -> Result<MeetingScope, MeetingError> {
        let scope = match whole_scope(self.alloc, &self.site) {
            Ok(scope) => scope,
            Err(error) => return Err(error),
        };
        match greet_into(self.alloc, &self.site, &scope, out) {
            Ok(()) => Ok(scope),
            Err(error) => Err(error),
        }
    }

    // Begins a meeting with a peer that does not compare.
    fn open_plain(&mut self, meeting: usize, out: &mut Outbox) -> Option<FirstMessage>
        ensures { R.seen self.new.site ≡ R.seen self.old.site }
    {
        match self.greet(out) {
            Ok(scope) => {
                self.scopes.keep(meeting, MeetingState::InScope(scope));
                Some(FirstMessage::Greeting)
            }
            Err(error) => {
                self.note_error(meeting, error);
                None
            }
        }
    }

    /// Begins a meeting with a peer that is called, by a question where the peer compares; or notes why not.
    pub(crate) fn open(
        &mut self,
        meeting: usize,
        peer: SocketAddr,
        out: &mut Outbox,
    ) -> Option<FirstMessage>
        ensures { R.seen self.new.site ≡ R.seen self.old.site }
    {
        if self.refuses_meeting(meeting) {
            return None;
        }
        if self.scopes.is_plain(peer, self.now) {
            return self.open_plain(meeting, out);
        }
        match ask_into(self.alloc, &mut self.site, out) {
            Ok(vector) => {
                self.scopes.keep(meeting, MeetingState::Asked(vector));
                Some(FirstMessage::Question)
            }
            Err(error) => {
                self.note_error(meeting, error);
                None
            }
        }
    }

    // Answers a question of another version by the letters and the version that are known here.
    fn refuse_version(&mut self, meeting: usize, out: &mut Outbox) -> StepResult
        ensures { R.seen self.new.site ≡ R.seen self.old.site }
    {
        let _ = out.write_all(b"JTDC\x01");
        let words = "fault version: the other site compares by another version";
        self.note_words(meeting, MeetingOutcome::Failed, words);
        StepResult::Part
    }

    /// Reads a question, and writes the answer.
    pub(crate) fn answer_question(
        &mut self,
        meeting: usize,
        question: &[u8],
        out: &mut Outbox,
    ) -> StepResult
        ensures { R.seen self.new.site ≡ R.seen self.old.site }
    {
        if self.refuses_meeting(meeting) {
            return StepResult::Stop;
        }
        if is_other_version(question) {
            return self.refuse_version(meeting, out);
        }
        match answer_question_into(self.alloc, &mut self.site, question, out) {
            Ok(scope) => {
                self.scopes.keep(meeting, MeetingState::InScope(scope));
                StepResult::Continue
            }
            Err(error) => self.fail(meeting, error),
        }
    }

    // Notes that a peer closed the connection in place of an answer, and so may not compare.
    fn note_unanswered(&mut self, meeting: usize, peer: SocketAddr)
        ensures { R.seen self.new.site ≡ R.seen self.old.site }
    {
        if self.scopes.note_unanswered(peer, self.now) {
            let words =
                "the other site closed the connection in place of digests: it is called without them now";
            self.note_words(meeting, MeetingOutcome::Partial, words);
        } else {
            let words =
                "fault cut: the other site, which has compared digests before, closed the connection";
            self.note_words(meeting, MeetingOutcome::Failed, words);
        }
    }

    /// Reads the answer to a question, and writes which sites differ and the greeting of the site.
    pub(crate) fn compare(
        &mut self,
        meeting: usize,
        peer: SocketAddr,
        answer: &[u8],
        out: &mut Outbox,
    ) -> StepResult
        ensures { R.seen self.new.site ≡ R.seen self.old.site }
    {
        if self.refuses_meeting(meeting) {
            return StepResult::Stop;
        }
        let Some(MeetingState::Asked(vector)) = self.scopes.take(meeting) else {
            return StepResult::Stop;
        };
        if answer.is_empty() {
            self.note_unanswered(meeting, peer);
            return StepResult::Stop;
        }
        match compare_into(self.alloc, &mut self.site, vector, answer, out) {
            Ok(scope) => {
                self.scopes.note_compared(peer);
                self.scopes.keep(meeting, MeetingState::InScope(scope));
                StepResult::Continue
            }
            Err(error) => self.fail(meeting, error),
        }
    }

    /// Reads which sites differ by the peer that asked.
    pub(crate) fn add_differences(&mut self, meeting: usize, differences: &[u8]) -> StepResult
        ensures { R.seen self.new.site ≡ R.seen self.old.site }
    {
        let Some(MeetingState::InScope(mut scope)) = self.scopes.take(meeting) else {
            return StepResult::Stop;
        };
        match add_differences(self.alloc, &mut scope, differences) {
            Ok(()) => {
                self.scopes.keep(meeting, MeetingState::InScope(scope));
                StepResult::Continue
            }
            Err(error) => self.fail(meeting, error),
        }
    }

    // The scope of all that is held; none where memory runs out or the journal has failed, which is noted.
    fn scope_of_all(&mut self, meeting: usize) -> Option<MeetingScope>
        ensures { R.seen self.new.site ≡ R.seen self.old.site }
    {
        match whole_scope(self.alloc, &self.site) {
            Ok(scope) => Some(scope),
            Err(error) => {
                self.note_error(meeting, error);
                None
            }
        }
    }

    // The scope of a meeting: that of all that is held, where the peer did not compare. None if the meeting does not go
    // on, which is noted.
    fn take_scope(&mut self, meeting: usize) -> Option<MeetingScope>
        ensures { R.seen self.new.site ≡ R.seen self.old.site }
    {
        if self.refuses_meeting(meeting) {
            return None;
        }
        match self.scopes.take(meeting) {
            Some(MeetingState::InScope(scope)) => Some(scope),
            Some(MeetingState::Greeted(greeted)) => Some(greeted.scope),
            _ => self.scope_of_all(meeting),
        }
    }

    // Keeps the scope of a meeting whose greeting is accepted, and what the other site lacked of what it is sent.
    fn keep_greeted(&mut self, meeting: usize, scope: MeetingScope, lacked: Vec<(u16, u32)>)
        ensures { R.seen self.new.site ≡ R.seen self.old.site }
    {
        let greeted = GreetedPeer { scope, lacked };
        self.scopes.keep(meeting, MeetingState::Greeted(greeted));
    }

    /// The second step: reads a greeting, and writes the site's own with the entries that the peer lacks. A peer that
    /// is refused gets the site's own all the same, by which it sees why.
    pub(crate) fn answer(&mut self, meeting: usize, greeting: &[u8], out: &mut Outbox) -> StepResult
        ensures { R.seen self.new.site ≡ R.seen self.old.site }
    {
        let Some(scope) = self.take_scope(meeting) else {
            return StepResult::Stop;
        };
        let peer = greeting_of(self.alloc, greeting);
        self.scopes.keep_greeting(meeting, peer);
        let next = match answer_bytes(self.alloc, &self.site, &scope, greeting, out) {
            Ok(()) => StepResult::Continue,
            Err(error) if is_refused(error) => {
                self.note_error(meeting, error);
                let _ = greet_into(self.alloc, &self.site, &scope, out);
                return StepResult::Part;
            }
            Err(error) => self.fail(meeting, error),
        };
        self.keep_greeted(meeting, scope, Vec::new(self.alloc));
        next
    }

    // Takes note of what a meeting left out, and of what the other site lacked of what it was sent.
    fn end_greeted(&mut self, report: &MeetingReport, greeted: GreetedPeer)
        ensures { R.seen self.new.site ≡ R.seen self.old.site }
    {
        let GreetedPeer { scope, lacked } = greeted;
        let address = report.peer.ip().to_canonical();
        self.raise_alarms(&scope.left_out, address);
        if report.loss.is_none() {
            self.scopes.note_lacked(report.peer, lacked);
        }
    }

    /// Ends a meeting, and tells whoever watches what it came to; without memory for that it counts as failed.
    pub(crate) fn end(&mut self, report: &MeetingReport) -> MeetingOutcome
        ensures { R.seen self.new.site ≡ R.seen self.old.site }
    {
        let outcome = match self.meetings.end(report, self.now) {
            Ok(ended) => {
                self.report_line(ended.kind, ended.peer.as_str(), ended.line.as_str());
                ended.outcome
            }
            Err(_) => MeetingOutcome::Failed,
        };
        let greeting = self.scopes.take_greeting(report.meeting);
        match self.scopes.take(report.meeting) {
            Some(MeetingState::Greeted(greeted)) => {
                self.note_contact(report, outcome, greeting.as_ref(), Some(&greeted.scope));
                self.end_greeted(report, greeted);
            }
            _state => self.note_contact(report, outcome, greeting.as_ref(), None),
        }
        self.mark_change();
        outcome
    }

    /// Tells whoever watches why a peer is not met.
    pub(crate) fn refuse(&mut self, peer: SocketAddr, refusal: PeerRefusal)
        ensures { R.seen self.new.site ≡ R.seen self.old.site }
    {
        let why = match refusal {
            PeerRefusal::Address => "its address is not allowed",
            PeerRefusal::Crowded => "as many meetings are under way as can be",
        };
        let peer = peer.ip();
        match format!(in self.alloc; "no meeting from {peer}: {why}") {
            Ok(line) => self.report_fault(line.as_str()),
            Err(_) => self.report_fault(why),
        }
    }

    /// The peer that a client asked to have called, which is given once; none if nobody asked since.
    pub(crate) fn next_wish(&mut self) -> Option<SocketAddr>
        ensures { R.seen self.new.site ≡ R.seen self.old.site }
    {
        self.wish.take()
    }

    // Whether a peer that greets with this vector has taken nothing of what it was sent last: then its address.
    fn full_peer(&self, peer: SocketAddr, vector: Option<&Vector>) -> Option<SocketAddr> {
        match vector {
            Some(vector) if self.scopes.has_taken_nothing(peer, vector) => Some(peer),
            _ => None,
        }
    }

    // What a peer that greets with this vector lacks of the scope; empty if that is not known.
    fn lacked(&self, scope: &MeetingScope, vector: Option<&Vector>) -> Vec<(u16, u32)> {
        let lacked = match vector {
            Some(vector) => lacked_by(self.alloc, scope, vector),
            None => Err(AllocError),
        };
        lacked.unwrap_or(Vec::new(self.alloc))
    }

    // What follows the third step. What the peer lacked counts only if it is sent to it.
    fn end_settled(
        &mut self,
        meeting: usize,
        received: Result<Received, MeetingError>,
        scope: MeetingScope,
        lacked: Vec<(u16, u32)>,
    ) -> StepResult
        ensures kept { R.seen self.new.site ≡ R.seen self.old.site }
        ensures next { result ≡ step_after received }
    {
        match received {
            Ok(_) | Err(MeetingError::WriteFault { .. }) => {
                self.keep_greeted(meeting, scope, lacked);
            }
            Err(error) if is_refused(error) => {}
            Err(_) => self.keep_greeted(meeting, scope, Vec::new(self.alloc)),
        }
        step_after(received)
    }

    /// The third step: takes the entries of a reply, and writes those that the peer lacks.
    pub(crate) fn settle(
        &mut self,
        meeting: usize,
        peer: SocketAddr,
        reply: &[u8],
        out: &mut Outbox,
    ) -> StepResult
        ensures { Settles (R.seen self.old.site) reply.now result (R.seen self.new.site) }
    {
        let Some(scope) = self.take_scope(meeting) else {
            return StepResult::Stop;
        };
        let entries = entries_of(reply);
        let before = self.snapshot_before(entries);
        let received = settle_bytes(
            self.alloc,
            &mut self.site,
            &scope,
            reply,
            out,
            &mut self.meter,
        );
        let greeting = greeting_of(self.alloc, reply);
        let vector = match &greeting {
            Some(greeting) => Some(&greeting.vector),
            None => None,
        };
        let step = TakingStep {
            received,
            came: entries.len(),
            full_peer: self.full_peer(peer, vector),
        };
        self.note_received(meeting, &scope, &step, before.as_ref());
        let lacked = self.lacked(&scope, vector);
        self.scopes.keep_greeting(meeting, greeting);
        self.end_settled(meeting, received, scope, lacked)
    }

    /// The fourth step: takes the entries of the peer, and notes what it came to.
    pub(crate) fn finish(&mut self, meeting: usize, entries: &[u8])
        ensures { Finishes (R.seen self.old.site) entries.now (R.seen self.new.site) }
    {
        let Some(scope) = self.take_scope(meeting) else {
            return;
        };
        let before = self.snapshot_before(entries);
        let step = TakingStep {
            received: finish_bytes(self.alloc, &mut self.site, &scope, entries, &mut self.meter),
            came: entries.len(),
            full_peer: None,
        };
        self.note_received(meeting, &scope, &step, before.as_ref());
        self.keep_greeted(meeting, scope, Vec::new(self.alloc));
    }
}
