//! What a step of a meeting came to that takes entries.

ghost use Rattle.std.specs.Prelude.{◌≡◌};

use crate::desk::SiteDesk;
use crate::meetings::Note;
use std::alloc::AllocError;
use std::net::SocketAddr;
use std::rt::Runtime;
use td_changes::Changes;
use td_checked_meetings::{MeetingScope, Received};
use td_event_loop::MeetingOutcome;
use td_frames::FrameError;
use td_headings::Catalogue;
use td_journal_files::Notes;
use td_meeting::MeetingError;
use td_paths::remove_file;
use td_replica::Catalogued;
use td_site_messages::{
    MeetingChanges, SiteFault, Snapshot, push_differing, push_met, push_not_taken, push_site_fault,
};

/// A stream of entries that ends early after this many bytes is a first part, also where nothing of it was new.
const LONG_STREAM: usize = 1_048_576;

/// A step that took entries, or failed.
#[derive(Clone, Copy)]
pub(crate) struct TakingStep {
    pub(crate) received: Result<Received, MeetingError>,
    /// How many bytes of entries came.
    pub(crate) came: usize,
    /// The address of the peer, if it has taken nothing of what it was sent last.
    pub(crate) full_peer: Option<SocketAddr>,
}

// Whether a stream of entries ended early.
fn is_cut(error: MeetingError) -> bool {
    matches!(
        error,
        MeetingError::Frame {
            error: FrameError::Cut,
            ..
        }
    )
}

// What a step of a meeting came to that failed.
fn outcome_of(error: MeetingError) -> MeetingOutcome {
    match error {
        MeetingError::WriteFault { .. } => MeetingOutcome::Partial,
        _ if is_cut(error) && taken_of(error) > 0 => MeetingOutcome::Partial,
        _ => MeetingOutcome::Failed,
    }
}

// How many statements a step took that failed.
fn taken_of(error: MeetingError) -> usize {
    match error {
        MeetingError::Frame { error: _, taken } => taken,
        MeetingError::WriteFault { taken } => taken,
        _ => 0,
    }
}

impl TakingStep {
    // How many new statements it took.
    fn fresh(&self) -> usize {
        match self.received {
            Ok(received) => received.taken.fresh,
            Err(error) => taken_of(error),
        }
    }

    // What it came to. Where nothing new came or went, the next meeting may bring as little, so it is not made at once.
    fn outcome(&self) -> MeetingOutcome {
        let Err(error) = self.received else {
            return MeetingOutcome::Complete;
        };
        match outcome_of(error) {
            MeetingOutcome::Partial if self.full_peer.is_some() && taken_of(error) == 0 => {
                MeetingOutcome::Fruitless
            }
            MeetingOutcome::Failed if is_cut(error) && self.came >= LONG_STREAM => {
                MeetingOutcome::Fruitless
            }
            outcome => outcome,
        }
    }
}

// Appends why a step failed, or how much it did.
fn push_error(
    out: &mut String,
    catalogue: &Catalogue,
    notes: &Notes,
    error: MeetingError,
    outcome: MeetingOutcome,
) -> Result<(), AllocError> {
    if outcome != MeetingOutcome::Failed {
        let taken = taken_of(error);
        return write!(
            out,
            "met in part: {taken} statements were new here, and the next meeting goes on"
        );
    }
    out.push_str("fault ")?;
    push_site_fault(out, catalogue, notes, SiteFault::NotMet(error))
}

// Appends lines to a line.
fn push_lines(out: &mut String, lines: &str) -> Result<(), AllocError> {
    for line in lines.lines() {
        out.push_str("; ")?;
        out.push_str(line)?;
    }
    Ok(())
}

// Appends what a meeting changed, in one line.
fn push_meeting_changes(out: &mut String, changes: &MeetingChanges) -> Result<(), AllocError> {
    out.push_str(changes.line_end.as_str())?;
    push_lines(out, changes.lines.as_str())
}

// Appends that a peer took nothing, if it did not.
fn push_full_peer(out: &mut String, peer: Option<SocketAddr>) -> Result<(), AllocError> {
    match peer {
        Some(peer) => write!(
            out,
            "; WARNING: {peer} took nothing of what was sent to it last: it may be full"
        ),
        None => Ok(()),
    }
}

impl<R: Changes + Catalogued + Drop, H: Runtime + AllocGlobal> SiteDesk<'_, R, H> {
    // Keeps what a step came to until its meeting ends; a step whose words had no memory leaves no note.
    fn note(&mut self, meeting: usize, outcome: MeetingOutcome, words: Result<String, AllocError>)
        ensures { R.seen self.new.site ≡ R.seen self.old.site }
    {
        if let Ok(words) = words {
            self.meetings.note(meeting, Note { outcome, words });
        }
    }

    /// Notes what a step came to, in these words.
    pub(crate) fn note_words(&mut self, meeting: usize, outcome: MeetingOutcome, words: &str)
        ensures { R.seen self.new.site ≡ R.seen self.old.site }
    {
        let words = String::from_str(self.alloc, words);
        self.note(meeting, outcome, words);
    }

    // Why a step failed, or how much it did.
    fn error_words(
        &self,
        error: MeetingError,
        outcome: MeetingOutcome,
    ) -> Result<String, AllocError> {
        let mut words = String::new(self.alloc);
        push_error(
            &mut words,
            self.site.catalogue(),
            self.notes,
            error,
            outcome,
        )?;
        Ok(words)
    }

    /// Keeps why a step failed, or how much it did, until its meeting ends.
    pub(crate) fn note_error(&mut self, meeting: usize, error: MeetingError)
        ensures { R.seen self.new.site ≡ R.seen self.old.site }
    {
        let outcome = outcome_of(error);
        let words = self.error_words(error, outcome);
        self.note(meeting, outcome, words);
    }

    /// What the site says of its statements before it takes a stream of entries; none if the stream has none, or if
    /// memory runs out. It costs a walk along what is held.
    pub(crate) fn snapshot_before(&self, entries: &[u8]) -> Option<Snapshot> {
        // (one letter is the end of a stream)
        if entries.len() < 2 {
            return None;
        }
        match Snapshot::of(self.alloc, &self.site) {
            Ok(before) => Some(before),
            Err(_) => None,
        }
    }

    // What a step changed that took entries; none if nothing was new, or if memory runs out.
    fn changes_since(
        &self,
        step: &TakingStep,
        before: Option<&Snapshot>,
    ) -> Option<MeetingChanges> {
        let before = before?;
        if step.fresh() == 0 {
            return None;
        }
        match before.compare(self.alloc, &self.site, "") {
            Ok(changes) => Some(changes),
            Err(_) => None,
        }
    }

    // Appends what a step took, or why it failed.
    fn push_taken(&self, words: &mut String, step: &TakingStep) -> Result<(), AllocError> {
        match step.received {
            Ok(received) => push_met(words, received.taken.fresh),
            Err(error) => {
                let outcome = step.outcome();
                push_error(words, self.site.catalogue(), self.notes, error, outcome)
            }
        }
    }

    // Appends what was not exchanged, here and at the peer.
    fn push_left_out(
        &self,
        words: &mut String,
        scope: &MeetingScope,
        step: &TakingStep,
    ) -> Result<(), AllocError> {
        let mut lines = String::new(self.alloc);
        push_differing(&mut lines, scope)?;
        if let Ok(received) = &step.received {
            push_not_taken(&mut lines, received)?;
        }
        push_lines(words, lines.as_str())?;
        push_full_peer(words, step.full_peer)
    }

    // Appends what a step took, or why it failed, with what that changed, and with what was not exchanged.
    fn push_step(
        &self,
        words: &mut String,
        scope: &MeetingScope,
        step: &TakingStep,
        changes: Option<&MeetingChanges>,
    ) -> Result<(), AllocError> {
        self.push_taken(words, step)?;
        if let Some(changes) = changes {
            push_meeting_changes(words, changes)?;
        }
        self.push_left_out(words, scope, step)
    }

    // The words of a step that took entries, or failed.
    fn step_words(
        &self,
        scope: &MeetingScope,
        step: &TakingStep,
        changes: Option<&MeetingChanges>,
    ) -> Result<String, AllocError> {
        let mut words = String::new(self.alloc);
        self.push_step(&mut words, scope, step, changes)?;
        Ok(words)
    }

    // Notes which statements of this site are refused now, and which change something else; returns how many were not
    // known.
    fn add_marks(&mut self, changes: Option<MeetingChanges>) -> Result<usize, AllocError>
        ensures { R.seen self.new.site ≡ R.seen self.old.site }
    {
        let redone = match changes {
            Some(changes) => self.reversals.add_redone(changes.redone)?,
            None => 0,
        };
        let reversed = self.reversals.update(&self.site)?;
        Ok(reversed.saturating_add(redone))
    }

    // Looks at what became of the statements of this site, if others came.
    fn review(&mut self, fresh: usize, changes: Option<MeetingChanges>)
        ensures { R.seen self.new.site ≡ R.seen self.old.site }
    {
        if fresh == 0 {
            return;
        }
        self.note_arrivals();
        let Ok(more) = self.add_marks(changes) else {
            self.report_fault(
                "fault memory: whether statements of this site came to something else is not known",
            );
            return;
        };
        if more > 0 {
            self.report(
                "statements that were done here are refused now, or change something else: GET /api/attention",
            );
            self.save_reversals();
        }
    }

    // Has a site that lacks statements issue again, since a meeting has brought those that it issued before.
    fn end_lacking(&mut self)
        ensures { R.seen self.new.site ≡ R.seen self.old.site }
    {
        if !self.is_lacking {
            return;
        }
        self.is_lacking = false;
        self.notes.let_go();
        if let Some(mark) = &self.mark {
            let _removed = remove_file(self.host, mark.as_str());
        }
        self.mark = None;
        self.mark_change();
    }

    /// Takes note of what a step took in this scope, and of what that changed since `before`. A site that lacks
    /// statements may issue again once it has got those that it issued before: not where they are left out.
    pub(crate) fn note_received(
        &mut self,
        meeting: usize,
        scope: &MeetingScope,
        step: &TakingStep,
        before: Option<&Snapshot>,
    )
        ensures { R.seen self.new.site ≡ R.seen self.old.site }
    {
        if step.received.is_ok() && !scope.leaves_out(self.site.site()) {
            self.end_lacking();
        }
        let changes = self.changes_since(step, before);
        let words = self.step_words(scope, step, changes.as_ref());
        self.note(meeting, step.outcome(), words);
        self.review(step.fresh(), changes);
    }
}
