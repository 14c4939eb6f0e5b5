//! What came of meetings.

use crate::lines::LineKind;
use crate::words::{write_count, write_text, write_truth};
use std::alloc::{AllocError, Global};
use std::collections::VecDeque;
use std::net::SocketAddr;
use td_event_loop::{Loss, MOST_MEETINGS, MeetingOutcome, MeetingReport, MeetingSide};
use td_http_api::Writer;
use td_site_messages::push_met;

/// How many meetings that ended are kept.
const MOST_TOLD: usize = 32;

/// What a step came to: in words, and whether the meeting did what it is for.
#[derive(Drop)]
pub(crate) struct Note {
    pub(crate) outcome: MeetingOutcome,
    pub(crate) words: String,
}

/// A meeting that ended.
#[derive(Drop)]
struct Meeting {
    peer: SocketAddr,
    is_called: bool,
    is_met: bool,
    words: String,
    ended: u64,
}

impl Meeting {
    // Appends the address of the other site as the member `peer`.
    fn write_peer(&self, alloc: Global, out: &mut Writer) -> Result<(), AllocError> {
        let peer = self.peer;
        let peer = format!(in alloc; "{peer}")?;
        write_text(out, "peer", peer.as_str())
    }

    // Appends the meeting, as it is at this time, in milliseconds since the event loop began.
    fn write(&self, alloc: Global, out: &mut Writer, now: u64) -> Result<(), AllocError> {
        out.begin_object()?;
        self.write_peer(alloc, out)?;
        write_truth(out, "called", self.is_called)?;
        write_truth(out, "met", self.is_met)?;
        write_text(out, "words", self.words.as_str())?;
        write_count(out, "seconds", now.saturating_sub(self.ended) / 1000)?;
        out.end_object()
    }

    // Whether this site called, or was called, at the same address. Each call comes from another port.
    fn is_with(&self, report: &MeetingReport) -> bool {
        self.is_called == (report.side == MeetingSide::First) && self.peer.ip() == report.peer.ip()
    }
}

/// What came of the meetings under way, each under its number, and of the last ones that ended: of those in a row that
/// came to the same at one address, the last one.
#[derive(Drop)]
pub(crate) struct Meetings {
    alloc: Global,
    notes: Vec<Option<Note>>,
    ended: VecDeque<Meeting>,
    pub(crate) counts: MeetingCounts,
}

/// How many meetings ended since the program began, and how many of them failed.
#[derive(Clone, Copy)]
pub(crate) struct MeetingCounts {
    pub(crate) ended: u64,
    pub(crate) failed: u64,
}

// What is said of a meeting that was lost, or of which no step left a note.
fn loss_words(loss: Option<Loss>) -> &'static str {
    match loss {
        Some(Loss::Silent) => "the other site was silent for 30 seconds",
        Some(Loss::Slow) => "the other site was too slow",
        Some(Loss::Disconnected) => "the connection failed, or was not made",
        Some(Loss::Stopped) => "this program ended",
        None => "there was no memory to tell",
    }
}

/// A meeting that ended: what it came to, and the line about it.
#[derive(Drop)]
pub(crate) struct EndedMeeting {
    pub(crate) outcome: MeetingOutcome,
    pub(crate) kind: LineKind,
    /// Whom it was with, and who called.
    pub(crate) peer: String,
    pub(crate) line: String,
}

// Whom a meeting was with, and who called. A peer that calls does so from another port each time, which is left out.
fn peer_words(alloc: Global, report: &MeetingReport) -> Result<String, AllocError> {
    let peer = report.peer;
    match report.side {
        MeetingSide::First => format!(in alloc; "to {peer}"),
        MeetingSide::Second => {
            let peer = peer.ip();
            format!(in alloc; "from {peer}")
        }
    }
}

// What the line about a meeting is about that came to this.
fn kind_of(alloc: Global, note: &Note) -> Result<LineKind, AllocError> {
    if note.outcome == MeetingOutcome::Failed {
        return Ok(LineKind::Fault);
    }
    let mut nothing = String::new(alloc);
    push_met(&mut nothing, 0)?;
    let is_quiet = note.words.as_str() == nothing.as_str();
    Ok(if is_quiet {
        LineKind::Quiet
    } else {
        LineKind::News
    })
}

// The meeting that came to this, with its line.
fn ended_of(
    alloc: Global,
    report: &MeetingReport,
    note: &Note,
) -> Result<EndedMeeting, AllocError> {
    let peer = peer_words(alloc, report)?;
    let line = format!(in alloc; "meeting {}: {}", peer.as_str(), note.words.as_str())?;
    let kind = kind_of(alloc, note)?;
    Ok(EndedMeeting {
        outcome: note.outcome,
        kind,
        peer,
        line,
    })
}

impl Meetings {
    pub(crate) fn new(alloc: Global) -> Result<Meetings, AllocError> {
        let mut notes = Vec::with_capacity(alloc, MOST_MEETINGS)?;
        for _ in 0..MOST_MEETINGS {
            notes.push(None)?;
        }
        Ok(Meetings {
            alloc,
            notes,
            ended: VecDeque::new(alloc),
            counts: MeetingCounts {
                ended: 0,
                failed: 0,
            },
        })
    }

    /// Keeps what a step of a meeting came to.
    pub(crate) fn note(&mut self, meeting: usize, note: Note) {
        if let Some(kept) = self.notes.get_mut(meeting) {
            *kept = Some(note);
        }
    }

    // What the last step of a meeting came to, which is kept no longer; none if no step left a note.
    fn take_note(&mut self, meeting: usize) -> Option<Note> {
        match self.notes.get_mut(meeting) {
            Some(kept) => kept.take(),
            None => None,
        }
    }

    // Drops the last meeting at this address, if it came to the same.
    fn drop_repeated(&mut self, report: &MeetingReport, words: &str) {
        if let Some(last) = self.ended.iter().rposition(|it| it.is_with(report))
            && self
                .ended
                .get(last)
                .is_some_and(|it| it.words.as_str() == words)
        {
            let _ = self.ended.remove(last);
        }
    }

    // Keeps a meeting among the last ones that ended, in place of the last at its address if that came to the same.
    fn keep(&mut self, report: &MeetingReport, note: Note, now: u64) -> Result<(), AllocError> {
        self.drop_repeated(report, note.words.as_str());
        if self.ended.len() >= MOST_TOLD {
            let _ = self.ended.pop_front();
        }
        self.ended.push_back(Meeting {
            peer: report.peer,
            is_called: report.side == MeetingSide::First,
            is_met: matches!(
                note.outcome,
                MeetingOutcome::Complete | MeetingOutcome::Partial
            ),
            words: note.words,
            ended: now,
        })?;
        Ok(())
    }

    // What a meeting came to that ended. Where a step failed, a loss after it says nothing more.
    fn note_of(&mut self, report: &MeetingReport) -> Result<Note, AllocError> {
        match self.take_note(report.meeting) {
            Some(note) if report.loss.is_none() || note.outcome == MeetingOutcome::Failed => {
                Ok(note)
            }
            _ => Ok(Note {
                outcome: MeetingOutcome::Failed,
                words: String::from_str(self.alloc, loss_words(report.loss))?,
            }),
        }
    }

    // Counts a meeting that came to this.
    fn count(&mut self, outcome: MeetingOutcome) {
        self.counts.ended = self.counts.ended.saturating_add(1);
        if outcome == MeetingOutcome::Failed {
            self.counts.failed = self.counts.failed.saturating_add(1);
        }
    }

    /// Ends a meeting; returns what it came to, with a line for whoever watches.
    pub(crate) fn end(
        &mut self,
        report: &MeetingReport,
        now: u64,
    ) -> Result<EndedMeeting, AllocError> {
        let note = self.note_of(report)?;
        self.count(note.outcome);
        let ended = ended_of(self.alloc, report, &note)?;
        match self.keep(report, note, now) {
            Ok(()) => Ok(ended),
            Err(error) => Err(error),
        }
    }

    /// Appends the last meetings that ended, the last one first.
    pub(crate) fn write(&self, out: &mut Writer, now: u64) -> Result<(), AllocError> {
        out.key("meetings")?;
        out.begin_array()?;
        for meeting in self.ended.iter().rev() {
            meeting.write(self.alloc, out, now)?;
        }
        out.end_array()
    }
}
