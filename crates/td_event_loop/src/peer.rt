//! A meeting, step by step, over a socket that never blocks.

ghost use Rattle.std.specs.Prelude.{◌≡◌, ◌≤◌, ◌⊎◌, IfSome, drop};
ghost use Rattle.td_event_loop.specs.Meetings.{Drops, Follows, IsAnswered, IsNewMeeting, Reads, StepAt, TakesTurn, UnlessEnded, Waits, end_in, inbox_of, meeting_left, meeting_of};
ghost use Rattle.td_event_loop.specs.declared.meets.StepResult.{StepResult};

use crate::inbox::Inbox;
use crate::limits::TURN;
use crate::meets::{Loss, MeetingReport, MeetingSide, Meets, StepResult};
use crate::outbox::Outbox;
use crate::pace::Pace;
use crate::transfer::{Progress, Readiness, Transfer, transfer_of};
use mio::net::TcpStream;
use std::alloc::Global;
use std::io::Read;
use std::net::{Shutdown, SocketAddr};
use td_comparison::{FirstMessage, comparison_extent, differences_extent};
use td_stream_bounds::{Extent, StreamScanner, greeting_extent};

/// What is awaited.
#[derive(Clone, Copy, PartialEq, Eq)]
pub(crate) enum Stage {
    /// The second site waits for a question or a greeting.
    Opening,
    /// The second site has answered a question, and waits for the sites that differ.
    Differences,
    /// The second site has these, and waits for a greeting.
    Greeting,
    /// The second site has answered, and waits for entries, which begin at this offset.
    Entries(usize),
    /// The first site has asked, and waits for the answer.
    Comparison,
    /// The first site has greeted, and waits for the answer.
    Reply,
    /// The last bytes are sent, by this side.
    Parting(MeetingSide),
    /// The first site has sent all, and drops what it is sent: the connection would be reset at once if it was closed
    /// with bytes unread, and the last bytes lost.
    Draining,
}

/// A meeting with a peer: its socket, what came and what is to go.
#[derive(Drop)]
pub(crate) struct Peer {
    stream: TcpStream,
    address: SocketAddr,
    stage: Stage,
    readiness: Readiness,
    pace: Pace,
    inbox: Inbox,
    scanner: Option<StreamScanner>,
    outbox: Outbox,
}

// Where a message ends that reaches so far among so many bytes.
fn end_of(extent: Extent, length: usize) -> usize
    ensures value { result ≡ end_in extent length }
    ensures within { result ≤ length }
{
    match extent {
        Extent::Whole(end) => end.min(length),
        _ => length,
    }
}

// The stage of a meeting that this site begins.
fn first_stage(first: FirstMessage) -> Stage
    ensures { (result ≡ Stage.Comparison) ⊎ (result ≡ Stage.Reply) }
{
    match first {
        FirstMessage::Question => Stage::Comparison,
        FirstMessage::Greeting => Stage::Reply,
    }
}

// The stage after a step of the site: the next one, or that in which this side's last bytes are sent. None where the
// meeting ends at once.
fn stage_after(step: StepResult, next: Stage, side: MeetingSide) -> Option<Stage>
    ensures { IfSome result (λ stage. (stage ≡ next) ⊎ (stage ≡ Stage.Parting side)) }
{
    match step {
        StepResult::Continue => Some(next),
        StepResult::Part => Some(Stage::Parting(side)),
        StepResult::Stop => None,
    }
}

impl Peer {
    /// A meeting that a peer begins.
    pub(crate) fn accepted(alloc: Global, stream: TcpStream, address: SocketAddr, now: u64) -> Peer
        ensures { IsNewMeeting (meeting_of result) }
    {
        Peer {
            stream,
            address,
            stage: Stage::Opening,
            readiness: Readiness {
                is_readable: true,
                is_writable: true,
            },
            pace: Pace::new(now),
            inbox: Inbox::new(alloc),
            scanner: None,
            outbox: Outbox::new(alloc),
        }
    }

    /// A meeting that this site begins, with what it sends first. An event tells when the connection is made.
    pub(crate) fn called(
        alloc: Global,
        stream: TcpStream,
        address: SocketAddr,
        first: FirstMessage,
        out: Outbox,
        now: u64,
    ) -> Peer
        ensures { IsNewMeeting (meeting_of result) }
    {
        Peer {
            stream,
            address,
            stage: first_stage(first),
            readiness: Readiness {
                is_readable: false,
                is_writable: false,
            },
            pace: Pace::new(now),
            inbox: Inbox::new(alloc),
            scanner: None,
            outbox: out,
        }
    }

    /// Notes what an event says the socket is ready for, beside what is noted already.
    pub(crate) fn add_readiness(&mut self, readiness: Readiness)
        ensures { Waits self.old self.new }
    {
        self.readiness.add(readiness);
    }

    // Whether this site began the meeting, as its first side, or is the second one.
    fn side(&self) -> MeetingSide {
        match self.stage {
            Stage::Opening | Stage::Differences | Stage::Greeting | Stage::Entries(_) => {
                MeetingSide::Second
            }
            Stage::Comparison | Stage::Reply | Stage::Draining => MeetingSide::First,
            Stage::Parting(side) => side,
        }
    }

    /// What is reported to the site of the meeting at its end.
    pub(crate) fn report(&self, meeting: usize, loss: Option<Loss>) -> MeetingReport {
        MeetingReport {
            meeting,
            peer: self.address,
            side: self.side(),
            loss,
        }
    }

    // Whether a message that reaches so far has come whole, or never will.
    fn has_message(&self, extent: Extent) -> bool {
        match extent {
            Extent::Open => self.inbox.is_closed(),
            _ => true,
        }
    }

    // Whether the peer begins with a question.
    fn is_asked(&self) -> bool {
        self.inbox.bytes().first() == Some(&b'J')
    }

    // Whether the question or the greeting has come whole, or never will.
    fn has_opening(&mut self) -> bool
        ensures { Waits self.old self.new }
    {
        if self.is_asked() {
            return self.has_message(comparison_extent(self.inbox.bytes()));
        }
        self.has_greeting()
    }

    // Whether the greeting has come whole, or never will.
    fn has_greeting(&mut self) -> bool
        ensures { Waits self.old self.new }
    {
        if self.scanner.is_some() {
            return true;
        }
        match greeting_extent(self.inbox.bytes()) {
            Extent::Whole(end) => {
                self.scanner = Some(StreamScanner::new(end));
                true
            }
            Extent::Never => true,
            Extent::Open => self.inbox.is_closed(),
        }
    }

    // Whether the entries have come whole, or never will. Without a greeting they never will.
    fn has_entries(&mut self) -> bool
        ensures { Waits self.old self.new }
    {
        match &mut self.scanner {
            Some(scanner) => match scanner.advance(self.inbox.bytes()) {
                Extent::Open => self.inbox.is_closed(),
                _ => true,
            },
            None => true,
        }
    }

    // Answers the question or the greeting that came.
    fn answer_opening<M: Meets>(&mut self, meeting: usize, site: &mut M) -> Progress
        ensures keeps { M.keeps site.old site.new }
        ensures drops { Drops self.old self.new }
        ensures next { UnlessEnded result (Follows Stage.Opening (inbox_of self.old) self.new.stage) }
    {
        if !self.is_asked() {
            return self.answer(meeting, site);
        }
        let bytes = self.inbox.bytes();
        let end = end_of(comparison_extent(bytes), bytes.len());
        let step = site.answer_question(meeting, &bytes[..end], &mut self.outbox);
        let Some(stage) = stage_after(step, Stage::Differences, MeetingSide::Second) else {
            return Progress::Ended;
        };
        self.stage = stage;
        self.inbox.drop_front(end);
        Progress::Busy
    }

    // Hands the sites that differ to the site, and waits for the greeting.
    fn add_differences<M: Meets>(&mut self, meeting: usize, site: &mut M) -> Progress
        ensures keeps { M.keeps site.old site.new }
        ensures drops { Drops self.old self.new }
        ensures next { UnlessEnded result (self.new.stage ≡ Stage.Greeting) }
    {
        let bytes = self.inbox.bytes();
        let end = end_of(differences_extent(bytes), bytes.len());
        if site.add_differences(meeting, &bytes[..end]) != StepResult::Continue {
            return Progress::Ended;
        }
        self.inbox.drop_front(end);
        self.outbox.clear_sent();
        self.stage = Stage::Greeting;
        Progress::Busy
    }

    // Hands the answer to a question to the site, which writes which sites differ and its greeting.
    fn compare<M: Meets>(&mut self, meeting: usize, site: &mut M) -> Progress
        ensures keeps { M.keeps site.old site.new }
        ensures drops { Drops self.old self.new }
        ensures next { UnlessEnded result (Follows Stage.Comparison (inbox_of self.old)
            self.new.stage) }
    {
        self.outbox.clear_sent();
        let bytes = self.inbox.bytes();
        let end = end_of(comparison_extent(bytes), bytes.len());
        let step = site.compare(meeting, self.address, &bytes[..end], &mut self.outbox);
        let Some(stage) = stage_after(step, Stage::Reply, MeetingSide::First) else {
            return Progress::Ended;
        };
        self.stage = stage;
        self.inbox.drop_front(end);
        Progress::Busy
    }

    // Answers the greeting that came; then it waits for entries, sends its last bytes, or ends, as the site decides.
    fn answer<M: Meets>(&mut self, meeting: usize, site: &mut M) -> Progress
        ensures keeps { M.keeps site.old site.new }
        ensures drops { Drops self.old self.new }
        ensures next { UnlessEnded result (IsAnswered (inbox_of self.old) self.new.stage) }
    {
        let bytes = self.inbox.bytes();
        let end = end_of(greeting_extent(bytes), bytes.len());
        let step = site.answer(meeting, &bytes[..end], &mut self.outbox);
        let Some(stage) = stage_after(step, Stage::Entries(end), MeetingSide::Second) else {
            return Progress::Ended;
        };
        self.stage = stage;
        Progress::Busy
    }

    // Hands the entries that came to the site, as the last step of the meeting.
    fn finish<M: Meets>(&mut self, meeting: usize, entries_at: usize, site: &mut M) -> Progress
        ensures finishes { M.finishes site.old (drop entries_at (inbox_of self.old)) site.new }
        ensures same { self.new ≡ self.old }
        ensures ends { result ≡ Progress.Ended }
    {
        let bytes = self.inbox.bytes();
        let from = entries_at.min(bytes.len());
        site.finish(meeting, &bytes[from..]);
        Progress::Ended
    }

    // Hands what the peer replied to the site, which writes the entries that the peer lacks; ended where the site
    // stops.
    fn settle<M: Meets>(&mut self, meeting: usize, site: &mut M) -> Progress
        ensures settles { (step : StepResult) × M.settles site.old (inbox_of self.old) step site.new }
        ensures kept { inbox_of self.new ≡ inbox_of self.old }
        ensures next { UnlessEnded result (self.new.stage ≡ Stage.Parting MeetingSide.First) }
    {
        let reply = self.inbox.bytes();
        if site.settle(meeting, self.address, reply, &mut self.outbox) == StepResult::Stop {
            return Progress::Ended;
        }
        self.stage = Stage::Parting(MeetingSide::First);
        Progress::Busy
    }

    // Sends no more; where the inbox is full, the first site goes on to drain the socket, otherwise the meeting ends.
    fn part(&mut self, side: MeetingSide) -> Progress
        ensures kept { inbox_of self.new ≡ inbox_of self.old }
        ensures next { UnlessEnded result (self.new.stage ≡ Stage.Draining) }
    {
        let _ = self.stream.shutdown(Shutdown::Write);
        if side == MeetingSide::First && self.inbox.is_full() {
            self.stage = Stage::Draining;
            return Progress::Busy;
        }
        Progress::Ended
    }

    // Whether all has come that the next step needs.
    fn is_ready(&mut self) -> bool
        ensures { Waits self.old self.new }
    {
        match self.stage {
            Stage::Opening => self.has_opening(),
            Stage::Differences => self.has_message(differences_extent(self.inbox.bytes())),
            Stage::Greeting => self.has_greeting(),
            Stage::Comparison => self.has_message(comparison_extent(self.inbox.bytes())),
            Stage::Entries(_) => self.outbox.is_sent() && self.has_entries(),
            Stage::Reply => self.has_greeting() && self.has_entries(),
            Stage::Parting(_) => self.outbox.is_sent(),
            Stage::Draining => false,
        }
    }

    // Takes the next step, for which all has come.
    fn take_step<M: Meets>(&mut self, meeting: usize, site: &mut M) -> Progress
        ensures step { StepAt M.keeps M.settles M.finishes self.old.stage (inbox_of self.old)
            site.old site.new }
        ensures drops { Drops self.old self.new }
        ensures next { UnlessEnded result (Follows self.old.stage (inbox_of self.old)
            self.new.stage) }
    {
        match self.stage {
            Stage::Opening => self.answer_opening(meeting, site),
            Stage::Differences => self.add_differences(meeting, site),
            Stage::Greeting => self.answer(meeting, site),
            Stage::Comparison => self.compare(meeting, site),
            Stage::Entries(at) => self.finish(meeting, at, site),
            Stage::Reply => self.settle(meeting, site),
            Stage::Parting(side) => self.part(side),
            Stage::Draining => Progress::Waiting,
        }
    }

    // Ends a meeting whose connection failed. A peer that ends it in place of an answer to a question may not compare:
    // the site hears that as an answer of no bytes.
    fn fail(&mut self) -> Progress
        ensures { Waits self.old self.new }
    {
        let is_unanswered = self.stage == Stage::Comparison
            && self.inbox.bytes().is_empty()
            && self.outbox.has_sent()
            && !self.inbox.is_closed();
        if !is_unanswered {
            return Progress::Ended;
        }
        self.inbox.close();
        Progress::Busy
    }

    // Sends what the socket takes of the outbox; ended where it fails or takes nothing.
    fn write(&mut self) -> Progress
        ensures { Waits self.old self.new }
    {
        match transfer_of(self.outbox.send_to(&mut self.stream)) {
            Transfer::Bytes(0) | Transfer::Failed => self.fail(),
            Transfer::Bytes(count) => {
                self.pace.add_bytes(count);
                Progress::Busy
            }
            Transfer::Blocked => {
                self.readiness.is_writable = false;
                Progress::Busy
            }
        }
    }

    // Reads what has come into the inbox; ended where the socket fails.
    fn read(&mut self, buffer: &mut [u8]) -> Progress
        ensures { Reads self.old self.new }
    {
        match transfer_of(self.inbox.read_from(&mut self.stream, buffer)) {
            Transfer::Failed => self.fail(),
            Transfer::Bytes(count) => {
                self.pace.add_bytes(count);
                Progress::Busy
            }
            Transfer::Blocked => {
                self.readiness.is_readable = false;
                Progress::Busy
            }
        }
    }

    // Reads what has come and drops it; ended where the other side has closed or the socket fails.
    fn drain(&mut self, buffer: &mut [u8]) -> Progress
        ensures { Waits self.old self.new }
    {
        match transfer_of(self.stream.read(buffer)) {
            Transfer::Bytes(0) | Transfer::Failed => Progress::Ended,
            Transfer::Bytes(count) => {
                self.pace.add_bytes(count);
                Progress::Busy
            }
            Transfer::Blocked => {
                self.readiness.is_readable = false;
                Progress::Waiting
            }
        }
    }

    // Reads or writes once, where that can be.
    fn transfer(&mut self, buffer: &mut [u8]) -> Progress
        ensures { Reads self.old self.new }
    {
        if !self.outbox.is_sent() && self.readiness.is_writable {
            return self.write();
        }
        if self.readiness.is_readable && !self.inbox.is_closed() {
            return self.read(buffer);
        }
        Progress::Waiting
    }

    /// Gives the peer its turn: some reads and writes, and one step at most; and why the meeting ended, where no step
    /// says so.
    pub(crate) fn take_turn<M: Meets>(
        &mut self,
        meeting: usize,
        site: &mut M,
        buffer: &mut [u8],
        now: u64,
    ) -> (Progress, Option<Loss>)
        ensures { TakesTurn M.keeps M.settles M.finishes (meeting_of self.old)
            (meeting_left result.0 self.new) site.old site.new }
    {
        self.pace.pass(now);
        let loss = self.pace.loss();
        if self.stage == Stage::Draining {
            if loss.is_some() {
                return (Progress::Ended, None);
            }
            return (self.drain(buffer), None);
        }
        if loss.is_some() {
            return (Progress::Ended, loss);
        }
        for _ in 0..TURN {
            if self.is_ready() {
                return (self.take_step(meeting, site), None);
            }
            match self.transfer(buffer) {
                Progress::Busy => {}
                Progress::Waiting => return (Progress::Waiting, None),
                Progress::Ended => return (Progress::Ended, Some(Loss::Disconnected)),
            }
        }
        (Progress::Busy, None)
    }
}
