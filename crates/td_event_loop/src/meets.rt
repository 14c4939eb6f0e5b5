//! A site that meets others.

ghost use Rattle.std.specs.Prelude.{ℕ, List};
ghost use Rattle.td_event_loop.specs.declared.meets.StepResult.{StepResult};

use crate::outbox::Outbox;
use std::net::SocketAddr;
use td_comparison::FirstMessage;

/// The side of a meeting on which a site is.
#[derive(Clone, Copy, PartialEq, Eq)]
pub enum MeetingSide {
    /// It called the other site.
    First,
    /// It was called.
    Second,
}

/// Why a meeting ended between its steps.
#[derive(Clone, Copy)]
pub enum Loss {
    /// The peer sent and took no byte for 30 seconds.
    Silent,
    /// The peer sent and took less than 1 KiB a second, or for ten minutes.
    Slow,
    /// The connection failed, or was not made.
    Disconnected,
    /// The program ends.
    Stopped,
}

/// Why a peer is not met.
#[derive(Clone, Copy)]
pub enum PeerRefusal {
    /// Its address is none of those that are allowed.
    Address,
    /// As many peers are met as can be.
    Crowded,
}

/// What follows a step.
#[derive(Clone, Copy, PartialEq, Eq)]
pub enum StepResult {
    /// What was written is sent, and the peer is awaited.
    Continue,
    /// What was written is sent, and the meeting ends.
    Part,
    /// The meeting ends at once, and what was written is dropped.
    Stop,
}

/// What a meeting came to.
#[derive(Clone, Copy, PartialEq, Eq)]
pub enum MeetingOutcome {
    /// All that was to be exchanged was.
    Complete,
    /// Some of it was. A peer that was called is called again at once.
    Partial,
    /// Nothing of it was new, or this site takes nothing now. A peer that was called is called again when it is due.
    Fruitless,
    /// Nothing was. A peer that was called is called again later each time.
    Failed,
}

/// A meeting that ended.
#[derive(Clone, Copy)]
pub struct MeetingReport {
    /// Its number, below `MOST_MEETINGS`. A meeting that begins later may have it too.
    pub meeting: usize,
    pub peer: SocketAddr,
    pub side: MeetingSide,
    /// Why it ended, where no step says so.
    pub loss: Option<Loss>,
}

/// A site that meets others. Meetings overlap: each step is given the number of its meeting, under which the site may
/// keep what came of it until the meeting ends.
pub trait Meets {
    // The second state holds what the first one holds.
    ghost keeps: { Self → Self → Type 0 };

    // The third step reads these bytes in the first state, comes to this, and leaves the second state.
    ghost settles: { Self → List ℕ → StepResult → Self → Type 0 };

    // The fourth step reads these bytes in the first state, and leaves the second one.
    ghost finishes: { Self → List ℕ → Self → Type 0 };

    /// Begins a meeting with a peer that is called: writes a question or the site's greeting. None ends the meeting.
    fn open(&mut self, meeting: usize, peer: SocketAddr, out: &mut Outbox) -> Option<FirstMessage>
        ensures { keeps self.old self.new };

    /// Reads a question of a peer that calls, and writes the site's answer.
    fn answer_question(&mut self, meeting: usize, question: &[u8], out: &mut Outbox) -> StepResult
        ensures { keeps self.old self.new };

    /// Reads the answer to a question, and writes which sites differ and the site's greeting. There are no bytes if the
    /// peer closed the connection at once.
    fn compare(
        &mut self,
        meeting: usize,
        peer: SocketAddr,
        answer: &[u8],
        out: &mut Outbox,
    ) -> StepResult
        ensures { keeps self.old self.new };

    /// Reads which sites differ by the peer that asked.
    fn add_differences(&mut self, meeting: usize, differences: &[u8]) -> StepResult
        ensures { keeps self.old self.new };

    /// The second step: reads a greeting, and writes the site's own and the entries that the peer lacks.
    fn answer(&mut self, meeting: usize, greeting: &[u8], out: &mut Outbox) -> StepResult
        ensures { keeps self.old self.new };

    /// The third step: reads a greeting and entries, and writes what the peer lacks.
    fn settle(
        &mut self,
        meeting: usize,
        peer: SocketAddr,
        reply: &[u8],
        out: &mut Outbox,
    ) -> StepResult
        ensures { settles self.old reply.now result self.new };

    /// The fourth step: reads entries.
    fn finish(&mut self, meeting: usize, entries: &[u8])
        ensures { finishes self.old entries.now self.new };

    /// Takes note of a meeting that ended.
    fn end(&mut self, report: &MeetingReport) -> MeetingOutcome
        ensures { keeps self.old self.new };

    /// Takes note of a peer that is not met.
    fn refuse(&mut self, peer: SocketAddr, refusal: PeerRefusal)
        ensures { keeps self.old self.new };

    /// A peer that is to be called now, each returned once. One that the loop does not call is left out.
    fn next_wish(&mut self) -> Option<SocketAddr>
        ensures { keeps self.old self.new };
}
