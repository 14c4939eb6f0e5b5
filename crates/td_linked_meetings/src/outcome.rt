//! What a meeting came to.

use td_checked_meetings::{MeetingScope, Received};
use td_meeting::MeetingError;

/// Why two sites did not greet one another; nothing was taken.
#[derive(Clone, Copy, Debug, PartialEq, Eq)]
pub enum MeetFault {
    /// The other site closed the link in place of an answer to a question: it may be a program that does not compare.
    NotCompared,
    /// The other site, which asked, closed the link after the answer: it wanted no meeting.
    OnlyCompared,
    Failed(MeetingError),
}

/// What another site answers to a question for one site.
#[derive(Clone, Copy, Debug, PartialEq, Eq)]
pub struct SiteAnswer {
    /// Up to which number it has all statements of that site.
    pub number: u32,
    /// Whether both have the same of them, up to the lesser one of this number and the one that was asked for.
    pub is_equal: bool,
}

/// What a meeting came to that began.
#[derive(Drop)]
pub struct MeetingResult {
    /// What was taken, or why the meeting broke off.
    pub received: Result<Received, MeetingError>,
    /// What was to be exchanged.
    pub scope: MeetingScope,
    /// Up to which number the other site has all statements of this one.
    pub own_there: u32,
}
