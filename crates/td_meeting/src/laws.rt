//! The laws of meetings.

ghost use Rattle.td_meeting.specs.Laws.{MeetingLeavesUnion, StepsLeaveExchange};

/// After a whole meeting of two sites, no two entries of which clash, each holds the union of what they held.
pub fn meeting_leaves_union()
    ensures { MeetingLeavesUnion }
{}

/// Four steps whose bytes came to the other site, each over a link of its own, leave what a meeting in memory does,
/// whatever the links.
pub fn steps_leave_exchange()
    ensures { StepsLeaveExchange }
{}
