//! td_stamps, td_replay and td_meeting.

pub use td_meeting::{
    Journal, Keeper, MeetingError, MeetingRefusal, Met, Pair, Reopened, answer, finish, greet,
    meet, reopen, settle,
};
pub use td_replay::{
    Answer, AskError, Device, IssueError, Issued, Meter, OpenError, Opens, Outcome, PlainSite,
    Replica, Site, TakeError, Taken, ValueError,
};
pub use td_stamps::{CheckError, Entry, Held, NextError, Stamp, Vector};
pub use td_values::{Name, Text};
