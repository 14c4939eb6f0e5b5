//! Meetings with the site of another program, over a link that waits for each byte: a comparison of digests, and then
//! the meeting in the scope that it found.
//!
//! Begin with `call`, for the site that opened the link, and `serve`, for the one that was called. `ask_site` asks
//! about one site, and no meeting follows.
//!
//! ```
//! let outcome = call(alloc, &mut site, &mut link, FirstMessage::Question, &mut meter)?;
//! let received = outcome.received?;
//! ```
//!
//! Costs: those of the steps of td_checked_meetings, and a copy of each message, which is read whole before its step.
//!
//! td_linked_meetings knows where messages end, by td_comparison and td_stream_bounds, and in which order they come. It
//! judges none of them.
#![tactic(auto)]

mod asking;
mod calling;
mod inbox;
mod outcome;
mod serving;

pub use asking::ask_site;
pub use calling::call;
pub use outcome::{MeetFault, MeetingResult, SiteAnswer};
pub use serving::serve;
