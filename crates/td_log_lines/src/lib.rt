//! Lines of a log: each begins with its time, and what repeats is held back and counted.
//!
//! Begin with `LogLines::new`; each call returns the lines that are to be printed now, which may be none.
//!
//! ```
//! let mut log = LogLines::new(alloc);
//! let lines = log.fault(now, "fault file: the list of alarms cannot be written")?;
//! print!(rt; "{}", lines.as_str());
//! ```
//!
//! Costs: a call compares its text with each text that is held back, at most 64. When memory runs out, nothing changes:
//! the caller prints its text without a time then.
//!
//! Definitions to trust, in `specs/`: Notices, Runs, Times.
//!
//! td_log_lines prints nothing, reads no clock, and knows neither sites nor meetings.
#![tactic(auto)]

mod laws;
mod lines;
mod notices;
mod time;

pub use laws::no_fault_is_lost;
pub use lines::LogLines;
pub use time::time_text;
