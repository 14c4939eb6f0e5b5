//! Meetings of two sites: four steps over any readers and writers, in which each site tells the other what it holds,
//! and takes what it lacks.
//!
//! Begin with `meet`, a meeting of two sites in memory, and its steps `greet`, `answer`, `settle` and `finish` over any
//! readers and writers.
//!
//! ```
//! let met = meet(alloc, &mut first, &mut second, &mut meter)?;
//! greet(alloc, &first, &mut near)?;
//! answer(alloc, &second, &mut far)?;
//! let taken = settle(alloc, &mut first, &mut near, &mut meter)?;
//! let taken = finish(alloc, &mut second, &mut far, &mut meter)?;
//! ```
//!
//! Costs: a read or a write for each field, a pass over what is held for each version vector and each stream, and two
//! takes. A step holds in memory the whole stream that it reads; `meet` holds the bytes of each step too.
//!
//! Definitions to trust, in `specs/`: Laws, Meetings, Reading, Steps, Writing.
//!
//! td_meeting sees a site as a `Replica` and the other one as bytes alone: it judges the other's script and number,
//! reads a whole stream before it takes a batch, and takes before it writes. No step waits for the other site but by
//! reading, and none keeps anything for the next one.
#![tactic(auto)]

pub mod error;
pub mod hearing;
pub mod laws;
pub mod meeting;
mod memory;
mod sending;
pub mod steps;
mod taking;

pub use error::MeetingError;
pub use hearing::hear;
pub use meeting::{MeetingRefusal, Met, judge, meet};
pub use steps::{answer, finish, greet, settle};
pub use td_io::Pair;
pub use td_journal::{Journal, Keeper, Reopened, reopen};
