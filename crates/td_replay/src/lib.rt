//! Sites: replicas that hold statements as entries and tell what running these once, in stamp order, gives.
//!
//! Begin with `Site`, and its `issue`, `take` and `ask`. `PlainSite` answers the same by running all entries anew.
//!
//! ```
//! let mut site = Site::open_script(alloc, script, 1, 10_000)?;
//! let issued = site.issue(alloc, "DELETE S;", &mut meter)?;
//! let taken = site.take(alloc, &batch, &mut meter)?;
//! let answer = site.ask(alloc, "COUNT ( S )")?;
//! ```
//!
//! Costs: `issue` runs one statement and appends one entry; `ask` evaluates the query over relvars that are lent.
//! `take` of k entries with m held costs (k + m) log (k + m), a pass over the log, and a run of each fresh statement
//! and of each later one that conflicts with it and that it may touch, where a `PlainSite` runs all; `ask_at` of a
//! `Site` runs no statement.
//!
//! td_replay knows of the language no more than that a script opens a database and a text steps from one to the next.
//! `engine` is that database as a machine, whose record is what `run` of td_assign tells, and `accessing` tells which
//! statements conflict; `told` runs entries in turn or tells more of them by rollback and replay, and keeps each one's
//! record; `judged` and `asked` see texts and a catalogue or a database alone. `past` is copies of what some relvars had
//! after an earlier entry, with their lists by keys, by the changes in the records behind it, and a look-up that lends
//! them in place of the relvars. `state` is what both kinds of sites keep and do, of which no clause speaks, and `site`
//! (`Site`) and `plain` (`PlainSite`) differ in the way in which they tell more entries.
#![tactic(auto)]

mod accessing;
mod asked;
mod engine;
mod judged;
pub mod laws;
mod past;
mod plain;
mod site;
mod state;
mod told;

pub use plain::PlainSite;
pub use site::Site;
pub use td_io::Device;
pub use td_replica::{
    AskError, Catalogued, IssueError, Issued, NotOpen, OpenError, Opens, PastError, Replica,
    TakeError, Taken, TellError, ValueError,
};
pub use td_semantics::{Answer, Meter, Outcome};
