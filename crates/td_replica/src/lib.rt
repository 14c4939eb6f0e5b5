//! What every kind of site is: the trait of sites with the contracts of its calls, what a site is seen as, the history
//! of the entries that it holds, and the laws of these.
//!
//! Begin with `Replica`, the trait of all kinds of sites, and `specs/Calls.antt`, what its calls answer and leave.
//! `Opens` opens a site from a script, and `Catalogued` lends the catalogue of that script.
//!
//! ```
//! let mut site = R::open_script(alloc, script, 1, 10_000)?;
//! let issued = site.issue(alloc, "DELETE S;", &mut meter)?;
//! let taken = site.take(alloc, &batch, &mut meter)?;
//! let answer = site.ask(alloc, "COUNT ( S )")?;
//! let past = site.ask_at(alloc, "COUNT ( S )", issued.stamp, &mut meter)?;
//! ```
//!
//! Costs: those of the kind of site; td_replay tells its own. A text of more than 8,192 bytes is refused before
//! anything takes memory.
//!
//! Definitions to trust, in `specs/`: Calls, Laws, NewSites, Past, Seen, Histories.
//!
//! td_replica has next to no code, and knows no kind of site. Kinds of sites, journals, meetings and whatever shows
//! sites stand on it, so that none of them waits for evaluation.
#![tactic(auto)]

pub mod calls;
pub mod laws;
pub mod refusal;
pub mod replica;

pub use calls::{Issued, Taken};
pub use refusal::{
    AskError, IssueError, NotOpen, OpenError, PastError, TakeError, TellError, ValueError,
};
pub use replica::{Catalogued, MOST_BYTES, MOST_ENTRIES, Opens, Replica, SCRIPT_BYTES};
