//! The journal of a site: what it accepts is written there, so that the site comes back with it.
//!
//! Begin with `keep_journal`, by which a new site comes back from its journal and goes on with it, and `Keeper`, which
//! is a site.
//!
//! ```
//! let site = Site::open_script(alloc, script, 1, 10_000)?;
//! let mut keeper = keep_journal(alloc, &journals, "site.tdj", site, &mut meter)?;
//! let issued = keeper.issue(alloc, "DELETE S;", &mut meter)?;
//! ```
//!
//! Costs: `keep_journal` reads the journal once, takes room for its entries, and runs each once. A fresh entry costs
//! two writes, and each call that has one a flush, which waits for the disk where the journal stands there.
//!
//! Definitions to trust, in `specs/`: Keepers, Keeping, Laws, Reading, Reopening, Spelling, Stores, Views, Written.
//!
//! td_journal sees a site as a `Replica` and knows no evaluation; a kind of site that a script opens is handed in by
//! its type. A keeper wraps any site, another keeper among them, and judges and makes room before the site changes, so
//! that a write is all that can fail behind that. It knows bytes and no file: where journals stand is a trait of names
//! (`Journals`), by which `keep_journal` opens one, has a new site take what it says, cuts it to its whole bytes, or
//! makes it anew where it is of the first version, and goes on with it.
#![tactic(auto)]

pub mod error;
mod frames;
pub mod journal;
pub mod keeper;
pub mod laws;
mod reading;
pub mod reopening;
pub mod stores;

pub use error::{JournalError, WriteFault};
pub use journal::{Journal, NotBegun};
pub use keeper::{Keeper, NotStarted, StartError};
pub use reopening::{ReopenError, Reopened, reopen, take_journal};
pub use stores::{Journals, StoreError, keep_journal};
