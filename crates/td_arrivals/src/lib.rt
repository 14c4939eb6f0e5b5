//! When statements came to a site, in a file beside its journal, which is never sent.
//!
//! Begin with `Arrivals::open`; `begin` it with what the site holds, and `note` after each call that may add entries.
//!
//! ```
//! let mut arrivals = Arrivals::open(alloc, &rt, Some(name))?;
//! arrivals.begin(held.entries())?;
//! let issued = site.issue(alloc, "DELETE S;", &mut meter)?;
//! arrivals.note(&rt, site.held()?.entries())?;
//! let came = arrivals.came(&issued.stamp);
//! ```
//!
//! Costs: `note` after one entry that is the last one takes no walk. After a batch it takes a walk along what is held,
//! and one write. Nothing is synced: after a power failure the last times may be missing.
//!
//! The file has a line for each entry: the seconds since 1970, a blank, and the entry's stamp. A line of another form,
//! as one that was cut, is passed over.
#![tactic(auto)]

mod arrivals;
mod lines;

pub use arrivals::{Arrivals, NoteError, seconds_now};
