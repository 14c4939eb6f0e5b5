//! What statements access, and which of them commute.
//!
//! Begin with `Dependencies`, which are found once of a catalogue, and `Accesses`: what some statements access is
//! added, and a statement is asked whether it conflicts with one of them. One that does not may be exchanged with each.
//!
//! ```
//! let dependencies = Dependencies::of(alloc, &catalogue)?;
//! let mut accesses = Accesses::none(alloc);
//! accesses.add(alloc, &catalogue, &dependencies, &[0, 1], &[1], 1, Some(&inserted))?;
//! let conflicts = accesses.conflict(alloc, &dependencies, &[0, 1], &[1], 1, Some(&others))?;
//! ```
//!
//! Costs: `conflict` costs a look at the relvars that are named and, of an insertion, a search for each tuple by each
//! key and each reference; `add` the same, and a sort of the tuples where there are many. `Dependencies::of` costs the
//! size of each constraint for each two relvars that it reads.
//!
//! td_accesses knows what statements read, assign and insert, and no log. Two statements commute where neither assigns
//! a relvar on which the other one hangs. So do two insertions, by the law `insertions_commute`: into one relvar, where
//! they differ by its keys and each of its tests is a key or can be judged by what is inserted alone; into two, where
//! only references judge what the one inserts by the other relvar, and no tuple refers to one of the other's.
#![tactic(auto)]

pub mod accesses;
mod by_keys;
pub mod dependencies;
pub mod laws;
mod links;
mod places;

pub use accesses::{Accesses, Insertions};
pub use dependencies::{Dependencies, RelvarDependencies};
