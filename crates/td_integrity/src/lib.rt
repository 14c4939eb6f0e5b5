//! What must be true of relvars after each statement.
//!
//! Begin with `first_failure_after`: the first key or constraint that is false after changes.
//!
//! ```
//! let at_first = first_failure(alloc, database.catalogue(), &database)?;
//! database.change(alloc, relvar, &delta)?;
//! let failure = first_failure_after(alloc, database.catalogue(), &database, &changes)?;
//! ```
//!
//! Costs: behind changes only the tests are made that read a changed relvar. A key costs a search for each new tuple
//! where the look-up lends an index by it; a constraint costs its evaluation, over new tuples or lost values alone
//! where that is exact.
//!
//! td_integrity judges tests over any look-up, so that a script's opening, a database, and a statement before it
//! changes anything are judged by one loop; where changes of legal relvars are known, it passes over what they cannot
//! touch. One changed base relvar has a constraint judged over a look-up that lends its new tuples in its place, where
//! td_incremental says that this is exact. A reference to it, however it is written, is not judged where what it lost
//! left its values to others; one of a single base relvar is else judged over the values that are gone.
#![tactic(auto)]

mod judging;
mod keyed;
pub mod laws;
mod losses;
mod ways;

pub use judging::{first_failure, first_failure_after};
