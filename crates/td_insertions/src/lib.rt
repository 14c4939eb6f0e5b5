//! INSERTs of tuples that are written out: they add the same tuples, whatever the relvars have.
//!
//! Begin with `inserted_tuples`, which evaluates the tuples that such a statement adds, and `puts_in_all`, which tells
//! without an evaluation that all of them are in the change that the statement made.
//!
//! ```
//! let inserted = inserted_tuples(alloc, database.catalogue(), &statement, &database)?;
//! let are_all_new = puts_in_all(alloc, &statement, &changes)?;
//! ```
//!
//! Costs: both cost the size of the expressions; `inserted_tuples` also evaluates them, and sorts the tuples. No relvar
//! is evaluated.
//!
//! td_insertions knows no database, and tells an INSERT by its form. The tuples are the value of its source over a
//! look-up in which the target is empty, so td_eval evaluates them. An INSERT whose expressions name a relvar is taken
//! for none, even where what they come to does not hang on that relvar.
#![tactic(auto)]

mod emptied;
mod tuples;
mod written;

pub use tuples::{inserted_tuples, puts_in_all};
