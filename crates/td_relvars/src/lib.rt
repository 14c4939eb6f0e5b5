//! The relvars of a database: what they have at first, and what they are asked for.
//!
//! Begin with `Database::open_script`, and `evaluate`, which answers a query. `change` and `change_back` change a
//! relvar where it stands.
//!
//! ```
//! let database = Database::open_script(alloc, "VAR S BASE RELATION { SNO CHAR } KEY { SNO };")?;
//! let read = read_expr(alloc, "COUNT ( S )")?;
//! let query = type_expr(alloc, database.catalogue(), read.get())?;
//! let answer = database.evaluate(alloc, &query)?;
//! ```
//!
//! Costs: `open_script` costs reading and typing, the evaluation of each INIT, and the tests. A query lends base
//! relvars without a copy and evaluates each virtual one that it reaches once; `change` is a search and a shift for
//! each tuple of a small change.
//!
//! td_relvars has what is stored and no statement. A relation is put in place of another one by a move, or is changed
//! where it stands; a copy of some relvars can be put back without memory.
#![tactic(auto)]

mod asking;
pub mod database;
mod evaluation;
pub mod laws;
mod opening;
pub mod parts;

pub use database::Database;
pub use evaluation::value_over;
pub use parts::Part;
pub use td_bases::{Base, WayBack};
pub use td_semantics::{Answer, BrokenTest as Test, RelvarError, ScriptError};
