//! Statements: what one makes of a database, or why it has no effect.
//!
//! Begin with `run`, which runs the text of a statement and tells its outcome and exact change; `read` and `run_read`
//! are its two halves. `try_read` says what `run_read` would do. `undo` and `redo` go by the change.
//!
//! ```
//! let mut meter = Meter::new(&rt);
//! let ran = run(alloc, &mut database, "DELETE S WHERE STATUS < 20;", LATEST, &mut meter)?;
//! let is_done = matches!(&ran.outcome, Outcome::Done);
//! undo(alloc, &mut database, &ran.delta)?;
//! redo(alloc, &mut database, &ran.delta)?;
//! ```
//!
//! Costs: `run` reads and types the text once, evaluates each source once, and makes the tests that read what changes.
//! An INSERT costs a search and a shift for each of its tuples and the tests, a DELETE or UPDATE a search or a pass
//! besides; `undo` and `redo` cost what the change has, however large the relvars are.
//!
//! td_assign evaluates sources and makes tests over look-ups that lay changes over a database: they lend what was given
//! to a target, or what the database has, and copy neither. `choices` says which of its two lists a conditional
//! statement makes; from there on it goes as an assignment of that list, but that its names are those of both. It
//! writes the database last, by moves; where a statement adds tuples to one relvar, or takes out or changes those of a
//! condition, the relvar is changed where it stands, judged, and changed back where a test fails.
#![tactic(auto)]

pub mod changes;
mod choices;
mod deltas;
mod insertions;
pub mod known;
pub mod laws;
pub mod names;
pub mod ran;
pub mod reading;
mod running;
mod seen;
mod sources;
mod trying;
mod undoing;

pub use changes::Change;
pub use known::KnownNames;
pub use ran::Ran;
pub use reading::{ReadText, read};
pub use running::{run, run_read};
pub use td_semantics::{Meter, Outcome};
pub use trying::try_read;
pub use undoing::{redo, undo, undo_part};
