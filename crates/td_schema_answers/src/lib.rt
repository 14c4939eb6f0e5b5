//! What a script defines, as JSON: types, relvars, constraints, and words for names.
//!
//! Begin with `write_schema`.
//!
//! ```
//! let mut out = Writer::new(Vec::new(alloc));
//! out.begin_object()?;
//! write_schema(alloc, catalogue, script, &mut out)?;
//! out.end_object()?;
//! ```
//!
//! Costs: a pass over the script, and one over its definitions for each relvar.
//!
//! td_schema_answers knows the catalogue and the script's text. No contract says what it writes: it is proved to return
//! and to be safe.
#![tactic(auto)]

mod constraints;
mod members;
mod relvars;
mod types;
mod view;

pub use view::write_schema;
