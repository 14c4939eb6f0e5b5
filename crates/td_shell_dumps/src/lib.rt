//! What the base relvars of a site have, as statements that insert it at a new site of the script.
//!
//! Begin with `tables_of`, the statements of a dump, and `refused_insertions`, which tries them at a new site.
//!
//! ```
//! let tables = tables_of(alloc, &site)?;
//! let trial = refused_insertions::<Site>(alloc, script, limit, &tables.insertions, &mut meter)?;
//! ```
//!
//! Costs: `tables_of` is linear in what it gives, which it builds in memory. `refused_insertions` opens a site, and
//! issues each statement there.
#![tactic(auto)]

mod insertions;
mod tables;
mod trial;

pub use tables::{DumpStatement, Tables, Untold, tables_of};
pub use trial::{Trial, refused_insertions};
