//! What scripts and statements mean: which catalogue a script defines, which relvars it opens, the tests of keys and
//! constraints, and the step that a statement makes of a database.
//!
//! Begin with `specs/Steps.antt`, what a statement makes of a database, and `catalogue_of`, the catalogue of a script.
//! `Outcome` is what becomes of a statement, `Answer` what a query is answered.
//!
//! ```
//! let catalogue = catalogue_of(alloc, "VAR S BASE RELATION { SNO CHAR } KEY { SNO };")?;
//! let relvars = catalogue.schema().relvar_count();
//! ```
//!
//! Costs: `catalogue_of` costs the reading and typing of the text, and evaluates nothing.
//!
//! Definitions to trust, in `specs/`: Answers, Databases, Differences, Given, Laws, Meanings, Openings, Raises,
//! Reports, Scripts, Sources, Steps, Stored, Tests, Trees.
//!
//! td_semantics knows no stamp and no site, and has next to no code. Evaluation and databases stand on it, so that a
//! change of sites proves none of them again.
#![tactic(auto)]

pub mod answer;
pub mod broken;
mod catalogue;
pub mod error;
pub mod failure;
pub mod laws;
pub mod meter;
pub mod outcome;

pub use answer::Answer;
pub use broken::{BrokenTest, TestFailure};
pub use catalogue::catalogue_of;
pub use error::{CatalogueError, RelvarError, ScriptError};
pub use failure::Failure;
pub use meter::Meter;
pub use outcome::Outcome;
