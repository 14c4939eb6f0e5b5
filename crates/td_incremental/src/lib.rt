//! When a base relvar gains tuples: which constraints may be judged over these alone.
//!
//! Begin with `is_watched`, whether a constraint may be judged over new tuples alone, and `sole_reference`, whether it
//! says that one relvar refers to another.
//!
//! ```
//! let expr = type_expr(alloc, &catalogue, read_expr(alloc, "IS_EMPTY ( SP NOT MATCHING S )")?.get())?;
//! let over_new_alone = is_watched(alloc, &catalogue, &expr, 1)?;
//! let reference = sole_reference(alloc, &catalogue, &expr, 0)?;
//! ```
//!
//! Costs: no relvar is evaluated. `is_watched`, `is_safe` and `referring` cost the sizes of the expression and of those
//! of the virtual relvars under it, and the number of relvars; `sole_reference` costs the relvars' headings.
#![tactic(auto)]

pub mod laws;
mod references;
mod safety;
mod watching;

pub use references::{Reference, is_base_relvar, referring, sole_reference};
pub use safety::is_safe;
pub use watching::is_watched;
