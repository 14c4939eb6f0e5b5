//! Which tuples of a relation are shown, and in which order.
//!
//! Begin with `selected_tuples`, and with `sort_key`, which finds an attribute by which tuples are ordered.
//!
//! ```
//! let keys = vec![in alloc; sort_key(heading, "NAME", false)?]?;
//! let shown = selected_tuples(alloc, relation.tuples(), Some("ann"), &keys)?;
//! ```
//!
//! Costs: a search folds the case of each text once; an order of n tuples takes n log n comparisons.
//!
//! td_selections knows values alone, and no language of queries.
#![tactic(auto)]

mod keys;
mod search;
mod selection;

pub use keys::{SortError, SortKey, sort_key};
pub use selection::selected_tuples;
