//! Relations and other rows of cells as tables that stand in columns on a screen.
//!
//! Begin with `relation_table`.
//!
//! ```
//! let table = relation_table(alloc, relation.heading(), relation.tuples())?;
//! let text = lay_out(alloc, &columns, &rows)?;
//! ```
//!
//! Costs: linear in what it gives, which is built whole in memory.
//!
//! td_shell_tables knows no site. No contract says what it prints: it is proved to return and to be safe.
#![tactic(auto)]

pub mod layout;
pub mod relations;

pub use layout::{Column, Side, lay_out};
pub use relations::{counted_tuples, relation_table};
