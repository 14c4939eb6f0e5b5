//! Comma-separated values as statements that insert them.
//!
//! Begin with `read_rows`, the rows of CSV checked against a heading, and `insertion_of`, a statement that inserts
//! them.
//!
//! ```
//! let rows = read_rows(alloc, &literals, relvar, heading, file, MOST_BYTES)?;
//! check_keys(alloc, heading, key.as_slice(), &rows)?;
//! let insertion = insertion_of(alloc, relvar, heading, &rows, MOST_BYTES)?;
//! let issued = site.issue(alloc, insertion.text.as_str(), meter)?;
//! ```
//!
//! Costs: `read_rows` is linear in the file and keeps all rows in memory. `check_keys` searches among the rows before,
//! for each row. `insertion_of` takes at most 200 rows.
//!
//! td_shell_import knows no site. No contract says what it prints: it is proved to return and to be safe.
#![tactic(auto)]

pub mod cells;
pub mod columns;
pub mod error;
pub mod keys;
mod lines;
mod literals;
pub mod rows;
pub mod statements;

pub use error::{CellFault, ImportFault};
pub use keys::check_keys;
pub use literals::Literals;
pub use rows::{Row, read_rows};
pub use statements::{ImportStatement, MOST_TUPLES, insertion_of};
