//! The texts that a site shows: its listing, its log, the tables of its relvars, and version vectors.
//!
//! Begin with `listing`, all that a site shows, `export`, a relvar as CSV, and `log_text`.
//!
//! ```
//! listing(alloc, &site, &mut sink)?;
//! export(alloc, &site, "S", &mut sink)?;
//! let log = log_text(alloc, &site)?;
//! ```
//!
//! Costs: linear in what is shown, and the evaluation of the virtual relvars under it. `listing` and `export` build the
//! text whole in memory, and flush once. `script_catalogue` reads and types the script.
//!
//! Definitions to trust, in `specs/`: Calls, Laws, Sites, Tables, Texts, Writings.
//!
//! td_listings sees a site as a `Replica`; names and headings come from the catalogue of its script, which a `Catalogued`
//! site lends.
#![tactic(auto)]

pub mod error;
pub mod laws;
mod listings;
mod log;
mod records;
mod table;
mod vector;
mod words;
mod writing;

pub use error::{ExportError, ListError, ListingError, TableError};
pub use listings::listing_text;
pub use log::log_text;
pub use records::relation_table;
pub use table::table_text;
pub use vector::vector_text;
pub use words::{show_number, show_outcome, show_raise, show_stamp};
pub use writing::{export, listing, script_catalogue};
