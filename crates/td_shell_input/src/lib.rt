//! What a person types: texts over several lines, words with a dot in front, and the definitions of a script.
//!
//! Begin with `Scan`, whether a text that is typed is complete, and `command_of`, what a line with a dot says.
//!
//! ```
//! let mut scan = Scan::new();
//! scan.add_line(b"DELETE S;\n");
//! let is_open = scan.standing() == Standing::Open;
//! let command = command_of(".schema S");
//! ```
//!
//! Costs: `Scan` takes no memory, each byte costs the same, and `standing` takes constant time. `command_of` is linear
//! in the line and takes no memory.
//!
//! td_shell_input knows no site. No contract says what it prints: it is proved to return and to be safe.
#![tactic(auto)]

pub mod commands;
mod conditions;
pub mod definitions;
pub mod entries;
pub mod scan;

pub use commands::{DotCommand, Mode, command_of};
pub use definitions::{Defined, defined_name, definition_at, script_front};
pub use entries::{DumpedEntry, entry_in, push_entry};
pub use scan::{Scan, Standing};
