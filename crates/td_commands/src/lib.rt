//! Lines of the workbench: what each says.
//!
//! Begin with `command_of`, what a line says.
//!
//! ```
//! let command = command_of(b"1: DELETE S;");
//! assert!(rt; command == Command::Issue { site: 1, text: "DELETE S;" });
//! ```
//!
//! Costs: linear in the line, and no memory: the texts of a command are parts of the line. A line of more than 16,384
//! bytes is not looked at.
//!
//! Definitions to trust, in `specs/`: Lines.
//!
//! td_commands knows bytes and no site.
#![tactic(auto)]

pub mod command;

pub use command::{Command, LINE_BYTES, command_of};
