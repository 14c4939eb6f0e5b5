//! Files by their names: what is no plain file is told, and is never opened.
//!
//! A program that opens a pipe waits until another one opens its other end. So a name is looked at first.
//!
//! Begin with `read_plain`, the bytes of a plain file, and with `replace_file`, which writes one.
//!
//! ```
//! plain_file(&rt, name)?;
//! let bytes = read_plain(&rt, name)?;
//! replace_file(&rt, name, beside, text)?;
//! ```
//!
//! Costs: a look at the name; `read_plain` then reads the whole file into memory. `replace_file` and `remove_file` sync
//! what they change.
#![tactic(auto)]

mod reading;
mod unreadable;
mod writing;

pub use reading::{plain_file, read_plain};
pub use unreadable::Unreadable;
pub use writing::{remove_file, replace_file, sync_folder};
