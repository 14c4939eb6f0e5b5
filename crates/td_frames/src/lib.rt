//! The frames in which sites hand each other their entries.
//!
//! Begin with `put_greeting` and `read_greeting`, and `put_entry` and `read_entries`.
//!
//! ```
//! put_greeting(&mut sink, 2, script, &[(2, 1)])?;
//! put_entry(&mut sink, &entry)?;
//! put_end(&mut sink)?;
//! let greeting = read_greeting(alloc, &mut source)?;
//! let (entries, end) = read_entries(alloc, &mut source, Version::Second, MOST_ENTRIES);
//! ```
//!
//! Costs: linear in the bytes. Writing takes no memory and flushes nothing; reading takes room for the script, the
//! version vector and the texts of the entries.
//!
//! Definitions to trust, in `specs/`: Reading, Spelling.
//!
//! td_frames knows entries and version vectors as numbers and bytes, and no site: whose script and number a greeting
//! has is for its caller to judge. Its definitions are the spelling of each frame and a reading field by field; laws
//! tie the two.
#![tactic(auto)]

mod entries;
mod entry;
pub mod error;
mod fields;
mod greeted;
pub mod greeting;
pub mod laws;
pub mod version;

pub use entries::{MOST_ENTRIES, put_end, put_entry, read_entries};
pub use entry::read_frame;
pub use error::FrameError;
pub use greeted::put_greeting;
pub use greeting::{Greeting, SCRIPT_BYTES, read_greeting};
pub use version::Version;
