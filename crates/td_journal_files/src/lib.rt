//! Journals that stand in files, each of which is locked for as long as it is open.
//!
//! Begin with `FileJournals`, which opens the journal of a name, and `Notes`, which tell what was found.
//!
//! ```
//! let notes = Notes::new();
//! let journals = FileJournals::new(&rt, &notes);
//! let keeper = keep_journal(alloc, &journals, name, site, &mut meter)?;
//! let found = notes.found();
//! ```
//!
//! Costs: each flush waits until the disk has what was written, looks at the name once more, and notes the length in
//! the file beside, for which it does not wait. A journal is read by a buffer; what is cut off it is copied first.
//!
//! td_journal_files knows files; of what stands in them it knows where headers and frames end, and sums.
#![tactic(auto)]

mod beside;
mod checking;
mod companions;
mod contents;
mod file;
mod found;
mod framing;
mod journals;
mod judging;
mod notes;
mod parts;
mod renewal;
mod salvage;
mod seen;
mod sums;
mod synced;

pub use contents::{Contents, PassedOver, read_contents};
pub use file::FileJournal;
pub use found::{Cut, Damage, Found, Salvaged};
pub use framing::StatementAt;
pub use journals::FileJournals;
pub use judging::Checked;
pub use notes::{Notes, Refusal, SyncFailure};
pub use renewal::FileRenewal;
pub use synced::Synced;
