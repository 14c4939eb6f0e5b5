//! What the shell and the server say of a site, in words: why a call is refused, what became of statements, what a
//! meeting changed, what was found of a journal, and how much room is left.
//!
//! Begin with `SiteFault`, why a site does not do what it is asked, and `push_site_fault`, its words. `Snapshot` and
//! `MeetingChanges` say what a meeting changed.
//!
//! ```
//! if let Err(error) = site.issue(alloc, text, &mut meter) {
//!     push_site_fault(&mut out, site.catalogue(), &notes, SiteFault::NotIssued { text, error })?;
//! }
//! let before = Snapshot::of(alloc, &site)?;
//! let taken = site.take(alloc, &batch, &mut meter)?;
//! let changes = before.compare(alloc, &site, "")?;
//! ```
//!
//! Costs: a fault is a value that owns no memory. Its words cost another reading of the text where they show a place in
//! it. `Snapshot` holds a copy of what each statement that was issued at the site changed; `compare` makes two walks
//! along what is held, and along these changes. `push_digest` sorts what is held by its sites.
//!
//! td_site_messages sees a site as any `Replica`, and changes none. The words of a fault, of a refusal and of a raise
//! have no prefix and no line end: each program writes its own.
#![tactic(auto)]

mod alarms;
mod changes;
mod differing;
mod digest;
mod fault;
mod gaps;
mod journal;
mod meeting;
mod outcomes;
mod places;
mod queries;
mod redone;
mod room;
mod statements;
mod type_errors;
mod unmet;
mod wording;

pub use alarms::{push_acknowledged, push_alarms, push_own_alarm, push_start_alarms};
pub use changes::{push_change_count, push_changes};
pub use differing::{push_differing, push_not_taken};
pub use digest::{HeldDigest, held_digests, push_digest, push_sum};
pub use fault::{SiteFault, push_site_fault};
pub use gaps::push_own_gap;
pub use journal::{failure_words, push_journal, push_read_only_journal, push_readable};
pub use meeting::{MeetingChanges, Snapshot};
pub use outcomes::{push_log, push_outcome, push_raise, push_reason, push_refused, raise_meaning};
pub use redone::RedoneStatement;
pub use room::push_room;
pub use unmet::push_met;
pub use wording::{BROKEN, LACKING, NO_MEMORY, UNCHANGED, push_count};
