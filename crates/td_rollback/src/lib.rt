//! Rollback and replay: the end of a history is taken back, and replayed with more entries.
//!
//! Begin with the trait `Machine`, and `replay_with`, which leads a machine to the end of a history with more entries.
//!
//! ```
//! let prepared = held.prepare(alloc, batch)?;
//! replay_with(alloc, &mut machine, held.entries(), &mut log, prepared.entries(), &mut meter)?;
//! held.commit(prepared);
//! ```
//!
//! Costs: beside the calls of the machine, `replay_with` walks a few times along the entries behind the first fresh
//! one, by their stamps and not by their texts. Of the old ones it takes back, and makes again or runs, those alone
//! that conflict with a fresh one, or with one before them that it takes back.
//!
//! td_rollback knows entries, stamps and places, which are numbers, and no statement. Its trait `Machine` says what is
//! asked of whatever runs entries: an entry is read, which tells its footprint and what it accesses, and run by what
//! was read; a step leaves a record, changes its targets alone, and goes by its footprint; steps that commute may be
//! exchanged. It has the log of its caller: `stamps` tells old entries from fresh ones, `marks` marks the old entries
//! that conflict and parts entries and records by their marks, `replay` and `undoing` go through the history of what is
//! marked, `turns` tells what becomes of its records, and `replaying` puts all together.
#![tactic(auto)]

pub mod laws;
mod machine;
mod marks;
mod names;
mod replay;
mod replaying;
mod stamps;
mod turns;
mod undoing;

pub use machine::Machine;
pub use replaying::replay_with;
