//! The operators of relations.
//!
//! Each answers a new relation, which shares the names, values and tuples of its operands. Want of memory is the one
//! refusal; those that ask a function of tuples also answer the least error that it raises.
//!
//! Begin with `join`, `restrict` and `summarize`. `KeyIndex` is a relation by a key, and `join_by` and `matching_by`
//! are the operators over one.
//!
//! ```
//! let both = join(alloc, &suppliers, &shipments)?;
//! let named = restrict(alloc, &both, |t: &Tuple| -> Result<bool, Fault> { Ok(t.get(&city).is_some()) })?;
//! let totals = summarize_by(alloc, &shipments, &names, &summaries, &value)?;
//! let index = KeyIndex::new(alloc, &suppliers, &key)?;
//! let matched = matching_by(alloc, &shipments, &index)?;
//! ```
//!
//! Costs: `restrict` is one pass. `join` of n tuples, the fewer, and m costs of the order of (n + m) log n comparisons
//! and a sort of the result; `project`, `group` and `summarize_by` of n tuples cost n log n. A `KeyIndex` is a sort to
//! make and a search to ask: where its key begins with the common names, `join_by` and `matching_by` cost a search for
//! each tuple of the other operand, and `join_by` a sort of its result.
//!
//! Definitions to trust, in `specs/`: Closures, Extending, FunctionLaws, Nested, Operators, Raising, Restricting,
//! Stops, Summaries.
//!
//! td_algebra says of each operator which tuples its result has, as a predicate on tuples. Operators that ask a
//! function of tuples are stated for every meaning of that function, a value or an error. It knows nothing of
//! expressions.
#![tactic(auto)]

mod closure;
mod errors;
mod extension;
mod fronts;
mod gathered;
mod groups;
mod guides;
mod index;
mod join_counts;
mod joins;
mod key_changes;
mod key_index;
mod keyed_joins;
mod keyed_minus;
mod keys;
pub mod laws;
mod least_error;
mod matches;
mod newcomers;
mod opening;
mod origins;
mod parts;
mod restriction;
mod searches;
mod sets;
mod sorts;
mod summaries;
mod summarization;
mod uniqueness;
mod wraps;

pub use closure::{is_binary, tclose};
pub use errors::{Fault, Stop};
pub use extension::{extend, extension_len};
pub use groups::group;
pub use join_counts::{join_len, join_len_by, join_len_of_indexed};
pub use joins::{compose, join};
pub use key_index::{KeyIndex, place_in};
pub use keyed_joins::{compose_by, compose_of_indexed, join_by, join_of_indexed};
pub use keyed_minus::minus_by;
pub use matches::{matching, matching_by, matching_found, not_matching, not_matching_by};
pub use newcomers::tell_apart_from;
pub use opening::{ungroup, unwrap};
pub use parts::{project, rename};
pub use restriction::restrict;
pub use sets::{intersect, minus, union};
pub use summaries::aggregate;
pub use summarization::{summarize, summarize_by};
pub use td_tuples::{Item, Summary, is_relation_valued, is_tuple_valued};
pub use uniqueness::tell_apart;
pub use wraps::wrap;
