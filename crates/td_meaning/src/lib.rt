//! What typed expressions mean: their values, or the errors that they raise.
//!
//! Begin with `eval`, the value of a typed tree in an environment, and `select`, the tuples of which a condition is
//! true. `Environment` has what the relvars have.
//!
//! ```
//! let env = Environment { relvars: &[], virtuals: &[], selectors: &[] };
//! let value = eval::<Infallible>(alloc, &env, &[], &tree, &Bindings::Nothing)?;
//! let some = select::<Infallible>(alloc, &env, &[], &Lease::lent(&relation), &condition, &Bindings::Nothing)?;
//! ```
//!
//! Costs: an expression costs its operators; the recursion nests as deep as it has levels. `select` is a pass, or a
//! search where the condition begins with an equality for each name of a key by which the tuples are kept; parts of the
//! condition that name nothing around them are evaluated once.
//!
//! Definitions to trust, in `specs/`: Mean, Selections.
//!
//! td_meaning evaluates typed trees over relvars that are given by their places; it knows no catalogue, and answers 'no
//! meaning' where a value of a wrong kind comes. What a relvar has is handed in owned or lent. A relvar or a relation
//! of WITH that is an operand is lent, so naming it within a condition copies nothing.
#![tactic(auto)]

mod closed;
mod conditions;
mod counts;
pub mod environment;
mod evaluation;
mod evaluator;
mod extensions;
mod keyed;
pub mod laws;
mod lists;
mod naming;
mod once;
mod operands;
mod operators;
pub mod parts;
mod ready;
mod restrictions;
pub mod scope;
mod selections;
mod summaries;
mod wanting;

pub use environment::{Environment, Known};
pub use evaluation::{eval, extend_all, keep, select};
pub use parts::{HoistedTerm, put};
pub use scope::{Bindings, KnownValue};
pub use wanting::Wanted;
