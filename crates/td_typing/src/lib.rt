//! Types of expressions: which tree and which kind of type an expression has over a schema, in a scope.
//!
//! Begin with `type_in`, which gives the tree and the kind of an expression in a scope.
//!
//! ```
//! let read = read_expr(alloc, "S WHERE STATUS > 10")?;
//! let Typing { tree, kind } = type_in(alloc, schema, &Scope::Relvars(schema), read.get())?;
//! ```
//!
//! Costs: each part is typed once, beside comparisons of types. These walk types as trees, which can be exponentially
//! larger than the text.
//!
//! Definitions to trust, in `specs/`: Trees, Types.
//!
//! td_typing has the typing relation, which types and resolves at once, one rule a form; a function that decides it;
//! and the code, which gives what the function gives.
#![tactic(auto)]

mod calls;
pub mod forms;
pub mod laws;
pub mod lists;
pub mod parts;
pub mod typing;

pub use typing::type_in;
