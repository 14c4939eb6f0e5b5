//! Kinds of types: what is defined, what a name means in an expression, and which types operators take and give.
//!
//! Begin with `Schema`, what is defined, and `Scope`, what a name means in an expression.
//!
//! ```
//! let mut schema = Schema::new(alloc);
//! schema.add_relvar(Name::new(alloc, "S")?, heading)?;
//! let found = schema.relvar(&name);
//! let meant = Scope::Relvars(&schema).find(&name)?;
//! ```
//!
//! Costs: a relvar, a type or a possrep is found by a hash of its name. `find` takes as many look-ups as scopes are
//! around, and as many steps as WITH has names.
//!
//! Definitions to trust, in `specs/`: Forms, Kinds, Lists, Operators, Results, Schemas, Scopes, Written.
//!
//! td_schema has all of typing that does not walk an expression: a schema (relvars and possreps, each in order of
//! definition), the names in scope from the innermost out, types as they are written, and for each operator the types
//! that it takes and gives, as tables.
#![tactic(auto)]

pub mod error;
pub mod forms;
pub mod kinds;
pub mod lists;
pub mod operators;
pub mod schema;
pub mod scope;
pub mod written;

pub use error::TypeError;
pub use schema::{Representation, Schema};
pub use scope::{Meant, Scope};
