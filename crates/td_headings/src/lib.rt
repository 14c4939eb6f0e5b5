//! What a script defines, and the types of its expressions and statements.
//!
//! Begin with `Catalogue::define`, which types a definition behind those before it, `type_expr` and `type_statement`.
//!
//! ```
//! let mut catalogue = Catalogue::new(alloc);
//! let definitions = read_script(alloc, "VAR S BASE RELATION { SNO CHAR } KEY { SNO };")?;
//! for definition in definitions.as_slice() {
//!     catalogue.define(alloc, definition)?;
//! }
//! let expr = type_expr(alloc, &catalogue, read_expr(alloc, "COUNT ( S )")?.get())?;
//! ```
//!
//! Costs: typing takes each part once, and comparisons of types, which may be exponential in its size. `type_expr` and
//! `type_statement` also cost the size of the expressions of the virtual relvars under what is typed.
//!
//! Definitions to trust, in `specs/`: Catalogues, Definitions, Expressions, Reached, Statements.
//!
//! td_headings has what a script defines: beside the schema the CONSTRAINTs of possreps, where each relvar's value
//! comes from, and the tests in script order. That each definition is well typed after those before it is an invariant
//! of the catalogue. A typed expression is shared and never changed; that it is one, with all that evaluating it comes
//! to, is its invariant. A statement's sources are each one expression over the target.
#![tactic(auto)]

pub mod catalogue;
pub mod defined;
mod expression;
pub mod laws;
mod opening;
mod reach;
mod relvars_read;
mod sources;
pub mod statement;
mod test_list;
pub mod typed;

pub use catalogue::Catalogue;
pub use defined::{Origin, Test};
pub use statement::{TypedAssignment, TypedStatement, lists_of, targets, type_statement};
pub use td_schema::TypeError as IllTyped;
pub use typed::{TypedExpr, constraint_expr, init_expr, reads, type_expr};
