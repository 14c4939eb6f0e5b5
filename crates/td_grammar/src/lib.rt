//! Expressions, statements and scripts of the language, from their texts.
//!
//! Begin with `read_expr`, `read_statement` and `read_script`. `read_statement_in` reads a statement in the dialect in
//! which it was issued, and `stop` tells where a text goes wrong.
//!
//! ```
//! let query = read_expr(alloc, "S WHERE STATUS > 10")?;
//! let statement = read_statement(alloc, "DELETE S WHERE STATUS < 20;")?;
//! let earlier = read_statement_in(alloc, "DELETE S WHERE STATUS < 20;", 1)?;
//! let definitions = read_script(alloc, "VAR S BASE RELATION { SNO CHAR } KEY { SNO };")?;
//! let place = stop(alloc, Reading::Query, "S WHERE )")?;
//! ```
//!
//! Costs: each takes time linear in the text, at worst times the depth of its expressions. The reading calls itself at
//! most 320 levels deep.
//!
//! Definitions to trust, in `specs/`: Grammar, Statements.
//!
//! td_grammar has the relation between tokens and trees, a function on token lists that decides it, and the code, which
//! gives what the function gives.
#![tactic(auto)]

mod binding;
mod chains;
mod cursor;
mod definitions;
pub mod error;
pub mod forms;
mod grammar;
mod items;
pub mod laws;
mod lists;
mod primary;
pub mod reader;
mod statements;
pub mod stops;
mod types;

pub use error::ReadError;
pub use reader::{LATEST, read_expr, read_script, read_statement, read_statement_in};
pub use stops::{Reading, nests_too_deep, stop};
pub use td_syntax::{Definition, Expr, Statement};
