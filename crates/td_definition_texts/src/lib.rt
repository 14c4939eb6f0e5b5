//! The definitions of a script, as they are written: their texts, and what comments say of names.
//!
//! Begin with `definition_texts`, and with `labels`.
//!
//! ```
//! let source = ScriptTokens::read(alloc, script)?;
//! for definition in &definition_texts(alloc, &source)? { .. }
//! ```
//!
//! Costs: reading the tokens takes time and memory linear in the script; the rest is linear in the tokens.
//!
//! td_definition_texts knows tokens, and neither trees nor types: it is given scripts that a site has opened. No contract
//! says what it returns: it is proved to return and to be safe.
#![tactic(auto)]

mod comments;
mod definitions;
mod source;

pub use comments::{Label, labels};
pub use definitions::{DefinitionKind, DefinitionText, definition_texts};
pub use source::ScriptTokens;
