//! What is wrong with a query, a statement or a definition that is read and has no type, and where.
//!
//! The program tells `fault type` and no more, so that its lines are the same whatever the text; a place and a sentence
//! stand beside them for who wrote the text. Of a text that is not read td_parse_errors tells the place.
//!
//! Begin with `diagnose_query` and `diagnose_statement`, which tell the place and a sentence of an ill-typed text, and
//! `define_or_diagnose` for a definition.
//!
//! ```
//! if let Some(found) = diagnose_query(alloc, &catalogue, text)? {
//!     let position = position_of(text, found.place);
//!     let line = format!(in alloc; "{}: {}", position.line, found.message)?;
//! }
//! let refused = define_or_diagnose(alloc, &mut catalogue, definition)?;
//! ```
//!
//! Costs: `diagnose_query` takes the time of typing the query, at most as many times as it has levels;
//! `diagnose_statement` takes that for each source and condition of the statement.
//!
//! td_type_errors has two layers. One decides by the calls of td_grammar, td_typing and td_headings whether something
//! is to be told, and its contract says so; the other one finds the innermost part without a type and words it, and is
//! only tested. Trees have no places: `marks` are the tokens that are as many for a tree however it is written, so a
//! part is found by how many marks stand before it.
#![tactic(auto)]

mod definition;
mod diagnose;
mod diagnostic;
mod expression;
mod extensions;
mod forms;
mod headings;
mod marks;
mod nearest;
mod operators;
mod parts;
mod selectors;
mod sentence;
mod statement;
mod types;
mod widths;

pub use diagnose::{define_or_diagnose, diagnose_query, diagnose_statement};
pub use diagnostic::Diagnostic;
