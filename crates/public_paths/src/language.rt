//! td_tokens, td_grammar, td_headings and td_eval.

pub use td_eval::{Lookup, eval};
pub use td_grammar::{Definition, Expr, Statement, read_expr, read_script, read_statement};
pub use td_headings::{
    Catalogue, IllTyped, TypedExpr, TypedStatement, reads, targets, type_expr, type_statement,
};
pub use td_tokens::{Token, TokenKind, tokens};
pub use td_values::Name;
