//! The tokens of a text: names, keywords, integers, text literals and symbols.
//!
//! White space is a space, a tab, a line feed, a carriage return, and a comment from `/*` to the next `*/`. Tokens are
//! read longest first, and each keeps its place in the text. Keywords are read in letters of either case, and names
//! keep theirs. A text that breaks a rule has no tokens at all: a name over 64 bytes, an integer over
//! 9223372036854775807 or with a letter right behind it, a text literal or a comment without its end, more than 64
//! brackets open at once, or any other character.
//!
//! Begin with `tokens`, which gives the tokens of a text or the fault that it has.
//!
//! ```
//! let found = tokens(alloc, "S WHERE STATUS > 10")?;
//! let end = tokens_end("S WHERE STATUS ? 10");
//! ```
//!
//! Costs: both take time linear in the text; `tokens` takes memory for its tokens alone, and `tokens_end` none.
//!
//! Definitions to trust, in `specs/`: Lex, Words.
//!
//! td_tokens knows characters and no grammar. A token lends its slice of the source.
#![tactic(auto)]

pub mod error;
mod front;
pub mod laws;
pub mod lexer;
mod piece;
pub mod token;
mod words;

pub use error::TokenError;
pub use lexer::{tokens, tokens_end};
pub use token::{Token, TokenKind, Word};
