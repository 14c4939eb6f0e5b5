//! The tokens that clients of a server show: each with a name and rights.
//!
//! A file of tokens has a line for each, `TOKEN NAME RIGHTS`: the token goes up to the first blank, and the rights,
//! `read`, `write` or `all`, come after the last one. A line may have a token alone: that one has no name and all
//! rights, and a text has at most one such. White space at the ends of a line counts for nothing; an empty line and one
//! that begins with `#` are passed over.
//!
//! Begin with `read_tokens`.
//!
//! ```
//! let tokens = read_tokens(alloc, "0123456789abcdef0123456789abcdef Front desk write\n")?;
//! let may_write = tokens.iter().any(|token| token.rights.include(Rights::Write));
//! ```
//!
//! Definitions to trust, in `specs/`: what a secret and a name may have (`Letters`), what a line says (`Lines`), and
//! which tokens a text has (`Texts`).
//!
//! Costs: a token is compared with all before it, so that reading n tokens takes n² comparisons.
//!
//! td_client_tokens knows neither files nor requests.
#![tactic(auto)]

mod letters;
mod line;
mod rights;
mod text;
mod token;

pub use letters::is_token_name;
pub use rights::Rights;
pub use text::{BadTokens, ReadTokensError, read_tokens};
pub use token::{ClientToken, TokenFault, push_token_line};
