//! The file of the tokens of a server: it is made where there is none, read again when it changes, and gets more
//! tokens.
//!
//! Only its owner may read and write it; a file that others may read is refused.
//!
//! Begin with `TokenFile::open`, and with `add_token`.
//!
//! ```
//! let (mut file, tokens) = TokenFile::open(alloc, &rt, "ward-1.tdj.token")?;
//! add_token(alloc, &rt, "ward-1.tdj.token", &token)?;
//! match file.reread(alloc, &rt) {
//!     Ok(Some(tokens)) => .., // they changed
//!     Ok(None) => ..,
//!     Err(error) => ..,       // the earlier ones stay
//! }
//! ```
//!
//! Definitions to trust, in `specs/`: what is added to a text (`Additions`), and what a file is known to have
//! (`Looks`).
//!
//! Costs: each look reads the whole file, so that no change is missed.
//!
//! td_token_files knows what a text of tokens says by td_client_tokens, and knows no requests. Its contracts cannot say
//! what a file has: they say what follows from the bytes that were read.
#![tactic(auto)]

mod adding;
mod error;
mod file;
mod look;
mod secret;

pub use adding::{add_token, added_text};
pub use error::{AddTokenError, TokenFileError};
pub use file::TokenFile;
pub use secret::new_secret;
