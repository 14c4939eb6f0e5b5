//! Keys and authors of statements: the comments with which a statement is issued under a key, or by a token that has a
//! name, and the statement that a site issued under a key.
//!
//! Begin with `key_comment`, which a text begins with that is issued under a key, and with `find_keyed`.
//!
//! ```
//! let comment = key_comment(alloc, key)?;
//! match find_keyed(held.entries(), site, comment.as_str()) {
//!     Some(entry) => ..,
//!     None => site.issue(alloc, keyed_text(alloc, comment.as_str(), text)?.as_str(), &mut meter),
//! }
//! ```
//!
//! Costs: `find_keyed` goes over the entries from the end, up to the statement or to 1,000 keyed ones of the site. It
//! reads the number of each entry's site, and of the site's own texts the first 23 bytes.
//!
//! The comment of a name comes after that of a key: `/* 0123456789abcdef */ /* by Ann */ DELETE S;`. Where no client may
//! send a text for which `is_signed`, each such text was issued by a token of that name.
//!
//! Its definitions are in `specs/`: Keys, Authors and Laws.
//!
//! td_statement_keys knows entries, and neither sites nor calls. Two keys are one, as far as the first 8 bytes of
//! their SHA-256 are the same.
#![tactic(auto)]

mod author;
mod comment;
pub mod laws;
mod search;

pub use author::{author_of, is_signed, name_comment};
pub use comment::{COMMENT_BYTES, key_comment, keyed_text};
pub use search::{find_keyed, is_keyed_text};
