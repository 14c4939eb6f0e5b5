//! The comment of a name.

ghost use Rattle.std.specs.Prelude.{◌≡◌, ◌++◌, IfOk, string_bytes};
ghost use Rattle.td_statement_keys.specs.Authors as authors;

use crate::comment::COMMENT_BYTES;
use crate::search::{has_prefix, is_keyed_text};
use std::alloc::{AllocError, Global};

/// The comment of the name of a token, with a blank after it.
pub fn name_comment(alloc: Global, name: &str) -> Result<String, AllocError>
    ensures { IfOk result (λ comment. string_bytes comment ≡ authors.name_comment name.now) }
{
    let mut comment = String::from_str(alloc, "/* by ")?;
    comment.push_str(name)?;
    comment.push_str(" */ ")?;
    Ok(comment)
}

// A text without the comment of a key in front.
fn without_key(text: &[u8]) -> &[u8]
    ensures { result.now ≡ authors.without_key text.now }
{
    match text.get(COMMENT_BYTES..) {
        Some(rest) if is_keyed_text(text) => rest,
        _ => text,
    }
}

/// Whether a text begins with the comment of the name of a token, after that of a key.
pub fn is_signed(text: &[u8]) -> bool
    ensures { result ≡ authors.is_signed text.now }
{
    has_prefix(b"/* by ", without_key(text))
}

/// Who a statement says that it is from: the comment that its text begins with, after that of a key, without the spaces
/// around it.
pub fn author_of(text: &str) -> Option<&str> {
    let rest = if is_keyed_text(text.as_bytes()) {
        text.get(COMMENT_BYTES..).unwrap_or(text)
    } else {
        text
    };
    let (author, _) = rest
        .trim_ascii_start()
        .strip_prefix("/*")?
        .split_once("*/")?;
    let author = author.trim_ascii();
    Some(author.strip_prefix("by ").unwrap_or(author))
}
