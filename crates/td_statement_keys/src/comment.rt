//! The comment of a key.

ghost use Rattle.std.specs.Prelude.{◌≡◌, ◌++◌, IfOk, take, string_bytes};
ghost use Rattle.hex.specs.Hex.{encode_lower};
ghost use Rattle.sha2.specs.Sha256.{sha256};
ghost use Rattle.td_statement_keys.specs.Keys as keys;

use sha2::{Digest, Sha256};
use std::alloc::{AllocError, Global};

/// How many bytes the comment of a key has.
pub const COMMENT_BYTES: usize = 23;

// The first 16 hexadecimal digits of the key's SHA-256.
fn key_digits(alloc: Global, key: &str) -> Result<String, AllocError>
    ensures { IfOk result (λ digits. string_bytes digits ≡ keys.key_digits key.now) }
{
    let digest = Sha256::digest(key.as_bytes());
    hex::encode(alloc, &digest[..8])
}

/// The comment of a key, of 23 bytes with the blank after it.
pub fn key_comment(alloc: Global, key: &str) -> Result<String, AllocError>
    ensures { IfOk result (λ comment. string_bytes comment ≡ keys.key_comment key.now) }
{
    let digits = key_digits(alloc, key)?;
    let mut comment = String::from_str(alloc, "/* ")?;
    comment.push_str(digits.as_str())?;
    comment.push_str(" */ ")?;
    Ok(comment)
}

/// The text that is issued for a statement under the key of this comment.
pub fn keyed_text(alloc: Global, comment: &str, text: &str) -> Result<String, AllocError>
    ensures { IfOk result (λ issued. string_bytes issued ≡ comment.now ++ text.now) }
{
    let mut issued = String::from_str(alloc, comment)?;
    issued.push_str(text)?;
    Ok(issued)
}
