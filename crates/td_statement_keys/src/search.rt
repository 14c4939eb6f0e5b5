//! The statement that was issued under a key.

ghost use Rattle.std.specs.Prelude.{◌≡◌, ◌≤◌, length, option_copied};
ghost use Rattle.std.specs.List.{list_all};
ghost use Rattle.td_statement_keys.specs.Keys as keys;
ghost use Rattle.td_statement_keys.specs.Keys.{entry_with};

use crate::comment::COMMENT_BYTES;
use td_stamps::Entry;

/// How many statements with a key are searched for one.
const MOST_KEYED: usize = 1_000;

/// Whether a text begins with some bytes.
pub(crate) fn has_prefix(prefix: &[u8], text: &[u8]) -> bool
    ensures { result ≡ keys.has_prefix prefix.now text.now }
{
    text.starts_with(prefix)
}

// Whether a byte is a digit, with a to f.
fn is_digit(byte: u8) -> bool
    ensures { result ≡ keys.is_digit byte }
{
    48 <= byte && byte <= 57 || 97 <= byte && byte <= 102
}

// Whether these bytes are digits.
fn are_digits(bytes: &[u8]) -> bool
    ensures { result ≡ list_all keys.is_digit bytes.now }
{
    bytes.iter().all(|byte| is_digit(*byte))
}

// Whether these are digits and the end of the comment of a key. They are as many bytes at least.
fn ends_comment(rest: &[u8]) -> bool
    requires { 20 ≤ length rest.now }
    ensures { result ≡ keys.ends_comment rest.now }
{
    are_digits(&rest[..16]) && has_prefix(b" */ ", &rest[16..])
}

/// Whether a text begins with the comment of some key.
pub fn is_keyed_text(text: &[u8]) -> bool
    ensures { result ≡ keys.is_keyed_text text.now }
{
    if text.len() < COMMENT_BYTES {
        return false;
    }
    has_prefix(b"/* ", text) && ends_comment(&text[3..])
}

// Whether an entry is a statement of this site with a key.
fn is_own_keyed(site: u16, entry: &Entry) -> bool
    ensures { result ≡ keys.is_own_keyed site entry.now }
{
    entry.site == site && is_keyed_text(entry.text.as_str().as_bytes())
}

/// The latest of the last 1,000 statements of this site with a key that has this comment. The entries are in stamp
/// order.
pub fn find_keyed<'a>(entries: &'a [Entry], site: u16, comment: &str) -> Option<&'a Entry>
    ensures { option_copied result ≡ entry_with site comment.now entries.now }
{
    entries
        .iter()
        .rev()
        .filter(|entry| is_own_keyed(site, entry))
        .take(MOST_KEYED)
        .find(|entry| has_prefix(comment.as_bytes(), entry.text.as_str().as_bytes()))
}
