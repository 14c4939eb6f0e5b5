//! Names of relvars, attributes and types.
ghost use Rattle.std.specs.Prelude.{◌≡◌, ◌↔◌, IfOk, IsTrue, IsErrOf, false, refl, string_bytes};
ghost use Rattle.std.specs.List.{list_all};
ghost use Rattle.std.specs.Hash as fed;
ghost use Rattle.std.specs.Ordering.{eq_by_cmp, as_partial_cmp};
ghost use Rattle.td_values.specs.Names.{is_name, goes_on_in_name};
ghost use Rattle.td_values.specs.Order.{text_cmp};
ghost use Rattle.td_values.specs.TextOrder.{text_total, text_equivalence, text_partial_equivalence, text_partial_order, text_hashed};
ghost use Rattle.td_values.specs.declared.names.NameError.TheVariants.{BadName, OutOfMemory};

use crate::texts::compare_bytes;
use std::alloc::{AllocError, Global};
use std::cmp::Ordering;
use std::hash::{Hash, Hasher};
use std::marker::Model;
use std::rc::Rc;
use thiserror::Error;

/// Why there is no name.
#[derive(Clone, Copy, Debug, Drop, Error, PartialEq, Eq)]
pub enum NameError {
    #[error("not a name")]
    BadName,
    #[error("out of memory")]
    OutOfMemory,
}

impl From<AllocError> for NameError {
    ghost from_gives = { λ _ e. e ≡ OutOfMemory };

    fn from(_e: AllocError) -> NameError {
        NameError::OutOfMemory
    }
}

/// A name, which contracts see as its bytes. A copy takes one count.
#[derive(Drop)]
pub struct Name {
    text: Rc<String>,
}

impl Model for Name {
    ghost use Rattle.std.specs.Prelude.{List, ℕ, IsTrue, string_bytes};
    ghost use Rattle.td_values.specs.Names.{is_name};

    ghost Value = { List ℕ };

    ghost view = { λ a. string_bytes a.text.value };

    ghost invariant = { λ a. IsTrue (is_name (string_bytes a.text.value)) };
}

// Whether the byte may stand in a name behind its first: an ASCII letter, a digit, `_` or `#`.
fn goes_on(b: u8) -> bool
    ensures { result ≡ goes_on_in_name b }
{
    b.is_ascii_alphanumeric() || b == b'_' || b == b'#'
}

// Whether each byte may stand in a name behind its first.
fn all_go_on(bytes: &[u8]) -> bool
    ensures { result ≡ list_all goes_on_in_name bytes.now }
{
    bytes.iter().all(|b| goes_on(*b))
}

/// Whether this is a name: an ASCII letter, then ASCII letters, digits, `_` or `#`, and at most 64 bytes.
pub fn is_name(text: &str) -> bool
    ensures { result ≡ is_name text.now }
{
    let bytes = text.as_bytes();
    match bytes.split_first() {
        None => false,
        Some((first, rest)) => {
            first.is_ascii_alphabetic() && bytes.len() <= 64 && all_go_on(rest)
        }
    }
}

// A copy of the text on the heap, which the copies of a name share.
fn shared(alloc: Global, text: &str) -> Result<Rc<String>, AllocError>
    ensures { IfOk result (λ t. string_bytes t.value ≡ text.now) }
{
    let owned = String::from_str(alloc, text)?;
    Ok(Rc::new(alloc, owned)?)
}

impl Name {
    /// The name with this text. A text that is no name is refused before any memory is asked for.
    pub fn new(alloc: Global, text: &str) -> Result<Name, NameError>
        ensures name { IfOk result (λ n. n ≡ text.now) }
        ensures bad { IsErrOf result BadName ↔ (is_name text.now ≡ false) }
    {
        if !is_name(text) {
            return Err(NameError::BadName);
        }
        Ok(Name {
            text: shared(alloc, text)?,
        })
    }

    /// The characters.
    pub fn as_str(&self) -> &str
        ensures text { result.now ≡ self.now }
        ensures name { IsTrue (is_name self.now) }
    {
        self.text.as_str()
    }

    /// A copy, which shares the characters.
    pub fn copy(&self) -> Result<Name, AllocError>
        ensures { IfOk result (λ n. n ≡ self.now) }
    {
        Ok(Name {
            text: self.text.clone()?,
        })
    }

    /// The order of names by their bytes.
    pub fn compare(&self, other: &Name) -> Ordering
        ensures { result ≡ text_cmp self.now other.now }
    {
        compare_bytes(self.text.as_str(), other.text.as_str())
    }
}

impl PartialEq for Name {
    ghost eq = { eq_by_cmp text_cmp };

    ghost laws = { text_partial_equivalence };

    fn eq(&self, other: &Name) -> bool {
        self.compare(other).is_eq()
    }
}

impl Eq for Name {
    ghost laws = { text_equivalence };
}

impl PartialOrd for Name {
    ghost partial_cmp = { as_partial_cmp text_cmp };

    ghost laws = { text_partial_order };

    fn partial_cmp(&self, other: &Name) -> Option<Ordering> {
        Some(self.compare(other))
    }
}

impl Ord for Name {
    ghost cmp = { text_cmp };

    ghost total = { text_total };

    ghost matches_partial_cmp = { λ x y. refl };

    ghost matches_eq = { λ x y. refl };

    fn cmp(&self, other: &Name) -> Ordering {
        self.compare(other)
    }
}

impl Hash for Name {
    ghost hash_input = { fed.str };

    ghost respects_eq = { text_hashed };

    fn hash<H: Hasher>(&self, state: &mut H) {
        self.as_str().hash(state);
    }
}
