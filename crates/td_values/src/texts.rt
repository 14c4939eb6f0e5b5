//! Texts: short ones stand in the value itself, and longer ones are shared by their copies.
ghost use Rattle.std.specs.Prelude.{◌≡◌, ◌≤◌, ◌↔◌, IfOk, IfSome, IsSome, length, string_bytes, refl};
ghost use Rattle.std.specs.Hash as fed;
ghost use Rattle.std.specs.Ordering.{eq_by_cmp, as_partial_cmp};
ghost use Rattle.td_values.specs.Order.{text_cmp};
ghost use Rattle.td_values.specs.TextOrder.{text_total, text_equivalence, text_partial_equivalence, text_partial_order, text_hashed};
ghost use Rattle.td_values.specs.Texts.{kept_bytes};

use arrayvec::ArrayString;
use std::alloc::{AllocError, Global};
use std::cmp::Ordering;
use std::hash::{Hash, Hasher};
use std::marker::Model;
use std::rc::Rc;

// So many bytes stand in the text itself: a text is no larger by them than the inside of a relation.
const SHORT: usize = 16;

#[derive(Drop)]
enum Kept {
    Short(ArrayString<SHORT>),
    Long(Rc<String>),
}

/// A text, which contracts see as its UTF-8 bytes. A copy takes the bytes of a short one and one count of a longer
/// one, however long it is.
#[derive(Drop)]
pub struct Text {
    kept: Kept,
}

impl Model for Text {
    ghost use Rattle.std.specs.Prelude.{List, ℕ};
    ghost use Rattle.td_values.specs.Texts.{kept_bytes};

    ghost Value = { List ℕ };

    ghost view = { λ a. kept_bytes a.kept };
}

// The text kept in the value itself, or none where it has more than `SHORT` bytes. It takes no memory.
fn short(text: &str) -> Option<Kept>
    ensures variant { IsSome result ↔ (length text.now ≤ 16) }
    ensures bytes { IfSome result (λ k. kept_bytes k ≡ text.now) }
{
    match ArrayString::from(text) {
        Ok(bytes) => Some(Kept::Short(bytes)),
        Err(_) => None,
    }
}

// A text whose characters are shared by its copies, however few they are.
fn long(alloc: Global, text: String) -> Result<Text, AllocError>
    ensures { IfOk result (λ t. t ≡ string_bytes text) }
{
    Ok(Text {
        kept: Kept::Long(Rc::new(alloc, text)?),
    })
}

impl Text {
    /// The text that this string holds.
    pub fn new(alloc: Global, text: String) -> Result<Text, AllocError>
        ensures { IfOk result (λ t. t ≡ string_bytes text) }
    {
        match short(text.as_str()) {
            Some(kept) => Ok(Text { kept }),
            None => long(alloc, text),
        }
    }

    /// A text of its own with these characters.
    pub fn from_str(alloc: Global, text: &str) -> Result<Text, AllocError>
        ensures { IfOk result (λ t. t ≡ text.now) }
    {
        match short(text) {
            Some(kept) => Ok(Text { kept }),
            None => long(alloc, String::from_str(alloc, text)?),
        }
    }

    /// The characters.
    pub fn as_str(&self) -> &str
        ensures { result.now ≡ self.now }
    {
        match &self.kept {
            Kept::Short(text) => text.as_str(),
            Kept::Long(text) => text.as_str(),
        }
    }

    /// A copy, which shares the characters where they are many.
    pub fn copy(&self) -> Result<Text, AllocError>
        ensures { IfOk result (λ t. t ≡ self.now) }
    {
        match &self.kept {
            Kept::Short(text) => Ok(Text {
                kept: Kept::Short(*text),
            }),
            Kept::Long(text) => Ok(Text {
                kept: Kept::Long(text.clone()?),
            }),
        }
    }

    /// The order of texts by their characters' code points, which is that of their bytes.
    pub fn compare(&self, other: &Text) -> Ordering
        ensures { result ≡ text_cmp self.now other.now }
    {
        compare_bytes(self.as_str(), other.as_str())
    }
}

// The order of texts by their bytes, one by one. `str::cmp` makes numbers of eight bytes each, which pays where texts
// begin alike: most do not, or are short.
fn compare_each(a: &[u8], b: &[u8]) -> Ordering
    ensures { result ≡ text_cmp a.now b.now }
{
    let mut i = 0;
    while i < a.len() && i < b.len() {
        let ordering = a[i].cmp(&b[i]);
        if ordering != Ordering::Equal {
            return ordering;
        }
        i += 1;
    }
    a.len().cmp(&b.len())
}

/// The order of texts by their bytes, which is that of their characters' code points.
pub(crate) fn compare_bytes(a: &str, b: &str) -> Ordering
    ensures { result ≡ text_cmp a.now b.now }
{
    if a.len() > SHORT && b.len() > SHORT {
        return a.cmp(b);
    }
    compare_each(a.as_bytes(), b.as_bytes())
}

impl PartialEq for Text {
    ghost eq = { eq_by_cmp text_cmp };

    ghost laws = { text_partial_equivalence };

    fn eq(&self, other: &Text) -> bool {
        self.compare(other).is_eq()
    }
}

impl Eq for Text {
    ghost laws = { text_equivalence };
}

impl PartialOrd for Text {
    ghost partial_cmp = { as_partial_cmp text_cmp };

    ghost laws = { text_partial_order };

    fn partial_cmp(&self, other: &Text) -> Option<Ordering> {
        Some(self.compare(other))
    }
}

impl Ord for Text {
    ghost cmp = { text_cmp };

    ghost total = { text_total };

    ghost matches_partial_cmp = { λ x y. refl };

    ghost matches_eq = { λ x y. refl };

    fn cmp(&self, other: &Text) -> Ordering {
        self.compare(other)
    }
}

impl Hash for Text {
    ghost hash_input = { fed.str };

    ghost respects_eq = { text_hashed };

    fn hash<H: Hasher>(&self, state: &mut H) {
        self.as_str().hash(state);
    }
}
