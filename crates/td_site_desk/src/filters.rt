//! Which statements of the log a client asks for.

use crate::values::cell_text;
use caseless::default_case_fold_str;
use json::{Scratch, Value as Json};
use std::alloc::{AllocError, Global};
use td_relations::Delta;
use td_stamps::{Entry, Stamp};
use td_statement_keys::author_of;
use td_values::{Name, Tuple};

/// Which statements are listed: those that fit each member.
#[derive(Drop)]
pub(crate) struct EntryFilter<'a> {
    pub(crate) after: Option<Stamp>,
    pub(crate) before: Option<Stamp>,
    pub(crate) author: Option<&'a str>,
    /// In folded case.
    pub(crate) contains: Option<String>,
    pub(crate) change: Option<ChangeFilter>,
    pub(crate) last: u64,
}

/// Which changes are looked for: of a base relvar, by its index, those of a tuple that has these values.
#[derive(Drop)]
pub(crate) struct ChangeFilter {
    pub(crate) relvar: usize,
    pub(crate) key: Vec<(String, String)>,
}

/// Whether a stamp is before another one.
pub(crate) fn is_before(one: &Stamp, other: &Stamp) -> bool {
    one.clock < other.clock || one.clock == other.clock && one.site < other.site
}

// Whether a text contains another one, whose case is folded.
fn contains(alloc: Global, text: &str, folded: &str) -> Result<bool, AllocError> {
    Ok(
        default_case_fold_str(alloc, text)?
            .as_str()
            .contains(folded),
    )
}

impl EntryFilter<'_> {
    // Whether a stamp is within the bounds.
    fn has_stamp(&self, stamp: &Stamp) -> bool {
        let is_after = match &self.after {
            None => true,
            Some(after) => is_before(after, stamp),
        };
        let is_early = match &self.before {
            None => true,
            Some(before) => is_before(stamp, before),
        };
        is_after && is_early
    }

    // Whether a text has the author.
    fn has_author(&self, text: &str) -> bool {
        match self.author {
            None => true,
            Some(author) => author_of(text) == Some(author),
        }
    }

    /// Whether a statement fits, but for what it changed.
    pub(crate) fn has_entry(&self, alloc: Global, entry: &Entry) -> Result<bool, AllocError> {
        let text = entry.text.as_str();
        if !self.has_stamp(&entry.stamp()) || !self.has_author(text) {
            return Ok(false);
        }
        match &self.contains {
            None => Ok(true),
            Some(folded) => contains(alloc, text, folded.as_str()),
        }
    }
}

// The value of an attribute.
fn value_of<'a>(tuple: &'a Tuple, name: &str) -> Option<&'a td_values::Value> {
    for (attribute, value) in tuple.attributes() {
        if attribute.as_str() == name {
            return Some(value);
        }
    }
    None
}

impl ChangeFilter {
    // Whether a tuple has the values.
    fn has_tuple(&self, alloc: Global, tuple: &Tuple) -> Result<bool, AllocError> {
        for (name, wanted) in &self.key {
            let Some(value) = value_of(tuple, name.as_str()) else {
                return Ok(false);
            };
            if cell_text(alloc, value)?.as_str() != wanted.as_str() {
                return Ok(false);
            }
        }
        Ok(true)
    }

    // Whether one of these tuples has the values.
    fn has_one_of(&self, alloc: Global, tuples: &[Tuple]) -> Result<bool, AllocError> {
        for tuple in tuples {
            if self.has_tuple(alloc, tuple)? {
                return Ok(true);
            }
        }
        Ok(false)
    }

    /// Whether one of these changes is looked for.
    pub(crate) fn has_change(
        &self,
        alloc: Global,
        changes: &[(usize, Delta)],
    ) -> Result<bool, AllocError> {
        for (relvar, delta) in changes {
            if *relvar == self.relvar
                && (self.has_one_of(alloc, delta.deleted().tuples())?
                    || self.has_one_of(alloc, delta.inserted().tuples())?)
            {
                return Ok(true);
            }
        }
        Ok(false)
    }
}

// The text of a value that a key may have: a text, a number, or a truth value.
fn key_text<'a>(value: &'a Json<'_>) -> Option<&'a str> {
    match value {
        Json::String(text) => Some(*text),
        Json::Number(digits) => Some(*digits),
        Json::Bool(truth) => Some(if *truth { "true" } else { "false" }),
        _ => None,
    }
}

// The values of an object, each with its name; none if it has others than a key may have.
fn values_in(
    alloc: Global,
    object: &Json<'_>,
) -> Result<Option<Vec<(String, String)>>, AllocError> {
    let Json::Object(members) = object else {
        return Ok(None);
    };
    let mut values = Vec::with_capacity(alloc, members.len())?;
    for (name, value) in members {
        let Some(text) = key_text(value) else {
            return Ok(None);
        };
        values.push((
            String::from_str(alloc, *name)?,
            String::from_str(alloc, text)?,
        ))?;
    }
    Ok(Some(values))
}

/// The values of the object of JSON that a text is; none if it is no such object.
pub(crate) fn key_values(
    alloc: Global,
    text: &str,
) -> Result<Option<Vec<(String, String)>>, AllocError> {
    let mut scratch = Scratch::new(alloc);
    match Json::parse_strict(alloc, text, &mut scratch) {
        Ok(object) => values_in(alloc, &object),
        Err(json::Error::OutOfMemory) => Err(AllocError),
        Err(_) => Ok(None),
    }
}
