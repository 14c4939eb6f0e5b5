//! Actions that insert tuples.

use std::alloc::{AllocError, Global};
use td_values::{Kind, Name, Tuple, Value, show};

const FRONT: &str = "INSERT ";

const OPENING: &str = " RELATION { ";

const CLOSING: &str = " }";

/// What separates two actions or two tuples.
pub(crate) const BETWEEN: &str = ", ";

/// The action that takes all tuples out of a relvar.
pub(crate) fn deletion(alloc: Global, relvar: &Name) -> Result<String, AllocError> {
    let relvar = relvar.as_str();
    format!(in alloc; "DELETE {relvar}")
}

/// A tuple as the language writes it.
pub(crate) fn tuple_text(alloc: Global, tuple: &Tuple) -> Result<String, AllocError> {
    let kind = Kind::Tuple(tuple.copy()?);
    show(alloc, &Value { kind })
}

/// An action that inserts tuples into a relvar, to which further ones are added.
#[derive(Drop)]
pub(crate) struct Action {
    pub(crate) text: String,
    pub(crate) count: usize,
}

impl Action {
    /// One that inserts none yet.
    pub(crate) fn new(alloc: Global, relvar: &Name) -> Result<Action, AllocError> {
        let mut text = String::from_str(alloc, FRONT)?;
        text.push_str(relvar.as_str())?;
        text.push_str(OPENING)?;
        Ok(Action { text, count: 0 })
    }

    /// How many bytes it has with one tuple more, and its end.
    pub(crate) fn bytes_with(&self, tuple: &str) -> usize {
        self.text
            .len()
            .saturating_add(BETWEEN.len())
            .saturating_add(tuple.len())
            .saturating_add(CLOSING.len())
    }

    /// Adds a tuple as the language writes it, whether or not a statement still has room for it.
    pub(crate) fn push(&mut self, tuple: &str) -> Result<(), AllocError> {
        if self.count > 0 {
            self.text.push_str(BETWEEN)?;
        }
        self.text.push_str(tuple)?;
        self.count = self.count.saturating_add(1);
        Ok(())
    }

    /// The whole action.
    pub(crate) fn end(mut self) -> Result<String, AllocError> {
        self.text.push_str(CLOSING)?;
        Ok(self.text)
    }
}
