//! Cells of types that the language writes in a way of its own.

use std::alloc::{AllocError, Global};
use td_values::TdType;

/// Whoever knows the types of a script.
pub trait Literals {
    /// Whether the text is a value of the type, just as the language writes it: it is read as nothing else then,
    /// wherever it stands.
    fn is_literal(&self, alloc: Global, text: &str, ty: &TdType) -> Result<bool, AllocError>;
}
