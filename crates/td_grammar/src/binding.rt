//! How tightly operators bind: each has the number of its form, the greater the tighter.

/// Nothing goes on with the expression.
pub const NOTHING: usize = 0;

/// OR and XOR.
pub const DISJUNCTION: usize = 1;

/// AND.
pub const CONJUNCTION: usize = 2;

/// `=` and the like, and IN.
pub const COMPARISON: usize = 4;

/// JOIN and its like, WHERE and the other postfixes.
pub const RELATIONAL: usize = 5;

/// `+`, `-` and `||`.
pub const ADDITIVE: usize = 6;

/// `*` and `/`.
pub const MULTIPLICATIVE: usize = 7;

/// Attributes in braces.
pub const PROJECTION: usize = 9;
