//! The forms that the grammar tells apart.

/// The forms of an expression, from the one that binds least.
#[derive(Clone, Copy, PartialEq, Eq)]
pub enum Form {
    Expr,
    Or,
    And,
    Not,
    Comparison,
    Relational,
    Additive,
    Multiplicative,
    Prefixed,
    Projection,
    Primary,
}

/// Where the name of an expression stands in a list.
#[derive(Clone, Copy, PartialEq, Eq)]
pub enum Naming {
    /// `expression AS Name`
    After,
    /// `Name := expression`
    Assigned,
    /// `Name expression`
    Beside,
}
