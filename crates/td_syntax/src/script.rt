//! Trees of statements and scripts.

use crate::tree::{Attributes, Expr, Named, TypeExpr};
use sqlite_items::{Boxed, Items};
use td_values::Name;

/// One of the assignments that are made at once. A condition that is not written is none.
#[derive(Drop)]
pub enum Action {
    Assign(Name, Boxed<Expr>),
    Insert(Name, Boxed<Expr>),
    Delete(Name, Option<Boxed<Expr>>),
    /// The relvar, the condition, and the attributes with their new values.
    Update(Name, Option<Boxed<Expr>>, Items<Named<Boxed<Expr>>>),
}

/// What a site is asked to do.
#[derive(Drop)]
pub enum Statement {
    /// A multiple assignment: all its targets change at once.
    Assignment(Items<Action>),
    /// A condition, the assignments that are made at once where it is true, and those where it is false: none, where
    /// none are written.
    Conditional(Boxed<Expr>, Items<Action>, Items<Action>),
}

/// What a base relvar holds at first: nothing, under its heading, or the value of an expression, whose heading may be
/// written too.
#[derive(Drop)]
pub enum Opening {
    Empty(Items<Named<TypeExpr>>),
    Init(Option<Items<Named<TypeExpr>>>, Boxed<Expr>),
}

#[derive(Drop)]
pub enum Definition {
    /// The type, the name of its possrep if it is written, the components, and the constraint.
    Type(Name, Option<Name>, Items<Named<TypeExpr>>, Option<Boxed<Expr>>),
    /// A relvar, BASE or REAL, with its keys.
    Base(Name, Opening, Items<Attributes>),
    Virtual(Name, Boxed<Expr>),
    Constraint(Name, Boxed<Expr>),
}
