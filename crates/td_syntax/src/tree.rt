//! Trees of expressions, statements and definitions. Round brackets are gone, and the two ways to write a list, an
//! operator or a type give one tree.

use sqlite_items::{Boxed, Items};
use td_values::{Name, Text};

/// A type as it is written.
#[derive(Drop)]
pub enum TypeExpr {
    Boolean,
    Integer,
    Char,
    User(Name),
    Tuple(Items<Named<TypeExpr>>),
    Relation(Items<Named<TypeExpr>>),
}

/// What stands beside a name: a value, a type.
#[derive(Drop)]
pub struct Named<T> {
    pub name: Name,
    pub value: T,
}

/// A list of attributes, or all but those in it.
#[derive(Drop)]
pub enum Attributes {
    Only(Items<Name>),
    AllBut(Items<Name>),
}

/// An attribute and its new name.
#[derive(Drop)]
pub struct Renaming {
    pub from: Name,
    pub to: Name,
}

#[derive(Clone, Copy, PartialEq, Eq)]
pub enum UnaryOperator {
    Not,
    Negate,
    /// TCLOSE
    Closure,
    /// TUPLE FROM
    TupleFrom,
    IsEmpty,
    Count,
}

#[derive(Clone, Copy, PartialEq, Eq)]
pub enum BinaryOperator {
    Or,
    Xor,
    And,
    Equals,
    Differs,
    Less,
    Greater,
    AtMost,
    AtLeast,
    In,
    Join,
    Union,
    Intersect,
    Minus,
    Compose,
    /// MATCHING and SEMIJOIN
    Matching,
    /// NOT MATCHING and SEMIMINUS
    NotMatching,
    Add,
    Subtract,
    /// `||`
    Concatenate,
    Multiply,
    Divide,
}

/// An operator over the tuples of a relation.
#[derive(Clone, Copy, PartialEq, Eq)]
pub enum Aggregate {
    Sum,
    Max,
    Min,
    And,
    Or,
}

/// Whether tuples become a relation or a tuple.
#[derive(Clone, Copy, PartialEq, Eq)]
pub enum Nesting {
    Group,
    Wrap,
}

/// Whether EXTEND adds attributes alone, or may replace some.
#[derive(Clone, Copy, PartialEq, Eq)]
pub enum Extension {
    Add,
    Assign,
}

/// What a summary makes of each group: its size, or an aggregate of a term.
#[derive(Drop)]
pub enum SummaryTerm<T> {
    Count,
    Of(Aggregate, T),
}

/// The groups of SUMMARIZE: the whole, one for each tuple of a relation, or one for each value of some attributes.
#[derive(Drop)]
pub enum Groups<T> {
    Whole,
    Per(T),
    By(Attributes),
}

#[derive(Drop)]
pub enum Expr {
    /// Never negative in the tree of a text, which has a sign as an operator.
    Integer(i64),
    Text(Text),
    Truth(bool),
    TableDee,
    TableDum,
    Name(Name),
    /// A selector, or THE_ with a component.
    Call(Name, Items<Boxed<Expr>>),
    Tuple(Items<Named<Boxed<Expr>>>),
    /// Its heading, if it is written, and its tuples.
    Relation(Option<Items<Named<TypeExpr>>>, Items<Boxed<Expr>>),
    Unary(UnaryOperator, Boxed<Expr>),
    Binary(BinaryOperator, Boxed<Expr>, Boxed<Expr>),
    /// An attribute of a tuple.
    From(Name, Boxed<Expr>),
    Project(Boxed<Expr>, Attributes),
    Where(Boxed<Expr>, Boxed<Expr>),
    Rename(Boxed<Expr>, Items<Renaming>),
    /// GROUP and WRAP: the attributes that go in, and the name of the new one.
    Nest(Nesting, Boxed<Expr>, Attributes, Name),
    /// UNGROUP and UNWRAP
    Unnest(Nesting, Boxed<Expr>, Name),
    /// The relation, and the term if it is written.
    Aggregate(Aggregate, Boxed<Expr>, Option<Boxed<Expr>>),
    If(Boxed<Expr>, Boxed<Expr>, Boxed<Expr>),
    Extend(Extension, Boxed<Expr>, Items<Named<Boxed<Expr>>>),
    Summarize(Boxed<Expr>, Groups<Boxed<Expr>>, Items<Named<SummaryTerm<Boxed<Expr>>>>),
    With(Items<Named<Boxed<Expr>>>, Boxed<Expr>),
}
