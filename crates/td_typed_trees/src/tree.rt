//! Expressions whose names are resolved and whose attribute lists are written out.

use sqlite_items::{Boxed, Items};
use td_syntax::tree::{BinaryOperator, Named, Nesting, UnaryOperator};
use td_tuples::{Item, Summary};
use td_values::{Heading, Name, Text, TypeKind};

/// The groups of SUMMARIZE: the whole, one for each tuple of a relation, or one for each value of some attributes.
#[derive(Drop)]
pub enum TypedGroups<T> {
    Whole,
    Per(T),
    By(Items<Name>),
}

#[derive(Drop)]
pub enum Typed {
    Integer(i64),
    Text(Text),
    Truth(bool),
    /// An attribute, or a name of WITH.
    Local(Name),
    /// A relvar, by its place in order of definition.
    Relvar(usize),
    /// The selector of a possrep, by its place in order of definition, and its components.
    Select(usize, Items<Boxed<Typed>>),
    /// THE_: a component, by its place in the possrep.
    Component(usize, Boxed<Typed>),
    Tuple(Items<Item<Boxed<Typed>>>),
    Relation(Heading, Items<Boxed<Typed>>),
    Unary(UnaryOperator, Boxed<Typed>),
    Binary(BinaryOperator, Boxed<Typed>, Boxed<Typed>),
    /// An attribute of a tuple.
    From(Name, Boxed<Typed>),
    /// What stays of a relation or of a tuple.
    Project(Boxed<Typed>, Items<Name>),
    Where(Boxed<Typed>, Boxed<Typed>),
    /// Each item is an old name with its new one.
    Rename(Boxed<Typed>, Items<(Name, Name)>),
    /// GROUP and WRAP: the attributes that go in, and the name of the new one.
    Nest(Nesting, Boxed<Typed>, Items<Name>, Name),
    /// UNGROUP and UNWRAP
    Unnest(Nesting, Boxed<Typed>, Name),
    Aggregate(Boxed<Typed>, Summary<Boxed<Typed>>),
    If(Boxed<Typed>, Boxed<Typed>, Boxed<Typed>),
    Extend(Boxed<Typed>, Items<Item<Boxed<Typed>>>),
    Summarize(Boxed<Typed>, TypedGroups<Boxed<Typed>>, Items<Item<Summary<Boxed<Typed>>>>),
    With(Items<Named<Boxed<Typed>>>, Boxed<Typed>),
}

/// A typed expression and what kind of type it has.
#[derive(Drop)]
pub struct Typing {
    pub tree: Boxed<Typed>,
    pub kind: TypeKind,
}
