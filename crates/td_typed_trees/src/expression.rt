//! Typed expressions with all that evaluating them wants.

use crate::tree::Typed;
use sqlite_items::Items;
use td_tuples::Shared;
use td_values::{Heading, Name, Possrep, TypeKind};

/// A base relvar under an expression, by its place in order of definition, with its heading.
#[derive(Drop)]
pub struct BaseUnder {
    pub place: usize,
    pub heading: Heading,
}

/// A virtual relvar under an expression, by its place, with the expression whose value it is.
#[derive(Drop)]
pub struct VirtualUnder {
    pub place: usize,
    pub tree: Shared<Typed>,
}

/// A possrep that is selected under an expression, by its place: its names, those of its components, and its CONSTRAINT
/// if it has one.
#[derive(Drop)]
pub struct Selector {
    pub place: usize,
    pub possrep: Possrep,
    pub components: Items<Name>,
    pub limit: Option<Shared<Typed>>,
}

/// What a typed expression is made of. All that is under it stands in order of definition, each once.
#[derive(Drop)]
pub struct Expression {
    pub tree: Shared<Typed>,
    pub kind: TypeKind,
    /// The attributes of the tuple that it sees.
    pub attributes: Heading,
    /// What it reads: the base relvars that it names, with those under the virtual ones.
    pub bases: Items<BaseUnder>,
    pub virtuals: Items<VirtualUnder>,
    pub selectors: Items<Selector>,
}
