//! What the forms with lists hand on.

use sqlite_items::{Boxed, Items};
use td_syntax::tree::Named;
use td_typed_trees::tree::{Typed, TypedGroups};
use td_values::{Heading, TypeKind};

/// The groups of SUMMARIZE, and the heading of the tuples that they are made for.
#[derive(Drop)]
pub struct Grouping {
    pub groups: TypedGroups<Boxed<Typed>>,
    pub heading: Heading,
}

/// The names that WITH gives, with their trees and with their kinds.
#[derive(Drop)]
pub struct Introduced {
    pub trees: Items<Named<Boxed<Typed>>>,
    pub kinds: Items<Named<TypeKind>>,
}

/// Operands in order: their trees and their kinds.
#[derive(Drop)]
pub struct Operands {
    pub trees: Items<Boxed<Typed>>,
    pub kinds: Items<TypeKind>,
}
