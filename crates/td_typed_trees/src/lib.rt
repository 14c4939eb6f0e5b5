//! Typed trees: what typing makes of expressions and evaluation works on, how deep they are, and what they mention.
//!
//! Begin with `Typed`, a typed tree, and `Expression`, one with all that is under it. `relvars_in` tells which relvars
//! it mentions.
//!
//! Definitions to trust, in `specs/`: Mentions.
//!
//! td_typed_trees has the trees that evaluation works on: names are resolved, attribute lists written out, and a relvar
//! or a possrep stands as its place in order of definition. They know nothing of how they were typed. Their order means
//! nothing: by it an equal tree is found in a sorted list.
#![tactic(auto)]

pub mod expression;
pub mod mentions;
pub mod order;
pub mod tree;

pub use expression::{BaseUnder, Expression, Selector, VirtualUnder};
pub use mentions::{Mention, add_mentions, possreps_in, relvars_in};
pub use order::compare;
pub use tree::{Typed, TypedGroups, Typing};
