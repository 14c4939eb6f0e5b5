//! td_relations and td_algebra.

pub use td_algebra::{
    Fault, Item, Summary, compose, extend, group, intersect, join, matching, minus, not_matching,
    project, rename, restrict, summarize, tclose, ungroup, union, unwrap, wrap,
};
pub use td_relations::{Delta, Relation, apply, difference, inverse};
pub use td_values::{Heading, Name, Rows, Tuple};
