//! Parts, unions and renamings of tuples and headings, by name.
//!
//! What is built shares the names, values and types of what it is built from.
//!
//! Begin with `cut`, the part of a tuple at some names, `beside`, two tuples as one, and `renamed`; of headings with
//! `columns_in` and `joined`.
//!
//! ```
//! let columns = columns_in(alloc, &names, &heading)?;
//! let part = cut(alloc, &columns, &tuple)?;
//! let both = beside(alloc, &first, &second)?;
//! let exchanged = renamed(alloc, &[(from, to)], &tuple)?;
//! let heading_of_both = joined(alloc, first_heading, second_heading)?;
//! ```
//!
//! Costs: `cut` makes a search in the heading for each attribute; `beside` and `renamed` make a search and a shift for
//! each, and `renamed` also looks at each item until one has the name.
//!
//! Definitions to trust, in `specs/`: Items, Nestings, Parts, Renamings, Unions.
//!
//! td_tuples sees a heading and a tuple as finite maps by name, so one theory serves both; what typing and keys say of
//! parts of tuples is said in its words.
#![tactic(auto)]

mod headings;
mod items;
mod names;
mod nestings;
mod shared;
mod tuples;

pub use headings::{
    columns_in, columns_out, composed_columns, joined, lone_names, renamed_columns, with_column,
};
pub use items::{Item, Summary, columns_of, extended_columns};
pub use names::{is_in, name_after};
pub use nestings::{
    grouped_columns, inner_columns, is_relation_valued, is_tuple_valued, opened_columns,
    wrapped_columns,
};
pub use shared::Shared;
pub use tuples::{beside, cut, renamed, tuple_of, with_attribute};
