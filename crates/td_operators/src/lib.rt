//! What operators make of values, or the errors that they raise.
//!
//! Begin with `operate`, a binary operator over two operands, and `operate_on`, a unary one. A `Lease` is a relation
//! that is owned or lent, with its indexes.
//!
//! ```
//! let one = Operand::Made(integer_value(1));
//! let two = Operand::Made(integer_value(2));
//! let three = operate::<Infallible>(alloc, BinaryOperator::Add, one, two)?;
//! let lent = Operand::Lent(Lease::lent(&suppliers));
//! let count = operate_on::<Infallible>(alloc, UnaryOperator::Count, lent)?;
//! ```
//!
//! Costs: operators of relations cost what those of td_algebra do. A `Lease` of a lent relation copies nothing, and
//! `count_of_join` costs what the join does, without its tuples and their sort.
//!
//! Definitions to trust, in `specs/`: Operators, Values.
//!
//! td_operators knows values and no trees; what it makes of a value of a wrong kind is 'no meaning', which typing rules
//! out.
#![tactic(auto)]

mod comparisons;
mod counts;
mod inclusions;
pub mod operand;
mod operators;
mod pairs;
mod parts;
mod relations;
mod tuples;

pub use comparisons::holds;
pub use counts::{count_of_join, count_value};
pub use inclusions::{has_parts, is_within_part};
pub use operand::{Lease, Operand, rows_of};
pub use operators::{
    attribute_at, component_at, nest, operate_on, part_at, unnest, with_new_names,
};
pub use pairs::{operate, operate_values};
pub use parts::{integer_value, relation_value, text_value, truth_of, truth_value, tuple_value};
pub use relations::project_of;
pub use tuples::{relation_over, table_dee};
