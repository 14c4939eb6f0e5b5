//! What is answered by a value, or by the error that evaluation raises.

use td_values::{Raise, Value};

/// What a query is answered; as `Answer<Relation>`, what a relvar has.
#[derive(Drop)]
pub enum Answer<T = Value> {
    Value(T),
    /// Evaluating it raises this error.
    Raised(Raise),
}
