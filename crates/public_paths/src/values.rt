//! td_values.

pub use td_values::{
    Heading, Kind, Name, NameError, Raise, TdType, Tuple, TypeKind, Value, compare, copy, equal,
    show, show_type,
};
