//! Values by their kinds.

ghost use Rattle.std.specs.Prelude.{◌≡◌};
ghost use Rattle.td_algebra.specs.Nested.{relation_value};
ghost use Rattle.td_algebra.specs.Raising.{Answers};
ghost use Rattle.td_values.specs.Data.{boolean, char, integer, tuple};
ghost use Rattle.td_operators.specs.Values as spec;

use td_algebra::{Fault, Stop};
use td_relations::Relation;
use td_values::{Kind, Text, Tuple, Value};

/// The value of a truth.
pub fn truth_value(b: bool) -> Value
    ensures { result ≡ boolean b }
{
    Value {
        kind: Kind::Boolean(b),
    }
}

/// The value of an integer.
pub fn integer_value(n: i64) -> Value
    ensures { result ≡ integer n }
{
    Value {
        kind: Kind::Integer(n),
    }
}

/// The value of a text.
pub fn text_value(text: Text) -> Value
    ensures { result ≡ char text }
{
    Value {
        kind: Kind::Char(text),
    }
}

/// The value of a tuple.
pub fn tuple_value(t: Tuple) -> Value
    ensures { result ≡ tuple t }
{
    Value {
        kind: Kind::Tuple(t),
    }
}

/// The value of a relation. It takes no memory.
pub fn relation_value(relation: Relation) -> Value
    ensures { result ≡ relation_value relation }
{
    Value {
        kind: Kind::Relation(relation.into_rows()),
    }
}

/// The truth of a value.
pub fn truth_of<W>(value: Value) -> Result<bool, Fault<W>>
    ensures { Answers result (spec.truth_of value) }
{
    match value.kind {
        Kind::Boolean(b) => Ok(b),
        _ => Err(Fault::Raised(Stop::Untyped)),
    }
}
