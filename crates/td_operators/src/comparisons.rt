//! Comparisons of values that stand elsewhere.

ghost use Rattle.std.specs.Prelude.{◌≡◌, IfSome, Ok};
ghost use Rattle.td_algebra.specs.Raising.{Answers, and_then};
ghost use Rattle.td_operators.specs.Operators as spec;
ghost use Rattle.td_operators.specs.Values.{truth_of};
ghost use Rattle.td_values.specs.Data.{boolean};

use crate::pairs::operate_values;
use crate::parts::truth_of;
use std::alloc::Global;
use td_algebra::Fault;
use td_syntax::tree::BinaryOperator;
use td_values::{Kind, Value, equal};

// Whether the two values are equal. It copies neither.
fn same(u: &Value, v: &Value) -> bool
    ensures { result ≡ spec.are_equal u.now v.now }
{
    equal(u, v)
}

// Whether the first value is less than the second, if they are two integers or two texts; None for all others.
fn less(u: &Value, v: &Value) -> Option<bool>
    ensures { IfSome result (λ b. spec.less u.now v.now ≡ Ok (boolean b)) }
{
    match (&u.kind, &v.kind) {
        (Kind::Integer(m), Kind::Integer(n)) => Some(*m < *n),
        (Kind::Char(s), Kind::Char(t)) => Some(s.compare(t).is_lt()),
        _ => None,
    }
}

// Whether the first value is at most the second, if they are two integers or two texts; None for all others.
fn at_most(u: &Value, v: &Value) -> Option<bool>
    ensures { IfSome result (λ b. spec.at_most u.now v.now ≡ Ok (boolean b)) }
{
    match (&u.kind, &v.kind) {
        (Kind::Integer(m), Kind::Integer(n)) => Some(*m <= *n),
        (Kind::Char(s), Kind::Char(t)) => Some(s.compare(t).is_le()),
        _ => None,
    }
}

// The answer of a comparison that copies nothing.
fn compare_in_place(operator: BinaryOperator, u: &Value, v: &Value) -> Option<bool>
    ensures { IfSome result (λ b. spec.operate operator u.now v.now ≡ Ok (boolean b)) }
{
    match operator {
        BinaryOperator::Equals => Some(same(u, v)),
        BinaryOperator::Differs => Some(!same(u, v)),
        BinaryOperator::Less => less(u, v),
        BinaryOperator::Greater => less(v, u),
        BinaryOperator::AtMost => at_most(u, v),
        BinaryOperator::AtLeast => at_most(v, u),
        _ => None,
    }
}

/// The truth of what an operator makes of two values. Comparisons of integers and of texts, and for equality those of
/// all values, copy neither.
pub fn holds<W>(
    alloc: Global,
    operator: BinaryOperator,
    u: &Value,
    v: &Value,
) -> Result<bool, Fault<W>>
    ensures { Answers result (and_then (spec.operate operator u.now v.now) truth_of) }
{
    match compare_in_place(operator, u, v) {
        Some(truth) => Ok(truth),
        None => truth_of(operate_values(alloc, operator, u, v)?),
    }
}
