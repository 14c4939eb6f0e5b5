//! Summaries over groups of tuples.
ghost use Rattle.std.specs.Prelude.{◌≡◌, pos, length, Result, IfOk};
ghost use Rattle.std.specs.List.{All, list_all, list_any};
ghost use Rattle.std.specs.Option.{option_copied};
ghost use Rattle.td_values.specs.Data.{Ty, Attrs, integer, boolean};
ghost use Rattle.td_values.specs.Whole.{type_of};
ghost use Rattle.td_algebra.specs.declared.errors.Stop.{Stop};
ghost use Rattle.td_algebra.specs.Raising.{Answers, AnswersBy, all_of};
ghost use Rattle.td_algebra.specs.Extending.{TermMeaning, TakesBoth, Means};
ghost use Rattle.td_algebra.specs.Summaries as spec;
ghost use Rattle.td_algebra.specs.Summaries.{TakesTerm, MeansTerm};

use crate::errors::{Fault, Stop};
use crate::gathered::Gathered;
use std::alloc::{AllocError, Global};
use td_relations::Relation;
use td_tuples::Summary;
use td_values::{Kind, Raise, Tuple, Value, compare, copy};

// The value of an integer.
fn integer_value(n: i64) -> Value
    ensures { result ≡ integer n }
{
    Value {
        kind: Kind::Integer(n),
    }
}

// The value of a truth value.
fn truth_value(b: bool) -> Value
    ensures { result ≡ boolean b }
{
    Value {
        kind: Kind::Boolean(b),
    }
}

// The integer that a value holds; 0 of a value of another type.
fn number_in(value: &Value) -> i64
    ensures { result ≡ spec.number_in value.now }
{
    match &value.kind {
        Kind::Integer(n) => *n,
        _ => 0,
    }
}

// Whether a value is TRUE; one of another type is not.
fn is_true(value: &Value) -> bool
    ensures { result ≡ spec.is_true value.now }
{
    match &value.kind {
        Kind::Boolean(b) => *b,
        _ => false,
    }
}

// The sum of integer values, wide enough not to overflow.
fn whole_sum(values: &[Value]) -> i128
    ensures { result ≡ spec.whole_sum values.now }
{
    let mut sum = 0i128;
    for value in values {
        sum += number_in(value) as i128;
    }
    sum
}

// The sum of integer values; an overflow where it is out of the range of INTEGER.
fn sum_of<W>(values: &[Value]) -> Result<Value, Fault<W>>
    ensures { Answers result (spec.sum_of values.now) }
{
    match i64::try_from(whole_sum(values)) {
        Ok(n) => Ok(integer_value(n)),
        Err(_) => Err(Fault::Raised(Stop::Error(Raise::Overflow))),
    }
}

// The greater one of two values, the first where they are equal.
fn greater<'a>(a: &'a Value, b: &'a Value) -> &'a Value
    ensures { result.now ≡ spec.greater a.now b.now }
{
    if compare(a, b).is_lt() { b } else { a }
}

// The lesser one of two values, the first where they are equal.
fn lesser_of<'a>(a: &'a Value, b: &'a Value) -> &'a Value
    ensures { result.now ≡ spec.lesser_of a.now b.now }
{
    if compare(b, a).is_lt() { b } else { a }
}

// A copy of the greatest of the values, which raises an error where there are none.
fn greatest<W>(alloc: Global, values: &[Value]) -> Result<Value, Fault<W>>
    ensures { Answers result (spec.most spec.greater values.now) }
{
    match values.split_first() {
        None => Err(Fault::Raised(Stop::Error(Raise::Empty))),
        Some((first, rest)) => {
            let mut best = first;
            for value in rest {
                best = greater(best, value);
            }
            Ok(copy(alloc, best)?)
        }
    }
}

// A copy of the least of the values, which raises an error where there are none.
fn least<W>(alloc: Global, values: &[Value]) -> Result<Value, Fault<W>>
    ensures { Answers result (spec.most spec.lesser_of values.now) }
{
    match values.split_first() {
        None => Err(Fault::Raised(Stop::Error(Raise::Empty))),
        Some((first, rest)) => {
            let mut best = first;
            for value in rest {
                best = lesser_of(best, value);
            }
            Ok(copy(alloc, best)?)
        }
    }
}

// Whether all values are TRUE, as they are where there are none.
fn are_all_true(values: &[Value]) -> bool
    ensures { result ≡ list_all spec.is_true values.now }
{
    values.iter().all(|v| is_true(v))
}

// Whether one of the values is TRUE.
fn is_any_true(values: &[Value]) -> bool
    ensures { result ≡ list_any spec.is_true values.now }
{
    values.iter().any(|v| is_true(v))
}

// The term that a summary aggregates; None of COUNT.
fn term_of<E>(summary: &Summary<E>) -> Option<&E>
    ensures { option_copied result ≡ spec.term_of summary.now }
{
    match summary {
        Summary::Count => None,
        Summary::Sum(term) => Some(term),
        Summary::Max(term) => Some(term),
        Summary::Min(term) => Some(term),
        Summary::And(term) => Some(term),
        Summary::Or(term) => Some(term),
    }
}

// What the summary makes of the values of its term.
fn fold_values<E, W>(
    alloc: Global,
    summary: &Summary<E>,
    values: &[Value],
) -> Result<Value, Fault<W>>
    ensures { Answers result (spec.fold_of summary.now values.now) }
{
    match summary {
        Summary::Count => Ok(integer_value(values.len() as i64)),
        Summary::Sum(_) => sum_of(values),
        Summary::Max(_) => greatest(alloc, values),
        Summary::Min(_) => least(alloc, values),
        Summary::And(_) => Ok(truth_value(are_all_true(values))),
        Summary::Or(_) => Ok(truth_value(is_any_true(values))),
    }
}

// The term's value on the tuple.
fn value_of<E, W, F: Fn(&E, &Tuple) -> Result<Value, Fault<W>>>(
    f: &F,
    term: &E,
    tuple: &Tuple,
) -> Result<Value, Fault<W>>
    requires { TakesBoth (F.pre f.now) term.now tuple.now }
    ensures { (m : TermMeaning E) → Means (F.post f.now) m term.now tuple.now → Answers result (m term.now tuple.now) }
{
    f(term, tuple)
}

// The term's values on the tuples, or the least error among theirs.
fn values_at<E, W, F: Fn(&E, &Tuple) -> Result<Value, Fault<W>>>(
    alloc: Global,
    tuples: &[Tuple],
    term: &E,
    f: &F,
) -> Result<Vec<Value>, Fault<W>>
    requires { All (TakesBoth (F.pre f.now) term.now) tuples.now }
    ensures { (m : TermMeaning E) → All (Means (F.post f.now) m term.now) tuples.now → AnswersBy (λ v. v.items) result (all_of (m term.now) tuples.now) }
{
    let mut gathered = Gathered::new(alloc);
    for tuple in tuples {
        gathered.note(value_of(f, term, tuple))?;
    }
    gathered.finish()
}

// The number of tuples, as a value.
fn number_of(tuples: &[Tuple]) -> Value
    ensures { result ≡ integer (pos (length tuples.now)) }
{
    integer_value(tuples.len() as i64)
}

// The summary over these tuples.
pub(crate) fn summarize_group<E, W, F: Fn(&E, &Tuple) -> Result<Value, Fault<W>>>(
    alloc: Global,
    tuples: &[Tuple],
    summary: &Summary<E>,
    f: &F,
) -> Result<Value, Fault<W>>
    requires { All (TakesTerm (F.pre f.now) summary.now) tuples.now }
    ensures { (m : TermMeaning E) → All (MeansTerm (F.post f.now) m summary.now) tuples.now → Answers result (spec.summary_over m tuples.now summary.now) }
{
    match term_of(summary) {
        None => Ok(number_of(tuples)),
        Some(term) => match values_at(alloc, tuples, term, f) {
            Ok(values) => fold_values(alloc, summary, &values),
            Err(fault) => Err(fault),
        },
    }
}

/// The summary over all tuples of the relation: of the term's values, in ascending order of the tuples, or the least of
/// the errors that the function raises, or else what the summary raises. The term is asked of each tuple once.
pub fn aggregate<E, W, F: Fn(&E, &Tuple) -> Result<Value, Fault<W>>>(
    alloc: Global,
    relation: &Relation,
    summary: &Summary<E>,
    f: &F,
) -> Result<Value, Fault<W>>
    requires { All (TakesTerm (F.pre f.now) summary.now) relation.now.tuples }
    ensures { (m : TermMeaning E) → All (MeansTerm (F.post f.now) m summary.now) relation.now.tuples → Answers result (spec.summary_over m relation.now.tuples summary.now) }
{
    summarize_group(alloc, relation.tuples(), summary, f)
}
