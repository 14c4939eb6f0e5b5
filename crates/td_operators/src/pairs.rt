//! What operators make of two values.

ghost use Rattle.std.specs.Prelude.{◌≡◌, ◌↔◌, ◌++◌, ◌+ℤ◌, ◌-ℤ◌, ◌*ℤ◌, IfOk, IfSome, IsTrue, Ok};
ghost use Rattle.td_algebra.specs.KeyIndexes.{IsKeyIndex};
ghost use Rattle.td_algebra.specs.Nested.{relation_value};
ghost use Rattle.td_algebra.specs.Raising.{Answers};
ghost use Rattle.td_operators.specs.ForProofs.Lent.{operand_value};
ghost use Rattle.td_syntax.specs.declared.tree.BinaryOperator.TheVariants as binary;
ghost use Rattle.td_operators.specs.Operators as spec;
ghost use Rattle.td_values.specs.Data.{Datum, integer};

use crate::operand::{
    Lease, Operand, Shape, integer_of, rows_of, shape_of, text_of, truth_of, tuple_of,
};
use crate::parts::{integer_value, relation_value, text_value, truth_value};
use crate::relations::{
    compose_by_first, compose_by_second, compose_of, intersect_of, join_by_first, join_by_second,
    join_of, matching_by_first, matching_of, matching_of_indexed, minus_of, not_matching_by_first,
    not_matching_of, not_matching_of_indexed, union_of,
};
use std::alloc::{AllocError, Global};
use td_algebra::{Fault, KeyIndex, Stop};
use td_relations::{Relation, is_subset};
use td_syntax::tree::BinaryOperator;
use td_values::{Heading, Kind, Raise, Text, Tuple, Value, copy, equal, equal_headings};

// ---- truth values, integers, texts

// Applies AND, OR or XOR to two truth values; any other operator is untyped.
fn combine_truths<W>(operator: BinaryOperator, a: bool, b: bool) -> Result<Value, Fault<W>>
    ensures { Answers result (spec.decided operator a b) }
{
    match operator {
        BinaryOperator::Or => Ok(truth_value(a || b)),
        BinaryOperator::Xor => Ok(truth_value(a != b)),
        BinaryOperator::And => Ok(truth_value(a && b)),
        _ => Err(Fault::Raised(Stop::Untyped)),
    }
}

// Applies AND, OR or XOR to two operands; one that is no truth value is untyped.
#[tactic(auto, unfolding(crate::specs::Operators::of_truths))]
fn of_truths<W>(
    operator: BinaryOperator,
    u: &Operand<'_>,
    v: &Operand<'_>,
) -> Result<Value, Fault<W>>
    ensures { Answers result (spec.of_truths operator (operand_value u.now) (operand_value v.now)) }
{
    let a = truth_of(u)?;
    let b = truth_of(v)?;
    combine_truths(operator, a, b)
}

// The quotient of two integers, cut off towards zero. Division by 0 raises an error, and a quotient that does not fit
// in 64 bits an overflow.
fn quotient<W>(m: i64, n: i64) -> Result<Value, Fault<W>>
    ensures { Answers result (spec.quotient m n) }
{
    if n == 0 {
        return Err(Fault::Raised(Stop::Error(Raise::Divide)));
    }
    match m.checked_div(n) {
        Some(q) => Ok(integer_value(q)),
        None => Err(Fault::Raised(Stop::Error(Raise::Overflow))),
    }
}

// The sum of two integers; one that does not fit in 64 bits raises an overflow.
fn sum<W>(m: i64, n: i64) -> Result<Value, Fault<W>>
    ensures { Answers result (spec.within_64_bits (m +ℤ n)) }
{
    match m.checked_add(n) {
        Some(sum) => Ok(integer_value(sum)),
        None => Err(Fault::Raised(Stop::Error(Raise::Overflow))),
    }
}

// The difference of two integers; one that does not fit in 64 bits raises an overflow.
fn difference<W>(m: i64, n: i64) -> Result<Value, Fault<W>>
    ensures { Answers result (spec.within_64_bits (m -ℤ n)) }
{
    match m.checked_sub(n) {
        Some(difference) => Ok(integer_value(difference)),
        None => Err(Fault::Raised(Stop::Error(Raise::Overflow))),
    }
}

// The product of two integers; one that does not fit in 64 bits raises an overflow.
fn product<W>(m: i64, n: i64) -> Result<Value, Fault<W>>
    ensures { Answers result (spec.within_64_bits (m *ℤ n)) }
{
    match m.checked_mul(n) {
        Some(product) => Ok(integer_value(product)),
        None => Err(Fault::Raised(Stop::Error(Raise::Overflow))),
    }
}

// Adds, subtracts, multiplies or divides two integers; any other operator is untyped.
fn calculate<W>(operator: BinaryOperator, m: i64, n: i64) -> Result<Value, Fault<W>>
    ensures { Answers result (spec.calculated operator m n) }
{
    match operator {
        BinaryOperator::Add => sum(m, n),
        BinaryOperator::Subtract => difference(m, n),
        BinaryOperator::Multiply => product(m, n),
        BinaryOperator::Divide => quotient(m, n),
        _ => Err(Fault::Raised(Stop::Untyped)),
    }
}

// Adds, subtracts, multiplies or divides two operands; one that is no integer is untyped.
#[tactic(auto, unfolding(crate::specs::Operators::of_integers))]
fn of_integers<W>(
    operator: BinaryOperator,
    u: &Operand<'_>,
    v: &Operand<'_>,
) -> Result<Value, Fault<W>>
    ensures { Answers result (spec.of_integers operator (operand_value u.now) (operand_value v.now)) }
{
    let m = integer_of(u)?;
    let n = integer_of(v)?;
    calculate(operator, m, n)
}

// The one text behind the other.
fn append_text(alloc: Global, s: &Text, t: &Text) -> Result<Text, AllocError>
    ensures { IfOk result (λ u. u ≡ s.now ++ t.now) }
{
    let mut text = String::from_str(alloc, s.as_str())?;
    text.push_str(t.as_str())?;
    Text::new(alloc, text)
}

// The text of the first operand with that of the second behind it; an operand that is no text is untyped.
#[tactic(auto, unfolding(crate::specs::Operators::concatenated))]
fn concatenate<W>(alloc: Global, u: &Operand<'_>, v: &Operand<'_>) -> Result<Value, Fault<W>>
    ensures { Answers result (spec.concatenated (operand_value u.now) (operand_value v.now)) }
{
    let s = text_of(u)?;
    let t = text_of(v)?;
    Ok(text_value(append_text(alloc, s, t)?))
}

// ---- values of any kind

// Whether the two lists have equal tuples in the same order.
fn same_tuples(ts: &[Tuple], us: &[Tuple]) -> bool
    ensures { IsTrue result ↔ (ts.now ≡ us.now) }
{
    ts == us
}

// Whether two relations are equal, each given by its heading and its tuples.
fn same_rows(g: &Heading, ts: &[Tuple], h: &Heading, us: &[Tuple]) -> bool
    ensures { IsTrue result ↔ ((g.now ≡ h.now) × (ts.now ≡ us.now)) }
{
    equal_headings(g, h) && same_tuples(ts, us)
}

// Whether the two relations are equal: they have one heading and the same tuples.
fn are_one(r: &Relation, s: &Relation) -> bool
    ensures { IsTrue result ↔ (relation_value r.now ≡ relation_value s.now) }
{
    same_rows(r.heading(), r.tuples(), s.heading(), s.tuples())
}

// Whether the value is a relation that is equal to this one.
fn is_relation(value: &Value, r: &Relation) -> bool
    ensures { IsTrue result ↔ (value.now ≡ relation_value r.now) }
{
    match &value.kind {
        Kind::Relation(rows) => {
            same_rows(rows.heading(), rows.tuples(), r.heading(), r.tuples())
        }
        _ => false,
    }
}

// Whether the values of the operands are equal, be they owned or lent. It copies neither.
fn are_same(u: &Operand<'_>, v: &Operand<'_>) -> bool
    ensures { IsTrue result ↔ (operand_value u.now ≡ operand_value v.now) }
{
    match (u, v) {
        (Operand::Made(a), Operand::Made(b)) => equal(a, b),
        (Operand::Made(a), Operand::Lent(r)) => is_relation(a, r.get()),
        (Operand::Lent(r), Operand::Made(b)) => is_relation(b, r.get()),
        (Operand::Lent(r), Operand::Lent(s)) => are_one(r.get(), s.get()),
    }
}

// Whether the values of the operands are equal, as `=` and `<>` ask.
fn same(u: &Operand<'_>, v: &Operand<'_>) -> bool
    ensures { result ≡ spec.are_equal (operand_value u.now) (operand_value v.now) }
{
    are_same(u, v)
}

// ---- relations

// Whether the two relations have the same names with the same types.
fn have_one_heading(r: &Relation, s: &Relation) -> bool
    ensures test { result ≡ spec.are_equal_headings r.now.heading s.now.heading }
    ensures same { IsTrue result ↔ (r.now.heading ≡ s.now.heading) }
{
    r.same_heading(s)
}

// The union of two relations; it is untyped where they have two headings.
fn union_of_one_heading<W>(alloc: Global, r: &Relation, s: &Relation) -> Result<Relation, Fault<W>>
    ensures { Answers result (spec.related binary.Union r.now s.now) }
{
    if !have_one_heading(r, s) {
        return Err(Fault::Raised(Stop::Untyped));
    }
    Ok(union_of(alloc, r, s)?)
}

// The intersection of two relations; it is untyped where they have two headings.
fn intersection_of_one_heading<W>(
    alloc: Global,
    r: &Relation,
    s: &Relation,
) -> Result<Relation, Fault<W>>
    ensures { Answers result (spec.related binary.Intersect r.now s.now) }
{
    if !have_one_heading(r, s) {
        return Err(Fault::Raised(Stop::Untyped));
    }
    Ok(intersect_of(alloc, r, s)?)
}

// The tuples of the first relation that the second lacks; it is untyped where they have two headings.
fn difference_of_one_heading<W>(
    alloc: Global,
    r: &Relation,
    s: &Relation,
) -> Result<Relation, Fault<W>>
    ensures { Answers result (spec.related binary.Minus r.now s.now) }
{
    if !have_one_heading(r, s) {
        return Err(Fault::Raised(Stop::Untyped));
    }
    Ok(minus_of(alloc, r, s)?)
}

// What an operator makes of two relations, by no kept index. An operator that takes no two relations to a relation is
// untyped.
fn relate<W>(
    alloc: Global,
    operator: BinaryOperator,
    r: &Relation,
    s: &Relation,
) -> Result<Relation, Fault<W>>
    ensures { Answers result (spec.related operator r.now s.now) }
{
    match operator {
        BinaryOperator::Join => Ok(join_of(alloc, r, s)?),
        BinaryOperator::Compose => Ok(compose_of(alloc, r, s)?),
        BinaryOperator::Matching => Ok(matching_of(alloc, r, s)?),
        BinaryOperator::NotMatching => Ok(not_matching_of(alloc, r, s)?),
        BinaryOperator::Union => union_of_one_heading(alloc, r, s),
        BinaryOperator::Intersect => intersection_of_one_heading(alloc, r, s),
        BinaryOperator::Minus => difference_of_one_heading(alloc, r, s),
        _ => Err(Fault::Raised(Stop::Untyped)),
    }
}

// What a join or a match makes by an index of the second relation, where the names that both have are the first of its
// key.
fn relate_by_second(
    alloc: Global,
    operator: BinaryOperator,
    r: &Relation,
    s: &Relation,
    index: &KeyIndex,
) -> Result<Option<Relation>, AllocError>
    requires { IsKeyIndex index.now.key s.now index.now }
    ensures { IfOk result (λ o. IfSome o (λ n. spec.related operator r.now s.now ≡ Ok n)) }
{
    match operator {
        BinaryOperator::Join => join_by_second(alloc, r, s, index),
        BinaryOperator::Compose => compose_by_second(alloc, r, s, index),
        BinaryOperator::Matching => matching_of_indexed(alloc, r, s, index),
        BinaryOperator::NotMatching => not_matching_of_indexed(alloc, r, s, index),
        _ => Ok(None),
    }
}

// What a join or a match makes by an index of the first relation.
fn relate_by_first(
    alloc: Global,
    operator: BinaryOperator,
    r: &Relation,
    s: &Relation,
    index: &KeyIndex,
) -> Result<Option<Relation>, AllocError>
    requires { IsKeyIndex index.now.key r.now index.now }
    ensures { IfOk result (λ o. IfSome o (λ n. spec.related operator r.now s.now ≡ Ok n)) }
{
    match operator {
        BinaryOperator::Join => join_by_first(alloc, r, s, index),
        BinaryOperator::Compose => compose_by_first(alloc, r, s, index),
        BinaryOperator::Matching => matching_by_first(alloc, r, s, index),
        BinaryOperator::NotMatching => not_matching_by_first(alloc, r, s, index),
        _ => Ok(None),
    }
}

// Whether the tuples of the second may well be sought in the first. Where those of the first that match are asked for,
// what is found is sorted, so the second has to be much smaller.
fn seeks_in_first(operator: BinaryOperator, first: usize, second: usize) -> bool {
    match operator {
        BinaryOperator::Join => true,
        BinaryOperator::Compose => true,
        BinaryOperator::Matching => second <= first / 16,
        BinaryOperator::NotMatching => second <= first / 16,
        _ => false,
    }
}

// What a join or a match makes by an index that is kept of the second relation, if one serves.
fn relate_by_kept_second(
    alloc: Global,
    operator: BinaryOperator,
    r: &Relation,
    s: &Lease<'_>,
) -> Result<Option<Relation>, AllocError>
    ensures { IfOk result (λ o. IfSome o (λ n. spec.related operator r.now s.now ≡ Ok n)) }
{
    for index in s.indexes() {
        if let Some(made) = relate_by_second(alloc, operator, r, s.get(), index)? {
            return Ok(Some(made));
        }
    }
    Ok(None)
}

// What a join or a match makes by an index that is kept of the first relation, if one serves.
fn relate_by_kept_first(
    alloc: Global,
    operator: BinaryOperator,
    r: &Lease<'_>,
    s: &Relation,
) -> Result<Option<Relation>, AllocError>
    ensures { IfOk result (λ o. IfSome o (λ n. spec.related operator r.now s.now ≡ Ok n)) }
{
    if !seeks_in_first(operator, r.get().len(), s.len()) {
        return Ok(None);
    }
    for index in r.indexes() {
        if let Some(made) = relate_by_first(alloc, operator, r.get(), s, index)? {
            return Ok(Some(made));
        }
    }
    Ok(None)
}

// What a join or a match makes by a kept index of the larger relation, or else of the smaller one; None where none of
// them serves.
fn relate_by_any_index(
    alloc: Global,
    operator: BinaryOperator,
    r: &Lease<'_>,
    s: &Lease<'_>,
) -> Result<Option<Relation>, AllocError>
    ensures { IfOk result (λ o. IfSome o (λ n. spec.related operator r.now s.now ≡ Ok n)) }
{
    if s.get().len() < r.get().len() {
        match relate_by_kept_first(alloc, operator, r, s.get())? {
            Some(made) => Ok(Some(made)),
            None => relate_by_kept_second(alloc, operator, r.get(), s),
        }
    } else {
        match relate_by_kept_second(alloc, operator, r.get(), s)? {
            Some(made) => Ok(Some(made)),
            None => relate_by_kept_first(alloc, operator, r, s.get()),
        }
    }
}

/// What an operator makes of two relations, by an index that is kept of one of them where that serves.
pub(crate) fn relate_operands<W>(
    alloc: Global,
    operator: BinaryOperator,
    r: &Lease<'_>,
    s: &Lease<'_>,
) -> Result<Relation, Fault<W>>
    ensures { Answers result (spec.related operator r.now s.now) }
{
    match relate_by_any_index(alloc, operator, r, s)? {
        Some(made) => Ok(made),
        None => relate(alloc, operator, r.get(), s.get()),
    }
}

// Applies an operator to two operands, by an index that is kept of one of them where that serves; an operand that is no
// relation is untyped.
#[tactic(auto, unfolding(crate::specs::Operators::of_relations))]
fn of_relations<W>(
    alloc: Global,
    operator: BinaryOperator,
    u: Operand<'_>,
    v: Operand<'_>,
) -> Result<Value, Fault<W>>
    ensures { Answers result (spec.of_relations operator (operand_value u.entry) (operand_value v.entry)) }
{
    let r = rows_of(u)?;
    let s = rows_of(v)?;
    Ok(relation_value(relate_operands(alloc, operator, &r, &s)?))
}

// Whether the tuple of the first operand is in the relation of the second. It is untyped where the first is no tuple or
// the second no relation.
#[tactic(auto, unfolding(crate::specs::Operators::member))]
fn membership<W>(u: Operand<'_>, v: Operand<'_>) -> Result<Value, Fault<W>>
    ensures { Answers result (spec.member (operand_value u.entry) (operand_value v.entry)) }
{
    let tuple = tuple_of(&u)?;
    let rows = rows_of(v)?;
    Ok(truth_value(rows.get().contains(tuple)))
}

// ---- order

// Whether each tuple of the first relation is in the second.
fn is_part(r: &Relation, s: &Relation) -> bool
    ensures { result ≡ spec.is_subset r.now s.now }
{
    is_subset(r, s)
}

// Whether each tuple of the first relation is in the second, which has more.
fn is_proper_part(r: &Relation, s: &Relation) -> bool
    ensures { result ≡ spec.is_proper_subset r.now s.now }
{
    is_part(r, s) && !is_part(s, r)
}

// Whether the first relation is a proper subset of the second. It is untyped where an operand is no relation, or they
// have two headings.
#[tactic(auto, unfolding(crate::specs::Operators::of_alike))]
fn is_less<W>(u: Operand<'_>, v: Operand<'_>) -> Result<Value, Fault<W>>
    ensures { Answers result (spec.of_alike spec.is_proper_subset (operand_value u.entry) (operand_value v.entry)) }
{
    let r = rows_of(u)?;
    let s = rows_of(v)?;
    if !have_one_heading(r.get(), s.get()) {
        return Err(Fault::Raised(Stop::Untyped));
    }
    Ok(truth_value(is_proper_part(r.get(), s.get())))
}

// Whether the first relation is a subset of the second. It is untyped where an operand is no relation, or they have two
// headings.
#[tactic(auto, unfolding(crate::specs::Operators::of_alike))]
fn is_at_most<W>(u: Operand<'_>, v: Operand<'_>) -> Result<Value, Fault<W>>
    ensures { Answers result (spec.of_alike spec.is_subset (operand_value u.entry) (operand_value v.entry)) }
{
    let r = rows_of(u)?;
    let s = rows_of(v)?;
    if !have_one_heading(r.get(), s.get()) {
        return Err(Fault::Raised(Stop::Untyped));
    }
    Ok(truth_value(is_part(r.get(), s.get())))
}

// Whether the first operand is less than the second: integers by size, texts by code points, relations by inclusion.
// Operands of two kinds, and of any other kind, are untyped.
fn less<W>(u: Operand<'_>, v: Operand<'_>) -> Result<Value, Fault<W>>
    ensures { Answers result (spec.less (operand_value u.entry) (operand_value v.entry)) }
{
    match shape_of(&u) {
        Shape::Integer(m) => Ok(truth_value(m < integer_of(&v)?)),
        Shape::Text(s) => Ok(truth_value(s.compare(text_of(&v)?).is_lt())),
        _ => is_less(u, v),
    }
}

// Whether the first operand is at most the second: integers by size, texts by code points, relations by inclusion.
// Operands of two kinds, and of any other kind, are untyped.
fn at_most<W>(u: Operand<'_>, v: Operand<'_>) -> Result<Value, Fault<W>>
    ensures { Answers result (spec.at_most (operand_value u.entry) (operand_value v.entry)) }
{
    match shape_of(&u) {
        Shape::Integer(m) => Ok(truth_value(m <= integer_of(&v)?)),
        Shape::Text(s) => Ok(truth_value(s.compare(text_of(&v)?).is_le())),
        _ => is_at_most(u, v),
    }
}

// ---- all of them

/// What an operator makes of two values.
pub fn operate<W>(
    alloc: Global,
    operator: BinaryOperator,
    u: Operand<'_>,
    v: Operand<'_>,
) -> Result<Value, Fault<W>>
    ensures { Answers result (spec.operate operator (operand_value u.entry) (operand_value v.entry)) }
{
    match operator {
        BinaryOperator::Or | BinaryOperator::Xor | BinaryOperator::And => {
            of_truths(operator, &u, &v)
        }
        BinaryOperator::Equals => Ok(truth_value(same(&u, &v))),
        BinaryOperator::Differs => Ok(truth_value(!same(&u, &v))),
        BinaryOperator::Less => less(u, v),
        BinaryOperator::Greater => less(v, u),
        BinaryOperator::AtMost => at_most(u, v),
        BinaryOperator::AtLeast => at_most(v, u),
        BinaryOperator::In => membership(u, v),
        BinaryOperator::Add
        | BinaryOperator::Subtract
        | BinaryOperator::Multiply
        | BinaryOperator::Divide => of_integers(operator, &u, &v),
        BinaryOperator::Concatenate => concatenate(alloc, &u, &v),
        BinaryOperator::Join
        | BinaryOperator::Union
        | BinaryOperator::Intersect
        | BinaryOperator::Minus
        | BinaryOperator::Compose
        | BinaryOperator::Matching
        | BinaryOperator::NotMatching => of_relations(alloc, operator, u, v),
    }
}

// Whether the operator adds, subtracts, multiplies or divides.
fn is_arithmetic(operator: BinaryOperator) -> bool
    ensures { IsTrue result → (d e : Datum) → spec.operate operator d e ≡ spec.of_integers operator d e }
{
    match operator {
        BinaryOperator::Add => true,
        BinaryOperator::Subtract => true,
        BinaryOperator::Multiply => true,
        BinaryOperator::Divide => true,
        _ => false,
    }
}

// The two integers that the values are, if both are integers.
fn integers_of(u: &Value, v: &Value) -> Option<(i64, i64)>
    ensures { IfSome result (λ p. (u.now ≡ integer p.0) × (v.now ≡ integer p.1)) }
{
    match (&u.kind, &v.kind) {
        (Kind::Integer(m), Kind::Integer(n)) => Some((*m, *n)),
        _ => None,
    }
}

// What an operator makes of copies of two values.
fn operate_copies<W>(
    alloc: Global,
    operator: BinaryOperator,
    u: &Value,
    v: &Value,
) -> Result<Value, Fault<W>>
    ensures { Answers result (spec.operate operator u.now v.now) }
{
    let first = Operand::Made(copy(alloc, u)?);
    let second = Operand::Made(copy(alloc, v)?);
    operate(alloc, operator, first, second)
}

/// What an operator makes of two values that stand elsewhere. It copies them, but for integers with which it calculates.
pub fn operate_values<W>(
    alloc: Global,
    operator: BinaryOperator,
    u: &Value,
    v: &Value,
) -> Result<Value, Fault<W>>
    ensures { Answers result (spec.operate operator u.now v.now) }
{
    if !is_arithmetic(operator) {
        return operate_copies(alloc, operator, u, v);
    }
    match integers_of(u, v) {
        Some((m, n)) => calculate(operator, m, n),
        None => operate_copies(alloc, operator, u, v),
    }
}
