//! Conditions made ready for a walk over tuples.

ghost use Rattle.std.specs.Prelude.{◌≡◌, ◌≤◌, ◌++◌, ◌∷◌, [], max, IfOk, IfSome, IsTrue, Ok, OnOk};
ghost use Rattle.std.specs.Option.{option_copied};
ghost use Rattle.td_algebra.specs.Raising.{Answers, AnswersBy, and_then};
ghost use Rattle.td_meaning.specs.ForProofs.Checks.{AddsChecks, AreChecks, IsCheck, IsSide, check_levels, comparison, deepest_check, side_value};
ghost use Rattle.td_meaning.specs.ForProofs.Levels.{levels};
ghost use Rattle.td_meaning.specs.Parts.{known_value};
ghost use Rattle.td_meaning.specs.ForProofs.Standing.{meant_value};
ghost use Rattle.td_meaning.specs.Mean.{Meaning, mean_binary, mean_both, within};
ghost use Rattle.td_meaning.specs.Seen.{mean_in, names_bound};
ghost use Rattle.td_operators.specs.Operators as operators;
ghost use Rattle.td_operators.specs.Values.{known};
ghost use Rattle.td_syntax.specs.declared.tree.BinaryOperator.TheVariants as binary;
ghost use Rattle.td_tuples.specs.Parts.{Fits};
ghost use Rattle.td_values.specs.Data.{Attrs};

use crate::evaluator::Evaluator;
use crate::scope::{Binding, Bindings, KnownValue, lent};
use crate::wanting::Wanted;
use sqlite_items::Boxed;
use std::alloc::{AllocError, Global};
use td_algebra::{Fault, Stop, place_in};
use td_operators::{holds, integer_value, operate_values, text_value, truth_value};
use td_syntax::tree::BinaryOperator;
use td_typed_trees::tree::Typed;
use td_values::{Heading, Name, Tuple, Value, copy};

/// An operand of a comparison or an operation at a tuple: an attribute of the tuple, by its place, or a value that is
/// the same at all tuples.
#[derive(Drop)]
pub(crate) enum Side {
    Attribute(usize),
    Value(Boxed<Value>),
}

/// A part of a condition whose parts are joined by AND.
#[derive(Drop)]
pub(crate) enum Check<'a> {
    Comparison(BinaryOperator, Side, Side),
    Other(&'a Typed),
}

// The value as a side, which has it at every tuple. It takes memory for a box.
fn side_value(alloc: Global, value: Value) -> Result<Side, AllocError>
    ensures { IfOk result (λ s. (t : Attrs) → side_value t s ≡ Ok value) }
{
    Ok(Side::Value(Boxed::new(alloc, value)?))
}

// The value of what a name stands for. A relation is left to the operators, to which it is lent.
fn side_meant(alloc: Global, meant: Binding<'_>) -> Result<Option<Side>, AllocError>
    ensures { IfOk result (λ o. IfSome o (λ s. (t : Attrs) → side_value t s ≡ Ok (meant_value meant.entry))) }
{
    match meant {
        Binding::Value(value) => Ok(Some(side_value(alloc, copy(alloc, value)?)?)),
        Binding::Rows(_) => Ok(None),
    }
}

// The value that is known of an expression as a side; None where it is an error or a relation.
fn side_known(alloc: Global, value: &Result<KnownValue, Stop>) -> Result<Option<Side>, AllocError>
    ensures { IfOk result (λ o. IfSome o (λ s. (t : Attrs) → side_value t s ≡ known_value value.now)) }
{
    match value {
        Ok(held) => side_meant(alloc, lent(held)),
        Err(_) => Ok(None),
    }
}

// The name as a side: an attribute of the heading, which hides the names around it, or else the value that the name
// stands for in scope. It is None where that is a relation or the name is not in scope.
fn side_local(
    alloc: Global,
    scope: &Bindings,
    heading: &Heading,
    name: &Name,
) -> Result<Option<Side>, AllocError>
    ensures { IfOk result (λ o. IfSome o (λ s. (t : Attrs) → Fits heading.now t → known (within t (names_bound scope.now) name.now) ≡ side_value t s)) }
{
    if heading.type_of(name).is_some() {
        return Ok(Some(Side::Attribute(place_in(heading, name))));
    }
    match scope.find(name) {
        Some(meant) => side_meant(alloc, meant),
        None => Ok(None),
    }
}

/// The operand as a side, where it is an attribute or its value is known.
pub(crate) fn side_of<W: Wanted>(
    evaluator: &Evaluator<'_, W>,
    scope: &Bindings,
    heading: &Heading,
    tree: &Typed,
) -> Result<Option<Side>, AllocError>
    ensures { IfOk result (λ o. IfSome o (IsSide (mean_in evaluator.now.env.now) (names_bound scope.now) heading.now tree.now)) }
{
    match tree {
        Typed::Integer(n) => Ok(Some(side_value(evaluator.alloc, integer_value(*n))?)),
        Typed::Text(text) => Ok(Some(side_value(evaluator.alloc, text_value(text.copy()?))?)),
        Typed::Truth(b) => Ok(Some(side_value(evaluator.alloc, truth_value(*b))?)),
        Typed::Local(name) => side_local(evaluator.alloc, scope, heading, name),
        _ => match evaluator.known(tree) {
            Some(value) => side_known(evaluator.alloc, value),
            None => Ok(None),
        },
    }
}

/// Both operands as sides; None where one of them cannot be a side.
pub(crate) fn sides_of<W: Wanted>(
    evaluator: &Evaluator<'_, W>,
    scope: &Bindings,
    heading: &Heading,
    a: &Typed,
    b: &Typed,
) -> Result<Option<(Side, Side)>, AllocError>
    ensures { IfOk result (λ o. IfSome o (λ p. IsSide (mean_in evaluator.now.env.now) (names_bound scope.now) heading.now a.now p.0 × IsSide (mean_in evaluator.now.env.now) (names_bound scope.now) heading.now b.now p.1)) }
{
    let Some(first) = side_of(evaluator, scope, heading, a)? else {
        return Ok(None);
    };
    match side_of(evaluator, scope, heading, b)? {
        Some(second) => Ok(Some((first, second))),
        None => Ok(None),
    }
}

fn is_and(operator: BinaryOperator) -> bool
    ensures { IsTrue result → operator ≡ binary.And }
{
    match operator {
        BinaryOperator::And => true,
        _ => false,
    }
}

/// Whether the operator compares the values of both operands.
pub(crate) fn is_comparison(operator: BinaryOperator) -> bool
    ensures { IsTrue result → (a b : Meaning) → mean_binary operator a b ≡ mean_both operator a b }
{
    match operator {
        BinaryOperator::Equals => true,
        BinaryOperator::Differs => true,
        BinaryOperator::Less => true,
        BinaryOperator::Greater => true,
        BinaryOperator::AtMost => true,
        BinaryOperator::AtLeast => true,
        _ => false,
    }
}

// The expression as a check: a comparison whose operands are sides, or as it is.
fn check_of<'a, W: Wanted>(
    evaluator: &Evaluator<'_, W>,
    scope: &Bindings,
    heading: &Heading,
    tree: &'a Typed,
) -> Result<Check<'a>, AllocError>
    ensures means { IfOk result (IsCheck (mean_in evaluator.now.env.now) (names_bound scope.now) heading.now tree.now) }
    ensures levels { IfOk result (λ c. check_levels c ≤ levels tree.now) }
{
    match tree {
        Typed::Binary(operator, a, b) if is_comparison(*operator) => {
            match sides_of(evaluator, scope, heading, a.get(), b.get())? {
                Some((first, second)) => Ok(Check::Comparison(*operator, first, second)),
                None => Ok(Check::Other(tree)),
            }
        }
        _ => Ok(Check::Other(tree)),
    }
}

fn add_check<'a>(checks: &mut Vec<Check<'a>>, check: Check<'a>) -> Result<(), AllocError>
    ensures { OnOk result (checks.new.items ≡ checks.old.items ++ check.entry ∷ []) }
{
    checks.push(check)?;
    Ok(())
}

// Adds the operands of AND in written order.
#[cycle(conjuncts)]
fn add_checks<'a, W: Wanted>(
    evaluator: &Evaluator<'_, W>,
    scope: &Bindings,
    heading: &Heading,
    tree: &'a Typed,
    checks: &mut Vec<Check<'a>>,
) -> Result<(), AllocError>
    ensures means { OnOk result (AddsChecks (mean_in evaluator.now.env.now) (names_bound scope.now) heading.now tree.now checks.old.items checks.new.items) }
    ensures levels { OnOk result (deepest_check checks.new.items ≤ max (deepest_check checks.old.items) (levels tree.now)) }
{
    match tree {
        Typed::Binary(operator, a, b) if is_and(*operator) => {
            add_checks(evaluator, scope, heading, a.get(), checks)?;
            add_checks(evaluator, scope, heading, b.get(), checks)
        }
        _ => add_check(checks, check_of(evaluator, scope, heading, tree)?),
    }
}

/// The condition, ready for the tuples of a heading.
pub(crate) fn checks_of<'a, W: Wanted>(
    evaluator: &Evaluator<'_, W>,
    scope: &Bindings,
    heading: &Heading,
    condition: &'a Typed,
) -> Result<Vec<Check<'a>>, AllocError>
    ensures means { IfOk result (λ v. AreChecks (mean_in evaluator.now.env.now) (names_bound scope.now) heading.now condition.now v.items) }
    ensures levels { IfOk result (λ v. deepest_check v.items ≤ levels condition.now) }
{
    let mut checks = Vec::new(evaluator.alloc);
    add_checks(evaluator, scope, heading, condition, &mut checks)?;
    Ok(checks)
}

// The side's value at the tuple, lent; None where the tuple has no attribute at the side's place.
fn value_at<'a>(side: &'a Side, tuple: &'a Tuple) -> Option<&'a Value>
    ensures { side_value tuple.now side.now ≡ known (option_copied result) }
{
    match side {
        Side::Attribute(at) => match tuple.attributes().get(*at) {
            Some(attribute) => Some(&attribute.1),
            None => None,
        },
        Side::Value(value) => Some(value.get()),
    }
}

// The same, or 'no meaning'.
fn lent_at<'a, W>(side: &'a Side, tuple: &'a Tuple) -> Result<&'a Value, Fault<W>>
    ensures { AnswersBy (λ v. v.now) result (side_value tuple.now side.now) }
{
    match value_at(side, tuple) {
        Some(value) => Ok(value),
        None => Err(Fault::Raised(Stop::Untyped)),
    }
}

/// The side's value at the tuple, copied.
pub(crate) fn side_at<W>(alloc: Global, side: &Side, tuple: &Tuple) -> Result<Value, Fault<W>>
    ensures { Answers result (side_value tuple.now side.now) }
{
    let value = lent_at(side, tuple)?;
    Ok(copy(alloc, value)?)
}

/// What the operator makes of the sides' values at the tuple.
pub(crate) fn operate_at<W>(
    alloc: Global,
    operator: BinaryOperator,
    a: &Side,
    b: &Side,
    tuple: &Tuple,
) -> Result<Value, Fault<W>>
    ensures { Answers result (and_then (side_value tuple.now a.now) (λ d. and_then (side_value tuple.now b.now) (operators.operate operator d))) }
{
    let first = lent_at(a, tuple)?;
    let second = lent_at(b, tuple)?;
    operate_values(alloc, operator, first, second)
}

/// Whether the comparison is true at the tuple.
pub(crate) fn compare_at_tuple<W>(
    alloc: Global,
    operator: BinaryOperator,
    a: &Side,
    b: &Side,
    tuple: &Tuple,
) -> Result<bool, Fault<W>>
    ensures { Answers result (comparison operator (side_value tuple.now a.now) (side_value tuple.now b.now)) }
{
    let first = lent_at(a, tuple)?;
    let second = lent_at(b, tuple)?;
    holds(alloc, operator, first, second)
}
