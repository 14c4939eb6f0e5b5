//! Expressions whose values are known.

ghost use Rattle.std.specs.Prelude.{◌≡◌, IfOk, IfSome};
ghost use Rattle.td_algebra.specs.Raising.{Answers, AnswersBy};
ghost use Rattle.td_operators.specs.ForProofs.Lent.{operand_value};
ghost use Rattle.td_meaning.specs.Mean.{Names};
ghost use Rattle.td_meaning.specs.Parts.{AreRight, known_value};
ghost use Rattle.td_meaning.specs.Seen.{mean_in};
ghost use Rattle.td_meaning.specs.declared.environment.Environment.{Environment};

use crate::environment::Environment;
use crate::scope::{KnownValue, lent, operand_meant, value_meant};
use std::alloc::{AllocError, Global};
use td_algebra::{Fault, Stop};
use td_operators::Operand;
use td_tuples::Shared;
use td_typed_trees::compare;
use td_typed_trees::tree::Typed;
use td_values::{Heading, Value};

/// An expression that names nothing around it, and its value or the error that it raises.
#[derive(Drop)]
pub struct HoistedTerm<'a> {
    pub tree: &'a Typed,
    pub value: Shared<Result<KnownValue, Stop>>,
}

/// The value, of which a relation is lent, or the error.
pub(crate) fn operand_known<W>(
    alloc: Global,
    value: &Result<KnownValue, Stop>,
) -> Result<Operand<'_>, Fault<W>>
    ensures { AnswersBy operand_value result (known_value value.now) }
{
    match value {
        Ok(held) => Ok(operand_meant(alloc, lent(held))?),
        Err(stop) => Err(Fault::Raised(*stop)),
    }
}

/// The value, copied, or the error.
pub(crate) fn value_known<W>(
    alloc: Global,
    value: &Result<KnownValue, Stop>,
) -> Result<Value, Fault<W>>
    ensures { Answers result (known_value value.now) }
{
    match value {
        Ok(held) => Ok(value_meant(alloc, lent(held))?),
        Err(stop) => Err(Fault::Raised(*stop)),
    }
}

/// The heading of the value, if it is a relation.
pub(crate) fn heading_known(value: &Result<KnownValue, Stop>) -> Option<&Heading> {
    match value {
        Ok(KnownValue::Rows(relation)) => Some(relation.heading()),
        _ => None,
    }
}

/// What is known of the expression, among parts in the order of their expressions.
fn find<'a>(parts: &'a [HoistedTerm<'a>], tree: &Typed) -> Option<&'a Result<KnownValue, Stop>>
    ensures { (env : Environment) → AreRight env parts.now → IfSome result (λ v. (names : Names) → mean_in env tree.now names ≡ known_value v.now) }
{
    match parts.binary_search_by(|part| compare(part.tree, tree)) {
        Ok(at) if compare(parts[at].tree, tree).is_eq() => Some(parts[at].value.get()),
        _ => None,
    }
}

/// What is known of the expression, where it takes evaluation: nothing else is sought, nor a relvar where none is
/// virtual.
pub(crate) fn part_known<'a>(
    env: &Environment<'_>,
    parts: &'a [HoistedTerm<'a>],
    tree: &Typed,
) -> Option<&'a Result<KnownValue, Stop>>
    ensures { AreRight env.now parts.now → IfSome result (λ v. (names : Names) → mean_in env.now tree.now names ≡ known_value v.now) }
{
    match tree {
        Typed::Integer(_) | Typed::Text(_) | Typed::Truth(_) | Typed::Local(_) => None,
        Typed::Relvar(_) if env.virtuals.is_empty() => None,
        _ => find(parts, tree),
    }
}

/// Puts a part where its expression belongs, in the order of expressions, in which parts are sought.
pub fn put<'a>(
    alloc: Global,
    parts: &mut Vec<HoistedTerm<'a>>,
    tree: &'a Typed,
    value: Result<KnownValue, Stop>,
) -> Result<(), AllocError>
    ensures { (env : Environment) → AreRight env parts.old.items → ((names : Names) → mean_in env tree.now names ≡ known_value value) → AreRight env parts.new.items }
{
    let at = match parts.binary_search_by(|part| compare(part.tree, tree)) {
        Ok(at) | Err(at) => at,
    };
    let value = Shared::new(alloc, value)?;
    parts.insert(at, HoistedTerm { tree, value })?;
    Ok(())
}

/// Puts a part where its expression belongs, if there is a value of it.
pub(crate) fn put_if<'a>(
    alloc: Global,
    parts: &mut Vec<HoistedTerm<'a>>,
    tree: &'a Typed,
    value: Option<Result<KnownValue, Stop>>,
) -> Result<(), AllocError>
    ensures { (env : Environment) → AreRight env parts.old.items → IfSome value (λ v. (names : Names) → mean_in env tree.now names ≡ known_value v) → AreRight env parts.new.items }
{
    match value {
        Some(value) => put(alloc, parts, tree, value),
        None => Ok(()),
    }
}

// A copy of the part, which shares its expression and its value.
fn copy<'a>(part: &'a HoistedTerm<'_>) -> Result<HoistedTerm<'a>, AllocError>
    ensures { IfOk result (λ p. p ≡ part.now) }
{
    let value = part.value.copy()?;
    Ok(HoistedTerm {
        tree: &*part.tree,
        value,
    })
}

/// A copy of the parts, which shares their values.
pub(crate) fn copied<'a>(
    alloc: Global,
    parts: &'a [HoistedTerm<'_>],
) -> Result<Vec<HoistedTerm<'a>>, AllocError>
    ensures { IfOk result (λ v. v.items ≡ parts.now) }
{
    let mut copies = Vec::with_capacity(alloc, parts.len())?;
    for part in parts {
        copies.push(copy(part)?)?;
    }
    Ok(copies)
}
