//! Whether a relation is within a part of another one, which is not made.

ghost use Rattle.std.specs.Prelude.{◌≡◌, ℕ, List, false, length, IfOk, IsTrue, Ok, Err};
ghost use Rattle.td_algebra.specs.Functions.{not_matching_of, project_of};
ghost use Rattle.td_algebra.specs.Raising.{Answers, and_then};
ghost use Rattle.td_algebra.specs.declared.errors.Stop.TheVariants.{Untyped};
ghost use Rattle.td_operators.specs.ForProofs.Kinds.{is_scalar};
ghost use Rattle.td_operators.specs.ForProofs.Lent.{operand_value};
ghost use Rattle.td_operators.specs.ForProofs.Within.{within_part};
ghost use Rattle.td_operators.specs.Operators as spec;
ghost use Rattle.td_syntax.specs.declared.tree.BinaryOperator.TheVariants as binary;
ghost use Rattle.td_tuples.specs.Parts.{columns_in};
ghost use Rattle.td_values.specs.Data.{Datum, boolean};

use crate::operand::{Lease, Operand, Shape, rows_of, shape_of};
use crate::operators::{is_empty, part_at};
use crate::pairs::{operate, relate_operands};
use crate::parts::truth_value;
use std::alloc::{AllocError, Global};
use td_algebra::{Fault, Stop};
use td_syntax::tree::BinaryOperator;
use td_tuples::columns_in;
use td_values::{Heading, Kind, Name, Value, equal_headings};

// Whether the two headings have the same names with the same types.
fn are_one(g: &Heading, h: &Heading) -> bool
    ensures test { result ≡ spec.are_equal_headings g.now h.now }
    ensures same { IsTrue result → g.now ≡ h.now }
{
    equal_headings(g, h)
}

// Whether the heading is that of the other one's part at these names.
fn is_of_part(
    alloc: Global,
    heading: &Heading,
    names: &[Name],
    whole: &Heading,
) -> Result<bool, AllocError>
    ensures test { IfOk result (λ b. b ≡ spec.are_equal_headings heading.now (columns_in names.now whole.now)) }
    ensures same { IfOk result (λ b. IsTrue b → heading.now ≡ columns_in names.now whole.now) }
{
    let columns = columns_in(alloc, names, whole)?;
    Ok(are_one(heading, &columns))
}

// Whether the relation is within the part of the whole at these names: each of its tuples matches one of the whole. It
// is untyped where the relation has another heading than the part.
fn is_within<W>(
    alloc: Global,
    r: &Lease<'_>,
    names: &[Name],
    whole: &Lease<'_>,
) -> Result<Value, Fault<W>>
    ensures { Answers result (spec.if_alike r.now (project_of names.now whole.now) (boolean (spec.is_subset r.now (project_of names.now whole.now)))) }
{
    let alike = is_of_part(alloc, r.get().heading(), names, whole.get().heading())?;
    if !alike {
        return Err(Fault::Raised(Stop::Untyped));
    }
    r.get().rows_fit();
    whole.get().rows_fit();
    let others = relate_operands(alloc, BinaryOperator::NotMatching, r, whole)?;
    Ok(truth_value(is_empty(others.tuples())))
}

// Whether the first operand is within the part of the whole at these names. It is untyped where one of them is no
// relation, or the first has another heading than the part.
#[tactic(auto, unfolding(crate::specs::ForProofs::Within::within_part))]
fn are_within<W>(
    alloc: Global,
    u: Operand<'_>,
    names: &[Name],
    whole: Operand<'_>,
) -> Result<Value, Fault<W>>
    ensures { Answers result (within_part names.now (operand_value u.entry) (operand_value whole.entry)) }
{
    let s = rows_of(whole)?;
    let r = rows_of(u)?;
    is_within(alloc, &r, names, &s)
}

// Whether the operand is neither an integer, a text nor a tuple, so that `<=` takes it as a relation.
fn is_other(operand: &Operand<'_>) -> bool
    ensures { IsTrue result → is_scalar (operand_value operand.now) ≡ false }
{
    match shape_of(operand) {
        Shape::Other => true,
        _ => false,
    }
}

/// Whether the operand has parts: it is a tuple or a relation.
pub fn has_parts(operand: &Operand<'_>) -> bool
    ensures has { IsTrue result → (xs : List (List ℕ)) → (d : Datum) × (spec.part_at xs (operand_value operand.now) ≡ Ok d) }
    ensures lacks { result ≡ false → (xs : List (List ℕ)) → spec.part_at xs (operand_value operand.now) ≡ Err Untyped }
{
    match operand {
        Operand::Made(value) => match &value.kind {
            Kind::Tuple(_) => true,
            Kind::Relation(_) => true,
            _ => false,
        },
        Operand::Lent(_) => true,
    }
}

/// Whether a relation is within another one's part at these names. No part is made and the larger of the two is not
/// sorted: it costs as NOT MATCHING, a search for each tuple where the other one is kept by a key of these names.
pub fn is_within_part<W>(
    alloc: Global,
    u: Operand<'_>,
    names: &[Name],
    whole: Operand<'_>,
) -> Result<Value, Fault<W>>
    ensures { Answers result (and_then (spec.part_at names.now (operand_value whole.entry)) (spec.operate binary.AtMost (operand_value u.entry))) }
{
    if is_other(&u) && is_other(&whole) {
        are_within(alloc, u, names, whole)
    } else {
        let part = part_at(alloc, names, whole)?;
        operate(alloc, BinaryOperator::AtMost, u, Operand::Made(part))
    }
}
