//! INSERTs of tuples that are written out.

ghost use Rattle.std.specs.Prelude.{◌≡◌, ◌∷◌, [], true, length, List, IfOk, IfSome, MatchOption};
ghost use Rattle.td_values.specs.Headings.{Header};
ghost use Rattle.td_syntax.specs.declared.tree.BinaryOperator.TheVariants as binary;
ghost use Rattle.td_headings.specs.Reached.{named_relvars};
ghost use Rattle.td_headings.specs.declared.statement.TypedStatement.TheVariants as typed_statement;
ghost use Rattle.td_typed_trees.specs.declared.tree.Typed.{Typed};
ghost use Rattle.td_typed_trees.specs.declared.tree.Typed.TheVariants as typed;
ghost use Rattle.td_insertions.specs.ForProofs.Written.{IsWritten, IsWrittenBy};

use std::alloc::{AllocError, Global};
use td_headings::{TypedAssignment, TypedStatement};
use td_syntax::tree::BinaryOperator;
use td_typed_trees::tree::Typed;
use td_typed_trees::{add_mentions, relvars_in};

/// The target of an INSERT, and how many tuples are written out.
#[derive(Drop)]
pub(crate) struct Written {
    pub target: usize,
    pub many: usize,
}

/// The item of a list that has one alone.
pub(crate) fn sole_item<T>(items: &[T]) -> Option<&T>
    ensures { MatchOption result (Unit {0}) (λ x. items.now ≡ x.now ∷ []) }
{
    match items {
        [item] => Some(item),
        _ => None,
    }
}

/// The assignment of a statement that is one alone, without a condition.
pub(crate) fn sole_assignment(statement: &TypedStatement) -> Option<&TypedAssignment>
    ensures { MatchOption result (Unit {0}) (λ a. statement.now ≡ typed_statement.Assignment (a.now ∷ [])) }
{
    match statement {
        TypedStatement::Assignment(all) => sole_item(all.as_slice()),
        TypedStatement::Conditional(_, _, _) => None,
    }
}

// Whether the expression is nothing but the relvar at this place.
fn is_relvar(tree: &Typed, relvar: usize) -> bool
    ensures { result ≡ true → tree.now ≡ typed.Relvar relvar }
{
    match tree {
        Typed::Relvar(place) => *place == relvar,
        _ => false,
    }
}

// The expression that the relvar is united with, if the tree is such a union.
fn union_operand(tree: &Typed, relvar: usize) -> Option<&Typed>
    ensures { MatchOption result (Unit {0}) (λ more. tree.now ≡ typed.Binary binary.Union (typed.Relvar relvar) more.now) }
{
    match tree {
        Typed::Binary(BinaryOperator::Union, first, more) => {
            if is_relvar(first.get(), relvar) {
                Some(more.get())
            } else {
                None
            }
        }
        _ => None,
    }
}

// How many tuples the expression writes out, if it is a relation of such.
fn count_terms(tree: &Typed) -> Option<usize>
    ensures { IfSome result (λ many. (h : Header) × (ts : List Typed) × (tree.now ≡ typed.Relation h ts) × (many ≡ length ts)) }
{
    match tree {
        Typed::Relation(_, terms) => Some(terms.as_slice().len()),
        _ => None,
    }
}

// Whether the expression names no relvar. It costs its size.
fn names_no_relvar(alloc: Global, tree: &Typed) -> Result<bool, AllocError>
    ensures { IfOk result (λ b. b ≡ true → named_relvars tree.now ≡ []) }
{
    let mut mentions = Vec::new(alloc);
    add_mentions(&mut mentions, tree)?;
    let relvars = relvars_in(alloc, &mentions)?;
    Ok(relvars.as_slice().is_empty())
}

// What the assignment inserts as it is written, if it is such an INSERT.
fn written_by(alloc: Global, assignment: &TypedAssignment) -> Result<Option<Written>, AllocError>
    ensures { IfOk result (λ o. IfSome o (λ w. IsWrittenBy assignment.now w.target w.many)) }
{
    let target = assignment.target;
    let Some(more) = union_operand(assignment.source.get().tree.get(), target) else {
        return Ok(None);
    };
    let Some(many) = count_terms(more) else {
        return Ok(None);
    };
    if names_no_relvar(alloc, more)? {
        Ok(Some(Written { target, many }))
    } else {
        Ok(None)
    }
}

/// What the statement inserts as it is written, if it is one INSERT of tuples that are written out by expressions which
/// read no relvar. It costs the size of these expressions.
pub(crate) fn written_insertion(
    alloc: Global,
    statement: &TypedStatement,
) -> Result<Option<Written>, AllocError>
    ensures { IfOk result (λ o. IfSome o (λ w. IsWritten statement.now w.target w.many)) }
{
    match sole_assignment(statement) {
        Some(assignment) => written_by(alloc, assignment),
        None => Ok(None),
    }
}
