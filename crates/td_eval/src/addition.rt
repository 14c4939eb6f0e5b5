//! What an expression adds to a relvar.

ghost use Rattle.std.specs.Prelude.{◌≡◌, true, MatchOption, Ok, slice_get};
ghost use Rattle.td_values.specs.Data.{no_attrs};
ghost use Rattle.td_values.specs.Rows.{RowsData};
ghost use Rattle.td_algebra.specs.Raising.{Answers, and_then};
ghost use Rattle.td_headings.specs.Reached.{is_base};
ghost use Rattle.td_meaning.specs.Mean.{mean, rows_in};
ghost use Rattle.td_meaning.specs.Seen.{relvars_at};
ghost use Rattle.td_meaning.specs.Selections.{selection};
ghost use Rattle.td_operators.specs.Values as spec;
ghost use Rattle.td_syntax.specs.declared.tree.BinaryOperator.TheVariants as binary;
ghost use Rattle.td_typed_trees.specs.declared.tree.Typed.TheVariants as typed;
ghost use Rattle.td_semantics.specs.Meanings.{no_names};
ghost use Rattle.td_semantics.specs.Trees.{AreBases, IsIn, tree_means};
ghost use Rattle.td_eval.specs.Added.{TellsAdded};
ghost use Rattle.td_eval.specs.ForProofs.Environments.{all_known};

use crate::evaluation::{relation_of, value_of_part};
use crate::forms::is_relvar;
use crate::lookup::Lookup;
use crate::valued::raise_of;
use std::alloc::Global;
use td_algebra::Fault;
use td_headings::{Catalogue, TypedExpr};
use td_meaning::Bindings;
use td_relations::Relation;
use td_semantics::Failure;
use td_syntax::tree::BinaryOperator;
use td_typed_trees::tree::Typed;

// The expression that the relvar is united with, if the tree is such a union.
fn union_operand(tree: &Typed, relvar: usize) -> Option<&Typed>
    ensures { MatchOption result (Unit {0}) (λ more. tree.now ≡ typed.Binary binary.Union (typed.Relvar relvar) more.now) }
{
    match tree {
        Typed::Binary(BinaryOperator::Union, first, more) => {
            if is_relvar(first.get(), relvar) {
                Some(more.get())
            } else {
                None
            }
        }
        _ => None,
    }
}

// The relation that this part of the expression has.
#[tactic(auto, unfolding(td_meaning::specs::Mean::rows_in))]
fn rows_of_part<L: Lookup>(
    alloc: Global,
    expr: &TypedExpr,
    lookup: &L,
    part: &Typed,
) -> Result<Relation, Fault>
    ensures { Answers result (rows_in (mean (relvars_at (all_known expr.now (L.relvars lookup.now))) (selection expr.now.selectors) part.now) no_names) }
{
    relation_of(value_of_part(alloc, expr, lookup, part, &Bindings::Nothing)?)
}

/// What an expression of the catalogue adds to the base relvar at the place, where it is that relvar united with more:
/// the relation that is more, which alone is evaluated. None where the expression has another form.
pub fn added_tuples<L: Lookup>(
    alloc: Global,
    catalogue: &Catalogue,
    expr: &TypedExpr,
    lookup: &L,
    relvar: usize,
) -> Result<Option<Relation>, Failure>
    requires expr { IsIn catalogue.now expr.now }
    requires bases { AreBases catalogue.now (L.relvars lookup.now) }
    requires base { is_base (slice_get catalogue.now.origins relvar) ≡ true }
    requires relation { (r : RowsData) × (L.relvars lookup.now relvar ≡ Ok r) }
    ensures { TellsAdded (L.relvars lookup.now relvar) (and_then (tree_means catalogue.now (L.relvars lookup.now) expr.now.tree no_attrs) spec.rows_of) result }
{
    catalogue.was_defined();
    let Some(part) = union_operand(expr.get().tree.get(), relvar) else {
        return Ok(None);
    };
    match rows_of_part(alloc, expr, lookup, part) {
        Ok(more) => Ok(Some(more)),
        Err(Fault::Raised(stop)) => Err(Failure::Raised(raise_of(stop))),
        Err(Fault::OutOfMemory) => Err(Failure::OutOfMemory),
    }
}
