//! The values of expressions of a catalogue, which are of their types.

ghost use Rattle.std.specs.Prelude.{◌≡◌, IfOk, IsOk, Ok};
ghost use Rattle.td_values.specs.Data.{no_attrs};
ghost use Rattle.td_values.specs.declared.TypeKind.TheVariants as type_kind;
ghost use Rattle.td_algebra.specs.Raising.{and_then};
ghost use Rattle.td_operators.specs.Values as spec;
ghost use Rattle.td_type_soundness.specs.Meanings.{HasKind, IsError, IsRelationOver};
ghost use Rattle.td_semantics.specs.Raises.{Tells, stop_of};
ghost use Rattle.td_semantics.specs.Trees.{AreBases, IsIn, tree_means};

use crate::evaluation::eval;
use crate::lookup::Lookup;
use std::alloc::Global;
use td_algebra::{Fault, Stop};
use td_headings::{Catalogue, TypedExpr};
use td_relations::Relation;
use td_semantics::Failure;
use td_values::{Heading, Kind, Raise, Tuple, Value};

// The error of the language that stopped evaluation.
pub(crate) fn raise_of(stop: Stop) -> Raise
    requires { IsError stop }
    ensures { stop_of result ≡ stop }
{
    match stop {
        Stop::Untyped => unreachable!(),
        Stop::Error(raise) => raise,
    }
}

/// The value of an expression of the catalogue, in which no tuple is in scope.
pub fn value<L: Lookup>(
    alloc: Global,
    catalogue: &Catalogue,
    expr: &TypedExpr,
    lookup: &L,
) -> Result<Value, Failure>
    requires expr { IsIn catalogue.now expr.now }
    requires bases { AreBases catalogue.now (L.relvars lookup.now) }
    ensures told { Tells result (tree_means catalogue.now (L.relvars lookup.now) expr.now.tree no_attrs) }
    ensures typed { IfOk result (HasKind catalogue.now.schema expr.now.kind) }
{
    catalogue.was_defined();
    let no_tuple = Tuple::of(alloc, Vec::new(alloc))?;
    match eval(alloc, expr, lookup, &no_tuple) {
        Ok(value) => Ok(value),
        Err(Fault::Raised(stop)) => Err(Failure::Raised(raise_of(stop))),
        Err(Fault::OutOfMemory) => Err(Failure::OutOfMemory),
    }
}

// The relation that the value is, of which the caller knows that it is one.
fn relation_in(value: Value) -> Relation
    requires { IsOk (spec.rows_of value) }
    ensures { spec.rows_of value ≡ Ok result }
{
    match value.kind {
        Kind::Relation(rows) => Relation::of(rows),
        _ => unreachable!(),
    }
}

/// The relation that such an expression has, where it is of that type.
pub fn relation<L: Lookup>(
    alloc: Global,
    catalogue: &Catalogue,
    heading: &Heading,
    expr: &TypedExpr,
    lookup: &L,
) -> Result<Relation, Failure>
    requires expr { IsIn catalogue.now expr.now }
    requires kind { expr.now.kind ≡ type_kind.Relation heading.now }
    requires bases { AreBases catalogue.now (L.relvars lookup.now) }
    ensures told { Tells result (and_then (tree_means catalogue.now (L.relvars lookup.now) expr.now.tree no_attrs) spec.rows_of) }
    ensures typed { IfOk result (IsRelationOver catalogue.now.schema heading.now) }
{
    match value(alloc, catalogue, expr, lookup) {
        Ok(value) => Ok(relation_in(value)),
        Err(failure) => Err(failure),
    }
}

// The truth value that the value is, of which the caller knows that it is one.
fn truth_in(value: Value) -> bool
    requires { IsOk (spec.truth_of value) }
    ensures { spec.truth_of value ≡ Ok result }
{
    match value.kind {
        Kind::Boolean(truth) => truth,
        _ => unreachable!(),
    }
}

/// The truth value that such an expression has, where it is of that type.
pub fn truth<L: Lookup>(
    alloc: Global,
    catalogue: &Catalogue,
    expr: &TypedExpr,
    lookup: &L,
) -> Result<bool, Failure>
    requires expr { IsIn catalogue.now expr.now }
    requires kind { expr.now.kind ≡ type_kind.Boolean }
    requires bases { AreBases catalogue.now (L.relvars lookup.now) }
    ensures { Tells result (and_then (tree_means catalogue.now (L.relvars lookup.now) expr.now.tree no_attrs) spec.truth_of) }
{
    match value(alloc, catalogue, expr, lookup) {
        Ok(value) => Ok(truth_in(value)),
        Err(failure) => Err(failure),
    }
}
