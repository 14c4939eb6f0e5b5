//! The sources of assignments, each as one expression over its target.

ghost use Rattle.td_schema.specs.Results.{Gives};
ghost use Rattle.td_schema.specs.Scopes.{relvars_of, visible};
ghost use Rattle.td_typing.specs.ForProofs.Infer.{infer};
ghost use Rattle.td_headings.specs.ForProofs.Sources as spec;
ghost use Rattle.td_headings.specs.Statements.{source_of};

use sqlite_items::Boxed;
use std::alloc::Global;
use td_schema::error::TypeError;
use td_schema::kinds::relation_heading;
use td_schema::lists::names;
use td_schema::schema::Schema;
use td_schema::scope::Scope;
use td_syntax::script::Action;
use td_syntax::tree::{BinaryOperator, Expr, Extension, Named, UnaryOperator};
use td_typed_trees::tree::{Typed, Typing};
use td_typing::forms::{by_binary, by_unary, named, restricted, typed};
use td_typing::lists::extended;
use td_typing::typing::{items, typing};
use td_values::{Name, TypeKind};

// The target's tuples for which the condition is false.
#[tactic(auto, unfolding(crate::specs::ForProofs::Sources::others))]
fn type_remaining(
    alloc: Global,
    schema: &Schema,
    target: &Name,
    condition: &Expr,
) -> Result<Typing, TypeError>
    ensures { Gives (spec.others schema.now target.now condition.now) result }
{
    let scope = Scope::Relvars(schema);
    let relvar = named(alloc, target, &scope)?;
    let Some(heading) = relation_heading(&relvar.kind) else {
        return Err(TypeError::IllTyped);
    };
    let condition = typing(alloc, schema, condition, &Scope::Within(heading, &scope))?;
    let negation = by_unary(alloc, UnaryOperator::Not, condition)?;
    restricted(alloc, relvar, negation)
}

// The target's tuples for which the condition is true.
#[tactic(auto, unfolding(crate::specs::ForProofs::Sources::selected))]
fn type_selected(
    alloc: Global,
    schema: &Schema,
    target: &Name,
    condition: &Expr,
) -> Result<Typing, TypeError>
    ensures { Gives (spec.selected schema.now target.now condition.now) result }
{
    let scope = Scope::Relvars(schema);
    let relvar = named(alloc, target, &scope)?;
    let Some(heading) = relation_heading(&relvar.kind) else {
        return Err(TypeError::IllTyped);
    };
    let condition = typing(alloc, schema, condition, &Scope::Within(heading, &scope))?;
    restricted(alloc, relvar, condition)
}

// No tuples of the target.
#[tactic(auto, unfolding(crate::specs::ForProofs::Sources::no_tuples))]
fn no_tuples(alloc: Global, schema: &Schema, target: &Name) -> Result<Typing, TypeError>
    ensures { Gives (spec.no_tuples schema.now target.now) result }
{
    let relvar = named(alloc, target, &Scope::Relvars(schema))?;
    let Some(_) = relation_heading(&relvar.kind) else {
        return Err(TypeError::IllTyped);
    };
    let condition = typed(alloc, Typed::Truth(false), TypeKind::Boolean)?;
    restricted(alloc, relvar, condition)
}

// These tuples with new values.
#[tactic(auto, unfolding(crate::specs::ForProofs::Sources::changed))]
fn type_changed(
    alloc: Global,
    schema: &Schema,
    scope: &Scope,
    tuples: Typing,
    values: &[Named<Boxed<Expr>>],
) -> Result<Typing, TypeError>
    ensures { Gives (spec.changed schema.now (visible scope.now) values.now tuples) result }
{
    let Typing { tree, kind } = tuples;
    let Some(heading) = relation_heading(&kind) else {
        return Err(TypeError::IllTyped);
    };
    let found = items(alloc, schema, values, &Scope::Within(heading, &*scope))?;
    let names = names(alloc, values)?;
    extended(alloc, Extension::Assign, &names, tree, heading, found)
}

// INSERT as an expression: the union of the target and the tuples.
#[tactic(auto, unfolding(crate::specs::ForProofs::Sources::inserted))]
fn type_insertion(
    alloc: Global,
    schema: &Schema,
    target: &Name,
    tuples: &Expr,
) -> Result<Typing, TypeError>
    ensures { Gives (spec.inserted schema.now target.now tuples.now) result }
{
    let scope = Scope::Relvars(schema);
    let relvar = named(alloc, target, &scope)?;
    let tuples = typing(alloc, schema, tuples, &scope)?;
    by_binary(alloc, BinaryOperator::Union, relvar, tuples)
}

// UPDATE without WHERE as an expression: every tuple of the target changed.
#[tactic(auto, unfolding(crate::specs::ForProofs::Sources::all_updated))]
fn type_update_of_all(
    alloc: Global,
    schema: &Schema,
    target: &Name,
    values: &[Named<Boxed<Expr>>],
) -> Result<Typing, TypeError>
    ensures { Gives (spec.all_updated schema.now target.now values.now) result }
{
    let scope = Scope::Relvars(schema);
    let relvar = named(alloc, target, &scope)?;
    type_changed(alloc, schema, &scope, relvar, values)
}

// UPDATE WHERE as an expression: the tuples that the condition leaves, and those that it selects, changed.
#[tactic(auto, unfolding(crate::specs::ForProofs::Sources::updated))]
fn type_update(
    alloc: Global,
    schema: &Schema,
    target: &Name,
    condition: &Expr,
    values: &[Named<Boxed<Expr>>],
) -> Result<Typing, TypeError>
    ensures { Gives (spec.updated schema.now target.now condition.now values.now) result }
{
    let others = type_remaining(alloc, schema, target, condition)?;
    let selected = type_selected(alloc, schema, target, condition)?;
    let changed = type_changed(alloc, schema, &Scope::Relvars(schema), selected, values)?;
    by_binary(alloc, BinaryOperator::Union, others, changed)
}

// The source of an assignment of any form, as one typed expression over the relvars.
fn found(alloc: Global, schema: &Schema, action: &Action) -> Result<Typing, TypeError>
    ensures { Gives (spec.found schema.now action.now) result }
{
    match action {
        Action::Assign(_, source) => typing(alloc, schema, source.get(), &Scope::Relvars(schema)),
        Action::Insert(target, tuples) => type_insertion(alloc, schema, target, tuples.get()),
        Action::Delete(target, None) => no_tuples(alloc, schema, target),
        Action::Delete(target, Some(condition)) => type_remaining(
            alloc,
            schema,
            target,
            condition.get(),
        ),
        Action::Update(target, None, values) => {
            type_update_of_all(alloc, schema, target, values.as_slice())
        }
        Action::Update(target, Some(condition), values) => {
            type_update(alloc, schema, target, condition.get(), values.as_slice())
        }
    }
}

/// The source of an action, as one expression over its target. The condition of an UPDATE stands in it twice, and is
/// typed twice.
pub(crate) fn source(alloc: Global, schema: &Schema, action: &Action) -> Result<Typing, TypeError>
    ensures { Gives (infer schema.now (source_of action.now) (relvars_of schema.now)) result }
{
    found(alloc, schema, action)
}
