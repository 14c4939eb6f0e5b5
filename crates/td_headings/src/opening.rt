//! The expressions of definitions, and the keys of relvars.

ghost use Rattle.std.specs.Prelude.{◌≡◌};
ghost use Rattle.td_schema.specs.Results.{Gives};
ghost use Rattle.td_headings.specs.ForProofs.After as spec;

use sqlite_items::{Boxed, Items};
use std::alloc::Global;
use td_schema::error::TypeError;
use td_schema::kinds::{is_boolean, relation_heading, same_heading};
use td_schema::lists::attributes_of;
use td_schema::schema::Schema;
use td_schema::scope::Scope;
use td_schema::written::{heading_written, kind_columns};
use td_syntax::script::Opening;
use td_syntax::tree::{Attributes, Expr, Named};
use td_tuples::Shared;
use td_typed_trees::tree::{Typed, Typing};
use td_typing::typing::typing;
use td_values::{Heading, Name, TypeKind};

// The tree of a condition.
#[tactic(auto, unfolding(crate::specs::ForProofs::After::truth_of))]
fn truth_of(alloc: Global, typing: Typing) -> Result<Shared<Typed>, TypeError>
    ensures { Gives (spec.truth_of typing) result }
{
    if !is_boolean(&typing.kind) {
        return Err(TypeError::IllTyped);
    }
    Ok(Shared::new(alloc, typing.tree.into_inner())?)
}

// The tree and the heading of a relation.
#[tactic(auto, unfolding(crate::specs::ForProofs::After::value_of))]
fn value_of(alloc: Global, typing: Typing) -> Result<(Shared<Typed>, Heading), TypeError>
    ensures { Gives (spec.value_of typing) result }
{
    let Some(heading) = relation_heading(&typing.kind) else {
        return Err(TypeError::IllTyped);
    };
    let heading = heading.copy()?;
    Ok((Shared::new(alloc, typing.tree.into_inner())?, heading))
}

// The constraint of a type, as a condition; it sees the components alone, and no relvars.
#[tactic(auto, unfolding(crate::specs::ForProofs::After::limit_after))]
fn limit(
    alloc: Global,
    schema: &Schema,
    components: &[Named<TypeKind>],
    expr: &Expr,
) -> Result<Shared<Typed>, TypeError>
    ensures { Gives (spec.limit_after schema.now components.now expr.now) result }
{
    let heading = kind_columns(alloc, components)?;
    let typing = typing(
        alloc,
        schema,
        expr,
        &Scope::Within(&heading, &Scope::Nothing),
    )?;
    truth_of(alloc, typing)
}

/// The tree of a possrep's CONSTRAINT, if it has one: it sees the components.
pub(crate) fn limits(
    alloc: Global,
    schema: &Schema,
    components: &[Named<TypeKind>],
    expr: &Option<Boxed<Expr>>,
) -> Result<Option<Shared<Typed>>, TypeError>
    ensures { Gives (spec.limits_after schema.now components.now expr.now) result }
{
    match expr {
        Some(expr) => Ok(Some(limit(alloc, schema, components, expr.get())?)),
        None => Ok(None),
    }
}

/// The tree and the heading of a relation over the relvars.
#[tactic(auto, unfolding(crate::specs::ForProofs::After::value_after))]
pub(crate) fn value(
    alloc: Global,
    schema: &Schema,
    expr: &Expr,
) -> Result<(Shared<Typed>, Heading), TypeError>
    ensures { Gives (spec.value_after schema.now expr.now) result }
{
    let typing = typing(alloc, schema, expr, &Scope::Relvars(&*schema))?;
    value_of(alloc, typing)
}

/// The tree of a condition over the relvars.
#[tactic(auto, unfolding(crate::specs::ForProofs::After::condition_after))]
pub(crate) fn condition(
    alloc: Global,
    schema: &Schema,
    expr: &Expr,
) -> Result<Shared<Typed>, TypeError>
    ensures { Gives (spec.condition_after schema.now expr.now) result }
{
    let typing = typing(alloc, schema, expr, &Scope::Relvars(&*schema))?;
    truth_of(alloc, typing)
}

// The heading of a value beside which one is written.
fn heading_beside_written(
    written: Heading,
    tree: Shared<Typed>,
    heading: Heading,
) -> Result<(Heading, Option<Shared<Typed>>), TypeError>
    ensures { Gives (spec.beside written (tree, heading)) result }
{
    if !same_heading(&written, &heading) {
        return Err(TypeError::IllTyped);
    }
    Ok((heading, Some(tree)))
}

/// The heading of a base relvar, and what it holds at first, if that is written.
pub(crate) fn type_opening(
    alloc: Global,
    schema: &Schema,
    opening: &Opening,
) -> Result<(Heading, Option<Shared<Typed>>), TypeError>
    ensures { Gives (spec.opening_after schema.now opening.now) result }
{
    match opening {
        Opening::Empty(fields) => Ok((heading_written(alloc, schema, fields.as_slice())?, None)),
        Opening::Init(None, expr) => {
            let (tree, heading) = value(alloc, schema, expr.get())?;
            Ok((heading, Some(tree)))
        }
        Opening::Init(Some(fields), expr) => {
            let written = heading_written(alloc, schema, fields.as_slice())?;
            let (tree, heading) = value(alloc, schema, expr.get())?;
            heading_beside_written(written, tree, heading)
        }
    }
}

/// The attributes of each key.
pub(crate) fn keys_of(
    alloc: Global,
    heading: &Heading,
    keys: &[Attributes],
) -> Result<Items<Items<Name>>, TypeError>
    ensures { Gives (spec.keys_after heading.now keys.now) result }
{
    let mut found = Items::new(alloc);
    for key in keys {
        found.push(attributes_of(alloc, key, heading)?)?;
    }
    Ok(found)
}
