//! Types as they are written.

ghost use Rattle.std.specs.Prelude.{◌≡◌, IfOk};
ghost use Rattle.std.specs.Option.{is_some};
ghost use Rattle.td_schema.specs.Results.{Gives, where_true};
ghost use Rattle.td_schema.specs.Schemas.{type_named};
ghost use Rattle.td_schema.specs.Written as spec;
ghost use Rattle.td_values.specs.declared.TypeKind.TheVariants as kind;

use crate::error::TypeError;
use crate::lists::{are_distinct, names};
use crate::schema::Schema;
use sqlite_items::Items;
use std::alloc::{AllocError, Global};
use td_syntax::tree::{Named, TypeExpr};
use td_values::{Heading, Name, TdType, TypeKind};

/// The heading of these fields. Of two of one name the first counts.
pub fn kind_columns(alloc: Global, fields: &[Named<TypeKind>]) -> Result<Heading, AllocError>
    ensures { IfOk result (λ h. h ≡ spec.kind_columns fields.now) }
{
    let mut heading = Heading::new(alloc)?;
    for field in fields {
        let ty = TdType {
            kind: field.value.copy()?,
        };
        heading.insert(alloc, field.name.copy()?, ty)?;
    }
    Ok(heading)
}

/// The heading of these fields, whose names are distinct.
pub(crate) fn distinct_columns(
    alloc: Global,
    fields: &[Named<TypeKind>],
) -> Result<Heading, TypeError>
    ensures { Gives (spec.distinct_columns fields.now) result }
{
    let names = names(alloc, fields)?;
    if !are_distinct(alloc, &names)? {
        return Err(TypeError::IllTyped);
    }
    Ok(kind_columns(alloc, fields)?)
}

// The kinds of these parts, each with its name.
#[cycle(written)]
fn all_written(
    alloc: Global,
    schema: &Schema,
    parts: &[Named<TypeExpr>],
) -> Result<Items<Named<TypeKind>>, TypeError>
    ensures { Gives (spec.all_named (spec.written schema.now) parts.now) result }
{
    let mut kinds = Items::new(alloc);
    for part in parts {
        let name = part.name.copy()?;
        let value = written(alloc, schema, &part.value)?;
        kinds.push(Named { name, value })?;
    }
    Ok(kinds)
}

/// The heading as it is written.
#[cycle(written)]
#[tactic(auto, unfolding(crate::specs::Written::heading_written))]
pub fn heading_written(
    alloc: Global,
    schema: &Schema,
    fields: &[Named<TypeExpr>],
) -> Result<Heading, TypeError>
    ensures { Gives (spec.heading_written schema.now fields.now) result }
{
    let fields = all_written(alloc, schema, fields)?;
    distinct_columns(alloc, fields.as_slice())
}

// The kind of a user-defined type that is written as its name. It is ill typed where the schema has no such type.
fn user_kind(schema: &Schema, name: &Name) -> Result<TypeKind, TypeError>
    ensures { Gives (where_true (is_some (type_named schema.now name.now)) (kind.User name.now)) result }
{
    match schema.type_named(name) {
        Some(_) => Ok(TypeKind::User(name.copy()?)),
        None => Err(TypeError::IllTyped),
    }
}

/// The kind of the type as it is written. A type's name is that of a type which is defined, and a heading's names are
/// distinct.
#[cycle(written)]
pub fn written(alloc: Global, schema: &Schema, ty: &TypeExpr) -> Result<TypeKind, TypeError>
    ensures { Gives (spec.written schema.now ty.now) result }
{
    match ty {
        TypeExpr::Boolean => Ok(TypeKind::Boolean),
        TypeExpr::Integer => Ok(TypeKind::Integer),
        TypeExpr::Char => Ok(TypeKind::Char),
        TypeExpr::User(name) => user_kind(schema, name),
        TypeExpr::Tuple(fields) => match heading_written(alloc, schema, fields.as_slice()) {
            Ok(heading) => Ok(TypeKind::Tuple(heading)),
            Err(error) => Err(error),
        },
        TypeExpr::Relation(fields) => match heading_written(alloc, schema, fields.as_slice()) {
            Ok(heading) => Ok(TypeKind::Relation(heading)),
            Err(error) => Err(error),
        },
    }
}

/// The components of a possrep as they are written, whose names are distinct.
#[tactic(auto, unfolding(crate::specs::Written::components_written))]
pub fn components_written(
    alloc: Global,
    schema: &Schema,
    components: &[Named<TypeExpr>],
) -> Result<Items<Named<TypeKind>>, TypeError>
    ensures { Gives (spec.components_written schema.now components.now) result }
{
    let kinds = all_written(alloc, schema, components)?;
    let names = names(alloc, kinds.as_slice())?;
    if !are_distinct(alloc, &names)? {
        return Err(TypeError::IllTyped);
    }
    Ok(kinds)
}
