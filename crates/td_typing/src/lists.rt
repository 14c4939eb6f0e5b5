//! What forms with lists make of the typings of their operands.

ghost use Rattle.std.specs.Prelude.{◌≡◌, IfOk};
ghost use Rattle.std.specs.List.{list_all};
ghost use Rattle.td_schema.specs.Kinds as kinds;
ghost use Rattle.td_schema.specs.Results.{Gives};
ghost use Rattle.td_tuples.specs.declared.items.Summary.TheVariants as summary;
ghost use Rattle.td_typing.specs.ForProofs.Infer as spec;
ghost use Rattle.td_typing.specs.Trees as trees;
ghost use Rattle.td_values.specs.declared.TypeKind.TheVariants as type_kind;

use crate::forms::{summary_of, typed};
use crate::parts::{Grouping, Operands};
use sqlite_items::{Boxed, Items};
use std::alloc::{AllocError, Global};
use td_schema::forms::may_extend;
use td_schema::kinds::{is_part, relation_heading, same_heading, tuple_heading};
use td_schema::lists::{are_distinct, attributes_of};
use td_schema::operators::suits;
use td_schema::written::heading_written;
use td_schema::{Schema, TypeError};
use td_syntax::tree::{Aggregate, Attributes, Extension, Named, TypeExpr};
use td_tuples::{Item, Summary, columns_in, columns_of, extended_columns};
use td_typed_trees::tree::{Typed, TypedGroups, Typing};
use td_values::{Heading, Name, TdType, TypeKind};

/// The new attribute of this name.
pub(crate) fn item_of(name: &Name, a: Typing) -> Result<Item<Boxed<Typed>>, AllocError>
    ensures { IfOk result (λ i. i ≡ trees.item_of name.now a.kind a.tree) }
{
    Ok(Item {
        name: name.copy()?,
        ty: TdType { kind: a.kind },
        term: a.tree,
    })
}

/// TUPLE, whose items have these names.
#[tactic(auto, unfolding(crate::specs::ForProofs::Infer::tuple_of))]
pub(crate) fn tuple_of(
    alloc: Global,
    names: &[Name],
    items: Items<Item<Boxed<Typed>>>,
) -> Result<Typing, TypeError>
    ensures { Gives (spec.tuple_of names.now items) result }
{
    if !are_distinct(alloc, names)? {
        return Err(TypeError::IllTyped);
    }
    let kind = TypeKind::Tuple(columns_of(alloc, items.as_slice())?);
    Ok(typed(alloc, Typed::Tuple(items), kind)?)
}

/// EXTEND of a relation of the heading by items of these names.
#[tactic(auto, unfolding(crate::specs::ForProofs::Infer::extended))]
pub fn extended(
    alloc: Global,
    extension: Extension,
    names: &[Name],
    relation: Boxed<Typed>,
    heading: &Heading,
    items: Items<Item<Boxed<Typed>>>,
) -> Result<Typing, TypeError>
    ensures { Gives (spec.extended extension names.now relation heading.now items) result }
{
    if !may_extend(alloc, extension, names, heading)? {
        return Err(TypeError::IllTyped);
    }
    let kind = TypeKind::Relation(extended_columns(alloc, items.as_slice(), heading)?);
    Ok(typed(alloc, Typed::Extend(relation, items), kind)?)
}

// Whether a kind is that of the tuples of this heading.
fn is_tuple_of(kind: &TypeKind, heading: &Heading) -> bool
    ensures { result ≡ kinds.same_kind (type_kind.Tuple heading.now) kind.now }
{
    match tuple_heading(kind) {
        Some(own) => same_heading(heading, own),
        None => false,
    }
}

// Whether each of the kinds is that of the tuples of this heading.
fn are_tuples_of(all: &[TypeKind], heading: &Heading) -> bool
    ensures { result ≡ list_all (kinds.same_kind (type_kind.Tuple heading.now)) all.now }
{
    all.iter().all(|kind| is_tuple_of(kind, heading))
}

// The relation of these operands, which are to be tuples of the heading; ill typed where one is not.
#[tactic(auto, unfolding(crate::specs::ForProofs::Infer::relation_of))]
fn relation_of(alloc: Global, operands: Operands, heading: Heading) -> Result<Typing, TypeError>
    ensures { Gives (spec.relation_of operands heading) result }
{
    if !are_tuples_of(operands.kinds.as_slice(), &heading) {
        return Err(TypeError::IllTyped);
    }
    let kind = TypeKind::Relation(heading.copy()?);
    Ok(typed(alloc, Typed::Relation(heading, operands.trees), kind)?)
}

// The heading of the first, which is a tuple.
fn first_heading(all: &[TypeKind]) -> Result<Heading, TypeError>
    ensures { Gives (spec.first_heading all.now) result }
{
    let Some(first) = all.first() else {
        return Err(TypeError::IllTyped);
    };
    match tuple_heading(first) {
        Some(heading) => Ok(heading.copy()?),
        None => Err(TypeError::IllTyped),
    }
}

// The heading that is written, or where none is written that of the first operand.
fn heading_meant(
    alloc: Global,
    schema: &Schema,
    written: &Option<Items<Named<TypeExpr>>>,
    all: &[TypeKind],
) -> Result<Heading, TypeError>
    ensures { Gives (spec.heading_meant schema.now written.now all.now) result }
{
    match written {
        Some(fields) => heading_written(alloc, schema, fields.as_slice()),
        None => first_heading(all),
    }
}

/// RELATION, with the heading that is written, if it is.
#[tactic(auto, unfolding(crate::specs::ForProofs::Infer::gathered))]
pub(crate) fn gathered(
    alloc: Global,
    schema: &Schema,
    written: &Option<Items<Named<TypeExpr>>>,
    operands: Operands,
) -> Result<Typing, TypeError>
    ensures { Gives (spec.gathered schema.now written.now operands) result }
{
    let heading = heading_meant(alloc, schema, written, operands.kinds.as_slice())?;
    relation_of(alloc, operands, heading)
}

/// The groups of SUMMARIZE PER, of a relation of the heading.
#[tactic(auto, unfolding(crate::specs::ForProofs::Infer::grouped_per))]
pub(crate) fn grouped_per(heading: &Heading, a: Typing) -> Result<Grouping, TypeError>
    ensures { Gives (spec.grouped_per heading.now a) result }
{
    let Some(own) = relation_heading(&a.kind) else {
        return Err(TypeError::IllTyped);
    };
    if !is_part(own, heading) {
        return Err(TypeError::IllTyped);
    }
    let heading = own.copy()?;
    Ok(Grouping {
        groups: TypedGroups::Per(a.tree),
        heading,
    })
}

/// The groups of SUMMARIZE BY, of a relation of the heading.
#[tactic(auto, unfolding(crate::specs::ForProofs::Infer::grouped_by))]
pub(crate) fn grouped_by(
    alloc: Global,
    heading: &Heading,
    attributes: &Attributes,
) -> Result<Grouping, TypeError>
    ensures { Gives (spec.grouped_by heading.now attributes.now) result }
{
    let names = attributes_of(alloc, attributes, heading)?;
    let heading = columns_in(alloc, names.as_slice(), heading)?;
    Ok(Grouping {
        groups: TypedGroups::By(names),
        heading,
    })
}

/// The one group of SUMMARIZE without PER and BY.
pub(crate) fn ungrouped(alloc: Global) -> Result<Grouping, AllocError>
    ensures { IfOk result (λ g. g ≡ spec.ungrouped) }
{
    Ok(Grouping {
        groups: TypedGroups::Whole,
        heading: Heading::new(alloc)?,
    })
}

/// COUNT, as a new attribute.
pub(crate) fn counted(name: &Name) -> Result<Item<Summary<Boxed<Typed>>>, AllocError>
    ensures { IfOk result (λ i. i ≡ trees.item_of name.now type_kind.Integer summary.Count) }
{
    Ok(Item {
        name: name.copy()?,
        ty: TdType {
            kind: TypeKind::Integer,
        },
        term: Summary::Count,
    })
}

/// An aggregate of terms, as a new attribute.
#[tactic(auto, unfolding(crate::specs::ForProofs::Infer::summed))]
pub(crate) fn summed(
    name: &Name,
    aggregate: Aggregate,
    a: Typing,
) -> Result<Item<Summary<Boxed<Typed>>>, TypeError>
    ensures { Gives (spec.summed name.now aggregate a) result }
{
    if !suits(aggregate, &a.kind) {
        return Err(TypeError::IllTyped);
    }
    Ok(Item {
        name: name.copy()?,
        ty: TdType { kind: a.kind },
        term: summary_of(aggregate, a.tree),
    })
}

/// SUMMARIZE by items of these names.
#[tactic(auto, unfolding(crate::specs::ForProofs::Infer::summarized))]
pub(crate) fn summarized(
    alloc: Global,
    names: &[Name],
    relation: Boxed<Typed>,
    grouping: Grouping,
    items: Items<Item<Summary<Boxed<Typed>>>>,
) -> Result<Typing, TypeError>
    ensures { Gives (spec.summarized names.now relation grouping items) result }
{
    if !may_extend(alloc, Extension::Add, names, &grouping.heading)? {
        return Err(TypeError::IllTyped);
    }
    let heading = extended_columns(alloc, items.as_slice(), &grouping.heading)?;
    let tree = Typed::Summarize(relation, grouping.groups, items);
    Ok(typed(alloc, tree, TypeKind::Relation(heading))?)
}

/// WITH of these names.
#[tactic(auto, unfolding(crate::specs::ForProofs::Infer::with_tree))]
pub(crate) fn with_tree(
    alloc: Global,
    names: Items<Named<Boxed<Typed>>>,
    body: Typing,
) -> Result<Typing, TypeError>
    ensures { Gives (spec.with_tree names body) result }
{
    Ok(typed(alloc, Typed::With(names, body.tree), body.kind)?)
}
