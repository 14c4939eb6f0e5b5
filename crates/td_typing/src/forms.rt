//! What forms make of the typings of their operands.

ghost use Rattle.std.specs.Prelude.{◌≡◌, [], ◌∷◌, IfOk};
ghost use Rattle.td_schema.specs.Results.{Gives};
ghost use Rattle.td_schema.specs.Scopes.{visible};
ghost use Rattle.td_typed_trees.specs.declared.tree.Typed.TheVariants as t;
ghost use Rattle.td_typing.specs.ForProofs.Infer as spec;
ghost use Rattle.td_typing.specs.Trees as trees;

use sqlite_items::{Boxed, Items};
use std::alloc::{AllocError, Global};
use td_schema::forms::{
    from_kind, kind_heading, nested_heading, part_kind, renamed_kind, unnested_heading,
};
use td_schema::kinds::{is_boolean, relation_heading, same_kind};
use td_schema::lists::{attributes_of, pairs_of};
use td_schema::operators::{binary_kind, suits, unary_kind};
use td_schema::{Meant, Scope, TypeError};
use td_syntax::tree::{Aggregate, Attributes, BinaryOperator, Nesting, Renaming, UnaryOperator};
use td_tuples::Summary;
use td_typed_trees::tree::{Typed, Typing};
use td_values::{Heading, Name, TypeKind};

/// The tree with its kind.
pub fn typed(alloc: Global, tree: Typed, kind: TypeKind) -> Result<Typing, AllocError>
    ensures { IfOk result (λ x. x ≡ trees.typing tree kind) }
{
    Ok(Typing {
        tree: Boxed::new(alloc, tree)?,
        kind,
    })
}

// A relation without attributes, of these tuples.
fn of_no_attributes(alloc: Global, tuples: Items<Boxed<Typed>>) -> Result<Typing, AllocError>
    ensures { IfOk result (λ x. x ≡ spec.of_no_attributes tuples) }
{
    let heading = Heading::new(alloc)?;
    let kind = TypeKind::Relation(heading.copy()?);
    typed(alloc, Typed::Relation(heading, tuples), kind)
}

/// TABLE_DEE
pub(crate) fn table_dee(alloc: Global) -> Result<Typing, AllocError>
    ensures { IfOk result (λ x. x ≡ spec.of_no_attributes (t.Tuple [] ∷ [])) }
{
    let mut tuples = Items::new(alloc);
    tuples.push(Boxed::new(alloc, Typed::Tuple(Items::new(alloc)))?)?;
    of_no_attributes(alloc, tuples)
}

/// TABLE_DUM
pub(crate) fn table_dum(alloc: Global) -> Result<Typing, AllocError>
    ensures { IfOk result (λ x. x ≡ spec.of_no_attributes []) }
{
    of_no_attributes(alloc, Items::new(alloc))
}

/// What a name in scope means.
#[tactic(auto, unfolding(crate::specs::ForProofs::Infer::infer_name))]
pub fn named(alloc: Global, name: &Name, scope: &Scope) -> Result<Typing, TypeError>
    ensures { Gives (spec.infer_name name.now (visible scope.now)) result }
{
    match scope.find(name)? {
        Some(Meant::Local(kind)) => Ok(typed(alloc, Typed::Local(name.copy()?), kind)?),
        Some(Meant::Relvar(place, heading)) => {
            Ok(typed(alloc, Typed::Relvar(place), TypeKind::Relation(heading))?)
        }
        None => Err(TypeError::IllTyped),
    }
}

/// The operator over a typed operand; ill typed where the operator does not take an operand of that kind.
#[tactic(auto, unfolding(crate::specs::ForProofs::Infer::by_unary))]
pub fn by_unary(alloc: Global, operator: UnaryOperator, a: Typing) -> Result<Typing, TypeError>
    ensures { Gives (spec.by_unary operator a) result }
{
    let kind = unary_kind(operator, &a.kind)?;
    Ok(typed(alloc, Typed::Unary(operator, a.tree), kind)?)
}

/// The operator between two typed operands; ill typed where the operator does not take operands of these kinds.
#[tactic(auto, unfolding(crate::specs::ForProofs::Infer::by_binary))]
pub fn by_binary(
    alloc: Global,
    operator: BinaryOperator,
    a: Typing,
    b: Typing,
) -> Result<Typing, TypeError>
    ensures { Gives (spec.by_binary operator a b) result }
{
    let kind = binary_kind(alloc, operator, &a.kind, &b.kind)?;
    Ok(typed(alloc, Typed::Binary(operator, a.tree, b.tree), kind)?)
}

/// The attribute of a tuple.
#[tactic(auto, unfolding(crate::specs::ForProofs::Infer::by_from))]
pub(crate) fn by_from(alloc: Global, name: &Name, a: Typing) -> Result<Typing, TypeError>
    ensures { Gives (spec.by_from name.now a) result }
{
    let kind = from_kind(name, &a.kind)?;
    Ok(typed(alloc, Typed::From(name.copy()?, a.tree), kind)?)
}

/// The part of a relation or of a tuple.
#[tactic(auto, unfolding(crate::specs::ForProofs::Infer::by_project))]
pub(crate) fn by_project(
    alloc: Global,
    attributes: &Attributes,
    a: Typing,
) -> Result<Typing, TypeError>
    ensures { Gives (spec.by_project attributes.now a) result }
{
    let Some(heading) = kind_heading(&a.kind) else {
        return Err(TypeError::IllTyped);
    };
    let names = attributes_of(alloc, attributes, heading)?;
    let kind = part_kind(alloc, names.as_slice(), &a.kind)?;
    Ok(typed(alloc, Typed::Project(a.tree, names), kind)?)
}

/// RENAME of a relation; ill typed where the operand's kind does not bear these renamings.
#[tactic(auto, unfolding(crate::specs::ForProofs::Infer::by_rename))]
pub(crate) fn by_rename(
    alloc: Global,
    renamings: &[Renaming],
    a: Typing,
) -> Result<Typing, TypeError>
    ensures { Gives (spec.by_rename renamings.now a) result }
{
    let items = pairs_of(alloc, renamings)?;
    let kind = renamed_kind(alloc, items.as_slice(), &a.kind)?;
    Ok(typed(alloc, Typed::Rename(a.tree, items), kind)?)
}

// GROUP and WRAP of these names.
#[tactic(auto, unfolding(crate::specs::ForProofs::Infer::nested))]
fn nested(
    alloc: Global,
    nesting: Nesting,
    names: Items<Name>,
    name: &Name,
    heading: &Heading,
    tree: Boxed<Typed>,
) -> Result<Typing, TypeError>
    ensures { Gives (spec.nested nesting names name.now heading.now tree) result }
{
    let kind = TypeKind::Relation(nested_heading(alloc, nesting, names.as_slice(), name, heading)?);
    Ok(typed(alloc, Typed::Nest(nesting, tree, names, name.copy()?), kind)?)
}

/// GROUP and WRAP
#[tactic(auto, unfolding(crate::specs::ForProofs::Infer::by_nest))]
pub(crate) fn by_nest(
    alloc: Global,
    nesting: Nesting,
    attributes: &Attributes,
    name: &Name,
    a: Typing,
) -> Result<Typing, TypeError>
    ensures { Gives (spec.by_nest nesting attributes.now name.now a) result }
{
    let Typing { tree, kind } = a;
    let Some(heading) = relation_heading(&kind) else {
        return Err(TypeError::IllTyped);
    };
    let names = attributes_of(alloc, attributes, heading)?;
    nested(alloc, nesting, names, name, heading, tree)
}

/// UNGROUP and UNWRAP
#[tactic(auto, unfolding(crate::specs::ForProofs::Infer::by_unnest))]
pub(crate) fn by_unnest(
    alloc: Global,
    nesting: Nesting,
    name: &Name,
    a: Typing,
) -> Result<Typing, TypeError>
    ensures { Gives (spec.by_unnest nesting name.now a) result }
{
    let Some(heading) = relation_heading(&a.kind) else {
        return Err(TypeError::IllTyped);
    };
    let kind = TypeKind::Relation(unnested_heading(alloc, nesting, name, heading)?);
    Ok(typed(alloc, Typed::Unnest(nesting, a.tree, name.copy()?), kind)?)
}

/// The summary that computes this aggregate of the term over each group.
pub(crate) fn summary_of(aggregate: Aggregate, term: Boxed<Typed>) -> Summary<Boxed<Typed>>
    ensures { result ≡ trees.summary_of aggregate term }
{
    match aggregate {
        Aggregate::Sum => Summary::Sum(term),
        Aggregate::Max => Summary::Max(term),
        Aggregate::Min => Summary::Min(term),
        Aggregate::And => Summary::And(term),
        Aggregate::Or => Summary::Or(term),
    }
}

/// An aggregate of a term over a relation.
#[tactic(auto, unfolding(crate::specs::ForProofs::Infer::aggregated))]
pub(crate) fn aggregated(
    alloc: Global,
    aggregate: Aggregate,
    relation: Boxed<Typed>,
    term: Typing,
) -> Result<Typing, TypeError>
    ensures { Gives (spec.aggregated aggregate relation term) result }
{
    if !suits(aggregate, &term.kind) {
        return Err(TypeError::IllTyped);
    }
    let tree = Typed::Aggregate(relation, summary_of(aggregate, term.tree));
    Ok(typed(alloc, tree, term.kind)?)
}

// The one attribute of a heading, as a term.
#[tactic(auto, unfolding(crate::specs::ForProofs::Infer::lone_term))]
fn lone_term(alloc: Global, heading: &Heading) -> Result<Typing, TypeError>
    ensures { Gives (spec.lone_term heading.now) result }
{
    match heading.fields() {
        [(name, ty)] => Ok(typed(alloc, Typed::Local(name.copy()?), ty.kind.copy()?)?),
        _ => Err(TypeError::IllTyped),
    }
}

/// An aggregate over a relation of one attribute, which is the term.
#[tactic(auto, unfolding(crate::specs::ForProofs::Infer::by_lone))]
pub(crate) fn by_lone(alloc: Global, aggregate: Aggregate, a: Typing) -> Result<Typing, TypeError>
    ensures { Gives (spec.by_lone aggregate a) result }
{
    let Some(heading) = relation_heading(&a.kind) else {
        return Err(TypeError::IllTyped);
    };
    let term = lone_term(alloc, heading)?;
    aggregated(alloc, aggregate, a.tree, term)
}

/// The tree of a condition.
#[tactic(auto, unfolding(crate::specs::ForProofs::Infer::truth_tree))]
pub(crate) fn truth_tree(a: Typing) -> Result<Boxed<Typed>, TypeError>
    ensures { Gives (spec.truth_tree a) result }
{
    if !is_boolean(&a.kind) {
        return Err(TypeError::IllTyped);
    }
    Ok(a.tree)
}

/// IF, with the tree of its condition.
#[tactic(auto, unfolding(crate::specs::ForProofs::Infer::chosen))]
pub(crate) fn chosen(
    alloc: Global,
    condition: Boxed<Typed>,
    a: Typing,
    b: Typing,
) -> Result<Typing, TypeError>
    ensures { Gives (spec.chosen condition a b) result }
{
    if !same_kind(&a.kind, &b.kind) {
        return Err(TypeError::IllTyped);
    }
    Ok(typed(alloc, Typed::If(condition, a.tree, b.tree), a.kind)?)
}

/// WHERE
#[tactic(auto, unfolding(crate::specs::ForProofs::Infer::restricted))]
pub fn restricted(alloc: Global, relation: Typing, condition: Typing) -> Result<Typing, TypeError>
    ensures { Gives (spec.restricted relation condition) result }
{
    if !is_boolean(&condition.kind) {
        return Err(TypeError::IllTyped);
    }
    let tree = Typed::Where(relation.tree, condition.tree);
    Ok(typed(alloc, tree, relation.kind)?)
}
