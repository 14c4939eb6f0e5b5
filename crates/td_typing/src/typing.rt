//! The type of an expression.

ghost use Rattle.std.specs.Prelude.{◌≡◌, drop, Err, IfOk};
ghost use Rattle.td_schema.specs.Results.{Gives};
ghost use Rattle.td_schema.specs.Scopes.{visible};
ghost use Rattle.td_schema.specs.Written.{names};
ghost use Rattle.td_schema.specs.declared.error.TypeError.TheVariants as type_error;
ghost use Rattle.td_typing.specs.ForProofs.Infer as spec;
ghost use Rattle.td_typing.specs.ForProofs.Infer.{infer, all_inferred, named_inferred, groups_inferred, summary_inferred, summaries_inferred};
ghost use Rattle.td_typing.specs.Types.{Types, IsIllTyped};

use crate::calls::{component_of, selected};
use crate::forms::{
    aggregated, by_binary, by_from, by_lone, by_nest, by_project, by_rename, by_unary, by_unnest,
    chosen, named, restricted, table_dee, table_dum, truth_tree, typed,
};
use crate::lists::{
    counted, extended, gathered, grouped_by, grouped_per, item_of, summarized, summed, tuple_of,
    ungrouped, with_tree,
};
use crate::parts::{Grouping, Introduced, Operands};
use sqlite_items::{Boxed, Items};
use std::alloc::Global;
use td_schema::kinds::relation_heading;
use td_schema::lists::names;
use td_schema::schema::begins_with_the;
use td_schema::{Schema, Scope, TypeError};
use td_syntax::tree::{
    Aggregate, Attributes, BinaryOperator, Expr, Extension, Groups, Named, Nesting, Renaming,
    SummaryTerm, TypeExpr, UnaryOperator,
};
use td_tuples::Item;
use td_typed_trees::tree::{Typed, Typing};
use td_values::{Heading, Name, TypeKind};

// Types an operator of one operand: types the operand, then applies the rule of the operator.
#[cycle(typing)]
#[tactic(auto, unfolding(crate::specs::ForProofs::Infer::infer_by))]
fn unary(
    alloc: Global,
    schema: &Schema,
    operator: UnaryOperator,
    a: &Expr,
    scope: &Scope,
) -> Result<Typing, TypeError>
    ensures { Gives (spec.infer_by (spec.by_unary operator) (infer schema.now a.now) (visible scope.now)) result }
{
    let a = typing(alloc, schema, a, scope)?;
    by_unary(alloc, operator, a)
}

// Types FROM: types the operand, then takes the attribute of this name out of its heading.
#[cycle(typing)]
#[tactic(auto, unfolding(crate::specs::ForProofs::Infer::infer_by))]
fn attribute(
    alloc: Global,
    schema: &Schema,
    name: &Name,
    a: &Expr,
    scope: &Scope,
) -> Result<Typing, TypeError>
    ensures { Gives (spec.infer_by (spec.by_from name.now) (infer schema.now a.now) (visible scope.now)) result }
{
    let a = typing(alloc, schema, a, scope)?;
    by_from(alloc, name, a)
}

// Types the projection of the operand on these attributes.
#[cycle(typing)]
#[tactic(auto, unfolding(crate::specs::ForProofs::Infer::infer_by))]
fn projection(
    alloc: Global,
    schema: &Schema,
    a: &Expr,
    attributes: &Attributes,
    scope: &Scope,
) -> Result<Typing, TypeError>
    ensures { Gives (spec.infer_by (spec.by_project attributes.now) (infer schema.now a.now) (visible scope.now)) result }
{
    let a = typing(alloc, schema, a, scope)?;
    by_project(alloc, attributes, a)
}

// Types RENAME: types the operand, then gives the attributes of its heading their new names.
#[cycle(typing)]
#[tactic(auto, unfolding(crate::specs::ForProofs::Infer::infer_by))]
fn renaming(
    alloc: Global,
    schema: &Schema,
    a: &Expr,
    renamings: &[Renaming],
    scope: &Scope,
) -> Result<Typing, TypeError>
    ensures { Gives (spec.infer_by (spec.by_rename renamings.now) (infer schema.now a.now) (visible scope.now)) result }
{
    let a = typing(alloc, schema, a, scope)?;
    by_rename(alloc, renamings, a)
}

// Types GROUP and WRAP: types the operand, then nests these attributes in a new one of this name.
#[cycle(typing)]
#[tactic(auto, unfolding(crate::specs::ForProofs::Infer::infer_by))]
fn nesting(
    alloc: Global,
    schema: &Schema,
    nesting: Nesting,
    a: &Expr,
    attributes: &Attributes,
    name: &Name,
    scope: &Scope,
) -> Result<Typing, TypeError>
    ensures { Gives (spec.infer_by (spec.by_nest nesting attributes.now name.now) (infer schema.now a.now) (visible scope.now)) result }
{
    let a = typing(alloc, schema, a, scope)?;
    by_nest(alloc, nesting, attributes, name, a)
}

// Types UNGROUP and UNWRAP: types the operand, then replaces the attribute of this name by those nested in it.
#[cycle(typing)]
#[tactic(auto, unfolding(crate::specs::ForProofs::Infer::infer_by))]
fn unnesting(
    alloc: Global,
    schema: &Schema,
    nesting: Nesting,
    a: &Expr,
    name: &Name,
    scope: &Scope,
) -> Result<Typing, TypeError>
    ensures { Gives (spec.infer_by (spec.by_unnest nesting name.now) (infer schema.now a.now) (visible scope.now)) result }
{
    let a = typing(alloc, schema, a, scope)?;
    by_unnest(alloc, nesting, name, a)
}

// Types an aggregate without a term: types its operand, whose one attribute is the term.
#[cycle(typing)]
#[tactic(auto, unfolding(crate::specs::ForProofs::Infer::infer_by))]
fn lone_aggregate(
    alloc: Global,
    schema: &Schema,
    aggregate: Aggregate,
    a: &Expr,
    scope: &Scope,
) -> Result<Typing, TypeError>
    ensures { Gives (spec.infer_by (spec.by_lone aggregate) (infer schema.now a.now) (visible scope.now)) result }
{
    let a = typing(alloc, schema, a, scope)?;
    by_lone(alloc, aggregate, a)
}

// Types an operator of two operands: types the left one, then the right one, in the same scope.
#[cycle(typing)]
#[tactic(auto, unfolding(crate::specs::ForProofs::Infer::infer_binary))]
fn binary(
    alloc: Global,
    schema: &Schema,
    operator: BinaryOperator,
    a: &Expr,
    b: &Expr,
    scope: &Scope,
) -> Result<Typing, TypeError>
    ensures { Gives (spec.infer_binary operator (infer schema.now a.now) (infer schema.now b.now) (visible scope.now)) result }
{
    let a = typing(alloc, schema, a, scope)?;
    let b = typing(alloc, schema, b, scope)?;
    by_binary(alloc, operator, a, b)
}

// Types IF: its condition must be a truth value, and both branches see the same scope.
#[cycle(typing)]
#[tactic(auto, unfolding(crate::specs::ForProofs::Infer::infer_if))]
fn choice(
    alloc: Global,
    schema: &Schema,
    a: &Expr,
    b: &Expr,
    c: &Expr,
    scope: &Scope,
) -> Result<Typing, TypeError>
    ensures { Gives (spec.infer_if (infer schema.now a.now) (infer schema.now b.now) (infer schema.now c.now) (visible scope.now)) result }
{
    let a = truth_tree(typing(alloc, schema, a, scope)?)?;
    let b = typing(alloc, schema, b, scope)?;
    let c = typing(alloc, schema, c, scope)?;
    chosen(alloc, a, b, c)
}

// Types WHERE: the condition sees the attributes of the operand before the scope around it. Ill typed where the operand
// is no relation.
#[cycle(typing)]
#[tactic(auto, unfolding(crate::specs::ForProofs::Infer::infer_where))]
fn restriction(
    alloc: Global,
    schema: &Schema,
    a: &Expr,
    condition: &Expr,
    scope: &Scope,
) -> Result<Typing, TypeError>
    ensures { Gives (spec.infer_where (infer schema.now a.now) (infer schema.now condition.now) (visible scope.now)) result }
{
    let a = typing(alloc, schema, a, scope)?;
    let Some(heading) = relation_heading(&a.kind) else {
        return Err(TypeError::IllTyped);
    };
    let condition = typing(alloc, schema, condition, &Scope::Within(heading, &*scope))?;
    restricted(alloc, a, condition)
}

// Types an aggregate of a term, which sees the attributes of the operand before the scope around it. Ill typed where
// the operand is no relation.
#[cycle(typing)]
#[tactic(auto, unfolding(crate::specs::ForProofs::Infer::infer_aggregate))]
fn aggregation(
    alloc: Global,
    schema: &Schema,
    aggregate: Aggregate,
    a: &Expr,
    term: &Expr,
    scope: &Scope,
) -> Result<Typing, TypeError>
    ensures { Gives (spec.infer_aggregate aggregate (infer schema.now a.now) (infer schema.now term.now) (visible scope.now)) result }
{
    let Typing { tree, kind } = typing(alloc, schema, a, scope)?;
    let Some(heading) = relation_heading(&kind) else {
        return Err(TypeError::IllTyped);
    };
    let term = typing(alloc, schema, term, &Scope::Within(heading, &*scope))?;
    aggregated(alloc, aggregate, tree, term)
}

// Types the expressions in order, all in the same scope; gives the error of the first that has no type.
#[cycle(typing)]
#[tactic(auto, unfolding(crate::specs::ForProofs::Infer::infer_operands))]
fn operands(
    alloc: Global,
    schema: &Schema,
    xs: &[Boxed<Expr>],
    scope: &Scope,
) -> Result<Operands, TypeError>
    ensures { Gives (spec.infer_operands (all_inferred schema.now xs.now) (visible scope.now)) result }
{
    let mut trees = Items::new(alloc);
    let mut kinds = Items::new(alloc);
    for x in xs {
        let Typing { tree, kind } = typing(alloc, schema, x.get(), scope)?;
        trees.push(tree)?;
        kinds.push(kind)?;
    }
    Ok(Operands { trees, kinds })
}

// Types the call of a selector: types its operands, then looks up the type that the selector belongs to.
#[cycle(typing)]
#[tactic(auto, unfolding(crate::specs::ForProofs::Infer::infer_selector))]
fn selector(
    alloc: Global,
    schema: &Schema,
    name: &Name,
    xs: &[Boxed<Expr>],
    scope: &Scope,
) -> Result<Typing, TypeError>
    ensures { Gives (spec.infer_selector schema.now name.now (all_inferred schema.now xs.now) (visible scope.now)) result }
{
    let operands = operands(alloc, schema, xs, scope)?;
    selected(alloc, schema, name, operands)
}

// Types THE_ of a component, whose name still begins with THE_; ill typed where it has not exactly one operand.
#[cycle(typing)]
#[tactic(auto, unfolding(crate::specs::ForProofs::Infer::infer_component, crate::specs::ForProofs::Infer::infer_by))]
fn component(
    alloc: Global,
    schema: &Schema,
    name: &Name,
    xs: &[Boxed<Expr>],
    scope: &Scope,
) -> Result<Typing, TypeError>
    ensures { Gives (spec.infer_component schema.now (drop 4 name.now) (all_inferred schema.now xs.now) (visible scope.now)) result }
{
    let [x] = xs else {
        return Err(TypeError::IllTyped);
    };
    let a = typing(alloc, schema, x.get(), scope)?;
    component_of(alloc, schema, name, a)
}

// Types a call by its name: one that begins with THE_ reads a component, every other one is a selector.
#[cycle(typing)]
#[tactic(auto, unfolding(crate::specs::ForProofs::Infer::infer_call))]
fn call(
    alloc: Global,
    schema: &Schema,
    name: &Name,
    xs: &[Boxed<Expr>],
    scope: &Scope,
) -> Result<Typing, TypeError>
    ensures { Gives (spec.infer_call schema.now name.now (all_inferred schema.now xs.now) (visible scope.now)) result }
{
    if begins_with_the(name) {
        component(alloc, schema, name, xs, scope)
    } else {
        selector(alloc, schema, name, xs, scope)
    }
}

// Types RELATION: its operands are tuples, of the written heading where one is written.
#[cycle(typing)]
#[tactic(auto, unfolding(crate::specs::ForProofs::Infer::infer_relation))]
fn relation(
    alloc: Global,
    schema: &Schema,
    written: &Option<Items<Named<TypeExpr>>>,
    xs: &[Boxed<Expr>],
    scope: &Scope,
) -> Result<Typing, TypeError>
    ensures { Gives (spec.infer_relation schema.now written.now (all_inferred schema.now xs.now) (visible scope.now)) result }
{
    let operands = operands(alloc, schema, xs, scope)?;
    gathered(alloc, schema, written, operands)
}

/// The expressions of one scope, as new attributes.
#[cycle(typing)]
#[tactic(auto, unfolding(crate::specs::ForProofs::Infer::infer_items, crate::specs::ForProofs::Infer::infer_item))]
pub fn items(
    alloc: Global,
    schema: &Schema,
    xs: &[Named<Boxed<Expr>>],
    scope: &Scope,
) -> Result<Items<Item<Boxed<Typed>>>, TypeError>
    ensures { Gives (spec.infer_items (named_inferred schema.now xs.now) (visible scope.now)) result }
{
    let mut found = Items::new(alloc);
    for x in xs {
        let a = typing(alloc, schema, x.value.get(), scope)?;
        found.push(item_of(&x.name, a)?)?;
    }
    Ok(found)
}

// Types TUPLE, each of whose items becomes an attribute; the items do not see each other.
#[cycle(typing)]
#[tactic(auto, unfolding(crate::specs::ForProofs::Infer::infer_tuple))]
fn tuple(
    alloc: Global,
    schema: &Schema,
    xs: &[Named<Boxed<Expr>>],
    scope: &Scope,
) -> Result<Typing, TypeError>
    ensures { Gives (spec.infer_tuple (names xs.now) (named_inferred schema.now xs.now) (visible scope.now)) result }
{
    let items = items(alloc, schema, xs, scope)?;
    let names = names(alloc, xs)?;
    tuple_of(alloc, &names, items)
}

// Types the forms that compute attributes from the tuples of a relation, which the items see before the scope around
// them. Ill typed where the operand is no relation.
#[cycle(typing)]
#[tactic(auto, unfolding(crate::specs::ForProofs::Infer::infer_extend))]
fn extension(
    alloc: Global,
    schema: &Schema,
    extension: Extension,
    a: &Expr,
    xs: &[Named<Boxed<Expr>>],
    scope: &Scope,
) -> Result<Typing, TypeError>
    ensures { Gives (spec.infer_extend extension (infer schema.now a.now) (names xs.now) (named_inferred schema.now xs.now) (visible scope.now)) result }
{
    let Typing { tree, kind } = typing(alloc, schema, a, scope)?;
    let Some(heading) = relation_heading(&kind) else {
        return Err(TypeError::IllTyped);
    };
    let items = items(alloc, schema, xs, &Scope::Within(heading, &*scope))?;
    let names = names(alloc, xs)?;
    extended(alloc, extension, &names, tree, heading, items)
}

// Types the groups of SUMMARIZE over a relation of the heading; the operand of PER sees only the scope around.
#[cycle(typing)]
fn groups(
    alloc: Global,
    schema: &Schema,
    heading: &Heading,
    groups: &Groups<Boxed<Expr>>,
    scope: &Scope,
) -> Result<Grouping, TypeError>
    ensures { Gives (spec.infer_groups heading.now (groups_inferred schema.now groups.now) (visible scope.now)) result }
{
    match groups {
        Groups::Whole => Ok(ungrouped(alloc)?),
        Groups::Per(a) => {
            let a = typing(alloc, schema, a.get(), scope)?;
            grouped_per(heading, a)
        }
        Groups::By(attributes) => grouped_by(alloc, heading, attributes),
    }
}

// Types one item of SUMMARIZE, COUNT or an aggregate of a term, as a new attribute of this name.
#[cycle(typing)]
fn summary(
    alloc: Global,
    schema: &Schema,
    name: &Name,
    summary: &SummaryTerm<Boxed<Expr>>,
    scope: &Scope,
) -> Result<Item<td_tuples::Summary<Boxed<Typed>>>, TypeError>
    ensures { Gives (spec.infer_summary_at (visible scope.now) name.now (summary_inferred schema.now summary.now)) result }
{
    match summary {
        SummaryTerm::Count => Ok(counted(name)?),
        SummaryTerm::Of(aggregate, a) => {
            let a = typing(alloc, schema, a.get(), scope)?;
            summed(name, *aggregate, a)
        }
    }
}

// Types the items of SUMMARIZE in order, all in the same scope; gives the error of the first that has no type.
#[cycle(typing)]
#[tactic(auto, unfolding(crate::specs::ForProofs::Infer::infer_summaries, crate::specs::ForProofs::Infer::infer_summary))]
fn summaries(
    alloc: Global,
    schema: &Schema,
    xs: &[Named<SummaryTerm<Boxed<Expr>>>],
    scope: &Scope,
) -> Result<Items<Item<td_tuples::Summary<Boxed<Typed>>>>, TypeError>
    ensures { Gives (spec.infer_summaries (summaries_inferred schema.now xs.now) (visible scope.now)) result }
{
    let mut found = Items::new(alloc);
    for x in xs {
        found.push(summary(alloc, schema, &x.name, &x.value, scope)?)?;
    }
    Ok(found)
}

// Types SUMMARIZE: the groups see the scope around, the items also the attributes of the operand. Ill typed where the
// operand is no relation.
#[cycle(typing)]
#[tactic(auto, unfolding(crate::specs::ForProofs::Infer::infer_summarize))]
fn summarization(
    alloc: Global,
    schema: &Schema,
    a: &Expr,
    by: &Groups<Boxed<Expr>>,
    xs: &[Named<SummaryTerm<Boxed<Expr>>>],
    scope: &Scope,
) -> Result<Typing, TypeError>
    ensures { Gives (spec.infer_summarize (infer schema.now a.now) (groups_inferred schema.now by.now) (names xs.now) (summaries_inferred schema.now xs.now) (visible scope.now)) result }
{
    let Typing { tree, kind } = typing(alloc, schema, a, scope)?;
    let Some(heading) = relation_heading(&kind) else {
        return Err(TypeError::IllTyped);
    };
    let grouping = groups(alloc, schema, heading, by, scope)?;
    let items = summaries(alloc, schema, xs, &Scope::Within(heading, &*scope))?;
    let names = names(alloc, xs)?;
    summarized(alloc, &names, tree, grouping, items)
}

// Types the expressions of WITH in order; each sees the names given before it.
#[cycle(typing)]
#[tactic(auto, unfolding(crate::specs::ForProofs::Infer::introduces))]
fn introduced(
    alloc: Global,
    schema: &Schema,
    xs: &[Named<Boxed<Expr>>],
    scope: &Scope,
) -> Result<Introduced, TypeError>
    ensures { Gives (spec.introduces (named_inferred schema.now xs.now) (visible scope.now)) result }
{
    let mut trees = Items::new(alloc);
    let mut kinds = Items::new(alloc);
    for x in xs {
        let within = Scope::Given(kinds.as_slice(), &*scope);
        let Typing { tree, kind } = typing(alloc, schema, x.value.get(), &within)?;
        trees.push(Named {
            name: x.name.copy()?,
            value: tree,
        })?;
        kinds.push(Named {
            name: x.name.copy()?,
            value: kind,
        })?;
    }
    Ok(Introduced { trees, kinds })
}

// Types WITH: the body sees all the names given before the scope around it.
#[cycle(typing)]
#[tactic(auto, unfolding(crate::specs::ForProofs::Infer::infer_with))]
fn with(
    alloc: Global,
    schema: &Schema,
    xs: &[Named<Boxed<Expr>>],
    body: &Expr,
    scope: &Scope,
) -> Result<Typing, TypeError>
    ensures { Gives (spec.infer_with (named_inferred schema.now xs.now) (infer schema.now body.now) (visible scope.now)) result }
{
    let Introduced { trees, kinds } = introduced(alloc, schema, xs, scope)?;
    let body = typing(
        alloc,
        schema,
        body,
        &Scope::Given(kinds.as_slice(), &*scope),
    )?;
    with_tree(alloc, trees, body)
}

/// The tree and the kind of an expression in a scope; ill typed exactly where it has none. The recursion nests as deep
/// as the expression has levels. Each part is typed once, which costs what comparing its operands' types costs.
#[cycle(typing)]
pub fn typing(
    alloc: Global,
    schema: &Schema,
    expr: &Expr,
    scope: &Scope,
) -> Result<Typing, TypeError>
    ensures { Gives (infer schema.now expr.now (visible scope.now)) result }
{
    match expr {
        Expr::Integer(n) => Ok(typed(alloc, Typed::Integer(*n), TypeKind::Integer)?),
        Expr::Text(text) => Ok(typed(alloc, Typed::Text(text.copy()?), TypeKind::Char)?),
        Expr::Truth(b) => Ok(typed(alloc, Typed::Truth(*b), TypeKind::Boolean)?),
        Expr::TableDee => Ok(table_dee(alloc)?),
        Expr::TableDum => Ok(table_dum(alloc)?),
        Expr::Name(name) => named(alloc, name, scope),
        Expr::Call(name, xs) => call(alloc, schema, name, xs.as_slice(), scope),
        Expr::Tuple(xs) => tuple(alloc, schema, xs.as_slice(), scope),
        Expr::Relation(written, xs) => relation(alloc, schema, written, xs.as_slice(), scope),
        Expr::Unary(operator, a) => unary(alloc, schema, *operator, a.get(), scope),
        Expr::Binary(operator, a, b) => {
            binary(alloc, schema, *operator, a.get(), b.get(), scope)
        }
        Expr::From(name, a) => attribute(alloc, schema, name, a.get(), scope),
        Expr::Project(a, attributes) => projection(alloc, schema, a.get(), attributes, scope),
        Expr::Where(a, condition) => restriction(alloc, schema, a.get(), condition.get(), scope),
        Expr::Rename(a, renamings) => {
            renaming(alloc, schema, a.get(), renamings.as_slice(), scope)
        }
        Expr::Nest(operator, a, attributes, name) => {
            nesting(alloc, schema, *operator, a.get(), attributes, name, scope)
        }
        Expr::Unnest(operator, a, name) => {
            unnesting(alloc, schema, *operator, a.get(), name, scope)
        }
        Expr::Aggregate(aggregate, a, None) => {
            lone_aggregate(alloc, schema, *aggregate, a.get(), scope)
        }
        Expr::Aggregate(aggregate, a, Some(term)) => {
            aggregation(alloc, schema, *aggregate, a.get(), term.get(), scope)
        }
        Expr::If(a, b, c) => choice(alloc, schema, a.get(), b.get(), c.get(), scope),
        Expr::Extend(kind, a, xs) => {
            extension(alloc, schema, *kind, a.get(), xs.as_slice(), scope)
        }
        Expr::Summarize(a, by, xs) => {
            summarization(alloc, schema, a.get(), by, xs.as_slice(), scope)
        }
        Expr::With(xs, body) => with(alloc, schema, xs.as_slice(), body.get(), scope),
    }
}

/// The tree and the kind of an expression in a scope, by the rules of the language; ill typed only where they give it
/// none. It nests as deep as the expression has levels, and types each part once. Where types must be one they are
/// compared, which walks them as trees: a type shares its parts, and may be exponentially larger than its text
/// (`WITH 1 AS X0, TUPLE { A X0, B X0 } AS X1, TUPLE { A X1, B X1 } AS X2, ..`).
pub fn type_in(
    alloc: Global,
    schema: &Schema,
    scope: &Scope,
    expr: &Expr,
) -> Result<Typing, TypeError>
    ensures typed { IfOk result (λ t. Types schema.now (visible scope.now) expr.now t.tree t.kind) }
    ensures refused { result ≡ Err type_error.IllTyped → IsIllTyped schema.now (visible scope.now) expr.now }
{
    typing(alloc, schema, expr, scope)
}
