//! Typed expressions.

ghost use Rattle.std.specs.Prelude.{◌≡◌, Err, IfOk, MatchOption, None, Some, slice_get};
ghost use Rattle.td_schema.specs.Scopes.{relvars_of, within_tuple};
ghost use Rattle.td_schema.specs.declared.error.TypeError.TheVariants as type_error;
ghost use Rattle.td_typing.specs.Types.{IsIllTyped};
ghost use Rattle.td_headings.specs.Definitions.{names_of_relvars};
ghost use Rattle.td_headings.specs.Expressions as spec;
ghost use Rattle.td_headings.specs.Expressions.{IsExpression, IsTree, IsTyped, IsClosedExpression, no_tuple};
ghost use Rattle.td_headings.specs.ForProofs.KeptConstraints.{AreKept};

use crate::catalogue::Catalogue;
use crate::defined::{Origin, Test};
use crate::expression::with_all_under;
use std::alloc::{AllocError, Global};
use std::marker::Model;
use td_schema::error::TypeError;
use td_schema::schema::Schema;
use td_schema::scope::Scope;
use td_syntax::tree::Expr;
use td_tuples::Shared;
use td_typed_trees::expression::{BaseUnder, Expression};
use td_typed_trees::tree::{Typed, Typing};
use td_typing::typing::type_in;
use td_values::{Heading, TypeKind};

/// A typed expression with all that evaluating it wants. It is never changed, and its copies share it.
#[derive(Drop)]
pub struct TypedExpr {
    expression: Shared<Expression>,
}

impl Model for TypedExpr {
    ghost use Rattle.td_typed_trees.specs.declared.expression.Expression.{Expression};
    ghost use Rattle.td_headings.specs.Expressions.{IsTyped};
    ghost use Rattle.td_headings.specs.ForProofs.Codes.{expression_code};

    ghost Value = { Expression };

    ghost coded = { expression_code };

    ghost view = { λ x. x.expression };

    ghost invariant = { λ x. IsTyped x.expression };
}

impl TypedExpr {
    /// What it is made of.
    pub fn get(&self) -> &Expression
        ensures same { result.now ≡ self.now }
        ensures typed { IsTyped self.now }
    {
        self.expression.get()
    }

    /// A copy, which shares the expression.
    pub fn copy(&self) -> Result<TypedExpr, AllocError>
        ensures { IfOk result (λ x. x ≡ self.now) }
    {
        Ok(TypedExpr {
            expression: self.expression.copy()?,
        })
    }
}

// The tree with all that is under it.
fn typed_expr(
    alloc: Global,
    catalogue: &Catalogue,
    attributes: Heading,
    tree: Shared<Typed>,
    kind: TypeKind,
) -> Result<TypedExpr, AllocError>
    requires { IsTree catalogue.now attributes tree kind }
    ensures under { IfOk result (λ x. spec.HasAllUnder catalogue.now x) }
    ensures tree { IfOk result (λ x. x.tree ≡ tree) }
    ensures kind { IfOk result (λ x. x.kind ≡ kind) }
    ensures attributes { IfOk result (λ x. x.attributes ≡ attributes) }
{
    let expression = with_all_under(alloc, catalogue, attributes, tree, kind)?;
    Ok(TypedExpr {
        expression: Shared::new(alloc, expression)?,
    })
}

// The tree, in which no tuple is in scope.
pub(crate) fn whole(
    alloc: Global,
    catalogue: &Catalogue,
    tree: Shared<Typed>,
    kind: TypeKind,
) -> Result<TypedExpr, AllocError>
    requires { IsTree catalogue.now no_tuple tree kind }
    ensures { IfOk result (IsClosedExpression catalogue.now tree kind) }
{
    typed_expr(alloc, catalogue, Heading::new(alloc)?, tree, kind)
}

// The expression within a tuple of these attributes, with all that evaluating it wants.
fn type_within(
    alloc: Global,
    catalogue: &Catalogue,
    attributes: Heading,
    expr: &Expr,
) -> Result<TypedExpr, TypeError>
    ensures typed { IfOk result (IsExpression catalogue.now attributes expr.now) }
    ensures refused { result ≡ Err type_error.IllTyped → IsIllTyped catalogue.now.schema (within_tuple attributes (relvars_of catalogue.now.schema)) expr.now }
{
    let schema = catalogue.schema();
    let Typing { tree, kind } = type_in(
        alloc,
        schema,
        &Scope::Within(&attributes, &Scope::Relvars(schema)),
        expr,
    )?;
    let tree = Shared::new(alloc, tree.into_inner())?;
    Ok(typed_expr(alloc, catalogue, attributes, tree, kind)?)
}

/// The expression, in which no tuple is in scope, with all that evaluating it wants. It costs its typing, which may be
/// exponential in its size where it compares types, and the size of the expressions of the virtual relvars under it.
pub fn type_expr(alloc: Global, catalogue: &Catalogue, expr: &Expr) -> Result<TypedExpr, TypeError>
    ensures typed { IfOk result (IsExpression catalogue.now no_tuple expr.now) }
    // Where no tuple is in scope the names are those of the relvars.
    ensures refused { result ≡ Err type_error.IllTyped → IsIllTyped catalogue.now.schema (names_of_relvars catalogue.now) expr.now }
{
    type_within(alloc, catalogue, Heading::new(alloc)?, expr)
}

// The tree of the constraint at this place, if one stands there.
fn constraint_at(tests: &[Test], place: usize) -> Option<&Shared<Typed>>
    ensures { MatchOption result (spec.constraint_of (slice_get tests.now place) ≡ None) (λ u. spec.constraint_of (slice_get tests.now place) ≡ Some u.now) }
{
    match tests.get(place) {
        Some(Test::Constraint(_, tree)) => Some(tree),
        _ => None,
    }
}

// The constraint at this place, if one stands there, with all that is under it.
fn make_constraint_expr(
    alloc: Global,
    catalogue: &Catalogue,
    place: usize,
) -> Result<Option<TypedExpr>, AllocError>
    ensures { IfOk result (λ o. MatchOption o (spec.constraint_at catalogue.now place ≡ None) (spec.IsConstraint catalogue.now (spec.constraint_at catalogue.now place))) }
{
    match constraint_at(catalogue.tests(), place) {
        Some(tree) => {
            let tree = tree.copy()?;
            Ok(Some(whole(alloc, catalogue, tree, TypeKind::Boolean)?))
        }
        None => Ok(None),
    }
}

/// The expression of each test, where it is a constraint.
pub(crate) fn constraint_exprs(
    alloc: Global,
    catalogue: &Catalogue,
) -> Result<Vec<Option<TypedExpr>>, AllocError>
    ensures { IfOk result (λ v. AreKept catalogue.now v.items) }
{
    let count = catalogue.tests().len();
    let mut exprs = Vec::with_capacity(alloc, count)?;
    for place in 0..count {
        exprs.push(make_constraint_expr(alloc, catalogue, place)?)?;
    }
    Ok(exprs)
}

/// The constraint at this place among what must be true, if a constraint stands there. It is shared where the catalogue
/// keeps it; else it costs its size, with those of the expressions of the virtual relvars under it.
pub fn constraint_expr(
    alloc: Global,
    catalogue: &Catalogue,
    place: usize,
) -> Result<Option<TypedExpr>, AllocError>
    ensures { IfOk result (λ o. MatchOption o (spec.constraint_at catalogue.now place ≡ None) (spec.IsConstraint catalogue.now (spec.constraint_at catalogue.now place))) }
{
    match catalogue.kept_constraint(place) {
        Some(expr) => Ok(Some(expr.copy()?)),
        None => make_constraint_expr(alloc, catalogue, place),
    }
}

// The tree of what the base relvar at this place holds at first, with its heading, if that is written.
fn init_at<'a>(
    schema: &'a Schema,
    origins: &'a [Origin],
    place: usize,
) -> Option<(&'a Shared<Typed>, &'a Heading)>
    ensures { MatchOption result (spec.init_of (slice_get origins.now place) (slice_get schema.now.relvars place) ≡ None) (λ p. spec.init_of (slice_get origins.now place) (slice_get schema.now.relvars place) ≡ Some (p.0.now, p.1.now)) }
{
    match (origins.get(place), schema.relvar_at(place)) {
        (Some(Origin::Base(_, Some(tree))), Some((_, heading))) => Some((tree, heading)),
        _ => None,
    }
}

/// What the base relvar at this place holds at first, if that is written.
pub fn init_expr(
    alloc: Global,
    catalogue: &Catalogue,
    place: usize,
) -> Result<Option<TypedExpr>, AllocError>
    ensures { IfOk result (λ o. MatchOption o (spec.init_at catalogue.now place ≡ None) (spec.IsInit catalogue.now (spec.init_at catalogue.now place))) }
{
    match init_at(catalogue.schema(), catalogue.origins(), place) {
        Some((tree, heading)) => {
            let tree = tree.copy()?;
            let kind = TypeKind::Relation(heading.copy()?);
            Ok(Some(whole(alloc, catalogue, tree, kind)?))
        }
        None => Ok(None),
    }
}

/// The places of the base relvars that the expression reads, virtual ones expanded, in order of definition.
pub fn reads(alloc: Global, expr: &TypedExpr) -> Result<Vec<usize>, AllocError>
    ensures { IfOk result (λ v. v.items ≡ spec.reads expr.now) }
{
    places_of(alloc, expr.get().bases.as_slice())
}

// The places of these base relvars, in the same order.
fn places_of(alloc: Global, bases: &[BaseUnder]) -> Result<Vec<usize>, AllocError>
    ensures { IfOk result (λ v. v.items ≡ spec.places_of bases.now) }
{
    let mut places = Vec::with_capacity(alloc, bases.len())?;
    for base in bases {
        places.push(base.place)?;
    }
    Ok(places)
}
