//! Typed statements.

ghost use Rattle.std.specs.Prelude.{◌≡◌, ◌++◌, List, Err, IfOk, MatchOption, None, OnOk, Some, map};
ghost use Rattle.td_schema.specs.Kinds as kinds;
ghost use Rattle.td_schema.specs.Results.{Gives};
ghost use Rattle.td_schema.specs.declared.error.TypeError.TheVariants as type_error;
ghost use Rattle.td_values.specs.declared.TypeKind.TheVariants as type_kind;
ghost use Rattle.td_headings.specs.ForProofs.Sources as sources;
ghost use Rattle.td_headings.specs.Reached.{AreThose};
ghost use Rattle.td_headings.specs.Statements as spec;
ghost use Rattle.td_headings.specs.Statements.{AreAssignments, IsAssignment, IsCondition, TypesNoStatement, TypesStatement, IsTarget};
ghost use Rattle.td_headings.specs.declared.statement.TypedAssignment as typed;
ghost use Rattle.td_syntax.specs.declared.script.Statement.TheVariants as statements;
ghost use Rattle.td_typed_trees.specs.declared.expression.Expression.{Expression};

use crate::catalogue::Catalogue;
use crate::defined::Origin;
use crate::opening::condition;
use crate::reach::in_order;
use crate::sources::source;
use crate::typed::{TypedExpr, whole};
use sqlite_items::Items;
use std::alloc::{AllocError, Global};
use td_schema::error::TypeError;
use td_schema::kinds::{relation_heading, same_heading};
use td_schema::schema::Schema;
use td_syntax::script::{Action, Statement};
use td_syntax::tree::Expr;
use td_tuples::Shared;
use td_typed_trees::tree::Typing;
use td_values::{Heading, Name, TypeKind};

/// An assignment, whose source is one expression over its target: a DELETE is the tuples for which the condition is
/// false, an UPDATE those united with the others changed.
#[derive(Drop)]
pub struct TypedAssignment {
    /// The place of the base relvar that is assigned.
    pub target: usize,
    pub source: TypedExpr,
}

#[derive(Drop)]
pub enum TypedStatement {
    /// A multiple assignment: all its targets change at once.
    Assignment(Items<TypedAssignment>),
    /// A condition, the assignments that are made at once where it is true, and those where it is false.
    Conditional(TypedExpr, Items<TypedAssignment>, Items<TypedAssignment>),
}

// The name of the relvar that the assignment changes.
fn target_of(action: &Action) -> &Name
    ensures { result.now ≡ spec.target_of action.now }
{
    match action {
        Action::Assign(target, _)
        | Action::Insert(target, _)
        | Action::Delete(target, _)
        | Action::Update(target, _, _) => target,
    }
}

// The base relvar of this name.
#[tactic(auto, unfolding(crate::specs::ForProofs::Sources::real))]
fn base_relvar<'a>(
    schema: &'a Schema,
    origins: &[Origin],
    name: &Name,
) -> Option<(usize, &'a Heading)>
    ensures { MatchOption result (sources.real schema.now origins.now name.now ≡ None) (λ r. sources.real schema.now origins.now name.now ≡ Some (r.0, r.1.now)) }
{
    let Some((place, heading)) = schema.relvar(name) else {
        return None;
    };
    match origins.get(place) {
        Some(Origin::Base(_, _)) => Some((place, heading)),
        _ => None,
    }
}

// Whether a kind is that of the relations of this heading.
fn is_relation_of(kind: &TypeKind, heading: &Heading) -> bool
    ensures { result ≡ kinds.same_kind (type_kind.Relation heading.now) kind.now }
{
    match relation_heading(kind) {
        Some(own) => same_heading(heading, own),
        None => false,
    }
}

// The place of an action's target, which has this name, with the action's source.
#[tactic(auto, unfolding(crate::specs::ForProofs::Sources::assigned))]
fn target_and_source(
    alloc: Global,
    schema: &Schema,
    origins: &[Origin],
    target: &Name,
    action: &Action,
) -> Result<(usize, Typing), TypeError>
    ensures { Gives (sources.assigned schema.now origins.now target.now action.now) result }
{
    let Some((place, heading)) = base_relvar(schema, origins, target) else {
        return Err(TypeError::IllTyped);
    };
    let typing = source(alloc, schema, action)?;
    if !is_relation_of(&typing.kind, heading) {
        return Err(TypeError::IllTyped);
    }
    Ok((place, typing))
}

// Types one assignment: its target must be a base relvar, and its source a relation of the target's heading.
fn type_assignment(
    alloc: Global,
    catalogue: &Catalogue,
    action: &Action,
) -> Result<TypedAssignment, TypeError>
    ensures typed { IfOk result (IsAssignment catalogue.now action.now) }
    ensures refused { result ≡ Err type_error.IllTyped → (x : typed.TypedAssignment) → IsAssignment catalogue.now action.now x → ⊥ }
{
    let (schema, origins) = (catalogue.schema(), catalogue.origins());
    let (target, Typing { tree, kind }) = match target_and_source(
        alloc,
        schema,
        origins,
        target_of(action),
        action,
    ) {
        Ok(found) => found,
        Err(error) => return Err(error),
    };
    let tree = Shared::new(alloc, tree.into_inner())?;
    let source = whole(alloc, catalogue, tree, kind)?;
    Ok(TypedAssignment { target, source })
}

// Types the assignments in order, each by itself; gives the error of the first that has no type.
fn type_assignments(
    alloc: Global,
    catalogue: &Catalogue,
    actions: &[Action],
) -> Result<Items<TypedAssignment>, TypeError>
    ensures typed { IfOk result (AreAssignments catalogue.now actions.now) }
    ensures refused { result ≡ Err type_error.IllTyped → (xs : List typed.TypedAssignment) → AreAssignments catalogue.now actions.now xs → ⊥ }
{
    let mut found = Items::new(alloc);
    for action in actions {
        match type_assignment(alloc, catalogue, action) {
            Ok(assignment) => found.push(assignment)?,
            Err(error) => return Err(error),
        }
    }
    Ok(found)
}

// The condition of a statement, in which no tuple is in scope.
fn type_condition(alloc: Global, catalogue: &Catalogue, expr: &Expr) -> Result<TypedExpr, TypeError>
    ensures typed { IfOk result (IsCondition catalogue.now expr.now) }
    ensures refused { result ≡ Err type_error.IllTyped → (u : Expression) → IsCondition catalogue.now expr.now u → ⊥ }
{
    let tree = match condition(alloc, catalogue.schema(), expr) {
        Ok(tree) => tree,
        Err(error) => return Err(error),
    };
    let expression = whole(alloc, catalogue, tree, TypeKind::Boolean)?;
    Ok(expression)
}

// Types a statement that is a list of assignments.
fn type_unconditional(
    alloc: Global,
    catalogue: &Catalogue,
    actions: &[Action],
) -> Result<TypedStatement, TypeError>
    ensures typed { IfOk result (TypesStatement catalogue.now (statements.Assignment actions.now)) }
    ensures refused { result ≡ Err type_error.IllTyped → TypesNoStatement catalogue.now (statements.Assignment actions.now) }
{
    match type_assignments(alloc, catalogue, actions) {
        Ok(assignments) => Ok(TypedStatement::Assignment(assignments)),
        Err(error) => Err(error),
    }
}

// Types a conditional statement: its condition, and the assignments of both branches.
fn type_conditional(
    alloc: Global,
    catalogue: &Catalogue,
    expr: &Expr,
    actions: &[Action],
    others: &[Action],
) -> Result<TypedStatement, TypeError>
    ensures typed { IfOk result (TypesStatement catalogue.now (statements.Conditional expr.now actions.now others.now)) }
    ensures refused { result ≡ Err type_error.IllTyped → TypesNoStatement catalogue.now (statements.Conditional expr.now actions.now others.now) }
{
    let condition = match type_condition(alloc, catalogue, expr) {
        Ok(condition) => condition,
        Err(error) => return Err(error),
    };
    let made = match type_assignments(alloc, catalogue, actions) {
        Ok(made) => made,
        Err(error) => return Err(error),
    };
    match type_assignments(alloc, catalogue, others) {
        Ok(otherwise) => Ok(TypedStatement::Conditional(condition, made, otherwise)),
        Err(error) => Err(error),
    }
}

/// The statement with its targets and sources. It costs the typing of its sources, which may be exponential in their
/// size where they compare types, and for each source the size of the expressions of the virtual relvars under it.
pub fn type_statement(
    alloc: Global,
    catalogue: &Catalogue,
    statement: &Statement,
) -> Result<TypedStatement, TypeError>
    ensures typed { IfOk result (TypesStatement catalogue.now statement.now) }
    ensures refused { result ≡ Err type_error.IllTyped → TypesNoStatement catalogue.now statement.now }
{
    match statement {
        Statement::Assignment(actions) => type_unconditional(alloc, catalogue, actions.as_slice()),
        Statement::Conditional(expr, actions, others) => type_conditional(
            alloc,
            catalogue,
            expr.get(),
            actions.as_slice(),
            others.as_slice(),
        ),
    }
}

// With the targets of these assignments behind the places.
fn add_targets(places: &mut Vec<usize>, assignments: &[TypedAssignment]) -> Result<(), AllocError>
    ensures { OnOk result (places.new.items ≡ places.old.items ++ map (λ (x : typed.TypedAssignment). x.target) assignments.now) }
{
    for assignment in assignments {
        places.push(assignment.target)?;
    }
    Ok(())
}

/// The assignments of a statement: of a conditional one those where its condition is true, and those where it is false.
pub fn lists_of(statement: &TypedStatement) -> (&[TypedAssignment], &[TypedAssignment])
    ensures { spec.assignments_of statement.now ≡ result.0.now ++ result.1.now }
{
    match statement {
        TypedStatement::Assignment(all) => (all.as_slice(), &[]),
        TypedStatement::Conditional(_, made, otherwise) => (made.as_slice(), otherwise.as_slice()),
    }
}

/// The places of the base relvars that the statement assigns, in order of definition, each once.
pub fn targets(alloc: Global, statement: &TypedStatement) -> Result<Vec<usize>, AllocError>
    ensures { IfOk result (λ v. AreThose (IsTarget statement.now) v.items) }
{
    let (made, otherwise) = lists_of(statement);
    let mut places = Vec::with_capacity(alloc, made.len() + otherwise.len())?;
    add_targets(&mut places, made)?;
    add_targets(&mut places, otherwise)?;
    Ok(in_order(places))
}
