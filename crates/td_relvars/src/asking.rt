//! What a relvar has, asked by its name.

ghost use Rattle.std.specs.Prelude.{◌≡◌, IfOk, slice_get};
ghost use Rattle.td_headings.specs.Reached as reached;
ghost use Rattle.td_semantics.specs.Answers.{TellsRelvar};
ghost use Rattle.td_relvars.specs.ForProofs.Asked.{IsNameOf, IsRelvar, IsStoredAt, TellsAt};

use crate::database::Database;
use sqlite_items::Boxed;
use std::alloc::{AllocError, Global};
use td_eval::relation;
use td_headings::{Catalogue, Origin, TypedExpr, type_expr};
use td_relations::Relation;
use td_schema::error::TypeError;
use td_semantics::{Answer, Failure, RelvarError};
use td_syntax::tree::Expr;
use td_values::{Heading, Name};

// Whether the relvar at the place is a base relvar; false where there is none.
fn is_base(catalogue: &Catalogue, place: usize) -> bool
    ensures { result ≡ reached.is_base (slice_get catalogue.now.origins place) }
{
    matches!(catalogue.origin(place), Some(Origin::Base(_, _)))
}

// The name of a relvar as a typed expression.
fn name_expression(
    alloc: Global,
    catalogue: &Catalogue,
    name: &Name,
    place: usize,
    heading: &Heading,
) -> Result<TypedExpr, AllocError>
    requires { IsRelvar catalogue.now name.now place heading.now }
    ensures { IfOk result (IsNameOf catalogue.now place heading.now) }
{
    let expr = Boxed::new(alloc, Expr::Name(name.copy()?))?;
    match type_expr(alloc, catalogue, expr.get()) {
        Ok(typed) => Ok(typed),
        Err(TypeError::IllTyped) => unreachable!(),
        Err(TypeError::OutOfMemory) => Err(AllocError),
    }
}

// What the base relvar at the place has.
fn base_value(
    alloc: Global,
    database: &Database,
    place: usize,
) -> Result<Answer<Relation>, RelvarError>
    requires { IsStoredAt database.now place }
    ensures { TellsAt database.now place result }
{
    match database.base_at(place) {
        Some(base) => Ok(Answer::Value(base.copy_relation(alloc)?)),
        None => unreachable!(),
    }
}

// What the relvar of this name, heading and place has, by evaluating its name.
fn evaluated(
    alloc: Global,
    database: &Database,
    name: &Name,
    place: usize,
    heading: &Heading,
) -> Result<Answer<Relation>, RelvarError>
    requires { IsRelvar database.now.catalogue name.now place heading.now }
    ensures { TellsAt database.now place result }
{
    let expr = name_expression(alloc, database.catalogue(), name, place, heading)?;
    match relation(alloc, database.catalogue(), heading, &expr, database) {
        Ok(relation) => Ok(Answer::Value(relation)),
        Err(Failure::Raised(error)) => Ok(Answer::Raised(error)),
        Err(Failure::OutOfMemory) => Err(RelvarError::OutOfMemory),
    }
}

impl Database {
    /// What the relvar of this name has, or the error that evaluating it raises. Of a base relvar it is a copy, whose
    /// tuples are shared; a virtual one is evaluated.
    pub fn value_of(&self, alloc: Global, name: &Name) -> Result<Answer<Relation>, RelvarError>
        ensures { TellsRelvar self.now name.now result }
    {
        let catalogue = self.catalogue();
        let Some((place, heading)) = catalogue.schema().relvar(name) else {
            return Err(RelvarError::Unknown);
        };
        if is_base(catalogue, place) {
            base_value(alloc, self, place)
        } else {
            evaluated(alloc, self, name, place, heading)
        }
    }
}
