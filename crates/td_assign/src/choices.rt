//! Which assignments a statement makes.

ghost use Rattle.std.specs.Prelude.{◌≡◌, IfOk, MatchResult, Ok};
ghost use Rattle.td_headings.specs.Statements.{TypesStatement};
ghost use Rattle.td_syntax.specs.declared.script.Statement.{Statement};
ghost use Rattle.td_assign.specs.ForProofs.Given.{AreAssigned, Stands};
ghost use Rattle.td_assign.specs.ForProofs.Prepared.{chosen_by};

use std::alloc::Global;
use td_headings::{TypedAssignment, TypedStatement};
use td_relvars::Database;
use td_semantics::Failure;

/// The assignments that the statement makes: of a conditional one, its condition over the database decides.
pub(crate) fn choose_assignments<'s>(
    alloc: Global,
    database: &Database,
    statement: &'s TypedStatement,
) -> Result<&'s [TypedAssignment], Failure>
    requires { (s : Statement) × TypesStatement database.now.catalogue s statement.now }
    ensures told { MatchResult result (λ xs. chosen_by database.now statement.now ≡ Ok xs.now) (λ f. Stands f (chosen_by database.now statement.now)) }
    ensures assigned { MatchResult result (λ xs. AreAssigned database.now.catalogue xs.now) (λ f. Unit {0}) }
{
    match statement {
        TypedStatement::Assignment(all) => Ok(all.as_slice()),
        TypedStatement::Conditional(condition, made, otherwise) => {
            match td_eval::truth(alloc, database.catalogue(), condition, database) {
                Ok(true) => Ok(made.as_slice()),
                Ok(false) => Ok(otherwise.as_slice()),
                Err(failure) => Err(failure),
            }
        }
    }
}
