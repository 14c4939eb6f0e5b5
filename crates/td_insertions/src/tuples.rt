//! The tuples that an insertion adds.

ghost use Rattle.std.specs.Prelude.{◌≡◌, true, ℕ, List, length, IfOk, IfSome};
ghost use Rattle.td_syntax.specs.declared.script.Action.{Action};
ghost use Rattle.td_syntax.specs.declared.script.Statement.{Statement};
ghost use Rattle.td_values.specs.Rows.{AreRows};
ghost use Rattle.td_headings.specs.Statements.{IsAssignment, TypesStatement};
ghost use Rattle.td_insertions.specs.ForProofs.Emptied.{IsOverNothing};
ghost use Rattle.td_insertions.specs.Insertions.{IsInsertion, PutsInAll};
ghost use Rattle.td_semantics.specs.Databases.{DatabaseData, IsDatabase, stored_relvars};
ghost use Rattle.td_semantics.specs.Differences.{AreDifferences};
ghost use Rattle.td_semantics.specs.Steps.{IsRead, Steps};
ghost use Rattle.td_semantics.specs.Stored.{AreStored};
ghost use Rattle.td_semantics.specs.declared.outcome.Outcome.TheVariants.{Done};

use crate::emptied::Emptied;
use crate::written::{Written, sole_assignment, sole_item, written_insertion};
use std::alloc::{AllocError, Global};
use td_eval::Lookup;
use td_headings::{Catalogue, TypedAssignment, TypedStatement};
use td_relations::{Delta, Relation};
use td_semantics::Failure;

// The relation that the source has where its target has no tuples.
fn tuples_over_nothing<L: Lookup>(
    alloc: Global,
    catalogue: &Catalogue,
    assignment: &TypedAssignment,
    lookup: &L,
) -> Result<Relation, Failure>
    requires assigned { (a : Action) × IsAssignment catalogue.now a assignment.now }
    requires stored { AreStored catalogue.now (L.relvars lookup.now) }
    ensures { IfOk result (IsOverNothing catalogue.now (L.relvars lookup.now) assignment.now) }
{
    match catalogue.schema().relvar_at(assignment.target) {
        Some((_, heading)) => {
            let nothing = Relation::empty(alloc, heading.copy()?);
            let emptied = Emptied {
                lookup,
                relvar: assignment.target,
                nothing: &nothing,
            };
            td_eval::relation(alloc, catalogue, heading, &assignment.source, &emptied)
        }
        None => unreachable!(),
    }
}

/// The relvar into which the statement inserts, and the tuples, where these are written out by expressions that read no
/// relvar. None too where one of them raises. The relvars that are looked up do not matter.
pub fn inserted_tuples<L: Lookup>(
    alloc: Global,
    catalogue: &Catalogue,
    statement: &TypedStatement,
    lookup: &L,
) -> Result<Option<(usize, Relation)>, AllocError>
    requires typed { (s : Statement) × TypesStatement catalogue.now s statement.now }
    requires stored { AreStored catalogue.now (L.relvars lookup.now) }
    ensures { IfOk result (λ o. IfSome o (λ p. IsInsertion catalogue.now statement.now p.0 p.1)) }
{
    catalogue.was_defined();
    let Some(written) = written_insertion(alloc, statement)? else {
        return Ok(None);
    };
    let Some(assignment) = sole_assignment(statement) else {
        return Ok(None);
    };
    match tuples_over_nothing(alloc, catalogue, assignment, lookup) {
        Ok(tuples) => {
            tuples.rows_fit();
            Ok(Some((written.target, tuples)))
        }
        Err(Failure::Raised(_)) => Ok(None),
        Err(Failure::OutOfMemory) => Err(AllocError),
    }
}

// Whether the change puts into this target as many tuples as are written out.
fn puts_as_many(written: &Written, change: &(usize, Delta)) -> bool
    ensures target { result ≡ true → written.now.target ≡ change.now.0 }
    ensures many { result ≡ true → written.now.many ≡ length change.now.1.inserted.tuples }
    ensures rows { AreRows change.now.1.inserted.heading change.now.1.inserted.tuples }
{
    let inserted = change.1.inserted();
    let many = inserted.tuples().len();
    written.target == change.0 && written.many == many
}

/// Whether the statement, which was done and made these changes, is an insertion of which they put in each tuple. It
/// evaluates nothing: so many tuples were put in as are written out.
pub fn puts_in_all(
    alloc: Global,
    statement: &TypedStatement,
    changes: &[(usize, Delta)],
) -> Result<bool, AllocError>
    ensures { (d e : DatabaseData) (k : ℕ) (a : List ℕ) → IsDatabase d → IsRead d.catalogue k a statement.now → Steps d k a Done e → AreDifferences (stored_relvars d.stored) (stored_relvars e.stored) changes.now → IfOk result (λ b. b ≡ true → PutsInAll d.catalogue statement.now changes.now) }
{
    let Some(change) = sole_item(changes) else {
        return Ok(false);
    };
    let Some(written) = written_insertion(alloc, statement)? else {
        return Ok(false);
    };
    Ok(puts_as_many(&written, change))
}
