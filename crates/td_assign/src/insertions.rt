//! Whether a statement is an insertion, of which its changes put in each tuple.

ghost use Rattle.std.specs.Prelude.{ℕ, List, IsTrue};
ghost use Rattle.td_assign.specs.Inserting.{PutsIn};
ghost use Rattle.td_assign.specs.Readings.{IsReadText};
ghost use Rattle.td_semantics.specs.Databases.{DatabaseData, IsDatabase, stored_relvars};
ghost use Rattle.td_semantics.specs.Differences.{AreDifferences};
ghost use Rattle.td_semantics.specs.Steps.{Steps};

use crate::reading::ReadText;
use std::alloc::Global;
use td_relations::Delta;
use td_semantics::Outcome;

/// Whether the text of which this was read, with this outcome and these changes, is an INSERT of tuples that are written
/// out, and the changes put in each of these. Where memory is wanting it is told to be none. It costs the size of the
/// statement.
pub(crate) fn puts_in_all(
    alloc: Global,
    reading: &ReadText,
    outcome: &Outcome,
    changes: &[(usize, Delta)],
) -> bool
    ensures { (d e : DatabaseData) (k : ℕ) (a : List ℕ) → IsDatabase d → IsReadText d.catalogue k a reading.now → Steps d k a outcome.now e → AreDifferences (stored_relvars d.stored) (stored_relvars e.stored) changes.now → IsTrue result → PutsIn d.catalogue k a changes.now }
{
    let (Outcome::Done, Some(statement)) = (outcome, &reading.statement) else {
        return false;
    };
    match td_insertions::puts_in_all(alloc, statement, changes) {
        Ok(all) => all,
        Err(_) => false,
    }
}
