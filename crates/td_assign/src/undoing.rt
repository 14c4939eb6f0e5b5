//! What a statement changed, taken back and made again.

ghost use Rattle.std.specs.Prelude.{◌≡◌, OnErr, OnOk};
ghost use Rattle.td_relvars.specs.Changed.{redone, undone};
ghost use Rattle.td_relvars.specs.Parts.{FitPart, undone_part};
ghost use Rattle.td_assign.specs.Redoing.{AreOnce, CanRedo, CanUndo, IsBetween};

use std::alloc::{AllocError, Global};
use td_relations::Delta;
use td_relvars::{Database, Part};

/// Makes each change where its relvar stands. It costs as `td_relations::apply` of each, however large the relvars are.
pub fn redo(
    alloc: Global,
    database: &mut Database,
    delta: &[(usize, Delta)],
) -> Result<(), AllocError>
    requires once { AreOnce delta.now }
    requires fits { CanRedo database.old delta.now }
    ensures ok { OnOk result (database.new ≡ record database.old { stored = redone delta.now database.old.stored }) }
    ensures err { OnErr result (IsBetween database.old (redone delta.now database.old.stored) database.new) }
{
    for (relvar, change) in delta {
        database.change(alloc, *relvar, change)?;
    }
    Ok(())
}

/// Takes each change back where its relvar stands. It costs as `redo`.
pub fn undo(
    alloc: Global,
    database: &mut Database,
    delta: &[(usize, Delta)],
) -> Result<(), AllocError>
    requires once { AreOnce delta.now }
    requires fits { CanUndo database.old delta.now }
    ensures ok { OnOk result (database.new ≡ record database.old { stored = undone delta.now database.old.stored }) }
    ensures err { OnErr result (IsBetween database.old (undone delta.now database.old.stored) database.new) }
{
    for (relvar, made) in delta {
        database.change_back(alloc, *relvar, made)?;
    }
    Ok(())
}

/// Takes each change back in the copies of its relvar; one of a relvar that is not copied is passed over. It costs as
/// `undo` of those that are. Where memory is wanting, the part is only to be dropped.
pub fn undo_part(alloc: Global, part: &mut Part, delta: &[(usize, Delta)]) -> Result<(), AllocError>
    requires { FitPart part.old.copies delta.now }
    ensures { OnOk result (part.new ≡ record part.old { copies = undone_part delta.now part.old.copies }) }
{
    for (relvar, made) in delta {
        part.change_back(alloc, *relvar, made)?;
    }
    Ok(())
}
