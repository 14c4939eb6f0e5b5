//! What base relvars had just after an earlier entry.

ghost use Rattle.std.specs.Prelude.{◌≡◌, ◌≤◌, ℕ, List, IfOk, OnOk, length};
ghost use Rattle.std.specs.List.{filter};
ghost use Rattle.td_stamps.specs.declared.entry.Entry.{Entry};
ghost use Rattle.td_semantics.specs.Databases.{DatabaseData};
ghost use Rattle.td_replay.specs.Noted.{IsLegalDatabase};
ghost use Rattle.td_replay.specs.ForProofs.Past as spec;
ghost use Rattle.td_replay.specs.ForProofs.Past.{AreAt};

use std::alloc::{AllocError, Global};
use td_assign::{Ran, undo_part};
use td_relations::Delta;
use td_relvars::Part;
use td_stamps::Stamp;

// Whether the changes have one of what is at the place.
fn is_changed(delta: &[(usize, Delta)], relvar: usize) -> bool
    ensures { result ≡ spec.is_changed delta.now relvar }
{
    delta.iter().any(|change| change.0 == relvar)
}

// Whether one of the statements changed it.
fn is_changed_in(log: &[(Stamp, Ran)], relvar: usize) -> bool
    ensures { result ≡ spec.is_changed_in log.now relvar }
{
    log.iter().any(|record| is_changed(&record.1.delta, relvar))
}

/// Those of these relvars that one of the statements changed. It costs a look at their changes for each relvar.
pub(crate) fn changed_relvars(
    alloc: Global,
    log: &[(Stamp, Ran)],
    relvars: &[usize],
) -> Result<Vec<usize>, AllocError>
    ensures { IfOk result (λ v. v.items ≡ filter (spec.is_changed_in log.now) relvars.now) }
{
    let mut changed = Vec::new(alloc);
    for relvar in relvars {
        if is_changed_in(log, *relvar) {
            changed.push(*relvar)?;
        }
    }
    Ok(changed)
}

/// Takes back in the copies what all statements changed but the first ones. It costs their changes of these relvars,
/// and a look at those of others.
pub(crate) fn undo_behind(
    alloc: Global,
    part: &mut Part,
    log: &[(Stamp, Ran)],
    kept: usize,
) -> Result<(), AllocError>
    requires kept { kept ≤ length log.now }
    requires now { (o d : DatabaseData) × (es : List Entry) × (places : List ℕ) × IsLegalDatabase o × (length es ≡ length log.now) × AreAt o d es log.now places (length log.now) part.old.copies }
    ensures { (o d : DatabaseData) (es : List Entry) (places : List ℕ) → IsLegalDatabase o → length es ≡ length log.now → AreAt o d es log.now places (length log.now) part.old.copies → OnOk result (AreAt o d es log.now places kept part.new.copies) }
{
    let mut left = log.len();
    while left > kept {
        left -= 1;
        undo_part(alloc, part, &log[left].1.delta)?;
    }
    Ok(())
}
