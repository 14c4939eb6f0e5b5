//! The end of a history, taken back.

ghost use Rattle.std.specs.Prelude.{◌≡◌, ◌≤◌, OnOk, length, drop, take};
ghost use Rattle.td_stamps.specs.History.{History};
ghost use Rattle.td_rollback.specs.Going.{AreAlikeBut, Begins};
ghost use Rattle.td_rollback.specs.Touched.{AreMore};

use crate::machine::Machine;
use crate::stamps::is_old;
use std::alloc::{AllocError, Global};
use td_stamps::{Entry, Stamp};

// How many entries the two begin with alike.
pub(crate) fn common_of(old: &[Entry], new: &[Entry]) -> usize
    requires { AreMore old.now new.now }
    ensures alike { take result old.now ≡ take result new.now }
    ensures in_old { result ≤ length old.now }
    ensures in_new { result ≤ length new.now }
{
    let mut common = 0;
    while common < old.len() && common < new.len() && is_old(&new[common], &old[common]) {
        common += 1;
    }
    common
}

// Takes the last entries back, until so many are left.
pub(crate) fn undo_end<M: Machine>(
    alloc: Global,
    machine: &mut M,
    old: &[Entry],
    log: &[(Stamp, M::Record)],
    kept: usize,
) -> Result<(), AllocError>
    requires history { (o : M) × Begins M.sound M.origin M.steps o old.now log.now machine.old }
    requires each { length log.now ≡ length old.now }
    requires kept { kept ≤ length old.now }
    ensures front { (o : M) → Begins M.sound M.origin M.steps o old.now log.now machine.old → OnOk result (Begins M.sound M.origin M.steps o (take kept old.now) (take kept log.now) machine.new) }
    ensures behind { OnOk result (History M.steps machine.new (drop kept old.now) (drop kept log.now) machine.old) }
    ensures elsewhere { AreAlikeBut M.alike (M.targets (M.origin machine.old)) (drop kept old.now) machine.old machine.new }
    ensures origin { M.origin machine.new ≡ M.origin machine.old }
{
    let mut left = old.len();
    while left > kept {
        left -= 1;
        machine.undo(alloc, &log[left].1)?;
    }
    Ok(())
}
