//! Slots for connections. A connection keeps its slot until it ends.

ghost use Rattle.std.specs.Prelude.{◌≡◌, All, IfOk, None, Some, slice_set};

use std::alloc::Global;
use std::io;

/// This many slots, none of them taken.
pub(crate) fn empty_slots<T: Drop>(alloc: Global, count: usize) -> io::Result<Vec<Option<T>>>
    ensures { IfOk result (λ slots. All (λ slot. slot ≡ None) slots.items) }
{
    let mut slots = Vec::with_capacity(alloc, count)?;
    for _ in 0..count {
        match slots.push(None) {
            Ok(()) => {}
            Err(_) => return Err(io::ErrorKind::OutOfMemory.into()),
        }
    }
    Ok(slots)
}

/// The first of the slots from `first` to before `end` that is not taken; None where all are.
pub(crate) fn free_slot<T: Drop>(slots: &[Option<T>], first: usize, end: usize) -> Option<usize> {
    for slot in first..end {
        if let Some(None) = slots.get(slot) {
            return Some(slot);
        }
    }
    None
}

/// Puts a connection into a slot.
pub(crate) fn fill_slot<T: Drop>(slots: &mut Vec<Option<T>>, slot: usize, connection: T)
    ensures { slots.new.items ≡ slice_set slots.old.items slot (Some connection) }
{
    if slot < slots.len() {
        slots[slot] = Some(connection);
    }
}
