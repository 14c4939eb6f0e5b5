//! Places of relvars: lists that grow, and lists that meet.

ghost use Rattle.std.specs.Prelude.{◌≡◌, ◌↔◌, ℕ, IsTrue, List, OnOk, false};
ghost use Rattle.std.specs.List.{Contains};
ghost use Rattle.td_headings.specs.Catalogues.{CatalogueData};
ghost use Rattle.td_accesses.specs.Commuting.{AreApart};
ghost use Rattle.td_accesses.specs.Covering.{KeepsWithin};
ghost use Rattle.td_accesses.specs.ForProofs.Growing.{AreIn};

use std::alloc::AllocError;

// Adds the place, if it is not there yet.
fn add_place(all: &mut Vec<usize>, place: usize) -> Result<(), AllocError>
    ensures kept { OnOk result (AreIn all.old.items all.new.items) }
    ensures added { OnOk result (Contains all.new.items place) }
{
    if all.contains(&place) {
        return Ok(());
    }
    all.push(place)?;
    Ok(())
}

/// Adds the places that are not there yet.
pub(crate) fn add_places(all: &mut Vec<usize>, places: &[usize]) -> Result<(), AllocError>
    ensures kept { OnOk result (AreIn all.old.items all.new.items) }
    ensures added { OnOk result (AreIn places.now all.new.items) }
{
    for place in places {
        add_place(all, *place)?;
    }
    Ok(())
}

// Whether a place is in both lists.
fn meet(places: &[usize], others: &[usize]) -> bool
    ensures { IsTrue result ↔ ((n : ℕ) × Contains others.now n × Contains places.now n) }
{
    others.iter().any(|other| places.contains(other))
}

/// Whether one of two statements assigns a relvar on which the other one hangs.
pub(crate) fn clash(
    reads: &[usize],
    writes: &[usize],
    other_reads: &[usize],
    other_writes: &[usize],
) -> bool
    ensures { result ≡ false → (c : CatalogueData) (k l : ℕ) (a b : List ℕ) → KeepsWithin c k a reads.now writes.now → KeepsWithin c l b other_reads.now other_writes.now → AreApart c k a l b }
{
    meet(writes, other_reads) || meet(other_writes, reads)
}
