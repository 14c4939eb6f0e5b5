//! Whether parts of tuples tell them apart.
ghost use Rattle.std.specs.Prelude.{◌↔◌, IsTrue, IfOk};
ghost use Rattle.td_algebra.specs.ForProofs.Index.{Repeat};
ghost use Rattle.td_algebra.specs.Keys.{TellApart};

use crate::index::TupleIndex;
use std::alloc::{AllocError, Global};
use td_relations::Relation;
use td_tuples::columns_in;
use td_values::Name;

// Whether some tuple of the index has the values of the one before it.
fn has_repeats(index: &TupleIndex) -> bool
    ensures { IsTrue result ↔ Repeat index.now.places.items index.now.tuples.items }
{
    for at in 0..index.tuples.len() {
        if index.repeats(at) {
            return true;
        }
    }
    false
}

/// Whether the tuples are told apart by their parts at these names. It makes no part: for n tuples it costs a list of
/// them, shared, and of the order of n log n comparisons, fewer where they ascend by these parts.
pub fn tell_apart(alloc: Global, r: &Relation, names: &[Name]) -> Result<bool, AllocError>
    ensures { IfOk result (λ b. IsTrue b ↔ TellApart names.now r.now) }
{
    let columns = columns_in(alloc, names, r.heading())?;
    let index = TupleIndex::new(alloc, r, &columns, r, &columns, 0)?;
    Ok(!has_repeats(&index))
}
