//! Whether parts of tuples tell those that came from all others.
ghost use Rattle.std.specs.Prelude.{◌≡◌, ◌↔◌, IsTrue, IfOk};
ghost use Rattle.std.specs.List.{list_all};
ghost use Rattle.std.specs.Ordering.{eq_by_cmp};
ghost use Rattle.td_algebra.specs.ForProofs.Index.{are_all, found};
ghost use Rattle.td_algebra.specs.Keys.{TellApartFrom};

use crate::index::TupleIndex;
use std::alloc::{AllocError, Global};
use td_relations::Relation;
use td_tuples::columns_in;
use td_values::{Name, Tuple};

// Whether each of these tuples is this one.
fn are_all(tuples: &[Tuple], tuple: &Tuple) -> bool
    ensures { result ≡ are_all tuple.now tuples.now }
{
    tuples.iter().all(|other| other == tuple)
}

// Whether each of these tuples finds itself alone in the index, or nothing.
fn find_themselves(index: &TupleIndex, tuples: &[Tuple]) -> bool
    ensures { result ≡ list_all (λ t. are_all t (found index.now t)) tuples.now }
{
    tuples.iter().all(|tuple| are_all(index.run(tuple), tuple))
}

/// Whether the inserted tuples are told from all others of the relation by their parts at these names. Where the names
/// told the tuples apart before these came, this says whether they still do. For k inserted tuples and n in all it
/// costs a list of the k, shared, and of the order of n log k comparisons of values at places: no tuple but the
/// inserted ones is copied, and no part is made.
pub fn tell_apart_from(
    alloc: Global,
    inserted: &Relation,
    after: &Relation,
    names: &[Name],
) -> Result<bool, AllocError>
    requires { inserted.now.heading ≡ after.now.heading }
    ensures { IfOk result (λ b. IsTrue b ↔ TellApartFrom names.now inserted.now after.now) }
{
    let columns = columns_in(alloc, names, inserted.heading())?;
    let index = TupleIndex::new(alloc, inserted, &columns, after, &columns, after.len())?;
    Ok(find_themselves(&index, after.tuples()))
}
