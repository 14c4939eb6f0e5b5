//! Keys judged by an index of all tuples.

ghost use Rattle.std.specs.Prelude.{◌≡◌, ◌↔◌, ℕ, IsTrue, List};
ghost use Rattle.std.specs.List.{list_all};
ghost use Rattle.std.specs.Ordering.{eq_by_cmp};
ghost use Rattle.td_values.specs.Order.{attrs_order};
ghost use Rattle.td_algebra.specs.KeyIndexes.{IsKeyIndex};
ghost use Rattle.td_algebra.specs.Keys.{TellApartFrom};
ghost use Rattle.td_integrity.specs.ForProofs.Found.{are_all, finds_itself};
ghost use Rattle.td_values.specs.Rows.{RowsData};

use td_algebra::KeyIndex;
use td_relations::Relation;
use td_values::Tuple;

// Whether each of these tuples is this one.
fn are_all(tuples: &[Tuple], tuple: &Tuple) -> bool
    ensures { result ≡ are_all tuple.now tuples.now }
{
    tuples.iter().all(|other| other == tuple)
}

// Whether each of the inserted tuples finds no other one.
fn find_themselves(index: &KeyIndex, inserted: &Relation) -> bool
    requires { inserted.now.heading ≡ index.now.heading }
    ensures { result ≡ list_all (finds_itself index.now) inserted.now.tuples }
{
    inserted.rows_fit();
    for tuple in inserted.tuples() {
        if !are_all(index.with_key_of(tuple), tuple) {
            return false;
        }
    }
    true
}

/// Whether the inserted tuples are told from all others of a relation by their parts at the key by which the index has
/// its tuples. For k inserted tuples and n in all it costs of the order of k log n comparisons of values at places, and
/// takes no memory.
pub(crate) fn tell_apart_by(index: &KeyIndex, inserted: &Relation) -> bool
    requires { inserted.now.heading ≡ index.now.heading }
    ensures { (key : List (List ℕ)) (after : RowsData) → IsKeyIndex key after index.now → IsTrue result ↔ TellApartFrom key inserted.now after }
{
    find_themselves(index, inserted)
}
