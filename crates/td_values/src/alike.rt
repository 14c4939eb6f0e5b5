//! Tuples of one heading, whose names are equal: their values alone are compared.
ghost use Rattle.std.specs.Prelude.{◌≡◌, IsPermutation, IsSorted, length};
ghost use Rattle.std.specs.List.{All};
ghost use Rattle.std.specs.List.Sorted.{IsBinarySearchResult, IsSearchInRange};
ghost use Rattle.td_values.specs.Alike.{AreAlike, bare, bare_tuples, values_order};
ghost use Rattle.td_values.specs.Data.{attrs_of, tuples_of};
ghost use Rattle.td_values.specs.Order.{attrs_order, order, tuples_order};
ghost use Rattle.td_values.specs.Whole.{heading_of};

use crate::names::Name;
use crate::order::{compare_items, kind_rank};
use crate::values::{whole_tuple, whole_tuples};
use crate::{Kind, Tuple, Value};
use std::cmp::Ordering;

/// The order of two tuples of one heading. It takes no memory, and walks no names.
pub fn compare_alike(a: &Tuple, b: &Tuple) -> Ordering
    requires { heading_of a.now ≡ heading_of b.now }
    ensures { result ≡ attrs_order a.now b.now }
{
    whole_tuple(a);
    whole_tuple(b);
    compare_values(a, b)
}

/// Sorts tuples of one heading. It takes no memory, and costs as `sort_unstable`.
pub fn sort_alike(tuples: &mut Vec<Tuple>)
    requires { AreAlike tuples.old.items }
    ensures permutation { IsPermutation tuples.old.items tuples.new.items }
    ensures sorted { IsSorted attrs_order tuples.new.items }
{
    whole_tuples(tuples);
    tuples.sort_unstable_by(|s, t| compare_values(s, t));
}

/// Where the tuple stands among sorted tuples of its heading, or where it would go. It takes no memory, and costs as
/// `binary_search`.
pub fn search_alike(tuples: &[Tuple], tuple: &Tuple) -> Result<usize, usize>
    requires { All (λ t. heading_of t ≡ heading_of tuple.now) tuples.now }
    ensures bound { IsSearchInRange result (length tuples.now) }
    ensures position { IsBinarySearchResult (λ t. attrs_order t tuple.now) tuples.now result }
{
    whole_tuples(tuples);
    whole_tuple(tuple);
    tuples.binary_search_by(|t| compare_values(t, tuple))
}

/// The order of tuples by their values alone, whatever their names. It takes no memory.
#[cycle(compare_values)]
pub fn compare_values(a: &Tuple, b: &Tuple) -> Ordering
    ensures { result ≡ values_order a.now b.now }
{
    compare_in_turn(&a.attributes, &b.attributes)
}

// The order of attribute lists by their values, one by one, whatever their names; where one begins with the other, the
// shorter comes first.
#[cycle(compare_values)]
#[tactic(auto, using(crate::proofs::Walks::values_ended))]
fn compare_in_turn(a: &[(Name, Value)], b: &[(Name, Value)]) -> Ordering
    ensures { result ≡ values_order (attrs_of a.now) (attrs_of b.now) }
{
    let mut i = 0;
    while i < a.len() && i < b.len() {
        let ordering = compare_bare(&a[i].1, &b[i].1);
        if ordering != Ordering::Equal {
            return ordering;
        }
        i += 1;
    }
    a.len().cmp(&b.len())
}

// The order of values without the names of attributes, the headings of relations and the types of possreps. Components
// of user values are compared whole.
#[cycle(compare_values)]
fn compare_bare(a: &Value, b: &Value) -> Ordering
    ensures { result ≡ order (bare a.now) (bare b.now) }
{
    match (&a.kind, &b.kind) {
        (Kind::Boolean(x), Kind::Boolean(y)) => x.cmp(y),
        (Kind::Integer(x), Kind::Integer(y)) => x.cmp(y),
        (Kind::Char(x), Kind::Char(y)) => x.compare(y),
        (Kind::User(p, xs), Kind::User(q, ys)) => {
            let names = p.name().compare(q.name());
            names.then(compare_items(&xs.values, &ys.values))
        }
        (Kind::Tuple(s), Kind::Tuple(t)) => compare_values(s, t),
        (Kind::Relation(r), Kind::Relation(s)) => compare_bare_rows(&r.tuples, &s.tuples),
        _ => kind_rank(a).cmp(&kind_rank(b)),
    }
}

// The order of lists of tuples by their values alone, tuple by tuple; where one begins with the other, the shorter
// comes first.
#[cycle(compare_values)]
#[tactic(auto, using(crate::proofs::Walks::bare_tuples_ended))]
fn compare_bare_rows(a: &[Tuple], b: &[Tuple]) -> Ordering
    ensures { result ≡ tuples_order (bare_tuples (tuples_of a.now)) (bare_tuples (tuples_of b.now)) }
{
    let mut i = 0;
    while i < a.len() && i < b.len() {
        let ordering = compare_values(&a[i], &b[i]);
        if ordering != Ordering::Equal {
            return ordering;
        }
        i += 1;
    }
    a.len().cmp(&b.len())
}
