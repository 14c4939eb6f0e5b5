//! The transitive closure: a walk from each value along the pairs.
ghost use Rattle.std.specs.Prelude.{◌≡◌, ◌↔◌, ◌++◌, ◌<◌, ℕ, Some, true, false, length, replicate, slice_get, IsTrue, IfOk, IfSome, OnOk};
ghost use Rattle.std.specs.FinSet as set;
ghost use Rattle.std.specs.List.{All, Contains, flat_map};
ghost use Rattle.std.specs.List.Sorted.{IsStrictlySortedBy};
ghost use Rattle.std.specs.declared.cmp.Ordering.TheVariants.{Less};
ghost use Rattle.td_algebra.specs.Closures.{Closed, HasColumns, IsBinary};
ghost use Rattle.td_algebra.specs.ForProofs.Ends.{AreLinks, ArePairs, HasEnd, IsEnd, Joins, ends_in, pair_at, paired, single, singles};
ghost use Rattle.td_algebra.specs.ForProofs.Links.{Reaches, StayWithin};
ghost use Rattle.td_relations.specs.Sets.{IsRelationOf, tuple_set};
ghost use Rattle.td_values.specs.Attributes.{attribute_of};
ghost use Rattle.td_values.specs.Data.{Datum, attr, no_attrs};
ghost use Rattle.td_values.specs.Order.{attrs_order, text_cmp};

use std::alloc::{AllocError, Global};
use td_graph::{Graph, Leads, reached_by, unmarked};
use td_relations::Relation;
use td_values::{Heading, Name, Tuple, Value, compare_types, copy};

// The value alone, under the name.
fn single_attribute(alloc: Global, name: &Name, value: &Value) -> Result<Tuple, AllocError>
    ensures { IfOk result (λ t. t ≡ single name.now value.now) }
{
    let mut attributes = Vec::with_capacity(alloc, 1)?;
    attributes.push((name.copy()?, copy(alloc, value)?))?;
    Tuple::of(alloc, attributes)
}

// Adds the tuple's value at the one name, alone and under the other one.
fn add_single(
    alloc: Global,
    out: &mut Vec<Tuple>,
    tuple: &Tuple,
    at: &Name,
    name: &Name,
) -> Result<(), AllocError>
    ensures { OnOk result (out.new.items ≡ out.old.items ++ singles name.now (attribute_of at.now tuple.now)) }
{
    if let Some(value) = tuple.get(at) {
        out.push(single_attribute(alloc, name, value)?)?;
    }
    Ok(())
}

// These tuples, each once, ascending.
fn sort_distinct(tuples: Vec<Tuple>) -> Vec<Tuple>
    ensures ascending { IsStrictlySortedBy attrs_order result.items }
    ensures same { tuple_set result.items ≡ tuple_set tuples.items }
{
    let mut tuples = tuples;
    tuples.sort_unstable();
    tuples.dedup();
    tuples
}

// The values of the pairs, each alone under the first name, once and ascending.
fn ends_of(
    alloc: Global,
    tuples: &[Tuple],
    first: &Name,
    second: &Name,
) -> Result<Vec<Tuple>, AllocError>
    ensures ascending { IfOk result (λ v. IsStrictlySortedBy attrs_order v.items) }
    ensures all { IfOk result (λ v. tuple_set v.items ≡ tuple_set (flat_map (ends_in first.now second.now) tuples.now)) }
{
    let mut ends = Vec::new(alloc);
    for tuple in tuples {
        add_single(alloc, &mut ends, tuple, first, first)?;
        add_single(alloc, &mut ends, tuple, second, first)?;
    }
    Ok(sort_distinct(ends))
}

// Where the end stands.
fn place_of(ends: &[Tuple], end: &Tuple) -> Option<usize>
    requires { IsStrictlySortedBy attrs_order ends.now }
    ensures in_range { IfSome result (λ v. v < length ends.now) }
    ensures found { set.contains (tuple_set ends.now) end.now ≡ true → (v : ℕ) × (result ≡ Some v) × (slice_get ends.now v ≡ Some end.now) }
{
    ends.binary_search(end).ok()
}

// Where the tuple's value at the one name stands among the ends, which have the other name.
fn place_at(
    alloc: Global,
    ends: &[Tuple],
    tuple: &Tuple,
    at: &Name,
    name: &Name,
) -> Result<Option<usize>, AllocError>
    requires { IsStrictlySortedBy attrs_order ends.now }
    ensures in_range { IfOk result (λ o. IfSome o (λ v. v < length ends.now)) }
    ensures found { IfOk result (λ o. (x : Datum) → attribute_of at.now tuple.now ≡ Some x → HasEnd ends.now name.now x → (v : ℕ) × (o ≡ Some v) × IsEnd ends.now name.now x v) }
{
    match tuple.get(at) {
        Some(value) => {
            let end = single_attribute(alloc, name, value)?;
            Ok(place_of(ends, &end))
        }
        None => Ok(None),
    }
}

// Lets the place of the tuple's first value lead to that of its second one.
fn add_link(
    alloc: Global,
    links: &mut Graph,
    ends: &[Tuple],
    tuple: &Tuple,
    first: &Name,
    second: &Name,
) -> Result<(), AllocError>
    requires ascending { IsStrictlySortedBy attrs_order ends.now }
    requires many { length links.old ≡ length ends.now }
    ensures { OnOk result ((x y : Datum) → attribute_of first.now tuple.now ≡ Some x → attribute_of second.now tuple.now ≡ Some y → HasEnd ends.now first.now x → HasEnd ends.now first.now y → Joins ends.now first.now x y links.old links.new) }
{
    let from = place_at(alloc, ends, tuple, first, first)?;
    let to = place_at(alloc, ends, tuple, second, first)?;
    if let (Some(from), Some(to)) = (from, to) {
        links.add(from, to)?;
    }
    Ok(())
}

// The links between the ends of the pairs.
fn links_of(
    alloc: Global,
    r: &Relation,
    ends: &[Tuple],
    first: &Name,
    second: &Name,
) -> Result<Graph, AllocError>
    requires ascending { IsStrictlySortedBy attrs_order ends.now }
    requires columns { HasColumns first.now second.now r.now.heading }
    requires all { tuple_set ends.now ≡ tuple_set (flat_map (ends_in first.now second.now) r.now.tuples) }
    ensures { IfOk result (AreLinks first.now second.now ends.now r.now.tuples) }
{
    let mut links = Graph::new(alloc, ends.len())?;
    for tuple in r.tuples() {
        add_link(alloc, &mut links, ends, tuple, first, second)?;
    }
    Ok(links)
}

// The pair of the two values.
fn pair(
    alloc: Global,
    first: &Name,
    x: &Value,
    second: &Name,
    y: &Value,
) -> Result<Tuple, AllocError>
    requires { text_cmp first.now second.now ≡ Less }
    ensures { IfOk result (λ t. t ≡ attr first.now x.now (attr second.now y.now no_attrs)) }
{
    let mut attributes = Vec::with_capacity(alloc, 2)?;
    attributes.push((first.copy()?, copy(alloc, x)?))?;
    attributes.push((second.copy()?, copy(alloc, y)?))?;
    Tuple::of(alloc, attributes)
}

// Adds the pair of the two ends.
fn add_pair(
    alloc: Global,
    out: &mut Vec<Tuple>,
    first: &Name,
    second: &Name,
    from: &Tuple,
    to: &Tuple,
) -> Result<(), AllocError>
    requires { text_cmp first.now second.now ≡ Less }
    ensures { OnOk result (out.new.items ≡ out.old.items ++ paired first.now second.now (attribute_of first.now from.now) (attribute_of first.now to.now)) }
{
    if let (Some(x), Some(y)) = (from.get(first), to.get(first)) {
        out.push(pair(alloc, first, x, second, y)?)?;
    }
    Ok(())
}

// Adds the pairs of the end at the one place with those at the others.
fn add_pairs(
    alloc: Global,
    out: &mut Vec<Tuple>,
    first: &Name,
    second: &Name,
    ends: &[Tuple],
    from: usize,
    places: &[usize],
) -> Result<(), AllocError>
    requires names { text_cmp first.now second.now ≡ Less }
    requires from { from < length ends.now }
    requires places { All (λ w. w < length ends.now) places.now }
    ensures { OnOk result (out.new.items ≡ out.old.items ++ flat_map (pair_at first.now second.now ends.now from) places.now) }
{
    for place in places {
        add_pair(alloc, out, first, second, &ends[from], &ends[*place])?;
    }
    Ok(())
}

// The places that are reached from this one, by a step or more, by marks that are lent.
fn reachable_beyond(
    alloc: Global,
    links: &Graph,
    place: usize,
    marks: &mut Vec<bool>,
) -> Result<Vec<usize>, AllocError>
    requires within { StayWithin (length links.now) links.now }
    requires unmarked { marks.old.items ≡ replicate (length links.now) false }
    ensures reached { IfOk result (λ v. (w : ℕ) → Contains v.items w ↔ Reaches links.now place w) }
    ensures unmarked { OnOk result (marks.new.items ≡ marks.old.items) }
{
    let mut next = Vec::new(alloc);
    links.add_next(place, &mut next)?;
    reached_by(alloc, links, &next, marks)
}

// The pairs of each end with those that it reaches.
fn pairs_of(
    alloc: Global,
    first: &Name,
    second: &Name,
    ends: &[Tuple],
    links: &Graph,
) -> Result<Vec<Tuple>, AllocError>
    requires names { text_cmp first.now second.now ≡ Less }
    requires many { length links.now ≡ length ends.now }
    requires within { StayWithin (length links.now) links.now }
    ensures { IfOk result (λ v. ArePairs first.now second.now ends.now links.now (length ends.now) v.items) }
{
    let mut pairs = Vec::new(alloc);
    let mut marks = unmarked(alloc, links)?;
    for from in 0..ends.len() {
        let places = reachable_beyond(alloc, links, from, &mut marks)?;
        add_pairs(alloc, &mut pairs, first, second, ends, from, &places)?;
    }
    Ok(pairs)
}

/// Whether the heading has two columns of one type. It takes no memory.
pub fn is_binary(heading: &Heading) -> bool
    ensures { IsTrue result ↔ IsBinary heading.now }
{
    let fields = heading.fields();
    fields.len() == 2 && compare_types(&fields[0].1, &fields[1].1).is_eq()
}

/// The least transitive relation that contains the relation. For n pairs it costs of the order of n log n comparisons,
/// for each value a look at each pair of what it leads to, and for a closure of m pairs m tuples, which are sorted. The
/// walks from the values share one list of marks.
pub fn tclose(alloc: Global, r: &Relation) -> Result<Relation, AllocError>
    requires { IsBinary r.now.heading }
    ensures { IfOk result (IsRelationOf r.now.heading (Closed r.now)) }
{
    let fields = r.heading().fields();
    let first = &fields[0].0;
    let second = &fields[1].0;
    let ends = ends_of(alloc, r.tuples(), first, second)?;
    let links = links_of(alloc, r, &ends, first, second)?;
    let pairs = pairs_of(alloc, first, second, &ends, &links)?;
    let heading = r.heading().copy()?;
    Ok(Relation::from_tuples(heading, pairs))
}
