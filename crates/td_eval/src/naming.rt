//! Tuples with the names of the relvar into which they are put.

ghost use Rattle.std.specs.FinSet as set;
ghost use Rattle.std.specs.Prelude.{◌≡◌, IfOk};
ghost use Rattle.td_algebra.specs.KeyIndexes.{AreKeyIndexes};
ghost use Rattle.td_relations.specs.Sets.{IsRelation, body};

use std::alloc::{AllocError, Global};
use td_algebra::{KeyIndex, minus_by};
use td_relations::{Relation, minus};
use td_values::{Heading, Name, Rows, TdType, Tuple, Value, copy};

// The name, shared with the field at the place if that has the same one.
fn shared_name(fields: &[(Name, TdType)], at: usize, name: &Name) -> Result<Name, AllocError>
    ensures { IfOk result (λ n. n ≡ name.now) }
{
    match fields.get(at) {
        Some(field) if field.0 == *name => field.0.copy(),
        _ => name.copy(),
    }
}

// The attribute, its name shared with the field at the place if that has the same one.
fn shared_attribute(
    alloc: Global,
    fields: &[(Name, TdType)],
    at: usize,
    attribute: &(Name, Value),
) -> Result<(Name, Value), AllocError>
    ensures { IfOk result (λ a. a ≡ attribute.now) }
{
    let name = shared_name(fields, at, &attribute.0)?;
    Ok((name, copy(alloc, &attribute.1)?))
}

// The tuple, its names shared with the heading.
fn tuple_with_names_of(alloc: Global, heading: &Heading, tuple: &Tuple) -> Result<Tuple, AllocError>
    ensures { IfOk result (λ t. t ≡ tuple.now) }
{
    let fields = heading.fields();
    let attributes = tuple.attributes();
    let mut shared = Vec::with_capacity(alloc, attributes.len())?;
    for at in 0..attributes.len() {
        shared.push(shared_attribute(alloc, fields, at, &attributes[at])?)?;
    }
    Tuple::of(alloc, shared)
}

// The tuples in the same order, the names of each shared with the heading.
fn all_named_as(
    alloc: Global,
    heading: &Heading,
    tuples: &[Tuple],
) -> Result<Vec<Tuple>, AllocError>
    ensures { IfOk result (λ v. v.items ≡ tuples.now) }
{
    let mut named = Vec::with_capacity(alloc, tuples.len())?;
    for tuple in tuples {
        named.push(tuple_with_names_of(alloc, heading, tuple)?)?;
    }
    Ok(named)
}

// The relation, whose heading and tuples share the names of this heading, which is its own.
fn with_names_of(
    alloc: Global,
    heading: &Heading,
    relation: &Relation,
) -> Result<Relation, AllocError>
    requires { heading.now ≡ relation.now.heading }
    ensures { IfOk result (λ r. r ≡ relation.now) }
{
    relation.rows_fit();
    let tuples = all_named_as(alloc, heading, relation.tuples())?;
    Ok(Relation::of(Rows::new(heading.copy()?, tuples)))
}

// What the relation lacks of these tuples, by the first index where there is one.
fn without(
    alloc: Global,
    more: &Relation,
    relation: &Relation,
    indexes: &[KeyIndex],
) -> Result<Relation, AllocError>
    requires heading { more.now.heading ≡ relation.now.heading }
    requires indexes { AreKeyIndexes relation.now indexes.now }
    ensures { IfOk result (IsRelation more.now.heading (set.difference (body more.now) (body relation.now))) }
{
    match indexes.first() {
        Some(index) => minus_by(alloc, more, relation, index),
        None => minus(alloc, more, relation),
    }
}

/// What the relation lacks of these tuples, each made anew with the relation's names. What comes with a statement has
/// the names of its text, for each tuple its own: who keeps the tuples would keep these too, and read them wherever an
/// attribute is asked for by name. It costs what `minus_by` of td_algebra does by the first of the relation's indexes,
/// or `minus` of td_relations where there is none, and a list for each tuple that is lacking; values are shared.
pub fn lacking_tuples(
    alloc: Global,
    more: &Relation,
    relation: &Relation,
    indexes: &[KeyIndex],
) -> Result<Relation, AllocError>
    requires heading { more.now.heading ≡ relation.now.heading }
    requires indexes { AreKeyIndexes relation.now indexes.now }
    ensures { IfOk result (IsRelation more.now.heading (set.difference (body more.now) (body relation.now))) }
{
    let fresh = without(alloc, more, relation, indexes)?;
    with_names_of(alloc, relation.heading(), &fresh)
}
