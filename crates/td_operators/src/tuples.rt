//! Relations that are written by their tuples.

ghost use Rattle.std.specs.Prelude.{◌≡◌, ◌↔◌, ◌++◌, ◌∷◌, [], IfOk, IsTrue, OnOk};
ghost use Rattle.std.specs.List.{All};
ghost use Rattle.td_algebra.specs.Functions as functions;
ghost use Rattle.td_algebra.specs.Raising.{Answers, AnswersBy};
ghost use Rattle.td_operators.specs.Operators as spec;
ghost use Rattle.td_operators.specs.Operators.{table_dee};
ghost use Rattle.td_tuples.specs.Parts.{Fits};
ghost use Rattle.td_values.specs.Data.{no_attrs};

use crate::parts::relation_value;
use std::alloc::{AllocError, Global};
use td_algebra::{Fault, Stop};
use td_relations::Relation;
use td_values::{Heading, Kind, Tuple, Value, fits};

// Whether the tuple has the names of the heading and no others, with values of their types.
fn has_heading(heading: &Heading, tuple: &Tuple) -> bool
    ensures test { result ≡ spec.fits heading.now tuple.now }
    ensures fits { IsTrue result ↔ Fits heading.now tuple.now }
{
    fits(tuple, heading)
}

// A copy of the tuple that the value is; it is untyped where that is no tuple of the heading.
fn tuple_over<W>(heading: &Heading, value: &Value) -> Result<Tuple, Fault<W>>
    ensures answers { Answers result (spec.tuple_over heading.now value.now) }
    ensures fits { IfOk result (Fits heading.now) }
{
    let Kind::Tuple(tuple) = &value.kind else {
        return Err(Fault::Raised(Stop::Untyped));
    };
    if !has_heading(heading, tuple) {
        return Err(Fault::Raised(Stop::Untyped));
    }
    Ok(tuple.copy()?)
}

fn add_tuple(found: &mut Vec<Tuple>, tuple: Tuple) -> Result<(), AllocError>
    ensures { OnOk result (found.new.items ≡ found.old.items ++ tuple ∷ []) }
{
    found.push(tuple)?;
    Ok(())
}

// Copies of the tuples that the values are, in their order. It is untyped where one of the values is no tuple of the
// heading.
fn tuples_over<W>(
    alloc: Global,
    heading: &Heading,
    values: &[Value],
) -> Result<Vec<Tuple>, Fault<W>>
    ensures answers { AnswersBy (λ v. v.items) result (spec.in_turn (spec.tuple_over heading.now) values.now) }
    ensures fit { IfOk result (λ v. All (Fits heading.now) v.items) }
{
    let mut found = Vec::new(alloc);
    for value in values {
        let tuple = tuple_over(heading, value)?;
        add_tuple(&mut found, tuple)?;
    }
    Ok(found)
}

// The relation of these tuples, which have the heading.
fn relation_from(heading: Heading, tuples: Vec<Tuple>) -> Relation
    requires { All (Fits heading) tuples.items }
    ensures { result ≡ functions.relation_from heading tuples.items }
{
    let made = Relation::from_tuples(heading, tuples);
    made
}

/// RELATION: a relation by its heading and the values of its tuples. Each must have the heading.
pub fn relation_over<W>(
    alloc: Global,
    heading: &Heading,
    values: &[Value],
) -> Result<Value, Fault<W>>
    ensures { Answers result (spec.relation_over heading.now values.now) }
{
    let tuples = tuples_over(alloc, heading, values)?;
    let heading = heading.copy()?;
    Ok(relation_value(relation_from(heading, tuples)))
}

// The tuple of no attributes.
fn empty_tuple(alloc: Global) -> Result<Tuple, AllocError>
    ensures { IfOk result (λ t. t ≡ no_attrs) }
{
    Tuple::of(alloc, Vec::new(alloc))
}

/// The relation of no attributes that has a tuple.
pub fn table_dee(alloc: Global) -> Result<Relation, AllocError>
    ensures { IfOk result (λ r. r ≡ table_dee) }
{
    let mut tuples = Vec::with_capacity(alloc, 1)?;
    tuples.push(empty_tuple(alloc)?)?;
    let heading = Heading::new(alloc)?;
    Ok(relation_from(heading, tuples))
}
