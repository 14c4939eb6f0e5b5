//! Tuples made of tuples.
ghost use Rattle.std.specs.Prelude.{◌≡◌, ◌++◌, ℕ, List, IfOk, OnOk};
ghost use Rattle.std.specs.FinMap as by_name;
ghost use Rattle.td_values.specs.Data.{Datum};
ghost use Rattle.td_tuples.specs.Parts.{cut, names_of};
ghost use Rattle.td_tuples.specs.Renamings.{renamed};
ghost use Rattle.td_tuples.specs.Unions.{beside, tuple_of, with_attribute};

use crate::names::name_after;
use std::alloc::{AllocError, Global};
use td_values::{Heading, Name, Tuple, TupleBuilder, Value, copy};

/// The tuple's attributes at the names of the heading. Each attribute costs a search among them.
pub fn cut(alloc: Global, heading: &Heading, tuple: &Tuple) -> Result<Tuple, AllocError>
    ensures { IfOk result (λ t. t ≡ cut (names_of heading.now) tuple.now) }
{
    let mut attributes = Vec::new(alloc);
    for (name, value) in tuple.attributes() {
        if heading.type_of(name).is_some() {
            attributes.push((name.copy()?, copy(alloc, value)?))?;
        }
    }
    Tuple::of(alloc, attributes)
}

/// The tuple of these attributes. Of two of one name the first counts.
pub fn tuple_of(alloc: Global, fields: Vec<(Name, Value)>) -> Result<Tuple, AllocError>
    ensures { IfOk result (λ t. t ≡ tuple_of fields.items) }
{
    let mut builder = TupleBuilder::new(alloc);
    for (name, value) in fields {
        builder.insert(name, value)?;
    }
    builder.build(alloc)
}

// Adds the attributes whose names are new.
fn add_attributes(
    alloc: Global,
    builder: &mut TupleBuilder,
    attributes: &[(Name, Value)],
) -> Result<(), AllocError>
    ensures { OnOk result ((es : List (List ℕ × Datum)) → builder.old ≡ by_name.from_entries es → builder.new ≡ by_name.from_entries (es ++ attributes.now)) }
{
    for (name, value) in attributes {
        builder.insert(name.copy()?, copy(alloc, value)?)?;
    }
    Ok(())
}

/// The first tuple's attributes, and the second one's at other names.
pub fn beside(alloc: Global, first: &Tuple, second: &Tuple) -> Result<Tuple, AllocError>
    ensures { IfOk result (λ t. t ≡ beside first.now second.now) }
{
    let mut both = TupleBuilder::new(alloc);
    add_attributes(alloc, &mut both, first.attributes())?;
    add_attributes(alloc, &mut both, second.attributes())?;
    both.build(alloc)
}

/// The tuple with its names replaced, all at once: each item is an old name with its new one.
pub fn renamed(alloc: Global, items: &[(Name, Name)], tuple: &Tuple) -> Result<Tuple, AllocError>
    ensures { IfOk result (λ t. t ≡ renamed items.now tuple.now) }
{
    let mut builder = TupleBuilder::new(alloc);
    for (name, value) in tuple.attributes() {
        builder.insert(name_after(items, name)?, copy(alloc, value)?)?;
    }
    builder.build(alloc)
}

/// The tuple with this value at the name, new or replaced.
pub fn with_attribute(
    alloc: Global,
    tuple: &Tuple,
    name: Name,
    value: Value,
) -> Result<Tuple, AllocError>
    ensures { IfOk result (λ t. t ≡ with_attribute name value tuple.now) }
{
    let mut more = TupleBuilder::new(alloc);
    more.insert(name, value)?;
    add_attributes(alloc, &mut more, tuple.attributes())?;
    more.build(alloc)
}
