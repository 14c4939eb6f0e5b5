//! New attributes and what they are made from.
ghost use Rattle.std.specs.Prelude.{◌≡◌, IfOk, IsTrue, Some};
ghost use Rattle.std.specs.FinMap as by_name;
ghost use Rattle.td_tuples.specs.Items as spec;

use crate::headings::joined;
use std::alloc::{AllocError, Global};
use td_values::{Heading, Name, TdType, equal_types};

/// A new attribute: its name, its type, and the term that gives its value on a tuple.
#[derive(Drop)]
pub struct Item<E> {
    pub name: Name,
    pub ty: TdType,
    pub term: E,
}

/// What is asked of a group of tuples; the term gives a value on each of them.
#[derive(Drop)]
pub enum Summary<E> {
    /// How many tuples there are.
    Count,
    /// The sum of the terms, equal ones counted each; of none 0.
    Sum(E),
    /// The greatest term; of none it raises `Empty`.
    Max(E),
    /// The least term; of none it raises `Empty`.
    Min(E),
    /// Whether all terms are true; of none they are.
    And(E),
    /// Whether a term is true; of none there is none.
    Or(E),
}

/// The items' names with their types. Of two items of one name the first counts.
pub fn columns_of<E>(alloc: Global, items: &[Item<E>]) -> Result<Heading, AllocError>
    ensures { IfOk result (λ h. h ≡ spec.columns_of items.now) }
{
    let mut columns = Heading::new(alloc)?;
    for item in items {
        columns.insert(alloc, item.name.copy()?, item.ty.copy()?)?;
    }
    Ok(columns)
}

// Whether the heading has the item's name with its type.
fn has_column<E>(heading: &Heading, item: &Item<E>) -> bool
    ensures { IsTrue result → by_name.get heading.now item.now.name ≡ Some item.now.ty }
{
    match heading.type_of(&item.name) {
        Some(ty) => equal_types(ty, &item.ty),
        None => false,
    }
}

// Whether the heading has each of the items' names with its type: then the items add nothing and replace nothing.
fn has_columns_of<E>(heading: &Heading, items: &[Item<E>]) -> bool
    ensures { IsTrue result → spec.extended_columns items.now heading.now ≡ heading.now }
{
    for item in items {
        if !has_column(heading, item) {
            return false;
        }
    }
    true
}

/// The heading with the columns of the items, as new ones or in place of those of the same names. Of two items of one
/// name the first counts. Where the heading has them all with these types, it is shared.
pub fn extended_columns<E>(
    alloc: Global,
    items: &[Item<E>],
    heading: &Heading,
) -> Result<Heading, AllocError>
    ensures { IfOk result (λ h. h ≡ spec.extended_columns items.now heading.now) }
{
    if has_columns_of(heading, items) {
        return heading.copy();
    }
    let columns = columns_of(alloc, items)?;
    joined(alloc, &columns, heading)
}
