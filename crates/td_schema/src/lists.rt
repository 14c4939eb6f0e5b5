//! Lists of names: attribute lists, renamings, the names of new attributes.

ghost use Rattle.std.specs.Prelude.{◌≡◌, ◌&&◌, IfOk, map};
ghost use Rattle.std.specs.List.{filter};
ghost use Rattle.td_schema.specs.Kinds.{are_there};
ghost use Rattle.td_schema.specs.Lists as spec;
ghost use Rattle.td_schema.specs.Results.{Gives};
ghost use Rattle.td_schema.specs.Written.{names};
ghost use Rattle.td_tuples.specs.Parts.{is_out, names_of};
ghost use Rattle.td_tuples.specs.Renamings.{name_after};

use crate::error::TypeError;
use crate::kinds::are_there;
use indexmap::IndexSet;
use sqlite_items::Items;
use std::alloc::{AllocError, Global};
use td_syntax::tree::{Attributes, Named, Renaming};
use td_tuples::{columns_out, is_in, name_after};
use td_values::{Heading, Name};

// So few names are compared with one another, which costs less than to hash them.
const FEW: usize = 8;

// Whether no name stands twice, by comparing each with those behind it.
fn are_few_distinct(names: &[Name]) -> bool
    ensures { result ≡ spec.are_distinct names.now }
{
    for at in 0..names.len() {
        if is_in(&names[at + 1..], &names[at]) {
            return false;
        }
    }
    true
}

// Whether no name stands twice, by hashing each once.
fn are_many_distinct(alloc: Global, names: &[Name]) -> Result<bool, AllocError>
    ensures { IfOk result (λ distinct. distinct ≡ spec.are_distinct names.now) }
{
    let mut seen: IndexSet<Name> = IndexSet::new(alloc);
    for name in names {
        if !seen.insert(name.copy()?)? {
            return Ok(false);
        }
    }
    Ok(true)
}

/// Whether no name stands twice. Each of many is hashed once.
pub fn are_distinct(alloc: Global, names: &[Name]) -> Result<bool, AllocError>
    ensures { IfOk result (λ distinct. distinct ≡ spec.are_distinct names.now) }
{
    if names.len() <= FEW {
        return Ok(are_few_distinct(names));
    }
    are_many_distinct(alloc, names)
}

/// The names of the parts, shared.
pub fn names<T>(alloc: Global, parts: &[Named<T>]) -> Result<Vec<Name>, AllocError>
    ensures { IfOk result (λ v. v.items ≡ names parts.now) }
{
    let mut found = Vec::with_capacity(alloc, parts.len())?;
    for part in parts {
        found.push(part.name.copy()?)?;
    }
    Ok(found)
}

/// The names of the attributes, in name order.
pub(crate) fn attribute_names(alloc: Global, heading: &Heading) -> Result<Items<Name>, AllocError>
    ensures { IfOk result (λ v. v ≡ names_of heading.now) }
{
    let mut found = Items::new(alloc);
    for (name, _) in heading.fields() {
        found.push(name.copy()?)?;
    }
    Ok(found)
}

/// A copy of the list, whose names share their characters with the first ones.
pub fn copies(alloc: Global, names: &[Name]) -> Result<Items<Name>, AllocError>
    ensures { IfOk result (λ v. v ≡ names.now) }
{
    let mut copies = Items::new(alloc);
    for name in names {
        copies.push(name.copy()?)?;
    }
    Ok(copies)
}

// The names of the heading's attributes that are not among these, in name order.
fn others(alloc: Global, names: &[Name], heading: &Heading) -> Result<Items<Name>, AllocError>
    ensures { IfOk result (λ v. v ≡ filter (is_out names.now) (names_of heading.now)) }
{
    let rest = columns_out(alloc, names, heading)?;
    attribute_names(alloc, &rest)
}

// The names that stand in the attribute list, be they those that stay or those that ALL BUT leaves out.
fn named_attributes(attributes: &Attributes) -> &[Name]
    ensures { result.now ≡ spec.listed attributes.now }
{
    match attributes {
        Attributes::Only(names) => names.as_slice(),
        Attributes::AllBut(names) => names.as_slice(),
    }
}

// The attributes that the list means: those in it, in its order, or for ALL BUT all others of the heading, in name
// order. Whether the names are attributes is not looked at.
fn chosen_attributes(
    alloc: Global,
    attributes: &Attributes,
    heading: &Heading,
) -> Result<Items<Name>, AllocError>
    ensures { IfOk result (λ v. v ≡ spec.chosen attributes.now heading.now) }
{
    match attributes {
        Attributes::Only(names) => copies(alloc, names.as_slice()),
        Attributes::AllBut(names) => others(alloc, names.as_slice(), heading),
    }
}

// Whether each name is an attribute's, and none stands twice.
fn are_attributes(alloc: Global, names: &[Name], heading: &Heading) -> Result<bool, AllocError>
    ensures { IfOk result (λ b. b ≡ (spec.are_distinct names.now && are_there names.now heading.now)) }
{
    Ok(are_distinct(alloc, names)? && are_there(names, heading))
}

/// The attributes that the list means. It names attributes that are there, each once.
#[tactic(auto, unfolding(crate::specs::Lists::attributes_of))]
pub fn attributes_of(
    alloc: Global,
    attributes: &Attributes,
    heading: &Heading,
) -> Result<Items<Name>, TypeError>
    ensures { Gives (spec.attributes_of attributes.now heading.now) result }
{
    if !are_attributes(alloc, named_attributes(attributes), heading)? {
        return Err(TypeError::IllTyped);
    }
    Ok(chosen_attributes(alloc, attributes, heading)?)
}

/// The renamings, each an old name with its new one.
pub fn pairs_of(alloc: Global, renamings: &[Renaming]) -> Result<Items<(Name, Name)>, AllocError>
    ensures { IfOk result (λ v. v ≡ map spec.renaming_pair renamings.now) }
{
    let mut pairs = Items::new(alloc);
    for renaming in renamings {
        pairs.push((renaming.from.copy()?, renaming.to.copy()?))?;
    }
    Ok(pairs)
}

// The old names of the renamings, in their order.
fn old_names(alloc: Global, items: &[(Name, Name)]) -> Result<Vec<Name>, AllocError>
    ensures { IfOk result (λ v. v.items ≡ spec.old_names items.now) }
{
    let mut names = Vec::with_capacity(alloc, items.len())?;
    for (old, _) in items {
        names.push(old.copy()?)?;
    }
    Ok(names)
}

// The names that the heading's attributes have after the renamings, in the order of their old names.
fn names_after(
    alloc: Global,
    items: &[(Name, Name)],
    heading: &Heading,
) -> Result<Vec<Name>, AllocError>
    ensures { IfOk result (λ v. v.items ≡ map (name_after items.now) (names_of heading.now)) }
{
    let mut names = Vec::with_capacity(alloc, heading.len())?;
    for (name, _) in heading.fields() {
        names.push(name_after(items, name)?)?;
    }
    Ok(names)
}

/// Whether the old names are there and distinct, and the names that result are distinct.
pub(crate) fn may_rename(
    alloc: Global,
    items: &[(Name, Name)],
    heading: &Heading,
) -> Result<bool, AllocError>
    ensures { IfOk result (λ b. b ≡ spec.may_rename items.now heading.now) }
{
    let old = old_names(alloc, items)?;
    if !are_attributes(alloc, &old, heading)? {
        return Ok(false);
    }
    let new = names_after(alloc, items, heading)?;
    are_distinct(alloc, &new)
}
