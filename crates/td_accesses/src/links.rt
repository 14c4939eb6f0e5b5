//! Links: tuples that are inserted, by the attributes of a reference from their relvar or to it.

ghost use Rattle.std.specs.Prelude.{◌≡◌, IfOk, OnOk, true};
ghost use Rattle.std.specs.List.{All};
ghost use Rattle.td_accesses.specs.ForProofs.Growing.{AreLinked, AreLinksGrown, IsElsewhere, LacksPart};

use crate::by_keys::{place_by, put_in};
use crate::dependencies::{Dependencies, RelvarDependencies};
use std::alloc::{AllocError, Global};
use td_algebra::KeyIndex;
use td_incremental::Reference;
use td_relations::Relation;
use td_values::{Name, Tuple};

// Adds a link by these names that has the tuples, where there is none.
fn link_by(
    alloc: Global,
    links: &mut Vec<KeyIndex>,
    names: &[Name],
    relation: &Relation,
) -> Result<(), AllocError>
    ensures { AreLinked relation.now links.old.items → OnOk result (AreLinked relation.now links.new.items) }
{
    if place_by(links, names).is_none() {
        links.push(KeyIndex::new(alloc, relation, names)?)?;
    }
    Ok(())
}

// Adds one for each of these references.
fn link_all(
    alloc: Global,
    links: &mut Vec<KeyIndex>,
    references: &[Reference],
    relation: &Relation,
) -> Result<(), AllocError>
    ensures { AreLinked relation.now links.old.items → OnOk result (AreLinked relation.now links.new.items) }
{
    for reference in references {
        link_by(alloc, links, &reference.names, relation)?;
    }
    Ok(())
}

// Adds one for each of these references that is to the relvar.
fn link_referring(
    alloc: Global,
    links: &mut Vec<KeyIndex>,
    references: &[Reference],
    relvar: usize,
    relation: &Relation,
) -> Result<(), AllocError>
    ensures { AreLinked relation.now links.old.items → OnOk result (AreLinked relation.now links.new.items) }
{
    for reference in references {
        if reference.relvar == relvar {
            link_by(alloc, links, &reference.names, relation)?;
        }
    }
    Ok(())
}

// Links that have the tuples, which are inserted into the relvar: one for each reference to it.
fn referring_links(
    alloc: Global,
    dependencies: &[RelvarDependencies],
    relvar: usize,
    relation: &Relation,
) -> Result<Vec<KeyIndex>, AllocError>
    ensures { IfOk result (λ v. AreLinked relation.now v.items) }
{
    let mut links = Vec::new(alloc);
    for own in dependencies {
        link_referring(alloc, &mut links, &own.references, relvar, relation)?;
    }
    Ok(links)
}

/// Links that have the tuples, which are inserted into the relvar: one for each reference to it or from it.
pub(crate) fn links_of(
    alloc: Global,
    dependencies: &Dependencies,
    relvar: usize,
    relation: &Relation,
) -> Result<Vec<KeyIndex>, AllocError>
    ensures { IfOk result (λ v. AreLinked relation.now v.items) }
{
    let mut links = referring_links(alloc, &dependencies.relvars, relvar, relation)?;
    if let Some(own) = dependencies.at(relvar) {
        link_all(alloc, &mut links, &own.references, relation)?;
    }
    Ok(links)
}

/// Puts the relation's tuples into each link, or says that one has tuples of another heading.
pub(crate) fn put_in_all(
    alloc: Global,
    links: &mut Vec<KeyIndex>,
    relation: &Relation,
) -> Result<bool, AllocError>
    ensures kept { OnOk result (AreLinksGrown links.old.items links.new.items) }
    ensures there { IfOk result (λ b. b ≡ true → AreLinked relation.now links.new.items) }
{
    let many = links.as_slice().len();
    for at in 0..many {
        if !put_in(alloc, &mut links[at], relation)? {
            return Ok(false);
        }
    }
    Ok(true)
}

// Whether none of the tuples, which may be of any heading, has its values at the link's names in it.
fn lack_values(alloc: Global, link: &KeyIndex, tuples: &[Tuple]) -> Result<bool, AllocError>
    ensures { IfOk result (λ b. b ≡ true → All (LacksPart link.now) tuples.now) }
{
    for tuple in tuples {
        if !link.found(alloc, tuple)?.tuples().is_empty() {
            return Ok(false);
        }
    }
    Ok(true)
}

// Whether the reference is to another relvar, or there is a link by its names that has none of the tuples' values.
fn refers_elsewhere(
    alloc: Global,
    reference: &Reference,
    relvar: usize,
    links: &[KeyIndex],
    relation: &Relation,
) -> Result<bool, AllocError>
    ensures { IfOk result (λ b. b ≡ true → IsElsewhere relvar links.now relation.now reference.now) }
{
    if reference.relvar != relvar {
        return Ok(true);
    }
    match place_by(links, &reference.names) {
        Some(at) => lack_values(alloc, &links[at], relation.tuples()),
        None => Ok(false),
    }
}

/// Whether this is so of each of the references.
pub(crate) fn refer_elsewhere(
    alloc: Global,
    references: &[Reference],
    relvar: usize,
    links: &[KeyIndex],
    relation: &Relation,
) -> Result<bool, AllocError>
    ensures { IfOk result (λ b. b ≡ true → All (IsElsewhere relvar links.now relation.now) references.now) }
{
    for reference in references {
        if !refers_elsewhere(alloc, reference, relvar, links, relation)? {
            return Ok(false);
        }
    }
    Ok(true)
}
