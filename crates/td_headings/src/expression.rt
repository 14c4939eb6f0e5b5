//! All that is under an expression.

ghost use Rattle.std.specs.Prelude.{◌≡◌, IfOk, slice_get};
ghost use Rattle.std.specs.List.{filter_map};
ghost use Rattle.td_headings.specs.Definitions.{Defined};
ghost use Rattle.td_headings.specs.Expressions.{HasAllUnder, base_of, selector_of, virtual_of};

use crate::catalogue::Catalogue;
use crate::defined::Origin;
use crate::reach::{possreps_selected, relvars_reached};
use sqlite_items::Items;
use std::alloc::{AllocError, Global};
use td_schema::lists::names;
use td_schema::schema::Schema;
use td_tuples::Shared;
use td_typed_trees::expression::{BaseUnder, Expression, Selector, VirtualUnder};
use td_typed_trees::tree::Typed;
use td_values::{Heading, TypeKind};

// The base relvar at the place, if there is one.
fn base_at(
    schema: &Schema,
    origins: &[Origin],
    place: usize,
) -> Result<Option<BaseUnder>, AllocError>
    ensures { IfOk result (λ o. o ≡ base_of place (slice_get origins.now place) (slice_get schema.now.relvars place)) }
{
    match (origins.get(place), schema.relvar_at(place)) {
        (Some(Origin::Base(_, _)), Some((_, heading))) => {
            let heading = heading.copy()?;
            Ok(Some(BaseUnder { place, heading }))
        }
        _ => Ok(None),
    }
}

/// The base relvars at these places.
pub(crate) fn bases_at(
    alloc: Global,
    schema: &Schema,
    origins: &[Origin],
    places: &[usize],
) -> Result<Items<BaseUnder>, AllocError>
    ensures { IfOk result (λ l. l ≡ filter_map (λ n. base_of n (slice_get origins.now n) (slice_get schema.now.relvars n)) places.now) }
{
    let mut bases = Items::new(alloc);
    for place in places {
        if let Some(base) = base_at(schema, origins, *place)? {
            bases.push(base)?;
        }
    }
    Ok(bases)
}

// The virtual relvar at the place, if there is one.
fn virtual_at(origins: &[Origin], place: usize) -> Result<Option<VirtualUnder>, AllocError>
    ensures { IfOk result (λ o. o ≡ virtual_of place (slice_get origins.now place)) }
{
    match origins.get(place) {
        Some(Origin::Virtual(tree)) => {
            let tree = tree.copy()?;
            Ok(Some(VirtualUnder { place, tree }))
        }
        _ => Ok(None),
    }
}

/// The virtual relvars at these places.
pub(crate) fn virtuals_at(
    alloc: Global,
    origins: &[Origin],
    places: &[usize],
) -> Result<Items<VirtualUnder>, AllocError>
    ensures { IfOk result (λ l. l ≡ filter_map (λ n. virtual_of n (slice_get origins.now n)) places.now) }
{
    let mut virtuals = Items::new(alloc);
    for place in places {
        if let Some(under) = virtual_at(origins, *place)? {
            virtuals.push(under)?;
        }
    }
    Ok(virtuals)
}

// A copy of a CONSTRAINT, which shares its expression.
fn share_limit(limit: &Option<Shared<Typed>>) -> Result<Option<Shared<Typed>>, AllocError>
    ensures { IfOk result (λ o. o ≡ limit.now) }
{
    match limit {
        Some(tree) => Ok(Some(tree.copy()?)),
        None => Ok(None),
    }
}

// The possrep at the place, if there is one.
fn selector_at(
    alloc: Global,
    schema: &Schema,
    limits: &[Option<Shared<Typed>>],
    place: usize,
) -> Result<Option<Selector>, AllocError>
    ensures { IfOk result (λ o. o ≡ selector_of place (slice_get schema.now.possreps place) (slice_get limits.now place)) }
{
    match (schema.representation_at(place), limits.get(place)) {
        (Some(representation), Some(limit)) => {
            let limit = share_limit(limit)?;
            let components = Items::from_vec(names(alloc, representation.components.as_slice())?);
            let possrep = representation.possrep.copy()?;
            Ok(Some(Selector {
                place,
                possrep,
                components,
                limit,
            }))
        }
        _ => Ok(None),
    }
}

/// The possreps at these places.
pub(crate) fn selectors_at(
    alloc: Global,
    schema: &Schema,
    limits: &[Option<Shared<Typed>>],
    places: &[usize],
) -> Result<Items<Selector>, AllocError>
    ensures { IfOk result (λ l. l ≡ filter_map (λ n. selector_of n (slice_get schema.now.possreps n) (slice_get limits.now n)) places.now) }
{
    let mut selectors = Items::new(alloc);
    for place in places {
        if let Some(selector) = selector_at(alloc, schema, limits, *place)? {
            selectors.push(selector)?;
        }
    }
    Ok(selectors)
}

/// The expression of this tree, with all that is under it. It costs the size of the tree, which was typed before, and
/// that of the expressions of the virtual relvars under it.
pub(crate) fn with_all_under(
    alloc: Global,
    catalogue: &Catalogue,
    attributes: Heading,
    tree: Shared<Typed>,
    kind: TypeKind,
) -> Result<Expression, AllocError>
    ensures defined { Defined catalogue.now }
    ensures under { IfOk result (λ x. HasAllUnder catalogue.now x) }
    ensures tree { IfOk result (λ x. x.tree ≡ tree) }
    ensures kind { IfOk result (λ x. x.kind ≡ kind) }
    ensures attributes { IfOk result (λ x. x.attributes ≡ attributes) }
{
    let (schema, origins, limits) = (catalogue.schema(), catalogue.origins(), catalogue.limits());
    let relvars = relvars_reached(alloc, origins, tree.get())?;
    let possreps = possreps_selected(alloc, origins, limits, tree.get(), &relvars)?;
    let bases = bases_at(alloc, schema, origins, &relvars)?;
    let virtuals = virtuals_at(alloc, origins, &relvars)?;
    let selectors = selectors_at(alloc, schema, limits, &possreps)?;
    Ok(Expression {
        tree,
        kind,
        attributes,
        bases,
        virtuals,
        selectors,
    })
}
