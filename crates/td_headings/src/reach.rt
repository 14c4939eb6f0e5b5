//! What evaluating an expression comes to.

ghost use Rattle.std.specs.Prelude.{◌≡◌, ◌++◌, IfOk, slice_get};
ghost use Rattle.std.specs.List.{Contains, flat_map};
ghost use Rattle.td_headings.specs.Reached.{AreThose, IsReached, IsSelected, named_possreps, named_relvars, possreps_under};
ghost use Rattle.td_graph.specs.Links.{ReachedFrom};

use crate::defined::Origin;
use std::alloc::{AllocError, Global};
use td_graph::{Leads, reached};
use td_tuples::Shared;
use td_typed_trees::tree::Typed;
use td_typed_trees::{add_mentions, possreps_in, relvars_in};

// The places of the relvars that the expression names.
fn relvars_named(alloc: Global, tree: &Typed) -> Result<Vec<usize>, AllocError>
    ensures { IfOk result (λ v. v.items ≡ named_relvars tree.now) }
{
    let mut mentions = Vec::new(alloc);
    add_mentions(&mut mentions, tree)?;
    relvars_in(alloc, &mentions)
}

// The places of the possreps that the expression names.
fn possreps_named(alloc: Global, tree: &Typed) -> Result<Vec<usize>, AllocError>
    ensures { IfOk result (λ v. v.items ≡ named_possreps tree.now) }
{
    let mut mentions = Vec::new(alloc);
    add_mentions(&mut mentions, tree)?;
    possreps_in(alloc, &mentions)
}

// Relvars lead to those that their expressions name.
#[derive(Clone, Copy)]
struct Relvars<'a> {
    alloc: Global,
    origins: &'a [Origin],
}

impl Leads for Relvars<'_> {
    ghost use Rattle.std.specs.Prelude.{map};
    ghost use Rattle.td_headings.specs.Reached.{relvars_of_origin};

    ghost links = { λ r. map relvars_of_origin r.origins.now };

    fn places(&self) -> usize {
        self.origins.len()
    }

    fn add_next(&self, place: usize, next: &mut Vec<usize>) -> Result<(), AllocError> {
        if let Some(Origin::Virtual(tree)) = self.origins.get(place) {
            let mut more = relvars_named(self.alloc, tree.get())?;
            next.append(&mut more)?;
        }
        Ok(())
    }
}

// Possreps lead to those that are selected in their CONSTRAINTs.
#[derive(Clone, Copy)]
struct Possreps<'a> {
    alloc: Global,
    limits: &'a [Option<Shared<Typed>>],
}

impl Leads for Possreps<'_> {
    ghost use Rattle.std.specs.Prelude.{map};
    ghost use Rattle.td_headings.specs.Reached.{possreps_within};

    ghost links = { λ p. map possreps_within p.limits.now };

    fn places(&self) -> usize {
        self.limits.len()
    }

    fn add_next(&self, place: usize, next: &mut Vec<usize>) -> Result<(), AllocError> {
        if let Some(Some(tree)) = self.limits.get(place) {
            let mut more = possreps_named(self.alloc, tree.get())?;
            next.append(&mut more)?;
        }
        Ok(())
    }
}

/// These places, ascending, each once.
pub(crate) fn in_order(places: Vec<usize>) -> Vec<usize>
    ensures { AreThose (Contains places.items) result.items }
{
    let mut places = places;
    places.sort_unstable();
    places.dedup();
    places
}

// The places that are reached, ascending, each once.
fn reached_in_order<L: Leads>(
    alloc: Global,
    links: &L,
    starts: &[usize],
) -> Result<Vec<usize>, AllocError>
    ensures { IfOk result (λ v. AreThose (ReachedFrom (L.links links.now) starts.now) v.items) }
{
    let places = reached(alloc, links, starts)?;
    Ok(in_order(places))
}

/// The places of the relvars that evaluating the expression comes to, ascending. It costs the sizes of the expression
/// and of those of the virtual relvars among them.
pub(crate) fn relvars_reached(
    alloc: Global,
    origins: &[Origin],
    tree: &Typed,
) -> Result<Vec<usize>, AllocError>
    ensures { IfOk result (λ v. AreThose (IsReached origins.now tree.now) v.items) }
{
    let starts = relvars_named(alloc, tree)?;
    reached_in_order(alloc, &Relvars { alloc, origins }, &starts)
}

// The places of the possreps that the expression of the relvar at this place names, if it is virtual.
fn possreps_at(alloc: Global, origins: &[Origin], place: usize) -> Result<Vec<usize>, AllocError>
    ensures { IfOk result (λ v. v.items ≡ possreps_under (slice_get origins.now place)) }
{
    match origins.get(place) {
        Some(Origin::Virtual(tree)) => possreps_named(alloc, tree.get()),
        _ => Ok(Vec::new(alloc)),
    }
}

// The places of the possreps that are selected in the expression and in the virtual ones of these relvars.
fn starts_of(
    alloc: Global,
    origins: &[Origin],
    tree: &Typed,
    relvars: &[usize],
) -> Result<Vec<usize>, AllocError>
    ensures { IfOk result (λ v. v.items ≡ named_possreps tree.now ++ flat_map (λ m. possreps_under (slice_get origins.now m)) relvars.now) }
{
    let mut starts = possreps_named(alloc, tree)?;
    for place in relvars {
        let mut more = possreps_at(alloc, origins, *place)?;
        starts.append(&mut more)?;
    }
    Ok(starts)
}

/// The places of the possreps that evaluating the expression may select, over the relvars that it reaches, ascending.
pub(crate) fn possreps_selected(
    alloc: Global,
    origins: &[Origin],
    limits: &[Option<Shared<Typed>>],
    tree: &Typed,
    relvars: &[usize],
) -> Result<Vec<usize>, AllocError>
    ensures { IfOk result (λ v. AreThose (IsSelected origins.now limits.now tree.now relvars.now) v.items) }
{
    let starts = starts_of(alloc, origins, tree, relvars)?;
    reached_in_order(alloc, &Possreps { alloc, limits }, &starts)
}
