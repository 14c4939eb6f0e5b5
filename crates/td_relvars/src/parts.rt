//! Copies of what some relvars have, and their way back.

ghost use Rattle.std.specs.Prelude.{◌≡◌, ◌==◌, ℕ, IfOk, IfSome, OnOk, map, option_map};
ghost use Rattle.std.specs.List.{All, find};
ghost use Rattle.std.specs.Option.{option_copied};
ghost use Rattle.td_values.specs.Rows.{RowsData};
ghost use Rattle.td_relations.specs.Deltas.{inverse_of};
ghost use Rattle.td_semantics.specs.Databases.{Belongs, stored_at};
ghost use Rattle.td_relvars.specs.Parts as spec;
ghost use Rattle.td_bases.specs.Bases.{BaseData};
ghost use Rattle.td_relvars.specs.ForProofs.Kept.{copied_keys, copies_of, rows_copied};
ghost use Rattle.td_relvars.specs.Keys.{key_at};
ghost use Rattle.td_relvars.specs.Parts.{AreTheirs, FitsPart, change_part, changed_if, copy_at, part_of, put_part};

use crate::database::Database;
use std::alloc::{AllocError, Global};
use std::marker::Model;
use td_bases::Base;
use td_headings::Catalogue;
use td_relations::Delta;
use td_values::Name;

/// What some base relvars had, by their places.
#[derive(Drop)]
pub struct Part {
    bases: Vec<(usize, Base)>,
}

impl Model for Part {
    ghost use Rattle.td_relvars.specs.ForProofs.Kept.{copied_keys, copies_of};
    ghost use Rattle.td_relvars.specs.Parts.{PartData, part_code};

    ghost Value = { PartData };

    ghost coded = { part_code };

    ghost view = { λ p. record { copies = copies_of p.bases.items; keys = copied_keys p.bases.items } };
}

// The first copy of the relvar at the place.
fn copy_of_place(bases: &[(usize, Base)], relvar: usize) -> Option<&(usize, Base)>
    ensures { option_copied result ≡ find (λ (p : ℕ × BaseData). p.0 == relvar) bases.now }
{
    bases.iter().find(|copy| copy.0 == relvar)
}

// Takes the change of a relvar back in the copy, where it is one of that relvar.
fn change_back_copy(
    alloc: Global,
    copy: &mut (usize, Base),
    relvar: usize,
    delta: &Delta,
) -> Result<(), AllocError>
    requires { copy.old.0 ≡ relvar → delta.now.inserted.heading ≡ copy.old.1.rows.heading }
    ensures rows { OnOk result (rows_copied copy.new ≡ changed_if relvar (inverse_of delta.now) (rows_copied copy.old)) }
    ensures key { OnOk result (copy.new.1.key ≡ copy.old.1.key) }
{
    if copy.0 == relvar {
        copy.1.change_back_copy(alloc, delta)?;
    }
    Ok(())
}

// Takes the change of a relvar back in each of the copies that is one of that relvar.
fn change_back_copies(
    alloc: Global,
    bases: &mut Vec<(usize, Base)>,
    relvar: usize,
    delta: &Delta,
) -> Result<(), AllocError>
    requires { FitsPart (copies_of bases.old.items) (relvar, delta.now) }
    ensures rows { OnOk result (copies_of bases.new.items ≡ change_part relvar (inverse_of delta.now) (copies_of bases.old.items)) }
    ensures keys { OnOk result (copied_keys bases.new.items ≡ copied_keys bases.old.items) }
{
    for at in 0..bases.len() {
        change_back_copy(alloc, &mut bases[at], relvar, delta)?;
    }
    Ok(())
}

impl Part {
    /// What the base relvar at the place had, where it is copied. It takes no memory, and costs a look at each copy.
    pub fn base_at(&self, relvar: usize) -> Option<&Base>
        ensures { option_map (λ (b : BaseData). b.rows) (option_copied result) ≡ copy_at self.now.copies relvar }
    {
        match copy_of_place(&self.bases, relvar) {
            Some(copy) => Some(&copy.1),
            None => None,
        }
    }

    /// Takes the change of the relvar at the place back in each copy of it; where none is copied, nothing is done.
    /// Where memory is wanting, the part is only to be dropped.
    pub fn change_back(
        &mut self,
        alloc: Global,
        relvar: usize,
        delta: &Delta,
    ) -> Result<(), AllocError>
        requires { FitsPart self.old.copies (relvar, delta.now) }
        ensures { OnOk result (self.new ≡ record self.old { copies = change_part relvar (inverse_of delta.now) self.old.copies }) }
    {
        change_back_copies(alloc, &mut self.bases, relvar, delta)
    }
}

/// What is copied of a base relvar: its relation alone, or also its tuples by the keys by which they are kept.
#[derive(Clone, Copy)]
enum Copied {
    Relation,
    WithKeys,
}

// A copy of a base relvar, with its tuples by keys where so asked.
fn copy_base(alloc: Global, base: &Base, copied: Copied) -> Result<Base, AllocError>
    ensures { IfOk result (λ b. b ≡ base.now) }
{
    match copied {
        Copied::Relation => base.copy(alloc),
        Copied::WithKeys => base.copy_with_keys(alloc),
    }
}

// What the relvar at the place has, if something is stored there.
fn copy_at(
    alloc: Global,
    database: &Database,
    relvar: usize,
    copied: Copied,
) -> Result<Option<(usize, Base)>, AllocError>
    ensures rows { IfOk result (λ o. option_map rows_copied o ≡ spec.copy_of relvar (stored_at database.now relvar)) }
    ensures key { IfOk result (λ o. IfSome o (λ p. p.1.key ≡ key_at database.now.catalogue p.0)) }
{
    match database.base_at(relvar) {
        Some(base) => Ok(Some((relvar, copy_base(alloc, base, copied)?))),
        None => Ok(None),
    }
}

// What the relvars at these places have.
fn copies_at(
    alloc: Global,
    database: &Database,
    relvars: &[usize],
    copied: Copied,
) -> Result<Vec<(usize, Base)>, AllocError>
    ensures rows { IfOk result (λ v. copies_of v.items ≡ part_of database.now.stored relvars.now) }
    ensures keys { IfOk result (λ v. copied_keys v.items ≡ map (λ (p : ℕ × RowsData). key_at database.now.catalogue p.0) (copies_of v.items)) }
{
    let mut bases = Vec::new(alloc);
    for relvar in relvars {
        if let Some(copy) = copy_at(alloc, database, *relvar, copied)? {
            bases.push(copy)?;
        }
    }
    Ok(bases)
}

// Where the relvar of this name stands, if there is one.
fn place_named(catalogue: &Catalogue, name: &Name) -> Option<usize>
    ensures { result ≡ spec.place_named catalogue.now.schema name.now }
{
    match catalogue.relvar(name) {
        Some((place, _)) => Some(place),
        None => None,
    }
}

// Where the relvars of these names stand.
fn places_of(alloc: Global, catalogue: &Catalogue, names: &[Name]) -> Result<Vec<usize>, AllocError>
    ensures { IfOk result (λ v. v.items ≡ spec.numbers_named catalogue.now.schema names.now) }
{
    let mut places = Vec::with_capacity(alloc, names.len())?;
    for name in names {
        if let Some(place) = place_named(catalogue, name) {
            places.push(place)?;
        }
    }
    Ok(places)
}

impl Database {
    /// Copies of what the base relvars of these names have, whose tuples are shared, with their tuples by the keys by
    /// which they are kept. A name of no base relvar is passed over, and one that comes twice is copied twice.
    pub fn copy_of(&self, alloc: Global, names: &[Name]) -> Result<Part, AllocError>
        ensures copies { IfOk result (λ p. p.copies ≡ part_of self.now.stored (spec.numbers_named self.now.catalogue.schema names.now)) }
        ensures keys { IfOk result (AreTheirs self.now.catalogue) }
    {
        let places = places_of(alloc, self.catalogue(), names)?;
        self.copy_with_keys_at(alloc, &places)
    }

    /// Copies of what the base relvars at these places have, whose tuples are shared, with their tuples by the keys by
    /// which they are kept.
    pub fn copy_with_keys_at(&self, alloc: Global, relvars: &[usize]) -> Result<Part, AllocError>
        ensures copies { IfOk result (λ p. p.copies ≡ part_of self.now.stored relvars.now) }
        ensures keys { IfOk result (AreTheirs self.now.catalogue) }
    {
        Ok(Part {
            bases: copies_at(alloc, self, relvars, Copied::WithKeys)?,
        })
    }

    /// Copies of what the base relvars at these places have, without their tuples by keys: a list of shared tuples for
    /// each relvar.
    pub fn copy_at(&self, alloc: Global, relvars: &[usize]) -> Result<Part, AllocError>
        ensures copies { IfOk result (λ p. p.copies ≡ part_of self.now.stored relvars.now) }
        ensures keys { IfOk result (AreTheirs self.now.catalogue) }
    {
        Ok(Part {
            bases: copies_at(alloc, self, relvars, Copied::Relation)?,
        })
    }

    /// Puts them back, in place of what these relvars have. It takes no memory.
    pub fn put_back(&mut self, part: Part)
        requires belongs { All (λ (p : ℕ × RowsData). Belongs self.old.catalogue p.0 p.1) part.copies }
        requires keys { AreTheirs self.old.catalogue part }
        ensures { self.new ≡ record self.old { stored = put_part part.copies self.old.stored } }
    {
        let Part { bases } = part;
        for (relvar, base) in bases {
            self.set(relvar, base);
        }
    }
}
