//! What statements access, gathered.

ghost use Rattle.std.specs.Prelude.{◌≡◌, ◌<◌, false, true, ℕ, List, IfOk, IfSome, OnOk, get_or, length};
ghost use Rattle.std.specs.List.{All};
ghost use Rattle.td_headings.specs.Catalogues.{CatalogueData};
ghost use Rattle.td_insertions.specs.Insertions.{Inserts};
ghost use Rattle.td_accesses.specs.Commuting.{Commute};
ghost use Rattle.td_accesses.specs.Covering.{Covers, KeepsWithin};
ghost use Rattle.td_accesses.specs.Dependencies.{AreDependencies};
ghost use Rattle.td_accesses.specs.ForProofs.Accessed.{AreAccessesGrown, AreInsertionsGrown, DiffersFrom, IsAddedTo, IsBeside, IsClearOf, IsSuited, IsToldAmong, IsToldBy, IsToldIn};
ghost use Rattle.td_accesses.specs.declared.accesses.Insertions as declared;

use crate::by_keys::{all_differ, has_key, keep_by_keys};
use crate::dependencies::Dependencies;
use crate::links::{links_of, put_in_all, refer_elsewhere};
use crate::places::{add_places, clash};
use std::alloc::{AllocError, Global};
use td_algebra::KeyIndex;
use td_headings::Catalogue;
use td_relations::Relation;

/// Insertions into one relvar: the relvars on which they hang and that they assign, by their places, and the tuples
/// that they insert, by each key of the relvar (`indexes`) and by the attributes of each reference from it or to it
/// (`links`).
#[derive(Drop)]
pub struct Insertions {
    pub relvar: usize,
    pub reads: Vec<usize>,
    pub writes: Vec<usize>,
    pub indexes: Vec<KeyIndex>,
    pub links: Vec<KeyIndex>,
}

/// What statements access: insertions by the tuples that they insert, and of all others the relvars on which they hang
/// and that they assign, by their places.
#[derive(Drop)]
pub struct Accesses {
    pub reads: Vec<usize>,
    pub writes: Vec<usize>,
    pub insertions: Vec<Insertions>,
}

// Where the insertions into the relvar stand.
fn place_of(all: &[Insertions], relvar: usize) -> Option<usize>
    ensures { IfSome result (λ i. (i < length all.now) × ((d : declared.Insertions) → (get_or all.now i d).relvar ≡ relvar)) }
{
    for at in 0..all.len() {
        if all[at].relvar == relvar {
            return Some(at);
        }
    }
    None
}

// Whether insertions into the relvar may be told by their tuples.
fn suits(catalogue: &Catalogue, dependencies: &Dependencies, relvar: usize) -> bool
    requires { AreDependencies catalogue.now dependencies.now.relvars.items }
    ensures { result ≡ true → IsSuited catalogue.now relvar }
{
    match dependencies.at(relvar) {
        Some(own) => own.is_suited && has_key(catalogue.tests(), relvar),
        None => false,
    }
}

// Adds an insertion to those into its relvar, or says that they have tuples of another heading. Which tests there were
// when the others were added is not known, so an index is made by each key that has none. A link has the tuples of all
// insertions or is not there.
fn add_to(
    alloc: Global,
    catalogue: &Catalogue,
    insertions: &mut Insertions,
    reads: &[usize],
    writes: &[usize],
    relation: &Relation,
) -> Result<bool, AllocError>
    ensures kept { OnOk result (IsAddedTo insertions.old insertions.new) }
    ensures told { IfOk result (λ b. b ≡ true → IsToldBy catalogue.now reads.now writes.now relation.now insertions.new) }
{
    let relvar = insertions.relvar;
    let tests = catalogue.tests();
    if !keep_by_keys(alloc, &mut insertions.indexes, tests, relvar, relation)? {
        return Ok(false);
    }
    if !put_in_all(alloc, &mut insertions.links, relation)? {
        return Ok(false);
    }
    add_places(&mut insertions.reads, reads)?;
    add_places(&mut insertions.writes, writes)?;
    Ok(true)
}

// No insertions into the relvar, with these links.
fn no_insertions(alloc: Global, relvar: usize, links: Vec<KeyIndex>) -> Insertions
    ensures { result.relvar ≡ relvar }
{
    Insertions {
        relvar,
        reads: Vec::new(alloc),
        writes: Vec::new(alloc),
        indexes: Vec::new(alloc),
        links,
    }
}

// Adds an insertion into the relvar to those into it, of which there may be none yet.
fn add_into(
    alloc: Global,
    catalogue: &Catalogue,
    dependencies: &Dependencies,
    all: &mut Vec<Insertions>,
    reads: &[usize],
    writes: &[usize],
    relvar: usize,
    relation: &Relation,
) -> Result<bool, AllocError>
    ensures kept { OnOk result (AreInsertionsGrown all.old.items all.new.items) }
    ensures told { IfOk result (λ b. b ≡ true → IsToldIn catalogue.now reads.now writes.now relvar relation.now all.new.items) }
{
    match place_of(all, relvar) {
        Some(at) => add_to(alloc, catalogue, &mut all[at], reads, writes, relation),
        None => {
            let links = links_of(alloc, dependencies, relvar, relation)?;
            let mut insertions = no_insertions(alloc, relvar, links);
            let told = add_to(alloc, catalogue, &mut insertions, reads, writes, relation)?;
            all.push(insertions)?;
            Ok(told)
        }
    }
}

// Adds an insertion by its tuples, or says that it counts among all others.
fn add_by_tuples(
    alloc: Global,
    catalogue: &Catalogue,
    dependencies: &Dependencies,
    all: &mut Vec<Insertions>,
    reads: &[usize],
    writes: &[usize],
    relvar: usize,
    relation: &Relation,
) -> Result<bool, AllocError>
    requires { AreDependencies catalogue.now dependencies.now.relvars.items }
    ensures kept { OnOk result (AreInsertionsGrown all.old.items all.new.items) }
    ensures told { IfOk result (λ b. b ≡ true → IsToldAmong catalogue.now reads.now writes.now relvar relation.now all.new.items) }
{
    if !suits(catalogue, dependencies, relvar) {
        return Ok(false);
    }
    add_into(
        alloc,
        catalogue,
        dependencies,
        all,
        reads,
        writes,
        relvar,
        relation,
    )
}

// Whether a statement with these places assigns nothing on which the insertions hang, nor they what it hangs on.
fn is_clear_of(insertions: &Insertions, reads: &[usize], writes: &[usize]) -> bool
    ensures { result ≡ true → IsClearOf reads.now writes.now insertions.now }
{
    !clash(&insertions.reads, &insertions.writes, reads, writes)
}

// Whether this is so of each of them.
fn all_are_clear(all: &[Insertions], reads: &[usize], writes: &[usize]) -> bool
    ensures { result ≡ true → All (IsClearOf reads.now writes.now) all.now }
{
    for insertions in all {
        if !is_clear_of(insertions, reads, writes) {
            return false;
        }
    }
    true
}

// Whether a statement that inserts these tuples into the relvar may be exchanged with the insertions, into another one:
// only references judge what is inserted into the one by the other, and no tuple of the one refers to one of the other.
fn is_beside(
    alloc: Global,
    dependencies: &Dependencies,
    insertions: &Insertions,
    relvar: usize,
    relation: &Relation,
) -> Result<bool, AllocError>
    ensures { IfOk result (λ b. b ≡ true → IsBeside dependencies.now.relvars.items relvar relation.now insertions.now) }
{
    let other = insertions.relvar;
    let (Some(own), Some(others)) = (dependencies.at(relvar), dependencies.at(other)) else {
        return Ok(false);
    };
    if !own.is_suited || !others.is_suited {
        return Ok(false);
    }
    if own.binds(other) || others.binds(relvar) {
        return Ok(false);
    }
    let links = &insertions.links;
    if !refer_elsewhere(alloc, &own.references, other, links, relation)? {
        return Ok(false);
    }
    refer_elsewhere(alloc, &others.references, relvar, links, relation)
}

// Whether such a statement may be exchanged with the insertions.
fn differs_from(
    alloc: Global,
    dependencies: &Dependencies,
    insertions: &Insertions,
    reads: &[usize],
    writes: &[usize],
    relvar: usize,
    relation: &Relation,
) -> Result<bool, AllocError>
    ensures { IfOk result (λ b. b ≡ true → DiffersFrom dependencies.now.relvars.items reads.now writes.now relvar relation.now insertions.now) }
{
    if insertions.relvar == relvar {
        return Ok(all_differ(&insertions.indexes, relation));
    }
    if is_clear_of(insertions, reads, writes) {
        return Ok(true);
    }
    is_beside(alloc, dependencies, insertions, relvar, relation)
}

// Whether this is so of each of them.
fn all_differ_from(
    alloc: Global,
    dependencies: &Dependencies,
    all: &[Insertions],
    reads: &[usize],
    writes: &[usize],
    relvar: usize,
    relation: &Relation,
) -> Result<bool, AllocError>
    ensures { IfOk result (λ b. b ≡ true → All (DiffersFrom dependencies.now.relvars.items reads.now writes.now relvar relation.now) all.now) }
{
    for insertions in all {
        if !differs_from(
            alloc,
            dependencies,
            insertions,
            reads,
            writes,
            relvar,
            relation,
        )? {
            return Ok(false);
        }
    }
    Ok(true)
}

impl Accesses {
    /// The accesses of no statement.
    pub fn none(alloc: Global) -> Accesses {
        Accesses {
            reads: Vec::new(alloc),
            writes: Vec::new(alloc),
            insertions: Vec::new(alloc),
        }
    }

    // Adds the places of a statement to those of all others.
    fn add_other(&mut self, reads: &[usize], writes: &[usize]) -> Result<(), AllocError>
        ensures covered { OnOk result ((c : CatalogueData) (k : ℕ) (a : List ℕ) → KeepsWithin c k a reads.now writes.now → Covers c self.new k a) }
        ensures kept { OnOk result (AreAccessesGrown self.old self.new) }
    {
        add_places(&mut self.reads, reads)?;
        add_places(&mut self.writes, writes)?;
        Ok(())
    }

    // Adds an insertion, by its tuples if that serves.
    fn add_insertion(
        &mut self,
        alloc: Global,
        catalogue: &Catalogue,
        dependencies: &Dependencies,
        reads: &[usize],
        writes: &[usize],
        relvar: usize,
        relation: &Relation,
    ) -> Result<(), AllocError>
        requires { AreDependencies catalogue.now dependencies.now.relvars.items }
        ensures covered { OnOk result ((k : ℕ) (a : List ℕ) → KeepsWithin catalogue.now k a reads.now writes.now → Inserts catalogue.now k a relvar relation.now → Covers catalogue.now self.new k a) }
        ensures kept { OnOk result (AreAccessesGrown self.old self.new) }
    {
        if add_by_tuples(
            alloc,
            catalogue,
            dependencies,
            &mut self.insertions,
            reads,
            writes,
            relvar,
            relation,
        )? {
            return Ok(());
        }
        self.add_other(reads, writes)
    }

    /// Adds what a statement accesses that hangs on relvars among the first places and assigns relvars among the
    /// others; where tuples are told, it inserts these into the relvar. Then it costs, for each key of the relvar and
    /// each reference from it or to it, a copy of the tuples and what `insert_all` of td_algebra does. The dependencies
    /// are those of the catalogue. Where memory is wanting, the accesses say nothing more.
    pub fn add(
        &mut self,
        alloc: Global,
        catalogue: &Catalogue,
        dependencies: &Dependencies,
        reads: &[usize],
        writes: &[usize],
        relvar: usize,
        tuples: Option<&Relation>,
    ) -> Result<(), AllocError>
        requires { AreDependencies catalogue.now dependencies.now.relvars.items }
        ensures covered { (k : ℕ) (a : List ℕ) → KeepsWithin catalogue.now k a reads.now writes.now → IfSome tuples.entry (λ s. Inserts catalogue.now k a relvar s.now) → OnOk result (Covers catalogue.now self.new k a) }
        ensures kept { OnOk result ((k : ℕ) (a : List ℕ) → Covers catalogue.now self.old k a → Covers catalogue.now self.new k a) }
    {
        match tuples {
            Some(relation) => {
                self.add_insertion(
                    alloc,
                    catalogue,
                    dependencies,
                    reads,
                    writes,
                    relvar,
                    relation,
                )
            }
            None => self.add_other(reads, writes),
        }
    }

    /// Whether such a statement may not be exchanged with one whose accesses these are. It costs a look at the places,
    /// and for each of the tuples a search by each key of the relvar, and by each reference between it and another one
    /// into which tuples are inserted. The answer holds of each catalogue whose dependencies these are.
    pub fn conflict(
        &self,
        alloc: Global,
        dependencies: &Dependencies,
        reads: &[usize],
        writes: &[usize],
        relvar: usize,
        tuples: Option<&Relation>,
    ) -> Result<bool, AllocError>
        ensures { IfOk result (λ r. r ≡ false → (c : CatalogueData) → AreDependencies c dependencies.now.relvars.items → (k l : ℕ) (a b : List ℕ) → Covers c self.now k a → KeepsWithin c l b reads.now writes.now → IfSome tuples.entry (λ s. Inserts c l b relvar s.now) → Commute c k a l b) }
    {
        if clash(&self.reads, &self.writes, reads, writes) {
            return Ok(true);
        }
        match tuples {
            Some(relation) => {
                let others = &self.insertions;
                let differ = all_differ_from(
                    alloc,
                    dependencies,
                    others,
                    reads,
                    writes,
                    relvar,
                    relation,
                )?;
                Ok(!differ)
            }
            None => Ok(!all_are_clear(&self.insertions, reads, writes)),
        }
    }
}
