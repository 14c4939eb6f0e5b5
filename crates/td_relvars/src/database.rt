//! Databases.

ghost use Rattle.std.specs.Prelude.{◌≡◌, ◌<◌, IfOk, IfSome, None, Ok, OnErr, OnOk, MatchOption, Some, length, option_map, slice_get, slice_set};
ghost use Rattle.std.specs.Option.{option_copied, option_flatten};
ghost use Rattle.std.specs.FinSet as set;
ghost use Rattle.td_relations.specs.Sets.{body, relation_of};
ghost use Rattle.td_relations.specs.Deltas.{inverse_of};
ghost use Rattle.td_values.specs.Rows.{RowsData};
ghost use Rattle.td_headings.specs.Definitions.{Defined};
ghost use Rattle.td_semantics.specs.Databases as spec;
ghost use Rattle.td_semantics.specs.Databases.{Belongs, IsDatabase, with_relation, stored_relvars};
ghost use Rattle.td_bases.specs.Bases.{BaseData};
ghost use Rattle.td_bases.specs.Ways.{LeadsBack};
ghost use Rattle.td_relvars.specs.Changed as changes;
ghost use Rattle.td_relvars.specs.Changed.{CanChange, with_change};
ghost use Rattle.td_relvars.specs.ForProofs.Standing.{HasOf};
ghost use Rattle.td_relvars.specs.ForProofs.Kept.{AreFirst, keys_of, rows_of};
ghost use Rattle.td_relvars.specs.Keys as keys;
ghost use Rattle.td_relvars.specs.Keys.{key_at};
ghost use Rattle.td_relvars.specs.Ways.{CanGoBack, LeadsBackAt, LeadsBackFrom};
ghost use Rattle.td_relvars.specs.ForProofs.Empty.{empty_in};
ghost use Rattle.td_semantics.specs.Openings as opening;

use sqlite_items::Items;
use std::alloc::{AllocError, Global};
use std::marker::Model;
use td_algebra::{KeyIndex, Stop};
use td_bases::{Base, WayBack};
use td_eval::Lookup;
use td_headings::{Catalogue, Origin};
use td_relations::{Delta, Relation};
use td_values::{Heading, Name};

/// What a script has defined, and what each base relvar has.
pub struct Database {
    catalogue: Catalogue,
    stored: Vec<Option<Base>>,
}

// By hand, since a derived one is proved anew at each place where a database is dropped: this one is a call there.
impl Drop for Database {
    fn drop(self) {
        let Database {
            catalogue: _,
            stored: _,
        } = self;
    }
}

impl Model for Database {
    ghost use Rattle.td_semantics.specs.Databases.{DatabaseData, IsDatabase, database_code};
    ghost use Rattle.td_relvars.specs.ForProofs.Kept.{AreFirst, keys_of, rows_of};

    ghost Value = { DatabaseData };

    ghost coded = { database_code };

    ghost view = { λ d. record { catalogue = d.catalogue; stored = rows_of d.stored.items } };

    ghost invariant = { λ d. IsDatabase (record { catalogue = d.catalogue; stored = rows_of d.stored.items }) × AreFirst d.catalogue (keys_of d.stored.items) };
}

impl Lookup for Database {
    ghost use Rattle.td_relvars.specs.Keys.{first_key};
    ghost use Rattle.td_semantics.specs.Databases.{stored_relvars};

    ghost relvars = { λ d. stored_relvars d.stored };

    ghost first_keys = { λ d. first_key d.catalogue };

    fn lent(&self, relvar: usize) -> Result<&Relation, Stop> {
        match self.base_at(relvar) {
            Some(base) => Ok(base.relation()),
            None => Err(Stop::Untyped),
        }
    }

    fn first_key(&self, relvar: usize) -> Option<&[Name]> {
        first_key(&self.catalogue, relvar)
    }

    fn indexes(&self, relvar: usize) -> &[KeyIndex] {
        match self.base_at(relvar) {
            Some(base) => base.indexes(),
            None => &[],
        }
    }
}

// The keys of the base relvar at the place.
fn keys_of(catalogue: &Catalogue, relvar: usize) -> &[Items<Name>]
    ensures { slice_get result.now 0 ≡ keys.first_key catalogue.now relvar }
{
    match catalogue.origin(relvar) {
        Some(Origin::Base(keys, _)) => keys.as_slice(),
        _ => &[],
    }
}

/// The first key of the base relvar at the place, its names as they are written.
pub(crate) fn first_key(catalogue: &Catalogue, relvar: usize) -> Option<&[Name]>
    ensures { MatchOption result (keys.first_key catalogue.now relvar ≡ None) (λ key. keys.first_key catalogue.now relvar ≡ Some key.now) }
{
    match keys_of(catalogue, relvar).first() {
        Some(key) => Some(key.as_slice()),
        None => None,
    }
}

// The names of it.
fn key_of(catalogue: &Catalogue, relvar: usize) -> &[Name]
    ensures { result.now ≡ key_at catalogue.now relvar }
{
    match first_key(catalogue, relvar) {
        Some(key) => key,
        None => &[],
    }
}

// No tuples of the heading.
fn no_tuples(alloc: Global, heading: &Heading, key: &[Name]) -> Result<Base, AllocError>
    ensures { IfOk result (λ b. b ≡ record { rows = relation_of heading.now set.empty; key = key.now }) }
{
    let heading = heading.copy()?;
    Base::by_key(alloc, Relation::empty(alloc, heading), key)
}

// What the relvar at the place has where it is empty, if it is a base relvar.
fn empty_at(alloc: Global, catalogue: &Catalogue, place: usize) -> Result<Option<Base>, AllocError>
    ensures rows { IfOk result (λ o. option_map (λ (b : BaseData). b.rows) o ≡ empty_in (slice_get catalogue.now.origins place) (slice_get catalogue.now.schema.relvars place)) }
    ensures key { IfOk result (λ o. IfSome o (λ b. b.key ≡ key_at catalogue.now place)) }
{
    match (catalogue.origin(place), catalogue.schema().relvar_at(place)) {
        (Some(Origin::Base(_, _)), Some((_, heading))) => {
            Ok(Some(no_tuples(alloc, heading, key_of(catalogue, place))?))
        }
        _ => Ok(None),
    }
}

// What each relvar has where it is empty, in the order of their definition; None for a virtual one.
fn all_empty(alloc: Global, catalogue: &Catalogue) -> Result<Vec<Option<Base>>, AllocError>
    ensures empty { IfOk result (λ s. rows_of s.items ≡ opening.all_empty catalogue.now.origins catalogue.now.schema.relvars) }
    ensures keys { IfOk result (λ s. AreFirst catalogue.now (keys_of s.items)) }
    ensures defined { Defined catalogue.now }
{
    let mut stored = Vec::new(alloc);
    for place in 0..catalogue.schema().relvar_count() {
        stored.push(empty_at(alloc, catalogue, place)?)?;
    }
    Ok(stored)
}

// Generic, so that what was there is let go by one call.
fn set_at<T: Drop>(items: &mut Vec<T>, place: usize, item: T)
    requires { place < length items.old.items }
    ensures { items.new.items ≡ slice_set items.old.items place item }
{
    items[place] = item;
}

// Counts a read of what is stored at the place.
fn count_read_at(
    alloc: Global,
    catalogue: &Catalogue,
    stored: &mut Vec<Option<Base>>,
    relvar: usize,
)
    ensures { stored.new.items ≡ stored.old.items }
{
    if relvar >= stored.len() {
        return;
    }
    match &mut stored[relvar] {
        Some(base) => base.count_read(alloc, keys_of(catalogue, relvar)),
        None => {}
    }
}

// Counts a read of what is stored at each of these places.
fn count_reads_at(
    alloc: Global,
    catalogue: &Catalogue,
    stored: &mut Vec<Option<Base>>,
    relvars: &[usize],
)
    ensures { stored.new.items ≡ stored.old.items }
{
    for relvar in relvars {
        count_read_at(alloc, catalogue, stored, *relvar);
    }
}

// Makes the change in what is stored at the place.
fn change_at(
    alloc: Global,
    catalogue: &Catalogue,
    stored: &mut Vec<Option<Base>>,
    relvar: usize,
    delta: &Delta,
) -> Result<(), AllocError>
    requires { HasOf (rows_of stored.old.items) relvar delta.now.inserted.heading }
    ensures ok { OnOk result (rows_of stored.new.items ≡ changes.change relvar delta.now (rows_of stored.old.items)) }
    ensures keys { OnOk result (keys_of stored.new.items ≡ keys_of stored.old.items) }
    ensures err { OnErr result (stored.new.items ≡ stored.old.items) }
{
    match &mut stored[relvar] {
        Some(base) => base.change(alloc, keys_of(catalogue, relvar), delta),
        None => unreachable!(),
    }
}

// Makes its inverse.
fn change_back_at(
    alloc: Global,
    catalogue: &Catalogue,
    stored: &mut Vec<Option<Base>>,
    relvar: usize,
    delta: &Delta,
) -> Result<(), AllocError>
    requires { HasOf (rows_of stored.old.items) relvar delta.now.deleted.heading }
    ensures ok { OnOk result (rows_of stored.new.items ≡ changes.change relvar (inverse_of delta.now) (rows_of stored.old.items)) }
    ensures keys { OnOk result (keys_of stored.new.items ≡ keys_of stored.old.items) }
    ensures err { OnErr result (stored.new.items ≡ stored.old.items) }
{
    match &mut stored[relvar] {
        Some(base) => base.change_back(alloc, keys_of(catalogue, relvar), delta),
        None => unreachable!(),
    }
}

// Takes back, at the place, a change that took nothing out.
fn take_back_at(stored: &mut Vec<Option<Base>>, relvar: usize, delta: &Delta)
    requires there { HasOf (rows_of stored.old.items) relvar delta.now.deleted.heading }
    requires growth { body delta.now.deleted ≡ set.empty }
    ensures back { rows_of stored.new.items ≡ changes.change relvar (inverse_of delta.now) (rows_of stored.old.items) }
    ensures keys { keys_of stored.new.items ≡ keys_of stored.old.items }
{
    match &mut stored[relvar] {
        Some(base) => base.take_back(delta),
        None => unreachable!(),
    }
}

// What it takes to take a change of what is stored at the place back.
fn way_back_at(
    alloc: Global,
    stored: &mut Vec<Option<Base>>,
    relvar: usize,
    delta: &Delta,
) -> Result<WayBack, AllocError>
    requires { HasOf (rows_of stored.old.items) relvar delta.now.inserted.heading }
    ensures way { IfOk result (LeadsBackFrom (rows_of stored.old.items) relvar delta.now) }
    ensures same { stored.new.items ≡ stored.old.items }
{
    match &mut stored[relvar] {
        Some(base) => base.way_back(alloc, delta),
        None => unreachable!(),
    }
}

// Keeps the room of a way back for the next change of what is stored at the place.
fn keep_room_at(stored: &mut Vec<Option<Base>>, relvar: usize, way: WayBack)
    ensures { stored.new.items ≡ stored.old.items }
{
    if relvar >= stored.len() {
        return;
    }
    match &mut stored[relvar] {
        Some(base) => base.keep_room(way),
        None => {}
    }
}

// Takes back, at the place, any change, by a way that was made before it.
fn go_back_at(stored: &mut Vec<Option<Base>>, relvar: usize, delta: &Delta, way: WayBack)
    requires there { HasOf (rows_of stored.old.items) relvar delta.now.deleted.heading }
    requires way { (r : RowsData) × (stored_relvars (rows_of stored.old.items) relvar ≡ Ok (changes.changed r delta.now)) × LeadsBack r delta.now way }
    ensures back { rows_of stored.new.items ≡ changes.change relvar (inverse_of delta.now) (rows_of stored.old.items) }
    ensures keys { keys_of stored.new.items ≡ keys_of stored.old.items }
{
    match &mut stored[relvar] {
        Some(base) => base.go_back(delta, way),
        None => unreachable!(),
    }
}

// What is stored at the place.
fn base_stored_at(stored: &[Option<Base>], place: usize) -> Option<&Base>
    ensures { option_copied result ≡ option_flatten (slice_get stored.now place) }
{
    match stored.get(place) {
        Some(Some(base)) => Some(base),
        _ => None,
    }
}

impl Database {
    /// One whose base relvars are empty.
    pub(crate) fn empty(alloc: Global, catalogue: Catalogue) -> Result<Database, AllocError>
        ensures catalogue { IfOk result (λ d. d.catalogue ≡ catalogue) }
        ensures stored { IfOk result (λ d. d.stored ≡ opening.all_empty catalogue.origins catalogue.schema.relvars) }
    {
        let stored = all_empty(alloc, &catalogue)?;
        Ok(Database { catalogue, stored })
    }

    /// What the script has defined.
    pub fn catalogue(&self) -> &Catalogue
        ensures same { result.now ≡ self.now.catalogue }
        ensures database { IsDatabase self.now }
    {
        &self.catalogue
    }

    /// Definitions made its catalogue, and each base relvar has a relation of its heading, as in every database: a call
    /// tells the prover so, and costs nothing.
    pub fn relvars_fit(&self)
        ensures { IsDatabase self.now }
    {
        let _catalogue = &self.catalogue;
    }

    /// What the relvar at the place has, if something is stored there.
    pub fn base_at(&self, place: usize) -> Option<&Base>
        ensures rows { option_map (λ (b : BaseData). b.rows) (option_copied result) ≡ spec.stored_at self.now place }
        ensures key { IfSome result (λ b. b.now.key ≡ key_at self.now.catalogue place) }
    {
        match base_stored_at(&self.stored, place) {
            Some(base) => Some(base),
            None => None,
        }
    }

    /// What the relvar of this name has, if something is stored.
    pub fn base_of(&self, name: &Name) -> Option<&Base>
        ensures rows { option_map (λ (b : BaseData). b.rows) (option_copied result) ≡ spec.stored_named self.now name.now }
        ensures key { IfSome result (λ b. b.now.key ≡ keys.key_named self.now.catalogue name.now) }
    {
        match self.catalogue.schema().relvar(name) {
            Some((place, _)) => self.base_at(place),
            None => None,
        }
    }

    /// The relation, to be what the relvar at the place has: its tuples are kept by the relvar's first key, which costs
    /// a sort of them.
    pub fn make_base(
        &self,
        alloc: Global,
        relvar: usize,
        relation: Relation,
    ) -> Result<Base, AllocError>
        requires { Belongs self.now.catalogue relvar relation }
        ensures { IfOk result (λ b. b ≡ record { rows = relation; key = key_at self.now.catalogue relvar }) }
    {
        Base::by_key(alloc, relation, key_of(&self.catalogue, relvar))
    }

    /// Puts what the base relvar at the place is to have in place of what it has. It takes no memory.
    pub fn set(&mut self, relvar: usize, base: Base)
        requires belongs { Belongs self.old.catalogue relvar base.rows }
        requires key { base.key ≡ key_at self.old.catalogue relvar }
        ensures catalogue { self.new.catalogue ≡ self.old.catalogue }
        ensures stored { self.new.stored ≡ with_relation relvar base.rows self.old.stored }
    {
        set_at(&mut self.stored, relvar, Some(base));
    }

    /// Counts that a statement hangs on the relvars at these places, each as a small change of it would count: at the
    /// sixteenth its tuples are kept by its keys, which costs a sort for each. Nothing that they have changes; where
    /// memory is wanting, nothing is kept.
    pub fn count_reads(&mut self, alloc: Global, relvars: &[usize])
        ensures { self.new ≡ self.old }
    {
        count_reads_at(alloc, &self.catalogue, &mut self.stored, relvars);
    }

    /// Makes the change in the base relvar at the place, where its relation stands. It costs as `td_relations::apply`.
    pub fn change(&mut self, alloc: Global, relvar: usize, delta: &Delta) -> Result<(), AllocError>
        requires { CanChange self.old relvar delta.now }
        ensures ok { OnOk result (self.new ≡ with_change relvar delta.now self.old) }
        ensures err { OnErr result (self.new ≡ self.old) }
    {
        change_at(alloc, &self.catalogue, &mut self.stored, relvar, delta)
    }

    /// Makes its inverse there. It costs as `td_relations::apply_inverse`.
    pub fn change_back(
        &mut self,
        alloc: Global,
        relvar: usize,
        delta: &Delta,
    ) -> Result<(), AllocError>
        requires { CanChange self.old relvar (inverse_of delta.now) }
        ensures ok { OnOk result (self.new ≡ with_change relvar (inverse_of delta.now) self.old) }
        ensures err { OnErr result (self.new ≡ self.old) }
    {
        change_back_at(alloc, &self.catalogue, &mut self.stored, relvar, delta)
    }

    /// Makes the inverse of a change that took nothing out. It takes no memory, and costs a search and a shift for each
    /// tuple that was put in.
    pub fn take_back(&mut self, relvar: usize, delta: &Delta)
        requires change { CanChange self.old relvar (inverse_of delta.now) }
        requires growth { body delta.now.deleted ≡ set.empty }
        ensures { self.new ≡ with_change relvar (inverse_of delta.now) self.old }
    {
        take_back_at(&mut self.stored, relvar, delta);
    }

    /// What it takes to take this change of the relvar at the place back without memory, once it is made. It costs two
    /// counts for each tuple that the change takes out, and room for two lists as long as what the relvar has, where no
    /// way back has left that.
    pub fn way_back(
        &mut self,
        alloc: Global,
        relvar: usize,
        delta: &Delta,
    ) -> Result<WayBack, AllocError>
        requires { CanChange self.old relvar delta.now }
        ensures way { IfOk result (LeadsBackAt self.old relvar delta.now) }
        ensures same { self.new ≡ self.old }
    {
        way_back_at(alloc, &mut self.stored, relvar, delta)
    }

    /// Keeps the room of a way back that is not gone, for the next change of the relvar at the place. It takes no
    /// memory.
    pub fn keep_room(&mut self, relvar: usize, way: WayBack)
        ensures { self.new ≡ self.old }
    {
        keep_room_at(&mut self.stored, relvar, way);
    }

    /// Makes the inverse of a change by a way that was made before it. It takes no memory, and costs a search and a
    /// shift for each tuple that was put in, and a sort of all tuples.
    pub fn go_back(&mut self, relvar: usize, delta: &Delta, way: WayBack)
        requires { CanGoBack self.old relvar delta.now way }
        ensures { self.new ≡ with_change relvar (inverse_of delta.now) self.old }
    {
        go_back_at(&mut self.stored, relvar, delta, way);
    }
}
