//! What is defined, as far as an expression can name it.

ghost use Rattle.std.specs.Prelude.{◌≡◌, ◌++◌, ◌∷◌, [], false, None, Some, Err, MatchOption, OnErr, OnOk, length, slice_get};
ghost use Rattle.std.specs.Option.{option_copied};
ghost use Rattle.std.specs.Ordering.{eq_by_cmp};
ghost use Rattle.indexmap.specs.IndexMap.{get as entry_of};
ghost use Rattle.indexmap.specs.IndexSet.{contains};
ghost use Rattle.td_values.specs.Order.{text_cmp};
ghost use Rattle.td_schema.specs.ForProofs.Additions as additions;
ghost use Rattle.td_schema.specs.Schemas as spec;
ghost use Rattle.td_schema.specs.declared.error.TypeError.TheVariants as type_error;

use crate::error::TypeError;
use indexmap::{IndexMap, IndexSet};
use sqlite_items::Items;
use std::alloc::{AllocError, Global};
use std::marker::Model;
use td_syntax::tree::Named;
use td_values::{Heading, Name, Possrep, TypeKind};

/// A user-defined type: its names and its components, in order.
#[derive(Drop)]
pub struct Representation {
    pub possrep: Possrep,
    pub components: Items<Named<TypeKind>>,
}

/// The relvars, and the types with their possreps, each in order of definition. They are found by a hash of their
/// names.
pub struct Schema {
    types: IndexSet<Name>,
    possreps: IndexMap<Name, Representation>,
    relvars: IndexMap<Name, Heading>,
}

// By hand, since a derived one is proved anew at each place where a schema is dropped: this one is a call there.
impl Drop for Schema {
    fn drop(self) {
        let Schema {
            types: _,
            possreps: _,
            relvars: _,
        } = self;
    }
}

impl Model for Schema {
    ghost use Rattle.std.specs.Prelude.{◌≡◌, map};
    ghost use Rattle.std.specs.Map.{keys_of};
    ghost use Rattle.td_schema.specs.Schemas.{SchemaData};
    ghost use Rattle.td_schema.specs.ForProofs.Additions.{possrep_names, type_names};
    ghost use Rattle.td_schema.specs.ForProofs.Codes.{schema_code};

    ghost Value = { SchemaData };

    ghost coded = { schema_code };

    ghost view = { λ s. record { possreps = map (λ e. e.1) s.possreps.entries; relvars = map (λ e. record { name = e.0; value = e.1 }) s.relvars.entries } };

    ghost invariant = { λ s. (s.types.keys ≡ type_names (map (λ e. e.1) s.possreps.entries)) × (keys_of s.possreps.entries ≡ possrep_names (map (λ e. e.1) s.possreps.entries)) };
}

/// Whether the name begins with THE_.
pub fn begins_with_the(name: &Name) -> bool
    ensures { result ≡ spec.begins_with_the name.now }
{
    name.as_str().as_bytes().starts_with(b"THE_")
}

// Puts the entry last.
fn add_entry<V: Drop>(
    entries: &mut IndexMap<Name, V>,
    name: Name,
    value: V,
) -> Result<(), AllocError>
    requires { entry_of (eq_by_cmp text_cmp) entries.old name ≡ None }
    ensures ok { OnOk result (entries.new.entries ≡ entries.old.entries ++ (name, value) ∷ []) }
    ensures err { OnErr result (entries.new.entries ≡ entries.old.entries) }
{
    match entries.insert(name, value) {
        Ok(_) => Ok(()),
        Err(_) => Err(AllocError),
    }
}

// Adds the names of a type and its possrep behind the others, or neither.
fn add_possrep(
    types: &mut IndexSet<Name>,
    possreps: &mut IndexMap<Name, Representation>,
    ty: Name,
    name: Name,
    representation: Representation,
) -> Result<(), AllocError>
    requires new_type { contains (eq_by_cmp text_cmp) types.old ty ≡ false }
    requires new_possrep { entry_of (eq_by_cmp text_cmp) possreps.old name ≡ None }
    ensures types { OnOk result (types.new.keys ≡ types.old.keys ++ ty ∷ []) }
    ensures possreps { OnOk result (possreps.new.entries ≡ possreps.old.entries ++ (name, representation) ∷ []) }
    ensures same_types { OnErr result (types.new.keys ≡ types.old.keys) }
    ensures same_possreps { OnErr result (possreps.new.entries ≡ possreps.old.entries) }
{
    types.reserve(1)?;
    add_entry(possreps, name, representation)?;
    types.insert(ty).unwrap();
    Ok(())
}

impl Schema {
    /// A schema in which nothing is defined.
    pub fn new(alloc: Global) -> Schema
        ensures { result ≡ spec.empty_schema }
    {
        Schema {
            types: IndexSet::new(alloc),
            possreps: IndexMap::new(alloc),
            relvars: IndexMap::new(alloc),
        }
    }

    /// The relvar of this name: its place in order of definition, from 0, and its heading.
    pub fn relvar(&self, name: &Name) -> Option<(usize, &Heading)>
        ensures { MatchOption result (spec.relvar_named self.now name.now ≡ None) (λ r. spec.relvar_named self.now name.now ≡ Some (r.0, record { name = name.now; value = r.1.now })) }
    {
        match self.relvars.get_full(name) {
            Some((place, _, heading)) => Some((place, heading)),
            None => None,
        }
    }

    /// The possrep of this name: its place in order of definition, from 0, and the type that it is of.
    pub fn possrep(&self, name: &Name) -> Option<(usize, &Representation)>
        ensures { MatchOption result (spec.possrep_named self.now name.now ≡ None) (λ r. spec.possrep_named self.now name.now ≡ Some (r.0, r.1.now)) }
    {
        match self.possreps.get_full(name) {
            Some((place, _, representation)) => Some((place, representation)),
            None => None,
        }
    }

    /// The type of this name: the place of its possrep in order of definition, from 0, and the type.
    pub fn type_named(&self, name: &Name) -> Option<(usize, &Representation)>
        ensures { MatchOption result (spec.type_named self.now name.now ≡ None) (λ r. spec.type_named self.now name.now ≡ Some (r.0, r.1.now)) }
    {
        match self.types.get_index_of(name) {
            Some(place) => match self.possreps.get_index(place) {
                Some((_, representation)) => Some((place, representation)),
                None => None,
            },
            None => None,
        }
    }

    /// The name and the heading of the relvar at this place.
    pub fn relvar_at(&self, place: usize) -> Option<(&Name, &Heading)>
        ensures { MatchOption result (slice_get self.now.relvars place ≡ None) (λ r. slice_get self.now.relvars place ≡ Some (record { name = r.0.now; value = r.1.now })) }
    {
        self.relvars.get_index(place)
    }

    /// The type whose possrep is at this place.
    pub fn representation_at(&self, place: usize) -> Option<&Representation>
        ensures { option_copied result ≡ slice_get self.now.possreps place }
    {
        match self.possreps.get_index(place) {
            Some((_, representation)) => Some(representation),
            None => None,
        }
    }

    /// How many relvars there are.
    pub fn relvar_count(&self) -> usize
        ensures { result ≡ length self.now.relvars }
    {
        self.relvars.len()
    }

    /// How many user-defined types there are.
    pub fn type_count(&self) -> usize
        ensures { result ≡ length self.now.possreps }
    {
        self.possreps.len()
    }

    /// Adds a relvar behind the others. It is refused where there is one of its name.
    pub fn add_relvar(&mut self, name: Name, heading: Heading) -> Result<(), TypeError>
        ensures ok { OnOk result (additions.relvar_added self.old name heading ≡ Some self.new) }
        ensures ill_typed { result ≡ Err type_error.IllTyped → additions.relvar_added self.old name heading ≡ None }
        ensures err { OnErr result (self.new ≡ self.old) }
    {
        if self.relvars.contains_key(&name) {
            return Err(TypeError::IllTyped);
        }
        match add_entry(&mut self.relvars, name, heading) {
            Ok(()) => {}
            Err(_) => return Err(TypeError::OutOfMemory),
        }
        Ok(())
    }

    // Whether `add_type` takes the type: the name of its possrep does not begin with THE_, no type has its name, and no
    // possrep has the name of its own.
    fn may_add(&self, representation: &Representation) -> bool
        ensures { result ≡ additions.may_add self.now representation.now }
    {
        !begins_with_the(representation.possrep.name())
            && (self.type_named(representation.possrep.ty()).is_none()
                && self.possrep(representation.possrep.name()).is_none())
    }

    /// Adds a type behind the others. It is refused where there is a type of its name or a possrep of its possrep's
    /// name, or where that name begins with THE_.
    pub fn add_type(&mut self, representation: Representation) -> Result<(), TypeError>
        ensures ok { OnOk result (additions.type_added self.old representation ≡ Some self.new) }
        ensures ill_typed { result ≡ Err type_error.IllTyped → additions.type_added self.old representation ≡ None }
        ensures err { OnErr result (self.new ≡ self.old) }
    {
        if !self.may_add(&representation) {
            return Err(TypeError::IllTyped);
        }
        let ty = representation.possrep.ty().copy()?;
        let name = representation.possrep.name().copy()?;
        match add_possrep(
            &mut self.types,
            &mut self.possreps,
            ty,
            name,
            representation,
        ) {
            Ok(()) => {}
            Err(_) => return Err(TypeError::OutOfMemory),
        }
        Ok(())
    }
}
