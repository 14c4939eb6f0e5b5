//! Names in scope.

ghost use Rattle.std.specs.Prelude.{◌≡◌, IfOk, MatchOption, None, Some};
ghost use Rattle.std.specs.Option.{option_copied};
ghost use Rattle.td_schema.specs.ForProofs.Latest.{latest};
ghost use Rattle.td_schema.specs.Scopes as spec;
ghost use Rattle.td_schema.specs.Scopes.{visible};

use crate::schema::Schema;
use std::alloc::AllocError;
use td_syntax::tree::Named;
use td_values::{Heading, Name, TypeKind};

/// The names in scope, the innermost first.
#[derive(Clone, Copy)]
pub enum Scope<'a> {
    Nothing,
    /// Those of the relvars.
    Relvars(&'a Schema),
    /// The attributes of a tuple.
    Within(&'a Heading, &'a Scope<'a>),
    /// Names of WITH, of which a later one hides an earlier one.
    Given(&'a [Named<TypeKind>], &'a Scope<'a>),
}

/// What a name means.
#[derive(Drop)]
pub enum Meant {
    /// An attribute or a name of WITH, by its kind of type.
    Local(TypeKind),
    /// A relvar, by its place in order of definition, from 0, and its heading.
    Relvar(usize, Heading),
}

// The kind at the last of these that has the name.
fn latest_kind<'a>(names: &'a [Named<TypeKind>], name: &Name) -> Option<&'a TypeKind>
    ensures { option_copied result ≡ latest names.now name.now None }
{
    let mut found = None;
    for named in names {
        if named.name == *name {
            found = Some(&named.value);
        }
    }
    found
}

// The relvar that the name means, or none where the schema has no relvar of this name. The heading is shared.
fn find_relvar(schema: &Schema, name: &Name) -> Result<Option<Meant>, AllocError>
    ensures { IfOk result (λ m. m ≡ spec.relvars_of schema.now name.now) }
{
    match schema.relvar(name) {
        Some((place, heading)) => Ok(Some(Meant::Relvar(place, heading.copy()?))),
        None => Ok(None),
    }
}

impl Scope<'_> {
    /// What the name means: the innermost names are looked at first. It takes as many look-ups as scopes are around,
    /// and as many steps as WITH has names.
    pub fn find(&self, name: &Name) -> Result<Option<Meant>, AllocError>
        ensures { IfOk result (λ m. m ≡ visible self.now name.now) }
    {
        match self {
            Scope::Nothing => Ok(None),
            Scope::Relvars(schema) => find_relvar(schema, name),
            Scope::Within(heading, outer) => match heading.type_of(name) {
                Some(ty) => Ok(Some(Meant::Local(ty.kind.copy()?))),
                None => outer.find(name),
            },
            Scope::Given(names, outer) => match latest_kind(names, name) {
                Some(kind) => Ok(Some(Meant::Local(kind.copy()?))),
                None => outer.find(name),
            },
        }
    }
}
