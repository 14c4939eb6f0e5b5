//! Headings and types: what they hold, and copies.
ghost use Rattle.std.specs.Prelude.{◌≡◌, ◌≤◌, ◌↔◌, IsTrue, IfOk, OnOk, OnErr, MatchOption, None, Some, insert, length, not, slice_get, if◌then◌else◌};
ghost use Rattle.std.specs.Option.{option_copied};
ghost use Rattle.std.specs.FinMap as map;

use crate::names::Name;
use crate::places::place;
use crate::{Heading, TdType, TypeKind};
use std::alloc::{AllocError, Global};
use std::rc::Rc;

impl TdType {
    /// The type BOOLEAN.
    pub const Boolean: TdType = TdType {
        kind: TypeKind::Boolean,
    };

    /// The type INTEGER.
    pub const Integer: TdType = TdType {
        kind: TypeKind::Integer,
    };

    /// The type CHAR.
    pub const Char: TdType = TdType {
        kind: TypeKind::Char,
    };

    /// A copy, which shares the headings within the type.
    pub fn copy(&self) -> Result<TdType, AllocError>
        ensures { IfOk result (λ t. t ≡ self.now) }
    {
        Ok(TdType {
            kind: self.kind.copy()?,
        })
    }
}

impl TypeKind {
    /// A copy, which shares the headings within the kind.
    pub fn copy(&self) -> Result<TypeKind, AllocError>
        ensures { IfOk result (λ k. k ≡ self.now) }
    {
        match self {
            TypeKind::Boolean => Ok(TypeKind::Boolean),
            TypeKind::Integer => Ok(TypeKind::Integer),
            TypeKind::Char => Ok(TypeKind::Char),
            TypeKind::User(n) => Ok(TypeKind::User(n.copy()?)),
            TypeKind::Tuple(h) => Ok(TypeKind::Tuple(h.copy()?)),
            TypeKind::Relation(h) => Ok(TypeKind::Relation(h.copy()?)),
        }
    }
}

// Adds the field at its place. Fields that another heading shares are copied first.
fn add_field(
    alloc: Global,
    fields: &mut Rc<Vec<(Name, TdType)>>,
    at: usize,
    field: (Name, TdType),
) -> Result<(), AllocError>
    requires { at ≤ length fields.old.value.items }
    ensures ok { OnOk result (fields.new.value.items ≡ insert fields.old.value.items at field) }
    ensures err { OnErr result (fields.new.value.items ≡ fields.old.value.items) }
{
    match Rc::get_mut(fields) {
        Some(own) => {
            own.insert(at, field)?;
        }
        None => {
            let mut copies = copy_fields(alloc, fields)?;
            copies.insert(at, field)?;
            *fields = Rc::new(alloc, copies)?;
        }
    }
    Ok(())
}

// Copies of the fields, with room for one more.
fn copy_fields(alloc: Global, fields: &[(Name, TdType)]) -> Result<Vec<(Name, TdType)>, AllocError>
    ensures { IfOk result (λ v. v.items ≡ fields.now) }
{
    let mut copies = Vec::with_capacity(alloc, fields.len() + 1)?;
    for field in fields {
        copies.push((field.0.copy()?, field.1.copy()?))?;
    }
    Ok(copies)
}

impl Heading {
    /// The heading with no names.
    pub fn new(alloc: Global) -> Result<Heading, AllocError>
        ensures { IfOk result (λ h. h ≡ map.empty) }
    {
        Ok(Heading {
            fields: Rc::new(alloc, Vec::new(alloc))?,
        })
    }

    /// Adds the name with its type, and says whether the name was new. A name that was there keeps its type.
    /// It costs a search and the shift of the names after it; the first one after a copy copies the counts of all.
    pub fn insert(&mut self, alloc: Global, name: Name, ty: TdType) -> Result<bool, AllocError>
        ensures new { IfOk result (λ new. new ≡ not (map.contains_key self.old name)) }
        ensures ok { IfOk result (λ new. self.new ≡ (if new then map.insert self.old name ty else self.old)) }
        ensures err { OnErr result (self.new ≡ self.old) }
    {
        match place(&self.fields, &name) {
            Ok(_) => Ok(false),
            Err(at) => {
                add_field(alloc, &mut self.fields, at, (name, ty))?;
                Ok(true)
            }
        }
    }

    /// The type at this name.
    pub fn type_of(&self, name: &Name) -> Option<&TdType>
        ensures { option_copied result ≡ map.get self.now name.now }
    {
        match place(&self.fields, name) {
            Ok(at) => Some(&self.fields[at].1),
            Err(_) => None,
        }
    }

    /// How many names there are.
    pub fn len(&self) -> usize
        ensures { result ≡ map.len self.now }
    {
        self.fields.len()
    }

    /// Whether there are no names.
    pub fn is_empty(&self) -> bool
        ensures { IsTrue result ↔ (map.len self.now ≡ 0) }
    {
        self.len() == 0
    }

    /// The names with their types, in name order.
    pub fn fields(&self) -> &[(Name, TdType)]
        ensures { result.now ≡ map.entries self.now }
    {
        &self.fields
    }

    /// The name at this place in name order, from 0, with its type.
    pub fn at(&self, i: usize) -> Option<(&Name, &TdType)>
        ensures { let field = slice_get (map.entries self.now) i in
            MatchOption result (field ≡ None) (λ f. field ≡ Some (f.0.now, f.1.now)) }
    {
        if i < self.fields.len() {
            let field = &self.fields[i];
            Some((&field.0, &field.1))
        } else {
            None
        }
    }

    /// A copy, which shares the attributes.
    pub fn copy(&self) -> Result<Heading, AllocError>
        ensures { IfOk result (λ h. h ≡ self.now) }
    {
        Ok(Heading {
            fields: self.fields.clone()?,
        })
    }
}
