//! The possible representations of user values.
ghost use Rattle.std.specs.Prelude.{◌≡◌, IfOk};
ghost use Rattle.td_values.specs.Order.{possrep_order};

use crate::names::Name;
use std::alloc::{AllocError, Global};
use std::cmp::Ordering;
use std::marker::Model;
use std::rc::Rc;

/// The possible representation of a user value: the name of its type, and its own name. A copy takes one count.
#[derive(Drop)]
pub struct Possrep {
    names: Rc<(Name, Name)>,
}

impl Model for Possrep {
    ghost use Rattle.td_values.specs.Data.{PossrepData};

    ghost Value = { PossrepData };

    ghost view = { λ a. record { ty = a.names.value.0; name = a.names.value.1 } };
}

impl Possrep {
    /// The possible representation of this name of the type of that name.
    pub fn new(alloc: Global, ty: Name, name: Name) -> Result<Possrep, AllocError>
        ensures { IfOk result (λ p. p ≡ record { ty = ty; name = name }) }
    {
        Ok(Possrep {
            names: Rc::new(alloc, (ty, name))?,
        })
    }

    /// The name of its type.
    pub fn ty(&self) -> &Name
        ensures { result.now ≡ self.now.ty }
    {
        &self.names.0
    }

    /// Its own name, which is that of its selector.
    pub fn name(&self) -> &Name
        ensures { result.now ≡ self.now.name }
    {
        &self.names.1
    }

    /// A copy, which shares the names.
    pub fn copy(&self) -> Result<Possrep, AllocError>
        ensures { IfOk result (λ p. p ≡ self.now) }
    {
        Ok(Possrep {
            names: self.names.clone()?,
        })
    }

    /// The order by the types' names, then by their own.
    pub fn compare(&self, other: &Possrep) -> Ordering
        ensures { result ≡ possrep_order self.now other.now }
    {
        let types = self.ty().compare(other.ty());
        types.then(self.name().compare(other.name()))
    }
}
