//! Tuples, attribute by attribute.
ghost use Rattle.std.specs.Prelude.{◌≡◌, IfOk, OnErr, not, if◌then◌else◌};
ghost use Rattle.std.specs.FinMap as map;
ghost use Rattle.td_values.specs.Data.{attrs_of};

use crate::names::Name;
use crate::places::place;
use crate::{Tuple, Value};
use std::alloc::{AllocError, Global};
use std::marker::Model;

/// A tuple that is being built, which contracts see as a finite map from names to values.
#[derive(Drop)]
pub struct TupleBuilder {
    attributes: Vec<(Name, Value)>,
}

impl Model for TupleBuilder {
    ghost use Rattle.std.specs.Prelude.{T};
    ghost use Rattle.std.specs.FinMap as map;
    ghost use Rattle.td_values.specs.Attributes.{AttributeMap, attribute_code};
    ghost use Rattle.td_values.specs.Order.{text_cmp};

    ghost Value = { AttributeMap };

    ghost coded = { attribute_code };

    ghost view = { λ a. map.from_sorted a.attributes.items };

    ghost invariant = { λ a. T (map.is_sorted text_cmp a.attributes.items) };
}

impl TupleBuilder {
    /// No attributes. It takes no memory until the first one.
    pub fn new(alloc: Global) -> TupleBuilder
        ensures { result ≡ map.empty }
    {
        TupleBuilder {
            attributes: Vec::new(alloc),
        }
    }

    /// Adds the attribute, and says whether the name was new. A name that was there keeps its value.
    pub fn insert(&mut self, name: Name, value: Value) -> Result<bool, AllocError>
        ensures new { IfOk result (λ new. new ≡ not (map.contains_key self.old name)) }
        ensures ok { IfOk result (λ new. self.new ≡ (if new then map.insert self.old name value else self.old)) }
        ensures err { OnErr result (self.new ≡ self.old) }
    {
        match place(&self.attributes, &name) {
            Ok(_) => Ok(false),
            Err(at) => {
                self.attributes.insert(at, (name, value))?;
                Ok(true)
            }
        }
    }

    /// The tuple of these attributes.
    pub fn build(self, alloc: Global) -> Result<Tuple, AllocError>
        ensures { IfOk result (λ t. t ≡ attrs_of (map.entries self)) }
    {
        Tuple::of(alloc, self.attributes)
    }
}
