//! Values, tuples and rows: what they hold, and copies.
ghost use Rattle.std.specs.Prelude.{◌≡◌, IfOk};
ghost use Rattle.std.specs.List.{All};
ghost use Rattle.std.specs.Option.{option_copied};
ghost use Rattle.td_values.specs.Attributes.{attribute_of};
ghost use Rattle.td_values.specs.Data.{attrs_of};
ghost use Rattle.td_values.specs.Rows.{AreRows};
ghost use Rattle.td_values.specs.Whole.{IsWhole, IsWholeTuple, NamesAscend};

use crate::names::Name;
use crate::places::place;
use crate::{Heading, Items, Kind, Rows, Tuple, Value};
use std::alloc::{AllocError, Global};
use std::rc::Rc;

/// A copy of a value, which shares its texts and tuples. A copy of a relation takes a list of its tuples.
pub fn copy(alloc: Global, a: &Value) -> Result<Value, AllocError>
    ensures { IfOk result (λ b. b ≡ a.now) }
{
    match &a.kind {
        Kind::Boolean(b) => Ok(Value {
            kind: Kind::Boolean(*b),
        }),
        Kind::Integer(n) => Ok(Value {
            kind: Kind::Integer(*n),
        }),
        Kind::Char(s) => Ok(Value {
            kind: Kind::Char(s.copy()?),
        }),
        Kind::User(p, vs) => Ok(Value {
            kind: Kind::User(p.copy()?, vs.copy()?),
        }),
        Kind::Tuple(t) => Ok(Value {
            kind: Kind::Tuple(t.copy()?),
        }),
        Kind::Relation(r) => Ok(Value {
            kind: Kind::Relation(r.copy(alloc)?),
        }),
    }
}

/// A value is whole: at each level names ascend, and the tuples of a relation fit its heading and strictly ascend.
/// It costs nothing.
pub fn whole(v: &Value)
    ensures { IsWhole v.now }
{
    match &v.kind {
        Kind::User(_, vs) => {
            let _all = &vs.values;
        }
        Kind::Tuple(t) => {
            let _all = &t.attributes;
        }
        Kind::Relation(r) => {
            let _all = &r.tuples;
        }
        _ => {}
    }
}

/// A tuple is whole. It costs nothing.
pub fn whole_tuple(t: &Tuple)
    ensures { IsWholeTuple t.now }
{
    let _all = &t.attributes;
}

/// Each of the tuples is whole. It costs nothing.
pub fn whole_tuples(tuples: &[Tuple])
    ensures { All IsWholeTuple tuples.now }
{
    // Each call shows that its tuple is whole, and does nothing when it runs.
    for t in tuples {
        whole_tuple(t);
    }
}

impl Items {
    /// The components, in order.
    pub fn new(alloc: Global, values: Vec<Value>) -> Result<Items, AllocError>
        ensures { IfOk result (λ vs. vs ≡ values.items) }
    {
        // Each call shows that its value is whole, and does nothing when it runs.
        for v in &values {
            whole(v);
        }
        Ok(Items {
            values: Rc::new(alloc, values)?,
        })
    }

    /// The components, in order.
    pub fn values(&self) -> &[Value]
        ensures { result.now ≡ self.now }
    {
        &self.values
    }

    /// A copy, which shares the components.
    pub fn copy(&self) -> Result<Items, AllocError>
        ensures { IfOk result (λ vs. vs ≡ self.now) }
    {
        Ok(Items {
            values: self.values.clone()?,
        })
    }
}

impl Tuple {
    /// The tuple of these attributes, whose names ascend.
    pub fn of(alloc: Global, attributes: Vec<(Name, Value)>) -> Result<Tuple, AllocError>
        requires { NamesAscend (attrs_of attributes.items) }
        ensures { IfOk result (λ t. t ≡ attrs_of attributes.items) }
    {
        // Each call shows that its value is whole, and does nothing when it runs.
        for x in &attributes {
            whole(&x.1);
        }
        Ok(Tuple {
            attributes: Rc::new(alloc, attributes)?,
        })
    }

    /// The attributes, in name order.
    pub fn attributes(&self) -> &[(Name, Value)]
        ensures all { attrs_of result.now ≡ self.now }
        ensures ascend { NamesAscend self.now }
    {
        &self.attributes
    }

    /// The value at this name.
    pub fn get(&self, name: &Name) -> Option<&Value>
        ensures { option_copied result ≡ attribute_of name.now self.now }
    {
        match place(&self.attributes, name) {
            Ok(at) => Some(&self.attributes[at].1),
            Err(_) => None,
        }
    }

    /// A copy, which shares the attributes.
    pub fn copy(&self) -> Result<Tuple, AllocError>
        ensures { IfOk result (λ t. t ≡ self.now) }
    {
        Ok(Tuple {
            attributes: self.attributes.clone()?,
        })
    }
}

impl Rows {
    /// The rows of these tuples, which fit the heading and ascend.
    pub fn new(heading: Heading, tuples: Vec<Tuple>) -> Rows
        requires { AreRows heading tuples.items }
        ensures { result ≡ record { heading = heading; tuples = tuples.items } }
    {
        whole_tuples(&tuples);
        Rows { heading, tuples }
    }

    /// The heading.
    pub fn heading(&self) -> &Heading
        ensures { result.now ≡ self.now.heading }
    {
        &self.heading
    }

    /// The tuples, ascending.
    pub fn tuples(&self) -> &[Tuple]
        ensures all { result.now ≡ self.now.tuples }
        ensures rows { AreRows self.now.heading self.now.tuples }
    {
        &self.tuples
    }

    /// The heading and the tuples.
    pub fn into_parts(self) -> (Heading, Vec<Tuple>)
        ensures heading { result.0 ≡ self.heading }
        ensures tuples { result.1.items ≡ self.tuples }
        ensures rows { AreRows self.heading self.tuples }
    {
        (self.heading, self.tuples)
    }

    /// A copy, which shares the tuples.
    pub fn copy(&self, alloc: Global) -> Result<Rows, AllocError>
        ensures { IfOk result (λ r. r ≡ self.now) }
    {
        let tuples = copy_tuples(alloc, &self.tuples)?;
        Ok(Rows {
            heading: self.heading.copy()?,
            tuples,
        })
    }
}

/// A copy of the tuples, which shares each: it takes a list of them, and one count each.
pub fn copy_tuples(alloc: Global, a: &[Tuple]) -> Result<Vec<Tuple>, AllocError>
    ensures { IfOk result (λ v. v.items ≡ a.now) }
{
    let mut tuples = Vec::with_capacity(alloc, a.len())?;
    for t in a {
        tuples.push(t.copy()?)?;
    }
    Ok(tuples)
}
