//! Names in scope.

ghost use Rattle.std.specs.Prelude.{◌≡◌, IfOk, MatchOption, None, Some};
ghost use Rattle.std.specs.Option.{option_copied};
ghost use Rattle.td_operators.specs.ForProofs.Lent.{operand_value};
ghost use Rattle.td_meaning.specs.ForProofs.Standing.{meant_value};
ghost use Rattle.td_meaning.specs.ForProofs.Latest.{latest};
ghost use Rattle.td_meaning.specs.Seen.{held_value, names_bound};
ghost use Rattle.td_meaning.specs.Selections.{components};

use std::alloc::{AllocError, Global};
use td_operators::{Lease, Operand, relation_value};
use td_relations::Relation;
use td_syntax::tree::Named;
use td_values::{Kind, Name, Tuple, Value, copy};

/// The value of a name of WITH. A relation is held as operators take it, so that it can be lent.
#[derive(Drop)]
pub enum KnownValue {
    Rows(Relation),
    Other(Value),
}

/// The names in scope, the innermost first.
#[derive(Clone, Copy)]
pub enum Bindings<'a> {
    Nothing,
    /// The attributes of a tuple.
    Within(&'a Tuple, &'a Bindings<'a>),
    /// Names of WITH, of which a later one hides an earlier one.
    Given(&'a [Named<KnownValue>], &'a Bindings<'a>),
    /// The components of a possrep: their names, and as many values.
    Components(&'a [Name], &'a [Value]),
}

/// What a name stands for, where it stands.
#[derive(Clone, Copy)]
pub enum Binding<'a> {
    Value(&'a Value),
    Rows(&'a Relation),
}

/// The value, held as a name of WITH.
pub(crate) fn hold(value: Value) -> KnownValue
    ensures { held_value result ≡ value }
{
    match value.kind {
        Kind::Relation(rows) => KnownValue::Rows(Relation::of(rows)),
        kind => KnownValue::Other(Value { kind }),
    }
}

/// What a name stands for, as an operand. A relation-valued attribute is copied: it is no `Relation` where it stands.
pub(crate) fn operand_meant<'a>(
    alloc: Global,
    meant: Binding<'a>,
) -> Result<Operand<'a>, AllocError>
    ensures { IfOk result (λ o. operand_value o ≡ meant_value meant.entry) }
{
    match meant {
        Binding::Value(value) => Ok(Operand::Made(copy(alloc, value)?)),
        Binding::Rows(relation) => Ok(Operand::Lent(Lease::lent(relation))),
    }
}

/// What a name stands for, copied.
pub(crate) fn value_meant(alloc: Global, meant: Binding<'_>) -> Result<Value, AllocError>
    ensures { IfOk result (λ v. v ≡ meant_value meant.entry) }
{
    match meant {
        Binding::Value(value) => copy(alloc, value),
        Binding::Rows(relation) => Ok(relation_value(relation.copy(alloc)?)),
    }
}

/// What a name stands for that has the held value: a relation or another value, lent.
pub(crate) fn lent(held: &KnownValue) -> Binding<'_>
    ensures { meant_value result ≡ held_value held.now }
{
    match held {
        KnownValue::Rows(relation) => Binding::Rows(relation),
        KnownValue::Other(value) => Binding::Value(value),
    }
}

// The value of the last name of WITH that is the one sought; None where no name is. It looks at all of them.
fn latest<'a>(names: &'a [Named<KnownValue>], name: &Name) -> Option<&'a KnownValue>
    ensures { option_copied result ≡ latest names.now name.now None }
{
    let mut found = None;
    for named in names {
        if named.name == *name {
            found = Some(&named.value);
        }
    }
    found
}

// The value of the first component that has the name; None where no component has it.
fn component<'a>(names: &[Name], values: &'a [Value], name: &Name) -> Option<&'a Value>
    ensures { option_copied result ≡ components names.now values.now name.now }
{
    for i in 0..names.len().min(values.len()) {
        if names[i] == *name {
            return Some(&values[i]);
        }
    }
    None
}

impl Bindings<'_> {
    /// What the name stands for: the innermost names are looked at first. It takes as many look-ups as scopes are
    /// around, and as many steps as WITH has names and a possrep components.
    pub(crate) fn find(&self, name: &Name) -> Option<Binding<'_>>
        ensures { MatchOption result (names_bound self.now name.now ≡ None) (λ m. names_bound self.now name.now ≡ Some (meant_value m)) }
    {
        match self {
            Bindings::Nothing => None,
            Bindings::Within(tuple, outer) => match tuple.get(name) {
                Some(value) => Some(Binding::Value(value)),
                None => outer.find(name),
            },
            Bindings::Given(names, outer) => match latest(names, name) {
                Some(held) => Some(lent(held)),
                None => outer.find(name),
            },
            Bindings::Components(names, values) => match component(names, values, name) {
                Some(value) => Some(Binding::Value(value)),
                None => None,
            },
        }
    }
}
