//! Values as operators take them: a relation may be lent.

ghost use Rattle.std.specs.Prelude.{◌≡◌};
ghost use Rattle.td_algebra.specs.KeyIndexes.{AreKeyIndexes};
ghost use Rattle.td_algebra.specs.Raising.{Answers, AnswersBy};
ghost use Rattle.td_operators.specs.ForProofs.Kinds.{HasShape};
ghost use Rattle.td_operators.specs.ForProofs.Lent.{operand_value};
ghost use Rattle.td_operators.specs.Values as spec;

use std::marker::Model;
use td_algebra::{Fault, KeyIndex, Stop};
use td_relations::Relation;
use td_values::{Kind, Text, Tuple, Value};

/// The value of an operand.
#[derive(Drop)]
pub enum Operand<'a> {
    Made(Value),
    Lent(Lease<'a>),
}

/// A relation that is read: an owned or a lent one. Where its tuples are kept by keys beside it, they are lent too;
/// contracts see the relation alone.
pub struct Lease<'a> {
    relation: Leased<'a>,
    indexes: &'a [KeyIndex],
}

#[derive(Drop)]
enum Leased<'a> {
    Own(Relation),
    Lent(&'a Relation),
}

impl<'a> Model for Lease<'a> {
    ghost use Rattle.td_values.specs.Rows.{RowsData, rows_code};
    ghost use Rattle.td_operators.specs.ForProofs.Leases.{leased_rows};

    ghost Value = { RowsData };

    ghost coded = { rows_code };

    ghost view = { λ l. leased_rows l.relation };

    ghost use Rattle.td_algebra.specs.KeyIndexes.{AreKeyIndexes};

    ghost invariant = { λ l. AreKeyIndexes (leased_rows l.relation) l.indexes.now };
}

// By hand, since a derived one is proved anew at each place where a lease is dropped: this one is a call there.
impl<'a> Drop for Lease<'a> {
    fn drop(self) {
        let Lease {
            relation: _,
            indexes: _,
        } = self;
    }
}

/// What an operand is, where that decides what is done with it.
#[derive(Clone, Copy)]
pub enum Shape<'a> {
    Integer(i64),
    Text(&'a Text),
    Tuple(&'a Tuple),
    Other,
}

impl<'a> Lease<'a> {
    /// A relation that was made to be read.
    pub fn own(relation: Relation) -> Lease<'a>
        ensures { result ≡ relation }
    {
        Lease {
            relation: Leased::Own(relation),
            indexes: &[],
        }
    }

    /// A relation that stands elsewhere.
    pub fn lent(relation: &'a Relation) -> Lease<'a>
        ensures { result ≡ relation.now }
    {
        Lease {
            relation: Leased::Lent(relation),
            indexes: &[],
        }
    }

    /// A relation that stands elsewhere, and its tuples by some keys.
    pub fn kept(relation: &'a Relation, indexes: &'a [KeyIndex]) -> Lease<'a>
        requires { AreKeyIndexes relation.now indexes.now }
        ensures { result ≡ relation.now }
    {
        Lease {
            relation: Leased::Lent(relation),
            indexes,
        }
    }

    /// Lends the same relation once more.
    pub fn share(&self) -> Lease<'_>
        ensures { result ≡ self.now }
    {
        Lease {
            relation: Leased::Lent(self.get()),
            indexes: self.indexes,
        }
    }

    /// The relation, lent.
    pub fn get(&self) -> &Relation
        ensures { result.now ≡ self.now }
    {
        match &self.relation {
            Leased::Own(relation) => relation,
            Leased::Lent(relation) => relation,
        }
    }

    /// Its tuples by the keys by which they are kept, if they are.
    pub fn indexes(&self) -> &[KeyIndex]
        ensures { AreKeyIndexes self.now result.now }
    {
        self.indexes
    }
}

/// The truth value of the operand; a value of another kind is untyped.
pub(crate) fn truth_of<W>(operand: &Operand) -> Result<bool, Fault<W>>
    ensures { Answers result (spec.truth_of (operand_value operand.now)) }
{
    match operand {
        Operand::Made(value) => match &value.kind {
            Kind::Boolean(b) => Ok(*b),
            _ => Err(Fault::Raised(Stop::Untyped)),
        },
        Operand::Lent(_) => Err(Fault::Raised(Stop::Untyped)),
    }
}

/// The integer of the operand; a value of another kind is untyped.
pub(crate) fn integer_of<W>(operand: &Operand) -> Result<i64, Fault<W>>
    ensures { Answers result (spec.integer_of (operand_value operand.now)) }
{
    match operand {
        Operand::Made(value) => match &value.kind {
            Kind::Integer(n) => Ok(*n),
            _ => Err(Fault::Raised(Stop::Untyped)),
        },
        Operand::Lent(_) => Err(Fault::Raised(Stop::Untyped)),
    }
}

/// The text of the operand, lent; a value of another kind is untyped.
pub(crate) fn text_of<'a, W>(operand: &'a Operand) -> Result<&'a Text, Fault<W>>
    ensures { AnswersBy (λ s. s.now) result (spec.text_of (operand_value operand.now)) }
{
    match operand {
        Operand::Made(value) => match &value.kind {
            Kind::Char(text) => Ok(text),
            _ => Err(Fault::Raised(Stop::Untyped)),
        },
        Operand::Lent(_) => Err(Fault::Raised(Stop::Untyped)),
    }
}

/// The tuple of the operand, lent; a value of another kind is untyped.
pub(crate) fn tuple_of<'a, W>(operand: &'a Operand) -> Result<&'a Tuple, Fault<W>>
    ensures { AnswersBy (λ t. t.now) result (spec.tuple_in (operand_value operand.now)) }
{
    match operand {
        Operand::Made(value) => match &value.kind {
            Kind::Tuple(tuple) => Ok(tuple),
            _ => Err(Fault::Raised(Stop::Untyped)),
        },
        Operand::Lent(_) => Err(Fault::Raised(Stop::Untyped)),
    }
}

/// The components of the operand, lent, if it is a value of a possrep; a value of another kind is untyped.
pub(crate) fn components_of<'a, W>(operand: &'a Operand) -> Result<&'a [Value], Fault<W>>
    ensures { AnswersBy (λ vs. vs.now) result (spec.components_of (operand_value operand.now)) }
{
    match operand {
        Operand::Made(value) => match &value.kind {
            Kind::User(_, items) => Ok(items.values()),
            _ => Err(Fault::Raised(Stop::Untyped)),
        },
        Operand::Lent(_) => Err(Fault::Raised(Stop::Untyped)),
    }
}

/// What the operand is: an integer, or a text or a tuple, which is lent. A relation and any value of another kind is
/// `Other`.
pub(crate) fn shape_of<'a>(operand: &'a Operand) -> Shape<'a>
    ensures { HasShape result (operand_value operand.now) }
{
    match operand {
        Operand::Made(value) => match &value.kind {
            Kind::Integer(n) => Shape::Integer(*n),
            Kind::Char(text) => Shape::Text(text),
            Kind::Tuple(tuple) => Shape::Tuple(tuple),
            _ => Shape::Other,
        },
        Operand::Lent(_) => Shape::Other,
    }
}

// The relation that the value is, owned; a value of another kind is untyped. It takes no memory.
fn own_rows<'a, W>(value: Value) -> Result<Lease<'a>, Fault<W>>
    ensures { Answers result (spec.rows_of value) }
{
    match value.kind {
        Kind::Relation(rows) => Ok(Lease::own(Relation::of(rows))),
        _ => Err(Fault::Raised(Stop::Untyped)),
    }
}

/// The relation of the operand. It takes no memory.
pub fn rows_of<'a, W>(operand: Operand<'a>) -> Result<Lease<'a>, Fault<W>>
    ensures { Answers result (spec.rows_of (operand_value operand.entry)) }
{
    match operand {
        Operand::Made(value) => own_rows(value),
        Operand::Lent(lease) => Ok(lease),
    }
}
