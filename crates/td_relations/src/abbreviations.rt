//! Sorts of tuples of one heading by what they begin with, in few words that stand beside them: most comparisons look
//! at no more.

ghost use Rattle.std.specs.Prelude.{◌≡◌, ◌≤◌, ◌+◌, drop, vec_len, vec_capacity, [], IfOk};
ghost use Rattle.std.specs.List.{All};
ghost use Rattle.std.specs.List.Sorted.{IsPermutation, IsSorted};
ghost use Rattle.td_relations.specs.ForProofs.Abbreviations as spec;
ghost use Rattle.td_relations.specs.ForProofs.Abbreviations.{AreBytes, BeginsInBytes, FirstIsOfBytes, IsOfBytes, SecondIsOfBytes, by_beginnings};
ghost use Rattle.td_values.specs.Alike.{AreAlike};
ghost use Rattle.td_values.specs.Data.{attrs_of};
ghost use Rattle.td_values.specs.Order.{attrs_order, order, rank};

use std::alloc::{AllocError, Global};
use std::cmp::Ordering;
use std::marker::Model;
use td_values::{Kind, Name, Tuple, Value, compare_values, sort_alike, whole_tuples};

/// So many bytes of a text are said by a number.
const DIGITS: usize = 7;

/// So many values has a byte, or its want.
const BASE: u64 = 257;

/// So few tuples are sorted by themselves.
const FEW: usize = 12;

/// What a value begins with: 24 bytes, by which most values of one type are told apart without a look at them.
#[derive(Clone, Copy)]
pub enum Abbreviation {
    /// Nothing is said.
    Nothing,
    Number(i64),
    /// The first bytes of a text, and the next ones.
    Text(u64, u64),
}

// The byte at a place as a digit.
fn digit(bytes: &[u8], at: usize) -> u64
    ensures value { result ≡ spec.digit (drop at bytes.now) }
    ensures bound { result ≤ 256 }
{
    match bytes.get(at) {
        Some(byte) => u64::from(*byte) + 1,
        None => 0,
    }
}

// Whether there is a byte at a place.
fn more(bytes: &[u8], at: usize) -> u64
    ensures value { result ≡ spec.more (drop at bytes.now) }
    ensures bound { result ≤ 1 }
{
    match bytes.get(at) {
        Some(_) => 1,
        None => 0,
    }
}

// The number that the digits from a place on spell, and whether the text goes on behind them.
fn number_of(bytes: &[u8], from: usize) -> u64
    requires { from ≤ 7 }
    ensures number { result ≡ spec.number_of 0 7 (drop from bytes.now) }
    ensures bytes { AreBytes bytes.now }
{
    let mut number: u64 = 0;
    for at in from..from + DIGITS {
        number = number * BASE + digit(bytes, at);
    }
    number * 2 + more(bytes, from + DIGITS)
}

impl Abbreviation {
    /// What the value begins with.
    pub fn of(value: &Value) -> Abbreviation
        ensures value { spec.value_of result ≡ spec.beginning value.now }
        ensures bytes { IsOfBytes value.now }
    {
        match &value.kind {
            Kind::Integer(n) => Abbreviation::Number(*n),
            Kind::Char(text) => {
                let bytes = text.as_str().as_bytes();
                Abbreviation::Text(number_of(bytes, 0), number_of(bytes, DIGITS))
            }
            _ => Abbreviation::Nothing,
        }
    }

    // The rank of an abbreviation's kind, by which abbreviations of two kinds are ordered.
    fn kind(self) -> u8
        ensures { result ≡ rank (spec.value_of self) }
    {
        match self {
            Abbreviation::Nothing => 0,
            Abbreviation::Number(_) => 1,
            Abbreviation::Text(_, _) => 2,
        }
    }

    /// Compares two abbreviations: by what they hold where they are of one kind, otherwise by their kinds.
    pub fn compare(self, other: Abbreviation) -> Ordering
        ensures { result ≡ order (spec.value_of self) (spec.value_of other) }
    {
        match (self, other) {
            (Abbreviation::Number(m), Abbreviation::Number(n)) => m.cmp(&n),
            (Abbreviation::Text(a, b), Abbreviation::Text(c, d)) => a.cmp(&c).then(b.cmp(&d)),
            _ => self.kind().cmp(&other.kind()),
        }
    }
}

// Whether the abbreviation says all of the value.
fn is_whole(value: &Value) -> bool
    ensures { result ≡ spec.is_whole value.now }
{
    match &value.kind {
        Kind::Integer(_) => true,
        Kind::Char(text) => more(text.as_str().as_bytes(), 2 * DIGITS) == 0,
        _ => false,
    }
}

// What the first of these begins with.
fn first_abbreviation(attributes: &[(Name, Value)]) -> Abbreviation
    ensures value { spec.value_of result ≡ spec.first (attrs_of attributes.now) }
    ensures bytes { FirstIsOfBytes (attrs_of attributes.now) }
{
    match attributes.first() {
        Some(attribute) => Abbreviation::of(&attribute.1),
        None => Abbreviation::Nothing,
    }
}

// What the second of these begins with, where that says more than the first.
fn second_abbreviation(attributes: &[(Name, Value)]) -> Abbreviation
    ensures value { spec.value_of result ≡ spec.second (attrs_of attributes.now) }
    ensures bytes { SecondIsOfBytes (attrs_of attributes.now) }
{
    match attributes.split_first() {
        Some((attribute, rest)) if is_whole(&attribute.1) => first_abbreviation(rest),
        _ => Abbreviation::Nothing,
    }
}

/// A tuple beside what it begins with, which contracts see as the tuple.
#[derive(Drop)]
struct Abbreviated {
    first: Abbreviation,
    second: Abbreviation,
    tuple: Tuple,
}

impl Model for Abbreviated {
    ghost use Rattle.td_values.specs.Data.{Attrs};
    ghost use Rattle.td_values.specs.Proving.Code.{attrs_code};
    ghost use Rattle.td_relations.specs.ForProofs.Abbreviations.{AreOf};

    ghost Value = { Attrs };

    ghost coded = { attrs_code };

    ghost view = { λ a. a.tuple };

    ghost invariant = { λ a. AreOf a.first a.second a.tuple };
}

impl Abbreviated {
    fn new(tuple: Tuple) -> Abbreviated
        ensures same { result ≡ tuple }
        ensures bytes { BeginsInBytes tuple }
    {
        let attributes = tuple.attributes();
        Abbreviated {
            first: first_abbreviation(attributes),
            second: second_abbreviation(attributes),
            tuple,
        }
    }

    fn into_tuple(self) -> Tuple
        ensures { result ≡ self }
    {
        self.tuple
    }

    // Compares by the abbreviations first, and by the tuples' values where these are equal.
    fn compare(&self, other: &Abbreviated) -> Ordering
        ensures { result ≡ by_beginnings self.now other.now }
    {
        let firsts = self.first.compare(other.first);
        if firsts.is_ne() {
            return firsts;
        }
        let seconds = self.second.compare(other.second);
        if seconds.is_ne() {
            return seconds;
        }
        compare_values(&self.tuple, &other.tuple)
    }
}

// The tuples beside what they begin with, for which there is room.
fn with_abbreviations(tuples: Vec<Tuple>, room: Vec<Abbreviated>) -> Vec<Abbreviated>
    requires empty { room.items ≡ [] }
    requires room { vec_len tuples ≤ vec_capacity room }
    ensures same { result.items ≡ tuples.items }
    ensures bytes { All BeginsInBytes tuples.items }
{
    let mut beside = room;
    for tuple in tuples {
        let Ok(()) = beside.push(Abbreviated::new(tuple)) else {
            unreachable!()
        };
    }
    beside
}

// The tuples alone, for which there is room.
fn without_abbreviations(beside: Vec<Abbreviated>, room: Vec<Tuple>) -> Vec<Tuple>
    requires empty { room.items ≡ [] }
    requires room { vec_len beside ≤ vec_capacity room }
    ensures same { result.items ≡ beside.items }
{
    let mut tuples = room;
    for entry in beside {
        let Ok(()) = tuples.push(entry.into_tuple()) else {
            unreachable!()
        };
    }
    tuples
}

// The tuples in order.
fn sort_with_abbreviations(
    tuples: Vec<Tuple>,
    beside: Vec<Abbreviated>,
    room: Vec<Tuple>,
) -> Vec<Tuple>
    requires alike { AreAlike tuples.items }
    requires empty { (beside.items ≡ []) × (room.items ≡ []) }
    requires beside { vec_len tuples ≤ vec_capacity beside }
    requires room { vec_len tuples ≤ vec_capacity room }
    ensures permutation { IsPermutation tuples.items result.items }
    ensures sorted { IsSorted attrs_order result.items }
{
    whole_tuples(&tuples);
    let mut beside = with_abbreviations(tuples, beside);
    beside.sort_unstable_by(|s, t| s.compare(t));
    without_abbreviations(beside, room)
}

// The tuples in order, with no more memory.
fn sort_by_values(tuples: Vec<Tuple>) -> Vec<Tuple>
    requires { AreAlike tuples.items }
    ensures permutation { IsPermutation tuples.items result.items }
    ensures sorted { IsSorted attrs_order result.items }
{
    let mut tuples = tuples;
    sort_alike(&mut tuples);
    tuples
}

// Room for so many tuples beside what they begin with, and for as many alone.
fn room_for_sort(alloc: Global, count: usize) -> Result<(Vec<Abbreviated>, Vec<Tuple>), AllocError>
    ensures empty { IfOk result (λ v. (v.0.items ≡ []) × (v.1.items ≡ [])) }
    ensures room { IfOk result (λ v. (count ≤ vec_capacity v.0) × (count ≤ vec_capacity v.1)) }
{
    let beside = Vec::with_capacity(alloc, count)?;
    let tuples = Vec::with_capacity(alloc, count)?;
    Ok((beside, tuples))
}

/// These tuples in order, by their values alone, since they have one heading. Where there is memory for what they begin
/// with, they are compared by that first.
pub fn sort_tuples(tuples: Vec<Tuple>) -> Vec<Tuple>
    requires { AreAlike tuples.items }
    ensures permutation { IsPermutation tuples.items result.items }
    ensures sorted { IsSorted attrs_order result.items }
{
    if tuples.len() <= FEW {
        return sort_by_values(tuples);
    }
    match room_for_sort(*tuples.allocator(), tuples.len()) {
        Ok((beside, room)) => sort_with_abbreviations(tuples, beside, room),
        Err(_) => sort_by_values(tuples),
    }
}
