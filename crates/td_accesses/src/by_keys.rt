//! Tuples that are inserted, by each key of their relvar.

ghost use Rattle.std.specs.Prelude.{◌≡◌, ◌<◌, ℕ, IfOk, IfSome, List, OnOk, get_or, length, true};
ghost use Rattle.std.specs.List.{All, Contains};
ghost use Rattle.td_values.specs.Data.{Attrs};
ghost use Rattle.td_headings.specs.declared.defined.Test.TheVariants as kind;
ghost use Rattle.td_relations.specs.Sets.{Has};
ghost use Rattle.td_tuples.specs.Parts.{Fits};
ghost use Rattle.td_algebra.specs.KeyIndexes.{KeyIndexData};
ghost use Rattle.td_accesses.specs.ForProofs.Growing.{AreAllBy, IsIndexGrown, HasKey, AreIndexesGrown, IsBy, IsKeptFor, LacksPart, LacksParts};

use std::alloc::{AllocError, Global};
use td_algebra::KeyIndex;
use td_headings::Test;
use td_relations::Relation;
use td_values::{Name, Tuple, copy_tuples, equal_headings};

/// Where the index by this key stands, its names in this order.
pub(crate) fn place_by(indexes: &[KeyIndex], key: &[Name]) -> Option<usize>
    ensures { IfSome result (λ i. (i < length indexes.now) × ((d : KeyIndexData) → (get_or indexes.now i d).key ≡ key.now)) }
{
    for at in 0..indexes.len() {
        if indexes[at].is_of(key) {
            return Some(at);
        }
    }
    None
}

/// Puts the relation's tuples into the index, or says that they have another heading.
pub(crate) fn put_in(
    alloc: Global,
    index: &mut KeyIndex,
    relation: &Relation,
) -> Result<bool, AllocError>
    ensures kept { OnOk result (IsIndexGrown index.old index.new) }
    ensures there { IfOk result (λ b. b ≡ true → (t : Attrs) → Has relation.now t → Contains index.new.tuples t) }
{
    relation.rows_fit();
    if !equal_headings(index.heading(), relation.heading()) {
        return Ok(false);
    }
    index.insert_all(copy_tuples(alloc, relation.tuples())?)?;
    Ok(true)
}

// Keeps the relation's tuples by this key too, or says that those which are kept by it have another heading.
fn keep_by(
    alloc: Global,
    indexes: &mut Vec<KeyIndex>,
    key: &[Name],
    relation: &Relation,
) -> Result<bool, AllocError>
    ensures kept { OnOk result (AreIndexesGrown indexes.old.items indexes.new.items) }
    ensures there { IfOk result (λ b. b ≡ true → IsBy key.now relation.now indexes.new.items) }
{
    match place_by(indexes, key) {
        Some(at) => put_in(alloc, &mut indexes[at], relation),
        None => {
            indexes.push(KeyIndex::new(alloc, relation, key)?)?;
            Ok(true)
        }
    }
}

// Keeps the relation's tuples by the key that this test is, if it is one of the relvar, or says that it cannot.
fn keep_by_test(
    alloc: Global,
    indexes: &mut Vec<KeyIndex>,
    relvar: usize,
    test: &Test,
    relation: &Relation,
) -> Result<bool, AllocError>
    ensures kept { OnOk result (AreIndexesGrown indexes.old.items indexes.new.items) }
    ensures there { IfOk result (λ b. b ≡ true → IsKeptFor relvar relation.now indexes.new.items test.now) }
{
    match test {
        Test::Key(of, key) => {
            if *of == relvar {
                keep_by(alloc, indexes, key.as_slice(), relation)
            } else {
                Ok(true)
            }
        }
        Test::Constraint(_, _) => Ok(true),
    }
}

/// Keeps the relation's tuples by each key of the relvar, or says that tuples which are kept so have another heading.
pub(crate) fn keep_by_keys(
    alloc: Global,
    indexes: &mut Vec<KeyIndex>,
    tests: &[Test],
    relvar: usize,
    relation: &Relation,
) -> Result<bool, AllocError>
    ensures kept { OnOk result (AreIndexesGrown indexes.old.items indexes.new.items) }
    ensures there { IfOk result (λ b. b ≡ true → AreAllBy tests.now relvar relation.now indexes.new.items) }
{
    for test in tests {
        if !keep_by_test(alloc, indexes, relvar, test, relation)? {
            return Ok(false);
        }
    }
    Ok(true)
}

// Whether the test is a key of the relvar.
fn is_key_of(test: &Test, relvar: usize) -> bool
    ensures { result ≡ true → (ks : List (List ℕ)) × (test.now ≡ kind.Key relvar ks) }
{
    match test {
        Test::Key(of, _) => *of == relvar,
        Test::Constraint(_, _) => false,
    }
}

/// Whether the relvar has a key.
pub(crate) fn has_key(tests: &[Test], relvar: usize) -> bool
    ensures { result ≡ true → HasKey tests.now relvar }
{
    for test in tests {
        if is_key_of(test, relvar) {
            return true;
        }
    }
    false
}

// Whether none of the tuples has its part at the key in the index.
fn lack_parts(index: &KeyIndex, tuples: &[Tuple]) -> bool
    requires { All (Fits index.now.heading) tuples.now }
    ensures { result ≡ true → All (LacksPart index.now) tuples.now }
{
    for tuple in tuples {
        if !index.with_key_of(tuple).is_empty() {
            return false;
        }
    }
    true
}

// Whether the relation's tuples have the heading of those in the index, and none has its part at the key there.
fn differ(index: &KeyIndex, relation: &Relation) -> bool
    ensures { result ≡ true → LacksParts relation.now index.now }
{
    relation.rows_fit();
    equal_headings(index.heading(), relation.heading()) && lack_parts(index, relation.tuples())
}

/// Whether none of the relation's tuples has its part at a key in the index by it.
pub(crate) fn all_differ(indexes: &[KeyIndex], relation: &Relation) -> bool
    ensures { result ≡ true → All (LacksParts relation.now) indexes.now }
{
    for index in indexes {
        if !differ(index, relation) {
            return false;
        }
    }
    true
}
