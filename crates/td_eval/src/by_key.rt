//! A base relvar's tuples by its first key: WHERE of it by literals.

ghost use Rattle.std.specs.Prelude.{◌≡◌, ◌∷◌, [], IfOk, IfSome, IsTrue, Ok, is_some};
ghost use Rattle.std.specs.FinMap as by_name;
ghost use Rattle.std.specs.List.{Contains};
ghost use Rattle.td_algebra.specs.Functions as functions;
ghost use Rattle.td_algebra.specs.KeyIndexes.{AreKeyIndexes, IsKeyIndex};
ghost use Rattle.td_algebra.specs.Raising.{Answers};
ghost use Rattle.td_eval.specs.ForProofs.ByKey as spec;
ghost use Rattle.td_eval.specs.ForProofs.ByKey.{AddsEqualities, GivesKey, IsConjunction, IsLiteral, IsRestriction};
ghost use Rattle.td_eval.specs.ForProofs.ByKey.{SaysMeaning, SaysValues, SaysWhere, all_columns, all_values};
ghost use Rattle.td_eval.specs.Keyed.{IsFound};
ghost use Rattle.td_headings.specs.Expressions.{places_of};
ghost use Rattle.td_syntax.specs.declared.tree.BinaryOperator.TheVariants as binary;
ghost use Rattle.td_typed_trees.specs.declared.tree.Typed.TheVariants as typed;

use crate::lookup::Lookup;
use std::alloc::{AllocError, Global};
use td_algebra::{Fault, KeyIndex, restrict};
use td_operators::{integer_value, relation_value, text_value, truth_value};
use td_relations::Relation;
use td_syntax::tree::BinaryOperator;
use td_tuples::tuple_of;
use td_typed_trees::expression::{BaseUnder, Expression};
use td_typed_trees::tree::Typed;
use td_values::{Heading, Name, Tuple, Value, copy, equal};

// The tuples of the relation's index that have these values of its key, if their names are the key's.
fn found_in(
    alloc: Global,
    relation: &Relation,
    index: &KeyIndex,
    values: &Tuple,
) -> Result<Option<Relation>, AllocError>
    requires { IsKeyIndex index.now.key relation.now index.now }
    ensures { IfOk result (IsFound index.now.key relation.now values.now) }
{
    relation.rows_fit();
    if index.has_names_of(values) {
        Ok(Some(index.found(alloc, values)?))
    } else {
        Ok(None)
    }
}

/// The relation's tuples that have these values of the key, if their names are the key's. Where one of the indexes is
/// by that key it costs a search, and else a sort.
pub(crate) fn found(
    alloc: Global,
    relation: &Relation,
    indexes: &[KeyIndex],
    key: &[Name],
    values: &Tuple,
) -> Result<Option<Relation>, AllocError>
    requires { AreKeyIndexes relation.now indexes.now }
    ensures { IfOk result (IsFound key.now relation.now values.now) }
{
    for index in indexes {
        if index.is_of(key) {
            return found_in(alloc, relation, index, values);
        }
    }
    let made = KeyIndex::new(alloc, relation, key)?;
    found_in(alloc, relation, &made, values)
}

// The value that a literal says.
fn literal_value(tree: &Typed) -> Result<Option<Value>, AllocError>
    ensures { IfOk result (λ o. IfSome o (IsLiteral tree.now)) }
{
    match tree {
        Typed::Integer(n) => Ok(Some(integer_value(*n))),
        Typed::Text(text) => Ok(Some(text_value(text.copy()?))),
        Typed::Truth(b) => Ok(Some(truth_value(*b))),
        _ => Ok(None),
    }
}

// The name, where the expression is nothing but a local one.
fn local_name(tree: &Typed) -> Option<&Name>
    ensures { IfSome result (λ n. tree.now ≡ typed.Local n.now) }
{
    match tree {
        Typed::Local(name) => Some(name),
        _ => None,
    }
}

fn is_equals(operator: BinaryOperator) -> bool
    ensures { IsTrue result → operator ≡ binary.Equals }
{
    match operator {
        BinaryOperator::Equals => true,
        _ => false,
    }
}

fn is_and(operator: BinaryOperator) -> bool
    ensures { IsTrue result → operator ≡ binary.And }
{
    match operator {
        BinaryOperator::And => true,
        _ => false,
    }
}

// The name and the value of operands that are an attribute and a literal.
fn attribute_and_literal(a: &Typed, b: &Typed) -> Result<Option<(Name, Value)>, AllocError>
    ensures { IfOk result (λ o. IfSome o (λ f. IsConjunction (typed.Binary binary.Equals a.now b.now) (f ∷ []))) }
{
    let Some(name) = local_name(a) else {
        return Ok(None);
    };
    match literal_value(b)? {
        Some(value) => Ok(Some((name.copy()?, value))),
        None => Ok(None),
    }
}

// The name and the value, where the expression says that an attribute has the value of a literal.
fn equality(tree: &Typed) -> Result<Option<(Name, Value)>, AllocError>
    ensures { IfOk result (λ o. IfSome o (λ f. IsConjunction tree.now (f ∷ []))) }
{
    match tree {
        Typed::Binary(operator, a, b) if is_equals(*operator) => attribute_and_literal(
            a.get(),
            b.get(),
        ),
        _ => Ok(None),
    }
}

// Adds the equality that the expression is, if it is one.
fn add_equality(tree: &Typed, equalities: &mut Vec<(Name, Value)>) -> Result<bool, AllocError>
    ensures { IfOk result (λ b. IsTrue b → AddsEqualities tree.now equalities.old.items equalities.new.items) }
{
    match equality(tree)? {
        Some(one) => {
            equalities.push(one)?;
            Ok(true)
        }
        None => Ok(false),
    }
}

// Adds the equalities of which the condition is made, joined by AND; whether it is made of nothing else.
#[cycle(equalities)]
fn add_equalities(tree: &Typed, equalities: &mut Vec<(Name, Value)>) -> Result<bool, AllocError>
    ensures { IfOk result (λ b. IsTrue b → AddsEqualities tree.now equalities.old.items equalities.new.items) }
{
    match tree {
        Typed::Binary(operator, a, b) if is_and(*operator) => {
            if add_equalities(a.get(), equalities)? {
                add_equalities(b.get(), equalities)
            } else {
                Ok(false)
            }
        }
        _ => add_equality(tree, equalities),
    }
}

// The equalities of which the condition is made, if it is made of nothing else.
fn equalities(alloc: Global, condition: &Typed) -> Result<Option<Vec<(Name, Value)>>, AllocError>
    ensures { IfOk result (λ o. IfSome o (λ v. IsConjunction condition.now v.items)) }
{
    let mut found = Vec::new(alloc);
    if add_equalities(condition, &mut found)? {
        Ok(Some(found))
    } else {
        Ok(None)
    }
}

// The value of the name, if one is given.
fn value_named<'a>(values: &'a [(Name, Value)], name: &Name) -> Option<&'a Value>
    ensures { IfSome result (λ d. Contains values.now (name.now, d.now)) }
{
    for given in values {
        if given.0 == *name {
            return Some(&given.1);
        }
    }
    None
}

// The key's names with their values, if each has one.
fn key_values(
    alloc: Global,
    key: &[Name],
    values: &[(Name, Value)],
) -> Result<Option<Tuple>, AllocError>
    ensures { IfOk result (λ o. IfSome o (GivesKey key.now values.now)) }
{
    let mut given = Vec::with_capacity(alloc, key.len())?;
    for name in key {
        let Some(value) = value_named(values, name) else {
            return Ok(None);
        };
        given.push((name.copy()?, copy(alloc, value)?))?;
    }
    Ok(Some(tuple_of(alloc, given)?))
}

// Whether the tuple has this value at this name; one without the name has it not.
fn has_value(tuple: &Tuple, given: &(Name, Value)) -> bool
    ensures { result ≡ spec.has_value given.now tuple.now }
{
    match tuple.get(&given.0) {
        Some(value) => equal(value, &given.1),
        None => false,
    }
}

// Whether the tuple has all these values.
fn has_all(tuple: &Tuple, values: &[(Name, Value)]) -> bool
    ensures { result ≡ all_values values.now tuple.now }
{
    for given in values {
        if !has_value(tuple, given) {
            return false;
        }
    }
    true
}

// Whether the heading has an attribute of this name.
fn is_column(heading: &Heading, name: &Name) -> bool
    ensures { result ≡ is_some (by_name.get heading.now name.now) }
{
    heading.type_of(name).is_some()
}

// Whether the heading has all these names.
fn has_names(heading: &Heading, values: &[(Name, Value)]) -> bool
    ensures { result ≡ all_columns values.now heading.now }
{
    for given in values {
        if !is_column(heading, &given.0) {
            return false;
        }
    }
    true
}

// The tuples of the part that have all these values.
fn with_values(alloc: Global, part: &Relation, values: &[(Name, Value)]) -> Result<Relation, Fault>
    ensures { (m : _) → SaysValues values.now part.now m → Answers result (functions.restricted m part.now) }
{
    restrict(
        alloc,
        part,
        |t: &Tuple| -> Result<bool, Fault>
            ensures { Answers result (Ok (all_values values.entry.now t.now)) }
        { Ok(has_all(t, values)) },
    )
}

// WHERE of the base relvar at the place, where the condition gives a value to each name of its first key, and says
// nothing but which values some attributes have. The look-up is asked for the tuples with that key alone.
fn where_by_key<L: Lookup>(
    alloc: Global,
    lookup: &L,
    place: usize,
    condition: &Typed,
) -> Result<Option<Relation>, Fault>
    ensures { SaysWhere place (L.relvars lookup.now place) condition.now result }
{
    let Some(values) = equalities(alloc, condition)? else {
        return Ok(None);
    };
    let Some(key) = lookup.first_key(place) else {
        return Ok(None);
    };
    let Some(sought) = key_values(alloc, key, &values)? else {
        return Ok(None);
    };
    let Some(part) = lookup.keyed(alloc, place, &sought)? else {
        return Ok(None);
    };
    if has_names(part.heading(), &values) {
        Ok(Some(with_values(alloc, &part, &values)?))
    } else {
        Ok(None)
    }
}

// Whether one of these base relvars is at the place.
fn is_base(bases: &[BaseUnder], place: usize) -> bool
    ensures { IsTrue result → Contains (places_of bases.now) place }
{
    for base in bases {
        if base.place == place {
            return true;
        }
    }
    false
}

// The place of the relvar and the condition, where the expression is WHERE of a base relvar.
fn base_restriction(expression: &Expression) -> Option<(usize, &Typed)>
    ensures { IfSome result (λ x. IsRestriction expression.now x.0 x.1.now) }
{
    let Typed::Where(tuples, condition) = expression.tree.get() else {
        return None;
    };
    let Typed::Relvar(place) = tuples.get() else {
        return None;
    };
    if is_base(expression.bases.as_slice(), *place) {
        Some((*place, condition.get()))
    } else {
        None
    }
}

/// The value of the expression, where it is WHERE of a base relvar by literals for all names of its first key, and
/// perhaps for other names.
pub(crate) fn value_by_key<L: Lookup>(
    alloc: Global,
    expression: &Expression,
    lookup: &L,
) -> Result<Option<Value>, Fault>
    ensures { SaysMeaning expression.now (L.relvars lookup.now) result }
{
    let Some((place, condition)) = base_restriction(expression) else {
        return Ok(None);
    };
    match where_by_key(alloc, lookup, place, condition)? {
        Some(relation) => Ok(Some(relation_value(relation))),
        None => Ok(None),
    }
}
