//! Extension by new attributes.
ghost use Rattle.std.specs.Ordering.{is_eq};
ghost use Rattle.std.specs.Prelude.{◌≡◌, ◌↔◌, IsTrue, ℕ, List, map, Result, Ok, IfOk, OnOk};
ghost use Rattle.std.specs.List.{All};
ghost use Rattle.td_values.specs.Data.{Attrs, Datum, Ty};
ghost use Rattle.td_values.specs.Order.{text_cmp, ty_order};
ghost use Rattle.td_values.specs.Whole.{type_of};
ghost use Rattle.td_algebra.specs.declared.errors.Stop.{Stop};
ghost use Rattle.td_values.specs.Headings.{Header};
ghost use Rattle.td_relations.specs.Sets.{IsRelationOf};
ghost use Rattle.td_tuples.specs.Parts.{Fits};
ghost use Rattle.td_tuples.specs.Unions.{tuple_of};
ghost use Rattle.td_algebra.specs.Raising.{Answers, AnswersBy, Unless, all_of};
ghost use Rattle.td_algebra.specs.Counts.{IsLengthOf};
ghost use Rattle.td_algebra.specs.Extending as spec;
ghost use Rattle.td_tuples.specs.Items.{column_of, extended_columns};
ghost use Rattle.td_algebra.specs.ForProofs.Checking.{AreNew, checked};
ghost use Rattle.td_algebra.specs.Extending.{TermMeaning, TakesBoth, Means, TakesItems, MeansItems, Extended, RaisedBy};

use crate::errors::{Fault, Stop};
use crate::fronts::has_name;
use crate::gathered::Gathered;
use crate::least_error::LeastError;
use std::alloc::{AllocError, Global};
use td_relations::Relation;
use td_tuples::{Item, beside, extended_columns, tuple_of};
use td_values::{Heading, Name, TdType, Tuple, Value, has_type};

// Whether the value has the type.
fn is_of(value: &Value, ty: &TdType) -> bool
    ensures test { result ≡ is_eq (ty_order (type_of value.now) ty.now) }
    ensures same { IsTrue result ↔ (type_of value.now ≡ ty.now) }
{
    has_type(value, ty)
}

// The item's name with the value, if that has the item's type.
fn typed_field<E, W>(item: &Item<E>, value: Value) -> Result<(Name, Value), Fault<W>>
    ensures means { Answers result (spec.typed_field item.now.name item.now.ty value) }
    ensures typed { IfOk result (λ x. (x.0, type_of x.1) ≡ column_of item.now) }
{
    if is_of(&value, &item.ty) {
        Ok((item.name.copy()?, value))
    } else {
        Err(Fault::Raised(Stop::Untyped))
    }
}

// The item's name with its value on the tuple.
fn field_at<E, W, F: Fn(&E, &Tuple) -> Result<Value, Fault<W>>>(
    item: &Item<E>,
    tuple: &Tuple,
    f: &F,
) -> Result<(Name, Value), Fault<W>>
    requires { TakesBoth (F.pre f.now) item.now.term tuple.now }
    ensures means { (m : TermMeaning E) → Means (F.post f.now) m item.now.term tuple.now → Answers result (spec.field_at m tuple.now item.now) }
    ensures typed { IfOk result (λ x. (x.0, type_of x.1) ≡ column_of item.now) }
{
    match f(&item.term, tuple) {
        Ok(value) => typed_field(item, value),
        Err(fault) => Err(fault),
    }
}

// The names and values of the items on the tuple, or the least error of theirs.
fn fields_at<E, W, F: Fn(&E, &Tuple) -> Result<Value, Fault<W>>>(
    alloc: Global,
    items: &[Item<E>],
    tuple: &Tuple,
    f: &F,
) -> Result<Vec<(Name, Value)>, Fault<W>>
    requires { TakesItems (F.pre f.now) items.now tuple.now }
    ensures means { (m : TermMeaning E) → MeansItems (F.post f.now) m items.now tuple.now → AnswersBy (λ v. v.items) result (spec.fields_at m items.now tuple.now) }
    ensures typed { IfOk result (λ v. map (λ x. (x.0, type_of x.1)) v.items ≡ map column_of items.now) }
{
    let mut gathered = Gathered::new(alloc);
    for item in items {
        gathered.note(field_at(item, tuple, f))?;
    }
    gathered.finish()
}

// The tuple with the items' values.
pub(crate) fn extend_tuple<E, W, F: Fn(&E, &Tuple) -> Result<Value, Fault<W>>>(
    alloc: Global,
    items: &[Item<E>],
    tuple: &Tuple,
    f: &F,
) -> Result<Tuple, Fault<W>>
    requires { TakesItems (F.pre f.now) items.now tuple.now }
    ensures means { (m : TermMeaning E) → MeansItems (F.post f.now) m items.now tuple.now → Answers result (spec.extended_at m items.now tuple.now) }
    ensures typed { (h : Header) → Fits h tuple.now → IfOk result (Fits (extended_columns items.now h)) }
{
    let fields = match fields_at(alloc, items, tuple, f) {
        Ok(fields) => fields,
        Err(fault) => return Err(fault),
    };
    let added = tuple_of(alloc, fields)?;
    Ok(beside(alloc, &added, tuple)?)
}

// Each tuple with the items' values, or the least error of all.
fn extend_tuples<E, W, F: Fn(&E, &Tuple) -> Result<Value, Fault<W>>>(
    alloc: Global,
    tuples: &[Tuple],
    items: &[Item<E>],
    f: &F,
) -> Result<Vec<Tuple>, Fault<W>>
    requires { All (TakesItems (F.pre f.now) items.now) tuples.now }
    ensures means { (m : TermMeaning E) → All (MeansItems (F.post f.now) m items.now) tuples.now → AnswersBy (λ v. v.items) result (all_of (spec.extended_at m items.now) tuples.now) }
    ensures typed { (h : Header) → All (Fits h) tuples.now → IfOk result (λ v. All (Fits (extended_columns items.now h)) v.items) }
{
    let mut gathered = Gathered::new(alloc);
    for tuple in tuples {
        gathered.note(extend_tuple(alloc, items, tuple, f))?;
    }
    gathered.finish()
}

/// The relation of a relation's tuples with the values of the items on them, or the least error of all.
pub(crate) fn relation_of_extended<E, W>(
    alloc: Global,
    relation: &Relation,
    items: &[Item<E>],
    extended: Result<Vec<Tuple>, Fault<W>>,
) -> Result<Relation, Fault<W>>
    requires { IfOk extended (λ v. All (Fits (extended_columns items.now relation.now.heading)) v.items) }
    ensures { (m : TermMeaning E) → AnswersBy (λ v. v.items) extended (all_of (spec.extended_at m items.now) relation.now.tuples) →
        Unless (RaisedBy m items.now relation.now) (IsRelationOf (extended_columns items.now relation.now.heading) (Extended m items.now relation.now)) result }
{
    let tuples = match extended {
        Ok(tuples) => tuples,
        Err(fault) => return Err(fault),
    };
    let heading = extended_columns(alloc, items, relation.heading())?;
    Ok(Relation::from_tuples(heading, tuples))
}

/// Each tuple with the values of the items on it, as new attributes or in place of those of the same names. Every item
/// sees the old tuple. Of two items of one name the first counts. The function is asked for every item of every tuple
/// once, also after one that raises. A value of another type than its item's stops with `Untyped`.
pub fn extend<E, W, F: Fn(&E, &Tuple) -> Result<Value, Fault<W>>>(
    alloc: Global,
    relation: &Relation,
    items: &[Item<E>],
    f: &F,
) -> Result<Relation, Fault<W>>
    requires { All (TakesItems (F.pre f.now) items.now) relation.now.tuples }
    ensures { (m : TermMeaning E) → All (MeansItems (F.post f.now) m items.now) relation.now.tuples →
        Unless (RaisedBy m items.now relation.now) (IsRelationOf (extended_columns items.now relation.now.heading) (Extended m items.now relation.now)) result }
{
    relation.rows_fit();
    let tuples = extend_tuples(alloc, relation.tuples(), items, f);
    relation_of_extended(alloc, relation, items, tuples)
}

// Whether the heading has none of the items' names.
fn names_are_new<E>(heading: &Heading, items: &[Item<E>]) -> bool
    ensures { IsTrue result → AreNew heading.now items.now }
{
    for item in items {
        if has_name(heading, &item.name) {
            return false;
        }
    }
    true
}

// Stops where the value has another type than the item.
fn check_type<E, W>(item: &Item<E>, value: &Value) -> Result<(), Fault<W>>
    ensures { Answers result (checked (spec.typed_field item.now.name item.now.ty value.now)) }
{
    if !is_of(value, &item.ty) {
        return Err(Fault::Raised(Stop::Untyped));
    }
    Ok(())
}

// The error that the item raises at the tuple, if it raises one.
fn check_item<E, W, F: Fn(&E, &Tuple) -> Result<Value, Fault<W>>>(
    item: &Item<E>,
    tuple: &Tuple,
    f: &F,
) -> Result<(), Fault<W>>
    requires { TakesBoth (F.pre f.now) item.now.term tuple.now }
    ensures { (m : TermMeaning E) → Means (F.post f.now) m item.now.term tuple.now → Answers result (checked (spec.field_at m tuple.now item.now)) }
{
    match f(&item.term, tuple) {
        Ok(value) => check_type(item, &value),
        Err(fault) => Err(fault),
    }
}

// The least error that the items raise at the tuple, if they raise one. It takes no memory.
fn check_at<E, W, F: Fn(&E, &Tuple) -> Result<Value, Fault<W>>>(
    items: &[Item<E>],
    tuple: &Tuple,
    f: &F,
) -> Result<(), Fault<W>>
    requires { TakesItems (F.pre f.now) items.now tuple.now }
    ensures { (m : TermMeaning E) → MeansItems (F.post f.now) m items.now tuple.now → Answers result (checked (spec.extended_at m items.now tuple.now)) }
{
    let mut least = LeastError::new();
    for item in items {
        least.note(check_item(item, tuple, f))?;
    }
    least.finish()
}

// The least error that the items raise at these tuples, if they raise one. It takes no memory.
fn check_all<E, W, F: Fn(&E, &Tuple) -> Result<Value, Fault<W>>>(
    tuples: &[Tuple],
    items: &[Item<E>],
    f: &F,
) -> Result<(), Fault<W>>
    requires { All (TakesItems (F.pre f.now) items.now) tuples.now }
    ensures { (m : TermMeaning E) → All (MeansItems (F.post f.now) m items.now) tuples.now → Answers result (checked (all_of (spec.extended_at m items.now) tuples.now)) }
{
    let mut least = LeastError::new();
    for tuple in tuples {
        least.note(check_at(items, tuple, f))?;
    }
    least.finish()
}

// How many tuples the extension by new names has: as many as the relation.
fn len_by_new_names<E, W, F: Fn(&E, &Tuple) -> Result<Value, Fault<W>>>(
    relation: &Relation,
    items: &[Item<E>],
    f: &F,
) -> Result<usize, Fault<W>>
    requires terms { All (TakesItems (F.pre f.now) items.now) relation.now.tuples }
    requires new { AreNew relation.now.heading items.now }
    ensures { (m : TermMeaning E) → All (MeansItems (F.post f.now) m items.now) relation.now.tuples →
        Unless (RaisedBy m items.now relation.now) (IsLengthOf (extended_columns items.now relation.now.heading) (Extended m items.now relation.now)) result }
{
    match check_all(relation.tuples(), items, f) {
        Ok(()) => Ok(relation.tuples().len()),
        Err(fault) => Err(fault),
    }
}

/// How many tuples `extend` gives, or the least error that it raises. Where every item's name is new to the relation,
/// no tuple is made.
pub fn extension_len<E, W, F: Fn(&E, &Tuple) -> Result<Value, Fault<W>>>(
    alloc: Global,
    relation: &Relation,
    items: &[Item<E>],
    f: &F,
) -> Result<usize, Fault<W>>
    requires { All (TakesItems (F.pre f.now) items.now) relation.now.tuples }
    ensures { (m : TermMeaning E) → All (MeansItems (F.post f.now) m items.now) relation.now.tuples →
        Unless (RaisedBy m items.now relation.now) (IsLengthOf (extended_columns items.now relation.now.heading) (Extended m items.now relation.now)) result }
{
    if names_are_new(relation.heading(), items) {
        return len_by_new_names(relation, items, f);
    }
    match extend(alloc, relation, items, f) {
        Ok(extended) => Ok(extended.tuples().len()),
        Err(fault) => Err(fault),
    }
}
