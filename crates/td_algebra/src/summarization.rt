//! Summaries of one relation per the tuples of another, or per its own parts.
ghost use Rattle.std.specs.Prelude.{◌≡◌, Result, IfOk};
ghost use Rattle.std.specs.List.{All};
ghost use Rattle.td_values.specs.Data.{Ty};
ghost use Rattle.td_values.specs.Whole.{type_of};
ghost use Rattle.td_relations.specs.Sets.{IsRelationOf};
ghost use Rattle.td_algebra.specs.ForProofs.Index.{AreParts, IsByParts, IsIndex, found};
ghost use Rattle.td_algebra.specs.Functions.{project_of};
ghost use Rattle.td_tuples.specs.Parts.{Fits, names_of};
ghost use Rattle.td_values.specs.Headings.{Header};
ghost use Rattle.td_values.specs.Rows.{RowsData};
ghost use Rattle.td_algebra.specs.Raising.{Answers, AnswersBy, Unless, all_of};
ghost use Rattle.td_tuples.specs.Items.{extended_columns};
ghost use Rattle.td_algebra.specs.Extending.{TermMeaning, TakesBoth, Means, Extended, RaisedBy, extended_at};
ghost use Rattle.td_algebra.specs.Summaries.{TakesTerm, MeansTerm, over_groups, summary_over};

use crate::errors::Fault;
use crate::extension::{extend_tuple, relation_of_extended};
use crate::gathered::Gathered;
use crate::index::TupleIndex;
use crate::summaries::summarize_group;
use std::alloc::{AllocError, Global};
use td_relations::Relation;
use td_tuples::{Item, Summary, columns_in, cut};
use td_values::{Heading, Name, Tuple, Value};

// The tuple with the summaries over these tuples, which are its group.
fn extend_by_group<E, W, F: Fn(&E, &Tuple) -> Result<Value, Fault<W>>>(
    alloc: Global,
    group: &[Tuple],
    tuple: &Tuple,
    items: &[Item<Summary<E>>],
    f: &F,
) -> Result<Tuple, Fault<W>>
    requires { All (λ t. All (λ i. TakesTerm (F.pre f.now) i.term t) items.now) group.now }
    ensures means { (m : TermMeaning E) → All (λ t. All (λ i. MeansTerm (F.post f.now) m i.term t) items.now) group.now → Answers result (extended_at (λ s u. summary_over m group.now s) items.now tuple.now) }
    ensures typed { (h : Header) → Fits h tuple.now → IfOk result (Fits (extended_columns items.now h)) }
{
    extend_tuple(
        alloc,
        items,
        tuple,
        &|summary: &Summary<E>, _: &Tuple| -> Result<Value, Fault<W>>
            requires { All (TakesTerm (F.pre f.now) summary.now) group.now }
            ensures { (m : TermMeaning E) → All (MeansTerm (F.post f.entry.now) m summary.now) group.entry.now → Answers result (summary_over m group.entry.now summary.now) }
        { summarize_group(alloc, group, summary, f) },
    )
}

// Each of the tuples with the summaries over what the index has for it, or the least error of all. Where the tuples
// come in the order of the index, each group is found where the one before it ends.
fn extend_by_groups<E, W, F: Fn(&E, &Tuple) -> Result<Value, Fault<W>>>(
    alloc: Global,
    groups: &TupleIndex,
    tuples: &[Tuple],
    items: &[Item<Summary<E>>],
    f: &F,
) -> Result<Vec<Tuple>, Fault<W>>
    requires { All (λ t. All (λ i. TakesTerm (F.pre f.now) i.term t) items.now) groups.now.tuples.items }
    ensures means { (m : TermMeaning E) → All (λ t. All (λ i. MeansTerm (F.post f.now) m i.term t) items.now) groups.now.tuples.items → AnswersBy (λ v. v.items) result (all_of (λ t. extended_at (λ s u. summary_over m (found groups.now t) s) items.now t) tuples.now) }
    ensures typed { (h : Header) → All (Fits h) tuples.now → IfOk result (λ v. All (Fits (extended_columns items.now h)) v.items) }
{
    let mut gathered = Gathered::new(alloc);
    let mut guess = 0;
    for tuple in tuples {
        let (group, end) = groups.run_near(tuple, guess);
        gathered.note(extend_by_group(alloc, group, tuple, items, f))?;
        guess = end;
    }
    gathered.finish()
}

// Each tuple of the relation with the summaries over what the index has for it, whatever relation's tuples those are.
fn summarize_groups<E, W, F: Fn(&E, &Tuple) -> Result<Value, Fault<W>>>(
    alloc: Global,
    groups: &TupleIndex,
    per: &Relation,
    items: &[Item<Summary<E>>],
    f: &F,
) -> Result<Relation, Fault<W>>
    requires { All (λ t. All (λ i. TakesTerm (F.pre f.now) i.term t) items.now) groups.now.tuples.items }
    ensures { (r : RowsData) → IsIndex r (names_of per.now.heading) per.now (names_of per.now.heading) groups.now → (m : TermMeaning E) → All (λ t. All (λ i. MeansTerm (F.post f.now) m i.term t) items.now) groups.now.tuples.items →
        Unless (RaisedBy (over_groups m r per.now.heading) items.now per.now)
        (IsRelationOf (extended_columns items.now per.now.heading) (Extended (over_groups m r per.now.heading) items.now per.now)) result }
{
    per.rows_fit();
    let tuples = extend_by_groups(alloc, groups, per.tuples(), items, f);
    relation_of_extended(alloc, per, items, tuples)
}

/// Each tuple of the second relation with the summaries over its group, which are the tuples of the first that agree
/// with it on the second one's names. For n and m tuples it costs of the order of (n + m) log n comparisons, and each
/// term once on each tuple of a group.
pub fn summarize<E, W, F: Fn(&E, &Tuple) -> Result<Value, Fault<W>>>(
    alloc: Global,
    relation: &Relation,
    per: &Relation,
    items: &[Item<Summary<E>>],
    f: &F,
) -> Result<Relation, Fault<W>>
    requires { All (λ t. All (λ i. TakesTerm (F.pre f.now) i.term t) items.now) relation.now.tuples }
    ensures { (m : TermMeaning E) → All (λ t. All (λ i. MeansTerm (F.post f.now) m i.term t) items.now) relation.now.tuples →
        Unless (RaisedBy (over_groups m relation.now per.now.heading) items.now per.now)
        (IsRelationOf (extended_columns items.now per.now.heading) (Extended (over_groups m relation.now per.now.heading) items.now per.now)) result }
{
    let index = TupleIndex::new(
        alloc,
        relation,
        per.heading(),
        per,
        per.heading(),
        per.len(),
    )?;
    summarize_groups(alloc, &index, per, items, f)
}

// The part at the heading's names of the first tuple of each run.
fn parts_of_runs(
    alloc: Global,
    index: &TupleIndex,
    heading: &Heading,
) -> Result<Vec<Tuple>, AllocError>
    requires { IsByParts (names_of heading.now) index.now }
    ensures { IfOk result (λ v. AreParts (names_of heading.now) index.now.tuples.items index.now.tuples.items v.items) }
{
    let mut out = Vec::new(alloc);
    for at in 0..index.tuples.len() {
        if !index.repeats(at) {
            out.push(cut(alloc, heading, &index.tuples[at])?)?;
        }
    }
    Ok(out)
}

// The tuples' parts at these names, each once, and the relation's tuples by them: the runs of one sort.
fn sort_into_runs(
    alloc: Global,
    relation: &Relation,
    names: &[Name],
) -> Result<(TupleIndex, Relation), AllocError>
    ensures parts { IfOk result (λ v. v.1 ≡ project_of names.now relation.now) }
    ensures index { IfOk result (λ v. IsIndex relation.now (names_of v.1.heading) v.1 (names_of v.1.heading) v.0) }
{
    let columns = columns_in(alloc, names, relation.heading())?;
    let index = TupleIndex::new(alloc, relation, &columns, relation, &columns, 0)?;
    let parts = parts_of_runs(alloc, &index, &columns)?;
    let per = Relation::from_tuples(columns, parts);
    let index = index.sought_by(alloc, &per)?;
    Ok((index, per))
}

/// Each part of the relation's tuples at these names with the summaries over the tuples that have it: as `summarize`
/// per the projection on the names. It sorts the tuples once, by their values at places, and makes a part for each
/// group: for n tuples and g groups it costs of the order of n log n comparisons, and each term once on each tuple.
pub fn summarize_by<E, W, F: Fn(&E, &Tuple) -> Result<Value, Fault<W>>>(
    alloc: Global,
    relation: &Relation,
    names: &[Name],
    items: &[Item<Summary<E>>],
    f: &F,
) -> Result<Relation, Fault<W>>
    requires { All (λ t. All (λ i. TakesTerm (F.pre f.now) i.term t) items.now) relation.now.tuples }
    ensures { (m : TermMeaning E) → All (λ t. All (λ i. MeansTerm (F.post f.now) m i.term t) items.now) relation.now.tuples →
        let per = project_of names.now relation.now in
        Unless (RaisedBy (over_groups m relation.now per.heading) items.now per)
        (IsRelationOf (extended_columns items.now per.heading) (Extended (over_groups m relation.now per.heading) items.now per)) result }
{
    let (index, per) = sort_into_runs(alloc, relation, names)?;
    summarize_groups(alloc, &index, &per, items, f)
}
