//! An order of typed trees, by which an equal one is found in a sorted list.
//!
//! Functions named `then_..` go on from an order that came before: they give it, or where it is equal their own.

ghost use Rattle.std.specs.Prelude.{◌≡◌, ◌≢◌};
ghost use Rattle.std.specs.declared.cmp.Ordering.TheVariants.{Equal};

use crate::tree::{Typed, TypedGroups};
use sqlite_items::{Boxed, Items};
use std::cmp::Ordering;
use td_syntax::tree::{BinaryOperator, Named, Nesting, UnaryOperator};
use td_tuples::{Item, Summary};
use td_values::{Heading, Name, TdType, compare_headings, compare_types};

// The order of unary operators: that in which they are declared.
fn unary_operators(a: UnaryOperator, b: UnaryOperator) -> Ordering
    ensures { result ≡ Equal → a ≡ b }
{
    (a as u8).cmp(&(b as u8))
}

// The order of binary operators: that in which they are declared.
fn binary_operators(a: BinaryOperator, b: BinaryOperator) -> Ordering
    ensures { result ≡ Equal → a ≡ b }
{
    (a as u8).cmp(&(b as u8))
}

// The order of nestings: that in which they are declared.
fn nestings(a: Nesting, b: Nesting) -> Ordering
    ensures { result ≡ Equal → a ≡ b }
{
    (a as u8).cmp(&(b as u8))
}

// The order of headings that `compare_headings` gives, under a contract that says that headings which tie are equal.
#[tactic(auto, using(crate::proofs::Ties::same_heading))]
fn headings(a: &Heading, b: &Heading) -> Ordering
    ensures { result ≡ Equal → a.now ≡ b.now }
{
    compare_headings(a, b)
}

// The order of lists of renamings, pair by pair, and where one begins with the other, the shorter first.
fn renamings(a: &Items<(Name, Name)>, b: &Items<(Name, Name)>) -> Ordering
    ensures { result ≡ Equal → a.now ≡ b.now }
{
    a.as_slice().cmp(b.as_slice())
}

// Goes on from `before` by two names.
#[tactic(auto, using(crate::proofs::Ties::both_equal))]
fn then_name(before: Ordering, a: &Name, b: &Name) -> Ordering
    ensures before { result ≡ Equal → before ≡ Equal }
    ensures same { result ≡ Equal → a.now ≡ b.now }
{
    before.then(a.compare(b))
}

// Goes on from `before` by two lists of names, name by name, and where one begins with the other, the shorter first.
#[tactic(auto, using(crate::proofs::Ties::both_equal))]
fn then_names(before: Ordering, a: &Items<Name>, b: &Items<Name>) -> Ordering
    ensures before { result ≡ Equal → before ≡ Equal }
    ensures same { result ≡ Equal → a.now ≡ b.now }
{
    before.then(a.as_slice().cmp(b.as_slice()))
}

// Goes on from `before` by two types.
#[tactic(auto, using(crate::proofs::Ties::both_equal))]
fn then_type(before: Ordering, a: &TdType, b: &TdType) -> Ordering
    ensures before { result ≡ Equal → before ≡ Equal }
    ensures same { result ≡ Equal → a.now ≡ b.now }
{
    before.then(compare_types(a, b))
}

// The number of the summary's kind, by which summaries of two kinds are ordered.
fn summary_rank(summary: &Summary<Boxed<Typed>>) -> u8 {
    match summary {
        Summary::Count => 0,
        Summary::Sum(_) => 1,
        Summary::Max(_) => 2,
        Summary::Min(_) => 3,
        Summary::And(_) => 4,
        Summary::Or(_) => 5,
    }
}

/// The order of summaries of two kinds.
fn unlike_summaries(a: &Summary<Boxed<Typed>>, b: &Summary<Boxed<Typed>>) -> Ordering
    ensures { result ≢ Equal }
{
    if summary_rank(a) < summary_rank(b) {
        Ordering::Less
    } else {
        Ordering::Greater
    }
}

// The number of the tree's form, by which trees of two forms are ordered.
fn rank(tree: &Typed) -> u8 {
    match tree {
        Typed::Integer(_) => 0,
        Typed::Text(_) => 1,
        Typed::Truth(_) => 2,
        Typed::Local(_) => 3,
        Typed::Relvar(_) => 4,
        Typed::Select(_, _) => 5,
        Typed::Component(_, _) => 6,
        Typed::Tuple(_) => 7,
        Typed::Relation(_, _) => 8,
        Typed::Unary(_, _) => 9,
        Typed::Binary(_, _, _) => 10,
        Typed::From(_, _) => 11,
        Typed::Project(_, _) => 12,
        Typed::Where(_, _) => 13,
        Typed::Rename(_, _) => 14,
        Typed::Nest(_, _, _, _) => 15,
        Typed::Unnest(_, _, _) => 16,
        Typed::Aggregate(_, _) => 17,
        Typed::If(_, _, _) => 18,
        Typed::Extend(_, _) => 19,
        Typed::Summarize(_, _, _) => 20,
        Typed::With(_, _) => 21,
    }
}

/// The order of trees with no tree in them, and of trees of two forms.
fn leaves(a: &Typed, b: &Typed) -> Ordering
    ensures { result ≡ Equal → a.now ≡ b.now }
{
    match (a, b) {
        (Typed::Integer(m), Typed::Integer(n)) => m.cmp(n),
        (Typed::Text(s), Typed::Text(t)) => s.compare(t),
        (Typed::Truth(p), Typed::Truth(q)) => p.cmp(q),
        (Typed::Local(m), Typed::Local(n)) => m.compare(n),
        (Typed::Relvar(m), Typed::Relvar(n)) => m.cmp(n),
        _ if rank(a) < rank(b) => Ordering::Less,
        _ => Ordering::Greater,
    }
}

// Goes on from `before` by two lists of trees, tree by tree, and where one begins with the other, the shorter first.
#[cycle(order)]
fn then_list(before: Ordering, a: &[Boxed<Typed>], b: &[Boxed<Typed>]) -> Ordering
    ensures before { result ≡ Equal → before ≡ Equal }
    ensures same { result ≡ Equal → a.now ≡ b.now }
{
    let mut ordering = before;
    let mut i = 0;
    while ordering.is_eq() && i < a.len() && i < b.len() {
        ordering = then_tree(ordering, a[i].get(), b[i].get());
        i += 1;
    }
    ordering.then(a.len().cmp(&b.len()))
}

// Goes on from `before` by two lists of items, item by item: by its name, its type and its term. Where one list begins
// with the other, the shorter comes first.
#[cycle(order)]
fn then_items(before: Ordering, a: &[Item<Boxed<Typed>>], b: &[Item<Boxed<Typed>>]) -> Ordering
    ensures before { result ≡ Equal → before ≡ Equal }
    ensures same { result ≡ Equal → a.now ≡ b.now }
{
    let mut ordering = before;
    let mut i = 0;
    while ordering.is_eq() && i < a.len() && i < b.len() {
        let named = then_name(Ordering::Equal, &a[i].name, &b[i].name);
        let typed = then_type(named, &a[i].ty, &b[i].ty);
        ordering = then_tree(typed, a[i].term.get(), b[i].term.get());
        i += 1;
    }
    ordering.then(a.len().cmp(&b.len()))
}

// Goes on from `before` by two lists of trees with names, one by one: by its name and its tree. Where one list begins
// with the other, the shorter comes first.
#[cycle(order)]
fn then_named(before: Ordering, a: &[Named<Boxed<Typed>>], b: &[Named<Boxed<Typed>>]) -> Ordering
    ensures before { result ≡ Equal → before ≡ Equal }
    ensures same { result ≡ Equal → a.now ≡ b.now }
{
    let mut ordering = before;
    let mut i = 0;
    while ordering.is_eq() && i < a.len() && i < b.len() {
        let named = then_name(Ordering::Equal, &a[i].name, &b[i].name);
        ordering = then_tree(named, a[i].value.get(), b[i].value.get());
        i += 1;
    }
    ordering.then(a.len().cmp(&b.len()))
}

// Goes on from `before` by two summaries: by their kinds, or for one kind by their terms.
#[cycle(order)]
#[tactic(auto, using(crate::proofs::Ties::both_equal))]
fn then_summary(before: Ordering, a: &Summary<Boxed<Typed>>, b: &Summary<Boxed<Typed>>) -> Ordering
    ensures before { result ≡ Equal → before ≡ Equal }
    ensures same { result ≡ Equal → a.now ≡ b.now }
{
    match (a, b) {
        (Summary::Count, Summary::Count) => before,
        (Summary::Sum(x), Summary::Sum(y))
        | (Summary::Max(x), Summary::Max(y))
        | (Summary::Min(x), Summary::Min(y))
        | (Summary::And(x), Summary::And(y))
        | (Summary::Or(x), Summary::Or(y)) => then_tree(before, x.get(), y.get()),
        _ => before.then(unlike_summaries(a, b)),
    }
}

// Goes on from `before` by two lists of summaries, item by item: by its name, its type and its summary. Where one list
// begins with the other, the shorter comes first.
#[cycle(order)]
#[tactic(auto, using(crate::proofs::Ties::both_equal))]
fn then_summaries(
    before: Ordering,
    a: &[Item<Summary<Boxed<Typed>>>],
    b: &[Item<Summary<Boxed<Typed>>>],
) -> Ordering
    ensures before { result ≡ Equal → before ≡ Equal }
    ensures same { result ≡ Equal → a.now ≡ b.now }
{
    let mut ordering = before;
    let mut i = 0;
    while ordering.is_eq() && i < a.len() && i < b.len() {
        let named = then_name(Ordering::Equal, &a[i].name, &b[i].name);
        let typed = then_type(named, &a[i].ty, &b[i].ty);
        ordering = match (&a[i].term, &b[i].term) {
            (Summary::Count, Summary::Count) => typed,
            (Summary::Sum(x), Summary::Sum(y))
            | (Summary::Max(x), Summary::Max(y))
            | (Summary::Min(x), Summary::Min(y))
            | (Summary::And(x), Summary::And(y))
            | (Summary::Or(x), Summary::Or(y)) => then_tree(typed, x.get(), y.get()),
            (of, other) => typed.then(unlike_summaries(of, other)),
        };
        i += 1;
    }
    ordering.then(a.len().cmp(&b.len()))
}

// Goes on from `before` by the groups of two SUMMARIZE: the whole first, then PER, then BY, and for one kind by the
// relation or the names.
#[cycle(order)]
#[tactic(auto, using(crate::proofs::Ties::both_equal))]
fn then_groups(
    before: Ordering,
    a: &TypedGroups<Boxed<Typed>>,
    b: &TypedGroups<Boxed<Typed>>,
) -> Ordering
    ensures before { result ≡ Equal → before ≡ Equal }
    ensures same { result ≡ Equal → a.now ≡ b.now }
{
    match (a, b) {
        (TypedGroups::Whole, TypedGroups::Whole) => before,
        (TypedGroups::Per(x), TypedGroups::Per(y)) => then_tree(before, x.get(), y.get()),
        (TypedGroups::By(m), TypedGroups::By(n)) => then_names(before, m, n),
        (TypedGroups::Whole, _) | (TypedGroups::Per(_), TypedGroups::By(_)) => {
            before.then(Ordering::Less)
        }
        _ => before.then(Ordering::Greater),
    }
}

/// The order of trees with one list of trees in them, and of all that `leaves` orders.
#[cycle(order)]
fn lists(a: &Typed, b: &Typed) -> Ordering
    ensures { result ≡ Equal → a.now ≡ b.now }
{
    match (a, b) {
        (Typed::Select(m, xs), Typed::Select(n, ys)) => {
            then_list(m.cmp(n), xs.as_slice(), ys.as_slice())
        }
        (Typed::Tuple(xs), Typed::Tuple(ys)) => {
            then_items(Ordering::Equal, xs.as_slice(), ys.as_slice())
        }
        (Typed::Relation(g, xs), Typed::Relation(h, ys)) => {
            then_list(headings(g, h), xs.as_slice(), ys.as_slice())
        }
        _ => leaves(a, b),
    }
}

/// The order of trees with several trees in them, and of all that `lists` orders.
#[cycle(order)]
fn several(a: &Typed, b: &Typed) -> Ordering
    ensures { result ≡ Equal → a.now ≡ b.now }
{
    match (a, b) {
        (Typed::Binary(o, v, x), Typed::Binary(p, w, y)) => {
            let firsts = then_tree(binary_operators(*o, *p), v.get(), w.get());
            then_tree(firsts, x.get(), y.get())
        }
        (Typed::Where(v, x), Typed::Where(w, y)) => {
            let relations = then_tree(Ordering::Equal, v.get(), w.get());
            then_tree(relations, x.get(), y.get())
        }
        (Typed::If(t, v, x), Typed::If(u, w, y)) => {
            let tests = then_tree(Ordering::Equal, t.get(), u.get());
            then_tree(then_tree(tests, v.get(), w.get()), x.get(), y.get())
        }
        (Typed::Aggregate(x, of), Typed::Aggregate(y, other)) => {
            then_summary(then_tree(Ordering::Equal, x.get(), y.get()), of, other)
        }
        (Typed::Extend(x, xs), Typed::Extend(y, ys)) => {
            let relations = then_tree(Ordering::Equal, x.get(), y.get());
            then_items(relations, xs.as_slice(), ys.as_slice())
        }
        (Typed::Summarize(x, groups, xs), Typed::Summarize(y, others, ys)) => {
            let relations = then_tree(Ordering::Equal, x.get(), y.get());
            let grouped = then_groups(relations, groups, others);
            then_summaries(grouped, xs.as_slice(), ys.as_slice())
        }
        (Typed::With(xs, x), Typed::With(ys, y)) => {
            let bound = then_named(Ordering::Equal, xs.as_slice(), ys.as_slice());
            then_tree(bound, x.get(), y.get())
        }
        _ => lists(a, b),
    }
}

// Goes on from `before` by two trees: it orders those with one tree in them itself, and leaves the others to `several`.
// Where `before` decides, it looks at neither.
#[cycle(order)]
fn then_tree(before: Ordering, a: &Typed, b: &Typed) -> Ordering
    ensures before { result ≡ Equal → before ≡ Equal }
    ensures same { result ≡ Equal → a.now ≡ b.now }
{
    if before.is_ne() {
        return before;
    }
    match (a, b) {
        (Typed::Component(m, x), Typed::Component(n, y)) => then_tree(m.cmp(n), x.get(), y.get()),
        (Typed::Unary(o, x), Typed::Unary(p, y)) => {
            then_tree(unary_operators(*o, *p), x.get(), y.get())
        }
        (Typed::From(m, x), Typed::From(n, y)) => {
            then_name(then_tree(Ordering::Equal, x.get(), y.get()), m, n)
        }
        (Typed::Project(x, m), Typed::Project(y, n)) => {
            then_names(then_tree(Ordering::Equal, x.get(), y.get()), m, n)
        }
        (Typed::Rename(x, m), Typed::Rename(y, n)) => then_tree(renamings(m, n), x.get(), y.get()),
        (Typed::Nest(g, x, ins, m), Typed::Nest(h, y, others, n)) => {
            let relations = then_tree(nestings(*g, *h), x.get(), y.get());
            then_name(then_names(relations, ins, others), m, n)
        }
        (Typed::Unnest(g, x, m), Typed::Unnest(h, y, n)) => {
            then_name(then_tree(nestings(*g, *h), x.get(), y.get()), m, n)
        }
        _ => several(a, b),
    }
}

/// An order of expressions, written tree by written tree. What it ranks means nothing: it finds an equal one in a
/// sorted list. It costs up to the lesser size.
pub fn compare(a: &Typed, b: &Typed) -> Ordering
    ensures { result ≡ Equal → a.now ≡ b.now }
{
    then_tree(Ordering::Equal, a, b)
}
