//! Which parts of terms name nothing around them.

ghost use Rattle.std.specs.Prelude.{◌≤◌, max, IfOk, OnOk};
ghost use Rattle.td_meaning.specs.ForProofs.Levels.{groups_levels, item_levels, levels, list_levels, named_levels, summaries_levels, summary_levels};
ghost use Rattle.td_meaning.specs.ForProofs.Right.{deepest_in};
ghost use Rattle.td_meaning.specs.ForProofs.Terms.{terms_levels};

use crate::environment::{Environment, relvar_known};
use crate::parts::{HoistedTerm, heading_known, part_known};
use sqlite_items::Boxed;
use std::alloc::{AllocError, Global};
use std::convert::Infallible;
use td_syntax::tree::Named;
use td_tuples::{Item, Summary};
use td_typed_trees::tree::{Typed, TypedGroups};
use td_values::{Heading, Name};

/// Names that are bound within a term, the innermost first; each scope has its place, counted from the outside.
#[derive(Clone, Copy)]
enum Bound<'a> {
    Nothing,
    /// The attributes of the tuples of a relation.
    Attributes(&'a Heading, usize, &'a Bound<'a>),
    /// Those of a relation whose heading is not known.
    Unknown(usize, &'a Bound<'a>),
    /// Names of WITH.
    Given(&'a [Named<Boxed<Typed>>], usize, &'a Bound<'a>),
}

/// What is known while parts are sought.
#[derive(Clone, Copy)]
pub(crate) struct Knowledge<'a> {
    pub env: &'a Environment<'a>,
    pub parts: &'a [HoistedTerm<'a>],
}

/// How far out an expression names something, and whether it takes more than a look to evaluate it.
#[derive(Clone, Copy)]
struct Reach {
    /// The place of the outermost scope that it names something of: 0 where that is around the whole term.
    outermost: usize,
    is_dear: bool,
}

impl Reach {
    const NOTHING: Reach = Reach {
        outermost: usize::MAX,
        is_dear: false,
    };

    const DEAR: Reach = Reach {
        outermost: usize::MAX,
        is_dear: true,
    };

    // The reach of two expressions together: the outermost place that either reaches, and dear where either is.
    fn and(self, other: Reach) -> Reach {
        Reach {
            outermost: self.outermost.min(other.outermost),
            is_dear: self.is_dear || other.is_dear,
        }
    }
}

// Whether the name is one of these names of WITH.
fn has_name(names: &[Named<Boxed<Typed>>], name: &Name) -> bool {
    names.iter().any(|named| named.name == *name)
}

impl Bound<'_> {
    // The place of the innermost scope, and 0 where nothing is bound.
    fn place(&self) -> usize {
        match self {
            Bound::Nothing => 0,
            Bound::Attributes(_, place, _) | Bound::Unknown(place, _) | Bound::Given(_, place, _) =>
                *place,
        }
    }

    /// The place of the innermost scope that has the name, and 0 where none of these has it.
    fn place_of(&self, name: &Name) -> usize {
        match self {
            Bound::Nothing => 0,
            Bound::Attributes(heading, place, outer) => {
                if heading.type_of(name).is_some() {
                    *place
                } else {
                    outer.place_of(name)
                }
            }
            Bound::Unknown(_, outer) => outer.place_of(name),
            Bound::Given(names, place, outer) => {
                if has_name(names, name) {
                    *place
                } else {
                    outer.place_of(name)
                }
            }
        }
    }
}

// The heading of the expression's known value; None where no value is known, or it is no relation.
fn heading_found<'a>(knowledge: &'a Knowledge<'_>, tree: &Typed) -> Option<&'a Heading> {
    match part_known(knowledge.env, knowledge.parts, tree) {
        Some(value) => heading_known(value),
        None => None,
    }
}

// The heading of the relation that the expression means, where it is there to be seen.
fn heading_of<'a>(knowledge: &'a Knowledge<'_>, tree: &Typed) -> Option<&'a Heading> {
    match tree {
        Typed::Relvar(place) => match relvar_known::<Infallible>(knowledge.env, *place) {
            Some(Ok(lease)) => Some(lease.get().heading()),
            Some(Err(_)) => None,
            None => heading_found(knowledge, tree),
        },
        Typed::Where(r, _) => heading_of(knowledge, r.get()),
        _ => heading_found(knowledge, tree),
    }
}

// What is bound at the tuples of the relation that the expression means.
fn within<'a>(knowledge: &'a Knowledge<'_>, r: &Typed, outer: &'a Bound<'a>) -> Bound<'a> {
    let place = outer.place().saturating_add(1);
    match heading_of(knowledge, r) {
        Some(heading) => Bound::Attributes(heading, place, outer),
        None => Bound::Unknown(place, outer),
    }
}

// Surveys the expressions in written order and returns how far they reach together.
#[cycle(survey)]
fn of_list<'t>(
    knowledge: &Knowledge<'_>,
    found: &mut Vec<&'t Typed>,
    trees: &'t [Boxed<Typed>],
    bound: &Bound<'_>,
) -> Result<Reach, AllocError>
    ensures { OnOk result (deepest_in found.new.items ≤ max (deepest_in found.old.items) (list_levels trees.now)) }
{
    let mut reach = Reach::NOTHING;
    for tree in trees {
        let next = survey(knowledge, found, tree.get(), bound)?;
        reach = reach.and(next);
    }
    Ok(reach)
}

// Surveys the terms of the items in written order and returns how far they reach together.
#[cycle(survey)]
fn of_items<'t>(
    knowledge: &Knowledge<'_>,
    found: &mut Vec<&'t Typed>,
    items: &'t [Item<Boxed<Typed>>],
    bound: &Bound<'_>,
) -> Result<Reach, AllocError>
    ensures { OnOk result (deepest_in found.new.items ≤ max (deepest_in found.old.items) (item_levels items.now)) }
{
    let mut reach = Reach::NOTHING;
    for item in items {
        let next = survey(knowledge, found, item.term.get(), bound)?;
        reach = reach.and(next);
    }
    Ok(reach)
}

// Surveys the term of the summary and returns its reach. COUNT has no term and reaches nothing.
#[cycle(survey)]
fn of_summary<'t>(
    knowledge: &Knowledge<'_>,
    found: &mut Vec<&'t Typed>,
    summary: &'t Summary<Boxed<Typed>>,
    bound: &Bound<'_>,
) -> Result<Reach, AllocError>
    ensures { OnOk result (deepest_in found.new.items ≤ max (deepest_in found.old.items) (summary_levels summary.now)) }
{
    match summary {
        Summary::Count => Ok(Reach::NOTHING),
        Summary::Sum(term)
        | Summary::Max(term)
        | Summary::Min(term)
        | Summary::And(term)
        | Summary::Or(term) => survey(knowledge, found, term.get(), bound),
    }
}

// Surveys the terms of the summaries in written order and returns how far they reach together.
#[cycle(survey)]
fn of_summaries<'t>(
    knowledge: &Knowledge<'_>,
    found: &mut Vec<&'t Typed>,
    items: &'t [Item<Summary<Boxed<Typed>>>],
    bound: &Bound<'_>,
) -> Result<Reach, AllocError>
    ensures { OnOk result (deepest_in found.new.items ≤ max (deepest_in found.old.items) (summaries_levels items.now)) }
{
    let mut reach = Reach::NOTHING;
    for item in items {
        let next = match &item.term {
            Summary::Count => Reach::NOTHING,
            Summary::Sum(term)
            | Summary::Max(term)
            | Summary::Min(term)
            | Summary::And(term)
            | Summary::Or(term) => survey(knowledge, found, term.get(), bound)?,
        };
        reach = reach.and(next);
    }
    Ok(reach)
}

// Surveys the expressions of WITH in written order, each within the names before it, and returns how far they reach
// together.
#[cycle(survey)]
fn of_names<'t>(
    knowledge: &Knowledge<'_>,
    found: &mut Vec<&'t Typed>,
    xs: &'t [Named<Boxed<Typed>>],
    bound: &Bound<'_>,
) -> Result<Reach, AllocError>
    ensures { OnOk result (deepest_in found.new.items ≤ max (deepest_in found.old.items) (named_levels xs.now)) }
{
    let place = bound.place().saturating_add(1);
    let mut reach = Reach::NOTHING;
    for i in 0..xs.len() {
        let within = Bound::Given(&xs[..i], place, &*bound);
        let next = survey(knowledge, found, xs[i].value.get(), &within)?;
        reach = reach.and(next);
    }
    Ok(reach)
}

// Surveys the operands and terms of a form that binds names and returns its reach; any other form reaches nothing.
#[cycle(survey)]
fn of_terms<'t>(
    knowledge: &Knowledge<'_>,
    found: &mut Vec<&'t Typed>,
    tree: &'t Typed,
    bound: &Bound<'_>,
) -> Result<Reach, AllocError>
    ensures { OnOk result (deepest_in found.new.items ≤ max (deepest_in found.old.items) (levels tree.now)) }
{
    match tree {
        Typed::Where(r, c) => {
            let first = survey(knowledge, found, r.get(), bound)?;
            let inner = within(&*knowledge, r.get(), &*bound);
            let second = survey(knowledge, found, c.get(), &inner)?;
            Ok(first.and(second))
        }
        Typed::Aggregate(r, summary) => {
            let first = survey(knowledge, found, r.get(), bound)?;
            let inner = within(&*knowledge, r.get(), &*bound);
            let second = of_summary(knowledge, found, summary, &inner)?;
            Ok(first.and(second))
        }
        Typed::Extend(r, items) => {
            let first = survey(knowledge, found, r.get(), bound)?;
            let inner = within(&*knowledge, r.get(), &*bound);
            let second = of_items(knowledge, found, items.as_slice(), &inner)?;
            Ok(first.and(second))
        }
        Typed::Summarize(r, groups, items) => {
            let first = survey(knowledge, found, r.get(), bound)?;
            let second = of_groups(knowledge, found, groups, bound)?;
            let inner = within(&*knowledge, r.get(), &*bound);
            let third = of_summaries(knowledge, found, items.as_slice(), &inner)?;
            Ok(first.and(second).and(third))
        }
        Typed::With(xs, body) => {
            let first = of_names(knowledge, found, xs.as_slice(), bound)?;
            let inner = Bound::Given(xs.as_slice(), bound.place().saturating_add(1), &*bound);
            let second = survey(knowledge, found, body.get(), &inner)?;
            Ok(first.and(second))
        }
        _ => Ok(Reach::NOTHING),
    }
}

// Surveys the relation of PER, which stands outside the attributes of the tuples that are summarized, and returns its
// reach. Groups without PER reach nothing.
#[cycle(survey)]
fn of_groups<'t>(
    knowledge: &Knowledge<'_>,
    found: &mut Vec<&'t Typed>,
    groups: &'t TypedGroups<Boxed<Typed>>,
    bound: &Bound<'_>,
) -> Result<Reach, AllocError>
    ensures { OnOk result (deepest_in found.new.items ≤ max (deepest_in found.old.items) (groups_levels groups.now)) }
{
    match groups {
        TypedGroups::Per(tree) => survey(knowledge, found, tree.get(), bound),
        TypedGroups::Whole | TypedGroups::By(_) => Ok(Reach::NOTHING),
    }
}

// Surveys the operands of an expression and returns how far the whole reaches. A relvar, a selector and RELATION are
// dear, and so is what has a dear operand.
#[cycle(survey)]
fn of_parts<'t>(
    knowledge: &Knowledge<'_>,
    found: &mut Vec<&'t Typed>,
    tree: &'t Typed,
    bound: &Bound<'_>,
) -> Result<Reach, AllocError>
    ensures { OnOk result (deepest_in found.new.items ≤ max (deepest_in found.old.items) (levels tree.now)) }
{
    match tree {
        Typed::Integer(_) | Typed::Text(_) | Typed::Truth(_) => Ok(Reach::NOTHING),
        Typed::Local(name) => Ok(Reach {
            outermost: bound.place_of(name),
            is_dear: false,
        }),
        Typed::Relvar(_) => Ok(Reach::DEAR),
        Typed::Select(_, trees) => {
            Ok(of_list(knowledge, found, trees.as_slice(), bound)?.and(Reach::DEAR))
        }
        Typed::Relation(_, trees) => {
            Ok(of_list(knowledge, found, trees.as_slice(), bound)?.and(Reach::DEAR))
        }
        Typed::Tuple(items) => of_items(knowledge, found, items.as_slice(), bound),
        Typed::Component(_, a)
        | Typed::Unary(_, a)
        | Typed::From(_, a)
        | Typed::Project(a, _)
        | Typed::Rename(a, _)
        | Typed::Nest(_, a, _, _)
        | Typed::Unnest(_, a, _) => survey(knowledge, found, a.get(), bound),
        Typed::Binary(_, a, b) => {
            let first = survey(knowledge, found, a.get(), bound)?;
            let second = survey(knowledge, found, b.get(), bound)?;
            Ok(first.and(second))
        }
        Typed::If(c, a, b) => {
            let first = survey(knowledge, found, c.get(), bound)?;
            let second = survey(knowledge, found, a.get(), bound)?;
            let third = survey(knowledge, found, b.get(), bound)?;
            Ok(first.and(second).and(third))
        }
        _ => of_terms(knowledge, found, tree, bound),
    }
}

// Whether the value of an expression is worth keeping: that of a relvar is not, since it is lent where it stands.
fn is_worth_keeping(tree: &Typed) -> bool {
    match tree {
        Typed::Relvar(_) => false,
        _ => true,
    }
}

// Adds the greatest parts of the expression that name nothing around it and are worth keeping.
#[cycle(survey)]
fn survey<'t>(
    knowledge: &Knowledge<'_>,
    found: &mut Vec<&'t Typed>,
    tree: &'t Typed,
    bound: &Bound<'_>,
) -> Result<Reach, AllocError>
    ensures { OnOk result (deepest_in found.new.items ≤ max (deepest_in found.old.items) (levels tree.now)) }
{
    let mark = found.len();
    let reach = of_parts(knowledge, found, tree, bound)?;
    if reach.is_dear && bound.place() < reach.outermost {
        found.truncate(mark);
        if is_worth_keeping(tree) && part_known(knowledge.env, knowledge.parts, tree).is_none() {
            found.push(tree)?;
        }
    }
    Ok(reach)
}

/// The terms of a form, which are evaluated at each of some tuples.
#[derive(Clone, Copy)]
pub(crate) enum Terms<'t> {
    Condition(&'t Typed),
    Summary(&'t Summary<Boxed<Typed>>),
    Items(&'t [Item<Boxed<Typed>>]),
    Summaries(&'t [Item<Summary<Boxed<Typed>>>]),
}

/// The greatest parts of these terms that name nothing around them, but those that a look answers.
pub(crate) fn closed_parts<'t>(
    alloc: Global,
    knowledge: &Knowledge<'_>,
    terms: Terms<'t>,
) -> Result<Vec<&'t Typed>, AllocError>
    ensures { IfOk result (λ v. deepest_in v.items ≤ terms_levels terms.entry) }
{
    let mut found = Vec::new(alloc);
    let bound = Bound::Nothing;
    match terms {
        Terms::Condition(tree) => survey(knowledge, &mut found, tree, &bound)?,
        Terms::Summary(summary) => of_summary(knowledge, &mut found, summary, &bound)?,
        Terms::Items(items) => of_items(knowledge, &mut found, items, &bound)?,
        Terms::Summaries(items) => of_summaries(knowledge, &mut found, items, &bound)?,
    };
    Ok(found)
}
