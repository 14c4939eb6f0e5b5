//! What expressions mention.

ghost use Rattle.std.specs.Prelude.{◌≡◌, ◌++◌, List, IfOk, OnOk};
ghost use Rattle.td_typed_trees.specs.ForProofs.Mentioned.{groups_mentioned, items_mentioned, list_mentioned, named_mentioned, summaries_mentioned, summary_mentioned};
ghost use Rattle.td_typed_trees.specs.Mentions.{mentioned, possreps_in, relvars_in};

use crate::tree::{Typed, TypedGroups};
use sqlite_items::Boxed;
use std::alloc::{AllocError, Global};
use td_syntax::tree::Named;
use td_tuples::{Item, Summary};

/// A relvar or a possrep, by its place in order of definition.
#[derive(Clone, Copy, Drop, PartialEq, Eq)]
pub enum Mention {
    Relvar(usize),
    Possrep(usize),
}

// Adds what the trees mention, in their order.
#[cycle(mentions)]
fn add_list(found: &mut Vec<Mention>, trees: &[Boxed<Typed>]) -> Result<(), AllocError>
    ensures { OnOk result (found.new.items ≡ found.old.items ++ list_mentioned trees.now) }
{
    for tree in trees {
        add_mentions(found, tree.get())?;
    }
    Ok(())
}

// Adds what the terms of the items mention, in their order.
#[cycle(mentions)]
fn add_items(found: &mut Vec<Mention>, items: &[Item<Boxed<Typed>>]) -> Result<(), AllocError>
    ensures { OnOk result (found.new.items ≡ found.old.items ++ items_mentioned items.now) }
{
    for item in items {
        add_mentions(found, item.term.get())?;
    }
    Ok(())
}

// Adds what the expressions of WITH mention, in their order.
#[cycle(mentions)]
fn add_named(found: &mut Vec<Mention>, names: &[Named<Boxed<Typed>>]) -> Result<(), AllocError>
    ensures { OnOk result (found.new.items ≡ found.old.items ++ named_mentioned names.now) }
{
    for name in names {
        add_mentions(found, name.value.get())?;
    }
    Ok(())
}

// Adds what the summary's term mentions; COUNT has none.
#[cycle(mentions)]
fn add_summary(found: &mut Vec<Mention>, summary: &Summary<Boxed<Typed>>) -> Result<(), AllocError>
    ensures { OnOk result (found.new.items ≡ found.old.items ++ summary_mentioned summary.now) }
{
    match summary {
        Summary::Count => Ok(()),
        Summary::Sum(term)
        | Summary::Max(term)
        | Summary::Min(term)
        | Summary::And(term)
        | Summary::Or(term) => add_mentions(found, term.get()),
    }
}

// Adds what the terms of the summaries mention, in their order.
#[cycle(mentions)]
fn add_summaries(
    found: &mut Vec<Mention>,
    items: &[Item<Summary<Boxed<Typed>>>],
) -> Result<(), AllocError>
    ensures { OnOk result (found.new.items ≡ found.old.items ++ summaries_mentioned items.now) }
{
    for item in items {
        match &item.term {
            Summary::Count => {}
            Summary::Sum(term)
            | Summary::Max(term)
            | Summary::Min(term)
            | Summary::And(term)
            | Summary::Or(term) => add_mentions(found, term.get())?,
        }
    }
    Ok(())
}

// Adds what the relation of PER mentions; other groups mention nothing.
#[cycle(mentions)]
fn add_groups(
    found: &mut Vec<Mention>,
    groups: &TypedGroups<Boxed<Typed>>,
) -> Result<(), AllocError>
    ensures { OnOk result (found.new.items ≡ found.old.items ++ groups_mentioned groups.now) }
{
    match groups {
        TypedGroups::Per(tree) => add_mentions(found, tree.get()),
        TypedGroups::Whole | TypedGroups::By(_) => Ok(()),
    }
}

/// Adds what the expression mentions, in the order in which it is written. It costs its size.
#[cycle(mentions)]
#[tactic(auto, using(crate::proofs::Forms::in_two, crate::proofs::Forms::of_select, crate::proofs::Forms::of_tuple, crate::proofs::Forms::of_relation, crate::proofs::Forms::of_binary, crate::proofs::Forms::of_where, crate::proofs::Forms::of_aggregate, crate::proofs::Forms::of_choice, crate::proofs::Forms::of_extend, crate::proofs::Forms::of_with))]
pub fn add_mentions(found: &mut Vec<Mention>, tree: &Typed) -> Result<(), AllocError>
    ensures { OnOk result (found.new.items ≡ found.old.items ++ mentioned tree.now) }
{
    match tree {
        Typed::Integer(_) | Typed::Text(_) | Typed::Truth(_) | Typed::Local(_) => Ok(()),
        Typed::Relvar(place) => Ok(found.push(Mention::Relvar(*place))?),
        Typed::Select(place, trees) => {
            found.push(Mention::Possrep(*place))?;
            add_list(found, trees.as_slice())
        }
        Typed::Tuple(items) => add_items(found, items.as_slice()),
        Typed::Relation(_, trees) => add_list(found, trees.as_slice()),
        Typed::Component(_, a)
        | Typed::Unary(_, a)
        | Typed::From(_, a)
        | Typed::Project(a, _)
        | Typed::Rename(a, _)
        | Typed::Nest(_, a, _, _)
        | Typed::Unnest(_, a, _) => add_mentions(found, a.get()),
        Typed::Binary(_, a, b) | Typed::Where(a, b) => {
            add_mentions(found, a.get())?;
            add_mentions(found, b.get())
        }
        Typed::Aggregate(a, summary) => {
            add_mentions(found, a.get())?;
            add_summary(found, summary)
        }
        Typed::If(a, b, c) => {
            add_mentions(found, a.get())?;
            add_mentions(found, b.get())?;
            add_mentions(found, c.get())
        }
        Typed::Extend(a, items) => {
            add_mentions(found, a.get())?;
            add_items(found, items.as_slice())
        }
        Typed::Summarize(a, groups, items) => {
            add_mentions(found, a.get())?;
            add_groups(found, groups)?;
            add_summaries(found, items.as_slice())
        }
        Typed::With(names, a) => {
            add_named(found, names.as_slice())?;
            add_mentions(found, a.get())
        }
    }
}

/// The places of the relvars among the mentions, in the order of the mentions.
pub fn relvars_in(alloc: Global, mentions: &[Mention]) -> Result<Vec<usize>, AllocError>
    ensures { IfOk result (λ v. v.items ≡ relvars_in mentions.now) }
{
    let mut places = Vec::new(alloc);
    for mention in mentions {
        if let Mention::Relvar(place) = mention {
            places.push(*place)?;
        }
    }
    Ok(places)
}

/// The places of the possreps among the mentions, in the order of the mentions.
pub fn possreps_in(alloc: Global, mentions: &[Mention]) -> Result<Vec<usize>, AllocError>
    ensures { IfOk result (λ v. v.items ≡ possreps_in mentions.now) }
{
    let mut places = Vec::new(alloc);
    for mention in mentions {
        if let Mention::Possrep(place) = mention {
            places.push(*place)?;
        }
    }
    Ok(places)
}
