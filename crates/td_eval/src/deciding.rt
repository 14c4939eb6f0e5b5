//! Which virtual relvars an expression comes to, as far as its form tells. Nothing is promised of that: what is asked
//! for too early or too late costs time, and no more.

use sqlite_items::Boxed;
use std::alloc::{AllocError, Global};
use td_syntax::tree::{BinaryOperator, Named};
use td_tuples::Item;
use td_typed_trees::expression::VirtualUnder;
use td_typed_trees::tree::{Typed, TypedGroups};
use td_typed_trees::{Mention, add_mentions};

/// The place, among those under the expression, of the virtual relvar that is defined at this one, if it is not known.
/// They stand in order of definition.
pub(crate) fn first_unknown(
    virtuals: &[VirtualUnder],
    known: &[bool],
    place: usize,
) -> Option<usize> {
    let at = virtuals.partition_point(|under| under.place < place);
    if at < virtuals.len() && virtuals[at].place == place && at < known.len() && !known[at] {
        Some(at)
    } else {
        None
    }
}

// What `sure` finds in the first of these expressions in which it finds one.
#[cycle(sure)]
fn sure_in_list(
    virtuals: &[VirtualUnder],
    known: &[bool],
    trees: &[Boxed<Typed>],
) -> Option<usize> {
    for tree in trees {
        if let Some(at) = sure(virtuals, known, tree.get()) {
            return Some(at);
        }
    }
    None
}

// What `sure` finds in the term of the first of these items in which it finds one.
#[cycle(sure)]
fn sure_in_items(
    virtuals: &[VirtualUnder],
    known: &[bool],
    items: &[Item<Boxed<Typed>>],
) -> Option<usize> {
    for item in items {
        if let Some(at) = sure(virtuals, known, item.term.get()) {
            return Some(at);
        }
    }
    None
}

// What `sure` finds in the value of the first of these names in which it finds one.
#[cycle(sure)]
fn sure_in_names(
    virtuals: &[VirtualUnder],
    known: &[bool],
    names: &[Named<Boxed<Typed>>],
) -> Option<usize> {
    for name in names {
        if let Some(at) = sure(virtuals, known, name.value.get()) {
            return Some(at);
        }
    }
    None
}

// What `sure` finds in the relation that gives the groups, if an expression does.
#[cycle(sure)]
fn sure_in_groups(
    virtuals: &[VirtualUnder],
    known: &[bool],
    groups: &TypedGroups<Boxed<Typed>>,
) -> Option<usize> {
    match groups {
        TypedGroups::Per(tree) => sure(virtuals, known, tree.get()),
        TypedGroups::Whole | TypedGroups::By(_) => None,
    }
}

// Whether the second operand is evaluated wherever the first one has a value.
fn takes_both(operator: BinaryOperator) -> bool {
    match operator {
        BinaryOperator::And | BinaryOperator::Or => false,
        _ => true,
    }
}

/// The first virtual relvar, of those that are not known, that the expression comes to whatever it is evaluated over,
/// unless an error ends it before: its place among those under the expression.
#[cycle(sure)]
pub(crate) fn sure(virtuals: &[VirtualUnder], known: &[bool], tree: &Typed) -> Option<usize> {
    match tree {
        Typed::Integer(_) | Typed::Text(_) | Typed::Truth(_) | Typed::Local(_) => None,
        Typed::Relvar(place) => first_unknown(virtuals, known, *place),
        Typed::Select(_, trees) | Typed::Relation(_, trees) => {
            sure_in_list(virtuals, known, trees.as_slice())
        }
        Typed::Tuple(items) => sure_in_items(virtuals, known, items.as_slice()),
        Typed::Component(_, a)
        | Typed::Unary(_, a)
        | Typed::From(_, a)
        | Typed::Project(a, _)
        | Typed::Rename(a, _)
        | Typed::Nest(_, a, _, _)
        | Typed::Unnest(_, a, _)
        | Typed::Where(a, _)
        | Typed::Aggregate(a, _)
        | Typed::Extend(a, _)
        | Typed::If(a, _, _) => sure(virtuals, known, a.get()),
        Typed::Binary(operator, a, b) => match sure(virtuals, known, a.get()) {
            Some(at) => Some(at),
            None if takes_both(*operator) => sure(virtuals, known, b.get()),
            None => None,
        },
        Typed::Summarize(a, groups, _) => match sure(virtuals, known, a.get()) {
            Some(at) => Some(at),
            None => sure_in_groups(virtuals, known, groups),
        },
        Typed::With(names, a) => match sure_in_names(virtuals, known, names.as_slice()) {
            Some(at) => Some(at),
            None => sure(virtuals, known, a.get()),
        },
    }
}

// What is evaluated first of a form, and may decide whether the rest is evaluated.
fn first_operand(tree: &Typed) -> Option<&Typed> {
    match tree {
        Typed::Binary(_, a, _)
        | Typed::Where(a, _)
        | Typed::Aggregate(a, _)
        | Typed::Extend(a, _)
        | Typed::Summarize(a, _, _)
        | Typed::If(a, _, _) => Some(a.get()),
        _ => None,
    }
}

// Whether evaluating it takes more than a look.
fn is_dear(tree: &Typed) -> bool {
    match tree {
        Typed::Integer(_) | Typed::Text(_) | Typed::Truth(_) | Typed::Local(_) | Typed::Relvar(_) =>
            false,
        _ => true,
    }
}

// Whether a virtual relvar that is not known stands anywhere in the expression, evaluated or not.
fn names_unknown(
    alloc: Global,
    virtuals: &[VirtualUnder],
    known: &[bool],
    tree: &Typed,
) -> Result<bool, AllocError> {
    let mut mentions = Vec::new(alloc);
    add_mentions(&mut mentions, tree)?;
    Ok(
        mentions.iter().any(|mention| match mention {
            Mention::Relvar(place) => first_unknown(virtuals, known, *place).is_some(),
            Mention::Possrep(_) => false,
        }),
    )
}

/// The operand that is evaluated first, where the rest may come to a virtual relvar that is not known: with its value
/// kept, the rest alone is evaluated anew where it did.
pub(crate) fn decider<'a>(
    alloc: Global,
    virtuals: &[VirtualUnder],
    known: &[bool],
    tree: &'a Typed,
) -> Result<Option<&'a Typed>, AllocError> {
    match first_operand(tree) {
        Some(first) if is_dear(first) && names_unknown(alloc, virtuals, known, tree)? => {
            Ok(Some(first))
        }
        _ => Ok(None),
    }
}
