//! How many marks the parts of a tree have.

use sqlite_items::{Boxed, Items};
use td_syntax::script::{Action, Opening};
use td_syntax::tree::{Attributes, Expr, Groups, Named, SummaryTerm, TypeExpr, UnaryOperator};

/// The sum of these numbers; the greatest one where it is larger.
pub fn sum(numbers: &[usize]) -> usize {
    let mut all: usize = 0;
    for number in numbers {
        all = all.saturating_add(*number);
    }
    all
}

/// The first items, so many.
pub fn front<T>(all: &[T], count: usize) -> &[T] {
    let (before, _) = all.split_at(count.min(all.len()));
    before
}

/// Of an attribute list.
pub(crate) fn attributes_width(attributes: &Attributes) -> usize {
    match attributes {
        Attributes::Only(names) => names.as_slice().len(),
        Attributes::AllBut(names) => sum(&[2, names.as_slice().len()]),
    }
}

/// Of a type as it is written.
#[cycle(type_width)]
pub(crate) fn type_width(ty: &TypeExpr) -> usize {
    match ty {
        TypeExpr::Boolean | TypeExpr::Integer | TypeExpr::Char | TypeExpr::User(_) => 1,
        TypeExpr::Tuple(fields) | TypeExpr::Relation(fields) => {
            sum(&[1, fields_width(fields.as_slice())])
        }
    }
}

/// Of fields as they are written.
#[cycle(type_width)]
pub(crate) fn fields_width(fields: &[Named<TypeExpr>]) -> usize {
    let mut all = 0;
    for field in fields {
        all = sum(&[all, 1, type_width(&field.value)]);
    }
    all
}

// Of the heading of RELATION, which may be left out.
fn heading_width(heading: &Option<Items<Named<TypeExpr>>>) -> usize {
    match heading {
        Some(fields) => fields_width(fields.as_slice()),
        None => 0,
    }
}

// Of the operands in a list.
#[cycle(width)]
fn list_width(all: &[Boxed<Expr>]) -> usize {
    let mut marks = 0;
    for a in all {
        marks = sum(&[marks, width(a.get())]);
    }
    marks
}

/// Of named expressions, each with so many marks beside it.
#[cycle(width)]
pub(crate) fn named_width(all: &[Named<Boxed<Expr>>], beside: usize) -> usize {
    let mut marks = 0;
    for a in all {
        marks = sum(&[marks, beside, width(a.value.get())]);
    }
    marks
}

/// Of named summaries.
#[cycle(width)]
pub(crate) fn summaries_width(all: &[Named<SummaryTerm<Boxed<Expr>>>]) -> usize {
    let mut marks = 0;
    for a in all {
        let term = match &a.value {
            SummaryTerm::Count => 0,
            SummaryTerm::Of(_, term) => width(term.get()),
        };
        marks = sum(&[marks, 3, term]);
    }
    marks
}

/// Of what stands between the relation of SUMMARIZE and its summaries.
#[cycle(width)]
pub(crate) fn groups_width(groups: &Groups<Boxed<Expr>>) -> usize {
    match groups {
        Groups::Whole => 0,
        Groups::Per(a) => sum(&[1, width(a.get())]),
        Groups::By(attributes) => sum(&[1, attributes_width(attributes)]),
    }
}

/// Of an expression. It costs the size of the expression.
#[cycle(width)]
pub fn width(tree: &Expr) -> usize {
    match tree {
        Expr::Integer(_)
        | Expr::Text(_)
        | Expr::Truth(_)
        | Expr::TableDee
        | Expr::TableDum
        | Expr::Name(_) => 1,
        Expr::Call(_, all) => sum(&[1, list_width(all.as_slice())]),
        Expr::Tuple(all) => sum(&[1, named_width(all.as_slice(), 1)]),
        Expr::Relation(heading, all) => {
            sum(&[1, heading_width(heading), list_width(all.as_slice())])
        }
        Expr::Unary(UnaryOperator::TupleFrom, a) | Expr::From(_, a) => sum(&[2, width(a.get())]),
        Expr::Unary(_, a) | Expr::Aggregate(_, a, None) => sum(&[1, width(a.get())]),
        Expr::Binary(_, a, b) | Expr::Where(a, b) | Expr::Aggregate(_, a, Some(b)) => {
            sum(&[1, width(a.get()), width(b.get())])
        }
        Expr::Project(a, attributes) => sum(&[width(a.get()), attributes_width(attributes)]),
        Expr::Rename(a, renamings) => {
            sum(&[
                1,
                width(a.get()),
                renamings.as_slice().len().saturating_mul(3),
            ])
        }
        Expr::Nest(_, a, attributes, _) => sum(&[3, width(a.get()), attributes_width(attributes)]),
        Expr::Unnest(_, a, _) => sum(&[2, width(a.get())]),
        Expr::If(a, b, c) => sum(&[5, width(a.get()), width(b.get()), width(c.get())]),
        Expr::Extend(_, a, all) => sum(&[1, width(a.get()), named_width(all.as_slice(), 2)]),
        Expr::With(all, a) => sum(&[1, width(a.get()), named_width(all.as_slice(), 2)]),
        Expr::Summarize(a, groups, all) => {
            let summaries = summaries_width(all.as_slice());
            sum(&[1, width(a.get()), groups_width(groups), summaries])
        }
    }
}

/// Of a summary without its name.
pub(crate) fn summary_width(summary: &SummaryTerm<Boxed<Expr>>) -> usize {
    match summary {
        SummaryTerm::Count => 1,
        SummaryTerm::Of(_, term) => sum(&[1, width(term.get())]),
    }
}

// Of a condition with WHERE before it, if it is written.
fn condition_width(condition: &Option<Boxed<Expr>>) -> usize {
    match condition {
        Some(a) => sum(&[1, width(a.get())]),
        None => 0,
    }
}

// Of one assignment.
fn action_width(action: &Action) -> usize {
    match action {
        Action::Assign(_, a) | Action::Insert(_, a) => sum(&[2, width(a.get())]),
        Action::Delete(_, condition) => sum(&[2, condition_width(condition)]),
        Action::Update(_, condition, all) => {
            sum(&[
                2,
                condition_width(condition),
                named_width(all.as_slice(), 2),
            ])
        }
    }
}

/// Of actions that are made at once.
pub(crate) fn actions_width(actions: &[Action]) -> usize {
    let mut marks = 0;
    for action in actions {
        marks = sum(&[marks, action_width(action)]);
    }
    marks
}

/// Of what a base relvar holds at first.
pub(crate) fn opening_width(opening: &Opening) -> usize {
    match opening {
        Opening::Empty(fields) => sum(&[1, fields_width(fields.as_slice())]),
        Opening::Init(None, a) => sum(&[1, width(a.get())]),
        Opening::Init(Some(fields), a) => {
            sum(&[2, fields_width(fields.as_slice()), width(a.get())])
        }
    }
}
