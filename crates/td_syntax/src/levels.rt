//! How deep an expression is.

ghost use Rattle.std.specs.Prelude.{◌≡◌, nat_le};
ghost use Rattle.td_syntax.specs.Levels.{levels, named_levels};
ghost use Rattle.td_syntax.specs.ForProofs.Parts.{list_levels, summaries_levels, summary_levels, groups_levels};

use crate::tree::{Expr, Groups, Named, SummaryTerm};
use sqlite_items::Boxed;

// Whether each of the expressions has at most `most` levels.
#[cycle(within)]
fn list_within(all: &[Boxed<Expr>], most: usize) -> bool
    ensures { result ≡ nat_le (list_levels all.now) most }
{
    for a in all {
        if !within(a.get(), most) {
            return false;
        }
    }
    true
}

// Whether each of the expressions with names has at most `most` levels.
#[cycle(within)]
fn named_within(all: &[Named<Boxed<Expr>>], most: usize) -> bool
    ensures { result ≡ nat_le (named_levels all.now) most }
{
    for a in all {
        if !within(a.value.get(), most) {
            return false;
        }
    }
    true
}

// Whether the summary's term has at most `most` levels; COUNT has no term.
#[cycle(within)]
fn summary_within(summary: &SummaryTerm<Boxed<Expr>>, most: usize) -> bool
    ensures { result ≡ nat_le (summary_levels summary.now) most }
{
    match summary {
        SummaryTerm::Count => true,
        SummaryTerm::Of(_, term) => within(term.get(), most),
    }
}

// Whether the terms of all summaries have at most `most` levels.
#[cycle(within)]
fn summaries_within(all: &[Named<SummaryTerm<Boxed<Expr>>>], most: usize) -> bool
    ensures { result ≡ nat_le (summaries_levels all.now) most }
{
    for a in all {
        if !summary_within(&a.value, most) {
            return false;
        }
    }
    true
}

// Whether the relation of PER has at most `most` levels; other groups hold no expression.
#[cycle(within)]
fn groups_within(groups: &Groups<Boxed<Expr>>, most: usize) -> bool
    ensures { result ≡ nat_le (groups_levels groups.now) most }
{
    match groups {
        Groups::Per(relation) => within(relation.get(), most),
        _ => true,
    }
}

/// Whether the expression has at most so many levels.
#[cycle(within)]
pub fn within(tree: &Expr, most: usize) -> bool
    ensures { result ≡ nat_le (levels tree.now) most }
{
    if most == 0 {
        return false;
    }
    let inner = most - 1;
    match tree {
        Expr::Integer(_)
        | Expr::Text(_)
        | Expr::Truth(_)
        | Expr::TableDee
        | Expr::TableDum
        | Expr::Name(_) => true,
        Expr::Call(_, all) => list_within(all.as_slice(), inner),
        Expr::Relation(_, all) => list_within(all.as_slice(), inner),
        Expr::Tuple(all) => named_within(all.as_slice(), inner),
        Expr::Unary(_, a)
        | Expr::From(_, a)
        | Expr::Project(a, _)
        | Expr::Rename(a, _)
        | Expr::Nest(_, a, _, _)
        | Expr::Unnest(_, a, _)
        | Expr::Aggregate(_, a, None) => within(a.get(), inner),
        Expr::Binary(_, a, b) | Expr::Where(a, b) | Expr::Aggregate(_, a, Some(b)) => {
            within(a.get(), inner) && within(b.get(), inner)
        }
        Expr::If(a, b, c) => {
            if !within(a.get(), inner) {
                return false;
            }
            within(b.get(), inner) && within(c.get(), inner)
        }
        Expr::Extend(_, a, all) => { within(a.get(), inner) && named_within(all.as_slice(), inner) }
        Expr::With(all, a) => within(a.get(), inner) && named_within(all.as_slice(), inner),
        Expr::Summarize(a, groups, all) => {
            if !groups_within(groups, inner) {
                return false;
            }
            within(a.get(), inner) && summaries_within(all.as_slice(), inner)
        }
    }
}
