//! Which base relvars constraints read, as far as two places tell it.

ghost use Rattle.std.specs.Prelude.{◌≡◌, true, ℕ, IfOk};
ghost use Rattle.std.specs.List.{Contains};
ghost use Rattle.td_headings.specs.Expressions.{places_of};
ghost use Rattle.td_headings.specs.ForProofs.RelvarsRead as spec;
ghost use Rattle.td_headings.specs.ForProofs.RelvarsRead.{AreTold, TellsReads};

use crate::typed::TypedExpr;
use std::alloc::{AllocError, Global};
use td_typed_trees::expression::BaseUnder;

/// The base relvars that a constraint reads, by their places, where they are one or two.
#[derive(Clone, Copy)]
pub(crate) enum RelvarsRead {
    Among(usize, usize),
    Many,
}

impl RelvarsRead {
    // These base relvars.
    fn of(bases: &[BaseUnder]) -> RelvarsRead
        ensures { (n : ℕ) → Contains (places_of bases.now) n → spec.may_be result n ≡ true }
    {
        match bases {
            [base] => RelvarsRead::Among(base.place, base.place),
            [base, other] => RelvarsRead::Among(base.place, other.place),
            _ => RelvarsRead::Many,
        }
    }

    /// Whether the relvar may be one of them.
    pub(crate) fn may_be(self, relvar: usize) -> bool
        ensures { result ≡ spec.may_be self relvar }
    {
        match self {
            RelvarsRead::Among(place, other) => relvar == place || relvar == other,
            RelvarsRead::Many => true,
        }
    }
}

// What is told of this expression, if there is one.
fn read_by(expr: &Option<TypedExpr>) -> RelvarsRead
    ensures { TellsReads expr.now result }
{
    match expr {
        Some(expr) => RelvarsRead::of(expr.get().bases.as_slice()),
        None => RelvarsRead::Many,
    }
}

/// What is told of each of these expressions.
pub(crate) fn relvars_read(
    alloc: Global,
    exprs: &[Option<TypedExpr>],
) -> Result<Vec<RelvarsRead>, AllocError>
    ensures { IfOk result (λ v. AreTold exprs.now v.items) }
{
    let mut told = Vec::with_capacity(alloc, exprs.len())?;
    for expr in exprs {
        told.push(read_by(expr))?;
    }
    Ok(told)
}
