//! What expressions mean over the relvars of a database, and over some relvars as they were.

ghost use Rattle.std.specs.Prelude.{ℕ, IfOk};
ghost use Rattle.std.specs.List.{All};
ghost use Rattle.td_values.specs.Rows.{RowsData};
ghost use Rattle.td_semantics.specs.Databases.{Belongs, stored_relvars};
ghost use Rattle.td_semantics.specs.Trees.{AreBases, IsIn};
ghost use Rattle.td_relvars.specs.Evaluated.{EvaluatesTo};
ghost use Rattle.td_relvars.specs.Keys as keys;
ghost use Rattle.td_relvars.specs.Parts.{with_copies};

use crate::database::Database;
use crate::parts::Part;
use std::alloc::{AllocError, Global};
use td_algebra::{KeyIndex, Stop};
use td_eval::{Lookup, value};
use td_headings::{Catalogue, TypedExpr};
use td_relations::Relation;
use td_semantics::{Answer, Failure};
use td_values::Name;

/// The relvars of a database, but some by copies of what they had before.
#[derive(Drop)]
struct Past<'a> {
    pub database: &'a Database,
    pub part: &'a Part,
}

impl Lookup for Past<'_> {
    ghost relvars = { λ p. with_copies p.part.now.copies (stored_relvars p.database.now.stored) };

    ghost first_keys = { λ p. keys.first_key p.database.now.catalogue };

    fn lent(&self, relvar: usize) -> Result<&Relation, Stop> {
        match self.part.base_at(relvar) {
            Some(copy) => Ok(copy.relation()),
            None => self.database.lent(relvar),
        }
    }

    fn first_key(&self, relvar: usize) -> Option<&[Name]> {
        self.database.first_key(relvar)
    }

    fn indexes(&self, relvar: usize) -> &[KeyIndex] {
        match self.part.base_at(relvar) {
            Some(copy) => copy.indexes(),
            None => self.database.indexes(relvar),
        }
    }
}

// What the expression means over these relvars.
fn evaluated<L: Lookup>(
    alloc: Global,
    catalogue: &Catalogue,
    expr: &TypedExpr,
    lookup: &L,
) -> Result<Answer, AllocError>
    requires expr { IsIn catalogue.now expr.now }
    requires bases { AreBases catalogue.now (L.relvars lookup.now) }
    ensures { IfOk result (EvaluatesTo catalogue.now (L.relvars lookup.now) expr.now) }
{
    match value(alloc, catalogue, expr, lookup) {
        Ok(value) => Ok(Answer::Value(value)),
        Err(Failure::Raised(raise)) => Ok(Answer::Raised(raise)),
        Err(Failure::OutOfMemory) => Err(AllocError),
    }
}

impl Database {
    /// What the expression means over the relvars, or the error that evaluating it raises.
    pub fn evaluate(&self, alloc: Global, expr: &TypedExpr) -> Result<Answer, AllocError>
        requires { IsIn self.now.catalogue expr.now }
        ensures { IfOk result (EvaluatesTo self.now.catalogue (stored_relvars self.now.stored) expr.now) }
    {
        evaluated(alloc, self.catalogue(), expr, self)
    }
}

/// What the expression means where what the part has stands in place of what the database's relvars have.
pub fn value_over(
    alloc: Global,
    database: &Database,
    part: &Part,
    expr: &TypedExpr,
) -> Result<Answer, AllocError>
    requires expr { IsIn database.now.catalogue expr.now }
    requires part { All (λ (p : ℕ × RowsData). Belongs database.now.catalogue p.0 p.1) part.now.copies }
    ensures { IfOk result (EvaluatesTo database.now.catalogue (with_copies part.now.copies (stored_relvars database.now.stored)) expr.now) }
{
    let past = Past { database, part };
    evaluated(alloc, database.catalogue(), expr, &past)
}
