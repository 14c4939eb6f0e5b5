//! What base relvars have.

ghost use Rattle.std.specs.Prelude.{◌≡◌, ℕ, List, None, Option, Some, MatchOption, MatchResult, Result};
ghost use Rattle.td_algebra.specs.Raising.{Answers};
ghost use Rattle.td_algebra.specs.declared.errors.Stop.{Stop};
ghost use Rattle.td_values.specs.Rows.{RowsData};
ghost use Rattle.td_eval.specs.Keyed.{AreByKeys, TellsKeyed};

use crate::by_key::found;
use std::alloc::Global;
use td_algebra::{Fault, KeyIndex, Stop};
use td_relations::Relation;
use td_values::{Name, Tuple};

/// The base relvars of a database, by their places in order of definition.
pub trait Lookup {
    ghost relvars: { Self → ℕ → Result RowsData Stop };

    ghost first_keys: { Self → ℕ → Option (List (List ℕ)) };

    /// What the base relvar at the place has, lent. It takes no memory.
    fn lent(&self, relvar: usize) -> Result<&Relation, Stop>
        ensures { MatchResult result (λ r. relvars self.now relvar ≡ Ok r.now) (λ e. relvars self.now relvar ≡ Err e) };

    /// The names of the first key of the base relvar at the place, as they are written. It takes no memory.
    fn first_key(&self, relvar: usize) -> Option<&[Name]>
        ensures { MatchOption result (first_keys self.now relvar ≡ None) (λ key. first_keys self.now relvar ≡ Some key.now) };

    /// The tuples of the base relvar at the place by keys, lent: an index for each key by which they are kept. That
    /// there is none promises nothing. It takes no memory.
    fn indexes(&self, relvar: usize) -> &[KeyIndex]
        ensures { AreByKeys (relvars self.now relvar) result.now }
    {
        &[]
    }

    /// What the base relvar at the place has, its tuples shared.
    fn value(&self, alloc: Global, relvar: usize) -> Result<Relation, Fault>
        ensures { Answers result (relvars self.now relvar) }
    {
        match self.lent(relvar) {
            Ok(relation) => Ok(relation.copy(alloc)?),
            Err(stop) => Err(Fault::Raised(stop)),
        }
    }

    /// The tuples of the base relvar at the place that have these values of its first key; none where the names are not
    /// exactly those of that key. Where its tuples are kept by that key it costs a search, and else a sort of them.
    fn keyed(&self, alloc: Global, relvar: usize, values: &Tuple) -> Result<Option<Relation>, Fault>
        ensures { TellsKeyed (relvars self.now relvar) (first_keys self.now relvar) values.now result }
    {
        let relation = match self.lent(relvar) {
            Ok(relation) => relation,
            Err(stop) => return Err(Fault::Raised(stop)),
        };
        match self.first_key(relvar) {
            Some(key) => Ok(found(alloc, relation, self.indexes(relvar), key, values)?),
            None => Ok(None),
        }
    }
}
