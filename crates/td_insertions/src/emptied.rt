//! The relvars of which one has no tuples.

ghost use Rattle.td_insertions.specs.ForProofs.Emptied.{emptied};

use td_algebra::{KeyIndex, Stop};
use td_eval::Lookup;
use td_relations::Relation;
use td_values::Name;

/// The relvars of a look-up, but in one place a relation without tuples.
#[derive(Drop)]
pub(crate) struct Emptied<'a, L> {
    pub lookup: &'a L,
    pub relvar: usize,
    pub nothing: &'a Relation,
}

impl<L: Lookup> Lookup for Emptied<'_, L> {
    ghost relvars = { λ s. emptied s.relvar s.nothing.now (L.relvars s.lookup.now) };

    ghost first_keys = { λ s. L.first_keys s.lookup.now };

    fn lent(&self, relvar: usize) -> Result<&Relation, Stop> {
        if relvar == self.relvar {
            Ok(self.nothing)
        } else {
            self.lookup.lent(relvar)
        }
    }

    fn first_key(&self, relvar: usize) -> Option<&[Name]> {
        self.lookup.first_key(relvar)
    }

    fn indexes(&self, relvar: usize) -> &[KeyIndex] {
        if relvar == self.relvar {
            &[]
        } else {
            self.lookup.indexes(relvar)
        }
    }
}
