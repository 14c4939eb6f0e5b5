//! The relvars that sources and tests see before anything is changed.

ghost use Rattle.td_assign.specs.ForProofs.Lists as lists;
ghost use Rattle.td_semantics.specs.Given as spec;
ghost use Rattle.td_relvars.specs.Keys.{first_key};
ghost use Rattle.td_semantics.specs.Databases.{stored_relvars};

use crate::changes::{Change, given_relation};
use td_algebra::{KeyIndex, Stop};
use td_eval::Lookup;
use td_relations::Relation;
use td_relvars::Database;
use td_values::Name;

/// The relvars of a database, but one target with what it was given.
#[derive(Drop)]
pub(crate) struct Seen<'a> {
    pub database: &'a Database,
    pub changes: &'a [Change],
    pub target: usize,
}

impl Lookup for Seen<'_> {
    ghost relvars = { λ s. spec.seen (lists.given_to s.changes.now) s.target (stored_relvars s.database.now.stored) };

    ghost first_keys = { λ s. first_key s.database.now.catalogue };

    fn lent(&self, relvar: usize) -> Result<&Relation, Stop> {
        if self.target == relvar {
            if let Some(relation) = given_relation(self.changes, relvar) {
                return Ok(relation);
            }
        }
        self.database.lent(relvar)
    }

    fn first_key(&self, relvar: usize) -> Option<&[Name]> {
        self.database.first_key(relvar)
    }

    fn indexes(&self, relvar: usize) -> &[KeyIndex] {
        if self.target != relvar {
            return self.database.indexes(relvar);
        }
        match given_relation(self.changes, relvar) {
            Some(_) => &[],
            None => self.database.indexes(relvar),
        }
    }
}

/// The relvars of a database with all targets replaced.
#[derive(Drop)]
pub(crate) struct Replaced<'a> {
    pub database: &'a Database,
    pub changes: &'a [Change],
}

impl Lookup for Replaced<'_> {
    ghost relvars = { λ s. spec.replaced (lists.given_to s.changes.now) (stored_relvars s.database.now.stored) };

    ghost first_keys = { λ s. first_key s.database.now.catalogue };

    fn lent(&self, relvar: usize) -> Result<&Relation, Stop> {
        match given_relation(self.changes, relvar) {
            Some(relation) => Ok(relation),
            None => self.database.lent(relvar),
        }
    }

    fn first_key(&self, relvar: usize) -> Option<&[Name]> {
        self.database.first_key(relvar)
    }

    fn indexes(&self, relvar: usize) -> &[KeyIndex] {
        match given_relation(self.changes, relvar) {
            Some(_) => &[],
            None => self.database.indexes(relvar),
        }
    }
}
