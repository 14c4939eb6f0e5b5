//! The table of a relvar.

ghost use Rattle.std.specs.Prelude.{◌≡◌, None, Ok, Err, MatchOption, MatchResult};
ghost use Rattle.td_schema.specs.Schemas.{relvar_named, same_text};
ghost use Rattle.td_semantics.specs.Scripts.{IsScriptOf};
ghost use Rattle.td_listings.specs.Calls.{Tabulates};
ghost use Rattle.td_listings.specs.ForProofs.Written.{IsFound, Renders};

use crate::error::TableError;
use crate::listings::value_at;
use crate::records::relation_table;
use std::alloc::Global;
use td_headings::Catalogue;
use td_relations::Relation;
use td_replica::Replica;
use td_semantics::Answer;
use td_values::{Heading, Name};

// Whether the name is this text.
fn is_named(text: &str, name: &Name) -> bool
    ensures { result ≡ same_text text.now name.now }
{
    text.cmp(name.as_str()).is_eq()
}

// The place, the name and the heading of the relvar of which this is the name. The text need not be a name.
fn relvar_of<'a>(catalogue: &'a Catalogue, text: &str) -> Option<(usize, &'a Name, &'a Heading)>
    ensures { MatchOption result (relvar_named catalogue.now.schema text.now ≡ None) (λ r. IsFound catalogue.now text.now r.0 r.1.now r.2.now) }
{
    for place in 0..catalogue.schema().relvar_count() {
        let Some((name, heading)) = catalogue.schema().relvar_at(place) else {
            unreachable!()
        };
        if is_named(text, name) {
            return Some((place, name, heading));
        }
    }
    None
}

// The table of a relvar that has this relation, or the error that it raises in place of one.
fn render_table(alloc: Global, answer: &Answer<Relation>) -> Result<Vec<u8>, TableError>
    ensures { MatchResult result (λ text. Renders answer.now (Ok text.items)) (λ e. Renders answer.now (Err e)) }
{
    match answer {
        Answer::Value(relation) => match relation_table(alloc, relation) {
            Ok(text) => Ok(text),
            Err(_) => Err(TableError::OutOfMemory),
        },
        Answer::Raised(raise) => Err(TableError::Raised(*raise)),
    }
}

/// The table of the relvar of this name. It costs a search among the relvars, the evaluation of a virtual one, and is
/// linear in what it tells.
pub fn table_text<R: Replica>(
    alloc: Global,
    catalogue: &Catalogue,
    replica: &R,
    name: &str,
) -> Result<Vec<u8>, TableError>
    requires { IsScriptOf (R.seen replica.now).script catalogue.now }
    ensures { MatchResult result (λ text. Tabulates catalogue.now (R.seen replica.now) name.now (Ok text.items)) (λ e. Tabulates catalogue.now (R.seen replica.now) name.now (Err e)) }
{
    let Some((place, name, heading)) = relvar_of(catalogue, name) else {
        return Err(TableError::Unknown);
    };
    if heading.is_empty() {
        return Err(TableError::NoAttributes);
    }
    if !replica.is_open() {
        return Err(TableError::Broken);
    }
    let answer = match value_at(alloc, catalogue, replica, name, place) {
        Ok(answer) => answer,
        Err(_) => return Err(TableError::OutOfMemory),
    };
    match render_table(alloc, &answer) {
        Ok(text) => Ok(text),
        Err(error) => Err(error),
    }
}
