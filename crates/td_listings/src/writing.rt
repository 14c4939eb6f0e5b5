//! Texts of a site, written.

ghost use Rattle.std.specs.Prelude.{◌≡◌, Ok, Err, IfOk, MatchResult, string_bytes};
ghost use Rattle.std.specs.Io.KnownBytes.{Keeps};
ghost use Rattle.td_io.specs.Views.{output_of};
ghost use Rattle.td_semantics.specs.Scripts.{IsScriptOf};
ghost use Rattle.td_replica.specs.Seen.{IsSound};
ghost use Rattle.td_listings.specs.Calls.{Lists};
ghost use Rattle.td_listings.specs.ForProofs.Scripted.{IsOfScript};
ghost use Rattle.td_listings.specs.Writings.{WritesListing, WritesTable};

use crate::error::{ExportError, ListError, ListingError, TableError};
use crate::listings::listing_text;
use crate::table::table_text;
use std::alloc::{AllocError, Global};
use td_headings::Catalogue;
use td_io::{Sink, put};
use td_replica::{Catalogued, Replica};
use td_semantics::laws::script_opens_one;
use td_semantics::{CatalogueError, catalogue_of};

// A replica's history is sound. It costs nothing.
fn history_is_sound<R: Replica>(replica: &R)
    ensures { IsSound (R.seen replica.now) }
{
    let _site = replica.site();
}

/// The catalogue of a site's script. It costs the reading and typing of the script.
pub fn script_catalogue<R: Replica>(alloc: Global, replica: &R) -> Result<Catalogue, AllocError>
    ensures { IfOk result (IsScriptOf (R.seen replica.now).script) }
{
    script_opens_one();
    history_is_sound(replica);
    match catalogue_of(alloc, replica.script()) {
        Ok(catalogue) => Ok(catalogue),
        Err(CatalogueError::OutOfMemory) => Err(AllocError),
        Err(CatalogueError::Syntax) => unreachable!(),
        Err(CatalogueError::IllTyped) => unreachable!(),
    }
}

/// Writes the listing of a site, and flushes. It is built whole before any of it is written.
pub fn listing<R: Catalogued, K: Sink>(
    alloc: Global,
    replica: &R,
    sink: &mut K,
) -> Result<(), ListingError>
    ensures writes { WritesListing (R.seen replica.now) (output_of K.Sink sink.old) (output_of K.Sink sink.new) result }
    ensures aside { Keeps (K.aside sink.old) (K.aside sink.new) }
{
    let text = match listing_text(alloc, replica.catalogue(), replica) {
        Ok(text) => text,
        Err(ListError::Broken) => return Err(ListingError::Broken),
        Err(ListError::OutOfMemory) => return Err(ListingError::OutOfMemory),
    };
    match put(sink, text.as_bytes()) {
        Ok(()) => Ok(()),
        Err(_) => Err(ListingError::WriteFault),
    }
}

// The table by the catalogue of the site's script.
fn tabulate<R: Catalogued>(alloc: Global, replica: &R, name: &str) -> Result<Vec<u8>, TableError>
    ensures { MatchResult result (λ text. IsOfScript (R.seen replica.now) name.now (Ok text.items)) (λ e. IsOfScript (R.seen replica.now) name.now (Err e)) }
{
    table_text(alloc, replica.catalogue(), replica, name)
}

/// Writes the table of the relvar of this name, and flushes. It is built whole before any of it is written.
pub fn export<R: Catalogued, K: Sink>(
    alloc: Global,
    replica: &R,
    name: &str,
    sink: &mut K,
) -> Result<(), ExportError>
    ensures writes { WritesTable (R.seen replica.now) name.now (output_of K.Sink sink.old) (output_of K.Sink sink.new) result }
    ensures aside { Keeps (K.aside sink.old) (K.aside sink.new) }
{
    history_is_sound(replica);
    let text = match tabulate(alloc, replica, name) {
        Ok(text) => text,
        Err(TableError::Unknown) => return Err(ExportError::Unknown),
        Err(TableError::NoAttributes) => return Err(ExportError::NoAttributes),
        Err(TableError::Broken) => return Err(ExportError::Broken),
        Err(TableError::Raised(raise)) => return Err(ExportError::Raised(raise)),
        Err(TableError::OutOfMemory) => return Err(ExportError::OutOfMemory),
    };
    match put(sink, text.as_slice()) {
        Ok(()) => Ok(()),
        Err(_) => Err(ExportError::WriteFault),
    }
}
