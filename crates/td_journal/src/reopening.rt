//! A site that comes back from its journal.

ghost use Rattle.std.specs.Prelude.{◌≡◌, ◌≤◌, [], MatchResult, length};
ghost use Rattle.std.specs.Io.KnownBytes.{Keeps};
ghost use Rattle.td_io.specs.Views.{input_of};
ghost use Rattle.td_journal.specs.ForProofs.Refilled.{Refills, RefillsNot};
ghost use Rattle.td_journal.specs.ForProofs.Refilled as proofs;
ghost use Rattle.td_journal.specs.Reopening.{IsNew, ReopensNot, ReopensSite, Retakes, RetakesNot};

use crate::error::JournalError;
use crate::reading::{Unread, bytes_of, read_frames, read_header};
use std::alloc::Global;
use td_frames::Version;
use td_io::Source;
use td_replica::{OpenError, Opens, TakeError};
use td_semantics::Meter;
use thiserror::Error;

/// Why a site is not reopened.
#[derive(Debug, Drop, Error)]
pub enum ReopenError {
    /// It would not be opened anew.
    #[error("{0}")]
    Open(OpenError),
    #[error("out of memory")]
    OutOfMemory,
    #[error("the reader failed")]
    ReadFault,
    /// The bytes are not its journal.
    #[error("{0}")]
    Refused(JournalError),
    /// It cannot take what the journal says.
    #[error("what the journal says is refused: {0}")]
    Take(TakeError),
}

/// A site as its journal says it, how many bytes of the journal stand whole, and its version: its header and frames, or
/// none where the header is cut, and then the second version, in which it is to be begun. Behind a journal of the first
/// version nothing may be written.
#[derive(Drop)]
pub struct Reopened<R> {
    pub replica: R,
    pub whole: u64,
    pub version: Version,
}

// Why a site does not come back, of a journal that was not read.
fn unread(error: Unread) -> ReopenError
    ensures { result ≡ proofs.unread error }
{
    match error {
        Unread::ReadFault => ReopenError::ReadFault,
        Unread::OutOfMemory => ReopenError::OutOfMemory,
        Unread::Refused(error) => ReopenError::Refused(error),
    }
}

// Why a site does not come back, of entries that it did not take.
fn untaken(error: TakeError) -> ReopenError
    ensures { result ≡ proofs.untaken error }
{
    match error {
        TakeError::OutOfMemory => ReopenError::OutOfMemory,
        error => ReopenError::Take(error),
    }
}

// Reads the frames behind a header, and has a new site take what they say.
fn refill<R: Opens + Drop, S: Source>(
    alloc: Global,
    mut replica: R,
    source: &mut S,
    version: Version,
    meter: &mut Meter,
) -> Result<Reopened<R>, ReopenError>
    requires short { length (R.seen replica).script ≤ 65536 }
    requires none { (R.seen replica).entries ≡ [] }
    ensures told { MatchResult result
        (λ r. Refills version (R.seen replica) (input_of S.Source source.old) (input_of S.Source source.new)
        (R.seen r.replica) r.whole × (r.version ≡ version))
        (λ e. RefillsNot version (R.seen replica) (input_of S.Source source.old) (input_of S.Source source.new) e) }
    ensures beside { Keeps (S.beside source.old) (S.beside source.new) }
{
    let entries = match read_frames(alloc, source, version) {
        Ok(entries) => entries,
        Err(error) => return Err(unread(error)),
    };
    match replica.take(alloc, entries.as_slice(), meter) {
        Ok(_) => {}
        Err(error) => return Err(untaken(error)),
    }
    let whole = bytes_of(version, replica.script(), entries.as_slice());
    Ok(Reopened {
        replica,
        whole,
        version,
    })
}

/// Has a new site take what its journal says: then it has all that stands whole there. It takes room for the entries,
/// and runs each once.
pub fn take_journal<R: Opens + Drop, S: Source>(
    alloc: Global,
    replica: R,
    source: &mut S,
    meter: &mut Meter,
) -> Result<Reopened<R>, ReopenError>
    requires new { IsNew (R.seen replica) }
    ensures taken { MatchResult result
        (λ r. Retakes (R.seen replica) (input_of S.Source source.old) (input_of S.Source source.new) (R.seen r.replica) r.whole r.version)
        (λ e. RetakesNot (R.seen replica) (input_of S.Source source.old) (input_of S.Source source.new) e) }
    ensures beside { Keeps (S.beside source.old) (S.beside source.new) }
{
    match read_header(source, replica.site(), replica.script()) {
        Ok(Some(version)) => refill(alloc, replica, source, version, meter),
        Ok(None) => Ok(Reopened {
            replica,
            whole: 0,
            version: Version::Second,
        }),
        Err(error) => Err(unread(error)),
    }
}

/// Opens the site of this number and script, with room for so many entries, from its journal: it has all that stands
/// whole there. It takes room for the entries, and runs each once.
pub fn reopen<R: Opens + Drop, S: Source>(
    alloc: Global,
    source: &mut S,
    script: &str,
    site: u16,
    limit: usize,
    meter: &mut Meter,
) -> Result<Reopened<R>, ReopenError>
    ensures reopened { MatchResult result
        (λ r. ReopensSite script.now site limit (input_of S.Source source.old) (input_of S.Source source.new)
        (R.seen r.replica) r.whole r.version)
        (λ e. ReopensNot script.now site limit (input_of S.Source source.old) (input_of S.Source source.new) e) }
    ensures beside { Keeps (S.beside source.old) (S.beside source.new) }
{
    match R::open_script(alloc, script, site, limit) {
        Ok(replica) => take_journal(alloc, replica, source, meter),
        Err(error) => Err(ReopenError::Open(error)),
    }
}
