//! The entries that the other site sent, read and taken.

ghost use Rattle.std.specs.Prelude.{◌≡◌, Err, List, true, IfErr, IfOk};
ghost use Rattle.std.specs.Io.KnownBytes.{Keeps};
ghost use Rattle.td_replica.specs.Calls.{TakesBatch};
ghost use Rattle.td_stamps.specs.declared.entry.Entry.{Entry};
ghost use Rattle.td_meeting.specs.ForProofs.Parts as proofs;
ghost use Rattle.td_replica.specs.declared.refusal.TakeError.TheVariants as take_error;
ghost use Rattle.td_meeting.specs.declared.error.MeetingError.TheVariants as meeting_error;
ghost use Rattle.td_meeting.specs.Reading.{ReadsStream, Unreceived};

use crate::error::MeetingError;
use std::alloc::Global;
use td_frames::{FrameError, MOST_ENTRIES, Version, read_entries};
use td_io::Source;
use td_replica::{Replica, TakeError, Taken};
use td_semantics::Meter;
use td_stamps::Entry;

// Why an open site does not take a batch.
fn untaken(error: TakeError) -> MeetingError
    ensures { result ≡ proofs.untaken error }
{
    match error {
        TakeError::Broken => MeetingError::Broken,
        TakeError::OutOfMemory => MeetingError::OutOfMemory,
        error => MeetingError::Take(error),
    }
}

// Has the site take a batch; an error is told as one of the meeting.
fn take_all<R: Replica>(
    alloc: Global,
    site: &mut R,
    batch: &[Entry],
    meter: &mut Meter,
) -> Result<Taken, MeetingError>
    requires { (R.seen site.old).live ≡ true }
    ensures ok { IfOk result (λ t. TakesBatch (R.seen site.old) batch.now t (R.seen site.new)) }
    ensures err { IfErr result (λ e. proofs.Untaken (R.seen site.old) batch.now e (R.seen site.new)) }
    ensures journal { result ≡ Err (meeting_error.Take take_error.JournalWrite) → R.failed site.old site.new }
    ensures journaled { R.journaled site.old → R.journaled site.new }
{
    match site.take(alloc, batch, meter) {
        Ok(taken) => Ok(taken),
        Err(error) => Err(untaken(error)),
    }
}

// Takes what was read before a stream was cut or its reader failed.
fn take_front<R: Replica>(
    alloc: Global,
    site: &mut R,
    batch: &[Entry],
    error: FrameError,
    meter: &mut Meter,
) -> MeetingError
    requires { (R.seen site.old).live ≡ true }
    ensures short { proofs.TakesShort (R.seen site.old) batch.now error result (R.seen site.new) }
    ensures journal { result ≡ meeting_error.Take take_error.JournalWrite → R.failed site.old site.new }
    ensures journaled { R.journaled site.old → R.journaled site.new }
{
    match take_all(alloc, site, batch, meter) {
        Ok(taken) => MeetingError::Frame {
            error,
            taken: taken.fresh,
        },
        Err(error) => error,
    }
}

// Why a meeting stops at an error of the stream. Where the stream was cut or not read, the site takes the batch first.
fn stopped<R: Replica>(
    alloc: Global,
    site: &mut R,
    batch: &[Entry],
    error: FrameError,
    meter: &mut Meter,
) -> MeetingError
    requires { (R.seen site.old).live ≡ true }
    ensures stops { proofs.StopsAt (R.seen site.old) batch.now error result (R.seen site.new) }
    ensures journal { result ≡ meeting_error.Take take_error.JournalWrite → R.failed site.old site.new }
    ensures journaled { R.journaled site.old → R.journaled site.new }
{
    match error {
        FrameError::OutOfMemory => MeetingError::OutOfMemory,
        FrameError::ReadFault => take_front(alloc, site, batch, FrameError::ReadFault, meter),
        FrameError::Cut => take_front(alloc, site, batch, FrameError::Cut, meter),
        error => MeetingError::Frame { error, taken: 0 },
    }
}

/// Reads a stream of entries, and takes them as one batch.
pub(crate) fn receive<R: Replica, S: Source>(
    alloc: Global,
    site: &mut R,
    source: &mut S,
    meter: &mut Meter,
) -> Result<Taken, MeetingError>
    requires { (R.seen site.old).live ≡ true }
    ensures ok { IfOk result (λ t. (batch : List Entry) × ReadsStream (S.left source.old) (S.left source.new) batch × TakesBatch (R.seen site.old) batch t (R.seen site.new)
        × (S.failures source.new ≡ S.failures source.old)) }
    ensures err { IfErr result (λ e. Unreceived (R.seen site.old) e (S.left source.old) (S.left source.new) (S.failures source.old) (S.failures source.new) (R.seen site.new)) }
    ensures beside { Keeps (S.beside source.old) (S.beside source.new) }
    ensures journal { result ≡ Err (meeting_error.Take take_error.JournalWrite) → R.failed site.old site.new }
    ensures journaled { R.journaled site.old → R.journaled site.new }
{
    let (batch, ending) = read_entries(alloc, source, Version::Second, MOST_ENTRIES);
    match ending {
        Ok(()) => take_all(alloc, site, batch.as_slice(), meter),
        Err(error) => Err(stopped(alloc, site, batch.as_slice(), error, meter)),
    }
}
