//! The entries that the other site sent, read and taken.

ghost use Rattle.std.specs.Prelude.{◌≡◌, Err, List, true, IfErr, IfOk};
ghost use Rattle.td_stamps.specs.declared.entry.Entry.{Entry as EntryData};
ghost use Rattle.td_meeting.specs.Reading.{ReadsStream};
ghost use Rattle.td_meeting.specs.declared.error.MeetingError.TheVariants as meeting_error;
ghost use Rattle.td_replica.specs.declared.refusal.TakeError.TheVariants as take_error;
ghost use Rattle.td_checked_meetings.specs.Steps.{NotReceived, Receives};
ghost use Rattle.td_checked_meetings.specs.ForProofs as proofs;

use crate::scope::MeetingScope;
use crate::sifting::{Beyond, Sifted, sift};
use std::alloc::Global;
use td_frames::{FrameError, MOST_ENTRIES, Version, read_entries};
use td_io::Source;
use td_meeting::MeetingError;
use td_replica::{Replica, TakeError, Taken};
use td_semantics::Meter;
use td_stamps::Entry;

/// What came of the entries that another site sent.
#[derive(Clone, Copy)]
pub struct Received {
    pub taken: Taken,
    /// How many were of sites that are left out, and were not taken: the other site should not have sent them.
    pub dropped: usize,
    /// The first one that was beyond a gap: it was not taken.
    pub beyond: Option<Beyond>,
}

// Why an open site does not take a batch.
fn not_taken(error: TakeError) -> MeetingError
    ensures { result ≡ proofs.not_taken error }
{
    match error {
        TakeError::Broken => MeetingError::Broken,
        TakeError::OutOfMemory => MeetingError::OutOfMemory,
        error => MeetingError::Take(error),
    }
}

// What an open site may take of a batch.
fn sift_batch<R: Replica>(
    alloc: Global,
    site: &R,
    scope: &MeetingScope,
    batch: Vec<Entry>,
) -> Result<Sifted, MeetingError>
    requires { (R.seen site.now).live ≡ true }
    ensures ok { IfOk result (λ x. proofs.IsSifted (R.seen site.now) scope.now batch.items x) }
    ensures err { IfErr result (λ e. e ≡ meeting_error.OutOfMemory) }
{
    let Ok(held) = site.held() else {
        unreachable!();
    };
    let Ok(vector) = held.vector(alloc) else {
        return Err(MeetingError::OutOfMemory);
    };
    match sift(alloc, scope, &vector, batch) {
        Ok(sifted) => Ok(sifted),
        Err(_) => Err(MeetingError::OutOfMemory),
    }
}

// Has an open site take what it may of a batch.
fn take_sifted<R: Replica>(
    alloc: Global,
    site: &mut R,
    scope: &MeetingScope,
    batch: Vec<Entry>,
    meter: &mut Meter,
) -> Result<Received, MeetingError>
    requires { (R.seen site.old).live ≡ true }
    ensures ok { IfOk result (λ r. Receives (R.seen site.old) scope.now batch.items r (R.seen site.new)) }
    ensures err { IfErr result (λ e. proofs.NotTaken (R.seen site.old) scope.now batch.items e (R.seen site.new)) }
    ensures journal { result ≡ Err (meeting_error.Take take_error.JournalWrite) → R.failed site.old site.new }
    ensures journaled { R.journaled site.old → R.journaled site.new }
{
    let Sifted {
        entries,
        dropped,
        beyond,
    } = match sift_batch(alloc, site, scope, batch) {
        Ok(sifted) => sifted,
        Err(error) => return Err(error),
    };
    match site.take(alloc, &entries, meter) {
        Ok(taken) => Ok(Received {
            taken,
            dropped,
            beyond,
        }),
        Err(error) => Err(not_taken(error)),
    }
}

// Takes what was read before a stream was cut or its reader failed.
fn take_prefix<R: Replica>(
    alloc: Global,
    site: &mut R,
    scope: &MeetingScope,
    batch: Vec<Entry>,
    error: FrameError,
    meter: &mut Meter,
) -> MeetingError
    requires { (R.seen site.old).live ≡ true }
    ensures cut { proofs.TakesPrefix (R.seen site.old) scope.now batch.items error result (R.seen site.new) }
    ensures journal { result ≡ meeting_error.Take take_error.JournalWrite → R.failed site.old site.new }
    ensures journaled { R.journaled site.old → R.journaled site.new }
{
    match take_sifted(alloc, site, scope, batch, meter) {
        Ok(received) => MeetingError::Frame {
            error,
            taken: received.taken.fresh,
        },
        Err(error) => error,
    }
}

// Why a meeting stops at an error of the stream. If the stream was cut or not read, the site takes the batch first.
fn stopped<R: Replica>(
    alloc: Global,
    site: &mut R,
    scope: &MeetingScope,
    batch: Vec<Entry>,
    error: FrameError,
    meter: &mut Meter,
) -> MeetingError
    requires { (R.seen site.old).live ≡ true }
    ensures stops { proofs.StopsAt (R.seen site.old) scope.now batch.items error result (R.seen site.new) }
    ensures journal { result ≡ meeting_error.Take take_error.JournalWrite → R.failed site.old site.new }
    ensures journaled { R.journaled site.old → R.journaled site.new }
{
    match error {
        FrameError::OutOfMemory => MeetingError::OutOfMemory,
        FrameError::ReadFault => {
            take_prefix(alloc, site, scope, batch, FrameError::ReadFault, meter)
        }
        FrameError::Cut => take_prefix(alloc, site, scope, batch, FrameError::Cut, meter),
        error => MeetingError::Frame { error, taken: 0 },
    }
}

/// Reads a stream of entries, and takes what it may of them as one batch.
pub(crate) fn receive<R: Replica, S: Source>(
    alloc: Global,
    site: &mut R,
    scope: &MeetingScope,
    source: &mut S,
    meter: &mut Meter,
) -> Result<Received, MeetingError>
    requires { (R.seen site.old).live ≡ true }
    ensures ok { IfOk result (λ r. (batch : List EntryData) × ReadsStream (S.left source.old) (S.left source.new) batch × Receives (R.seen site.old) scope.now batch r (R.seen site.new)) }
    ensures err { IfErr result (λ e. NotReceived (R.seen site.old) scope.now (S.left source.old) (S.left source.new) e (R.seen site.new)) }
    ensures journal { result ≡ Err (meeting_error.Take take_error.JournalWrite) → R.failed site.old site.new }
    ensures journaled { R.journaled site.old → R.journaled site.new }
{
    let (batch, ending) = read_entries(alloc, source, Version::Second, MOST_ENTRIES);
    match ending {
        Ok(()) => take_sifted(alloc, site, scope, batch, meter),
        Err(error) => Err(stopped(alloc, site, scope, batch, error, meter)),
    }
}
