//! Calls that add entries to a site, which then holds all that it held.

ghost use Rattle.std.specs.Prelude.{◌≡◌, Err};
ghost use Rattle.td_replica.specs.Calls.{Issues, Takes};
ghost use Rattle.td_replica.specs.declared.refusal.IssueError.TheVariants as issue_error;
ghost use Rattle.td_replica.specs.declared.refusal.TakeError.TheVariants as take_error;
ghost use Rattle.td_digested_sites.specs.Growth.{StaysHeld};

use std::alloc::Global;
use td_replica::{IssueError, Issued, Replica, TakeError, Taken};
use td_semantics::Meter;
use td_stamps::Entry;

/// Issues a statement.
pub(crate) fn issue_within<R: Replica>(
    site: &mut R,
    alloc: Global,
    text: &str,
    meter: &mut Meter,
) -> Result<Issued, IssueError>
    ensures issues { Issues (R.seen site.old) text.now result (R.seen site.new) }
    ensures journal { result ≡ Err issue_error.JournalWrite → R.failed site.old site.new }
    ensures journaled { R.journaled site.old → R.journaled site.new }
    ensures grows { StaysHeld (R.seen site.old) (R.seen site.new) }
{
    // By its number, the site is sound.
    let _before = site.site();
    let issued = site.issue(alloc, text, meter);
    let _after = site.site();
    issued
}

/// Takes a batch.
pub(crate) fn take_within<R: Replica>(
    site: &mut R,
    alloc: Global,
    batch: &[Entry],
    meter: &mut Meter,
) -> Result<Taken, TakeError>
    ensures takes { Takes (R.seen site.old) batch.now result (R.seen site.new) }
    ensures journal { result ≡ Err take_error.JournalWrite → R.failed site.old site.new }
    ensures journaled { R.journaled site.old → R.journaled site.new }
    ensures grows { StaysHeld (R.seen site.old) (R.seen site.new) }
{
    let _before = site.site();
    let taken = site.take(alloc, batch, meter);
    let _after = site.site();
    taken
}
