//! The other site's greeting, read and judged.

ghost use Rattle.std.specs.Prelude.{◌≡◌, IfErr, IfOk};
ghost use Rattle.std.specs.Io.KnownBytes.{Keeps};
ghost use Rattle.td_meeting.specs.ForProofs.Parts as proofs;
ghost use Rattle.td_meeting.specs.Reading.{Hears, Unheard};

use crate::error::MeetingError;
use std::alloc::Global;
use td_frames::{FrameError, Greeting, read_greeting};
use td_io::Source;
use td_replica::Replica;

// Why a greeting cannot be read, or that memory is wanting.
fn unread(error: FrameError) -> MeetingError
    ensures { result ≡ proofs.unread error }
{
    match error {
        FrameError::OutOfMemory => MeetingError::OutOfMemory,
        error => MeetingError::Frame { error, taken: 0 },
    }
}

/// Reads the greeting of another site of the same script. It takes room for its script and its version vector.
pub fn hear<R: Replica, S: Source>(
    alloc: Global,
    site: &R,
    source: &mut S,
) -> Result<Greeting, MeetingError>
    ensures heard { IfOk result (λ g. Hears (R.seen site.now) (S.left source.old) (S.left source.new) g × (S.failures source.new ≡ S.failures source.old)) }
    ensures unheard { IfErr result (λ e. Unheard (R.seen site.now) e (S.left source.old) (S.left source.new) (S.failures source.old) (S.failures source.new)) }
    ensures beside { Keeps (S.beside source.old) (S.beside source.new) }
{
    let greeting = match read_greeting(alloc, source) {
        Ok(greeting) => greeting,
        Err(error) => return Err(unread(error)),
    };
    if greeting.script.as_str() != site.script() {
        return Err(MeetingError::OtherScript);
    }
    if greeting.site == site.site() {
        return Err(MeetingError::SameSite);
    }
    Ok(greeting)
}
