//! Meetings of two sites.

ghost use Rattle.std.specs.Prelude.{◌≡◌, ◌≢◌, ◌<◌, Err, codes, length, map};
ghost use Rattle.td_answers.specs.Faults as spec;
ghost use Rattle.td_answers.specs.Sites.{EachStays, HappensToOne};
ghost use Rattle.td_meeting.specs.declared.error.MeetingError.TheVariants as meeting_error;
ghost use Rattle.td_meeting.specs.declared.meeting.MeetingRefusal.{MeetingRefusal};
ghost use Rattle.td_replica.specs.declared.refusal.TakeError.TheVariants as take_error;
ghost use Rattle.td_answers.specs.ForProofs.Drawn.{IsUnmet, MeetsAt, TellsMetAt};
ghost use Rattle.td_answers.specs.ForProofs.Said.{IsBlank, Says};

use crate::reply::Reply;
use crate::writing::{blank_line, clash_line, counted_line, met_line};
use std::alloc::Global;
use td_frames::FrameError;
use td_meeting::{MeetingError, MeetingRefusal, Met, judge, meet};
use td_replica::{Replica, TakeError};
use td_semantics::Meter;

// Why two sites may not meet, which is found without memory.
fn unmet_fault(error: MeetingError) -> &'static str
    requires { IsUnmet error }
    ensures { result.now ≡ spec.meeting_fault error }
{
    match error {
        MeetingError::Broken => "fault broken\n",
        MeetingError::OtherScript => "fault script\n",
        MeetingError::SameSite => "fault same site\n",
        _ => unreachable!(),
    }
}

// A meeting of the sites at two places.
fn meeting<R: Replica>(
    alloc: Global,
    sites: &mut [R],
    first: usize,
    second: usize,
    meter: &mut Meter,
) -> Result<Met, MeetingRefusal>
    requires first { first < length sites.old }
    requires second { second < length sites.old }
    requires two { first ≢ second }
    ensures meets { MeetsAt (map R.seen sites.old) first second result (map R.seen sites.new) }
    ensures journal { (r : MeetingRefusal) → result ≡ Err r → r.error ≡ meeting_error.Take take_error.JournalWrite → HappensToOne R.failed sites.old sites.new }
    ensures journaled { EachStays R.journaled sites.old sites.new }
{
    if first < second {
        let (front, back) = sites.split_at_mut(second);
        meet(alloc, &mut front[first], &mut back[0], meter)
    } else {
        let (front, back) = sites.split_at_mut(first);
        meet(alloc, &mut back[0], &mut front[second], meter)
    }
}

// The line that tells why a site took no entries; only that of a clash is written into the room.
fn take_fault(line: String, error: TakeError) -> Reply
    requires { IsBlank line }
    ensures { Says (λ words. words ≡ spec.take_fault error) result }
{
    match error {
        TakeError::Broken => Reply::Fixed("fault broken\n"),
        TakeError::BadEntry => Reply::Fixed("fault entry\n"),
        TakeError::Clash { site, seq } => Reply::Text(clash_line(line, site, seq)),
        TakeError::Full => Reply::Fixed("fault full\n"),
        TakeError::OutOfMemory => Reply::Fixed("fault memory\n"),
        TakeError::JournalWrite => Reply::Fixed("fault journal\n"),
    }
}

// The line that tells why a frame was not read, before which so many fresh entries were taken.
fn frame_fault(line: String, error: FrameError, taken: usize) -> Reply
    requires { IsBlank line }
    ensures { Says (λ words. words ≡ spec.frame_fault error taken) result }
{
    match error {
        FrameError::OutOfMemory => Reply::Fixed("fault memory\n"),
        FrameError::ReadFault => Reply::Text(counted_line(line, "read", taken)),
        FrameError::Cut => Reply::Text(counted_line(line, "cut", taken)),
        FrameError::Magic => Reply::Fixed("fault magic\n"),
        FrameError::Version => Reply::Fixed("fault version\n"),
        FrameError::BadFrame => Reply::Fixed("fault frame\n"),
    }
}

/// The line of a meeting that stopped.
pub(crate) fn meeting_fault(line: String, error: MeetingError) -> Reply
    requires { IsBlank line }
    ensures { Says (λ words. words ≡ spec.meeting_fault error) result }
{
    match error {
        MeetingError::Broken => Reply::Fixed("fault broken\n"),
        MeetingError::OutOfMemory => Reply::Fixed("fault memory\n"),
        MeetingError::Frame { error, taken } => frame_fault(line, error, taken),
        MeetingError::OtherScript => Reply::Fixed("fault script\n"),
        MeetingError::SameSite => Reply::Fixed("fault same site\n"),
        MeetingError::WriteFault { taken } => Reply::Text(counted_line(line, "write", taken)),
        MeetingError::Take(error) => take_fault(line, error),
    }
}

/// A meeting of the sites at two places, which have these numbers. The room for its line is taken first.
pub(crate) fn meet_at<R: Replica>(
    alloc: Global,
    sites: &mut [R],
    numbers: (u32, u32),
    first: usize,
    second: usize,
    meter: &mut Meter,
) -> Reply
    requires first { first < length sites.old }
    requires second { second < length sites.old }
    requires two { first ≢ second }
    ensures answered { Says (λ words. TellsMetAt numbers (map R.seen sites.old) first second words (map R.seen sites.new)) result }
    ensures journal { Says (λ text. text ≡ codes "fault journal\n" → HappensToOne R.failed sites.old sites.new) result }
    ensures journaled { EachStays R.journaled sites.old sites.new }
{
    match judge(&sites[first], &sites[second]) {
        Ok(()) => {}
        Err(error) => return Reply::Fixed(unmet_fault(error)),
    }
    let Some(line) = blank_line(alloc) else {
        return Reply::Fixed("fault memory\n");
    };
    match meeting(alloc, sites, first, second, meter) {
        Ok(met) => Reply::Text(met_line(line, numbers, met)),
        Err(refusal) => meeting_fault(line, refusal.error),
    }
}
