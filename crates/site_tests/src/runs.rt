//! How often a whole run flushes, and before what.

use crate::flushed::Flushed;
use std::alloc::Global;
use std::io::BufReader;
use std::test::Fail;
use td_answers::NoLinks;
use td_io::{Device, Source};
use td_replay::Site;
use td_replica::Opens;
use td_semantics::Meter;
use td_workbench::{Ended, Options, run_program};

/// Two sites insert apart and meet.
const TWO_SITES_MEET: &str =
    "VAR S BASE RELATION { SNO CHAR, STATUS INTEGER, CITY CHAR } KEY { SNO };
.begin
1: INSERT S RELATION { TUPLE { SNO 'S1', STATUS 20, CITY 'London' } };
2: INSERT S RELATION { TUPLE { SNO 'S2', STATUS 10, CITY 'Paris' } };
.meet 1 2
.listing 1
.listing 2
.csv 1 S
.vector 1
.quit
";

/// The sites 1 and 2.
const TWO: Options = Options {
    sites: 2,
    first: 1,
    limit: 10_000,
};

/// How much is written where each flush comes: for `ready`, before each of the eight lines behind `.begin`, and in the
/// end.
const FLUSHES: &[usize] = &[8, 8, 17, 26, 44, 151, 258, 299, 314, 314];

// How the run of two sites that meet ends, read from this source and written to this writer.
fn run_meeting<O: Opens + Drop, S: Source>(
    rt: &HostRuntime,
    source: &mut S,
    writer: &mut Flushed,
) -> Result<bool, Ended> {
    let mut meter = Meter::new(rt);
    run_program::<O, _, _, _>(
        rt.alloc(),
        &TWO,
        &mut NoLinks,
        &mut meter,
        source,
        &mut Device::new(writer),
    )
}

// How the run ends where so many flushes are let through, with the flushes and bytes that came through.
fn run_with_flushes(rt: &HostRuntime, most_flushes: usize) -> (Result<bool, Ended>, usize, usize) {
    let mut writer = Flushed::new(rt.alloc(), 1_000);
    writer.most_flushes = most_flushes;
    let mut source = Device::new(TWO_SITES_MEET.as_bytes());
    let end = run_meeting::<Site, _>(rt, &mut source, &mut writer);
    (end, writer.flushes, writer.taken.len())
}

// Each answer is flushed before a line that would be waited for: where a flush fails, the run ends.
#[test]
fn each_answer_is_flushed(rt: HostRuntime) {
    for (at, written) in FLUSHES.iter().enumerate() {
        assert!(rt;
            run_with_flushes(&rt, at) == (Err(Ended::WriteFault), at, *written),
            "{at}"
        );
    }
    assert!(rt; run_with_flushes(&rt, 100) == (Ok(true), 10, 314));
}

// The flushes of two sites that meet, by a reader whose buffer has so many bytes.
fn flushes_by(rt: &HostRuntime, capacity: usize) -> Result<usize, Fail> {
    let bytes = TWO_SITES_MEET.as_bytes();
    let mut source = Device::buffered(BufReader::with_capacity(rt.alloc(), capacity, bytes)?);
    let mut writer = Flushed::new(rt.alloc(), 1_000);
    let _end = run_meeting::<Site, _>(rt, &mut source, &mut writer).is_ok();
    Ok(writer.flushes)
}

// No flush comes before a line that stands in the buffer as a whole and begins with no dot, as those of both INSERTs.
#[test]
fn an_answer_waits_for_the_next_line_that_is_there(rt: HostRuntime) -> Result<(), Fail> {
    for (capacity, wanted) in [(1_000, 8), (151 + 70, 8), (151 + 69, 9)] {
        let flushes = flushes_by(&rt, capacity)?;
        assert!(rt; flushes == wanted, "{capacity}: {flushes}");
    }
    Ok(())
}
