//! What each step of a meeting writes, and how often it flushes.

use crate::entries::{SCRIPT, Written, batch};
use crate::flushed::Flushed;
use std::alloc::{AllocError, Global};
use std::test::Fail;
use td_io::{Device, Pair};
use td_meeting::{answer, finish, greet, settle};
use td_replay::Site;
use td_replica::{Opens, Replica};
use td_semantics::Meter;

#[derive(Clone, Copy)]
enum Step {
    Greet,
    Answer,
    Settle,
    Finish,
}

/// A step of a site that holds these entries: the bytes that it reads, and those that it is to write, by one flush.
struct Case {
    site: u16,
    held: &'static [Written<'static>],
    step: Step,
    given: &'static [u8],
    written: &'static [u8],
}

/// What the second site holds.
const TWO: &[Written] = &[(2, 1, 5, "DELETE R;"), (2, 2, 6, "DELETE R;")];

/// What site 1 greets with, which holds nothing.
const GREETING: &[u8] =
    b"HTDB\x02\x00\x01\x00\x00\x00\x2cVAR R BASE RELATION { A INTEGER } KEY { A };\x00\x00";

/// What site 2 answers: a greeting of 63 bytes, two frames of 27, and the end.
const ANSWER: &[u8] =
    b"HTDB\x02\x00\x02\x00\x00\x00\x2cVAR R BASE RELATION { A INTEGER } KEY { A };\x00\x01\x00\x02\x00\x00\x00\x02\
E\x00\x02\x00\x00\x00\x01\x00\x00\x00\x00\x00\x00\x00\x05\x02\x00\x09DELETE R;\
E\x00\x02\x00\x00\x00\x02\x00\x00\x00\x00\x00\x00\x00\x06\x02\x00\x09DELETE R;Z";

/// What site 1 greets with, which holds the first of these entries.
const GREETING_WITH_ONE: &[u8] =
    b"HTDB\x02\x00\x01\x00\x00\x00\x2cVAR R BASE RELATION { A INTEGER } KEY { A };\x00\x01\x00\x02\x00\x00\x00\x01";

/// What site 2 answers to that.
const ANSWER_WITH_ONE: &[u8] =
    b"HTDB\x02\x00\x02\x00\x00\x00\x2cVAR R BASE RELATION { A INTEGER } KEY { A };\x00\x01\x00\x02\x00\x00\x00\x02\
E\x00\x02\x00\x00\x00\x02\x00\x00\x00\x00\x00\x00\x00\x06\x02\x00\x09DELETE R;Z";

/// An entry of site 1, and the end.
const OWN_ENTRY: &[u8] =
    b"E\x00\x01\x00\x00\x00\x01\x00\x00\x00\x00\x00\x00\x00\x03\x02\x00\x09DELETE R;Z";

const CASES: &[Case] = &[
    Case {
        site: 1,
        held: &[],
        step: Step::Greet,
        given: b"",
        written: GREETING,
    },
    Case {
        site: 2,
        held: TWO,
        step: Step::Answer,
        given: GREETING,
        written: ANSWER,
    },
    Case {
        site: 1,
        held: &[],
        step: Step::Settle,
        given: ANSWER,
        written: b"Z",
    },
    Case {
        site: 2,
        held: TWO,
        step: Step::Finish,
        given: b"Z",
        written: b"",
    },
    // the first site has an entry of the second's, or one of its own
    Case {
        site: 1,
        held: &[(2, 1, 5, "DELETE R;")],
        step: Step::Greet,
        given: b"",
        written: GREETING_WITH_ONE,
    },
    Case {
        site: 2,
        held: TWO,
        step: Step::Answer,
        given: GREETING_WITH_ONE,
        written: ANSWER_WITH_ONE,
    },
    Case {
        site: 1,
        held: &[(1, 1, 3, "DELETE R;"), (2, 1, 5, "DELETE R;")],
        step: Step::Settle,
        given: ANSWER,
        written: OWN_ENTRY,
    },
    Case {
        site: 2,
        held: TWO,
        step: Step::Finish,
        given: OWN_ENTRY,
        written: b"",
    },
];

// Whether the site makes the step.
fn goes<R: Replica>(
    alloc: Global,
    site: &mut R,
    meter: &mut Meter,
    case: &Case,
    writer: &mut Flushed,
) -> bool {
    let mut link = Device::link(Pair {
        reader: case.given,
        writer,
    });
    match case.step {
        Step::Greet => greet(alloc, site, &mut link).is_ok(),
        Step::Answer => answer(alloc, site, &mut link).is_ok(),
        Step::Settle => settle(alloc, site, &mut link, meter).is_ok(),
        Step::Finish => finish(alloc, site, &mut link, meter).is_ok(),
    }
}

// Whether a site goes as the case has it.
fn is_met<O: Opens + Drop>(
    alloc: Global,
    meter: &mut Meter,
    case: &Case,
) -> Result<bool, AllocError> {
    let batch = batch(alloc, case.held)?;
    let mut writer = Flushed::new(alloc, 1_000);
    let Ok(mut site) = O::open_script(alloc, SCRIPT, case.site, 10_000) else {
        return Ok(false);
    };
    let goes = site.take(alloc, &batch, meter).is_ok()
        && goes(alloc, &mut site, meter, case, &mut writer);
    Ok(goes && writer.has(case.written, usize::from(!case.written.is_empty())))
}

#[test]
fn a_step_that_writes_flushes_once(rt: HostRuntime) -> Result<(), Fail> {
    let mut meter = Meter::new(&rt);
    for (n, case) in CASES.iter().enumerate() {
        let is_met = is_met::<Site>(rt.alloc(), &mut meter, case)?;
        assert!(rt; is_met, "{n}");
    }
    Ok(())
}
