//! How many statements a late entry makes a site run.

use crate::entries::{Written, batch};
use std::alloc::{AllocError, Global};
use std::test::Fail;
use td_replay::{PlainSite, Site};
use td_replica::{Opens, Replica};
use td_semantics::Meter;

const SCRIPT: &str = "
VAR S BASE RELATION { SNO CHAR, STATUS INTEGER, CITY CHAR } KEY { SNO };
VAR SP BASE RELATION { SNO CHAR, PNO CHAR, QTY INTEGER } KEY { SNO, PNO };
VAR LS VIRTUAL ( S WHERE CITY = 'London' );
CONSTRAINT C1 IS_EMPTY ( SP NOT MATCHING S );
CONSTRAINT C2 IS_EMPTY ( LS WHERE STATUS < 10 );
VAR MOST BASE RELATION { N INTEGER } KEY { };
CONSTRAINT C3 IS_EMPTY ( MOST WHERE N < COUNT ( LS ) );
";

// The text of a late entry, and how many statements it makes a site run.
type Counted = (&'static str, u64);

// What the site holds before the late entry, whose clock is 2.
const HELD: &[Written] = &[
    (
        1,
        1,
        1,
        "INSERT S RELATION { TUPLE { SNO 'S1', STATUS 20, CITY 'London' } };",
    ),
    (
        1,
        2,
        3,
        "INSERT SP RELATION { TUPLE { SNO 'S1', PNO 'P1', QTY 200 } };",
    ),
    (1, 3, 4, "MOST := RELATION { TUPLE { N 5 } };"),
];

// A site runs a late statement and those that it can touch. An INSERT with another key touches none.
const LATE: &[Counted] = &[
    ("DELETE MOST;", 2),
    (
        "INSERT SP RELATION { TUPLE { SNO 'S1', PNO 'P2', QTY 100 } };",
        1,
    ),
    (
        "INSERT SP RELATION { TUPLE { SNO 'S1', PNO 'P1', QTY 100 } };",
        2,
    ),
    ("UPDATE S ( STATUS := 30 );", 3),
    ("INSERT Q X;", 1),
];

// A relvar that refers to another one, and what a site holds: a tuple that is referred to, one that refers to it, and
// one to which nothing refers yet.
const REFERRING_SCRIPT: &str = "
VAR S BASE RELATION { SNO CHAR, STATUS INTEGER } KEY { SNO };
VAR SP BASE RELATION { SNO CHAR, PNO CHAR } KEY { SNO, PNO };
CONSTRAINT C1 IS_EMPTY ( SP NOT MATCHING S );
CONSTRAINT C2 IS_EMPTY ( S WHERE STATUS < 0 );
";

const REFERRING: &[Written] = &[
    (
        1,
        1,
        1,
        "INSERT S RELATION { TUPLE { SNO 'S1', STATUS 20 } };",
    ),
    (
        1,
        2,
        3,
        "INSERT SP RELATION { TUPLE { SNO 'S1', PNO 'P1' } };",
    ),
    (
        1,
        3,
        4,
        "INSERT S RELATION { TUPLE { SNO 'S3', STATUS 30 } };",
    ),
];

// An INSERT touches one into a relvar that refers to its own, or to which its own refers, where one tuple refers to the
// other.
const LATE_REFERENCES: &[Counted] = &[
    ("INSERT S RELATION { TUPLE { SNO 'S2', STATUS 10 } };", 1),
    ("INSERT S RELATION { TUPLE { SNO 'S1', STATUS 10 } };", 2),
    ("INSERT SP RELATION { TUPLE { SNO 'S1', PNO 'P2' } };", 1),
    ("INSERT SP RELATION { TUPLE { SNO 'S3', PNO 'P1' } };", 2),
    ("DELETE S WHERE SNO = 'S2';", 3),
];

// The second INSERT is refused, since it breaks the key.
const REFUSED: &[Written] = &[
    (
        1,
        1,
        1,
        "INSERT S RELATION { TUPLE { SNO 'S1', STATUS 20 } };",
    ),
    (
        1,
        2,
        3,
        "INSERT S RELATION { TUPLE { SNO 'S1', STATUS 30 } };",
    ),
    (
        1,
        3,
        4,
        "INSERT S RELATION { TUPLE { SNO 'S3', STATUS 30 } };",
    ),
];

// A refused INSERT is touched as others are: where it has the key, or refers or is referred to.
const LATE_BEFORE_REFUSED: &[Counted] = &[
    ("INSERT S RELATION { TUPLE { SNO 'S2', STATUS 10 } };", 1),
    ("INSERT S RELATION { TUPLE { SNO 'S1', STATUS 10 } };", 2),
    ("INSERT SP RELATION { TUPLE { SNO 'S1', PNO 'P1' } };", 2),
    ("DELETE S WHERE SNO = 'S2';", 3),
];

// How many statements a new site runs that takes these entries and then a late one; none where it refuses one.
fn runs_of<O: Opens + Drop>(
    alloc: Global,
    meter: &mut Meter,
    script: &str,
    held: &[Written],
    late: &str,
) -> Result<u64, AllocError> {
    let first = batch(alloc, held)?;
    let second = batch(alloc, &[(2, 1, 2, late)])?;
    let Ok(mut site) = O::open_script(alloc, script, 3, 10_000) else {
        return Ok(0);
    };
    let is_held = site.take(alloc, &first, meter).is_ok();
    let before = meter.count();
    if !is_held || site.take(alloc, &second, meter).is_err() {
        return Ok(0);
    }
    Ok(meter.count().saturating_sub(before))
}

// The first late statement for which the counts are not as expected: its text, how many a site runs, and how many one
// runs that runs all four anew. Nothing where all are.
fn first_unlike(
    rt: &HostRuntime,
    script: &str,
    held: &[Written],
    late: &[Counted],
) -> Result<String, AllocError> {
    let mut meter = Meter::new(rt);
    for (text, wanted) in late {
        let found = runs_of::<Site>(rt.alloc(), &mut meter, script, held, text)?;
        let all = runs_of::<PlainSite>(rt.alloc(), &mut meter, script, held, text)?;
        if found != *wanted || all != 4 {
            return format!(in rt.alloc(); "{text} {found} {all}");
        }
    }
    Ok(String::new(rt.alloc()))
}

#[test]
fn late_statements_run_what_they_touch(rt: HostRuntime) -> Result<(), Fail> {
    let unlike = first_unlike(&rt, SCRIPT, HELD, LATE)?;
    assert!(rt; unlike.is_empty(), "{unlike}");
    Ok(())
}

#[test]
fn late_insertions_run_what_refers_to_them(rt: HostRuntime) -> Result<(), Fail> {
    let unlike = first_unlike(&rt, REFERRING_SCRIPT, REFERRING, LATE_REFERENCES)?;
    assert!(rt; unlike.is_empty(), "{unlike}");
    Ok(())
}

#[test]
fn late_insertions_pass_refused_ones(rt: HostRuntime) -> Result<(), Fail> {
    let unlike = first_unlike(&rt, REFERRING_SCRIPT, REFUSED, LATE_BEFORE_REFUSED)?;
    assert!(rt; unlike.is_empty(), "{unlike}");
    Ok(())
}
