//! Texts of a site that are written to a writer of one's own: each is flushed once.

use crate::flushed::Flushed;
use std::alloc::Global;
use td_io::Device;
use td_listings::{export, listing};
use td_replay::Site;
use td_replica::{Catalogued, Opens, Replica};
use td_semantics::Meter;

const SCRIPT: &str = "VAR S BASE RELATION { SNO CHAR, STATUS INTEGER, CITY CHAR } KEY { SNO };";

const STATEMENT: &str =
    "INSERT S RELATION { TUPLE { SNO 'S1', STATUS 20, CITY 'London' }, TUPLE { SNO 'S2', STATUS 10, CITY 'Paris' } };";

const LISTING: &str = "relvar S 2
TUPLE { CITY 'London', SNO 'S1', STATUS 20 }
TUPLE { CITY 'Paris', SNO 'S2', STATUS 10 }
held 1
";

const TABLE: &str = "CITY,SNO,STATUS
London,S1,20
Paris,S2,10
";

// Whether the site writes its listing and its table, each by one flush, and nothing of a relvar that is not there.
fn writes<R: Catalogued>(alloc: Global, site: &R) -> bool {
    let mut listed = Flushed::new(alloc, 1_000);
    let mut exported = Flushed::new(alloc, 1_000);
    listing(alloc, site, &mut Device::new(&mut listed)).is_ok()
        && export(alloc, site, "T", &mut Device::new(&mut exported)).is_err()
        && export(alloc, site, "S", &mut Device::new(&mut exported)).is_ok()
        && listed.has(LISTING.as_bytes(), 1)
        && exported.has(TABLE.as_bytes(), 1)
}

// Whether a site of the script writes so behind the statement.
fn writes_behind<O: Opens + Catalogued + Drop>(rt: &HostRuntime) -> bool {
    let mut meter = Meter::new(rt);
    match O::open_script(rt.alloc(), SCRIPT, 1, 10) {
        Ok(mut site) => {
            site.issue(rt.alloc(), STATEMENT, &mut meter).is_ok() && writes(rt.alloc(), &site)
        }
        Err(_) => false,
    }
}

#[test]
fn texts_are_written_and_flushed_once(rt: HostRuntime) {
    assert!(rt; writes_behind::<Site>(&rt));
}
