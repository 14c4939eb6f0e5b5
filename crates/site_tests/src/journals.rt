//! How often a journal is flushed.

use crate::entries::{SCRIPT, batch};
use crate::flushed::Flushed;
use std::alloc::{AllocError, Global};
use std::test::Fail;
use td_io::Device;
use td_journal::Keeper;
use td_replay::Site;
use td_replica::{Opens, Replica};
use td_semantics::Meter;

// The flushes of a journal with room for so many bytes: one for its header of 55 bytes, then one for a statement, and
// one for a batch that has this statement and another one, of 27 bytes each. Where a write fails nothing is flushed.
const FLUSHES: &[(usize, usize)] = &[
    (54, 0),
    (55, 1),
    (81, 1),
    (82, 2),
    (108, 2),
    (109, 3),
    (1_000, 3),
];

// Has a site issue its first statement and take it once more, with a second one, over a journal in this writer.
fn write_journal<O: Opens + Drop>(
    alloc: Global,
    meter: &mut Meter,
    writer: &mut Flushed,
) -> Result<(), AllocError> {
    let batch = batch(alloc, &[(2, 1, 1, "DELETE R;"), (2, 2, 6, "DELETE R;")])?;
    let Ok(site) = O::open_script(alloc, SCRIPT, 2, 10_000) else {
        return Err(AllocError);
    };
    if let Ok(mut keeper) = Keeper::start(site, Device::new(writer)) {
        let _is_issued = keeper.issue(alloc, "DELETE R;", meter).is_ok();
        let _is_taken = keeper.take(alloc, &batch, meter).is_ok();
        let _is_known = keeper.take(alloc, &batch, meter).is_ok();
    }
    Ok(())
}

#[test]
fn a_journal_is_flushed_once_for_what_is_accepted(rt: HostRuntime) -> Result<(), Fail> {
    let mut meter = Meter::new(&rt);
    for (room, wanted) in FLUSHES {
        let mut writer = Flushed::new(rt.alloc(), *room);
        write_journal::<Site>(rt.alloc(), &mut meter, &mut writer)?;
        let flushes = writer.flushes;
        drop(writer);
        assert!(rt; flushes == *wanted, "{room}: {flushes}");
    }
    Ok(())
}
