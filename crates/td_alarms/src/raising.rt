//! Alarms that are raised.

ghost use Rattle.std.specs.Prelude.{◌≡◌, ◌≤◌, length, OnOk};
ghost use Rattle.td_alarms.specs.Raising.{Raises, RaisesEach};

use crate::alarms::Alarm;
use std::alloc::AllocError;
use std::net::IpAddr;

/// The most alarms that are kept.
pub const MOST_ALARMS: usize = 64;

/// Adds an alarm at the end, unless it is there or no more are kept.
pub(crate) fn raise_one(kept: &mut Vec<Alarm>, alarm: &Alarm) -> Result<(), AllocError>
    ensures raised { OnOk result (Raises alarm.now kept.old.items kept.new.items) }
    ensures few { length kept.old.items ≤ 64 → length kept.new.items ≤ 64 }
{
    if kept.len() >= MOST_ALARMS || kept.contains(alarm) {
        return Ok(());
    }
    kept.push(*alarm)?;
    Ok(())
}

/// Adds an alarm for each of the sites.
pub(crate) fn raise_each(
    kept: &mut Vec<Alarm>,
    sites: &[u16],
    address: IpAddr,
) -> Result<(), AllocError>
    ensures raised { OnOk result (RaisesEach address sites.now kept.old.items kept.new.items) }
    ensures few { length kept.old.items ≤ 64 → length kept.new.items ≤ 64 }
{
    for at in 0..sites.len() {
        let site = sites[at];
        raise_one(kept, &Alarm { site, address })?;
    }
    Ok(())
}
