//! Sites that are opened, filled, begin journals, and come back from them.

use super::MOST_WRITTEN;
use super::examples::{SCRIPT, Written};
use super::shown::{tell_journal, tell_site};
use anyhow::{Result, bail};
use std::alloc::Global;
use td_io::Device;
use td_journal::{Keeper, reopen};
use td_replica::{Catalogued, Opens, Replica};
use td_semantics::Meter;
use td_stamps::Entry;
use td_values::Text;

/// A site of the script that holds nothing.
pub fn open_site<O: Opens + Drop>(alloc: Global, number: u16) -> Result<O> {
    match O::open_script(alloc, SCRIPT, number, 10_000) {
        Ok(site) => Ok(site),
        Err(_) => bail!("the site is not opened"),
    }
}

/// These as entries of the second dialect.
pub fn batch_of(alloc: Global, written: &[Written]) -> Result<Vec<Entry>> {
    let mut batch = Vec::new(alloc);
    for (site, seq, clock, text) in written {
        batch.push(Entry {
            site: *site,
            seq: *seq,
            clock: *clock,
            dialect: 2,
            text: Text::from_str(alloc, text)?,
        })?;
    }
    Ok(batch)
}

/// Has the site take these.
pub fn take_all<R: Replica>(
    alloc: Global,
    site: &mut R,
    written: &[Written],
    meter: &mut Meter,
) -> Result<()> {
    match site.take(alloc, &batch_of(alloc, written)?, meter) {
        Ok(_) => Ok(()),
        Err(_) => bail!("the entries are not taken"),
    }
}

/// The site behind the journal that it begins.
pub fn begin_journal<R: Replica + Drop>(
    site: R,
    journal: &mut Vec<u8>,
) -> Result<Keeper<R, Device<&mut Vec<u8>>>> {
    match Keeper::start(site, Device::new(journal)) {
        Ok(keeper) => Ok(keeper),
        Err(_) => bail!("the journal is not begun"),
    }
}

/// Begins the site's journal, which takes no memory.
pub fn start_of<R: Catalogued + Drop>(rt: &HostRuntime, site: R) -> Result<()> {
    let number = site.site();
    let mut journal = Vec::with_capacity(rt.alloc(), MOST_WRITTEN)?;
    tell_site(rt, &site)?;
    println!(rt; "call")?;
    let keeper = begin_journal(site, &mut journal)?;
    println!(rt; "answered")?;
    tell_site(rt, &keeper)?;
    drop(keeper);
    tell_journal(rt, number, &journal)
}

// Whether a site came back from the journal, which is told.
fn reopen_site<O: Opens + Catalogued + Drop>(
    rt: &HostRuntime,
    number: u16,
    journal: &[u8],
    meter: &mut Meter,
) -> Result<bool> {
    let mut source = Device::new(journal);
    match reopen::<O, _>(rt.alloc(), &mut source, SCRIPT, number, 10_000, meter) {
        Ok(back) => {
            println!(rt; "answered")?;
            tell_site(rt, &back.replica)?;
            println!(rt; "whole {}", back.whole)?;
            Ok(true)
        }
        Err(error) => {
            println!(rt; "{error}")?;
            Ok(false)
        }
    }
}

/// Has a site of this kind come back from the journal of what the site holds.
pub fn reopen_from<R: Catalogued + Drop, O: Opens + Catalogued + Drop>(
    rt: &HostRuntime,
    site: R,
    meter: &mut Meter,
) -> Result<()> {
    let number = site.site();
    let mut journal = Vec::with_capacity(rt.alloc(), MOST_WRITTEN)?;
    tell_site(rt, &site)?;
    drop(begin_journal(site, &mut journal)?);
    println!(rt; "call")?;
    if !reopen_site::<O>(rt, number, &journal, meter)? {
        println!(rt; "again")?;
        reopen_site::<O>(rt, number, &journal, meter)?;
    }
    tell_journal(rt, number, &journal)
}
