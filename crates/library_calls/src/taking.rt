//! How long a site's set of entries takes a batch, outside any rerun: `prepare` and `commit`.
//!
//! For 1,000 and for 10,000 entries, half of them held and half of them in the batch, with one clock for each two,
//! standard error has the two times with their ratio. Standard output has how many entries are held then.

ghost use Rattle.std.specs.Prelude.{◌≡◌, IfOk, length};

use crate::turns::{Turn, least_time};
use anyhow::Result;
use std::alloc::{AllocError, Global};
use std::time::Instant;
use td_stamps::{Entry, Held};
use td_values::Text;

/// How often each size is timed.
const TURNS: u32 = 20;

/// The limit of the program's sites.
const LIMIT: usize = 10_000;

/// The text of each entry.
const STATEMENT: &str = "INSERT S RELATION { TUPLE { SNO 'S1', STATUS 20, CITY 'London' } };";

// So many entries of a site, at the clocks from 1 on.
fn entries_of(alloc: Global, site: u16, count: u32) -> Result<Vec<Entry>, AllocError>
    ensures { IfOk result (λ entries. length entries.items ≡ count) }
{
    let text = Text::from_str(alloc, STATEMENT)?;
    let mut entries = Vec::new(alloc);
    for before in 0..count {
        let seq = before + 1;
        entries.push(Entry {
            site,
            seq,
            clock: u64::from(seq),
            dialect: 2,
            text: text.copy()?,
        })?;
    }
    Ok(entries)
}

/// A site that holds so many entries takes as many of another one.
struct Taking {
    count: u32,
}

impl Turn for Taking {
    // What is given is how many it holds then.
    fn take(&self, rt: &HostRuntime) -> Result<(u128, usize)> {
        let alloc = rt.alloc();
        let mut held = Held::new(alloc, LIMIT);
        let own = held.prepare(alloc, &entries_of(alloc, 1, self.count)?)?;
        held.commit(own);
        let batch = entries_of(alloc, 2, self.count)?;
        let start = Instant::now(rt)?;
        let prepared = held.prepare(alloc, &batch)?;
        held.commit(prepared);
        Ok((start.elapsed(rt)?.as_nanos(), held.len()))
    }
}

pub fn run(rt: &HostRuntime) -> Result<()> {
    let (small, few) = least_time(rt, TURNS, &Taking { count: 500 })?;
    let (large, many) = least_time(rt, TURNS, &Taking { count: 5_000 })?;
    let tenths = if small == 0 {
        0
    } else {
        large.saturating_mul(10) / small
    };
    println!(rt; "held {few}\nheld {many}")?;
    eprintln!(rt;
        "take of {few}: {} us, of {many}: {} us, ratio {}.{}",
        small / 1_000,
        large / 1_000,
        tenths / 10,
        tenths % 10
    )?;
    Ok(())
}
