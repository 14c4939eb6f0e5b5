//! Many sites of one script that meet at random, two at a time, until each holds what all have issued.
//!
//! The words are the number of sites, that of the statements that each issues at first, and a seed; without words 12, 3
//! and 1. Standard output has how many meetings it took, how many bytes greetings, entries and ends had, and how many
//! those entries have that must be sent in any case: each to each other site once. Standard error has the time in
//! nanoseconds.

ghost use Rattle.std.specs.Prelude.{◌<◌, length};

use anyhow::{Result, bail};
use std::alloc::Global;
use std::time::Instant;
use td_meeting::meet;
use td_replay::Site;
use td_replica::{Opens, Replica};
use td_semantics::Meter;

const SCRIPT: &str = "VAR SEEN BASE RELATION { WARD INTEGER, NO INTEGER } KEY { WARD, NO };";

/// The bytes of each statement.
const TEXT_BYTES: u64 = 56;

/// A frame has these beside its text.
const FRAME_BYTES: u64 = 17;

/// A greeting has these beside its script and six for each site.
const GREETING_BYTES: u64 = 13;

// A number below this one, which looks random and comes again with the same state.
fn below(state: &mut u64, most: u64) -> u64
    requires { 0 < most }
    ensures { result < most }
{
    *state = state
        .wrapping_mul(6_364_136_223_846_793_005)
        .wrapping_add(1_442_695_040_888_963_407);
    (*state >> 33) % most
}

// A site that has issued so many statements.
fn open_filled_site<O: Opens + Drop>(
    alloc: Global,
    site: u16,
    each: u32,
    meter: &mut Meter,
) -> Result<O> {
    let Ok(mut opened) = O::open_script(alloc, SCRIPT, site, 100_000) else {
        bail!("the site is not opened");
    };
    for no in 0..each {
        let text = format!(in alloc;
            "INSERT SEEN RELATION {{ TUPLE {{ WARD {site:05}, NO {no:05} }} }};"
        )?;
        if opened.issue(alloc, &text, meter).is_err() {
            bail!("the statement is not issued");
        }
    }
    Ok(opened)
}

// Sites with the numbers from 1 on, which have issued so many statements each.
fn open_crowd<O: Opens + Drop>(
    alloc: Global,
    sites: u16,
    each: u32,
    meter: &mut Meter,
) -> Result<Vec<O>> {
    let mut crowd = Vec::new(alloc);
    for site in 0..sites {
        crowd.push(open_filled_site(alloc, site.saturating_add(1), each, meter)?)?;
    }
    Ok(crowd)
}

// How many bytes so many of these entries have.
fn entry_bytes(count: u64) -> u64 {
    count.saturating_mul(FRAME_BYTES + TEXT_BYTES)
}

// How many bytes the site's greeting has.
fn greeting_bytes<R: Replica>(alloc: Global, site: &R) -> Result<u64> {
    let Ok(held) = site.held() else {
        bail!("the site is not open");
    };
    let known = held.vector(alloc)?.len() as u64;
    Ok(
        known
            .saturating_mul(6)
            .saturating_add(GREETING_BYTES + SCRIPT.len() as u64),
    )
}

// A meeting, and how many bytes were sent: two greetings, entries, and two ends.
fn meeting_bytes<R: Replica>(
    alloc: Global,
    first: &mut R,
    second: &mut R,
    meter: &mut Meter,
) -> Result<u64> {
    let greetings = greeting_bytes(alloc, first)?.saturating_add(greeting_bytes(alloc, second)?);
    let Ok(met) = meet(alloc, first, second, meter) else {
        bail!("the meeting is refused");
    };
    let fresh = (met.fresh_a as u64).saturating_add(met.fresh_b as u64);
    Ok(
        greetings
            .saturating_add(entry_bytes(fresh))
            .saturating_add(2),
    )
}

// A meeting of the sites at two places, and how many bytes were sent.
fn meet_at<R: Replica>(
    alloc: Global,
    crowd: &mut [R],
    first: usize,
    second: usize,
    meter: &mut Meter,
) -> Result<u64>
    requires in_range { second < length crowd.old }
    requires two { first < second }
{
    let (front, back) = crowd.split_at_mut(second);
    meeting_bytes(alloc, &mut front[first], &mut back[0], meter)
}

// A meeting of two sites at random, and how many bytes were sent.
fn meet_once<R: Replica>(
    alloc: Global,
    crowd: &mut [R],
    random: &mut u64,
    meter: &mut Meter,
) -> Result<u64>
    requires { 1 < length crowd.old }
{
    let second = 1 + below(random, crowd.len() as u64 - 1) as usize;
    let first = below(random, second as u64) as usize;
    meet_at(alloc, crowd, first, second, meter)
}

fn have_all<R: Replica>(crowd: &[R], all: u64) -> bool {
    for site in crowd {
        match site.held() {
            Ok(held) if held.len() as u64 == all => {}
            _ => return false,
        }
    }
    true
}

// Has the sites meet at random until each holds all, and tells how many meetings it took, and how many bytes.
fn meet_until_all<R: Replica>(
    alloc: Global,
    crowd: &mut [R],
    all: u64,
    mut random: u64,
    meter: &mut Meter,
) -> Result<(u64, u64)> {
    let mut bytes = 0u64;
    for meetings in 0..u64::MAX {
        if crowd.len() < 2 || have_all(crowd, all) {
            return Ok((meetings, bytes));
        }
        bytes = bytes.saturating_add(meet_once(alloc, crowd, &mut random, meter)?);
    }
    bail!("the meetings do not end")
}

fn measure<O: Opens + Drop>(rt: &HostRuntime, sites: u16, each: u32, seed: u64) -> Result<()> {
    let mut meter = Meter::new(rt);
    let mut crowd = open_crowd::<O>(rt.alloc(), sites, each, &mut meter)?;
    let all = u64::from(sites).saturating_mul(u64::from(each));
    let start = Instant::now(rt)?;
    let (meetings, bytes) = meet_until_all(rt.alloc(), &mut crowd, all, seed, &mut meter)?;
    let took = start.elapsed(rt)?;
    println!(rt;
        "{sites} sites, {each} statements each, seed {seed}: {} meetings, {} bytes, of which {} had to be sent",
        meetings,
        bytes,
        entry_bytes(all.saturating_mul(u64::from(sites).saturating_sub(1)))
    )?;
    eprintln!(rt; "scale {sites} {each} {seed} {}", took.as_nanos())?;
    Ok(())
}

pub fn run(rt: &HostRuntime, words: &[String]) -> Result<()> {
    match words {
        [] => measure::<Site>(rt, 12, 3, 1),
        [sites, each, seed] => measure::<Site>(
            rt,
            sites.as_str().parse::<u16>()?,
            each.as_str().parse::<u32>()?,
            seed.as_str().parse::<u64>()?,
        ),
        _ => bail!("the words are the number of sites, of statements, and a seed"),
    }
}
