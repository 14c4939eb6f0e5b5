//! Two sites, and a call on one of them or on both.

use super::MOST_WRITTEN;
use super::calls::Call;
use super::examples::{Example, QUERY, RELVAR};
use super::journals::batch_of;
use super::shown::{Told, tell_site};
use anyhow::{Result, bail};
use std::alloc::Global;
use std::fmt::Display;
use std::mem;
use td_io::{Device, Pair};
use td_meeting::{answer, finish, greet, meet, settle};
use td_replica::{Catalogued, Replica};
use td_semantics::Meter;
use td_stamps::{Entry, Stamp};
use td_values::Name;

/// Two sites, and what calls on them are given.
#[derive(Drop)]
pub struct Scene<R: Drop> {
    first: R,
    second: R,
    given: Given,
    /// What a step of a meeting reads, and what it writes.
    heard: Vec<u8>,
    written: Vec<u8>,
}

/// What calls on sites are given beside the bytes of a meeting.
#[derive(Drop)]
struct Given {
    statement: &'static str,
    relvar: Name,
    /// What the first site holds, which the second one takes.
    batch: Vec<Entry>,
    /// Just after the first entry: what all others changed is taken back or not run.
    past: Stamp,
    /// Whether what calls give is told.
    is_told: bool,
}

fn given_by(alloc: Global, example: &Example) -> Result<Given> {
    let batch = batch_of(alloc, example.first_held)?;
    let Some(entry) = batch.first() else {
        bail!("the first site holds nothing");
    };
    let past = entry.stamp();
    Ok(Given {
        statement: example.statement,
        relvar: Name::new(alloc, RELVAR)?,
        batch,
        past,
        is_told: false,
    })
}

// Tells what a call gave, where that is told: first by a line that takes no memory. The result is whether it was
// answered.
fn tell_answer<T: Told + Drop, E: Display + Drop>(
    rt: &HostRuntime,
    is_told: bool,
    answer: std::result::Result<T, E>,
) -> Result<bool> {
    let is_ok = answer.is_ok();
    if !is_told {
        return Ok(is_ok);
    }
    match answer {
        Ok(told) => {
            println!(rt; "answered")?;
            told.tell(rt)?;
        }
        Err(error) => println!(rt; "{error}")?,
    }
    Ok(is_ok)
}

// A call on the second site alone.
fn call_one<R: Replica>(
    rt: &HostRuntime,
    site: &mut R,
    given: &Given,
    call: Call,
    meter: &mut Meter,
) -> Result<bool> {
    let (alloc, is_told) = (rt.alloc(), given.is_told);
    match call {
        Call::Issue => tell_answer(rt, is_told, site.issue(alloc, given.statement, meter)),
        Call::Take => tell_answer(rt, is_told, site.take(alloc, &given.batch, meter)),
        Call::Ask => tell_answer(rt, is_told, site.ask(alloc, QUERY)),
        Call::AskAt => tell_answer(rt, is_told, site.ask_at(alloc, QUERY, given.past, meter)),
        Call::ValueOf => tell_answer(rt, is_told, site.value_of(alloc, &given.relvar)),
        _ => tell_answer(rt, is_told, site.outcomes(alloc)),
    }
}

impl<R: Catalogued + Drop> Scene<R> {
    pub fn new(alloc: Global, example: &Example, first: R, second: R) -> Result<Scene<R>> {
        Ok(Scene {
            first,
            second,
            given: given_by(alloc, example)?,
            heard: Vec::with_capacity(alloc, MOST_WRITTEN)?,
            written: Vec::with_capacity(alloc, MOST_WRITTEN)?,
        })
    }

    /// Calls what stands before the call in the example.
    pub fn prepare(&mut self, rt: &HostRuntime, call: Call, meter: &mut Meter) -> Result<()> {
        for before in call.before() {
            if !self.call(rt, *before, meter)? {
                bail!("a call before this one is refused");
            }
            mem::swap(&mut self.heard, &mut self.written);
            self.written.clear();
        }
        self.given.is_told = true;
        Ok(())
    }

    fn call(&mut self, rt: &HostRuntime, call: Call, meter: &mut Meter) -> Result<bool> {
        let (alloc, is_told) = (rt.alloc(), self.given.is_told);
        let mut link = Device::link(Pair {
            reader: self.heard.as_slice(),
            writer: &mut self.written,
        });
        let (first, second) = (&mut self.first, &mut self.second);
        match call {
            Call::Greet => tell_answer(rt, is_told, greet(alloc, first, &mut link)),
            Call::Answer => tell_answer(rt, is_told, answer(alloc, second, &mut link)),
            Call::Settle => tell_answer(rt, is_told, settle(alloc, first, &mut link, meter)),
            Call::Finish => tell_answer(rt, is_told, finish(alloc, second, &mut link, meter)),
            Call::Meet => tell_answer(rt, is_told, meet(alloc, first, second, meter)),
            _ => call_one(rt, second, &self.given, call, meter),
        }
    }

    /// The second site alone.
    pub fn into_second(self) -> R {
        let Scene { second, .. } = self;
        second
    }

    fn tell(&self, rt: &HostRuntime) -> Result<()> {
        tell_site(rt, &self.first)?;
        tell_site(rt, &self.second)?;
        println!(rt; "written {}", self.written.len())?;
        Ok(())
    }

    /// Tells the sites, and then the call and the sites behind it; where it was refused, once more.
    pub fn tell_call(&mut self, rt: &HostRuntime, call: Call, meter: &mut Meter) -> Result<()> {
        self.tell(rt)?;
        println!(rt; "call")?;
        let is_answered = self.call(rt, call, meter)?;
        self.tell(rt)?;
        if !is_answered {
            println!(rt; "again")?;
            self.call(rt, call, meter)?;
            self.tell(rt)?;
        }
        Ok(())
    }
}
