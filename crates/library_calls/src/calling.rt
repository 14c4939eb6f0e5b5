//! One call on two sites, told with what the sites show before and after it: it is run where memory is refused.
//!
//! The words are a kind of site (`plain`, `site` or `keeper`), the name of an example, and a call: `issue`, `take`,
//! `ask`, `ask_at`, `value_of`, `outcomes`, `greet`, `answer`, `settle`, `finish`, `meet`, `start` or `reopen`; without
//! words a meeting of sites. Standard output has what the two sites of the example show, a line `call`, what the call
//! gave, and what the sites show then; behind a call that was refused a line `again`, what the same call gives then,
//! and what the sites show. The line behind `call` is written before anything else is done, so whoever refuses memory
//! can have it refused from some place in the call up to its end. The status is 1 where memory was wanted for anything
//! but the call.

mod calls;
mod examples;
mod journals;
mod scene;
mod shown;

use anyhow::{Result, bail};
use calls::{Call, call_named};
use examples::{Example, example_named};
use journals::{begin_journal, open_site, reopen_from, start_of, take_all};
use scene::Scene;
use shown::tell_journal;
use td_replay::{PlainSite, Site};
use td_replica::{Catalogued, Opens};
use td_semantics::Meter;

/// The most bytes that are written to a journal, and to a link: room for them is taken beforehand.
const MOST_WRITTEN: usize = 65_536;

/// What is done with two sites.
#[derive(Clone, Copy)]
struct Task<'a> {
    example: &'a Example,
    call: Call,
}

// The sites are of one kind, and the second one's journal opens another kind.
fn run_over<R: Catalogued + Drop, O: Opens + Catalogued + Drop>(
    rt: &HostRuntime,
    task: Task,
    mut first: R,
    mut second: R,
) -> Result<()> {
    let mut meter = Meter::new(rt);
    take_all(rt.alloc(), &mut first, task.example.first_held, &mut meter)?;
    take_all(
        rt.alloc(),
        &mut second,
        task.example.second_held,
        &mut meter,
    )?;
    let mut scene = Scene::new(rt.alloc(), task.example, first, second)?;
    scene.prepare(rt, task.call, &mut meter)?;
    match task.call {
        Call::Start => start_of(rt, scene.into_second()),
        Call::Reopen => reopen_from::<R, O>(rt, scene.into_second(), &mut meter),
        call => scene.tell_call(rt, call, &mut meter),
    }
}

fn run_opened<O: Opens + Catalogued + Drop>(rt: &HostRuntime, task: Task) -> Result<()> {
    let first = open_site::<O>(rt.alloc(), task.example.first)?;
    let second = open_site::<O>(rt.alloc(), task.example.second)?;
    run_over::<O, O>(rt, task, first, second)
}

fn run_kept(rt: &HostRuntime, task: Task) -> Result<()> {
    let mut first_journal = Vec::with_capacity(rt.alloc(), MOST_WRITTEN)?;
    let mut second_journal = Vec::with_capacity(rt.alloc(), MOST_WRITTEN)?;
    let first = begin_journal(
        open_site::<Site>(rt.alloc(), task.example.first)?,
        &mut first_journal,
    )?;
    let second = begin_journal(
        open_site::<Site>(rt.alloc(), task.example.second)?,
        &mut second_journal,
    )?;
    run_over::<_, Site>(rt, task, first, second)?;
    tell_journal(rt, task.example.first, &first_journal)?;
    tell_journal(rt, task.example.second, &second_journal)
}

fn run_named(rt: &HostRuntime, kind: &str, example: &str, call: &str) -> Result<()> {
    let (Some(example), Some(call)) = (example_named(example), call_named(call)) else {
        bail!("there is no such example or call");
    };
    let task = Task { example, call };
    match kind {
        "plain" => run_opened::<PlainSite>(rt, task),
        "site" => run_opened::<Site>(rt, task),
        "keeper" => run_kept(rt, task),
        _ => bail!("there is no such kind of site"),
    }
}

pub fn run(rt: &HostRuntime, words: &[String]) -> Result<()> {
    match words {
        [] => run_named(rt, "site", "refused here, done after the meeting", "meet"),
        [kind, example, call] => run_named(rt, kind.as_str(), example.as_str(), call.as_str()),
        _ => bail!("the words are a kind of site, an example and a call"),
    }
}
