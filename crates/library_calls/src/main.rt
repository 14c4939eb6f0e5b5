//! A program that makes calls of the library which no line of td_console makes alone.
//!
//! The first word on the command line says which: `take`, a batch of entries that is put into a set of them; `scale`,
//! meetings of many sites; `call`, one call on two sites of an example. The words after it are what it is asked for.
//! Without words each is made in turn, at its small sizes. Standard output has what each counts or shows, which is the
//! same at each run, and standard error the times, each the least of some turns.
#![tactic(auto)]

mod calling;
mod scale;
mod taking;
mod turns;

use anyhow::{Result, bail};
use std::env;

/// Makes the calls of this name, as the words behind it ask for.
fn run(rt: &HostRuntime, name: &str, words: &[String]) -> Result<()> {
    match name {
        "take" => taking::run(rt),
        "scale" => scale::run(rt, words),
        "call" => calling::run(rt, words),
        _ => bail!("the first word is none of `take`, `scale` and `call`"),
    }
}

fn run_all(rt: &HostRuntime) -> Result<()> {
    for name in ["take", "scale", "call"] {
        println!(rt; "{name}:")?;
        run(rt, name, &[])?;
    }
    Ok(())
}

fn main(rt: HostRuntime) -> Result<()> {
    let words = env::args(&rt)?.collect::<Vec<String>>(rt.alloc())?;
    match words.as_slice() {
        [_, name, more @ ..] => run(&rt, name.as_str(), more),
        _ => run_all(&rt),
    }
}
