//! The program over its words.

use crate::host::{Platform, Run};
use crate::start::start;
use crate::words::{ShellOptions, read_words};
use clap::Error;
use clap::error::ErrorKind;
use std::alloc::Global;
use td_io::{Sink, put};
use td_site_opening::{ExitStatus, StartFault, complain, read_script, report};

// Says what the words asked for in place of a run, or why they are refused.
fn answer_words<K: Sink, F: Sink>(
    alloc: Global,
    error: &Error,
    output: &mut K,
    faults: &mut F,
) -> ExitStatus {
    if error.kind() == ErrorKind::OutOfMemory {
        return ExitStatus::Fault;
    }
    let Ok(text) = error.to_string(alloc) else {
        return ExitStatus::Fault;
    };
    if error.use_stderr() {
        complain(faults, text.as_str());
        return ExitStatus::BadWords;
    }
    match put(output, text.as_bytes()) {
        Ok(()) => ExitStatus::Success,
        Err(_) => ExitStatus::Fault,
    }
}

// Reads the script, and answers what is typed at its site.
fn run_options<P: Platform>(run: &mut Run<'_, P>, options: &ShellOptions<'_>) -> ExitStatus {
    let file = options.site.script;
    match read_script(run.alloc, run.host, file) {
        Ok(script) => start(run, options, script),
        Err(error) => {
            let fault = StartFault::NoScript { file, error };
            report(run.alloc, run.host, fault, run.faults)
        }
    }
}

/// Reads the words, the first of which names the program, and the script, and answers what is typed. Returns the exit
/// status: 0 at `.quit`, at the end of the input and after help; 1 if a fault was answered and the input is no
/// terminal, and for a script that is refused, a stream that fails, and too little memory to go on; 2 for words that
/// are refused and a script that cannot be read; 3 if the journal of the site cannot be used.
pub fn program<P: Platform>(run: &mut Run<'_, P>, words: &[String]) -> u8 {
    let status = match read_words(run.alloc, words) {
        Ok(options) => run_options(run, &options),
        Err(error) => answer_words(run.alloc, &error, run.output, run.faults),
    };
    status as u8
}
