//! Checks a script of definitions, and tells the place of each mistake: the shell's program has it for a mode.
//!
//! Begin with `program`, over its words and streams.
//!
//! ```
//! let status = td_check::program("td_check", &words, &rt, &mut sink, &mut faults);
//! let (told, is_refused) = report_of(alloc, file, script.as_bytes())?;
//! ```
//!
//! Costs: the time of reading and typing the script, and for each definition a walk along the script. The file is read
//! whole.
#![tactic(auto)]

mod definitions;
mod names;
mod pieces;
mod report;
mod script;

use definitions::check_definitions;
use report::Report;
use script::script_in;
use std::alloc::{AllocError, Global};
use std::rt::Files;
use td_io::{Sink, put};
use td_paths::read_plain;

const HELP: &str = "\
Tells each definition of a script that is refused, by FILE:LINE:COLUMN, with the line and a caret under the place.
A script ends at a line .begin, if it has one; the lines behind it are not judged, and nothing is evaluated.
The status is 0 where nothing is refused, 1 where something is, and 2 where the file cannot be read.
";

// The exit status where the words are refused, the file cannot be read, or nothing can be told.
const UNCHECKED: u8 = 2;

/// What is told of a file's script, and whether something of it is refused.
pub fn report_of(alloc: Global, file: &str, bytes: &[u8]) -> Result<(String, bool), AllocError> {
    let mut report = Report::new(alloc, file);
    if let Some((script, from)) = script_in(&mut report, bytes)? {
        check_definitions(&mut report, script, from)?;
    }
    let told = report.end()?;
    Ok((told, report.is_bad()))
}

// Tells why nothing is checked. Where that fails too, the status is all that tells.
fn refuse<F: Sink>(told: Result<String, AllocError>, faults: &mut F) -> u8 {
    if let Ok(text) = told {
        let _told = put(faults, text.as_bytes());
    }
    UNCHECKED
}

// What the command takes, and what it does.
fn usage(alloc: Global, command: &str) -> Result<String, AllocError> {
    format!(in alloc; "Usage: {command} SCRIPT\n{HELP}")
}

// Writes the usage that was asked for; the answer is the exit status, 0 or 2.
fn put_usage<K: Sink>(told: Result<String, AllocError>, sink: &mut K) -> u8 {
    let Ok(text) = told else {
        return UNCHECKED;
    };
    match put(sink, text.as_bytes()) {
        Ok(()) => 0,
        Err(_) => UNCHECKED,
    }
}

// Checks the script in the file and writes what is found; the answer is the exit status, 0, 1 or 2.
fn check<H: Files + AllocGlobal, K: Sink, F: Sink>(
    command: &str,
    host: &H,
    file: &str,
    sink: &mut K,
    faults: &mut F,
) -> u8 {
    let alloc = host.alloc();
    let bytes = match read_plain(host, file) {
        Ok(bytes) => bytes,
        Err(error) => {
            let why = error.words();
            let told = format!(in alloc; "{command}: {file} cannot be read: {why}\n");
            return refuse(told, faults);
        }
    };
    let Ok((told, is_bad)) = report_of(alloc, file, &bytes) else {
        let told = format!(in alloc; "{command}: there is not enough memory\n");
        return refuse(told, faults);
    };
    match put(sink, told.as_bytes()) {
        Ok(()) => u8::from(is_bad),
        Err(_) => refuse(
            format!(in alloc; "{command}: the output cannot be written\n"),
            faults,
        ),
    }
}

/// Checks the script in the file that the words name, which are those behind the command, by which it names itself, and
/// tells what it finds. The answer is the exit status: 0 where nothing is refused, and after help; 1 where something
/// is; 2 where the words are wrong, the file cannot be read, memory is wanting or standard output fails.
pub fn program<H: Files + AllocGlobal, K: Sink, F: Sink>(
    command: &str,
    words: &[String],
    host: &H,
    sink: &mut K,
    faults: &mut F,
) -> u8 {
    match words {
        [file] if file.as_str() == "--help" => put_usage(usage(host.alloc(), command), sink),
        [file] => check(command, host, file.as_str(), sink, faults),
        _ => refuse(usage(host.alloc(), command), faults),
    }
}
