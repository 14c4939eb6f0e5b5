//! The workbench of Ketsarimo: sites of one script, in memory or with journals in files.
//!
//! td_console has `main` alone: it knows the standard streams, which kind of site the program runs, where journals
//! stand and by what it reaches others. Nothing stands on it.
#![tactic(auto)]

use std::env;
use std::io::{BufReader, BufWriter, ErrorKind};
use std::process::ExitCode;
use td_io::Device;
use td_journal_files::{FileJournals, Notes};
use td_replay::Site;
use td_semantics::Meter;
use td_sockets::TcpLinks;
use td_workbench::program;

// A word that is no UTF-8 is refused as the command line library refuses words.
fn refuse_words(rt: &HostRuntime) -> ExitCode {
    let _told = eprintln!(rt; "error: a word of the command line is not UTF-8");
    ExitCode::from(2)
}

fn main(rt: HostRuntime) -> ExitCode {
    let alloc = rt.alloc();
    let words = match env::args(&rt) {
        Ok(words) => words,
        Err(error) if error.kind() == ErrorKind::InvalidData => return refuse_words(&rt),
        Err(_) => return ExitCode::FAILURE,
    };
    let Ok(words) = words.collect::<Vec<String>>(alloc) else {
        return ExitCode::FAILURE;
    };
    let Ok(reader) = BufReader::new(alloc, rt.reader()) else {
        return ExitCode::FAILURE;
    };
    let mut source = Device::buffered(reader);
    let Ok(writer) = BufWriter::new(alloc, rt.stdout()) else {
        return ExitCode::FAILURE;
    };
    let mut sink = Device::new(writer);
    let mut faults = Device::new(rt.stderr());
    let notes = Notes::new();
    let mut meter = Meter::new(&rt);
    let status = program::<Site, _, _, _, _, _>(
        alloc,
        &FileJournals::new(&rt, &notes),
        &words,
        &mut TcpLinks::new(&rt),
        &mut meter,
        &mut source,
        &mut sink,
        &mut faults,
    );
    ExitCode::from(status)
}
