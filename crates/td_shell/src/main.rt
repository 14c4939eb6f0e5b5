//! A person at one site of Ketsarimo, in memory or with a journal in a file; and, by the name td_check or a first word
//! `check`, what is wrong with a script.
#![tactic(auto)]

use std::env;
use std::io::{BufReader, BufWriter, ErrorKind, IsTerminal, Stderr, Stdout};
use std::marker::PhantomData;
use std::process::ExitCode;
use td_io::{Buffered, Device};
use td_journal_files::{FileJournals, Notes};
use td_replay::Site;
use td_semantics::Meter;
use td_shell_session::{Platform, Run, Shown, Terminal, program};
use td_sockets::TcpLinks;

/// The name by which the program checks a script.
const CHECKER: &str = "td_check";

/// The word by which it does so under any other name.
const CHECK: &str = "check";

/// How it names itself then.
const CHECK_COMMAND: &str = "td_shell check";

fn is_checker(program: &str) -> bool {
    match program.strip_suffix(CHECKER) {
        Some(folder) => folder.is_empty() || folder.ends_with('/'),
        None => false,
    }
}

/// How many bytes of answers are kept back until a flush, if the output is no terminal.
const OUTPUT_BYTES: usize = 8_192;

/// A process: its files, its sockets and its standard streams.
#[derive(Clone, Copy, Drop)]
struct Process<'a> {
    runtime: PhantomData<&'a HostRuntime>,
}

impl<'a> Platform for Process<'a> {
    type Site = Site;

    type System = HostRuntime;

    type Store = FileJournals<'a, HostRuntime>;

    type Network = TcpLinks<&'a HostRuntime>;

    type Input = Device<BufReader<<HostRuntime as Input>::Reader>, Buffered>;

    type Output = Device<Shown<BufWriter<Stdout>>>;

    type Faults = Device<Shown<Stderr>>;
}

/// The check of a script: the command that was typed, and the words after it.
#[derive(Clone, Copy, Drop)]
struct Check<'a> {
    command: &'static str,
    words: &'a [String],
}

// The check of a script, if the words ask for that.
fn check_in(words: &[String]) -> Option<Check<'_>> {
    match words {
        [program, rest @ ..] if is_checker(program.as_str()) => Some(Check {
            command: CHECKER,
            words: rest,
        }),
        [_, word, rest @ ..] if word.as_str() == CHECK => Some(Check {
            command: CHECK_COMMAND,
            words: rest,
        }),
        _ => None,
    }
}

// A word that is no UTF-8 is refused as the command line library refuses words.
fn refuse_words(rt: &HostRuntime) -> ExitCode {
    let _told = eprintln!(rt; "error: a word of the command line is not UTF-8");
    ExitCode::from(2)
}

// Answers what is typed, as the words say. (Runtime and notes have one lifetime, since the journals hold both.)
fn converse<'a>(
    rt: &'a HostRuntime,
    notes: &'a Notes,
    words: &[String],
    terminal: Terminal,
    output: &mut Device<Shown<BufWriter<Stdout>>>,
    faults: &mut Device<Shown<Stderr>>,
) -> ExitCode {
    let alloc = rt.alloc();
    let Ok(reader) = BufReader::new(alloc, rt.reader()) else {
        return ExitCode::FAILURE;
    };
    let mut run: Run<'_, Process<'a>> = Run {
        alloc,
        host: rt,
        store: &FileJournals::new(rt, notes).with_sums(),
        notes,
        network: &mut TcpLinks::new(rt),
        meter: &mut Meter::new(rt),
        terminal,
        input: &mut Device::buffered(reader),
        output,
        faults,
    };
    ExitCode::from(program(&mut run, words))
}

fn main(rt: HostRuntime) -> ExitCode {
    let alloc = rt.alloc();
    let words = match env::args(&rt) {
        Ok(words) => words,
        Err(error) if error.kind() == ErrorKind::InvalidData => return refuse_words(&rt),
        Err(_) => return ExitCode::FAILURE,
    };
    let Ok(words) = words.collect::<Vec<String>>(alloc) else {
        return ExitCode::FAILURE;
    };
    let is_output = rt.stdout().is_terminal();
    let capacity = if is_output { 0 } else { OUTPUT_BYTES };
    let Ok(writer) = BufWriter::with_capacity(alloc, capacity, rt.stdout()) else {
        return ExitCode::FAILURE;
    };
    let mut output = Device::new(Shown::new(alloc, writer, is_output));
    let are_faults_seen = rt.stderr().is_terminal();
    let mut faults = Device::new(Shown::new(alloc, rt.stderr(), are_faults_seen));
    if let Some(Check { command, words }) = check_in(&words) {
        let status = td_check::program(command, words, &rt, &mut output, &mut faults);
        return ExitCode::from(status);
    }
    let is_input = rt.stdin().is_terminal();
    let terminal = Terminal {
        is_input,
        is_output,
    };
    let notes = Notes::new();
    converse(&rt, &notes, &words, terminal, &mut output, &mut faults)
}
