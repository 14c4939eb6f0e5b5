//! The program over its words and its streams.

ghost use Rattle.std.specs.Prelude.{◌≡◌, IfOk, string_bytes};
ghost use Rattle.td_io.specs.Views.{input_of, output_of};
ghost use Rattle.td_workbench.specs.Journals.{keepers};
ghost use Rattle.td_workbench.specs.Runs.{over};
ghost use Rattle.td_workbench.specs.Exits.{Exits, PutsHelp, PutsRefusal, TellsJournal, TellsStopped, TellsWords, journal_fault, status_of};

use crate::journaled::{Stopped, run_journaled};
use crate::programs::run_program;
use crate::run::Ended;
use crate::words::read_words;
use clap::Error;
use clap::error::ErrorKind;
use std::alloc::{AllocError, Global};
use td_answers::Links;
use td_io::{Sink, Source, put};
use td_journal::Journals;
use td_replica::Opens;
use td_semantics::Meter;

// The exit status of a run: 0 after an accepted script, 1 after a refused one or where the run stopped.
fn status(end: Result<bool, Ended>) -> u8
    ensures { result ≡ status_of end }
{
    match end {
        Ok(true) => 0,
        Ok(false) | Err(_) => 1,
    }
}

// Writes help or the version.
fn put_help<K: Sink>(sink: &mut K, text: &[u8]) -> u8
    ensures { PutsHelp text.now result (output_of K.Sink sink.old) (output_of K.Sink sink.new) }
{
    match put(sink, text) {
        Ok(()) => 0,
        Err(_) => 1,
    }
}

// Writes why the words are refused.
fn put_refusal<F: Sink>(faults: &mut F, text: &[u8]) -> u8
    ensures { PutsRefusal text.now result (output_of F.Sink faults.old) (output_of F.Sink faults.new) }
{
    match put(faults, text) {
        Ok(()) => 2,
        Err(_) => 2,
    }
}

// Tells what the words asked for in place of a run, or why they are refused.
fn tell<K: Sink, F: Sink>(alloc: Global, error: &Error, sink: &mut K, faults: &mut F) -> u8
    ensures { TellsWords result (output_of K.Sink sink.old) (output_of F.Sink faults.old) (output_of K.Sink sink.new) (output_of F.Sink faults.new) }
{
    if error.kind() == ErrorKind::OutOfMemory {
        return 1;
    }
    let Ok(text) = error.to_string(alloc) else {
        return 1;
    };
    if error.use_stderr() {
        return put_refusal(faults, text.as_bytes());
    }
    put_help(sink, text.as_bytes())
}

// Tells on the output of faults that a journal failed.
fn report_journal_failure<F: Sink>(alloc: Global, name: &str, faults: &mut F) -> u8
    ensures { TellsJournal name.now result (output_of F.Sink faults.old) (output_of F.Sink faults.new) }
{
    let Ok(text) = journal_fault(alloc, name) else {
        return 1;
    };
    match put(faults, text.as_bytes()) {
        Ok(()) => 3,
        Err(_) => 3,
    }
}

// The line that tells that the journal of this name failed.
fn journal_fault(alloc: Global, name: &str) -> Result<String, AllocError>
    ensures { IfOk result (λ text. string_bytes text ≡ journal_fault name.now) }
{
    let mut text = String::new(alloc);
    text.push_str("fault journal ")?;
    text.push_str(name)?;
    text.push_str("\n")?;
    Ok(text)
}

// The status of a run over journals, and what is told of one that did not begin.
fn end_journaled<F: Sink>(alloc: Global, end: Result<bool, Stopped>, faults: &mut F) -> u8
    ensures { TellsStopped end result (output_of F.Sink faults.old) (output_of F.Sink faults.new) }
{
    match end {
        Ok(accepted) => status(Ok(accepted)),
        Err(Stopped::Run(e)) => status(Err(e)),
        Err(Stopped::JournalFile(name)) => report_journal_failure(alloc, &name, faults),
    }
}

/// Reads the words, the first of which names the program, and runs it by them. The answer is the exit status: 0 at
/// `.quit`, at the end of the input and after help; 1 for a refused script, a stream that fails, and want of memory
/// that ends the program; 2 for refused words; 3 where the journal of a site cannot be opened, read, cut or begun.
pub fn program<R: Opens + Drop, J: Journals, L: Links, S: Source, K: Sink, F: Sink>(
    alloc: Global,
    journals: &J,
    words: &[String],
    links: &mut L,
    meter: &mut Meter,
    source: &mut S,
    sink: &mut K,
    faults: &mut F,
) -> u8
    ensures { Exits (over R.seen R.failed R.journaled L.serves L.calls) (keepers R.Replica J.Writer.Sink) (J.kept journals.now) (J.fails journals.now) result links.old (record { input = input_of S.Source source.old; output = output_of K.Sink sink.old; faults = output_of F.Sink faults.old }) links.new (record { input = input_of S.Source source.new; output = output_of K.Sink sink.new; faults = output_of F.Sink faults.new }) }
{
    let words = match read_words(alloc, words) {
        Ok(words) => words,
        Err(error) => return tell(alloc, &error, sink, faults),
    };
    let Some(prefix) = words.journal else {
        return status(run_program::<R, _, _, _>(alloc, &words.options, links, meter, source, sink));
    };
    let end = run_journaled::<R, _, _, _, _>(
        alloc,
        journals,
        prefix,
        &words.options,
        links,
        meter,
        source,
        sink,
    );
    end_journaled(alloc, end, faults)
}
