//! Lines answered by sites.

ghost use Rattle.std.specs.Prelude.{◌≡◌, ◌<◌, ◌≤◌, ◌-◌, ◌==◌, ◌&&◌, true, length, List, ℕ, Option, map, option_map, Ok, OnOk};
ghost use Rattle.td_answers.specs.Sites.{AreOfOneScript, AreOfScript};
ghost use Rattle.td_workbench.specs.ForProofs.Serving.{HandsOn, LineEnds, ReadEnds, Serves, ServesLines, ended_by};
ghost use Rattle.td_workbench.specs.Runs.{AnswersLine, WorkbenchEnds, over, said};
ghost use Rattle.std.specs.Io.KnownBytes.{Keeps};
ghost use Rattle.td_io.specs.Counted.{Counts};
ghost use Rattle.td_io.specs.Lines.{HasCause, IsKept, LineRead, TellsLine, is_one_line};
ghost use Rattle.td_commands.specs.Lines.{line_of};
ghost use Rattle.td_io.specs.Views.{input_of, output_of};

use crate::writing::write_text;
use std::alloc::Global;
use td_answers::{Links, Reply, answer, catalogue_for};
use td_commands::LINE_BYTES;
use td_headings::Catalogue;
use td_io::{Failed, LineError, RawLine, Sink, Source, content, has_line, read_line};
use td_replica::Replica;
use td_semantics::Meter;
use thiserror::Error;

/// Why a run ended before its input did.
#[derive(Clone, Copy, Debug, Drop, PartialEq, Eq, Error)]
pub enum Ended {
    #[error("out of memory")]
    OutOfMemory,
    #[error("the reader failed")]
    ReadFault,
    #[error("the writer failed")]
    WriteFault,
}

// Stands for a line that was too long to be kept: it has none of the forms either.
const NOT_KEPT: &[u8] = b"?";

// What the line is, without its line end.
fn bytes_of(line: &RawLine) -> &[u8]
    ensures { (raw : List ℕ) → IsKept 16384 raw (option_map (λ v. v.items) line.now.bytes) → line_of result.now ≡ said raw }
{
    match &line.bytes {
        Some(bytes) => content(bytes),
        None => NOT_KEPT,
    }
}

// Whether no line was left of the input.
fn is_nothing(line: &RawLine) -> bool
    ensures { (raw : List ℕ) → IsKept 16384 raw (option_map (λ v. v.items) line.now.bytes) → result ≡ (line.now.is_last && (length raw == 0)) }
{
    match &line.bytes {
        Some(bytes) => line.is_last && bytes.is_empty(),
        None => false,
    }
}

// Answers a line, and says whether it was `.quit`.
fn answer_line<R: Replica, L: Links, K: Sink>(
    alloc: Global,
    catalogue: &Catalogue,
    sites: &mut [R],
    links: &mut L,
    meter: &mut Meter,
    line: &[u8],
    sink: &mut K,
) -> Result<bool, Failed>
    requires { AreOfScript catalogue.now (map R.seen sites.old) }
    ensures ends { LineEnds (AnswersLine (over R.seen R.failed R.journaled L.serves L.calls) catalogue.now) (sites.old, links.old) (line_of line.now) result (sites.new, links.new) (output_of K.Sink sink.old) (output_of K.Sink sink.new) }
    ensures kept { AreOfScript catalogue.now (map R.seen sites.new) }
{
    match answer(alloc, catalogue, sites, links, meter, line) {
        Reply::Quit => Ok(true),
        Reply::Text(text) => write_text(sink, text.as_bytes()),
        Reply::Table(text) => write_text(sink, text.as_slice()),
        Reply::Fixed(text) => write_text(sink, text.as_bytes()),
    }
}

// Answers a line that was read, if there is one, and says whether the run is over.
fn answer_read<R: Replica, L: Links, K: Sink>(
    alloc: Global,
    catalogue: &Catalogue,
    sites: &mut [R],
    links: &mut L,
    meter: &mut Meter,
    line: &RawLine,
    sink: &mut K,
) -> Result<bool, Failed>
    requires { AreOfScript catalogue.now (map R.seen sites.old) }
    ensures ends { (raw : List ℕ) (left : Option (List ℕ)) → TellsLine 16384 raw left (Ok line.now) → ReadEnds (AnswersLine (over R.seen R.failed R.journaled L.serves L.calls) catalogue.now) (sites.old, links.old) raw line.now.is_last left result (sites.new, links.new) (output_of K.Sink sink.old) (output_of K.Sink sink.new) }
    ensures kept { AreOfScript catalogue.now (map R.seen sites.new) }
{
    if is_nothing(line) {
        return Ok(true);
    }
    match answer_line(alloc, catalogue, sites, links, meter, bytes_of(line), sink) {
        Ok(quits) => Ok(quits || line.is_last),
        Err(e) => Err(e),
    }
}

// How a run ends where no line is read: that no reads are left counts as a read fault.
fn not_read(e: LineError) -> Ended
    ensures { result ≡ ended_by e }
{
    match e {
        LineError::OutOfMemory => Ended::OutOfMemory,
        LineError::ReadFault | LineError::NoReadsLeft => Ended::ReadFault,
    }
}

// Whether what was written is flushed before the next line, by what stands in the buffer: the line would be waited for,
// or is a command, which may wait for another site.
fn is_due(buffer: &[u8]) -> bool
    ensures { is_one_line buffer.now ≡ true → result ≡ true }
{
    !has_line(buffer) || buffer.starts_with(b".")
}

// Flushes what was written, where that is due before the next line.
fn flush_due<S: Source, K: Sink>(source: &S, sink: &mut K) -> Result<(), Failed>
    ensures held { Keeps (K.held sink.old) (K.held sink.new) }
    ensures flushed { OnOk result (is_one_line (S.buffered source.now) ≡ true → K.is_flushed sink.new ≡ true) }
    ensures count { Counts (K.faults sink.old) (K.faults sink.new) result }
{
    if is_due(source.buffer()) {
        return sink.flush();
    }
    Ok(())
}

// The next line. What was written has been handed on, or a whole line stands in the buffer.
fn next_line<S: Source, K: Sink>(
    alloc: Global,
    source: &mut S,
    sink: &K,
    reads: &mut u64,
) -> Result<RawLine, LineError>
    requires { is_one_line (S.buffered source.old) ≡ true → K.is_flushed sink.now ≡ true }
    ensures line { LineRead 16384 (S.left source.old) (S.left source.new) (reads.old - reads.new) result }
    ensures cause { HasCause reads.new (S.failures source.old) (S.failures source.new) result }
    ensures fewer { OnOk result (reads.new < reads.old) }
    ensures no_more { reads.new ≤ reads.old }
{
    let _written = sink;
    read_line(alloc, source, reads, LINE_BYTES)
}

// Answers line after line, up to `.quit` or the end of the input.
fn serve_lines<R: Replica, L: Links, S: Source, K: Sink>(
    alloc: Global,
    catalogue: &Catalogue,
    sites: &mut [R],
    links: &mut L,
    meter: &mut Meter,
    source: &mut S,
    sink: &mut K,
    reads: &mut u64,
) -> Result<(), Ended>
    requires { AreOfScript catalogue.now (map R.seen sites.old) }
    ensures { ServesLines (AnswersLine (over R.seen R.failed R.journaled L.serves L.calls) catalogue.now) (sites.old, links.old) reads.old (input_of S.Source source.old) (output_of K.Sink sink.old) result (sites.new, links.new) (input_of S.Source source.new) (output_of K.Sink sink.new) }
{
    while *reads > 0 {
        let Ok(()) = flush_due(&*source, sink) else {
            return Err(Ended::WriteFault);
        };
        let line = match next_line(alloc, source, &*sink, reads) {
            Ok(line) => line,
            Err(e) => return Err(not_read(e)),
        };
        match answer_read(alloc, catalogue, sites, links, meter, &line, sink) {
            Ok(true) => return Ok(()),
            Ok(false) => {}
            Err(_) => return Err(Ended::WriteFault),
        }
    }
    Err(Ended::ReadFault)
}

// Flushes what a run has written, unless the writer failed.
fn hand_on<K: Sink>(ended: Result<(), Ended>, sink: &mut K) -> Result<(), Ended>
    ensures { HandsOn ended result (output_of K.Sink sink.old) (output_of K.Sink sink.new) }
{
    if matches!(ended, Err(Ended::WriteFault)) {
        return ended;
    }
    match sink.flush() {
        Ok(()) => ended,
        Err(_) => Err(Ended::WriteFault),
    }
}

/// Answers line after line, up to `.quit` or the end of the input, by at most so many reads, from which those made are
/// taken off.
pub fn serve<R: Replica, L: Links, S: Source, K: Sink>(
    alloc: Global,
    catalogue: &Catalogue,
    sites: &mut [R],
    links: &mut L,
    meter: &mut Meter,
    source: &mut S,
    sink: &mut K,
    reads: &mut u64,
) -> Result<(), Ended>
    requires { AreOfScript catalogue.now (map R.seen sites.old) }
    ensures { Serves (AnswersLine (over R.seen R.failed R.journaled L.serves L.calls) catalogue.now) (sites.old, links.old) reads.old (input_of S.Source source.old) (output_of K.Sink sink.old) result (sites.new, links.new) (input_of S.Source source.new) (output_of K.Sink sink.new) }
{
    let ended = serve_lines(alloc, catalogue, sites, links, meter, source, sink, reads);
    hand_on(ended, sink)
}

/// Answers line after line, up to `.quit` or the end of the input. Each answer is flushed before more of the input is
/// asked for and before a line that begins with a dot, so that nothing that is answered is kept back while the program
/// waits for a person, a program or another site. It costs the reading and typing of the sites' script at first. A line
/// of more than 16,384 bytes is not kept. An endless input is a read fault after 18,446,744,073,709,551,615 reads.
pub fn workbench<R: Replica, L: Links, S: Source, K: Sink>(
    alloc: Global,
    sites: &mut [R],
    links: &mut L,
    meter: &mut Meter,
    source: &mut S,
    sink: &mut K,
) -> Result<(), Ended>
    requires { AreOfOneScript (map R.seen sites.old) }
    ensures { WorkbenchEnds (over R.seen R.failed R.journaled L.serves L.calls) (sites.old, links.old) (input_of S.Source source.old) (output_of K.Sink sink.old) result (sites.new, links.new) (input_of S.Source source.new) (output_of K.Sink sink.new) }
{
    let catalogue = match catalogue_for(alloc, sites) {
        Ok(catalogue) => catalogue,
        Err(_) => return Err(Ended::OutOfMemory),
    };
    let mut reads = u64::MAX;
    serve(
        alloc, &catalogue, sites, links, meter, source, sink, &mut reads,
    )
}
