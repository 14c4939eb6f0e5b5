//! A script, and then the lines for its sites.

ghost use Rattle.std.specs.Prelude.{◌≡◌, map, string_bytes, true};
ghost use Rattle.std.specs.Io.KnownBytes.{IsAtEnd};
ghost use Rattle.td_io.specs.Views.{input_of, output_of};
ghost use Rattle.td_answers.specs.Sites.{AreOfScript};
ghost use Rattle.td_workbench.specs.ForProofs.Opening.{AreThen, BehindEnds, ReadyEnds, StartEnds};
ghost use Rattle.td_workbench.specs.Programs.{InRange, ProgramEnds};
ghost use Rattle.td_workbench.specs.Runs.{AnswersLine, over};

use crate::opening::{Opened, Options, open};
use crate::refusal::refuse;
use crate::run::{Ended, serve};
use crate::script::{Script, Unready, read_script};
use crate::writing::put_fault;
use std::alloc::Global;
use td_answers::Links;
use td_io::{Sink, Source, put};
use td_replica::{Opens, Replica};
use td_semantics::Meter;

// Answers the lines behind the script.
fn answer_behind<R: Replica + Drop, L: Links, S: Source, K: Sink>(
    alloc: Global,
    mut opened: Opened<R>,
    is_last: bool,
    links: &mut L,
    meter: &mut Meter,
    source: &mut S,
    sink: &mut K,
    reads: &mut u64,
) -> Result<(), Ended>
    requires { AreOfScript opened.catalogue (map R.seen opened.sites.items) }
    ensures { BehindEnds (AnswersLine (over R.seen R.failed R.journaled L.serves L.calls) opened.catalogue) (AreThen links.new) is_last (opened.sites.items, links.old) reads.old (input_of S.Source source.old) (output_of K.Sink sink.old) result (input_of S.Source source.new) (output_of K.Sink sink.new) }
{
    if is_last {
        return Ok(());
    }
    serve(
        alloc,
        &opened.catalogue,
        &mut opened.sites,
        links,
        meter,
        source,
        sink,
        reads,
    )
}

/// Tells that the sites are ready, and answers the lines behind the script.
pub(crate) fn tell_and_answer<R: Replica + Drop, L: Links, S: Source, K: Sink>(
    alloc: Global,
    opened: Opened<R>,
    is_last: bool,
    links: &mut L,
    meter: &mut Meter,
    source: &mut S,
    sink: &mut K,
    reads: &mut u64,
) -> Result<bool, Ended>
    requires { AreOfScript opened.catalogue (map R.seen opened.sites.items) }
    ensures { ReadyEnds (AnswersLine (over R.seen R.failed R.journaled L.serves L.calls) opened.catalogue) (AreThen links.new) is_last (string_bytes opened.ready) (opened.sites.items, links.old) reads.old (input_of S.Source source.old) (output_of K.Sink sink.old) result (input_of S.Source source.new) (output_of K.Sink sink.new) }
{
    match put(sink, opened.ready.as_bytes()) {
        Ok(()) => {}
        Err(_) => return Err(Ended::WriteFault),
    }
    match answer_behind(alloc, opened, is_last, links, meter, source, sink, reads) {
        Ok(()) => Ok(true),
        Err(e) => Err(e),
    }
}

// Opens the sites of the script and answers the lines behind it.
fn start<R: Opens + Drop, L: Links, S: Source, K: Sink>(
    alloc: Global,
    options: &Options,
    script: &Script,
    links: &mut L,
    meter: &mut Meter,
    source: &mut S,
    sink: &mut K,
    reads: &mut u64,
) -> Result<bool, Ended>
    requires { InRange options.now }
    ensures { StartEnds (over R.seen R.failed R.journaled L.serves L.calls) options.now script.now reads.old links.old (input_of S.Source source.old) (output_of K.Sink sink.old) result links.new (input_of S.Source source.new) (output_of K.Sink sink.new) }
{
    match open::<R>(alloc, options, script) {
        Ok(opened) => tell_and_answer(
            alloc,
            opened,
            script.is_last,
            links,
            meter,
            source,
            sink,
            reads,
        ),
        Err(e) => refuse(alloc, e, sink),
    }
}

/// Reads a script and answers the lines behind it. True says that the script was accepted, false that its fault was
/// told. It costs the opening of each site. At most 65,536 bytes of the script are kept, and 16,384 of a line. An
/// endless input is a read fault after 18,446,744,073,709,551,615 reads.
pub fn run_program<R: Opens + Drop, L: Links, S: Source, K: Sink>(
    alloc: Global,
    options: &Options,
    links: &mut L,
    meter: &mut Meter,
    source: &mut S,
    sink: &mut K,
) -> Result<bool, Ended>
    requires { InRange options.now }
    ensures { ProgramEnds (over R.seen R.failed R.journaled L.serves L.calls) options.now links.old (input_of S.Source source.old) (output_of K.Sink sink.old) result links.new (input_of S.Source source.new) (output_of K.Sink sink.new) }
{
    let mut reads = u64::MAX;
    match read_script(alloc, source, &mut reads) {
        Ok(script) => start::<R, _, _, _>(
            alloc, options, &script, links, meter, source, sink, &mut reads,
        ),
        Err(Unready::ReadFault) => Err(Ended::ReadFault),
        Err(Unready::End) => put_fault(sink, b"fault script end\n".as_slice()),
        Err(Unready::OutOfMemory) => put_fault(sink, b"fault script memory\n".as_slice()),
    }
}
