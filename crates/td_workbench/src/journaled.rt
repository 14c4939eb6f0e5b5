//! The program over sites that keep journals.

ghost use Rattle.std.specs.Prelude.{◌≡◌, IfOk, MatchResult, map, string_bytes};
ghost use Rattle.std.specs.List.{AllByRecursion};
ghost use Rattle.td_io.specs.Views.{input_of, output_of};
ghost use Rattle.td_journal.specs.Reopening.{IsNew};
ghost use Rattle.td_journal.specs.Stores.{GoesOn};
ghost use Rattle.td_journal.specs.Views.{seen_of};
ghost use Rattle.td_workbench.specs.ForProofs.Journaled.{StartsJournaled, run_of};
ghost use Rattle.td_workbench.specs.Journals.{ComeBack, JournaledEnds, KeepsOneNot, KeepsSomeNot, journal_name, keepers};
ghost use Rattle.td_workbench.specs.Programs.{InRange};

use crate::opening::{Opened, Options, open};
use crate::programs::tell_and_answer;
use crate::refusal::refuse;
use crate::run::Ended;
use crate::script::{Script, Unready, read_script};
use crate::writing::put_fault;
use std::alloc::{AllocError, Global};
use td_answers::Links;
use td_io::{Sink, Source};
use td_journal::{Journals, Keeper, StoreError, keep_journal};
use td_listings::show_number;
use td_replica::Opens;
use td_semantics::Meter;
use thiserror::Error;

/// Why a run over journals ended before its input did.
#[derive(Debug, Drop, Error)]
pub enum Stopped {
    #[error("{0}")]
    Run(Ended),
    /// The journal of this name cannot be opened, read, cut or begun.
    #[error("the journal {0} cannot be opened, read, cut or begun")]
    JournalFile(String),
}

// The name of a site's journal: the prefix, the site's number and `.tdj`.
fn journal_name(alloc: Global, prefix: &str, site: u16) -> Result<String, AllocError>
    ensures { IfOk result (λ name. string_bytes name ≡ journal_name prefix.now site) }
{
    let mut name = String::new(alloc);
    name.push_str(prefix)?;
    show_number(&mut name, u64::from(site))?;
    name.push_str(".tdj")?;
    Ok(name)
}

// The site, which has come back from its journal.
fn keep_site<R: Opens + Drop, J: Journals>(
    alloc: Global,
    journals: &J,
    prefix: &str,
    site: R,
    meter: &mut Meter,
) -> Result<Keeper<R, J::Writer>, Stopped>
    requires { IsNew (R.seen site) }
    ensures { MatchResult result
        (λ k. GoesOn (J.kept journals.now (journal_name prefix.now (R.seen site).site)) (R.seen site) (seen_of R.Replica k) (output_of J.Writer.Sink k.writer))
        (λ e. KeepsOneNot (J.kept journals.now) (J.fails journals.now) prefix.now (R.seen site) e) }
{
    let Ok(name) = journal_name(alloc, prefix, site.site()) else {
        return Err(Stopped::Run(Ended::OutOfMemory));
    };
    match keep_journal(alloc, journals, &name, site, meter) {
        Ok(keeper) => Ok(keeper),
        Err(StoreError::OutOfMemory) => Err(Stopped::Run(Ended::OutOfMemory)),
        Err(StoreError::JournalFile) => Err(Stopped::JournalFile(name)),
    }
}

// The sites, each of which has come back from its journal, one after the other.
fn keep_sites<R: Opens + Drop, J: Journals>(
    alloc: Global,
    journals: &J,
    prefix: &str,
    sites: Vec<R>,
    meter: &mut Meter,
) -> Result<Vec<Keeper<R, J::Writer>>, Stopped>
    requires { AllByRecursion IsNew (map R.seen sites.items) }
    ensures { MatchResult result
        (λ v. ComeBack (keepers R.Replica J.Writer.Sink) (J.kept journals.now) prefix.now (map R.seen sites.items) v.items)
        (λ e. KeepsSomeNot (keepers R.Replica J.Writer.Sink) (J.kept journals.now) (J.fails journals.now) prefix.now (map R.seen sites.items) e) }
{
    let mut keepers = Vec::new(alloc);
    for site in sites {
        let keeper = match keep_site(alloc, journals, prefix, site, meter) {
            Ok(keeper) => keeper,
            Err(e) => return Err(e),
        };
        match keepers.push(keeper) {
            Ok(()) => {}
            Err(_) => return Err(Stopped::Run(Ended::OutOfMemory)),
        }
    }
    Ok(keepers)
}

// What the script opened, whose sites have come back from their journals.
fn keep_opened<R: Opens + Drop, J: Journals>(
    alloc: Global,
    journals: &J,
    prefix: &str,
    opened: Opened<R>,
    meter: &mut Meter,
) -> Result<Opened<Keeper<R, J::Writer>>, Stopped>
    requires { AllByRecursion IsNew (map R.seen opened.sites.items) }
    ensures { MatchResult result
        (λ o. ComeBack (keepers R.Replica J.Writer.Sink) (J.kept journals.now) prefix.now (map R.seen opened.sites.items) o.sites.items
        × (o.catalogue ≡ opened.catalogue) × (string_bytes o.ready ≡ string_bytes opened.ready))
        (λ e. KeepsSomeNot (keepers R.Replica J.Writer.Sink) (J.kept journals.now) (J.fails journals.now) prefix.now (map R.seen opened.sites.items) e) }
{
    let Opened {
        sites,
        catalogue,
        ready,
    } = opened;
    match keep_sites(alloc, journals, prefix, sites, meter) {
        Ok(sites) => Ok(Opened {
            sites,
            catalogue,
            ready,
        }),
        Err(e) => Err(e),
    }
}

// The end of a run, as that of one over journals.
fn as_run(end: Result<bool, Ended>) -> Result<bool, Stopped>
    ensures { result ≡ run_of end }
{
    match end {
        Ok(accepted) => Ok(accepted),
        Err(e) => Err(Stopped::Run(e)),
    }
}

// Opens the sites of the script, has them come back from their journals, and answers the lines behind it.
fn start<R: Opens + Drop, J: Journals, L: Links, S: Source, K: Sink>(
    alloc: Global,
    journals: &J,
    prefix: &str,
    options: &Options,
    script: &Script,
    links: &mut L,
    meter: &mut Meter,
    source: &mut S,
    sink: &mut K,
    reads: &mut u64,
) -> Result<bool, Stopped>
    requires { InRange options.now }
    ensures { StartsJournaled (keepers R.Replica J.Writer.Sink) L.serves L.calls (J.kept journals.now) (J.fails journals.now) prefix.now options.now script.now reads.old links.old (input_of S.Source source.old) (output_of K.Sink sink.old) result links.new (input_of S.Source source.new) (output_of K.Sink sink.new) }
{
    let opened = match open::<R>(alloc, options, script) {
        Ok(opened) => opened,
        Err(e) => return as_run(refuse(alloc, e, sink)),
    };
    let kept = match keep_opened(alloc, journals, prefix, opened, meter) {
        Ok(kept) => kept,
        Err(e) => return Err(e),
    };
    as_run(tell_and_answer(
        alloc,
        kept,
        script.is_last,
        links,
        meter,
        source,
        sink,
        reads,
    ))
}

/// Runs the program, as `run_program` does, with sites that keep journals under the names `PREFIX`, the site's number,
/// `.tdj`: each comes back from its journal behind the script and before the lines, in order of the sites. Beside what
/// `run_program` costs it takes room for the entries of each journal, and runs each entry once.
pub fn run_journaled<R: Opens + Drop, J: Journals, L: Links, S: Source, K: Sink>(
    alloc: Global,
    journals: &J,
    prefix: &str,
    options: &Options,
    links: &mut L,
    meter: &mut Meter,
    source: &mut S,
    sink: &mut K,
) -> Result<bool, Stopped>
    requires { InRange options.now }
    ensures { JournaledEnds (keepers R.Replica J.Writer.Sink) L.serves L.calls (J.kept journals.now) (J.fails journals.now) prefix.now options.now links.old (input_of S.Source source.old) (output_of K.Sink sink.old) result links.new (input_of S.Source source.new) (output_of K.Sink sink.new) }
{
    let mut reads = u64::MAX;
    match read_script(alloc, source, &mut reads) {
        Ok(script) => start::<R, _, _, _, _>(
            alloc, journals, prefix, options, &script, links, meter, source, sink, &mut reads,
        ),
        Err(Unready::ReadFault) => Err(Stopped::Run(Ended::ReadFault)),
        Err(Unready::End) => as_run(put_fault(sink, b"fault script end\n".as_slice())),
        Err(Unready::OutOfMemory) => as_run(put_fault(sink, b"fault script memory\n".as_slice())),
    }
}
