//! A site that is opened, comes back from its journal, and is conversed with.

ghost use Rattle.td_journal.specs.Reopening.{IsNew};

use crate::access::Access;
use crate::companions::Companions;
use crate::conversation::converse;
use crate::ended::SessionEnd;
use crate::host::{Platform, Run};
use crate::inputs::Inputs;
use crate::session::{Session, check_open};
use crate::words::ShellOptions;
use std::alloc::{AllocError, Global};
use td_alarms::Alarms;
use td_arrivals::Arrivals;
use td_changes::Changes;
use td_io::Sink;
use td_journal::{Reopened, StoreError, keep_journal};
use td_journal_files::{Contents, read_contents};
use td_paths::Unreadable;
use td_replica::{Catalogued, Replica};
use td_site_messages::{
    push_journal, push_own_gap, push_read_only_journal, push_room, push_start_alarms,
};
use td_site_opening::{
    ExitStatus, JournalFault, OUT_OF_MEMORY, ScriptFile, SiteJournal, StartFault, complain,
    is_lacking, journal_name, open_new, prepare_journal, report, report_left_out, report_unkept,
    take_contents,
};

// What is said at a terminal, since the program edits no lines by itself.
const LINE_EDITING: &str = "for line editing run: rlwrap ./td_shell ..\n";

/// What follows the alarms of a site that starts: the command that ends them.
const ALARM_HINT: &str = ", and .alarms acknowledge SITE ends them";

// What is said if the file cannot be read that has when statements came.
const UNREAD_ARRIVALS: &str =
    "fault file: when statements came cannot be read, and is not kept; move the file that ends in .came away, which is beside the journal\n";

/// Where a site comes from.
#[derive(Clone, Copy)]
enum Origin<'a> {
    /// It keeps no journal.
    New,
    /// It goes on with the journal of this name.
    Kept(&'a str),
    /// It has taken what is whole of this journal, which is left as it is.
    Read {
        name: &'a str,
        contents: &'a Contents,
        whole: u64,
    },
}

// What is said on the output of faults if a conversation breaks off.
fn words_of(ended: SessionEnd) -> &'static str {
    match ended {
        SessionEnd::OutOfMemory => OUT_OF_MEMORY,
        SessionEnd::ReadFault => "fault input: the input cannot be read\n",
        SessionEnd::WriteFault => "fault output: the output cannot be written\n",
    }
}

impl<'a> Origin<'a> {
    // The name of the site's journal, if it has one.
    fn journal(self) -> Option<&'a str> {
        match self {
            Origin::New => None,
            Origin::Kept(name) => Some(name),
            Origin::Read {
                name,
                contents: _,
                whole: _,
            } => Some(name),
        }
    }
}

// The exit status of a conversation, and why it broke off, if it did.
fn end<F: Sink>(ended: Result<ExitStatus, SessionEnd>, faults: &mut F) -> ExitStatus {
    match ended {
        Ok(status) => status,
        Err(ended) => {
            complain(faults, words_of(ended));
            ExitStatus::Fault
        }
    }
}

// Appends what was found of the site's journal.
fn push_found<R: Replica, P: Platform>(
    out: &mut String,
    run: &Run<'_, P>,
    site: &R,
    origin: Origin<'_>,
) -> Result<(), AllocError> {
    match origin {
        Origin::New => push_journal(out, None, None, site),
        Origin::Kept(name) => push_journal(out, Some(name), run.notes.found(), site),
        Origin::Read {
            name,
            contents,
            whole,
        } => push_read_only_journal(out, name, contents, whole, site),
    }
}

// Reports what was found of the site's journal, how much room is left, and what differs elsewhere.
fn report_found<R: Replica, P: Platform>(
    run: &mut Run<'_, P>,
    site: &R,
    alarms: &Alarms,
    origin: Origin<'_>,
) -> Result<(), AllocError> {
    let mut found = String::new(run.alloc);
    push_found(&mut found, run, site, origin)?;
    push_own_gap(&mut found, site)?;
    push_room(&mut found, site)?;
    push_start_alarms(&mut found, alarms, site.site(), ALARM_HINT)?;
    complain(run.faults, found.as_str());
    match origin {
        Origin::Kept(name) => report_left_out(run.host, name, run.notes.found(), run.faults),
        _ => Ok(()),
    }
}

// Whether the site may be changed. The mark is the name of a file that is there until a rebuilt site has met another one.
fn access_of<P: Platform>(
    run: &mut Run<'_, P>,
    options: &ShellOptions<'_>,
    mark: Option<&str>,
) -> Access {
    if options.site.is_read_only {
        Access::ReadOnly
    } else if options.site.journal.is_none() && !options.is_in_memory {
        Access::Unkept { received: 0 }
    } else if is_lacking(run.host, &options.site, run.notes, mark, run.faults) {
        Access::Lacking
    } else {
        Access::Open
    }
}

// Whether a site holds nothing yet.
fn is_new<R: Replica>(site: &R) -> bool {
    match site.held() {
        Ok(held) => held.is_empty(),
        Err(_) => false,
    }
}

// The lines that come before what is typed: the texts of the command line, and those after the script for a site that
// holds nothing yet and issues statements. One that comes back has had them.
fn first_lines<R: Replica>(
    alloc: Global,
    site: &R,
    access: Access,
    typed: &[&str],
    after: Vec<u8>,
) -> Result<Inputs, AllocError> {
    let mut inputs = Inputs::new(alloc);
    if !typed.is_empty() {
        inputs.read_texts(typed)?;
    }
    if is_new(site) && check_open(access).is_ok() {
        let _is_read = inputs.read_file(after)?;
    }
    Ok(inputs)
}

// When the statements came that a site holds, if it keeps a journal, or a report that this is not read.
fn open_arrivals<R: Replica, P: Platform>(
    run: &mut Run<'_, P>,
    site: &R,
    origin: Origin<'_>,
) -> Result<Option<Arrivals>, AllocError> {
    let Origin::Kept(journal) = origin else {
        return Ok(None);
    };
    let name = format!(in run.alloc; "{journal}.came")?;
    let mut arrivals = match Arrivals::open(run.alloc, run.host, Some(name)) {
        Ok(arrivals) => arrivals,
        Err(Unreadable::OutOfMemory) => return Err(AllocError),
        Err(_) => {
            complain(run.faults, UNREAD_ARRIVALS);
            return Ok(None);
        }
    };
    if let Ok(held) = site.held() {
        arrivals.begin(held.entries())?;
    }
    Ok(Some(arrivals))
}

// Converses, and returns the exit status: whether a fault was answered that nobody saw come.
fn hold<R: Changes + Catalogued + Drop, P: Platform>(
    run: &mut Run<'_, P>,
    session: &mut Session<R>,
    origin: Origin<'_>,
    keeps_going: bool,
) -> Result<ExitStatus, SessionEnd> {
    session.companions.arrivals = open_arrivals(run, &session.site, origin)?;
    if session.is_prompted && run.terminal.is_output {
        complain(run.faults, LINE_EDITING);
    }
    converse(run, session)?;
    if session.has_faults && !session.is_prompted && !keeps_going {
        Ok(ExitStatus::Fault)
    } else {
        Ok(ExitStatus::Success)
    }
}

// Converses at a site of which was reported what was found.
fn converse_at<R: Changes + Catalogued + Drop, P: Platform>(
    run: &mut Run<'_, P>,
    options: &ShellOptions<'_>,
    site: R,
    companions: Companions,
    origin: Origin<'_>,
    after: Vec<u8>,
) -> Result<ExitStatus, SessionEnd> {
    let access = access_of(run, options, companions.mark());
    let is_prompted = run.terminal.is_input && options.typed.is_empty();
    match first_lines(run.alloc, &site, access, &options.typed, after) {
        Ok(inputs) => {
            let mut session = Session::new(
                run.alloc,
                site,
                access,
                companions,
                inputs,
                is_prompted,
            );
            hold(run, &mut session, origin, options.keeps_going)
        }
        Err(error) => Err(SessionEnd::from(error)),
    }
}

// Reports what was found of the site's journal, and converses at the site.
fn begin_with<R: Changes + Catalogued + Drop, P: Platform>(
    run: &mut Run<'_, P>,
    options: &ShellOptions<'_>,
    site: R,
    companions: Companions,
    origin: Origin<'_>,
    after: Vec<u8>,
) -> ExitStatus {
    let ended = match report_found(run, &site, &companions.alarms, origin) {
        Ok(()) => converse_at(run, options, site, companions, origin, after),
        Err(error) => Err(SessionEnd::from(error)),
    };
    end(ended, run.faults)
}

// Opens what is beside the journal of the site, reports what was found of its journal, and converses at the site.
fn begin<R: Changes + Catalogued + Drop, P: Platform>(
    run: &mut Run<'_, P>,
    options: &ShellOptions<'_>,
    site: R,
    origin: Origin<'_>,
    after: Vec<u8>,
) -> ExitStatus {
    let journal = origin.journal();
    match Companions::open(run.alloc, run.host, journal) {
        Ok(companions) => begin_with(run, options, site, companions, origin, after),
        Err(Unreadable::OutOfMemory) => end(Err(SessionEnd::OutOfMemory), run.faults),
        Err(error) => report_journal(run, journal.unwrap_or(""), JournalFault::Alarms(error)),
    }
}

// Reports that the journal of this name cannot be used.
fn report_journal<P: Platform>(
    run: &mut Run<'_, P>,
    name: &str,
    error: JournalFault<'_>,
) -> ExitStatus {
    let fault = StartFault::Journal { name, error };
    report(run.alloc, run.host, fault, run.faults)
}

// Has the site take what its journal has, which is left as it is, and converses at it.
fn start_taking<P: Platform>(
    run: &mut Run<'_, P>,
    options: &ShellOptions<'_>,
    journal: &SiteJournal<'_>,
    contents: &Contents,
    site: P::Site,
) -> ExitStatus
    requires { IsNew (P.Site.seen site) }
{
    let name = journal.name;
    match take_contents(run.alloc, contents, site, run.meter) {
        Ok(
            Reopened {
                replica,
                whole,
                version: _,
            },
        ) => {
            let origin = Origin::Read {
                name,
                contents,
                whole,
            };
            begin(run, options, replica, origin, Vec::new(run.alloc))
        }
        Err(error) => {
            let error = JournalFault::NotReopened {
                contents,
                error: &error,
                script: journal.script,
                site: journal.options.site,
                limit: journal.options.limit,
            };
            report_journal(run, name, error)
        }
    }
}

// Reads the journal, and converses at the site that takes what it has.
fn start_reading<P: Platform>(
    run: &mut Run<'_, P>,
    options: &ShellOptions<'_>,
    journal: &SiteJournal<'_>,
    site: P::Site,
) -> ExitStatus
    requires { IsNew (P.Site.seen site) }
{
    match read_contents(run.host, journal.name) {
        Ok(contents) => start_taking(run, options, journal, &contents, site),
        Err(error) => report_journal(run, journal.name, JournalFault::Unreadable(error)),
    }
}

// Has the site go on with its journal, and converses at it.
fn start_keeping<P: Platform>(
    run: &mut Run<'_, P>,
    options: &ShellOptions<'_>,
    journal: &SiteJournal<'_>,
    site: P::Site,
    after: Vec<u8>,
) -> ExitStatus
    requires { IsNew (P.Site.seen site) }
{
    let name = journal.name;
    if options.site.salvages {
        run.notes.salvage();
    }
    match keep_journal(run.alloc, run.store, name, site, run.meter) {
        Ok(site) => begin(run, options, site, Origin::Kept(name), after),
        Err(StoreError::OutOfMemory) => end(Err(SessionEnd::OutOfMemory), run.faults),
        Err(StoreError::JournalFile) => report_unkept::<P::Site, _, _>(
            run.alloc, run.host, journal, run.notes, run.meter, run.faults,
        ),
    }
}

// Has the site come back from the journal of this name, and converses at it.
fn start_named<P: Platform>(
    run: &mut Run<'_, P>,
    options: &ShellOptions<'_>,
    journal: &SiteJournal<'_>,
    site: P::Site,
    after: Vec<u8>,
) -> ExitStatus
    requires { IsNew (P.Site.seen site) }
{
    if let Err(error) = prepare_journal(run.alloc, run.host, &options.site, journal.name) {
        return report_journal(run, journal.name, error);
    }
    if options.site.is_read_only {
        start_reading(run, options, journal, site)
    } else {
        start_keeping(run, options, journal, site, after)
    }
}

// Has the site come back from its journal, if it keeps one, and converses at it.
fn start_at<P: Platform>(
    run: &mut Run<'_, P>,
    options: &ShellOptions<'_>,
    script: ScriptFile,
    site: P::Site,
) -> ExitStatus
    requires { IsNew (P.Site.seen site) }
{
    let ScriptFile { text, after } = script;
    match journal_name(run.alloc, &options.site) {
        Ok(None) => begin(run, options, site, Origin::New, after),
        Ok(Some(name)) => {
            let journal = SiteJournal {
                options: options.site,
                script: text.as_str(),
                name: name.as_str(),
            };
            start_named(run, options, &journal, site, after)
        }
        Err(error) => end(Err(SessionEnd::from(error)), run.faults),
    }
}

/// Opens the site of the script, and converses at it.
pub(crate) fn start<P: Platform>(
    run: &mut Run<'_, P>,
    options: &ShellOptions<'_>,
    script: ScriptFile,
) -> ExitStatus {
    match open_new::<P::Site>(run.alloc, &options.site, script.text.as_str()) {
        Ok(site) => start_at(run, options, script, site),
        Err(error) => {
            let fault = StartFault::Unopened {
                file: options.site.script,
                script: script.text.as_str(),
                error: &error,
            };
            report(run.alloc, run.host, fault, run.faults)
        }
    }
}
