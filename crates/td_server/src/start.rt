//! A site that is opened, comes back from its journal, and is served.

ghost use Rattle.td_journal.specs.Reopening.{IsNew};

use crate::host::{Host, JournaledSite, Lists, report_memory};
use crate::serving::serve;
use crate::words::ServerOptions;
use std::alloc::AllocError;
use std::random::RandomSource;
use td_changes::Changes;
use td_client_tokens::ClientToken;
use td_io::Device;
use td_journal::{StoreError, keep_journal};
use td_journal_files::{FileJournals, Notes};
use td_replay::Site;
use td_replica::{Catalogued, Opens};
use td_semantics::Meter;
use td_site_desk::{DeskParts, Peers, SiteDesk};
use td_site_opening::{
    ExitStatus, ScriptFile, SiteJournal, StartFault, journal_name, open_new, prepare_journal,
    read_script, report, report_unkept,
};
use td_token_files::TokenFile;
use td_trials::Trials;

// Reports why there is no site, and returns the exit status.
fn report_fault(rt: &HostRuntime, fault: StartFault<'_>) -> ExitStatus {
    report(rt.alloc(), rt, fault, &mut Device::new(rt.stderr()))
}

// A number that no other start chose, as far as random numbers go.
fn new_number<H: RandomSource>(host: &H) -> u64 {
    let mut bytes = [0u8; 8];
    // Without randomness clients of two starts may take an old answer for the present one.
    let _ = host.fill_bytes(&mut bytes);
    u64::from_le_bytes(bytes)
}

impl<'a> Host<'a> {
    // The desk of a site that came back.
    fn desk_of<R: Changes + Catalogued + Trials + Drop>(
        self,
        site: R,
        meter: Meter,
        lists: Lists,
        tokens: TokenFile,
    ) -> Result<SiteDesk<'a, R, HostRuntime>, AllocError> {
        let alloc = self.rt.alloc();
        let is_lacking = self.report_journal(&site)?;
        self.report_alarms(&lists.alarms)?;
        let peers = Peers {
            addresses: self.options.calls.clone()?,
        };
        let parts = DeskParts {
            host: self.rt,
            notes: self.notes,
            site,
            meter,
            peers,
            reversals: lists.reversals,
            alarms: lists.alarms,
            arrivals: lists.arrivals,
            contacts: lists.contacts,
            tokens,
            journal: self.journal,
            is_lacking,
            start: new_number(self.rt),
            mark: self.find_mark()?,
        };
        SiteDesk::new(alloc, parts)
    }

    // Serves a site that came back from its journal, to clients that show a token.
    fn serve_by_tokens<R: Opens + Changes + Catalogued + Trials + Drop>(
        self,
        token_file: TokenFile,
        tokens: Vec<ClientToken>,
        site: JournaledSite<'a, R>,
        meter: Meter,
    ) -> ExitStatus {
        let lists = match self.open_lists() {
            Ok(lists) => lists,
            Err(status) => return status,
        };
        match self.desk_of(site, meter, lists, token_file) {
            Ok(desk) => serve(self, tokens, desk),
            Err(_) => report_memory(self.rt),
        }
    }

    // Serves a site that came back from its journal.
    fn serve_kept<R: Opens + Changes + Catalogued + Trials + Drop>(
        self,
        site: JournaledSite<'a, R>,
        meter: Meter,
    ) -> ExitStatus {
        match self.open_tokens() {
            Ok((token_file, tokens)) => self.serve_by_tokens(token_file, tokens, site, meter),
            Err(status) => status,
        }
    }

    // Reports why the site does not come back from its journal.
    fn report_unkept<R: Opens + Drop>(self, meter: &mut Meter) -> ExitStatus {
        let journal = SiteJournal {
            options: self.options.site,
            script: self.script,
            name: self.journal,
        };
        let mut faults = Device::new(self.rt.stderr());
        report_unkept::<R, _, _>(
            self.rt.alloc(),
            self.rt,
            &journal,
            self.notes,
            meter,
            &mut faults,
        )
    }

    // Has a new site of the script come back from its journal, and serves it.
    fn keep<R: Opens + Changes + Catalogued + Trials + Drop>(self, site: R) -> ExitStatus
        requires { IsNew (R.seen site) }
    {
        let mut meter = Meter::new(self.rt);
        let journals = FileJournals::new(self.rt, self.notes).with_sums();
        match keep_journal(self.rt.alloc(), &journals, self.journal, site, &mut meter) {
            Ok(site) => self.serve_kept(site, meter),
            Err(StoreError::OutOfMemory) => report_memory(self.rt),
            Err(StoreError::JournalFile) => self.report_unkept::<R>(&mut meter),
        }
    }
}

// Has a new site of this script come back from the journal of this name, and serves it.
fn start_named<R: Opens + Changes + Catalogued + Trials + Drop>(
    rt: &HostRuntime,
    options: &ServerOptions<'_>,
    name: &str,
    script: &str,
    site: R,
) -> ExitStatus
    requires { IsNew (R.seen site) }
{
    if let Err(error) = prepare_journal(rt.alloc(), rt, &options.site, name) {
        return report_fault(rt, StartFault::Journal { name, error });
    }
    let notes = Notes::new();
    if options.site.salvages {
        notes.salvage();
    }
    let host = Host {
        rt,
        options,
        script,
        notes: &notes,
        journal: name,
    };
    host.keep(site)
}

// Has a new site of this script come back from its journal, and serves it.
fn start_at<R: Opens + Changes + Catalogued + Trials + Drop>(
    rt: &HostRuntime,
    options: &ServerOptions<'_>,
    script: &str,
    site: R,
) -> ExitStatus
    requires { IsNew (R.seen site) }
{
    match journal_name(rt.alloc(), &options.site) {
        Ok(Some(name)) => start_named(rt, options, name.as_str(), script, site),
        Ok(None) => ExitStatus::BadJournal,
        Err(_) => report_memory(rt),
    }
}

// Opens the site of this script, and serves it.
fn start_site<R: Opens + Changes + Catalogued + Trials + Drop>(
    rt: &HostRuntime,
    options: &ServerOptions<'_>,
    script: &str,
) -> ExitStatus {
    match open_new::<R>(rt.alloc(), &options.site, script) {
        Ok(site) => start_at(rt, options, script, site),
        Err(error) => {
            let fault = StartFault::Unopened {
                file: options.site.script,
                script,
                error: &error,
            };
            report_fault(rt, fault)
        }
    }
}

// Reports that the script's file has more than definitions, if it has: the server runs nothing of that.
fn report_left_out(rt: &HostRuntime, file: &str, after: &[u8]) {
    if after.iter().any(|byte| !byte.is_ascii_whitespace()) {
        let _ = eprintln!(rt;
            "note: what stands behind .begin in {file} is not run; td_shell runs it once, with the same journal"
        );
    }
}

/// Serves a site as the words say, and returns the exit status.
pub(crate) fn start_server(rt: &HostRuntime, options: &ServerOptions<'_>) -> ExitStatus {
    let file = options.site.script;
    match read_script(rt.alloc(), rt, file) {
        Ok(ScriptFile { text, after }) => {
            report_left_out(rt, file, &after);
            start_site::<Site>(rt, options, text.as_str())
        }
        Err(error) => report_fault(rt, StartFault::NoScript { file, error }),
    }
}
