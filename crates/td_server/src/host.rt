//! What the server of a site goes by, and the files beside its journal.

use crate::words::ServerOptions;
use std::alloc::AllocError;
use td_alarms::Alarms;
use td_arrivals::Arrivals;
use td_client_tokens::ClientToken;
use td_contacts::Contacts;
use td_digested_sites::DigestedSite;
use td_io::Device;
use td_journal::Keeper;
use td_journal_files::{Notes, Synced};
use td_paths::Unreadable;
use td_replica::Replica;
use td_site_desk::Reversals;
use td_site_messages::{push_journal, push_own_gap, push_start_alarms};
use td_site_opening::{
    ExitStatus, OUT_OF_MEMORY, complain, find_mark, is_lacking, report_left_out,
};
use td_token_files::{TokenFile, TokenFileError};

/// How an alarm is ended.
const ALARM_HINT: &str = ", and the button on the page ends them";

/// A site that is kept in the file of its journal.
pub(crate) type JournaledSite<'a, R> = Keeper<R, Device<Synced<'a, HostRuntime>>>;

/// One that keeps what is hashed of it, too.
pub(crate) type KeptSite<'a, R> = DigestedSite<JournaledSite<'a, R>>;

/// What the server of a site goes by.
#[derive(Clone, Copy)]
pub(crate) struct Host<'a> {
    pub(crate) rt: &'a HostRuntime,
    pub(crate) options: &'a ServerOptions<'a>,
    pub(crate) script: &'a str,
    pub(crate) notes: &'a Notes,
    /// The name of the journal.
    pub(crate) journal: &'a str,
}

/// The lists beside a journal.
#[derive(Drop)]
pub(crate) struct Lists {
    pub(crate) reversals: Reversals,
    pub(crate) alarms: Alarms,
    pub(crate) arrivals: Arrivals,
    pub(crate) contacts: Contacts,
}

/// Reports that memory ran out, and returns the exit status for that.
pub(crate) fn report_memory(rt: &HostRuntime) -> ExitStatus {
    let _ = eprint!(rt; "{}", OUT_OF_MEMORY);
    ExitStatus::Fault
}

impl Host<'_> {
    /// Reports what was found of the journal; returns whether the site issues nothing until it has met another one.
    pub(crate) fn report_journal<R: Replica>(self, site: &R) -> Result<bool, AllocError> {
        let mut found = String::new(self.rt.alloc());
        push_journal(&mut found, Some(self.journal), self.notes.found(), site)?;
        push_own_gap(&mut found, site)?;
        let mut faults = Device::new(self.rt.stderr());
        complain(&mut faults, found.as_str());
        report_left_out(self.rt, self.journal, self.notes.found(), &mut faults)?;
        let mark = self.find_mark()?;
        let mark = match &mark {
            Some(mark) => Some(mark.as_str()),
            None => None,
        };
        Ok(is_lacking(self.rt, &self.options.site, self.notes, mark, &mut faults))
    }

    /// Reports the alarms that nobody has acknowledged.
    pub(crate) fn report_alarms(self, alarms: &Alarms) -> Result<(), AllocError> {
        let mut found = String::new(self.rt.alloc());
        push_start_alarms(&mut found, alarms, self.options.site.site, ALARM_HINT)?;
        complain(&mut Device::new(self.rt.stderr()), found.as_str());
        Ok(())
    }

    /// The name of the file that is there until a rebuilt site has met another one, if it is there.
    pub(crate) fn find_mark(self) -> Result<Option<String>, AllocError> {
        find_mark(self.rt.alloc(), self.rt, Some(self.journal))
    }

    /// The file of the tokens and what it has, or the exit status after a report why there are none.
    pub(crate) fn open_tokens(self) -> Result<(TokenFile, Vec<ClientToken>), ExitStatus> {
        let alloc = self.rt.alloc();
        let journal = self.journal;
        let Ok(beside) = format!(in alloc; "{journal}.token") else {
            return Err(report_memory(self.rt));
        };
        let name = self.options.token_file.unwrap_or(beside.as_str());
        match TokenFile::open(alloc, self.rt, name) {
            Ok(opened) => Ok(opened),
            Err(TokenFileError::OutOfMemory) => Err(report_memory(self.rt)),
            Err(error) => {
                let _ = eprintln!(self.rt; "fault token {name}: {error}");
                Err(ExitStatus::BadWords)
            }
        }
    }

    /// The lists beside the journal, or the exit status after a report why one of them is not read.
    pub(crate) fn open_lists(self) -> Result<Lists, ExitStatus> {
        Ok(Lists {
            reversals: self.open_reversals()?,
            alarms: self.open_alarms()?,
            arrivals: self.open_arrivals()?,
            contacts: self.open_contacts()?,
        })
    }

    // The statements that came to something else, or the exit status after a report why their list is not read.
    fn open_reversals(self) -> Result<Reversals, ExitStatus> {
        let alloc = self.rt.alloc();
        let journal = self.journal;
        let Ok(name) = format!(in alloc; "{journal}.reversed") else {
            return Err(report_memory(self.rt));
        };
        match Reversals::open(alloc, self.rt, Some(name)) {
            Ok(reversals) => Ok(reversals),
            Err(error) => Err(self.report_list(".reversed", error)),
        }
    }

    // The alarms that nobody has acknowledged, or the exit status after a report why their list is not read.
    fn open_alarms(self) -> Result<Alarms, ExitStatus> {
        let alloc = self.rt.alloc();
        let journal = self.journal;
        let Ok(name) = format!(in alloc; "{journal}.differing") else {
            return Err(report_memory(self.rt));
        };
        match Alarms::open(alloc, self.rt, Some(name)) {
            Ok(alarms) => Ok(alarms),
            Err(error) => Err(self.report_list(".differing", error)),
        }
    }

    // When statements came, or the exit status after a report why their list is not read.
    fn open_arrivals(self) -> Result<Arrivals, ExitStatus> {
        let alloc = self.rt.alloc();
        let journal = self.journal;
        let Ok(name) = format!(in alloc; "{journal}.came") else {
            return Err(report_memory(self.rt));
        };
        match Arrivals::open(alloc, self.rt, Some(name)) {
            Ok(arrivals) => Ok(arrivals),
            Err(error) => Err(self.report_list(".came", error)),
        }
    }

    // The sites that were met, or the exit status after a report why their list is not read.
    fn open_contacts(self) -> Result<Contacts, ExitStatus> {
        let alloc = self.rt.alloc();
        let journal = self.journal;
        let Ok(name) = format!(in alloc; "{journal}.peers") else {
            return Err(report_memory(self.rt));
        };
        match Contacts::open(alloc, self.rt, Some(name), &self.options.calls) {
            Ok(contacts) => Ok(contacts),
            Err(error) => Err(self.report_list(".peers", error)),
        }
    }

    // Reports why a list beside the journal is not read, and returns the exit status.
    fn report_list(self, ending: &str, error: Unreadable) -> ExitStatus {
        if matches!(error, Unreadable::OutOfMemory) {
            return report_memory(self.rt);
        }
        let journal = self.journal;
        let why = error.words();
        let _ = eprintln!(self.rt;
            "fault file {journal}{ending}: {why}; move it away to begin a new list"
        );
        ExitStatus::BadJournal
    }
}
