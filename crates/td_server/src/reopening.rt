//! A journal that failed while its site was served.

use crate::host::{Host, KeptSite, report_memory};
use std::alloc::AllocError;
use std::fs;
use td_digested_sites::DigestedSite;
use td_journal::keep_journal;
use td_journal_files::{FileJournals, read_contents};
use td_paths::replace_file;
use td_replica::Opens;
use td_semantics::Meter;
use td_site_messages::failure_words;
use td_site_opening::{ExitStatus, open_new, prepare_journal, take_contents};

/// How many bytes are written to see whether a statement could be: more than the greatest one has.
const TRIED_BYTES: usize = 16_384;

/// The most milliseconds between two tries.
const TRY_TIME: u64 = 30_000;

impl<'a> Host<'a> {
    /// Milliseconds between two tries.
    pub(crate) fn try_time(self) -> u64 {
        self.give_up_time().min(TRY_TIME)
    }

    /// For how many milliseconds a journal that failed is tried again.
    pub(crate) fn give_up_time(self) -> u64 {
        self.options.give_up.saturating_mul(1_000)
    }

    // Writes a file beside the journal, which is removed again. Returns whether the disk took it.
    fn try_writing(self) -> Result<bool, AllocError> {
        let alloc = self.rt.alloc();
        let journal = self.journal;
        let name = format!(in alloc; "{journal}.try")?;
        let beside = format!(in alloc; "{journal}.try.new")?;
        let mut text = String::with_capacity(alloc, TRIED_BYTES)?;
        for _ in 0..TRIED_BYTES {
            text.push_str("-")?;
        }
        let is_written = replace_file(
            self.rt,
            name.as_str(),
            beside.as_str(),
            text.as_str(),
        ).is_ok();
        let _ = fs::remove_file(self.rt, beside.as_str());
        let _ = fs::remove_file(self.rt, name.as_str());
        Ok(is_written)
    }

    /// The site that comes back from its journal again, as at a start; none if the journal cannot be used yet.
    pub(crate) fn reopen<R: Opens + Drop>(self) -> Option<KeptSite<'a, R>> {
        let mut options = self.options.site;
        options.is_new = false;
        options.is_rebuilt = false;
        let is_writable = matches!(self.try_writing(), Ok(true));
        let alloc = self.rt.alloc();
        if !is_writable || prepare_journal(alloc, self.rt, &options, self.journal).is_err() {
            return None;
        }
        let Ok(site) = open_new::<R>(alloc, &options, self.script) else {
            return None;
        };
        let journals = FileJournals::new(self.rt, self.notes).with_sums();
        let mut meter = Meter::new(self.rt);
        match keep_journal(alloc, &journals, self.journal, site, &mut meter) {
            Ok(kept) => Some(DigestedSite::new(alloc, kept)),
            Err(_) => None,
        }
    }

    // A site that has what is complete of the journal, and is kept nowhere; none if the file is not read.
    fn read<R: Opens + Drop>(self) -> Option<R> {
        let alloc = self.rt.alloc();
        let Ok(contents) = read_contents(self.rt, self.journal) else {
            return None;
        };
        let Ok(site) = open_new::<R>(alloc, &self.options.site, self.script) else {
            return None;
        };
        let mut meter = Meter::new(self.rt);
        match take_contents(alloc, &contents, site, &mut meter) {
            Ok(reopened) => Some(reopened.replica),
            Err(_) => None,
        }
    }

    /// A site that answers queries from what is complete of the journal, or the exit status after a report that there
    /// is none.
    pub(crate) fn open_read<R: Opens + Drop>(self) -> Result<R, ExitStatus> {
        match self.read() {
            Some(site) => Ok(site),
            None => {
                let journal = self.journal;
                let _ = eprintln!(self.rt;
                    "fault journal {journal}: it cannot be written, and is not read either"
                );
                Err(ExitStatus::BadJournal)
            }
        }
    }

    /// Why the site takes no statements, or the exit status if memory runs out.
    pub(crate) fn failure_text(self) -> Result<String, ExitStatus> {
        let why = failure_words(self.notes.failure());
        let text = format!(in self.rt.alloc();
            "journal: the journal of this site cannot be written: {why}; queries are answered, and it is tried again"
        );
        match text {
            Ok(text) => Ok(text),
            Err(_) => Err(report_memory(self.rt)),
        }
    }

    /// Reports that the journal could not be used for too long, and returns the exit status.
    pub(crate) fn give_up(self) -> ExitStatus {
        let journal = self.journal;
        let seconds = self.options.give_up;
        let _ = eprintln!(self.rt;
            "fault journal {journal}: it could not be written for {seconds} seconds (--give-up)"
        );
        ExitStatus::BadJournal
    }
}
