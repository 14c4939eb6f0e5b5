//! A site whose journal has failed: until that is open again, another site that was read from it answers queries.

ghost use Rattle.std.specs.Prelude.{◌≡◌, option_copied, option_map, string_bytes};

use crate::desk::SiteDesk;
use std::rt::Runtime;
use td_changes::Changes;
use td_event_loop::MeetingOutcome;
use td_replica::Catalogued;

/// What is said of a meeting that is not made.
const NO_MEETING: &str = "fault journal: this site meets none until its journal can be written";

/// Why a site issues nothing and meets none, and until when.
#[derive(Drop)]
pub(crate) struct Suspension {
    pub(crate) why: String,
    /// In milliseconds since the event loop began.
    until: u64,
}

impl<'a, R: Drop, H> SiteDesk<'a, R, H> {
    /// The site, and the desk over another one in its place.
    pub fn with_site<S: Drop>(self, site: S) -> (R, SiteDesk<'a, S, H>)
        ensures old { result.0 ≡ self.entry.site }
        ensures new { result.1.site ≡ site }
    {
        let desk = SiteDesk {
            alloc: self.alloc,
            host: self.host,
            notes: self.notes,
            site,
            meter: self.meter,
            peers: self.peers,
            wish: self.wish,
            meetings: self.meetings,
            scopes: self.scopes,
            reversals: self.reversals,
            alarms: self.alarms,
            arrivals: self.arrivals,
            contacts: self.contacts,
            contacts_saved: self.contacts_saved,
            tokens: self.tokens,
            tokens_due: self.tokens_due,
            journal: self.journal,
            lines: self.lines,
            console: self.console,
            is_lacking: self.is_lacking,
            mark: self.mark,
            suspension: self.suspension,
            is_stopping: self.is_stopping,
            now: self.now,
            clients: self.clients,
            start: self.start,
            marks: self.marks.wrapping_add(1),
        };
        (self.site, desk)
    }

    /// Milliseconds since the event loop began.
    pub fn now(&self) -> u64 {
        self.now
    }

    /// Has the desk issue nothing and meet none for this reason, until a time at which another desk takes its place.
    pub fn suspend(&mut self, why: String, until: u64) {
        self.suspension = Some(Suspension { why, until });
        self.marks = self.marks.wrapping_add(1);
    }

    /// Has a desk that is suspended stay so until a later time.
    pub fn try_again(&mut self, until: u64) {
        if let Some(suspension) = &mut self.suspension {
            suspension.until = until;
        }
    }

    /// Why the desk issues nothing and meets none, if that is so.
    pub(crate) fn suspended(&self) -> Option<&str>
        ensures { option_copied result ≡ option_map (λ it. string_bytes it.why) self.entry.now.suspension }
    {
        match &self.suspension {
            Some(suspension) => Some(suspension.why.as_str()),
            None => None,
        }
    }
}

impl<R: Changes + Catalogued + Drop, H: Runtime + AllocGlobal> SiteDesk<'_, R, H> {
    /// Goes on with a site that has come back from its journal.
    pub fn resume(&mut self, is_lacking: bool)
        ensures { R.seen self.new.site ≡ R.seen self.old.site }
    {
        self.suspension = None;
        self.is_lacking = is_lacking;
        let _ = self.reversals.update(&self.site);
        self.mark_change();
    }

    /// Whether another desk is to take the place of this one: its journal has failed, or is to be tried again.
    pub(crate) fn is_leaving(&self) -> bool {
        match &self.suspension {
            Some(suspension) => suspension.until <= self.now,
            None => !self.site.is_open(),
        }
    }

    /// Whether a meeting is not made, which is noted then.
    pub(crate) fn refuses_meeting(&mut self, meeting: usize) -> bool
        ensures { R.seen self.new.site ≡ R.seen self.old.site }
    {
        if self.suspension.is_none() {
            return false;
        }
        self.note_words(meeting, MeetingOutcome::Fruitless, NO_MEETING);
        true
    }
}
