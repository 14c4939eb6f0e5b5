//! The sites that are met.

ghost use Rattle.std.specs.Prelude.{◌≡◌};

use crate::desk::SiteDesk;
use crate::scopes::PeerGreeting;
use crate::words::{write_count, write_null, write_text, write_truth};
use std::alloc::{AllocError, Global};
use std::rt::Runtime;
use td_arrivals::seconds_now;
use td_changes::Changes;
use td_checked_meetings::MeetingScope;
use td_contacts::{Contact, MetSite};
use td_event_loop::{MeetingOutcome, MeetingReport, MeetingSide};
use td_http_api::Writer;
use td_replica::Catalogued;

/// How long, in milliseconds, the file of contacts is not written again.
const SAVE_PAUSE: u64 = 30_000;

// Raises the number of a site to this one, where it is less or not there.
fn raise_number(vector: &mut Vec<(u16, u32)>, site: u16, number: u32) -> Result<(), AllocError> {
    if let Some(place) = vector.iter().position(|pair| pair.0 == site)
        && let Some(pair) = vector.get_mut(place)
    {
        pair.1 = pair.1.max(number);
        return Ok(());
    }
    vector.push((site, number))?;
    Ok(())
}

// What a site has for certain that greeted so: what its greeting says, and after a complete meeting in this scope also
// what was exchanged.
fn certain_vector(
    alloc: Global,
    greeting: &PeerGreeting,
    scope: Option<&MeetingScope>,
) -> Result<Vec<(u16, u32)>, AllocError> {
    let mut vector = greeting.vector.entries(alloc)?;
    if let Some(scope) = scope {
        for (site, number) in scope.vector.entries(alloc)? {
            if !scope.leaves_out(site) {
                raise_number(&mut vector, site, number)?;
            }
        }
    }
    Ok(vector)
}

// Appends how many seconds ago something was, null for never.
fn write_ago(out: &mut Writer, name: &str, since: Option<u64>, now: u64) -> Result<(), AllocError> {
    match since {
        Some(since) => write_count(out, name, now.saturating_sub(since)),
        None => write_null(out, name),
    }
}

// Appends what a contact has, a member for each site.
fn write_held(alloc: Global, out: &mut Writer, vector: &[(u16, u32)]) -> Result<(), AllocError> {
    out.key("vector")?;
    out.begin_object()?;
    for (site, number) in vector {
        let name = format!(in alloc; "{site}")?;
        write_count(out, name.as_str(), u64::from(*number))?;
    }
    out.end_object()
}

// Appends a contact, as it is at this time, in seconds since 1970.
fn write_contact(
    alloc: Global,
    out: &mut Writer,
    contact: &Contact,
    now: u64,
) -> Result<(), AllocError> {
    out.begin_object()?;
    match contact.site {
        Some(site) => write_count(out, "site", u64::from(site))?,
        None => write_null(out, "site")?,
    }
    let address = contact.address;
    let address = format!(in alloc; "{address}")?;
    write_text(out, "address", address.as_str())?;
    write_truth(out, "called", contact.is_called)?;
    write_ago(out, "met", contact.met, now)?;
    write_ago(out, "tried", contact.tried, now)?;
    write_count(out, "failed", contact.failed)?;
    write_held(alloc, out, &contact.vector)?;
    out.end_object()
}

impl<R: Changes + Catalogued + Drop, H: Runtime + AllocGlobal> SiteDesk<'_, R, H> {
    /// Appends the sites that were met and the addresses that are called, as `peers`.
    pub(crate) fn write_contacts(&self, out: &mut Writer) -> Result<(), AllocError> {
        let now = seconds_now(self.host).unwrap_or(0);
        out.key("peers")?;
        out.begin_array()?;
        for contact in self.contacts.list() {
            write_contact(self.alloc, out, contact, now)?;
        }
        out.end_array()
    }

    // The meeting that ended so, with a site that greeted so.
    fn met_site(
        &self,
        report: &MeetingReport,
        outcome: MeetingOutcome,
        greeting: Option<&PeerGreeting>,
        scope: Option<&MeetingScope>,
    ) -> Result<MetSite, AllocError> {
        let scope = if outcome == MeetingOutcome::Complete {
            scope
        } else {
            None
        };
        let (site, vector) = match greeting {
            Some(greeting) if outcome != MeetingOutcome::Failed => (
                Some(greeting.site),
                certain_vector(self.alloc, greeting, scope)?,
            ),
            _ => (None, Vec::new(self.alloc)),
        };
        Ok(MetSite {
            site,
            address: report.peer,
            is_called: report.side == MeetingSide::First,
            is_met: outcome != MeetingOutcome::Failed,
            vector,
        })
    }

    // Whether the contacts were written so lately that they are not written again.
    fn has_saved_contacts(&self) -> bool {
        match self.contacts_saved {
            Some(since) => self.now.saturating_sub(since) < SAVE_PAUSE,
            None => false,
        }
    }

    /// Takes note of a meeting that ended. If memory runs out, it is not noted.
    pub(crate) fn note_contact(
        &mut self,
        report: &MeetingReport,
        outcome: MeetingOutcome,
        greeting: Option<&PeerGreeting>,
        scope: Option<&MeetingScope>,
    )
        ensures { R.seen self.new.site ≡ R.seen self.old.site }
    {
        let Ok(met) = self.met_site(report, outcome, greeting, scope) else {
            return;
        };
        let now = seconds_now(self.host);
        let _ = self.contacts.note(met, now);
        if !self.has_saved_contacts() {
            self.contacts_saved = Some(self.now);
            self.save_contacts();
        }
    }

    /// Writes the contacts to their file, and reports if that fails.
    pub fn save_contacts(&mut self)
        ensures { R.seen self.new.site ≡ R.seen self.old.site }
    {
        if !matches!(self.contacts.save(self.host), Ok(true)) {
            self.report_fault("fault file: the list of sites that were met cannot be written");
        }
    }
}
