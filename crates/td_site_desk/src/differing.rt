//! Alarms: sites whose statements differ here and at a site that was met.

ghost use Rattle.std.specs.Prelude.{◌≡◌};

use crate::desk::SiteDesk;
use crate::words::{fault, write_count, write_text};
use std::alloc::AllocError;
use std::net::IpAddr;
use std::rt::Runtime;
use td_alarms::Alarm;
use td_changes::Changes;
use td_http_api::{StatusCode, Writer};
use td_replica::Catalogued;
use td_site_messages::push_count;

/// What is said with each statement of a site whose own statements differ at another one.
const OWN_ALARM: &str =
    "statements of this site differ at another one: two programs have written as it, or a journal is damaged; docs/TUTORIAL.md says what to do";

// Appends an alarm.
fn push_alarm(out: &mut Writer, site: u16, address: &str) -> Result<(), AllocError> {
    out.begin_object()?;
    write_count(out, "site", u64::from(site))?;
    write_text(out, "address", address)?;
    out.end_object()
}

impl<R: Changes + Catalogued + Drop, H: Runtime + AllocGlobal> SiteDesk<'_, R, H> {
    // The line about alarms that are new.
    fn alarm_line(&self, count: usize, address: IpAddr) -> Result<String, AllocError> {
        let mut line = String::new(self.alloc);
        push_count(&mut line, count, "new alarm")?;
        write!(
            &mut line,
            ": statements differ here and at {address}; GET /api/site has of which sites"
        )?;
        Ok(line)
    }

    // Reports alarms that are new, and keeps them.
    fn keep_alarms(&mut self, count: usize, address: IpAddr)
        ensures { R.seen self.new.site ≡ R.seen self.old.site }
    {
        if let Ok(line) = self.alarm_line(count, address) {
            self.report(line.as_str());
        }
        self.save_alarms();
    }

    // Writes the list of alarms to its file, and reports if that fails.
    fn save_alarms(&mut self)
        ensures { R.seen self.new.site ≡ R.seen self.old.site }
    {
        if !matches!(self.alarms.save(self.host), Ok(true)) {
            self.report_fault("fault file: the list of alarms cannot be written");
        }
    }

    /// Raises an alarm for each of these sites, which a meeting with the site at this address left out.
    pub(crate) fn raise_alarms(&mut self, sites: &[u16], address: IpAddr)
        ensures { R.seen self.new.site ≡ R.seen self.old.site }
    {
        match self.alarms.raise(sites, address) {
            Ok(0) => {}
            Ok(count) => {
                self.keep_alarms(count, address);
                self.mark_change();
            }
            Err(_) => self.report_fault("fault memory: an alarm is not kept"),
        }
    }

    /// Lets go of the alarms of a site, since a person has seen them, and replaces the list's file.
    pub(crate) fn acknowledge_alarms(
        &mut self,
        site: u64,
        out: &mut Writer,
    ) -> Result<StatusCode, AllocError>
        ensures { R.seen self.new.site ≡ R.seen self.old.site }
    {
        let count = match u16::try_from(site) {
            Ok(site) => self.alarms.acknowledge(site),
            Err(_) => 0,
        };
        if count == 0 {
            let words = "there is no alarm of this site";
            return fault(out, StatusCode::UNPROCESSABLE_ENTITY, words);
        }
        self.save_alarms();
        self.mark_change();
        write_count(out, "acknowledged", count as u64)?;
        Ok(StatusCode::OK)
    }

    // Appends an alarm as an element of the list.
    fn write_alarm(&self, alarm: &Alarm, out: &mut Writer) -> Result<(), AllocError> {
        let address = alarm.address;
        let address = format!(in self.alloc; "{address}")?;
        push_alarm(out, alarm.site, address.as_str())
    }

    /// Appends the alarms that nobody has acknowledged.
    pub(crate) fn write_alarms(&self, out: &mut Writer) -> Result<(), AllocError> {
        out.key("alarms")?;
        out.begin_array()?;
        for alarm in self.alarms.list() {
            self.write_alarm(alarm, out)?;
        }
        out.end_array()
    }

    /// What is said with each statement that is issued here, if there is an alarm of this site.
    pub(crate) fn warning(&self) -> Option<&'static str> {
        if self.alarms.is_raised(self.site.site()) {
            Some(OWN_ALARM)
        } else {
            None
        }
    }
}
