//! What is kept beside the journal of a site.

use std::alloc::Global;
use std::rt::Files;
use td_alarms::Alarms;
use td_arrivals::Arrivals;
use td_paths::Unreadable;
use td_site_opening::{end_rebuild, find_mark, open_alarms};

/// What is kept beside the journal of a site.
#[derive(Drop)]
pub(crate) struct Companions {
    /// The sites whose statements differ elsewhere.
    pub alarms: Alarms,
    /// When the statements of the site came; none if that is not kept.
    pub arrivals: Option<Arrivals>,
    /// The name of a file that is there until a rebuilt site has met another one, if it is there.
    pub mark: Option<String>,
}

impl Companions {
    /// What is beside the journal of this name; nothing where there is none.
    pub(crate) fn open<H: Files + AllocGlobal>(
        alloc: Global,
        host: &H,
        journal: Option<&str>,
    ) -> Result<Companions, Unreadable> {
        let alarms = open_alarms(alloc, host, journal)?;
        match find_mark(alloc, host, journal) {
            Ok(mark) => Ok(Companions {
                alarms,
                arrivals: None,
                mark,
            }),
            Err(_) => Err(Unreadable::OutOfMemory),
        }
    }

    /// The name of the file that is there until a rebuilt site has met another one, if it is there.
    pub(crate) fn mark(&self) -> Option<&str> {
        match &self.mark {
            Some(mark) => Some(mark.as_str()),
            None => None,
        }
    }

    /// Notes that the site has met another one.
    pub(crate) fn end_rebuild<H: Files>(&mut self, host: &H) {
        if let Some(mark) = &self.mark {
            end_rebuild(host, mark.as_str());
        }
        self.mark = None;
    }
}
