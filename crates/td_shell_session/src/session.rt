//! A site, and how far the conversation at it is.

use crate::access::Access;
use crate::companions::Companions;
use crate::draft::Draft;
use crate::fault::{Fault, PlainFault};
use crate::inputs::Inputs;
use std::alloc::Global;
use td_digested_sites::DigestedSite;
use td_replica::Replica;
use td_shell_input::Mode;

/// A site, and how far the conversation at it is.
#[derive(Drop)]
pub(crate) struct Session<R: Replica + Drop> {
    pub site: DigestedSite<R>,
    pub access: Access,
    pub companions: Companions,
    pub inputs: Inputs,
    pub draft: Draft,
    pub mode: Mode,
    /// Whether it says how long each answer took.
    pub is_timed: bool,
    /// Whether lines are typed at a terminal, and so have a prompt.
    pub is_prompted: bool,
    /// Whether a fault was answered, or an import stopped.
    pub has_faults: bool,
}

impl<R: Replica + Drop> Session<R> {
    /// A conversation at a site in which nothing was said yet.
    pub(crate) fn new(
        alloc: Global,
        site: R,
        access: Access,
        companions: Companions,
        inputs: Inputs,
        is_prompted: bool,
    ) -> Session<R> {
        Session {
            site: DigestedSite::new(alloc, site),
            access,
            companions,
            inputs,
            draft: Draft::new(alloc),
            mode: Mode::Table,
            is_timed: false,
            is_prompted,
            has_faults: false,
        }
    }
}

// How many statements of its own number the site holds.
fn own_count<R: Replica>(site: &R) -> usize {
    let own = site.site();
    match site.held() {
        Ok(held) => held
            .entries()
            .iter()
            .filter(|entry| entry.site == own)
            .count(),
        Err(_) => 0,
    }
}

impl<R: Replica + Drop> Session<R> {
    /// Whether the site may meet another one. A meeting may bring what its journal lacks.
    pub(crate) fn check_meets(&self) -> Result<(), Fault<'static>> {
        match self.access {
            Access::Open | Access::Lacking => Ok(()),
            Access::Unkept { received } if own_count(&self.site) > received => {
                Err(Fault::Unkept(self.site.site()))
            }
            Access::Unkept { .. } => Ok(()),
            Access::ReadOnly => Err(Fault::Plain(PlainFault::ReadOnly)),
        }
    }

    /// Notes a meeting, which may have come to its end.
    pub(crate) fn note_meeting(&mut self, is_complete: bool) {
        match self.access {
            Access::Unkept { .. } => {
                let received = own_count(&self.site);
                self.access = Access::Unkept { received };
            }
            Access::Lacking if is_complete => self.access = Access::Open,
            _ => {}
        }
    }
}

/// Whether a site may issue statements.
pub(crate) fn check_open(access: Access) -> Result<(), Fault<'static>> {
    match access {
        Access::Open | Access::Unkept { .. } => Ok(()),
        Access::Lacking => Err(Fault::Lacking),
        Access::ReadOnly => Err(Fault::Plain(PlainFault::ReadOnly)),
    }
}
