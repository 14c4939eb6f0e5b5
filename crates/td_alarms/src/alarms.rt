//! Alarms, and those that are kept.

ghost use Rattle.std.specs.Prelude.{◌≡◌, ◌==◌, ◌-◌, ◌≤◌, not, length, IfOk, OnOk, OnErr};
ghost use Rattle.std.specs.List.{filter, list_any};
ghost use Rattle.td_alarms.specs.Raising.{RaisesEach};

use crate::kept::{alarms_in, text_of};
use crate::raising::raise_each;
use std::alloc::{AllocError, Global};
use std::marker::Model;
use std::net::IpAddr;
use std::rt::Files;
use td_paths::{Unreadable, replace_file};

/// Statements of a site differ here and at the site that was met at an address.
#[derive(Clone, Copy, PartialEq, Eq)]
pub struct Alarm {
    pub site: u16,
    pub address: IpAddr,
}

/// The alarms that nobody has acknowledged yet, in a file beside the journal if there is a journal: one for each site
/// and address, at most 64.
#[derive(Drop)]
pub struct Alarms {
    alloc: Global,
    name: Option<String>,
    kept: Vec<Alarm>,
}

impl Model for Alarms {
    ghost use Rattle.std.specs.Prelude.{◌≤◌, length, List};
    ghost use Rattle.td_alarms.specs.declared.alarms.Alarm.{Alarm};

    ghost Value = { List Alarm };

    ghost view = { λ a. a.kept.items };

    ghost invariant = { λ a. length a.kept.items ≤ 64 };
}

impl Alarms {
    /// Those that the file of this name has, if there is one. A file that is there and cannot be read is an error, since
    /// it would be written over.
    pub fn open<H: Files + AllocGlobal>(
        alloc: Global,
        host: &H,
        name: Option<String>,
    ) -> Result<Alarms, Unreadable> {
        let kept = match &name {
            Some(name) => alarms_in(alloc, host, name.as_str())?,
            None => Vec::new(alloc),
        };
        Ok(Alarms { alloc, name, kept })
    }

    /// All of them, the oldest first.
    pub fn list(&self) -> &[Alarm]
        ensures { result.now ≡ self.now }
    {
        self.kept.as_slice()
    }

    /// Raises an alarm for each of these sites, which differ here and at the site met at the address; returns how many
    /// are new. After an error nothing changed.
    pub fn raise(&mut self, sites: &[u16], address: IpAddr) -> Result<usize, AllocError>
        ensures raised { OnOk result (RaisesEach address sites.now self.old self.new) }
        ensures counted { IfOk result (λ n. n ≡ length self.new - length self.old) }
        ensures unchanged { OnErr result (self.new ≡ self.old) }
    {
        let mut kept = self.kept.clone()?;
        raise_each(&mut kept, sites, address)?;
        let more = kept.len().saturating_sub(self.kept.len());
        self.kept = kept;
        Ok(more)
    }

    /// Lets go of the alarms of a site; returns how many there were.
    pub fn acknowledge(&mut self, site: u16) -> usize
        ensures others { self.new ≡ filter (λ a. not (a.site == site)) self.old }
        ensures counted { result ≡ length self.old - length self.new }
    {
        let before = self.kept.len();
        self.kept.retain(|alarm| alarm.site != site);
        before.saturating_sub(self.kept.len())
    }

    /// Whether there is an alarm of the site.
    pub fn is_raised(&self, site: u16) -> bool
        ensures { result ≡ list_any (λ a. a.site == site) self.now }
    {
        self.kept.iter().any(|alarm| alarm.site == site)
    }

    /// Replaces the file; returns whether that was done. Without a file there is nothing to do.
    pub fn save<H: Files>(&self, host: &H) -> Result<bool, AllocError> {
        let Some(name) = &self.name else {
            return Ok(true);
        };
        let name = name.as_str();
        let beside = format!(in self.alloc; "{name}.new")?;
        let text = text_of(self.alloc, &self.kept)?;
        Ok(replace_file(host, name, beside.as_str(), text.as_str()).is_ok())
    }
}
