//! The sites that were met, and the addresses that are called.

ghost use Rattle.std.specs.Prelude.{◌≡◌, true, false};

use crate::lines::{contacts_in, push_contact};
use std::alloc::{AllocError, Global};
use std::net::SocketAddr;
use std::rt::Files;
use td_paths::{Unreadable, replace_file};

/// The most contacts that are kept.
const MOST_CONTACTS: usize = 256;

/// A site that was met, or an address that is called.
#[derive(Drop)]
pub struct Contact {
    /// The number of the site; none where no meeting has brought it.
    pub site: Option<u16>,
    /// Where it was met or called last. Each call of another site comes from another port.
    pub address: SocketAddr,
    /// It is called; else it calls.
    pub is_called: bool,
    /// When a meeting with it last did what it is for, in seconds since 1970; none for never.
    pub met: Option<u64>,
    /// When a meeting with it last ended.
    pub tried: Option<u64>,
    /// How many meetings with it failed since it was met.
    pub failed: u64,
    /// Of each site, up to which number it has the statements for certain.
    pub vector: Vec<(u16, u32)>,
}

/// A meeting that ended.
#[derive(Drop)]
pub struct MetSite {
    /// The number of the other site; none if it was not heard of.
    pub site: Option<u16>,
    pub address: SocketAddr,
    pub is_called: bool,
    /// The meeting did what it is for.
    pub is_met: bool,
    /// Of each site, up to which number the other one has the statements now; empty if that is not known.
    pub vector: Vec<(u16, u32)>,
}

/// The contacts of a site, in a file beside the journal if there is a journal.
#[derive(Drop)]
pub struct Contacts {
    alloc: Global,
    name: Option<String>,
    list: Vec<Contact>,
}

// A contact of which nothing is known yet.
fn new_contact(alloc: Global, site: Option<u16>, address: SocketAddr, is_called: bool) -> Contact {
    Contact {
        site,
        address,
        is_called,
        met: None,
        tried: None,
        failed: 0,
        vector: Vec::new(alloc),
    }
}

impl Contact {
    // Takes note of a meeting that ended.
    fn note(&mut self, meeting: MetSite, now: Option<u64>)
        ensures tried { self.new.tried ≡ now }
        ensures met { meeting.is_met ≡ true → (self.new.met ≡ now) × (self.new.failed ≡ 0) }
        ensures failed { meeting.is_met ≡ false → self.new.met ≡ self.old.met }
    {
        let MetSite {
            site,
            address,
            is_called,
            is_met,
            vector,
        } = meeting;
        if site.is_some() {
            self.site = site;
        }
        if is_called || !self.is_called {
            self.address = address;
            self.is_called = is_called;
        }
        self.tried = now;
        if is_met {
            self.met = now;
            self.failed = 0;
        } else {
            self.failed = self.failed.saturating_add(1);
        }
        if !vector.is_empty() {
            self.vector = vector;
        }
    }

    // Whether a meeting at a called address is with this contact, of whose site nothing else is known.
    fn is_called_at(&self, address: SocketAddr) -> bool {
        self.is_called && self.address == address
    }
}

impl Contacts {
    /// Those that the file of this name has, if there is one, and the addresses that are called. A file that is there
    /// and cannot be read is an error.
    pub fn open<H: Files + AllocGlobal>(
        alloc: Global,
        host: &H,
        name: Option<String>,
        called: &[SocketAddr],
    ) -> Result<Contacts, Unreadable> {
        let list = match &name {
            Some(name) => contacts_in(alloc, host, name.as_str())?,
            None => Vec::new(alloc),
        };
        let mut contacts = Contacts { alloc, name, list };
        match contacts.call(called) {
            Ok(()) => Ok(contacts),
            Err(_) => Err(Unreadable::OutOfMemory),
        }
    }

    // Has these addresses among the contacts, and no others that are called.
    fn call(&mut self, called: &[SocketAddr]) -> Result<(), AllocError> {
        for contact in &mut self.list {
            contact.is_called = contact.is_called && called.contains(&contact.address);
        }
        for address in called {
            if !self
                .list
                .iter()
                .any(|contact| contact.is_called_at(*address))
            {
                self.list
                    .push(new_contact(self.alloc, None, *address, true))?;
            }
        }
        Ok(())
    }

    /// All of them.
    pub fn list(&self) -> &[Contact] {
        &self.list
    }

    // The place of the contact that a meeting is with, if there is one.
    fn place_of(&self, meeting: &MetSite) -> Option<usize> {
        if meeting.site.is_some()
            && let Some(place) = self.list.iter().position(|it| it.site == meeting.site)
        {
            return Some(place);
        }
        if !meeting.is_called {
            return None;
        }
        self.list.iter().position(|it| it.is_called_at(meeting.address) && meeting.site.is_none())
    }

    // Notes which site is at a called address. Where another one was met there before, it is not called any more.
    fn leave(&mut self, address: SocketAddr, site: Option<u16>) {
        if site.is_none() {
            return;
        }
        self.list
            .retain(|it| !(it.is_called_at(address) && it.site.is_none()));
        for contact in &mut self.list {
            if contact.is_called_at(address) && contact.site != site {
                contact.is_called = false;
            }
        }
    }

    // Adds a contact, in place of the first one that calls where there are too many.
    fn add(&mut self, contact: Contact) -> Result<(), AllocError> {
        if self.list.len() >= MOST_CONTACTS
            && let Some(place) = self.list.iter().position(|it| !it.is_called)
        {
            let _ = self.list.remove(place);
        }
        if self.list.len() < MOST_CONTACTS {
            self.list.push(contact)?;
        }
        Ok(())
    }

    /// Takes note of a meeting that ended at this time, in seconds since 1970. A caller that was not heard of is none.
    pub fn note(&mut self, meeting: MetSite, now: Option<u64>) -> Result<(), AllocError> {
        if meeting.is_called {
            self.leave(meeting.address, meeting.site);
        }
        if let Some(place) = self.place_of(&meeting) {
            if let Some(contact) = self.list.get_mut(place) {
                contact.note(meeting, now);
            }
            return Ok(());
        }
        if meeting.site.is_none() {
            return Ok(());
        }
        let mut contact = new_contact(self.alloc, meeting.site, meeting.address, meeting.is_called);
        contact.note(meeting, now);
        self.add(contact)
    }

    // The text of the file.
    fn text(&self) -> Result<String, AllocError> {
        let mut text = String::new(self.alloc);
        for contact in &self.list {
            push_contact(&mut text, contact)?;
        }
        Ok(text)
    }

    /// Replaces the file; returns whether that was done. Without a file there is nothing to do.
    pub fn save<H: Files>(&self, host: &H) -> Result<bool, AllocError> {
        let Some(name) = &self.name else {
            return Ok(true);
        };
        let name = name.as_str();
        let beside = format!(in self.alloc; "{name}.new")?;
        let text = self.text()?;
        Ok(replace_file(host, name, beside.as_str(), text.as_str()).is_ok())
    }
}
