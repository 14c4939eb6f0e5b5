//! The lines of the file.

use crate::contacts::Contact;
use std::alloc::{AllocError, Global};
use std::fmt::Write;
use std::net::SocketAddr;
use std::rt::Files;
use td_paths::{Unreadable, read_plain};

/// The text of a number that is not known.
const UNKNOWN: &str = "-";

// A number, or none where it is not known; an error if it is neither.
fn read_number(text: &str) -> Result<Option<u64>, ()> {
    if text == UNKNOWN {
        return Ok(None);
    }
    match text.parse::<u64>() {
        Ok(number) => Ok(Some(number)),
        Err(_) => Err(()),
    }
}

// A site and a number, as `1:5`.
fn read_pair(text: &str) -> Option<(u16, u32)> {
    let (site, number) = text.split_once(':')?;
    match (site.parse::<u16>(), number.parse::<u32>()) {
        (Ok(site), Ok(number)) => Some((site, number)),
        _ => None,
    }
}

// Sites and numbers, as `1:5,2:4`; what is none of these is passed over.
fn read_vector(alloc: Global, text: &str) -> Result<Vec<(u16, u32)>, AllocError> {
    let mut vector = Vec::new(alloc);
    for pair in text.split(',') {
        if let Some(pair) = read_pair(pair) {
            vector.push(pair)?;
        }
    }
    Ok(vector)
}

// The number of a site, or none where it is not known; an error if it is neither.
fn read_site(text: &str) -> Result<Option<u16>, ()> {
    if text == UNKNOWN {
        return Ok(None);
    }
    match text.parse::<u16>() {
        Ok(site) => Ok(Some(site)),
        Err(_) => Err(()),
    }
}

// The contact of a line; none if it is no such line.
fn read_contact(alloc: Global, line: &str) -> Result<Option<Contact>, AllocError> {
    let mut words = line.split(' ');
    let (Some(site), Some(address), Some(way)) = (words.next(), words.next(), words.next()) else {
        return Ok(None);
    };
    let (Some(met), Some(tried), Some(failed)) = (words.next(), words.next(), words.next()) else {
        return Ok(None);
    };
    let vector = read_vector(alloc, words.next().unwrap_or(""))?;
    let (Ok(site), Ok(address)) = (read_site(site), address.parse::<SocketAddr>()) else {
        return Ok(None);
    };
    let (Ok(met), Ok(tried), Ok(Some(failed))) = (
        read_number(met),
        read_number(tried),
        read_number(failed),
    ) else {
        return Ok(None);
    };
    Ok(Some(Contact {
        site,
        address,
        is_called: way == "called",
        met,
        tried,
        failed,
        vector,
    }))
}

// The contacts of a text.
fn contacts_of(alloc: Global, text: &str) -> Result<Vec<Contact>, AllocError> {
    let mut contacts = Vec::new(alloc);
    for line in text.lines() {
        if let Some(contact) = read_contact(alloc, line)? {
            contacts.push(contact)?;
        }
    }
    Ok(contacts)
}

/// The contacts of a file: none if there is no file.
pub(crate) fn contacts_in<H: Files + AllocGlobal>(
    alloc: Global,
    host: &H,
    name: &str,
) -> Result<Vec<Contact>, Unreadable> {
    let bytes = match read_plain(host, name) {
        Ok(bytes) => bytes,
        Err(Unreadable::Missing) => return Ok(Vec::new(alloc)),
        Err(error) => return Err(error),
    };
    let Ok(text) = String::from_utf8(bytes) else {
        return Err(Unreadable::Failed);
    };
    match contacts_of(alloc, text.as_str()) {
        Ok(contacts) => Ok(contacts),
        Err(_) => Err(Unreadable::OutOfMemory),
    }
}

// Appends a number, or that it is not known.
fn push_number(out: &mut String, number: Option<u64>) -> Result<(), AllocError> {
    match number {
        Some(number) => write!(out, " {number}"),
        None => write!(out, " {UNKNOWN}"),
    }
}

// Appends what a site has.
fn push_vector(out: &mut String, vector: &[(u16, u32)]) -> Result<(), AllocError> {
    for (index, (site, number)) in vector.iter().enumerate() {
        let sign = if index == 0 { " " } else { "," };
        write!(out, "{sign}{site}:{number}")?;
    }
    Ok(())
}

/// Appends the line of a contact.
pub(crate) fn push_contact(out: &mut String, contact: &Contact) -> Result<(), AllocError> {
    let address = contact.address;
    match contact.site {
        Some(site) => write!(out, "{site} {address}")?,
        None => write!(out, "{UNKNOWN} {address}")?,
    }
    out.push_str(if contact.is_called {
        " called"
    } else {
        " calls"
    })?;
    push_number(out, contact.met)?;
    push_number(out, contact.tried)?;
    push_number(out, Some(contact.failed))?;
    push_vector(out, &contact.vector)?;
    out.push_str("\n")
}
