//! The names by which browsers and programs ask for the server.

use crate::bad_words::BadWords;
use clap::{Arg, ArgMatches};
use std::alloc::Global;
use std::net::SocketAddr;
use td_site_opening::list;

/// The most bytes of a host, with its port.
const MOST_BYTES: usize = 255;

/// The option that names hosts.
pub(crate) fn host_list<'a>(alloc: Global) -> Arg<'a> {
    let help =
        "Answers clients that ask for it by this name, as browsers show it; may be given again";
    list(alloc, "host", "NAME[:PORT]", help)
}

// Whether a host may have this byte: a name, an address, and a port.
fn is_host_byte(byte: u8) -> bool {
    byte.is_ascii_alphanumeric() || matches!(byte, b'.' | b'-' | b':' | b'[' | b']')
}

// Whether a word may be a host.
fn is_host(word: &str) -> bool {
    !word.is_empty()
        && word.len() <= MOST_BYTES
        && word.as_bytes().iter().all(|byte| is_host_byte(*byte))
}

/// The hosts that the words name.
pub(crate) fn hosts_in<'a>(
    alloc: Global,
    matches: &ArgMatches<'a>,
) -> Result<Vec<&'a str>, BadWords<'a>> {
    let mut hosts = Vec::new(alloc);
    for word in matches.get_strs("host").unwrap_or(&[]) {
        if !is_host(word) {
            return Err(BadWords::NoHost(word));
        }
        hosts.push(*word)?;
    }
    Ok(hosts)
}

/// Refuses an address that other machines reach where no host is named: their requests would all be refused.
pub(crate) fn check_clients<'a>(
    clients: SocketAddr,
    hosts: &[&'a str],
    word: &'a str,
) -> Result<(), BadWords<'a>> {
    if clients.ip().is_loopback() || !hosts.is_empty() {
        Ok(())
    } else {
        Err(BadWords::NoHosts(word))
    }
}
