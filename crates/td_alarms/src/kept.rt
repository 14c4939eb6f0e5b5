//! The file of alarms.

ghost use Rattle.std.specs.Prelude.{◌≤◌, length, IfOk};

use crate::alarms::Alarm;
use crate::raising::raise_one;
use std::alloc::{AllocError, Global};
use std::fmt::Write;
use std::net::IpAddr;
use std::rt::Files;
use td_paths::{Unreadable, read_plain};

// The alarm of a line: its site, a blank, its address.
fn read_alarm(line: &str) -> Option<Alarm> {
    let (site, address) = line.split_once(' ')?;
    match (site.parse::<u16>(), address.parse::<IpAddr>()) {
        (Ok(site), Ok(address)) => Some(Alarm { site, address }),
        _ => None,
    }
}

// The alarms of a text, one on each line, or why they are none.
fn alarms_of(alloc: Global, text: &str) -> Result<Vec<Alarm>, Unreadable>
    ensures { IfOk result (λ v. length v.items ≤ 64) }
{
    let mut kept = Vec::new(alloc);
    for line in text.lines() {
        let Some(alarm) = read_alarm(line) else {
            return Err(Unreadable::Failed);
        };
        if raise_one(&mut kept, &alarm).is_err() {
            return Err(Unreadable::OutOfMemory);
        }
    }
    Ok(kept)
}

/// The alarms of a file: none if there is no file.
pub(crate) fn alarms_in<H: Files + AllocGlobal>(
    alloc: Global,
    host: &H,
    name: &str,
) -> Result<Vec<Alarm>, Unreadable>
    ensures { IfOk result (λ v. length v.items ≤ 64) }
{
    let bytes = match read_plain(host, name) {
        Ok(bytes) => bytes,
        Err(Unreadable::Missing) => return Ok(Vec::new(alloc)),
        Err(error) => return Err(error),
    };
    match String::from_utf8(bytes) {
        Ok(text) => alarms_of(alloc, text.as_str()),
        Err(_) => Err(Unreadable::Failed),
    }
}

// Appends a line for each alarm.
fn push_alarms(text: &mut String, kept: &[Alarm]) -> Result<(), AllocError> {
    for alarm in kept {
        let address = alarm.address;
        writeln!(text, "{} {address}", alarm.site)?;
    }
    Ok(())
}

/// The text of the file.
pub(crate) fn text_of(alloc: Global, kept: &[Alarm]) -> Result<String, AllocError> {
    let mut text = String::new(alloc);
    match push_alarms(&mut text, kept) {
        Ok(()) => Ok(text),
        Err(error) => Err(error),
    }
}
