//! What was left out of a journal that was salvaged.

use crate::reporting::complain;
use std::alloc::{AllocError, Global};
use std::rt::Files;
use td_frames::{Version, read_frame};
use td_io::{Device, Sink};
use td_journal_files::{Damage, Found, read_contents};
use td_terminals::push_statement;

/// From where on to where a journal has the length of its script, from which byte on it has the script.
const LENGTH_AT: usize = 7;

const SCRIPT_AT: usize = 11;

/// The bytes of a frame in front of its text.
const HEAD_BYTES: usize = 18;

/// The most statements that are shown.
const MOST_SHOWN: u64 = 100;

// The byte at which the first frame of a journal begins.
fn frames_begin(bytes: &[u8]) -> usize {
    match bytes.get(LENGTH_AT..SCRIPT_AT) {
        Some([a, b, c, d]) => {
            SCRIPT_AT.saturating_add(u32::from_be_bytes([*a, *b, *c, *d]) as usize)
        }
        _ => SCRIPT_AT,
    }
}

// Appends the statements that can be read of a journal, up to bytes that are none, and touch the damage.
fn push_statements(out: &mut String, bytes: &[u8], damage: &Damage) -> Result<(), AllocError> {
    let alloc = *out.allocator();
    let begin = frames_begin(bytes);
    let mut source = Device::new(bytes.get(begin..).unwrap_or(b"".as_slice()));
    let mut at = begin as u64;
    let mut shown: u64 = 0;
    for _ in 0..bytes.len() {
        let Ok(Some(entry)) = read_frame(alloc, &mut source, Version::Second) else {
            break;
        };
        let length = HEAD_BYTES.saturating_add(entry.text.as_str().len());
        let end = at.saturating_add(length as u64);
        if at < damage.end && damage.from < end && shown < MOST_SHOWN {
            shown = shown.saturating_add(1);
            let clock = entry.clock;
            let site = entry.site;
            write!(out, "  {clock}.{site} ")?;
            push_statement(out, entry.text.as_str())?;
            out.push_str("\n")?;
        }
        at = end;
    }
    let more = damage.statements.saturating_sub(shown);
    if more > 0 {
        writeln!(out, "  and {more} more")?;
    }
    Ok(())
}

// The name of the file that has the damaged journal.
fn copy_name(alloc: Global, journal: &str, number: u32) -> Result<String, AllocError> {
    if number == 1 {
        return format!(in alloc; "{journal}.damaged");
    }
    format!(in alloc; "{journal}.damaged.{number}")
}

// What was left out of this journal, in lines; nothing where it was not salvaged, or nothing of that can be read.
fn left_out<H: Files + AllocGlobal>(
    host: &H,
    journal: &str,
    found: &Found,
) -> Result<String, AllocError> {
    let alloc = host.alloc();
    let mut out = String::new(alloc);
    let Some(salvaged) = found.salvaged else {
        return Ok(out);
    };
    let name = copy_name(alloc, journal, salvaged.number)?;
    if let Ok(contents) = read_contents(host, name.as_str())
        && salvaged.damage.statements > 0
    {
        writeln!(
            out,
            "left out, of which one or more were changed, as they are in {name}:"
        )?;
        push_statements(&mut out, contents.bytes.as_slice(), &salvaged.damage)?;
    }
    Ok(out)
}

/// Writes to the output of faults which statements were left out of the journal of this name, if it was salvaged.
pub fn report_left_out<H: Files + AllocGlobal, F: Sink>(
    host: &H,
    journal: &str,
    found: Option<Found>,
    faults: &mut F,
) -> Result<(), AllocError> {
    if let Some(found) = found {
        let words = left_out(host, journal, &found)?;
        complain(faults, words.as_str());
    }
    Ok(())
}
