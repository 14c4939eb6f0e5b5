//! The lines of the file.

ghost use Rattle.std.specs.Prelude.{◌≡◌, true, false};

use std::alloc::{AllocError, Global};
use std::fmt::Write;
use std::fs::{OpenFile, OpenOptions};
use std::io;
use std::io::Write as WriteBytes;
use std::os::unix::fs::OpenOptionsExt;
use std::rt::Files;
use td_paths::{Unreadable, read_plain};
use td_stamps::Stamp;

/// The rights of a file that its owner alone may read and write.
const OWN: u32 = 0o600;

/// When an entry came.
#[derive(Clone, Copy)]
pub(crate) struct Arrival {
    pub(crate) stamp: Stamp,
    /// In seconds since 1970; none if that is not known.
    pub(crate) came: Option<u64>,
}

// The stamp of a text, as `CLOCK.SITE`.
fn read_stamp(text: &str) -> Option<Stamp> {
    let (clock, site) = text.split_once('.')?;
    match (clock.parse::<u64>(), site.parse::<u16>()) {
        (Ok(clock), Ok(site)) => Some(Stamp { clock, site }),
        _ => None,
    }
}

// The arrival of a line; none if it is no such line.
fn read_line(line: &str) -> Option<Arrival> {
    let (seconds, stamp) = line.split_once(' ')?;
    match (seconds.parse::<u64>(), read_stamp(stamp)) {
        (Ok(seconds), Some(stamp)) => Some(Arrival {
            stamp,
            came: Some(seconds),
        }),
        _ => None,
    }
}

// Whether the two are of one stamp: then the first one is replaced by the later one.
fn replaces(later: &Arrival, earlier: &mut Arrival) -> bool
    ensures replaced { result ≡ true → earlier.new ≡ later.now }
    ensures kept { result ≡ false → earlier.new ≡ earlier.old }
{
    let is_same = later.stamp == earlier.stamp;
    if is_same {
        *earlier = *later;
    }
    is_same
}

// The arrivals of a text, in the order of stamps; of one stamp the last one.
fn arrivals_of(alloc: Global, text: &str) -> Result<Vec<Arrival>, AllocError> {
    let mut arrivals = Vec::new(alloc);
    for line in text.lines() {
        if let Some(arrival) = read_line(line) {
            arrivals.push(arrival)?;
        }
    }
    arrivals.sort_by(|one, other| one.stamp.cmp(&other.stamp))?;
    arrivals.dedup_by(|later, earlier| replaces(later, earlier));
    Ok(arrivals)
}

/// The arrivals of a file: none if there is no file.
pub(crate) fn arrivals_in<H: Files + AllocGlobal>(
    alloc: Global,
    host: &H,
    name: &str,
) -> Result<Vec<Arrival>, Unreadable> {
    let bytes = match read_plain(host, name) {
        Ok(bytes) => bytes,
        Err(Unreadable::Missing) => return Ok(Vec::new(alloc)),
        Err(error) => return Err(error),
    };
    let Ok(text) = String::from_utf8(bytes) else {
        return Err(Unreadable::Failed);
    };
    match arrivals_of(alloc, text.as_str()) {
        Ok(arrivals) => Ok(arrivals),
        Err(_) => Err(Unreadable::OutOfMemory),
    }
}

/// Appends the line of an entry that came at this time.
pub(crate) fn push_line(text: &mut String, stamp: &Stamp, came: u64) -> Result<(), AllocError> {
    writeln!(text, "{came} {}.{}", stamp.clock, stamp.site)
}

/// Appends lines to a file, which is made if it is not there.
pub(crate) fn append_lines<H: Files>(host: &H, name: &str, lines: &str) -> io::Result<()> {
    let mut file = OpenOptions::new()
        .append(true)
        .create(true)
        .mode(OWN)
        .open(host, name)?;
    file.write_all(lines.as_bytes())
}
