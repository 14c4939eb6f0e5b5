//! Entries as a test writes them down, and the script of most sites that hold them.

use std::alloc::{AllocError, Global};
use td_stamps::Entry;
use td_values::Text;

/// The script, of 44 bytes.
pub const SCRIPT: &str = "VAR R BASE RELATION { A INTEGER } KEY { A };";

/// Site, sequence number, clock and text of an entry.
pub type Written<'a> = (u16, u32, u64, &'a str);

/// These entries, in the latest dialect.
pub fn batch(alloc: Global, written: &[Written]) -> Result<Vec<Entry>, AllocError> {
    let mut batch = Vec::new(alloc);
    for (site, seq, clock, text) in written {
        batch.push(Entry {
            site: *site,
            seq: *seq,
            clock: *clock,
            dialect: 2,
            text: Text::from_str(alloc, text)?,
        })?;
    }
    Ok(batch)
}
