//! What a site holds in a few digits, so that two people can compare it by voice.

use crate::wording::push_count;
use sha2::{Digest, Sha256};
use std::alloc::{AllocError, Global};
use td_stamps::{Entry, Held};

// Feeds the frame of an entry, as docs/FORMATS.md has it.
fn feed(hasher: &mut Sha256, entry: &Entry) {
    let text = entry.text.as_str().as_bytes();
    let length = u16::try_from(text.len()).unwrap_or(u16::MAX);
    hasher.update(b"E");
    hasher.update(&entry.site.to_be_bytes());
    hasher.update(&entry.seq.to_be_bytes());
    hasher.update(&entry.clock.to_be_bytes());
    hasher.update(&[entry.dialect]);
    hasher.update(&length.to_be_bytes());
    hasher.update(text);
}

/// Appends a sum in hexadecimal digits, with a blank between eight of them and the next.
pub fn push_sum(out: &mut String, sum: &[u8; 32]) -> Result<(), AllocError> {
    for (at, byte) in sum.iter().enumerate() {
        if at > 0 && at % 4 == 0 {
            out.push_str(" ")?;
        }
        write!(out, "{byte:02x}")?;
    }
    Ok(())
}

// Appends the line of a digest.
fn push_line(out: &mut String, digest: &HeldDigest) -> Result<(), AllocError> {
    let HeldDigest {
        site,
        count,
        number,
        sum,
    } = digest;
    write!(out, "site {site}: ")?;
    push_count(out, *count, "statement")?;
    write!(out, " up to number {number}, SHA-256 ")?;
    push_sum(out, sum)?;
    out.push_str("\n")
}

/// The statements of a site that are held, in a few digits.
#[derive(Clone, Copy)]
pub struct HeldDigest {
    pub site: u16,
    /// How many there are.
    pub count: usize,
    /// The number of the last one.
    pub number: u32,
    /// The SHA-256 of their frames, in the order of their numbers.
    pub sum: [u8; 32],
}

// The digest of the entries of one site at these places, which are in the order of their numbers.
fn digest_at(site: u16, entries: &[Entry], places: &[(u16, usize)]) -> HeldDigest {
    let mut hasher = Sha256::new();
    let mut number = 0;
    for (_, place) in places {
        if let Some(entry) = entries.get(*place) {
            feed(&mut hasher, entry);
            number = entry.seq;
        }
    }
    HeldDigest {
        site,
        count: places.len(),
        number,
        sum: hasher.finalize(),
    }
}

// The site and the place of each entry that is asked for, by sites, and those of one site by places, which is the order
// of their numbers.
fn places_of(
    alloc: Global,
    entries: &[Entry],
    of: Option<(u16, u32)>,
) -> Result<Vec<(u16, usize)>, AllocError> {
    let mut places = Vec::with_capacity(alloc, entries.len())?;
    for (place, entry) in entries.iter().enumerate() {
        let is_asked = match of {
            Some((site, most)) => entry.site == site && entry.seq <= most,
            None => true,
        };
        if is_asked {
            places.push((entry.site, place))?;
        }
    }
    places.sort_unstable();
    Ok(places)
}

// The digest of each site that has an entry at these places.
fn digests_at(
    alloc: Global,
    entries: &[Entry],
    places: &[(u16, usize)],
) -> Result<Vec<HeldDigest>, AllocError> {
    let mut digests = Vec::new(alloc);
    let mut rest = places;
    for _ in 0..places.len() {
        let Some((site, _)) = rest.first() else {
            break;
        };
        let count = rest.iter().take_while(|place| place.0 == *site).count();
        let (own, others) = rest.split_at_checked(count).unwrap_or((rest, &[]));
        digests.push(digest_at(*site, entries, own))?;
        rest = others;
    }
    Ok(digests)
}

/// The digest of each site of which statements are held; of one site alone, and up to a number, where these are given.
/// It sorts what is held by its sites.
pub fn held_digests(
    alloc: Global,
    held: &Held,
    of: Option<(u16, u32)>,
) -> Result<Vec<HeldDigest>, AllocError> {
    let places = places_of(alloc, held.entries(), of)?;
    digests_at(alloc, held.entries(), &places)
}

/// Appends a line for each of these digests: how many statements, up to which number, and their sum.
pub fn push_digest(
    out: &mut String,
    held: &Held,
    of: Option<(u16, u32)>,
) -> Result<(), AllocError> {
    let digests = held_digests(*out.allocator(), held, of)?;
    for digest in &digests {
        push_line(out, digest)?;
    }
    Ok(())
}
