//! The messages of a comparison, read from bytes that are there whole.

ghost use Rattle.std.specs.Prelude.{◌≡◌, ◌≤◌, ◌+◌, ◌*◌, true, false, length, Err, IfOk};
ghost use Rattle.td_comparison.specs.Digests.{rises, digest_sites};
ghost use Rattle.td_comparison.specs.Messages.{are_differences, IsComparisonIn, are_digests, differences_in, has_count, has_head, is_comparison, is_other_version, script_in, line_in, lines_in, long_at, short_at, sites_in};
ghost use Rattle.td_comparison.specs.declared.reading.MessageError.TheVariants as message_error;

use crate::digest::SiteDigest;
use crate::message::Comparison;
use std::alloc::{AllocError, Global};
use thiserror::Error;

/// The letters and the version with which a comparison begins.
pub(crate) const LETTERS: &[u8] = b"JTDC\x01";

/// The bytes of a comparison before its digests.
const HEAD: usize = 43;

/// The bytes of a digest with its site and number.
const LINE: usize = 22;

/// The most sites that a message names.
pub(crate) const MOST_SITES: u32 = 65_535;

/// The greatest sequence number.
const LAST_NUMBER: u32 = 1_000_000_000;

/// Why a message is not read.
#[derive(Clone, Copy, Debug, Drop, PartialEq, Eq, Error)]
pub enum MessageError {
    #[error("out of memory")]
    OutOfMemory,
    /// The bytes are no such message.
    #[error("the bytes are no message of a comparison")]
    Malformed,
}

// The number of two bytes at this offset.
fn short_at(bytes: &[u8], at: usize) -> u16
    requires { at + 2 ≤ length bytes.now }
    ensures { result ≡ short_at at bytes.now }
{
    u16::from_be_bytes([bytes[at], bytes[at + 1]])
}

// The number of four bytes at this offset.
pub(crate) fn long_at(bytes: &[u8], at: usize) -> u32
    requires { at + 4 ≤ length bytes.now }
    ensures { result ≡ long_at at bytes.now }
{
    u32::from_be_bytes([bytes[at], bytes[at + 1], bytes[at + 2], bytes[at + 3]])
}

// Whether the bytes begin as a comparison does, and are as many as it says.
fn has_head(bytes: &[u8]) -> bool
    ensures { result ≡ has_head bytes.now }
{
    if bytes.len() < HEAD || !bytes.starts_with(LETTERS) || short_at(bytes, 5) < 1 {
        return false;
    }
    let count = long_at(bytes, 39);
    count <= MOST_SITES && bytes.len() == HEAD + LINE * count as usize
}

// The digest of a site in a line of bytes.
fn line_in(bytes: &[u8]) -> SiteDigest
    requires { length bytes.now ≡ 22 }
    ensures { result ≡ line_in bytes.now }
{
    let mut digest = [0u8; 16];
    digest.copy_from_slice(&bytes[6..]);
    SiteDigest {
        site: short_at(bytes, 0),
        number: long_at(bytes, 2),
        digest,
    }
}

// The digests in these bytes.
fn read_lines(alloc: Global, bytes: &[u8], count: usize) -> Result<Vec<SiteDigest>, AllocError>
    requires { length bytes.now ≡ 22 * count }
    ensures { IfOk result (λ v. v.items ≡ lines_in count bytes.now) }
{
    let mut digests = Vec::with_capacity(alloc, count)?;
    for line in bytes.chunks_exact(LINE) {
        digests.push(line_in(line))?;
    }
    Ok(digests)
}

// Whether the sites of these digests rise, and their numbers can be those of entries.
fn are_digests(digests: &[SiteDigest]) -> bool
    ensures { result ≡ are_digests digests.now }
{
    let mut last = 0;
    for digest in digests {
        if digest.site <= last || digest.number > LAST_NUMBER {
            return false;
        }
        last = digest.site;
    }
    true
}

// The SHA-256 of the script.
fn script_in(bytes: &[u8]) -> [u8; 32]
    requires { 43 ≤ length bytes.now }
    ensures { result ≡ script_in bytes.now }
{
    let mut script = [0u8; 32];
    script.copy_from_slice(&bytes[7..39]);
    script
}

/// Reads a comparison of all these bytes. It takes room for its digests.
pub fn read_comparison(alloc: Global, bytes: &[u8]) -> Result<Comparison, MessageError>
    ensures ok { IfOk result (λ c. (is_comparison bytes.now ≡ true) × IsComparisonIn bytes.now c) }
    ensures few { IfOk result (λ c. length c.digests.items ≤ 65535) }
    ensures rises { IfOk result (λ c. rises 0 (digest_sites c.digests.items) ≡ true) }
    ensures malformed { result ≡ Err message_error.Malformed → is_comparison bytes.now ≡ false }
{
    if !has_head(bytes) {
        return Err(MessageError::Malformed);
    }
    let count = long_at(bytes, 39) as usize;
    let Ok(digests) = read_lines(alloc, &bytes[HEAD..], count) else {
        return Err(MessageError::OutOfMemory);
    };
    if !are_digests(&digests) {
        return Err(MessageError::Malformed);
    }
    Ok(Comparison {
        site: short_at(bytes, 5),
        script: script_in(bytes),
        digests,
    })
}

// Whether the bytes are as many as a count of sites says.
fn has_count(bytes: &[u8]) -> bool
    ensures { result ≡ has_count bytes.now }
{
    if bytes.len() < 4 {
        return false;
    }
    let count = long_at(bytes, 0);
    count <= MOST_SITES && bytes.len() == 4 + 2 * count as usize
}

// The sites in these bytes.
fn read_sites(alloc: Global, bytes: &[u8], count: usize) -> Result<Vec<u16>, AllocError>
    requires { length bytes.now ≡ 2 * count }
    ensures { IfOk result (λ v. v.items ≡ sites_in count bytes.now) }
{
    let mut sites = Vec::with_capacity(alloc, count)?;
    for site in bytes.chunks_exact(2) {
        sites.push(short_at(site, 0))?;
    }
    Ok(sites)
}

// Whether each of these sites is greater than the one before it, and none is 0.
fn rises(sites: &[u16]) -> bool
    ensures { result ≡ rises 0 sites.now }
{
    let mut last = 0;
    for site in sites {
        if *site <= last {
            return false;
        }
        last = *site;
    }
    true
}

/// Reads the sites that differ from all these bytes. It takes room for them.
pub fn read_differences(alloc: Global, bytes: &[u8]) -> Result<Vec<u16>, MessageError>
    ensures ok { IfOk result (λ v. (are_differences bytes.now ≡ true) × (v.items ≡ differences_in bytes.now)) }
    ensures malformed { result ≡ Err message_error.Malformed → are_differences bytes.now ≡ false }
{
    if !has_count(bytes) {
        return Err(MessageError::Malformed);
    }
    let count = long_at(bytes, 0) as usize;
    let Ok(sites) = read_sites(alloc, &bytes[4..], count) else {
        return Err(MessageError::OutOfMemory);
    };
    if !rises(&sites) {
        return Err(MessageError::Malformed);
    }
    Ok(sites)
}

/// Whether the bytes begin as a comparison does, in a version that is not known here.
pub fn is_other_version(bytes: &[u8]) -> bool
    ensures { result ≡ is_other_version bytes.now }
{
    bytes.len() >= 5 && bytes.starts_with(b"JTDC") && bytes[4] != 1
}
