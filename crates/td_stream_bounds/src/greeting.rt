//! Greetings.

ghost use Rattle.std.specs.Prelude.{◌≡◌, ◌+◌, ◌≤◌, ◌<◌, ◌^◌, length};
ghost use Rattle.td_stream_bounds.specs.Extents.{IsWithin, is_compatible, greeting_extent, lengths_extent, script_length, site_count, vector_extent};

use crate::extent::Extent;
use td_frames::SCRIPT_BYTES;

/// The letters and the version with which a greeting begins.
const LETTERS: &[u8] = b"HTDB\x02";

/// The bytes of a greeting before its script: letters, version, site, length of the script.
const HEAD: usize = 11;

/// The bytes of a site and its number.
const NUMBERED_SITE: usize = 6;

// Whether one of the two begins with the other one.
fn agrees(bytes: &[u8], other: &[u8]) -> bool
    ensures { result ≡ is_compatible bytes.now other.now }
{
    bytes.starts_with(other) || other.starts_with(bytes)
}

// The length of the script, as the greeting tells it.
#[tactic(auto, unfolding(crate::specs::Extents::script_length))]
fn script_length(bytes: &[u8]) -> u32
    requires { 11 ≤ length bytes.now }
    ensures { result ≡ script_length bytes.now }
{
    u32::from_be_bytes([bytes[7], bytes[8], bytes[9], bytes[10]])
}

// How many sites the version vector has that begins at this offset.
#[tactic(auto, unfolding(crate::specs::Extents::site_count))]
fn site_count(bytes: &[u8], offset: usize) -> u16
    requires { offset + 2 ≤ length bytes.now }
    ensures { result ≡ site_count offset bytes.now }
{
    u16::from_be_bytes([bytes[offset], bytes[offset + 1]])
}

// How far a greeting reaches whose version vector begins at this offset.
#[tactic(auto, unfolding(crate::specs::Extents::vector_extent))]
fn vector_extent(bytes: &[u8], offset: usize) -> Extent
    requires { offset < 2 ^ 32 }
    ensures value { result ≡ vector_extent offset bytes.now }
    ensures within { IsWithin result (length bytes.now) }
{
    if bytes.len() < offset + 2 {
        return Extent::Open;
    }
    let end = offset + 2 + NUMBERED_SITE * site_count(bytes, offset) as usize;
    if bytes.len() < end {
        return Extent::Open;
    }
    Extent::Whole(end)
}

// How far a greeting reaches whose letters are right.
#[tactic(auto, unfolding(crate::specs::Extents::lengths_extent))]
fn lengths_extent(bytes: &[u8]) -> Extent
    ensures value { result ≡ lengths_extent bytes.now }
    ensures within { IsWithin result (length bytes.now) }
{
    if bytes.len() < HEAD {
        return Extent::Open;
    }
    let script = script_length(bytes);
    if script > SCRIPT_BYTES {
        return Extent::Never;
    }
    vector_extent(bytes, HEAD + script as usize)
}

/// How far the greeting reaches that begins with these bytes. It takes constant time: it reads the letters, the
/// version, the length of the script and the number of sites.
#[tactic(auto, unfolding(crate::specs::Extents::greeting_extent))]
pub fn greeting_extent(bytes: &[u8]) -> Extent
    ensures value { result ≡ greeting_extent bytes.now }
    ensures within { IsWithin result (length bytes.now) }
{
    if !agrees(bytes, LETTERS) {
        return Extent::Never;
    }
    lengths_extent(bytes)
}
