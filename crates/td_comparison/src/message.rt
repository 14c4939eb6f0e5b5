//! The messages of a comparison, written.

ghost use Rattle.std.specs.Prelude.{◌≡◌, ◌<◌, ◌^◌, ◌++◌, length};
ghost use Rattle.std.specs.Int.{w16, w32, to_be_bytes};
ghost use Rattle.std.specs.List.{flat_map};
ghost use Rattle.std.specs.Io.KnownBytes.{Keeps};
ghost use Rattle.sha2.specs.Sha256.{sha256};
ghost use Rattle.td_io.specs.Counted.{Counts};
ghost use Rattle.td_io.specs.Streams.{Writes};
ghost use Rattle.td_comparison.specs.Messages as spelled;

use crate::digest::SiteDigest;
use sha2::{Digest, Sha256};
use td_io::{Failed, Sink, write_all};

/// How the site begins that opened a connection.
#[derive(Clone, Copy, PartialEq, Eq)]
pub enum FirstMessage {
    /// With digests, which the other site compares.
    Question,
    /// With a greeting: the other site does not compare.
    Greeting,
}

/// What a site tells another one before they meet: its number, the SHA-256 of its script, and digests, whose sites
/// rise.
#[derive(Drop)]
pub struct Comparison {
    pub site: u16,
    pub script: [u8; 32],
    pub digests: Vec<SiteDigest>,
}

/// The SHA-256 of a script.
pub fn script_digest(script: &str) -> [u8; 32]
    ensures { result ≡ sha256 script.now }
{
    Sha256::digest(script.as_bytes())
}

// The begin of a comparison: its letters, its version and the site.
fn head_bytes(site: u16) -> [u8; 7]
    ensures { result ≡ spelled.comparison_letters ++ to_be_bytes w16 site }
{
    let s = site.to_be_bytes();
    [b'J', b'T', b'D', b'C', 1, s[0], s[1]]
}

// A site and its number.
fn place_bytes(digest: &SiteDigest) -> [u8; 6]
    ensures { result ≡ to_be_bytes w16 digest.now.site ++ to_be_bytes w32 digest.now.number }
{
    let s = digest.site.to_be_bytes();
    let n = digest.number.to_be_bytes();
    [s[0], s[1], n[0], n[1], n[2], n[3]]
}

// Writes a digest with its site and number.
fn put_line<K: Sink>(sink: &mut K, digest: &SiteDigest) -> Result<(), Failed>
    ensures bytes { Writes (K.held sink.old) (K.held sink.new) result (spelled.line_frame digest.now) }
    ensures count { Counts (K.faults sink.old) (K.faults sink.new) result }
    ensures aside { Keeps (K.aside sink.old) (K.aside sink.new) }
{
    write_all(sink, &place_bytes(digest))?;
    write_all(sink, &digest.digest)
}

// Writes digests, in their order.
fn put_lines<K: Sink>(sink: &mut K, digests: &[SiteDigest]) -> Result<(), Failed>
    ensures bytes { Writes (K.held sink.old) (K.held sink.new) result (flat_map spelled.line_frame digests.now) }
    ensures count { Counts (K.faults sink.old) (K.faults sink.new) result }
    ensures aside { Keeps (K.aside sink.old) (K.aside sink.new) }
{
    for digest in digests {
        put_line(sink, digest)?;
    }
    Ok(())
}

// Writes digests after their count.
fn put_digests<K: Sink>(sink: &mut K, digests: &[SiteDigest]) -> Result<(), Failed>
    requires { length digests.now < 2 ^ 32 }
    ensures bytes { Writes (K.held sink.old) (K.held sink.new) result (spelled.digests_frame digests.now) }
    ensures count { Counts (K.faults sink.old) (K.faults sink.new) result }
    ensures aside { Keeps (K.aside sink.old) (K.aside sink.new) }
{
    let count = digests.len() as u32;
    write_all(sink, &count.to_be_bytes())?;
    put_lines(sink, digests)
}

/// Writes a comparison: the site, the SHA-256 of its script, and digests. It takes no memory, and flushes nothing.
pub fn put_comparison<K: Sink>(
    sink: &mut K,
    site: u16,
    script: &[u8; 32],
    digests: &[SiteDigest],
) -> Result<(), Failed>
    requires { length digests.now < 2 ^ 32 }
    ensures bytes { Writes (K.held sink.old) (K.held sink.new) result (spelled.comparison_frame site script.now digests.now) }
    ensures count { Counts (K.faults sink.old) (K.faults sink.new) result }
    ensures aside { Keeps (K.aside sink.old) (K.aside sink.new) }
{
    write_all(sink, &head_bytes(site))?;
    write_all(sink, script)?;
    put_digests(sink, digests)
}

// Writes sites, in their order.
fn put_sites<K: Sink>(sink: &mut K, sites: &[u16]) -> Result<(), Failed>
    ensures bytes { Writes (K.held sink.old) (K.held sink.new) result (flat_map (to_be_bytes w16) sites.now) }
    ensures count { Counts (K.faults sink.old) (K.faults sink.new) result }
    ensures aside { Keeps (K.aside sink.old) (K.aside sink.new) }
{
    for site in sites {
        write_all(sink, &site.to_be_bytes())?;
    }
    Ok(())
}

/// Writes the sites that differ. It takes no memory, and flushes nothing.
pub fn put_differences<K: Sink>(sink: &mut K, sites: &[u16]) -> Result<(), Failed>
    requires { length sites.now < 2 ^ 32 }
    ensures bytes { Writes (K.held sink.old) (K.held sink.new) result (spelled.differences_frame sites.now) }
    ensures count { Counts (K.faults sink.old) (K.faults sink.new) result }
    ensures aside { Keeps (K.aside sink.old) (K.aside sink.new) }
{
    let count = sites.len() as u32;
    write_all(sink, &count.to_be_bytes())?;
    put_sites(sink, sites)
}
