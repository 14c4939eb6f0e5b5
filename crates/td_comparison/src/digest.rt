//! Digests of the entries that sites issued first.

ghost use Rattle.std.specs.Prelude.{◌≡◌, ◌≤◌, ◌∷◌, ◌++◌, ℕ, List, [], true, length, take, drop, IfOk, OnOk, map};
ghost use Rattle.std.specs.List.{list_all};
ghost use Rattle.td_stamps.specs.Entries.{in_range};
ghost use Rattle.td_stamps.specs.Sets.{is_set};
ghost use Rattle.td_stamps.specs.Vectors.{HasAll, has_number};
ghost use Rattle.td_stamps.specs.declared.entry.Entry.{Entry as EntryData};
ghost use Rattle.td_comparison.specs.Digests.{rises, site_digest};
ghost use Rattle.td_comparison.specs.Hashed.{AreFed, AreHashed, ArePrefixesOf, IsFed};
ghost use Rattle.td_comparison.specs.ForProofs.{feed_place, feed_places, missing, place_sites};

use crate::feed::feed_entry;
use crate::prefixes::{SitePrefixes, digest_of};
use sha2::{Digest, Sha256};
use std::alloc::{AllocError, Global};
use td_stamps::{Entry, Held};

/// The digest of the entries that a site issued first, up to a number.
#[derive(Clone, Copy, Debug, PartialEq, Eq)]
pub struct SiteDigest {
    pub site: u16,
    pub number: u32,
    /// The first bytes of a SHA-256.
    pub digest: [u8; 16],
}

/// A hasher that takes the frames of a site's entries up to a number.
#[derive(Drop)]
pub struct SiteFeed {
    pub(crate) site: u16,
    pub(crate) number: u32,
    // The number up to which the hasher had taken them when it began.
    pub(crate) from: u32,
    // The number up to which none is missing.
    pub(crate) last: u32,
    pub(crate) hasher: Sha256,
}

/// Digests of sites, and what was hashed for them that is not kept.
#[derive(Drop)]
pub struct Hashed {
    pub digests: Vec<SiteDigest>,
    pub feeds: Vec<SiteFeed>,
}

// A feed that begins with the first entry of the site.
fn new_feed(site: u16, number: u32) -> SiteFeed
    ensures place { feed_place result ≡ (site, number) }
    ensures fed { (xs : List EntryData) → list_all in_range xs ≡ true → IsFed xs [] result }
{
    SiteFeed {
        site,
        number,
        from: 0,
        last: 0,
        hasher: Sha256::new(),
    }
}

// A feed that goes on from what is kept of the site, if that is not more.
fn begin_feed(known: &SitePrefixes, site: u16, number: u32) -> Result<SiteFeed, AllocError>
    ensures place { IfOk result (λ f. feed_place f ≡ (site, number)) }
    ensures fed { IfOk result (λ f. (xs : List EntryData) → list_all in_range xs ≡ true → ArePrefixesOf xs known.now → IsFed xs [] f) }
{
    let Some(prefix) = known.of_site(site) else {
        return Ok(new_feed(site, number));
    };
    if number < prefix.number {
        return Ok(new_feed(site, number));
    }
    Ok(SiteFeed {
        site,
        number,
        from: prefix.number,
        last: prefix.number,
        hasher: prefix.hasher.clone()?,
    })
}

// A feed for each place that is not what is kept.
fn begin_feeds(
    alloc: Global,
    known: &SitePrefixes,
    places: &[(u16, u32)],
) -> Result<Vec<SiteFeed>, AllocError>
    ensures places { IfOk result (λ v. feed_places v.items ≡ missing known.now places.now) }
    ensures fed { IfOk result (λ v. (xs : List EntryData) → list_all in_range xs ≡ true → ArePrefixesOf xs known.now → AreFed xs [] v.items) }
{
    let mut feeds = Vec::new(alloc);
    for (site, number) in places {
        if known.at(*site, *number).is_none() {
            feeds.push(begin_feed(known, *site, *number)?)?;
        }
    }
    Ok(feeds)
}

// The number up to which none is missing, with one more.
fn last_with(last: u32, seq: u32) -> u32
    requires { 1 ≤ seq }
    ensures { (xs : List EntryData) (site : ℕ) → has_number xs site seq ≡ true → HasAll xs site last → HasAll xs site result }
{
    if seq - 1 == last { seq } else { last }
}

// Adds an entry of the site, if it is one of those that count.
fn add_entry(feed: &mut SiteFeed, entry: &Entry)
    requires text { length entry.now.text ≤ 8192 }
    requires site { entry.now.site ≡ feed.old.site }
    ensures fed { (xs came : List EntryData) → has_number xs entry.now.site entry.now.seq ≡ true → IsFed xs came feed.old → IsFed xs (came ++ entry.now ∷ []) feed.new }
    ensures place { feed_place feed.new ≡ feed_place feed.old }
{
    if feed.from < entry.seq && entry.seq <= feed.number {
        feed_entry(&mut feed.hasher, entry);
        feed.last = last_with(feed.last, entry.seq);
    }
}

// Adds an entry to the feed of its site, if there is one. It searches among the sites, which rise.
fn add_to_feeds(feeds: &mut Vec<SiteFeed>, entry: &Entry)
    requires text { length entry.now.text ≤ 8192 }
    requires rises { rises 0 (place_sites (feed_places feeds.old.items)) ≡ true }
    ensures fed { (xs came : List EntryData) → has_number xs entry.now.site entry.now.seq ≡ true → AreFed xs came feeds.old.items
        → AreFed xs (came ++ entry.now ∷ []) feeds.new.items }
    ensures places { feed_places feeds.new.items ≡ feed_places feeds.old.items }
{
    if let Ok(at) = feeds.binary_search_by_key(&entry.site, |feed| feed.site) {
        add_entry(&mut feeds[at], entry);
    }
}

// Has feeds take what is held. It takes one pass over that, if there is a feed.
fn feed_held(held: &Held, mut feeds: Vec<SiteFeed>) -> Vec<SiteFeed>
    requires { rises 0 (place_sites (feed_places feeds.items)) ≡ true }
    ensures fed { AreFed held.now.entries [] feeds.items → AreHashed held.now.entries result.items }
    ensures places { feed_places result.items ≡ feed_places feeds.items }
    ensures set { is_set held.now.entries ≡ true }
    ensures ranges { list_all in_range held.now.entries ≡ true }
{
    let entries = held.entries();
    if feeds.is_empty() {
        return feeds;
    }
    for entry in entries {
        add_to_feeds(&mut feeds, entry);
    }
    feeds
}

// The digest of what a feed has taken. The feed can go on.
fn finish_feed(feed: &SiteFeed) -> Result<SiteDigest, AllocError>
    ensures { IfOk result (λ d. (xs : List EntryData) → is_set xs ≡ true → IsFed xs xs feed.now → d ≡ site_digest xs (feed_place feed.now)) }
{
    let hasher = feed.hasher.clone()?;
    Ok(SiteDigest {
        site: feed.site,
        number: feed.number,
        digest: first_bytes(&hasher.finalize()),
    })
}

// The first bytes of a digest.
pub(crate) fn first_bytes(digest: &[u8; 32]) -> [u8; 16]
    ensures { result ≡ take 16 digest.now }
{
    let mut bytes = [0u8; 16];
    bytes.copy_from_slice(&digest[..16]);
    bytes
}

// The digest at a place: of what is kept, or else of the next feed.
fn next_digest(
    known: &SitePrefixes,
    feeds: &[SiteFeed],
    next: &mut usize,
    site: u16,
    number: u32,
) -> Result<SiteDigest, AllocError>
    requires { (rest : List (ℕ × ℕ)) × (feed_places (drop next.old feeds.now) ≡ missing known.now ((site, number) ∷ rest)) }
    ensures digest { IfOk result (λ d. (xs : List EntryData) → is_set xs ≡ true → ArePrefixesOf xs known.now → AreHashed xs feeds.now
        → d ≡ site_digest xs (site, number)) }
    ensures next { OnOk result ((rest : List (ℕ × ℕ)) → feed_places (drop next.old feeds.now) ≡ missing known.now ((site, number) ∷ rest)
        → feed_places (drop next.new feeds.now) ≡ missing known.now rest) }
{
    if let Some(prefix) = known.at(site, number) {
        return digest_of(prefix, site);
    }
    let feed = &feeds[*next];
    *next += 1;
    finish_feed(feed)
}

// The digests at these places: of what is kept, and of feeds for the other ones.
fn digests_at(
    alloc: Global,
    known: &SitePrefixes,
    feeds: &[SiteFeed],
    places: &[(u16, u32)],
) -> Result<Vec<SiteDigest>, AllocError>
    requires { feed_places feeds.now ≡ missing known.now places.now }
    ensures { IfOk result (λ v. (xs : List EntryData) → is_set xs ≡ true → ArePrefixesOf xs known.now → AreHashed xs feeds.now
        → v.items ≡ map (site_digest xs) places.now) }
{
    let mut digests = Vec::with_capacity(alloc, places.len())?;
    let mut next = 0;
    for (site, number) in places {
        digests.push(next_digest(known, feeds, &mut next, *site, *number)?)?;
    }
    Ok(digests)
}

/// The digest of each of these sites up to its number, of what is held. What is kept of a site is not hashed again. The
/// entries beyond that take one pass over what is held.
pub(crate) fn hash_places(
    alloc: Global,
    held: &Held,
    known: &SitePrefixes,
    places: &[(u16, u32)],
) -> Result<Hashed, AllocError>
    requires rises { rises 0 (place_sites places.now) ≡ true }
    requires known { ArePrefixesOf held.now.entries known.now }
    ensures digests { IfOk result (λ h. h.digests.items ≡ map (site_digest held.now.entries) places.now) }
    ensures feeds { IfOk result (λ h. AreHashed held.now.entries h.feeds.items) }
{
    let feeds = feed_held(held, begin_feeds(alloc, known, places)?);
    let digests = digests_at(alloc, known, &feeds, places)?;
    Ok(Hashed { digests, feeds })
}

/// The digest of each of these sites up to its number, of what is held. It takes one pass over that.
pub fn digests_of(
    alloc: Global,
    held: &Held,
    places: &[(u16, u32)],
) -> Result<Vec<SiteDigest>, AllocError>
    requires { rises 0 (place_sites places.now) ≡ true }
    ensures { IfOk result (λ v. v.items ≡ map (site_digest held.now.entries) places.now) }
{
    let Hashed { digests, feeds: _ } = hash_places(alloc, held, &SitePrefixes::new(alloc), places)?;
    Ok(digests)
}
