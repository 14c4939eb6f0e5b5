//! What is kept of entries that were hashed.

ghost use Rattle.std.specs.Prelude.{◌≡◌, List, true, IfOk, IfSome, OnOk, is_some};
ghost use Rattle.td_stamps.specs.Sets.{is_set};
ghost use Rattle.td_stamps.specs.declared.entry.Entry.{Entry as EntryData};
ghost use Rattle.td_comparison.specs.Digests.{site_digest};
ghost use Rattle.td_comparison.specs.Hashed.{AreHashed, ArePrefixesOf, IsFed, IsPrefixOf};
ghost use Rattle.td_comparison.specs.ForProofs.{is_hashed};

use crate::digest::{SiteDigest, SiteFeed, first_bytes};
use sha2::{Digest, Sha256};
use std::alloc::{AllocError, Global};
use std::collections::BTreeMap;

/// A hasher that has taken the frames of the entries that a site issued first, up to a number.
#[derive(Drop)]
pub struct SitePrefix {
    pub number: u32,
    pub hasher: Sha256,
}

/// For each site what was hashed of it, up to the greatest number at which it was compared.
#[derive(Drop)]
pub struct SitePrefixes {
    by_site: BTreeMap<u16, SitePrefix>,
}

// The digest of what a hasher has taken. The hasher can go on.
pub(crate) fn digest_of(prefix: &SitePrefix, site: u16) -> Result<SiteDigest, AllocError>
    ensures { IfOk result (λ d. (xs : List EntryData) → IsPrefixOf xs site prefix.now → d ≡ site_digest xs (site, prefix.now.number)) }
{
    let hasher = prefix.hasher.clone()?;
    Ok(SiteDigest {
        site,
        number: prefix.number,
        digest: first_bytes(&hasher.finalize()),
    })
}

impl SitePrefixes {
    /// Nothing is kept. It takes no memory until something is.
    pub fn new(alloc: Global) -> SitePrefixes
        ensures { (xs : List EntryData) → ArePrefixesOf xs result }
    {
        SitePrefixes {
            by_site: BTreeMap::new(alloc),
        }
    }

    /// Whether nothing is kept.
    pub fn is_empty(&self) -> bool {
        self.by_site.is_empty()
    }

    // What is kept of a site.
    pub(crate) fn of_site(&self, site: u16) -> Option<&SitePrefix>
        ensures { IfSome result (λ p. (xs : List EntryData) → ArePrefixesOf xs self.now → IsPrefixOf xs site p.now) }
    {
        self.by_site.get(&site)
    }

    // What is kept of a site, if that is its entries up to this number.
    pub(crate) fn at(&self, site: u16, number: u32) -> Option<&SitePrefix>
        ensures kept { is_some result ≡ is_hashed self.now (site, number) }
        ensures found { IfSome result (λ p. (p.now.number ≡ number) × ((xs : List EntryData) → ArePrefixesOf xs self.now → IsPrefixOf xs site p.now)) }
    {
        let Some(prefix) = self.by_site.get(&site) else {
            return None;
        };
        if prefix.number != number {
            return None;
        }
        Some(prefix)
    }

    // Whether more of a site is kept than its entries up to this number.
    fn is_past(&self, site: u16, number: u32) -> bool {
        match self.by_site.get(&site) {
            Some(prefix) => number < prefix.number,
            None => false,
        }
    }

    // Keeps what a feed has taken, unless a number is missing or more is kept.
    fn keep_feed(&mut self, feed: SiteFeed) -> Result<(), AllocError>
        ensures { (xs : List EntryData) → is_set xs ≡ true → IsFed xs xs feed → ArePrefixesOf xs self.old → ArePrefixesOf xs self.new }
    {
        if feed.last < feed.number || self.is_past(feed.site, feed.number) {
            return Ok(());
        }
        let SiteFeed {
            site,
            number,
            from: _,
            last: _,
            hasher,
        } = feed;
        self.by_site.insert(site, SitePrefix { number, hasher })?;
        Ok(())
    }

    /// Keeps what feeds have taken of what is held: of each site that misses no number, and of which no more is kept. It
    /// keeps less where memory runs out.
    pub fn keep(&mut self, feeds: Vec<SiteFeed>)
        ensures { (xs : List EntryData) → is_set xs ≡ true → AreHashed xs feeds.items → ArePrefixesOf xs self.old → ArePrefixesOf xs self.new }
    {
        for feed in feeds {
            if self.keep_feed(feed).is_err() {
                return;
            }
        }
    }
}
