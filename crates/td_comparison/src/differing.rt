//! Which sites differ between what is held here and what another site has.

ghost use Rattle.std.specs.Prelude.{◌≡◌, ◌≤◌, true, length, IfOk, map};
ghost use Rattle.td_comparison.specs.Digests.{answers_to, differing, known_to_differ, question_of, rises, site_digest, digest_sites};
ghost use Rattle.td_comparison.specs.Hashed.{AreHashed, ArePrefixesOf};
ghost use Rattle.td_comparison.specs.ForProofs.{common_place, is_unequal, sites_unequal, with_number};

use crate::digest::{Hashed, SiteDigest, SiteFeed, hash_places};
use crate::prefixes::SitePrefixes;
use std::alloc::{AllocError, Global};
use td_stamps::{Held, Vector};

/// What a site finds by another one's digests, and answers.
#[derive(Drop)]
pub struct Findings {
    /// Of each site that was named.
    pub digests: Vec<SiteDigest>,
    /// The sites that are known here to differ.
    pub differing: Vec<u16>,
    /// What was hashed for that.
    pub feeds: Vec<SiteFeed>,
}

/// The sites that differ, by an answer.
#[derive(Drop)]
pub struct Differing {
    pub sites: Vec<u16>,
    /// What was hashed to find them.
    pub feeds: Vec<SiteFeed>,
}

/// What a site asks another one with: a digest for each site of its version vector.
pub fn question(
    alloc: Global,
    held: &Held,
    known: &SitePrefixes,
    vector: &Vector,
) -> Result<Hashed, AllocError>
    requires { ArePrefixesOf held.now.entries known.now }
    ensures digests { IfOk result (λ h. h.digests.items ≡ question_of held.now.entries vector.now) }
    ensures few { IfOk result (λ h. length h.digests.items ≤ 65535) }
    ensures feeds { IfOk result (λ h. AreHashed held.now.entries h.feeds.items) }
{
    let places = vector.entries(alloc)?;
    hash_places(alloc, held, known, &places)
}

// The sites of these digests, each with the number up to which both have its entries.
fn common_places(
    alloc: Global,
    vector: &Vector,
    digests: &[SiteDigest],
) -> Result<Vec<(u16, u32)>, AllocError>
    ensures { IfOk result (λ v. v.items ≡ map (common_place vector.now) digests.now) }
{
    let mut places = Vec::with_capacity(alloc, digests.len())?;
    for digest in digests {
        let number = digest.number.min(vector.number(digest.site));
        places.push((digest.site, number))?;
    }
    Ok(places)
}

// What is held here of the sites of these digests, up to the numbers that both have.
fn common_digests(
    alloc: Global,
    held: &Held,
    known: &SitePrefixes,
    vector: &Vector,
    digests: &[SiteDigest],
) -> Result<Hashed, AllocError>
    requires rises { rises 0 (digest_sites digests.now) ≡ true }
    requires known { ArePrefixesOf held.now.entries known.now }
    ensures digests { IfOk result (λ h. h.digests.items ≡ map (λ d. site_digest held.now.entries (common_place vector.now d)) digests.now) }
    ensures feeds { IfOk result (λ h. AreHashed held.now.entries h.feeds.items) }
{
    let places = common_places(alloc, vector, digests)?;
    hash_places(alloc, held, known, &places)
}

// Whether two digests of a site can be compared, and are not the same. A question's digest can where both are of one
// number.
fn is_unequal(are_answers: bool, ours: &SiteDigest, theirs: &SiteDigest) -> bool
    ensures { result ≡ is_unequal are_answers ours.now theirs.now }
{
    (are_answers || ours.number == theirs.number) && ours.digest != theirs.digest
}

// The sites of those digests that are not the same in both lists; of a question only where both are of one number.
fn unequal_sites(
    alloc: Global,
    own: &[SiteDigest],
    others: &[SiteDigest],
    are_answers: bool,
) -> Result<Vec<u16>, AllocError>
    requires { length own.now ≡ length others.now }
    ensures { IfOk result (λ v. v.items ≡ sites_unequal are_answers own.now others.now) }
{
    let mut sites = Vec::new(alloc);
    for at in 0..own.len() {
        if is_unequal(are_answers, &own[at], &others[at]) {
            sites.push(others[at].site)?;
        }
    }
    Ok(sites)
}

// The same digests, with the numbers up to which the entries of their sites are held.
fn with_numbers(
    alloc: Global,
    vector: &Vector,
    digests: &[SiteDigest],
) -> Result<Vec<SiteDigest>, AllocError>
    ensures { IfOk result (λ v. v.items ≡ map (with_number vector.now) digests.now) }
{
    let mut numbered = Vec::with_capacity(alloc, digests.len())?;
    for digest in digests {
        numbered.push(SiteDigest {
            site: digest.site,
            number: vector.number(digest.site),
            digest: digest.digest,
        })?;
    }
    Ok(numbered)
}

/// What is answered to another site's digests, whose sites rise: for each the number up to which the site's entries are
/// held here, and their digest up to the lesser of both numbers; and which sites are known to differ by that.
pub fn answer(
    alloc: Global,
    held: &Held,
    known: &SitePrefixes,
    vector: &Vector,
    digests: &[SiteDigest],
) -> Result<Findings, AllocError>
    requires rises { rises 0 (digest_sites digests.now) ≡ true }
    requires known { ArePrefixesOf held.now.entries known.now }
    ensures digests { IfOk result (λ a. a.digests.items ≡ answers_to held.now.entries vector.now digests.now) }
    ensures differing { IfOk result (λ a. a.differing.items ≡ known_to_differ held.now.entries vector.now digests.now) }
    ensures feeds { IfOk result (λ a. AreHashed held.now.entries a.feeds.items) }
{
    let Hashed {
        digests: own,
        feeds,
    } = common_digests(alloc, held, known, vector, digests)?;
    let differing = unequal_sites(alloc, &own, digests, false)?;
    let digests = with_numbers(alloc, vector, &own)?;
    Ok(Findings {
        digests,
        differing,
        feeds,
    })
}

/// The sites that differ, by another site's answer, whose sites rise.
pub fn differing_sites(
    alloc: Global,
    held: &Held,
    known: &SitePrefixes,
    vector: &Vector,
    answer: &[SiteDigest],
) -> Result<Differing, AllocError>
    requires rises { rises 0 (digest_sites answer.now) ≡ true }
    requires known { ArePrefixesOf held.now.entries known.now }
    ensures sites { IfOk result (λ d. d.sites.items ≡ differing held.now.entries vector.now answer.now) }
    ensures feeds { IfOk result (λ d. AreHashed held.now.entries d.feeds.items) }
{
    let Hashed {
        digests: own,
        feeds,
    } = common_digests(alloc, held, known, vector, answer)?;
    let sites = unequal_sites(alloc, &own, answer, true)?;
    Ok(Differing { sites, feeds })
}
