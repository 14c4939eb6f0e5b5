//! The comparison before a meeting.

ghost use Rattle.std.specs.Prelude.{◌≡◌, ◌<◌, ◌≤◌, ◌^◌, ◌↔◌, ◌++◌, true, length, IsTrue, IfOk};
ghost use Rattle.td_io.specs.Streams.{Writes};
ghost use Rattle.td_stamps.specs.Vectors.{IsVector};
ghost use Rattle.td_comparison.specs.Digests.{question_of, rises, digest_sites};
ghost use Rattle.td_comparison.specs.Hashed.{AreHashed, ArePrefixesOf};
ghost use Rattle.td_checked_meetings.specs.Comparing.{AddsDifferences, AnsweredQuestion, Asked, Compared, IsWhole, comparison_of};
ghost use Rattle.td_checked_meetings.specs.ForProofs as proofs;

use crate::scope::MeetingScope;
use std::alloc::{AllocError, Global};
use td_comparison::{
    Comparison, Differing, Findings, Hashed, MessageError, SiteDigest, SiteFeed, SitePrefixes,
    differing_sites, put_comparison, put_differences, question, read_comparison, read_differences,
    script_digest,
};
use td_digested_sites::Digested;
use td_frames::FrameError;
use td_io::{Failed, Sink};
use td_meeting::MeetingError;
use td_replica::Replica;
use td_stamps::{Held, Vector};

// Why a message is not read.
fn unread(error: MessageError) -> MeetingError
    ensures { result ≡ proofs.unread error }
{
    match error {
        MessageError::OutOfMemory => MeetingError::OutOfMemory,
        MessageError::Malformed => MeetingError::Frame {
            error: FrameError::BadFrame,
            taken: 0,
        },
    }
}

// Whether a comparison is that of another site of the same script.
fn is_of_another<R: Replica>(site: &R, comparison: &Comparison) -> bool
    ensures { IsTrue result ↔ proofs.IsOfOther (R.seen site.now) comparison.now }
{
    comparison.site != site.site() && comparison.script == script_digest(site.script())
}

// The version vector of what is held, and digests of its sites.
fn own_question(
    alloc: Global,
    held: &Held,
    known: &SitePrefixes,
) -> Result<(Vector, Hashed), AllocError>
    requires { ArePrefixesOf held.now.entries known.now }
    ensures vector { IfOk result (λ r. IsVector held.now.entries r.0) }
    ensures digests { IfOk result (λ r. r.1.digests.items ≡ question_of held.now.entries r.0) }
    ensures few { IfOk result (λ r. length r.1.digests.items ≤ 65535) }
    ensures feeds { IfOk result (λ r. AreHashed held.now.entries r.1.feeds.items) }
{
    let vector = held.vector(alloc)?;
    let hashed = question(alloc, held, known, &vector)?;
    Ok((vector, hashed))
}

// Keeps what was hashed for a question, if nothing is kept yet. Else what is kept goes up to the numbers of the last
// comparisons, which other sites have too; the numbers of a question may be greater.
fn keep_first<R: Digested>(site: &mut R, feeds: Vec<SiteFeed>)
    requires { AreHashed (R.seen site.old).entries feeds.items }
    ensures seen { R.seen site.new ≡ R.seen site.old }
    ensures journaled { R.journaled site.old → R.journaled site.new }
{
    if site.prefixes().is_empty() {
        site.keep(feeds);
    }
}

/// The first site writes a digest of what it holds of each site, and hands it on. Returns the version vector of what it
/// holds. It keeps what it hashed for that, if nothing is kept yet.
pub fn ask<R: Digested, K: Sink>(
    alloc: Global,
    site: &mut R,
    sink: &mut K,
) -> Result<Vector, MeetingError>
    ensures asks { Asked (R.seen site.old) (K.held sink.old) result (K.held sink.new) }
    ensures seen { R.seen site.new ≡ R.seen site.old }
    ensures journaled { R.journaled site.old → R.journaled site.new }
{
    let Ok(held) = site.held() else {
        return Err(MeetingError::Broken);
    };
    let Ok((vector, hashed)) = own_question(alloc, held, site.prefixes()) else {
        return Err(MeetingError::OutOfMemory);
    };
    let Hashed { digests, feeds } = hashed;
    let sent = send_comparison(site, &digests, sink);
    keep_first(site, feeds);
    match sent {
        Ok(()) => Ok(vector),
        Err(Failed) => Err(MeetingError::WriteFault { taken: 0 }),
    }
}

/// The scope of a meeting with a site that does not compare: all that is held, and no site is left out.
pub fn whole_scope<R: Replica>(alloc: Global, site: &R) -> Result<MeetingScope, MeetingError>
    ensures { IsWhole (R.seen site.now) result }
{
    let Ok(held) = site.held() else {
        return Err(MeetingError::Broken);
    };
    match held.vector(alloc) {
        Ok(vector) => Ok(MeetingScope {
            vector,
            left_out: Vec::new(alloc),
        }),
        Err(_) => Err(MeetingError::OutOfMemory),
    }
}

// Writes a comparison by the site, and hands it on.
fn send_comparison<R: Replica, K: Sink>(
    site: &R,
    digests: &[SiteDigest],
    sink: &mut K,
) -> Result<(), Failed>
    requires { length digests.now < 2 ^ 32 }
    ensures { Writes (K.held sink.old) (K.held sink.new) result (comparison_of (R.seen site.now) digests.now) }
{
    put_comparison(sink, site.site(), &script_digest(site.script()), digests)?;
    sink.flush()
}

// What is answered to a comparison: nothing to one of another script, or of this site's number.
fn answer_to<R: Digested>(
    alloc: Global,
    site: &R,
    held: &Held,
    vector: &Vector,
    comparison: &Comparison,
) -> Result<Findings, AllocError>
    requires holding { held.now.entries ≡ (R.seen site.now).entries }
    requires rises { rises 0 (digest_sites comparison.now.digests.items) ≡ true }
    ensures finds { IfOk result (λ f. proofs.FindsOf (R.seen site.now) vector.now comparison.now f) }
    ensures feeds { IfOk result (λ f. AreHashed (R.seen site.now).entries f.feeds.items) }
{
    if is_of_another(site, comparison) {
        let known = site.prefixes();
        return td_comparison::answer(alloc, held, known, vector, &comparison.digests);
    }
    Ok(Findings {
        digests: Vec::new(alloc),
        differing: Vec::new(alloc),
        feeds: Vec::new(alloc),
    })
}

/// The second site reads the first one's digests, writes its own of the same sites, and hands them on. Returns the
/// scope of the meeting, as far as it is known here. It keeps what it hashed for that.
pub fn answer_question<R: Digested, K: Sink>(
    alloc: Global,
    site: &mut R,
    question: &[u8],
    sink: &mut K,
) -> Result<MeetingScope, MeetingError>
    ensures answers { AnsweredQuestion (R.seen site.old) question.now (K.held sink.old) result (K.held sink.new) }
    ensures seen { R.seen site.new ≡ R.seen site.old }
    ensures journaled { R.journaled site.old → R.journaled site.new }
{
    let Ok(held) = site.held() else {
        return Err(MeetingError::Broken);
    };
    let comparison = match read_comparison(alloc, question) {
        Ok(comparison) => comparison,
        Err(error) => return Err(unread(error)),
    };
    let Ok(vector) = held.vector(alloc) else {
        return Err(MeetingError::OutOfMemory);
    };
    let Ok(answer) = answer_to(alloc, site, held, &vector, &comparison) else {
        return Err(MeetingError::OutOfMemory);
    };
    let Findings {
        digests,
        differing,
        feeds,
    } = answer;
    let sent = send_comparison(site, &digests, sink);
    site.keep(feeds);
    match sent {
        Ok(()) => Ok(MeetingScope {
            vector,
            left_out: differing,
        }),
        Err(Failed) => Err(MeetingError::WriteFault { taken: 0 }),
    }
}

// The sites that differ by an answer: none by one of another script, or of this site's number.
fn differing_by<R: Digested>(
    alloc: Global,
    site: &R,
    held: &Held,
    vector: &Vector,
    answer: &Comparison,
) -> Result<Differing, AllocError>
    requires holding { held.now.entries ≡ (R.seen site.now).entries }
    requires rises { rises 0 (digest_sites answer.now.digests.items) ≡ true }
    ensures differ { IfOk result (λ d. proofs.Differ (R.seen site.now) vector.now answer.now d.sites.items) }
    ensures few { IfOk result (λ d. length d.sites.items ≤ length answer.now.digests.items) }
    ensures feeds { IfOk result (λ d. AreHashed (R.seen site.now).entries d.feeds.items) }
{
    if is_of_another(site, answer) {
        return differing_sites(alloc, held, site.prefixes(), vector, &answer.digests);
    }
    Ok(Differing {
        sites: Vec::new(alloc),
        feeds: Vec::new(alloc),
    })
}

/// The first site reads the second one's digests, and writes which sites differ. The vector is the one that `ask`
/// returned. It keeps what it hashed to find them. It flushes nothing: the greeting follows.
pub fn compare<R: Digested, K: Sink>(
    alloc: Global,
    site: &mut R,
    vector: Vector,
    answer: &[u8],
    sink: &mut K,
) -> Result<MeetingScope, MeetingError>
    ensures compares { Compared (R.seen site.old) vector answer.now (K.held sink.old) result (K.held sink.new) }
    ensures seen { R.seen site.new ≡ R.seen site.old }
    ensures journaled { R.journaled site.old → R.journaled site.new }
{
    let Ok(held) = site.held() else {
        return Err(MeetingError::Broken);
    };
    let comparison = match read_comparison(alloc, answer) {
        Ok(comparison) => comparison,
        Err(error) => return Err(unread(error)),
    };
    let Ok(differing) = differing_by(alloc, site, held, &vector, &comparison) else {
        return Err(MeetingError::OutOfMemory);
    };
    let Differing { sites, feeds } = differing;
    site.keep(feeds);
    match put_differences(sink, &sites) {
        Ok(()) => Ok(MeetingScope {
            vector,
            left_out: sites,
        }),
        Err(Failed) => Err(MeetingError::WriteFault { taken: 0 }),
    }
}

// Two lists of sites, one after the other.
fn joined(alloc: Global, first: &[u16], then: &[u16]) -> Result<Vec<u16>, AllocError>
    ensures { IfOk result (λ v. v.items ≡ first.now ++ then.now) }
{
    let mut sites = Vec::with_capacity(alloc, first.len() + then.len())?;
    sites.extend_from_slice(first)?;
    sites.extend_from_slice(then)?;
    Ok(sites)
}

/// The second site reads which sites the first one found to differ, and leaves these out too.
pub fn add_differences(
    alloc: Global,
    scope: &mut MeetingScope,
    differences: &[u8],
) -> Result<(), MeetingError>
    ensures { AddsDifferences scope.old differences.now result scope.new }
{
    let sites = match read_differences(alloc, differences) {
        Ok(sites) => sites,
        Err(error) => return Err(unread(error)),
    };
    let Ok(left_out) = joined(alloc, &scope.left_out, &sites) else {
        return Err(MeetingError::OutOfMemory);
    };
    scope.left_out = left_out;
    Ok(())
}
