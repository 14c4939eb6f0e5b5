//! The sites of a script.

ghost use Rattle.std.specs.Prelude.{◌≡◌, ◌≤◌, List, ℕ, Err, IfOk, MatchResult, map, option_map, string_bytes, true};
ghost use Rattle.std.specs.List.{AllByRecursion};
ghost use Rattle.td_journal.specs.Reopening.{IsNew};
ghost use Rattle.td_answers.specs.Sites.{AreOfScript};
ghost use Rattle.td_workbench.specs.ForProofs.Opening.{OpensAll};
ghost use Rattle.td_workbench.specs.ForProofs.Reading.{IsKeptScript};
ghost use Rattle.td_workbench.specs.Programs.{InRange};
ghost use Rattle.td_workbench.specs.Scripts.{IsAccepted, IsRefusedScript, ready};
ghost use Rattle.td_semantics.specs.Scripts as scripts;
ghost use Rattle.td_replica.specs.NewSites.{OpensSite};
ghost use Rattle.td_replica.specs.Seen.{is_limit};

use crate::script::Script;
use std::alloc::{AllocError, Global};
use std::str;
use td_answers::catalogue_for;
use td_headings::Catalogue;
use td_listings::show_number;
use td_replica::{OpenError, Opens};
use td_semantics::ScriptError;

/// What the words of the program give.
#[derive(Clone, Copy, PartialEq, Eq)]
pub struct Options {
    /// How many sites there are: 1 to 16.
    pub sites: u16,
    /// The number of the first one: 1 to 65,520. The others' follow it.
    pub first: u16,
    /// The most entries that a site may hold: 1 to 100,000.
    pub limit: usize,
}

/// What an accepted script opens.
#[derive(Drop)]
pub struct Opened<R: Drop> {
    pub sites: Vec<R>,
    pub catalogue: Catalogue,
    /// The line that tells of them.
    pub ready: String,
}

// A site of this number that holds nothing, or why its script is refused.
fn open_site<R: Opens + Drop>(
    alloc: Global,
    script: &str,
    site: u16,
    limit: usize,
) -> Result<R, ScriptError>
    requires site { 1 ≤ site }
    requires limit { is_limit limit ≡ true }
    ensures { MatchResult result (λ s. OpensSite script.now site limit (Ok (R.seen s))) (λ e. scripts.Opens script.now (Err e)) }
{
    match R::open_script(alloc, script, site, limit) {
        Ok(site) => Ok(site),
        Err(OpenError::Syntax) => Err(ScriptError::Syntax),
        Err(OpenError::IllTyped) => Err(ScriptError::IllTyped),
        Err(OpenError::OpeningRaised(raise)) => Err(ScriptError::OpeningRaised(raise)),
        Err(OpenError::OpeningBroken(test)) => Err(ScriptError::OpeningBroken(test)),
        Err(OpenError::OutOfMemory) => Err(ScriptError::OutOfMemory),
        Err(OpenError::BadSite) => unreachable!(),
        Err(OpenError::BadLimit) => unreachable!(),
    }
}

// One site after the other.
fn open_sites<R: Opens + Drop>(
    alloc: Global,
    options: &Options,
    script: &str,
) -> Result<Vec<R>, ScriptError>
    requires { InRange options.now }
    ensures { MatchResult result (λ v. OpensAll options.now script.now (map R.seen v.items)) (λ e. scripts.Opens script.now (Err e)) }
{
    let mut sites = Vec::new(alloc);
    for at in 0..options.sites {
        let site = match open_site::<R>(alloc, script, options.first + at, options.limit) {
            Ok(site) => site,
            Err(e) => return Err(e),
        };
        match sites.push(site) {
            Ok(()) => {}
            Err(_) => return Err(ScriptError::OutOfMemory),
        }
    }
    Ok(sites)
}

// The line that tells how many sites are ready.
fn ready_text(alloc: Global, sites: u16) -> Result<String, AllocError>
    ensures { IfOk result (λ text. string_bytes text ≡ ready sites) }
{
    let mut out = String::new(alloc);
    out.push_str("ready ")?;
    show_number(&mut out, u64::from(sites))?;
    out.push_str("\n")?;
    Ok(out)
}

// What the script opens: its sites, their catalogue, and the line that tells of them.
fn open_text<R: Opens + Drop>(
    alloc: Global,
    options: &Options,
    script: &str,
) -> Result<Opened<R>, ScriptError>
    requires { InRange options.now }
    ensures { MatchResult result (λ o. OpensAll options.now script.now (map R.seen o.sites.items) × AreOfScript o.catalogue (map R.seen o.sites.items) × (string_bytes o.ready ≡ ready options.now.sites)) (λ e. scripts.Opens script.now (Err e)) }
{
    let sites = match open_sites::<R>(alloc, options, script) {
        Ok(sites) => sites,
        Err(e) => return Err(e),
    };
    let catalogue = match catalogue_for(alloc, &sites) {
        Ok(catalogue) => catalogue,
        Err(_) => return Err(ScriptError::OutOfMemory),
    };
    match ready_text(alloc, options.sites) {
        Ok(ready) => Ok(Opened {
            sites,
            catalogue,
            ready,
        }),
        Err(_) => Err(ScriptError::OutOfMemory),
    }
}

/// Opens the sites of a script. It costs what opening one site costs, for each, and reading and typing the script once
/// more.
pub fn open<R: Opens + Drop>(
    alloc: Global,
    options: &Options,
    script: &Script,
) -> Result<Opened<R>, ScriptError>
    requires { InRange options.now }
    ensures judged { (text : List ℕ) → IsKeptScript text (option_map (λ v. v.items) script.now.bytes)
        → MatchResult result (λ o. IsAccepted options.now text (map R.seen o.sites.items) × AreOfScript o.catalogue (map R.seen o.sites.items) × (string_bytes o.ready ≡ ready options.now.sites)) (λ e. IsRefusedScript text e) }
    ensures catalogue { IfOk result (λ o. AreOfScript o.catalogue (map R.seen o.sites.items)) }
    ensures new { IfOk result (λ o. AllByRecursion IsNew (map R.seen o.sites.items)) }
{
    let Some(bytes) = &script.bytes else {
        return Err(ScriptError::Syntax);
    };
    match str::from_utf8(bytes) {
        Ok(text) => open_text::<R>(alloc, options, text),
        Err(_) => Err(ScriptError::Syntax),
    }
}
