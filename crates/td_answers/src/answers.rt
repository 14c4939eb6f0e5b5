//! Lines answered by sites.

ghost use Rattle.std.specs.Prelude.{◌≡◌, IfOk, codes, map};
ghost use Rattle.td_commands.specs.Lines.{line_of};
ghost use Rattle.td_answers.specs.Asking.{AreAsked, AreAskedAt};
ghost use Rattle.td_answers.specs.Answers.{IssueAnswered, MayTakeEntries, MeetAnswered, TellsAsked, TellsListing, TellsLog, TellsPast, TellsTable, TellsVector};
ghost use Rattle.td_answers.specs.Linked.{CallsOver, LinkAnswered, ServesOver};
ghost use Rattle.td_answers.specs.Replies.{Replies, words};
ghost use Rattle.td_answers.specs.Sites.{AreOfOneScript, AreOfScript, EachStays, HappensToOne, site_of, sites_of};
ghost use Rattle.td_answers.specs.ForProofs.Said.{Says, TellsIn};

use crate::links::Links;
use crate::meeting::meet_at;
use crate::places::{place_of, site_in};
use crate::reply::Reply;
use crate::{linking, telling};
use std::alloc::{AllocError, Global};
use td_commands::{Command, command_of};
use td_headings::Catalogue;
use td_listings::script_catalogue;
use td_replica::Replica;
use td_semantics::Meter;

/// The catalogue of the sites' script; without sites an empty one. It costs the reading and typing of the script.
pub fn catalogue_for<R: Replica>(alloc: Global, sites: &[R]) -> Result<Catalogue, AllocError>
    requires { AreOfOneScript (map R.seen sites.now) }
    ensures { IfOk result (λ catalogue. AreOfScript catalogue (map R.seen sites.now)) }
{
    match sites {
        [] => Ok(Catalogue::new(alloc)),
        [first, ..] => script_catalogue(alloc, first),
    }
}

// The line that is told where no site has the number.
fn no_site() -> Reply
    ensures { Says (λ words. words ≡ codes "fault site\n") result }
{
    Reply::Fixed("fault site\n")
}

// Issues the statement at the site of this number.
fn issue_in<R: Replica>(
    alloc: Global,
    sites: &mut [R],
    number: u32,
    text: &str,
    meter: &mut Meter,
) -> Reply
    ensures answered { Says (λ words. IssueAnswered text.now (map R.seen sites.old) (site_of number (map R.seen sites.old)) words (map R.seen sites.new)) result }
    ensures journal { Says (λ text. text ≡ codes "fault journal\n" → HappensToOne R.failed sites.old sites.new) result }
    ensures journaled { EachStays R.journaled sites.old sites.new }
{
    match place_of(sites, number) {
        Some(at) => telling::issue(alloc, &mut sites[at], text, meter),
        None => no_site(),
    }
}

// Asks the query of the site of this number.
fn query_in<R: Replica>(alloc: Global, sites: &[R], number: u32, text: &str) -> Reply
    ensures { Says (TellsIn (TellsAsked text.now) number (map R.seen sites.now)) result }
{
    match site_in(sites, number) {
        Some(site) => telling::query(alloc, site, text),
        None => no_site(),
    }
}

// Asks the query of the site of this number, just after the entry of this clock and origin.
fn query_at_in<R: Replica>(
    alloc: Global,
    sites: &[R],
    number: u32,
    text: &str,
    stamp: (u64, u32),
    meter: &mut Meter,
) -> Reply
    ensures { Says (TellsIn (TellsPast text.now stamp) number (map R.seen sites.now)) result }
{
    match site_in(sites, number) {
        Some(site) => telling::query_at(alloc, site, text, stamp.0, stamp.1, meter),
        None => no_site(),
    }
}

// Has the sites of these two numbers meet; it tells of a site fault where they are not two sites.
fn meet_in<R: Replica>(
    alloc: Global,
    sites: &mut [R],
    first: u32,
    second: u32,
    meter: &mut Meter,
) -> Reply
    ensures answered { Says (λ words. MeetAnswered first second (map R.seen sites.old) (sites_of first second (map R.seen sites.old)) words (map R.seen sites.new)) result }
    ensures journal { Says (λ text. text ≡ codes "fault journal\n" → HappensToOne R.failed sites.old sites.new) result }
    ensures journaled { EachStays R.journaled sites.old sites.new }
{
    match (place_of(sites, first), place_of(sites, second)) {
        (Some(a), Some(b)) if a != b => meet_at(alloc, sites, (first, second), a, b, meter),
        _ => no_site(),
    }
}

// Lists the site of this number.
fn listing_in<R: Replica>(alloc: Global, catalogue: &Catalogue, sites: &[R], number: u32) -> Reply
    requires { AreOfScript catalogue.now (map R.seen sites.now) }
    ensures { Says (TellsIn TellsListing number (map R.seen sites.now)) result }
{
    match site_in(sites, number) {
        Some(site) => telling::listing(alloc, catalogue, site),
        None => no_site(),
    }
}

// Logs the site of this number.
fn log_in<R: Replica>(alloc: Global, sites: &[R], number: u32) -> Reply
    ensures { Says (TellsIn TellsLog number (map R.seen sites.now)) result }
{
    match site_in(sites, number) {
        Some(site) => telling::log(alloc, site),
        None => no_site(),
    }
}

// Tells the version vector of the site of this number.
fn vector_in<R: Replica>(alloc: Global, sites: &[R], number: u32) -> Reply
    ensures { Says (TellsIn TellsVector number (map R.seen sites.now)) result }
{
    match site_in(sites, number) {
        Some(site) => telling::vector(alloc, site),
        None => no_site(),
    }
}

// Tells the table that the relvar has at the site of this number.
fn table_in<R: Replica>(
    alloc: Global,
    catalogue: &Catalogue,
    sites: &[R],
    number: u32,
    relvar: &str,
) -> Reply
    requires { AreOfScript catalogue.now (map R.seen sites.now) }
    ensures { Says (TellsIn (TellsTable catalogue.now relvar.now) number (map R.seen sites.now)) result }
{
    match site_in(sites, number) {
        Some(site) => telling::table(alloc, catalogue, site, relvar),
        None => no_site(),
    }
}

// Has the site of this number wait at the address for a caller, and meet it.
fn serve_in<R: Replica, L: Links>(
    alloc: Global,
    sites: &mut [R],
    links: &mut L,
    number: u32,
    address: &str,
    meter: &mut Meter,
) -> Reply
    ensures answered { Says (λ words. LinkAnswered ServesOver (codes "served") number address.now (map R.seen sites.old) (site_of number (map R.seen sites.old)) words (map R.seen sites.new)) result }
    ensures asked { Says (λ words. AreAskedAt L.serves address.now (site_of number (map R.seen sites.old)) words links.old links.new) result }
    ensures journal { Says (λ text. text ≡ codes "fault journal\n" → HappensToOne R.failed sites.old sites.new) result }
    ensures journaled { EachStays R.journaled sites.old sites.new }
{
    match place_of(sites, number) {
        Some(at) => linking::serve(alloc, &mut sites[at], links, number, address, meter),
        None => no_site(),
    }
}

// Has the site of this number meet the one that serves at the address.
fn call_in<R: Replica, L: Links>(
    alloc: Global,
    sites: &mut [R],
    links: &mut L,
    number: u32,
    address: &str,
    meter: &mut Meter,
) -> Reply
    ensures answered { Says (λ words. LinkAnswered CallsOver (codes "called") number address.now (map R.seen sites.old) (site_of number (map R.seen sites.old)) words (map R.seen sites.new)) result }
    ensures asked { Says (λ words. AreAskedAt L.calls address.now (site_of number (map R.seen sites.old)) words links.old links.new) result }
    ensures journal { Says (λ text. text ≡ codes "fault journal\n" → HappensToOne R.failed sites.old sites.new) result }
    ensures journaled { EachStays R.journaled sites.old sites.new }
{
    match place_of(sites, number) {
        Some(at) => linking::call(alloc, &mut sites[at], links, number, address, meter),
        None => no_site(),
    }
}

// Reads the line as a command, and does what that asks for.
fn reply_to<R: Replica, L: Links>(
    alloc: Global,
    catalogue: &Catalogue,
    sites: &mut [R],
    links: &mut L,
    meter: &mut Meter,
    line: &[u8],
) -> Reply
    requires { AreOfScript catalogue.now (map R.seen sites.old) }
    ensures replies { Replies catalogue.now (map R.seen sites.old) (line_of line.now) result (map R.seen sites.new) }
    ensures asked { AreAsked L.serves L.calls (map R.seen sites.old) (line_of line.now) (words result) links.old links.new }
    ensures journal { MayTakeEntries (line_of line.now) → words result ≡ codes "fault journal\n" → HappensToOne R.failed sites.old sites.new }
    ensures journaled { EachStays R.journaled sites.old sites.new }
{
    match command_of(line) {
        Command::Nothing => Reply::Fixed(""),
        Command::Quit => Reply::Quit,
        Command::Issue { site, text } => issue_in(alloc, sites, site, text, meter),
        Command::Query { site, text } => query_in(alloc, sites, site, text),
        Command::QueryAt {
            site,
            text,
            clock,
            origin,
        } => query_at_in(alloc, sites, site, text, (clock, origin), meter),
        Command::Meet { first, second } => meet_in(alloc, sites, first, second, meter),
        Command::Listing { site } => listing_in(alloc, catalogue, sites, site),
        Command::Log { site } => log_in(alloc, sites, site),
        Command::Vector { site } => vector_in(alloc, sites, site),
        Command::Table { site, relvar } => table_in(alloc, catalogue, sites, site, relvar),
        Command::Serve { site, address } => serve_in(alloc, sites, links, site, address, meter),
        Command::Call { site, address } => call_in(alloc, sites, links, site, address, meter),
        Command::Faulty => Reply::Fixed("fault line\n"),
    }
}

/// Answers a line, which comes without its line end. It costs what the calls that it makes cost, and a search among the
/// sites. Only a line whose site is there and whose address is one asks for a link, once; it waits for a connection as
/// long as the links do.
pub fn answer<R: Replica, L: Links>(
    alloc: Global,
    catalogue: &Catalogue,
    sites: &mut [R],
    links: &mut L,
    meter: &mut Meter,
    line: &[u8],
) -> Reply
    requires { AreOfScript catalogue.now (map R.seen sites.old) }
    ensures replies { Replies catalogue.now (map R.seen sites.old) (line_of line.now) result (map R.seen sites.new) }
    ensures kept { AreOfScript catalogue.now (map R.seen sites.new) }
    ensures asked { AreAsked L.serves L.calls (map R.seen sites.old) (line_of line.now) (words result) links.old links.new }
    ensures journal { MayTakeEntries (line_of line.now) → words result ≡ codes "fault journal\n" → HappensToOne R.failed sites.old sites.new }
    ensures journaled { EachStays R.journaled sites.old sites.new }
{
    reply_to(alloc, catalogue, sites, links, meter, line)
}
