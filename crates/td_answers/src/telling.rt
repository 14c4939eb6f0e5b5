//! What one site answers.

ghost use Rattle.std.specs.Prelude.{◌≡◌, Ok, Err, IfOk, MatchResult, codes, string_bytes};
ghost use Rattle.td_semantics.specs.Scripts.{IsScriptOf};
ghost use Rattle.td_semantics.specs.declared.answer.Answer.TheVariants as told;
ghost use Rattle.td_answers.specs.Answers as spec;
ghost use Rattle.td_answers.specs.Answers.{CountsEntries, TellsAsked, TellsIssued, TellsListing, TellsLog, TellsPast, TellsTable, TellsVector, reply_line};
ghost use Rattle.td_answers.specs.ForProofs.Said.{Says};

use crate::faults::{ask_fault, issue_fault, list_fault, past_fault, raised_line, table_fault};
use crate::reply::Reply;
use crate::writing::{blank_line, issued_line};
use std::alloc::{AllocError, Global};
use td_headings::Catalogue;
use td_listings::{ListError, listing_text, log_text, table_text, vector_text};
use td_replica::{MOST_BYTES, Replica};
use td_semantics::{Answer, Meter};
use td_stamps::Stamp;
use td_values::{Value, show};

/// Issues a statement. The room for its line is taken first, but for a text that is too long, which wants none.
pub(crate) fn issue<R: Replica>(alloc: Global, site: &mut R, text: &str, meter: &mut Meter) -> Reply
    ensures answered { Says (λ words. TellsIssued text.now (R.seen site.old) words (R.seen site.new)) result }
    ensures journal { Says (λ text. text ≡ codes "fault journal\n" → R.failed site.old site.new) result }
    ensures journaled { R.journaled site.old → R.journaled site.new }
{
    if !site.is_open() {
        return Reply::Fixed("fault broken\n");
    }
    if text.len() > MOST_BYTES {
        return Reply::Fixed("fault syntax\n");
    }
    let Some(line) = blank_line(alloc) else {
        return Reply::Fixed("fault memory\n");
    };
    match site.issue(alloc, text, meter) {
        Ok(issued) => Reply::Text(issued_line(line, &issued)),
        Err(error) => Reply::Fixed(issue_fault(error)),
    }
}

// The line that shows the value.
fn value_line(alloc: Global, value: &Value) -> Result<String, AllocError>
    ensures { IfOk result (λ line. string_bytes line ≡ reply_line (told.Value value.now)) }
{
    let mut line = show(alloc, value)?;
    line.push_str("\n")?;
    Ok(line)
}

// The line of what a query means.
fn reply_of_answer(alloc: Global, asked: &Answer) -> Result<Reply, AllocError>
    ensures { IfOk result (Says (λ words. words ≡ reply_line asked.now)) }
{
    match asked {
        Answer::Value(value) => Ok(Reply::Text(value_line(alloc, value)?)),
        Answer::Raised(raise) => Ok(Reply::Fixed(raised_line(*raise))),
    }
}

/// Asks a query.
pub(crate) fn query<R: Replica>(alloc: Global, site: &R, text: &str) -> Reply
    ensures { Says (TellsAsked text.now (R.seen site.now)) result }
{
    let asked = match site.ask(alloc, text) {
        Ok(asked) => asked,
        Err(error) => return Reply::Fixed(ask_fault(error)),
    };
    match reply_of_answer(alloc, &asked) {
        Ok(reply) => reply,
        Err(_) => Reply::Fixed("fault memory\n"),
    }
}

// The stamp of this clock and origin; 0.0 where the origin is more than 65,535.
fn stamp_at(clock: u64, origin: u32) -> Stamp
    ensures { result ≡ spec.stamp_at (clock, origin) }
{
    match u16::try_from(origin) {
        Ok(site) => Stamp { clock, site },
        Err(_) => Stamp { clock: 0, site: 0 },
    }
}

/// Asks a query just after the entry of this clock and origin.
pub(crate) fn query_at<R: Replica>(
    alloc: Global,
    site: &R,
    text: &str,
    clock: u64,
    origin: u32,
    meter: &mut Meter,
) -> Reply
    ensures { Says (TellsPast text.now (clock, origin) (R.seen site.now)) result }
{
    let past = match site.ask_at(alloc, text, stamp_at(clock, origin), meter) {
        Ok(past) => past,
        Err(error) => return Reply::Fixed(past_fault(error)),
    };
    match reply_of_answer(alloc, &past) {
        Ok(reply) => reply,
        Err(_) => Reply::Fixed("fault memory\n"),
    }
}

/// Lists a site.
pub(crate) fn listing<R: Replica>(alloc: Global, catalogue: &Catalogue, site: &R) -> Reply
    requires { IsScriptOf (R.seen site.now).script catalogue.now }
    ensures { Says (TellsListing (R.seen site.now)) result }
{
    match listing_text(alloc, catalogue, site) {
        Ok(text) => Reply::Text(text),
        Err(error) => Reply::Fixed(list_fault(error)),
    }
}

/// Logs a site.
pub(crate) fn log<R: Replica>(alloc: Global, site: &R) -> Reply
    ensures { Says (TellsLog (R.seen site.now)) result }
{
    match log_text(alloc, site) {
        Ok(text) => Reply::Text(text),
        Err(error) => Reply::Fixed(list_fault(error)),
    }
}

// The line of the version vector of the entries that the site holds.
fn vector_line<R: Replica>(alloc: Global, site: &R) -> Result<String, ListError>
    ensures { MatchResult result (λ text. CountsEntries (R.seen site.now) (Ok (string_bytes text))) (λ e. CountsEntries (R.seen site.now) (Err e)) }
{
    let held = match site.held() {
        Ok(held) => held,
        Err(_) => return Err(ListError::Broken),
    };
    let vector = match held.vector(alloc) {
        Ok(vector) => vector,
        Err(_) => return Err(ListError::OutOfMemory),
    };
    match vector_text(alloc, &vector) {
        Ok(text) => Ok(text),
        Err(_) => Err(ListError::OutOfMemory),
    }
}

/// Tells a site's version vector.
pub(crate) fn vector<R: Replica>(alloc: Global, site: &R) -> Reply
    ensures { Says (TellsVector (R.seen site.now)) result }
{
    match vector_line(alloc, site) {
        Ok(text) => Reply::Text(text),
        Err(error) => Reply::Fixed(list_fault(error)),
    }
}

/// Tells the table of a relvar.
pub(crate) fn table<R: Replica>(
    alloc: Global,
    catalogue: &Catalogue,
    site: &R,
    relvar: &str,
) -> Reply
    requires { IsScriptOf (R.seen site.now).script catalogue.now }
    ensures { Says (TellsTable catalogue.now relvar.now (R.seen site.now)) result }
{
    match table_text(alloc, catalogue, site, relvar) {
        Ok(text) => Reply::Table(text),
        Err(error) => Reply::Fixed(table_fault(error)),
    }
}
