//! The listing of a site.

ghost use Rattle.std.specs.Prelude.{◌≡◌, ◌<◌, ◌++◌, Ok, Err, OnOk, IfOk, MatchResult, length, string_bytes};
ghost use Rattle.std.specs.List.{flat_map};
ghost use Rattle.td_semantics.specs.Raises.{stop_of};
ghost use Rattle.td_semantics.specs.Scripts.{IsScriptOf};
ghost use Rattle.td_replica.specs.Seen.{AreOutcomes};
ghost use Rattle.td_listings.specs.Calls.{Lists};
ghost use Rattle.td_listings.specs.ForProofs.Asked.{AreRelvars, IsOpenOn, IsRelvarAt, IsValueAt, StandsAt, WasToldAt, meant};
ghost use Rattle.td_listings.specs.Sites.{IsListing};
ghost use Rattle.td_listings.specs.Texts as spec;

use crate::error::ListError;
use crate::words::{show_number, show_raise, show_reason, show_stamp};
use std::alloc::{AllocError, Global};
use td_headings::Catalogue;
use td_relations::Relation;
use td_replica::laws::history_is_unique;
use td_replica::{Replica, TellError, ValueError};
use td_semantics::laws::script_opens_one;
use td_semantics::{Answer, Outcome};
use td_stamps::Stamp;
use td_values::{Name, Raise, Tuple, show_tuple_into};

// Appends the line of a tuple.
fn show_line(out: &mut String, tuple: &Tuple) -> Result<(), AllocError>
    ensures { OnOk result (string_bytes out.new ≡ string_bytes out.old ++ spec.tuple_line tuple.now) }
{
    show_tuple_into(out, tuple)?;
    out.push_str("\n")
}

// Appends a line for each tuple, in their order.
fn show_tuples(out: &mut String, tuples: &[Tuple]) -> Result<(), AllocError>
    ensures { OnOk result (string_bytes out.new ≡ string_bytes out.old ++ flat_map spec.tuple_line tuples.now) }
{
    for tuple in tuples {
        show_line(out, tuple)?;
    }
    Ok(())
}

// Appends the line of a relvar with its name and the number of its tuples, and a line for each of these.
fn show_relation(out: &mut String, name: &Name, relation: &Relation) -> Result<(), AllocError>
    ensures { OnOk result (string_bytes out.new ≡ string_bytes out.old ++ spec.relvar_lines name.now (Ok relation.now)) }
{
    out.push_str("relvar ")?;
    out.push_str(name.as_str())?;
    out.push_str(" ")?;
    show_number(out, relation.tuples().len() as u64)?;
    out.push_str("\n")?;
    show_tuples(out, relation.tuples())
}

// Appends the line of a relvar whose value is an error.
fn show_raised(out: &mut String, name: &Name, raise: Raise) -> Result<(), AllocError>
    ensures { OnOk result (string_bytes out.new ≡ string_bytes out.old ++ spec.relvar_lines name.now (Err (stop_of raise))) }
{
    out.push_str("relvar ")?;
    out.push_str(name.as_str())?;
    out.push_str(" raised ")?;
    show_raise(out, raise)?;
    out.push_str("\n")
}

// Appends the lines of a relvar, by what it has or raises.
fn show_answer(out: &mut String, name: &Name, answer: &Answer<Relation>) -> Result<(), AllocError>
    ensures { OnOk result (string_bytes out.new ≡ string_bytes out.old ++ spec.relvar_lines name.now (meant answer.now)) }
{
    match answer {
        Answer::Value(relation) => show_relation(out, name, relation),
        Answer::Raised(raise) => show_raised(out, name, *raise),
    }
}

/// What the relvar of this name and place has.
pub(crate) fn value_at<R: Replica>(
    alloc: Global,
    catalogue: &Catalogue,
    replica: &R,
    name: &Name,
    place: usize,
) -> Result<Answer<Relation>, AllocError>
    requires open { IsOpenOn (R.seen replica.now) catalogue.now }
    requires stands { StandsAt catalogue.now name.now place }
    ensures value { IfOk result (IsValueAt (R.seen replica.now) place) }
    ensures told { IfOk result (WasToldAt (R.seen replica.now) place) }
{
    history_is_unique();
    script_opens_one();
    match replica.value_of(alloc, name) {
        Ok(answer) => Ok(answer),
        Err(ValueError::OutOfMemory) => Err(AllocError),
        Err(ValueError::Broken) => unreachable!(),
        Err(ValueError::Unknown) => unreachable!(),
    }
}

// The relvar at the place.
fn name_at(catalogue: &Catalogue, place: usize) -> &Name
    requires { place < length catalogue.now.schema.relvars }
    ensures { IsRelvarAt catalogue.now result.now place }
{
    match catalogue.schema().relvar_at(place) {
        Some((name, _)) => name,
        None => unreachable!(),
    }
}

// Appends the lines of each relvar in order of place, at the cost of the evaluation of each virtual one.
fn show_relvars<R: Replica>(
    alloc: Global,
    out: &mut String,
    catalogue: &Catalogue,
    replica: &R,
) -> Result<(), AllocError>
    requires { IsOpenOn (R.seen replica.now) catalogue.now }
    ensures { OnOk result (AreRelvars (R.seen replica.now) (string_bytes out.old) (string_bytes out.new)) }
{
    history_is_unique();
    script_opens_one();
    for place in 0..catalogue.schema().relvar_count() {
        let name = name_at(catalogue, place);
        let answer = value_at(alloc, catalogue, replica, name, place)?;
        show_answer(out, name, &answer)?;
    }
    Ok(())
}

// Appends the line of an entry that was refused, with its stamp; nothing of one that was done.
fn show_refusal(out: &mut String, stamp: &Stamp, outcome: &Outcome) -> Result<(), AllocError>
    ensures { OnOk result (string_bytes out.new ≡ string_bytes out.old ++ spec.refused_line (stamp.now, outcome.now)) }
{
    match outcome {
        Outcome::Done => Ok(()),
        _ => {
            out.push_str("refused ")?;
            show_stamp(out, stamp)?;
            out.push_str(" ")?;
            show_reason(out, outcome)?;
            out.push_str("\n")
        }
    }
}

// Appends the lines of those entries that were refused, in their order.
fn show_refused(out: &mut String, outcomes: &[(Stamp, Outcome)]) -> Result<(), AllocError>
    ensures { OnOk result (string_bytes out.new ≡ string_bytes out.old ++ flat_map spec.refused_line outcomes.now) }
{
    for told in outcomes {
        show_refusal(out, &told.0, &told.1)?;
    }
    Ok(())
}

// Appends the line that tells how many entries are held.
fn show_held(out: &mut String, count: usize) -> Result<(), AllocError>
    ensures { OnOk result (string_bytes out.new ≡ string_bytes out.old ++ spec.held_line count) }
{
    out.push_str("held ")?;
    show_number(out, count as u64)?;
    out.push_str("\n")
}

// The listing of an open site, with the outcomes of its entries and their number.
fn open_listing<R: Replica>(
    alloc: Global,
    catalogue: &Catalogue,
    replica: &R,
    outcomes: &[(Stamp, Outcome)],
    count: usize,
) -> Result<String, AllocError>
    requires open { IsOpenOn (R.seen replica.now) catalogue.now }
    requires outcomes { AreOutcomes (R.seen replica.now) outcomes.now }
    requires count { count ≡ length (R.seen replica.now).entries }
    ensures { IfOk result (λ text. IsListing (R.seen replica.now) (string_bytes text)) }
{
    let mut out = String::new(alloc);
    show_relvars(alloc, &mut out, catalogue, replica)?;
    show_refused(&mut out, outcomes)?;
    show_held(&mut out, count)?;
    Ok(out)
}

/// The listing of a site: each relvar with its tuples, the refused entries, and how many are held. It costs the
/// evaluation of each virtual relvar, and is linear in what it tells.
pub fn listing_text<R: Replica>(
    alloc: Global,
    catalogue: &Catalogue,
    replica: &R,
) -> Result<String, ListError>
    requires { IsScriptOf (R.seen replica.now).script catalogue.now }
    ensures { MatchResult result (λ text. Lists (R.seen replica.now) (Ok (string_bytes text))) (λ e. Lists (R.seen replica.now) (Err e)) }
{
    let held = match replica.held() {
        Ok(held) => held,
        Err(_) => return Err(ListError::Broken),
    };
    let outcomes = match replica.outcomes(alloc) {
        Ok(outcomes) => outcomes,
        Err(TellError::Broken) => return Err(ListError::Broken),
        Err(TellError::OutOfMemory) => return Err(ListError::OutOfMemory),
    };
    match open_listing(alloc, catalogue, replica, outcomes.as_slice(), held.len()) {
        Ok(text) => Ok(text),
        Err(_) => Err(ListError::OutOfMemory),
    }
}
