//! Queries that are asked.

use crate::fault::{Fault, PlainFault};
use std::alloc::AllocError;
use td_listings::relation_table as csv_table;
use td_relations::Relation;
use td_replica::Replica;
use td_semantics::{Answer, Meter};
use td_shell_input::Mode;
use td_shell_tables::relation_table;
use td_site_messages::{SiteFault, push_raise};
use td_stamps::Stamp;
use td_values::{Kind, Raise, Rows, Value, show_into};

// Says the value as the language writes it.
fn say_literal(out: &mut String, value: &Value) -> Result<(), AllocError> {
    show_into(out, value)?;
    out.push_str("\n")
}

// Says the rows as a table.
fn say_table(out: &mut String, rows: &Rows) -> Result<(), AllocError> {
    *out = relation_table(*out.allocator(), rows.heading(), rows.tuples())?;
    Ok(())
}

// Says the relation as comma-separated values under its attributes' names.
fn say_csv(out: &mut String, relation: &Relation) -> Result<(), Fault<'static>> {
    if relation.heading().is_empty() {
        return Err(Fault::Plain(PlainFault::NoAttributes));
    }
    match String::from_utf8(csv_table(*out.allocator(), relation)?) {
        Ok(text) => {
            *out = text;
            Ok(())
        }
        Err(_) => Err(Fault::Site(SiteFault::NoMemory)),
    }
}

// Says the value as the mode has it; one that is no relation is a literal in each mode.
fn say_value(out: &mut String, value: Value, mode: Mode) -> Result<(), Fault<'static>> {
    match (value.kind, mode) {
        (Kind::Relation(rows), Mode::Table) => Ok(say_table(out, &rows)?),
        (Kind::Relation(rows), Mode::Csv) => say_csv(out, &Relation::of(rows)),
        (kind, _) => Ok(say_literal(out, &Value { kind })?),
    }
}

// Says what the error means that the evaluation raised.
fn say_raise(out: &mut String, raise: Raise) -> Result<(), AllocError> {
    push_raise(out, raise)?;
    out.push_str("\n")
}

// Says the value, or the error that its evaluation raised.
fn say_answer(out: &mut String, answer: Answer, mode: Mode) -> Result<(), Fault<'static>> {
    match answer {
        Answer::Value(value) => say_value(out, value, mode),
        Answer::Raised(raise) => Ok(say_raise(out, raise)?),
    }
}

/// Asks a query and says its value.
pub(crate) fn ask<'t, R: Replica>(
    out: &mut String,
    site: &R,
    text: &'t str,
    mode: Mode,
) -> Result<(), Fault<'t>> {
    match site.ask(*out.allocator(), text) {
        Ok(answer) => say_answer(out, answer, mode),
        Err(error) => Err(Fault::Site(SiteFault::NotAsked { text, error })),
    }
}

/// Asks a query as it was just after the statement of the stamp, by what the site holds now.
pub(crate) fn ask_at<'t, R: Replica>(
    out: &mut String,
    site: &R,
    text: &'t str,
    at: Stamp,
    mode: Mode,
    meter: &mut Meter,
) -> Result<(), Fault<'t>> {
    match site.ask_at(*out.allocator(), text, at, meter) {
        Ok(answer) => say_answer(out, answer, mode),
        Err(error) => Err(Fault::Site(SiteFault::NotAskedAt { text, error })),
    }
}
