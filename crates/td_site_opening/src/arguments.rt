//! The arguments of a command line that say which site is opened, and how.

use clap::builder::ValueParser;
use clap::{Arg, ArgAction, Command};
use std::alloc::{AllocError, Global};
use td_replica::MOST_ENTRIES;

/// Whether a program has to be given the number of its site, and its journal.
#[derive(Clone, Copy, Debug, PartialEq, Eq)]
pub enum Demand {
    /// The number is 1 unless one is given, and no journal is kept unless one is given.
    Optional,
    Required,
}

/// An option with a value.
pub fn option<'a>(alloc: Global, name: &'a str, value: &'a str, help: &'a str) -> Arg<'a> {
    Arg::new(alloc, name)
        .long(name)
        .value_name(value)
        .help(help)
        .action(ArgAction::Set)
}

/// An option with a value that may be given again, where each value counts.
pub fn list<'a>(alloc: Global, name: &'a str, value: &'a str, help: &'a str) -> Arg<'a> {
    Arg::new(alloc, name)
        .long(name)
        .value_name(value)
        .help(help)
        .action(ArgAction::Append)
}

/// An option without a value.
pub fn flag<'a>(alloc: Global, name: &'a str, help: &'a str) -> Arg<'a> {
    Arg::new(alloc, name)
        .long(name)
        .help(help)
        .action(ArgAction::SetTrue)
}

fn script_argument<'a>(alloc: Global) -> Arg<'a> {
    Arg::new(alloc, "script")
        .value_name("SCRIPT")
        .help("The file of definitions, up to a line .begin where it has one")
        .required(true)
        .action(ArgAction::Set)
}

fn number_option<'a>(alloc: Global, demand: Demand) -> Arg<'a> {
    let number = option(alloc, "site", "N", "The number of the site, 1 to 65535").value_parser(
        ValueParser::unsigned(1, 65_535),
    );
    match demand {
        Demand::Optional => number.default_value("1"),
        Demand::Required => number.required(true),
    }
}

fn limit_option<'a>(alloc: Global) -> Arg<'a> {
    let help = "The most statements that the site may hold, 1 to 100000";
    option(alloc, "limit", "L", help)
        .value_parser(ValueParser::unsigned(1, MOST_ENTRIES as u64))
        .default_value("10000")
}

fn journal_option<'a>(alloc: Global, demand: Demand) -> Arg<'a> {
    let help = "Keeps the site's statements in the file PREFIX, its number, .tdj";
    option(alloc, "journal", "PREFIX", help).required(demand == Demand::Required)
}

fn new_flag<'a>(alloc: Global) -> Result<Arg<'a>, AllocError> {
    flag(alloc, "new", "Begins a journal where none is").requires_arg("journal")
}

fn forget_flag<'a>(alloc: Global) -> Result<Arg<'a>, AllocError> {
    let help = "Goes on with a journal that lost statements, without meeting another site first";
    flag(alloc, "forget", help).requires_arg("journal")
}

fn rebuild_flag<'a>(alloc: Global) -> Result<Arg<'a>, AllocError> {
    let help =
        "Begins a journal for a site that had one; it issues nothing until it has met another";
    flag(alloc, "rebuild", help)
        .requires_arg("journal")?
        .conflicts_with("new")?
        .conflicts_with("forget")
}

fn salvage_flag<'a>(alloc: Global) -> Result<Arg<'a>, AllocError> {
    let help = "Makes a damaged journal anew of what is sound, and keeps a copy of the damaged one";
    flag(alloc, "salvage", help)
        .requires_arg("journal")?
        .conflicts_with("new")?
        .conflicts_with("rebuild")
}

/// Adds the script, and the number and the limit of the site that it opens.
pub fn with_site<'a>(
    alloc: Global,
    command: Command<'a>,
    demand: Demand,
) -> Result<Command<'a>, AllocError> {
    command
        .arg(script_argument(alloc))?
        .arg(number_option(alloc, demand))?
        .arg(limit_option(alloc))
}

/// Adds the journal, and how it is gone on with.
pub fn with_journal<'a>(
    alloc: Global,
    command: Command<'a>,
    demand: Demand,
) -> Result<Command<'a>, AllocError> {
    command
        .arg(journal_option(alloc, demand))?
        .arg(new_flag(alloc)?)?
        .arg(forget_flag(alloc)?)?
        .arg(rebuild_flag(alloc)?)?
        .arg(salvage_flag(alloc)?)
}
