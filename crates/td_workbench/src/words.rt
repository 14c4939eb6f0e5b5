//! The words of the program.

ghost use Rattle.std.specs.Prelude.{◌≤◌, IfOk};
ghost use Rattle.td_workbench.specs.Programs.{InRange};

use crate::opening::Options;
use clap::builder::ValueParser;
use clap::{Arg, ArgAction, Command, Error};
use std::alloc::{AllocError, Global};
use td_replica::MOST_ENTRIES;

// The forms of lines, for the help.
const LINES: &str = "\
Standard input holds a script, a line `.begin`, and then lines:
  N: TEXT          issues a statement at site N
  N? TEXT          asks site N for the value of an expression
  .meet N M        sites N and M exchange what they hold
  .listing N       the relvars of site N, and what it refused
  .log N           the statements that site N holds
  .vector N        the version vector of site N
  .csv N RELVAR    a relvar as comma-separated values
  .serve N ADDRESS site N waits at the address for a caller, and meets it
  .call N ADDRESS  site N meets the site that serves at the address
                   (as 127.0.0.1:7001 or [::1]:7001; nothing is encrypted)
  .quit            ends the program";

// The options that the program takes, with their ranges and defaults, and its help.
fn command<'a>(alloc: Global) -> Result<Command<'a>, AllocError> {
    let sites = Arg::new(alloc, "sites")
        .long("sites")
        .value_name("N")
        .help("How many sites there are, 1 to 16")
        .action(ArgAction::Set)
        .value_parser(ValueParser::unsigned(1, 16))
        .default_value("2");
    let first = Arg::new(alloc, "first")
        .long("first")
        .value_name("K")
        .help("The number of the first site, 1 to 65520")
        .action(ArgAction::Set)
        .value_parser(ValueParser::unsigned(1, 65_520))
        .default_value("1");
    let limit = Arg::new(alloc, "limit")
        .long("limit")
        .value_name("L")
        .help("The most statements that a site may hold, 1 to 100000")
        .action(ArgAction::Set)
        .value_parser(ValueParser::unsigned(1, MOST_ENTRIES as u64))
        .default_value("10000");
    let journal = Arg::new(alloc, "journal")
        .long("journal")
        .value_name("PREFIX")
        .help("Keeps each site's statements in the file PREFIX, its number, .tdj")
        .action(ArgAction::Set);
    Command::new(alloc, "td_console")
        .version("1.0")
        .about("A workbench of replicated relational databases")
        .after_help(LINES)
        .arg(sites)?
        .arg(first)?
        .arg(limit)?
        .arg(journal)
}

/// What the words of the program ask for.
#[derive(Clone, Copy, Drop)]
pub struct Words<'a> {
    pub options: Options,
    /// What the names of the sites' journals begin with, if they keep any.
    pub journal: Option<&'a str>,
}

/// What the words ask for, the first of which names the program.
pub fn read_words<'a>(alloc: Global, words: &'a [String]) -> Result<Words<'a>, Error>
    ensures { IfOk result (λ w. InRange w.options) }
{
    let matches = command(alloc)?.try_get_matches_from(words)?;
    // The parser lets no other number through, so none is ever cut.
    let options = Options {
        sites: matches.get_one::<u16>("sites").unwrap_or(2).clamp(1, 16),
        first: matches
            .get_one::<u16>("first")
            .unwrap_or(1)
            .clamp(1, 65_520),
        limit: matches
            .get_one::<usize>("limit")
            .unwrap_or(10_000)
            .clamp(1, MOST_ENTRIES),
    };
    Ok(Words {
        options,
        journal: matches.get_str("journal"),
    })
}
