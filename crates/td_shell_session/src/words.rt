//! The words of the program.

use clap::{Arg, ArgAction, Command, Error};
use std::alloc::{AllocError, Global};
use td_site_opening::{Demand, SiteOptions, flag, site_options, with_journal, with_site};

const TYPED: &str = "\
SCRIPT has the definitions. Then what is typed is read: a text that ends in ; is a
statement, and else a query. A line that begins with a dot is a command; .help lists
them, and .quit ends the program.

td_shell check SCRIPT, or td_check SCRIPT, tells each mistake in the definitions, with
its line and column, and runs nothing.";

/// What the words of the program ask for.
#[derive(Drop)]
pub(crate) struct ShellOptions<'a> {
    pub site: SiteOptions<'a>,
    /// Whether the site meets others with statements that no journal keeps.
    pub is_in_memory: bool,
    /// What is read in place of what is typed, if anything is.
    pub typed: Vec<&'a str>,
    /// Whether a fault that was answered leaves the exit status as it is.
    pub keeps_going: bool,
}

// The option of a journal that is only read; it needs --journal, and excludes what begins or changes one.
fn read_only_flag<'a>(alloc: Global) -> Result<Arg<'a>, AllocError> {
    let help = "Reads the journal, whoever has it open, and changes nothing";
    flag(alloc, "read-only", help)
        .requires_arg("journal")?
        .conflicts_with("new")?
        .conflicts_with("forget")?
        .conflicts_with("rebuild")?
        .conflicts_with("salvage")
}

// The option of meetings with statements that no journal keeps; it excludes --journal and --read-only, which needs one.
fn memory_flag<'a>(alloc: Global) -> Result<Arg<'a>, AllocError> {
    let help = "Meets others though it keeps no journal; nobody may go on as this site later";
    flag(alloc, "memory", help)
        .conflicts_with("journal")?
        .conflicts_with("read-only")
}

// The option of a text that is read in place of what is typed.
fn typed_option<'a>(alloc: Global) -> Arg<'a> {
    Arg::new(alloc, "typed")
        .short('c')
        .value_name("TEXT")
        .help("Reads TEXT in place of what is typed; may be given again")
        .action(ArgAction::Append)
}

// Adds the options of a conversation.
fn with_typed<'a>(alloc: Global, command: Command<'a>) -> Result<Command<'a>, AllocError> {
    let help = "Ends with status 0 though a fault was answered";
    command
        .arg(read_only_flag(alloc)?)?
        .arg(memory_flag(alloc)?)?
        .arg(typed_option(alloc))?
        .arg(flag(alloc, "keep-going", help))
}

// The words that the program takes, with their help.
fn command<'a>(alloc: Global) -> Result<Command<'a>, AllocError> {
    let command = Command::new(alloc, "td_shell")
        .version("1.0")
        .about("A person at one site of a replicated relational database")
        .after_help(TYPED);
    let command = with_site(alloc, command, Demand::Optional)?;
    let command = with_journal(alloc, command, Demand::Optional)?;
    with_typed(alloc, command)
}

// The texts that are given for what is typed.
fn typed_texts<'a>(alloc: Global, given: Option<&[&'a str]>) -> Result<Vec<&'a str>, AllocError> {
    let mut texts = Vec::new(alloc);
    for text in given.unwrap_or(&[]) {
        texts.push(*text)?;
    }
    Ok(texts)
}

/// What the words ask for, the first of which names the program.
pub(crate) fn read_words<'a>(
    alloc: Global,
    words: &'a [String],
) -> Result<ShellOptions<'a>, Error> {
    let matches = command(alloc)?.try_get_matches_from(words)?;
    let site = SiteOptions {
        is_read_only: matches.get_flag("read-only"),
        ..site_options(&matches)
    };
    Ok(ShellOptions {
        site,
        is_in_memory: matches.get_flag("memory"),
        typed: typed_texts(alloc, matches.get_strs("typed"))?,
        keeps_going: matches.get_flag("keep-going"),
    })
}
