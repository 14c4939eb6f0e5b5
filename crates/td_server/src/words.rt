//! The words of the program.

use crate::bad_words::BadWords;
use crate::hosts::{check_clients, host_list, hosts_in};
use crate::token_words::{NewToken, TOKEN, new_token_in, token_command};
use clap::builder::ValueParser;
use clap::{Arg, ArgMatches, Command, Error};
use std::alloc::{AllocError, Global};
use std::net::{IpAddr, SocketAddr};
use td_site_opening::{
    Demand, SiteOptions, flag, list, option, site_options, with_journal, with_site,
};

const AFTER_HELP: &str = "\
SCRIPT has the definitions. The program prints the address of its page with a token
after #, and a line for each meeting and fault. POST /api/stop ends it, and with
--console a line stop on standard input.

td_server token NAME RIGHTS --token-file FILE adds a token for a person or a program;
td_server token --help says more.

An ADDRESS is numbers and a port, as 127.0.0.1:7001 or [::1]:7001. Peers are not asked
who they are: serve them on a network of your own, or name them by --allow.";

// The address at which the server listens for clients where none is given.
const CLIENTS: &str = "127.0.0.1:7080";

/// What the words ask for.
#[derive(Drop)]
pub(crate) struct ServerOptions<'a> {
    pub site: SiteOptions<'a>,
    pub clients: SocketAddr,
    /// The names by which browsers and programs ask for the server, besides those of the loopback.
    pub hosts: Vec<&'a str>,
    /// Whether no token is printed.
    pub is_quiet: bool,
    pub peers: Option<SocketAddr>,
    pub calls: Vec<SocketAddr>,
    pub allowed: Vec<IpAddr>,
    /// Seconds between two calls of a peer.
    pub every: u64,
    /// For how many seconds a journal that failed is tried again.
    pub give_up: u64,
    /// The name of the file that has the tokens, if it is none beside the journal.
    pub token_file: Option<&'a str>,
    /// Whether lines of standard input are read.
    pub has_console: bool,
}

/// What is to be done.
#[derive(Drop)]
pub enum Given<'a> {
    Options(ServerOptions<'a>),
    /// A token is to be added to a file.
    Token(NewToken<'a>),
    /// A text that the words ask for.
    Help(String),
    /// Why the words are refused; empty if memory ran out.
    Refused(String),
}

/// The option that says where the server listens for clients.
pub(crate) fn clients_option<'a>(alloc: Global) -> Arg<'a> {
    option(alloc, "clients", "ADDRESS", "Where it listens for clients").default_value(CLIENTS)
}

fn token_option<'a>(alloc: Global) -> Arg<'a> {
    let help = "Has the tokens that clients show; the journal's name with .token if left out";
    option(alloc, "token-file", "FILE", help)
}

fn quiet_flag<'a>(alloc: Global) -> Arg<'a> {
    let help = "Prints the address of its page without a token";
    flag(alloc, "quiet", help)
}

fn console_flag<'a>(alloc: Global) -> Arg<'a> {
    let help = "Reads lines of standard input: stop ends the program";
    flag(alloc, "console", help)
}

fn give_up_option<'a>(alloc: Global) -> Arg<'a> {
    let help = "How long a journal that failed is tried again, 1 to 86400";
    option(alloc, "give-up", "SECONDS", help)
        .value_parser(ValueParser::unsigned(1, 86_400))
        .default_value("600")
}

fn peers_option<'a>(alloc: Global) -> Arg<'a> {
    option(
        alloc,
        "peers",
        "ADDRESS",
        "Where it listens for other sites",
    )
}

fn call_list<'a>(alloc: Global) -> Arg<'a> {
    let help = "Calls the site that listens there; may be given again";
    list(alloc, "call", "ADDRESS", help)
}

fn every_option<'a>(alloc: Global) -> Arg<'a> {
    option(
        alloc,
        "every",
        "SECONDS",
        "How often it calls each, 1 to 86400",
    )
    .value_parser(ValueParser::unsigned(1, 86_400))
    .default_value("60")
}

fn allow_list<'a>(alloc: Global) -> Arg<'a> {
    let help =
        "Meets no site that calls from elsewhere, an address without a port; may be given again";
    list(alloc, "allow", "ADDRESS", help)
}

// Adds whom it serves.
fn with_clients<'a>(alloc: Global, command: Command<'a>) -> Result<Command<'a>, AllocError> {
    command
        .arg(clients_option(alloc))?
        .arg(host_list(alloc))?
        .arg(token_option(alloc))?
        .arg(quiet_flag(alloc))
}

// Adds who may end it, and when it ends by itself.
fn with_ends<'a>(alloc: Global, command: Command<'a>) -> Result<Command<'a>, AllocError> {
    command.arg(console_flag(alloc))?.arg(give_up_option(alloc))
}

// Adds whom it meets.
fn with_peers<'a>(alloc: Global, command: Command<'a>) -> Result<Command<'a>, AllocError> {
    command
        .arg(peers_option(alloc))?
        .arg(call_list(alloc))?
        .arg(every_option(alloc))?
        .arg(allow_list(alloc))
}

// The words that the program takes, with its help.
fn command<'a>(alloc: Global) -> Result<Command<'a>, AllocError> {
    let command = Command::new(alloc, "td_server")
        .version("1.0")
        .about("One site of a replicated relational database, served")
        .after_help(AFTER_HELP);
    let command = with_site(alloc, command, Demand::Required)?;
    let command = with_journal(alloc, command, Demand::Required)?;
    let command = with_clients(alloc, command)?;
    let command = with_ends(alloc, command)?;
    with_peers(alloc, command)
}

// The address that the word of an option says.
fn address_in<'a>(option: &'static str, word: &'a str) -> Result<SocketAddr, BadWords<'a>> {
    match word.parse::<SocketAddr>() {
        Ok(address) => Ok(address),
        Err(_) => Err(BadWords::NoAddress { option, word }),
    }
}

/// Where the server listens for clients, as the words say, which name these hosts.
pub(crate) fn clients_in<'a>(
    matches: &ArgMatches<'a>,
    hosts: &[&'a str],
) -> Result<SocketAddr, BadWords<'a>> {
    let word = matches.get_str("clients").unwrap_or(CLIENTS);
    let clients = address_in("clients", word)?;
    check_clients(clients, hosts, word)?;
    Ok(clients)
}

// The address that the word of an option says, if it is given.
fn optional_address<'a>(
    option: &'static str,
    word: Option<&'a str>,
) -> Result<Option<SocketAddr>, BadWords<'a>> {
    match word {
        None => Ok(None),
        Some(word) => match address_in(option, word) {
            Ok(address) => Ok(Some(address)),
            Err(error) => Err(error),
        },
    }
}

// The addresses to call.
fn calls_in<'a>(alloc: Global, words: &[&'a str]) -> Result<Vec<SocketAddr>, BadWords<'a>> {
    let mut calls = Vec::new(alloc);
    for word in words {
        calls.push(address_in("call", word)?)?;
    }
    Ok(calls)
}

// The addresses without ports from which other sites may call.
fn allowed_in<'a>(alloc: Global, words: &[&'a str]) -> Result<Vec<IpAddr>, BadWords<'a>> {
    let mut allowed = Vec::new(alloc);
    for word in words {
        match word.parse::<IpAddr>() {
            Ok(address) => allowed.push(address)?,
            Err(_) => {
                return Err(BadWords::NoAddress {
                    option: "allow",
                    word,
                });
            }
        }
    }
    Ok(allowed)
}

// What words that fit the options ask for.
fn options_in<'a>(
    alloc: Global,
    matches: &ArgMatches<'a>,
) -> Result<ServerOptions<'a>, BadWords<'a>> {
    let hosts = hosts_in(alloc, matches)?;
    let clients = clients_in(matches, &hosts)?;
    let peers = optional_address("peers", matches.get_str("peers"))?;
    let calls = calls_in(alloc, matches.get_strs("call").unwrap_or(&[]))?;
    let allowed = allowed_in(alloc, matches.get_strs("allow").unwrap_or(&[]))?;
    Ok(ServerOptions {
        site: site_options(matches),
        clients,
        hosts,
        is_quiet: matches.get_flag("quiet"),
        peers,
        calls,
        allowed,
        every: matches.get_one::<u64>("every").unwrap_or(60),
        give_up: matches.get_one::<u64>("give-up").unwrap_or(600),
        token_file: matches.get_str("token-file"),
        has_console: matches.get_flag("console"),
    })
}

// What is said in place of a run: a text that the words ask for, or why they are refused.
fn given_of_error<'a>(alloc: Global, error: &Error) -> Given<'a> {
    let Ok(text) = error.to_string(alloc) else {
        return Given::Refused(String::new(alloc));
    };
    if error.use_stderr() {
        Given::Refused(text)
    } else {
        Given::Help(text)
    }
}

// What the words of a server ask for, the first of which names the program.
fn read_server_words<'a>(alloc: Global, words: &'a [String]) -> Given<'a> {
    let Ok(command) = command(alloc) else {
        return Given::Refused(String::new(alloc));
    };
    match command.try_get_matches_from(words) {
        Ok(matches) => match options_in(alloc, &matches) {
            Ok(options) => Given::Options(options),
            Err(error) => Given::Refused(error.text(alloc)),
        },
        Err(error) => given_of_error(alloc, &error),
    }
}

// What the words after `token` ask for.
fn read_token_words<'a>(alloc: Global, words: &'a [String]) -> Given<'a> {
    let Ok(command) = token_command(alloc) else {
        return Given::Refused(String::new(alloc));
    };
    match command.try_get_matches_from(words) {
        Ok(matches) => match new_token_in(alloc, &matches) {
            Ok(token) => Given::Token(token),
            Err(error) => Given::Refused(error.text(alloc)),
        },
        Err(error) => given_of_error(alloc, &error),
    }
}

/// What the words ask for, the first of which names the program. A script whose name is `token` is given as `./token`.
pub fn read_words<'a>(alloc: Global, words: &'a [String]) -> Given<'a> {
    let Some((_, rest)) = words.split_first() else {
        return read_server_words(alloc, words);
    };
    match rest.first() {
        Some(word) if word.as_str() == TOKEN => read_token_words(alloc, rest),
        _ => read_server_words(alloc, words),
    }
}
