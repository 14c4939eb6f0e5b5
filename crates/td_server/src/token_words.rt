//! The words with which a token is added to a file.

use crate::bad_words::BadWords;
use crate::hosts::{host_list, hosts_in};
use crate::words::{clients_in, clients_option};
use clap::{Arg, ArgAction, ArgMatches, Command};
use std::alloc::{AllocError, Global};
use std::net::SocketAddr;
use td_client_tokens::{Rights, is_token_name};
use td_site_opening::option;

/// The word that asks for this.
pub(crate) const TOKEN: &str = "token";

const AFTER_HELP: &str = "\
NAME is for whom the token is: 1 to 32 letters of a to z, digits, blanks, . and -.
RIGHTS is read, write, which includes read, or all, which includes both. The address
of the page is printed with the token after #; whoever opens it shows the token.

To withdraw a token take its line out of FILE: a server that runs sees that by itself.";

/// A token that is to be added to a file.
#[derive(Drop)]
pub(crate) struct NewToken<'a> {
    pub name: &'a str,
    pub rights: Rights,
    pub token_file: &'a str,
    /// Where the server listens for clients.
    pub clients: SocketAddr,
    /// The names by which browsers ask for the server.
    pub hosts: Vec<&'a str>,
}

// An argument that must be given.
fn argument<'a>(alloc: Global, id: &'a str, value: &'a str, help: &'a str) -> Arg<'a> {
    Arg::new(alloc, id)
        .value_name(value)
        .help(help)
        .required(true)
        .action(ArgAction::Set)
}

fn token_file_option<'a>(alloc: Global) -> Arg<'a> {
    let help = "Gets the token; is made where it is not there";
    option(alloc, "token-file", "FILE", help).required(true)
}

/// The words that are taken after `token`, with their help.
pub(crate) fn token_command<'a>(alloc: Global) -> Result<Command<'a>, AllocError> {
    let command = Command::new(alloc, "td_server token")
        .bin_name("td_server token")?
        .about("Adds a token to the file of a server's tokens")
        .after_help(AFTER_HELP);
    command
        .arg(argument(alloc, "name", "NAME", "For whom the token is"))?
        .arg(argument(alloc, "rights", "RIGHTS", "read, write or all"))?
        .arg(token_file_option(alloc))?
        .arg(clients_option(alloc))?
        .arg(host_list(alloc))
}

// The name that the words give.
fn name_in<'a>(matches: &ArgMatches<'a>) -> Result<&'a str, BadWords<'a>> {
    let name = matches.get_str("name").unwrap_or("");
    if is_token_name(name) {
        Ok(name)
    } else {
        Err(BadWords::NoName(name))
    }
}

// The rights that the words give.
fn rights_in<'a>(matches: &ArgMatches<'a>) -> Result<Rights, BadWords<'a>> {
    let word = matches.get_str("rights").unwrap_or("");
    match Rights::from_name(word) {
        Some(rights) => Ok(rights),
        None => Err(BadWords::NoRights(word)),
    }
}

/// The token that words ask for which fit the options.
pub(crate) fn new_token_in<'a>(
    alloc: Global,
    matches: &ArgMatches<'a>,
) -> Result<NewToken<'a>, BadWords<'a>> {
    let hosts = hosts_in(alloc, matches)?;
    let clients = clients_in(matches, &hosts)?;
    Ok(NewToken {
        name: name_in(matches)?,
        rights: rights_in(matches)?,
        token_file: matches.get_str("token-file").unwrap_or(""),
        clients,
        hosts,
    })
}
