//! A site that runs for long: it keeps its journal, answers programs and a browser by HTTP, lets other sites meet it,
//! and calls them by itself.
#![tactic(auto)]

mod adding;
mod addresses;
mod bad_words;
mod host;
mod hosts;
mod reopening;
mod serving;
mod start;
mod token_words;
mod words;

use adding::add_new_token;
use start::start_server;
use std::env;
use std::io::ErrorKind;
use std::process::ExitCode;
use words::{Given, read_words};

fn main(rt: HostRuntime) -> ExitCode {
    let words = match env::args(&rt) {
        Ok(words) => words,
        Err(error) if error.kind() == ErrorKind::InvalidData => {
            let _ = eprintln!(rt; "error: a word of the command line is not UTF-8");
            return ExitCode::from(2);
        }
        Err(_) => return ExitCode::FAILURE,
    };
    let Ok(words) = words.collect::<Vec<String>>(rt.alloc()) else {
        return ExitCode::FAILURE;
    };
    match read_words(rt.alloc(), &words) {
        Given::Options(options) => ExitCode::from(start_server(&rt, &options) as u8),
        Given::Token(token) => ExitCode::from(add_new_token(&rt, &token) as u8),
        Given::Help(text) => {
            let _ = print!(rt; "{}", text.as_str());
            ExitCode::SUCCESS
        }
        Given::Refused(text) => {
            let _ = eprint!(rt; "{}", text.as_str());
            ExitCode::from(2)
        }
    }
}
