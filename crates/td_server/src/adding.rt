//! A token that is added to a file.

use crate::addresses::{print_client_page, print_host_pages};
use crate::host::report_memory;
use crate::token_words::NewToken;
use std::alloc::AllocError;
use td_client_tokens::ClientToken;
use td_site_opening::ExitStatus;
use td_token_files::{AddTokenError, add_token, new_secret};

// A token as it is asked for, with this secret.
fn token_of(
    rt: &HostRuntime,
    new: &NewToken<'_>,
    secret: String,
) -> Result<ClientToken, AllocError> {
    let name = String::from_str(rt.alloc(), new.name)?;
    Ok(ClientToken {
        secret,
        name: Some(name),
        rights: new.rights,
    })
}

// Prints the addresses at which the page is opened with a token.
fn print_pages(rt: &HostRuntime, new: &NewToken<'_>, token: &ClientToken) {
    let secret = Some(token.secret.as_str());
    if new.hosts.is_empty() {
        print_client_page(rt, new.clients, secret);
    } else {
        print_host_pages(rt, &new.hosts, secret);
    }
}

// Adds a token to a file, and prints the addresses of the page with it.
fn add(rt: &HostRuntime, new: &NewToken<'_>, token: &ClientToken) -> ExitStatus {
    match add_token(rt.alloc(), rt, new.token_file, token) {
        Ok(()) => {
            print_pages(rt, new, token);
            ExitStatus::Success
        }
        Err(AddTokenError::OutOfMemory) => report_memory(rt),
        Err(error) => {
            let _ = eprintln!(rt; "fault token {}: {error}", new.token_file);
            ExitStatus::BadWords
        }
    }
}

/// Adds a new token to a file as it is asked for, and prints the addresses of the page with it; returns the exit status.
pub(crate) fn add_new_token(rt: &HostRuntime, new: &NewToken<'_>) -> ExitStatus {
    let secret = match new_secret(rt.alloc(), rt) {
        Ok(Some(secret)) => secret,
        Ok(None) => {
            let _ = eprintln!(rt; "fault token: the system gives no random numbers; try again");
            return ExitStatus::Fault;
        }
        Err(_) => return report_memory(rt),
    };
    match token_of(rt, new, secret) {
        Ok(token) => add(rt, new, &token),
        Err(_) => report_memory(rt),
    }
}
