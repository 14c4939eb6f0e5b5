//! The addresses of the page.

use std::fmt::Display;
use std::net::SocketAddr;
use td_client_tokens::ClientToken;

/// The secret of the token without a name, if there is one.
pub(crate) fn bare_secret(tokens: &[ClientToken]) -> Option<&str> {
    for token in tokens {
        if token.name.is_none() {
            return Some(token.secret.as_str());
        }
    }
    None
}

// Prints an address of the page, with a secret where there is one.
fn print_page<D: Display>(rt: &HostRuntime, place: &D, secret: Option<&str>) {
    let _ = match secret {
        Some(secret) => println!(rt; "http://{place}/#{secret}"),
        None => println!(rt; "http://{place}/"),
    };
}

/// Prints the address of the page where the server listens, with a secret if there is one.
pub(crate) fn print_client_page(rt: &HostRuntime, clients: SocketAddr, secret: Option<&str>) {
    print_page(rt, &clients, secret);
}

/// Prints the address of the page at each host, with a secret if there is one.
pub(crate) fn print_host_pages(rt: &HostRuntime, hosts: &[&str], secret: Option<&str>) {
    for host in hosts {
        print_page(rt, host, secret);
    }
}
