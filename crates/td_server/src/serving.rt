//! A site that is served.

use crate::addresses::{bare_secret, print_client_page, print_host_pages};
use crate::host::{Host, JournaledSite, KeptSite, report_memory};
use crate::words::ServerOptions;
use std::alloc::{AllocError, Global};
use std::net::SocketAddr;
use std::os::fd::AsRawFd;
use td_changes::Changes;
use td_client_tokens::ClientToken;
use td_digested_sites::{Digested, DigestedSite};
use td_event_loop::{EventLoop, LoopOptions};
use td_http_api::{Api, Guard};
use td_replica::{Catalogued, Opens, Replica};
use td_site_desk::{SiteDesk, SiteServer, serve as serve_site};
use td_site_opening::ExitStatus;
use td_trials::Trials;

// Adds the hosts by which this program is asked.
fn add_hosts(
    hosts: &mut Vec<String>,
    alloc: Global,
    address: SocketAddr,
) -> Result<(), AllocError> {
    let port = address.port();
    hosts.push(format!(in alloc; "{address}")?)?;
    hosts.push(format!(in alloc; "localhost:{port}")?)?;
    hosts.push(format!(in alloc; "127.0.0.1:{port}")?)?;
    hosts.push(format!(in alloc; "[::1]:{port}")?)?;
    Ok(())
}

// Adds the hosts that the words name.
fn add_named_hosts(
    hosts: &mut Vec<String>,
    alloc: Global,
    named: &[&str],
) -> Result<(), AllocError> {
    for host in named {
        hosts.push(String::from_str(alloc, host)?)?;
    }
    Ok(())
}

// The hosts by which this program is asked where it listens at this address.
fn hosts_of(alloc: Global, address: SocketAddr, named: &[&str]) -> Result<Vec<String>, AllocError> {
    let mut hosts = Vec::new(alloc);
    add_hosts(&mut hosts, alloc, address)?;
    add_named_hosts(&mut hosts, alloc, named)?;
    Ok(hosts)
}

// Says where it listens, and with which token the page is opened, unless it is to be quiet.
fn print_addresses(
    rt: &HostRuntime,
    event_loop: &EventLoop,
    client: SocketAddr,
    options: &ServerOptions<'_>,
    tokens: &[ClientToken],
) {
    let secret = if options.is_quiet {
        None
    } else {
        bare_secret(tokens)
    };
    print_client_page(rt, client, secret);
    print_host_pages(rt, &options.hosts, secret);
    if let Ok(Some(peer)) = event_loop.peer_address() {
        let _ = println!(rt; "other sites: {peer}");
    }
}

// Has standard input read beside the sockets, if the system can say when it has something.
fn watch_console(rt: &HostRuntime, event_loop: &mut EventLoop) {
    if let Err(error) = event_loop.watch_console(rt.stdin().as_raw_fd()) {
        let _ = eprintln!(rt;
            "fault console: standard input is not read: {error}; give it a pipe or a terminal"
        );
    }
}

// Listens as the words say, or reports why not.
fn listen(rt: &HostRuntime, options: &ServerOptions<'_>) -> Option<EventLoop> {
    let options = LoopOptions {
        clients: options.clients,
        peers: options.peers,
        allowed: &options.allowed,
        calls: &options.calls,
        every: options.every.saturating_mul(1000),
    };
    match EventLoop::bind(rt, &options) {
        Ok(event_loop) => Some(event_loop),
        Err(error) => {
            let _ = eprintln!(rt; "fault net: an address cannot be listened at: {error}");
            None
        }
    }
}

// Answers requests and meets other sites until the desk leaves, which is returned with the guard, or until the program
// is to end: then its exit status is returned.
fn run<'a, R: Changes + Catalogued + Trials + Digested + Drop>(
    rt: &HostRuntime,
    event_loop: &mut EventLoop,
    desk: SiteDesk<'a, R, HostRuntime>,
    guard: Guard,
) -> Result<(SiteDesk<'a, R, HostRuntime>, Guard), ExitStatus> {
    let mut server = SiteServer::new(Api::new(rt.alloc(), desk, guard));
    match serve_site(event_loop, rt, &mut server) {
        Ok(()) => {
            let (mut desk, guard) = server.into_api().into_parts();
            if desk.is_stopping() {
                desk.close();
                return Err(ExitStatus::Success);
            }
            Ok((desk, guard))
        }
        Err(error) => {
            let _ = eprintln!(rt; "fault net: {error}");
            Err(ExitStatus::Fault)
        }
    }
}

// A desk whose site is let go, with the file of its journal.
fn without_site<'a, R: Drop>(desk: SiteDesk<'a, R, HostRuntime>) -> SiteDesk<'a, (), HostRuntime> {
    let (_site, desk) = desk.with_site(());
    desk
}

// A desk that answers queries from what is complete of the journal.
fn suspended<'a, R: Opens + Changes + Catalogued + Trials + Drop>(
    host: Host<'a>,
    desk: SiteDesk<'a, (), HostRuntime>,
) -> Result<SiteDesk<'a, DigestedSite<R>, HostRuntime>, ExitStatus> {
    let why = host.failure_text()?;
    let site = DigestedSite::new(host.rt.alloc(), host.open_read::<R>()?);
    let (_, mut desk) = desk.with_site(site);
    match format!(in host.rt.alloc(); "fault {}", why.as_str()) {
        Ok(line) => desk.report_fault(line.as_str()),
        Err(_) => desk.report_fault(why.as_str()),
    }
    let until = desk.now().saturating_add(host.try_time());
    desk.suspend(why, until);
    Ok(desk)
}

// A desk over a site that came back from its journal again.
fn resumed<'a, R: Opens + Changes + Catalogued + Trials + Drop>(
    host: Host<'a>,
    desk: SiteDesk<'a, DigestedSite<R>, HostRuntime>,
    site: KeptSite<'a, R>,
) -> Result<SiteDesk<'a, KeptSite<'a, R>, HostRuntime>, ExitStatus> {
    let Ok(is_lacking) = host.report_journal(&site) else {
        return Err(report_memory(host.rt));
    };
    let (_, mut desk) = desk.with_site(site);
    desk.resume(is_lacking);
    desk.report("the journal is written again");
    Ok(desk)
}

// Answers queries until the journal that failed can be written again, or has failed for too long.
fn await_journal<'a, R: Opens + Changes + Catalogued + Trials + Drop>(
    host: Host<'a>,
    event_loop: &mut EventLoop,
    desk: SiteDesk<'a, KeptSite<'a, R>, HostRuntime>,
    guard: Guard,
) -> Result<(SiteDesk<'a, KeptSite<'a, R>, HostRuntime>, Guard), ExitStatus> {
    let since = desk.now();
    let mut parts = (suspended::<R>(host, without_site(desk))?, guard);
    for _ in 0..u64::MAX {
        let (mut desk, guard) = run(host.rt, event_loop, parts.0, parts.1)?;
        if let Some(site) = host.reopen::<R>() {
            return Ok((resumed(host, desk, site)?, guard));
        }
        let now = desk.now();
        if now.saturating_sub(since) >= host.give_up_time() {
            return Err(host.give_up());
        }
        desk.try_again(now.saturating_add(host.try_time()));
        parts = (desk, guard);
    }
    Err(host.give_up())
}

// The desk over a site that keeps what is hashed of it.
fn digested<'a, R: Replica + Drop>(
    rt: &HostRuntime,
    desk: SiteDesk<'a, R, HostRuntime>,
) -> SiteDesk<'a, DigestedSite<R>, HostRuntime> {
    let (site, desk) = desk.with_site(());
    let (_, desk) = desk.with_site(DigestedSite::new(rt.alloc(), site));
    desk
}

// Serves a site that is kept in its journal, and goes on without one while that fails.
fn run_kept<'a, R: Opens + Changes + Catalogued + Trials + Drop>(
    host: Host<'a>,
    event_loop: &mut EventLoop,
    desk: SiteDesk<'a, JournaledSite<'a, R>, HostRuntime>,
    guard: Guard,
) -> Result<(), ExitStatus> {
    let mut parts = (digested(host.rt, desk), guard);
    for _ in 0..u64::MAX {
        let (desk, guard) = run(host.rt, event_loop, parts.0, parts.1)?;
        parts = await_journal(host, event_loop, desk, guard)?;
    }
    Ok(())
}

// Serves the site by an event loop that listens.
fn serve_by<'a, R: Opens + Changes + Catalogued + Trials + Drop>(
    host: Host<'a>,
    event_loop: &mut EventLoop,
    guard: Guard,
    desk: SiteDesk<'a, JournaledSite<'a, R>, HostRuntime>,
) -> ExitStatus {
    if host.options.has_console {
        watch_console(host.rt, event_loop);
    }
    match run_kept(host, event_loop, desk, guard) {
        Ok(()) => ExitStatus::Success,
        Err(status) => status,
    }
}

// What lets requests in to an event loop that listens; says where it does.
fn guard_of(
    host: Host<'_>,
    event_loop: &EventLoop,
    tokens: Vec<ClientToken>,
) -> Result<Guard, ExitStatus> {
    let Host { rt, options, .. } = host;
    let client = event_loop.client_address().unwrap_or(options.clients);
    let Ok(hosts) = hosts_of(rt.alloc(), client, &options.hosts) else {
        return Err(report_memory(rt));
    };
    print_addresses(rt, event_loop, client, options, &tokens);
    Ok(Guard::new(hosts, tokens))
}

/// Serves the site until the program is to end.
pub(crate) fn serve<'a, R: Opens + Changes + Catalogued + Trials + Drop>(
    host: Host<'a>,
    tokens: Vec<ClientToken>,
    desk: SiteDesk<'a, JournaledSite<'a, R>, HostRuntime>,
) -> ExitStatus {
    let Some(mut event_loop) = listen(host.rt, host.options) else {
        return ExitStatus::Fault;
    };
    match guard_of(host, &event_loop, tokens) {
        Ok(guard) => serve_by(host, &mut event_loop, guard, desk),
        Err(status) => status,
    }
}
