//! The loop.

ghost use Rattle.std.specs.Prelude.{◌≡◌, ◌⊎◌, All, IfOk, None};
ghost use Rattle.td_event_loop.specs.Chains.{Chain};
ghost use Rattle.td_event_loop.specs.Clients.{ClientsPass, ComesOrGoes, TurnsClient, client_of, clients_of};
ghost use Rattle.td_event_loop.specs.Runs.{LoopPasses, MayBegin, MeetingsPass, TurnsSlot, slot_of, slots_of, state_of};

use crate::calls::Calls;
use crate::client::Client;
use crate::console::Console;
use crate::limits::{MOST_ACCEPTED, MOST_CLIENTS, MOST_MEETINGS, STOP_TIME, TICK, TURN};
use crate::meets::{Loss, MeetingReport, MeetingSide, Meets, PeerRefusal};
use crate::outbox::Outbox;
use crate::peer::Peer;
use crate::server::Server;
use crate::slots::{empty_slots, fill_slot, free_slot};
use crate::tokens::{EventSource, MOST_EVENTS};
use crate::transfer::{Progress, Readiness};
use mio::net::{TcpListener, TcpStream};
use mio::{Events, Interest, Poll};
use std::alloc::Global;
use std::hash::RandomState;
use std::io;
use std::net::{IpAddr, Net, SocketAddr};
use std::os::fd::RawFd;
use std::random::RandomSource;
use std::time::{Clock, Duration, Instant};
use td_comparison::FirstMessage;

/// Where a site listens, and whom it calls.
#[derive(Clone, Copy)]
pub struct LoopOptions<'a> {
    pub clients: SocketAddr,
    /// Where peers call, if they may.
    pub peers: Option<SocketAddr>,
    /// The addresses of the peers that are met; all, where there are none.
    pub allowed: &'a [IpAddr],
    /// The peers that are called.
    pub calls: &'a [SocketAddr],
    /// Milliseconds between two calls of a peer.
    pub every: u64,
}

/// The bytes of one read of a peer.
const BUFFER: usize = 65_536;

/// The listeners, the console, the connections, and the peers to call.
#[derive(Drop)]
pub struct EventLoop {
    alloc: Global,
    poll: Poll,
    client_listener: Option<TcpListener>,
    peer_listener: Option<TcpListener>,
    has_pending_clients: bool,
    has_pending_peers: bool,
    console: Option<Console>,
    allowed: Vec<IpAddr>,
    clients: Vec<Option<Client>>,
    /// The meetings, each in the slot of its number: from 0 on those that peers began, from `MOST_ACCEPTED` on those
    /// that this site began.
    peers: Vec<Option<Peer>>,
    calls: Calls,
    buffer: Vec<u8>,
    /// When it was run first.
    begun: Option<Instant>,
}

// A listener at this address, which is watched.
fn listen<N: Net>(
    net: &N,
    poll: &Poll,
    at: SocketAddr,
    source: EventSource,
) -> io::Result<TcpListener> {
    let mut listener = TcpListener::bind(net, at)?;
    poll.registry()
        .register(&mut listener, source.token(), Interest::READABLE)?;
    Ok(listener)
}

// What watches, and where it listens.
#[derive(Drop)]
struct Listeners {
    poll: Poll,
    of_clients: TcpListener,
    of_peers: Option<TcpListener>,
}

impl Listeners {
    fn bind<N: Net + AllocGlobal>(net: &N, options: &LoopOptions<'_>) -> io::Result<Listeners> {
        let poll = Poll::new(net)?;
        let of_clients = listen(net, &poll, options.clients, EventSource::ClientListener)?;
        let of_peers = match options.peers {
            Some(at) => Some(listen(net, &poll, at, EventSource::PeerListener)?),
            None => None,
        };
        Ok(Listeners {
            poll,
            of_clients,
            of_peers,
        })
    }
}

// What there is room for beforehand.
#[derive(Drop)]
struct Rooms {
    allowed: Vec<IpAddr>,
    clients: Vec<Option<Client>>,
    peers: Vec<Option<Peer>>,
    calls: Calls,
    buffer: Vec<u8>,
}

impl Rooms {
    fn new(alloc: Global, options: &LoopOptions<'_>) -> io::Result<Rooms>
        ensures peers { IfOk result (λ rooms. All (λ peer. peer ≡ None) rooms.peers.items) }
        ensures clients { IfOk result (λ rooms. All (λ client. client ≡ None) rooms.clients.items) }
    {
        Ok(Rooms {
            allowed: options.allowed.to_vec(alloc)?,
            clients: empty_slots(alloc, MOST_CLIENTS)?,
            peers: empty_slots(alloc, MOST_MEETINGS)?,
            calls: Calls::new(alloc, options.calls, options.every)?,
            buffer: Vec::from_elem(alloc, 0u8, BUFFER)?,
        })
    }
}

// The slot of the client that is idle longest; none where each has an answer under way.
fn idlest_client(clients: &[Option<Client>]) -> Option<usize> {
    let mut idlest = None;
    let mut longest = 0;
    for (i, client) in clients.iter().enumerate() {
        if let Some(client) = client
            && let Some(idle) = client.idle()
            && idle >= longest
        {
            idlest = Some(i);
            longest = idle;
        }
    }
    idlest
}

// A time in whole milliseconds; the greatest number where it is longer.
fn millis(spent: Duration) -> u64 {
    spent
        .as_secs()
        .saturating_mul(1000)
        .saturating_add(u64::from(spent.subsec_millis()))
}

// Gives the meeting of a slot its turn, and empties the slot where it ends. Returns whether it can go on at once.
fn turn_slot<M: Meets>(
    slot: &mut Option<Peer>,
    meeting: usize,
    site: &mut M,
    calls: &mut Calls,
    buffer: &mut [u8],
    now: u64,
) -> bool
    ensures { TurnsSlot M.keeps M.settles M.finishes (slot_of slot.old) (slot_of slot.new) site.old
        site.new }
{
    let Some(peer) = slot else {
        return false;
    };
    let (progress, loss) = peer.take_turn(meeting, site, buffer, now);
    match progress {
        Progress::Busy => true,
        Progress::Waiting => false,
        Progress::Ended => {
            end_meeting(peer, meeting, site, calls, loss, now);
            *slot = None;
            false
        }
    }
}

// Gives each meeting its turn. Returns whether one can go on at once.
fn turn_peers<M: Meets>(
    peers: &mut Vec<Option<Peer>>,
    site: &mut M,
    calls: &mut Calls,
    buffer: &mut [u8],
    now: u64,
) -> bool
    ensures { MeetingsPass M.keeps M.settles M.finishes (slots_of peers.old.items) site.old
        (slots_of peers.new.items) site.new }
{
    let mut is_busy = false;
    for meeting in 0..peers.len() {
        if turn_slot(&mut peers[meeting], meeting, site, calls, buffer, now) {
            is_busy = true;
        }
    }
    is_busy
}

// Reports to the site that a meeting ends. If this site began it, its outcome decides when the peer is called again.
fn end_meeting<M: Meets>(
    peer: &Peer,
    meeting: usize,
    site: &mut M,
    calls: &mut Calls,
    loss: Option<Loss>,
    now: u64,
)
    ensures { M.keeps site.old site.new }
{
    let report = peer.report(meeting, loss);
    let outcome = site.end(&report);
    if report.side == MeetingSide::First {
        calls.end(report.peer, outcome, now);
    }
}

// Ends the meeting of a slot as stopped, and empties the slot.
fn stop_slot<M: Meets>(
    slot: &mut Option<Peer>,
    meeting: usize,
    site: &mut M,
    calls: &mut Calls,
    now: u64,
)
    ensures site { Chain M.keeps site.old site.new }
    ensures slot { slot.new ≡ None }
{
    let Some(peer) = slot else {
        return;
    };
    end_meeting(peer, meeting, site, calls, Some(Loss::Stopped), now);
    *slot = None;
}

// Ends all meetings as stopped, and empties their slots.
fn stop_peers<M: Meets>(peers: &mut Vec<Option<Peer>>, site: &mut M, calls: &mut Calls, now: u64)
    ensures { MeetingsPass M.keeps M.settles M.finishes (slots_of peers.old.items) site.old
        (slots_of peers.new.items) site.new }
{
    for meeting in 0..peers.len() {
        stop_slot(&mut peers[meeting], meeting, site, calls, now);
    }
}

// Notes what an event says the client of a slot is ready for; an empty slot ignores it.
fn add_readiness_to_client(slot: &mut Option<Client>, readiness: Readiness)
    ensures { client_of slot.new ≡ client_of slot.old }
{
    if let Some(client) = slot {
        client.add_readiness(readiness);
    }
}

// Notes what an event says a client is ready for; a number that no slot has is ignored.
fn add_readiness_of_client(clients: &mut Vec<Option<Client>>, slot: usize, readiness: Readiness)
    ensures { clients_of clients.new.items ≡ clients_of clients.old.items }
{
    if slot < clients.len() {
        add_readiness_to_client(&mut clients[slot], readiness);
    }
}

// Notes what an event says the peer of a slot is ready for; an empty slot ignores it.
fn add_readiness_to(slot: &mut Option<Peer>, readiness: Readiness)
    ensures { slot_of slot.new ≡ slot_of slot.old }
{
    if let Some(peer) = slot {
        peer.add_readiness(readiness);
    }
}

// Notes what an event says a peer is ready for; a number that no slot has is ignored.
fn add_readiness_of_peer(peers: &mut Vec<Option<Peer>>, slot: usize, readiness: Readiness)
    ensures { slots_of peers.new.items ≡ slots_of peers.old.items }
{
    if slot < peers.len() {
        add_readiness_to(&mut peers[slot], readiness);
    }
}

// Gives the client of a slot its turn, and empties the slot where it ends. Returns whether it can go on at once.
fn turn_client<S: Server>(slot: &mut Option<Client>, server: &mut S, now: u64) -> bool
    ensures { TurnsClient S.answers (client_of slot.old) (client_of slot.new) server.old
        server.new }
{
    let Some(client) = slot else {
        return false;
    };
    match client.take_turn(server, now) {
        Progress::Busy => true,
        Progress::Waiting => false,
        Progress::Ended => {
            *slot = None;
            false
        }
    }
}

// Gives each client its turn. Returns whether one can go on at once.
fn turn_clients<S: Server>(clients: &mut Vec<Option<Client>>, server: &mut S, now: u64) -> bool
    ensures { ClientsPass S.answers (clients_of clients.old.items) server.old
        (clients_of clients.new.items) server.new }
{
    let mut is_busy = false;
    for slot in 0..clients.len() {
        if turn_client(&mut clients[slot], server, now) {
            is_busy = true;
        }
    }
    is_busy
}

// Sends what is left of the answer of a slot, and empties the slot where nothing is. Returns whether some is left.
fn send_slot(slot: &mut Option<Client>) -> bool
    ensures { (client_of slot.new ≡ client_of slot.old) ⊎ (slot.new ≡ None) }
{
    let Some(client) = slot else {
        return false;
    };
    match client.send_rest() {
        Progress::Ended => {
            *slot = None;
            false
        }
        _ => true,
    }
}

// Sends what is left of answers. Returns whether some is left.
fn send_rests(clients: &mut Vec<Option<Client>>) -> bool
    ensures { Chain ComesOrGoes (clients_of clients.old.items) (clients_of clients.new.items) }
{
    let mut is_left = false;
    for slot in 0..clients.len() {
        if send_slot(&mut clients[slot]) {
            is_left = true;
        }
    }
    is_left
}

// Has the peer that the site wishes to meet, if there is one, called at once.
fn add_wish<M: Meets>(calls: &mut Calls, site: &mut M)
    ensures { M.keeps site.old site.new }
{
    if let Some(peer) = site.next_wish() {
        calls.wish(peer);
    }
}

impl EventLoop {
    /// Listens for clients and peers. A port of 0 leaves the choice to the system.
    pub fn bind<N: Net + AllocGlobal>(net: &N, options: &LoopOptions<'_>) -> io::Result<EventLoop>
        ensures peers { IfOk result (λ bound. All (λ peer. peer ≡ None) bound.peers.items) }
        ensures clients { IfOk result (λ bound. All (λ client. client ≡ None) bound.clients.items) }
    {
        let alloc = net.alloc();
        let Rooms {
            allowed,
            clients,
            peers,
            calls,
            buffer,
        } = Rooms::new(alloc, options)?;
        let Listeners {
            poll,
            of_clients,
            of_peers,
        } = Listeners::bind(net, options)?;
        Ok(EventLoop {
            alloc,
            poll,
            client_listener: Some(of_clients),
            peer_listener: of_peers,
            has_pending_clients: true,
            has_pending_peers: true,
            console: None,
            allowed,
            clients,
            peers,
            calls,
            buffer,
            begun: None,
        })
    }

    /// Where it listens for clients.
    pub fn client_address(&self) -> io::Result<SocketAddr> {
        match &self.client_listener {
            Some(listener) => listener.local_addr(),
            None => Err(io::ErrorKind::NotConnected.into()),
        }
    }

    /// Where it listens for peers, if it does.
    pub fn peer_address(&self) -> io::Result<Option<SocketAddr>> {
        match &self.peer_listener {
            Some(listener) => Ok(Some(listener.local_addr()?)),
            None => Ok(None),
        }
    }

    /// Has the server read its console whenever that can be read. The descriptor is a pipe, a terminal or a socket: the
    /// system watches no file.
    pub fn watch_console(&mut self, descriptor: RawFd) -> io::Result<()> {
        let registry = self.poll.registry();
        let token = EventSource::Console.token();
        self.console = Some(Console::watch(registry, descriptor, token)?);
        Ok(())
    }

    // Notes what an event says the console is ready for, if there is one.
    fn add_readiness_of_console(&mut self, readiness: Readiness)
        ensures peers { self.new.peers ≡ self.old.peers }
        ensures clients { self.new.clients ≡ self.old.clients }
    {
        if let Some(console) = &mut self.console {
            console.add_readiness(readiness);
        }
    }

    // Notes what an event says of its source.
    fn add_readiness(&mut self, source: EventSource, readiness: Readiness)
        ensures meetings { slots_of self.new.peers.items ≡ slots_of self.old.peers.items }
        ensures clients { clients_of self.new.clients.items ≡ clients_of self.old.clients.items }
    {
        match source {
            EventSource::ClientListener => self.has_pending_clients = true,
            EventSource::PeerListener => self.has_pending_peers = true,
            EventSource::Console => self.add_readiness_of_console(readiness),
            EventSource::Client(slot) => {
                add_readiness_of_client(&mut self.clients, slot, readiness);
            }
            EventSource::Peer(slot) => add_readiness_of_peer(&mut self.peers, slot, readiness),
        }
    }

    // Waits for events, and takes note of them.
    fn wait(&mut self, events: &mut Events, is_busy: bool) -> io::Result<()>
        ensures meetings { slots_of self.new.peers.items ≡ slots_of self.old.peers.items }
        ensures clients { clients_of self.new.clients.items ≡ clients_of self.old.clients.items }
    {
        let wait = if is_busy { 0 } else { TICK };
        self.poll.poll(events, Some(Duration::from_millis(wait)))?;
        for event in events.iter() {
            let readiness = Readiness {
                is_readable: event.is_readable() || event.is_read_closed() || event.is_error(),
                is_writable: event.is_writable() || event.is_write_closed() || event.is_error(),
            };
            self.add_readiness(EventSource::of(event.token()), readiness);
        }
        Ok(())
    }

    // Has the socket of a client or of a peer watched.
    fn watch(&self, stream: &mut TcpStream, source: EventSource) -> io::Result<()> {
        let interests = Interest::READABLE | Interest::WRITABLE;
        self.poll
            .registry()
            .register(stream, source.token(), interests)
    }

    // A free slot, or that of the idlest client; none where each has an answer under way.
    fn slot_of_client(&self) -> Option<usize> {
        match free_slot(&self.clients, 0, MOST_CLIENTS) {
            Some(slot) => Some(slot),
            None => idlest_client(&self.clients),
        }
    }

    // Has the socket of a client watched, and takes the client into a slot; where none is free, it drops the client.
    fn add_client<H: RandomSource>(
        &mut self,
        host: &H,
        mut stream: TcpStream,
        now: u64,
    ) -> io::Result<()>
        ensures clients { Chain ComesOrGoes (clients_of self.old.clients.items)
            (clients_of self.new.clients.items) }
        ensures peers { self.new.peers ≡ self.old.peers }
    {
        let Some(slot) = self.slot_of_client() else {
            return Ok(());
        };
        let keys = RandomState::new(host)?;
        self.watch(&mut stream, EventSource::Client(slot))?;
        let client = Client::new(self.alloc, keys, stream, now);
        fill_slot(&mut self.clients, slot, client);
        Ok(())
    }

    // Accepts the clients that wait, at most TURN of them; the rest waits for the next turn.
    fn accept_clients<H: RandomSource>(&mut self, host: &H, now: u64)
        ensures clients { Chain ComesOrGoes (clients_of self.old.clients.items)
            (clients_of self.new.clients.items) }
        ensures peers { self.new.peers ≡ self.old.peers }
    {
        if !self.has_pending_clients {
            return;
        }
        for _ in 0..TURN {
            let accepted = match &self.client_listener {
                Some(listener) => listener.accept(),
                None => return,
            };
            match accepted {
                Ok((stream, _)) => {
                    let _ = self.add_client(host, stream, now);
                }
                Err(error) if error.kind() == io::ErrorKind::WouldBlock => {
                    self.has_pending_clients = false;
                    return;
                }
                // As where no descriptors are left: the next turn tries again.
                Err(_) => return,
            }
        }
    }

    // Whether a peer may meet this site: its address is a listed one, or none are listed.
    fn is_allowed(&self, peer: SocketAddr) -> bool {
        let address = peer.ip().to_canonical();
        self.allowed.is_empty() || self.allowed.contains(&address)
    }

    // Has the socket of a peer that calls watched, and begins the meeting in this slot.
    fn begin_accepted(
        &mut self,
        mut stream: TcpStream,
        address: SocketAddr,
        meeting: usize,
        now: u64,
    )
        ensures meetings { MayBegin (slots_of self.old.peers.items) meeting
            (slots_of self.new.peers.items) }
        ensures clients { self.new.clients ≡ self.old.clients }
    {
        if self.watch(&mut stream, EventSource::Peer(meeting)).is_err() {
            return;
        }
        let peer = Peer::accepted(self.alloc, stream, address, now);
        fill_slot(&mut self.peers, meeting, peer);
    }

    // Begins the meeting of a connection that was accepted; the site hears of one that is refused, for its address or
    // because no slot is free.
    fn meet_accepted<M: Meets>(
        &mut self,
        site: &mut M,
        stream: TcpStream,
        address: SocketAddr,
        now: u64,
    )
        ensures meetings { MeetingsPass M.keeps M.settles M.finishes (slots_of self.old.peers.items) site.old
            (slots_of self.new.peers.items) site.new }
        ensures clients { self.new.clients ≡ self.old.clients }
    {
        if !self.is_allowed(address) {
            return site.refuse(address, PeerRefusal::Address);
        }
        match free_slot(&self.peers, 0, MOST_ACCEPTED) {
            Some(meeting) => self.begin_accepted(stream, address, meeting, now),
            None => site.refuse(address, PeerRefusal::Crowded),
        }
    }

    // Accepts the peers that wait, at most TURN of them; the rest waits for the next turn.
    fn accept_peers<M: Meets>(&mut self, site: &mut M, now: u64)
        ensures meetings { MeetingsPass M.keeps M.settles M.finishes (slots_of self.old.peers.items) site.old
            (slots_of self.new.peers.items) site.new }
        ensures clients { self.new.clients ≡ self.old.clients }
    {
        if !self.has_pending_peers {
            return;
        }
        for _ in 0..TURN {
            let accepted = match &self.peer_listener {
                Some(listener) => listener.accept(),
                None => return,
            };
            match accepted {
                Ok((stream, address)) => self.meet_accepted(site, stream, address, now),
                Err(error) if error.kind() == io::ErrorKind::WouldBlock => {
                    self.has_pending_peers = false;
                    return;
                }
                Err(_) => return,
            }
        }
    }

    // Connects to a peer, has the socket watched, and begins the meeting in this slot. Returns whether it began.
    fn begin_call<N: Net>(
        &mut self,
        net: &N,
        address: SocketAddr,
        meeting: usize,
        first: FirstMessage,
        out: Outbox,
        now: u64,
    ) -> bool
        ensures meetings { MayBegin (slots_of self.old.peers.items) meeting
            (slots_of self.new.peers.items) }
        ensures clients { self.new.clients ≡ self.old.clients }
    {
        let Ok(mut stream) = TcpStream::connect(net, address) else {
            return false;
        };
        if self.watch(&mut stream, EventSource::Peer(meeting)).is_err() {
            return false;
        }
        let peer = Peer::called(self.alloc, stream, address, first, out, now);
        fill_slot(&mut self.peers, meeting, peer);
        true
    }

    // Reports to the site that a meeting ends before its peer is connected.
    fn end_call<M: Meets>(
        &mut self,
        site: &mut M,
        address: SocketAddr,
        meeting: usize,
        loss: Option<Loss>,
        now: u64,
    )
        ensures keeps { M.keeps site.old site.new }
        ensures peers { self.new.peers ≡ self.old.peers }
        ensures clients { self.new.clients ≡ self.old.clients }
    {
        let outcome = site.end(&MeetingReport {
            meeting,
            peer: address,
            side: MeetingSide::First,
            loss,
        });
        self.calls.end(address, outcome, now);
    }

    // Begins a meeting of this number with a peer.
    fn call<N: Net, M: Meets>(
        &mut self,
        net: &N,
        site: &mut M,
        address: SocketAddr,
        meeting: usize,
        now: u64,
    )
        ensures meetings { MeetingsPass M.keeps M.settles M.finishes (slots_of self.old.peers.items) site.old
            (slots_of self.new.peers.items) site.new }
        ensures clients { self.new.clients ≡ self.old.clients }
    {
        let mut out = Outbox::new(self.alloc);
        let Some(first) = site.open(meeting, address, &mut out) else {
            return self.end_call(site, address, meeting, None, now);
        };
        if self.begin_call(net, address, meeting, first, out, now) {
            return;
        }
        self.end_call(site, address, meeting, Some(Loss::Disconnected), now);
    }

    // Calls a peer that is due.
    fn call_due<N: Net, M: Meets>(&mut self, net: &N, site: &mut M, now: u64)
        ensures meetings { MeetingsPass M.keeps M.settles M.finishes (slots_of self.old.peers.items) site.old
            (slots_of self.new.peers.items) site.new }
        ensures clients { self.new.clients ≡ self.old.clients }
    {
        add_wish(&mut self.calls, site);
        let Some(meeting) = free_slot(&self.peers, MOST_ACCEPTED, MOST_MEETINGS) else {
            return;
        };
        if let Some(address) = self.calls.next_due(now) {
            self.call(net, site, address, meeting, now);
        }
    }

    // Has the server read its console, if that can be read.
    fn turn_console<S: Server>(&mut self, server: &mut S)
        ensures keeps { Chain S.keeps server.old server.new }
        ensures peers { self.new.peers ≡ self.old.peers }
        ensures clients { self.new.clients ≡ self.old.clients }
    {
        let Some(console) = &mut self.console else {
            return;
        };
        let token = EventSource::Console.token();
        if console.take_turn(self.poll.registry(), token, server) == Progress::Ended {
            self.console = None;
        }
    }

    // Gives all their turn; returns whether one can go on at once.
    fn turn<S: Server, H: Net + RandomSource>(&mut self, host: &H, server: &mut S, now: u64) -> bool
        ensures { LoopPasses S.answers S.keeps S.settles S.finishes (state_of self.old server.old)
            (state_of self.new server.new) }
    {
        self.turn_console(server);
        self.accept_clients(host, now);
        self.accept_peers(server, now);
        self.call_due(host, server, now);
        let has_busy_client = turn_clients(&mut self.clients, server, now);
        let has_busy_peer = turn_peers(
            &mut self.peers,
            server,
            &mut self.calls,
            &mut self.buffer,
            now,
        );
        has_busy_client | has_busy_peer
    }

    // Ends all meetings, and sends the answers that are under way.
    fn stop<S: Server, H: Clock>(
        &mut self,
        host: &H,
        server: &mut S,
        events: &mut Events,
    ) -> io::Result<()>
        ensures meetings { MeetingsPass S.keeps S.settles S.finishes (slots_of self.old.peers.items) server.old
            (slots_of self.new.peers.items) server.new }
        ensures clients { Chain ComesOrGoes (clients_of self.old.clients.items)
            (clients_of self.new.clients.items) }
    {
        self.client_listener = None;
        self.peer_listener = None;
        stop_peers(&mut self.peers, server, &mut self.calls, 0);
        let begun = Instant::now(host)?;
        for _ in 0..u64::MAX {
            if !send_rests(&mut self.clients) || millis(begun.elapsed(host)?) > STOP_TIME {
                return Ok(());
            }
            self.wait(events, false)?;
        }
        Ok(())
    }

    // The time from which milliseconds are counted: that of the first run.
    fn begin<H: Clock>(&mut self, host: &H) -> io::Result<Instant>
        ensures peers { self.new.peers ≡ self.old.peers }
        ensures clients { self.new.clients ≡ self.old.clients }
    {
        let begun = match self.begun {
            Some(begun) => begun,
            None => Instant::now(host)?,
        };
        self.begun = Some(begun);
        Ok(begun)
    }

    // How many clients are connected.
    fn client_count(&self) -> usize {
        self.clients.iter().filter(|it| it.is_some()).count()
    }

    /// Serves clients and peers, and calls the peers that are due, until the server is to end: then no more is
    /// accepted, answers that are under way are sent, for five seconds at most, and meetings are cut. If the server is
    /// to leave, all connections stay, and the loop may be run again for another server. An error is one of the
    /// system's own: it refuses to wait, or tells no time.
    pub fn run<S: Server, H: Net + Clock + RandomSource>(
        &mut self,
        host: &H,
        server: &mut S,
    ) -> io::Result<()>
        ensures { LoopPasses S.answers S.keeps S.settles S.finishes (state_of self.old server.old)
            (state_of self.new server.new) }
    {
        let mut events = Events::with_capacity(self.alloc, MOST_EVENTS)?;
        let begun = self.begin(host)?;
        let mut is_busy = false;
        for _ in 0..u64::MAX {
            if server.is_stopping() {
                return self.stop(host, server, &mut events);
            }
            if server.is_leaving() {
                return Ok(());
            }
            self.wait(&mut events, is_busy)?;
            let now = millis(begun.elapsed(host)?);
            server.pass_time(now, self.client_count());
            is_busy = self.turn(host, server, now);
        }
        Ok(())
    }
}
