//! The tokens of events.

ghost use Rattle.std.specs.Prelude.{◌≡◌, ◌<◌, ◌^◌};
ghost use Rattle.td_event_loop.specs.Tokens.{token_of};

use crate::limits::{MOST_CLIENTS, MOST_MEETINGS};
use mio::Token;

const CLIENT_LISTENER: usize = 0;

const PEER_LISTENER: usize = 1;

const CONSOLE: usize = 2;

const FIRST_CLIENT: usize = 3;

const FIRST_PEER: usize = FIRST_CLIENT + MOST_CLIENTS;

/// How many tokens there are, and so how many events come at once.
pub(crate) const MOST_EVENTS: usize = FIRST_PEER + MOST_MEETINGS;

/// What events are of: a listener, the console, or the connection in a slot.
#[derive(Clone, Copy)]
pub(crate) enum EventSource {
    ClientListener,
    PeerListener,
    Console,
    Client(usize),
    Peer(usize),
}

impl EventSource {
    /// What the events of a token are of.
    pub(crate) fn of(token: Token) -> EventSource
        ensures { token_of result ≡ token.0 }
    {
        match token.0 {
            CLIENT_LISTENER => EventSource::ClientListener,
            PEER_LISTENER => EventSource::PeerListener,
            CONSOLE => EventSource::Console,
            n if n < FIRST_PEER => EventSource::Client(n - FIRST_CLIENT),
            n => EventSource::Peer(n - FIRST_PEER),
        }
    }

    /// The token of its events.
    pub(crate) fn token(self) -> Token
        ensures { token_of self < 2 ^ 64 → result.0 ≡ token_of self }
    {
        Token(match self {
            EventSource::ClientListener => CLIENT_LISTENER,
            EventSource::PeerListener => PEER_LISTENER,
            EventSource::Console => CONSOLE,
            EventSource::Client(slot) => FIRST_CLIENT.saturating_add(slot),
            EventSource::Peer(slot) => FIRST_PEER.saturating_add(slot),
        })
    }
}
