//! What is known of the meetings under way, and of the peers that were called.

use std::alloc::{AllocError, Global};
use std::net::SocketAddr;
use td_checked_meetings::MeetingScope;
use td_event_loop::MOST_MEETINGS;
use td_stamps::Vector;

/// For how long, in milliseconds, a peer that does not compare is not asked again: a day.
const PLAIN_TIME: u64 = 86_400_000;

/// How far a meeting has come.
#[derive(Drop)]
pub(crate) enum MeetingState {
    /// The peer was asked with digests of what this version vector counts.
    Asked(Vector),
    /// It is known what is exchanged.
    InScope(MeetingScope),
    /// The other site's greeting was accepted.
    Greeted(GreetedPeer),
}

/// A meeting whose greeting was accepted.
#[derive(Drop)]
pub(crate) struct GreetedPeer {
    pub(crate) scope: MeetingScope,
    /// Of each site whose statements it was sent, up to which number it had them before.
    pub(crate) lacked: Vec<(u16, u32)>,
}

/// What another site said of itself.
#[derive(Drop)]
pub(crate) struct PeerGreeting {
    pub(crate) site: u16,
    pub(crate) vector: Vector,
}

/// A peer that was called.
#[derive(Drop)]
struct KnownPeer {
    address: SocketAddr,
    /// It has compared.
    has_compared: bool,
    /// When it last closed the connection in place of an answer.
    plain_since: Option<u64>,
    /// Of each site whose statements it was sent last, up to which number it had them before.
    lacked: Vec<(u16, u32)>,
}

impl KnownPeer {
    // Whether the peer has taken nothing of what it was sent last, if it greets with this version vector.
    fn has_taken_nothing(&self, vector: &Vector) -> bool {
        !self.lacked.is_empty()
            && self
                .lacked
                .iter()
                .all(|(site, number)| vector.number(*site) <= *number)
    }
}

/// Of each site that a peer with this version vector lacks statements of, which are in the scope, up to which number it
/// has them.
pub(crate) fn lacked_by(
    alloc: Global,
    scope: &MeetingScope,
    vector: &Vector,
) -> Result<Vec<(u16, u32)>, AllocError> {
    let mut lacked = Vec::new(alloc);
    let entries = scope.vector.entries(alloc)?;
    for (site, number) in &entries {
        let has = vector.number(*site);
        if has < *number && !scope.leaves_out(*site) {
            lacked.push((*site, has))?;
        }
    }
    Ok(lacked)
}

/// The meetings under way, each under its number, and the peers that were called.
#[derive(Drop)]
pub(crate) struct Scopes {
    states: Vec<Option<MeetingState>>,
    greetings: Vec<Option<PeerGreeting>>,
    known: Vec<KnownPeer>,
}

impl Scopes {
    pub(crate) fn new(alloc: Global, peers: &[SocketAddr]) -> Result<Scopes, AllocError> {
        let mut states = Vec::with_capacity(alloc, MOST_MEETINGS)?;
        for _ in 0..MOST_MEETINGS {
            states.push(None)?;
        }
        let mut greetings = Vec::with_capacity(alloc, MOST_MEETINGS)?;
        for _ in 0..MOST_MEETINGS {
            greetings.push(None)?;
        }
        let mut known = Vec::with_capacity(alloc, peers.len())?;
        for peer in peers {
            known.push(KnownPeer {
                address: *peer,
                has_compared: false,
                plain_since: None,
                lacked: Vec::new(alloc),
            })?;
        }
        Ok(Scopes {
            states,
            greetings,
            known,
        })
    }

    /// Keeps how far a meeting has come.
    pub(crate) fn keep(&mut self, meeting: usize, state: MeetingState) {
        if let Some(kept) = self.states.get_mut(meeting) {
            *kept = Some(state);
        }
    }

    /// How far a meeting has come, which is kept no longer.
    pub(crate) fn take(&mut self, meeting: usize) -> Option<MeetingState> {
        match self.states.get_mut(meeting) {
            Some(kept) => kept.take(),
            None => None,
        }
    }

    /// Keeps what the other site of a meeting said of itself.
    pub(crate) fn keep_greeting(&mut self, meeting: usize, greeting: Option<PeerGreeting>) {
        if let Some(kept) = self.greetings.get_mut(meeting) {
            *kept = greeting;
        }
    }

    /// What the other site of a meeting said of itself, which is kept no longer.
    pub(crate) fn take_greeting(&mut self, meeting: usize) -> Option<PeerGreeting> {
        match self.greetings.get_mut(meeting) {
            Some(kept) => kept.take(),
            None => None,
        }
    }

    /// Notes that a peer has compared.
    pub(crate) fn note_compared(&mut self, peer: SocketAddr) {
        for known in &mut self.known {
            if known.address == peer {
                known.has_compared = true;
                known.plain_since = None;
            }
        }
    }

    /// Notes that a peer closed the connection in place of an answer. Returns whether it is called without a question
    /// from now on: one that has ever compared is not.
    pub(crate) fn note_unanswered(&mut self, peer: SocketAddr, now: u64) -> bool {
        let mut is_plain = false;
        for known in &mut self.known {
            if known.address == peer && !known.has_compared {
                known.plain_since = Some(now);
                is_plain = true;
            }
        }
        is_plain
    }

    /// Whether a peer is called without a question.
    pub(crate) fn is_plain(&self, peer: SocketAddr, now: u64) -> bool {
        self.known.iter().any(|known| {
            known.address == peer
                && known
                    .plain_since
                    .is_some_and(|since| now.saturating_sub(since) < PLAIN_TIME)
        })
    }

    /// Notes what a peer lacked of what it was sent; nothing if it is not known that it was sent all of that.
    pub(crate) fn note_lacked(&mut self, peer: SocketAddr, lacked: Vec<(u16, u32)>) {
        if let Some(at) = self.known.iter().position(|known| known.address == peer)
            && let Some(known) = self.known.get_mut(at)
        {
            known.lacked = lacked;
        }
    }

    /// Whether a peer that greets with this version vector has taken nothing of what it was sent last.
    pub(crate) fn has_taken_nothing(&self, peer: SocketAddr, vector: &Vector) -> bool {
        self.known.iter().any(|known| known.address == peer && known.has_taken_nothing(vector))
    }
}
