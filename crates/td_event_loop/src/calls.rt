//! Peers that are called.

use crate::limits::LONGEST_BACKOFF;
use crate::meets::MeetingOutcome;
use std::alloc::{AllocError, Global};
use std::net::SocketAddr;

/// A peer that is called.
#[derive(Clone, Copy)]
struct Call {
    address: SocketAddr,
    /// When it is called next.
    next: u64,
    /// How often in a row it was not met.
    failures: u32,
    is_under_way: bool,
    /// It is to be called at once.
    is_wished: bool,
}

/// The peers that are called: each some time after it was met, and later each time where it was not.
#[derive(Drop)]
pub(crate) struct Calls {
    calls: Vec<Call>,
    every: u64,
}

impl Calls {
    /// All of these are called at once, and then at this interval, in milliseconds.
    pub(crate) fn new(
        alloc: Global,
        peers: &[SocketAddr],
        every: u64,
    ) -> Result<Calls, AllocError> {
        let mut calls = Vec::with_capacity(alloc, peers.len())?;
        for peer in peers {
            calls.push(Call {
                address: *peer,
                next: 0,
                failures: 0,
                is_under_way: false,
                is_wished: false,
            })?;
        }
        Ok(Calls { calls, every })
    }

    /// Has a peer called at once.
    pub(crate) fn wish(&mut self, peer: SocketAddr) {
        for call in &mut self.calls {
            if call.address == peer {
                call.is_wished = true;
            }
        }
    }

    /// The peer that is due longest. It counts as called from here on.
    pub(crate) fn next_due(&mut self, now: u64) -> Option<SocketAddr> {
        let mut due = None;
        let mut since = now;
        for (i, call) in self.calls.iter().enumerate() {
            let next = if call.is_wished { 0 } else { call.next };
            if !call.is_under_way && next <= since {
                due = Some(i);
                since = next;
            }
        }
        let call = self.calls.get_mut(due?)?;
        call.is_under_way = true;
        call.is_wished = false;
        Some(call.address)
    }

    /// Sets when a peer is called again.
    pub(crate) fn end(&mut self, peer: SocketAddr, outcome: MeetingOutcome, now: u64) {
        for call in &mut self.calls {
            if call.address == peer {
                call.is_under_way = false;
                call.failures = match outcome {
                    MeetingOutcome::Failed => call.failures.saturating_add(1),
                    _ => 0,
                };
                let wait = match outcome {
                    MeetingOutcome::Complete | MeetingOutcome::Fruitless => self.every,
                    MeetingOutcome::Partial => 0,
                    MeetingOutcome::Failed => backoff(self.every, call.failures),
                };
                call.next = now.saturating_add(wait);
            }
        }
    }
}

// How long a peer is not called after this many failures in a row.
fn backoff(every: u64, failures: u32) -> u64 {
    let doublings = failures.saturating_sub(1).min(10);
    every
        .max(1_000)
        .saturating_mul(1 << doublings)
        .min(LONGEST_BACKOFF.max(every))
}
