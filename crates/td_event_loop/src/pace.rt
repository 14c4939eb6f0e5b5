//! How fast a connection goes.

use crate::limits::{LEAST_SPEED, MEETING_TIME, SILENCE_TIME, TICK};
use crate::meets::Loss;

/// How long a connection has waited for its other end, and for how many bytes. What the loop spends on others counts as
/// two ticks a turn at most.
#[derive(Clone, Copy)]
pub(crate) struct Pace {
    seen: u64,
    waited: u64,
    quiet: u64,
    bytes: u64,
}

impl Pace {
    pub(crate) fn new(now: u64) -> Pace {
        Pace {
            seen: now,
            waited: 0,
            quiet: 0,
            bytes: 0,
        }
    }

    /// Time passes up to now.
    pub(crate) fn pass(&mut self, now: u64) {
        let passed = now.saturating_sub(self.seen).min(2 * TICK);
        self.seen = now;
        self.waited = self.waited.saturating_add(passed);
        self.quiet = self.quiet.saturating_add(passed);
    }

    /// This many bytes came or went.
    pub(crate) fn add_bytes(&mut self, count: usize) {
        self.bytes = self.bytes.saturating_add(count as u64);
        self.quiet = 0;
    }

    /// Milliseconds since a byte came or went.
    pub(crate) fn quiet(&self) -> u64 {
        self.quiet
    }

    /// Milliseconds since the last restart.
    pub(crate) fn waited(&self) -> u64 {
        self.waited
    }

    /// Time and bytes are counted anew.
    pub(crate) fn restart(&mut self) {
        self.waited = 0;
        self.quiet = 0;
        self.bytes = 0;
    }

    /// Why a peer is not waited for any longer, if so.
    pub(crate) fn loss(&self) -> Option<Loss> {
        if self.quiet > SILENCE_TIME {
            return Some(Loss::Silent);
        }
        let counted = self.waited.saturating_sub(SILENCE_TIME);
        let least = counted.saturating_mul(LEAST_SPEED) / 1000;
        if self.waited > MEETING_TIME || self.bytes < least {
            return Some(Loss::Slow);
        }
        None
    }
}
