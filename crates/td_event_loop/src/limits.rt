//! Limits, in numbers, bytes and milliseconds.

/// The most clients at once.
pub const MOST_CLIENTS: usize = 64;

/// The most meetings at once that peers began.
pub const MOST_ACCEPTED: usize = 8;

/// The most meetings at once that this site began.
pub const MOST_CALLED: usize = 4;

/// The most meetings at once.
pub const MOST_MEETINGS: usize = MOST_ACCEPTED + MOST_CALLED;

/// The most bytes of a meeting that are kept of a peer, and that are kept for it: as many as digests of 65,535 sites
/// have, and more.
pub const MOST_BYTES: usize = 1_572_864;

/// The most bytes of the body of a request.
pub(crate) const MOST_BODY: usize = 65_536;

/// A client has this time for a request, from its connection or its last answer on.
pub(crate) const REQUEST_TIME: u64 = 15_000;

/// A client takes some byte of an answer in this time.
pub(crate) const ANSWER_TIME: u64 = 15_000;

/// A client takes an answer whole in this time.
pub(crate) const WHOLE_ANSWER_TIME: u64 = 120_000;

/// A peer sends or takes some byte in this time. After it the least speed counts.
pub(crate) const SILENCE_TIME: u64 = 30_000;

/// A peer sends and takes at least this many bytes a second.
pub(crate) const LEAST_SPEED: u64 = 1_024;

/// A meeting takes no longer.
pub(crate) const MEETING_TIME: u64 = 600_000;

/// A program that ends waits at most this time for its answers to be taken.
pub(crate) const STOP_TIME: u64 = 5_000;

/// A peer that was not met is called again after this time at the latest.
pub(crate) const LONGEST_BACKOFF: u64 = 900_000;

/// At most this many connections are accepted, and this many reads and writes of one connection made, before others
/// have their turn.
pub(crate) const TURN: usize = 8;

/// A wait for events is no longer.
pub(crate) const TICK: u64 = 250;
