//! How long answers take.

use std::alloc::AllocError;
use std::time::{Clock, Instant};

/// The time, if it is wanted and the system tells it.
pub(crate) fn begin<H: Clock>(host: &H, is_wanted: bool) -> Option<Instant> {
    if is_wanted {
        Instant::now(host).ok()
    } else {
        None
    }
}

/// Appends how long it took from this time on, in a line; nothing without a time.
pub(crate) fn push_time<H: Clock>(
    out: &mut String,
    host: &H,
    begun: Option<Instant>,
) -> Result<(), AllocError> {
    let elapsed = match begun {
        Some(begun) => begun.elapsed(host).ok(),
        None => None,
    };
    let Some(elapsed) = elapsed else {
        return Ok(());
    };
    let micros = elapsed.as_micros();
    let millis = micros / 1_000;
    let rest = micros % 1_000;
    writeln!(out, "took {millis}.{rest:03} ms")
}
