//! Calls that are timed: turns, the least of which counts.

use anyhow::Result;

/// Something that is timed again and again.
pub trait Turn {
    /// How many nanoseconds it took once, and how much it gave, which is the same each time.
    fn take(&self, rt: &HostRuntime) -> Result<(u128, usize)>;
}

/// The least nanoseconds of so many turns, of one at least, and how much each gives.
pub fn least_time<T: Turn>(rt: &HostRuntime, turns: u32, turn: &T) -> Result<(u128, usize)> {
    let (mut least, count) = turn.take(rt)?;
    for _ in 1..turns {
        let (time, _) = turn.take(rt)?;
        if time < least {
            least = time;
        }
    }
    Ok((least, count))
}
