//! How many statements a site has room for.

use std::alloc::AllocError;
use td_replica::Replica;

/// Appends how many statements the site has room for, from nine tenths of its limit on; before that nothing.
pub fn push_room<R: Replica>(out: &mut String, site: &R) -> Result<(), AllocError> {
    let Ok(held) = site.held() else {
        return Ok(());
    };
    let limit = held.limit();
    let left = limit.saturating_sub(held.len());
    if left > limit / 10 {
        return Ok(());
    }
    writeln!(
        out,
        "room for {left} more statements, of {limit} that this site may hold: docs/TUTORIAL.md says what to do"
    )
}
