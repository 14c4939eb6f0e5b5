//! What several messages say.

use std::alloc::AllocError;

/// What is said where an answer has no memory.
pub const NO_MEMORY: &str = "memory: there is not enough memory for an answer";

/// What is said where a call had no memory, and has changed nothing.
pub const UNCHANGED: &str = "memory: there is not enough memory, and nothing has changed";

/// What is said of a site whose journal failed.
pub const BROKEN: &str =
    "broken: the journal of this site has failed; end the program and start it again";

/// What is said where a journal once had more than it has.
pub const LACKING: &str =
    "this site issues nothing until it has met another one that may have what its journal lacks (.call, .serve); started with --forget it goes on without";

/// Appends a count of something, whose name takes an s unless there is one.
pub fn push_count(out: &mut String, count: usize, name: &str) -> Result<(), AllocError> {
    if count == 1 {
        write!(out, "1 {name}")
    } else {
        write!(out, "{count} {name}s")
    }
}
