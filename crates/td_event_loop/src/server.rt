//! What the loop serves.

use crate::meets::Meets;
use http_server::Service;

/// A service of HTTP over a site that meets others.
pub trait Server: Service + Meets {
    /// How many requests were answered.
    fn answered(&self) -> u64;

    /// Takes note of the time, in milliseconds since the loop began, and of how many clients are connected. It is called
    /// before each turn.
    fn pass_time(&mut self, now: u64, clients: usize)
        ensures { Self.keeps self.old self.new };

    /// Reads its console once: that can be read without a wait. The answer is whether more may come.
    fn read_console(&mut self) -> bool
        ensures { Self.keeps self.old self.new };

    /// Whether the program is to end.
    fn is_stopping(&self) -> bool;

    /// Whether another server is to take the place of this one.
    fn is_leaving(&self) -> bool;
}
