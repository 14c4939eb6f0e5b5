//! What a meeting exchanges.

ghost use Rattle.std.specs.Prelude.{◌≡◌, ◌==◌};
ghost use Rattle.std.specs.List.{list_any};
ghost use Rattle.td_checked_meetings.specs.Scopes.{is_in_scope, is_left_out};

use td_stamps::{Entry, Vector};

/// What a meeting exchanges: of each site that is not left out the entries that a version vector counts.
#[derive(Drop)]
pub struct MeetingScope {
    /// The version vector of what was held when digests were compared.
    pub vector: Vector,
    /// The sites whose entries differ.
    pub left_out: Vec<u16>,
}

impl MeetingScope {
    /// Whether entries of the site are left out.
    pub fn leaves_out(&self, site: u16) -> bool
        ensures { result ≡ list_any (λ n. n == site) self.now.left_out.items }
    {
        self.left_out.contains(&site)
    }

    // Whether an entry is exchanged.
    pub(crate) fn keeps(&self, entry: &Entry) -> bool
        ensures { result ≡ is_in_scope self.now.left_out.items self.now.vector entry.now }
    {
        entry.seq <= self.vector.number(entry.site) && !self.leaves_out(entry.site)
    }
}
