//! What a comparison needs of a site.

ghost use Rattle.std.specs.Prelude.{◌≡◌};
ghost use Rattle.td_comparison.specs.Hashed.{AreHashed, ArePrefixesOf};

use td_comparison::{SiteFeed, SitePrefixes};
use td_replica::Replica;

/// A site that keeps what was hashed of the entries that it holds.
pub trait Digested: Replica {
    /// What is kept. A site whose journal failed lends it too.
    fn prefixes(&self) -> &SitePrefixes
        ensures { ArePrefixesOf (Self.seen self.now).entries result.now };

    /// Keeps what feeds have taken of the entries that it holds.
    fn keep(&mut self, feeds: Vec<SiteFeed>)
        requires { AreHashed (Self.seen self.old).entries feeds.items }
        ensures seen { Self.seen self.new ≡ Self.seen self.old }
        ensures journaled { Self.journaled self.old → Self.journaled self.new };
}
