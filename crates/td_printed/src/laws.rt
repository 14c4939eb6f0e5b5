//! The laws of what is printed.

ghost use Rattle.td_printed.specs.Laws.{PrintedAgree, RepliesAgree};

use td_listings::laws::listings_agree;

/// Two open sites of one script that hold the same set of entries print the same for each question, where neither tells
/// want of memory: a query, a query just after an entry, the listing, the log, the version vector, and a relvar as CSV.
/// What one of them refuses the other refuses too, by the same line. So it is with the lines of two workbenches, or of
/// one, that ask two such sites.
pub fn sites_print_alike()
    ensures sites { PrintedAgree }
    ensures lines { RepliesAgree }
{
    listings_agree();
}
