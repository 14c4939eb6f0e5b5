//! The laws of what sites show.
ghost use Rattle.td_listings.specs.Laws.{ListingsAgree, LogsAgree, TablesAgree};

use td_replica::laws::sites_agree;
use td_stamps::laws::union_has_both;

/// Sites of one script that hold the same set of entries have the same listing, the same log and the same tables.
pub fn listings_agree()
    ensures listings { ListingsAgree }
    ensures logs { LogsAgree }
    ensures tables { TablesAgree }
{
    sites_agree();
    union_has_both();
}
