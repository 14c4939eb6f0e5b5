//! The laws of histories and sites.
ghost use Rattle.td_replica.specs.Laws.{SitesAgree, HistoryIsLegal, HistoryIsUnique};

/// Every key and constraint is true in the opening relvars and after each entry of a history.
pub fn story_is_legal()
    ensures { HistoryIsLegal }
{}

/// Entries have one history: one list of outcomes, and one database after it.
pub fn history_is_unique()
    ensures { HistoryIsUnique }
{}

/// Sites of one script that hold the same set of entries have the same outcomes and the same relvars.
pub fn sites_agree()
    ensures { SitesAgree }
{}
