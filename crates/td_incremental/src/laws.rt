//! The laws of gains.
ghost use Rattle.td_incremental.specs.Laws.{DifferencesAreGains, GrowthKeepsSafe, JudgedByReads, LossesKeepWatched};
ghost use Rattle.td_incremental.specs.Laws.{KeptPartsKeepReferences, LostPartsAreJudged, NarrowedIsStored, UnmatchedGainsKeepReferences, WatchedByInserts};

/// A watched constraint that was true before a base relvar gained tuples is now what it is over these alone.
pub fn watched_by_inserts()
    ensures { WatchedByInserts }
{}

/// Where the relvar lost tuples and gained none it stays true.
pub fn losses_keep_watched()
    ensures { LossesKeepWatched }
{}

/// A safe constraint stays true where the relvar lost no tuple.
pub fn growth_keeps_safe()
    ensures { GrowthKeepsSafe }
{}

/// A reference stays true where each tuple that the relvar had has one with its part at the names that are referred to.
pub fn kept_parts_keep_references()
    ensures { KeptPartsKeepReferences }
{}

/// A reference of one base relvar that was true is whether none of its tuples has a part that was lost.
pub fn lost_parts_are_judged()
    ensures { LostPartsAreJudged }
{}

/// A reference of one base relvar is judged as it was where the relvar that it refers to gained what nothing refers to.
pub fn unmatched_gains_keep_references()
    ensures { UnmatchedGainsKeepReferences }
{}

/// Relvars that agree on what it reads give a constraint one judgement.
pub fn judged_by_reads()
    ensures { JudgedByReads }
{}

/// A relvar that differs gained what is inserted, and lost what is deleted.
pub fn differences_are_gains()
    ensures { DifferencesAreGains }
{}

/// Over what it gained alone the relvars have their headings.
pub fn narrowed_is_stored()
    ensures { NarrowedIsStored }
{}
