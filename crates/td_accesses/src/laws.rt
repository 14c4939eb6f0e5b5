//! The law of insertions.

ghost use Rattle.td_accesses.specs.Laws.{InsertionsCommute};

/// Insertions into one relvar that differ by its keys may be exchanged, where each of its tests goes by a key or by
/// what is inserted.
pub fn insertions_commute()
    ensures { InsertionsCommute }
{}
