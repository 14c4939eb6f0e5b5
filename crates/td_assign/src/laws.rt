//! The laws of statements, and of what they changed, taken back and made again.
ghost use Rattle.td_assign.specs.Laws.{ChangesTargets, DifferencesGoBothWays, GoAlike, OnlyListedChange, RedoneLeadsOn, StepByFootprint, StepKeepsDatabase, UndoneLeadsBack};

/// Legal databases that agree on the footprint of a text give it one outcome and the same differences.
pub fn step_by_footprint()
    ensures { StepByFootprint }
{}

/// A statement changes its targets alone.
pub fn changes_targets()
    ensures { ChangesTargets }
{}

/// A statement leaves a database, of the same catalogue.
pub fn step_keeps_database()
    ensures { StepKeepsDatabase }
{}

/// A relvar that is not listed stays, whether changes are made or taken back.
pub fn only_listed_change()
    ensures { OnlyListedChange }
{}

/// What a statement changed, made again where it ran, gives what it left.
pub fn redone_leads_on()
    ensures { RedoneLeadsOn }
{}

/// What a statement changed, taken back, gives what was there before it.
pub fn undone_leads_back()
    ensures { UndoneLeadsBack }
{}

/// One list of changes leads relvars that have the same to relvars that have the same.
pub fn go_alike()
    ensures { GoAlike }
{}

/// After a step with these differences `undo` gives the database before it, and `redo` then the one after it.
pub fn differences_go_both_ways()
    ensures { DifferencesGoBothWays }
{}
