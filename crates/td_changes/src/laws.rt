//! The law of what statements changed.
ghost use Rattle.td_changes.specs.Laws.{ChangesAgree};

/// Sites of one script that hold the same set of entries tell the same changes of a statement, in whatever order.
pub fn changes_agree()
    ensures { ChangesAgree }
{}
