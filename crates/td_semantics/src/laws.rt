//! The laws of scripts and steps.
ghost use Rattle.td_semantics.specs.Laws.{OpeningIsOne, OpensOrWants, ScriptIsOne, StepIsLegal, StepIsUnique};

/// A text is the script of one catalogue, and opens in one way: whoever opens it again has the same database, or wants
/// memory.
pub fn script_opens_one()
    ensures script { ScriptIsOne }
    ensures opening { OpeningIsOne }
    ensures again { OpensOrWants }
{}

/// Every test is true after a statement where every one was true before.
pub fn step_is_legal()
    ensures { StepIsLegal }
{}

/// A text has one outcome, and leaves one database.
pub fn step_is_unique()
    ensures { StepIsUnique }
{}
