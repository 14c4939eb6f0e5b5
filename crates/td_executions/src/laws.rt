//! The laws of executions.

ghost use Rattle.td_executions.specs.Laws.{CallsAreEvents, IssuedIsHeld, NoCallClashes, SentIsHeld, ExecutionHasNoClash};

use td_stamps::laws::next_comes_last;

/// No two entries of a execution clash, at whichever sites they are or were sent.
pub fn world_has_no_clash()
    ensures { ExecutionHasNoClash }
{
    next_comes_last();
}

/// An entry that was sent is held by the site that issued it.
pub fn sent_is_held()
    ensures { SentIsHeld }
{
    next_comes_last();
}

/// Where no site comes back with a part of what it held, each issued entry is held by the site that issued it.
pub fn issued_is_held()
    ensures { IssuedIsHeld }
{}

/// Calls on many sites, as their contracts tell them, are events of a execution; so no batch of what was sent is
/// refused for a clash.
pub fn calls_are_events()
    ensures events { CallsAreEvents }
    ensures clash { NoCallClashes }
{}
