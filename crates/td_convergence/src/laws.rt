//! The laws of meetings along a spanning tree, and of what may stop one meeting.

ghost use Rattle.td_convergence.specs.Laws.{ConvergedHoldTheSame, Convergence, RoomMeets};

/// After whole meetings along a spanning tree, from its leaves to its root and then from the root to the leaves, each
/// site of the tree holds exactly the union of what its sites held, where no two entries of that clash.
pub fn meetings_converge()
    ensures { Convergence }
{}

/// After those meetings any two sites of the tree have one script and hold the same set of entries.
pub fn converged_hold_the_same()
    ensures { ConvergedHoldTheSame }
{}

/// Two open sites of one script and two numbers, no two entries of which clash, and each of which has room for the
/// union of what they hold: a meeting of them in memory fails for want of memory or by a failing journal alone.
pub fn room_meets()
    ensures { RoomMeets }
{}
