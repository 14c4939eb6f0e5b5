//! The laws of journals.

ghost use Rattle.td_journal.specs.Keepers.{FailedIssueLeavesFront, FailedTakeLeavesFront, IssueKeepsJournal, JournalSaysAll, ReopenedHasJournal, StartsJournal, TakeKeepsJournal};
ghost use Rattle.td_journal.specs.Laws.{CutJournalIsRead, JournalIsReadAgain};
ghost use Rattle.td_journal.specs.Stores.{KeptHasJournal};

/// A journal that is cut, after whatever byte, is read as the entries whose frames stand whole; one that is not cut is
/// read whole.
pub fn cut_journal()
    ensures cut { CutJournalIsRead }
    ensures again { JournalIsReadAgain }
{}

/// The journal of a keeper that is open is that of all that it holds: from its start, and after each call. Where it
/// fails, a front of that is written, with all that stood there before. So a site that is reopened from it holds the
/// same, and from a front of it what stands whole there, with which it may go on; and what `keep_journal` goes on with,
/// from whatever front, is the journal of what the site then holds.
pub fn keeper_keeps_journal()
    ensures start { StartsJournal }
    ensures issue { IssueKeepsJournal }
    ensures take { TakeKeepsJournal }
    ensures failed_issue { FailedIssueLeavesFront }
    ensures failed_take { FailedTakeLeavesFront }
    ensures says { JournalSaysAll }
    ensures reopened { ReopenedHasJournal }
    ensures kept { KeptHasJournal }
{}
