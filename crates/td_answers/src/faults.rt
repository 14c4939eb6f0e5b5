//! The lines of refusals that take no memory.

ghost use Rattle.std.specs.Prelude.{◌≡◌};
ghost use Rattle.td_answers.specs.Faults as spec;

use td_listings::{ListError, TableError};
use td_replica::{AskError, IssueError, PastError};
use td_values::Raise;

/// The line of an error that an expression raises.
pub(crate) fn raised_line(raise: Raise) -> &'static str
    ensures { result.now ≡ spec.raised_line raise }
{
    match raise {
        Raise::Overflow => "raised overflow\n",
        Raise::Divide => "raised divide\n",
        Raise::Empty => "raised empty\n",
        Raise::Selector => "raised selector\n",
        Raise::Cardinality => "raised cardinality\n",
    }
}

/// The line that tells why a statement is not issued.
pub(crate) fn issue_fault(error: IssueError) -> &'static str
    ensures { result.now ≡ spec.issue_fault error }
{
    match error {
        IssueError::Broken => "fault broken\n",
        IssueError::Syntax => "fault syntax\n",
        IssueError::IllTyped => "fault type\n",
        IssueError::ClockEnd => "fault clock\n",
        IssueError::Full => "fault full\n",
        IssueError::OutOfMemory => "fault memory\n",
        IssueError::JournalWrite => "fault journal\n",
    }
}

/// The line that tells why a query is not answered.
pub(crate) fn ask_fault(error: AskError) -> &'static str
    ensures { result.now ≡ spec.ask_fault error }
{
    match error {
        AskError::Broken => "fault broken\n",
        AskError::Syntax => "fault syntax\n",
        AskError::IllTyped => "fault type\n",
        AskError::OutOfMemory => "fault memory\n",
    }
}

/// The line that tells why a query just after an entry is not answered.
pub(crate) fn past_fault(error: PastError) -> &'static str
    ensures { result.now ≡ spec.past_fault error }
{
    match error {
        PastError::Broken => "fault broken\n",
        PastError::Syntax => "fault syntax\n",
        PastError::IllTyped => "fault type\n",
        PastError::NoPlace => "fault place\n",
        PastError::OutOfMemory => "fault memory\n",
    }
}

/// The line that tells why a site is not listed, or its log or version vector not told.
pub(crate) fn list_fault(error: ListError) -> &'static str
    ensures { result.now ≡ spec.list_fault error }
{
    match error {
        ListError::Broken => "fault broken\n",
        ListError::OutOfMemory => "fault memory\n",
    }
}

/// The line that tells why the table of a relvar is not told.
pub(crate) fn table_fault(error: TableError) -> &'static str
    ensures { result.now ≡ spec.table_fault error }
{
    match error {
        TableError::Unknown => "fault relvar\n",
        TableError::NoAttributes => "fault csv\n",
        TableError::Broken => "fault broken\n",
        TableError::Raised(raise) => raised_line(raise),
        TableError::OutOfMemory => "fault memory\n",
    }
}
