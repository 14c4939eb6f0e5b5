//! Laws over the definitions alone.
ghost use Rattle.td_io.specs.Laws.{CrLfIsCut, LfIsCut, NothingElseIsCut, RestIsLast, WholeLineIsFirst};

/// What a reader of lines reads, one after the other, are the lines of all bytes that it consumes.
pub fn lines_come_in_turn()
    ensures first { WholeLineIsFirst }
    ensures last { RestIsLast }
{}

/// The content of a line is the line without its line end.
pub fn content_lacks_line_end()
    ensures crlf { CrLfIsCut }
    ensures lf { LfIsCut }
    ensures none { NothingElseIsCut }
{}
