//! What the extents say of the frames of td_frames.

ghost use Rattle.td_stream_bounds.specs.Laws.{EntriesAreFound, FrontsOfEntriesAreOpen, FrontsOfGreetingsAreOpen, GreetingsAreFound, NoGreetingFollows, NoStreamFollows};

/// A greeting that a site writes reaches to its end, whatever follows.
pub fn greetings_are_found()
    ensures { GreetingsAreFound }
{}

/// Of a greeting that a site writes each proper front is open.
pub fn fronts_of_greetings_are_open()
    ensures { FrontsOfGreetingsAreOpen }
{}

/// Bytes that never become a greeting are the front of none that is read.
pub fn no_greeting_follows()
    ensures { NoGreetingFollows }
{}

/// A stream of entries that a site writes reaches to its end, whatever follows.
pub fn entries_are_found()
    ensures { EntriesAreFound }
{}

/// Of a stream of entries that a site writes each proper front is open.
pub fn fronts_of_entries_are_open()
    ensures { FrontsOfEntriesAreOpen }
{}

/// Bytes that never become a stream are refused by its reader, whatever follows, for a field's value.
pub fn no_stream_follows()
    ensures { NoStreamFollows }
{}
