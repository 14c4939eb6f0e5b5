//! Laws of the frames alone.

ghost use Rattle.td_frames.specs.Laws.{FrameIsReadAgain, FrameWasSpelled, GreetingIsReadAgain, GreetingWasSpelled, StreamIsReadAgain};

/// A frame that is written is read, whatever follows.
pub fn frame_is_read_again()
    ensures { FrameIsReadAgain }
{}

/// What is read as the frame of an entry was written so: an entry has one spelling.
pub fn frame_was_spelled()
    ensures { FrameWasSpelled }
{}

/// A greeting that is written is read, whatever follows.
pub fn greeting_is_read_again()
    ensures { GreetingIsReadAgain }
{}

/// What is read as a greeting was written so: a greeting has one spelling.
pub fn greeting_was_spelled()
    ensures { GreetingWasSpelled }
{}

/// A stream of entries that is written is read, whatever follows.
pub fn stream_is_read_again()
    ensures { StreamIsReadAgain }
{}
