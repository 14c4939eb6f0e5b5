//! Lines of the console, which whoever started the program writes to its standard input.

ghost use Rattle.std.specs.Prelude.{◌≡◌, ◌≤◌};

use crate::desk::SiteDesk;
use std::io::{ErrorKind, Read};
use std::rt::Runtime;
use td_changes::Changes;
use td_replica::Catalogued;

/// The most bytes of a line.
const MOST_LINE_BYTES: usize = 1_024;

/// The most bytes that one read takes.
const MOST_READ_BYTES: usize = 1_024;

const UNKNOWN_WORDS: &str = "this is no line of the console: write stop, which ends the program";

const TOO_LONG_WORDS: &str =
    "a line of the console has at most 1,024 bytes: write stop, which ends the program";

/// What a line asks for.
#[derive(Clone, Copy)]
pub(crate) enum ConsoleLine {
    /// The program is to end.
    Stop,
    /// It is none of the lines that there are.
    Unknown,
    /// It is longer than a line may be.
    TooLong,
}

// What a whole line asks for; the blanks around its word do not count.
fn line_of(bytes: &[u8]) -> ConsoleLine {
    if bytes.trim_ascii() == b"stop".as_slice() {
        ConsoleLine::Stop
    } else {
        ConsoleLine::Unknown
    }
}

/// What has come of a line whose end has not.
#[derive(Drop)]
pub(crate) struct PartialLine {
    bytes: [u8; 1_024],
    count: usize,
    is_too_long: bool,
    ghost within: { count ≤ 1024 },
}

impl PartialLine {
    pub(crate) fn new() -> PartialLine {
        PartialLine {
            bytes: [0; 1_024],
            count: 0,
            is_too_long: false,
        }
    }

    // Ends the line, returns what it asks for, and begins the next one.
    fn end(&mut self) -> ConsoleLine {
        let line = if self.is_too_long {
            ConsoleLine::TooLong
        } else {
            line_of(&self.bytes[..self.count])
        };
        self.count = 0;
        self.is_too_long = false;
        line
    }

    /// Takes the next byte. The answer is the line that it ends, if it ends one.
    pub(crate) fn take(&mut self, byte: u8) -> Option<ConsoleLine> {
        if byte == b'\n' {
            return Some(self.end());
        }
        if self.count < MOST_LINE_BYTES {
            self.bytes[self.count] = byte;
            self.count += 1;
        } else {
            self.is_too_long = true;
        }
        None
    }
}

impl<R: Changes + Catalogued + Drop, H: Runtime + AllocGlobal> SiteDesk<'_, R, H> {
    // Does what a line asks for, or says which lines there are.
    fn obey(&mut self, line: ConsoleLine)
        ensures { R.seen self.new.site ≡ R.seen self.old.site }
    {
        match line {
            ConsoleLine::Stop => self.is_stopping = true,
            ConsoleLine::Unknown => self.report(UNKNOWN_WORDS),
            ConsoleLine::TooLong => self.report(TOO_LONG_WORDS),
        }
    }

    // Does what the lines that end in these bytes ask for; what comes after the last end waits for more.
    fn take_console(&mut self, bytes: &[u8])
        ensures { R.seen self.new.site ≡ R.seen self.old.site }
    {
        for byte in bytes {
            if let Some(line) = self.console.take(*byte) {
                self.obey(line);
            }
        }
    }

    /// Reads standard input once, and does what its whole lines ask for; returns whether more may come. What has no line
    /// end when the input ends is no line.
    pub(crate) fn read_console(&mut self) -> bool
        ensures { R.seen self.new.site ≡ R.seen self.old.site }
    {
        let mut bytes = [0; MOST_READ_BYTES];
        match self.host.reader().read(&mut bytes) {
            Ok(0) => false,
            Ok(count) => {
                self.take_console(&bytes[..count]);
                true
            }
            Err(error) if matches!(error.kind(), ErrorKind::WouldBlock | ErrorKind::Interrupted) =>
                true,
            Err(error) => {
                let _ = eprintln!(self.host;
                    "fault console: standard input cannot be read: {error}"
                );
                false
            }
        }
    }
}
