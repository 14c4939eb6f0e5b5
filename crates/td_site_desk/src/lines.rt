//! The lines that the program prints, each with its time.

ghost use Rattle.std.specs.Prelude.{◌≡◌};

use crate::desk::SiteDesk;
use std::alloc::AllocError;
use std::rt::Runtime;
use td_arrivals::seconds_now;
use td_changes::Changes;
use td_replica::Catalogued;

/// What a line is about, by which it is printed at once, counted or held back.
#[derive(Clone, Copy)]
pub(crate) enum LineKind {
    /// It is printed.
    News,
    /// It is printed, and while it repeats it is counted.
    Fault,
    /// A meeting with this peer that brought nothing: one such line is printed an hour.
    Quiet,
}

impl<R: Changes + Catalogued + Drop, H: Runtime + AllocGlobal> SiteDesk<'_, R, H> {
    // Prints lines; a text whose lines had no memory is printed without its time. Nothing depends on whether that is seen.
    fn print_lines(&self, lines: Result<String, AllocError>, text: &str) {
        match lines {
            Ok(lines) => {
                let _ = print!(self.host; "{}", lines.as_str());
            }
            Err(_) => {
                let _ = println!(self.host; "{text}");
            }
        }
    }

    /// Prints a line about a peer, or one about none.
    pub(crate) fn report_line(&mut self, kind: LineKind, peer: &str, text: &str)
        ensures { R.seen self.new.site ≡ R.seen self.old.site }
    {
        let seconds = seconds_now(self.host).unwrap_or(0);
        let lines = match kind {
            LineKind::News => self.lines.line(seconds, text),
            LineKind::Fault => self.lines.fault(seconds, text),
            LineKind::Quiet => self.lines.quiet_meeting(seconds, peer, text),
        };
        self.print_lines(lines, text);
    }

    /// Prints a line.
    pub fn report(&mut self, text: &str)
        ensures { R.seen self.new.site ≡ R.seen self.old.site }
    {
        self.report_line(LineKind::News, "", text)
    }

    /// Prints a fault, or counts it if the same one was printed less than an hour ago.
    pub fn report_fault(&mut self, text: &str)
        ensures { R.seen self.new.site ≡ R.seen self.old.site }
    {
        self.report_line(LineKind::Fault, "", text)
    }
    /// Writes what is kept of meetings to its file, and prints how often faults were held back: the program ends.
    pub fn close(&mut self) {
        self.save_contacts();
        let seconds = seconds_now(self.host).unwrap_or(0);
        if let Ok(lines) = self.lines.finish(seconds) {
            let _ = print!(self.host; "{}", lines.as_str());
        }
    }
}
