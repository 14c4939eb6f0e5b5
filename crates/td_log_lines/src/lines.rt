//! The lines of a log.

ghost use Rattle.std.specs.Prelude.{◌≡◌, ◌≤◌, ◌++◌, ◌∷◌, [], true, false, length, IfOk, OnErr, string_bytes};
ghost use Rattle.std.specs.List.{list_any};
ghost use Rattle.td_log_lines.specs.Notices.{Ordinary, Fault, holds_back, hold, noted, kept_texts, printed, lines_text, counts, IsHeld, PrintsLines};

use crate::notices::{Notice, hold_back, is_held, keep, note, push_counts};
use crate::time::time_text;
use std::alloc::{AllocError, Global};
use std::fmt::Write;
use std::marker::Model;

/// The texts that were printed and are held back, at most 64.
#[derive(Drop)]
pub struct LogLines {
    alloc: Global,
    notices: Vec<Notice>,
}

impl Model for LogLines {
    ghost use Rattle.std.specs.Prelude.{◌≤◌, List, length};
    ghost use Rattle.td_log_lines.specs.Notices.{PrintedText};

    ghost Value = { List PrintedText };

    ghost view = { λ l. l.notices.items };

    ghost invariant = { λ l. length l.notices.items ≤ 64 };
}

// The lines that say how often texts were held back that no longer are, and the line of a text.
fn lines_of(
    alloc: Global,
    notices: &[Notice],
    now: u64,
    time: &str,
    text: &str,
) -> Result<String, AllocError>
    ensures { IfOk result (λ it. string_bytes it
        ≡ lines_text time.now (counts false now notices.now ++ Ordinary text.now ∷ [])) }
{
    let mut lines = String::new(alloc);
    push_counts(notices, now, false, &mut lines, time)?;
    writeln!(&mut lines, "{time} {text}")?;
    Ok(lines)
}

impl LogLines {
    /// Lines of which none was printed yet.
    pub fn new(alloc: Global) -> LogLines
        ensures { result ≡ [] }
    {
        LogLines {
            alloc,
            notices: Vec::new(alloc),
        }
    }

    /// The lines of an ordinary text, which is never held back. Each call takes the time in seconds since 1970 and a text
    /// without a line end, and each returned line has a line end. After an error nothing changed.
    pub fn line(&mut self, seconds: u64, text: &str) -> Result<String, AllocError>
        ensures printed { IfOk result (λ it. PrintsLines seconds (string_bytes it)
            (λ time. counts false seconds self.old ++ Ordinary text.now ∷ [])
            (λ time. kept_texts seconds self.old) self.new) }
        ensures unchanged { OnErr result (self.new ≡ self.old) }
    {
        let time = time_text(self.alloc, seconds)?;
        let lines = lines_of(self.alloc, &self.notices, seconds, time.as_str(), text)?;
        keep(&mut self.notices, seconds);
        Ok(lines)
    }

    // The lines of a text that is not held back now, but is from now on.
    fn print(&mut self, seconds: u64, key: &str, text: &str) -> Result<String, AllocError>
        ensures printed { IfOk result (λ it. PrintsLines seconds (string_bytes it)
            (λ time. counts false seconds self.old ++ Ordinary text.now ∷ [])
            (λ time. kept_texts seconds (noted (printed seconds time key.now) self.old)) self.new) }
        ensures unchanged { OnErr result (self.new ≡ self.old) }
    {
        let time = time_text(self.alloc, seconds)?;
        let lines = lines_of(self.alloc, &self.notices, seconds, time.as_str(), text)?;
        note(&mut self.notices, self.alloc, key, time, seconds)?;
        keep(&mut self.notices, seconds);
        Ok(lines)
    }

    /// The lines of a fault. If it was printed less than an hour ago, it is held back and counted.
    pub fn fault(&mut self, seconds: u64, text: &str) -> Result<String, AllocError>
        ensures held { IsHeld seconds text.now self.old → IfOk result (λ it.
            (string_bytes it ≡ []) × (self.new ≡ hold (holds_back seconds text.now) self.old)) }
        ensures printed { ¬ (IsHeld seconds text.now self.old) → IfOk result (λ it.
            PrintsLines seconds (string_bytes it)
            (λ time. counts false seconds self.old ++ Fault text.now ∷ [])
            (λ time. kept_texts seconds (noted (printed seconds time text.now) self.old)) self.new) }
        ensures unchanged { OnErr result (self.new ≡ self.old) }
    {
        if hold_back(&mut self.notices, seconds, text) {
            return Ok(String::new(self.alloc));
        }
        self.print(seconds, text, text)
    }

    /// The lines of a meeting in which nothing was received. If one with this peer was printed less than an hour ago, it
    /// is held back, and not counted.
    pub fn quiet_meeting(
        &mut self,
        seconds: u64,
        peer: &str,
        text: &str,
    ) -> Result<String, AllocError>
        ensures held { IsHeld seconds peer.now self.old → IfOk result (λ it.
            (string_bytes it ≡ []) × (self.new ≡ self.old)) }
        ensures printed { ¬ (IsHeld seconds peer.now self.old) → IfOk result (λ it.
            PrintsLines seconds (string_bytes it)
            (λ time. counts false seconds self.old ++ Ordinary text.now ∷ [])
            (λ time. kept_texts seconds (noted (printed seconds time peer.now) self.old)) self.new) }
        ensures unchanged { OnErr result (self.new ≡ self.old) }
    {
        if is_held(&self.notices, seconds, peer) {
            return Ok(String::new(self.alloc));
        }
        self.print(seconds, peer, text)
    }

    /// The lines that say how often each text was held back, which a program prints when it ends.
    pub fn finish(&mut self, seconds: u64) -> Result<String, AllocError>
        ensures printed { IfOk result (λ it. PrintsLines seconds (string_bytes it)
            (λ time. counts true seconds self.old) (λ time. []) self.new) }
        ensures unchanged { OnErr result (self.new ≡ self.old) }
    {
        let time = time_text(self.alloc, seconds)?;
        let mut lines = String::new(self.alloc);
        push_counts(&self.notices, seconds, true, &mut lines, time.as_str())?;
        self.notices.clear();
        Ok(lines)
    }
}
