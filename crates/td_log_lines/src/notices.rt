//! Texts that were printed, and are held back when they come again.

ghost use Rattle.std.specs.Prelude.{◌≡◌, ◌≤◌, ◌<◌, ◌++◌, ◌∷◌, [], true, false, length, IfOk, IfSome, OnErr, string_bytes};
ghost use Rattle.std.specs.List.{list_any, position_from};
ghost use Rattle.td_log_lines.specs.Notices.{Count, has_ended, holds_back, is_counted, hold, held_once_more, noted, line_text, count_text, lines_text, counts, kept_texts, printed};

use std::alloc::{AllocError, Global};
use std::fmt::Write;
use std::marker::Model;

/// The most texts that are held back at a time. Beside 64 of them, another one is printed each time that it comes.
const MOST_NOTICES: usize = 64;

/// For how many seconds a text that was printed is held back.
const HOLD_SECONDS: u64 = 3_600;

/// How often a text is held back at most.
const MOST_HELD: u64 = 1_000_000;

/// A text that was printed, and how often it came since then and was held back.
#[derive(Drop)]
pub(crate) struct Notice {
    text: String,
    /// The time of its line.
    since: String,
    /// The same in seconds since 1970.
    second: u64,
    held: u64,
}

impl Model for Notice {
    ghost use Rattle.std.specs.Prelude.{string_bytes};
    ghost use Rattle.td_log_lines.specs.Notices.{PrintedText};

    ghost Value = { PrintedText };

    ghost view = { λ n. record {
      text = string_bytes n.text;
      since = string_bytes n.since;
      second = n.second;
      held = n.held;
    } };
}

// Appends the line that says how often a text was held back since a time.
fn push_count(
    out: &mut String,
    time: &str,
    held: u64,
    since: &str,
    text: &str,
) -> Result<(), AllocError>
    ensures { IfOk result (λ _. string_bytes out.new
        ≡ string_bytes out.old ++ count_text time.now held since.now text.now) }
{
    writeln!(out, "{time} {held} more since {since}: {text}")
}

impl Notice {
    // Whether its text is held back no longer.
    fn has_ended(&self, now: u64) -> bool
        ensures { result ≡ has_ended now self.now }
    {
        now < self.second || now - self.second >= HOLD_SECONDS || self.held >= MOST_HELD
    }

    // Whether this text is held back, since it is the one that was printed.
    fn holds_back(&self, now: u64, text: &str) -> bool
        ensures { result ≡ holds_back now text.now self.now }
    {
        self.text.as_str() == text && !self.has_ended(now)
    }

    // Notes that its text came once more and is held back.
    fn hold(&mut self)
        requires { self.old.held < 1_000_000 }
        ensures { self.new ≡ held_once_more self.old }
    {
        self.held += 1;
    }

    // Whether a line says how often it was held back.
    fn is_counted(&self, now: u64, is_last: bool) -> bool
        ensures { result ≡ is_counted is_last now self.now }
    {
        self.held > 0 && (is_last || self.has_ended(now))
    }

    // Appends the line that says how often it was held back.
    fn push_count(&self, out: &mut String, time: &str) -> Result<(), AllocError>
        ensures { IfOk result (λ _. string_bytes out.new
            ≡ string_bytes out.old ++ line_text time.now (Count self.now)) }
    {
        push_count(
            out,
            time,
            self.held,
            self.since.as_str(),
            self.text.as_str(),
        )
    }
}

/// Whether this text is held back.
pub(crate) fn is_held(notices: &[Notice], now: u64, text: &str) -> bool
    ensures { result ≡ list_any (holds_back now text.now) notices.now }
{
    notices.iter().any(|it| it.holds_back(now, text))
}

// The index of the one that holds this text back, if there is one.
fn holding_index(notices: &Vec<Notice>, now: u64, text: &str) -> Option<usize>
    ensures found { result ≡ position_from (holds_back now text.now) 0 notices.now.items }
    ensures within { IfSome result (λ at. at < length notices.now.items) }
{
    notices.iter().position(|it| it.holds_back(now, text))
}

/// Counts this text if it is held back; returns whether it is.
pub(crate) fn hold_back(notices: &mut Vec<Notice>, now: u64, text: &str) -> bool
    ensures held { result ≡ list_any (holds_back now text.now) notices.old.items }
    ensures counted { result ≡ true →
        notices.new.items ≡ hold (holds_back now text.now) notices.old.items }
    ensures unchanged { result ≡ false → notices.new.items ≡ notices.old.items }
    ensures few { length notices.new.items ≡ length notices.old.items }
{
    match holding_index(notices, now, text) {
        Some(at) => {
            notices[at].hold();
            true
        }
        None => false,
    }
}

/// Appends the lines that say how often texts were held back, of those that are held back no longer, or of all.
pub(crate) fn push_counts(
    notices: &[Notice],
    now: u64,
    is_last: bool,
    out: &mut String,
    time: &str,
) -> Result<(), AllocError>
    ensures { IfOk result (λ _. string_bytes out.new
        ≡ string_bytes out.old ++ lines_text time.now (counts is_last now notices.now)) }
{
    for at in 0..notices.len() {
        if notices[at].is_counted(now, is_last) {
            notices[at].push_count(out, time)?;
        }
    }
    Ok(())
}

/// Takes note that a text is printed at this time, if there is room.
pub(crate) fn note(
    notices: &mut Vec<Notice>,
    alloc: Global,
    text: &str,
    time: String,
    now: u64,
) -> Result<(), AllocError>
    ensures noted { IfOk result (λ _. notices.new.items
        ≡ noted (printed now (string_bytes time) text.now) notices.old.items) }
    ensures unchanged { OnErr result (notices.new.items ≡ notices.old.items) }
    ensures few { length notices.old.items ≤ 64 → length notices.new.items ≤ 64 }
{
    if notices.len() >= MOST_NOTICES {
        return Ok(());
    }
    let text = String::from_str(alloc, text)?;
    notices.push(Notice {
        text,
        since: time,
        second: now,
        held: 0,
    })?;
    Ok(())
}

/// Keeps those that are still held back.
pub(crate) fn keep(notices: &mut Vec<Notice>, now: u64)
    ensures kept { notices.new.items ≡ kept_texts now notices.old.items }
    ensures few { length notices.old.items ≤ 64 → length notices.new.items ≤ 64 }
{
    notices.retain(|it| !it.has_ended(now));
}
