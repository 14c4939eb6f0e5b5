//! Lines written into room that was taken before: what a site has done is told without want of memory.

ghost use Rattle.std.specs.Prelude.{◌≡◌, ◌≤◌, ◌+◌, ◌++◌, codes, decimal, length, IfSome, string_bytes, string_capacity, string_len};
ghost use Rattle.td_listings.specs.Texts as shown;
ghost use Rattle.td_answers.specs.Answers as answers;
ghost use Rattle.td_answers.specs.Faults as faults;
ghost use Rattle.td_answers.specs.Linked as linked;
ghost use Rattle.td_answers.specs.ForProofs.Said.{IsBlank};
ghost use Rattle.td_semantics.specs.declared.outcome.Outcome.TheVariants as became;

use itoa::Buffer;
use std::alloc::Global;
use td_meeting::Met;
use td_replica::Issued;
use td_semantics::Outcome;
use td_stamps::Stamp;
use td_values::{Name, Raise};

// The longest line is that of a statement that is refused: 20 digits and 20 of its stamp, and a name of 64 bytes.
const LINE_BYTES: usize = 160;

/// An empty text with room for a line.
pub(crate) fn blank_line(alloc: Global) -> Option<String>
    ensures { IfSome result IsBlank }
{
    String::with_capacity(alloc, LINE_BYTES).ok()
}

// Appends the words into the room that is left.
fn put(line: &mut String, words: &str)
    requires { string_len line.old + length words.now ≤ string_capacity line.old }
    ensures bytes { string_bytes line.new ≡ string_bytes line.old ++ words.now }
    ensures len { string_len line.new ≡ string_len line.old + length words.now }
    ensures capacity { string_capacity line.old ≤ string_capacity line.new }
{
    line.push_str(words).unwrap()
}

// Appends the number, of at most 20 digits.
fn put_number(line: &mut String, n: u64)
    requires { string_len line.old + 20 ≤ string_capacity line.old }
    ensures bytes { string_bytes line.new ≡ string_bytes line.old ++ decimal n }
    ensures len { string_len line.new ≤ string_len line.old + 20 }
    ensures capacity { string_capacity line.old ≤ string_capacity line.new }
{
    let mut buffer = Buffer::new();
    put(line, buffer.format(n));
}

// Appends the stamp: its clock, a dot and its site.
fn put_stamp(line: &mut String, stamp: &Stamp)
    requires { string_len line.old + 41 ≤ string_capacity line.old }
    ensures bytes { string_bytes line.new ≡ string_bytes line.old ++ shown.shown_stamp stamp.now }
    ensures len { string_len line.new ≤ string_len line.old + 41 }
    ensures capacity { string_capacity line.old ≤ string_capacity line.new }
{
    put_number(line, stamp.clock);
    put(line, ".");
    put_number(line, u64::from(stamp.site));
}

// The word for an error.
fn raise_words(raise: Raise) -> &'static str
    ensures { result.now ≡ shown.shown_raise raise }
{
    match raise {
        Raise::Overflow => "overflow",
        Raise::Divide => "divide",
        Raise::Empty => "empty",
        Raise::Selector => "selector",
        Raise::Cardinality => "cardinality",
    }
}

// Appends that a statement is refused for the error that it raised.
fn put_raised(line: &mut String, raise: Raise)
    requires { string_len line.old + 30 ≤ string_capacity line.old }
    ensures bytes { string_bytes line.new ≡ string_bytes line.old ++ shown.shown_outcome (became.Raised raise) }
    ensures len { string_len line.new ≤ string_len line.old + 30 }
    ensures capacity { string_capacity line.old ≤ string_capacity line.new }
{
    put(line, "refused raised ");
    put(line, raise_words(raise));
}

// Appends the name, of at most 64 bytes.
fn put_name(line: &mut String, name: &Name)
    requires { string_len line.old + 64 ≤ string_capacity line.old }
    ensures bytes { string_bytes line.new ≡ string_bytes line.old ++ name.now }
    ensures len { string_len line.new ≤ string_len line.old + 64 }
    ensures capacity { string_capacity line.old ≤ string_capacity line.new }
{
    put(line, name.as_str());
}

// Appends the words, and behind them the name of what is broken.
fn put_broken(line: &mut String, words: &str, name: &Name)
    requires short { length words.now ≤ 26 }
    requires room { string_len line.old + 90 ≤ string_capacity line.old }
    ensures bytes { string_bytes line.new ≡ string_bytes line.old ++ (words.now ++ name.now) }
    ensures len { string_len line.new ≤ string_len line.old + 90 }
    ensures capacity { string_capacity line.old ≤ string_capacity line.new }
{
    put(line, words);
    put_name(line, name);
}

// Appends what became of a statement.
fn put_outcome(line: &mut String, outcome: &Outcome)
    requires { string_len line.old + 90 ≤ string_capacity line.old }
    ensures bytes { string_bytes line.new ≡ string_bytes line.old ++ shown.shown_outcome outcome.now }
    ensures len { string_len line.new ≤ string_len line.old + 90 }
    ensures capacity { string_capacity line.old ≤ string_capacity line.new }
{
    match outcome {
        Outcome::Done => put(line, "done"),
        Outcome::Unread => put(line, "refused unread"),
        Outcome::Raised(raise) => put_raised(line, *raise),
        Outcome::BreaksKey(relvar) => put_broken(line, "refused breaks key ", relvar),
        Outcome::BreaksConstraint(name) => put_broken(line, "refused breaks constraint ", name),
    }
}

/// The line of a statement that was issued.
pub(crate) fn issued_line(mut line: String, issued: &Issued) -> String
    requires { IsBlank line }
    ensures { string_bytes result ≡ answers.issued_line issued.now }
{
    put_stamp(&mut line, &issued.stamp);
    put(&mut line, " ");
    put_outcome(&mut line, &issued.outcome);
    put(&mut line, "\n");
    line
}

/// The line of a clash.
pub(crate) fn clash_line(mut line: String, site: u16, seq: u32) -> String
    requires { IsBlank line }
    ensures { string_bytes result ≡ faults.clash_line site seq }
{
    put(&mut line, "fault clash ");
    put_number(&mut line, u64::from(site));
    put(&mut line, " ");
    put_number(&mut line, u64::from(seq));
    put(&mut line, "\n");
    line
}

/// The line of a fault before which so many fresh entries were taken.
pub(crate) fn counted_line(mut line: String, what: &str, taken: usize) -> String
    requires blank { IsBlank line }
    requires short { length what.now ≤ 5 }
    ensures { string_bytes result ≡ faults.counted_line what.now taken }
{
    put(&mut line, "fault ");
    put(&mut line, what);
    put(&mut line, " ");
    put_number(&mut line, taken as u64);
    put(&mut line, "\n");
    line
}

// The front of the line of a meeting.
fn put_met(line: &mut String, first: u32, second: u32)
    requires { string_len line.old + 52 ≤ string_capacity line.old }
    ensures bytes { string_bytes line.new ≡ string_bytes line.old ++ (codes "met " ++ decimal first ++ codes " " ++ decimal second ++ codes " fresh ") }
    ensures len { string_len line.new ≤ string_len line.old + 52 }
    ensures capacity { string_capacity line.old ≤ string_capacity line.new }
{
    put(line, "met ");
    put_number(line, u64::from(first));
    put(line, " ");
    put_number(line, u64::from(second));
    put(line, " fresh ");
}

/// The line of a meeting of two sites, by their numbers and how many entries were fresh to each.
pub(crate) fn met_line(mut line: String, numbers: (u32, u32), met: Met) -> String
    requires { IsBlank line }
    ensures { string_bytes result ≡ answers.met_line numbers.0 numbers.1 met }
{
    put_met(&mut line, numbers.0, numbers.1);
    put_number(&mut line, met.fresh_a as u64);
    put(&mut line, " ");
    put_number(&mut line, met.fresh_b as u64);
    put(&mut line, "\n");
    line
}

/// The line of a meeting over a link: what the site did, its number, and how many entries were fresh to it.
pub(crate) fn linked_line(mut line: String, done: &str, number: u32, fresh: usize) -> String
    requires blank { IsBlank line }
    requires short { length done.now ≤ 6 }
    ensures { string_bytes result ≡ linked.linked_line done.now number fresh }
{
    put(&mut line, done);
    put(&mut line, " ");
    put_number(&mut line, u64::from(number));
    put(&mut line, " fresh ");
    put_number(&mut line, fresh as u64);
    put(&mut line, "\n");
    line
}
