//! Numbers, stamps, errors and outcomes as texts.

ghost use Rattle.std.specs.Prelude.{◌≡◌, ◌++◌, OnOk, decimal, string_bytes};
ghost use Rattle.td_listings.specs.ForProofs.Asked.{reason_words};
ghost use Rattle.td_listings.specs.Texts as spec;

use itoa::Buffer;
use std::alloc::AllocError;
use td_semantics::Outcome;
use td_stamps::Stamp;
use td_values::{Name, Raise};

/// Appends a number.
pub fn show_number(out: &mut String, n: u64) -> Result<(), AllocError>
    ensures { OnOk result (string_bytes out.new ≡ string_bytes out.old ++ decimal n) }
{
    let mut buffer = Buffer::new();
    out.push_str(buffer.format(n))
}

/// Appends a stamp. After an error a part of it may stand in the text.
pub fn show_stamp(out: &mut String, stamp: &Stamp) -> Result<(), AllocError>
    ensures { OnOk result (string_bytes out.new ≡ string_bytes out.old ++ spec.shown_stamp stamp.now) }
{
    show_number(out, stamp.clock)?;
    out.push_str(".")?;
    show_number(out, u64::from(stamp.site))
}

/// Appends the word for an error.
pub fn show_raise(out: &mut String, raise: Raise) -> Result<(), AllocError>
    ensures { OnOk result (string_bytes out.new ≡ string_bytes out.old ++ spec.shown_raise raise) }
{
    match raise {
        Raise::Overflow => out.push_str("overflow"),
        Raise::Divide => out.push_str("divide"),
        Raise::Empty => out.push_str("empty"),
        Raise::Selector => out.push_str("selector"),
        Raise::Cardinality => out.push_str("cardinality"),
    }
}

// Appends the words, and behind them the name.
fn show_named(out: &mut String, words: &str, name: &Name) -> Result<(), AllocError>
    ensures { OnOk result (string_bytes out.new ≡ string_bytes out.old ++ (words.now ++ name.now)) }
{
    out.push_str(words)?;
    out.push_str(name.as_str())?;
    Ok(())
}

/// Appends why a statement was refused; nothing of one that was done.
pub(crate) fn show_reason(out: &mut String, outcome: &Outcome) -> Result<(), AllocError>
    ensures { OnOk result (string_bytes out.new ≡ string_bytes out.old ++ reason_words outcome.now) }
{
    match outcome {
        Outcome::Done => Ok(()),
        Outcome::Unread => out.push_str("unread"),
        Outcome::Raised(raise) => {
            out.push_str("raised ")?;
            show_raise(out, *raise)
        }
        Outcome::BreaksKey(relvar) => show_named(out, "breaks key ", relvar),
        Outcome::BreaksConstraint(constraint) => show_named(out, "breaks constraint ", constraint),
    }
}

/// Appends what became of a statement. After an error a part of it may stand in the text.
pub fn show_outcome(out: &mut String, outcome: &Outcome) -> Result<(), AllocError>
    ensures { OnOk result (string_bytes out.new ≡ string_bytes out.old ++ spec.shown_outcome outcome.now) }
{
    match outcome {
        Outcome::Done => out.push_str("done"),
        _ => {
            out.push_str("refused ")?;
            show_reason(out, outcome)
        }
    }
}
