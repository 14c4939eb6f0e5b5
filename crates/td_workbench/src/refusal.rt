//! What is told of a script that opens no sites.

ghost use Rattle.std.specs.Prelude.{◌≡◌, ◌++◌, codes, IfOk, string_bytes};
ghost use Rattle.td_io.specs.Views.{output_of};
ghost use Rattle.td_workbench.specs.ForProofs.Opening.{TellsMade, TellsRefusal};
ghost use Rattle.td_workbench.specs.Scripts.{script_fault};
ghost use Rattle.td_semantics.specs.declared.error.ScriptError.TheVariants as open_error;

use crate::run::Ended;
use crate::writing::put_fault;
use std::alloc::{AllocError, Global};
use td_io::Sink;
use td_listings::show_raise;
use td_semantics::{BrokenTest, ScriptError};
use td_values::{Name, Raise};

// The line of a script whose opening raises an error.
fn raised_text(alloc: Global, raise: Raise) -> Result<String, AllocError>
    ensures { IfOk result (λ text. string_bytes text ≡ script_fault (open_error.OpeningRaised raise)) }
{
    let mut out = String::new(alloc);
    out.push_str("fault script raised ")?;
    show_raise(&mut out, raise)?;
    out.push_str("\n")?;
    Ok(out)
}

// The line of these words and, behind them, the name.
fn named_text(alloc: Global, words: &str, name: &Name) -> Result<String, AllocError>
    ensures { IfOk result (λ text. string_bytes text ≡ words.now ++ name.now ++ codes "\n") }
{
    let mut out = String::new(alloc);
    out.push_str(words)?;
    out.push_str(name.as_str())?;
    out.push_str("\n")?;
    Ok(out)
}

// The line of a script whose opening breaks a key or a constraint.
fn broken_text(alloc: Global, broken: &BrokenTest) -> Result<String, AllocError>
    ensures { IfOk result (λ text. string_bytes text ≡ script_fault (open_error.OpeningBroken broken.now)) }
{
    match broken {
        BrokenTest::Key(relvar) => named_text(alloc, "fault script broken key ", relvar),
        BrokenTest::Constraint(name) => named_text(alloc, "fault script broken constraint ", name),
    }
}

// Writes the text, or that there was no memory for it.
fn put_made<K: Sink>(sink: &mut K, text: Result<String, AllocError>) -> Result<bool, Ended>
    ensures { TellsMade text result (output_of K.Sink sink.old) (output_of K.Sink sink.new) }
{
    match text {
        Ok(text) => put_fault(sink, text.as_bytes()),
        Err(_) => put_fault(sink, b"fault script memory\n".as_slice()),
    }
}

/// Writes why a script is refused.
pub fn refuse<K: Sink>(alloc: Global, e: ScriptError, sink: &mut K) -> Result<bool, Ended>
    ensures { TellsRefusal e result (output_of K.Sink sink.old) (output_of K.Sink sink.new) }
{
    match e {
        ScriptError::Syntax => put_fault(sink, b"fault script syntax\n".as_slice()),
        ScriptError::IllTyped => put_fault(sink, b"fault script type\n".as_slice()),
        ScriptError::OpeningRaised(raise) => put_made(sink, raised_text(alloc, raise)),
        ScriptError::OpeningBroken(broken) => put_made(sink, broken_text(alloc, &broken)),
        ScriptError::OutOfMemory => put_fault(sink, b"fault script memory\n".as_slice()),
    }
}
