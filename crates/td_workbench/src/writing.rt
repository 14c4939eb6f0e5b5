//! Texts written whole.

ghost use Rattle.td_io.specs.Views.{output_of};
ghost use Rattle.td_workbench.specs.ForProofs.Opening.{PutsFault};
ghost use Rattle.td_workbench.specs.ForProofs.Serving.{WritesOn};

use crate::run::Ended;
use td_io::{Failed, Sink, put, write_all};

/// Writes a text. The answer says that the run goes on.
pub fn write_text<K: Sink>(sink: &mut K, text: &[u8]) -> Result<bool, Failed>
    ensures { WritesOn text.now result (output_of K.Sink sink.old) (output_of K.Sink sink.new) }
{
    match write_all(sink, text) {
        Ok(()) => Ok(false),
        Err(e) => Err(e),
    }
}

/// Writes what is told of a script that opens no sites, and flushes.
pub fn put_fault<K: Sink>(sink: &mut K, text: &[u8]) -> Result<bool, Ended>
    ensures { PutsFault text.now result (output_of K.Sink sink.old) (output_of K.Sink sink.new) }
{
    match put(sink, text) {
        Ok(()) => Ok(false),
        Err(_) => Err(Ended::WriteFault),
    }
}
