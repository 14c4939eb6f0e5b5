//! The script, read up to the line that ends it.

ghost use Rattle.std.specs.Prelude.{◌≡◌, ◌≤◌, ◌++◌, List, ℕ, IfOk, option_map};
ghost use Rattle.td_workbench.specs.ForProofs.Reading.{IsKeptScript, ScriptRead, unready_by};
ghost use Rattle.td_workbench.specs.Scripts as spec;
ghost use Rattle.td_io.specs.Lines.{IsKept};
ghost use Rattle.td_io.specs.Views.{input_of};

use std::alloc::{AllocError, Global};
use td_io::{LineError, RawLine, Source, content, read_line};
use td_replica::SCRIPT_BYTES;
use thiserror::Error;

/// The lines before `.begin`.
#[derive(Drop)]
pub struct Script {
    /// Their bytes, or `None` where these are too many.
    pub bytes: Option<Vec<u8>>,
    /// Whether the input ended behind `.begin`.
    pub is_last: bool,
}

/// Why no script was read.
#[derive(Clone, Copy, Debug, Drop, PartialEq, Eq, Error)]
pub enum Unready {
    #[error("the input has no line .begin")]
    End,
    #[error("out of memory")]
    OutOfMemory,
    #[error("the reader failed")]
    ReadFault,
}

// Why there is no script where a line of it is not read: that no reads are left counts as a read fault.
fn unread(e: LineError) -> Unready
    ensures { result ≡ unready_by e }
{
    match e {
        LineError::OutOfMemory => Unready::OutOfMemory,
        LineError::ReadFault | LineError::NoReadsLeft => Unready::ReadFault,
    }
}

// Whether the line ends the script; one that was too long to be kept does not.
fn is_begin(line: &RawLine) -> bool
    ensures { (raw : List ℕ) → IsKept 65536 raw (option_map (λ v. v.items) line.now.bytes) → result ≡ spec.is_begin raw }
{
    match &line.bytes {
        Some(bytes) => content(bytes) == b".begin".as_slice(),
        None => false,
    }
}

// What is kept of the script with a line more: nothing of one that is too long.
fn longer(script: Option<Vec<u8>>, line: Option<Vec<u8>>) -> Result<Option<Vec<u8>>, AllocError>
    ensures { (text raw : List ℕ) → IsKeptScript text (option_map (λ v. v.items) script) → IsKept 65536 raw (option_map (λ v. v.items) line)
        → IfOk result (λ s. IsKeptScript (text ++ raw) (option_map (λ v. v.items) s)) }
{
    let Some(mut script) = script else {
        return Ok(None);
    };
    let Some(line) = line else {
        return Ok(None);
    };
    if script.len().saturating_add(line.len()) > SCRIPT_BYTES {
        return Ok(None);
    }
    script.extend_from_slice(&line)?;
    Ok(Some(script))
}

/// Reads the script by at most so many reads, from which those made are taken off. At most 65,536 bytes of it are kept.
pub fn read_script<S: Source>(
    alloc: Global,
    source: &mut S,
    reads: &mut u64,
) -> Result<Script, Unready>
    ensures { ScriptRead reads.old reads.new (input_of S.Source source.old) (input_of S.Source source.new) result }
{
    let mut script = Some(Vec::new(alloc));
    while *reads > 0 {
        let line = match read_line(alloc, source, reads, SCRIPT_BYTES) {
            Ok(line) => line,
            Err(e) => return Err(unread(e)),
        };
        if is_begin(&line) {
            return Ok(Script {
                bytes: script,
                is_last: line.is_last,
            });
        }
        if line.is_last {
            return Err(Unready::End);
        }
        match longer(script, line.bytes) {
            Ok(more) => script = more,
            Err(_) => return Err(Unready::OutOfMemory),
        }
    }
    Err(Unready::ReadFault)
}
