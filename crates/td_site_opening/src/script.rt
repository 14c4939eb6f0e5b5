//! A script, read from a file.

use std::alloc::{AllocError, Global};
use std::rt::Files;
use std::str;
use td_paths::{Unreadable, read_plain};
use td_replica::SCRIPT_BYTES;
use td_shell_input::script_front;

/// A script, and the lines after its `.begin`.
#[derive(Drop)]
pub struct ScriptFile {
    pub text: String,
    pub after: Vec<u8>,
}

/// Why a file is no script.
#[derive(Clone, Copy, Debug, PartialEq, Eq)]
pub enum NoScript {
    Unreadable(Unreadable),
    OutOfMemory,
    NoUtf8,
    TooLong,
}

impl From<AllocError> for NoScript {
    fn from(_e: AllocError) -> NoScript {
        NoScript::OutOfMemory
    }
}

// The bytes as a script. Its last line has an end, as where a line `.begin` follows it, so that all programs read one
// script.
fn text_of(alloc: Global, bytes: &[u8]) -> Result<String, NoScript> {
    let Ok(bytes) = str::from_utf8(bytes) else {
        return Err(NoScript::NoUtf8);
    };
    let mut text = String::from_str(alloc, bytes)?;
    if !bytes.is_empty() && !bytes.ends_with('\n') {
        text.push_str("\n")?;
    }
    if text.len() > SCRIPT_BYTES {
        return Err(NoScript::TooLong);
    }
    Ok(text)
}

// The script that a file has: what comes before a line `.begin`, or all of it.
fn script_in(alloc: Global, file: &[u8]) -> Result<ScriptFile, NoScript> {
    let (script, after) = script_front(file);
    let after = Vec::from_slice(alloc, after)?;
    match text_of(alloc, script) {
        Ok(text) => Ok(ScriptFile { text, after }),
        Err(error) => Err(error),
    }
}

/// The script in the file of this name: what comes before a line `.begin`, or all of it.
pub fn read_script<H: Files + AllocGlobal>(
    alloc: Global,
    host: &H,
    name: &str,
) -> Result<ScriptFile, NoScript> {
    match read_plain(host, name) {
        Ok(file) => script_in(alloc, &file),
        Err(error) => Err(NoScript::Unreadable(error)),
    }
}
