//! A token more.

ghost use Rattle.std.specs.Prelude.{◌≡◌, ◌++◌, IfOk, OnOk, string_bytes};
ghost use Rattle.td_client_tokens.specs.Lines.{spelled};
ghost use Rattle.td_client_tokens.specs.Tokens.{shown};
ghost use Rattle.td_token_files.specs.Additions as spec;
ghost use Rattle.td_token_files.specs.Additions.{gap, HasTokens};

use crate::error::{AddTokenError, TokenFileError};
use crate::file::make_file;
use crate::look::{Look, look_at};
use std::alloc::{AllocError, Global};
use std::fs::{OpenFile, OpenOptions};
use std::io;
use std::io::Write;
use std::rt::Files;
use td_client_tokens::{ClientToken, ReadTokensError, TokenFault, push_token_line, read_tokens};
use td_paths::Unreadable;

// Whether the last line of a text ends with a line feed, or the text has no line.
fn is_ended(text: &str) -> bool
    ensures { result ≡ spec.is_ended text.now }
{
    let bytes = text.as_bytes();
    bytes.is_empty() || bytes[bytes.len() - 1] == b'\n'
}

// The line of a token, after a line feed where the text before it lacks one.
fn line_after(alloc: Global, text: &str, token: &ClientToken) -> Result<String, AllocError>
    ensures { IfOk result (λ s. string_bytes s ≡ gap text.now ++ spelled (shown token.now)) }
{
    let mut line = String::new(alloc);
    if !is_ended(text) {
        line.push_str("\n")?;
    }
    push_token_line(&mut line, token)?;
    Ok(line)
}

// Whether the text has tokens, or why there are none.
fn check_tokens(alloc: Global, text: &str) -> Result<(), ReadTokensError>
    ensures { OnOk result (HasTokens text.now) }
{
    let _tokens = read_tokens(alloc, text)?;
    Ok(())
}

// Refuses a text to which no token may be added: it may have none yet, but no line may be wrong.
fn check_old(alloc: Global, text: &str) -> Result<(), AddTokenError> {
    match check_tokens(alloc, text) {
        Ok(()) | Err(ReadTokensError::NoTokens) => Ok(()),
        Err(ReadTokensError::OutOfMemory) => Err(AddTokenError::OutOfMemory),
        Err(error) => Err(AddTokenError::File(TokenFileError::Tokens(error))),
    }
}

// Why a text has no tokens any more to which a token was added.
fn refusal(error: ReadTokensError) -> AddTokenError {
    match error {
        ReadTokensError::OutOfMemory => AddTokenError::OutOfMemory,
        ReadTokensError::NoTokens => AddTokenError::Token(TokenFault::Secret),
        ReadTokensError::Line(bad) => match bad.fault {
            TokenFault::NameTwice => AddTokenError::NameThere,
            fault => AddTokenError::Token(fault),
        },
    }
}

// Refuses a text with a token more that is not read.
fn check_new(alloc: Global, text: &str, line: &str) -> Result<(), AddTokenError>
    ensures { OnOk result (HasTokens (text.now ++ line.now)) }
{
    let mut whole = String::from_str(alloc, text)?;
    whole.push_str(line)?;
    match check_tokens(alloc, whole.as_str()) {
        Ok(()) => Ok(()),
        Err(error) => Err(refusal(error)),
    }
}

/// What is to be added to a text of tokens, which may have none yet, so that it has one more. Refused is a text with a
/// line that is wrong, and a token of a name or secret that is there.
pub fn added_text(alloc: Global, text: &str, token: &ClientToken) -> Result<String, AddTokenError>
    ensures line { IfOk result (λ s. string_bytes s ≡ gap text.now ++ spelled (shown token.now)) }
    ensures tokens { IfOk result (λ s. HasTokens (text.now ++ string_bytes s)) }
{
    check_old(alloc, text)?;
    let line = line_after(alloc, text, token)?;
    check_new(alloc, text, line.as_str())?;
    Ok(line)
}

// Adds a line to a file that is there, and syncs it. If that fails the file is cut to what it was.
fn append_line<H: Files>(host: &H, name: &str, line: &str) -> io::Result<()> {
    let mut file = OpenOptions::new().append(true).open(host, name)?;
    let size = file.metadata()?.len();
    let written = match file.write_all(line.as_bytes()) {
        Ok(()) => file.sync_all(),
        Err(error) => Err(error),
    };
    if written.is_err() {
        let _ = file.set_len(size);
    }
    written
}

// What a file has to which a token is to be added; none where there is no file.
fn old_text<H: Files + AllocGlobal>(host: &H, name: &str) -> Result<Option<String>, AddTokenError> {
    match look_at(host, name)? {
        Look::Text(text) => Ok(Some(text)),
        Look::OpenToOthers => Err(AddTokenError::File(TokenFileError::OpenToOthers)),
        Look::NoText => Err(AddTokenError::File(TokenFileError::NoText)),
        Look::Unreadable(Unreadable::Missing) => Ok(None),
        Look::Unreadable(fault) => Err(AddTokenError::File(TokenFileError::Unreadable(fault))),
    }
}

/// Adds a line for a token to the file of this name, which is made for its owner alone where it is not there. What the
/// file has stays, with its owner and mode, and the line is on the disk when this returns. Two programs that add one
/// name at once are not kept apart: the file is refused then until a line is taken out.
pub fn add_token<H: Files + AllocGlobal>(
    alloc: Global,
    host: &H,
    name: &str,
    token: &ClientToken,
) -> Result<(), AddTokenError> {
    let written = match old_text(host, name)? {
        Some(text) => {
            let line = added_text(alloc, text.as_str(), token)?;
            append_line(host, name, line.as_str())
        }
        None => {
            let line = added_text(alloc, "", token)?;
            make_file(host, name, line.as_str())
        }
    };
    match written {
        Ok(()) => Ok(()),
        Err(error) => Err(AddTokenError::NotWritten(error.kind())),
    }
}
