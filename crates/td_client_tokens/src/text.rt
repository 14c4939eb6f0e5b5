//! Which tokens a text has.

ghost use Rattle.std.specs.Prelude.{◌≡◌, ◌++◌, ◌∷◌, ◌⊎◌, [], Ok, Err, IfErr, IfOk, MatchOption, MatchResult, OnOk, List, Result, map, option_copied};
ghost use Rattle.std.specs.List.{list_any};
ghost use Rattle.std.specs.Str.{bytes_eq, trim};
ghost use Rattle.td_client_tokens.specs.declared.text.ReadTokensError.{ReadTokensError};
ghost use Rattle.td_client_tokens.specs.declared.text.ReadTokensError.TheVariants.{OutOfMemory};
ghost use Rattle.td_client_tokens.specs.Borrowed.{line_value};
ghost use Rattle.td_client_tokens.specs.Texts as spec;
ghost use Rattle.td_client_tokens.specs.Texts.{is_same_name, then_more, tokens_after, tokens_of, with_line};
ghost use Rattle.td_client_tokens.specs.Tokens.{Entry, shown};

use crate::line::{TokenLine, read_line};
use crate::token::{ClientToken, TokenFault};
use std::alloc::{AllocError, AllocFailed, Global};
use thiserror::Error;

/// A line that is wrong.
#[derive(Clone, Copy, Debug, Drop, Error)]
#[error("line {line}: {fault}")]
pub struct BadTokens {
    /// Its number, from 1.
    pub line: usize,
    pub fault: TokenFault,
}

/// Why a text has no tokens.
#[derive(Clone, Copy, Debug, Drop, Error)]
pub enum ReadTokensError {
    #[error("out of memory")]
    OutOfMemory,
    #[error("no line has a token: give 16 to 256 letters, digits, - and _")]
    NoTokens,
    #[error("{0}")]
    Line(BadTokens),
}

impl From<AllocError> for ReadTokensError {
    ghost from_gives = { λ _ e. e ≡ OutOfMemory };

    fn from(_e: AllocError) -> ReadTokensError {
        ReadTokensError::OutOfMemory
    }
}

impl<T: Drop> From<AllocFailed<T>> for ReadTokensError {
    ghost from_gives = { λ _ e. e ≡ OutOfMemory };

    fn from(_e: AllocFailed<T>) -> ReadTokensError {
        ReadTokensError::OutOfMemory
    }
}

// Whether a line says nothing.
fn is_passed_over(line: &str) -> bool
    ensures { result ≡ spec.is_passed_over line.now }
{
    line.is_empty() || line.as_bytes()[0] == b'#'
}

// Whether a token has this secret.
fn has_secret(tokens: &[ClientToken], secret: &str) -> bool
    ensures { result ≡ list_any (λ t. bytes_eq ((shown t).secret) secret.now) tokens.now }
{
    tokens.iter().any(|token| token.secret.as_str() == secret)
}

// Whether a token has this name, or has no name, either.
fn is_named(token: &ClientToken, name: Option<&str>) -> bool
    ensures { result ≡ is_same_name ((shown token.now).name) (option_copied name.entry) }
{
    match (&token.name, name) {
        (None, None) => true,
        (Some(own), Some(name)) => own.as_str() == name,
        _ => false,
    }
}

// Whether one of the tokens has this name, or has no name, either.
fn has_name(tokens: &[ClientToken], name: Option<&str>) -> bool
    ensures { result ≡ list_any (λ t. is_same_name ((shown t).name) (option_copied name.entry)) tokens.now }
{
    tokens.iter().any(|token| is_named(token, name))
}

// The fault of a name that is there twice.
fn twice(name: Option<&str>) -> TokenFault
    ensures { result ≡ spec.twice (option_copied name.entry) }
{
    match name {
        None => TokenFault::BareTwice,
        Some(_) => TokenFault::NameTwice,
    }
}

// The token of a line, which has no white space at its ends, if it is one more; none if it is passed over.
fn new_token<'a>(tokens: &[ClientToken], line: &'a str) -> Result<Option<TokenLine<'a>>, TokenFault>
    ensures { MatchResult result
        (λ new. MatchOption new (with_line (map shown tokens.now) line.now ≡ Ok (map shown tokens.now))
        (λ token. with_line (map shown tokens.now) line.now ≡ Ok (map shown tokens.now ++ line_value token ∷ [])))
        (λ fault. with_line (map shown tokens.now) line.now ≡ Err fault) }
{
    if is_passed_over(line) {
        return Ok(None);
    }
    let token = match read_line(line) {
        Ok(token) => token,
        Err(fault) => return Err(fault),
    };
    if has_secret(tokens, token.secret) {
        return Err(TokenFault::SecretTwice);
    }
    if has_name(tokens, token.name) {
        return Err(twice(token.name));
    }
    Ok(Some(token))
}

// Adds the token of the line of this number, if it has one.
fn add_line(
    tokens: &mut Vec<ClientToken>,
    alloc: Global,
    number: usize,
    line: &str,
) -> Result<(), ReadTokensError>
    ensures added { OnOk result ((more : List Entry → Result (List Entry) ReadTokensError)
        → then_more number more (with_line (map shown tokens.old.items) (trim line.now)) ≡ more (map shown tokens.new.items)) }
    ensures fault { IfErr result (λ e. (e ≡ OutOfMemory) ⊎ ((more : List Entry → Result (List Entry) ReadTokensError)
        → then_more number more (with_line (map shown tokens.old.items) (trim line.now)) ≡ Err e)) }
{
    match new_token(tokens, line.trim()) {
        Ok(None) => Ok(()),
        Ok(Some(token)) => {
            let token = token.to_token(alloc)?;
            tokens.push(token)?;
            Ok(())
        }
        Err(fault) => Err(ReadTokensError::Line(BadTokens {
            line: number,
            fault,
        })),
    }
}

// The tokens of lines.
fn read_lines(alloc: Global, lines: &[&str]) -> Result<Vec<ClientToken>, ReadTokensError>
    ensures tokens { IfOk result (λ v. tokens_after (map (λ l. l.now) lines.now) 1 [] ≡ Ok (map shown v.items)) }
    ensures fault { IfErr result (λ e. (e ≡ OutOfMemory) ⊎ (tokens_after (map (λ l. l.now) lines.now) 1 [] ≡ Err e)) }
{
    let mut tokens = Vec::new(alloc);
    for at in 0..lines.len() {
        match add_line(&mut tokens, alloc, at + 1, lines[at]) {
            Ok(()) => {}
            Err(error) => return Err(error),
        }
    }
    if tokens.is_empty() {
        return Err(ReadTokensError::NoTokens);
    }
    Ok(tokens)
}

/// The tokens of a text, in the order of its lines; no two have one secret or one name, and at most one has no name.
/// Else the first line that is wrong.
pub fn read_tokens(alloc: Global, text: &str) -> Result<Vec<ClientToken>, ReadTokensError>
    ensures tokens { IfOk result (λ v. tokens_of text.now ≡ Ok (map shown v.items)) }
    ensures fault { IfErr result (λ e. (e ≡ OutOfMemory) ⊎ (tokens_of text.now ≡ Err e)) }
{
    let lines = text.lines().collect::<Vec<&str>>(alloc)?;
    read_lines(alloc, &lines)
}
