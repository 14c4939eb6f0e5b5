//! What a line says.

ghost use Rattle.std.specs.Prelude.{◌≡◌, Ok, Err, IfOk, MatchOption, MatchResult, Some, None};
ghost use Rattle.td_client_tokens.specs.Lines.{line_entry, named_entry, rights_at_end, name_before};
ghost use Rattle.td_client_tokens.specs.Borrowed.{line_value};
ghost use Rattle.td_client_tokens.specs.Tokens.{shown};

use crate::letters::{is_secret, is_token_name};
use crate::rights::Rights;
use crate::token::{ClientToken, TokenFault};
use std::alloc::{AllocError, Global};

/// What a line says, as it is written there.
#[derive(Clone, Copy)]
pub(crate) struct TokenLine<'a> {
    pub(crate) secret: &'a str,
    pub(crate) name: Option<&'a str>,
    pub(crate) rights: Rights,
}

// The name and the rights of a text that ends in a blank and rights.
fn split_rights(text: &str) -> Option<(&str, Rights)>
    ensures { MatchOption result (rights_at_end text.now ≡ None) (λ x. (rights_at_end text.now ≡ Some x.1) × (x.0.now ≡ name_before text.now x.1)) }
{
    if let Some(name) = text.strip_suffix(" read") {
        return Some((name, Rights::Read));
    }
    if let Some(name) = text.strip_suffix(" write") {
        return Some((name, Rights::Write));
    }
    if let Some(name) = text.strip_suffix(" all") {
        return Some((name, Rights::All));
    }
    None
}

// The token with this secret, of a name and rights.
fn read_named<'a>(secret: &'a str, text: &'a str) -> Result<TokenLine<'a>, TokenFault>
    ensures { MatchResult result (λ line. named_entry secret.now text.now (rights_at_end text.now) ≡ Ok (line_value line))
        (λ fault. named_entry secret.now text.now (rights_at_end text.now) ≡ Err fault) }
{
    let Some((name, rights)) = split_rights(text) else {
        return Err(TokenFault::Rights);
    };
    if !is_token_name(name) {
        return Err(TokenFault::Name);
    }
    Ok(TokenLine {
        secret,
        name: Some(name),
        rights,
    })
}

/// The token of a line, which has no white space at its ends.
pub(crate) fn read_line(line: &str) -> Result<TokenLine<'_>, TokenFault>
    ensures { MatchResult result (λ it. line_entry line.now ≡ Ok (line_value it)) (λ fault. line_entry line.now ≡ Err fault) }
{
    match line.split_once(' ') {
        Some((secret, rest)) => {
            if !is_secret(secret) {
                return Err(TokenFault::Secret);
            }
            read_named(secret, rest)
        }
        None => {
            if !is_secret(line) {
                return Err(TokenFault::Secret);
            }
            Ok(TokenLine {
                secret: line,
                name: None,
                rights: Rights::All,
            })
        }
    }
}

impl TokenLine<'_> {
    /// The token, with texts of its own.
    pub(crate) fn to_token(self, alloc: Global) -> Result<ClientToken, AllocError>
        ensures { IfOk result (λ token. shown token ≡ line_value self.entry) }
    {
        let secret = String::from_str(alloc, self.secret)?;
        let name = match self.name {
            Some(name) => Some(String::from_str(alloc, name)?),
            None => None,
        };
        Ok(ClientToken {
            secret,
            name,
            rights: self.rights,
        })
    }
}
