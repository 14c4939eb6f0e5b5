//! A token of a client, and why a line has none.

ghost use Rattle.std.specs.Prelude.{◌≡◌, ◌++◌, OnOk, string_bytes};
ghost use Rattle.td_client_tokens.specs.Tokens.{shown};
ghost use Rattle.td_client_tokens.specs.Lines.{spelled};

use crate::rights::Rights;
use std::alloc::AllocError;
use thiserror::Error;

/// What a client shows, whose it is, and what it lets do.
#[derive(Drop)]
pub struct ClientToken {
    /// 16 to 256 letters, digits, `-` and `_`.
    pub secret: String,
    /// No other token of its text has this name.
    pub name: Option<String>,
    pub rights: Rights,
}

/// What is wrong with a line.
#[derive(Clone, Copy, Debug, Drop, Error)]
pub enum TokenFault {
    #[error("it begins with no token: give 16 to 256 letters, digits, - and _")]
    Secret,
    #[error("it does not end in a right: give TOKEN NAME read, TOKEN NAME write or TOKEN NAME all")]
    Rights,
    #[error("the name is none: give 1 to 32 letters of a to z, digits, blanks, . and -")]
    Name,
    #[error("an earlier line has the same token: give each line its own")]
    SecretTwice,
    #[error("an earlier line has the same name: give each line its own")]
    NameTwice,
    #[error("an earlier line has a token without a name, too: give one of them a name and rights")]
    BareTwice,
}

/// Appends the line of a token, with its line feed.
pub fn push_token_line(text: &mut String, token: &ClientToken) -> Result<(), AllocError>
    ensures { OnOk result (string_bytes text.new ≡ string_bytes text.old ++ spelled (shown token.now)) }
{
    text.push_str(token.secret.as_str())?;
    if let Some(name) = &token.name {
        text.push_str(" ")?;
        text.push_str(name.as_str())?;
        text.push_str(" ")?;
        text.push_str(token.rights.name())?;
    }
    text.push_str("\n")
}
