//! Why a file has no tokens, and why it gets none.

ghost use Rattle.std.specs.Prelude.{◌≡◌};
ghost use Rattle.td_token_files.specs.declared.error.AddTokenError.TheVariants as adding;
ghost use Rattle.td_token_files.specs.declared.error.TokenFileError.TheVariants as reading;

use std::alloc::AllocError;
use std::io::ErrorKind;
use td_client_tokens::{ReadTokensError, TokenFault};
use td_paths::Unreadable;
use thiserror::Error;

/// Why a file has no tokens. The words come after the file's name.
#[derive(Clone, Copy, Debug, Drop, Error)]
pub enum TokenFileError {
    #[error("there is not enough memory for it")]
    OutOfMemory,
    #[error("{}", .0.words())]
    Unreadable(Unreadable),
    #[error("others may read it: chmod 600 mends that")]
    OpenToOthers,
    #[error("it is no text in UTF-8: write each line as TOKEN NAME RIGHTS")]
    NoText,
    #[error("{0}")]
    Tokens(ReadTokensError),
    #[error("it cannot be made: {0}")]
    NotMade(ErrorKind),
}

/// Why a file gets no more tokens. The words come after the file's name.
#[derive(Clone, Copy, Debug, Drop, Error)]
pub enum AddTokenError {
    #[error("there is not enough memory for it")]
    OutOfMemory,
    /// It has no tokens to which one may be added.
    #[error("{0}")]
    File(TokenFileError),
    #[error("it has a token of this name: give another name, or take its line out first")]
    NameThere,
    /// The token is none, or it is there.
    #[error("the new token is refused: {0}")]
    Token(TokenFault),
    #[error("it cannot be written, and is as it was: {0}")]
    NotWritten(ErrorKind),
}

impl From<AllocError> for TokenFileError {
    ghost from_gives = { λ _ e. e ≡ reading.OutOfMemory };

    fn from(_e: AllocError) -> TokenFileError {
        TokenFileError::OutOfMemory
    }
}

impl From<AllocError> for AddTokenError {
    ghost from_gives = { λ _ e. e ≡ adding.OutOfMemory };

    fn from(_e: AllocError) -> AddTokenError {
        AddTokenError::OutOfMemory
    }
}
