//! Why a text has no tree.

ghost use Rattle.std.specs.Prelude.{◌≡◌};
ghost use Rattle.td_grammar.specs.ForProofs.Refusals.{read_token, read_name};
ghost use Rattle.td_grammar.specs.declared.error.ReadError.TheVariants as read_error;

use std::alloc::AllocError;
use td_tokens::error::TokenError;
use td_values::NameError;
use thiserror::Error;

/// Why a text has no tree.
#[derive(Clone, Copy, Debug, Drop, PartialEq, Eq, Error)]
pub enum ReadError {
    #[error("the text has no reading")]
    Syntax,
    #[error("out of memory")]
    OutOfMemory,
}

impl From<AllocError> for ReadError {
    ghost from_gives = { λ _ e. e ≡ read_error.OutOfMemory };

    fn from(_e: AllocError) -> ReadError {
        ReadError::OutOfMemory
    }
}

impl From<TokenError> for ReadError {
    ghost from_gives = { λ t e. e ≡ read_token t };

    fn from(e: TokenError) -> ReadError {
        match e {
            TokenError::Syntax => ReadError::Syntax,
            TokenError::OutOfMemory => ReadError::OutOfMemory,
        }
    }
}

impl From<NameError> for ReadError {
    ghost from_gives = { λ n e. e ≡ read_name n };

    fn from(e: NameError) -> ReadError {
        match e {
            NameError::BadName => ReadError::Syntax,
            NameError::OutOfMemory => ReadError::OutOfMemory,
        }
    }
}
