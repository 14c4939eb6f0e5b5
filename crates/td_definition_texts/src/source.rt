//! A script and its tokens.

use std::alloc::{AllocError, Global};
use td_tokens::{Token, TokenError, TokenKind, Word, tokens};

/// A script and its tokens.
#[derive(Drop)]
pub struct ScriptTokens<'a> {
    pub(crate) script: &'a str,
    pub(crate) tokens: Vec<Token<'a>>,
}

/// Tokens of a script that follow one another.
#[derive(Clone, Copy)]
pub(crate) struct TokenRange<'a, 't> {
    pub(crate) script: &'a str,
    pub(crate) tokens: &'t [Token<'a>],
}

impl<'a> ScriptTokens<'a> {
    /// Reads a script. One that has no reading has no tokens.
    pub fn read(alloc: Global, script: &'a str) -> Result<ScriptTokens<'a>, AllocError> {
        match tokens(alloc, script) {
            Ok(tokens) => Ok(ScriptTokens { script, tokens }),
            Err(TokenError::OutOfMemory) => Err(AllocError),
            Err(TokenError::Syntax) => Ok(ScriptTokens {
                script,
                tokens: Vec::new(alloc),
            }),
        }
    }
}

impl<'a> TokenRange<'a, '_> {
    /// The word at an index, if one is there.
    pub(crate) fn word(self, index: usize) -> Option<Word> {
        match self.tokens.get(index)?.kind {
            TokenKind::Word(word) => Some(word),
            _ => None,
        }
    }

    /// The text of the token at an index, which is empty after the last one.
    pub(crate) fn text(self, index: usize) -> &'a str {
        match self.tokens.get(index) {
            Some(token) => token.text,
            None => "",
        }
    }

    /// The text from the token at an index to the end of the last of them before another index.
    pub(crate) fn text_between(self, from: usize, to: usize) -> &'a str {
        let (Some(first), Some(last)) = (
            self.tokens.get(from),
            self.tokens.get(to.saturating_sub(1)),
        ) else {
            return "";
        };
        self.script.get(first.start..last.end).unwrap_or("")
    }

    /// The index of the first of these words from an index on; that after the last token if there is none.
    pub(crate) fn find(self, from: usize, wanted: Word) -> usize {
        for index in from..self.tokens.len() {
            if self.word(index) == Some(wanted) {
                return index;
            }
        }
        self.tokens.len()
    }
}
