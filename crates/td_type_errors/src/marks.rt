//! The tokens of a text by which parts of its tree are found.
//!
//! Left out are brackets, commas, colons, semicolons and ADD, which stands where a colon may; and of NOT MATCHING,
//! which SEMIMINUS says too, the second word. What is left is called marks here. Each form has as many of them, and in
//! one order, however it is written and whatever brackets stand around it. Only a name that a list gives stands behind
//! its expression or in front of it.

use std::alloc::{AllocError, Global};
use td_tokens::{TokenError, TokenKind, Word, tokens};

/// A token, and the byte at which it begins.
#[derive(Clone, Copy)]
pub(crate) struct Mark {
    pub kind: TokenKind,
    pub place: usize,
}

// Whether tokens of this kind count as marks.
fn is_mark(kind: TokenKind) -> bool {
    match kind {
        TokenKind::Word(word) => !matches!(
            word,
            Word::OpenParenthesis
                | Word::CloseParenthesis
                | Word::OpenBrace
                | Word::CloseBrace
                | Word::Comma
                | Word::Semicolon
                | Word::Colon
                | Word::Add
        ),
        _ => true,
    }
}

/// The marks of a text; none of a text that has no tokens.
pub fn marks_of(alloc: Global, text: &str) -> Result<Vec<Mark>, AllocError> {
    let tokens = match tokens(alloc, text) {
        Ok(tokens) => tokens,
        Err(TokenError::Syntax) => return Ok(Vec::new(alloc)),
        Err(TokenError::OutOfMemory) => return Err(AllocError),
    };
    let mut marks = Vec::new(alloc);
    let mut is_behind_not = false;
    for token in &tokens {
        let is_second = is_behind_not && token.kind == TokenKind::Word(Word::Matching);
        if is_mark(token.kind) && !is_second {
            marks.push(Mark {
                kind: token.kind,
                place: token.start,
            })?;
        }
        is_behind_not = token.kind == TokenKind::Word(Word::Not);
    }
    Ok(marks)
}
