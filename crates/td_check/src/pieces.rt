//! The parts of a script that are to be one definition each.

use std::alloc::{AllocError, Global};
use td_tokens::{Token, TokenError, TokenKind, Word, tokens, tokens_end};

/// From the first token of a definition to behind its last one, and where it begins in the script.
#[derive(Clone, Copy)]
pub(crate) struct DefinitionSpan<'a> {
    pub text: &'a str,
    pub begin: usize,
}

/// The tokens of a text, or none where it has something else.
pub fn tokens_of<'a>(alloc: Global, text: &'a str) -> Result<Vec<Token<'a>>, AllocError> {
    match tokens(alloc, text) {
        Ok(tokens) => Ok(tokens),
        Err(TokenError::Syntax) => Ok(Vec::new(alloc)),
        Err(TokenError::OutOfMemory) => Err(AllocError),
    }
}

// The piece that a text has between two bytes.
fn span_between(text: &str, begin: usize, end: usize) -> DefinitionSpan<'_> {
    let (front, _) = text.split_at(text.floor_char_boundary(end));
    let (_, text) = front.split_at(front.floor_char_boundary(begin));
    DefinitionSpan { text, begin }
}

// The piece that is being read: where it began, where its last token ended, and how many brackets are open.
#[derive(Clone, Copy)]
struct Begun {
    begin: usize,
    end: usize,
    depth: usize,
}

// The piece with one more token, which ends there.
fn with_token(piece: Begun, kind: TokenKind, end: usize) -> Begun {
    let depth = match kind {
        TokenKind::Word(Word::OpenParenthesis | Word::OpenBrace) => piece.depth.saturating_add(1),
        TokenKind::Word(Word::CloseParenthesis | Word::CloseBrace) => piece.depth.saturating_sub(1),
        _ => piece.depth,
    };
    Begun {
        begin: piece.begin,
        end,
        depth,
    }
}

// Whether the token begins another definition, so that what is in front of it lacks its end.
fn is_left(piece: Begun, kind: TokenKind) -> bool {
    match kind {
        TokenKind::Word(Word::Type | Word::Var) => true,
        TokenKind::Word(Word::Constraint) => piece.depth == 0,
        _ => false,
    }
}

// Cuts a text up to what is no token, where it begins at `from`, and gives the piece that is not ended there.
fn cut_tokens<'a>(
    script: &'a str,
    from: usize,
    tokens: &[Token<'a>],
    found: &mut Vec<DefinitionSpan<'a>>,
) -> Result<Option<Begun>, AllocError> {
    let mut current: Option<Begun> = None;
    for token in tokens {
        let begin = from.saturating_add(token.start);
        let end = from.saturating_add(token.end);
        let fresh = Begun {
            begin,
            end,
            depth: 0,
        };
        let piece = match current {
            Some(left) if is_left(left, token.kind) => {
                found.push(span_between(script, left.begin, left.end))?;
                fresh
            }
            Some(left) => left,
            None => fresh,
        };
        let piece = with_token(piece, token.kind, end);
        if token.kind == TokenKind::Word(Word::Semicolon) {
            found.push(span_between(script, piece.begin, piece.end))?;
            current = None;
        } else {
            current = Some(piece);
        }
    }
    Ok(current)
}

// Where reading goes on behind what is no token: behind the next semicolon, but nowhere behind an open comment.
fn resume_behind(script: &str, place: usize) -> usize {
    let (_, rest) = script.split_at(script.floor_char_boundary(place));
    match rest.find(';') {
        Some(at) if !rest.starts_with("/*") => place.saturating_add(at).saturating_add(1),
        _ => script.len(),
    }
}

// Adds the pieces from a byte on up to what is no token, with the one that has that, and gives the byte behind them.
fn front_pieces<'a>(
    alloc: Global,
    script: &'a str,
    from: usize,
    found: &mut Vec<DefinitionSpan<'a>>,
) -> Result<usize, AllocError> {
    let (_, rest) = script.split_at(script.floor_char_boundary(from));
    let (front, fault) = rest.split_at(tokens_end(rest));
    let tokens = tokens_of(alloc, front)?;
    let left = cut_tokens(script, from, &tokens, found)?;
    if fault.is_empty() {
        if let Some(left) = left {
            found.push(span_between(script, left.begin, left.end))?;
        }
        return Ok(script.len());
    }
    let place = from.saturating_add(front.len());
    let next = resume_behind(script, place);
    let begin = match left {
        Some(left) => left.begin,
        None => place,
    };
    found.push(span_between(script, begin, next))?;
    Ok(next)
}

/// The pieces of a script from a byte on: each ends with a semicolon, or in front of a word that begins a definition.
pub fn pieces<'a>(
    alloc: Global,
    script: &'a str,
    mut from: usize,
) -> Result<Vec<DefinitionSpan<'a>>, AllocError> {
    let mut found = Vec::new(alloc);
    // (each turn passes a byte at least)
    for _turn in 0..script.len() {
        if from >= script.len() {
            break;
        }
        from = front_pieces(alloc, script, from, &mut found)?;
    }
    Ok(found)
}
