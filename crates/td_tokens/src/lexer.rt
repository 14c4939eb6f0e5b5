//! The tokens of a text, one after the other.

ghost use Rattle.std.specs.Prelude.{◌≡◌, ◌≤◌, ◌==◌, IfOk, All, Some, None, [], length, map, slice_range};
ghost use Rattle.std.specs.Option.{is_some};
ghost use Rattle.std.specs.Str.{IsCharBoundary};
ghost use Rattle.td_tokens.specs.Lex.{open_after};
ghost use Rattle.td_tokens.specs.Lexer.{lexeme, next_piece, open_behind, reading};
ghost use Rattle.td_tokens.specs.View.{spanned_of};

use crate::error::TokenError;
use crate::front::front;
use crate::token::{Token, TokenKind, Word};
use std::alloc::Global;

/// Room is made at first for tokens of so many bytes each, which are more than most texts have.
const SHORT: usize = 2;

/// How many of `(` and `{` may be open at once in a text.
const MOST_OPEN: usize = 64;

// How many brackets are open after a token of this kind, where `depth` were before. Round ones and braces count alike,
// and a closing one changes nothing where none is open.
fn open_after(depth: usize, kind: TokenKind) -> usize
    requires { depth ≤ 64 }
    ensures { result ≡ open_after depth (lexeme kind []) }
{
    match kind {
        TokenKind::Word(Word::OpenParenthesis | Word::OpenBrace) => depth + 1,
        TokenKind::Word(Word::CloseParenthesis | Word::CloseBrace) => depth.saturating_sub(1),
        _ => depth,
    }
}

/// The tokens of a text in order, each with the part of the text that it takes.
///
/// Refuses a text that has no reading as `Syntax`. Takes time linear in the text, and memory for its tokens alone, at
/// first for one of each two bytes.
pub fn tokens(alloc: Global, source: &str) -> Result<Vec<Token<'_>>, TokenError>
    ensures ok { IfOk result (λ ts. reading source.now ≡ Some (map spanned_of ts.items)) }
    ensures slices { IfOk result (λ ts. All (λ t. t.text.now ≡ slice_range source.now t.start t.end) ts.items) }
    ensures syntax { result ≡ Err TokenError.Syntax → reading source.now ≡ None }
{
    let Ok(mut found) = Vec::with_capacity(alloc, source.len() / SHORT) else {
        return Err(TokenError::OutOfMemory);
    };
    let mut rest = source;
    let mut start = 0;
    let mut depth = 0;
    while !rest.is_empty() {
        let piece = front(rest).ok_or(TokenError::Syntax)?;
        let (text, after) = rest.split_at(piece.length);
        let end = start + piece.length;
        if let Some(kind) = piece.kind {
            depth = open_after(depth, kind);
            if MOST_OPEN < depth {
                return Err(TokenError::Syntax);
            }
            found.push(Token {
                kind,
                text,
                start,
                end,
            })?;
        }
        rest = after;
        start = end;
    }
    Ok(found)
}

// How many brackets are open behind a piece, where `depth` were before: white space changes nothing.
fn open_behind(depth: usize, kind: Option<TokenKind>) -> usize
    requires { depth ≤ 64 }
    ensures { result ≡ open_behind depth kind }
{
    match kind {
        Some(kind) => open_after(depth, kind),
        None => depth,
    }
}

// The length of what stands at the front and how many brackets are open behind it, where these are not too many.
#[tactic(auto, unfolding(crate::specs::Lexer::next_piece))]
fn next_piece(rest: &str, depth: usize) -> Option<(usize, usize)>
    requires { depth ≤ 64 }
    ensures { result ≡ next_piece depth rest.now }
{
    let piece = front(rest)?;
    let behind = open_behind(depth, piece.kind);
    if behind <= MOST_OPEN {
        Some((piece.length, behind))
    } else {
        None
    }
}

/// The byte at which a text goes on as neither a token nor white space, or with a bracket too many: the text's length
/// exactly where it has a reading.
///
/// Takes time linear in the text, and no memory.
pub fn tokens_end(source: &str) -> usize
    ensures boundary { IsCharBoundary source.now result }
    ensures whole { is_some (reading source.now) ≡ (result == length source.now) }
{
    let mut rest = source;
    let mut depth = 0;
    while let Some((taken, behind)) = next_piece(rest, depth) {
        (_, rest) = rest.split_at(taken);
        depth = behind;
    }
    source.len() - rest.len()
}
