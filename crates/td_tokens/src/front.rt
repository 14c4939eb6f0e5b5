//! What stands at the front of a text.

ghost use Rattle.std.specs.Prelude.{◌≡◌, ◌≢◌, ◌≤◌, ◌<◌, length, slice_index, drop, true, false, option_map};
ghost use Rattle.std.specs.List.{prefix_len};
ghost use Rattle.td_values.specs.Names.{goes_on_in_name};
ghost use Rattle.td_tokens.specs.Lex.{is_blank, is_plain, run};
ghost use Rattle.td_tokens.specs.Lexer as spec;

use crate::piece::Piece;
use crate::token::TokenKind;
use crate::words::{keyword, symbol};

const LARGEST_INT: u64 = 9_223_372_036_854_775_807;

const LONGEST_NAME: usize = 64;

/// The byte at a place, or 0 past the end.
fn byte(bytes: &[u8], at: usize) -> u8
    ensures value { result ≡ slice_index bytes.now at }
    ensures within { result ≢ 0 → at < length bytes.now }
{
    if at < bytes.len() { bytes[at] } else { 0 }
}

// Whether the byte is white space: a space, a tab, a line feed or a carriage return.
fn is_blank(b: u8) -> bool
    ensures { result ≡ is_blank b }
{
    b == b' ' || b == b'\t' || b == b'\n' || b == b'\r'
}

// Whether the byte may stand in a name behind its first: an ASCII letter, a digit, `_` or `#`.
fn goes_on_in_name(b: u8) -> bool
    ensures { result ≡ goes_on_in_name b }
{
    b.is_ascii_alphanumeric() || b == b'_' || b == b'#'
}

/// Whether the byte may stand in a text literal as it is.
fn is_plain(b: u8) -> bool
    ensures { result ≡ is_plain b }
{
    !(b == b'\'' || b == 0 || b == b'\n' || b == b'\r')
}

/// How many bytes at the front may stand in a name.
fn run_length(bytes: &[u8]) -> usize
    ensures value { result ≡ prefix_len goes_on_in_name bytes.now }
    ensures within { result ≤ length bytes.now }
{
    bytes.iter().take_while(|b| goes_on_in_name(**b)).count()
}

/// The place after the `*/` of a comment whose inside this is.
fn comment_end(inside: &[u8]) -> Option<usize>
    ensures { result ≡ spec.comment_end false 2 inside.now }
{
    let mut after_star = false;
    for (at, b) in inside.iter().enumerate() {
        if after_star && *b == b'/' {
            return Some(at + 3);
        }
        after_star = *b == b'*';
    }
    None
}

/// The place after the closing quote of a text literal, of which this follows the opening one.
fn text_end(rest: &[u8]) -> Option<usize>
    ensures { result ≡ spec.text_end false 1 rest.now }
{
    let mut after_quote = false;
    for (at, b) in rest.iter().enumerate() {
        if *b == b'\'' {
            after_quote = !after_quote;
        } else if after_quote {
            return Some(at + 1);
        } else if !is_plain(*b) {
            return None;
        }
    }
    if after_quote {
        Some(rest.len() + 1)
    } else {
        None
    }
}

/// The integer that a run of letters, digits, `_` and `#` writes, where it has digits alone.
#[tactic(auto, unfolding(crate::specs::Lexer::int_kind))]
fn int_kind(run: &str) -> Option<TokenKind>
    requires { goes_on_in_name (slice_index run.now 0) ≡ true }
    ensures { result ≡ spec.int_kind run.now }
{
    let value = run.parse::<u64>().ok()?;
    if value <= LARGEST_INT {
        Some(TokenKind::Int(value))
    } else {
        None
    }
}

/// What a run that begins with a letter is.
#[tactic(auto, unfolding(crate::specs::Lexer::name_kind))]
fn name_kind(run: &str) -> Option<TokenKind>
    ensures { result ≡ spec.name_kind run.now }
{
    match keyword(run.as_bytes()) {
        Some(word) => Some(TokenKind::Word(word)),
        None if run.len() <= LONGEST_NAME => Some(TokenKind::Name),
        None => None,
    }
}

/// What a run is, if it is a token.
#[tactic(auto, unfolding(crate::specs::Lexer::run_kind))]
fn run_kind(run: &str) -> Option<TokenKind>
    requires { goes_on_in_name (slice_index run.now 0) ≡ true }
    ensures { result ≡ spec.run_kind run.now }
{
    if byte(run.as_bytes(), 0).is_ascii_alphabetic() {
        name_kind(run)
    } else {
        int_kind(run)
    }
}

/// The run at the front.
fn run_piece(text: &str) -> Option<Piece>
    requires { goes_on_in_name (slice_index text.now 0) ≡ true }
    ensures { result ≡ spec.run_piece (run text.now) }
{
    let length = run_length(text.as_bytes());
    let (run, _) = text.split_at(length);
    let kind = Some(run_kind(run)?);
    Some(Piece { kind, length })
}

/// What stands at the front of a text.
#[tactic(auto, unfolding(crate::specs::Lexer::front))]
pub fn front(text: &str) -> Option<Piece>
    ensures { result ≡ spec.front text.now }
{
    let bytes = text.as_bytes();
    let first = byte(bytes, 0);
    if is_blank(first) {
        Some(Piece {
            kind: None,
            length: 1,
        })
    } else if goes_on_in_name(first) {
        run_piece(text)
    } else if first == b'\'' {
        text_end(&bytes[1..]).map(|length| Piece {
            kind: Some(TokenKind::Text),
            length,
        })
    } else if let [b'/', b'*', inside @ ..] = bytes {
        comment_end(inside).map(|length| Piece { kind: None, length })
    } else {
        symbol(bytes)
    }
}
