//! The parts that a text is cut into.

use crate::token::TokenKind;

/// A token's kind, or none where it is white space; and its length in bytes.
#[derive(Clone, Copy)]
pub struct Piece {
    pub kind: Option<TokenKind>,
    pub length: usize,
}
