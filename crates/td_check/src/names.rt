//! The names of definitions, and which of them nothing defines.
//!
//! A name is taken for defined where it stands in a definition that was accepted, as what it defines or as what that
//! names: so what is told to be defined by nothing is, and an attribute of some other relvar is not told.

use std::alloc::{AllocError, Global};
use td_tokens::{Token, TokenKind, Word};

/// The names of the definitions so far.
#[derive(Drop)]
pub struct Names<'a> {
    // In definitions that were accepted.
    known: Vec<&'a str>,
    // What was accepted as a type, a relvar or a constraint.
    defined: Vec<(TokenKind, &'a str)>,
    // Types, relvars and constraints that were refused.
    refused: Vec<&'a str>,
    // Given to their parts.
    lost: Vec<&'a str>,
}

// The word of the language at this place; None where a name or a literal stands there, or nothing.
fn word_at(tokens: &[Token<'_>], at: usize) -> Option<Word> {
    match tokens.get(at)?.kind {
        TokenKind::Word(word) => Some(word),
        _ => None,
    }
}

// Whether a value or a type may begin with this.
fn begins_value(kind: TokenKind) -> bool {
    match kind {
        TokenKind::Name | TokenKind::Int(_) | TokenKind::Text => true,
        TokenKind::Word(word) => matches!(
            word,
            Word::Boolean
                | Word::Integer
                | Word::Char
                | Word::Character
                | Word::Tuple
                | Word::Relation
                | Word::True
                | Word::False
                | Word::TableDee
                | Word::TableDum
                | Word::OpenParenthesis
                | Word::Dash
                | Word::Not
                | Word::Tclose
                | Word::IsEmpty
                | Word::Count
                | Word::Sum
                | Word::Max
                | Word::Min
                | Word::And
                | Word::Or
                | Word::If
                | Word::With
                | Word::Extend
                | Word::Summarize
        ),
    }
}

// Whether the name at this place is given there to a part of the definition: `AS Name`, `Name :=`, `{ Name type`.
fn introduces(tokens: &[Token<'_>], at: usize) -> bool {
    let next = at.saturating_add(1);
    let before = word_at(tokens, at.saturating_sub(1));
    match before {
        Some(Word::As | Word::Possrep) => true,
        Some(Word::OpenBrace | Word::Comma) => match tokens.get(next) {
            Some(token) => begins_value(token.kind) || word_at(tokens, next) == Some(Word::Assign),
            None => false,
        },
        _ => word_at(tokens, next) == Some(Word::Assign),
    }
}

// What a definition defines, where it has its first two words.
fn name_of<'a>(tokens: &[Token<'a>]) -> Option<&'a str> {
    match tokens {
        [first, name, ..] if name.kind == TokenKind::Name => match first.kind {
            TokenKind::Word(Word::Type | Word::Var | Word::Constraint) => Some(name.text),
            _ => None,
        },
        _ => None,
    }
}

// Whether the name is among these, at the cost of a walk along them.
fn has(names: &[&str], name: &str) -> bool {
    names.iter().any(|known| *known == name)
}

impl<'a> Names<'a> {
    pub fn new(alloc: Global) -> Names<'a> {
        Names {
            known: Vec::new(alloc),
            defined: Vec::new(alloc),
            refused: Vec::new(alloc),
            lost: Vec::new(alloc),
        }
    }

    /// Takes in the names of a definition that was accepted.
    pub fn accept(&mut self, tokens: &[Token<'a>]) -> Result<(), AllocError> {
        if let [first, name, ..] = tokens {
            self.defined.push((first.kind, name.text))?;
        }
        for token in tokens {
            if token.kind == TokenKind::Name && !has(&self.known, token.text) {
                self.known.push(token.text)?;
            }
        }
        Ok(())
    }

    /// Takes in what a definition that was refused would have defined.
    pub fn lose(&mut self, tokens: &[Token<'a>]) -> Result<(), AllocError> {
        if let Some(name) = name_of(tokens) {
            self.refused.push(name)?;
        }
        for (at, token) in tokens.iter().enumerate() {
            if token.kind == TokenKind::Name && introduces(tokens, at) {
                self.lost.push(token.text)?;
            }
        }
        Ok(())
    }

    // Whether a definition before has this name, as it is or as the component that an operator THE_ gives.
    fn is_known(&self, name: &str) -> bool {
        let component = name.strip_prefix("THE_").unwrap_or(name);
        has(&self.known, name) || has(&self.known, component)
    }

    /// The names in a definition that neither it nor one before it defines, each once.
    pub(crate) fn unknown_names(
        &self,
        alloc: Global,
        tokens: &[Token<'a>],
    ) -> Result<Vec<Token<'a>>, AllocError> {
        let own = names_introduced(alloc, tokens)?;
        let mut found: Vec<Token<'a>> = Vec::new(alloc);
        for (at, token) in tokens.iter().enumerate() {
            let is_used = token.kind == TokenKind::Name && at != 1;
            if is_used
                && !has(&own, token.text)
                && !self.is_known(token.text)
                && !found.iter().any(|before| before.text == token.text)
            {
                found.push(*token)?;
            }
        }
        Ok(found)
    }

    /// Whether a definition that was refused would have defined the name.
    pub(crate) fn is_lost(&self, name: &str) -> bool {
        let component = name.strip_prefix("THE_").unwrap_or(name);
        has(&self.refused, name) || has(&self.lost, component)
    }

    /// Whether a definition names a type, a relvar or a constraint that was refused.
    pub(crate) fn names_refused(&self, tokens: &[Token<'_>]) -> bool {
        tokens.iter().enumerate().any(|(at, token)| {
            at != 1 && token.kind == TokenKind::Name && has(&self.refused, token.text)
        })
    }

    /// Whether a definition has the name of one of its kind before it.
    pub(crate) fn is_twice(&self, tokens: &[Token<'a>]) -> bool {
        match tokens {
            [first, name, ..] => {
                let own = (first.kind, name.text);
                self.defined.iter().any(|it| *it == own)
            }
            _ => false,
        }
    }
}

// The names that a definition gives to its parts.
fn names_introduced<'a>(alloc: Global, tokens: &[Token<'a>]) -> Result<Vec<&'a str>, AllocError> {
    let mut own = Vec::new(alloc);
    for (at, token) in tokens.iter().enumerate() {
        if token.kind == TokenKind::Name && at != 1 && introduces(tokens, at) {
            own.push(token.text)?;
        }
    }
    Ok(own)
}
