//! The definitions of a script.

use crate::source::{ScriptTokens, TokenRange};
use std::alloc::{AllocError, Global};
use td_tokens::Word;

/// What a definition defines.
#[derive(Clone, Copy, PartialEq, Eq)]
pub enum DefinitionKind {
    Type,
    BaseRelvar,
    VirtualRelvar,
    Constraint,
}

/// A definition, as it is written.
#[derive(Drop)]
pub struct DefinitionText<'a> {
    pub kind: DefinitionKind,
    pub name: &'a str,
    /// The condition of a constraint, the expression of a virtual relvar, or the constraint of a type, which is empty
    /// if there is none.
    pub text: &'a str,
    /// The names of its tokens, each as often as it is written.
    pub names: Vec<&'a str>,
    /// The attributes of a base relvar in the order of its heading; none if no heading is written, as before an INIT.
    pub attributes: Vec<&'a str>,
}

// How many brackets are open after this word, where `depth` were before.
fn depth_after(depth: usize, word: Option<Word>) -> usize {
    match word {
        Some(Word::OpenParenthesis | Word::OpenBrace) => depth.saturating_add(1),
        Some(Word::CloseParenthesis | Word::CloseBrace) => depth.saturating_sub(1),
        _ => depth,
    }
}

// The first words of the parts between commas, from a brace on.
fn attributes_from<'a>(
    alloc: Global,
    range: TokenRange<'a, '_>,
    brace: usize,
) -> Result<Vec<&'a str>, AllocError> {
    let mut attributes = Vec::new(alloc);
    let mut depth: usize = 0;
    for index in brace..range.tokens.len() {
        let word = range.word(index);
        let begins = depth == 0 && word == Some(Word::OpenBrace);
        depth = depth_after(depth, word);
        if begins || depth == 1 && word == Some(Word::Comma) {
            attributes.push(range.text(index.saturating_add(1)))?;
        }
        if depth == 0 {
            return Ok(attributes);
        }
    }
    Ok(attributes)
}

// The names of tokens: of those that are no words, numbers or texts.
fn names_of<'a>(alloc: Global, range: TokenRange<'a, '_>) -> Result<Vec<&'a str>, AllocError> {
    let mut names = Vec::new(alloc);
    for token in range.tokens {
        if token.kind == td_tokens::TokenKind::Name {
            names.push(token.text)?;
        }
    }
    Ok(names)
}

// What the tokens of a definition define; none if they are those of nothing that a script has.
fn kind_of(range: TokenRange<'_, '_>) -> Option<DefinitionKind> {
    match (range.word(0)?, range.word(2)) {
        (Word::Type, _) => Some(DefinitionKind::Type),
        (Word::Constraint, _) => Some(DefinitionKind::Constraint),
        (Word::Var, Some(Word::Virtual)) => Some(DefinitionKind::VirtualRelvar),
        (Word::Var, _) => Some(DefinitionKind::BaseRelvar),
        _ => None,
    }
}

// The text of a definition of this kind: without its last brace that of a type.
fn text_of<'a>(kind: DefinitionKind, range: TokenRange<'a, '_>) -> &'a str {
    let end = range.tokens.len();
    match kind {
        DefinitionKind::Type => {
            let rule = range.find(2, Word::Constraint).saturating_add(1);
            range.text_between(rule, end.saturating_sub(1))
        }
        DefinitionKind::BaseRelvar => "",
        DefinitionKind::VirtualRelvar => range.text_between(3, end),
        DefinitionKind::Constraint => range.text_between(2, end),
    }
}

// The definition that these tokens are.
fn definition_of<'a>(
    alloc: Global,
    kind: DefinitionKind,
    range: TokenRange<'a, '_>,
) -> Result<DefinitionText<'a>, AllocError> {
    let has_heading = range.word(3) == Some(Word::Relation);
    let attributes = if kind == DefinitionKind::BaseRelvar && has_heading {
        attributes_from(alloc, range, 4)?
    } else {
        Vec::new(alloc)
    };
    Ok(DefinitionText {
        kind,
        name: range.text(1),
        text: text_of(kind, range),
        names: names_of(alloc, range)?,
        attributes,
    })
}

/// The definitions of a script, in order.
pub fn definition_texts<'a>(
    alloc: Global,
    source: &ScriptTokens<'a>,
) -> Result<Vec<DefinitionText<'a>>, AllocError> {
    let mut definitions = Vec::new(alloc);
    let is_end = |token: &td_tokens::Token<'_>| {
        token.kind == td_tokens::TokenKind::Word(Word::Semicolon)
    };
    for tokens in source.tokens.split(is_end) {
        let range = TokenRange {
            script: source.script,
            tokens,
        };
        if let Some(kind) = kind_of(range) {
            definitions.push(definition_of(alloc, kind, range)?)?;
        }
    }
    Ok(definitions)
}
