//! A place in a list of tokens.

ghost use Rattle.std.specs.Prelude.{◌≡◌, length, map, true, Option};
ghost use Rattle.std.specs.List.{list_all};
ghost use Rattle.td_tokens.specs.View.{lexeme_of};
ghost use Rattle.td_grammar.specs.Grammar as grammar;
ghost use Rattle.td_grammar.specs.ForProofs.Reader as spec;
ghost use Rattle.td_grammar.specs.ForProofs.Readings.{Gives, Tells, fits};

use crate::binding::{
    ADDITIVE, COMPARISON, CONJUNCTION, DISJUNCTION, MULTIPLICATIVE, NOTHING, PROJECTION, RELATIONAL,
};
use crate::error::ReadError;
use std::alloc::Global;
use std::marker::Model;
use td_syntax::tree::{Aggregate, BinaryOperator};
use td_tokens::token::{Token, TokenKind, Word};
use td_values::{Name, Text};

/// The tokens from a place on. The names among them are names, and the integers are in range.
#[derive(Drop)]
pub struct Cursor<'a> {
    rest: &'a [Token<'a>],
    // From the token on that was skipped last.
    skipped: &'a [Token<'a>],
}

impl<'a> Model for Cursor<'a> {
    ghost use Rattle.std.specs.Prelude.{◌≡◌, List, map, true};
    ghost use Rattle.std.specs.List.{list_all};
    ghost use Rattle.td_tokens.specs.Lex.{Lexeme};
    ghost use Rattle.td_tokens.specs.View.{lexeme_of};
    ghost use Rattle.td_grammar.specs.ForProofs.Readings.{fits};

    ghost Value = { List Lexeme };

    ghost view = { λ t. map lexeme_of t.rest.now };

    ghost invariant = { λ t. (list_all fits (map lexeme_of t.rest.now) ≡ true) × (list_all fits (map lexeme_of t.skipped.now) ≡ true) };
}

/// Whether the two words are one keyword or symbol.
#[tactic(auto, unfolding(crate::specs::ForProofs::Reader::same_word))]
pub fn same_word(a: Word, b: Word) -> bool
    ensures { result ≡ spec.same_word a b }
{
    a == b
}

// Whether the token is this keyword or symbol.
fn is_word(word: Word, token: &Token<'_>) -> bool
    ensures { result ≡ spec.is_word word (lexeme_of token.now) }
{
    match token.kind {
        TokenKind::Word(found) => same_word(found, word),
        _ => false,
    }
}

// Whether a type may begin with the word.
fn is_type_word(word: Word) -> bool
    ensures { result ≡ spec.is_type_word word }
{
    matches!(
        word,
        Word::Boolean | Word::Integer | Word::Char | Word::Character | Word::Tuple | Word::Relation
    )
}

/// The aggregate of this name.
pub fn aggregate_of(word: Word) -> Option<Aggregate>
    ensures { result ≡ spec.aggregate_of word }
{
    match word {
        Word::Sum => Some(Aggregate::Sum),
        Word::Max => Some(Aggregate::Max),
        Word::Min => Some(Aggregate::Min),
        Word::And => Some(Aggregate::And),
        Word::Or => Some(Aggregate::Or),
        _ => None,
    }
}

/// An infix operator of one word, with the number of its form.
fn infix_word(word: Word) -> Option<(usize, BinaryOperator)>
    ensures { result ≡ grammar.infix_word word }
{
    match word {
        Word::Or => Some((DISJUNCTION, BinaryOperator::Or)),
        Word::Xor => Some((DISJUNCTION, BinaryOperator::Xor)),
        Word::And => Some((CONJUNCTION, BinaryOperator::And)),
        Word::Equals => Some((COMPARISON, BinaryOperator::Equals)),
        Word::Differs => Some((COMPARISON, BinaryOperator::Differs)),
        Word::Less => Some((COMPARISON, BinaryOperator::Less)),
        Word::Greater => Some((COMPARISON, BinaryOperator::Greater)),
        Word::AtMost => Some((COMPARISON, BinaryOperator::AtMost)),
        Word::AtLeast => Some((COMPARISON, BinaryOperator::AtLeast)),
        Word::In => Some((COMPARISON, BinaryOperator::In)),
        Word::Join => Some((RELATIONAL, BinaryOperator::Join)),
        Word::Union => Some((RELATIONAL, BinaryOperator::Union)),
        Word::Intersect => Some((RELATIONAL, BinaryOperator::Intersect)),
        Word::Minus => Some((RELATIONAL, BinaryOperator::Minus)),
        Word::Compose => Some((RELATIONAL, BinaryOperator::Compose)),
        Word::Matching | Word::Semijoin => Some((RELATIONAL, BinaryOperator::Matching)),
        Word::Semiminus => Some((RELATIONAL, BinaryOperator::NotMatching)),
        Word::Plus => Some((ADDITIVE, BinaryOperator::Add)),
        Word::Dash => Some((ADDITIVE, BinaryOperator::Subtract)),
        Word::Bars => Some((ADDITIVE, BinaryOperator::Concatenate)),
        Word::Star => Some((MULTIPLICATIVE, BinaryOperator::Multiply)),
        Word::Slash => Some((MULTIPLICATIVE, BinaryOperator::Divide)),
        _ => None,
    }
}

/// The number of the form that goes on with this word, whatever follows it, or 0.
fn number_of(word: Word) -> usize
    ensures { result ≡ spec.word_number word }
{
    match word {
        Word::Not
        | Word::Where
        | Word::Rename
        | Word::Group
        | Word::Wrap
        | Word::Ungroup
        | Word::Unwrap => RELATIONAL,
        _ => match infix_word(word) {
            Some((number, _)) => number,
            None => NOTHING,
        },
    }
}

impl<'a> Cursor<'a> {
    pub fn new(tokens: &'a [Token<'a>]) -> Cursor<'a>
        requires { list_all fits (map lexeme_of tokens.now) ≡ true }
        ensures { result ≡ map lexeme_of tokens.now }
    {
        Cursor {
            rest: tokens,
            skipped: tokens,
        }
    }

    /// How many tokens are left.
    pub fn len(&self) -> usize
        ensures { result ≡ length self.now }
    {
        self.rest.len()
    }

    /// Whether no token is left.
    pub fn is_empty(&self) -> bool
        ensures { result ≡ spec.is_over self.now }
    {
        matches!(self.rest, [])
    }

    /// The kind of the next token.
    pub fn look(&self) -> Option<TokenKind>
        ensures { result ≡ spec.look self.now }
    {
        match self.rest {
            [] => None,
            [t, ..] => Some(t.kind),
        }
    }

    /// Whether the word comes next.
    #[tactic(auto, unfolding(crate::specs::ForProofs::Reader::at))]
    pub fn at(&self, word: Word) -> bool
        ensures { result ≡ spec.at word self.now }
    {
        match self.rest {
            [] => false,
            [t, ..] => is_word(word, t),
        }
    }

    /// Whether the word comes after the next token.
    #[tactic(auto, unfolding(crate::specs::ForProofs::Reader::at))]
    pub fn then_at(&self, word: Word) -> bool
        ensures { result ≡ spec.at word (spec.tail self.now) }
    {
        match self.rest {
            [_, t, ..] => is_word(word, t),
            _ => false,
        }
    }

    /// Whether a name comes next.
    #[tactic(auto, unfolding(crate::specs::ForProofs::Reader::at_name))]
    pub fn at_name(&self) -> bool
        ensures { result ≡ spec.at_name self.now }
    {
        match self.look() {
            Some(TokenKind::Name) => true,
            _ => false,
        }
    }

    /// Passes over the next token, to which `refuse` goes back. It does nothing at the end.
    pub fn skip(&mut self)
        ensures { self.new ≡ spec.tail self.old }
    {
        if let [_, rest @ ..] = self.rest {
            self.skipped = self.rest;
            self.rest = rest;
        }
    }

    /// Refuses the token that was skipped last, and stands at it again.
    pub fn refuse(&mut self) -> ReadError
        ensures { result ≡ ReadError.Syntax }
    {
        self.rest = self.skipped;
        ReadError::Syntax
    }

    /// Takes the word if it comes next.
    #[tactic(auto, unfolding(crate::specs::ForProofs::Reader::eat))]
    pub fn eat(&mut self, word: Word) -> bool
        ensures { spec.eat word self.old ≡ spec.pure result self.new }
    {
        let found = self.at(word);
        if found {
            self.skip();
        }
        found
    }

    /// Takes the word, which has to come next.
    #[tactic(auto, unfolding(crate::specs::ForProofs::Reader::expect))]
    pub fn expect(&mut self, word: Word) -> Result<(), ReadError>
        ensures { Gives (spec.expect word self.old) result self.new }
    {
        if self.at(word) {
            self.skip();
            Ok(())
        } else {
            Err(ReadError::Syntax)
        }
    }

    /// Takes a name.
    #[tactic(auto, unfolding(crate::specs::ForProofs::Reader::take_name))]
    pub fn name(&mut self, alloc: Global) -> Result<Name, ReadError>
        ensures { Gives (spec.take_name self.old) result self.new }
    {
        match self.rest {
            [t, rest @ ..] if t.kind == TokenKind::Name => {
                let name = Name::new(alloc, t.text)?;
                self.rest = rest;
                Ok(name)
            }
            _ => Err(ReadError::Syntax),
        }
    }

    /// Takes a text literal.
    #[tactic(auto, unfolding(crate::specs::ForProofs::Reader::take_text))]
    pub fn text(&mut self, alloc: Global) -> Result<Text, ReadError>
        ensures { Gives (spec.take_text self.old) result self.new }
    {
        match self.rest {
            [] => Err(ReadError::Syntax),
            [t, rest @ ..] => {
                let text = text_of(alloc, t)?;
                self.rest = rest;
                Ok(text)
            }
        }
    }

    /// Takes an integer.
    #[tactic(auto, unfolding(crate::specs::ForProofs::Reader::take_integer))]
    pub fn integer(&mut self) -> Result<i64, ReadError>
        ensures { Gives (spec.take_integer self.old) result self.new }
    {
        match self.rest {
            [] => Err(ReadError::Syntax),
            [t, rest @ ..] => {
                let number = integer_of(t)?;
                self.rest = rest;
                Ok(number)
            }
        }
    }

    // What stands after the next token.
    fn after(&self) -> Cursor<'a>
        ensures { result ≡ spec.tail self.now }
    {
        let rest = match self.rest {
            [] => self.rest,
            [_, rest @ ..] => rest,
        };
        Cursor {
            rest,
            skipped: self.skipped,
        }
    }

    /// Whether a name and `:=` come next.
    #[tactic(auto, using(crate::proofs::Cursors::target_by_look))]
    pub fn at_target(&self) -> bool
        ensures { result ≡ grammar.target_at self.now }
    {
        self.at_name() && self.then_at(Word::Assign)
    }

    /// Whether a name and `:=` come after the next token.
    pub fn then_target(&self) -> bool
        ensures { result ≡ grammar.target_at (spec.tail self.now) }
    {
        self.after().at_target()
    }

    /// Whether a type comes next.
    #[tactic(auto, unfolding(crate::specs::ForProofs::Reader::at_type))]
    fn at_type(&self) -> bool
        ensures { result ≡ spec.at_type self.now }
    {
        match self.look() {
            Some(TokenKind::Name) => true,
            Some(TokenKind::Word(word)) => is_type_word(word),
            _ => false,
        }
    }

    /// Whether the braces that come next are those of a heading.
    #[tactic(auto, unfolding(crate::specs::ForProofs::Reader::has_heading))]
    pub fn has_heading(&self) -> bool
        ensures { result ≡ spec.has_heading self.now }
    {
        let inside = self.after();
        inside.at(Word::CloseBrace) || inside.at_name() && inside.after().at_type()
    }

    /// The number of the form that goes on here, or 0.
    #[tactic(auto, using(crate::proofs::Cursors::binds_by_look))]
    pub fn binds(&self) -> usize
        ensures { result ≡ grammar.binds self.now }
    {
        if self.at(Word::OpenBrace) {
            return if self.then_target() {
                NOTHING
            } else {
                PROJECTION
            };
        }
        match self.look() {
            Some(TokenKind::Word(word)) => number_of(word),
            _ => NOTHING,
        }
    }

    /// Takes an infix operator.
    #[tactic(auto, unfolding(crate::specs::ForProofs::Reader::take_infix), using(crate::proofs::Cursors::infix_by_look))]
    pub fn infix(&mut self) -> Result<BinaryOperator, ReadError>
        ensures { Gives (spec.take_infix self.old) result self.new }
    {
        if self.at(Word::Not) {
            self.skip();
            if !self.at(Word::Matching) {
                return Err(ReadError::Syntax);
            }
            self.skip();
            return Ok(BinaryOperator::NotMatching);
        }
        let Some(TokenKind::Word(word)) = self.look() else {
            return Err(ReadError::Syntax);
        };
        let Some((_, operator)) = infix_word(word) else {
            return Err(ReadError::Syntax);
        };
        self.skip();
        Ok(operator)
    }
}

// The characters of the literal that the token is.
fn text_of(alloc: Global, token: &Token<'_>) -> Result<Text, ReadError>
    ensures { Tells (spec.text_of (lexeme_of token.now)) result }
{
    match token.kind {
        TokenKind::Text => Ok(Text::new(alloc, token.characters(alloc)?)?),
        _ => Err(ReadError::Syntax),
    }
}

// The integer that the token is.
fn integer_of(token: &Token<'_>) -> Result<i64, ReadError>
    requires { fits (lexeme_of token.now) ≡ true }
    ensures { Tells (spec.integer_of (lexeme_of token.now)) result }
{
    match token.kind {
        TokenKind::Int(number) => Ok(number as i64),
        _ => Err(ReadError::Syntax),
    }
}
