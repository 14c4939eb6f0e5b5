//! What the tokens of a text are.

ghost use Rattle.std.specs.Prelude.{◌≡◌, IfOk, string_bytes};
ghost use Rattle.td_tokens.specs.Lex.{text};
ghost use Rattle.td_tokens.specs.View.{lexeme_of};

use std::alloc::{AllocError, Global};

/// A keyword or a symbol.
#[derive(Clone, Copy, PartialEq, Eq)]
pub enum Word {
    Add,
    All,
    And,
    As,
    Base,
    Boolean,
    But,
    By,
    Char,
    Character,
    Compose,
    Constraint,
    Count,
    Delete,
    Else,
    End,
    Extend,
    False,
    From,
    Group,
    If,
    In,
    Init,
    Insert,
    Integer,
    Intersect,
    IsEmpty,
    Join,
    Key,
    Matching,
    Max,
    Min,
    Minus,
    Not,
    Or,
    Per,
    Possrep,
    Real,
    Relation,
    Rename,
    Semijoin,
    Semiminus,
    Sum,
    Summarize,
    TableDee,
    TableDum,
    Tclose,
    Then,
    True,
    Tuple,
    Type,
    Ungroup,
    Union,
    Unwrap,
    Update,
    Var,
    Virtual,
    Where,
    With,
    Wrap,
    Xor,
    OpenParenthesis,
    CloseParenthesis,
    OpenBrace,
    CloseBrace,
    Comma,
    Semicolon,
    Colon,
    Assign,
    Equals,
    Differs,
    Less,
    Greater,
    AtMost,
    AtLeast,
    Plus,
    Dash,
    Star,
    Slash,
    Bars,
}

/// What a token is, with the value of an integer.
#[derive(Clone, Copy, PartialEq, Eq)]
pub enum TokenKind {
    Word(Word),
    Name,
    Int(u64),
    Text,
}

/// A token and the part of the source that it takes: the bytes from `start` up to `end`, in UTF-8.
#[derive(Clone, Copy)]
pub struct Token<'a> {
    pub kind: TokenKind,
    pub text: &'a str,
    pub start: usize,
    pub end: usize,
}

impl Token<'_> {
    /// The characters of a text literal: without its quotes, and each doubled quote inside once.
    pub fn characters(&self, alloc: Global) -> Result<String, AllocError>
        requires { self.now.kind ≡ TokenKind.Text }
        ensures { IfOk result (λ s. text (string_bytes s) ≡ lexeme_of self.now) }
    {
        let mut characters = String::new(alloc);
        let mut after_quote = false;
        let rest = self.text.strip_prefix('\'').unwrap_or(self.text);
        for c in rest.chars() {
            if c == '\'' && !after_quote {
                after_quote = true;
            } else {
                characters.push(c)?;
                after_quote = false;
            }
        }
        Ok(characters)
    }
}
