//! Types and headings.

ghost use Rattle.std.specs.Prelude.{◌≡◌};
ghost use Rattle.td_grammar.specs.ForProofs.Reader as spec;
ghost use Rattle.td_grammar.specs.ForProofs.Reader.{type_at};
ghost use Rattle.td_grammar.specs.ForProofs.Readings.{Gives, NestsTypes};
ghost use Rattle.td_grammar.specs.ForProofs.StatementReader.{components_at};

use crate::cursor::Cursor;
use crate::error::ReadError;
use crate::lists::{list, up_to};
use sqlite_items::Items;
use std::alloc::Global;
use td_syntax::tree::{Named, TypeExpr};
use td_tokens::token::{TokenKind, Word};

/// Types that nest so deep, by a reader of those one level down.
#[derive(Clone, Copy)]
pub struct Types<F> {
    pub alloc: Global,
    pub depth: usize,
    pub nested: F,
}

impl<F: Fn(Global, &mut Cursor<'_>, usize) -> Result<TypeExpr, ReadError>> Types<F> {
    // A type one level down, by the reader that `nested` is.
    fn nested(&self, tokens: &mut Cursor<'_>) -> Result<TypeExpr, ReadError>
        requires { NestsTypes self.now.depth (F.pre self.now.nested) (F.post self.now.nested) }
        ensures { Gives (type_at self.now.depth tokens.old) result tokens.new }
    {
        (self.nested)(self.alloc, tokens, self.depth)
    }

    // An attribute or a component with its type: `a INTEGER`.
    #[tactic(auto, unfolding(crate::specs::ForProofs::Reader::field_of))]
    fn field(&self, tokens: &mut Cursor<'_>) -> Result<Named<TypeExpr>, ReadError>
        requires { NestsTypes self.now.depth (F.pre self.now.nested) (F.post self.now.nested) }
        ensures { Gives (spec.field_of (type_at self.now.depth) tokens.old) result tokens.new }
    {
        let name = tokens.name(self.alloc)?;
        let value = self.nested(tokens)?;
        Ok(Named { name, value })
    }

    // One or more fields with commas between: `a INTEGER, b CHAR`.
    fn fields(&self, tokens: &mut Cursor<'_>) -> Result<Items<Named<TypeExpr>>, ReadError>
        requires { NestsTypes self.now.depth (F.pre self.now.nested) (F.post self.now.nested) }
        ensures { Gives (spec.list_at (spec.field_of (type_at self.now.depth)) tokens.old) result tokens.new }
    {
        let field = |tokens: &mut Cursor<'_>| self.field(tokens);
        list(self.alloc, tokens, field)
    }

    // A heading in braces, whose types lie one level down: `{a INTEGER, b CHAR}` or `{}`.
    #[tactic(auto, unfolding(crate::specs::ForProofs::Reader::heading_of))]
    fn heading(&self, tokens: &mut Cursor<'_>) -> Result<Items<Named<TypeExpr>>, ReadError>
        requires { NestsTypes self.now.depth (F.pre self.now.nested) (F.post self.now.nested) }
        ensures { Gives (spec.heading_of (type_at self.now.depth) tokens.old) result tokens.new }
    {
        tokens.expect(Word::OpenBrace)?;
        let field = |tokens: &mut Cursor<'_>| self.field(tokens);
        up_to(self.alloc, tokens, Word::CloseBrace, field)
    }

    // A type that begins with this word, which is taken already: behind TUPLE and RELATION comes a heading. A word with
    // which none begins is refused, and comes next again.
    fn word(&self, tokens: &mut Cursor<'_>, word: Word) -> Result<TypeExpr, ReadError>
        requires { NestsTypes self.now.depth (F.pre self.now.nested) (F.post self.now.nested) }
        ensures { Gives (spec.type_word (type_at self.now.depth) word tokens.old) result tokens.new }
    {
        match word {
            Word::Boolean => Ok(TypeExpr::Boolean),
            Word::Integer => Ok(TypeExpr::Integer),
            Word::Char | Word::Character => Ok(TypeExpr::Char),
            Word::Tuple => Ok(TypeExpr::Tuple(self.heading(tokens)?)),
            Word::Relation => Ok(TypeExpr::Relation(self.heading(tokens)?)),
            _ => Err(tokens.refuse()),
        }
    }

    // A type: a word such as INTEGER, `TUPLE {..}`, `RELATION {..}`, or the name of a user-defined type.
    #[tactic(auto, unfolding(crate::specs::ForProofs::Reader::type_of))]
    fn type_expr(&self, tokens: &mut Cursor<'_>) -> Result<TypeExpr, ReadError>
        requires { NestsTypes self.now.depth (F.pre self.now.nested) (F.post self.now.nested) }
        ensures { Gives (spec.type_of (type_at self.now.depth) tokens.old) result tokens.new }
    {
        match tokens.look() {
            Some(TokenKind::Word(word)) => {
                tokens.skip();
                self.word(tokens, word)
            }
            Some(TokenKind::Name) => Ok(TypeExpr::User(tokens.name(self.alloc)?)),
            _ => Err(ReadError::Syntax),
        }
    }
}

/// A type in which types nest no deeper than `depth`. It is `Syntax` at depth 0.
pub fn type_expr(
    alloc: Global,
    tokens: &mut Cursor<'_>,
    depth: usize,
) -> Result<TypeExpr, ReadError>
    ensures { Gives (type_at depth tokens.old) result tokens.new }
{
    if depth == 0 {
        return Err(ReadError::Syntax);
    }
    Types {
        alloc,
        depth: depth - 1,
        nested: type_expr,
    }
    .type_expr(tokens)
}

/// A heading in braces.
pub fn heading(alloc: Global, tokens: &mut Cursor<'_>) -> Result<Items<Named<TypeExpr>>, ReadError>
    ensures { Gives (spec.heading_at tokens.old) result tokens.new }
{
    Types {
        alloc,
        depth: tokens.len(),
        nested: type_expr,
    }
    .heading(tokens)
}

/// Fields with commas between, if a name comes next, and else none.
#[tactic(auto, unfolding(crate::specs::ForProofs::StatementReader::components_at))]
pub fn components(
    alloc: Global,
    tokens: &mut Cursor<'_>,
) -> Result<Items<Named<TypeExpr>>, ReadError>
    ensures { Gives (components_at tokens.old) result tokens.new }
{
    if !tokens.at_name() {
        return Ok(Items::new(alloc));
    }
    Types {
        alloc,
        depth: tokens.len(),
        nested: type_expr,
    }
    .fields(tokens)
}
