//! Definitions from tokens.

ghost use Rattle.std.specs.Prelude.{◌≡◌, length, List, []};
ghost use Rattle.td_grammar.specs.ForProofs.Reader.{reads};
ghost use Rattle.td_grammar.specs.ForProofs.Readings.{Gives, Nests, Tells};
ghost use Rattle.td_grammar.specs.ForProofs.StatementReader as spec;

use crate::cursor::Cursor;
use crate::error::ReadError;
use crate::forms::Form;
use crate::grammar::{Grammar, Tree};
use crate::lists::attributes;
use crate::types::{components, heading};
use sqlite_items::Items;
use std::alloc::Global;
use td_syntax::script::{Definition, Opening};
use td_syntax::tree::Attributes;
use td_tokens::token::Word;
use td_values::Name;

// Takes a name if one comes next, and else nothing.
#[tactic(auto, unfolding(crate::specs::ForProofs::StatementReader::maybe_name))]
fn maybe_name(alloc: Global, tokens: &mut Cursor<'_>) -> Result<Option<Name>, ReadError>
    ensures { Gives (spec.maybe_name tokens.old) result tokens.new }
{
    if tokens.at_name() {
        return Ok(Some(tokens.name(alloc)?));
    }
    Ok(None)
}

// The keys of a relvar, one or more: `KEY {a} KEY {b, c}`.
fn keys(alloc: Global, tokens: &mut Cursor<'_>) -> Result<Items<Attributes>, ReadError>
    ensures { Gives (spec.keys_at tokens.old) result tokens.new }
{
    let mut found = Items::new(alloc);
    for _turn in 0..tokens.len() {
        tokens.expect(Word::Key)?;
        found.push(attributes(alloc, tokens)?)?;
        if !tokens.at(Word::Key) {
            return Ok(found);
        }
    }
    Err(ReadError::Syntax)
}

impl<F: Fn(Global, &mut Cursor<'_>, usize, usize, Form) -> Result<Tree, ReadError>> Grammar<F> {
    // The name after TYPE, and what it names.
    #[tactic(auto, unfolding(crate::specs::ForProofs::StatementReader::type_definition))]
    fn type_definition(&self, tokens: &mut Cursor<'_>) -> Result<Definition, ReadError>
        requires { Nests self.now.depth (F.pre self.now.nested) (F.post self.now.nested) }
        ensures { Gives (spec.type_definition (reads self.now.depth) self.now.levels tokens.old) result tokens.new }
    {
        let name = tokens.name(self.alloc)?;
        tokens.expect(Word::Possrep)?;
        let possrep = maybe_name(self.alloc, tokens)?;
        tokens.expect(Word::OpenBrace)?;
        let components = components(self.alloc, tokens)?;
        let constraint = self.behind(tokens, Word::Constraint)?;
        tokens.expect(Word::CloseBrace)?;
        tokens.expect(Word::Semicolon)?;
        Ok(Definition::Type(name, possrep, components, constraint))
    }

    // An expression in round brackets.
    #[tactic(auto, unfolding(crate::specs::ForProofs::StatementReader::bracketed))]
    fn bracketed(&self, tokens: &mut Cursor<'_>) -> Result<Tree, ReadError>
        requires { Nests self.now.depth (F.pre self.now.nested) (F.post self.now.nested) }
        ensures { Gives (spec.bracketed (reads self.now.depth) self.now.levels tokens.old) result tokens.new }
    {
        tokens.expect(Word::OpenParenthesis)?;
        let inside = self.inner(tokens)?;
        tokens.expect(Word::CloseParenthesis)?;
        Ok(inside)
    }

    // What a base relvar holds at first: `RELATION {a INTEGER}`, `INIT (x)`, or the two in this order.
    #[tactic(auto, unfolding(crate::specs::ForProofs::StatementReader::opening_at))]
    fn opening(&self, tokens: &mut Cursor<'_>) -> Result<Opening, ReadError>
        requires { Nests self.now.depth (F.pre self.now.nested) (F.post self.now.nested) }
        ensures { Gives (spec.opening_at (reads self.now.depth) self.now.levels tokens.old) result tokens.new }
    {
        if tokens.eat(Word::Relation) {
            let heading = heading(self.alloc, tokens)?;
            if tokens.eat(Word::Init) {
                return Ok(Opening::Init(Some(heading), self.bracketed(tokens)?));
            }
            return Ok(Opening::Empty(heading));
        }
        tokens.expect(Word::Init)?;
        Ok(Opening::Init(None, self.bracketed(tokens)?))
    }

    // What follows BASE or REAL: what the relvar of this name holds at first, its keys, and a semicolon.
    #[tactic(auto, unfolding(crate::specs::ForProofs::StatementReader::base_definition))]
    fn base_definition(&self, tokens: &mut Cursor<'_>, name: Name) -> Result<Definition, ReadError>
        requires { Nests self.now.depth (F.pre self.now.nested) (F.post self.now.nested) }
        ensures { Gives (spec.base_definition (reads self.now.depth) self.now.levels name tokens.old) result tokens.new }
    {
        let opening = self.opening(tokens)?;
        let keys = keys(self.alloc, tokens)?;
        tokens.expect(Word::Semicolon)?;
        Ok(Definition::Base(name, opening, keys))
    }

    // What follows VIRTUAL: the expression whose value the relvar of this name has, `(x);`.
    #[tactic(auto, unfolding(crate::specs::ForProofs::StatementReader::virtual_definition))]
    fn virtual_definition(
        &self,
        tokens: &mut Cursor<'_>,
        name: Name,
    ) -> Result<Definition, ReadError>
        requires { Nests self.now.depth (F.pre self.now.nested) (F.post self.now.nested) }
        ensures { Gives (spec.virtual_definition (reads self.now.depth) self.now.levels name tokens.old) result tokens.new }
    {
        let value = self.bracketed(tokens)?;
        tokens.expect(Word::Semicolon)?;
        Ok(Definition::Virtual(name, value))
    }

    // The name after VAR, and what it names.
    #[tactic(auto, unfolding(crate::specs::ForProofs::StatementReader::relvar_definition))]
    fn relvar_definition(&self, tokens: &mut Cursor<'_>) -> Result<Definition, ReadError>
        requires { Nests self.now.depth (F.pre self.now.nested) (F.post self.now.nested) }
        ensures { Gives (spec.relvar_definition (reads self.now.depth) self.now.levels tokens.old) result tokens.new }
    {
        let name = tokens.name(self.alloc)?;
        if tokens.at(Word::Base) {
            tokens.skip();
            return self.base_definition(tokens, name);
        }
        if tokens.at(Word::Real) {
            tokens.skip();
            return self.base_definition(tokens, name);
        }
        tokens.expect(Word::Virtual)?;
        self.virtual_definition(tokens, name)
    }

    // The name after CONSTRAINT, and what has to be true.
    #[tactic(auto, unfolding(crate::specs::ForProofs::StatementReader::constraint_definition))]
    fn constraint_definition(&self, tokens: &mut Cursor<'_>) -> Result<Definition, ReadError>
        requires { Nests self.now.depth (F.pre self.now.nested) (F.post self.now.nested) }
        ensures { Gives (spec.constraint_definition (reads self.now.depth) self.now.levels tokens.old) result tokens.new }
    {
        let name = tokens.name(self.alloc)?;
        let condition = self.inner(tokens)?;
        tokens.expect(Word::Semicolon)?;
        Ok(Definition::Constraint(name, condition))
    }

    // One definition of a script, which begins with TYPE, VAR or CONSTRAINT, with the semicolon that ends it.
    #[tactic(auto, unfolding(crate::specs::ForProofs::StatementReader::definition_at))]
    fn definition(&self, tokens: &mut Cursor<'_>) -> Result<Definition, ReadError>
        requires { Nests self.now.depth (F.pre self.now.nested) (F.post self.now.nested) }
        ensures { Gives (spec.definition_at (reads self.now.depth) self.now.levels tokens.old) result tokens.new }
    {
        if tokens.at(Word::Type) {
            tokens.skip();
            return self.type_definition(tokens);
        }
        if tokens.at(Word::Var) {
            tokens.skip();
            return self.relvar_definition(tokens);
        }
        tokens.expect(Word::Constraint)?;
        self.constraint_definition(tokens)
    }

    /// The definitions up to the end.
    pub fn definitions(&self, tokens: &mut Cursor<'_>) -> Result<Items<Definition>, ReadError>
        requires { Nests self.now.depth (F.pre self.now.nested) (F.post self.now.nested) }
        ensures { Tells (spec.definitions_from (reads self.now.depth) self.now.levels (length tokens.old) [] tokens.old) result }
    {
        let mut found = Items::new(self.alloc);
        for _turn in 0..tokens.len() {
            if tokens.is_empty() {
                return Ok(found);
            }
            found.push(self.definition(tokens)?)?;
        }
        if tokens.is_empty() {
            Ok(found)
        } else {
            Err(ReadError::Syntax)
        }
    }
}
