//! Statements from tokens.

ghost use Rattle.std.specs.Prelude.{◌≡◌};
ghost use Rattle.td_grammar.specs.ForProofs.Reader.{reads};
ghost use Rattle.td_grammar.specs.ForProofs.Readings.{Gives, Nests};
ghost use Rattle.td_grammar.specs.ForProofs.StatementReader as spec;
ghost use Rattle.td_grammar.specs.Statements as grammar;

use crate::cursor::Cursor;
use crate::error::ReadError;
use crate::forms::{Form, Naming};
use crate::grammar::{Grammar, Tree};
use crate::lists::listed;
use sqlite_items::Items;
use std::alloc::Global;
use td_syntax::script::{Action, Statement};
use td_syntax::tree::Named;
use td_tokens::token::Word;

impl<F: Fn(Global, &mut Cursor<'_>, usize, usize, Form) -> Result<Tree, ReadError>> Grammar<F> {
    // The attributes of an UPDATE with their new values.
    #[tactic(auto, unfolding(crate::specs::ForProofs::StatementReader::sets_at))]
    fn sets(&self, tokens: &mut Cursor<'_>) -> Result<Items<Named<Tree>>, ReadError>
        requires { Nests self.now.depth (F.pre self.now.nested) (F.post self.now.nested) }
        ensures { Gives (spec.sets_at (reads self.now.depth) self.now.levels tokens.old) result tokens.new }
    {
        if tokens.eat(Word::OpenParenthesis) {
            return self.named_listed(tokens, Word::CloseParenthesis, Naming::Assigned);
        }
        tokens.eat(Word::Colon);
        tokens.expect(Word::OpenBrace)?;
        self.named_listed(tokens, Word::CloseBrace, Naming::Assigned)
    }

    /// An expression behind the word, if the word comes next.
    #[tactic(auto, unfolding(crate::specs::ForProofs::StatementReader::behind))]
    pub fn behind(&self, tokens: &mut Cursor<'_>, word: Word) -> Result<Option<Tree>, ReadError>
        requires { Nests self.now.depth (F.pre self.now.nested) (F.post self.now.nested) }
        ensures { Gives (spec.behind (reads self.now.depth) self.now.levels word tokens.old) result tokens.new }
    {
        if tokens.eat(word) {
            return Ok(Some(self.inner(tokens)?));
        }
        Ok(None)
    }

    // An assignment of a relation to a relvar: `R := x`.
    #[tactic(auto, unfolding(crate::specs::ForProofs::StatementReader::assigned))]
    fn assigned(&self, tokens: &mut Cursor<'_>) -> Result<Action, ReadError>
        requires { Nests self.now.depth (F.pre self.now.nested) (F.post self.now.nested) }
        ensures { Gives (spec.assigned (reads self.now.depth) self.now.levels tokens.old) result tokens.new }
    {
        let target = tokens.name(self.alloc)?;
        tokens.expect(Word::Assign)?;
        Ok(Action::Assign(target, self.inner(tokens)?))
    }

    // What follows INSERT: a relvar, and the relation that goes into it, `R x`.
    #[tactic(auto, unfolding(crate::specs::ForProofs::StatementReader::inserted))]
    fn inserted(&self, tokens: &mut Cursor<'_>) -> Result<Action, ReadError>
        requires { Nests self.now.depth (F.pre self.now.nested) (F.post self.now.nested) }
        ensures { Gives (spec.inserted (reads self.now.depth) self.now.levels tokens.old) result tokens.new }
    {
        let target = tokens.name(self.alloc)?;
        Ok(Action::Insert(target, self.inner(tokens)?))
    }

    // What follows DELETE: a relvar, and a condition if it is written, `R WHERE c`.
    #[tactic(auto, unfolding(crate::specs::ForProofs::StatementReader::deleted))]
    fn deleted(&self, tokens: &mut Cursor<'_>) -> Result<Action, ReadError>
        requires { Nests self.now.depth (F.pre self.now.nested) (F.post self.now.nested) }
        ensures { Gives (spec.deleted (reads self.now.depth) self.now.levels tokens.old) result tokens.new }
    {
        let target = tokens.name(self.alloc)?;
        Ok(Action::Delete(target, self.behind(tokens, Word::Where)?))
    }

    // What follows UPDATE: a relvar, a condition if it is written, and attributes with new values:
    // `R WHERE c (a := x)`.
    #[tactic(auto, unfolding(crate::specs::ForProofs::StatementReader::updated))]
    fn updated(&self, tokens: &mut Cursor<'_>) -> Result<Action, ReadError>
        requires { Nests self.now.depth (F.pre self.now.nested) (F.post self.now.nested) }
        ensures { Gives (spec.updated (reads self.now.depth) self.now.levels tokens.old) result tokens.new }
    {
        let target = tokens.name(self.alloc)?;
        let condition = self.behind(tokens, Word::Where)?;
        Ok(Action::Update(target, condition, self.sets(tokens)?))
    }

    // One of the assignments of a statement: INSERT, DELETE, UPDATE, or `R := x`. The comma or semicolon behind it is
    // not taken.
    #[tactic(auto, unfolding(crate::specs::ForProofs::StatementReader::action_at))]
    fn action(&self, tokens: &mut Cursor<'_>) -> Result<Action, ReadError>
        requires { Nests self.now.depth (F.pre self.now.nested) (F.post self.now.nested) }
        ensures { Gives (spec.action_at (reads self.now.depth) self.now.levels tokens.old) result tokens.new }
    {
        if tokens.at(Word::Insert) {
            tokens.skip();
            return self.inserted(tokens);
        }
        if tokens.at(Word::Delete) {
            tokens.skip();
            return self.deleted(tokens);
        }
        if tokens.at(Word::Update) {
            tokens.skip();
            return self.updated(tokens);
        }
        self.assigned(tokens)
    }

    // Actions, with the semicolon that ends them.
    #[tactic(auto, unfolding(crate::specs::ForProofs::StatementReader::actions_at))]
    fn actions(&self, tokens: &mut Cursor<'_>) -> Result<Items<Action>, ReadError>
        requires { Nests self.now.depth (F.pre self.now.nested) (F.post self.now.nested) }
        ensures { Gives (spec.actions_at (reads self.now.depth) self.now.levels tokens.old) result tokens.new }
    {
        let action = |tokens: &mut Cursor<'_>| self.action(tokens);
        listed(self.alloc, tokens, Word::Semicolon, action)
    }

    // The actions behind ELSE, if it comes next, and else none.
    #[tactic(auto, unfolding(crate::specs::ForProofs::StatementReader::otherwise))]
    fn otherwise(&self, tokens: &mut Cursor<'_>) -> Result<Items<Action>, ReadError>
        requires { Nests self.now.depth (F.pre self.now.nested) (F.post self.now.nested) }
        ensures { Gives (spec.otherwise (reads self.now.depth) self.now.levels tokens.old) result tokens.new }
    {
        if tokens.eat(Word::Else) {
            return self.actions(tokens);
        }
        Ok(Items::new(self.alloc))
    }

    // What follows IF in a statement: `c THEN .. ELSE .. END IF;`, whose ELSE may be missing.
    #[tactic(auto, unfolding(crate::specs::ForProofs::StatementReader::conditional))]
    fn conditional(&self, tokens: &mut Cursor<'_>) -> Result<Statement, ReadError>
        requires { Nests self.now.depth (F.pre self.now.nested) (F.post self.now.nested) }
        ensures { Gives (spec.conditional (reads self.now.depth) self.now.levels tokens.old) result tokens.new }
    {
        let condition = self.inner(tokens)?;
        tokens.expect(Word::Then)?;
        let yes = self.actions(tokens)?;
        let no = self.otherwise(tokens)?;
        tokens.expect(Word::End)?;
        tokens.expect(Word::If)?;
        tokens.expect(Word::Semicolon)?;
        Ok(Statement::Conditional(condition, yes, no))
    }

    /// A statement, with the semicolon that ends it.
    #[tactic(auto, unfolding(crate::specs::ForProofs::StatementReader::statement_at))]
    pub fn statement(&self, tokens: &mut Cursor<'_>) -> Result<Statement, ReadError>
        requires { Nests self.now.depth (F.pre self.now.nested) (F.post self.now.nested) }
        ensures { Gives (spec.statement_at (reads self.now.depth) self.now.levels tokens.old) result tokens.new }
    {
        if tokens.at(Word::If) {
            tokens.skip();
            return self.conditional(tokens);
        }
        Ok(Statement::Assignment(self.actions(tokens)?))
    }
}

/// The dialect in which the statement's form came.
pub fn since(statement: &Statement) -> u8
    ensures { result ≡ grammar.since statement.now }
{
    match statement {
        Statement::Assignment(_) => 1,
        Statement::Conditional(_, _, _) => 2,
    }
}
