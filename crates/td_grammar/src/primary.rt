//! Expressions that no operator begins or goes on with.

ghost use Rattle.td_grammar.specs.ForProofs.Reader as spec;
ghost use Rattle.td_grammar.specs.ForProofs.Reader.{reads};
ghost use Rattle.td_grammar.specs.ForProofs.Readings.{Gives, Nests};

use crate::cursor::{Cursor, aggregate_of};
use crate::error::ReadError;
use crate::forms::{Form, Naming};
use crate::grammar::{Grammar, Tree};
use crate::lists::attributes;
use crate::types::heading;
use std::alloc::Global;
use td_syntax::tree::{Aggregate, Expr, Extension, Groups, UnaryOperator};
use td_tokens::token::{TokenKind, Word};

impl<F: Fn(Global, &mut Cursor<'_>, usize, usize, Form) -> Result<Tree, ReadError>> Grammar<F> {
    /// What follows a round bracket that is taken already: `x)`. The tree may have one level more than another nested
    /// one, since brackets add none.
    #[tactic(auto, unfolding(crate::specs::ForProofs::Reader::brackets))]
    pub fn brackets(&self, tokens: &mut Cursor<'_>) -> Result<Tree, ReadError>
        requires { Nests self.now.depth (F.pre self.now.nested) (F.post self.now.nested) }
        ensures { Gives (spec.brackets (reads self.now.depth) self.now.levels tokens.old) result tokens.new }
    {
        let inside = self.nested(tokens, self.levels + 1, Form::Expr)?;
        tokens.expect(Word::CloseParenthesis)?;
        Ok(inside)
    }

    /// A name with arguments, `P(x, y)` or `P()`, or a name alone. A bracket with a name and `:=` behind it holds the
    /// new values of an UPDATE, and no arguments.
    #[tactic(auto, unfolding(crate::specs::ForProofs::Reader::call))]
    pub fn call(&self, tokens: &mut Cursor<'_>) -> Result<Tree, ReadError>
        requires { Nests self.now.depth (F.pre self.now.nested) (F.post self.now.nested) }
        ensures { Gives (spec.call (reads self.now.depth) self.now.levels tokens.old) result tokens.new }
    {
        let name = tokens.name(self.alloc)?;
        if tokens.at(Word::OpenParenthesis) && !tokens.then_target() {
            tokens.skip();
            let arguments = self.exprs_up_to(tokens, Word::CloseParenthesis)?;
            return Ok(self.tree(Expr::Call(name, arguments))?);
        }
        Ok(self.tree(Expr::Name(name))?)
    }

    /// What follows TUPLE: attributes with their values, `{a x, b y}` or `{}`.
    #[tactic(auto, unfolding(crate::specs::ForProofs::Reader::tuple))]
    pub fn tuple(&self, tokens: &mut Cursor<'_>) -> Result<Tree, ReadError>
        requires { Nests self.now.depth (F.pre self.now.nested) (F.post self.now.nested) }
        ensures { Gives (spec.tuple (reads self.now.depth) self.now.levels tokens.old) result tokens.new }
    {
        tokens.expect(Word::OpenBrace)?;
        let items = self.named_up_to(tokens, Word::CloseBrace, Naming::Beside)?;
        Ok(self.tree(Expr::Tuple(items))?)
    }

    /// What follows RELATION where a heading is written: `{a INTEGER} {t, ..}`, of which either list may be empty.
    #[tactic(auto, unfolding(crate::specs::ForProofs::Reader::headed))]
    pub fn headed(&self, tokens: &mut Cursor<'_>) -> Result<Tree, ReadError>
        requires { Nests self.now.depth (F.pre self.now.nested) (F.post self.now.nested) }
        ensures { Gives (spec.headed (reads self.now.depth) self.now.levels tokens.old) result tokens.new }
    {
        let heading = heading(self.alloc, tokens)?;
        tokens.expect(Word::OpenBrace)?;
        let tuples = self.exprs_up_to(tokens, Word::CloseBrace)?;
        Ok(self.tree(Expr::Relation(Some(heading), tuples))?)
    }

    /// What follows RELATION where no heading is written: one or more tuples, `{t, ..}`.
    #[tactic(auto, unfolding(crate::specs::ForProofs::Reader::unheaded))]
    pub fn unheaded(&self, tokens: &mut Cursor<'_>) -> Result<Tree, ReadError>
        requires { Nests self.now.depth (F.pre self.now.nested) (F.post self.now.nested) }
        ensures { Gives (spec.unheaded (reads self.now.depth) self.now.levels tokens.old) result tokens.new }
    {
        tokens.expect(Word::OpenBrace)?;
        let tuples = self.exprs_listed(tokens, Word::CloseBrace)?;
        Ok(self.tree(Expr::Relation(None, tuples))?)
    }

    /// What follows RELATION in an expression: its tuples, behind a heading or without one.
    #[tactic(auto, unfolding(crate::specs::ForProofs::Reader::relation))]
    pub fn relation(&self, tokens: &mut Cursor<'_>) -> Result<Tree, ReadError>
        requires { Nests self.now.depth (F.pre self.now.nested) (F.post self.now.nested) }
        ensures { Gives (spec.relation (reads self.now.depth) self.now.levels tokens.old) result tokens.new }
    {
        if tokens.has_heading() {
            self.headed(tokens)
        } else {
            self.unheaded(tokens)
        }
    }

    /// An operator of one expression in round brackets.
    #[tactic(auto, unfolding(crate::specs::ForProofs::Reader::applied))]
    pub fn applied(
        &self,
        tokens: &mut Cursor<'_>,
        operator: UnaryOperator,
    ) -> Result<Tree, ReadError>
        requires { Nests self.now.depth (F.pre self.now.nested) (F.post self.now.nested) }
        ensures { Gives (spec.applied (reads self.now.depth) self.now.levels operator tokens.old) result tokens.new }
    {
        tokens.expect(Word::OpenParenthesis)?;
        let operand = self.inner(tokens)?;
        tokens.expect(Word::CloseParenthesis)?;
        Ok(self.tree(Expr::Unary(operator, operand))?)
    }

    /// What follows the word of an aggregate in an expression: `(r, x)` or `(r)`, a relation and the term if it is
    /// written.
    #[tactic(auto, unfolding(crate::specs::ForProofs::Reader::aggregated))]
    pub fn aggregated(
        &self,
        tokens: &mut Cursor<'_>,
        aggregate: Aggregate,
    ) -> Result<Tree, ReadError>
        requires { Nests self.now.depth (F.pre self.now.nested) (F.post self.now.nested) }
        ensures { Gives (spec.aggregated (reads self.now.depth) self.now.levels aggregate tokens.old) result tokens.new }
    {
        tokens.expect(Word::OpenParenthesis)?;
        let relation = self.inner(tokens)?;
        if tokens.eat(Word::Comma) {
            let term = self.inner(tokens)?;
            tokens.expect(Word::CloseParenthesis)?;
            return Ok(self.tree(Expr::Aggregate(aggregate, relation, Some(term)))?);
        }
        tokens.expect(Word::CloseParenthesis)?;
        Ok(self.tree(Expr::Aggregate(aggregate, relation, None))?)
    }

    /// What follows IF in an expression: `c THEN x ELSE y END IF`.
    #[tactic(auto, unfolding(crate::specs::ForProofs::Reader::choice))]
    pub fn choice(&self, tokens: &mut Cursor<'_>) -> Result<Tree, ReadError>
        requires { Nests self.now.depth (F.pre self.now.nested) (F.post self.now.nested) }
        ensures { Gives (spec.choice (reads self.now.depth) self.now.levels tokens.old) result tokens.new }
    {
        let test = self.inner(tokens)?;
        tokens.expect(Word::Then)?;
        let yes = self.inner(tokens)?;
        tokens.expect(Word::Else)?;
        let no = self.inner(tokens)?;
        tokens.expect(Word::End)?;
        tokens.expect(Word::If)?;
        Ok(self.tree(Expr::If(test, yes, no))?)
    }

    /// What follows EXTEND: a relation and its new attributes, `r ADD (x AS a, ..)` or `r : {a := x, ..}`.
    #[tactic(auto, unfolding(crate::specs::ForProofs::Reader::extend))]
    pub fn extend(&self, tokens: &mut Cursor<'_>) -> Result<Tree, ReadError>
        requires { Nests self.now.depth (F.pre self.now.nested) (F.post self.now.nested) }
        ensures { Gives (spec.extend (reads self.now.depth) self.now.levels tokens.old) result tokens.new }
    {
        let relation = self.inner(tokens)?;
        if tokens.eat(Word::Add) {
            tokens.expect(Word::OpenParenthesis)?;
            let added = self.named_listed(tokens, Word::CloseParenthesis, Naming::After)?;
            return Ok(self.tree(Expr::Extend(Extension::Add, relation, added))?);
        }
        tokens.expect(Word::Colon)?;
        tokens.expect(Word::OpenBrace)?;
        let assigned = self.named_listed(tokens, Word::CloseBrace, Naming::Assigned)?;
        Ok(self.tree(Expr::Extend(Extension::Assign, relation, assigned))?)
    }

    /// The groups of SUMMARIZE: `PER r`, `BY {a, b}`, or the whole where neither word comes next.
    #[tactic(auto, unfolding(crate::specs::ForProofs::Reader::groups_at))]
    pub fn groups(&self, tokens: &mut Cursor<'_>) -> Result<Groups<Tree>, ReadError>
        requires { Nests self.now.depth (F.pre self.now.nested) (F.post self.now.nested) }
        ensures { Gives (spec.groups_at (reads self.now.depth) self.now.levels tokens.old) result tokens.new }
    {
        if tokens.eat(Word::Per) {
            return Ok(Groups::Per(self.inner(tokens)?));
        }
        if tokens.eat(Word::By) {
            return Ok(Groups::By(attributes(self.alloc, tokens)?));
        }
        Ok(Groups::Whole)
    }

    /// What follows SUMMARIZE: a relation, its groups and its summaries, `r BY {a} ADD (SUM(x) AS b)`.
    #[tactic(auto, unfolding(crate::specs::ForProofs::Reader::summarize))]
    pub fn summarize(&self, tokens: &mut Cursor<'_>) -> Result<Tree, ReadError>
        requires { Nests self.now.depth (F.pre self.now.nested) (F.post self.now.nested) }
        ensures { Gives (spec.summarize (reads self.now.depth) self.now.levels tokens.old) result tokens.new }
    {
        let relation = self.inner(tokens)?;
        let groups = self.groups(tokens)?;
        let summaries = self.summaries(tokens)?;
        Ok(self.tree(Expr::Summarize(relation, groups, summaries))?)
    }

    /// A primary expression that begins with this word, which is taken already. A word with which none begins is
    /// refused, and comes next again.
    pub fn primary_word(&self, tokens: &mut Cursor<'_>, word: Word) -> Result<Tree, ReadError>
        requires { Nests self.now.depth (F.pre self.now.nested) (F.post self.now.nested) }
        ensures { Gives (spec.primary_word (reads self.now.depth) self.now.levels word tokens.old) result tokens.new }
    {
        match word {
            Word::True => Ok(self.tree(Expr::Truth(true))?),
            Word::False => Ok(self.tree(Expr::Truth(false))?),
            Word::TableDee => Ok(self.tree(Expr::TableDee)?),
            Word::TableDum => Ok(self.tree(Expr::TableDum)?),
            Word::OpenParenthesis => self.brackets(tokens),
            Word::Tuple => self.tuple(tokens),
            Word::Relation => self.relation(tokens),
            Word::IsEmpty => self.applied(tokens, UnaryOperator::IsEmpty),
            Word::Count => self.applied(tokens, UnaryOperator::Count),
            Word::If => self.choice(tokens),
            Word::Extend => self.extend(tokens),
            Word::Summarize => self.summarize(tokens),
            _ => match aggregate_of(word) {
                Some(aggregate) => self.aggregated(tokens, aggregate),
                None => Err(tokens.refuse()),
            },
        }
    }

    /// A primary expression: a literal, a name with arguments or without, or one that a word or a bracket begins.
    #[tactic(auto, unfolding(crate::specs::ForProofs::Reader::primary_at))]
    pub fn primary(&self, tokens: &mut Cursor<'_>) -> Result<Tree, ReadError>
        requires { Nests self.now.depth (F.pre self.now.nested) (F.post self.now.nested) }
        ensures { Gives (spec.primary_at (reads self.now.depth) self.now.levels tokens.old) result tokens.new }
    {
        match tokens.look() {
            None => Err(ReadError::Syntax),
            Some(TokenKind::Int(_)) => {
                let number = tokens.integer()?;
                Ok(self.tree(Expr::Integer(number))?)
            }
            Some(TokenKind::Text) => {
                let text = tokens.text(self.alloc)?;
                Ok(self.tree(Expr::Text(text))?)
            }
            Some(TokenKind::Name) => self.call(tokens),
            Some(TokenKind::Word(word)) => {
                tokens.skip();
                self.primary_word(tokens, word)
            }
        }
    }
}
