//! Lists of expressions.

ghost use Rattle.std.specs.Prelude.{◌≡◌, IfOk};
ghost use Rattle.td_grammar.specs.ForProofs.Reader as spec;
ghost use Rattle.td_grammar.specs.ForProofs.Reader.{reads};
ghost use Rattle.td_grammar.specs.ForProofs.Readings.{Gives, Nests};

use crate::cursor::{Cursor, aggregate_of, same_word};
use crate::error::ReadError;
use crate::forms::{Form, Naming};
use crate::grammar::{Grammar, Tree};
use crate::lists::{list, listed};
use sqlite_items::Items;
use std::alloc::Global;
use td_syntax::tree::{Aggregate, Named, SummaryTerm};
use td_tokens::token::{TokenKind, Word};

impl<F: Fn(Global, &mut Cursor<'_>, usize, usize, Form) -> Result<Tree, ReadError>> Grammar<F> {
    /// One or more expressions with commas between, and the word that closes them: `x, y}`.
    pub fn exprs_listed(&self, tokens: &mut Cursor<'_>, end: Word) -> Result<Items<Tree>, ReadError>
        requires { Nests self.now.depth (F.pre self.now.nested) (F.post self.now.nested) }
        ensures { Gives (spec.listed end (spec.inner (reads self.now.depth) self.now.levels) tokens.old) result tokens.new }
    {
        let item = |tokens: &mut Cursor<'_>| self.inner(tokens);
        listed(self.alloc, tokens, end, item)
    }

    /// Any number of expressions with commas between, and the word that closes them: `x, y)`, or `)` alone.
    #[tactic(auto, unfolding(crate::specs::ForProofs::Reader::up_to))]
    pub fn exprs_up_to(&self, tokens: &mut Cursor<'_>, end: Word) -> Result<Items<Tree>, ReadError>
        requires { Nests self.now.depth (F.pre self.now.nested) (F.post self.now.nested) }
        ensures { Gives (spec.up_to end (spec.inner (reads self.now.depth) self.now.levels) tokens.old) result tokens.new }
    {
        if tokens.eat(end) {
            return Ok(Items::new(self.alloc));
        }
        self.exprs_listed(tokens, end)
    }

    /// An expression with a name.
    #[tactic(auto, unfolding(crate::specs::ForProofs::Reader::named_at))]
    pub fn named(&self, tokens: &mut Cursor<'_>, naming: Naming) -> Result<Named<Tree>, ReadError>
        requires { Nests self.now.depth (F.pre self.now.nested) (F.post self.now.nested) }
        ensures { Gives (spec.named_at (reads self.now.depth) self.now.levels naming tokens.old) result tokens.new }
    {
        match naming {
            Naming::After => {
                let value = self.inner(tokens)?;
                tokens.expect(Word::As)?;
                let name = tokens.name(self.alloc)?;
                Ok(Named { name, value })
            }
            Naming::Assigned => {
                let name = tokens.name(self.alloc)?;
                tokens.expect(Word::Assign)?;
                let value = self.inner(tokens)?;
                Ok(Named { name, value })
            }
            Naming::Beside => {
                let name = tokens.name(self.alloc)?;
                let value = self.inner(tokens)?;
                Ok(Named { name, value })
            }
        }
    }

    /// One or more expressions with names, with commas between: `x AS a, y AS b`.
    pub fn named_list(
        &self,
        tokens: &mut Cursor<'_>,
        naming: Naming,
    ) -> Result<Items<Named<Tree>>, ReadError>
        requires { Nests self.now.depth (F.pre self.now.nested) (F.post self.now.nested) }
        ensures { Gives (spec.list_at (spec.named_at (reads self.now.depth) self.now.levels naming) tokens.old) result tokens.new }
    {
        let item = |tokens: &mut Cursor<'_>| self.named(tokens, naming);
        list(self.alloc, tokens, item)
    }

    /// One or more expressions with names, with commas between, and the word that closes them: `x AS a, y AS b)`.
    #[tactic(auto, unfolding(crate::specs::ForProofs::Reader::listed))]
    pub fn named_listed(
        &self,
        tokens: &mut Cursor<'_>,
        end: Word,
        naming: Naming,
    ) -> Result<Items<Named<Tree>>, ReadError>
        requires { Nests self.now.depth (F.pre self.now.nested) (F.post self.now.nested) }
        ensures { Gives (spec.listed end (spec.named_at (reads self.now.depth) self.now.levels naming) tokens.old) result tokens.new }
    {
        let found = self.named_list(tokens, naming)?;
        tokens.expect(end)?;
        Ok(found)
    }

    /// Any number of expressions with names, with commas between, and the word that closes them: `a x, b y}`, or `}`
    /// alone.
    #[tactic(auto, unfolding(crate::specs::ForProofs::Reader::up_to))]
    pub fn named_up_to(
        &self,
        tokens: &mut Cursor<'_>,
        end: Word,
        naming: Naming,
    ) -> Result<Items<Named<Tree>>, ReadError>
        requires { Nests self.now.depth (F.pre self.now.nested) (F.post self.now.nested) }
        ensures { Gives (spec.up_to end (spec.named_at (reads self.now.depth) self.now.levels naming) tokens.old) result tokens.new }
    {
        if tokens.eat(end) {
            return Ok(Items::new(self.alloc));
        }
        self.named_listed(tokens, end, naming)
    }

    /// What follows COUNT in a summary: `()`, or nothing.
    #[tactic(auto, unfolding(crate::specs::ForProofs::Reader::counted))]
    pub fn counted(&self, tokens: &mut Cursor<'_>) -> Result<SummaryTerm<Tree>, ReadError>
        requires { Nests self.now.depth (F.pre self.now.nested) (F.post self.now.nested) }
        ensures { Gives (spec.counted (reads self.now.depth) self.now.levels tokens.old) result tokens.new }
    {
        let opened = tokens.eat(Word::OpenParenthesis);
        shut(tokens, opened)?;
        Ok(SummaryTerm::Count)
    }

    /// What follows the word of an aggregate in a summary: its term in round brackets, `(x)`.
    #[tactic(auto, unfolding(crate::specs::ForProofs::Reader::summed))]
    pub fn summed(
        &self,
        tokens: &mut Cursor<'_>,
        aggregate: Aggregate,
    ) -> Result<SummaryTerm<Tree>, ReadError>
        requires { Nests self.now.depth (F.pre self.now.nested) (F.post self.now.nested) }
        ensures { Gives (spec.summed (reads self.now.depth) self.now.levels aggregate tokens.old) result tokens.new }
    {
        tokens.expect(Word::OpenParenthesis)?;
        let term = self.inner(tokens)?;
        tokens.expect(Word::CloseParenthesis)?;
        Ok(SummaryTerm::Of(aggregate, term))
    }

    /// A summary that begins with this word, which is taken already. A word with which none begins is refused, and
    /// comes next again.
    pub fn summary_word(
        &self,
        tokens: &mut Cursor<'_>,
        word: Word,
    ) -> Result<SummaryTerm<Tree>, ReadError>
        requires { Nests self.now.depth (F.pre self.now.nested) (F.post self.now.nested) }
        ensures { Gives (spec.summary_word (reads self.now.depth) self.now.levels word tokens.old) result tokens.new }
    {
        if same_word(word, Word::Count) {
            return self.counted(tokens);
        }
        match aggregate_of(word) {
            Some(aggregate) => self.summed(tokens, aggregate),
            None => Err(tokens.refuse()),
        }
    }

    /// A summary without its name: `COUNT`, `COUNT()`, `SUM(x)`.
    #[tactic(auto, unfolding(crate::specs::ForProofs::Reader::summary_at))]
    pub fn summary(&self, tokens: &mut Cursor<'_>) -> Result<SummaryTerm<Tree>, ReadError>
        requires { Nests self.now.depth (F.pre self.now.nested) (F.post self.now.nested) }
        ensures { Gives (spec.summary_at (reads self.now.depth) self.now.levels tokens.old) result tokens.new }
    {
        match tokens.look() {
            Some(TokenKind::Word(word)) => {
                tokens.skip();
                self.summary_word(tokens, word)
            }
            _ => Err(ReadError::Syntax),
        }
    }

    /// A summary with a name.
    #[tactic(auto, unfolding(crate::specs::ForProofs::Reader::named_summary))]
    pub fn named_summary(
        &self,
        tokens: &mut Cursor<'_>,
        naming: Naming,
    ) -> Result<Named<SummaryTerm<Tree>>, ReadError>
        requires { Nests self.now.depth (F.pre self.now.nested) (F.post self.now.nested) }
        ensures { Gives (spec.named_summary (reads self.now.depth) self.now.levels naming tokens.old) result tokens.new }
    {
        match naming {
            Naming::After => {
                let value = self.summary(tokens)?;
                tokens.expect(Word::As)?;
                let name = tokens.name(self.alloc)?;
                Ok(Named { name, value })
            }
            Naming::Assigned => {
                let name = tokens.name(self.alloc)?;
                tokens.expect(Word::Assign)?;
                let value = self.summary(tokens)?;
                Ok(Named { name, value })
            }
            Naming::Beside => Err(ReadError::Syntax),
        }
    }

    /// One or more summaries with names, with commas between, and the word that closes them:
    /// `SUM(x) AS a, COUNT AS b)`.
    pub fn summary_listed(
        &self,
        tokens: &mut Cursor<'_>,
        end: Word,
        naming: Naming,
    ) -> Result<Items<Named<SummaryTerm<Tree>>>, ReadError>
        requires { Nests self.now.depth (F.pre self.now.nested) (F.post self.now.nested) }
        ensures { Gives (spec.listed end (spec.named_summary (reads self.now.depth) self.now.levels naming) tokens.old) result tokens.new }
    {
        let item = |tokens: &mut Cursor<'_>| self.named_summary(tokens, naming);
        listed(self.alloc, tokens, end, item)
    }

    /// The summaries of SUMMARIZE: `ADD (SUM(x) AS a, ..)` or `: {a := SUM(x), ..}`.
    #[tactic(auto, unfolding(crate::specs::ForProofs::Reader::summaries))]
    pub fn summaries(
        &self,
        tokens: &mut Cursor<'_>,
    ) -> Result<Items<Named<SummaryTerm<Tree>>>, ReadError>
        requires { Nests self.now.depth (F.pre self.now.nested) (F.post self.now.nested) }
        ensures { Gives (spec.summaries (reads self.now.depth) self.now.levels tokens.old) result tokens.new }
    {
        if tokens.eat(Word::Add) {
            tokens.expect(Word::OpenParenthesis)?;
            return self.summary_listed(tokens, Word::CloseParenthesis, Naming::After);
        }
        tokens.expect(Word::Colon)?;
        tokens.expect(Word::OpenBrace)?;
        self.summary_listed(tokens, Word::CloseBrace, Naming::Assigned)
    }
}

/// Takes the closing bracket, where one was opened.
#[tactic(auto, unfolding(crate::specs::ForProofs::Reader::shut))]
pub fn shut(tokens: &mut Cursor<'_>, opened: bool) -> Result<(), ReadError>
    ensures { Gives (spec.shut opened tokens.old) result tokens.new }
{
    if opened {
        tokens.expect(Word::CloseParenthesis)
    } else {
        Ok(())
    }
}
