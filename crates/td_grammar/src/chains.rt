//! Operators, and what they stand between.

ghost use Rattle.td_grammar.specs.ForProofs.Reader as spec;
ghost use Rattle.td_grammar.specs.ForProofs.Reader.{Reader, reads};
ghost use Rattle.td_grammar.specs.ForProofs.Readings.{Follows, Gives, GoesOn, Nests};

use crate::binding::{
    ADDITIVE, COMPARISON, CONJUNCTION, DISJUNCTION, MULTIPLICATIVE, NOTHING, PROJECTION, RELATIONAL,
};
use crate::cursor::Cursor;
use crate::error::ReadError;
use crate::forms::{Form, Naming};
use crate::grammar::{Grammar, Tree};
use crate::items::shut;
use crate::lists::{attributes, renamings};
use sqlite_items::Boxed;
use std::alloc::Global;
use td_syntax::tree::{Expr, Nesting, UnaryOperator};
use td_tokens::token::{TokenKind, Word};

// The projection of a tree: what stands behind it is a list of attributes in braces, `{a, b}` or `{ALL BUT c}`.
#[tactic(auto, unfolding(crate::specs::ForProofs::Reader::project_turn))]
fn project(alloc: Global, tokens: &mut Cursor<'_>, left: Tree) -> Result<Tree, ReadError>
    ensures { Gives (spec.project_turn left tokens.old) result tokens.new }
{
    let kept = attributes(alloc, tokens)?;
    Ok(Boxed::new(alloc, Expr::Project(left, kept))?)
}

// What follows RENAME behind a relation: `(a AS b, ..)`, or the same list in braces.
#[tactic(auto, unfolding(crate::specs::ForProofs::Reader::rename_turn))]
fn rename(alloc: Global, tokens: &mut Cursor<'_>, left: Tree) -> Result<Tree, ReadError>
    ensures { Gives (spec.rename_turn left tokens.old) result tokens.new }
{
    if tokens.eat(Word::OpenParenthesis) {
        let renamings = renamings(alloc, tokens, Word::CloseParenthesis)?;
        return Ok(Boxed::new(alloc, Expr::Rename(left, renamings))?);
    }
    tokens.expect(Word::OpenBrace)?;
    let renamings = renamings(alloc, tokens, Word::CloseBrace)?;
    Ok(Boxed::new(alloc, Expr::Rename(left, renamings))?)
}

// What follows GROUP or WRAP behind a relation: `{a, b} AS c`, in round brackets or without.
#[tactic(auto, unfolding(crate::specs::ForProofs::Reader::nest_turn))]
fn nest(
    alloc: Global,
    tokens: &mut Cursor<'_>,
    nesting: Nesting,
    left: Tree,
) -> Result<Tree, ReadError>
    ensures { Gives (spec.nest_turn nesting left tokens.old) result tokens.new }
{
    let opened = tokens.eat(Word::OpenParenthesis);
    let inside = attributes(alloc, tokens)?;
    tokens.expect(Word::As)?;
    let name = tokens.name(alloc)?;
    shut(tokens, opened)?;
    Ok(Boxed::new(alloc, Expr::Nest(nesting, left, inside, name))?)
}

// What follows UNGROUP or UNWRAP behind a relation: the name of an attribute, in round brackets or without.
#[tactic(auto, unfolding(crate::specs::ForProofs::Reader::unnest_turn))]
fn unnest(
    alloc: Global,
    tokens: &mut Cursor<'_>,
    nesting: Nesting,
    left: Tree,
) -> Result<Tree, ReadError>
    ensures { Gives (spec.unnest_turn nesting left tokens.old) result tokens.new }
{
    let opened = tokens.eat(Word::OpenParenthesis);
    let name = tokens.name(alloc)?;
    shut(tokens, opened)?;
    Ok(Boxed::new(alloc, Expr::Unnest(nesting, left, name))?)
}

// Goes on from a tree, turn by turn, as long as a form of this number does and at most so often.
fn climb<T: Fn(&mut Cursor<'_>, Tree) -> Result<Tree, ReadError> + Drop>(
    tokens: &mut Cursor<'_>,
    binding: usize,
    turns: usize,
    mut left: Tree,
    turn: T,
) -> Result<Tree, ReadError>
    requires { T.IsAlwaysCallable turn }
    ensures { (go_on : Expr → Reader Expr) → GoesOn go_on (T.post turn) → Gives (spec.climb binding go_on turns left tokens.old) result tokens.new }
{
    for _turn in 0..turns {
        if tokens.binds() != binding {
            return Ok(left);
        }
        left = turn(tokens, left)?;
    }
    Ok(left)
}

// An operand, and further ones behind operators of one form, at most so many.
fn operators<O: Fn(&mut Cursor<'_>) -> Result<Tree, ReadError> + Drop>(
    alloc: Global,
    tokens: &mut Cursor<'_>,
    binding: usize,
    turns: usize,
    operand: O,
) -> Result<Tree, ReadError>
    requires { O.IsAlwaysCallable operand }
    ensures { (at : Reader Expr) → Follows at (O.post operand) → Gives (spec.operators binding at turns tokens.old) result tokens.new }
{
    let mut left = operand(tokens)?;
    for _turn in 0..turns {
        if tokens.binds() != binding {
            return Ok(left);
        }
        let operator = tokens.infix()?;
        let right = operand(tokens)?;
        left = Boxed::new(alloc, Expr::Binary(operator, left, right))?;
    }
    Ok(left)
}

impl<F: Fn(Global, &mut Cursor<'_>, usize, usize, Form) -> Result<Tree, ReadError>> Grammar<F> {
    /// A primary expression, and any projections behind it: `r {a, b} {a}`. It takes at most `levels` of them.
    pub fn projection(&self, tokens: &mut Cursor<'_>) -> Result<Tree, ReadError>
        requires { Nests self.now.depth (F.pre self.now.nested) (F.post self.now.nested) }
        ensures { Gives (spec.projection_at (reads self.now.depth) self.now.levels tokens.old) result tokens.new }
    {
        let first = self.primary(tokens)?;
        let turn = |tokens: &mut Cursor<'_>, left: Tree| project(self.alloc, tokens, left);
        climb(tokens, PROJECTION, self.levels, first, turn)
    }

    // The operand of a prefix operator that is taken already, which may itself begin with one: `-x`.
    #[tactic(auto, unfolding(crate::specs::ForProofs::Reader::prefix))]
    fn prefix(&self, tokens: &mut Cursor<'_>, operator: UnaryOperator) -> Result<Tree, ReadError>
        requires { Nests self.now.depth (F.pre self.now.nested) (F.post self.now.nested) }
        ensures { Gives (spec.prefix (reads self.now.depth) self.now.levels operator tokens.old) result tokens.new }
    {
        let operand = self.nested(tokens, self.levels, Form::Prefixed)?;
        Ok(self.tree(Expr::Unary(operator, operand))?)
    }

    // An attribute of a tuple: `a FROM t`, where the tuple may itself begin with a prefix.
    #[tactic(auto, unfolding(crate::specs::ForProofs::Reader::attribute_from))]
    fn attribute_from(&self, tokens: &mut Cursor<'_>) -> Result<Tree, ReadError>
        requires { Nests self.now.depth (F.pre self.now.nested) (F.post self.now.nested) }
        ensures { Gives (spec.attribute_from (reads self.now.depth) self.now.levels tokens.old) result tokens.new }
    {
        let name = tokens.name(self.alloc)?;
        tokens.expect(Word::From)?;
        let tuple = self.nested(tokens, self.levels, Form::Prefixed)?;
        Ok(self.tree(Expr::From(name, tuple))?)
    }

    /// `-x`, `TCLOSE r`, `TUPLE FROM r`, `a FROM t`, or a projection where none of them begins.
    #[tactic(auto, unfolding(crate::specs::ForProofs::Reader::prefixed_at))]
    pub fn prefixed(&self, tokens: &mut Cursor<'_>) -> Result<Tree, ReadError>
        requires { Nests self.now.depth (F.pre self.now.nested) (F.post self.now.nested) }
        ensures { Gives (spec.prefixed_at (reads self.now.depth) self.now.levels tokens.old) result tokens.new }
    {
        if tokens.at(Word::Dash) {
            tokens.skip();
            return self.prefix(tokens, UnaryOperator::Negate);
        }
        if tokens.at(Word::Tclose) {
            tokens.skip();
            return self.prefix(tokens, UnaryOperator::Closure);
        }
        if tokens.at(Word::Tuple) && tokens.then_at(Word::From) {
            tokens.skip();
            tokens.skip();
            return self.prefix(tokens, UnaryOperator::TupleFrom);
        }
        if tokens.at_name() && tokens.then_at(Word::From) {
            return self.attribute_from(tokens);
        }
        self.projection(tokens)
    }

    /// Operands with `*` and `/` between, from the left: `x * y / z`.
    pub fn multiplicative(&self, tokens: &mut Cursor<'_>) -> Result<Tree, ReadError>
        requires { Nests self.now.depth (F.pre self.now.nested) (F.post self.now.nested) }
        ensures { Gives (spec.multiplicative_at (reads self.now.depth) self.now.levels tokens.old) result tokens.new }
    {
        let operand = |tokens: &mut Cursor<'_>| self.prefixed(tokens);
        operators(self.alloc, tokens, MULTIPLICATIVE, self.levels, operand)
    }

    /// Operands with `+`, `-` and `||` between, from the left: `x * y + z`.
    pub fn additive(&self, tokens: &mut Cursor<'_>) -> Result<Tree, ReadError>
        requires { Nests self.now.depth (F.pre self.now.nested) (F.post self.now.nested) }
        ensures { Gives (spec.additive_at (reads self.now.depth) self.now.levels tokens.old) result tokens.new }
    {
        let operand = |tokens: &mut Cursor<'_>| self.multiplicative(tokens);
        operators(self.alloc, tokens, ADDITIVE, self.levels, operand)
    }

    // The condition that follows WHERE behind a relation, as any expression.
    #[tactic(auto, unfolding(crate::specs::ForProofs::Reader::where_turn))]
    fn restrict(&self, tokens: &mut Cursor<'_>, left: Tree) -> Result<Tree, ReadError>
        requires { Nests self.now.depth (F.pre self.now.nested) (F.post self.now.nested) }
        ensures { Gives (spec.where_turn (reads self.now.depth) self.now.levels left tokens.old) result tokens.new }
    {
        let condition = self.inner(tokens)?;
        Ok(self.tree(Expr::Where(left, condition))?)
    }

    // An operator as JOIN, and a sum.
    #[tactic(auto, unfolding(crate::specs::ForProofs::Reader::binary_turn))]
    fn joined(&self, tokens: &mut Cursor<'_>, left: Tree) -> Result<Tree, ReadError>
        requires { Nests self.now.depth (F.pre self.now.nested) (F.post self.now.nested) }
        ensures { Gives (spec.binary_turn (spec.additive_at (reads self.now.depth) self.now.levels) left tokens.old) result tokens.new }
    {
        let operator = tokens.infix()?;
        let right = self.additive(tokens)?;
        Ok(self.tree(Expr::Binary(operator, left, right))?)
    }

    // Goes on from a tree by the word that comes next, and takes it: WHERE, RENAME, GROUP, WRAP, UNGROUP, UNWRAP, or an
    // infix operator such as JOIN.
    fn relational_word(
        &self,
        tokens: &mut Cursor<'_>,
        word: Word,
        left: Tree,
    ) -> Result<Tree, ReadError>
        requires { Nests self.now.depth (F.pre self.now.nested) (F.post self.now.nested) }
        ensures { Gives (spec.relational_word (reads self.now.depth) self.now.levels word left tokens.old) result tokens.new }
    {
        match word {
            Word::Where => {
                tokens.skip();
                self.restrict(tokens, left)
            }
            Word::Rename => {
                tokens.skip();
                rename(self.alloc, tokens, left)
            }
            Word::Group => {
                tokens.skip();
                nest(self.alloc, tokens, Nesting::Group, left)
            }
            Word::Wrap => {
                tokens.skip();
                nest(self.alloc, tokens, Nesting::Wrap, left)
            }
            Word::Ungroup => {
                tokens.skip();
                unnest(self.alloc, tokens, Nesting::Group, left)
            }
            Word::Unwrap => {
                tokens.skip();
                unnest(self.alloc, tokens, Nesting::Wrap, left)
            }
            _ => self.joined(tokens, left),
        }
    }

    // Goes on from a tree by one relational operator and what follows it: `WHERE c`, `JOIN s`. It is `Syntax` where no
    // word comes next.
    #[tactic(auto, unfolding(crate::specs::ForProofs::Reader::relational_turn))]
    fn relational_turn(&self, tokens: &mut Cursor<'_>, left: Tree) -> Result<Tree, ReadError>
        requires { Nests self.now.depth (F.pre self.now.nested) (F.post self.now.nested) }
        ensures { Gives (spec.relational_turn (reads self.now.depth) self.now.levels left tokens.old) result tokens.new }
    {
        match tokens.look() {
            Some(TokenKind::Word(word)) => self.relational_word(tokens, word, left),
            _ => Err(ReadError::Syntax),
        }
    }

    /// An additive expression, and any relational operators behind it, from the left: `r JOIN s WHERE c`.
    pub fn relational(&self, tokens: &mut Cursor<'_>) -> Result<Tree, ReadError>
        requires { Nests self.now.depth (F.pre self.now.nested) (F.post self.now.nested) }
        ensures { Gives (spec.relational_at (reads self.now.depth) self.now.levels tokens.old) result tokens.new }
    {
        let first = self.additive(tokens)?;
        let turn = |tokens: &mut Cursor<'_>, left: Tree| self.relational_turn(tokens, left);
        climb(tokens, RELATIONAL, self.levels, first, turn)
    }

    /// A relational expression, or two with one operator between: `x < y`, `t IN r`. A second operator is left where it
    /// stands.
    pub fn comparison(&self, tokens: &mut Cursor<'_>) -> Result<Tree, ReadError>
        requires { Nests self.now.depth (F.pre self.now.nested) (F.post self.now.nested) }
        ensures { Gives (spec.comparison_at (reads self.now.depth) self.now.levels tokens.old) result tokens.new }
    {
        let operand = |tokens: &mut Cursor<'_>| self.relational(tokens);
        operators(self.alloc, tokens, COMPARISON, 1, operand)
    }

    /// `NOT x`, or a comparison where NOT does not come next.
    #[tactic(auto, unfolding(crate::specs::ForProofs::Reader::not_at))]
    pub fn negation(&self, tokens: &mut Cursor<'_>) -> Result<Tree, ReadError>
        requires { Nests self.now.depth (F.pre self.now.nested) (F.post self.now.nested) }
        ensures { Gives (spec.not_at (reads self.now.depth) self.now.levels tokens.old) result tokens.new }
    {
        if tokens.at(Word::Not) {
            tokens.skip();
            let operand = self.nested(tokens, self.levels, Form::Not)?;
            return Ok(self.tree(Expr::Unary(UnaryOperator::Not, operand))?);
        }
        self.comparison(tokens)
    }

    /// Negations with AND between, from the left: `x AND NOT y`.
    pub fn conjunction(&self, tokens: &mut Cursor<'_>) -> Result<Tree, ReadError>
        requires { Nests self.now.depth (F.pre self.now.nested) (F.post self.now.nested) }
        ensures { Gives (spec.and_at (reads self.now.depth) self.now.levels tokens.old) result tokens.new }
    {
        let operand = |tokens: &mut Cursor<'_>| self.negation(tokens);
        operators(self.alloc, tokens, CONJUNCTION, self.levels, operand)
    }

    /// Conjunctions with OR and XOR between, from the left: `x OR y XOR z`.
    pub fn disjunction(&self, tokens: &mut Cursor<'_>) -> Result<Tree, ReadError>
        requires { Nests self.now.depth (F.pre self.now.nested) (F.post self.now.nested) }
        ensures { Gives (spec.or_at (reads self.now.depth) self.now.levels tokens.old) result tokens.new }
    {
        let operand = |tokens: &mut Cursor<'_>| self.conjunction(tokens);
        operators(self.alloc, tokens, DISJUNCTION, self.levels, operand)
    }

    // What follows WITH where names stand behind their expressions: `x AS a, .. : y`.
    #[tactic(auto, unfolding(crate::specs::ForProofs::Reader::with_after))]
    fn with_after(&self, tokens: &mut Cursor<'_>) -> Result<Tree, ReadError>
        requires { Nests self.now.depth (F.pre self.now.nested) (F.post self.now.nested) }
        ensures { Gives (spec.with_after (reads self.now.depth) self.now.levels tokens.old) result tokens.new }
    {
        let introduced = self.named_list(tokens, Naming::After)?;
        tokens.expect(Word::Colon)?;
        let body = self.inner(tokens)?;
        Ok(self.tree(Expr::With(introduced, body))?)
    }

    // What follows WITH where names stand before their expressions: `(a := x, ..) : y`.
    #[tactic(auto, unfolding(crate::specs::ForProofs::Reader::with_assigned))]
    fn with_assigned(&self, tokens: &mut Cursor<'_>) -> Result<Tree, ReadError>
        requires { Nests self.now.depth (F.pre self.now.nested) (F.post self.now.nested) }
        ensures { Gives (spec.with_assigned (reads self.now.depth) self.now.levels tokens.old) result tokens.new }
    {
        tokens.expect(Word::OpenParenthesis)?;
        let introduced = self.named_listed(tokens, Word::CloseParenthesis, Naming::Assigned)?;
        tokens.expect(Word::Colon)?;
        let body = self.inner(tokens)?;
        Ok(self.tree(Expr::With(introduced, body))?)
    }

    // What follows WITH, in either of its spellings. A bracket with a name and `:=` behind it tells that names come
    // first.
    #[tactic(auto, unfolding(crate::specs::ForProofs::Reader::with_at))]
    fn with(&self, tokens: &mut Cursor<'_>) -> Result<Tree, ReadError>
        requires { Nests self.now.depth (F.pre self.now.nested) (F.post self.now.nested) }
        ensures { Gives (spec.with_at (reads self.now.depth) self.now.levels tokens.old) result tokens.new }
    {
        if tokens.at(Word::OpenParenthesis) && tokens.then_target() {
            self.with_assigned(tokens)
        } else {
            self.with_after(tokens)
        }
    }

    /// An expression of any form: WITH, or a disjunction. It is `Syntax` where the token behind the disjunction would
    /// go on with it.
    #[tactic(auto, unfolding(crate::specs::ForProofs::Reader::expr_at, crate::specs::ForProofs::Reader::greedy))]
    pub fn expr(&self, tokens: &mut Cursor<'_>) -> Result<Tree, ReadError>
        requires { Nests self.now.depth (F.pre self.now.nested) (F.post self.now.nested) }
        ensures { Gives (spec.expr_at (reads self.now.depth) self.now.levels tokens.old) result tokens.new }
    {
        if tokens.at(Word::With) {
            tokens.skip();
            return self.with(tokens);
        }
        let tree = self.disjunction(tokens)?;
        if tokens.binds() == NOTHING {
            Ok(tree)
        } else {
            Err(ReadError::Syntax)
        }
    }
}
