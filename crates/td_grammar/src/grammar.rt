//! Expressions from tokens. The rules that hold expressions take the reader of those as a parameter, so that each is
//! proved by itself, and only `expr` calls itself.

ghost use Rattle.std.specs.Prelude.{◌≡◌, ◌<◌, suc, IfOk};
ghost use Rattle.td_grammar.specs.ForProofs.Reader as spec;
ghost use Rattle.td_grammar.specs.ForProofs.Reader.{reads};
ghost use Rattle.td_grammar.specs.ForProofs.Readings.{Gives, Nests};

use crate::cursor::Cursor;
use crate::error::ReadError;
use crate::forms::Form;
use sqlite_items::Boxed;
use std::alloc::{AllocError, Global};
use td_syntax::levels::within;
use td_syntax::tree::Expr;

/// An expression on the heap.
// A box is dropped by one call. Where a tree itself is dropped, as at an early return, there is a case to be proved for
// each of its forms.
pub type Tree = Boxed<Expr>;

#[derive(Drop)]
pub struct Grammar<F> {
    pub alloc: Global,
    /// How deep expressions may still nest.
    pub depth: usize,
    /// How many levels an expression one level down may have.
    pub levels: usize,
    pub nested: F,
    ghost shallow: { levels < 18446744073709551615 },
}

impl<F: Fn(Global, &mut Cursor<'_>, usize, usize, Form) -> Result<Tree, ReadError>> Grammar<F> {
    /// An expression of this form one level down, with a tree of at most so many levels, by the reader that `nested`
    /// is.
    pub fn nested(
        &self,
        tokens: &mut Cursor<'_>,
        levels: usize,
        form: Form,
    ) -> Result<Tree, ReadError>
        requires { Nests self.now.depth (F.pre self.now.nested) (F.post self.now.nested) }
        ensures { Gives (reads self.now.depth levels form tokens.old) result tokens.new }
    {
        (self.nested)(self.alloc, tokens, self.depth, levels, form)
    }

    /// An expression one level down.
    pub fn inner(&self, tokens: &mut Cursor<'_>) -> Result<Tree, ReadError>
        requires { Nests self.now.depth (F.pre self.now.nested) (F.post self.now.nested) }
        ensures { Gives (spec.inner (reads self.now.depth) self.now.levels tokens.old) result tokens.new }
    {
        self.nested(tokens, self.levels, Form::Expr)
    }

    /// A tree of one more form.
    pub fn tree(&self, form: Expr) -> Result<Tree, AllocError>
        ensures { IfOk result (λ tree. tree ≡ form) }
    {
        Boxed::new(self.alloc, form)
    }

    /// An expression of this form, by the method that reads it. Whether its tree has too many levels is left to
    /// `limited`.
    pub fn form(&self, tokens: &mut Cursor<'_>, form: Form) -> Result<Tree, ReadError>
        requires { Nests self.now.depth (F.pre self.now.nested) (F.post self.now.nested) }
        ensures { Gives (spec.form_at (reads self.now.depth) self.now.levels form tokens.old) result tokens.new }
    {
        match form {
            Form::Expr => self.expr(tokens),
            Form::Or => self.disjunction(tokens),
            Form::And => self.conjunction(tokens),
            Form::Not => self.negation(tokens),
            Form::Comparison => self.comparison(tokens),
            Form::Relational => self.relational(tokens),
            Form::Additive => self.additive(tokens),
            Form::Multiplicative => self.multiplicative(tokens),
            Form::Prefixed => self.prefixed(tokens),
            Form::Projection => self.projection(tokens),
            Form::Primary => self.primary(tokens),
        }
    }

    // A form whose tree has at most as many levels as it may.
    #[tactic(auto, unfolding(crate::specs::ForProofs::Reader::within))]
    fn limited(&self, tokens: &mut Cursor<'_>, form: Form) -> Result<Tree, ReadError>
        requires { Nests self.now.depth (F.pre self.now.nested) (F.post self.now.nested) }
        ensures { Gives (spec.and_then (spec.form_at (reads self.now.depth) self.now.levels form tokens.old) (spec.within (suc self.now.levels))) result tokens.new }
    {
        let tree = self.form(tokens, form)?;
        if within(tree.get(), self.levels + 1) {
            Ok(tree)
        } else {
            Err(ReadError::Syntax)
        }
    }
}

/// A form in which expressions nest no deeper than `depth`, with a tree of at most so many levels.
pub fn expr(
    alloc: Global,
    tokens: &mut Cursor<'_>,
    depth: usize,
    levels: usize,
    form: Form,
) -> Result<Tree, ReadError>
    ensures { Gives (reads depth levels form tokens.old) result tokens.new }
{
    if depth == 0 {
        return Err(ReadError::Syntax);
    }
    if levels == 0 {
        return Err(ReadError::Syntax);
    }
    Grammar {
        alloc,
        depth: depth - 1,
        levels: levels - 1,
        nested: expr,
    }
    .limited(tokens, form)
}
