//! Names, and operators of one, two and three operands.

use crate::diagnostic::DiagnosisError;
use crate::headings::no_attribute;
use crate::nearest::{Nearest, look_in_scope};
use crate::operators::{binary_word, binary_words, branch_words, unary_words};
use crate::parts::{Explainer, Step, into_part};
use crate::sentence::Sentence;
use crate::widths::{sum, width};
use td_schema::Scope;
use td_schema::kinds::{is_boolean, tuple_heading};
use td_syntax::tree::{BinaryOperator, Expr, UnaryOperator};
use td_tokens::{TokenKind, Word};
use td_values::{Name, TypeKind};

impl Explainer<'_> {
    /// The part of an expression without a type that has none, or the diagnostic where all its parts have types.
    pub fn step<'t>(
        &self,
        tree: &'t Expr,
        at: usize,
        scope: &Scope<'_>,
    ) -> Result<Step<'t>, DiagnosisError> {
        let Some((operand, before)) = first_operand(tree) else {
            return self.step_without_operand(tree, at, scope);
        };
        let first = sum(&[at, before]);
        match self.kind(operand, scope) {
            Ok(kind) => self.step_behind(tree, kind.get(), at, first, scope),
            Err(error) => into_part(error, operand, first),
        }
    }

    // The step for an expression that does not begin with an operand: names, calls, TUPLE, RELATION and WITH.
    fn step_without_operand<'t>(
        &self,
        tree: &'t Expr,
        at: usize,
        scope: &Scope<'_>,
    ) -> Result<Step<'t>, DiagnosisError> {
        match tree {
            Expr::Name(name) => self.name(name, at, scope),
            Expr::Call(name, all) => self.call(name, all.as_slice(), at, scope),
            Expr::Tuple(all) => self.tuple(all.as_slice(), at, scope),
            Expr::Relation(None, all) => self.relation(all.as_slice(), at, scope),
            Expr::Relation(Some(fields), all) => {
                self.headed_relation(fields.as_slice(), all.as_slice(), at, scope)
            }
            Expr::With(all, body) => self.with(all.as_slice(), body.get(), at, scope),
            _ => Err(self.no_type(at)),
        }
    }

    // The step of a form whose first operand, which begins at the first mark, is of this kind.
    fn step_behind<'t>(
        &self,
        tree: &'t Expr,
        kind: &TypeKind,
        at: usize,
        first: usize,
        scope: &Scope<'_>,
    ) -> Result<Step<'t>, DiagnosisError> {
        match tree {
            Expr::Unary(operator, _) => self.unary(*operator, kind, first),
            Expr::Binary(operator, a, b) => {
                self.binary(*operator, a.get(), b.get(), kind, first, scope)
            }
            Expr::From(name, a) => self.attribute(name, a.get(), kind, at, first),
            Expr::Project(a, attributes) => self.report_projection(
                a.get(),
                attributes,
                kind,
                first,
            ),
            Expr::Where(a, b) => self.restriction(a.get(), b.get(), kind, first, scope),
            Expr::Rename(a, all) => self.report_renaming(a.get(), all.as_slice(), kind, first),
            Expr::Nest(nesting, a, attributes, name) => {
                self.report_nesting(*nesting, a.get(), attributes, name, kind, first)
            }
            Expr::Unnest(nesting, a, name) => self.report_unnesting(
                *nesting,
                a.get(),
                name,
                kind,
                first,
            ),
            Expr::Aggregate(aggregate, _, None) => self.report_lone_aggregate(
                *aggregate, kind, first,
            ),
            Expr::Aggregate(aggregate, a, Some(b)) => {
                self.aggregation(*aggregate, a.get(), b.get(), kind, first, scope)
            }
            Expr::If(a, b, c) => self.choice(a.get(), b.get(), c.get(), kind, first, scope),
            Expr::Extend(extension, a, all) => {
                self.extension(*extension, a.get(), all.as_slice(), kind, first, scope)
            }
            Expr::Summarize(a, groups, all) => {
                self.summarization(a.get(), groups, all.as_slice(), kind, first, scope)
            }
            _ => Err(self.no_type(at)),
        }
    }

    // Reports that a name means nothing in the scope, with the nearest name that does.
    fn name<'t>(
        &self,
        name: &Name,
        at: usize,
        scope: &Scope<'_>,
    ) -> Result<Step<'t>, DiagnosisError> {
        let mut nearest = Nearest::new(self.alloc, name);
        look_in_scope(scope, &mut nearest);
        let sentence = Sentence::of(self.alloc, name.as_str()).say(" is no name here");
        self.report(at, sentence.near(nearest.found(), " is"))
    }

    // Reports that an operator of one operand takes another kind than the operand has.
    fn unary<T>(
        &self,
        operator: UnaryOperator,
        kind: &TypeKind,
        at: usize,
    ) -> Result<T, DiagnosisError> {
        let (word, wanted) = unary_words(operator);
        self.report_operand_kind(at, word, wanted, kind)
    }

    // The word of a binary operator at a mark.
    fn word_at(&self, at: usize, operator: BinaryOperator) -> &'static str {
        match self.mark(at) {
            Some(TokenKind::Word(Word::Semijoin)) => "SEMIJOIN",
            Some(TokenKind::Word(Word::Semiminus)) => "SEMIMINUS",
            _ => binary_word(operator),
        }
    }

    // Reports why the operands of an operator do not fit, or steps to the right operand where it has no kind itself.
    fn binary<'t>(
        &self,
        operator: BinaryOperator,
        a: &'t Expr,
        b: &'t Expr,
        left: &TypeKind,
        at: usize,
        scope: &Scope<'_>,
    ) -> Result<Step<'t>, DiagnosisError> {
        let between = sum(&[at, width(a)]);
        let word = self.word_at(between, operator);
        match self.kind(b, scope) {
            Ok(right) => {
                let sentence = binary_words(self.alloc, operator, word, left, right.get());
                self.report(between, sentence)
            }
            Err(error) => into_part(error, b, sum(&[between, 1])),
        }
    }

    // An attribute of a tuple.
    fn attribute<T>(
        &self,
        name: &Name,
        a: &Expr,
        kind: &TypeKind,
        at: usize,
        operand: usize,
    ) -> Result<T, DiagnosisError> {
        let Some(heading) = tuple_heading(kind) else {
            return self.report_operand_kind(operand, "FROM", "a tuple", kind);
        };
        let sentence = no_attribute(self.alloc, name_or_words(a, "this tuple"), heading, name);
        self.report(at, sentence)
    }

    /// That a condition is a truth value; what it is the condition of is told in words.
    pub(crate) fn check_condition(
        &self,
        at: usize,
        of: &str,
        kind: &TypeKind,
    ) -> Result<(), DiagnosisError> {
        if is_boolean(kind) {
            return Ok(());
        }
        let sentence = Sentence::of(self.alloc, "the condition of ")
            .say(of)
            .say(" is ")
            .kind(kind)
            .say("; it must be BOOLEAN");
        self.report(at, sentence)
    }

    // IF, whose condition is of this kind.
    fn choice<'t>(
        &self,
        a: &Expr,
        b: &'t Expr,
        c: &'t Expr,
        kind: &TypeKind,
        at: usize,
        scope: &Scope<'_>,
    ) -> Result<Step<'t>, DiagnosisError> {
        self.check_condition(at, "IF", kind)?;
        let first = sum(&[at, width(a), 1]);
        let second = sum(&[first, width(b), 1]);
        match self.kind(b, scope) {
            Ok(left) => self.other_branch(c, left.get(), second, scope),
            Err(error) => into_part(error, b, first),
        }
    }

    // ELSE, where the other branch of IF is of this kind.
    fn other_branch<'t>(
        &self,
        tree: &'t Expr,
        left: &TypeKind,
        at: usize,
        scope: &Scope<'_>,
    ) -> Result<Step<'t>, DiagnosisError> {
        match self.kind(tree, scope) {
            Ok(right) => self.report(at, branch_words(self.alloc, left, right.get())),
            Err(error) => into_part(error, tree, at),
        }
    }
}

// The operand that stands first in a form, and how many marks stand before it.
fn first_operand(tree: &Expr) -> Option<(&Expr, usize)> {
    match tree {
        Expr::Binary(_, a, _)
        | Expr::Project(a, _)
        | Expr::Where(a, _)
        | Expr::Rename(a, _)
        | Expr::Nest(_, a, _, _)
        | Expr::Unnest(_, a, _) => Some((a.get(), 0)),
        Expr::Unary(UnaryOperator::TupleFrom, a) | Expr::From(_, a) => Some((a.get(), 2)),
        Expr::Unary(_, a)
        | Expr::Aggregate(_, a, _)
        | Expr::If(a, _, _)
        | Expr::Extend(_, a, _)
        | Expr::Summarize(a, _, _) => Some((a.get(), 1)),
        _ => None,
    }
}

/// What an operand is called: its name, if it is one, and else in these words.
pub(crate) fn name_or_words<'t>(tree: &'t Expr, words: &'t str) -> &'t str {
    match tree {
        Expr::Name(name) => name.as_str(),
        _ => words,
    }
}
