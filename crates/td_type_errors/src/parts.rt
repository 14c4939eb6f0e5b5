//! How a fault is found: from an expression without a type to its innermost part that has none.

use crate::diagnostic::DiagnosisError;
use crate::marks::{Mark, marks_of};
use crate::sentence::Sentence;
use crate::widths::sum;
use sqlite_items::{Boxed, Items};
use std::alloc::{AllocError, Global};
use td_grammar::reader::LEVELS;
use td_headings::Catalogue;
use td_schema::{Schema, Scope, TypeError};
use td_syntax::tree::{Expr, Named};
use td_tokens::{TokenKind, Word};
use td_typing::type_in;
use td_values::{Heading, TypeKind};

/// An expression, and its first mark by its number.
#[derive(Clone, Copy, Drop)]
pub(crate) struct MarkedTerm<'t> {
    pub tree: &'t Expr,
    pub at: usize,
}

/// The part of an expression that has no type: in the scope of the expression, within a tuple of the heading, or behind
/// these names of WITH.
#[derive(Drop)]
pub enum Step<'t> {
    MarkedTerm(MarkedTerm<'t>),
    Within(Heading, MarkedTerm<'t>),
    Behind(Items<Named<TypeKind>>, MarkedTerm<'t>),
}

/// What an explanation goes by: what is defined, and the marks of the text.
#[derive(Drop)]
pub(crate) struct Explainer<'c> {
    pub alloc: Global,
    pub catalogue: &'c Catalogue,
    marks: Vec<Mark>,
}

/// A part that has no kind, where that is not for want of memory.
pub(crate) fn part_without_type<'t>(
    error: TypeError,
    part: MarkedTerm<'t>,
) -> Result<MarkedTerm<'t>, DiagnosisError> {
    match error {
        TypeError::IllTyped => Ok(part),
        TypeError::OutOfMemory => Err(DiagnosisError::OutOfMemory),
    }
}

/// The step to a part in the same scope that has no kind.
pub(crate) fn into_part<'t>(
    error: TypeError,
    tree: &'t Expr,
    at: usize,
) -> Result<Step<'t>, DiagnosisError> {
    Ok(Step::MarkedTerm(part_without_type(error, MarkedTerm { tree, at })?))
}

/// The step to a part within a tuple of the heading that has no kind.
pub(crate) fn into_part_within<'t>(
    error: TypeError,
    heading: &Heading,
    tree: &'t Expr,
    at: usize,
) -> Result<Step<'t>, DiagnosisError> {
    step_within(heading, part_without_type(error, MarkedTerm { tree, at })?)
}

/// The step to a part within a tuple of the heading.
pub(crate) fn step_within<'t>(
    heading: &Heading,
    part: MarkedTerm<'t>,
) -> Result<Step<'t>, DiagnosisError> {
    Ok(Step::Within(heading.copy()?, part))
}

impl<'c> Explainer<'c> {
    pub fn new(
        alloc: Global,
        catalogue: &'c Catalogue,
        text: &str,
    ) -> Result<Explainer<'c>, AllocError> {
        let marks = marks_of(alloc, text)?;
        Ok(Explainer {
            alloc,
            catalogue,
            marks,
        })
    }

    pub fn schema(&self) -> &Schema {
        self.catalogue.schema()
    }

    /// The kind of the token at a mark; None where the text has fewer marks.
    pub fn mark(&self, at: usize) -> Option<TokenKind> {
        match self.marks.get(at) {
            Some(mark) => Some(mark.kind),
            None => None,
        }
    }

    // The byte at which a mark begins; that of the last one where there is none of the number.
    fn place(&self, at: usize) -> usize {
        match self.marks.get(at) {
            Some(mark) => mark.place,
            None => match self.marks.last() {
                Some(mark) => mark.place,
                None => 0,
            },
        }
    }

    /// That a check ends with this sentence at a mark.
    pub fn report<T>(&self, at: usize, sentence: Sentence) -> Result<T, DiagnosisError> {
        Err(sentence.into_error_at(self.place(at)))
    }

    /// The name of an item that begins at a mark, and whose value has so many; and its value.
    pub(crate) fn item_at(&self, at: usize, value: usize) -> (usize, usize) {
        if self.mark(sum(&[at, 1])) == Some(TokenKind::Word(Word::Assign)) {
            (at, sum(&[at, 2]))
        } else {
            (sum(&[at, value, 1]), at)
        }
    }

    /// The kind of an expression.
    pub fn kind(&self, tree: &Expr, scope: &Scope<'_>) -> Result<Boxed<TypeKind>, TypeError> {
        let typing = type_in(self.alloc, self.schema(), scope, tree)?;
        Ok(Boxed::new(self.alloc, typing.kind)?)
    }

    /// The kind of a whole expression, or why it has no type.
    pub(crate) fn kind_of(
        &self,
        tree: &Expr,
        at: usize,
        scope: &Scope<'_>,
    ) -> Result<Boxed<TypeKind>, DiagnosisError> {
        match self.kind(tree, scope) {
            Ok(kind) => Ok(kind),
            Err(TypeError::IllTyped) => Err(self.explain(LEVELS, tree, at, scope)),
            Err(TypeError::OutOfMemory) => Err(DiagnosisError::OutOfMemory),
        }
    }

    // Why a part of at most so many levels has no type within a tuple of the heading.
    #[cycle(explain)]
    fn within(
        &self,
        levels: usize,
        part: &MarkedTerm<'_>,
        heading: &Heading,
        scope: &Scope<'_>,
    ) -> DiagnosisError {
        self.explain(levels, part.tree, part.at, &Scope::Within(heading, &*scope))
    }

    // Why a part of at most so many levels has no type behind these names of WITH.
    #[cycle(explain)]
    fn behind(
        &self,
        levels: usize,
        part: &MarkedTerm<'_>,
        names: &[Named<TypeKind>],
        scope: &Scope<'_>,
    ) -> DiagnosisError {
        self.explain(levels, part.tree, part.at, &Scope::Given(names, &*scope))
    }

    /// What is told where no sentence is better.
    pub(crate) fn no_type(&self, at: usize) -> DiagnosisError {
        Sentence::of(self.alloc, "this has no type").into_error_at(self.place(at))
    }

    /// That what stands at a mark takes something else.
    pub(crate) fn report_operand_kind<T>(
        &self,
        at: usize,
        word: &str,
        wanted: &str,
        kind: &TypeKind,
    ) -> Result<T, DiagnosisError> {
        let sentence = Sentence::of(self.alloc, word)
            .say(" takes ")
            .say(wanted)
            .say("; this is ")
            .kind(kind);
        self.report(at, sentence)
    }

    /// Why an expression of at most so many levels has no type.
    #[cycle(explain)]
    pub(crate) fn explain(
        &self,
        levels: usize,
        tree: &Expr,
        at: usize,
        scope: &Scope<'_>,
    ) -> DiagnosisError {
        if levels == 0 {
            return self.no_type(at);
        }
        let inner = levels - 1;
        match self.step(tree, at, scope) {
            Ok(Step::MarkedTerm(part)) => self.explain(inner, part.tree, part.at, scope),
            Ok(Step::Within(heading, part)) => self.within(inner, &part, &heading, scope),
            Ok(Step::Behind(names, part)) => self.behind(inner, &part, names.as_slice(), scope),
            Err(fault) => fault,
        }
    }
}
