//! Forms of one relation, with attributes, a condition or a term.

use crate::diagnostic::DiagnosisError;
use crate::expression::name_or_words;
use crate::headings::no_attribute;
use crate::nearest::first_repeated_name;
use crate::operators::aggregate_words;
use crate::parts::{Explainer, Step, into_part_within};
use crate::sentence::Sentence;
use crate::widths::{attributes_width, sum, width};
use std::alloc::{AllocError, Global};
use td_schema::Scope;
use td_schema::forms::kind_heading;
use td_schema::kinds::{relation_heading, tuple_heading};
use td_schema::operators::suits;
use td_syntax::tree::{Aggregate, Attributes, Expr, Nesting, Renaming};
use td_values::{Heading, Name, TypeKind};

impl Explainer<'_> {
    /// That there is an attribute of this name.
    pub(crate) fn check_attribute(
        &self,
        name: &Name,
        at: usize,
        called: &str,
        heading: &Heading,
    ) -> Result<(), DiagnosisError> {
        if heading.type_of(name).is_some() {
            return Ok(());
        }
        self.report(at, no_attribute(self.alloc, called, heading, name))
    }

    // That no name is given twice. The first one stands at a mark, and so many apart each further one.
    fn check_distinct(
        &self,
        names: &[Name],
        first: usize,
        apart: usize,
    ) -> Result<(), DiagnosisError> {
        match first_repeated_name(self.alloc, names)? {
            Some((place, name)) => self.report_repeated_name(
                name,
                sum(&[first, place.saturating_mul(apart)]),
            ),
            None => Ok(()),
        }
    }

    /// That a name is given twice.
    pub(crate) fn report_repeated_name<T>(
        &self,
        name: &Name,
        at: usize,
    ) -> Result<T, DiagnosisError> {
        let sentence = Sentence::of(self.alloc, name.as_str()).say(" is given twice");
        self.report(at, sentence)
    }

    /// That an attribute list, which begins at a mark, names attributes that are there, each once.
    pub(crate) fn check_attributes(
        &self,
        attributes: &Attributes,
        at: usize,
        called: &str,
        heading: &Heading,
    ) -> Result<(), DiagnosisError> {
        let (names, first) = match attributes {
            Attributes::Only(names) => (names.as_slice(), at),
            Attributes::AllBut(names) => (names.as_slice(), sum(&[at, 2])),
        };
        for (place, name) in names.iter().enumerate() {
            self.check_attribute(name, sum(&[first, place]), called, heading)?;
        }
        self.check_distinct(names, first, 1)
    }

    /// The part of a relation or of a tuple.
    pub(crate) fn report_projection<T>(
        &self,
        a: &Expr,
        attributes: &Attributes,
        kind: &TypeKind,
        at: usize,
    ) -> Result<T, DiagnosisError> {
        let Some(heading) = kind_heading(kind) else {
            let words = "only a relation or a tuple has attributes, and this is ";
            let sentence = Sentence::of(self.alloc, words)
                .kind(kind)
                .say("; brackets may be missing");
            return self.report(at, sentence);
        };
        let list = sum(&[at, width(a)]);
        self.check_attributes(attributes, list, name_or_kind_words(a, kind), heading)?;
        Err(self.no_type(list))
    }

    /// Reports that WHERE has an operand that is no relation or a condition that is no truth value, or steps to the
    /// condition, within the operand's heading, where that has no type itself.
    pub fn restriction<'t>(
        &self,
        a: &Expr,
        condition: &'t Expr,
        kind: &TypeKind,
        at: usize,
        scope: &Scope<'_>,
    ) -> Result<Step<'t>, DiagnosisError> {
        let Some(heading) = relation_heading(kind) else {
            return self.report_operand_kind(at, "WHERE", "a relation", kind);
        };
        let at = sum(&[at, width(a), 1]);
        match self.kind(condition, &Scope::Within(heading, &*scope)) {
            Ok(truth) => self.check_condition(at, "WHERE", truth.get())?,
            Err(error) => return into_part_within(error, heading, condition, at),
        }
        Err(self.no_type(at))
    }

    // That the new names are distinct from one another and from the attributes that stay.
    fn check_new_names(
        &self,
        renamings: &[Renaming],
        first: usize,
        called: &str,
        heading: &Heading,
    ) -> Result<(), DiagnosisError> {
        self.check_distinct(&old_names(self.alloc, renamings)?, first, 3)?;
        let second = sum(&[first, 2]);
        for (place, renaming) in renamings.iter().enumerate() {
            let name = &renaming.to;
            if heading.type_of(name).is_some() && !is_renamed(renamings, name) {
                return self.report_existing_name(
                    name,
                    sum(&[second, place.saturating_mul(3)]),
                    called,
                );
            }
        }
        self.check_distinct(&new_names(self.alloc, renamings)?, second, 3)
    }

    /// That there is an attribute of the name already.
    pub(crate) fn report_existing_name<T>(
        &self,
        name: &Name,
        at: usize,
        called: &str,
    ) -> Result<T, DiagnosisError> {
        let sentence = Sentence::of(self.alloc, called)
            .say(" has an attribute ")
            .say(name.as_str())
            .say(" already");
        self.report(at, sentence)
    }

    /// Reports why RENAME has no type: an operand that is no relation, a name that it lacks, or new names that clash.
    pub(crate) fn report_renaming<T>(
        &self,
        a: &Expr,
        renamings: &[Renaming],
        kind: &TypeKind,
        at: usize,
    ) -> Result<T, DiagnosisError> {
        let Some(heading) = relation_heading(kind) else {
            return self.report_operand_kind(at, "RENAME", "a relation", kind);
        };
        let (first, called) = (sum(&[at, width(a), 1]), name_or_kind_words(a, kind));
        for (place, renaming) in renamings.iter().enumerate() {
            let at = sum(&[first, place.saturating_mul(3)]);
            self.check_attribute(&renaming.from, at, called, heading)?;
        }
        self.check_new_names(renamings, first, called, heading)?;
        Err(self.no_type(first))
    }

    /// GROUP and WRAP
    pub(crate) fn report_nesting<T>(
        &self,
        nesting: Nesting,
        a: &Expr,
        attributes: &Attributes,
        name: &Name,
        kind: &TypeKind,
        at: usize,
    ) -> Result<T, DiagnosisError> {
        let word = match nesting {
            Nesting::Group => "GROUP",
            Nesting::Wrap => "WRAP",
        };
        let Some(heading) = relation_heading(kind) else {
            return self.report_operand_kind(at, word, "a relation", kind);
        };
        let list = sum(&[at, width(a), 1]);
        let called = name_or_kind_words(a, kind);
        self.check_attributes(attributes, list, called, heading)?;
        self.report_existing_name(name, sum(&[list, attributes_width(attributes), 1]), called)
    }

    // That an attribute gives way to those inside it.
    fn check_inner(
        &self,
        nesting: Nesting,
        name: &Name,
        kind: &TypeKind,
        at: usize,
        heading: &Heading,
    ) -> Result<(), DiagnosisError> {
        let (word, wanted, inner) = match nesting {
            Nesting::Group => ("UNGROUP", "a relation", relation_heading(kind)),
            Nesting::Wrap => ("UNWRAP", "a tuple", tuple_heading(kind)),
        };
        let Some(inner) = inner else {
            let sentence = Sentence::of(self.alloc, word)
                .say(" takes an attribute that is ")
                .say(wanted)
                .say("; ")
                .say(name.as_str())
                .say(" is ")
                .kind(kind);
            return self.report(at, sentence);
        };
        for field in inner.fields() {
            if field.0 != *name && heading.type_of(&field.0).is_some() {
                return self.report_attribute_beside(&field.0, at, word, name);
            }
        }
        Ok(())
    }

    // That there is an attribute inside one, and another of its name beside it.
    fn report_attribute_beside<T>(
        &self,
        inner: &Name,
        at: usize,
        word: &str,
        name: &Name,
    ) -> Result<T, DiagnosisError> {
        let sentence = Sentence::of(self.alloc, inner.as_str())
            .say(" stands beside ")
            .say(name.as_str())
            .say(" and inside it; ")
            .say(word)
            .say(" gives it once");
        self.report(at, sentence)
    }

    /// UNGROUP and UNWRAP
    pub(crate) fn report_unnesting<T>(
        &self,
        nesting: Nesting,
        a: &Expr,
        name: &Name,
        kind: &TypeKind,
        at: usize,
    ) -> Result<T, DiagnosisError> {
        let word = match nesting {
            Nesting::Group => "UNGROUP",
            Nesting::Wrap => "UNWRAP",
        };
        let Some(heading) = relation_heading(kind) else {
            return self.report_operand_kind(at, word, "a relation", kind);
        };
        let at = sum(&[at, width(a), 1]);
        self.check_attribute(name, at, name_or_kind_words(a, kind), heading)?;
        if let Some(ty) = heading.type_of(name) {
            self.check_inner(nesting, name, &ty.kind, at, heading)?;
        }
        Err(self.no_type(at))
    }

    // An aggregate over terms of another type.
    fn report_unsuited_terms<T>(
        &self,
        aggregate: Aggregate,
        at: usize,
        kind: &TypeKind,
    ) -> Result<T, DiagnosisError> {
        let (word, wanted) = aggregate_words(aggregate);
        self.report_operand_kind(at, word, wanted, kind)
    }

    /// An aggregate over a relation of one attribute.
    pub(crate) fn report_lone_aggregate<T>(
        &self,
        aggregate: Aggregate,
        kind: &TypeKind,
        at: usize,
    ) -> Result<T, DiagnosisError> {
        let (word, wanted) = aggregate_words(aggregate);
        let Some(heading) = relation_heading(kind) else {
            return self.report_operand_kind(at, word, "a relation", kind);
        };
        match heading.fields() {
            [field] => {
                let sentence = Sentence::of(self.alloc, word)
                    .say(" takes ")
                    .say(wanted)
                    .say("; ")
                    .say(field.0.as_str())
                    .say(" is ")
                    .kind(&field.1.kind);
                self.report(at, sentence)
            }
            _ => self.report_operand_kind(
                at,
                word,
                "a relation of one attribute, or a term too",
                kind,
            ),
        }
    }

    /// An aggregate of a term over a relation.
    pub fn aggregation<'t>(
        &self,
        aggregate: Aggregate,
        a: &Expr,
        term: &'t Expr,
        kind: &TypeKind,
        at: usize,
        scope: &Scope<'_>,
    ) -> Result<Step<'t>, DiagnosisError> {
        let Some(heading) = relation_heading(kind) else {
            return self.report_operand_kind(at, aggregate_words(aggregate).0, "a relation", kind);
        };
        let at = sum(&[at, width(a)]);
        match self.kind(term, &Scope::Within(heading, &*scope)) {
            Ok(kind) => self.report_unsuited_terms(aggregate, at, kind.get()),
            Err(error) => into_part_within(error, heading, term, at),
        }
    }

    /// That terms suit an aggregate.
    pub(crate) fn check_terms(
        &self,
        aggregate: Aggregate,
        at: usize,
        kind: &TypeKind,
    ) -> Result<(), DiagnosisError> {
        if suits(aggregate, kind) {
            return Ok(());
        }
        self.report_unsuited_terms(aggregate, at, kind)
    }
}

// Whether one of the renamings replaces this name.
fn is_renamed(renamings: &[Renaming], name: &Name) -> bool {
    for renaming in renamings {
        if renaming.from == *name {
            return true;
        }
    }
    false
}

// The names that the renamings replace, in order.
fn old_names(alloc: Global, renamings: &[Renaming]) -> Result<Vec<Name>, AllocError> {
    let mut names = Vec::with_capacity(alloc, renamings.len())?;
    for renaming in renamings {
        names.push(renaming.from.copy()?)?;
    }
    Ok(names)
}

// The names that the renamings introduce, in order.
fn new_names(alloc: Global, renamings: &[Renaming]) -> Result<Vec<Name>, AllocError> {
    let mut names = Vec::with_capacity(alloc, renamings.len())?;
    for renaming in renamings {
        names.push(renaming.to.copy()?)?;
    }
    Ok(names)
}

/// What an operand with attributes is called.
pub(crate) fn name_or_kind_words<'t>(tree: &'t Expr, kind: &TypeKind) -> &'t str {
    match kind {
        TypeKind::Tuple(_) => name_or_words(tree, "this tuple"),
        _ => name_or_words(tree, "this relation"),
    }
}
