//! Forms with named parts: TUPLE, EXTEND, SUMMARIZE and WITH.

use crate::diagnostic::DiagnosisError;
use crate::forms::name_or_kind_words;
use crate::headings::extra_attributes;
use crate::nearest::first_repeated_part;
use crate::parts::{Explainer, MarkedTerm, Step, into_part, part_without_type, step_within};
use crate::widths::{front, groups_width, named_width, sum, summaries_width, summary_width, width};
use sqlite_items::{Boxed, Items};
use td_schema::kinds::relation_heading;
use td_schema::lists::attributes_of;
use td_schema::{Scope, TypeError};
use td_syntax::tree::{Attributes, Expr, Extension, Groups, Named, SummaryTerm};
use td_tuples::columns_in;
use td_values::{Heading, TypeKind};

impl Explainer<'_> {
    /// TUPLE
    pub fn tuple<'t>(
        &self,
        all: &'t [Named<Boxed<Expr>>],
        at: usize,
        scope: &Scope<'_>,
    ) -> Result<Step<'t>, DiagnosisError> {
        let first = sum(&[at, 1]);
        let mut at = first;
        for item in all {
            let tree = item.value.get();
            let value = sum(&[at, 1]);
            if let Err(error) = self.kind(tree, scope) {
                return into_part(error, tree, value);
            }
            at = sum(&[value, width(tree)]);
        }
        self.tuple_of_twins(all, first)
    }

    // TUPLE, whose parts have types.
    fn tuple_of_twins<T>(
        &self,
        all: &[Named<Boxed<Expr>>],
        first: usize,
    ) -> Result<T, DiagnosisError> {
        match first_repeated_part(self.alloc, all)? {
            Some((place, name)) => {
                self.report_repeated_name(name, sum(&[first, named_width(front(all, place), 1)]))
            }
            None => Err(self.no_type(first)),
        }
    }

    /// The first of these named expressions that has no type.
    pub(crate) fn faulty_item<'t>(
        &self,
        all: &'t [Named<Boxed<Expr>>],
        first: usize,
        scope: &Scope<'_>,
    ) -> Result<Option<MarkedTerm<'t>>, DiagnosisError> {
        let mut at = first;
        for item in all {
            let tree = item.value.get();
            let marks = width(tree);
            if let Err(error) = self.kind(tree, scope) {
                let (_, at) = self.item_at(at, marks);
                return Ok(Some(part_without_type(error, MarkedTerm { tree, at })?));
            }
            at = sum(&[at, marks, 2]);
        }
        Ok(None)
    }

    /// The mark of the name of the item at this place.
    pub(crate) fn item_name_at(
        &self,
        all: &[Named<Boxed<Expr>>],
        place: usize,
        first: usize,
    ) -> usize {
        let at = sum(&[first, named_width(front(all, place), 2)]);
        match all.get(place) {
            Some(item) => self.item_at(at, width(item.value.get())).0,
            None => at,
        }
    }

    /// That no two of these items have one name.
    pub(crate) fn check_item_names(
        &self,
        all: &[Named<Boxed<Expr>>],
        first: usize,
    ) -> Result<(), DiagnosisError> {
        match first_repeated_part(self.alloc, all)? {
            Some((place, name)) => self.report_repeated_name(
                name,
                self.item_name_at(all, place, first),
            ),
            None => Ok(()),
        }
    }

    /// EXTEND
    pub fn extension<'t>(
        &self,
        extension: Extension,
        a: &Expr,
        all: &'t [Named<Boxed<Expr>>],
        kind: &TypeKind,
        at: usize,
        scope: &Scope<'_>,
    ) -> Result<Step<'t>, DiagnosisError> {
        let Some(heading) = relation_heading(kind) else {
            return self.report_operand_kind(at, "EXTEND", "a relation", kind);
        };
        let first = sum(&[at, width(a)]);
        if let Some(part) = self.faulty_item(all, first, &Scope::Within(heading, &*scope))? {
            return step_within(heading, part);
        }
        self.check_item_names(all, first)?;
        self.check_added(extension, all, first, name_or_kind_words(a, kind), heading)?;
        Err(self.no_type(at))
    }

    // That none of the items that are added has the name of an attribute.
    fn check_added(
        &self,
        extension: Extension,
        all: &[Named<Boxed<Expr>>],
        first: usize,
        called: &str,
        heading: &Heading,
    ) -> Result<(), DiagnosisError> {
        if extension != Extension::Add {
            return Ok(());
        }
        for (place, item) in all.iter().enumerate() {
            if heading.type_of(&item.name).is_some() {
                return self.report_existing_name(
                    &item.name,
                    self.item_name_at(all, place, first),
                    called,
                );
            }
        }
        Ok(())
    }

    // The part of SUMMARIZE PER or BY that has no type, or the attributes of the groups.
    fn check_groups<'t>(
        &self,
        groups: &'t Groups<Boxed<Expr>>,
        at: usize,
        called: &str,
        heading: &Heading,
        scope: &Scope<'_>,
    ) -> Result<Result<Heading, MarkedTerm<'t>>, DiagnosisError> {
        let at = sum(&[at, 1]);
        match groups {
            Groups::Whole => Ok(Ok(Heading::new(self.alloc)?)),
            Groups::Per(a) => self.check_groups_per(a.get(), at, called, heading, scope),
            Groups::By(attributes) => Ok(Ok(self.check_groups_by(
                attributes, at, called, heading,
            )?)),
        }
    }

    // The heading of the groups that BY makes; reports a listed name that is no attribute of the operand.
    fn check_groups_by(
        &self,
        attributes: &Attributes,
        at: usize,
        called: &str,
        heading: &Heading,
    ) -> Result<Heading, DiagnosisError> {
        self.check_attributes(attributes, at, called, heading)?;
        match attributes_of(self.alloc, attributes, heading) {
            Ok(names) => Ok(columns_in(self.alloc, names.as_slice(), heading)?),
            Err(_) => Err(self.no_type(at)),
        }
    }

    // The heading of the groups that PER makes, or the operand of PER where that has no kind itself.
    fn check_groups_per<'t>(
        &self,
        tree: &'t Expr,
        at: usize,
        called: &str,
        heading: &Heading,
        scope: &Scope<'_>,
    ) -> Result<Result<Heading, MarkedTerm<'t>>, DiagnosisError> {
        match self.kind(tree, scope) {
            Ok(kind) => Ok(Ok(self.groups_of(kind.get(), at, called, heading)?)),
            Err(error) => Ok(Err(part_without_type(error, MarkedTerm { tree, at })?)),
        }
    }

    // The heading of a relation behind PER; reports one that is no relation, or has attributes that the operand of
    // SUMMARIZE lacks.
    fn groups_of(
        &self,
        kind: &TypeKind,
        at: usize,
        called: &str,
        heading: &Heading,
    ) -> Result<Heading, DiagnosisError> {
        let Some(own) = relation_heading(kind) else {
            return self.report_operand_kind(at, "PER", "a relation", kind);
        };
        match extra_attributes(self.alloc, own, heading, called) {
            Some(sentence) => self.report(at, sentence),
            None => Ok(own.copy()?),
        }
    }

    // The first summary of a term that has no type, in the scope of the terms.
    fn faulty_summary<'t>(
        &self,
        all: &'t [Named<SummaryTerm<Boxed<Expr>>>],
        first: usize,
        scope: &Scope<'_>,
    ) -> Result<Option<MarkedTerm<'t>>, DiagnosisError> {
        let mut at = first;
        for item in all {
            let marks = summary_width(&item.value);
            if let SummaryTerm::Of(aggregate, a) = &item.value {
                let tree = a.get();
                let term = sum(&[self.item_at(at, marks).1, 1]);
                match self.kind(tree, scope) {
                    Ok(kind) => self.check_terms(*aggregate, term, kind.get())?,
                    Err(error) => return Ok(Some(part_without_type(
                        error,
                        MarkedTerm { tree, at: term },
                    )?)),
                }
            }
            at = sum(&[at, marks, 2]);
        }
        Ok(None)
    }

    // The mark of the name of the summary at this place.
    fn summary_name_at(
        &self,
        all: &[Named<SummaryTerm<Boxed<Expr>>>],
        place: usize,
        first: usize,
    ) -> usize {
        let at = sum(&[first, summaries_width(front(all, place))]);
        match all.get(place) {
            Some(item) => self.item_at(at, summary_width(&item.value)).0,
            None => at,
        }
    }

    // That summaries have names of their own, none of them that of an attribute of the groups.
    fn check_summary_names(
        &self,
        all: &[Named<SummaryTerm<Boxed<Expr>>>],
        first: usize,
        heading: &Heading,
    ) -> Result<(), DiagnosisError> {
        if let Some((place, name)) = first_repeated_part(self.alloc, all)? {
            return self.report_repeated_name(name, self.summary_name_at(all, place, first));
        }
        for (place, item) in all.iter().enumerate() {
            if heading.type_of(&item.name).is_some() {
                let at = self.summary_name_at(all, place, first);
                return self.report_existing_name(&item.name, at, "each group");
            }
        }
        Ok(())
    }

    /// SUMMARIZE
    pub fn summarization<'t>(
        &self,
        a: &Expr,
        groups: &'t Groups<Boxed<Expr>>,
        all: &'t [Named<SummaryTerm<Boxed<Expr>>>],
        kind: &TypeKind,
        at: usize,
        scope: &Scope<'_>,
    ) -> Result<Step<'t>, DiagnosisError> {
        let Some(heading) = relation_heading(kind) else {
            return self.report_operand_kind(at, "SUMMARIZE", "a relation", kind);
        };
        let list = sum(&[at, width(a)]);
        let first = sum(&[list, groups_width(groups)]);
        let grouping = self.check_groups(
            groups,
            list,
            name_or_kind_words(a, kind),
            heading,
            scope,
        )?;
        let terms = Scope::Within(heading, &*scope);
        let part = match grouping {
            Ok(grouping) => self.check_summaries(all, first, &grouping, &terms)?,
            Err(part) => return Ok(Step::MarkedTerm(part)),
        };
        match part {
            Some(part) => step_within(heading, part),
            None => Err(self.no_type(at)),
        }
    }

    // The first summary of a term that has no type. Where there is none, the names are as they have to be.
    fn check_summaries<'t>(
        &self,
        all: &'t [Named<SummaryTerm<Boxed<Expr>>>],
        first: usize,
        grouping: &Heading,
        scope: &Scope<'_>,
    ) -> Result<Option<MarkedTerm<'t>>, DiagnosisError> {
        let part = self.faulty_summary(all, first, scope)?;
        if part.is_none() {
            self.check_summary_names(all, first, grouping)?;
        }
        Ok(part)
    }

    /// WITH
    pub fn with<'t>(
        &self,
        all: &'t [Named<Boxed<Expr>>],
        body: &'t Expr,
        at: usize,
        scope: &Scope<'_>,
    ) -> Result<Step<'t>, DiagnosisError> {
        let mut kinds: Items<Named<TypeKind>> = Items::new(self.alloc);
        let mut at = sum(&[at, 1]);
        for item in all {
            let tree = item.value.get();
            let marks = width(tree);
            let (_, value) = self.item_at(at, marks);
            match self.give(&mut kinds, item, scope) {
                Ok(()) => at = sum(&[at, marks, 2]),
                Err(TypeError::IllTyped) => {
                    return Ok(Step::Behind(kinds, MarkedTerm { tree, at: value }));
                }
                Err(TypeError::OutOfMemory) => return Err(DiagnosisError::OutOfMemory),
            }
        }
        Ok(Step::Behind(kinds, MarkedTerm { tree: body, at }))
    }

    // Adds the kind that an item of WITH has behind those before it.
    fn give(
        &self,
        kinds: &mut Items<Named<TypeKind>>,
        item: &Named<Boxed<Expr>>,
        scope: &Scope<'_>,
    ) -> Result<(), TypeError> {
        let scope = Scope::Given(kinds.as_slice(), &*scope);
        let kind = self.kind(item.value.get(), &scope)?;
        let name = item.name.copy()?;
        let value = kind.into_inner();
        Ok(kinds.push(Named { name, value })?)
    }
}
