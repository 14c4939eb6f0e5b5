//! Statements: targets, sources, conditions and items.

use crate::diagnostic::{DiagnosisError, Diagnostic};
use crate::headings::unlike;
use crate::nearest::Nearest;
use crate::parts::Explainer;
use crate::sentence::Sentence;
use crate::widths::{actions_width, sum, width};
use sqlite_items::Boxed;
use std::alloc::{AllocError, Global};
use td_headings::{Catalogue, Origin};
use td_schema::Scope;
use td_schema::kinds::{relation_heading, same_kind};
use td_syntax::script::{Action, Statement};
use td_syntax::tree::{Expr, Named};
use td_values::{Heading, Name, TypeKind};

impl<'c> Explainer<'c> {
    // Reports, at a mark, that a name is no relvar, with the nearest one.
    fn report_unknown_relvar<T>(&self, name: &Name, at: usize) -> Result<T, DiagnosisError> {
        let mut nearest = Nearest::new(self.alloc, name);
        nearest.look_at_relvars(self.schema());
        let sentence = Sentence::of(self.alloc, name.as_str()).say(" is no relvar");
        self.report(at, sentence.near(nearest.found(), " is"))
    }

    // The heading of a target, which is a relvar that is stored.
    fn target(&self, name: &Name, at: usize) -> Result<&Heading, DiagnosisError> {
        let Some((place, heading)) = self.catalogue.relvar(name) else {
            return self.report_unknown_relvar(name, at);
        };
        if let Some(Origin::Virtual(_)) = self.catalogue.origin(place) {
            let sentence = Sentence::of(self.alloc, name.as_str()).say(
                " is a virtual relvar, which no statement changes",
            );
            return self.report(at, sentence);
        }
        Ok(heading)
    }

    // That a source is a relation of the heading of the target, whose name stands at a mark.
    fn check_source(
        &self,
        target: &Name,
        name: usize,
        tree: &Expr,
        at: usize,
        word: &str,
    ) -> Result<(), DiagnosisError> {
        let heading = self.target(target, name)?;
        let kind = self.kind_of(tree, at, &Scope::Relvars(self.schema()))?;
        self.check_source_kind(kind.get(), at, word, target.as_str(), heading)
    }

    // That a source's kind is a relation of the target's heading; the sentence begins with the word of the action.
    fn check_source_kind(
        &self,
        kind: &TypeKind,
        at: usize,
        word: &str,
        name: &str,
        heading: &Heading,
    ) -> Result<(), DiagnosisError> {
        let Some(own) = relation_heading(kind) else {
            return self.report_no_relation(at, word, name, kind);
        };
        match unlike(self.alloc, own, heading, name) {
            Some(sentence) => self.report(at, sentence),
            None => Ok(()),
        }
    }

    // Reports that a source is no relation; for a tuple it shows how to write a relation of it.
    fn report_no_relation<T>(
        &self,
        at: usize,
        word: &str,
        name: &str,
        kind: &TypeKind,
    ) -> Result<T, DiagnosisError> {
        let sentence = Sentence::of(self.alloc, word).say(" takes a relation");
        if let TypeKind::Tuple(_) = kind {
            let hint = "; this is a tuple: write RELATION { TUPLE { .. } }";
            return self.report(at, sentence.say(hint));
        }
        let sentence = sentence
            .say(" of the heading of ")
            .say(name)
            .say("; this is ")
            .kind(kind);
        self.report(at, sentence)
    }

    // That what is the condition of what is told in words is a truth value.
    fn check_truth_of(
        &self,
        of: &str,
        condition: &Expr,
        at: usize,
        scope: &Scope<'_>,
    ) -> Result<(), DiagnosisError> {
        let kind = self.kind_of(condition, at, scope)?;
        self.check_condition(at, of, kind.get())
    }

    // That a condition over the target's tuples is a truth value.
    fn check_tuples(
        &self,
        condition: &Expr,
        at: usize,
        word: &str,
        heading: &Heading,
    ) -> Result<(), DiagnosisError> {
        let scope = Scope::Relvars(self.schema());
        self.check_truth_of(word, condition, at, &Scope::Within(heading, &scope))
    }

    // That an item of an UPDATE has the type of the attribute that it names.
    fn check_value(
        &self,
        kind: &TypeKind,
        at: usize,
        item: &Name,
        target: &Name,
        heading: &Heading,
    ) -> Result<(), DiagnosisError> {
        let Some(ty) = heading.type_of(item) else {
            return Ok(());
        };
        if same_kind(kind, &ty.kind) {
            return Ok(());
        }
        let sentence = Sentence::of(self.alloc, item.as_str())
            .say(" is ")
            .kind(&ty.kind)
            .say(" in ")
            .say(target.as_str())
            .say("; this is ")
            .kind(kind);
        self.report(at, sentence)
    }

    // That each item of an UPDATE suits its attribute, and that no two items have one name.
    fn check_items(
        &self,
        all: &[Named<Boxed<Expr>>],
        first: usize,
        target: &Name,
        heading: &Heading,
    ) -> Result<(), DiagnosisError> {
        let scope = Scope::Relvars(self.schema());
        let mut at = first;
        for item in all {
            self.check_item(item, at, target, heading, &Scope::Within(heading, &scope))?;
            at = sum(&[at, 2, width(item.value.get())]);
        }
        self.check_item_names(all, first)
    }

    // That an item of an UPDATE names an attribute of the target, and has its type.
    fn check_item(
        &self,
        item: &Named<Boxed<Expr>>,
        at: usize,
        target: &Name,
        heading: &Heading,
        scope: &Scope<'_>,
    ) -> Result<(), DiagnosisError> {
        self.check_attribute(&item.name, at, target.as_str(), heading)?;
        let value = sum(&[at, 2]);
        let kind = self.kind_of(item.value.get(), value, scope)?;
        self.check_value(kind.get(), value, &item.name, target, heading)
    }

    // DELETE, which begins at a mark.
    fn check_deletion(
        &self,
        target: &Name,
        condition: &Option<Boxed<Expr>>,
        at: usize,
    ) -> Result<(), DiagnosisError> {
        let heading = self.target(target, sum(&[at, 1]))?;
        match condition {
            Some(condition) => {
                self.check_tuples(condition.get(), sum(&[at, 3]), "DELETE", heading)
            }
            None => Ok(()),
        }
    }

    // UPDATE, which begins at a mark.
    fn check_update(
        &self,
        target: &Name,
        condition: &Option<Boxed<Expr>>,
        all: &[Named<Boxed<Expr>>],
        at: usize,
    ) -> Result<(), DiagnosisError> {
        let heading = self.target(target, sum(&[at, 1]))?;
        match condition {
            Some(condition) => {
                let at = sum(&[at, 3]);
                self.check_tuples(condition.get(), at, "UPDATE", heading)?;
                self.check_items(all, sum(&[at, width(condition.get())]), target, heading)
            }
            None => self.check_items(all, sum(&[at, 2]), target, heading),
        }
    }

    // That an assignment, whose first mark is given, has a target that may change and a source that suits it.
    fn check_action(&self, action: &Action, at: usize) -> Result<(), DiagnosisError> {
        let (name, source) = (sum(&[at, 1]), sum(&[at, 2]));
        match action {
            Action::Assign(target, a) => self.check_source(target, at, a.get(), source, ":="),
            Action::Insert(target, a) => self.check_source(target, name, a.get(), source, "INSERT"),
            Action::Delete(target, condition) => self.check_deletion(target, condition, at),
            Action::Update(target, condition, all) => {
                self.check_update(target, condition, all.as_slice(), at)
            }
        }
    }

    // That the assignments have no fault, the first of which begins at a mark.
    fn check_actions(&self, actions: &[Action], first: usize) -> Result<(), DiagnosisError> {
        let mut at = first;
        for action in actions {
            self.check_action(action, at)?;
            at = sum(&[at, actions_width(std::slice::from_ref(action))]);
        }
        Ok(())
    }

    // That IF has a condition that is a truth value, and assignments without fault in both branches.
    fn check_conditional(
        &self,
        condition: &Expr,
        actions: &[Action],
        others: &[Action],
    ) -> Result<(), DiagnosisError> {
        self.check_truth_of("IF", condition, 1, &Scope::Relvars(self.schema()))?;
        let first = sum(&[2, width(condition)]);
        self.check_actions(actions, first)?;
        self.check_actions(others, sum(&[first, actions_width(actions), 1]))
    }

    // That a statement has no fault; otherwise gives the diagnostic of the first one found.
    fn check_statement(&self, statement: &Statement) -> Result<(), DiagnosisError> {
        match statement {
            Statement::Assignment(actions) => self.check_actions(actions.as_slice(), 0),
            Statement::Conditional(condition, actions, others) => {
                self.check_conditional(condition.get(), actions.as_slice(), others.as_slice())
            }
        }
    }

    /// What a check found.
    pub(crate) fn diagnostic(
        &self,
        checked: Result<(), DiagnosisError>,
    ) -> Result<Diagnostic, AllocError> {
        match checked {
            Ok(()) => self.no_type(0).diagnostic(),
            Err(fault) => fault.diagnostic(),
        }
    }
}

/// Why a query, which is the text's tree, has no type.
pub(crate) fn explain_query(
    alloc: Global,
    catalogue: &Catalogue,
    text: &str,
    tree: &Expr,
) -> Result<Diagnostic, AllocError> {
    let explainer = Explainer::new(alloc, catalogue, text)?;
    let scope = Scope::Relvars(catalogue.schema());
    match explainer.kind_of(tree, 0, &scope) {
        Ok(_) => explainer.no_type(0).diagnostic(),
        Err(fault) => fault.diagnostic(),
    }
}

/// Why a statement, which is the text's tree, is not well typed.
pub(crate) fn explain_statement(
    alloc: Global,
    catalogue: &Catalogue,
    text: &str,
    tree: &Statement,
) -> Result<Diagnostic, AllocError> {
    let explainer = Explainer::new(alloc, catalogue, text)?;
    explainer.diagnostic(explainer.check_statement(tree))
}
