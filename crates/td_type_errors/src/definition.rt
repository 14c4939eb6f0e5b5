//! Definitions: names that are there before, types, openings, keys and conditions.

use crate::diagnostic::{DiagnosisError, Diagnostic};
use crate::headings::unlike;
use crate::parts::Explainer;
use crate::sentence::Sentence;
use crate::types::{check_fields, heading_of};
use crate::widths::{attributes_width, fields_width, opening_width, sum};
use sqlite_items::Boxed;
use std::alloc::{AllocError, Global};
use td_headings::{Catalogue, Test};
use td_schema::kinds::{is_boolean, relation_heading};
use td_schema::schema::begins_with_the;
use td_schema::written::{components_written, kind_columns};
use td_schema::{Scope, TypeError};
use td_syntax::script::{Definition, Opening};
use td_syntax::tree::{Attributes, Expr, Named, TypeExpr};
use td_values::{Heading, Name, TypeKind};

/// The mark of a definition's name.
const NAME: usize = 1;

impl Explainer<'_> {
    // Reports, at a mark, that this name is defined before.
    fn report_earlier_definition<T>(&self, name: &Name, at: usize) -> Result<T, DiagnosisError> {
        let sentence = Sentence::of(self.alloc, name.as_str()).say(" is defined before");
        self.report(at, sentence)
    }

    // That a possrep's name is new, and none of THE_.
    fn check_selector(&self, name: &Name, at: usize) -> Result<(), DiagnosisError> {
        if begins_with_the(name) {
            let words = "the name of a selector does not begin with THE_";
            return self.report(at, Sentence::of(self.alloc, words));
        }
        if self.schema().possrep(name).is_some() {
            let words = "a type before has the selector ";
            return self.report(at, Sentence::of(self.alloc, words).say(name.as_str()));
        }
        Ok(())
    }

    // The components of a possrep as the attributes of a tuple.
    fn components(
        &self,
        fields: &[Named<TypeExpr>],
        first: usize,
    ) -> Result<Heading, DiagnosisError> {
        check_fields(fields, self, first)?;
        match components_written(self.alloc, self.schema(), fields) {
            Ok(kinds) => Ok(kind_columns(self.alloc, kinds.as_slice())?),
            Err(TypeError::IllTyped) => Err(self.no_type(first)),
            Err(TypeError::OutOfMemory) => Err(DiagnosisError::OutOfMemory),
        }
    }

    // That an expression is a truth value.
    fn check_truth(&self, tree: &Expr, at: usize, scope: &Scope<'_>) -> Result<(), DiagnosisError> {
        let kind = self.kind_of(tree, at, scope)?;
        if is_boolean(kind.get()) {
            return Ok(());
        }
        self.report_operand_kind(at, "CONSTRAINT", "BOOLEAN", kind.get())
    }

    // That a TYPE definition has a new name and a new selector, and components and a constraint that have types. A
    // possrep without a name takes that of the type.
    fn check_type(
        &self,
        name: &Name,
        possrep: &Option<Name>,
        fields: &[Named<TypeExpr>],
        limit: &Option<Boxed<Expr>>,
    ) -> Result<(), DiagnosisError> {
        if self.schema().type_named(name).is_some() {
            return self.report_earlier_definition(name, NAME);
        }
        match possrep {
            Some(possrep) => {
                self.check_selector(possrep, 3)?;
                self.check_possrep(fields, 4, limit)
            }
            None => {
                self.check_selector(name, NAME)?;
                self.check_possrep(fields, 3, limit)
            }
        }
    }

    // That components, of which the first begins at a mark, have types, and that their condition is a truth value.
    fn check_possrep(
        &self,
        fields: &[Named<TypeExpr>],
        first: usize,
        limit: &Option<Boxed<Expr>>,
    ) -> Result<(), DiagnosisError> {
        let heading = self.components(fields, first)?;
        match limit {
            Some(limit) => {
                let at = sum(&[first, fields_width(fields), 1]);
                self.check_truth(limit.get(), at, &Scope::Within(&heading, &Scope::Nothing))
            }
            None => Ok(()),
        }
    }

    // The heading of a value over the relvars; the value is that of what is told in words.
    fn relation_at(&self, tree: &Expr, at: usize, of: &str) -> Result<Heading, DiagnosisError> {
        let kind = self.kind_of(tree, at, &Scope::Relvars(self.schema()))?;
        match relation_heading(kind.get()) {
            Some(heading) => Ok(heading.copy()?),
            None => self.report_operand_kind(at, of, "a relation", kind.get()),
        }
    }

    // The heading of a base relvar, whose opening begins at a mark.
    fn heading_of_opening(&self, opening: &Opening, at: usize) -> Result<Heading, DiagnosisError> {
        let first = sum(&[at, 1]);
        match opening {
            Opening::Empty(fields) => heading_of(self, fields.as_slice(), first),
            Opening::Init(None, a) => self.relation_at(a.get(), first, "INIT"),
            Opening::Init(Some(fields), a) => {
                let fields = fields.as_slice();
                let heading = heading_of(self, fields, first)?;
                let value = sum(&[first, fields_width(fields), 1]);
                self.check_value_of(&heading, a.get(), value)?;
                Ok(heading)
            }
        }
    }

    // That the value of INIT has the heading that is written before it.
    fn check_value_of(
        &self,
        heading: &Heading,
        tree: &Expr,
        at: usize,
    ) -> Result<(), DiagnosisError> {
        let own = self.relation_at(tree, at, "INIT")?;
        match unlike(self.alloc, &own, heading, "the heading") {
            Some(sentence) => self.report(at, sentence),
            None => Ok(()),
        }
    }

    // That the keys name attributes of the heading alone; the first one begins at a mark.
    fn check_keys(
        &self,
        keys: &[Attributes],
        first: usize,
        name: &Name,
        heading: &Heading,
    ) -> Result<(), DiagnosisError> {
        let mut at = first;
        for key in keys {
            let list = sum(&[at, 1]);
            self.check_attributes(key, list, name.as_str(), heading)?;
            at = sum(&[list, attributes_width(key)]);
        }
        Ok(())
    }

    // That no relvar has the name.
    fn check_relvar_name(&self, name: &Name) -> Result<(), DiagnosisError> {
        if self.schema().relvar(name).is_some() {
            return self.report_earlier_definition(name, NAME);
        }
        Ok(())
    }

    // That no constraint has the name.
    fn check_constraint_name(&self, name: &Name) -> Result<(), DiagnosisError> {
        for test in self.catalogue.tests() {
            if let Test::Constraint(before, _) = test {
                if before == name {
                    return self.report_earlier_definition(name, NAME);
                }
            }
        }
        Ok(())
    }

    // That a base relvar has a new name, an opening with a heading, and keys of its attributes.
    fn check_base(
        &self,
        name: &Name,
        opening: &Opening,
        keys: &[Attributes],
    ) -> Result<(), DiagnosisError> {
        self.check_relvar_name(name)?;
        let heading = self.heading_of_opening(opening, 3)?;
        let first = sum(&[3, opening_width(opening)]);
        self.check_keys(keys, first, name, &heading)
    }

    // That a virtual relvar has a new name and that its expression is a relation.
    fn check_virtual(&self, name: &Name, tree: &Expr) -> Result<(), DiagnosisError> {
        self.check_relvar_name(name)?;
        self.relation_at(tree, 3, "VIRTUAL")?;
        Ok(())
    }

    // That a constraint has a new name and that its expression is a truth value over the relvars.
    fn check_constraint(&self, name: &Name, tree: &Expr) -> Result<(), DiagnosisError> {
        self.check_constraint_name(name)?;
        self.check_truth(tree, 2, &Scope::Relvars(self.schema()))
    }

    // That a definition has no fault; otherwise gives the diagnostic of the first one found.
    fn check_definition(&self, definition: &Definition) -> Result<(), DiagnosisError> {
        match definition {
            Definition::Type(name, possrep, fields, limit) => {
                self.check_type(name, possrep, fields.as_slice(), limit)
            }
            Definition::Base(name, opening, keys) => {
                self.check_base(name, opening, keys.as_slice())
            }
            Definition::Virtual(name, a) => self.check_virtual(name, a.get()),
            Definition::Constraint(name, a) => self.check_constraint(name, a.get()),
        }
    }
}

/// Why a definition, which is the text's tree, is not well typed after what the catalogue has.
pub(crate) fn explain_definition(
    alloc: Global,
    catalogue: &Catalogue,
    text: &str,
    tree: &Definition,
) -> Result<Diagnostic, AllocError> {
    let explainer = Explainer::new(alloc, catalogue, text)?;
    explainer.diagnostic(explainer.check_definition(tree))
}
