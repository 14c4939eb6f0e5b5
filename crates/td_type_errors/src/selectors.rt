//! Selectors, THE_ and RELATION.

use crate::diagnostic::DiagnosisError;
use crate::headings::unlike;
use crate::nearest::Nearest;
use crate::parts::{Explainer, Step, into_part};
use crate::sentence::Sentence;
use crate::types::heading_of;
use crate::widths::{fields_width, sum, width};
use sqlite_items::Boxed;
use td_schema::kinds::{same_kind, tuple_heading, user_name};
use td_schema::schema::begins_with_the;
use td_schema::{Representation, Scope};
use td_syntax::tree::{Expr, Named, TypeExpr};
use td_values::{Heading, Name, TypeKind};

impl Explainer<'_> {
    /// A selector, or THE_ with a component.
    pub fn call<'t>(
        &self,
        name: &Name,
        all: &'t [Boxed<Expr>],
        at: usize,
        scope: &Scope<'_>,
    ) -> Result<Step<'t>, DiagnosisError> {
        if begins_with_the(name) {
            return self.component(name, all, at, scope);
        }
        let Some((_, representation)) = self.schema().possrep(name) else {
            return self.no_selector(name, at);
        };
        self.check_count(
            name,
            representation.components.as_slice().len(),
            all.len(),
            at,
        )?;
        self.selector(name, representation, all, at, scope)
    }

    // Reports that a name is no selector: where it is that of a type, with the type's selector, else with the nearest
    // one.
    fn no_selector<T>(&self, name: &Name, at: usize) -> Result<T, DiagnosisError> {
        if let Some((_, representation)) = self.schema().type_named(name) {
            let sentence = Sentence::of(self.alloc, "the selector of the type ")
                .say(name.as_str())
                .say(" is ")
                .say(representation.possrep.name().as_str());
            return self.report(at, sentence);
        }
        let mut nearest = Nearest::new(self.alloc, name);
        nearest.look_at_selectors(self.schema());
        let sentence = Sentence::of(self.alloc, "no type has the selector ").say(name.as_str());
        self.report(at, sentence.near(nearest.found(), " is one"))
    }

    // That there are as many operands as are wanted.
    fn check_count(
        &self,
        name: &Name,
        wanted: usize,
        count: usize,
        at: usize,
    ) -> Result<(), DiagnosisError> {
        if wanted == count {
            return Ok(());
        }
        let operands = if wanted == 1 { " operand" } else { " operands" };
        let verb = if count == 1 { "is " } else { "are " };
        let sentence = Sentence::of(self.alloc, name.as_str())
            .say(" takes ")
            .number(wanted)
            .say(operands)
            .say("; here ")
            .say(verb)
            .number(count);
        self.report(at, sentence)
    }

    // The operand of a selector that has no type, or one of another type than its component.
    fn selector<'t>(
        &self,
        name: &Name,
        representation: &Representation,
        all: &'t [Boxed<Expr>],
        at: usize,
        scope: &Scope<'_>,
    ) -> Result<Step<'t>, DiagnosisError> {
        let mut operand = sum(&[at, 1]);
        let components = representation.components.as_slice();
        for (place, a) in all.iter().enumerate() {
            let tree = a.get();
            match self.kind(tree, scope) {
                Ok(kind) => self.check_operand(name, place, kind.get(), components, operand)?,
                Err(error) => return into_part(error, tree, operand),
            }
            operand = sum(&[operand, width(tree)]);
        }
        Err(self.no_type(at))
    }

    // That the operand at this place is of the kind of its component.
    fn check_operand(
        &self,
        name: &Name,
        place: usize,
        kind: &TypeKind,
        components: &[Named<TypeKind>],
        at: usize,
    ) -> Result<(), DiagnosisError> {
        let Some(component) = components.get(place) else {
            return Ok(());
        };
        let wanted = &component.value;
        if same_kind(kind, wanted) {
            return Ok(());
        }
        let sentence = Sentence::of(self.alloc, "operand ")
            .number(sum(&[place, 1]))
            .say(" of ")
            .say(name.as_str())
            .say(" is ")
            .kind(kind)
            .say("; it must be ")
            .kind(wanted);
        self.report(at, sentence)
    }

    // THE_ of an operand of a user type.
    fn component<'t>(
        &self,
        name: &Name,
        all: &'t [Boxed<Expr>],
        at: usize,
        scope: &Scope<'_>,
    ) -> Result<Step<'t>, DiagnosisError> {
        self.check_count(name, 1, all.len(), at)?;
        let Some(a) = all.first() else {
            return Err(self.no_type(at));
        };
        let operand = sum(&[at, 1]);
        match self.kind(a.get(), scope) {
            Ok(kind) => self.no_component(name, kind.get(), at, operand),
            Err(error) => into_part(error, a.get(), operand),
        }
    }

    // That an operand has no component that THE_ names.
    fn no_component<T>(
        &self,
        name: &Name,
        kind: &TypeKind,
        at: usize,
        operand: usize,
    ) -> Result<T, DiagnosisError> {
        let component = name.as_str().strip_prefix("THE_").unwrap_or("");
        match user_name(kind) {
            Some(ty) => self.no_component_of(ty, component, at),
            None => {
                let sentence = Sentence::of(self.alloc, name.as_str())
                    .say(" takes a value of a type with a component ")
                    .say(component)
                    .say("; this is ")
                    .kind(kind);
                self.report(operand, sentence)
            }
        }
    }

    // Reports that a type has no such component, with the list of those it has.
    fn no_component_of<T>(
        &self,
        ty: &Name,
        component: &str,
        at: usize,
    ) -> Result<T, DiagnosisError> {
        let Some((_, representation)) = self.schema().type_named(ty) else {
            return Err(self.no_type(at));
        };
        let components = representation.components.as_slice();
        let none = if components.is_empty() { "none" } else { "" };
        let sentence = Sentence::of(self.alloc, ty.as_str())
            .say(" has no component ")
            .say(component)
            .say("; it has ")
            .say(none)
            .names(components);
        self.report(at, sentence)
    }

    // The first of the operands that has no type, or that is no tuple of the heading, which is called so.
    fn tuples<'t>(
        &self,
        all: &'t [Boxed<Expr>],
        first: usize,
        heading: &Heading,
        called: &str,
        scope: &Scope<'_>,
    ) -> Result<Step<'t>, DiagnosisError> {
        let mut at = first;
        for a in all {
            let tree = a.get();
            match self.kind(tree, scope) {
                Ok(kind) => self.check_tuple(kind.get(), at, heading, called)?,
                Err(error) => return into_part(error, tree, at),
            }
            at = sum(&[at, width(tree)]);
        }
        Err(self.no_type(first))
    }

    // That an operand is a tuple of the heading, which is called so.
    fn check_tuple(
        &self,
        kind: &TypeKind,
        at: usize,
        heading: &Heading,
        called: &str,
    ) -> Result<(), DiagnosisError> {
        let Some(own) = tuple_heading(kind) else {
            return self.report_operand_kind(at, "RELATION", "tuples", kind);
        };
        match unlike(self.alloc, own, heading, called) {
            Some(sentence) => self.report(at, sentence),
            None => Ok(()),
        }
    }

    /// RELATION without a heading, which is that of its first tuple.
    pub fn relation<'t>(
        &self,
        all: &'t [Boxed<Expr>],
        at: usize,
        scope: &Scope<'_>,
    ) -> Result<Step<'t>, DiagnosisError> {
        let first = sum(&[at, 1]);
        let Some(a) = all.first() else {
            return Err(self.no_type(at));
        };
        match self.kind(a.get(), scope) {
            Ok(kind) => self.tuples_alike(all, first, kind.get(), scope),
            Err(error) => into_part(error, a.get(), first),
        }
    }

    // The tuples of a relation, of which the first one is of this kind.
    fn tuples_alike<'t>(
        &self,
        all: &'t [Boxed<Expr>],
        first: usize,
        kind: &TypeKind,
        scope: &Scope<'_>,
    ) -> Result<Step<'t>, DiagnosisError> {
        match tuple_heading(kind) {
            Some(heading) => self.tuples(all, first, heading, "the first tuple", scope),
            None => self.report_operand_kind(first, "RELATION", "tuples", kind),
        }
    }

    /// RELATION with its heading.
    pub(crate) fn headed_relation<'t>(
        &self,
        fields: &[Named<TypeExpr>],
        all: &'t [Boxed<Expr>],
        at: usize,
        scope: &Scope<'_>,
    ) -> Result<Step<'t>, DiagnosisError> {
        let first = sum(&[at, 1]);
        let heading = heading_of(self, fields, first)?;
        let tuples = sum(&[first, fields_width(fields)]);
        self.tuples(all, tuples, &heading, "the heading", scope)
    }
}
