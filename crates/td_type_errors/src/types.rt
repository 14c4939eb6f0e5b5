//! Types as they are written.

use crate::diagnostic::DiagnosisError;
use crate::nearest::{Nearest, first_repeated_part};
use crate::parts::Explainer;
use crate::sentence::Sentence;
use crate::widths::{fields_width, front, sum, type_width};
use td_schema::written::heading_written;
use td_schema::{Schema, TypeError};
use td_syntax::tree::{Named, TypeExpr};
use td_values::{Heading, Name};

impl Sentence {
    // With a list of the types that there are.
    fn types(self, schema: &Schema) -> Sentence {
        let count = schema.type_count();
        let mut sentence = self
            .say("the types are BOOLEAN, CHAR, INTEGER")
            .say(if count == 0 { "" } else { ", " });
        for place in 0..count {
            if let Some(representation) = schema.representation_at(place) {
                sentence = sentence.with_listed_name(place, representation.possrep.ty());
            }
        }
        sentence
    }
}

// That a name is that of a type; otherwise reports the nearest type, or the list of all types.
fn check_name(explainer: &Explainer<'_>, name: &Name, at: usize) -> Result<(), DiagnosisError> {
    if explainer.schema().type_named(name).is_some() {
        return Ok(());
    }
    let mut nearest = Nearest::new(explainer.alloc, name);
    nearest.look_at_types(explainer.schema());
    let sentence = Sentence::of(explainer.alloc, name.as_str()).say(" is no type; ");
    let sentence = match nearest.found() {
        Some(near) => sentence.say(near.as_str()).say(" is"),
        None => sentence.types(explainer.schema()),
    };
    explainer.report(at, sentence)
}

// That a type is one.
#[cycle(check_type)]
fn check_type(ty: &TypeExpr, explainer: &Explainer<'_>, at: usize) -> Result<(), DiagnosisError> {
    match ty {
        TypeExpr::Boolean | TypeExpr::Integer | TypeExpr::Char => Ok(()),
        TypeExpr::User(name) => check_name(explainer, name, at),
        TypeExpr::Tuple(fields) | TypeExpr::Relation(fields) => {
            check_fields(fields.as_slice(), explainer, sum(&[at, 1]))
        }
    }
}

/// That fields, of which the first begins at a mark, have types, and each a name of its own.
#[cycle(check_type)]
pub(crate) fn check_fields(
    fields: &[Named<TypeExpr>],
    explainer: &Explainer<'_>,
    first: usize,
) -> Result<(), DiagnosisError> {
    let mut at = first;
    for field in fields {
        check_type(&field.value, explainer, sum(&[at, 1]))?;
        at = sum(&[at, 1, type_width(&field.value)]);
    }
    check_names(fields, explainer, first)
}

// That no two of the fields have one name; the first field begins at a mark.
fn check_names(
    fields: &[Named<TypeExpr>],
    explainer: &Explainer<'_>,
    first: usize,
) -> Result<(), DiagnosisError> {
    match first_repeated_part(explainer.alloc, fields)? {
        Some((place, name)) => {
            explainer.report_repeated_name(name, sum(&[first, fields_width(front(fields, place))]))
        }
        None => Ok(()),
    }
}

/// The heading of these fields.
pub fn heading_of(
    explainer: &Explainer<'_>,
    fields: &[Named<TypeExpr>],
    first: usize,
) -> Result<Heading, DiagnosisError> {
    check_fields(fields, explainer, first)?;
    match heading_written(explainer.alloc, explainer.schema(), fields) {
        Ok(heading) => Ok(heading),
        Err(TypeError::IllTyped) => Err(explainer.no_type(first)),
        Err(TypeError::OutOfMemory) => Err(DiagnosisError::OutOfMemory),
    }
}
