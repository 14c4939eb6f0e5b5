//! Near misses: names that are there, and nearly what is written.

use crate::widths::front;
use std::alloc::{AllocError, Global};
use strsim::osa_distance;
use td_schema::lists::{are_distinct, names};
use td_schema::{Schema, Scope};
use td_syntax::tree::Named;
use td_values::{Heading, Name, TypeKind};

/// The fewest bytes of a name that is told as a near miss of other letters.
const FEWEST: usize = 3;

// Whether a letter is changed, missing, added or exchanged with the next one. Where memory is wanting to compare them,
// the name counts as no near miss.
fn is_one_edit_away(alloc: Global, a: &str, b: &str) -> bool {
    if a.len() < FEWEST || b.len() < FEWEST || a.len().abs_diff(b.len()) > 1 {
        return false;
    }
    match osa_distance(alloc, a, b) {
        Ok(distance) => distance == 1,
        Err(_) => false,
    }
}

/// The nearest of the names that were looked at: the first in letters of other cases, else the first that is one edit
/// away.
#[derive(Clone, Copy, Drop)]
pub(crate) struct Nearest<'a> {
    alloc: Global,
    wanted: &'a Name,
    found: Option<&'a Name>,
    is_other_case: bool,
}

impl<'a> Nearest<'a> {
    pub fn new(alloc: Global, wanted: &'a Name) -> Nearest<'a> {
        Nearest {
            alloc,
            wanted,
            found: None,
            is_other_case: false,
        }
    }

    /// Compares a name with the wanted one, and keeps it where it is nearer than what was found before.
    pub fn look(&mut self, name: &'a Name) {
        if self.is_other_case {
            return;
        }
        let (wanted, text) = (self.wanted.as_str(), name.as_str());
        if text.as_bytes().eq_ignore_ascii_case(wanted.as_bytes()) {
            self.found = Some(name);
            self.is_other_case = true;
        } else if self.found.is_none() && is_one_edit_away(self.alloc, wanted, text) {
            self.found = Some(name);
        }
    }

    pub fn found(self) -> Option<&'a Name> {
        self.found
    }

    /// Looks at the attributes of a heading.
    pub(crate) fn look_at_attributes(&mut self, heading: &'a Heading) {
        for field in heading.fields() {
            self.look(&field.0);
        }
    }

    /// Looks at the names of all relvars.
    pub(crate) fn look_at_relvars(&mut self, schema: &'a Schema) {
        for place in 0..schema.relvar_count() {
            if let Some((name, _)) = schema.relvar_at(place) {
                self.look(name);
            }
        }
    }

    /// Looks at the names of all types that are defined.
    pub(crate) fn look_at_types(&mut self, schema: &'a Schema) {
        for place in 0..schema.type_count() {
            if let Some(representation) = schema.representation_at(place) {
                self.look(representation.possrep.ty());
            }
        }
    }

    /// Looks at the possreps, whose names are those of the selectors.
    pub(crate) fn look_at_selectors(&mut self, schema: &'a Schema) {
        for place in 0..schema.type_count() {
            if let Some(representation) = schema.representation_at(place) {
                self.look(representation.possrep.name());
            }
        }
    }

    // Looks at the names that WITH gives.
    fn look_at_given(&mut self, names: &'a [Named<TypeKind>]) {
        for named in names {
            self.look(&named.name);
        }
    }
}

/// Looks at the names in scope, the innermost first.
pub(crate) fn look_in_scope<'a>(scope: &'a Scope<'a>, nearest: &mut Nearest<'a>) {
    match scope {
        Scope::Nothing => {}
        Scope::Relvars(schema) => nearest.look_at_relvars(schema),
        Scope::Within(heading, outer) => {
            nearest.look_at_attributes(heading);
            look_in_scope(outer, nearest);
        }
        Scope::Given(names, outer) => {
            nearest.look_at_given(names);
            look_in_scope(outer, nearest);
        }
    }
}

/// The first name that stands before it too, with its place. The longest front of distinct names ends there. Halving
/// finds it, so that a name is hashed at most once for each bit of the length, and once more.
pub(crate) fn first_repeated_name(
    alloc: Global,
    names: &[Name],
) -> Result<Option<(usize, &Name)>, AllocError> {
    if are_distinct(alloc, names)? {
        return Ok(None);
    }
    let (mut distinct, mut longest): (usize, usize) = (0, names.len());
    for _ in 0..usize::BITS {
        let middle = distinct.midpoint(longest);
        if middle == distinct {
            break;
        }
        if are_distinct(alloc, front(names, middle))? {
            distinct = middle;
        } else {
            longest = middle;
        }
    }
    match names.get(distinct) {
        Some(name) => Ok(Some((distinct, name))),
        None => Ok(None),
    }
}

/// The first of these parts that has the name of one before it, by its place and name.
pub(crate) fn first_repeated_part<T>(
    alloc: Global,
    parts: &[Named<T>],
) -> Result<Option<(usize, &Name)>, AllocError> {
    let names = names(alloc, parts)?;
    let Some((place, _)) = first_repeated_name(alloc, &names)? else {
        return Ok(None);
    };
    match parts.get(place) {
        Some(part) => Ok(Some((place, &part.name))),
        None => Ok(None),
    }
}
