//! The relvars of a site, and the definitions of its script.

use crate::fault::Fault;
use std::alloc::{AllocError, Global};
use std::str;
use td_headings::{Catalogue, Origin};
use td_replica::{Catalogued, Replica, ValueError};
use td_semantics::Answer;
use td_shell_input::{defined_name, definition_at};
use td_shell_tables::{Column, Side, lay_out};
use td_site_messages::{SiteFault, push_raise};
use td_values::{Heading, Name, show_type_into};

// What `.tables` says in its columns.
const COLUMNS: [Column<'static>; 4] = [
    Column {
        title: "relvar",
        side: Side::Left,
    },
    Column {
        title: "tuples",
        side: Side::Right,
    },
    Column {
        title: "kind",
        side: Side::Left,
    },
    Column {
        title: "heading",
        side: Side::Left,
    },
];

/// The place in the script of the relvar of this name.
pub(crate) fn place_of(catalogue: &Catalogue, relvar: &str) -> Option<usize> {
    for place in 0..catalogue.schema().relvar_count() {
        if let Some((name, _)) = catalogue.relvar_at(place)
            && name.as_str() == relvar
        {
            return Some(place);
        }
    }
    None
}

// Whether the relvar at this place of the script is virtual or base.
fn kind_words(catalogue: &Catalogue, place: usize) -> &'static str {
    match catalogue.origin(place) {
        Some(Origin::Virtual(_)) => "virtual",
        _ => "base",
    }
}

// Appends the heading in braces, as the language writes it.
fn push_heading(out: &mut String, heading: &Heading) -> Result<(), AllocError> {
    out.push_str("{ ")?;
    for (place, (name, ty)) in heading.fields().iter().enumerate() {
        if place > 0 {
            out.push_str(", ")?;
        }
        out.push_str(name.as_str())?;
        out.push_str(" ")?;
        show_type_into(out, ty)?;
    }
    out.push_str(if heading.is_empty() { "}" } else { " }" })
}

// Appends how many tuples there are, or why that is not known.
fn push_tuple_count<R: Replica>(out: &mut String, site: &R, name: &Name) -> Result<(), AllocError> {
    match site.value_of(*out.allocator(), name) {
        Ok(Answer::Value(relation)) => {
            let count = relation.tuples().len();
            write!(out, "{count}")
        }
        Ok(Answer::Raised(raise)) => push_raise(out, raise),
        Err(ValueError::OutOfMemory) => Err(AllocError),
        Err(ValueError::Broken | ValueError::Unknown) => out.push_str("-"),
    }
}

// The cells of one row, to which further ones are added.
#[derive(Drop)]
struct Cells {
    alloc: Global,
    cells: Vec<String>,
}

impl Cells {
    // Adds a cell of this text.
    fn add(&mut self, text: &str) -> Result<(), AllocError> {
        self.cells.push(String::from_str(self.alloc, text)?)?;
        Ok(())
    }

    // Adds a cell of how many tuples a relvar has.
    fn add_count<R: Replica>(&mut self, site: &R, name: &Name) -> Result<(), AllocError> {
        let mut count = String::new(self.alloc);
        push_tuple_count(&mut count, site, name)?;
        self.cells.push(count)?;
        Ok(())
    }

    // Adds a cell of a heading.
    fn add_heading(&mut self, heading: &Heading) -> Result<(), AllocError> {
        let mut text = String::new(self.alloc);
        push_heading(&mut text, heading)?;
        self.cells.push(text)?;
        Ok(())
    }

    // Adds the cells of the relvar at this place; its value is found for the number of its tuples.
    fn add_relvar<R: Catalogued>(&mut self, site: &R, place: usize) -> Result<(), AllocError> {
        let catalogue = site.catalogue();
        let Some((name, heading)) = catalogue.relvar_at(place) else {
            return Ok(());
        };
        self.add(name.as_str())?;
        self.add_count(site, name)?;
        self.add(kind_words(catalogue, place))?;
        self.add_heading(heading)
    }
}

// Adds the row of the relvar at this place.
fn add_row<R: Catalogued>(
    rows: &mut Vec<Vec<String>>,
    alloc: Global,
    site: &R,
    place: usize,
) -> Result<(), AllocError> {
    let mut row = Cells {
        alloc,
        cells: Vec::with_capacity(alloc, COLUMNS.len())?,
    };
    row.add_relvar(site, place)?;
    rows.push(row.cells)?;
    Ok(())
}

// Adds a row for each relvar, in the order of the script.
fn add_rows<R: Catalogued>(
    rows: &mut Vec<Vec<String>>,
    alloc: Global,
    site: &R,
) -> Result<(), AllocError> {
    for place in 0..site.catalogue().schema().relvar_count() {
        add_row(rows, alloc, site, place)?;
    }
    Ok(())
}

// Says the table of all relvars.
fn say_relvars<R: Catalogued>(out: &mut String, site: &R) -> Result<(), AllocError> {
    let alloc = *out.allocator();
    let mut rows = Vec::new(alloc);
    add_rows(&mut rows, alloc, site)?;
    *out = lay_out(alloc, &COLUMNS, &rows)?;
    Ok(())
}

/// Says each relvar with how many tuples it has, whether it is virtual, and its heading.
pub(crate) fn relvars<R: Catalogued>(out: &mut String, site: &R) -> Result<(), Fault<'static>> {
    if !site.is_open() {
        return Err(Fault::Site(SiteFault::Broken));
    }
    Ok(say_relvars(out, site)?)
}

// Appends a definition without the blanks around it, and a line end; nothing of one that is no UTF-8.
fn push_definition(out: &mut String, definition: &[u8]) -> Result<(), AllocError> {
    if let Ok(text) = str::from_utf8(definition) {
        out.push_str(text.trim_ascii())?;
        out.push_str("\n")?;
    }
    Ok(())
}

// Appends the definitions of a script that define this name.
fn push_definitions(out: &mut String, script: &str, name: &str) -> Result<(), AllocError> {
    let mut rest = script.as_bytes();
    for _ in 0..script.len() {
        if rest.is_empty() {
            break;
        }
        let definition = definition_at(rest);
        if defined_name(definition.text) == name.as_bytes() {
            push_definition(out, definition.text)?;
        }
        rest = definition.rest;
    }
    Ok(())
}

/// Says the definitions of the script that define this name, or all of the script.
pub(crate) fn schema(out: &mut String, script: &str, name: Option<&str>) -> Result<(), AllocError> {
    let Some(name) = name else {
        return out.push_str(script);
    };
    push_definitions(out, script, name)?;
    if out.is_empty() {
        return writeln!(out, "the script defines no {name}");
    }
    Ok(())
}
