//! Files of comma-separated values that are imported.

use crate::answer::Answer;
use crate::fault::Fault;
use crate::issue::push_issued;
use crate::relvars::place_of;
use std::alloc::{AllocError, Global};
use td_headings::{Catalogue, Origin};
use td_io::{Sink, put};
use td_journal_files::Notes;
use td_listings::show_stamp;
use td_replica::{AskError, Catalogued, Issued, MOST_BYTES, Replica};
use td_semantics::{Answer as Evaluated, Meter, Outcome};
use td_shell_import::{
    ImportFault, ImportStatement, Literals, Row, check_keys, insertion_of, read_rows,
};
use td_site_messages::{SiteFault, push_count};
use td_stamps::Stamp;
use td_values::{Heading, Name, TdType, Value, show, show_type};

// From how many rows on the progress of an import is reported, and after how many each time.
const ROWS_REPORTED: usize = 1_000;

/// Where rows go: the relvar at a place of the script, with copies of its name and its heading, which outlast changes
/// of the site.
#[derive(Drop)]
struct Target {
    place: usize,
    relvar: Name,
    heading: Heading,
}

/// How far an import is.
#[derive(Clone, Copy)]
struct Progress {
    /// How many rows the file has.
    all: usize,
    /// How many of them are inserted.
    rows: usize,
    statements: usize,
    first: Option<Stamp>,
    last: Option<Stamp>,
}

impl Progress {
    // An import of n rows that has not begun.
    fn new(all: usize) -> Progress {
        Progress {
            all,
            rows: 0,
            statements: 0,
            first: None,
            last: None,
        }
    }

    // Notes a statement of n rows that is done.
    fn note(&mut self, stamp: Stamp, rows: usize) {
        self.rows = self.rows.saturating_add(rows);
        self.statements = self.statements.saturating_add(1);
        if self.first.is_none() {
            self.first = Some(stamp);
        }
        self.last = Some(stamp);
    }
}

/// The literals of a site's script.
#[derive(Clone, Copy, Drop)]
struct SiteLiterals<'a, R> {
    site: &'a R,
}

impl<R: Replica> SiteLiterals<'_, R> {
    // The value of a query, if it has one.
    fn value(&self, alloc: Global, text: &str) -> Result<Option<Value>, AllocError> {
        match self.site.ask(alloc, text) {
            Ok(Evaluated::Value(value)) => Ok(Some(value)),
            Err(AskError::OutOfMemory) => Err(AllocError),
            _ => Ok(None),
        }
    }

    // Whether the query has a value.
    fn has_value(&self, alloc: Global, text: &str) -> Result<bool, AllocError> {
        match self.value(alloc, text) {
            Ok(value) => Ok(value.is_some()),
            Err(error) => Err(error),
        }
    }

    // Whether the text has a value that is shown by the same text.
    fn is_shown(&self, alloc: Global, text: &str) -> Result<bool, AllocError> {
        match self.value(alloc, text)? {
            Some(value) => Ok(show(alloc, &value)?.as_str() == text),
            None => Ok(false),
        }
    }

    // Whether the text of a value has a place in a relation of the type.
    fn is_of_type(&self, alloc: Global, text: &str, ty: &TdType) -> Result<bool, AllocError> {
        let ty = show_type(alloc, ty)?;
        let relation = format!(in alloc; "RELATION {{ A {ty} }} {{ TUPLE {{ A {text} }} }}")?;
        self.has_value(alloc, relation.as_str())
    }
}

impl<R: Replica> Literals for SiteLiterals<'_, R> {
    // A text that its value is shown by is a literal, and one that has a place in a relation of its type is of the
    // type.
    fn is_literal(&self, alloc: Global, text: &str, ty: &TdType) -> Result<bool, AllocError> {
        if !self.is_shown(alloc, text)? {
            return Ok(false);
        }
        self.is_of_type(alloc, text, ty)
    }
}

// The relvar at a place of the script, as a target.
fn target_at(catalogue: &Catalogue, place: usize) -> Result<Option<Target>, AllocError> {
    match catalogue.relvar_at(place) {
        Some((relvar, heading)) => Ok(Some(Target {
            place,
            relvar: relvar.copy()?,
            heading: heading.copy()?,
        })),
        None => Ok(None),
    }
}

// Checks the rows for the keys of a base relvar.
fn check_rows(
    alloc: Global,
    heading: &Heading,
    origin: Option<&Origin>,
    rows: &[Row],
) -> Result<(), ImportFault> {
    if let Some(Origin::Base(keys, _opening)) = origin {
        for key in keys.as_slice() {
            check_keys(alloc, heading, key.as_slice(), rows)?;
        }
    }
    Ok(())
}

// The rows of the file as the target's heading has them; those for a base relvar are checked for its keys too.
fn checked_rows<R: Catalogued>(
    alloc: Global,
    site: &R,
    target: &Target,
    file: &[u8],
) -> Result<Vec<Row>, ImportFault> {
    let Target {
        place,
        relvar,
        heading,
    } = target;
    let literals = SiteLiterals { site };
    let rows = read_rows(alloc, &literals, relvar, heading, file, MOST_BYTES)?;
    match check_rows(alloc, heading, site.catalogue().origin(*place), &rows) {
        Ok(()) => Ok(rows),
        Err(error) => Err(error),
    }
}

// Appends how far an import came that stops, and the lines in which the first and the last of these rows begin.
fn push_stop(out: &mut String, progress: &Progress, rows: &[Row]) -> Result<(), AllocError> {
    let imported = progress.rows;
    let all = progress.all;
    write!(out, "imported {imported} of {all} rows: it stops at ")?;
    if let (Some(first), Some(last)) = (rows.first(), rows.last()) {
        let first = first.line;
        let last = last.line;
        write!(out, "lines {first} to {last} of the file")?;
    }
    out.push_str("\n")
}

// Appends the stamp of the first statement, that of the last if there are several, and a line end.
fn push_stamps(out: &mut String, progress: &Progress) -> Result<(), AllocError> {
    if let Some(first) = &progress.first {
        show_stamp(out, first)?;
    }
    if let Some(last) = &progress.last
        && progress.statements > 1
    {
        out.push_str(" to ")?;
        show_stamp(out, last)?;
    }
    out.push_str("\n")
}

// Says how many rows and statements an import has that came to its end, and their stamps.
fn say_imported(out: &mut String, progress: &Progress) -> Result<(), AllocError> {
    out.push_str("imported ")?;
    push_count(out, progress.rows, "row")?;
    out.push_str(" by ")?;
    push_count(out, progress.statements, "statement")?;
    out.push_str(": ")?;
    push_stamps(out, progress)
}

// Reports on the output of faults how far a long import is. Nothing depends on whether that is seen.
fn report_progress<F: Sink>(
    alloc: Global,
    progress: &Progress,
    before: usize,
    faults: &mut F,
) -> Result<(), AllocError> {
    let rows = progress.rows;
    let all = progress.all;
    if all > ROWS_REPORTED && rows / ROWS_REPORTED > before / ROWS_REPORTED {
        let line = format!(in alloc; "{rows} of {all} rows\n")?;
        let _written = put(faults, line.as_bytes());
    }
    Ok(())
}

// Notes a statement that was issued, or says why it is refused. Returns whether the import goes on.
fn note_issued(
    answer: &mut Answer,
    issued: &Issued,
    rows: usize,
    progress: &mut Progress,
) -> Result<bool, AllocError> {
    if matches!(&issued.outcome, Outcome::Done) {
        progress.note(issued.stamp, rows);
        return Ok(true);
    }
    push_issued(&mut answer.text, issued)?;
    answer.text.push_str("\n")?;
    Ok(false)
}

// Issues the statement of some rows, or says why not. Returns whether the import goes on.
fn insert<R: Catalogued>(
    answer: &mut Answer,
    site: &mut R,
    statement: &ImportStatement,
    progress: &mut Progress,
    meter: &mut Meter,
    notes: &Notes,
) -> Result<bool, AllocError> {
    let text = statement.text.as_str();
    match site.issue(*answer.text.allocator(), text, meter) {
        Ok(issued) => note_issued(answer, &issued, statement.count, progress),
        Err(error) => {
            let fault = Fault::Site(SiteFault::NotIssued { text, error });
            answer.push_fault(site.catalogue(), notes, fault)?;
            Ok(false)
        }
    }
}

// Issues the statement of the first of these rows, or says why not, and where the import stops. Returns whether it goes
// on.
fn insert_first<R: Catalogued>(
    answer: &mut Answer,
    site: &mut R,
    statement: &ImportStatement,
    rows: &[Row],
    progress: &mut Progress,
    meter: &mut Meter,
    notes: &Notes,
) -> Result<bool, AllocError> {
    if insert(answer, site, statement, progress, meter, notes)? {
        return Ok(true);
    }
    answer.is_fault = true;
    let rows = rows.get(..statement.count).unwrap_or(rows);
    push_stop(&mut answer.text, progress, rows)?;
    Ok(false)
}

// Inserts the first of these rows, as many as a statement has room for. Returns whether the import goes on.
fn insert_some<R: Catalogued>(
    answer: &mut Answer,
    site: &mut R,
    target: &Target,
    rows: &[Row],
    progress: &mut Progress,
    meter: &mut Meter,
    notes: &Notes,
) -> Result<bool, AllocError> {
    let Target {
        place: _,
        relvar,
        heading,
    } = target;
    let statement = insertion_of(*answer.text.allocator(), relvar, heading, rows, MOST_BYTES)?;
    insert_first(answer, site, &statement, rows, progress, meter, notes)
}

// Inserts the rows, one statement after the other, until one is refused or not issued, and says how far that came.
fn insert_all<R: Catalogued, F: Sink>(
    answer: &mut Answer,
    site: &mut R,
    target: &Target,
    rows: &[Row],
    meter: &mut Meter,
    notes: &Notes,
    faults: &mut F,
) -> Result<(), AllocError> {
    let mut progress = Progress::new(rows.len());
    for _ in 0..rows.len() {
        let before = progress.rows;
        let left = rows.get(before..).unwrap_or(&[]);
        if left.is_empty() {
            break;
        }
        if !insert_some(answer, site, target, left, &mut progress, meter, notes)? {
            return Ok(());
        }
        report_progress(*answer.text.allocator(), &progress, before, faults)?;
    }
    say_imported(&mut answer.text, &progress)
}

// Inserts the rows, if there are any.
fn import_rows<R: Catalogued, F: Sink>(
    answer: &mut Answer,
    site: &mut R,
    target: &Target,
    rows: &[Row],
    meter: &mut Meter,
    notes: &Notes,
    faults: &mut F,
) -> Result<(), AllocError> {
    if rows.is_empty() {
        answer.is_fault = true;
        return answer
            .text
            .push_str("the file has no rows, and nothing is imported\n");
    }
    insert_all(answer, site, target, rows, meter, notes, faults)
}

// Checks the rows of a file, and inserts them if they all fit.
fn import_into<R: Catalogued, F: Sink>(
    answer: &mut Answer,
    site: &mut R,
    target: &Target,
    file: &[u8],
    meter: &mut Meter,
    notes: &Notes,
    faults: &mut F,
) -> Result<(), AllocError> {
    match checked_rows(*answer.text.allocator(), site, target, file) {
        Ok(rows) => import_rows(answer, site, target, &rows, meter, notes, faults),
        Err(ImportFault::OutOfMemory) => Err(AllocError),
        Err(error) => answer.push_fault(site.catalogue(), notes, Fault::Import(&error)),
    }
}

/// Inserts the rows of a file into the relvar of this name: all rows are checked first, and then inserted by as few
/// statements as have room for them. With more than 1,000 rows the output of faults has the progress. An import that
/// stops counts as a fault, and so does one of a file without rows.
pub(crate) fn import<'t, R: Catalogued, F: Sink>(
    answer: &mut Answer,
    site: &mut R,
    relvar: &'t str,
    file: &[u8],
    meter: &mut Meter,
    notes: &Notes,
    faults: &mut F,
) -> Result<(), Fault<'t>> {
    let Some(place) = place_of(site.catalogue(), relvar) else {
        return Err(Fault::NoRelvar(relvar));
    };
    if let Some(Origin::Virtual(_)) = site.catalogue().origin(place) {
        return Err(Fault::Virtual(relvar));
    }
    match target_at(site.catalogue(), place)? {
        Some(target) => Ok(import_into(answer, site, &target, file, meter, notes, faults)?),
        None => Err(Fault::NoRelvar(relvar)),
    }
}
