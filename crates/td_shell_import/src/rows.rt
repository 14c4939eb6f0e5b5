//! The rows of a file, each read and checked.

use crate::cells::{Unread, is_plain, value_in};
use crate::columns::{columns_of, printable_text};
use crate::error::{CellFault, ImportFault};
use crate::lines::Lines;
use crate::literals::Literals;
use crate::statements::is_short;
use csv::{ByteRecord, ByteRecordsIntoIter, Error, ErrorKind, ReaderBuilder};
use std::alloc::{AllocError, Global};
use std::str;
use td_values::{Heading, Name, TdType, TypeKind, show};

/// The records of a file.
type Records<'f> = ByteRecordsIntoIter<&'f [u8]>;

/// A row: the line in which it begins, and its values as the language writes them, in the order of the heading.
#[derive(Drop)]
pub struct Row {
    pub line: u64,
    pub literals: Vec<String>,
}

// Why a record is not read: there is no memory for it, or the file is none of comma-separated values.
fn unreadable(error: &Error) -> ImportFault {
    match error.kind() {
        ErrorKind::OutOfMemory => ImportFault::OutOfMemory,
        _ => ImportFault::Unreadable,
    }
}

// The line in which the record begins, counted from 1; 0 where its place is not known.
fn line_of(lines: &mut Lines<'_>, record: &ByteRecord) -> u64 {
    match record.position() {
        Some(position) => lines.line_behind(position.byte()),
        None => 0,
    }
}

// That a cell has a fault; its line, its attribute and what stands in it are fit for one line of an answer.
fn refuse_cell<T>(
    alloc: Global,
    line: u64,
    name: &Name,
    cell: &[u8],
    fault: CellFault,
) -> Result<T, ImportFault> {
    Err(ImportFault::Cell {
        line,
        name: String::from_str(alloc, name.as_str())?,
        cell: printable_text(alloc, cell)?,
        fault,
    })
}

// The cell of a type that the language writes in a way of its own, if it is written so.
fn written_in<L: Literals>(
    alloc: Global,
    literals: &L,
    ty: &TdType,
    cell: &[u8],
) -> Result<Option<String>, AllocError> {
    match str::from_utf8(cell.trim_ascii()) {
        Ok(text) if literals.is_literal(alloc, text, ty)? => Ok(Some(String::from_str(
            alloc, text,
        )?)),
        _ => Ok(None),
    }
}

// The cell of a type whose values are written without it, as the language writes its value.
fn plain_literal(alloc: Global, kind: &TypeKind, cell: &[u8]) -> Result<String, Unread> {
    let value = value_in(alloc, kind, cell)?;
    Ok(show(alloc, &value)?)
}

// The cell as the language writes its value, if it has one of the type.
fn literal_of<L: Literals>(
    alloc: Global,
    literals: &L,
    ty: &TdType,
    cell: &[u8],
) -> Result<String, Unread> {
    if is_plain(&ty.kind) {
        return plain_literal(alloc, &ty.kind, cell);
    }
    match written_in(alloc, literals, ty, cell)? {
        Some(text) => Ok(text),
        None => Err(Unread::Fault(CellFault::NoLiteral)),
    }
}

// The cell as the language writes its value, if it has one of the attribute's type.
fn literal_in<L: Literals>(
    alloc: Global,
    literals: &L,
    field: &(Name, TdType),
    line: u64,
    cell: &[u8],
) -> Result<String, ImportFault> {
    match literal_of(alloc, literals, &field.1, cell) {
        Ok(text) => Ok(text),
        Err(Unread::OutOfMemory) => Err(ImportFault::OutOfMemory),
        Err(Unread::Fault(fault)) => refuse_cell(alloc, line, &field.0, cell, fault),
    }
}

// Adds the cell as the language writes its value.
fn add_literal<L: Literals>(
    alloc: Global,
    literals: &L,
    field: &(Name, TdType),
    line: u64,
    cell: &[u8],
    texts: &mut Vec<String>,
) -> Result<(), ImportFault> {
    Ok(texts.push(literal_in(alloc, literals, field, line, cell)?)?)
}

// The record's cells as a row, in the order of the heading; a cell that is not there is an empty one.
fn row_in<L: Literals>(
    alloc: Global,
    literals: &L,
    heading: &Heading,
    columns: &[usize],
    line: u64,
    record: &ByteRecord,
) -> Result<Row, ImportFault> {
    let mut texts = Vec::with_capacity(alloc, columns.len())?;
    for (field, column) in heading.fields().iter().zip(columns) {
        let cell = record.get(*column).unwrap_or(b"".as_slice());
        add_literal(alloc, literals, field, line, cell, &mut texts)?;
    }
    Ok(Row {
        line,
        literals: texts,
    })
}

// Where rows go, and what each of them keeps to.
#[derive(Clone, Copy)]
struct Target<'a> {
    relvar: &'a Name,
    heading: &'a Heading,
    // for each attribute the place of its column
    columns: &'a [usize],
    // how many cells a row has
    cells: usize,
    // the most bytes of its INSERT
    most_bytes: usize,
}

// The record as a row, if it has as many cells as the target wants and its INSERT is short enough.
fn checked_row<L: Literals>(
    alloc: Global,
    literals: &L,
    target: Target<'_>,
    line: u64,
    record: &ByteRecord,
) -> Result<Row, ImportFault> {
    if record.len() != target.cells {
        return Err(ImportFault::CellCount {
            line,
            count: record.len(),
            wanted: target.cells,
        });
    }
    let row = row_in(
        alloc,
        literals,
        target.heading,
        target.columns,
        line,
        record,
    )?;
    if !is_short(target.relvar, target.heading, &row, target.most_bytes) {
        return Err(ImportFault::TooLong { line: row.line });
    }
    Ok(row)
}

// Adds what was read of the file, if that is a record, as a row.
fn add_row<L: Literals>(
    alloc: Global,
    literals: &L,
    target: Target<'_>,
    lines: &mut Lines<'_>,
    read: Result<ByteRecord, Error>,
    rows: &mut Vec<Row>,
) -> Result<(), ImportFault> {
    match read {
        Ok(record) => {
            let line = line_of(lines, &record);
            rows.push(checked_row(alloc, literals, target, line, &record)?)?;
            Ok(())
        }
        Err(error) => Err(unreadable(&error)),
    }
}

// The rows of what is left of a file.
fn rows_of<L: Literals>(
    alloc: Global,
    literals: &L,
    target: Target<'_>,
    file: &[u8],
    records: Records<'_>,
) -> Result<Vec<Row>, ImportFault> {
    let mut lines = Lines::new(file);
    let mut rows = Vec::new(alloc);
    for read in records {
        add_row(alloc, literals, target, &mut lines, read, &mut rows)?;
    }
    Ok(rows)
}

// The first record of a file, whose cells are the titles of its columns.
fn titles_in(records: &mut Records<'_>) -> Result<ByteRecord, ImportFault> {
    match records.next() {
        Some(Ok(titles)) => Ok(titles),
        Some(Err(error)) => Err(unreadable(&error)),
        None => Err(ImportFault::NoHeader),
    }
}

// The records of a file, of which the first has the titles of its columns.
fn records_in(alloc: Global, file: &[u8]) -> Records<'_> {
    ReaderBuilder::new()
        .has_headers(false)
        .flexible(true)
        .from_reader(alloc, file)
        .into_byte_records()
}

/// The rows of a file for a relvar of this heading. Its first line names the columns, in any order. Each row is one
/// tuple, whose INSERT has at most so many bytes. All of them are kept in memory; it costs the length of the file.
pub fn read_rows<L: Literals>(
    alloc: Global,
    literals: &L,
    relvar: &Name,
    heading: &Heading,
    file: &[u8],
    most_bytes: usize,
) -> Result<Vec<Row>, ImportFault> {
    if heading.is_empty() {
        return Err(ImportFault::NoAttributes);
    }
    let mut records = records_in(alloc, file);
    let titles = titles_in(&mut records)?;
    let columns = columns_of(alloc, heading, &titles)?;
    let target = Target {
        relvar,
        heading,
        columns: &columns,
        cells: titles.len(),
        most_bytes,
    };
    rows_of(alloc, literals, target, file, records)
}
