//! Cells as values.

use crate::error::CellFault;
use std::alloc::{AllocError, Global};
use std::str;
use td_values::{Kind, Text, TypeKind, Value};

/// Why a cell is not read.
#[derive(Clone, Copy, Drop)]
pub enum Unread {
    OutOfMemory,
    Fault(CellFault),
}

impl From<AllocError> for Unread {
    fn from(_e: AllocError) -> Unread {
        Unread::OutOfMemory
    }
}

// Whether one of the bytes is NUL, LF or CR, with which a cell is refused as a text.
fn is_no_text(cell: &[u8]) -> bool {
    for byte in cell {
        if matches!(*byte, 0 | b'\n' | b'\r') {
            return true;
        }
    }
    false
}

// The cell as a text, with its blanks, if it is one line of UTF-8 without NUL.
fn text_in(alloc: Global, cell: &[u8]) -> Result<Kind, Unread> {
    let Ok(text) = str::from_utf8(cell) else {
        return Err(Unread::Fault(CellFault::NoUtf8));
    };
    if is_no_text(cell) {
        return Err(Unread::Fault(CellFault::NoText));
    }
    Ok(Kind::Char(Text::from_str(alloc, text)?))
}

// The cell as an integer of 64 bits; an empty cell has a fault of its own.
fn integer_in(cell: &[u8]) -> Result<Kind, Unread> {
    if cell.is_empty() {
        return Err(Unread::Fault(CellFault::Empty));
    }
    match str::from_utf8(cell) {
        Ok(text) => match text.parse::<i64>() {
            Ok(number) => Ok(Kind::Integer(number)),
            Err(_) => Err(Unread::Fault(CellFault::NoInteger)),
        },
        Err(_) => Err(Unread::Fault(CellFault::NoUtf8)),
    }
}

// The cell as TRUE or FALSE, whatever the case of its letters; an empty cell has a fault of its own.
fn boolean_in(cell: &[u8]) -> Result<Kind, Unread> {
    if cell.is_empty() {
        return Err(Unread::Fault(CellFault::Empty));
    }
    if cell.eq_ignore_ascii_case(b"TRUE") {
        return Ok(Kind::Boolean(true));
    }
    if cell.eq_ignore_ascii_case(b"FALSE") {
        return Ok(Kind::Boolean(false));
    }
    Err(Unread::Fault(CellFault::NoBoolean))
}

/// Whether cells of this type have values that are written without their types.
pub fn is_plain(kind: &TypeKind) -> bool {
    matches!(kind, TypeKind::Char | TypeKind::Integer | TypeKind::Boolean)
}

/// The value of a cell. Blanks around a number or a truth value mean nothing; those of a text stay.
pub(crate) fn value_in(alloc: Global, kind: &TypeKind, cell: &[u8]) -> Result<Value, Unread> {
    let kind = match kind {
        TypeKind::Integer => integer_in(cell.trim_ascii())?,
        TypeKind::Boolean => boolean_in(cell.trim_ascii())?,
        _ => text_in(alloc, cell)?,
    };
    Ok(Value { kind })
}
