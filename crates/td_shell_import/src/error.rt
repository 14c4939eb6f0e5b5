//! Why a file of comma-separated values is not imported.

use std::alloc::{AllocError, AllocFailed};
use thiserror::Error;

/// Why a cell has no value of its attribute's type.
#[derive(Clone, Copy, Debug, Drop, PartialEq, Eq, Error)]
pub enum CellFault {
    #[error("is empty, and there is no NULL")]
    Empty,
    #[error("is no INTEGER of 64 bits")]
    NoInteger,
    #[error("is neither TRUE nor FALSE")]
    NoBoolean,
    #[error("is no UTF-8")]
    NoUtf8,
    #[error("has an end of a line or a NUL in it, which no CHAR has")]
    NoText,
    #[error("is no value of its type, just as the language writes it")]
    NoLiteral,
}

/// Why a file of comma-separated values is not imported. Lines are counted from 1, and a row has the line in which it
/// begins.
#[derive(Debug, Drop, Error)]
pub enum ImportFault {
    #[error("out of memory")]
    OutOfMemory,
    #[error("the relvar has no attributes")]
    NoAttributes,
    #[error("the file is empty; its first line is to name the columns")]
    NoHeader,
    #[error("line 1 names the column {name}, and the relvar has no such attribute")]
    UnknownColumn {
        name: String,
    },
    #[error("line 1 names the column {name} twice")]
    RepeatedColumn {
        name: String,
    },
    #[error("line 1 does not name the column {name}")]
    MissingColumn {
        name: String,
    },
    #[error("line {line} has {count} cells, and line 1 has {wanted}")]
    CellCount {
        line: u64,
        count: usize,
        wanted: usize,
    },
    #[error("line {line}, column {name}: '{cell}' {fault}")]
    Cell {
        line: u64,
        name: String,
        cell: String,
        fault: CellFault,
    },
    #[error("line {line} has the key ( {key} ) of line {first}")]
    RepeatedKey {
        line: u64,
        first: u64,
        key: String,
    },
    #[error("line {line} is longer than a statement may be")]
    TooLong {
        line: u64,
    },
    #[error("the file cannot be read as comma-separated values")]
    Unreadable,
}

impl From<AllocError> for ImportFault {
    fn from(_e: AllocError) -> ImportFault {
        ImportFault::OutOfMemory
    }
}

impl<T: Drop> From<AllocFailed<T>> for ImportFault {
    fn from(_e: AllocFailed<T>) -> ImportFault {
        ImportFault::OutOfMemory
    }
}
