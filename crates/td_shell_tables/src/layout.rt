//! Rows of cells in columns of equal width.

use std::alloc::{AllocError, Global};
use unicode_width::UnicodeWidthStr;

/// At which side of its column a cell stands.
#[derive(Clone, Copy)]
pub enum Side {
    Left,
    Right,
}

/// A column: what stands above it, and where its cells stand.
#[derive(Clone, Copy, Drop)]
pub struct Column<'a> {
    pub title: &'a str,
    pub side: Side,
}

// What stands between two columns.
const GAP: &str = "  ";

// The columns' widths: at least those of their titles.
fn title_widths(alloc: Global, columns: &[Column<'_>]) -> Result<Vec<usize>, AllocError> {
    let mut widths = Vec::with_capacity(alloc, columns.len())?;
    for column in columns {
        widths.push(column.title.width())?;
    }
    Ok(widths)
}

// Makes each column at least as wide as its cell in the row.
fn widen(widths: &mut [usize], row: &[String]) {
    for (width, cell) in widths.iter_mut().zip(row) {
        *width = (*width).max(cell.as_str().width());
    }
}

// Appends the character so many times.
fn push_many(out: &mut String, c: char, count: usize) -> Result<(), AllocError> {
    for _ in 0..count {
        out.push(c)?;
    }
    Ok(())
}

// A cell within its column. The last one is not filled up, so that no line ends in blanks.
fn push_cell(
    out: &mut String,
    cell: &str,
    side: Side,
    width: usize,
    is_last: bool,
) -> Result<(), AllocError> {
    let blanks = width.saturating_sub(cell.width());
    match side {
        Side::Right => {
            push_many(out, ' ', blanks)?;
            out.push_str(cell)
        }
        Side::Left => {
            out.push_str(cell)?;
            if is_last {
                Ok(())
            } else {
                push_many(out, ' ', blanks)
            }
        }
    }
}

// Appends a cell in the column at this place, behind the gap that each but the first has; nothing where there is none.
fn push_at(
    out: &mut String,
    columns: &[Column<'_>],
    widths: &[usize],
    at: usize,
    cell: &str,
) -> Result<(), AllocError> {
    let (Some(column), Some(width)) = (columns.get(at), widths.get(at)) else {
        return Ok(());
    };
    if at > 0 {
        out.push_str(GAP)?;
    }
    let is_last = at.saturating_add(1) == columns.len();
    push_cell(out, cell, column.side, *width, is_last)
}

// Appends the line of the titles, each at the side of its column at which the cells stand.
fn push_titles(
    out: &mut String,
    columns: &[Column<'_>],
    widths: &[usize],
) -> Result<(), AllocError> {
    for (at, column) in columns.iter().enumerate() {
        push_at(out, columns, widths, at, column.title)?;
    }
    out.push_str("\n")
}

// Appends a line of dashes as wide as the columns, with their gaps.
fn push_rule(out: &mut String, widths: &[usize]) -> Result<(), AllocError> {
    for (at, width) in widths.iter().enumerate() {
        if at > 0 {
            out.push_str(GAP)?;
        }
        push_many(out, '-', *width)?;
    }
    out.push_str("\n")
}

// Appends the line of a row, whose cells stand in the order of the columns.
fn push_row(
    out: &mut String,
    columns: &[Column<'_>],
    widths: &[usize],
    row: &[String],
) -> Result<(), AllocError> {
    for (at, cell) in row.iter().enumerate() {
        push_at(out, columns, widths, at, cell.as_str())?;
    }
    out.push_str("\n")
}

// The columns' widths: each has room for its title and for its widest cell.
fn widths_of(
    alloc: Global,
    columns: &[Column<'_>],
    rows: &[Vec<String>],
) -> Result<Vec<usize>, AllocError> {
    let mut widths = title_widths(alloc, columns)?;
    for row in rows {
        widen(&mut widths, row);
    }
    Ok(widths)
}

/// The columns' titles, a rule, and a line for each row, in which cells stand in the order of the columns. Widths are
/// those of a terminal's columns. It costs the length of what it gives.
pub fn lay_out(
    alloc: Global,
    columns: &[Column<'_>],
    rows: &[Vec<String>],
) -> Result<String, AllocError> {
    let widths = widths_of(alloc, columns, rows)?;
    let mut out = String::new(alloc);
    push_titles(&mut out, columns, &widths)?;
    push_rule(&mut out, &widths)?;
    for row in rows {
        push_row(&mut out, columns, &widths, row)?;
    }
    Ok(out)
}
