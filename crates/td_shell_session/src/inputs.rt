//! Where lines come from: what is typed, and files that are read as if they were typed.

use crate::ended::SessionEnd;
use std::alloc::{AllocError, Global};
use td_io::{RawLine, Source, content, has_line, read_line};

// The most files that are read within one another, so that one that reads itself ends.
const MOST_FILES: usize = 16;

// The most bytes of a line that is typed.
const LINE_BYTES: usize = 16_384;

/// A file that is being read.
#[derive(Drop)]
struct ReadFile {
    bytes: Vec<u8>,
    at: usize,
}

/// What comes next.
#[derive(Drop)]
pub(crate) enum Next {
    Line(Vec<u8>),
    /// A line that is too long to be kept.
    TooLong,
    /// A file ends.
    FileEnd,
    /// The input ends.
    End,
}

/// Where lines come from.
#[derive(Drop)]
pub(crate) struct Inputs {
    alloc: Global,
    files: Vec<ReadFile>,
    is_over: bool,
    reads: u64,
}

// Takes the file's next line, without LF and a CR before it; None where nothing of the file is left.
fn line_at(alloc: Global, file: &mut ReadFile) -> Result<Option<Vec<u8>>, AllocError> {
    let rest = file.bytes.get(file.at..).unwrap_or(b"".as_slice());
    if rest.is_empty() {
        return Ok(None);
    }
    let end = rest
        .iter()
        .position(|byte| *byte == b'\n')
        .unwrap_or(rest.len());
    let line = rest.get(..end).unwrap_or(rest);
    let line = Vec::from_slice(alloc, line.strip_suffix(b"\r".as_slice()).unwrap_or(line))?;
    file.at = file.at.saturating_add(end).saturating_add(1);
    Ok(Some(line))
}

// What comes with a line that was typed: its content, that it is too long to be kept, or the input's end.
fn keep_line(alloc: Global, line: &RawLine) -> Result<Next, AllocError> {
    match &line.bytes {
        Some(bytes) if bytes.is_empty() && line.is_last => Ok(Next::End),
        Some(bytes) => Ok(Next::Line(Vec::from_slice(alloc, content(bytes))?)),
        None => Ok(Next::TooLong),
    }
}

impl Inputs {
    /// Lines that are typed.
    pub fn new(alloc: Global) -> Inputs {
        Inputs {
            alloc,
            files: Vec::new(alloc),
            is_over: false,
            reads: u64::MAX,
        }
    }

    /// Has these texts come in place of what is typed. An empty line between them ends each.
    pub(crate) fn read_texts(&mut self, texts: &[&str]) -> Result<(), AllocError> {
        let mut bytes = Vec::new(self.alloc);
        for text in texts {
            bytes.extend_from_slice(text.as_bytes())?;
            bytes.extend_from_slice(b"\n\n".as_slice())?;
        }
        self.is_over = true;
        self.files.push(ReadFile { bytes, at: 0 })?;
        Ok(())
    }

    /// Whether the next line is one that is typed.
    pub(crate) fn is_typed(&self) -> bool {
        self.files.is_empty()
    }

    /// Whether the next line is one that is typed, and is not there yet.
    pub(crate) fn would_wait<S: Source>(&self, source: &S) -> bool {
        self.is_typed() && !has_line(source.buffer())
    }

    /// Has the lines of a file come next; returns whether one more may be read within the others.
    pub(crate) fn read_file(&mut self, bytes: Vec<u8>) -> Result<bool, AllocError> {
        if self.files.len() >= MOST_FILES {
            return Ok(false);
        }
        self.files.push(ReadFile { bytes, at: 0 })?;
        Ok(true)
    }

    // Reads the next line that is typed; after the last one it gives the input's end, and reads nothing.
    fn typed_line<S: Source>(&mut self, source: &mut S) -> Result<Next, SessionEnd> {
        if self.is_over {
            return Ok(Next::End);
        }
        let line = read_line(self.alloc, source, &mut self.reads, LINE_BYTES)?;
        self.is_over = line.is_last;
        Ok(keep_line(self.alloc, &line)?)
    }

    /// The next line.
    pub fn next_line<S: Source>(&mut self, source: &mut S) -> Result<Next, SessionEnd> {
        let alloc = self.alloc;
        let line = match self.files.last_mut() {
            Some(file) => line_at(alloc, file)?,
            None => return self.typed_line(source),
        };
        match line {
            Some(line) => Ok(Next::Line(line)),
            None => {
                let _file = self.files.pop();
                Ok(Next::FileEnd)
            }
        }
    }
}
