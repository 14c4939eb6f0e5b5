//! What a line is answered.

use crate::ended::SessionEnd;
use crate::fault::{Fault, push_fault};
use std::alloc::{AllocError, Global};
use td_headings::Catalogue;
use td_io::{Sink, write_all};
use td_journal_files::Notes;
use td_site_messages::NO_MEMORY;

/// What comes before the words of a fault.
const FAULT: &str = "fault ";

/// What a line is answered.
#[derive(Drop)]
pub(crate) struct Answer {
    pub text: String,
    /// Whether the exit status counts it as a fault.
    pub is_fault: bool,
}

impl Answer {
    /// One that says nothing yet.
    pub fn new(alloc: Global) -> Answer {
        Answer {
            text: String::new(alloc),
            is_fault: false,
        }
    }

    /// Appends a fault, in lines.
    pub fn push_fault(
        &mut self,
        catalogue: &Catalogue,
        notes: &Notes,
        fault: Fault<'_>,
    ) -> Result<(), AllocError> {
        self.is_fault = true;
        self.text.push_str(FAULT)?;
        push_fault(&mut self.text, catalogue, notes, fault)?;
        self.text.push_str("\n")
    }
}

/// Writes that there is no memory for an answer, without memory.
pub(crate) fn put_no_memory<K: Sink>(output: &mut K) -> Result<(), SessionEnd> {
    write_all(output, FAULT.as_bytes())?;
    write_all(output, NO_MEMORY.as_bytes())?;
    Ok(write_all(output, b"\n")?)
}
