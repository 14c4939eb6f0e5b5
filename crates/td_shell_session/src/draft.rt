//! The text that is being typed.

use std::alloc::{AllocError, Global};
use td_replica::MOST_BYTES;
use td_shell_input::{Scan, Standing};

/// The lines that were typed since the last answer.
#[derive(Drop)]
pub(crate) struct Draft {
    text: String,
    scan: Scan,
    is_too_long: bool,
}

impl Draft {
    /// One that has no line yet.
    pub fn new(alloc: Global) -> Draft {
        Draft {
            text: String::new(alloc),
            scan: Scan::new(),
            is_too_long: false,
        }
    }

    /// What the lines are, where no other one follows.
    pub fn standing_at_end(&self) -> Standing {
        self.scan.standing_at_end()
    }

    /// Whether another line has to follow.
    pub fn is_open(&self) -> bool {
        self.scan.standing() == Standing::Open
    }

    /// The text of the lines, unless it is too long for any statement or query.
    pub fn text(&self) -> Option<&str> {
        if self.is_too_long {
            return None;
        }
        Some(self.text.as_str())
    }

    /// Adds a line. A text that is too long is not kept whole.
    pub fn add(&mut self, line: &str) -> Result<(), AllocError> {
        self.scan.add_line(line.as_bytes());
        if self.text.len().saturating_add(line.len()) > MOST_BYTES.saturating_mul(2) {
            self.is_too_long = true;
            return Ok(());
        }
        if !self.text.is_empty() {
            self.text.push_str("\n")?;
        }
        self.text.push_str(line)
    }
}
