//! What is told of a script.

use std::alloc::{AllocError, Global};
use td_parse_errors::{Position, caret, line_of, position_of};

/// What was told so far, and how many definitions that was about.
#[derive(Drop)]
pub(crate) struct Report<'a> {
    pub alloc: Global,
    file: &'a str,
    told: String,
    definitions: usize,
    refused: usize,
    unjudged: usize,
}

impl<'a> Report<'a> {
    pub fn new(alloc: Global, file: &'a str) -> Report<'a> {
        Report {
            alloc,
            file,
            told: String::new(alloc),
            definitions: 0,
            refused: 0,
            unjudged: 0,
        }
    }

    /// Tells what there is at a byte of the text, with its line and a caret under the place.
    pub fn tell(&mut self, text: &str, place: usize, what: &str) -> Result<(), AllocError> {
        let Position { line, column } = position_of(text, place);
        let shown = line_of(text, line);
        let under = caret(self.alloc, shown, column)?;
        let file = self.file;
        let told = format!(in self.alloc; "{file}:{line}:{column}: {what}\n{shown}\n{under}\n")?;
        self.told.push_str(&told)
    }

    /// Counts a definition, whatever is found of it.
    pub(crate) fn count_definition(&mut self) {
        self.definitions = self.definitions.saturating_add(1);
    }

    /// Counts a definition, or the script, as refused.
    pub fn count_refused(&mut self) {
        self.refused = self.refused.saturating_add(1);
    }

    /// Counts a definition as not judged, since it names what was refused.
    pub(crate) fn count_unjudged(&mut self) {
        self.unjudged = self.unjudged.saturating_add(1);
    }

    /// Whether a definition, or the script, was refused; one that is not judged does not count.
    pub(crate) fn is_bad(&self) -> bool {
        self.refused > 0
    }

    /// All that was told, with the line that ends it.
    pub fn end(&self) -> Result<String, AllocError> {
        let (told, count, refused) = (&self.told, self.definitions, self.refused);
        let definitions = if count == 1 {
            "definition"
        } else {
            "definitions"
        };
        if self.unjudged == 0 {
            return Ok(format!(in self.alloc; "{told}{count} {definitions}, {refused} refused\n")?);
        }
        let unjudged = self.unjudged;
        Ok(format!(in self.alloc;
            "{told}{count} {definitions}, {refused} refused, {unjudged} not judged\n"
        )?)
    }
}
