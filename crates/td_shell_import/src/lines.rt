//! The lines of a file, counted as a person counts them: each ends with CR, LF or both, and those with nothing in them
//! count too.

/// How far a file's lines are counted.
#[derive(Clone, Copy)]
pub struct Lines<'a> {
    file: &'a [u8],
    at: usize,
    line: u64,
}

impl<'a> Lines<'a> {
    /// At the file's first line.
    pub fn new(file: &'a [u8]) -> Lines<'a> {
        Lines {
            file,
            at: 0,
            line: 1,
        }
    }

    // Whether a line ends with the byte at this place.
    fn ends_at(&self, at: usize) -> bool {
        match self.file.get(at) {
            Some(b'\n') => true,
            Some(b'\r') => self.file.get(at.saturating_add(1)) != Some(&b'\n'),
            _ => false,
        }
    }

    // Whether the next byte is CR or LF; false at the end of the file.
    fn is_blank(&self) -> bool {
        matches!(self.file.get(self.at), Some(b'\r' | b'\n'))
    }

    // Goes on by one byte, and counts a line where that byte ends one.
    fn step(&mut self) {
        if self.ends_at(self.at) {
            self.line = self.line.saturating_add(1);
        }
        self.at = self.at.saturating_add(1);
    }

    /// The line of the first byte behind so many that is no line end. What is counted once is not counted again.
    pub(crate) fn line_behind(&mut self, bytes: u64) -> u64 {
        for _ in self.at..self.file.len() {
            if self.at as u64 >= bytes && !self.is_blank() {
                break;
            }
            self.step();
        }
        self.line
    }
}
