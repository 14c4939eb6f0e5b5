//! When a text that comes line by line is complete.

use crate::conditions::{Conditions, goes_on_in_word};

/// What a text is after some of its lines.
#[derive(Clone, Copy, PartialEq, Eq)]
pub enum Standing {
    /// Blanks and comments alone.
    Empty,
    /// More lines belong to it.
    Open,
    /// A statement, or what is to be read as one.
    Statement,
    /// A query, or what is to be read as one.
    Query,
}

#[derive(Clone, Copy, PartialEq, Eq)]
enum Place {
    Plain,
    Comment,
    Quote,
}

/// Where the reading of a text stands. It takes no memory, and each byte costs the same.
#[derive(Clone, Copy)]
pub struct Scan {
    place: Place,
    open_brackets: usize,
    // The last byte that is no blank and in no comment.
    last: Option<u8>,
    // Whether the next byte is the second one of a mark.
    passes: bool,
    assigns: bool,
    begins_statement: bool,
    conditions: Conditions,
    has_semicolon: bool,
    has_open_quote: bool,
}

// The words that begin statements and definitions.
const BEGINNINGS: [&[u8]; 6] = [
    b"INSERT",
    b"DELETE",
    b"UPDATE",
    b"VAR",
    b"TYPE",
    b"CONSTRAINT",
];

// The word that a line begins with behind blanks; empty where it begins with something else.
fn first_word(line: &[u8]) -> &[u8] {
    let line = line.trim_ascii_start();
    match line.iter().position(|byte| !goes_on_in_word(byte)) {
        Some(end) => line.get(..end).unwrap_or(line),
        None => line,
    }
}

// Whether a line begins with a word that begins statements, in letters of any case.
fn begins_statement(line: &[u8]) -> bool {
    let word = first_word(line);
    BEGINNINGS
        .iter()
        .any(|beginning| word.eq_ignore_ascii_case(beginning))
}

impl Scan {
    /// That of a text of which nothing was typed yet.
    pub fn new() -> Scan {
        Scan {
            place: Place::Plain,
            open_brackets: 0,
            last: None,
            passes: false,
            assigns: false,
            begins_statement: false,
            conditions: Conditions::new(),
            has_semicolon: false,
            has_open_quote: false,
        }
    }

    /// Goes on by a line, without or with its end.
    pub fn add_line(&mut self, line: &[u8]) {
        if self.last.is_none() && self.place == Place::Plain {
            self.begins_statement = begins_statement(line);
        }
        for (at, byte) in line.iter().enumerate() {
            self.step(*byte, line.get(at.saturating_add(1)).copied());
        }
        self.conditions.end_word();
        if self.place == Place::Quote {
            self.has_open_quote = true;
            self.place = Place::Plain;
        }
    }

    /// Goes on by a byte, behind which the next one stands.
    pub fn step(&mut self, byte: u8, next: Option<u8>) {
        if self.passes {
            self.passes = false;
            return;
        }
        match self.place {
            Place::Comment if byte == b'*' && next == Some(b'/') => {
                self.passes = true;
                self.place = Place::Plain;
            }
            Place::Comment => {}
            Place::Quote if byte == b'\'' => self.place = Place::Plain,
            Place::Quote => {}
            Place::Plain => self.plain(byte, next),
        }
    }

    // Goes on by a byte that is in no quotes and no comment, behind which the next one stands.
    fn plain(&mut self, byte: u8, next: Option<u8>) {
        if byte == b'/' && next == Some(b'*') {
            self.passes = true;
            self.place = Place::Comment;
            self.conditions.end_word();
            return;
        }
        if byte.is_ascii_whitespace() {
            self.conditions.end_word();
            return;
        }
        self.last = Some(byte);
        self.conditions.step(byte);
        match byte {
            b';' => self.has_semicolon = true,
            b'\'' => self.place = Place::Quote,
            b'(' | b'{' => self.open_brackets = self.open_brackets.saturating_add(1),
            b')' | b'}' => self.open_brackets = self.open_brackets.saturating_sub(1),
            b':' if next == Some(b'=') && self.open_brackets == 0 => self.assigns = true,
            _ => {}
        }
    }

    // (what begins with IF is a query where no semicolon stands in it)
    fn is_like_statement(&self) -> bool {
        self.begins_statement || self.assigns || self.conditions.begin_text() && self.has_semicolon
    }

    // Whether what stands behind a line is still to come.
    fn goes_on(&self) -> bool {
        if self.conditions.begin_text() && self.conditions.are_open() {
            return true;
        }
        !self.is_behind_end() && (self.is_like_statement() || self.open_brackets > 0)
    }

    /// Whether the last byte ends a definition or a statement: it is `;`, outside of comments and quotes.
    pub fn is_behind_end(&self) -> bool {
        self.last == Some(b';') && self.place == Place::Plain
    }

    /// What the text is behind a whole line. A statement ends with the line that ends in `;`, and a query with the
    /// line in which its brackets are closed; one that begins with IF goes on until each IF has its END IF. A quote
    /// that is open at the end of a line ends the text too: no other line can close it.
    pub fn standing(&self) -> Standing {
        if self.place == Place::Comment {
            return Standing::Open;
        }
        if self.last.is_none() {
            return Standing::Empty;
        }
        if !self.has_open_quote && self.goes_on() {
            return Standing::Open;
        }
        self.standing_at_end()
    }

    /// What the text is where no line follows. A comment without its end is no blank: the text is one that has no
    /// reading.
    pub fn standing_at_end(&self) -> Standing {
        if self.last.is_none() && self.place != Place::Comment {
            return Standing::Empty;
        }
        if self.last == Some(b';') || self.is_like_statement() {
            return Standing::Statement;
        }
        Standing::Query
    }
}

impl Default for Scan {
    fn default() -> Scan {
        Scan::new()
    }
}
