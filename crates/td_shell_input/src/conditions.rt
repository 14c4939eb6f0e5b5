//! Which conditions of a text have their end.

// The word that is being read, as far as it may be one of IF and END.
#[derive(Clone, Copy, PartialEq, Eq)]
enum Letters {
    None,
    I,
    If,
    E,
    En,
    End,
    Other,
}

/// The words IF of a text, and the END IF that close them. It takes no memory, and each byte costs the same.
#[derive(Clone, Copy)]
pub struct Conditions {
    letters: Letters,
    // Whether nothing stands in front of the word.
    is_first: bool,
    // Whether END stands in front of it.
    is_behind_end: bool,
    begin_text: bool,
    open: usize,
}

/// Whether a word goes on with this byte.
pub fn goes_on_in_word(byte: &u8) -> bool {
    byte.is_ascii_alphanumeric() || *byte == b'_' || *byte == b'#'
}

// What the letters of a word come to with one more: how much of IF or END they are, in letters of any case.
fn with_letter(letters: Letters, byte: u8) -> Letters {
    match (letters, byte) {
        (Letters::None, b'I' | b'i') => Letters::I,
        (Letters::I, b'F' | b'f') => Letters::If,
        (Letters::None, b'E' | b'e') => Letters::E,
        (Letters::E, b'N' | b'n') => Letters::En,
        (Letters::En, b'D' | b'd') => Letters::End,
        _ => Letters::Other,
    }
}

impl Conditions {
    /// Those of a text of which nothing was read yet.
    pub fn new() -> Conditions {
        Conditions {
            letters: Letters::None,
            is_first: true,
            is_behind_end: false,
            begin_text: false,
            open: 0,
        }
    }

    /// Goes on by a byte that is no blank and in no comment.
    pub fn step(&mut self, byte: u8) {
        if goes_on_in_word(&byte) {
            self.letters = with_letter(self.letters, byte);
            return;
        }
        self.end_word();
        self.is_first = false;
        self.is_behind_end = false;
    }

    /// Ends the word, as a blank or a comment does.
    pub fn end_word(&mut self) {
        if self.letters == Letters::None {
            return;
        }
        if self.letters == Letters::If {
            self.begin_text = self.begin_text || self.is_first;
            self.open = if self.is_behind_end {
                self.open.saturating_sub(1)
            } else {
                self.open.saturating_add(1)
            };
        }
        self.is_first = false;
        self.is_behind_end = self.letters == Letters::End;
        self.letters = Letters::None;
    }

    /// Whether the text's first word is IF.
    pub fn begin_text(&self) -> bool {
        self.begin_text
    }

    /// Whether an IF has no END IF yet.
    pub fn are_open(&self) -> bool {
        self.open > 0
    }
}
