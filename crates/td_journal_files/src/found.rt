//! What is found of a journal when it is opened.

use crate::framing::StatementAt;
use crate::judging::Checked;

/// Bytes that were cut off a journal, and are kept in a file beside it.
#[derive(Clone, Copy, Debug, PartialEq, Eq)]
pub struct Cut {
    /// How many bytes.
    pub bytes: u64,
    /// Which of the journal's files of this kind has them: 1 for the name with `.cut` behind it, n for one with
    /// `.cut.n`.
    pub number: u32,
    /// Whether they are more than an entry that was being written when the program stopped: the journal is damaged.
    pub is_damage: bool,
}

/// Bytes of a journal that were changed since they were written.
#[derive(Clone, Copy, Debug, PartialEq, Eq)]
pub struct Damage {
    /// The first byte, and the byte behind the last one.
    pub from: u64,
    pub end: u64,
    /// How many statements stand there that can be read, and the first and the last of them.
    pub statements: u64,
    pub first: Option<StatementAt>,
    pub last: Option<StatementAt>,
}

/// A journal that was damaged, and was made anew of what is sound.
#[derive(Clone, Copy, Debug, PartialEq, Eq)]
pub struct Salvaged {
    /// What was left out.
    pub damage: Damage,
    /// How many statements were kept.
    pub kept: u64,
    /// Which of the journal's files of this kind has the damaged journal: 1 for the name with `.damaged` behind it, n
    /// for one with `.damaged.n`.
    pub number: u32,
}

/// What was found of a journal.
#[derive(Clone, Copy, Debug, PartialEq, Eq)]
pub struct Found {
    /// Whether the file was not there, and was made.
    pub is_new: bool,
    /// How many bytes stand whole, which the site has.
    pub whole: u64,
    /// Up to which length the journal had been handed to the disk before, where that is known.
    pub seen: Option<u64>,
    /// What was cut off, if anything.
    pub cut: Option<Cut>,
    /// How much of it was compared with its sums.
    pub checked: Checked,
    /// Whether it was to be salvaged if it was damaged.
    pub is_salvaging: bool,
    /// How it was salvaged, if it was.
    pub salvaged: Option<Salvaged>,
}

impl Found {
    /// Whether the journal once had more than it has now: it was damaged or removed, or an older
    /// copy took its place.
    pub fn is_short(&self) -> bool {
        match self.seen {
            Some(length) => self.whole < length,
            None => false,
        }
    }
}
