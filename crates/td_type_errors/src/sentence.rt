//! Sentences while they are written, with types and lists of names cut to a length that a sentence bears.

use crate::diagnostic::{DiagnosisError, Diagnostic};
use std::alloc::Global;
use td_syntax::tree::Named;
use td_values::{Heading, Name, TypeKind};

/// The most attributes of a type that are shown.
const MOST_FIELDS: usize = 4;

/// The most names of a list that are shown.
const MOST_NAMES: usize = 12;

/// A sentence that is written from left to right. A want of memory is noted, and told at its end.
#[derive(Drop)]
pub(crate) struct Sentence {
    text: String,
    is_whole: bool,
}

impl Sentence {
    pub fn new(alloc: Global) -> Sentence {
        Sentence {
            text: String::new(alloc),
            is_whole: true,
        }
    }

    /// One that begins with these words.
    pub fn of(alloc: Global, words: &str) -> Sentence {
        Sentence::new(alloc).say(words)
    }

    /// Appends these words.
    pub fn say(mut self, words: &str) -> Sentence {
        if self.text.push_str(words).is_err() {
            self.is_whole = false;
        }
        self
    }

    /// Appends a number in decimal digits.
    pub fn number(mut self, number: usize) -> Sentence {
        if write!(self.text, "{number}").is_err() {
            self.is_whole = false;
        }
        self
    }

    /// With another sentence behind it.
    pub(crate) fn followed_by(self, rest: Sentence) -> Sentence {
        let Sentence { text, is_whole } = rest;
        let mut whole = self.say(&text);
        whole.is_whole = whole.is_whole && is_whole;
        whole
    }

    /// With a type, of which the first attributes are shown.
    pub fn kind(self, kind: &TypeKind) -> Sentence {
        match kind {
            TypeKind::Tuple(heading) => self.say("TUPLE ").heading(heading),
            TypeKind::Relation(heading) => self.say("RELATION ").heading(heading),
            _ => self.say(inner_words(kind)),
        }
    }

    // Appends a heading in braces, with at most MOST_FIELDS of its attributes, and the kinds of these in short.
    fn heading(self, heading: &Heading) -> Sentence {
        let fields = heading.fields();
        let mut sentence = self.say("{ ");
        for (place, field) in fields[..MOST_FIELDS.min(fields.len())].iter().enumerate() {
            sentence = sentence
                .say(if place == 0 { "" } else { ", " })
                .say(field.0.as_str())
                .say(" ")
                .say(inner_words(&field.1.kind));
        }
        sentence.say(if fields.len() > MOST_FIELDS {
            ", .. }"
        } else if fields.is_empty() {
            "}"
        } else {
            " }"
        })
    }

    /// With a further name of a list, of which so many names stand before it. Behind the most names stand dots.
    pub(crate) fn with_listed_name(self, before: usize, name: &Name) -> Sentence {
        if before > MOST_NAMES {
            self
        } else if before == MOST_NAMES {
            self.say(", ..")
        } else {
            self.say(if before == 0 { "" } else { ", " })
                .say(name.as_str())
        }
    }

    /// With a list of the names of these parts.
    pub fn names<T>(self, parts: &[Named<T>]) -> Sentence {
        let mut sentence = self;
        for (place, part) in parts.iter().enumerate() {
            sentence = sentence.with_listed_name(place, &part.name);
        }
        sentence
    }

    /// With a list of the names of the attributes.
    pub fn attributes(self, heading: &Heading) -> Sentence {
        let mut sentence = self;
        for (place, field) in heading.fields().iter().enumerate() {
            sentence = sentence.with_listed_name(place, &field.0);
        }
        sentence
    }

    /// With a name that is nearly the one that it is about, if there is one, and words behind it.
    pub fn near(self, name: Option<&Name>, words: &str) -> Sentence {
        match name {
            Some(name) => self.say("; ").say(name.as_str()).say(words),
            None => self,
        }
    }

    /// The end of a check that finds this at a byte of the text.
    pub(crate) fn into_error_at(self, place: usize) -> DiagnosisError {
        let Sentence { text, is_whole } = self;
        if is_whole {
            DiagnosisError::Found(Diagnostic {
                place,
                message: text,
            })
        } else {
            DiagnosisError::OutOfMemory
        }
    }
}

// A type within another one.
fn inner_words(kind: &TypeKind) -> &str {
    match kind {
        TypeKind::Boolean => "BOOLEAN",
        TypeKind::Integer => "INTEGER",
        TypeKind::Char => "CHAR",
        TypeKind::User(name) => name.as_str(),
        TypeKind::Tuple(_) => "TUPLE { .. }",
        TypeKind::Relation(_) => "RELATION { .. }",
    }
}

/// Whether a list of so many names is shown whole.
pub(crate) fn is_shown_whole(names: usize) -> bool {
    names <= MOST_NAMES
}
