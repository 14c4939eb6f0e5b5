//! Sentences about attributes: those that are not there, and how two headings differ.

use crate::nearest::Nearest;
use crate::sentence::{Sentence, is_shown_whole};
use std::alloc::Global;
use td_schema::kinds::same_kind;
use td_values::{Heading, Name, TdType};

// How many attributes of the first heading the second lacks.
fn lone_count(first: &Heading, second: &Heading) -> usize {
    let mut count: usize = 0;
    for field in first.fields() {
        if second.type_of(&field.0).is_none() {
            count = count.saturating_add(1);
        }
    }
    count
}

impl Sentence {
    // With a list of the attributes of the first heading that the second lacks.
    fn with_lone_attributes(self, first: &Heading, second: &Heading) -> Sentence {
        let mut sentence = self;
        let mut count: usize = 0;
        for field in first.fields() {
            if second.type_of(&field.0).is_none() {
                sentence = sentence.with_listed_name(count, &field.0);
                count = count.saturating_add(1);
            }
        }
        sentence
    }

    // With those attributes of the operand on a side that the other operand lacks.
    fn with_side_alone(self, side: &str, own: &Heading, other: &Heading) -> Sentence {
        let verb = if lone_count(own, other) == 1 {
            " is on the "
        } else {
            " are on the "
        };
        self.with_lone_attributes(own, other)
            .say(verb)
            .say(side)
            .say(" alone")
    }
}

// The first attribute that both headings have, with two types.
fn first_type_difference<'a>(
    first: &'a Heading,
    second: &'a Heading,
) -> Option<(&'a Name, &'a TdType, &'a TdType)> {
    for field in first.fields() {
        if let Some(other) = second.type_of(&field.0) {
            if !same_kind(&field.1.kind, &other.kind) {
                return Some((&field.0, &field.1, other));
            }
        }
    }
    None
}

// The attribute that is nearest to a name, of more than are listed.
fn near_of_many<'a>(alloc: Global, heading: &'a Heading, name: &'a Name) -> Option<&'a Name> {
    if is_shown_whole(heading.len()) {
        return None;
    }
    let mut nearest = Nearest::new(alloc, name);
    nearest.look_at_attributes(heading);
    nearest.found()
}

/// That what is called so has no attribute of the name; what it has, or the nearest name where it has many.
pub(crate) fn no_attribute(
    alloc: Global,
    subject: &str,
    heading: &Heading,
    name: &Name,
) -> Sentence {
    let sentence = Sentence::of(alloc, subject)
        .say(" has no attribute ")
        .say(name.as_str())
        .say("; it has ");
    if heading.is_empty() {
        return sentence.say("none");
    }
    match near_of_many(alloc, heading, name) {
        Some(near) => sentence.say(near.as_str()),
        None => sentence.attributes(heading),
    }
}

/// How the heading of what stands here differs from that of what is called so; nothing where it does not.
pub fn unlike(alloc: Global, here: &Heading, there: &Heading, called: &str) -> Option<Sentence> {
    if lone_count(there, here) == 0 {
        return extra_attributes(alloc, here, there, called);
    }
    let sentence = Sentence::of(alloc, "this lacks ").with_lone_attributes(there, here);
    if lone_count(here, there) == 0 {
        return Some(sentence.say(", which ").say(called).say(" has"));
    }
    Some(
        sentence
            .say(" and has ")
            .with_lone_attributes(here, there)
            .say(", unlike ")
            .say(called),
    )
}

/// What the heading of what stands here has that the one of what is called so lacks, or has with another type.
pub(crate) fn extra_attributes(
    alloc: Global,
    here: &Heading,
    there: &Heading,
    called: &str,
) -> Option<Sentence> {
    if lone_count(here, there) == 0 {
        return differing_words(alloc, here, there, " here and ", " in ", called);
    }
    Some(
        Sentence::of(alloc, "this has ")
            .with_lone_attributes(here, there)
            .say(", which ")
            .say(called)
            .say(" lacks"),
    )
}

// Which attribute has two types. What is said of the first one, and of the second, stands behind them.
fn differing_words(
    alloc: Global,
    first: &Heading,
    second: &Heading,
    at_first: &str,
    at_second: &str,
    called: &str,
) -> Option<Sentence> {
    let (name, ty, other) = first_type_difference(first, second)?;
    Some(
        Sentence::of(alloc, name.as_str())
            .say(" is ")
            .kind(&ty.kind)
            .say(at_first)
            .kind(&other.kind)
            .say(at_second)
            .say(called),
    )
}

/// Which common attribute of two operands has two types, if one has.
pub(crate) fn two_types(alloc: Global, left: &Heading, right: &Heading) -> Option<Sentence> {
    differing_words(alloc, left, right, " on the left and ", " on the right", "")
}

/// How the headings of two operands differ; nothing where they do not.
pub fn sides(alloc: Global, left: &Heading, right: &Heading) -> Option<Sentence> {
    let (on_left, on_right) = (lone_count(left, right), lone_count(right, left));
    if on_left == 0 && on_right == 0 {
        return two_types(alloc, left, right);
    }
    let sentence = Sentence::new(alloc);
    if on_right == 0 {
        return Some(sentence.with_side_alone("left", left, right));
    }
    if on_left == 0 {
        return Some(sentence.with_side_alone("right", right, left));
    }
    Some(
        sentence
            .with_side_alone("left", left, right)
            .say(", ")
            .with_side_alone("right", right, left),
    )
}
