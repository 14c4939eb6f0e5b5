//! Sentences about the operands of operators.

use crate::headings::{sides, two_types};
use crate::sentence::Sentence;
use std::alloc::Global;
use td_syntax::tree::{Aggregate, BinaryOperator, UnaryOperator};
use td_values::TypeKind;

/// A unary operator as it is written, and what it takes.
pub(crate) fn unary_words(operator: UnaryOperator) -> (&'static str, &'static str) {
    match operator {
        UnaryOperator::Not => ("NOT", "BOOLEAN"),
        UnaryOperator::Negate => ("-", "INTEGER"),
        UnaryOperator::Closure => ("TCLOSE", "a relation of two attributes of one type"),
        UnaryOperator::TupleFrom => ("TUPLE FROM", "a relation"),
        UnaryOperator::IsEmpty => ("IS_EMPTY", "a relation"),
        UnaryOperator::Count => ("COUNT", "a relation"),
    }
}

/// An aggregate as it is written, and the terms that it takes.
pub(crate) fn aggregate_words(aggregate: Aggregate) -> (&'static str, &'static str) {
    match aggregate {
        Aggregate::Sum => ("SUM", "INTEGER"),
        Aggregate::Max => ("MAX", "INTEGER or CHAR"),
        Aggregate::Min => ("MIN", "INTEGER or CHAR"),
        Aggregate::And => ("AND", "BOOLEAN"),
        Aggregate::Or => ("OR", "BOOLEAN"),
    }
}

/// A binary operator as it is written.
pub(crate) fn binary_word(operator: BinaryOperator) -> &'static str {
    match operator {
        BinaryOperator::Or => "OR",
        BinaryOperator::Xor => "XOR",
        BinaryOperator::And => "AND",
        BinaryOperator::Equals => "=",
        BinaryOperator::Differs => "<>",
        BinaryOperator::Less => "<",
        BinaryOperator::Greater => ">",
        BinaryOperator::AtMost => "<=",
        BinaryOperator::AtLeast => ">=",
        BinaryOperator::In => "IN",
        BinaryOperator::Join => "JOIN",
        BinaryOperator::Union => "UNION",
        BinaryOperator::Intersect => "INTERSECT",
        BinaryOperator::Minus => "MINUS",
        BinaryOperator::Compose => "COMPOSE",
        BinaryOperator::Matching => "MATCHING",
        BinaryOperator::NotMatching => "NOT MATCHING",
        BinaryOperator::Add => "+",
        BinaryOperator::Subtract => "-",
        BinaryOperator::Concatenate => "||",
        BinaryOperator::Multiply => "*",
        BinaryOperator::Divide => "/",
    }
}

// Two operands of other types than the operator takes.
fn operands(
    alloc: Global,
    word: &str,
    wanted: &str,
    left: &TypeKind,
    right: &TypeKind,
) -> Sentence {
    Sentence::of(alloc, word)
        .say(" takes ")
        .say(wanted)
        .say("; here are ")
        .kind(left)
        .say(" and ")
        .kind(right)
}

// How the headings of two tuples or of two relations differ.
fn difference(alloc: Global, left: &TypeKind, right: &TypeKind) -> Option<Sentence> {
    match (left, right) {
        (TypeKind::Relation(g), TypeKind::Relation(h)) => sides(alloc, g, h),
        (TypeKind::Tuple(g), TypeKind::Tuple(h)) => sides(alloc, g, h),
        _ => None,
    }
}

// Two types where one is wanted.
fn comparison_words(alloc: Global, word: &str, left: &TypeKind, right: &TypeKind) -> Sentence {
    let sentence = Sentence::of(alloc, word).say(" compares ");
    match difference(alloc, left, right) {
        Some(words) => sentence.say("values of one type; ").followed_by(words),
        None => sentence
            .kind(left)
            .say(" with ")
            .kind(right)
            .say("; both must be of one type"),
    }
}

// Whether values of the type have an order, or an inclusion.
fn is_ordered(kind: &TypeKind) -> bool {
    matches!(
        kind,
        TypeKind::Integer | TypeKind::Char | TypeKind::Relation(_)
    )
}

// Why an operator of order does not compare these types: one has no order, or they are not one type.
fn order_words(alloc: Global, word: &str, left: &TypeKind, right: &TypeKind) -> Sentence {
    let unordered = if !is_ordered(left) {
        left
    } else if !is_ordered(right) {
        right
    } else {
        return comparison_words(alloc, word, left, right);
    };
    Sentence::of(alloc, word)
        .say(" compares ")
        .kind(unordered)
        .say("; only INTEGER, CHAR and relations are ordered")
}

// Why IN does not take these operands: what tells their headings apart, or that they are no tuple and relation.
fn membership_words(alloc: Global, left: &TypeKind, right: &TypeKind) -> Sentence {
    if let (TypeKind::Tuple(g), TypeKind::Relation(h)) = (left, right) {
        if let Some(words) = sides(alloc, g, h) {
            return Sentence::of(alloc, "IN takes a tuple of the relation's heading; ").followed_by(
                words,
            );
        }
    }
    operands(alloc, "IN", "a tuple and a relation", left, right)
}

// Two operands that are not both relations. Where the left one alone is none, a condition may have swallowed it.
fn relation_words(alloc: Global, word: &str, left: &TypeKind, right: &TypeKind) -> Sentence {
    let hint = match (left, right) {
        (TypeKind::Relation(_), _) => "",
        (_, TypeKind::Relation(_)) => "; brackets before it may be missing",
        _ => "",
    };
    operands(alloc, word, "two relations", left, right).say(hint)
}

// Two relations, whose common attributes have one type.
fn join_words(alloc: Global, word: &str, left: &TypeKind, right: &TypeKind) -> Sentence {
    if let (TypeKind::Relation(g), TypeKind::Relation(h)) = (left, right) {
        if let Some(words) = two_types(alloc, g, h) {
            return Sentence::of(alloc, word)
                .say(" takes common attributes of one type; ")
                .followed_by(words);
        }
    }
    relation_words(alloc, word, left, right)
}

// Two relations of one heading.
fn union_words(alloc: Global, word: &str, left: &TypeKind, right: &TypeKind) -> Sentence {
    if let (TypeKind::Relation(g), TypeKind::Relation(h)) = (left, right) {
        if let Some(words) = sides(alloc, g, h) {
            return Sentence::of(alloc, word)
                .say(" takes relations of one heading; ")
                .followed_by(words);
        }
    }
    relation_words(alloc, word, left, right)
}

/// What is wrong with the operands of a binary operator, which is written so.
pub(crate) fn binary_words(
    alloc: Global,
    operator: BinaryOperator,
    word: &str,
    left: &TypeKind,
    right: &TypeKind,
) -> Sentence {
    match operator {
        BinaryOperator::Or | BinaryOperator::Xor | BinaryOperator::And => {
            operands(alloc, word, "BOOLEAN on both sides", left, right)
        }
        BinaryOperator::Equals | BinaryOperator::Differs => comparison_words(
            alloc, word, left, right,
        ),
        BinaryOperator::Less
        | BinaryOperator::Greater
        | BinaryOperator::AtMost
        | BinaryOperator::AtLeast => order_words(alloc, word, left, right),
        BinaryOperator::In => membership_words(alloc, left, right),
        BinaryOperator::Join
        | BinaryOperator::Compose
        | BinaryOperator::Matching
        | BinaryOperator::NotMatching => join_words(alloc, word, left, right),
        BinaryOperator::Union | BinaryOperator::Intersect | BinaryOperator::Minus => {
            union_words(alloc, word, left, right)
        }
        BinaryOperator::Add
        | BinaryOperator::Subtract
        | BinaryOperator::Multiply
        | BinaryOperator::Divide => operands(alloc, word, "INTEGER on both sides", left, right),
        BinaryOperator::Concatenate => operands(alloc, word, "CHAR on both sides", left, right),
    }
}

/// What is wrong with the branches of IF.
pub(crate) fn branch_words(alloc: Global, left: &TypeKind, right: &TypeKind) -> Sentence {
    Sentence::of(alloc, "the branches of IF are ")
        .kind(left)
        .say(" and ")
        .kind(right)
        .say("; they must be of one type")
}
