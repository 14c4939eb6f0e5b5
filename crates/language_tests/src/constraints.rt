//! How constraints may be judged: no contract says that one is found to be watched or safe, or to refer.

use crate::Result;
use std::alloc::Global;
use td_grammar::read_expr;
use td_headings::{Catalogue, TypedExpr, type_expr};
use td_incremental::{Reference, is_safe, is_watched, referring, sole_reference};
use td_semantics::catalogue_of;
use td_values::Name;

/// What is asked of a constraint.
#[derive(Clone, Copy)]
enum Question {
    /// Is it watched, and is it safe, of S and of SP?
    Growth,
    /// By which names does it refer to S, and by which if one relvar alone does?
    References,
}

// Of the relvar at the place: whether the constraint is watched, and whether it is safe.
fn growth(
    alloc: Global,
    catalogue: &Catalogue,
    expr: &TypedExpr,
    relvar: usize,
) -> Result<&'static str> {
    let watched = is_watched(alloc, catalogue, expr, relvar)?;
    let safe = is_safe(alloc, catalogue, expr, relvar)?;
    Ok(match (watched, safe) {
        (true, true) => "both",
        (true, false) => "watched",
        (false, true) => "safe",
        (false, false) => "neither",
    })
}

fn add_names(text: &mut String, names: Option<Vec<Name>>) -> Result<()> {
    let Some(names) = names else {
        text.push_str("none ")?;
        return Ok(());
    };
    for name in &names {
        text.push_str(name.as_str())?;
        text.push_str(" ")?;
    }
    Ok(())
}

fn references(alloc: Global, catalogue: &Catalogue, expr: &TypedExpr) -> Result<String> {
    let mut text = String::new(alloc);
    add_names(&mut text, referring(alloc, catalogue, expr, 0)?)?;
    text.push_str("| ")?;
    let sole = match sole_reference(alloc, catalogue, expr, 0)? {
        Some(Reference { relvar: _, names }) => Some(names),
        None => None,
    };
    add_names(&mut text, sole)?;
    Ok(text)
}

fn answer(
    alloc: Global,
    catalogue: &Catalogue,
    question: Question,
    constraint: &str,
) -> Result<String> {
    let read = read_expr(alloc, constraint)?;
    let expr = type_expr(alloc, catalogue, read.get())?;
    match question {
        Question::Growth => Ok(format!(in alloc;
            "{} {}",
            growth(alloc, catalogue, &expr, 0)?,
            growth(alloc, catalogue, &expr, 1)?
        )?),
        Question::References => references(alloc, catalogue, &expr),
    }
}

const SCRIPT: &str = "
VAR S BASE RELATION { SNO CHAR, STATUS INTEGER, CITY CHAR } KEY { SNO };
VAR SP BASE RELATION { SNO CHAR, PNO CHAR, QTY INTEGER } KEY { SNO, PNO };
VAR LS VIRTUAL ( S WHERE CITY = 'London' );
VAR NAMES VIRTUAL ( S { SNO } );
VAR MOST BASE RELATION { N INTEGER } KEY { };
";

// What is asked of constraints, with what is told.
const TABLE: &[(Question, &str, &str)] = &[
    (
        Question::Growth,
        "IS_EMPTY ( SP NOT MATCHING S )",
        "safe watched",
    ),
    (
        Question::Growth,
        "IS_EMPTY ( SP NOT MATCHING NAMES )",
        "safe watched",
    ),
    (
        Question::Growth,
        "IS_EMPTY ( SP NOT MATCHING LS )",
        "neither watched",
    ),
    (
        Question::Growth,
        "IS_EMPTY ( LS WHERE STATUS < 10 )",
        "watched both",
    ),
    (
        Question::Growth,
        "IS_EMPTY ( MOST WHERE N < COUNT ( LS ) )",
        "neither both",
    ),
    (Question::Growth, "SP { SNO } <= S { SNO }", "safe watched"),
    (Question::Growth, "NAMES >= SP { SNO }", "safe watched"),
    (
        Question::Growth,
        "IS_EMPTY ( SP NOT MATCHING S ) AND IS_EMPTY ( LS WHERE STATUS < 10 )",
        "neither watched",
    ),
    (
        Question::Growth,
        "IS_EMPTY ( ( S JOIN SP ) WHERE QTY < STATUS )",
        "watched watched",
    ),
    (
        Question::Growth,
        "IS_EMPTY ( S { SNO } MINUS SP { SNO } )",
        "watched neither",
    ),
    (
        Question::Growth,
        "IS_EMPTY ( ( EXTEND ( S UNION S ) ADD ( 10 / STATUS AS X ) ) WHERE X < 0 )",
        "watched both",
    ),
    (Question::Growth, "NOT IS_EMPTY ( S )", "neither both"),
    (
        Question::Growth,
        "COUNT ( S ) < COUNT ( SP )",
        "neither neither",
    ),
    (Question::Growth, "TRUE", "both both"),
    (
        Question::References,
        "IS_EMPTY ( SP NOT MATCHING S )",
        "PNO QTY SNO | SNO ",
    ),
    (
        Question::References,
        "SP { SNO } <= S { SNO }",
        "SNO | SNO ",
    ),
    (
        Question::References,
        "S { SNO } >= SP { SNO }",
        "SNO | SNO ",
    ),
    (
        Question::References,
        "IS_EMPTY ( SP { SNO } MINUS S { SNO } )",
        "SNO | SNO ",
    ),
    (
        Question::References,
        "IS_EMPTY ( SP { SNO } NOT MATCHING S )",
        "SNO | SNO ",
    ),
    (
        Question::References,
        "IS_EMPTY ( ( SP WHERE QTY < 5 ) NOT MATCHING S )",
        "PNO QTY SNO | none ",
    ),
    (
        Question::References,
        "SP { SNO } <= S { SNO } AND IS_EMPTY ( MOST NOT MATCHING S )",
        "SNO N | none ",
    ),
    (Question::References, "COUNT ( SP ) < 5", "| none "),
    (
        Question::References,
        "IS_EMPTY ( LS NOT MATCHING S )",
        "none | none ",
    ),
    (
        Question::References,
        "S { SNO } <= SP { SNO }",
        "none | none ",
    ),
    (
        Question::References,
        "IS_EMPTY ( SP MATCHING S )",
        "none | none ",
    ),
];

// The first constraint of which something else is told than stands there, with what is told; or nothing.
fn first_unlike(alloc: Global, catalogue: &Catalogue) -> Result<String> {
    for (question, constraint, wanted) in TABLE {
        let found = answer(alloc, catalogue, *question, constraint)?;
        if found.as_str() != *wanted {
            return Ok(format!(in alloc; "{constraint}: {found}")?);
        }
    }
    Ok(String::new(alloc))
}

#[test]
fn constraints_are_watched_and_safe_and_refer(rt: HostRuntime) -> Result<()> {
    let unlike = first_unlike(rt.alloc(), &catalogue_of(rt.alloc(), SCRIPT)?)?;
    assert!(rt; unlike.is_empty(), "{unlike}");
    Ok(())
}
