//! Where texts go wrong of which no program tells the place, worked out by hand from the grammar. Other places are shown
//! by examples/shell/places and examples/check.

use crate::Result;
use td_parse_errors::{Reading, place_of_fault};

// Texts with an `@` at the place, which is taken out; those without one are read. The shell asks nothing of a text
// without words, and td_check ends a definition in front of a word that begins another one.
const MARKED: &[(Reading, &str)] = &[
    (Reading::Statement, "@"),
    (Reading::Query, "@"),
    (
        Reading::Script,
        "VAR S BASE RELATION { SNO CHAR } KEY { SNO }\n@VAR P BASE RELATION { A CHAR } KEY { A };",
    ),
    (
        Reading::Script,
        "TYPE QTY POSSREP { Q INTEGER } @VAR S VIRTUAL ( P );",
    ),
    (
        Reading::Script,
        "CONSTRAINT C1 IS_EMPTY ( S ) @CONSTRAINT C2 IS_EMPTY ( P );",
    ),
    (Reading::Statement, "DELETE S WHERE A = 'it''s', T := U;"),
    (
        Reading::Statement,
        "IF A THEN DELETE S; ELSE T := IF B THEN U ELSE V END IF; END IF;",
    ),
    (Reading::Query, "S WHERE CITY = 'Zürich' /* Zürich */"),
];

// Whether the text without its mark goes wrong at the mark; one without a mark is to be read.
fn stops(rt: &HostRuntime, reading: Reading, marked: &str) -> Result<bool> {
    let Some((front, behind)) = marked.split_once('@') else {
        return Ok(place_of_fault(rt.alloc(), reading, marked)?.is_none());
    };
    let text = format!(in rt.alloc(); "{front}{behind}")?;
    let place = place_of_fault(rt.alloc(), reading, &text)?;
    Ok(place == Some(front.len()))
}

#[test]
fn texts_stop_at_their_marks(rt: HostRuntime) -> Result<()> {
    for (reading, marked) in MARKED {
        assert!(rt; stops(&rt, *reading, marked)?, "{marked}");
    }
    Ok(())
}

// A query has 8,192 bytes at most, and none of these is the middle of a character.
#[test]
fn queries_that_are_too_long(rt: HostRuntime) -> Result<()> {
    for end in [" A@B", "'@ü'"] {
        let text = format!(in rt.alloc(); "{end:>width$}", width = 8_194)?;
        assert!(rt; stops(&rt, Reading::Query, &text)?, "{end}");
    }
    Ok(())
}
