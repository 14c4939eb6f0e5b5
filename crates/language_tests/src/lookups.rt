//! Which calls of a look-up an evaluation makes.

ghost use Rattle.td_relvars.specs.Keys.{first_key};
ghost use Rattle.td_semantics.specs.Databases.{stored_relvars};

use crate::Result;
use std::alloc::Global;
use std::cell::Cell;
use std::test::Fail;
use td_algebra::{Fault, Stop};
use td_eval::{Lookup, eval};
use td_grammar::read_expr;
use td_headings::type_expr;
use td_relations::Relation;
use td_relvars::Database;
use td_tuples::tuple_of;
use td_values::{Name, Tuple};

/// The relvars of a database, which tells whether one was lent, copied, and searched by its first key.
#[derive(Drop)]
struct Watched<'a> {
    pub database: &'a Database,
    lent: Cell<bool>,
    copied: Cell<bool>,
    searched: Cell<bool>,
}

impl Lookup for Watched<'_> {
    ghost relvars = { λ w. stored_relvars w.database.now.stored };

    ghost first_keys = { λ w. first_key w.database.now.catalogue };

    fn lent(&self, relvar: usize) -> std::result::Result<&Relation, Stop> {
        self.lent.set(true);
        self.database.lent(relvar)
    }

    fn first_key(&self, relvar: usize) -> Option<&[Name]> {
        self.database.first_key(relvar)
    }

    fn value(&self, alloc: Global, relvar: usize) -> std::result::Result<Relation, Fault> {
        self.copied.set(true);
        self.database.value(alloc, relvar)
    }

    fn keyed(
        &self,
        alloc: Global,
        relvar: usize,
        values: &Tuple,
    ) -> std::result::Result<Option<Relation>, Fault> {
        self.searched.set(true);
        self.database.keyed(alloc, relvar, values)
    }
}

/// Whether a relvar is lent, copied, and searched by its first key.
type Calls = (bool, bool, bool);

// The calls that evaluating the query makes. What queries give is shown by examples/look-ups-by-first-keys.td.
fn calls_of(alloc: Global, database: &Database, text: &str) -> Result<Calls> {
    let read = read_expr(alloc, text)?;
    let expr = type_expr(alloc, database.catalogue(), read.get())?;
    let lookup = Watched {
        database,
        lent: Cell::new(false),
        copied: Cell::new(false),
        searched: Cell::new(false),
    };
    eval(alloc, &expr, &lookup, &tuple_of(alloc, Vec::new(alloc))?)?;
    Ok((
        lookup.lent.get(),
        lookup.copied.get(),
        lookup.searched.get(),
    ))
}

const LENT: Calls = (true, false, false);

const SEARCHED: Calls = (false, false, true);

// A query, and the calls that it takes.
const QUERIES: &[(&str, Calls)] = &[
    ("S WHERE SNO = 'S1'", SEARCHED),
    ("S WHERE SNO = 'S3'", SEARCHED),
    ("S WHERE SNO = 'S1' AND STATUS = 10", SEARCHED),
    ("S WHERE SNO = 'S1' AND SNO = 'S2'", SEARCHED),
    ("SP WHERE SNO = 'S1' AND PNO = 'P2'", SEARCHED),
    ("SP WHERE PNO = 'P2'", LENT),
    ("S WHERE STATUS = 10", LENT),
    ("LONDON WHERE SNO = 'S1'", LENT),
];

// The first query that takes other calls than stand there, or nothing.
fn first_unlike(alloc: Global, database: &Database) -> Result<String> {
    for (text, calls) in QUERIES {
        if calls_of(alloc, database, text)? != *calls {
            return Ok(String::from_str(alloc, text)?);
        }
    }
    Ok(String::new(alloc))
}

const SCRIPT: &str = "
    VAR S BASE INIT ( RELATION {
        TUPLE { SNO 'S1', STATUS 20, CITY 'London' },
        TUPLE { SNO 'S2', STATUS 10, CITY 'Paris' } } ) KEY { SNO };
    VAR SP BASE INIT ( RELATION {
        TUPLE { SNO 'S1', PNO 'P1', QTY 300 }, TUPLE { SNO 'S1', PNO 'P2', QTY 200 } } ) KEY { SNO, PNO };
    VAR LONDON VIRTUAL ( S WHERE CITY = 'London' );";

#[test]
fn first_keys_are_asked_by(rt: HostRuntime) -> Result<()> {
    let unlike = match Database::open_script(rt.alloc(), SCRIPT) {
        Ok(database) => first_unlike(rt.alloc(), &database)?,
        Err(_) => return Err(Fail::from("the script is not opened")),
    };
    assert!(rt; unlike.is_empty(), "{unlike}");
    Ok(())
}
