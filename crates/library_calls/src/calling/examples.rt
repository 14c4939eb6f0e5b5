//! The examples: two sites of one script, before they meet.

/// Site, sequence number, clock and text of an entry.
pub type Written<'a> = (u16, u32, u64, &'a str);

/// Two sites, which meet behind the statement.
pub struct Example {
    pub name: &'static str,
    /// The number of the first site, and what it holds.
    pub first: u16,
    pub first_held: &'static [Written<'static>],
    pub second: u16,
    pub second_held: &'static [Written<'static>],
    /// What the second site issues.
    pub statement: &'static str,
}

pub const SCRIPT: &str = "
VAR S BASE RELATION { SNO CHAR, STATUS INTEGER, CITY CHAR } KEY { SNO };
VAR SP BASE RELATION { SNO CHAR, PNO CHAR, QTY INTEGER } KEY { SNO, PNO };
VAR LS VIRTUAL ( S WHERE CITY = 'London' );
CONSTRAINT C1 IS_EMPTY ( SP NOT MATCHING S );
CONSTRAINT C2 IS_EMPTY ( LS WHERE STATUS < 10 );
VAR MOST BASE RELATION { N INTEGER } KEY { };
CONSTRAINT C3 IS_EMPTY ( MOST WHERE N < COUNT ( LS ) );
";

/// What is asked behind the meeting.
pub const QUERY: &str = "( EXTEND S ADD ( STATUS + 1 AS NEXT ) ) JOIN SP";

/// The relvar that is told behind the meeting.
pub const RELVAR: &str = "LS";

const LONDON: &str = "INSERT S RELATION { TUPLE { SNO 'S1', STATUS 20, CITY 'London' } };";

const PARIS: &str = "INSERT S RELATION { TUPLE { SNO 'S1', STATUS 20, CITY 'Paris' } };";

const SHIPMENT: &str = "INSERT SP RELATION { TUPLE { SNO 'S1', PNO 'P1', QTY 200 } };";

const BOUND: &str = "MOST := RELATION { TUPLE { N 5 } };";

/// Eight suppliers, and five shipments of each.
const MANY: &str = "INSERT S RELATION { \
TUPLE { SNO 'S1' }, TUPLE { SNO 'S2' }, TUPLE { SNO 'S3' }, TUPLE { SNO 'S4' }, \
TUPLE { SNO 'S5' }, TUPLE { SNO 'S6' }, TUPLE { SNO 'S7' }, TUPLE { SNO 'S8' } } \
JOIN RELATION { TUPLE { STATUS 20, CITY 'Paris' } }, \
INSERT SP RELATION { \
TUPLE { SNO 'S1' }, TUPLE { SNO 'S2' }, TUPLE { SNO 'S3' }, TUPLE { SNO 'S4' }, \
TUPLE { SNO 'S5' }, TUPLE { SNO 'S6' }, TUPLE { SNO 'S7' }, TUPLE { SNO 'S8' } } \
JOIN RELATION { TUPLE { PNO 'P1' }, TUPLE { PNO 'P2' }, TUPLE { PNO 'P3' }, TUPLE { PNO 'P4' }, TUPLE { PNO 'P5' } } \
JOIN RELATION { TUPLE { QTY 100 } };";

const SUPPLIED: &[Written] = &[(2, 1, 1, LONDON), (2, 2, 2, SHIPMENT)];

const EXAMPLES: &[Example] = &[
    Example {
        name: "refused here, done after the meeting",
        first: 1,
        first_held: &[(1, 1, 1, LONDON)],
        second: 2,
        second_held: &[],
        statement: SHIPMENT,
    },
    Example {
        name: "delete meets a late reference",
        first: 1,
        first_held: &[(1, 1, 1, LONDON), (1, 2, 2, "DELETE S WHERE SNO = 'S1';")],
        second: 2,
        second_held: &[(1, 1, 1, LONDON)],
        statement: SHIPMENT,
    },
    Example {
        name: "virtual relvar inside a constraint",
        first: 1,
        first_held: &[
            (1, 1, 1, PARIS),
            (1, 2, 2, "UPDATE S WHERE SNO = 'S1' ( CITY := 'London' );"),
        ],
        second: 2,
        second_held: &[(1, 1, 1, PARIS)],
        statement: "MOST := RELATION { TUPLE { N 0 } };",
    },
    Example {
        name: "replay counts: a late statement of MOST",
        first: 1,
        first_held: &[(2, 1, 1, LONDON), (1, 1, 2, "DELETE MOST;")],
        second: 2,
        second_held: SUPPLIED,
        statement: BOUND,
    },
    Example {
        name: "replay counts: a late statement of SP",
        first: 1,
        first_held: &[
            (2, 1, 1, LONDON),
            (
                1,
                1,
                2,
                "INSERT SP RELATION { TUPLE { SNO 'S1', PNO 'P2', QTY 100 } };",
            ),
        ],
        second: 2,
        second_held: SUPPLIED,
        statement: BOUND,
    },
    Example {
        name: "replay counts: a late statement of S",
        first: 1,
        first_held: &[(2, 1, 1, LONDON), (1, 1, 2, "UPDATE S ( STATUS := 30 );")],
        second: 2,
        second_held: SUPPLIED,
        statement: BOUND,
    },
    Example {
        name: "replay counts: a late statement that is unread",
        first: 1,
        first_held: &[(2, 1, 1, LONDON), (1, 1, 2, "INSERT Q X;")],
        second: 2,
        second_held: SUPPLIED,
        statement: BOUND,
    },
    Example {
        name: "many tuples: a key is broken",
        first: 1,
        first_held: &[(1, 1, 1, MANY), (1, 2, 2, "DELETE SP WHERE SNO = 'S8';")],
        second: 2,
        second_held: &[
            (1, 1, 1, MANY),
            (2, 1, 2, "UPDATE SP WHERE PNO = 'P1' ( QTY := 7 );"),
        ],
        statement: "UPDATE SP WHERE PNO = 'P1' ( PNO := 'P2' );",
    },
    Example {
        name: "many tuples: refused here, done after the meeting",
        first: 1,
        first_held: &[
            (1, 1, 1, MANY),
            (
                1,
                2,
                2,
                "INSERT S RELATION { TUPLE { SNO 'S9', STATUS 20, CITY 'Paris' } };",
            ),
        ],
        second: 2,
        second_held: &[(1, 1, 1, MANY), (2, 1, 2, "DELETE SP WHERE PNO = 'P5';")],
        statement: "INSERT SP RELATION { TUPLE { SNO 'S9', PNO 'P1', QTY 100 } };",
    },
];

/// The example of this name, if there is one.
pub fn example_named(name: &str) -> Option<&'static Example> {
    EXAMPLES.iter().find(|example| example.name == name)
}
