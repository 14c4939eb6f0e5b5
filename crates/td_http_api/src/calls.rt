//! The calls that a request can make.

use td_client_tokens::Rights;

/// An attribute by which tuples are ordered.
#[derive(Drop)]
pub struct OrderBy {
    pub attribute: String,
    /// The greatest value comes first.
    pub is_descending: bool,
}

/// Which tuples of a relation are answered, and in which order.
#[derive(Drop)]
pub struct Selection<'a> {
    /// Tuples that have one value of the first attribute are ordered by the next one. Tuples that have one value of all
    /// of them are in the order of the language.
    pub order: Vec<OrderBy>,
    /// Only the tuples of which a text contains this one, whatever the case of the letters.
    pub contains: Option<&'a str>,
    /// How many of these tuples are left out first.
    pub first: u64,
    /// How many are answered after that; all if there is no number.
    pub count: Option<u64>,
}

/// Which statements are answered: those that fit each member.
#[derive(Clone, Copy)]
pub struct LogFilter<'a> {
    /// Those after this stamp.
    pub after: Option<&'a str>,
    /// Those before this stamp.
    pub before: Option<&'a str>,
    /// Those that changed this relvar.
    pub relvar: Option<&'a str>,
    /// Those that changed a tuple that has these values, an object of JSON, in that relvar.
    pub key: Option<&'a str>,
    /// Those that begin with this comment.
    pub author: Option<&'a str>,
    /// Those whose text contains this one, whatever the case of the letters.
    pub contains: Option<&'a str>,
    /// Only the last ones of them.
    pub last: Option<u64>,
}

/// A call, with its arguments.
#[derive(Drop)]
pub enum ApiCall<'a> {
    /// What the site is, what it holds, and whom it met.
    Site,
    /// Who asks: the name and the rights of the token.
    Client {
        name: Option<&'a str>,
        rights: Rights,
    },
    /// Each relvar with its heading, and with `counts` how many tuples it has.
    Relvars {
        counts: bool,
    },
    /// A relvar as comma-separated values.
    Table {
        relvar: &'a str,
    },
    /// The statements that are refused, each with its reason.
    Refused,
    /// What a person is to look at: statements of the site that came to something else, alarms, and its state.
    Attention,
    /// Statements, each with what became of it.
    Log(LogFilter<'a>),
    /// The script.
    Script,
    /// What the script defines: types, relvars, constraints, and words for names.
    Schema,
    /// Of each site that has issued, up to which number its statements are held, and their digest.
    Digest,
    /// What a program that watches the site counts.
    Metrics,
    /// The value of an expression: of a relation these tuples. With a stamp, as it was just after that statement.
    Query {
        text: &'a str,
        at: Option<&'a str>,
        selection: Selection<'a>,
    },
    /// A statement is added, with the name of the token by which it is sent. A key that an earlier statement had gives
    /// that statement's answer again.
    Statement {
        text: &'a str,
        key: Option<&'a str>,
        author: Option<&'a str>,
    },
    /// What a statement would come to. Nothing is added.
    Trial {
        text: &'a str,
    },
    /// The statement of this stamp was done here and is refused, and a person has seen that.
    Acknowledge {
        stamp: &'a str,
    },
    /// The statements of this site differ at another one, and a person has seen that.
    AcknowledgeAlarms {
        site: u64,
    },
    /// The site calls the peer of this address soon.
    Meet {
        address: &'a str,
    },
    /// The program ends soon.
    Stop,
}
