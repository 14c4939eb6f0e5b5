//! The site that answers calls.

ghost use Rattle.std.specs.Prelude.{◌≡◌, ℕ, List, Option, option_copied};
ghost use Rattle.std.specs.Fmt.{signed_decimal};
ghost use Rattle.json.specs.Token.{number, string};
ghost use Rattle.json.specs.Written.{Writes};
ghost use Rattle.td_http_api.specs.Answers.{Answer, IsBegun, given_answer};
ghost use Rattle.td_http_api.specs.Integers.{IsExact};
ghost use Rattle.td_http_api.specs.declared.calls.ApiCall.{ApiCall};
ghost use Rattle.td_http_api.specs.declared.desk.Revision.{Revision as RevisionData};

use crate::calls::ApiCall;
use http::StatusCode;
use json::Writer;
use std::alloc::AllocError;

/// What a desk answers to a call.
#[derive(Drop)]
pub enum DeskAnswer {
    /// The members that it wrote, with this status.
    Members(StatusCode),
    /// A table in CSV, in place of them.
    Table(String),
    /// Metrics in the text format of Prometheus, in place of them.
    Metrics(String),
}

/// What a site shows is the same as long as this is.
#[derive(Clone, Copy)]
pub struct Revision {
    /// A number that the program chose at its start.
    pub start: u64,
    /// How many statements the site holds.
    pub statements: u64,
    /// How often anything else changed that the site shows.
    pub marks: u64,
}

/// A site that answers calls.
pub trait Desk {
    // What the site shows now.
    ghost revision: { Self → RevisionData };

    // From the first state a call is answered so, and leaves the second. There is no answer where memory ran out.
    ghost answers: { Self → ApiCall → Option Answer → Self → Type 0 };

    // Why the site takes no statements; none where it takes them.
    ghost failing: { Self → Option (List ℕ) };

    /// Makes a call. Where the answer is an object, its members are appended. The error is that no memory was left for
    /// an answer: the call itself may have been made.
    fn make(&mut self, call: &ApiCall<'_>, out: &mut Writer) -> Result<DeskAnswer, AllocError>
        requires { IsBegun out.old }
        ensures { answers self.old call.now (given_answer result out.new) self.new };

    /// What the site shows now. Times that pass are no change.
    fn revision(&self) -> Revision
        ensures { result ≡ revision self.now };

    /// Why the site takes no statements; none where it takes them. Everyone may read it, so it has no data of the site.
    fn failure(&self) -> Option<&str>
        ensures { option_copied result ≡ failing self.now };
}

/// The greatest integer up to which a program that reads numbers as doubles tells all apart.
const MOST_EXACT: i64 = 1 << 53;

/// Appends an integer: as a number up to 2^53, and as a text beyond.
pub fn write_integer(out: &mut Writer, n: i64) -> Result<(), AllocError>
    ensures exact { IsExact n → Writes result out.old out.new (number (signed_decimal n)) }
    ensures other { ¬ (IsExact n) → Writes result out.old out.new (string (signed_decimal n)) }
{
    if -MOST_EXACT <= n && n <= MOST_EXACT {
        out.i64(n)
    } else {
        out.quoted_i64(n)
    }
}
