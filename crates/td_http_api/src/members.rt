//! The members of bodies and of query strings.

ghost use Rattle.std.specs.Prelude.{◌≡◌};
ghost use Rattle.td_http_api.specs.Members.{is_member_name, member_name};

use crate::fault::Fault;
use json::Value;

/// A member that calls take as an argument. It is the same in each call that takes it.
#[derive(Clone, Copy)]
pub(crate) enum Member {
    Counts,
    After,
    Before,
    Relvar,
    Author,
    Last,
    Text,
    At,
    Order,
    Contains,
    First,
    Count,
    Key,
    Stamp,
    Site,
    Address,
}

/// What kind of value a member has.
#[derive(Clone, Copy)]
pub(crate) enum Kind {
    /// A text of JSON; in a query string what follows `NAME=`.
    Text,
    /// A whole number from 0 to 2^64 - 1.
    Count,
    /// A truth value of JSON; in a query string `NAME`, which is true where it is there.
    Flag,
    /// A list of pairs of JSON: an attribute, and `up` or `down`.
    Order,
}

/// The row of a member in the table of members.
#[derive(Clone, Copy)]
pub(crate) struct Form {
    name: &'static str,
    kind: Kind,
    is_required: bool,
}

// The row of a member that a call requires.
fn required(name: &'static str, kind: Kind) -> Form
    ensures { result.name.now ≡ name.now }
{
    Form {
        name,
        kind,
        is_required: true,
    }
}

// The row of a member that may be left out.
fn optional(name: &'static str, kind: Kind) -> Form
    ensures { result.name.now ≡ name.now }
{
    Form {
        name,
        kind,
        is_required: false,
    }
}

impl Member {
    // The table of members.
    fn form(self) -> Form
        ensures { result.name.now ≡ member_name self }
    {
        match self {
            Member::Counts => optional("counts", Kind::Flag),
            Member::After => optional("after", Kind::Text),
            Member::Before => optional("before", Kind::Text),
            Member::Relvar => optional("relvar", Kind::Text),
            Member::Author => optional("author", Kind::Text),
            Member::Last => optional("last", Kind::Count),
            Member::Text => required("text", Kind::Text),
            Member::At => optional("at", Kind::Text),
            Member::Order => optional("order", Kind::Order),
            Member::Contains => optional("contains", Kind::Text),
            Member::First => optional("first", Kind::Count),
            Member::Count => optional("count", Kind::Count),
            Member::Key => optional("key", Kind::Text),
            Member::Stamp => required("stamp", Kind::Text),
            Member::Site => required("site", Kind::Count),
            Member::Address => required("address", Kind::Text),
        }
    }

    pub(crate) fn name(self) -> &'static str
        ensures { result.now ≡ member_name self }
    {
        self.form().name
    }

    /// Refuses a value of another kind, and a required member that is missing.
    pub(crate) fn check(self, value: Option<&Value<'_>>) -> Result<(), Fault<'static>> {
        let Form {
            name,
            kind,
            is_required,
        } = self.form();
        let Some(value) = value else {
            return if is_required {
                Err(Fault::Lacks(name))
            } else {
                Ok(())
            };
        };
        match kind {
            Kind::Text if value.as_str().is_none() => Err(Fault::NoText(name)),
            Kind::Count if value.as_u64().is_none() => Err(Fault::NoCount(name)),
            Kind::Flag if value.as_bool().is_none() => Err(Fault::NoFlag(name)),
            Kind::Order if value.as_str().is_some() => Err(Fault::NoOrder(name)),
            _ => Ok(()),
        }
    }
}

/// Whether one of the members has this name.
pub(crate) fn is_known(members: &[Member], name: &str) -> bool
    ensures { result ≡ is_member_name members.now name.now }
{
    members.iter().any(|member| member.name() == name)
}
