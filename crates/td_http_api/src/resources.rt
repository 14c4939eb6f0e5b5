//! The table of calls: where each one is, what it takes, and who may make it.

ghost use Rattle.std.specs.Prelude.{◌≡◌, ◌⊎◌, ◌++◌, ℕ, List, [], IfSome, IsTrue};
ghost use Rattle.http_header.specs.FieldValue.{is_visible_text};
ghost use Rattle.td_http_api.specs.Resources.{Allows, path_text, row_of};

use crate::members::Member;
use http_header::HeaderValue;
use std::fmt;
use std::fmt::{Display, Formatter, Write};
use td_client_tokens::Rights;

/// What is at a path: the page, whether the site takes statements, or a call.
#[derive(Clone, Copy)]
pub(crate) enum Resource {
    Page,
    Health,
    Site,
    Client,
    Relvars,
    Table,
    Refused,
    Attention,
    Log,
    Script,
    Schema,
    Digest,
    Metrics,
    Query,
    Statement,
    Trial,
    Acknowledge,
    AcknowledgeAlarms,
    Meet,
    Stop,
}

/// All of them, in the order in which a path is compared with theirs.
const RESOURCES: [Resource; 20] = [
    Resource::Page,
    Resource::Health,
    Resource::Site,
    Resource::Client,
    Resource::Relvars,
    Resource::Table,
    Resource::Refused,
    Resource::Attention,
    Resource::Log,
    Resource::Script,
    Resource::Schema,
    Resource::Digest,
    Resource::Metrics,
    Resource::Query,
    Resource::Statement,
    Resource::Trial,
    Resource::Acknowledge,
    Resource::AcknowledgeAlarms,
    Resource::Meet,
    Resource::Stop,
];

/// A path, or what surrounds the name in a path.
#[derive(Clone, Copy)]
pub(crate) enum Path {
    Whole(&'static str),
    Around(&'static str, &'static str),
}

/// The methods that a path takes. Where a call takes GET its arguments are in the query string, else in the body.
#[derive(Clone, Copy, Debug, PartialEq, Eq)]
pub(crate) enum Methods {
    Get,
    GetAndHead,
    Post,
}

/// Who may ask for a resource.
#[derive(Clone, Copy)]
pub(crate) enum Right {
    Everyone,
    /// Whoever bears a token that has these rights.
    Bearer(Rights),
}

/// The row of a resource in the table.
#[derive(Clone, Copy)]
pub(crate) struct Description {
    pub(crate) path: Path,
    pub(crate) methods: Methods,
    pub(crate) right: Right,
    pub(crate) members: &'static [Member],
}

impl Path {
    /// The name in a path of this form, which is empty where the form has none. None for any other path.
    fn name_in(self, path: &str) -> Option<&str>
        ensures { IfSome result (λ name. path.now ≡ path_text self name.now) }
    {
        match self {
            Path::Whole(text) if path == text => Some(""),
            Path::Whole(_) => None,
            Path::Around(prefix, suffix) => path.strip_prefix(prefix)?.strip_suffix(suffix),
        }
    }
}

impl Methods {
    /// Whether a request may have this method.
    pub(crate) fn allow(self, method: &str) -> bool
        ensures { IsTrue result → Allows self method.now }
    {
        match self {
            Methods::Get => method == "GET",
            Methods::GetAndHead => method == "GET" || method == "HEAD",
            Methods::Post => method == "POST",
        }
    }

    fn words(self) -> &'static str
        ensures { IsTrue (is_visible_text result.now) }
    {
        match self {
            Methods::Get => "GET",
            Methods::GetAndHead => "GET, HEAD",
            Methods::Post => "POST",
        }
    }

    /// The value of the header Allow.
    pub(crate) fn value(self) -> HeaderValue {
        HeaderValue::from_static(self.words())
    }
}

impl Display for Methods {
    fn fmt<W: Write>(&self, f: &mut Formatter<W>) -> fmt::Result {
        f.write_str(self.words())
    }
}

// A call by GET, for whoever may read.
fn read_at(path: &'static str, members: &'static [Member]) -> Description
    ensures methods { result.methods ≡ Methods.Get }
    ensures path { (name : List ℕ) → path_text result.path name ≡ path.now }
    ensures right { result.right ≡ Right.Bearer Rights.Read }
    ensures members { result.members.now ≡ members.now }
{
    Description {
        path: Path::Whole(path),
        methods: Methods::Get,
        right: Right::Bearer(Rights::Read),
        members,
    }
}

// A call by POST, for whoever has these rights.
fn post_to(path: &'static str, rights: Rights, members: &'static [Member]) -> Description
    ensures methods { result.methods ≡ Methods.Post }
    ensures path { (name : List ℕ) → path_text result.path name ≡ path.now }
    ensures right { result.right ≡ Right.Bearer rights }
    ensures members { result.members.now ≡ members.now }
{
    Description {
        path: Path::Whole(path),
        methods: Methods::Post,
        right: Right::Bearer(rights),
        members,
    }
}

// What everyone may look at.
fn shown_at(path: &'static str) -> Description
    ensures methods { result.methods ≡ Methods.GetAndHead }
    ensures path { (name : List ℕ) → path_text result.path name ≡ path.now }
    ensures right { result.right ≡ Right.Everyone }
    ensures members { result.members.now ≡ [] }
{
    Description {
        path: Path::Whole(path),
        methods: Methods::GetAndHead,
        right: Right::Everyone,
        members: &[],
    }
}

impl Resource {
    /// The table of calls.
    pub(crate) fn description(self) -> Description
        ensures methods { result.methods ≡ (row_of self).methods }
        ensures path { (name : List ℕ) → path_text result.path name ≡ (row_of self).path name }
        ensures right { result.right ≡ (row_of self).right }
        ensures everyone { result.right ≡ Right.Everyone
            → (self ≡ Resource.Page) ⊎ (self ≡ Resource.Health) }
        ensures members { result.members.now ≡ (row_of self).members }
    {
        match self {
            Resource::Page => shown_at("/"),
            Resource::Health => shown_at("/api/health"),
            Resource::Site => read_at("/api/site", &[]),
            Resource::Client => read_at("/api/client", &[]),
            Resource::Relvars => read_at("/api/relvars", &[Member::Counts]),
            Resource::Table => Description {
                path: Path::Around("/api/relvars/", ".csv"),
                methods: Methods::Get,
                right: Right::Bearer(Rights::Read),
                members: &[],
            },
            Resource::Refused => read_at("/api/refused", &[]),
            Resource::Attention => read_at("/api/attention", &[]),
            Resource::Log => read_at(
                "/api/log",
                &[
                    Member::After,
                    Member::Before,
                    Member::Relvar,
                    Member::Key,
                    Member::Author,
                    Member::Contains,
                    Member::Last,
                ],
            ),
            Resource::Script => read_at("/api/script", &[]),
            Resource::Schema => read_at("/api/schema", &[]),
            Resource::Digest => read_at("/api/digest", &[]),
            Resource::Metrics => read_at("/metrics", &[]),
            Resource::Query => post_to(
                "/api/query",
                Rights::Read,
                &[
                    Member::Text,
                    Member::At,
                    Member::Order,
                    Member::Contains,
                    Member::First,
                    Member::Count,
                ],
            ),
            Resource::Statement => {
                post_to(
                    "/api/statement",
                    Rights::Write,
                    &[Member::Text, Member::Key],
                )
            }
            Resource::Trial => post_to("/api/try", Rights::Read, &[Member::Text]),
            Resource::Acknowledge => {
                post_to("/api/acknowledge", Rights::Write, &[Member::Stamp])
            }
            Resource::AcknowledgeAlarms => {
                post_to("/api/alarms/acknowledge", Rights::Write, &[Member::Site])
            }
            Resource::Meet => post_to("/api/meet", Rights::All, &[Member::Address]),
            Resource::Stop => post_to("/api/stop", Rights::All, &[]),
        }
    }
}

/// What a request is for: a resource, and the name in its path, which is empty where the path has none.
#[derive(Clone, Copy)]
pub(crate) struct Target<'a> {
    pub(crate) resource: Resource,
    pub(crate) name: &'a str,
}

/// The target at a path. None where nothing is there.
pub(crate) fn target_at(path: &str) -> Option<Target<'_>>
    ensures { IfSome result (λ target. path.now ≡ (row_of target.resource).path target.name.now) }
{
    for resource in RESOURCES {
        if let Some(name) = resource.description().path.name_in(path) {
            return Some(Target { resource, name });
        }
    }
    None
}
