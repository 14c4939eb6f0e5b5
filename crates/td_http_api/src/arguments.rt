//! The arguments of a call, in a query string or in a body.

ghost use Rattle.std.specs.Prelude.{◌≡◌, Some, IfOk, IsOk, map, option_copied};
ghost use Rattle.json.specs.Value.{value_view};
ghost use Rattle.td_http_api.specs.Fields.{field_texts};
ghost use Rattle.td_http_api.specs.Guards.{token_name};
ghost use Rattle.td_http_api.specs.Resources.{row_of};
ghost use Rattle.td_http_api.specs.Requests.{AreKnown, GivesInBody, GivesInQuery, HasCount, HasFilter, HasFlag, HasNumber, HasSelection, member_text};

use crate::calls::{ApiCall, LogFilter, Selection};
use crate::fault::Fault;
use crate::fields::{check_fields, field_value};
use crate::members::{Member, is_known};
use crate::orders::order_of;
use crate::resources::{Resource, Target};
use json::Value;
use std::alloc::Global;
use td_client_tokens::ClientToken;

// Refuses a body that is no object or has a member that is none of these.
fn check_body<'a>(body: &Value<'a>, members: &[Member]) -> Result<(), Fault<'a>> {
    let Value::Object(given) = body else {
        return Err(Fault::NoObject);
    };
    for (name, _) in given {
        if !is_known(members, name) {
            return Err(Fault::Unknown(*name));
        }
    }
    Ok(())
}

// Whether a query string has this flag.
fn flag_of(fields: &[(String, String)], member: Member) -> Result<bool, Fault<'static>>
    ensures { IfOk result (HasFlag member (map field_texts fields.now)) }
{
    match field_value(fields, member) {
        None => Ok(false),
        Some("") => Ok(true),
        Some(_) => Err(Fault::NoValue(member.name())),
    }
}

// The number of a field, where there is one.
fn number_of(fields: &[(String, String)], member: Member) -> Result<Option<u64>, Fault<'static>>
    ensures { IfOk result (HasNumber member (map field_texts fields.now)) }
{
    match field_value(fields, member) {
        None => Ok(None),
        Some(digits) => match digits.parse::<u64>() {
            Ok(n) => Ok(Some(n)),
            Err(_) => Err(Fault::NoNumber(member.name())),
        },
    }
}

// Which statements a query string asks for.
fn filter_of(fields: &[(String, String)]) -> Result<LogFilter<'_>, Fault<'static>>
    ensures { IfOk result (HasFilter (map field_texts fields.now)) }
{
    Ok(LogFilter {
        after: field_value(fields, Member::After),
        before: field_value(fields, Member::Before),
        relvar: field_value(fields, Member::Relvar),
        key: field_value(fields, Member::Key),
        author: field_value(fields, Member::Author),
        contains: field_value(fields, Member::Contains),
        last: number_of(fields, Member::Last)?,
    })
}

// The text of a member, where there is one.
fn optional_text<'a>(body: &Value<'a>, member: Member) -> Result<Option<&'a str>, Fault<'static>>
    ensures { IfOk result (λ text. option_copied text ≡ member_text member (value_view body.now)) }
{
    let value = body.get(member.name());
    member.check(value)?;
    match value {
        None => Ok(None),
        Some(value) => Ok(value.as_str()),
    }
}

// The text of a member.
fn required_text<'a>(body: &Value<'a>, member: Member) -> Result<&'a str, Fault<'static>>
    ensures { IfOk result (λ text. member_text member (value_view body.now) ≡ Some text.now) }
{
    match optional_text(body, member)? {
        Some(text) => Ok(text),
        None => Err(Fault::Lacks(member.name())),
    }
}

// The number of a member, where there is one.
fn optional_count(body: &Value<'_>, member: Member) -> Result<Option<u64>, Fault<'static>>
    ensures { IfOk result (λ count. HasCount member (value_view body.now) count) }
{
    let value = body.get(member.name());
    member.check(value)?;
    match value {
        None => Ok(None),
        Some(value) => match value.as_u64() {
            Some(n) => Ok(Some(n)),
            None => Err(Fault::NoCount(member.name())),
        },
    }
}

// The number of a member.
fn required_count(body: &Value<'_>, member: Member) -> Result<u64, Fault<'static>>
    ensures { IfOk result (λ count. HasCount member (value_view body.now) (Some count)) }
{
    match optional_count(body, member)? {
        Some(count) => Ok(count),
        None => Err(Fault::Lacks(member.name())),
    }
}

// The name of a token, if it has one.
fn name_of(token: &ClientToken) -> Option<&str>
    ensures { option_copied result ≡ token_name token.now }
{
    match &token.name {
        Some(name) => Some(name.as_str()),
        None => None,
    }
}

/// The call that a GET by this token makes by its path and the fields of its query string.
pub(crate) fn call_of_query<'a>(
    token: &'a ClientToken,
    target: Target<'a>,
    fields: &'a [(String, String)],
) -> Result<ApiCall<'a>, Fault<'a>>
    ensures known { IsOk result → AreKnown (row_of target.entry.resource).members
        (map field_texts fields.now) }
    ensures gives { IfOk result (GivesInQuery token.now target.entry.resource target.entry.name.now
        (map field_texts fields.now)) }
{
    check_fields(fields, target.resource.description().members)?;
    match target.resource {
        Resource::Site => Ok(ApiCall::Site),
        Resource::Client => Ok(ApiCall::Client {
            name: name_of(token),
            rights: token.rights,
        }),
        Resource::Relvars => Ok(ApiCall::Relvars {
            counts: flag_of(fields, Member::Counts)?,
        }),
        Resource::Table => Ok(ApiCall::Table {
            relvar: target.name,
        }),
        Resource::Refused => Ok(ApiCall::Refused),
        Resource::Attention => Ok(ApiCall::Attention),
        Resource::Log => Ok(ApiCall::Log(filter_of(fields)?)),
        Resource::Script => Ok(ApiCall::Script),
        Resource::Schema => Ok(ApiCall::Schema),
        Resource::Digest => Ok(ApiCall::Digest),
        Resource::Metrics => Ok(ApiCall::Metrics),
        _ => Err(Fault::Path),
    }
}

// Which tuples a body asks for.
fn selection_of<'a>(alloc: Global, body: &Value<'a>) -> Result<Selection<'a>, Fault<'static>>
    ensures { IfOk result (HasSelection (value_view body.now)) }
{
    let contains = optional_text(body, Member::Contains)?;
    let first = optional_count(body, Member::First)?.unwrap_or(0);
    let count = optional_count(body, Member::Count)?;
    Ok(Selection {
        order: order_of(alloc, body)?,
        contains,
        first,
        count,
    })
}

/// The call that a POST by this token makes by its body.
pub(crate) fn call_of_body<'a>(
    alloc: Global,
    token: &'a ClientToken,
    resource: Resource,
    body: &Value<'a>,
) -> Result<ApiCall<'a>, Fault<'a>>
    ensures { IfOk result (GivesInBody token.now resource (value_view body.now)) }
{
    check_body(body, resource.description().members)?;
    match resource {
        Resource::Query => Ok(ApiCall::Query {
            text: required_text(body, Member::Text)?,
            at: optional_text(body, Member::At)?,
            selection: selection_of(alloc, body)?,
        }),
        Resource::Statement => Ok(ApiCall::Statement {
            text: required_text(body, Member::Text)?,
            key: optional_text(body, Member::Key)?,
            author: name_of(token),
        }),
        Resource::Trial => Ok(ApiCall::Trial {
            text: required_text(body, Member::Text)?,
        }),
        Resource::Acknowledge => Ok(ApiCall::Acknowledge {
            stamp: required_text(body, Member::Stamp)?,
        }),
        Resource::AcknowledgeAlarms => Ok(ApiCall::AcknowledgeAlarms {
            site: required_count(body, Member::Site)?,
        }),
        Resource::Meet => Ok(ApiCall::Meet {
            address: required_text(body, Member::Address)?,
        }),
        Resource::Stop => Ok(ApiCall::Stop),
        _ => Err(Fault::Path),
    }
}
