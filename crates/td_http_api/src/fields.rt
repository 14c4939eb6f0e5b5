//! The fields of a query string.

ghost use Rattle.std.specs.Prelude.{◌≡◌, IfOk, OnOk, map, option_copied};
ghost use Rattle.td_http_api.specs.Fields.{field_texts, field_value, query_fields};
ghost use Rattle.td_http_api.specs.Members.{member_name};
ghost use Rattle.td_http_api.specs.Requests.{AreKnown};

use crate::fault::Fault;
use crate::members::{Member, is_known};
use form_urlencoded::parse;
use std::alloc::{AllocError, Global};

/// The names and values of a query string. What is no UTF-8 becomes U+FFFD.
pub(crate) fn fields_of(alloc: Global, query: &str) -> Result<Vec<(String, String)>, AllocError>
    ensures { IfOk result (λ fields. map field_texts fields.items ≡ query_fields query.now) }
{
    let mut fields = Vec::new(alloc);
    for field in parse(alloc, query.as_bytes()).into_owned() {
        fields.push(field?)?;
    }
    Ok(fields)
}

/// The value of the first field of a member's name.
pub(crate) fn field_value(fields: &[(String, String)], member: Member) -> Option<&str>
    ensures { option_copied result
        ≡ field_value (member_name member) (map field_texts fields.now) }
{
    for (name, value) in fields {
        if name.as_str() == member.name() {
            return Some(value.as_str());
        }
    }
    None
}

// Whether a field has this name.
fn has_name(fields: &[(String, String)], name: &str) -> bool {
    fields.iter().any(|field| field.0.as_str() == name)
}

/// Refuses a field whose name is that of none of these members, or of an earlier field.
pub(crate) fn check_fields<'a>(
    fields: &'a [(String, String)],
    members: &[Member],
) -> Result<(), Fault<'a>>
    ensures { OnOk result (AreKnown members.now (map field_texts fields.now)) }
{
    for i in 0..fields.len() {
        let name = fields[i].0.as_str();
        if !is_known(members, name) {
            return Err(Fault::Query(name));
        }
        if has_name(&fields[..i], name) {
            return Err(Fault::Repeated(name));
        }
    }
    Ok(())
}
