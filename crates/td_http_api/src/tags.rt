//! Tags, by which a client finds that what a site shows is as it was.

ghost use Rattle.std.specs.Prelude.{◌≡◌, IfOk, IsTrue, OnOk, Some, string_bytes};
ghost use Rattle.td_http_api.specs.Guards.{only_value, values_of};
ghost use Rattle.td_http_api.specs.Tags.{IsUnanswered, tag_text, NamesTag};

use crate::desk::Revision;
use crate::guard::only;
use crate::responses::{put, put_common};
use bytes::Bytes;
use http::{Request, StatusCode};
use http_header::{ETAG, HeaderValue, IF_NONE_MATCH};
use http_server::Response;
use std::alloc::{AllocError, Global};

/// The tag of a revision, in quotation marks.
pub(crate) fn tag_text(alloc: Global, revision: Revision) -> Result<String, AllocError>
    ensures { IfOk result (λ tag. string_bytes tag ≡ tag_text revision) }
{
    let Revision {
        start,
        statements,
        marks,
    } = revision;
    format!(in alloc; "\"{start}-{statements}-{marks}\"")
}

/// Whether a request names this tag as that of what its sender has.
pub(crate) fn names_tag(request: &Request<Bytes>, tag: &str) -> bool
    ensures { IsTrue result → NamesTag request.now tag.now }
{
    match only(request.headers(), IF_NONE_MATCH) {
        Some(named) => named == tag.as_bytes(),
        None => false,
    }
}

/// Adds the tag to a response.
pub(crate) fn put_tag(alloc: Global, response: &mut Response, tag: &str) -> Result<(), AllocError>
    ensures status { response.new.status ≡ response.old.status }
    ensures body { response.new.body ≡ response.old.body }
{
    match HeaderValue::from_str(alloc, tag) {
        Ok(value) => put(response, ETAG, value),
        Err(_) => Err(AllocError),
    }
}

/// Answers that what the sender of a request has is as it was.
pub(crate) fn put_unchanged(response: &mut Response) -> Result<(), AllocError>
    ensures status { OnOk result (response.new.status ≡ 304) }
    ensures body { response.new.body ≡ response.old.body }
{
    put_common(response)?;
    response.status = StatusCode::NOT_MODIFIED;
    Ok(())
}
