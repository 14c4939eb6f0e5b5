//! What is sent.

ghost use Rattle.std.specs.Prelude.{◌≡◌, ◌++◌, ◌≤◌, IsTrue, OnOk, option_copied, string_bytes};
ghost use Rattle.http_header.specs.FieldValue.{is_visible_text};
ghost use Rattle.json.specs.Print.{print};
ghost use Rattle.td_http_api.specs.Answers.{IsAnswer, fault_text, health_answer};
ghost use Rattle.td_http_api.specs.Tags.{IsUnanswered};

use crate::fault::Fault;
use crate::page::{PAGE, POLICY};
use bytes::Bytes;
use http::StatusCode;
use http_header::{
    ALLOW, CACHE_CONTROL, CONTENT_SECURITY_POLICY, CONTENT_TYPE, HeaderName, HeaderValue,
    REFERRER_POLICY, WWW_AUTHENTICATE, X_CONTENT_TYPE_OPTIONS,
};
use http_server::Response;
use json::Writer;
use std::alloc::{AllocError, Global};

/// Adds a header to the response.
pub(crate) fn put(
    response: &mut Response,
    name: HeaderName,
    value: HeaderValue,
) -> Result<(), AllocError>
    ensures status { response.new.status ≡ response.old.status }
    ensures body { response.new.body ≡ response.old.body }
{
    response.add_header(name, value)
}

/// Adds the headers that every response has: no guessing of the content's type, and no caching.
pub(crate) fn put_common(response: &mut Response) -> Result<(), AllocError>
    ensures status { response.new.status ≡ response.old.status }
    ensures body { response.new.body ≡ response.old.body }
{
    put(
        response,
        X_CONTENT_TYPE_OPTIONS,
        HeaderValue::from_static("nosniff"),
    )?;
    put(
        response,
        CACHE_CONTROL,
        HeaderValue::from_static("no-store"),
    )
}

/// Puts the page, with its policies, into a response.
pub(crate) fn put_page(response: &mut Response) -> Result<(), AllocError> {
    put(
        response,
        CONTENT_TYPE,
        HeaderValue::from_static("text/html; charset=utf-8"),
    )?;
    put(
        response,
        CONTENT_SECURITY_POLICY,
        HeaderValue::from_static(POLICY),
    )?;
    put(
        response,
        REFERRER_POLICY,
        HeaderValue::from_static("no-referrer"),
    )?;
    put_common(response)?;
    response.body.push(Bytes::from_static(PAGE.as_bytes()))
}

/// Puts JSON text and its status into a response.
pub(crate) fn put_json(
    response: &mut Response,
    status: StatusCode,
    out: Writer,
) -> Result<(), AllocError>
    requires { IsUnanswered response.old }
    ensures { OnOk result (IsAnswer (record { status = status; text = out.before ++ print out.tokens })
        response.new) }
{
    put(
        response,
        CONTENT_TYPE,
        HeaderValue::from_static("application/json"),
    )?;
    put_common(response)?;
    response.body.push(Bytes::from_vec(out.into_inner())?)?;
    response.status = status;
    Ok(())
}

/// The type of a table in CSV.
pub(crate) const CSV: &str = "text/csv; charset=utf-8";

/// The type of the text format of Prometheus.
pub(crate) const METRICS: &str = "text/plain; version=0.0.4; charset=utf-8";

/// Puts a text of this type into a response, whose status remains.
pub(crate) fn put_text(
    response: &mut Response,
    kind: &'static str,
    text: String,
) -> Result<(), AllocError>
    requires kind { IsTrue (is_visible_text kind.now) }
    requires unanswered { IsUnanswered response.old }
    ensures { OnOk result (IsAnswer (record { status = 200; text = string_bytes text })
        response.new) }
{
    put(response, CONTENT_TYPE, HeaderValue::from_static(kind))?;
    put_common(response)?;
    response.body.push(Bytes::from_string(text)?)
}

/// Puts words into a response, as the member `fault` of an object, with this status.
pub(crate) fn put_words(
    alloc: Global,
    response: &mut Response,
    status: StatusCode,
    words: &str,
) -> Result<(), AllocError>
    requires { IsUnanswered response.old }
    ensures { OnOk result (IsAnswer (record { status = status; text = fault_text words.now })
        response.new) }
{
    let mut out = Writer::new(Vec::new(alloc));
    out.begin_object()?;
    out.key("fault")?;
    out.string(words)?;
    out.end_object()?;
    put_json(response, status, out)
}

/// Puts whether a site takes statements into a response, and why not.
pub(crate) fn put_health(
    alloc: Global,
    response: &mut Response,
    failure: Option<&str>,
) -> Result<(), AllocError>
    requires { IsUnanswered response.old }
    ensures { OnOk result (IsAnswer (health_answer (option_copied failure.entry)) response.new) }
{
    let mut out = Writer::new(Vec::new(alloc));
    out.begin_object()?;
    out.key("open")?;
    out.boolean(failure.is_none())?;
    let status = match failure {
        None => StatusCode::OK,
        Some(why) => {
            out.key("fault")?;
            out.string(why)?;
            StatusCode::SERVICE_UNAVAILABLE
        }
    };
    out.end_object()?;
    put_json(response, status, out)
}

// A 401 has to name its scheme, and a 405 the methods.
pub(crate) fn put_fault(
    alloc: Global,
    response: &mut Response,
    fault: &Fault<'_>,
) -> Result<(), AllocError>
    requires { IsUnanswered response.old }
    ensures { OnOk result (400 ≤ response.new.status) }
{
    let words = format!(in alloc; "{fault}")?;
    put_words(alloc, response, fault.status(), words.as_str())?;
    match fault {
        Fault::Token => put(
            response,
            WWW_AUTHENTICATE,
            HeaderValue::from_static("Bearer"),
        ),
        Fault::Method(methods) => put(response, ALLOW, methods.value()),
        _ => Ok(()),
    }
}
