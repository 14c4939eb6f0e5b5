//! The service over a desk.

ghost use Rattle.std.specs.Prelude.{◌≡◌, ◌⊎◌, ◌≤◌, IfOk, OnErr, OnOk, option_copied};
ghost use Rattle.http.specs.Request.{head_of};
ghost use Rattle.json.specs.Value.{value_view};
ghost use Rattle.td_http_api.specs.Answers.{IsAnswer, IsBegun, object_text};
ghost use Rattle.td_http_api.specs.Guards.{Permits, Holds};
ghost use Rattle.td_http_api.specs.Requests.{GivesInBody, IsFor, query_of};
ghost use Rattle.td_http_api.specs.Resources.{row_of};
ghost use Rattle.td_http_api.specs.Services.{ComesTo, HolderMayCall, IsUnchanged, LacksMemory, Leads, MayCall, ShowsHealth, ShowsPage, ShowsUnchanged};
ghost use Rattle.td_http_api.specs.Tags.{IsUnanswered};

use crate::arguments::{call_of_body, call_of_query};
use crate::calls::ApiCall;
use crate::desk::{Desk, DeskAnswer};
use crate::fault::Fault;
use crate::fields::fields_of;
use crate::guard::{Guard, check_type};
use crate::resources::{Methods, Resource, Right, Target, target_at};
use crate::responses::{CSV, METRICS, put_fault, put_health, put_json, put_page, put_text};
use crate::tags::{names_tag, put_tag, put_unchanged, tag_text};
use bytes::Bytes;
use http::{Request, StatusCode};
use http_server::{Response, Service};
use json::{Error, Scratch, Value, Writer};
use std::alloc::{AllocError, Global};
use std::str;
use td_client_tokens::{ClientToken, Rights};

/// Answers requests from a desk.
#[derive(Drop)]
pub struct Api<D> {
    pub desk: D,
    alloc: Global,
    guard: Guard,
}

// A writer of JSON text within an object that is opened, for the members of an answer.
fn begin_answer(alloc: Global) -> Result<Writer, AllocError>
    ensures { IfOk result IsBegun }
{
    let mut out = Writer::new(Vec::new(alloc));
    out.begin_object()?;
    Ok(out)
}

// Closes the object of an answer, and makes it the response's body, with this status.
fn end_answer(
    response: &mut Response,
    status: StatusCode,
    mut out: Writer,
) -> Result<(), AllocError>
    requires { IsUnanswered response.old }
    ensures { OnOk result (IsAnswer (record { status = status; text = object_text out })
        response.new) }
{
    out.end_object()?;
    put_json(response, status, out)
}

// The fault of a body that is no strict JSON; None where no memory was left to read it.
fn parse_fault(error: Error) -> Option<Fault<'static>> {
    match error {
        Error::OutOfMemory => None,
        Error::DuplicateKey => Some(Fault::Twice),
        _ => Some(Fault::Json),
    }
}

// What follows the `?` of a path, if there is one.
fn query_string(request: &Request<Bytes>) -> &str
    ensures { result.now ≡ query_of request.now }
{
    match request.uri().query() {
        Some(query) => query,
        None => "",
    }
}

// Answers with a fault, in words and with its status.
fn refuse(alloc: Global, response: &mut Response, fault: &Fault<'_>) -> Result<(), AllocError>
    requires { IsUnanswered response.old }
    ensures { OnOk result (400 ≤ response.new.status) }
{
    put_fault(alloc, response, fault)
}

// Answers with what the desk answers to a call.
fn make_call<D: Desk>(
    alloc: Global,
    desk: &mut D,
    call: &ApiCall<'_>,
    response: &mut Response,
) -> Result<(), AllocError>
    requires { IsUnanswered response.old }
    ensures ok { OnOk result (ComesTo (λ made. made ≡ call.now) D.answers desk.old response.new
        desk.new) }
    ensures err { OnErr result (LacksMemory (λ made. made ≡ call.now) D.answers desk.old desk.new) }
{
    let mut out = begin_answer(alloc)?;
    match desk.make(call, &mut out)? {
        DeskAnswer::Members(status) => end_answer(response, status, out),
        DeskAnswer::Table(table) => put_text(response, CSV, table),
        DeskAnswer::Metrics(metrics) => put_text(response, METRICS, metrics),
    }
}

// Answers the call that a path and a query string make.
fn answer_query<D: Desk>(
    alloc: Global,
    desk: &mut D,
    token: &ClientToken,
    target: Target<'_>,
    request: &Request<Bytes>,
    response: &mut Response,
) -> Result<(), AllocError>
    requires unanswered { IsUnanswered response.old }
    requires sent { IsFor target.resource target.name.now request.now }
    requires right { Permits token.now (row_of target.resource).right }
    ensures ok { OnOk result (ComesTo (HolderMayCall token.now request.now) D.answers desk.old
        response.new desk.new) }
    ensures err { OnErr result (LacksMemory (HolderMayCall token.now request.now) D.answers desk.old
        desk.new) }
{
    let fields = fields_of(alloc, query_string(request))?;
    match call_of_query(token, target, &fields) {
        Ok(call) => make_call(alloc, desk, &call, response),
        Err(fault) => refuse(alloc, response, &fault),
    }
}

// Answers a GET: with what it asks for, or that what its sender has is as it was.
fn answer_get<D: Desk>(
    alloc: Global,
    desk: &mut D,
    token: &ClientToken,
    target: Target<'_>,
    request: &Request<Bytes>,
    response: &mut Response,
) -> Result<(), AllocError>
    requires unanswered { IsUnanswered response.old }
    requires sent { IsFor target.resource target.name.now request.now }
    requires right { Permits token.now (row_of target.resource).right }
    ensures ok { OnOk result (IsUnchanged (D.revision desk.old) desk.old request.now response.new
        desk.new
        ⊎ ComesTo (HolderMayCall token.now request.now) D.answers desk.old response.new desk.new) }
    ensures err { OnErr result (LacksMemory (HolderMayCall token.now request.now) D.answers desk.old
        desk.new) }
{
    let tag = tag_text(alloc, desk.revision())?;
    put_tag(alloc, response, tag.as_str())?;
    if names_tag(request, tag.as_str()) {
        return put_unchanged(response);
    }
    answer_query(alloc, desk, token, target, request, response)
}

// Answers the call that the members of a body make.
fn answer_members<'a, D: Desk>(
    alloc: Global,
    desk: &mut D,
    token: &'a ClientToken,
    resource: Resource,
    body: &Value<'a>,
    response: &mut Response,
) -> Result<(), AllocError>
    requires { IsUnanswered response.old }
    ensures ok { OnOk result (ComesTo (GivesInBody token.now resource (value_view body.now)) D.answers
        desk.old response.new desk.new) }
    ensures err { OnErr result (LacksMemory (GivesInBody token.now resource (value_view body.now))
        D.answers desk.old desk.new) }
{
    match call_of_body(alloc, token, resource, body) {
        Ok(call) => make_call(alloc, desk, &call, response),
        Err(fault) => refuse(alloc, response, &fault),
    }
}

// Answers the call that a body makes. The body has to be strict JSON, and the request has to say that it is JSON.
fn answer_body<D: Desk>(
    alloc: Global,
    desk: &mut D,
    token: &ClientToken,
    target: Target<'_>,
    request: &Request<Bytes>,
    response: &mut Response,
) -> Result<(), AllocError>
    requires unanswered { IsUnanswered response.old }
    requires sent { IsFor target.resource target.name.now request.now }
    requires right { Permits token.now (row_of target.resource).right }
    ensures ok { OnOk result (ComesTo (HolderMayCall token.now request.now) D.answers desk.old
        response.new desk.new) }
    ensures err { OnErr result (LacksMemory (HolderMayCall token.now request.now) D.answers desk.old
        desk.new) }
{
    if let Err(fault) = check_type(request) {
        return refuse(alloc, response, &fault);
    }
    let Ok(text) = str::from_utf8(request.body().as_slice()) else {
        return refuse(alloc, response, &Fault::Json);
    };
    let mut scratch = Scratch::new(alloc);
    match Value::parse_strict(alloc, text, &mut scratch) {
        Ok(body) => answer_members(alloc, desk, token, target.resource, &body, response),
        Err(error) => match parse_fault(error) {
            Some(fault) => refuse(alloc, response, &fault),
            None => Err(AllocError),
        },
    }
}

// What a request is for, and the token by which it asks, if it has the right to it and a method of it.
fn target_of<'a>(
    guard: &'a Guard,
    request: &'a Request<Bytes>,
) -> Result<(Target<'a>, Option<&'a ClientToken>), Fault<'static>>
    ensures { IfOk result (λ it. IsFor it.0.resource it.0.name.now request.now
        × Holds guard.now request.now (row_of it.0.resource).right (option_copied it.1)) }
{
    guard.check_host(request)?;
    let Some(target) = target_at(request.uri().path()) else {
        // Only who may read learns that nothing is at a path.
        guard.check_right(Right::Bearer(Rights::Read), request)?;
        return Err(Fault::Path);
    };
    let description = target.resource.description();
    let token = guard.check_right(description.right, request)?;
    if description.methods.allow(request.method().as_str()) {
        Ok((target, token))
    } else {
        Err(Fault::Method(description.methods))
    }
}

impl<D: Desk> Api<D> {
    /// A service over this desk for the requests that the guard lets in.
    pub fn new(alloc: Global, desk: D, guard: Guard) -> Api<D>
        ensures desk { result.desk ≡ desk }
        ensures guard { result.guard ≡ guard }
    {
        Api { desk, alloc, guard }
    }

    /// The desk and the guard.
    pub fn into_parts(self) -> (D, Guard)
        ensures desk { result.0 ≡ self.desk }
        ensures guard { result.1 ≡ self.guard }
    {
        (self.desk, self.guard)
    }

    /// Lets requests in that show one of these tokens, in place of those before.
    pub fn set_tokens(&mut self, tokens: Vec<ClientToken>)
        ensures desk { self.new.desk ≡ self.old.desk }
        ensures hosts { self.new.guard.hosts ≡ self.old.guard.hosts }
        ensures tokens { self.new.guard.tokens ≡ tokens }
    {
        self.guard.set_tokens(tokens)
    }

    // Answers a request.
    fn answer(
        &mut self,
        request: &Request<Bytes>,
        response: &mut Response,
    ) -> Result<(), AllocError>
        requires { IsUnanswered response.old }
        ensures guard { self.new.guard ≡ self.old.guard }
        ensures ok { OnOk result (ShowsPage self.old.desk request.now self.new.desk
            ⊎ (ShowsHealth D.failing self.old.desk request.now response.new self.new.desk
            ⊎ (ShowsUnchanged D.revision self.old.guard self.old.desk request.now response.new
            self.new.desk
            ⊎ ComesTo (MayCall self.old.guard request.now) D.answers self.old.desk response.new
            self.new.desk))) }
        ensures err { OnErr result (LacksMemory (MayCall self.old.guard request.now) D.answers
            self.old.desk self.new.desk) }
    {
        let (target, token) = match target_of(&self.guard, request) {
            Ok(found) => found,
            Err(fault) => return refuse(self.alloc, response, &fault),
        };
        let Some(token) = token else {
            return match target.resource {
                Resource::Health => put_health(self.alloc, response, self.desk.failure()),
                _ => put_page(response),
            };
        };
        if target.resource.description().methods == Methods::Post {
            answer_body(self.alloc, &mut self.desk, token, target, request, response)
        } else {
            answer_get(self.alloc, &mut self.desk, token, target, request, response)
        }
    }
}

impl<D: Desk> Service for Api<D> {
    ghost answers = { λ old request response new.
        Leads D.answers D.failing D.revision old.guard old.desk request response new.guard new.desk };

    fn call(
        &mut self,
        request: &Request<Bytes>,
        response: &mut Response,
    ) -> Result<(), AllocError> {
        if self.answer(request, response).is_err() {
            // What was called may have been made, so the answer is a status, and not an end of the connection.
            response.clear();
            response.status = StatusCode::SERVICE_UNAVAILABLE;
        }
        Ok(())
    }
}
