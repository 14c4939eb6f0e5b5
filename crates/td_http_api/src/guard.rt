//! Which requests are let in.

ghost use Rattle.std.specs.Prelude.{◌≡◌, ◌++◌, ◌↔◌, ◌⊎◌, ℕ, List, [], codes, Contains, IfOk, IfSome, OnOk, IsTrue, option_copied, string_bytes};
ghost use Rattle.http_header.specs.HeaderMap.{get_all};
ghost use Rattle.td_http_api.specs.Guards.{Admits, Bears, HasHost, HasOrigin, HasRights, Holds, IsHost, IsOrigin, only_value};

use crate::fault::Fault;
use crate::resources::Right;
use bytes::Bytes;
use http::Request;
use http_header::{AUTHORIZATION, CONTENT_TYPE, HOST, HeaderMap, HeaderName, HeaderValue, ORIGIN};
use td_client_tokens::{ClientToken, Rights};

/// What a request has to show: a name of this host, so that no name of another site leads here; an origin that is this
/// one, where a browser names one; and one of the tokens.
#[derive(Drop)]
pub struct Guard {
    pub(crate) hosts: Vec<String>,
    pub(crate) tokens: Vec<ClientToken>,
}

/// The one value of a field; none where there is no value or several.
pub(crate) fn only(values: &HeaderMap<HeaderValue>, name: HeaderName) -> Option<&[u8]>
    ensures { option_copied result ≡ only_value (get_all values.now name) }
{
    let mut all = values.get_all(name).iter();
    let first = all.next()?;
    match all.next() {
        None => Some(first.as_bytes()),
        Some(_) => None,
    }
}

// Whether a request has no header of this name.
fn is_absent(values: &HeaderMap<HeaderValue>, name: HeaderName) -> bool
    ensures { IsTrue result → get_all values.now name ≡ [] }
{
    values.get_all(name).iter().next().is_none()
}

// Whether two texts are one. How long that takes says nothing of where they differ.
fn is_same(a: &[u8], b: &[u8]) -> bool
    ensures { IsTrue result ↔ a.now ≡ b.now }
{
    if a.len() != b.len() {
        return false;
    }
    let mut same = true;
    for i in 0..a.len() {
        same &= a[i] == b[i];
    }
    same
}

impl Guard {
    /// Lets in requests to these hosts that show `authorization: Bearer TOKEN` with one of the tokens. A host is as a
    /// browser names it: with its port, if that is not the one of the scheme.
    pub fn new(hosts: Vec<String>, tokens: Vec<ClientToken>) -> Guard
        ensures hosts { result.hosts ≡ hosts }
        ensures tokens { result.tokens ≡ tokens }
    {
        Guard { hosts, tokens }
    }

    /// Lets in requests that show one of these tokens, in place of those before.
    pub(crate) fn set_tokens(&mut self, tokens: Vec<ClientToken>)
        ensures hosts { self.new.hosts ≡ self.old.hosts }
        ensures tokens { self.new.tokens ≡ tokens }
    {
        self.tokens = tokens;
    }

    // Whether a Host header names one of the hosts of the server, in letters of any case.
    fn is_host(&self, host: &[u8]) -> bool
        ensures { IsTrue result → IsHost self.now.hosts.items host.now }
    {
        for own in &self.hosts {
            if own.as_bytes().eq_ignore_ascii_case(host) {
                return true;
            }
        }
        false
    }

    // Whether an origin is `http://` or `https://` and then one of the hosts of the server.
    fn is_origin(&self, origin: &[u8]) -> bool
        ensures { IsTrue result → IsOrigin self.now.hosts.items origin.now }
    {
        if let Some(host) = origin.strip_prefix(b"http://") {
            return self.is_host(host);
        }
        match origin.strip_prefix(b"https://") {
            Some(host) => self.is_host(host),
            None => false,
        }
    }

    // The page is static, so that this alone is asked for it.
    pub(crate) fn check_host(&self, request: &Request<Bytes>) -> Result<(), Fault<'static>>
        ensures { OnOk result (HasHost self.now.hosts.items request.now) }
    {
        match only(request.headers(), HOST) {
            Some(host) if self.is_host(host) => Ok(()),
            _ => Err(Fault::Host),
        }
    }

    // Lets a request in that has no Origin header, or a single one that names the server itself.
    fn check_origin(&self, request: &Request<Bytes>) -> Result<(), Fault<'static>>
        ensures { OnOk result (HasOrigin self.now.hosts.items request.now) }
    {
        if is_absent(request.headers(), ORIGIN) {
            return Ok(());
        }
        match only(request.headers(), ORIGIN) {
            Some(origin) if self.is_origin(origin) => Ok(()),
            _ => Err(Fault::Origin),
        }
    }

    // The token with this secret; the comparison is that of `is_same`.
    fn find_token(&self, secret: &[u8]) -> Option<&ClientToken>
        ensures { IfSome result (λ token. Contains self.now.tokens.items token.now
            × (string_bytes token.now.secret ≡ secret.now)) }
    {
        for token in &self.tokens {
            if is_same(token.secret.as_bytes(), secret) {
                return Some(token);
            }
        }
        None
    }

    // The token that the single Authorization header of a request bears.
    fn token_of(&self, request: &Request<Bytes>) -> Result<&ClientToken, Fault<'static>>
        ensures { IfOk result (λ token. Contains self.now.tokens.items token.now
            × Bears token.now request.now) }
    {
        let shown = only(request.headers(), AUTHORIZATION).unwrap_or(b"");
        let Some(secret) = shown.strip_prefix(b"Bearer ") else {
            return Err(Fault::Token);
        };
        match self.find_token(secret) {
            Some(token) => Ok(token),
            None => Err(Fault::Token),
        }
    }

    // The token of a request to this host, if it has these rights.
    fn check_rights(
        &self,
        rights: Rights,
        request: &Request<Bytes>,
    ) -> Result<&ClientToken, Fault<'static>>
        requires { HasHost self.now.hosts.items request.now }
        ensures { IfOk result (λ token. Admits self.now request.now token.now
            × HasRights token.now rights) }
    {
        self.check_origin(request)?;
        let token = self.token_of(request)?;
        if token.rights.include(rights) {
            Ok(token)
        } else {
            Err(Fault::Rights(rights))
        }
    }

    /// The token of a request to this host, where one is needed. It refuses a request that lacks the right.
    pub(crate) fn check_right(
        &self,
        right: Right,
        request: &Request<Bytes>,
    ) -> Result<Option<&ClientToken>, Fault<'static>>
        requires { HasHost self.now.hosts.items request.now }
        ensures { IfOk result (λ token. Holds self.now request.now right (option_copied token)) }
    {
        match right {
            Right::Everyone => Ok(None),
            Right::Bearer(rights) => Ok(Some(self.check_rights(rights, request)?)),
        }
    }
}

// A page of another origin cannot send this type without asking first, which is not answered.
pub(crate) fn check_type(request: &Request<Bytes>) -> Result<(), Fault<'static>> {
    match only(request.headers(), CONTENT_TYPE) {
        Some(kind) if is_json(kind) => Ok(()),
        _ => Err(Fault::ContentType),
    }
}

// A parameter, as `; charset=utf-8`, is passed over.
fn is_json(kind: &[u8]) -> bool {
    let kind = match kind.iter().position(|b| *b == b';') {
        Some(end) => &kind[..end],
        None => kind,
    };
    kind.trim_ascii().eq_ignore_ascii_case(b"application/json")
}
