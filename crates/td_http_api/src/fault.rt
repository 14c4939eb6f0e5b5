//! Why a request is not answered with what it asks for.

ghost use Rattle.std.specs.Prelude.{◌≤◌};

use crate::resources::Methods;
use http::StatusCode;
use std::alloc::AllocError;
use td_client_tokens::Rights;
use thiserror::Error;

/// A fault of a request.
#[derive(Clone, Copy, Debug, Error)]
pub(crate) enum Fault<'a> {
    #[error("the request names another host: --host NAME lets it in")]
    Host,
    #[error("the request comes from another page")]
    Origin,
    #[error("the token is lacking or another one")]
    Token,
    #[error("this needs a token with the rights {}, and this one has fewer", .0.name())]
    Rights(Rights),
    #[error("the body has to be application/json")]
    ContentType,
    #[error("nothing is at this path")]
    Path,
    #[error("this path takes {0}")]
    Method(Methods),
    #[error("the path takes no ?{0}")]
    Query(&'a str),
    #[error("?{0} comes twice")]
    Repeated(&'a str),
    #[error("{0} in the path has to be a whole number from 0 on")]
    NoNumber(&'static str),
    #[error("?{0} takes no value")]
    NoValue(&'static str),
    #[error("the body is no JSON in UTF-8")]
    Json,
    #[error("a member of the body comes twice")]
    Twice,
    #[error("the body is no object")]
    NoObject,
    #[error("{0} is no member that this path takes")]
    Unknown(&'a str),
    #[error("the body lacks {0}")]
    Lacks(&'static str),
    #[error("{0} has to be a text")]
    NoText(&'static str),
    #[error("{0} has to be a whole number from 0 on")]
    NoCount(&'static str),
    #[error("{0} has to be true or false")]
    NoFlag(&'static str),
    #[error("{0} has to be a list of pairs, each of an attribute and up or down")]
    NoOrder(&'static str),
    #[error("{0} has at most 16 attributes")]
    ManyOrders(&'static str),
    #[error("memory ran out")]
    Memory,
}

impl Fault<'_> {
    /// The status that a response with this fault has; 400 where none is more telling.
    pub(crate) fn status(&self) -> StatusCode
        ensures { 400 ≤ result }
    {
        match self {
            Fault::Host => StatusCode::MISDIRECTED_REQUEST,
            Fault::Origin | Fault::Rights(_) => StatusCode::FORBIDDEN,
            Fault::Token => StatusCode::UNAUTHORIZED,
            Fault::ContentType => StatusCode::UNSUPPORTED_MEDIA_TYPE,
            Fault::Path => StatusCode::NOT_FOUND,
            Fault::Method(_) => StatusCode::METHOD_NOT_ALLOWED,
            Fault::Memory => StatusCode::SERVICE_UNAVAILABLE,
            _ => StatusCode::BAD_REQUEST,
        }
    }
}

impl From<AllocError> for Fault<'_> {
    fn from(_: AllocError) -> Self {
        Fault::Memory
    }
}
