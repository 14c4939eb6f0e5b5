//! What holds over all calls of a connection.

ghost use Rattle.td_http_api.specs.Laws.{CallsNeedToken};

use crate::desk::Desk;

/// Requests without the token leave a desk as it was, however many a connection brings.
pub fn calls_need_token<D: Desk>()
    ensures { CallsNeedToken D.answers D.failing D.revision }
{}
