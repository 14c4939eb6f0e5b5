//! What is wrong with a text that is ill typed, and where.

use crate::places::push_place;
use std::alloc::AllocError;
use td_type_errors::Diagnostic;

const ILL_TYPED: &str = "type: a name that is not there, or a type that does not fit";

/// Appends what in a text has no type, with the line and a caret; or few words where no diagnostic says that, as of a
/// statement of an older dialect.
pub(crate) fn push_type_fault(
    out: &mut String,
    found: Option<&Diagnostic>,
    text: &str,
) -> Result<(), AllocError> {
    let Some(found) = found else {
        return out.push_str(ILL_TYPED);
    };
    out.push_str("type: ")?;
    out.push_str(found.message.as_str())?;
    push_place(out, text, found.place)
}
