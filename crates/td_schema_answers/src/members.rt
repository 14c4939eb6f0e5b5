//! Members of JSON objects.

use json::Writer;
use std::alloc::AllocError;

/// Appends a member whose value is a text.
pub(crate) fn write_text(out: &mut Writer, name: &str, text: &str) -> Result<(), AllocError> {
    out.key(name)?;
    out.string(text)
}

/// Appends a list of texts as the member of this name.
pub(crate) fn write_texts(out: &mut Writer, name: &str, texts: &[&str]) -> Result<(), AllocError> {
    out.key(name)?;
    out.begin_array()?;
    for text in texts {
        out.string(*text)?;
    }
    out.end_array()
}
