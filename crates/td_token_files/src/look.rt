//! What a file has.

ghost use Rattle.std.specs.Prelude.{◌≡◌, ◌↔◌, IsTrue, string_bytes};
ghost use Rattle.td_token_files.specs.Looks.{FileLook, file_look};

use std::alloc::AllocError;
use std::fs;
use std::os::unix::fs::PermissionsExt;
use std::rt::Files;
use td_paths::{Unreadable, plain_file, read_plain};

/// The rights of a group and of all others.
const OTHERS: u32 = 0o077;

/// What a look at a file finds.
#[derive(Drop)]
pub(crate) enum Look {
    Text(String),
    /// Others than the owner may read it.
    OpenToOthers,
    /// It is no UTF-8.
    NoText,
    Unreadable(Unreadable),
}

// Whether others than the owner may read a file or write it.
fn is_open_to_others<H: Files>(host: &H, name: &str) -> bool {
    match fs::metadata(host, name) {
        Ok(it) => it.permissions().mode() & OTHERS != 0,
        Err(_) => false,
    }
}

// What is found, where these are the bytes of a file.
fn look_of_bytes(bytes: Vec<u8>) -> Look {
    match String::from_utf8(bytes) {
        Ok(text) => Look::Text(text),
        Err(_) => Look::NoText,
    }
}

/// Looks at a file. A file is not read that is not plain, or that others may read.
pub(crate) fn look_at<H: Files + AllocGlobal>(host: &H, name: &str) -> Result<Look, AllocError> {
    if plain_file(host, name).is_ok() && is_open_to_others(host, name) {
        return Ok(Look::OpenToOthers);
    }
    match read_plain(host, name) {
        Ok(bytes) => Ok(look_of_bytes(bytes)),
        Err(Unreadable::OutOfMemory) => Err(AllocError),
        Err(fault) => Ok(Look::Unreadable(fault)),
    }
}

// Whether a look found this text.
fn is_text(look: &Look, text: &str) -> bool
    ensures { IsTrue result ↔ (file_look look.now ≡ FileLook.text text.now) }
{
    match look {
        Look::Text(found) => found.as_str() == text,
        _ => false,
    }
}

// Whether two faults are one.
fn is_same_fault(a: Unreadable, b: Unreadable) -> bool
    ensures { IsTrue result ↔ (a ≡ b) }
{
    a == b
}

// Whether a look found that the file is not read for this.
fn is_unreadable(look: &Look, fault: Unreadable) -> bool
    ensures { IsTrue result ↔ (file_look look.now ≡ FileLook.unreadable fault) }
{
    match look {
        Look::Unreadable(found) => is_same_fault(*found, fault),
        _ => false,
    }
}

// Whether a look found that others may read the file.
fn is_open(look: &Look) -> bool
    ensures { IsTrue result ↔ (file_look look.now ≡ FileLook.open_to_others) }
{
    match look {
        Look::OpenToOthers => true,
        _ => false,
    }
}

// Whether a look found no text.
fn is_no_text(look: &Look) -> bool
    ensures { IsTrue result ↔ (file_look look.now ≡ FileLook.no_text) }
{
    match look {
        Look::NoText => true,
        _ => false,
    }
}

/// Whether two looks found the same.
pub(crate) fn is_same(a: &Look, b: &Look) -> bool
    ensures { IsTrue result ↔ (file_look b.now ≡ file_look a.now) }
{
    match a {
        Look::Text(text) => is_text(b, text.as_str()),
        Look::OpenToOthers => is_open(b),
        Look::NoText => is_no_text(b),
        Look::Unreadable(fault) => is_unreadable(b, *fault),
    }
}
