//! Greetings: what a site tells another one before it sends entries.

ghost use Rattle.std.specs.Prelude.{◌<◌, ◌≤◌, ℕ, List, IfOk};
ghost use Rattle.std.specs.FinMap as by_site;
ghost use Rattle.std.specs.Io.KnownBytes.{Keeps, Consumes};
ghost use Rattle.td_frames.specs.ForProofs.{AreAtMost, PlaceRead};
ghost use Rattle.td_frames.specs.Reading.{ReadsValue, count_at, greeting_at, head_at, length_at, magic_at, number_at, rest_at, script_at, site_at, sites_at, utf8_at, vector_at, version_at};

use crate::error::FrameError;
use crate::fields::{read_bytes, read_field};
use std::alloc::Global;
use td_io::Source;
use td_stamps::Vector;
use td_values::Text;

/// The most bytes of a script.
pub const SCRIPT_BYTES: u32 = 65_536;

/// The greatest sequence number.
const LAST_NUMBER: u32 = 1_000_000_000;

/// What a site tells another one first: its number, the script that it started from, and the version vector of what it
/// holds.
#[derive(Drop)]
pub struct Greeting {
    pub site: u16,
    pub script: Text,
    pub vector: Vector,
}

// Reads the letters that a greeting begins with; any others are an error of their own.
fn read_magic<S: Source>(source: &mut S) -> Result<(), FrameError>
    ensures told { (bytes : List ℕ) × Consumes (S.left source.old) (S.left source.new) bytes
        × ReadsValue magic_at bytes result (S.left source.new) (S.failures source.old) (S.failures source.new) }
    ensures beside { Keeps (S.beside source.old) (S.beside source.new) }
{
    let mut field = [0u8; 4];
    match read_field(source, &mut field) {
        Ok(()) => {}
        Err(e) => return Err(e),
    }
    if field.as_slice() != b"HTDB".as_slice() {
        return Err(FrameError::Magic);
    }
    Ok(())
}

// Reads the version of the formats, which is to be the second.
fn read_version<S: Source>(source: &mut S) -> Result<(), FrameError>
    ensures told { (bytes : List ℕ) × Consumes (S.left source.old) (S.left source.new) bytes
        × ReadsValue version_at bytes result (S.left source.new) (S.failures source.old) (S.failures source.new) }
    ensures beside { Keeps (S.beside source.old) (S.beside source.new) }
{
    let mut field = [0u8; 1];
    match read_field(source, &mut field) {
        Ok(()) => {}
        Err(e) => return Err(e),
    }
    if field.as_slice() != [2u8].as_slice() {
        return Err(FrameError::Version);
    }
    Ok(())
}

// Reads how many places a version vector has.
fn read_count<S: Source>(source: &mut S) -> Result<u16, FrameError>
    ensures told { (bytes : List ℕ) × Consumes (S.left source.old) (S.left source.new) bytes
        × ReadsValue count_at bytes result (S.left source.new) (S.failures source.old) (S.failures source.new) }
    ensures beside { Keeps (S.beside source.old) (S.beside source.new) }
{
    let mut field = [0u8; 2];
    match read_field(source, &mut field) {
        Ok(()) => Ok(u16::from_be_bytes(field)),
        Err(e) => Err(e),
    }
}

// A site that comes after the last one.
fn read_site<S: Source>(source: &mut S, last: u16) -> Result<u16, FrameError>
    ensures told { (bytes : List ℕ) × Consumes (S.left source.old) (S.left source.new) bytes
        × ReadsValue (site_at last) bytes result (S.left source.new) (S.failures source.old) (S.failures source.new) }
    ensures after { IfOk result (λ site. last < site) }
    ensures beside { Keeps (S.beside source.old) (S.beside source.new) }
{
    let mut field = [0u8; 2];
    match read_field(source, &mut field) {
        Ok(()) => {}
        Err(e) => return Err(e),
    }
    let site = u16::from_be_bytes(field);
    if site <= last {
        return Err(FrameError::BadFrame);
    }
    Ok(site)
}

// A site's number.
fn read_number<S: Source>(source: &mut S) -> Result<u32, FrameError>
    ensures told { (bytes : List ℕ) × Consumes (S.left source.old) (S.left source.new) bytes
        × ReadsValue number_at bytes result (S.left source.new) (S.failures source.old) (S.failures source.new) }
    ensures some { IfOk result (λ number. 1 ≤ number) }
    ensures beside { Keeps (S.beside source.old) (S.beside source.new) }
{
    let mut field = [0u8; 4];
    match read_field(source, &mut field) {
        Ok(()) => {}
        Err(e) => return Err(e),
    }
    let number = u32::from_be_bytes(field);
    if number < 1 || number > LAST_NUMBER {
        return Err(FrameError::BadFrame);
    }
    Ok(number)
}

// Reads the length of a script; one beyond SCRIPT_BYTES is a bad frame.
fn read_length<S: Source>(source: &mut S) -> Result<u32, FrameError>
    ensures told { (bytes : List ℕ) × Consumes (S.left source.old) (S.left source.new) bytes
        × ReadsValue length_at bytes result (S.left source.new) (S.failures source.old) (S.failures source.new) }
    ensures beside { Keeps (S.beside source.old) (S.beside source.new) }
{
    let mut field = [0u8; 4];
    match read_field(source, &mut field) {
        Ok(()) => {}
        Err(e) => return Err(e),
    }
    let length = u32::from_be_bytes(field);
    if length > SCRIPT_BYTES {
        return Err(FrameError::BadFrame);
    }
    Ok(length)
}

// A text of so many bytes.
fn read_text_of<S: Source>(alloc: Global, source: &mut S, length: u32) -> Result<Text, FrameError>
    ensures told { (bytes : List ℕ) × Consumes (S.left source.old) (S.left source.new) bytes
        × ReadsValue (utf8_at length) bytes result (S.left source.new) (S.failures source.old) (S.failures source.new) }
    ensures beside { Keeps (S.beside source.old) (S.beside source.new) }
{
    let bytes = match read_bytes(alloc, source, length as usize) {
        Ok(bytes) => bytes,
        Err(e) => return Err(e),
    };
    let Ok(text) = String::from_utf8(bytes) else {
        return Err(FrameError::BadFrame);
    };
    match Text::new(alloc, text) {
        Ok(text) => Ok(text),
        Err(_) => Err(FrameError::OutOfMemory),
    }
}

// Reads a script: its length, then its text.
fn read_script<S: Source>(alloc: Global, source: &mut S) -> Result<Text, FrameError>
    ensures told { (bytes : List ℕ) × Consumes (S.left source.old) (S.left source.new) bytes
        × ReadsValue script_at bytes result (S.left source.new) (S.failures source.old) (S.failures source.new) }
    ensures beside { Keeps (S.beside source.old) (S.beside source.new) }
{
    match read_length(source) {
        Ok(length) => read_text_of(alloc, source, length),
        Err(e) => Err(e),
    }
}

// A site that comes after the last one, put into the vector with its number.
fn read_place<S: Source>(source: &mut S, last: u16, vector: &mut Vector) -> Result<u16, FrameError>
    requires { AreAtMost last vector.old }
    ensures told { (bytes : List ℕ) × Consumes (S.left source.old) (S.left source.new) bytes
        × PlaceRead last vector.old bytes result vector.new (S.left source.new) (S.failures source.old) (S.failures source.new) }
    ensures beside { Keeps (S.beside source.old) (S.beside source.new) }
{
    let site = match read_site(source, last) {
        Ok(site) => site,
        Err(e) => return Err(e),
    };
    let number = match read_number(source) {
        Ok(number) => number,
        Err(e) => return Err(e),
    };
    match vector.insert(site, number) {
        Ok(_) => Ok(site),
        Err(_) => Err(FrameError::OutOfMemory),
    }
}

// Reads so many places of a version vector; their sites are to rise.
fn read_places<S: Source>(alloc: Global, source: &mut S, count: u16) -> Result<Vector, FrameError>
    ensures told { (bytes : List ℕ) × Consumes (S.left source.old) (S.left source.new) bytes
        × ReadsValue (sites_at count 0 by_site.empty) bytes result (S.left source.new) (S.failures source.old) (S.failures source.new) }
    ensures beside { Keeps (S.beside source.old) (S.beside source.new) }
{
    let mut vector = Vector::new(alloc);
    let mut last = 0;
    for _ in 0..count {
        match read_place(source, last, &mut vector) {
            Ok(site) => last = site,
            Err(e) => return Err(e),
        }
    }
    Ok(vector)
}

// Reads a version vector: the count of its places, then each of them.
fn read_vector<S: Source>(alloc: Global, source: &mut S) -> Result<Vector, FrameError>
    ensures told { (bytes : List ℕ) × Consumes (S.left source.old) (S.left source.new) bytes
        × ReadsValue vector_at bytes result (S.left source.new) (S.failures source.old) (S.failures source.new) }
    ensures beside { Keeps (S.beside source.old) (S.beside source.new) }
{
    match read_count(source) {
        Ok(count) => read_places(alloc, source, count),
        Err(e) => Err(e),
    }
}

// Reads the begin of a greeting, and gives the site that it tells.
fn read_head<S: Source>(source: &mut S) -> Result<u16, FrameError>
    ensures told { (bytes : List ℕ) × Consumes (S.left source.old) (S.left source.new) bytes
        × ReadsValue head_at bytes result (S.left source.new) (S.failures source.old) (S.failures source.new) }
    ensures beside { Keeps (S.beside source.old) (S.beside source.new) }
{
    match read_magic(source) {
        Ok(()) => {}
        Err(e) => return Err(e),
    }
    match read_version(source) {
        Ok(()) => {}
        Err(e) => return Err(e),
    }
    read_site(source, 0)
}

// The script and the version vector of a site that greets.
fn read_rest<S: Source>(alloc: Global, source: &mut S, site: u16) -> Result<Greeting, FrameError>
    ensures told { (bytes : List ℕ) × Consumes (S.left source.old) (S.left source.new) bytes
        × ReadsValue (rest_at site) bytes result (S.left source.new) (S.failures source.old) (S.failures source.new) }
    ensures beside { Keeps (S.beside source.old) (S.beside source.new) }
{
    let script = match read_script(alloc, source) {
        Ok(script) => script,
        Err(e) => return Err(e),
    };
    match read_vector(alloc, source) {
        Ok(vector) => Ok(Greeting {
            site,
            script,
            vector,
        }),
        Err(e) => Err(e),
    }
}

/// Reads a greeting. It takes room for the script and the version vector.
pub fn read_greeting<S: Source>(alloc: Global, source: &mut S) -> Result<Greeting, FrameError>
    ensures told { (bytes : List ℕ) × Consumes (S.left source.old) (S.left source.new) bytes
        × ReadsValue greeting_at bytes result (S.left source.new) (S.failures source.old) (S.failures source.new) }
    ensures beside { Keeps (S.beside source.old) (S.beside source.new) }
{
    match read_head(source) {
        Ok(site) => read_rest(alloc, source, site),
        Err(e) => Err(e),
    }
}
