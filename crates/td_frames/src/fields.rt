//! Fields of frames.

ghost use Rattle.std.specs.Prelude.{◌≡◌, ℕ, List, length, OnOk, IfOk, IfErr};
ghost use Rattle.std.specs.Io.KnownBytes.{Keeps, Consumes};
ghost use Rattle.td_frames.specs.ForProofs.{Unfilled};
ghost use Rattle.td_frames.specs.Reading.{dialect_in, fields, head_size};

use crate::error::FrameError;
use crate::version::Version;
use std::alloc::Global;
use td_io::{Short, Source, fill};

/// The fields of an entry's frame before its text.
#[derive(Clone, Copy)]
pub struct Head {
    pub site: u16,
    pub seq: u32,
    pub clock: u64,
    pub dialect: u8,
    pub length: u16,
}

/// The most bytes that these fields have.
pub(crate) const MOST_HEAD: usize = 17;

// Reads a field whole.
pub(crate) fn read_field<S: Source>(source: &mut S, buf: &mut [u8]) -> Result<(), FrameError>
    ensures ok { OnOk result (Consumes (S.left source.old) (S.left source.new) buf.new) }
    ensures count { OnOk result (S.failures source.new ≡ S.failures source.old) }
    ensures err { IfErr result (λ e. (bytes : List ℕ) × Consumes (S.left source.old) (S.left source.new) bytes
        × Unfilled e (length buf.old) bytes (S.left source.new) (S.failures source.old) (S.failures source.new)) }
    ensures beside { Keeps (S.beside source.old) (S.beside source.new) }
{
    match fill(source, buf) {
        Ok(()) => Ok(()),
        Err(Short::End) => Err(FrameError::Cut),
        Err(Short::Fault) => Err(FrameError::ReadFault),
    }
}

// Reads that many bytes.
pub(crate) fn read_bytes<S: Source>(
    alloc: Global,
    source: &mut S,
    count: usize,
) -> Result<Vec<u8>, FrameError>
    ensures ok { IfOk result (λ v. Consumes (S.left source.old) (S.left source.new) v.items × (length v.items ≡ count)
        × (S.failures source.new ≡ S.failures source.old)) }
    ensures err { IfErr result (λ e. (bytes : List ℕ) × Consumes (S.left source.old) (S.left source.new) bytes
        × Unfilled e count bytes (S.left source.new) (S.failures source.old) (S.failures source.new)) }
    ensures beside { Keeps (S.beside source.old) (S.beside source.new) }
{
    let Ok(mut bytes) = Vec::from_elem(alloc, 0u8, count) else {
        return Err(FrameError::OutOfMemory);
    };
    match read_field(source, bytes.as_mut_slice()) {
        Ok(()) => Ok(bytes),
        Err(e) => Err(e),
    }
}

// The dialect in these bytes.
fn dialect_of(version: Version, bytes: &[u8]) -> u8
    requires { length bytes.now ≡ head_size version }
    ensures { result ≡ dialect_in version bytes.now }
{
    match version {
        Version::First => 1,
        Version::Second => bytes[14],
    }
}

// The fields in these bytes.
pub(crate) fn fields_of(version: Version, bytes: &[u8]) -> Head
    requires { length bytes.now ≡ head_size version }
    ensures { result ≡ fields version bytes.now }
{
    let (site, rest) = bytes.split_at(2);
    let (seq, rest) = rest.split_at(4);
    let (clock, _) = rest.split_at(8);
    let (_, length) = bytes.split_at(version.head_size() - 2);
    Head {
        site: u16::from_be_bytes([site[0], site[1]]),
        seq: u32::from_be_bytes([seq[0], seq[1], seq[2], seq[3]]),
        clock: u64::from_be_bytes([
            clock[0], clock[1], clock[2], clock[3], clock[4], clock[5], clock[6], clock[7],
        ]),
        dialect: dialect_of(version, bytes),
        length: u16::from_be_bytes([length[0], length[1]]),
    }
}
