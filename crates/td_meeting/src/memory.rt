//! Bytes in memory, which one site writes and the other one reads.

ghost use Rattle.std.specs.Prelude.{◌≡◌, true, Some, None, []};

use std::alloc::Global;
use td_io::{Failed, Sink, Source};

/// Bytes that are read: none is wanting, and no read fails.
#[derive(Drop)]
pub(crate) struct Incoming<'a> {
    rest: &'a [u8],
}

impl<'a> Incoming<'a> {
    pub(crate) fn new(bytes: &'a [u8]) -> Incoming<'a>
        ensures { result.rest.now ≡ bytes.now }
    {
        Incoming { rest: bytes }
    }
}

impl Source for Incoming<'_> {
    ghost left = { λ i. Some i.rest.now };

    ghost beside = { λ _. None };

    ghost failures = { λ _. 0 };

    ghost buffered = { λ i. i.rest.now };

    fn read_some(&mut self, buf: &mut [u8]) -> Result<usize, Failed> {
        let n = buf.len().min(self.rest.len());
        let (front, rest) = self.rest.split_at(n);
        buf[..n].copy_from_slice(front);
        self.rest = rest;
        Ok(n)
    }

    fn buffer(&self) -> &[u8] {
        self.rest
    }
}

/// Bytes that are written: a write fails where memory is wanting.
#[derive(Drop)]
pub(crate) struct Outgoing {
    pub(crate) bytes: Vec<u8>,
    failures: u64,
}

impl Outgoing {
    pub(crate) fn new(alloc: Global) -> Outgoing
        ensures { result.bytes.items ≡ [] }
    {
        Outgoing {
            bytes: Vec::new(alloc),
            failures: 0,
        }
    }
}

impl Sink for Outgoing {
    ghost held = { λ o. Some o.bytes.items };

    ghost aside = { λ _. None };

    ghost faults = { λ o. o.failures };

    ghost is_flushed = { λ _. true };

    fn write_some(&mut self, bytes: &[u8]) -> Result<usize, Failed> {
        match self.bytes.extend_from_slice(bytes) {
            Ok(()) => Ok(bytes.len()),
            Err(_) => {
                self.failures = self.failures.saturating_add(1);
                Err(Failed)
            }
        }
    }

    fn flush(&mut self) -> Result<(), Failed> {
        Ok(())
    }
}
