//! Devices: readers, writers and links that go on after an interruption and count their failures.

ghost use Rattle.std.specs.Prelude.{◌≡◌, true};

mod attempts;
mod sides;

use std::marker::{Model, PhantomData};

/// The role of a device that only reads, or only writes.
pub struct Single;

/// The role of a device that reads from a buffer, and so sees the end of a line before it takes it.
pub struct Buffered;

/// The role of a device that does both.
pub struct Both;

/// Wraps a reader or a writer, or a link, which is both. Its bytes are those of what it wraps. It goes on after an
/// interruption; each other error, each thousandth interruption in a row, and each write of bytes that takes none of
/// them is a failure and counted, and nothing else is. The count stays at the greatest number of 64 bits.
#[derive(Drop)]
pub struct Device<D, K = Single> {
    inner: D,
    failures: u64,
    is_flushed: bool,
    role: PhantomData<K>,
}

impl<D, K> Model for Device<D, K> {
    ghost use Rattle.td_io.specs.Counted.{DeviceData};

    ghost Value = { DeviceData D };

    ghost view = { λ d. record { inner = d.inner; failures = d.failures; is_flushed = d.is_flushed } };
}

impl<D, K> Device<D, K> {
    // A device with no failure counted.
    fn begin(inner: D) -> Self
        ensures inner { result.inner ≡ inner }
        ensures failures { result.failures ≡ 0 }
        ensures flushed { result.is_flushed ≡ true }
    {
        Device {
            inner,
            failures: 0,
            is_flushed: true,
            role: PhantomData,
        }
    }

    /// How many failures were counted.
    pub fn failures(&self) -> u64
        ensures { result ≡ self.now.failures }
    {
        self.failures
    }
}

impl<D> Device<D, Single> {
    /// A device that reads or writes, with no failure counted.
    pub fn new(inner: D) -> Self
        ensures inner { result.inner ≡ inner }
        ensures failures { result.failures ≡ 0 }
        ensures flushed { result.is_flushed ≡ true }
    {
        Device::begin(inner)
    }
}

impl<D> Device<D, Buffered> {
    /// A device that reads by a buffer, with no failure counted.
    pub fn buffered(inner: D) -> Self
        ensures inner { result.inner ≡ inner }
        ensures failures { result.failures ≡ 0 }
        ensures flushed { result.is_flushed ≡ true }
    {
        Device::begin(inner)
    }
}

impl<D> Device<D, Both> {
    /// A device that reads and writes, with no failure counted.
    pub fn link(inner: D) -> Self
        ensures inner { result.inner ≡ inner }
        ensures failures { result.failures ≡ 0 }
        ensures flushed { result.is_flushed ≡ true }
    {
        Device::begin(inner)
    }
}
