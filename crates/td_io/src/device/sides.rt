//! What is read and written through a device, in each of its roles.

ghost use Rattle.std.specs.Prelude.{[], None};
ghost use Rattle.std.specs.Io.Buffered.{reader_buffer, reader_remaining};
ghost use Rattle.td_io.specs.Counted.{Counts};

use crate::device::attempts::{
    flush_on, flush_side_on, read_of_line_on, read_on, read_side_on, write_on, write_side_on,
};
use crate::device::{Both, Buffered, Device, Single};
use crate::link::Link;
use crate::streams::{Channel, Failed, Sink, Source};
use std::io::{BufReader, Read, Write};

// The count after a call that told this.
fn count_after<T>(failures: u64, told: &Result<T, Failed>) -> u64
    ensures { Counts failures result told.now }
{
    match told {
        Ok(_) => failures,
        Err(_) => failures.saturating_add(1),
    }
}

impl<D: Read> Source for Device<D, Single> {
    ghost left = { λ d. D.remaining d.inner };

    ghost beside = { λ _. None };

    ghost failures = { λ d. d.failures };

    ghost buffered = { λ _. [] };

    fn read_some(&mut self, buf: &mut [u8]) -> Result<usize, Failed> {
        let told = read_on(&mut self.inner, buf);
        self.failures = count_after(self.failures, &told);
        told
    }

    fn buffer(&self) -> &[u8] {
        &[]
    }
}

impl<R: Read> Source for Device<BufReader<R>, Buffered> {
    ghost left = { λ d. reader_remaining R.remaining d.inner };

    ghost beside = { λ _. None };

    ghost failures = { λ d. d.failures };

    ghost buffered = { λ d. reader_buffer d.inner };

    fn read_some(&mut self, buf: &mut [u8]) -> Result<usize, Failed> {
        let read = read_on(&mut self.inner, buf);
        self.failures = count_after(self.failures, &read);
        read
    }

    fn read_of_line(&mut self, buf: &mut [u8]) -> Result<usize, Failed> {
        let told = read_of_line_on(&mut self.inner, buf);
        self.failures = count_after(self.failures, &told);
        told
    }

    fn buffer(&self) -> &[u8] {
        self.inner.buffer()
    }
}

impl<D: Write> Sink for Device<D, Single> {
    ghost held = { λ d. D.contents d.inner };

    ghost aside = { λ _. None };

    ghost faults = { λ d. d.failures };

    ghost is_flushed = { λ d. d.is_flushed };

    fn write_some(&mut self, bytes: &[u8]) -> Result<usize, Failed> {
        let told = write_on(&mut self.inner, bytes);
        self.is_flushed = false;
        self.failures = count_after(self.failures, &told);
        told
    }

    fn flush(&mut self) -> Result<(), Failed> {
        let told = flush_on(&mut self.inner);
        self.is_flushed = told.is_ok();
        self.failures = count_after(self.failures, &told);
        told
    }
}

impl<L: Link> Source for Device<L, Both> {
    ghost left = { λ d. L.remaining d.inner };

    ghost beside = { λ d. L.contents d.inner };

    ghost failures = { λ d. d.failures };

    ghost buffered = { λ _. [] };

    fn read_some(&mut self, buf: &mut [u8]) -> Result<usize, Failed> {
        let told = read_side_on(&mut self.inner, buf);
        self.failures = count_after(self.failures, &told);
        told
    }

    fn buffer(&self) -> &[u8] {
        &[]
    }
}

impl<L: Link> Sink for Device<L, Both> {
    ghost held = { λ d. L.contents d.inner };

    ghost aside = { λ d. L.remaining d.inner };

    ghost faults = { λ d. d.failures };

    ghost is_flushed = { λ d. d.is_flushed };

    fn write_some(&mut self, bytes: &[u8]) -> Result<usize, Failed> {
        let told = write_side_on(&mut self.inner, bytes);
        self.is_flushed = false;
        self.failures = count_after(self.failures, &told);
        told
    }

    fn flush(&mut self) -> Result<(), Failed> {
        let told = flush_side_on(&mut self.inner);
        self.is_flushed = told.is_ok();
        self.failures = count_after(self.failures, &told);
        told
    }
}

impl<L: Link> Channel for Device<L, Both> {
    ghost use Rattle.std.specs.Prelude.{refl};

    ghost same_held = { λ x. refl };

    ghost same_left = { λ x. refl };

    ghost same_count = { λ x. refl };
}
