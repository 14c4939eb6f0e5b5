//! Bytes that are written whole, and flushes.

use crate::fakes::Narrow;
use std::alloc::Global;
use std::test::Fail;
use td_io::{Device, Failed, Pair, Sink, put, write_all};

#[test]
fn all_bytes_are_written_and_flushed(rt: HostRuntime) -> Result<(), Fail> {
    for (is_put, room, flush_fails, want, taken, flushes, failures) in [
        (true, 9, false, Ok(()), b"abcd".as_slice(), 1, 0),
        (true, 4, false, Ok(()), b"abcd", 1, 0),
        (true, 2, false, Err(Failed), b"ab", 0, 1),
        (true, 9, true, Err(Failed), b"abcd", 1, 1),
        (false, 9, true, Ok(()), b"abcd", 0, 0),
    ] {
        let mut writer = Narrow::new(rt.alloc(), room, flush_fails);
        let mut device = Device::new(&mut writer);
        let told = if is_put {
            put(&mut device, b"abcd")
        } else {
            write_all(&mut device, b"abcd")
        };
        assert!(rt; told == want);
        assert!(rt; device.failures() == failures);
        assert!(rt; writer.taken.as_slice() == taken);
        assert!(rt; writer.flushes == flushes);
    }
    Ok(())
}

// How often a writer is flushed by one flush of a device, alone or as one side of a link.
fn flushes_of_one(alloc: Global, is_link: bool, flush_fails: bool) -> u32 {
    let mut writer = Narrow::new(alloc, 9, flush_fails);
    let told = if is_link {
        let reader: &[u8] = b"";
        let pair = Pair {
            reader,
            writer: &mut writer,
        };
        Device::link(pair).flush()
    } else {
        Device::new(&mut writer).flush()
    };
    if told.is_err() == flush_fails {
        writer.flushes
    } else {
        0
    }
}

#[test]
fn a_flush_is_handed_on_once(rt: HostRuntime) {
    for (is_link, flush_fails) in [(false, false), (false, true), (true, false), (true, true)] {
        assert!(rt; flushes_of_one(rt.alloc(), is_link, flush_fails) == 1);
    }
}
