//! Which events are failures, and how they are counted.

use crate::fakes::{Then, Unsteady};
use td_io::{Device, Failed, Sink, Source, read_byte};

// A device that is interrupted so often.
fn unsteady(interruptions: u32, then: Then) -> Device<Unsteady> {
    Device::new(Unsteady {
        interruptions,
        then,
    })
}

// What two calls in a row answer, in a word each, with the count behind each.
type Told = [(char, u64); 2];

fn read_told(told: Result<Option<u8>, Failed>) -> char {
    match told {
        Ok(Some(byte)) => char::from(byte),
        Ok(None) => 'e',
        Err(Failed) => 'f',
    }
}

fn two_reads(interruptions: u32, then: Then) -> Told {
    let mut device = unsteady(interruptions, then);
    let first = read_told(read_byte(&mut device));
    let failures = device.failures();
    let second = read_told(read_byte(&mut device));
    [(first, failures), (second, device.failures())]
}

#[test]
fn reads_are_counted(rt: HostRuntime) {
    for (interruptions, then, want) in [
        (0, Then::Works, [('x', 0), ('x', 0)]),
        (999, Then::Works, [('x', 0), ('x', 0)]),
        (1_000, Then::Works, [('f', 1), ('x', 1)]),
        (1_999, Then::Works, [('f', 1), ('x', 1)]),
        (2_000, Then::Works, [('f', 1), ('f', 2)]),
        (0, Then::Idles, [('e', 0), ('e', 0)]),
        (999, Then::Idles, [('e', 0), ('e', 0)]),
        (0, Then::Fails, [('f', 1), ('f', 2)]),
        (999, Then::Fails, [('f', 1), ('f', 2)]),
        (0, Then::Blocks, [('f', 1), ('x', 1)]),
        (999, Then::Blocks, [('f', 1), ('x', 1)]),
    ] {
        let found = two_reads(interruptions, then);
        assert!(rt; found == want, "{interruptions} interruptions");
    }
}

fn written_told(told: Result<usize, Failed>) -> char {
    match told {
        Ok(0) => '0',
        Ok(_) => 'x',
        Err(Failed) => 'f',
    }
}

fn two_writes(interruptions: u32, then: Then, bytes: &[u8]) -> Told {
    let mut device = unsteady(interruptions, then);
    let first = written_told(device.write_some(bytes));
    let failures = device.failures();
    let second = written_told(device.write_some(bytes));
    [(first, failures), (second, device.failures())]
}

#[test]
fn writes_are_counted(rt: HostRuntime) {
    let empty: &[u8] = b"";
    for (interruptions, then, bytes, want) in [
        (0, Then::Works, b"ab".as_slice(), [('x', 0), ('x', 0)]),
        (999, Then::Works, b"ab", [('x', 0), ('x', 0)]),
        (1_000, Then::Works, b"ab", [('f', 1), ('x', 1)]),
        (2_000, Then::Works, b"ab", [('f', 1), ('f', 2)]),
        (0, Then::Idles, b"ab", [('f', 1), ('f', 2)]),
        (0, Then::Idles, empty, [('0', 0), ('0', 0)]),
        (0, Then::Fails, b"ab", [('f', 1), ('f', 2)]),
        (0, Then::Blocks, b"ab", [('f', 1), ('x', 1)]),
    ] {
        let found = two_writes(interruptions, then, bytes);
        assert!(rt; found == want, "{interruptions} interruptions");
    }
}

fn flushed_told(told: Result<(), Failed>) -> char {
    match told {
        Ok(()) => 'x',
        Err(Failed) => 'f',
    }
}

fn two_flushes(interruptions: u32, then: Then) -> Told {
    let mut device = unsteady(interruptions, then);
    let first = flushed_told(device.flush());
    let failures = device.failures();
    let second = flushed_told(device.flush());
    [(first, failures), (second, device.failures())]
}

#[test]
fn flushes_are_counted(rt: HostRuntime) {
    for (interruptions, then, want) in [
        (0, Then::Works, [('x', 0), ('x', 0)]),
        (999, Then::Works, [('x', 0), ('x', 0)]),
        (1_000, Then::Works, [('f', 1), ('x', 1)]),
        (0, Then::Fails, [('f', 1), ('f', 2)]),
        (0, Then::Blocks, [('f', 1), ('x', 1)]),
    ] {
        let found = two_flushes(interruptions, then);
        assert!(rt; found == want, "{interruptions} interruptions");
    }
}
