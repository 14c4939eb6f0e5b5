//! Both sides of one device.

use crate::fakes::{Then, Unsteady};
use td_io::{Device, Pair, fill, put};

// What both sides tell of a value that is interrupted and would block once, with the count behind each.
fn blocked_sides() -> [(bool, u64); 4] {
    let reader = Unsteady {
        interruptions: 999,
        then: Then::Blocks,
    };
    let writer = Unsteady {
        interruptions: 1_000,
        then: Then::Works,
    };
    let mut channel = Device::link(Pair { reader, writer });
    let mut answer = [0u8; 1];
    let written = put(&mut channel, b"a").is_ok();
    let first = (written, channel.failures());
    let written = put(&mut channel, b"a").is_ok();
    let second = (written, channel.failures());
    let filled = fill(&mut channel, &mut answer).is_ok();
    let third = (filled, channel.failures());
    let filled = fill(&mut channel, &mut answer).is_ok();
    [first, second, third, (filled, channel.failures())]
}

#[test]
fn a_side_that_would_block_has_failed(rt: HostRuntime) {
    assert!(rt; blocked_sides() == [(false, 1), (true, 1), (false, 2), (true, 2)]);
}
