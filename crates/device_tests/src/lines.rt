//! What ends the reading of a line.

use crate::fakes::{Then, Unsteady};
use td_io::{Device, LineError, Source, read_line};

#[test]
fn a_failing_reader_ends_a_line(rt: HostRuntime) {
    let mut source = Device::new(Unsteady {
        interruptions: 0,
        then: Then::Fails,
    });
    let mut reads = 9;
    let failed = read_line(rt.alloc(), &mut source, &mut reads, 9);
    assert!(rt; matches!(failed, Err(LineError::ReadFault)));
    assert!(rt; source.failures() == 1);
    assert!(rt; reads == 8);
}
