//! The width that the head of a log names.
use crate::memory::{EMPTY_LOG, disk_of};
use disk_trait::LogDisk;
use recovery::{OpenFault, width_of};
use std::alloc::Global;
use std::process::Abort;

fn width_on<D: LogDisk>(disk: &mut D) -> Result<u8, OpenFault> {
    width_of(disk)
}

fn expect_width(rt: &impl Abort, alloc: Global, bytes: &[u8], wanted: Result<u8, OpenFault>) {
    let mut disk = disk_of(rt, alloc, bytes, &[]);
    assert_same!(rt; width_on(&mut disk), wanted);
}

macro_rules! old {
    ($version:expr, $width:expr) => {
        Err(OpenFault::OldLog {
            version: $version,
            width: $width,
        })
    };
}

// A damaged cell follows the second head, and no commit byte follows the last but one.
const WIDTHS: &[(&[u8], Result<u8, OpenFault>)] = &[
    (EMPTY_LOG, Ok(1)),
    (b"MDLOCLOG\x02\x02\0\0\0\0\0\0\x01\x09", Ok(2)),
    (b"MDLOCLOG\x01\x02\0\0\0\0\0\0\0", Ok(2)),
    (b"MDLOCLOG\x02\x03\0\0\0\0\0\0\0", old!(2, 3)),
    (b"MDLOCLOG\x02\x00\0\0\0\0\0\0\0", old!(2, 0)),
    (b"MDLOCLOG\x00\x01\0\0\0\0\0\0\0", old!(0, 1)),
    (b"MDLOCLOG\x03\x02\0\0\0\0\0\0\0", old!(3, 2)),
    (b"MDLOCLOG\x02\x01\0\0\0\0\0\x01\0", Err(OpenFault::NotLog)),
    (b"MDLOCLOG\x02\x01\0\0\0\0\0\0", Err(OpenFault::NotLog)),
    (b"mdloclog\x02\x01\0\0\0\0\0\0\0", Err(OpenFault::NotLog)),
];

#[test]
fn the_head_of_a_log_names_its_width(rt: HostRuntime) {
    for (bytes, width) in WIDTHS {
        expect_width(&rt, rt.alloc(), bytes, *width);
    }
}
