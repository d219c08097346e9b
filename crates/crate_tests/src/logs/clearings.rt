//! A log whose cells are all removed.
use crate::checks::same_bytes;
use crate::logs::fixtures::ONE_CELL;
use crate::memory::{EMPTY_LOG, disk_of};
use disk_mem::{DiskCall, Fail, MemDisk};
use disk_trait::LogDisk;
use log_compact::clear_log;
use recovery::open;
use std::alloc::Global;
use std::process::Abort;

// The same log with another value of its first commit byte.
const CLEARED: &[u8] =
    b"MDLOCLOG\x02\x01\0\0\0\0\0\0\0\x01\0\0\0\0\0\0\0\x07\0\0\0\x03\0\0\0\x05\0\0\0\0\0\0\0\x0a\0\0\0\0\0\0\0";

const TORN: &[u8] =
    b"MDLOCLOG\x02\x01\0\0\0\0\0\0\x09\x01\0\0\0\0\0\0\0\x07\0\0\0\x03\0\0\0\x05\0\0\0\0\0\0\0\x0a\0\0\0\0\0\0\0";

// Opens the log on a drive, which takes a sync, and clears it. Returns whether that was done.
fn clear_on<D: LogDisk>(rt: &impl Abort, alloc: Global, disk: D) -> (bool, D) {
    let Ok(opened) = open(alloc, disk, 1, 16) else {
        rt.panic("the log isn't opened")
    };
    match clear_log(opened.log) {
        Ok(disk) => (true, disk),
        Err(refused) => (false, refused.disk),
    }
}

// The drive after the clearing of a log, if these calls fail.
fn cleared(
    rt: &impl Abort,
    alloc: Global,
    bytes: &[u8],
    failing: &[Fail],
    wanted: bool,
) -> MemDisk {
    let (done, disk) = clear_on(rt, alloc, disk_of(rt, alloc, bytes, failing));
    assert_same!(rt; done, wanted);
    disk
}

// Fails unless a crash at a moment leaves this image: the one of this length with this value in each free byte.
fn expect_image(rt: &impl Abort, disk: &MemDisk, moment: u64, len: u64, fill: u8, wanted: &[u8]) {
    let image = disk.pick(moment, len, &[fill]).expect(rt, "no image");
    same_bytes(rt, image.as_slice(), wanted);
}

// The opening's sync is the first moment, and a clearing has four more.
#[test]
fn a_log_is_cleared_by_four_calls(rt: HostRuntime) {
    let disk = cleared(&rt, rt.alloc(), ONE_CELL, &[], true);
    same_bytes(&rt, disk.bytes(), EMPTY_LOG);
    assert_same!(rt; disk.moments(), 5);
}

// The write may leave any commit byte, which is clear from the next sync on. The cut may leave any bytes after it.
#[test]
fn a_crash_in_a_clearing_leaves_the_log_or_none_of_it(rt: HostRuntime) {
    let disk = cleared(&rt, rt.alloc(), ONE_CELL, &[], true);
    expect_image(&rt, &disk, 1, 49, 9, ONE_CELL);
    expect_image(&rt, &disk, 2, 49, 1, ONE_CELL);
    expect_image(&rt, &disk, 2, 49, 9, TORN);
    expect_image(&rt, &disk, 3, 49, 9, CLEARED);
    expect_image(
        &rt,
        &disk,
        4,
        19,
        9,
        b"MDLOCLOG\x02\x01\0\0\0\0\0\0\0\x09\x09",
    );
    expect_image(&rt, &disk, 5, 49, 9, EMPTY_LOG);
}

#[test]
fn a_log_of_no_cells_is_left(rt: HostRuntime) {
    let disk = cleared(&rt, rt.alloc(), EMPTY_LOG, &[], true);
    same_bytes(&rt, disk.bytes(), EMPTY_LOG);
    assert_same!(rt; disk.moments(), 1);
}

// Each call of a clearing, by its number among its kind, and the clock after it. The opening's sync is the first.
const CALLS: &[(DiskCall, u64, u64)] = &[
    (DiskCall::Write, 1, 2),
    (DiskCall::Sync, 2, 3),
    (DiskCall::Cut, 1, 4),
    (DiskCall::Sync, 3, 5),
];

#[test]
fn no_call_is_made_behind_one_that_failed(rt: HostRuntime) {
    for (call, number, moments) in CALLS {
        let failing = Fail {
            call: *call,
            number: *number,
        };
        let disk = cleared(&rt, rt.alloc(), ONE_CELL, &[failing], false);
        assert_same!(rt; disk.moments(), *moments);
    }
}
