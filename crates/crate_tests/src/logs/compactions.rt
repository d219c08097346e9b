//! A log whose splits create four children, written as a fresh log.
use crate::checks::same_bytes;
use crate::memory::disk_of;
use disk_trait::LogDisk;
use log_compact::{compact, count_fresh, fresh_cells_are_few};
use recovery::inspect;
use std::alloc::Global;
use std::process::Abort;

// Put 7 at (3,5), with moment 10, and splits of the empty name, of `11` and of `00`.
const GROWN: &[u8] = b"MDLOCLOG\x02\x02\0\0\0\0\0\0\
    \x01\x01\0\0\0\0\0\0\0\x07\0\0\0\x03\0\0\0\x05\0\0\0\0\0\0\0\x0a\0\0\0\0\0\0\
    \x01\x04\0\0\0\0\0\0\0\x01\0\0\0\0\0\0\0\0\0\0\0\0\0\0\0\0\0\0\0\0\0\0\
    \x01\x05\0\0\0\0\0\0\0\x01\0\0\0\0\0\0\0\0\0\0\0\0\0\0\0\0\0\0\0\0\0\0\
    \x01\x04\0\0\0\0\0\0\0\x02\xc0\0\0\0\0\0\0\0\x02\0\0\0\0\0\0\0\0\0\0\0\0\0\
    \x01\x05\0\0\0\0\0\0\0\x02\0\0\0\0\0\0\0\0\0\0\0\0\0\0\0\0\0\0\0\0\0\0\
    \x01\x04\0\0\0\0\0\0\0\x03\0\0\0\0\0\0\0\0\x02\0\0\0\0\0\0\0\0\0\0\0\0\0\
    \x01\x05\0\0\0\0\0\0\0\x03\0\0\0\0\0\0\0\0\0\0\0\0\0\0\0\0\0\0\0\0\0\0\
    \0";

// The same splits in the order of names, and the put.
const FRESH: &[u8] = b"MDLOCLOG\x02\x02\0\0\0\0\0\0\
    \x01\x04\0\0\0\0\0\0\0\x01\0\0\0\0\0\0\0\0\0\0\0\0\0\0\0\0\0\0\0\0\0\0\
    \x01\x05\0\0\0\0\0\0\0\x01\0\0\0\0\0\0\0\0\0\0\0\0\0\0\0\0\0\0\0\0\0\0\
    \x01\x04\0\0\0\0\0\0\0\x02\0\0\0\0\0\0\0\0\x02\0\0\0\0\0\0\0\0\0\0\0\0\0\
    \x01\x05\0\0\0\0\0\0\0\x02\0\0\0\0\0\0\0\0\0\0\0\0\0\0\0\0\0\0\0\0\0\0\
    \x01\x04\0\0\0\0\0\0\0\x03\xc0\0\0\0\0\0\0\0\x02\0\0\0\0\0\0\0\0\0\0\0\0\0\
    \x01\x05\0\0\0\0\0\0\0\x03\0\0\0\0\0\0\0\0\0\0\0\0\0\0\0\0\0\0\0\0\0\0\
    \x01\x01\0\0\0\0\0\0\0\x07\0\0\0\x03\0\0\0\x05\0\0\0\0\0\0\0\x0a\0\0\0\0\0\0\
    \0";

// Inspects the log on a drive, and writes a fresh log on a target. Returns how many cells that has, and the target.
fn anew_on<D: LogDisk, T: LogDisk>(alloc: Global, disk: &mut D, target: T) -> Option<(u64, T)> {
    let Ok(seen) = inspect(alloc, disk, 2, 100) else {
        return None;
    };
    fresh_cells_are_few(&seen, 2);
    let count = count_fresh(&seen, 2);
    match compact(&seen, 2, target) {
        Ok(target) => Some((count, target)),
        Err(_) => None,
    }
}

// Fails unless the fresh log of this log has these bytes.
fn expect_anew(rt: &impl Abort, alloc: Global, log: &[u8], count: u64, fresh: &[u8]) {
    let mut disk = disk_of(rt, alloc, log, &[]);
    let Some((counted, target)) = anew_on(alloc, &mut disk, disk_of(rt, alloc, &[], &[])) else {
        rt.panic("no log is written")
    };
    assert_same!(rt; counted, count);
    same_bytes(rt, target.bytes(), fresh);
}

#[test]
fn a_log_of_four_children_a_split_is_written_anew(rt: HostRuntime) {
    expect_anew(&rt, rt.alloc(), GROWN, 7, FRESH);
    expect_anew(&rt, rt.alloc(), FRESH, 7, FRESH);
}
