//! A log that begins with a world and its leaves.
use crate::checks::same_bytes;
use crate::logs::fixtures::{Found, said};
use crate::memory::disk_of;
use disk_mem::{DiskCall, Fail, MemDisk};
use disk_trait::LogDisk;
use log_compact::{CompactFault, begin_log, fresh_cells_are_few, fresh_seen};
use plain_list::Member;
use recovery::inspect;
use std::alloc::Global;
use std::process::Abort;
use zorder::Point;

// Put 7 at (3,5), with moment 10, and a split of the empty name that was begun twice.
const OLD: &[u8] = b"MDLOCLOG\x02\x01\0\0\0\0\0\0\
    \x01\x01\0\0\0\0\0\0\0\x07\0\0\0\x03\0\0\0\x05\0\0\0\0\0\0\0\x0a\0\0\0\0\0\0\
    \x01\x04\0\0\0\0\0\0\0\x01\0\0\0\0\0\0\0\0\0\0\0\0\0\0\0\0\0\0\0\0\0\0\
    \x01\x04\0\0\0\0\0\0\0\x02\0\0\0\0\0\0\0\0\0\0\0\0\0\0\0\0\0\0\0\0\0\0\
    \x01\x05\0\0\0\0\0\0\0\x02\0\0\0\0\0\0\0\0\0\0\0\0\0\0\0\0\0\0\0\0\0\0\
    \0";

// A split of the empty name, and the put.
const NEW: &[u8] = b"MDLOCLOG\x02\x01\0\0\0\0\0\0\
    \x01\x04\0\0\0\0\0\0\0\x01\0\0\0\0\0\0\0\0\0\0\0\0\0\0\0\0\0\0\0\0\0\0\
    \x01\x05\0\0\0\0\0\0\0\x01\0\0\0\0\0\0\0\0\0\0\0\0\0\0\0\0\0\0\0\0\0\0\
    \x01\x01\0\0\0\0\0\0\0\x07\0\0\0\x03\0\0\0\x05\0\0\0\0\0\0\0\x0a\0\0\0\0\0\0\
    \0";

const SEVEN: Member = Member {
    id: 7,
    at: Point { x: 3, y: 5 },
    moment: 10,
};

// Three cells of version 2, one split begun and ended, two leaves, and one object.
const BEGUN: Found = ([2, 3, 1, 0], (2, false), (1, Some(SEVEN)));

// Begins a log with the objects and the leaves of the log on a drive. Returns what is found in it and how many cells it
// has, or why there is none.
fn begin_on<D: LogDisk, T: LogDisk>(
    rt: &impl Abort,
    alloc: Global,
    disk: &mut D,
    target: T,
) -> (Result<(Found, u64), CompactFault>, T) {
    let Ok(found) = inspect(alloc, disk, 1, 100) else {
        rt.panic("no log")
    };
    fresh_cells_are_few(&found, 1);
    let Some(seen) = fresh_seen(found.world, found.leaves, 1) else {
        rt.panic("too long")
    };
    match begin_log(seen, 1, target) {
        Ok(opened) => {
            let begun = (said(&opened.seen), opened.log.cells());
            (Ok(begun), opened.log.give_back())
        }
        Err(refused) => (Err(refused.cause), refused.disk),
    }
}

// The target after that, if these calls fail.
fn begun(
    rt: &impl Abort,
    alloc: Global,
    failing: &[Fail],
    wanted: Result<(Found, u64), CompactFault>,
) -> MemDisk {
    let mut old = disk_of(rt, alloc, OLD, &[]);
    let (said, target) = begin_on(rt, alloc, &mut old, disk_of(rt, alloc, &[], failing));
    assert_same!(rt; said, wanted);
    target
}

#[test]
fn a_log_begins_with_a_world_and_its_leaves(rt: HostRuntime) {
    let target = begun(&rt, rt.alloc(), &[], Ok((BEGUN, 3)));
    same_bytes(&rt, target.bytes(), NEW);
}

// A write and a sync create the log. A write, a sync, a write and a sync add its cells.
const CALLS: &[(DiskCall, u64, u64)] = &[
    (DiskCall::Write, 1, 1),
    (DiskCall::Sync, 1, 2),
    (DiskCall::Write, 2, 3),
    (DiskCall::Sync, 2, 4),
    (DiskCall::Write, 3, 5),
    (DiskCall::Sync, 3, 6),
];

#[test]
fn a_log_does_not_begin_on_a_drive_that_fails(rt: HostRuntime) {
    for (call, number, moments) in CALLS {
        let failing = Fail {
            call: *call,
            number: *number,
        };
        let target = begun(&rt, rt.alloc(), &[failing], Err(CompactFault::Disk));
        assert_same!(rt; target.moments(), *moments);
    }
}
