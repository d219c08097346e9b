//! Books over a log in memory: the cell of each step, a drive that fails, and what is read from a log.
use crate::book::calls::{Leaf, TAKEN};
use crate::book::steps::{Step, Taken, follow_on};
use crate::memory::{EMPTY_LOG, disk_of};
use commit_book::{Book, BookFault};
use disk_mem::{DiskCall, Fail, MemDisk};
use disk_trait::LogDisk;
use index_layer::Index;
use kd_trie::KdTrie;
use plain_list::{Entry, Lost, Op};
use std::alloc::Global;
use std::process::Abort;
use zorder::Point;

/// Put 7 at (3,5), begin 1 of the empty name, install 1, begin 2 of `0`, abandon 2.
pub const SPLIT_LOG: &[u8] = b"MDLOCLOG\x02\x01\0\0\0\0\0\0\
    \x01\x01\0\0\0\0\0\0\0\x07\0\0\0\x03\0\0\0\x05\0\0\0\0\0\0\0\0\0\0\0\0\0\0\
    \x01\x04\0\0\0\0\0\0\0\x01\0\0\0\0\0\0\0\0\0\0\0\0\0\0\0\0\0\0\0\0\0\0\
    \x01\x05\0\0\0\0\0\0\0\x01\0\0\0\0\0\0\0\0\0\0\0\0\0\0\0\0\0\0\0\0\0\0\
    \x01\x04\0\0\0\0\0\0\0\x02\0\0\0\0\0\0\0\0\x01\0\0\0\0\0\0\0\0\0\0\0\0\0\
    \x01\x06\0\0\0\0\0\0\0\x02\0\0\0\0\0\0\0\0\0\0\0\0\0\0\0\0\0\0\0\0\0\0\
    \0";

/// Four rows, a split, and one that is abandoned.
pub const ADDING: &[Taken] = &[
    (Step::Stand, Ok(TAKEN), (0, 0, None)),
    (
        Step::Put(1, 7, at!(3, 5)),
        Ok((1, "done", None)),
        (1, 1, None),
    ),
    (
        Step::Put(2, 7, at!(8, 8)),
        Ok((2, "present", Some([3, 5, 0]))),
        (1, 2, None),
    ),
    (
        Step::Find(3, 7),
        Ok((3, "at", Some([3, 5, 0]))),
        (1, 3, None),
    ),
    (
        Step::Look(4),
        Ok((4, "seen", Some([0, 1, 0]))),
        (1, 4, None),
    ),
    (Step::Split(Leaf::Whole), Ok(TAKEN), (3, 6, None)),
    (
        Step::Begin(Leaf::Zero),
        Ok((2, "begun", None)),
        (4, 7, None),
    ),
    (Step::Abandon(2), Ok(TAKEN), (5, 8, None)),
];

// Takes these steps over the log on a drive, and returns the drive.
pub fn drive_behind<I: Index, D: LogDisk>(
    rt: &impl Abort,
    alloc: Global,
    disk: D,
    steps: &[Taken],
) -> Option<D> {
    let parts = follow_on::<I, D>(rt, alloc, disk, steps).into_parts();
    parts.disk
}

fn has_log(disk: &Option<MemDisk>, log: &[u8]) -> bool {
    match disk {
        Some(disk) => disk.bytes() == log,
        None => false,
    }
}

#[test]
fn a_change_and_a_step_of_a_split_add_a_cell_each(rt: HostRuntime) {
    let disk = disk_of(&rt, rt.alloc(), EMPTY_LOG, &[]);
    let left = drive_behind::<KdTrie, MemDisk>(&rt, rt.alloc(), disk, ADDING);
    assert_is!(rt; has_log(&left, SPLIT_LOG));
}

// Put 7 at (3,5) and move 7 to (4,5), both with moment 10.
const MOVED_LOG: &[u8] = b"MDLOCLOG\x02\x01\0\0\0\0\0\0\
    \x01\x01\0\0\0\0\0\0\0\x07\0\0\0\x03\0\0\0\x05\0\0\0\0\0\0\0\x0a\0\0\0\0\0\0\
    \x01\x02\0\0\0\0\0\0\0\x07\0\0\0\x04\0\0\0\x05\0\0\0\0\0\0\0\x0a\0\0\0\0\0\0\
    \0";

// A late move, one with an equal moment, and a put with a greater one.
const MOVING: &[Taken] = &[
    (
        Step::Put(1, 7, at!(3, 5, 10)),
        Ok((1, "done", None)),
        (1, 1, None),
    ),
    (
        Step::Move(2, 7, at!(4, 5, 9)),
        Ok((2, "stale", Some([3, 5, 10]))),
        (1, 2, None),
    ),
    (
        Step::Move(3, 7, at!(4, 5, 10)),
        Ok((3, "moved", Some([3, 5, 10]))),
        (2, 3, None),
    ),
    (
        Step::Find(4, 7),
        Ok((4, "at", Some([4, 5, 10]))),
        (2, 4, None),
    ),
    (
        Step::Put(5, 7, at!(8, 8, 11)),
        Ok((5, "present", Some([4, 5, 10]))),
        (2, 5, None),
    ),
];

// A late move, moves to the point where the object is, and a put after a removal, over the log of those.
const MOVING_ON: &[Taken] = &[
    (
        Step::Move(1, 7, at!(3, 5, 9)),
        Ok((1, "stale", Some([4, 5, 10]))),
        (2, 1, None),
    ),
    (
        Step::Move(2, 7, at!(4, 5, 12)),
        Ok((2, "moved", Some([4, 5, 10]))),
        (3, 2, None),
    ),
    (
        Step::Move(3, 7, at!(4, 5, 11)),
        Ok((3, "stale", Some([4, 5, 12]))),
        (3, 3, None),
    ),
    (
        Step::Drop(4, 7),
        Ok((4, "gone", Some([4, 5, 12]))),
        (4, 4, None),
    ),
    (
        Step::Put(5, 7, at!(8, 8, 3)),
        Ok((5, "done", None)),
        (5, 5, None),
    ),
    (
        Step::Find(6, 7),
        Ok((6, "at", Some([8, 8, 3]))),
        (5, 6, None),
    ),
];

#[test]
fn moments_are_kept_and_a_late_move_adds_no_cell(rt: HostRuntime) {
    let disk = disk_of(&rt, rt.alloc(), EMPTY_LOG, &[]);
    let left = drive_behind::<KdTrie, MemDisk>(&rt, rt.alloc(), disk, MOVING);
    assert_is!(rt; has_log(&left, MOVED_LOG));
    let disk = disk_of(&rt, rt.alloc(), MOVED_LOG, &[]);
    let _left = drive_behind::<KdTrie, MemDisk>(&rt, rt.alloc(), disk, MOVING_ON);
}

// Whether this is the history of a first row whose append failed.
fn is_lost_put(entries: &[Entry]) -> bool {
    match entries {
        [Entry::Fail { cell: 0, lost }] => is_put_of_7(lost),
        _ => false,
    }
}

// Whether the put of 7 at (3,5) with moment 10, the first row, was lost.
fn is_put_of_7(lost: &Lost) -> bool {
    match lost {
        Lost::Call {
            session: 1,
            row: 1,
            op: Op::Put { id: 7, at, moment },
        } => *at == Point { x: 3, y: 5 } && *moment == 10,
        _ => false,
    }
}

/// A put whose append fails, and one after it.
pub const CLOSING: &[Taken] = &[
    (
        Step::Put(1, 7, at!(3, 5, 10)),
        Err(BookFault::Disk { cell: 0 }),
        (0, 1, Some(0)),
    ),
    (
        Step::Put(2, 8, at!(1, 1)),
        Err(BookFault::Closed { cell: 0 }),
        (0, 1, Some(0)),
    ),
];

// Whether a book has the lost put alone, and no rows in the leaf of (3,5).
fn has_lost_its_put<I: Index, D: LogDisk>(book: Book<I, D>) -> bool {
    let parts = book.into_parts();
    parts.index.leaf_of(27).1.count() == 0 && is_lost_put(parts.entries.as_slice())
}

fn closes_for_good<I: Index, D: LogDisk>(rt: &impl Abort, alloc: Global, disk: D) -> bool {
    has_lost_its_put(follow_on::<I, D>(rt, alloc, disk, CLOSING))
}

// The same over a drive in memory on which this call fails.
fn closes(rt: &impl Abort, alloc: Global, call: DiskCall, number: u64) -> bool {
    let disk = disk_of(rt, alloc, EMPTY_LOG, &[Fail { call, number }]);
    closes_for_good::<KdTrie, MemDisk>(rt, alloc, disk)
}

// An opening syncs once. An append writes, syncs, writes and syncs.
const CALLS: &[(DiskCall, u64)] = &[
    (DiskCall::Write, 1),
    (DiskCall::Sync, 2),
    (DiskCall::Write, 2),
    (DiskCall::Sync, 3),
];

#[test]
fn a_put_whose_append_fails_closes_the_book(rt: HostRuntime) {
    for (call, number) in CALLS {
        assert_is!(rt; closes(&rt, rt.alloc(), *call, *number));
    }
}

// A row that looks up what the log has, one that finds it there, and splits.
const GOING_ON: &[Taken] = &[
    (Step::Stand, Ok(TAKEN), (5, 0, None)),
    (
        Step::Find(1, 7),
        Ok((1, "at", Some([3, 5, 0]))),
        (5, 1, None),
    ),
    (
        Step::Put(2, 7, at!(8, 8)),
        Ok((2, "present", Some([3, 5, 0]))),
        (5, 2, None),
    ),
    (
        Step::Begin(Leaf::Whole),
        Err(BookFault::NoLeaf),
        (5, 2, None),
    ),
    (
        Step::Abandon(2),
        Err(BookFault::NotOpen { number: 2 }),
        (5, 2, None),
    ),
    (
        Step::Begin(Leaf::Zero),
        Ok((3, "begun", None)),
        (6, 3, None),
    ),
];

#[test]
fn a_book_goes_on_with_what_its_log_says(rt: HostRuntime) {
    let disk = disk_of(&rt, rt.alloc(), SPLIT_LOG, &[]);
    let _left = drive_behind::<KdTrie, MemDisk>(&rt, rt.alloc(), disk, GOING_ON);
}
