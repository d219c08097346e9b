//! Books whose records wait for a sync: what the drive has before it and after it, and a sync whose drive fails.
use crate::book::batches::{ANSWERS, BATCH, CELLS, MADE, made, make, stands_on};
use crate::book::books::book_on;
use crate::book::calls::{Leaf, TAKEN, put, relocate, stands};
use crate::book::logged::{ADDING, SPLIT_LOG};
use crate::book::steps::{Step, Taken, follow};
use crate::logs::fixtures::log_of;
use crate::memory::{EMPTY_LOG, disk_of};
use commit_book::{Book, BookFault};
use disk_mem::{DiskCall, Fail, MemDisk};
use disk_trait::LogDisk;
use index_layer::Index;
use kd_trie::KdTrie;
use plain_list::{Entry, Lost};
use std::alloc::Global;
use std::process::Abort;

// A book over the log on a drive, whose records wait.
fn book_at_sync<I: Index, D: LogDisk>(rt: &impl Abort, alloc: Global, disk: D) -> Book<I, D> {
    let Ok(book) = book_on::<I, D>(rt, alloc, disk).at_sync(alloc) else {
        rt.panic("no book is made")
    };
    book
}

// A sync, whose contract says nothing.
fn sync<I: Index, D: LogDisk>(book: &mut Book<I, D>) -> Result<u64, BookFault> {
    book.sync()
}

// The drive of a book's log.
fn drive_of<I: Index, D: LogDisk>(book: Book<I, D>) -> Option<D> {
    book.into_parts().disk
}

// Four calls and four steps of splits in a book whose records wait.
fn adds<I: Index, D: LogDisk>(rt: &impl Abort, alloc: Global, disk: D) -> Book<I, D> {
    let mut book = book_at_sync::<I, D>(rt, alloc, disk);
    follow(rt, alloc, &mut book, ADDING);
    book
}

#[test]
fn records_that_wait_are_answered_and_not_in_the_file(rt: HostRuntime) {
    let disk = disk_of(&rt, rt.alloc(), EMPTY_LOG, &[]);
    let book = adds::<KdTrie, MemDisk>(&rt, rt.alloc(), disk);
    assert_same!(rt; stands_on(&drive_of(book), EMPTY_LOG), Some((1, true)));
}

#[test]
fn a_sync_writes_all_records_that_wait_by_one_append(rt: HostRuntime) {
    let disk = disk_of(&rt, rt.alloc(), EMPTY_LOG, &[]);
    let mut book = adds::<KdTrie, MemDisk>(&rt, rt.alloc(), disk);
    assert_same!(rt; sync(&mut book), Ok(4));
    assert_same!(rt; stands(&book), (5, 8, None));
    assert_same!(rt; stands_on(&drive_of(book), SPLIT_LOG), Some((5, true)));
}

#[test]
fn a_sync_makes_no_call_of_the_drive_if_no_record_waits(rt: HostRuntime) {
    let disk = disk_of(&rt, rt.alloc(), EMPTY_LOG, &[]);
    let mut book = adds::<KdTrie, MemDisk>(&rt, rt.alloc(), disk);
    assert_same!(rt; sync(&mut book), Ok(4));
    assert_same!(rt; sync(&mut book), Ok(4));
    assert_same!(rt; stands_on(&drive_of(book), SPLIT_LOG), Some((5, true)));
}

#[test]
fn a_sync_without_a_log_returns_the_place(rt: HostRuntime) {
    let mut book = Book::<KdTrie, MemDisk>::fresh(rt.alloc(), 4).expect(&rt, "no book is made");
    put(&mut book, 1, 7, at!(3, 5)).expect(&rt, "the put failed");
    assert_same!(rt; sync(&mut book), Ok(1));
    assert_same!(rt; stands(&book), (0, 1, None));
}

#[test]
fn a_sync_of_a_log_that_is_written_at_once_makes_no_call_of_the_drive(rt: HostRuntime) {
    let disk = disk_of(&rt, rt.alloc(), EMPTY_LOG, &[]);
    let mut book = book_on::<KdTrie, MemDisk>(&rt, rt.alloc(), disk);
    follow(&rt, rt.alloc(), &mut book, ADDING);
    assert_same!(rt; sync(&mut book), Ok(4));
    // The opening synced once, and each of five appends made four calls.
    assert_same!(rt; stands_on(&drive_of(book), SPLIT_LOG), Some((21, true)));
}

#[test]
fn the_records_of_a_batch_wait_too(rt: HostRuntime) {
    let disk = disk_of(&rt, rt.alloc(), EMPTY_LOG, &[]);
    let mut book = book_at_sync::<KdTrie, MemDisk>(&rt, rt.alloc(), disk);
    let done = make(rt.alloc(), &mut book, 1, &BATCH);
    assert_same!(rt; made(done, &ANSWERS), MADE);
    assert_same!(rt; stands(&book), (5, 8, None));
    assert_same!(rt; stands_on(&drive_of(book), EMPTY_LOG), Some((1, true)));
}

#[test]
fn a_sync_writes_the_records_of_a_batch(rt: HostRuntime) {
    let disk = disk_of(&rt, rt.alloc(), EMPTY_LOG, &[]);
    let mut book = book_at_sync::<KdTrie, MemDisk>(&rt, rt.alloc(), disk);
    let done = make(rt.alloc(), &mut book, 1, &BATCH);
    assert_same!(rt; made(done, &ANSWERS), MADE);
    assert_same!(rt; sync(&mut book), Ok(8));
    let log = log_of(&rt, rt.alloc(), &CELLS, &[0]);
    assert_same!(rt; stands_on(&drive_of(book), log.as_slice()), Some((5, true)));
}

// A put, a find and a split after a sync that failed at record 2.
const CLOSED: &[Taken] = &[
    (
        Step::Put(6, 9, at!(1, 1)),
        Err(BookFault::Closed { cell: 2 }),
        (5, 7, Some(2)),
    ),
    (
        Step::Find(7, 7),
        Err(BookFault::Closed { cell: 2 }),
        (5, 7, Some(2)),
    ),
    (
        Step::Begin(Leaf::Whole),
        Err(BookFault::Closed { cell: 2 }),
        (5, 7, Some(2)),
    ),
];

// Two puts that are synced, and then a split and a move, whose three records wait.
const BEFORE: &[Taken] = &[
    (
        Step::Put(1, 7, at!(3, 5, 10)),
        Ok((1, "done", None)),
        (1, 1, None),
    ),
    (
        Step::Put(2, 8, at!(8, 8)),
        Ok((2, "done", None)),
        (2, 2, None),
    ),
];

const WAITING: &[Taken] = &[
    (Step::Split(Leaf::Whole), Ok(TAKEN), (4, 4, None)),
    (
        Step::Move(3, 7, at!(4, 5, 12)),
        Ok((3, "moved", Some([3, 5, 10]))),
        (5, 5, None),
    ),
    (
        Step::Find(4, 7),
        Ok((4, "at", Some([4, 5, 12]))),
        (5, 6, None),
    ),
];

// An opening syncs once. An append writes, syncs, writes and syncs. The call of the second append that fails, and how many
// records the file has then.
const CALLS: &[(DiskCall, u64, u64)] = &[
    (DiskCall::Write, 3, 2),
    (DiskCall::Sync, 4, 2),
    (DiskCall::Write, 4, 2),
    (DiskCall::Sync, 5, 5),
];

// Whether this entry is the lost step of a sync that failed at record 2.
fn is_lost_sync(entry: &Entry) -> bool {
    match entry {
        Entry::Fail { cell, lost } => match lost {
            Lost::Abandon { number } => *cell == 2 && *number == 0,
            _ => false,
        },
        _ => false,
    }
}

fn ends_with_lost_sync(entries: &[Entry]) -> bool {
    match entries.last() {
        Some(entry) => is_lost_sync(entry),
        None => false,
    }
}

// How many records are found in a file with these bytes.
fn count_in(rt: &impl Abort, alloc: Global, bytes: &[u8]) -> u64 {
    let disk = disk_of(rt, alloc, bytes, &[]);
    book_on::<KdTrie, MemDisk>(rt, alloc, disk).cells()
}

fn records_on(rt: &impl Abort, alloc: Global, disk: &Option<MemDisk>) -> Option<u64> {
    let disk = disk.as_ref()?;
    Some(count_in(rt, alloc, disk.bytes()))
}

// A second sync on a drive on which this call fails.
fn loses_its_sync(rt: &impl Abort, alloc: Global, call: DiskCall, number: u64, found: u64) {
    let disk = disk_of(rt, alloc, EMPTY_LOG, &[Fail { call, number }]);
    let mut book = book_at_sync::<KdTrie, MemDisk>(rt, alloc, disk);
    follow(rt, alloc, &mut book, BEFORE);
    assert_same!(rt; sync(&mut book), Ok(2));
    follow(rt, alloc, &mut book, WAITING);
    assert_same!(rt; sync(&mut book), Err(BookFault::Disk { cell: 2 }));
    assert_same!(rt; sync(&mut book), Err(BookFault::Closed { cell: 2 }));
    follow(rt, alloc, &mut book, CLOSED);
    let parts = book.into_parts();
    assert_is!(rt; ends_with_lost_sync(parts.entries.as_slice()));
    assert_same!(rt; records_on(rt, alloc, &parts.disk), Some(found));
}

#[test]
fn a_sync_that_fails_closes_the_book_at_the_first_record_that_waited(rt: HostRuntime) {
    for (call, number, found) in CALLS {
        loses_its_sync(&rt, rt.alloc(), *call, *number, *found);
    }
}

// A drive with an empty log, and with room for 65,537 records of 32 bytes.
fn large_disk(rt: &impl Abort, alloc: Global) -> MemDisk {
    let bytes = Vec::from_slice(alloc, EMPTY_LOG).expect(rt, "no memory");
    MemDisk::new(alloc, bytes, 2_200_000, 64, Vec::new(alloc)).expect(rt, "no drive")
}

fn move_often<I: Index, D: LogDisk>(book: &mut Book<I, D>, moves: u32) -> Result<(), BookFault> {
    for row in 0..moves {
        relocate(book, row, 7, at!(3, 5, u64::from(row)))?;
    }
    Ok(())
}

// A put and so many moves in a book whose records wait. Each is a change.
fn moved_often<I: Index, D: LogDisk>(
    rt: &impl Abort,
    alloc: Global,
    disk: D,
    moves: u32,
) -> Book<I, D> {
    let mut book = book_at_sync::<I, D>(rt, alloc, disk);
    put(&mut book, 0, 7, at!(3, 5)).expect(rt, "the put failed");
    move_often(&mut book, moves).expect(rt, "a move failed");
    book
}

// How many moments a drive has, the opening's sync among them, and how many bytes.
fn size_on(disk: &Option<MemDisk>) -> Option<(u64, usize)> {
    let disk = disk.as_ref()?;
    Some((disk.moments(), disk.bytes().len()))
}

#[test]
fn as_many_records_wait_as_may(rt: HostRuntime) {
    let disk = large_disk(&rt, rt.alloc());
    let book = moved_often::<KdTrie, MemDisk>(&rt, rt.alloc(), disk, 65_535);
    assert_same!(rt; stands(&book), (65_536, 65_536, None));
    assert_same!(rt; size_on(&drive_of(book)), Some((1, 17)));
}

#[test]
fn one_record_more_than_may_wait_writes_all(rt: HostRuntime) {
    let disk = large_disk(&rt, rt.alloc());
    let book = moved_often::<KdTrie, MemDisk>(&rt, rt.alloc(), disk, 65_536);
    assert_same!(rt; stands(&book), (65_537, 65_537, None));
    assert_same!(rt; size_on(&drive_of(book)), Some((5, 2_097_201)));
}
